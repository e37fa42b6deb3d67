// Links in bytes.
ghost use Rattle.std.specs.Prelude.{◌≡◌, ◌*◌, ◌≤◌, length};
ghost use Rattle.image_parts.specs.Layout.{Lawful, current, no_link};
ghost use Rattle.image_parts.specs.Written.{link_number_lem, link_bytes};
ghost use Rattle.image_parts.specs.Read.{link_of};

use crate::layout::{LINK, Layout, NO_LINK, no_link};
use bytes_be::put_be;
use pool_state::{NONE, RecordIndex};

pub fn link_number(r: RecordIndex) -> u64
    ensures { result ≡ link_number_lem current r.0 }
{
    u64::from(r.0.min(NO_LINK))
}

pub fn link_of(form: Layout, x: u64) -> RecordIndex
    requires lawful { Lawful form }
    requires x_bound { x ≤ no_link form }
    ensures { result.0 ≡ link_of form x }
{
    if x == no_link(form) {
        RecordIndex(NONE)
    } else {
        RecordIndex(x as u16)
    }
}

pub fn write_links(part: &mut [u8], links: &[u16])
    requires { length part.old ≡ current.link * length links.now }
    ensures { part.new ≡ link_bytes current links.now }
{
    for (k, link) in links.iter().enumerate() {
        let at = LINK * k;
        put_be(&mut part[at..at + LINK], link_number(RecordIndex(*link)));
    }
}
