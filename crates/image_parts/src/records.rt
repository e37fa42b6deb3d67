// One record, in its own bytes.
ghost use Rattle.std.specs.Prelude.{◌≡◌, length};
ghost use Rattle.image_parts.specs.Layout.{current, record_size_lem};
ghost use Rattle.image_parts.specs.Written.{flag_number_lem, record_bytes};

use crate::layout::{ENABLED, END, LINKS, RECORD};
use crate::links::write_links;
use bytes_be::{put_be, put_word};
use pool_state::{Address, RecordIndex};

#[derive(Clone, Copy)]
pub struct MemoryEntry {
    pub start: Address,
    pub end: Address,
    pub enabled: bool,
    pub previous: RecordIndex,
    pub next: RecordIndex,
    pub list_prev: RecordIndex,
    pub list_next: RecordIndex,
}

pub fn flag_number(on: bool) -> u64
    ensures { result ≡ flag_number_lem on }
{
    u64::from(on)
}

pub fn write_record(part: &mut [u8], e: MemoryEntry)
    requires { length part.old ≡ record_size_lem current }
    ensures { part.new ≡ record_bytes current e }
{
    let links = [e.previous.0, e.next.0, e.list_prev.0, e.list_next.0];
    put_word(&mut part[0..END], e.start.0);
    put_word(&mut part[END..ENABLED], e.end.0);
    put_be(&mut part[ENABLED..LINKS], flag_number(e.enabled));
    write_links(&mut part[LINKS..RECORD], &links);
}
