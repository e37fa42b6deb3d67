// Numbers and links in an image, over any layout.
ghost use Rattle.std.specs.Prelude.{◌≡◌, ◌+◌, ◌*◌, ◌≤◌, length};
ghost use Rattle.image_parts.specs.Layout.{Lawful, word, no_link};
ghost use Rattle.image_parts.specs.Read.{Spaced, number_in, links_in};
ghost use Rattle.pool_state.specs.Lent.{was, is};
ghost use Rattle.image_records.specs.Records.{link_number_in_lem, link_in};

use bytes_be::{read_be, read_pair, read_word};
use image_parts::layout::{Layout, WORD};
use image_parts::links::link_of;

// The number in the eight bytes from `at` on.
pub fn word_in(image: &[u8], at: usize) -> u64
    requires { at + word ≤ length image.now }
    ensures { result ≡ number_in image.now at word }
{
    read_word(&image[at..at + WORD])
}

// The number of the k-th of the links from `at` on. Two bytes, as many as a link of the current version has, are read without a loop.
pub fn link_number_in(image: &[u8], form: Layout, at: usize, k: usize) -> u64
    requires lawful { Lawful form }
    requires link_in_bounds { at + form.link * k + form.link ≤ length image.now }
    ensures value { result ≡ link_number_in_lem form image.now at k }
    ensures fits { result ≤ no_link form }
{
    let width = form.link;
    let from = at + width * k;
    if width == 2 {
        return read_pair(&image[from..from + 2]);
    }
    read_be(&image[from..from + width])
}

// The k-th of the links from `at` on.
pub fn link_in(image: &[u8], form: Layout, at: usize, k: usize) -> u16
    requires lawful { Lawful form }
    requires link_in_bounds { at + form.link * k + form.link ≤ length image.now }
    ensures { result ≡ link_in form image.now at k }
{
    link_of(form, link_number_in(image, form, at, k)).0
}

// Links side by side, from `at` on.
pub fn read_links(image: &[u8], form: Layout, at: usize, links: &mut [u16])
    requires lawful { Lawful form }
    requires spaced { Spaced at form.link form.link (length links.old) (length image.now) }
    ensures { is links ≡ links_in form image.now at form.link (length (was links)) }
{
    for k in 0..links.len() {
        links[k] = link_in(image, form, at, k);
    }
}
