// The records of an image, over any layout: one in use is decoded and counted, an unused one compared with the fresh one.
ghost use Rattle.std.specs.Prelude.{◌≡◌, ◌+◌, ◌*◌, ◌≤◌, length};
ghost use Rattle.image_parts.specs.Layout.{Lawful, Housed, image_size_lem, record_size_lem};
ghost use Rattle.pool_state.specs.Shown.{pool};
ghost use Rattle.image_records.specs.Records.{entry_in_lem, unlinked_at, fresh_at, FreshRecords, ReadsRecords};

use crate::numbers::{link_in, link_number_in, word_in};
use check_records::is_proper;
use image_parts::layout::{ENABLED, END, LINKS, Layout, no_link, record_size, records_at};
use image_parts::records::MemoryEntry;
use pool_state::{Address, POOL, RecordIndex};

// Four links of two bytes are the eight bytes of one number. Of others: no number of a link is above that of none, so four add up to so much
// only where each is none.
fn is_unlinked(image: &[u8], form: Layout, at: usize) -> bool
    requires lawful { Lawful form }
    requires link_in_bounds { at + form.link * 4 ≤ length image.now }
    ensures { result ≡ unlinked_at form image.now at }
{
    let width = form.link;
    if width == 2 {
        return word_in(image, at) == 18446744073709551615;
    }
    let previous = link_number_in(image, form, at, 0);
    let next = link_number_in(image, form, at, 1);
    let lprev = link_number_in(image, form, at, 2);
    let lnext = link_number_in(image, form, at, 3);
    previous + next + lprev + lnext == no_link(form) * 4
}

// Whether the unused record from `at` on is the fresh one.
fn is_fresh(image: &[u8], form: Layout, at: usize) -> bool
    requires lawful { Lawful form }
    requires form_in_bounds { at + record_size_lem form ≤ length image.now }
    ensures { result ≡ fresh_at form image.now at }
{
    if word_in(image, at) != 0 {
        return false;
    }
    if word_in(image, at + END) != 0 {
        return false;
    }
    is_unlinked(image, form, at + LINKS)
}

// The record in use from `at` on.
fn record_in(image: &[u8], form: Layout, at: usize) -> MemoryEntry
    requires lawful { Lawful form }
    requires form_in_bounds { at + record_size_lem form ≤ length image.now }
    ensures { result ≡ entry_in_lem form image.now at }
{
    MemoryEntry {
        start: Address(word_in(image, at)),
        end: Address(word_in(image, at + END)),
        enabled: true,
        previous: RecordIndex(link_in(image, form, at + LINKS, 0)),
        next: RecordIndex(link_in(image, form, at + LINKS, 1)),
        list_prev: RecordIndex(link_in(image, form, at + LINKS, 2)),
        list_next: RecordIndex(link_in(image, form, at + LINKS, 3)),
    }
}

// The records, into arrays that are fresh: an unused one is left as it is, and so are the places past those that the layout has. Those in use are
// counted on the way, so that the check of the state need not go through the records again.
pub fn read_records(
    image: &[u8],
    form: Layout,
    start: &mut [u64; POOL],
    end: &mut [u64; POOL],
    enabled: &mut [bool; POOL],
    previous: &mut [u16; POOL],
    next: &mut [u16; POOL],
    lprev: &mut [u16; POOL],
    lnext: &mut [u16; POOL],
) -> Option<usize>
    requires housed { Housed form }
    requires image_len { length image.now ≡ image_size_lem form }
    requires fresh_records { FreshRecords pool start end enabled previous next lprev lnext }
    ensures { ReadsRecords pool form image.now result start end enabled previous next lprev lnext }
{
    let from = records_at(form);
    let size = record_size(form);
    let count = form.records;
    let mut used: usize = 0;
    for i in 0..count {
        let at = from + size * i;
        let flag = image[at + ENABLED];
        if flag == 0 {
            if is_fresh(image, form, at) {
                continue;
            }
            return None;
        }
        if flag != 1 {
            return None;
        }
        let e = record_in(image, form, at);
        if is_proper(e.start, e.end) {
            start[i] = e.start.0;
            end[i] = e.end.0;
            enabled[i] = true;
            previous[i] = e.previous.0;
            next[i] = e.next.0;
            lprev[i] = e.list_prev.0;
            lnext[i] = e.list_next.0;
            used += 1;
            continue;
        }
        return None;
    }
    Some(used)
}
