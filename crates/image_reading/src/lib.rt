// An image of any layout, read into lent fields: the ranges, and the lowest figure beside them.
#![tactic(auto)]

ghost use Rattle.std.specs.Prelude.{cond, ◌≡◌, ◌≤◌, eqb, length};
ghost use Rattle.image_parts.specs.Layout.{Lawful, Housed, current, word, low_at, records_at_lem};
ghost use Rattle.image_parts.specs.Read.{number_in};
ghost use Rattle.pool_state.specs.Shown.{pool};
ghost use Rattle.image_reading.specs.Reading.{headed, FreshFields, ReadsTen, ReadsFields, ReadsCurrentFields};

use account_state::is_low_sound;
use bytes_be::read_be;
use check_state::links_ok;
use image_parts::layout::{CURRENT, FIRST, LENGTH, Layout, TOTAL, image_size};
use image_records::numbers::{link_in, read_links, word_in};
use image_records::records::read_records;
use pool_state::{LISTS, POOL, RecordIndex};

// Whether length, version and length field are right.
fn is_headed(image: &[u8], form: Layout) -> bool
    requires { Lawful form }
    ensures { result ≡ headed form image.now }
{
    let size = image_size(form);
    let version = form.version;
    if image.len() != size {
        return false;
    }
    if read_be(&image[0..LENGTH]) != version {
        return false;
    }
    read_be(&image[LENGTH..TOTAL]) == (size - TOTAL) as u64
}

// The lowest figure of an image of this layout; where it has none, the total stands for it.
fn low_in(image: &[u8], form: Layout, total: u64) -> u64
    requires lawful { Lawful form }
    requires form_in_bounds { records_at_lem form ≤ length image.now }
    ensures { result ≡ cond (eqb form.low 0) total (number_in image.now (low_at form) word) }
{
    if form.low == 0 {
        return total;
    }
    word_in(image, FIRST + form.link + form.link * LISTS)
}

// The sound ranges of an image, if it holds some, into fields that are those of the empty state.
fn read_ranges(
    image: &[u8],
    form: Layout,
    total: &mut u64,
    first: &mut u16,
    heads: &mut [u16; LISTS],
    start: &mut [u64; POOL],
    end: &mut [u64; POOL],
    enabled: &mut [bool; POOL],
    previous: &mut [u16; POOL],
    next: &mut [u16; POOL],
    lprev: &mut [u16; POOL],
    lnext: &mut [u16; POOL],
) -> bool
    requires housed { Housed form }
    requires fresh_fields { FreshFields pool total first heads start end enabled previous next lprev lnext }
    ensures { ReadsTen pool form image.now result total first heads start end enabled previous next lprev lnext }
{
    if is_headed(image, form) {
        let Some(count) = read_records(
            image, form, start, end, enabled, previous, next, lprev, lnext,
        ) else {
            return false;
        };
        *total = word_in(image, TOTAL);
        *first = link_in(image, form, FIRST, 0);
        let at = FIRST + form.link;
        read_links(image, form, at, heads);
        return links_ok(
            *total,
            RecordIndex(*first),
            heads,
            start,
            end,
            enabled,
            previous,
            next,
            lprev,
            lnext,
            count,
        );
    }
    false
}

// The sound account whose image this is, if there is one: its ranges, and the figure beside them.
pub fn read_fields(
    image: &[u8],
    form: Layout,
    lowest: &mut u64,
    total: &mut u64,
    first: &mut u16,
    heads: &mut [u16; LISTS],
    start: &mut [u64; POOL],
    end: &mut [u64; POOL],
    enabled: &mut [bool; POOL],
    previous: &mut [u16; POOL],
    next: &mut [u16; POOL],
    lprev: &mut [u16; POOL],
    lnext: &mut [u16; POOL],
) -> bool
    requires housed { Housed form }
    requires fresh_fields { FreshFields pool total first heads start end enabled previous next lprev lnext }
    ensures { ReadsFields pool form image.now result lowest total first heads start end enabled previous next lprev lnext }
{
    if read_ranges(
        image, form, total, first, heads, start, end, enabled, previous, next, lprev, lnext,
    ) {
        *lowest = low_in(image, form, *total);
        return is_low_sound(*total, *lowest);
    }
    false
}

// The same of the current version alone.
pub fn read_current(
    image: &[u8],
    lowest: &mut u64,
    total: &mut u64,
    first: &mut u16,
    heads: &mut [u16; LISTS],
    start: &mut [u64; POOL],
    end: &mut [u64; POOL],
    enabled: &mut [bool; POOL],
    previous: &mut [u16; POOL],
    next: &mut [u16; POOL],
    lprev: &mut [u16; POOL],
    lnext: &mut [u16; POOL],
) -> bool
    requires { FreshFields pool total first heads start end enabled previous next lprev lnext }
    ensures { ReadsCurrentFields current image.now result lowest total first heads start end enabled previous next lprev lnext }
{
    read_fields(
        image, CURRENT, lowest, total, first, heads, start, end, enabled, previous, next, lprev,
        lnext,
    )
}
