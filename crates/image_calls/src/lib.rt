// A list of calls, served on the account that a lent image holds.
#![tactic(auto)]

ghost use Rattle.image_parts.specs.Layout.{current};
ghost use Rattle.pool_state.specs.Lent.{was, is};
ghost use Rattle.image_calls.specs.Lists.{BatchOver, HeldIn};

use batch::{list_fits, serve_list_in};
use calls::{INVALID_ENTRY, INVALID_REQUEST};
use image_reading::read_current;
use image_writing::write_fields;
use pool_state::{LISTS, POOL, RecordIndex, new};

// The list, on the fields of the account whose image this is. Of the records, those that are in use or were are written.
fn serve_held(
    image: &mut [u8],
    lowest: &mut u64,
    total: &mut u64,
    first: &mut u16,
    heads: &mut [u16; LISTS],
    start: &mut [u64; POOL],
    end: &mut [u64; POOL],
    enabled: &mut [bool; POOL],
    previous: &mut [u16; POOL],
    next: &mut [u16; POOL],
    lprev: &mut [u16; POOL],
    lnext: &mut [u16; POOL],
    calls: &[u64],
    answers: &mut [i64],
) -> i64
    requires { HeldIn current image lowest total first heads start end enabled previous next lprev lnext }
    ensures { BatchOver current (was image) calls.now (was answers) result (is image) (is answers) }
{
    if list_fits(calls, answers.len()) {
        serve_list_in(
            lowest, total, first, heads, start, end, enabled, previous, next, lprev, lnext, calls,
            answers,
        );
        write_fields(
            image,
            false,
            *lowest,
            *total,
            RecordIndex(*first),
            heads,
            start,
            end,
            enabled,
            previous,
            next,
            lprev,
            lnext,
        );
        return 0;
    }
    INVALID_REQUEST
}

// The image is read and written once, whatever the length of the list; reading has checked the account. What reads, serves and
// writes it is lent its eleven fields.
pub fn list_over(image: &mut [u8], calls: &[u64], answers: &mut [i64]) -> i64
    ensures { BatchOver current image.old calls.now answers.old result image.new answers.new }
{
    let mut lowest = 0;
    let mut ranges = new();
    let readable = read_current(
        &image[..],
        &mut lowest,
        &mut ranges.free_size,
        &mut ranges.first_entry.0,
        &mut ranges.free_list,
        &mut ranges.start,
        &mut ranges.end,
        &mut ranges.enabled,
        &mut ranges.previous,
        &mut ranges.next,
        &mut ranges.list_prev,
        &mut ranges.list_next,
    );
    if readable {
        return serve_held(
            image,
            &mut lowest,
            &mut ranges.free_size,
            &mut ranges.first_entry.0,
            &mut ranges.free_list,
            &mut ranges.start,
            &mut ranges.end,
            &mut ranges.enabled,
            &mut ranges.previous,
            &mut ranges.next,
            &mut ranges.list_prev,
            &mut ranges.list_next,
            calls,
            answers,
        );
    }
    INVALID_ENTRY
}
