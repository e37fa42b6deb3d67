// A state of one's own, eleven lent fields: a list of calls on it, an image into it, and its image. The fields are lent on as they are: no array
// is copied.
#![tactic(auto)]

ghost use Rattle.std.specs.Prelude.{◌≡◌};
ghost use Rattle.image_parts.specs.Layout.{current};
ghost use Rattle.image_reading.specs.Reading.{readable};
ghost use Rattle.pool_state.specs.Lent.{was, is};
ghost use Rattle.pool_state.specs.Shown.{pool};
ghost use Rattle.pool_state.specs.State.{arrays};
ghost use Rattle.account_state.specs.Account.{account};
ghost use Rattle.account_state.specs.Lent.{turns_eleven};
ghost use Rattle.door_lists.specs.Lists.{Lists, Imports, Exports};

use batch::{list_fits, serve_list_in};
use calls::{INVALID_ENTRY, INVALID_REQUEST};
use door_fields::{clear, is_sound_account, is_sound_lent};
use image_parts::layout::IMAGE;
use image_reading::read_current;
use image_writing::write_fields;
use pool_state::{LISTS, POOL, RecordIndex, new};

// A list of calls, four words each, whose signed answers go into the places of `answers`; 0 where the list was served.
pub fn cinghjalofa_fields_batch(
    lowest: &mut u64,
    total: &mut u64,
    first: &mut u16,
    heads: &mut [u16; LISTS],
    start: &mut [u64; POOL],
    end: &mut [u64; POOL],
    enabled: &mut [bool; POOL],
    previous: &mut [u16; POOL],
    next: &mut [u16; POOL],
    lprev: &mut [u16; POOL],
    lnext: &mut [u16; POOL],
    calls: &[u64],
    answers: &mut [i64],
) -> i64
    ensures { turns_eleven (λ a a'. Lists pool a calls.now (was answers) result a' (is answers)) lowest total first heads start end enabled previous next lprev lnext }
{
    if is_sound_lent(
        *lowest, *total, *first, heads, start, end, enabled, previous, next, lprev, lnext,
    ) {
        if list_fits(calls, answers.len()) {
            serve_list_in(
                lowest, total, first, heads, start, end, enabled, previous, next, lprev, lnext,
                calls, answers,
            );
            return 0;
        }
        return INVALID_REQUEST;
    }
    INVALID_ENTRY
}

// Whether the bytes are the image of a sound account: read into a state that is given up again.
fn is_image(image: &[u8]) -> bool
    ensures { result ≡ readable current image.now }
{
    let mut lowest = 0;
    let mut ranges = new();
    read_current(
        image,
        &mut lowest,
        &mut ranges.free_size,
        &mut ranges.first_entry.0,
        &mut ranges.free_list,
        &mut ranges.start,
        &mut ranges.end,
        &mut ranges.enabled,
        &mut ranges.previous,
        &mut ranges.next,
        &mut ranges.list_prev,
        &mut ranges.list_next,
    )
}

// The account of an image, over whatever is there; -2, and nothing is written, where the bytes are no image of a sound one.
pub fn cinghjalofa_fields_import(
    lowest: &mut u64,
    total: &mut u64,
    first: &mut u16,
    heads: &mut [u16; LISTS],
    start: &mut [u64; POOL],
    end: &mut [u64; POOL],
    enabled: &mut [bool; POOL],
    previous: &mut [u16; POOL],
    next: &mut [u16; POOL],
    lprev: &mut [u16; POOL],
    lnext: &mut [u16; POOL],
    image: &[u8],
) -> i64
    ensures { turns_eleven (λ a a'. Imports current image.now result a a') lowest total first heads start end enabled previous next lprev lnext }
{
    if is_image(image) {
        clear(
            lowest, total, first, heads, start, end, enabled, previous, next, lprev, lnext,
        );
        let _again = read_current(
            image, lowest, total, first, heads, start, end, enabled, previous, next, lprev, lnext,
        );
        return 0;
    }
    INVALID_ENTRY
}

// The image of the fields, over a slice of its length; -2, and no byte is written, where they are no sound account or the length is another.
pub fn cinghjalofa_fields_export(
    lowest: u64,
    total: u64,
    first: u16,
    heads: &[u16; LISTS],
    start: &[u64; POOL],
    end: &[u64; POOL],
    enabled: &[bool; POOL],
    previous: &[u16; POOL],
    next: &[u16; POOL],
    lprev: &[u16; POOL],
    lnext: &[u16; POOL],
    image: &mut [u8],
) -> i64
    ensures { Exports current (account (arrays total first heads.now start.now end.now enabled.now previous.now next.now lprev.now lnext.now) lowest) (was image) result (is image) }
{
    if image.len() != IMAGE {
        return INVALID_ENTRY;
    }
    if is_sound_account(
        lowest, total, first, heads, start, end, enabled, previous, next, lprev, lnext,
    ) {
        write_fields(
            image,
            true,
            lowest,
            total,
            RecordIndex(first),
            heads,
            start,
            end,
            enabled,
            previous,
            next,
            lprev,
            lnext,
        );
        return 0;
    }
    INVALID_ENTRY
}
