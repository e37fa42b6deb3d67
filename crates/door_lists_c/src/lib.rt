// Lists of calls on a state of one's own, and images of it, as C links them: each is door_lists' own.
#![tactic(auto)]

ghost use Rattle.image_parts.specs.Layout.{current};
ghost use Rattle.pool_state.specs.Lent.{was, is};
ghost use Rattle.pool_state.specs.Shown.{pool};
ghost use Rattle.pool_state.specs.State.{arrays};
ghost use Rattle.account_state.specs.Account.{account};
ghost use Rattle.account_state.specs.Lent.{turns_eleven};
ghost use Rattle.door_lists.specs.Lists.{Lists, Imports, Exports};

use pool_state::{LISTS, POOL};

// A list of calls, four words each, whose signed answers go into the places of `answers`; 0 where the list was served.
#[unsafe(no_mangle)]
pub extern "C" fn cinghjalofa_fields_batch(
    lowest: &mut u64,
    total: &mut u64,
    first: &mut u16,
    heads: &mut [u16; LISTS],
    start: &mut [u64; POOL],
    end: &mut [u64; POOL],
    enabled: &mut [bool; POOL],
    previous: &mut [u16; POOL],
    next: &mut [u16; POOL],
    lprev: &mut [u16; POOL],
    lnext: &mut [u16; POOL],
    calls: &[u64],
    answers: &mut [i64],
) -> i64
    ensures { turns_eleven (λ a a'. Lists pool a calls.now (was answers) result a' (is answers)) lowest total first heads start end enabled previous next lprev lnext }
{
    door_lists::cinghjalofa_fields_batch(
        lowest, total, first, heads, start, end, enabled, previous, next, lprev, lnext, calls,
        answers,
    )
}

// The account of an image, over whatever is there; -2, and nothing is written, where the bytes are no image of a sound one.
#[unsafe(no_mangle)]
pub extern "C" fn cinghjalofa_fields_import(
    lowest: &mut u64,
    total: &mut u64,
    first: &mut u16,
    heads: &mut [u16; LISTS],
    start: &mut [u64; POOL],
    end: &mut [u64; POOL],
    enabled: &mut [bool; POOL],
    previous: &mut [u16; POOL],
    next: &mut [u16; POOL],
    lprev: &mut [u16; POOL],
    lnext: &mut [u16; POOL],
    image: &[u8],
) -> i64
    ensures { turns_eleven (λ a a'. Imports current image.now result a a') lowest total first heads start end enabled previous next lprev lnext }
{
    door_lists::cinghjalofa_fields_import(
        lowest, total, first, heads, start, end, enabled, previous, next, lprev, lnext, image,
    )
}

// The image of the fields, over a slice of its length; -2, and no byte is written, where they are no sound account or the length is another.
#[unsafe(no_mangle)]
pub extern "C" fn cinghjalofa_fields_export(
    lowest: u64,
    total: u64,
    first: u16,
    heads: &[u16; LISTS],
    start: &[u64; POOL],
    end: &[u64; POOL],
    enabled: &[bool; POOL],
    previous: &[u16; POOL],
    next: &[u16; POOL],
    lprev: &[u16; POOL],
    lnext: &[u16; POOL],
    image: &mut [u8],
) -> i64
    ensures { Exports current (account (arrays total first heads.now start.now end.now enabled.now previous.now next.now lprev.now lnext.now) lowest) (was image) result (is image) }
{
    door_lists::cinghjalofa_fields_export(
        lowest, total, first, heads, start, end, enabled, previous, next, lprev, lnext, image,
    )
}
