// A state of one's own, as eleven fields in the caller's memory that are lent one by one: the lowest figure, and the ten of the ranges. A new one, its
// check, and the kinds of call on it.
#![tactic(auto)]

ghost use Rattle.std.specs.Prelude.{◌≡◌};
ghost use Rattle.account_state.specs.Account.{account, opened, is_sound_lem};
ghost use Rattle.account_state.specs.Lent.{turns_eleven};
ghost use Rattle.pool_state.specs.Shown.{pool};
ghost use Rattle.pool_state.specs.State.{arrays};

use account_state::NEVER;
use pool_state::{LISTS, NONE, POOL};

mod kinds;
mod lent;

pub use kinds::in_bytes;
pub use lent::{is_sound_account, is_sound_lent};

// The fields of the account of an empty allocator, over whatever is there.
pub fn clear(
    lowest: &mut u64,
    total: &mut u64,
    first: &mut u16,
    heads: &mut [u16; LISTS],
    start: &mut [u64; POOL],
    end: &mut [u64; POOL],
    enabled: &mut [bool; POOL],
    previous: &mut [u16; POOL],
    next: &mut [u16; POOL],
    lprev: &mut [u16; POOL],
    lnext: &mut [u16; POOL],
)
    ensures { turns_eleven (λ a a'. a' ≡ opened pool) lowest total first heads start end enabled previous next lprev lnext }
{
    *lowest = NEVER;
    *total = 0;
    *first = NONE;
    *heads = [NONE; LISTS];
    *start = [0; POOL];
    *end = [0; POOL];
    *enabled = [false; POOL];
    *previous = [NONE; POOL];
    *next = [NONE; POOL];
    *lprev = [NONE; POOL];
    *lnext = [NONE; POOL];
}

// The empty allocator, over whatever is there.
pub fn cinghjalofa_fields_new(
    lowest: &mut u64,
    total: &mut u64,
    first: &mut u16,
    heads: &mut [u16; LISTS],
    start: &mut [u64; POOL],
    end: &mut [u64; POOL],
    enabled: &mut [bool; POOL],
    previous: &mut [u16; POOL],
    next: &mut [u16; POOL],
    lprev: &mut [u16; POOL],
    lnext: &mut [u16; POOL],
)
    ensures { turns_eleven (λ a a'. a' ≡ opened pool) lowest total first heads start end enabled previous next lprev lnext }
{
    clear(
        lowest, total, first, heads, start, end, enabled, previous, next, lprev, lnext,
    );
}

// Whether the fields are a sound state.
pub fn cinghjalofa_fields_are_sound(
    lowest: u64,
    total: u64,
    first: u16,
    heads: &[u16; LISTS],
    start: &[u64; POOL],
    end: &[u64; POOL],
    enabled: &[bool; POOL],
    previous: &[u16; POOL],
    next: &[u16; POOL],
    lprev: &[u16; POOL],
    lnext: &[u16; POOL],
) -> bool
    ensures { result ≡ is_sound_lem pool (account (arrays total first heads.now start.now end.now enabled.now previous.now next.now lprev.now lnext.now) lowest) }
{
    is_sound_account(
        lowest, total, first, heads, start, end, enabled, previous, next, lprev, lnext,
    )
}
