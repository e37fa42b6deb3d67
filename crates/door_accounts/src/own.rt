// The total, the lowest figure and the listing of a state of one's own, eleven lent fields: each checks it.
ghost use Rattle.pool_state.specs.Lent.{was, is};
ghost use Rattle.pool_state.specs.Shown.{pool};
ghost use Rattle.pool_state.specs.State.{arrays};
ghost use Rattle.account_state.specs.Account.{account};
ghost use Rattle.account_calls.specs.Accounts.{total_of, lowest_of};
ghost use Rattle.door_accounts.specs.Accounts.{Figures, Lists};

use crate::fields::state_of;
use crate::listed::list_signed;
use calls::INVALID_ENTRY;
use door_fields::is_sound_account;
use pool_state::{LISTS, POOL, RecordIndex};

// The total goes to the place that is lent.
pub fn cinghjalofa_fields_total(
    lowest: u64,
    total: u64,
    first: u16,
    heads: &[u16; LISTS],
    start: &[u64; POOL],
    end: &[u64; POOL],
    enabled: &[bool; POOL],
    previous: &[u16; POOL],
    next: &[u16; POOL],
    lprev: &[u16; POOL],
    lnext: &[u16; POOL],
    figure: &mut u64,
) -> i64
    ensures { Figures (total_of pool (account (arrays total first heads.now start.now end.now enabled.now previous.now next.now lprev.now lnext.now) lowest)) (was figure) result (is figure) }
{
    // Never used, and so left out by the compiler: see fields.rt. So below.
    let _places = state_of(
        total, first, heads, start, end, enabled, previous, next, lprev, lnext,
    );
    let sound = is_sound_account(
        lowest, total, first, heads, start, end, enabled, previous, next, lprev, lnext,
    );
    if sound {
        *figure = total;
        return 0;
    }
    INVALID_ENTRY
}

// The lowest figure goes there.
pub fn cinghjalofa_fields_lowest(
    lowest: u64,
    total: u64,
    first: u16,
    heads: &[u16; LISTS],
    start: &[u64; POOL],
    end: &[u64; POOL],
    enabled: &[bool; POOL],
    previous: &[u16; POOL],
    next: &[u16; POOL],
    lprev: &[u16; POOL],
    lnext: &[u16; POOL],
    figure: &mut u64,
) -> i64
    ensures { Figures (lowest_of pool (account (arrays total first heads.now start.now end.now enabled.now previous.now next.now lprev.now lnext.now) lowest)) (was figure) result (is figure) }
{
    let passed = is_sound_account(
        lowest, total, first, heads, start, end, enabled, previous, next, lprev, lnext,
    );
    if passed {
        *figure = lowest;
        return 0;
    }
    INVALID_ENTRY
}

// The first and last byte of each free range, as cinghjalofa_listing has them.
pub fn cinghjalofa_fields_listing(
    lowest: u64,
    total: u64,
    first: u16,
    heads: &[u16; LISTS],
    start: &[u64; POOL],
    end: &[u64; POOL],
    enabled: &[bool; POOL],
    previous: &[u16; POOL],
    next: &[u16; POOL],
    lprev: &[u16; POOL],
    lnext: &[u16; POOL],
    starts: &mut [u64],
    lasts: &mut [u64],
) -> i64
    ensures { Lists pool (account (arrays total first heads.now start.now end.now enabled.now previous.now next.now lprev.now lnext.now) lowest) (was starts) (was lasts) result (is starts) (is lasts) }
{
    let _places = state_of(
        total, first, heads, start, end, enabled, previous, next, lprev, lnext,
    );
    let checked = is_sound_account(
        lowest, total, first, heads, start, end, enabled, previous, next, lprev, lnext,
    );
    if checked {
        return list_signed(start, end, next, RecordIndex(first), starts, lasts);
    }
    INVALID_ENTRY
}
