// The total, the lowest figure and the listing of a state of one's own, as C links them.
ghost use Rattle.pool_state.specs.Lent.{was, is};
ghost use Rattle.pool_state.specs.Shown.{pool};
ghost use Rattle.pool_state.specs.State.{arrays};
ghost use Rattle.account_state.specs.Account.{account};
ghost use Rattle.account_calls.specs.Accounts.{total_of, lowest_of};
ghost use Rattle.door_accounts.specs.Accounts.{Figures, Lists};

use pool_state::{LISTS, POOL};

// The total goes to the place that is lent.
#[unsafe(no_mangle)]
pub extern "C" fn cinghjalofa_fields_total(
    lowest: u64,
    total: u64,
    first: u16,
    heads: &[u16; LISTS],
    start: &[u64; POOL],
    end: &[u64; POOL],
    enabled: &[bool; POOL],
    previous: &[u16; POOL],
    next: &[u16; POOL],
    lprev: &[u16; POOL],
    lnext: &[u16; POOL],
    figure: &mut u64,
) -> i64
    ensures { Figures (total_of pool (account (arrays total first heads.now start.now end.now enabled.now previous.now next.now lprev.now lnext.now) lowest)) (was figure) result (is figure) }
{
    door_accounts::own::cinghjalofa_fields_total(
        lowest, total, first, heads, start, end, enabled, previous, next, lprev, lnext, figure,
    )
}

// The lowest figure goes there.
#[unsafe(no_mangle)]
pub extern "C" fn cinghjalofa_fields_lowest(
    lowest: u64,
    total: u64,
    first: u16,
    heads: &[u16; LISTS],
    start: &[u64; POOL],
    end: &[u64; POOL],
    enabled: &[bool; POOL],
    previous: &[u16; POOL],
    next: &[u16; POOL],
    lprev: &[u16; POOL],
    lnext: &[u16; POOL],
    figure: &mut u64,
) -> i64
    ensures { Figures (lowest_of pool (account (arrays total first heads.now start.now end.now enabled.now previous.now next.now lprev.now lnext.now) lowest)) (was figure) result (is figure) }
{
    door_accounts::own::cinghjalofa_fields_lowest(
        lowest, total, first, heads, start, end, enabled, previous, next, lprev, lnext, figure,
    )
}

// The first and last byte of each free range, as cinghjalofa_listing has them.
#[unsafe(no_mangle)]
pub extern "C" fn cinghjalofa_fields_listing(
    lowest: u64,
    total: u64,
    first: u16,
    heads: &[u16; LISTS],
    start: &[u64; POOL],
    end: &[u64; POOL],
    enabled: &[bool; POOL],
    previous: &[u16; POOL],
    next: &[u16; POOL],
    lprev: &[u16; POOL],
    lnext: &[u16; POOL],
    starts: &mut [u64],
    lasts: &mut [u64],
) -> i64
    ensures { Lists pool (account (arrays total first heads.now start.now end.now enabled.now previous.now next.now lprev.now lnext.now) lowest) (was starts) (was lasts) result (is starts) (is lasts) }
{
    door_accounts::own::cinghjalofa_fields_listing(
        lowest, total, first, heads, start, end, enabled, previous, next, lprev, lnext, starts,
        lasts,
    )
}
