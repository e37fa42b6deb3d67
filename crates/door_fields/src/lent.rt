// The check of eleven lent fields.
ghost use Rattle.std.specs.Prelude.{◌≡◌};
ghost use Rattle.pool_state.specs.Shown.{pool};
ghost use Rattle.pool_state.specs.State.{arrays};
ghost use Rattle.account_state.specs.Account.{account, is_sound_lem};
ghost use Rattle.door_fields.specs.Fields.{is_sized_lem, sound_here};

use account_state::is_low_sound;
use check_state::is_sound_in;
use pool_state::{LISTS, POOL, RecordIndex};

// Whether the arrays have as many places as their types say. They do, and the compiler leaves the question out; but of an array behind a
// reference the logic does not know it.
fn is_sized(
    heads: &[u16],
    start: &[u64],
    end: &[u64],
    enabled: &[bool],
    previous: &[u16],
    next: &[u16],
    lprev: &[u16],
    lnext: &[u16],
) -> bool
    ensures { result ≡ is_sized_lem pool (arrays 0 0 heads.now start.now end.now enabled.now previous.now next.now lprev.now lnext.now) }
{
    if heads.len() != LISTS {
        return false;
    }
    if start.len() != POOL {
        return false;
    }
    if end.len() != POOL {
        return false;
    }
    if enabled.len() != POOL {
        return false;
    }
    if previous.len() != POOL {
        return false;
    }
    if next.len() != POOL {
        return false;
    }
    if lprev.len() != POOL {
        return false;
    }
    lnext.len() == POOL
}

// The ranges, then the figure beside their total.
pub fn is_sound_account(
    lowest: u64,
    total: u64,
    first: u16,
    heads: &[u16; LISTS],
    start: &[u64; POOL],
    end: &[u64; POOL],
    enabled: &[bool; POOL],
    previous: &[u16; POOL],
    next: &[u16; POOL],
    lprev: &[u16; POOL],
    lnext: &[u16; POOL],
) -> bool
    ensures { result ≡ is_sound_lem pool (account (arrays total first heads.now start.now end.now enabled.now previous.now next.now lprev.now lnext.now) lowest) }
{
    if is_sound_in(
        total,
        RecordIndex(first),
        heads,
        start,
        end,
        enabled,
        previous,
        next,
        lprev,
        lnext,
    ) {
        return is_low_sound(total, lowest);
    }
    false
}

pub fn is_sound_lent(
    lowest: u64,
    total: u64,
    first: u16,
    heads: &[u16; LISTS],
    start: &[u64; POOL],
    end: &[u64; POOL],
    enabled: &[bool; POOL],
    previous: &[u16; POOL],
    next: &[u16; POOL],
    lprev: &[u16; POOL],
    lnext: &[u16; POOL],
) -> bool
    ensures { result ≡ sound_here pool (account (arrays total first heads.now start.now end.now enabled.now previous.now next.now lprev.now lnext.now) lowest) }
{
    if is_sized(heads, start, end, enabled, previous, next, lprev, lnext) {
        return is_sound_account(
            lowest, total, first, heads, start, end, enabled, previous, next, lprev, lnext,
        );
    }
    false
}
