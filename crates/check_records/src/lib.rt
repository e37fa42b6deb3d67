// The records one by one: each in use holds a proper range, and the others are as in a new state.
#![tactic(auto)]

ghost use Rattle.std.specs.Prelude.{◌≡◌, false};
ghost use Rattle.pool_state.specs.Shown.{pool};
ghost use Rattle.check_records.specs.Records.{proper, unlinked, record_ok, records};

use pool_state::{Address, NONE, POOL, RecordIndex, TOP};

// A range of one byte or more, below TOP.
pub fn is_proper(start: Address, end: Address) -> bool
    ensures { result ≡ proper start.0 end.0 }
{
    if end.0 < start.0 {
        return false;
    }
    end.0 < TOP
}

// NONE has every bit, so the four have every bit in common exactly where each of them is NONE.
fn is_unlinked(
    previous: RecordIndex,
    next: RecordIndex,
    lprev: RecordIndex,
    lnext: RecordIndex,
) -> bool
    ensures { result ≡ unlinked previous.0 next.0 lprev.0 lnext.0 }
{
    previous.0 & next.0 & lprev.0 & lnext.0 == NONE
}

// Whether an unused record is as in a new state.
fn is_fresh(
    start: Address,
    end: Address,
    previous: RecordIndex,
    next: RecordIndex,
    lprev: RecordIndex,
    lnext: RecordIndex,
) -> bool
    ensures { result ≡ record_ok false start.0 end.0 previous.0 next.0 lprev.0 lnext.0 }
{
    if start.0 | end.0 != 0 {
        return false;
    }
    is_unlinked(previous, next, lprev, lnext)
}

// How many records are in use, unless one is broken. Each kind has its own way through the loop: most records are unused, and on theirs nothing is counted.
pub fn tally_records(
    start: &[u64; POOL],
    end: &[u64; POOL],
    enabled: &[bool; POOL],
    previous: &[u16; POOL],
    next: &[u16; POOL],
    lprev: &[u16; POOL],
    lnext: &[u16; POOL],
) -> Option<usize>
    ensures { result ≡ records pool start.now end.now enabled.now previous.now next.now lprev.now lnext.now }
{
    let mut count: usize = 0;
    for i in 0..POOL {
        if enabled[i] {
            if is_proper(Address(start[i]), Address(end[i])) {
                count += 1;
                continue;
            }
            return None;
        }
        if is_fresh(
            Address(start[i]),
            Address(end[i]),
            RecordIndex(previous[i]),
            RecordIndex(next[i]),
            RecordIndex(lprev[i]),
            RecordIndex(lnext[i]),
        ) {
            continue;
        }
        return None;
    }
    Some(count)
}
