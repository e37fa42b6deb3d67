// The calls on a state of one's own, as C links them: each is door_own's own.
#![tactic(auto)]

ghost use Rattle.batch.specs.InWords.{rule_of};
ghost use Rattle.batch.specs.Lists.{SoundIn};
ghost use Rattle.pool_state.specs.Shown.{pool};
ghost use Rattle.door_fields.specs.Fields.{asked_here};
ghost use Rattle.door_own.specs.Own.{Judges};

use pool_state::{LISTS, POOL};

// A call in words, of fields that are a sound account: nothing is checked. The figure is noted where the call has ended.
#[unsafe(no_mangle)]
pub extern "C" fn cinghjalofa_fields_call_unchecked(
    lowest: &mut u64,
    total: &mut u64,
    first: &mut u16,
    heads: &mut [u16; LISTS],
    start: &mut [u64; POOL],
    end: &mut [u64; POOL],
    enabled: &mut [bool; POOL],
    previous: &mut [u16; POOL],
    next: &mut [u16; POOL],
    lprev: &mut [u16; POOL],
    lnext: &mut [u16; POOL],
    kind: u64,
    x: u64,
    y: u64,
    z: u64,
) -> i64
    requires { SoundIn pool lowest total first heads start end enabled previous next lprev lnext }
    ensures { Judges pool (rule_of pool (asked_here kind x y z)) result lowest total first heads start end enabled previous next lprev lnext }
{
    door_own::cinghjalofa_fields_call_unchecked(
        lowest, total, first, heads, start, end, enabled, previous, next, lprev, lnext, kind, x, y,
        z,
    )
}

// A call in words, of any fields: where they are no sound account, InvalidEntry, and nothing is written.
#[unsafe(no_mangle)]
pub extern "C" fn cinghjalofa_fields_call(
    lowest: &mut u64,
    total: &mut u64,
    first: &mut u16,
    heads: &mut [u16; LISTS],
    start: &mut [u64; POOL],
    end: &mut [u64; POOL],
    enabled: &mut [bool; POOL],
    previous: &mut [u16; POOL],
    next: &mut [u16; POOL],
    lprev: &mut [u16; POOL],
    lnext: &mut [u16; POOL],
    kind: u64,
    x: u64,
    y: u64,
    z: u64,
) -> i64
    ensures { Judges pool (rule_of pool (asked_here kind x y z)) result lowest total first heads start end enabled previous next lprev lnext }
{
    door_own::cinghjalofa_fields_call(
        lowest, total, first, heads, start, end, enabled, previous, next, lprev, lnext, kind, x, y,
        z,
    )
}
