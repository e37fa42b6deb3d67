// Whether a state is sound: one pass over the records, the chain and the size lists.
#![tactic(auto)]

ghost use Rattle.std.specs.Prelude.{◌≡◌};
ghost use Rattle.pool_state.specs.Shown.{pool};
ghost use Rattle.pool_state.specs.State.{arrays};
ghost use Rattle.check_records.specs.Records.{records};
ghost use Rattle.check_state.specs.IsSound.{is_sound_lem};

use check_links::{chain_ok, lists_ok};
use check_records::tally_records;
use pool_state::{LISTS, MemoryAllocator, POOL, RecordIndex};

// The same of arrays whose records were found to be right, `count` of them in use: what is left are the chain and the size lists.
pub fn links_ok(
    total: u64,
    first: RecordIndex,
    heads: &[u16; LISTS],
    start: &[u64; POOL],
    end: &[u64; POOL],
    enabled: &[bool; POOL],
    previous: &[u16; POOL],
    next: &[u16; POOL],
    lprev: &[u16; POOL],
    lnext: &[u16; POOL],
    count: usize,
) -> bool
    requires { records pool start.now end.now enabled.now previous.now next.now lprev.now lnext.now ≡ Some count }
    ensures { result ≡ is_sound_lem pool (arrays total first.0 heads.now start.now end.now enabled.now previous.now next.now lprev.now lnext.now) }
{
    if !chain_ok(total, first, start, end, enabled, previous, next, count) {
        return false;
    }
    lists_ok(heads, start, end, enabled, lprev, lnext, count)
}

// Whether the state of these arrays is sound.
pub fn is_sound_in(
    total: u64,
    first: RecordIndex,
    heads: &[u16; LISTS],
    start: &[u64; POOL],
    end: &[u64; POOL],
    enabled: &[bool; POOL],
    previous: &[u16; POOL],
    next: &[u16; POOL],
    lprev: &[u16; POOL],
    lnext: &[u16; POOL],
) -> bool
    ensures { result ≡ is_sound_lem pool (arrays total first.0 heads.now start.now end.now enabled.now previous.now next.now lprev.now lnext.now) }
{
    let Some(count) = tally_records(start, end, enabled, previous, next, lprev, lnext) else {
        return false;
    };
    links_ok(
        total, first, heads, start, end, enabled, previous, next, lprev, lnext, count,
    )
}

// Whether a state is sound.
pub fn is_sound(s: MemoryAllocator) -> bool
    ensures { result ≡ is_sound_lem pool s }
{
    let heads = s.free_list;
    let start = s.start;
    let end = s.end;
    let enabled = s.enabled;
    let previous = s.previous;
    let next = s.next;
    let lprev = s.list_prev;
    let lnext = s.list_next;
    is_sound_in(
        s.free_size,
        s.first_entry,
        &heads,
        &start,
        &end,
        &enabled,
        &previous,
        &next,
        &lprev,
        &lnext,
    )
}
