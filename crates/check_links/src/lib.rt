// The chain and the size lists: each walked once along its links.
#![tactic(auto)]

ghost use Rattle.std.specs.Prelude.{◌≡◌, ℕ, ◌<◌, ◌≤◌, get_or};
ghost use Rattle.linked_lists.specs.Links.{none};
ghost use Rattle.rules.specs.Rules.{size_lists, top};
ghost use Rattle.pool_state.specs.Shown.{pool};
ghost use Rattle.check_records.specs.Records.{Proper};
ghost use Rattle.check_links.specs.Walks.{follows, size_at, chain_step_lem, chain_ok_lem, list_walk, lists_ok_lem};
ghost use Rattle.check_links.specs.Bounds.{most_of, Bounds};

use pool_state::{Address, LISTS, NONE, PAGE, POOL, RecordIndex, TOP};

// The number of bytes of record i.
fn size_at(start: &[u64; POOL], end: &[u64; POOL], i: RecordIndex) -> u64
    requires { (i.0 < pool) × (get_or start.now i.0 0 ≤ get_or end.now i.0 0) × (get_or end.now i.0 0 < top) }
    ensures { result ≡ size_at start.now end.now i.0 }
{
    let n = i.0 as usize;
    end[n] - start[n] + 1
}

// Record i is one of the pool, is in use, and its link back is `before`.
fn follows(enabled: &[bool; POOL], prev: &[u16; POOL], before: RecordIndex, i: RecordIndex) -> bool
    ensures { result ≡ follows pool enabled.now prev.now before.0 i.0 }
{
    let n = i.0 as usize;
    if n >= POOL {
        return false;
    }
    if !enabled[n] {
        return false;
    }
    prev[n] == before.0
}

// Record i follows `before` in the chain: it starts at `low` or above.
fn chain_step(
    start: &[u64; POOL],
    enabled: &[bool; POOL],
    previous: &[u16; POOL],
    before: RecordIndex,
    low: Address,
    i: RecordIndex,
) -> bool
    ensures { result ≡ chain_step_lem pool start.now enabled.now previous.now before.0 low.0 i.0 }
{
    if !follows(enabled, previous, before, i) {
        return false;
    }
    let n = i.0 as usize;
    low.0 <= start[n]
}

// The chain has `count` records, and their sizes add up to the total.
pub fn chain_ok(
    total: u64,
    first: RecordIndex,
    start: &[u64; POOL],
    end: &[u64; POOL],
    enabled: &[bool; POOL],
    previous: &[u16; POOL],
    next: &[u16; POOL],
    count: usize,
) -> bool
    requires { Proper pool start.now end.now enabled.now }
    ensures { result ≡ chain_ok_lem pool total first.0 start.now end.now enabled.now previous.now next.now count }
{
    let mut before = RecordIndex(NONE);
    let mut cur = first;
    let mut low: u64 = 0;
    let mut sum: u64 = 0;
    let mut left = count;
    while cur.0 != NONE {
        if left == 0 {
            return false;
        }
        if !chain_step(start, enabled, previous, before, Address(low), cur) {
            return false;
        }
        sum = sum + size_at(start, end, cur);
        let n = cur.0 as usize;
        low = end[n] + 2;
        before = cur;
        cur = RecordIndex(next[n]);
        left = left - 1;
    }
    if left != 0 {
        return false;
    }
    sum == total
}

// The most bytes that a range of list k has. The last list takes all that are longer.
fn most_of(k: usize) -> u64
    requires { k < size_lists }
    ensures { result ≡ most_of k }
{
    if k < LISTS - 1 {
        return PAGE << k;
    }
    TOP
}

// How many of `count` records the list from `head` leaves, if its sizes do not fall, from `least` to `most`. That none is above `most` is
// asked once, of the last one.
fn tally_list(
    start: &[u64; POOL],
    end: &[u64; POOL],
    enabled: &[bool; POOL],
    lprev: &[u16; POOL],
    lnext: &[u16; POOL],
    least: u64,
    most: u64,
    count: usize,
    head: RecordIndex,
) -> Option<usize>
    requires { Proper pool start.now end.now enabled.now }
    ensures { (k : ℕ) → Bounds k least most → result ≡ list_walk pool start.now end.now enabled.now lprev.now lnext.now k count none 0 head.0 }
{
    let mut before = RecordIndex(NONE);
    let mut cur = head;
    let mut low = least;
    let mut left = count;
    while cur.0 != NONE {
        if left == 0 {
            return None;
        }
        if !follows(enabled, lprev, before, cur) {
            return None;
        }
        let size = size_at(start, end, cur);
        if size < low {
            return None;
        }
        low = size;
        let n = cur.0 as usize;
        before = cur;
        cur = RecordIndex(lnext[n]);
        left = left - 1;
    }
    if most < low {
        return None;
    }
    Some(left)
}

// The size lists have `count` records.
pub fn lists_ok(
    heads: &[u16; LISTS],
    start: &[u64; POOL],
    end: &[u64; POOL],
    enabled: &[bool; POOL],
    lprev: &[u16; POOL],
    lnext: &[u16; POOL],
    count: usize,
) -> bool
    requires { Proper pool start.now end.now enabled.now }
    ensures { result ≡ lists_ok_lem pool heads.now start.now end.now enabled.now lprev.now lnext.now size_lists 0 count }
{
    let mut least: u64 = 1;
    let mut left = count;
    for (k, head) in heads.iter().enumerate() {
        let most = most_of(k);
        let Some(rest) = tally_list(
            start,
            end,
            enabled,
            lprev,
            lnext,
            least,
            most,
            left,
            RecordIndex(*head),
        ) else {
            return false;
        };
        left = rest;
        least = most + 1;
    }
    left == 0
}
