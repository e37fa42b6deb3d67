// The chain: the free ranges by address.
#![tactic(auto)]

ghost use Rattle.std.specs.Prelude.{◌≡◌, ◌≢◌, true, ◌&&◌, eqb, leb, ltb, get_or, ℕ, ◌<◌, ◌≤◌, List};
ghost use Rattle.linked_lists.specs.Links.{none, pick};
ghost use Rattle.rules.specs.Rules.{top, Range, start_of, any, find, contains, meets};
ghost use Rattle.pool_state.specs.Shown.{pool, Runs, Walked, Gapped};
ghost use Rattle.pool_chain.specs.Chain.{Ordered, StartsBelow, Placed, Unchained, Enchained};
ghost use Rattle.pool_links.specs.Hits.{hit_of};

use pool_links::{Gap, choose, link_between, link_of, unlink};
use pool_state::{Address, NONE, POOL, RecordIndex};

// Of so many records a search asks one where to begin.
const STRIDE: usize = 8;

// Record i goes out of the chain.
pub fn unchain(first: &mut u16, prev: &mut [u16; POOL], next: &mut [u16; POOL], i: RecordIndex)
    requires { i.0 < pool }
    ensures { Unchained pool i.0 first prev next }
{
    let head = RecordIndex(*first);
    let a = link_of(next, i);
    *first = choose(head, i, a, head).0;
    unlink(prev, next, i);
}

// Record i goes into the chain between two others.
pub fn enchain(
    first: &mut u16,
    prev: &mut [u16; POOL],
    next: &mut [u16; POOL],
    b: RecordIndex,
    i: RecordIndex,
    a: RecordIndex,
)
    ensures { Enchained pool b.0 i.0 a.0 first prev next }
{
    let head = RecordIndex(*first);
    *first = choose(b, RecordIndex(NONE), i, head).0;
    link_between(prev, next, b, i, a);
}

// A record to begin a search at: of every eighth, up to the first that starts at 0 as unused ones do, the one that starts nearest below
// the address. Whichever it is, the same place is found; only the steps to it differ.
fn nearest_below(start: &[u64; POOL], address: Address) -> RecordIndex
    ensures { StartsBelow pool start.now address.0 result.0 }
{
    let mut nearest = RecordIndex(NONE);
    let mut from = 0;
    for k in (STRIDE..POOL).step_by(STRIDE) {
        let at = start[k];
        if at == 0 {
            return nearest;
        }
        if from < at && at < address.0 {
            from = at;
            nearest = RecordIndex(k as u16);
        }
    }
    nearest
}

// The record after another in the chain; the first where there is no other.
fn entry_after(next: &[u16; POOL], first: RecordIndex, i: RecordIndex) -> RecordIndex
    requires { i.0 ≢ none → i.0 < pool }
    ensures { result.0 ≡ pick (eqb i.0 none) first.0 (get_or next.now i.0 0) }
{
    if i.0 == NONE {
        return first;
    }
    link_of(next, i)
}

// The place of an address in the chain, from one between two records that is not past it.
fn search_on(
    start: &[u64; POOL],
    next: &[u16; POOL],
    low: RecordIndex,
    high: RecordIndex,
    address: Address,
) -> Gap
    requires { (c : List Range) × (end : List ℕ) × Runs pool c start.now end next.now × Walked start_of c address.0 low.0 high.0 }
    ensures { (c : List Range) (end : List ℕ) → Runs pool c start.now end next.now → Walked start_of c address.0 low.0 high.0 → Gapped start_of c address.0 result.before.0 result.after.0 }
{
    let mut before = low;
    let mut cur = high;
    while cur.0 != NONE {
        let n = cur.0 as usize;
        if address.0 <= start[n] {
            return Gap { before, after: cur };
        }
        before = cur;
        cur = link_of(next, cur);
    }
    Gap { before, after: cur }
}

// The place of an address in the chain: after the last range that starts below it.
// In MiniVisor: search_entry_previous_address_mut.
pub fn search_entry_previous_address(
    start: &[u64; POOL],
    next: &[u16; POOL],
    first: RecordIndex,
    address: Address,
) -> Gap
    requires { (c : List Range) × (end : List ℕ) × Ordered pool c start.now end next.now first.0 }
    ensures { (c : List Range) (end : List ℕ) → Ordered pool c start.now end next.now first.0 → Gapped start_of c address.0 result.before.0 result.after.0 }
{
    let low = nearest_below(start, address);
    let high = entry_after(next, first, low);
    search_on(start, next, low, high, address)
}

// The range that holds the bytes from `address` to before `past`.
// In MiniVisor: search_entry_containing_address_mut.
pub fn search_entry_containing_address(
    start: &[u64; POOL],
    end: &[u64; POOL],
    next: &[u16; POOL],
    first: RecordIndex,
    address: Address,
    past: Address,
) -> Option<RecordIndex>
    requires ordered { (c : List Range) × Ordered pool c start.now end.now next.now first.0 }
    requires address_lt_past { (address.0 < past.0) × (past.0 ≤ top) }
    ensures { (c : List Range) → Ordered pool c start.now end.now next.now first.0 → result ≡ hit_of (find (contains address.0 past.0) c) }
{
    let gap = search_entry_previous_address(start, next, first, Address(address.0 + 1));
    let i = gap.before;
    if i.0 == NONE {
        return None;
    }
    let n = i.0 as usize;
    if end[n] < past.0 - 1 {
        return None;
    }
    Some(i)
}

// Whether record i has a range whose last byte is at the address or past it.
pub fn reaches(end: &[u64; POOL], i: RecordIndex, address: Address) -> bool
    ensures { result ≡ (ltb i.0 pool && leb address.0 (get_or end.now i.0 0)) }
{
    end.get(i.0 as usize).is_some_and(|last| address.0 <= *last)
}

// Whether record i has a range that starts below the address.
pub fn starts_below(start: &[u64; POOL], i: RecordIndex, address: Address) -> bool
    ensures { result ≡ (ltb i.0 pool && ltb (get_or start.now i.0 0) address.0) }
{
    start
        .get(i.0 as usize)
        .is_some_and(|first| *first < address.0)
}

// Whether a byte from `address` to before `past` is free; the records on either side of the place of `address` tell.
pub fn overlaps_neighbour(
    start: &[u64; POOL],
    end: &[u64; POOL],
    before: RecordIndex,
    after: RecordIndex,
    address: Address,
    past: Address,
) -> bool
    requires { address.0 < past.0 }
    ensures { (c : List Range) → Placed pool c start.now end.now before.0 after.0 address.0 → result ≡ any (meets address.0 past.0) c }
{
    reaches(end, before, address) || starts_below(start, after, past)
}
