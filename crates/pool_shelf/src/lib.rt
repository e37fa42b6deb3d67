// The shelf: the free ranges by size, in twelve lists.
#![tactic(auto)]

ghost use Rattle.std.specs.Prelude.{◌≡◌, ℕ, ◌<◌, ◌≤◌, set, List};
ghost use Rattle.linked_lists.specs.Links.{head};
ghost use Rattle.rules.specs.Rules.{Range, find, fit, serves, range, size};
ghost use Rattle.rules.specs.Sound.{Good};
ghost use Rattle.pool_state.specs.Shown.{pool, numbers, at, Runs, Gapped, Shelved};
ghost use Rattle.pool_state.specs.Lent.{was, is};
ghost use Rattle.pool_shelf.specs.Fits.{meant};
ghost use Rattle.pool_shelf.specs.Shelf.{Removes, Places, Resizes, Removed, Placed, Resized};
ghost use Rattle.pool_links.specs.Hits.{hit_of};

use pool_links::{Gap, choose, link_between, link_of, unlink};
use pool_state::{Address, LISTS, NONE, POOL, RecordIndex};
use rounding::{align_address_and_available_size, size_to_page_order};

// What the fit test of a range says: too few bytes remain; they fit, and to take them uses no record; they fit, and it uses one.
#[derive(Clone, Copy)]
pub enum Fit {
    Short,
    Plain,
    Splits,
}

// The number of bytes of record i.
// In MiniVisor: get_size.
pub fn get_size(start: &[u64; POOL], end: &[u64; POOL], i: RecordIndex) -> u64
    requires { Good pool (at start.now end.now i.0) }
    ensures { result ≡ size (at start.now end.now i.0) }
{
    let n = i.0 as usize;
    end[n] - start[n] + 1
}

// The place in a list, from its first record, before the first range of at least that size.
pub fn find_gap(
    start: &[u64; POOL],
    end: &[u64; POOL],
    next: &[u16; POOL],
    first: RecordIndex,
    s: u64,
) -> Gap
    requires { (l : List Range) × Runs pool l start.now end.now next.now × (first.0 ≡ head (numbers l)) }
    ensures { (l : List Range) → Runs pool l start.now end.now next.now → first.0 ≡ head (numbers l) → Gapped size l s result.before.0 result.after.0 }
{
    let mut before = RecordIndex(NONE);
    let mut cur = first;
    while cur.0 != NONE {
        let z = get_size(start, end, cur);
        if s <= z {
            return Gap { before, after: cur };
        }
        before = cur;
        cur = link_of(next, cur);
    }
    Gap { before, after: cur }
}

// Record i goes out of the shelf.
// In MiniVisor: unchain_entry_from_free_list.
pub fn unchain_entry_from_free_list(
    start: &[u64; POOL],
    end: &[u64; POOL],
    prev: &mut [u16; POOL],
    next: &mut [u16; POOL],
    heads: &mut [u16; LISTS],
    i: RecordIndex,
)
    requires { (l : List Range) × Removes pool start.now end.now prev.old next.old heads.old i.0 l }
    ensures { Removed pool start.now end.now prev next heads i.0 }
{
    let k = size_to_page_order(get_size(start, end, i));
    let kn = k.0 as usize;
    let head = RecordIndex(heads[kn]);
    let a = link_of(next, i);
    heads[kn] = choose(head, i, a, head).0;
    unlink(prev, next, i);
}

// Record i goes into the shelf: in the list of its size, before the first of at least its size.
// In MiniVisor: chain_entry_to_free_list.
pub fn chain_entry_to_free_list(
    start: &[u64; POOL],
    end: &[u64; POOL],
    prev: &mut [u16; POOL],
    next: &mut [u16; POOL],
    heads: &mut [u16; LISTS],
    i: RecordIndex,
)
    requires { (l : List Range) × Places pool start.now end.now prev.old next.old heads.old i.0 l }
    ensures { Placed pool start.now end.now prev next heads i.0 }
{
    let z = get_size(start, end, i);
    let k = size_to_page_order(z);
    let kn = k.0 as usize;
    let head = RecordIndex(heads[kn]);
    let gap = find_gap(start, end, next, head, z);
    let b = gap.before;
    let a = gap.after;
    heads[kn] = choose(b, RecordIndex(NONE), i, head).0;
    link_between(prev, next, b, i, a);
}

// Record i, which is on the shelf, gets another range, and its place by size.
// In MiniVisor: set_range.
pub fn resize(
    start: &mut [u64; POOL],
    end: &mut [u64; POOL],
    prev: &mut [u16; POOL],
    next: &mut [u16; POOL],
    heads: &mut [u16; LISTS],
    i: RecordIndex,
    s: Address,
    e: Address,
)
    requires { (l : List Range) × Resizes pool start.old end.old prev.old next.old heads.old (range i.0 s.0 e.0) l }
    ensures start_value { (is start ≡ set (was start) i.0 s.0) × (is end ≡ set (was end) i.0 e.0) }
    ensures resized { Resized pool start end prev next heads (range i.0 s.0 e.0) }
{
    unchain_entry_from_free_list(start, end, prev, next, heads, i);
    let n = i.0 as usize;
    start[n] = s.0;
    end[n] = e.0;
    chain_entry_to_free_list(start, end, prev, next, heads, i);
}

// The fit test of record i: `size` bytes from its start rounded up.
pub fn fit_at(start: &[u64; POOL], end: &[u64; POOL], i: RecordIndex, size: u64, order: u64) -> Fit
    requires good { Good pool (at start.now end.now i.0) }
    requires size_nonzero { (0 < size) × (order ≤ 63) }
    ensures { meant result ≡ fit size order (at start.now end.now i.0) }
{
    let whole = get_size(start, end, i);
    let n = i.0 as usize;
    let from = start[n];
    let left = align_address_and_available_size(Address(from), whole, order);
    if left.size < size {
        return Fit::Short;
    }
    if left.start.0 == from {
        return Fit::Plain;
    }
    if left.size == size {
        return Fit::Plain;
    }
    Fit::Splits
}

// Whether a range can be served, of which the fit test says so much; `spare` is whether a record is unused.
pub fn can_be_served(fit: Fit, spare: bool) -> bool
    ensures { result ≡ serves spare (meant fit) }
{
    match fit {
        Fit::Short => false,
        Fit::Plain => true,
        Fit::Splits => spare,
    }
}

// The first range of the shelf that can be served. The lists below that of `size` hold smaller ranges only.
pub fn find_fit(
    start: &[u64; POOL],
    end: &[u64; POOL],
    next: &[u16; POOL],
    heads: &[u16; LISTS],
    spare: bool,
    size: u64,
    order: u64,
) -> Option<RecordIndex>
    requires by_index { (l : List Range) × (prev : List ℕ) × Shelved pool l start.now end.now prev next.now heads.now }
    requires size_nonzero { (0 < size) × (order ≤ 63) }
    ensures { (l : List Range) (prev : List ℕ) → Shelved pool l start.now end.now prev next.now heads.now → result ≡ hit_of (find (λ r. serves spare (fit size order r)) l) }
{
    let own = size_to_page_order(size).0 as usize;
    let mut hit = None;
    'search: for head in &heads[own..] {
        let mut cur = RecordIndex(*head);
        while cur.0 != NONE {
            let fit = fit_at(start, end, cur, size, order);
            if can_be_served(fit, spare) {
                hit = Some(cur);
                break 'search;
            }
            cur = link_of(next, cur);
        }
    }
    hit
}
