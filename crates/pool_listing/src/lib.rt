// The listing of the free ranges, by address.
#![tactic(auto)]

ghost use Rattle.std.specs.Prelude.{◌≡◌, List, ℕ, length};
ghost use Rattle.rules.specs.Rules.{Range};
ghost use Rattle.pool_state.specs.Shown.{pool};
ghost use Rattle.pool_state.specs.Lent.{was, is};
ghost use Rattle.pool_chain.specs.Chain.{Ordered};
ghost use Rattle.pool_listing.specs.Listing.{Roomy, Wrote, Lists};

use pool_links::link_of;
use pool_state::{NONE, POOL, RecordIndex};

// The number of free ranges.
pub fn count_entries(next: &[u16; POOL], first: RecordIndex) -> usize
    requires { (c : List Range) × (start : List ℕ) × (end : List ℕ) × Ordered pool c start end next.now first.0 }
    ensures { (c : List Range) (start end : List ℕ) → Ordered pool c start end next.now first.0 → result ≡ length c }
{
    let mut count = 0;
    let mut cur = first;
    while cur.0 != NONE {
        count += 1;
        cur = link_of(next, cur);
    }
    count
}

// The starts and the last bytes go into the first places of the two slices.
fn write_entries(
    start: &[u64; POOL],
    end: &[u64; POOL],
    next: &[u16; POOL],
    first: RecordIndex,
    starts: &mut [u64],
    lasts: &mut [u64],
)
    requires { (c : List Range) × Roomy pool c start.now end.now next.now first.0 starts.old lasts.old }
    ensures { (c : List Range) → Roomy pool c start.now end.now next.now first.0 (was starts) (was lasts) → Wrote c (was starts) (was lasts) (is starts) (is lasts) }
{
    let mut count = 0;
    let mut cur = first;
    while cur.0 != NONE {
        let n = cur.0 as usize;
        starts[count] = start[n];
        lasts[count] = end[n];
        count += 1;
        cur = link_of(next, cur);
    }
}

// The free ranges in two slices, and their number; where either is too short, nothing is written, and there is none.
pub fn list_in(
    start: &[u64; POOL],
    end: &[u64; POOL],
    next: &[u16; POOL],
    first: RecordIndex,
    starts: &mut [u64],
    lasts: &mut [u64],
) -> Option<usize>
    requires { (c : List Range) × Ordered pool c start.now end.now next.now first.0 }
    ensures { (c : List Range) → Ordered pool c start.now end.now next.now first.0 → Lists c (was starts) (was lasts) result (is starts) (is lasts) }
{
    let count = count_entries(next, first);
    if starts.len() < count {
        return None;
    }
    if lasts.len() < count {
        return None;
    }
    write_entries(start, end, next, first, starts, lasts);
    Some(count)
}
