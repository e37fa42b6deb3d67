// Doubly linked lists threaded through two arrays of links: the chain and the size lists both.
#![tactic(auto)]

ghost use Rattle.std.specs.Prelude.{◌≡◌, ◌<◌, get_or, eqb};
ghost use Rattle.linked_lists.specs.Links.{pick};
ghost use Rattle.linked_lists.specs.Threads.{Sets};
ghost use Rattle.pool_state.specs.Shown.{pool};
ghost use Rattle.pool_state.specs.Lent.{was, is};
ghost use Rattle.pool_links.specs.Linking.{Unlinked, Linked};

use pool_state::{NONE, POOL, RecordIndex};

// A place in a list: the records on either side of it.
#[derive(Clone, Copy)]
pub struct Gap {
    pub before: RecordIndex,
    pub after: RecordIndex,
}

// The link of record i is set, where there is such a record.
// In MiniVisor: set_prev_entry, set_next_entry, unset_prev_entry, unset_next_entry.
pub fn point(links: &mut [u16; POOL], i: RecordIndex, to: RecordIndex)
    ensures { Sets pool (was links) i.0 to.0 (is links) }
{
    let n = i.0 as usize;
    if n < POOL {
        links[n] = to.0;
    }
}

// The link of record i.
// In MiniVisor: get_prev_entry, get_next_entry.
pub fn link_of(links: &[u16; POOL], i: RecordIndex) -> RecordIndex
    requires { i.0 < pool }
    ensures { result.0 ≡ get_or links.now i.0 0 }
{
    let n = i.0 as usize;
    RecordIndex(links[n])
}

// Record i goes out of its list.
// In MiniVisor: unchain_from_freelist.
pub fn unlink(prev: &mut [u16; POOL], next: &mut [u16; POOL], i: RecordIndex)
    requires { i.0 < pool }
    ensures { Unlinked pool i.0 prev next }
{
    let b = link_of(prev, i);
    let a = link_of(next, i);
    point(next, b, a);
    point(prev, a, b);
    point(next, i, RecordIndex(NONE));
    point(prev, i, RecordIndex(NONE));
}

// Record i goes into its list between two neighbours.
// In MiniVisor: chain_after_me.
pub fn link_between(
    prev: &mut [u16; POOL],
    next: &mut [u16; POOL],
    b: RecordIndex,
    i: RecordIndex,
    a: RecordIndex,
)
    ensures { Linked pool b.0 i.0 a.0 prev next }
{
    point(next, b, i);
    point(prev, a, i);
    point(next, i, a);
    point(prev, i, b);
}

// One of two records, by whether two others are the same.
pub fn choose(x: RecordIndex, y: RecordIndex, a: RecordIndex, b: RecordIndex) -> RecordIndex
    ensures { result.0 ≡ pick (eqb x.0 y.0) a.0 b.0 }
{
    if x == y {
        return a;
    }
    b
}
