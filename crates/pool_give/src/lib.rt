// Giving a piece back to the free ranges, in place.
#![tactic(auto)]

ghost use Rattle.std.specs.Prelude.{◌≡◌, ◌&&◌, suc, eqb, ltb, get_or};
ghost use Rattle.pool_state.specs.Shown.{pool};
ghost use Rattle.pool_give.specs.Give.{OffersSome, Given};
ghost use Rattle.pool_state.specs.Lent.{Keeps};

use pool_entries::{NoRecord, create_memory_entry, delete_entry, insert};
use pool_shelf::resize;
use pool_state::{Address, Fields, POOL, RecordIndex};

// Whether record i has a range that ends right before the address.
pub fn ends_before(end: &[u64; POOL], i: RecordIndex, address: Address) -> bool
    ensures { result ≡ (ltb i.0 pool && eqb (suc (get_or end.now i.0 0)) address.0) }
{
    end.get(i.0 as usize)
        .is_some_and(|last| last.checked_add(1) == Some(address.0))
}

// Whether record i has a range that starts at the address.
pub fn starts_at(start: &[u64; POOL], i: RecordIndex, address: Address) -> bool
    ensures { result ≡ (ltb i.0 pool && eqb (get_or start.now i.0 0) address.0) }
{
    start
        .get(i.0 as usize)
        .is_some_and(|first| *first == address.0)
}

// The bytes from a to before t, between the records x and y of the chain, become free, and are joined with the ranges that they touch.
// In MiniVisor: define_free_memory.
pub fn define_free_memory(
    f: &mut Fields<'_>,
    x: RecordIndex,
    y: RecordIndex,
    a: Address,
    t: Address,
) -> Result<(), NoRecord>
    requires { OffersSome pool x.0 y.0 a.0 t.0 f }
    ensures keeps { Keeps f }
    ensures does { Given pool x.0 y.0 a.0 t.0 result f }
{
    let more = *f.free_size + (t.0 - a.0);
    let high = starts_at(f.start, y, t);
    if ends_before(f.end, x, a) {
        let xn = x.0 as usize;
        let from = f.start[xn];
        if high {
            let yn = y.0 as usize;
            let last = f.end[yn];
            delete_entry(f, y);
            resize(
                f.start,
                f.end,
                f.list_prev,
                f.list_next,
                f.free_list,
                x,
                Address(from),
                Address(last),
            );
            *f.free_size = more;
            return Ok(());
        }
        resize(
            f.start,
            f.end,
            f.list_prev,
            f.list_next,
            f.free_list,
            x,
            Address(from),
            Address(t.0 - 1),
        );
        *f.free_size = more;
        return Ok(());
    }
    if high {
        let yn = y.0 as usize;
        let last = f.end[yn];
        resize(
            f.start,
            f.end,
            f.list_prev,
            f.list_next,
            f.free_list,
            y,
            a,
            Address(last),
        );
        *f.free_size = more;
        return Ok(());
    }
    let Some(j) = create_memory_entry(f.enabled) else {
        return Err(NoRecord);
    };
    insert(f, x, j, y, a, Address(t.0 - 1));
    *f.free_size = more;
    Ok(())
}
