// `allocate`, in place.
#![tactic(auto)]

ghost use Rattle.std.specs.Prelude.{◌+◌, ◌<◌, ◌≤◌};
ghost use Rattle.rules.specs.Rules.{allocate};
ghost use Rattle.pool_state.specs.Shown.{pool};
ghost use Rattle.pool_state.specs.Lent.{HoldsBook, Keeps};
ghost use Rattle.calls.specs.Answers.{Obeys};
ghost use Rattle.call_allocate.specs.Fit.{allocate_first_lem, allocate_fit_lem};

use calls::{Answer, MemoryError};
use pool_shelf::find_fit;
use pool_state::{Address, Fields, MAX_ORDER};
use pool_take::define_used_memory;
use rounding::align_up;

// `size` bytes are taken from the first range of the shelf that can be served, if there is one, where `spare` is whether a record is
// taken to be unused; NoEntry where that is wrong and one is wanted.
fn allocate_first(f: &mut Fields<'_>, spare: bool, size: u64, order: u64) -> Answer
    requires holds_some { HoldsBook pool f }
    requires size_nonzero { (0 < size) × (order ≤ 63) }
    ensures keeps { Keeps f }
    ensures does { Obeys pool (allocate_first_lem pool spare size order) result f }
{
    let Some(i) = find_fit(f.start, f.end, f.list_next, f.free_list, spare, size, order) else {
        return Err(MemoryError::NoMemory);
    };
    let n = i.0 as usize;
    let a = align_up(f.start[n], order);
    define_used_memory(f, i, Address(a), Address(a + size))?;
    Ok(Address(a))
}

// `size` bytes are taken from the first range that fits; where that wants a record and all are used, from the first that wants none.
fn allocate_fit(f: &mut Fields<'_>, size: u64, order: u64) -> Answer
    requires holds_some { HoldsBook pool f }
    requires size_nonzero { (0 < size) × (order ≤ 63) }
    ensures keeps { Keeps f }
    ensures does { Obeys pool (allocate_fit_lem pool size order) result f }
{
    let any = allocate_first(f, true, size, order);
    if any != Err(MemoryError::NoEntry) {
        return any;
    }
    let plain = allocate_first(f, false, size, order);
    if plain == Err(MemoryError::NoMemory) {
        return Err(MemoryError::NoEntry);
    }
    plain
}

// Document 01's lines for an allocation, one after the other; what passes them is served.
// In MiniVisor: allocate.
pub fn allocate_in(f: &mut Fields<'_>, size: u64, order: u64) -> Answer
    requires { HoldsBook pool f }
    ensures keeps { Keeps f }
    ensures does { Obeys pool (allocate pool size order) result f }
{
    if size == 0 {
        return Err(MemoryError::InvalidRequest);
    }
    if MAX_ORDER < order {
        return Err(MemoryError::InvalidRequest);
    }
    if *f.free_size < size {
        return Err(MemoryError::NoMemory);
    }
    allocate_fit(f, size, order)
}
