// `reserve_memory`, in place.
#![tactic(auto)]

ghost use Rattle.std.specs.Prelude.{◌≡◌, ◌+◌, ◌<◌, ◌≤◌};
ghost use Rattle.rules.specs.Rules.{top, reserve};
ghost use Rattle.pool_state.specs.Shown.{pool};
ghost use Rattle.pool_state.specs.Lent.{HoldsBook, Keeps};
ghost use Rattle.calls.specs.Answers.{Obeys};
ghost use Rattle.call_reserve.specs.Piece.{reserve_piece_lem};
ghost use Rattle.call_reserve.specs.Served.{served_as};

use calls::{Answer, MemoryError};
use pool_chain::search_entry_containing_address;
use pool_state::{Address, Fields, MAX_ORDER, RecordIndex, TOP};
use pool_take::define_used_memory;
use rounding::align_address_and_size;

// The bytes from `address` to before `past` are taken, if one range has them all. What comes back holds no address, so that it is handed
// on in a register.
fn reserve_piece(f: &mut Fields<'_>, address: Address, past: Address) -> Result<(), MemoryError>
    requires holds_some { HoldsBook pool f }
    requires address_lt_past { (address.0 < past.0) × (past.0 ≤ top) }
    ensures keeps { Keeps f }
    ensures does { Obeys pool (reserve_piece_lem pool address.0 past.0) (served_as result) f }
{
    let found = search_entry_containing_address(
        f.start,
        f.end,
        f.next,
        RecordIndex(*f.first_entry),
        address,
        past,
    );
    let Some(i) = found else {
        return Err(MemoryError::InvalidRequest);
    };
    define_used_memory(f, i, address, past)?;
    Ok(())
}

// Document 01's lines for a reservation, one after the other; what passes them is widened to multiples of 2^order, and served.
// In MiniVisor: reserve_memory.
pub fn reserve_in(f: &mut Fields<'_>, address: Address, size: u64, order: u64) -> Answer
    requires { HoldsBook pool f }
    ensures keeps { Keeps f }
    ensures does { Obeys pool (reserve pool address.0 size order) result f }
{
    if size == 0 {
        return Err(MemoryError::InvalidRequest);
    }
    if MAX_ORDER < order {
        return Err(MemoryError::InvalidRequest);
    }
    if *f.free_size < size {
        return Err(MemoryError::NoMemory);
    }
    if TOP < address.0 {
        return Err(MemoryError::InvalidRequest);
    }
    if TOP - address.0 < size {
        return Err(MemoryError::InvalidRequest);
    }
    if order != 0 {
        let wide = align_address_and_size(address, size, order);
        return reserve_in(f, wide.start, wide.size, 0);
    }
    reserve_piece(f, address, Address(address.0 + size))?;
    Ok(Address(0))
}
