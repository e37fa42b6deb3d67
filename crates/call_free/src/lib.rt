// `free`, in place.
#![tactic(auto)]

ghost use Rattle.std.specs.Prelude.{◌+◌, ◌<◌, ◌≤◌};
ghost use Rattle.rules.specs.Rules.{top, free};
ghost use Rattle.pool_state.specs.Shown.{pool};
ghost use Rattle.pool_state.specs.Lent.{HoldsBook, Keeps};
ghost use Rattle.calls.specs.Answers.{Obeys};
ghost use Rattle.call_free.specs.Piece.{free_piece_lem};

use calls::{Answer, MemoryError};
use pool_chain::{overlaps_neighbour, search_entry_previous_address};
use pool_entries::NoRecord;
use pool_give::define_free_memory;
use pool_links::Gap;
use pool_state::{Address, Fields, RecordIndex, TOP};

// The bytes from `address` to before `past` become free, if none of them is.
fn free_piece(f: &mut Fields<'_>, address: Address, past: Address) -> Answer
    requires holds_some { HoldsBook pool f }
    requires address_lt_past { (address.0 < past.0) × (past.0 ≤ top) }
    ensures keeps { Keeps f }
    ensures does { Obeys pool (free_piece_lem pool address.0 past.0) result f }
{
    let gap: Gap = search_entry_previous_address(
        f.start,
        f.next,
        RecordIndex(*f.first_entry),
        address,
    );
    let before = gap.before;
    let after = gap.after;
    if overlaps_neighbour(f.start, f.end, before, after, address, past) {
        return Err(MemoryError::InvalidRequest);
    }
    let moved = define_free_memory(f, before, after, address, past);
    match moved {
        Ok(()) => Ok(Address(0)),
        Err(NoRecord) => Err(MemoryError::NoEntry),
    }
}

// Document 01's lines for a free, one after the other; what passes them is served.
// In MiniVisor: free.
pub fn free_in(f: &mut Fields<'_>, address: Address, size: u64) -> Answer
    requires { HoldsBook pool f }
    ensures keeps { Keeps f }
    ensures does { Obeys pool (free pool address.0 size) result f }
{
    if size == 0 {
        return Err(MemoryError::InvalidRequest);
    }
    if TOP < address.0 {
        return Err(MemoryError::InvalidRequest);
    }
    if TOP - address.0 < size {
        return Err(MemoryError::InvalidRequest);
    }
    free_piece(f, address, Address(address.0 + size))
}
