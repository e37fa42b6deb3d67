// Records that come into use and go out of it, in place.
#![tactic(auto)]

ghost use Rattle.std.specs.Prelude.{◌≡◌, List};
ghost use Rattle.rules.specs.Rules.{Range, range, lowest};
ghost use Rattle.pool_state.specs.Shown.{pool, Marked};
ghost use Rattle.calls.specs.declared.MemoryError.TheVariants.{NoEntry};
ghost use Rattle.pool_entries.specs.Entries.{slot_of, DropsSome, Dropped, InsertsSome, Inserted};
ghost use Rattle.pool_state.specs.Lent.{Keeps};

use calls::MemoryError;
use pool_chain::{enchain, unchain};
use pool_shelf::{chain_entry_to_free_list, unchain_entry_from_free_list};
use pool_state::{Address, Fields, POOL, RecordIndex};

// A step wants an unused record, and all are used.
#[derive(Clone, Copy, Debug, PartialEq, Eq)]
pub struct NoRecord;

impl From<NoRecord> for MemoryError {
    ghost from_gives = { λ _ e. e ≡ NoEntry };

    fn from(_no_record: NoRecord) -> MemoryError {
        MemoryError::NoEntry
    }
}

// The lowest unused record.
// In MiniVisor: create_memory_entry.
pub fn create_memory_entry(enabled: &[bool; POOL]) -> Option<RecordIndex>
    requires { (c : List Range) × Marked pool c enabled.now }
    ensures { (c : List Range) → Marked pool c enabled.now → result ≡ slot_of pool (lowest pool 0 c) }
{
    for (i, used) in enabled.iter().enumerate() {
        if !*used {
            return Some(RecordIndex(i as u16));
        }
    }
    None
}

// Record i goes out of use.
// In MiniVisor: delete.
pub fn delete_entry(f: &mut Fields<'_>, i: RecordIndex)
    requires { DropsSome pool i.0 f }
    ensures keeps { Keeps f }
    ensures does { Dropped pool i.0 f }
{
    unchain_entry_from_free_list(f.start, f.end, f.list_prev, f.list_next, f.free_list, i);
    unchain(f.first_entry, f.previous, f.next, i);
    let n = i.0 as usize;
    f.start[n] = 0;
    f.end[n] = 0;
    f.enabled[n] = false;
}

// The unused record j gets a range, between the records b and a of the chain.
pub fn insert(
    f: &mut Fields<'_>,
    x: RecordIndex,
    j: RecordIndex,
    y: RecordIndex,
    s: Address,
    e: Address,
)
    requires { InsertsSome pool x.0 y.0 (range j.0 s.0 e.0) f }
    ensures keeps { Keeps f }
    ensures does { Inserted pool x.0 y.0 (range j.0 s.0 e.0) f }
{
    enchain(f.first_entry, f.previous, f.next, x, j, y);
    let m = j.0 as usize;
    f.start[m] = s.0;
    f.end[m] = e.0;
    f.enabled[m] = true;
    chain_entry_to_free_list(f.start, f.end, f.list_prev, f.list_next, f.free_list, j);
}
