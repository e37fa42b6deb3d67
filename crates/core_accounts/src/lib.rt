// What a state shows of itself: its total, and the listing of its ranges.
#![tactic(auto)]

ghost use Rattle.std.specs.Prelude.{◌≡◌};
ghost use Rattle.pool_state.specs.Shown.{pool};
ghost use Rattle.core_accounts.specs.Accounts.{total_of, listed_answer, Lists};

use calls::{Counted, MemoryError};
use check_state::is_sound;
use pool_listing::list_in;
use pool_state::MemoryAllocator;

// The number of free bytes.
pub fn total(s: MemoryAllocator) -> Counted
    ensures { result ≡ total_of pool s }
{
    if is_sound(s) {
        return Ok(s.free_size);
    }
    Err(MemoryError::InvalidEntry)
}

// The answer of a listing.
fn answer_listed(listed: Option<usize>) -> Counted
    ensures { result ≡ listed_answer listed }
{
    match listed {
        Some(count) => Ok(count as u64),
        None => Err(MemoryError::InvalidRequest),
    }
}

// The first and last byte of each free range, by address, into the first places of two lent slices; the value is their number.
pub fn listing(s: MemoryAllocator, starts: &mut [u64], lasts: &mut [u64]) -> Counted
    ensures { Lists pool s starts.old lasts.old result starts.new lasts.new }
{
    if is_sound(s) {
        let start = s.start;
        let end = s.end;
        let next = s.next;
        let listed = list_in(&start, &end, &next, s.first_entry, starts, lasts);
        return answer_listed(listed);
    }
    Err(MemoryError::InvalidEntry)
}
