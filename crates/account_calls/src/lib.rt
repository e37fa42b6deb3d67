// The calls on an account by value: what they do to its ranges is what the core does, and the figure is noted where a call ends accepted.
#![tactic(auto)]

ghost use Rattle.std.specs.Prelude.{◌≡◌};
ghost use Rattle.calls.specs.Calls.{call_of};
ghost use Rattle.pool_state.specs.Shown.{pool};
ghost use Rattle.account_state.specs.Account.{opened};
ghost use Rattle.account_calls.specs.Made.{made, allocate_of, reserve_of, free_of};
ghost use Rattle.account_calls.specs.Accounts.{total_of, lowest_of};

use account_state::{Account, Entered, NEVER, is_sound, noted};
use calls::{Counted, MemoryError, Request};
use core_serve::serve_sound;
use pool_state::Address;

// The account of an empty allocator.
pub fn new() -> Account
    ensures { result ≡ opened pool }
{
    let ranges = pool_state::new();
    Account {
        ranges: ranges,
        lowest: NEVER,
    }
}

// A request of any account.
pub fn serve(a: Account, request: Request) -> Entered
    ensures { result ≡ made pool a (call_of request) }
{
    if is_sound(a) {
        let served = serve_sound(a.ranges, request);
        let answer = served.answer;
        let ranges = served.state;
        let lowest = noted(answer, ranges.free_size, a.lowest);
        let left = Account {
            ranges: ranges,
            lowest: lowest,
        };
        return Entered {
            answer: answer,
            state: left,
        };
    }
    Entered {
        answer: Err(MemoryError::InvalidEntry),
        state: a,
    }
}

// `size` bytes from a multiple of 2^order.
pub fn allocate(a: Account, size: u64, order: u64) -> Entered
    ensures { result ≡ allocate_of pool a size order }
{
    serve(a, Request::Allocate(size, order))
}

// The bytes from `address`, widened to multiples of 2^order, are taken.
pub fn reserve_memory(a: Account, address: Address, size: u64, order: u64) -> Entered
    ensures { result ≡ reserve_of pool a address.0 size order }
{
    serve(a, Request::Reserve(address, size, order))
}

// `size` bytes from `address` become free.
pub fn free(a: Account, address: Address, size: u64) -> Entered
    ensures { result ≡ free_of pool a address.0 size }
{
    serve(a, Request::Free(address, size))
}

// The number of free bytes.
pub fn total(a: Account) -> Counted
    ensures { result ≡ total_of pool a }
{
    if is_sound(a) {
        let ranges = a.ranges;
        return Ok(ranges.free_size);
    }
    Err(MemoryError::InvalidEntry)
}

// The least number of free bytes after any accepted call since the first accepted free.
pub fn lowest(a: Account) -> Counted
    ensures { result ≡ lowest_of pool a }
{
    if is_sound(a) {
        return Ok(a.lowest);
    }
    Err(MemoryError::InvalidEntry)
}
