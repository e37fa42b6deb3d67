// The allocator: its state goes in by value and comes back by value. A client takes all from here: the types, the calls, the check of a
// state, its total and its listing.
#![tactic(auto)]

ghost use Rattle.std.specs.Prelude.{◌≡◌};
ghost use Rattle.pool_state.specs.Shown.{pool};
ghost use Rattle.memory_allocator.specs.Promises.{allocate_of, reserve_of, free_of};

pub use calls::{Answer, Counted, MemoryError, Outcome, Request};
pub use check_state::is_sound;
pub use core_accounts::{listing, total};
pub use core_serve::serve;
pub use pool_state::{Address, MemoryAllocator, POOL, new};

// `size` bytes from a multiple of 2^order.
pub fn allocate(s: MemoryAllocator, size: u64, order: u64) -> Outcome
    ensures { result ≡ allocate_of pool s size order }
{
    serve(s, Request::Allocate(size, order))
}

// The bytes from `address`, widened to multiples of 2^order, are taken.
pub fn reserve_memory(s: MemoryAllocator, address: Address, size: u64, order: u64) -> Outcome
    ensures { result ≡ reserve_of pool s address.0 size order }
{
    serve(s, Request::Reserve(address, size, order))
}

// `size` bytes from `address` become free.
pub fn free(s: MemoryAllocator, address: Address, size: u64) -> Outcome
    ensures { result ≡ free_of pool s address.0 size }
{
    serve(s, Request::Free(address, size))
}
