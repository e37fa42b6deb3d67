// The allocator with a register of who holds what: its state goes in by value and comes back by value. A client takes all from here: the
// types, the calls, the check of a state, its lists and its totals.
#![tactic(auto)]

ghost use Rattle.std.specs.Prelude.{◌≡◌};
ghost use Rattle.memory_allocator.specs.Names.{pool};
ghost use Rattle.holders.specs.Promises.{offer_of, allocate_of, reserve_of, free_of};

use calls::Request;
pub use holder_check::is_sound;
pub use holder_lists::{Whose, held, listing, total};
pub use holder_ranges::holdings;
pub use holder_rules::{ENTRIES, Entry, HOLDERS, Holder, HolderAllocator, Register, new};
pub use holder_serve::{HolderAnswer, HolderError, HolderOutcome, HolderRequest, serve_holder};
use pool_state::Address;

// The board offers `size` bytes from `address`: they become free.
pub fn offer(s: HolderAllocator, address: Address, size: u64) -> HolderOutcome
    ensures { result ≡ offer_of pool s address.0 size }
{
    serve_holder(s, HolderRequest::Offer(address, size))
}

// The holder takes `size` bytes from a multiple of 2^order.
pub fn allocate(s: HolderAllocator, holder: Holder, size: u64, order: u64) -> HolderOutcome
    ensures { result ≡ allocate_of pool s holder.0 size order }
{
    serve_holder(s, HolderRequest::By(holder, Request::Allocate(size, order)))
}

// The holder takes the bytes from `address`, widened to multiples of 2^order.
pub fn reserve_memory(
    s: HolderAllocator,
    holder: Holder,
    address: Address,
    size: u64,
    order: u64,
) -> HolderOutcome
    ensures { result ≡ reserve_of pool s holder.0 address.0 size order }
{
    serve_holder(
        s,
        HolderRequest::By(holder, Request::Reserve(address, size, order)),
    )
}

// The holder hands back `size` bytes from `address`, exactly as they were handed out.
pub fn free(s: HolderAllocator, holder: Holder, address: Address, size: u64) -> HolderOutcome
    ensures { result ≡ free_of pool s holder.0 address.0 size }
{
    serve_holder(s, HolderRequest::By(holder, Request::Free(address, size)))
}
