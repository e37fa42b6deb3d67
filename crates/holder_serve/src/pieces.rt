// The bytes that an accepted take hands out, as an entry.
ghost use Rattle.std.specs.Prelude.{◌≡◌, ◌+◌, ◌-◌, ◌<◌, ◌≤◌};
ghost use Rattle.rules.specs.Rules.{top};
ghost use Rattle.memory_allocator.specs.Names.{call_of};
ghost use Rattle.holder_rules.specs.Register.{entry};
ghost use Rattle.holder_rules.specs.Holders.{piece};
ghost use Rattle.holder_serve.specs.Pieces.{Moves};

use holder_rules::{Entry, Holder};
use memory_allocator::Request;
use pool_state::Address;
use rounding::align_address_and_size;

// `size` bytes from `start`.
fn entry_of(holder: Holder, start: Address, size: u64) -> Entry
    requires { (0 < size) × (start.0 + size ≤ top) }
    ensures { result ≡ entry holder.0 start.0 (start.0 + size - 1) }
{
    let last = start.0 + (size - 1);
    Entry {
        holder: holder,
        start: start,
        last: Address(last),
    }
}

// The entry of a call whose address is this.
pub fn piece_of(holder: Holder, request: Request, address: u64) -> Entry
    requires { Moves (call_of request) address }
    ensures { result ≡ piece holder.0 (call_of request) address }
{
    match request {
        Request::Allocate(size, _) => entry_of(holder, Address(address), size),
        Request::Free(start, size) => entry_of(holder, start, size),
        Request::Reserve(start, size, order) => {
            let aligned = align_address_and_size(start, size, order);
            entry_of(holder, aligned.start, aligned.size)
        }
    }
}
