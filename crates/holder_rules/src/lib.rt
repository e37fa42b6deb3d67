// The register of who holds what, above the allocator, and the kinds of number in it. Request T-07 as definitions: specs/.
#![tactic(auto)]

ghost use Rattle.std.specs.Prelude.{◌≡◌};
ghost use Rattle.memory_allocator.specs.Names.{pool};
ghost use Rattle.holder_rules.specs.Register.{known, used};
ghost use Rattle.holder_rules.specs.States.{new_of};

use pool_state::{Address, MemoryAllocator, new as new_memory};

// Held ranges, of all holders together. Holders are 1 to 16.
pub const ENTRIES: usize = 64;

pub const HOLDERS: u64 = 16;

// The number of a holder; 0 stands for nobody, in an entry that is not used.
#[derive(Clone, Copy, PartialEq, Eq)]
pub struct Holder(pub u64);

impl Holder {
    // Whether the number is a holder's.
    pub fn is_known(self) -> bool
        ensures { result ≡ known self.0 }
    {
        1 <= self.0 && self.0 <= HOLDERS
    }
}

#[derive(Clone, Copy, PartialEq, Eq)]
pub struct EntryIndex(pub usize);

// A held range: who holds it, its first byte and its last.
#[derive(Clone, Copy)]
pub struct Entry {
    pub holder: Holder,
    pub start: Address,
    pub last: Address,
}

impl Entry {
    // Whether somebody holds it.
    pub fn is_used(self) -> bool
        ensures { result ≡ used self }
    {
        self.holder.0 != 0
    }
}

#[derive(Clone, Copy)]
pub struct Register {
    pub entries: [Entry; ENTRIES],
}

// The allocator, and the register above it.
#[derive(Clone, Copy)]
pub struct HolderAllocator {
    pub memory: MemoryAllocator,
    pub register: Register,
}

// The empty allocator, with no range held.
pub fn new() -> HolderAllocator
    ensures { result ≡ new_of pool }
{
    HolderAllocator {
        memory: new_memory(),
        register: Register {
            entries: [Entry {
                holder: Holder(0),
                start: Address(0),
                last: Address(0),
            }; ENTRIES],
        },
    }
}
