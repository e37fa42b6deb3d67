// The allocator's state, and the kinds of number in it.
#![tactic(auto)]

ghost use Rattle.std.specs.Prelude.{◌≡◌};
ghost use Rattle.rules.specs.Rules.{empty};
ghost use Rattle.pool_state.specs.Shown.{pool};
ghost use Rattle.pool_state.specs.State.{state_of};

// The number of records, and of size lists.
pub const POOL: usize = 256;

pub const LISTS: usize = 12;

// What a link holds where there is none.
pub const NONE: u16 = 65535;

// A page has so many bytes.
pub const PAGE: u64 = 4096;

// Addresses stop here; no order is above this.
pub const TOP: u64 = 9223372036854775808;

pub const MAX_ORDER: u64 = 63;

#[derive(Clone, Copy, PartialEq, Eq)]
pub struct RecordIndex(pub u16);

#[derive(Clone, Copy, PartialEq, Eq)]
pub struct ListIndex(pub u8);

#[derive(Clone, Copy, PartialEq, Eq, PartialOrd, Ord)]
pub struct Address(pub u64);

// A record's number is its index. `previous` and `next` link the free ranges by address, `list_prev` and `list_next` those of one size list.
#[derive(Clone, Copy)]
pub struct MemoryAllocator {
    pub free_size: u64,
    pub first_entry: RecordIndex,
    pub free_list: [u16; LISTS],
    pub start: [u64; POOL],
    pub end: [u64; POOL],
    pub enabled: [bool; POOL],
    pub previous: [u16; POOL],
    pub next: [u16; POOL],
    pub list_prev: [u16; POOL],
    pub list_next: [u16; POOL],
}

// The fields of a state, each lent by whoever has it: a caller of C has them in memory of its own, one by one.
#[derive(Drop)]
pub struct Fields<'a> {
    pub free_size: &'a mut u64,
    pub first_entry: &'a mut u16,
    pub free_list: &'a mut [u16; LISTS],
    pub start: &'a mut [u64; POOL],
    pub end: &'a mut [u64; POOL],
    pub enabled: &'a mut [bool; POOL],
    pub previous: &'a mut [u16; POOL],
    pub next: &'a mut [u16; POOL],
    pub list_prev: &'a mut [u16; POOL],
    pub list_next: &'a mut [u16; POOL],
}

// The fields of a state that is one's own.
#[macro_export]
macro_rules! fields_of {
    ($state:ident) => {
        $crate::Fields {
            free_size: &mut $state.free_size,
            first_entry: &mut $state.first_entry.0,
            free_list: &mut $state.free_list,
            start: &mut $state.start,
            end: &mut $state.end,
            enabled: &mut $state.enabled,
            previous: &mut $state.previous,
            next: &mut $state.next,
            list_prev: &mut $state.list_prev,
            list_next: &mut $state.list_next,
        }
    };
}

// The empty allocator.
// In MiniVisor: new.
pub fn new() -> MemoryAllocator
    ensures { result ≡ state_of pool empty }
{
    MemoryAllocator {
        free_size: 0,
        first_entry: RecordIndex(NONE),
        free_list: [NONE; LISTS],
        start: [0; POOL],
        end: [0; POOL],
        enabled: [false; POOL],
        previous: [NONE; POOL],
        next: [NONE; POOL],
        list_prev: [NONE; POOL],
        list_next: [NONE; POOL],
    }
}
