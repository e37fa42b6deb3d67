// What a state shows of itself: who holds what, by address, and how many bytes; the free bytes, and the listing of the free ranges.
#![tactic(auto)]

ghost use Rattle.std.specs.Prelude.{cond, ◌≡◌, ◌≤◌, ◌<◌, T};
ghost use Rattle.rules.specs.Rules.{top, size, sum};
ghost use Rattle.memory_allocator.specs.Names.{pool};
ghost use Rattle.holder_rules.specs.Register.{used, range_of};
ghost use Rattle.holder_rules.specs.Sound.{SoundEntries};
ghost use Rattle.holder_lists.specs.Whose.{is_known_lem, belongs, found};
ghost use Rattle.holder_lists.specs.Accounts.{asked_of, held_of, total_of, FreeLists};

use calls::{Answer, Counted, MemoryError};
use core_accounts::{listing as list_memory, total as total_memory};
use holder_check::is_sound;
use holder_rules::{Entry, Holder, HolderAllocator, Register};
use pool_state::Address;

// Every holder, or one.
#[derive(Clone, Copy)]
pub enum Whose {
    All,
    One(Holder),
}

// Whether it is everybody, or one of the holders.
fn is_known(whose: Whose) -> bool
    ensures { result ≡ is_known_lem whose }
{
    match whose {
        Whose::All => true,
        Whose::One(holder) => holder.is_known(),
    }
}

// Whether the entry is used, and one of these.
pub fn belongs_to(e: Entry, whose: Whose) -> bool
    ensures { result ≡ belongs whose e }
{
    e.is_used()
        && match whose {
            Whose::All => true,
            Whose::One(holder) => e.holder == holder,
        }
}

// An unsound state, a number that is no holder's, or that the list can be made.
pub fn answer_asked(s: HolderAllocator, whose: Whose) -> Answer
    ensures { result ≡ asked_of pool s whose }
{
    if is_sound(s) {
        if is_known(whose) {
            return Ok(Address(0));
        }
        return Err(MemoryError::InvalidRequest);
    }
    Err(MemoryError::InvalidEntry)
}

// The bytes of an entry, if it is one of these.
fn size_held(e: Entry, whose: Whose) -> u64
    requires { T (used e) → (e.start.0 ≤ e.last.0) × (e.last.0 < top) }
    ensures { result ≡ cond (belongs whose e) (size (range_of e)) 0 }
{
    if belongs_to(e, whose) {
        return e.last.0 - e.start.0 + 1;
    }
    0
}

// The bytes of the ranges.
fn sum_held(register: Register, whose: Whose) -> u64
    requires { SoundEntries register.entries }
    ensures { result ≡ sum (found whose register.entries) }
{
    let mut bytes = 0;
    for e in &register.entries {
        bytes += size_held(*e, whose);
    }
    bytes
}

// The number of held bytes.
pub fn held(s: HolderAllocator, whose: Whose) -> Counted
    ensures { result ≡ held_of pool s whose }
{
    answer_asked(s, whose)?;
    Ok(sum_held(s.register, whose))
}

// The number of free bytes.
pub fn total(s: HolderAllocator) -> Counted
    ensures { result ≡ total_of pool s }
{
    if is_sound(s) {
        let memory = s.memory;
        return total_memory(memory);
    }
    Err(MemoryError::InvalidEntry)
}

// The first and last byte of each free range, by address, into the first places of two lent slices; the value is their number.
pub fn listing(s: HolderAllocator, starts: &mut [u64], lasts: &mut [u64]) -> Counted
    ensures { FreeLists pool s starts.old lasts.old result starts.new lasts.new }
{
    if is_sound(s) {
        let memory = s.memory;
        return list_memory(memory, starts, lasts);
    }
    Err(MemoryError::InvalidEntry)
}
