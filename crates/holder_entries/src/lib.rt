// The entries of the register: found, stored, and held against a piece.
#![tactic(auto)]

ghost use Rattle.std.specs.Prelude.{◌&&◌, ◌≡◌, ◌+◌, ◌<◌, drop, set};
ghost use Rattle.rules.specs.Rules.{any, meets};
ghost use Rattle.holder_rules.specs.Register.{entries, blank, used, range_of, held, hands};
ghost use Rattle.holder_entries.specs.Places.{unused_in, handed_in};

use holder_rules::{Entry, EntryIndex, Holder, Register};
use pool_state::Address;

// An entry that is not used.
pub fn unused_entry() -> Entry
    ensures { result ≡ blank }
{
    Entry {
        holder: Holder(0),
        start: Address(0),
        last: Address(0),
    }
}

// The lowest unused entry.
pub fn find_unused(register: &Register) -> Option<EntryIndex>
    ensures { result ≡ unused_in register.now.entries }
{
    register
        .entries
        .iter()
        .position(|e| !e.is_used())
        .map(EntryIndex)
}

// Whether the entry is the holder's, with this first byte and this size.
pub fn is_handed(e: Entry, holder: Holder, address: Address, size: u64) -> bool
    ensures { result ≡ hands holder.0 address.0 size e }
{
    if !e.is_used() || e.holder != holder || e.start.0 != address.0 {
        return false;
    }
    if e.last.0 < e.start.0 {
        return size == 0;
    }
    size != 0 && e.last.0 - e.start.0 == size - 1
}

// The entry of this piece, exactly as handed to the holder.
pub fn find_handed(
    register: &Register,
    holder: Holder,
    address: Address,
    size: u64,
) -> Option<EntryIndex>
    ensures { result ≡ handed_in holder.0 address.0 size register.now.entries }
{
    register
        .entries
        .iter()
        .position(|e| is_handed(*e, holder, address, size))
        .map(EntryIndex)
}

// The register with another entry in this place.
pub fn with_entry(register: Register, i: EntryIndex, e: Entry) -> Register
    requires { i.0 < entries }
    ensures { result.entries ≡ set register.entries i.0 e }
{
    let at = i.0;
    let mut next = register;
    next.entries[at] = e;
    next
}

// Whether the entry is used, and its range has one of `size` bytes from `address`.
pub fn meets_entry(e: Entry, address: Address, size: u64) -> bool
    ensures { result ≡ (used e && meets address.0 (address.0 + size) (range_of e)) }
{
    if !e.is_used() || e.last.0 < address.0 {
        return false;
    }
    e.start.0 < address.0 || e.start.0 - address.0 < size
}

// Whether one of `size` bytes from `address` is held, by an entry from number `from` on.
pub fn meets_held(register: &Register, from: usize, address: Address, size: u64) -> bool
    ensures { result ≡ any (meets address.0 (address.0 + size)) (held (drop from register.now.entries)) }
{
    register
        .entries
        .iter()
        .skip(from)
        .any(|e| meets_entry(*e, address, size))
}
