// The entries, each in its own bytes.
ghost use Rattle.std.specs.Prelude.{true, ◌++◌, ◌≡◌, ◌*◌, ◌≤◌, ◌<◌, length, set};
ghost use Rattle.image_parts.specs.Layout.{current};
ghost use Rattle.holder_rules.specs.Register.{entries};
ghost use Rattle.holder_rules.specs.Holders.{both};
ghost use Rattle.pool_state.specs.Lent.{was, is};
ghost use Rattle.holder_image.specs.Layout.{entry_size, memory_at, whole_size};
ghost use Rattle.holder_image.specs.Bytes.{entry_bytes, entries_bytes, front_bytes_lem, bytes_of_lem, entry_in_lem, entry_at_lem, register_in_lem, memory_in, headed};

use crate::layout::{ENTRIES_AT, ENTRY, LAST, LENGTH, MEMORY, REST, START, VERSION};
use bytes_be::{put_be, put_word, read_be, read_word};
use holder_entries::unused_entry;
use holder_rules::{ENTRIES, Entry, EntryIndex, Holder, Register};
use pool_state::Address;

fn write_entry(part: &mut [u8], e: Entry)
    requires { length part.old ≡ entry_size }
    ensures { is part ≡ entry_bytes e }
{
    put_be(&mut part[0..START], e.holder.0);
    put_word(&mut part[START..LAST], e.start.0);
    put_word(&mut part[LAST..ENTRY], e.last.0);
}

// Another entry in this place of an image.
pub fn put_entry(image: &mut [u8], i: EntryIndex, e: Entry)
    requires { (headed current image.old ≡ true) × (i.0 < entries) }
    ensures { is image ≡ bytes_of_lem current (both (memory_in (was image)) (set (register_in_lem (was image)) i.0 e)) }
{
    let at = ENTRIES_AT + ENTRY * i.0;
    write_entry(&mut image[at..at + ENTRY], e);
}

fn write_entries(part: &mut [u8], register: Register)
    requires { length part.old ≡ entry_size * entries }
    ensures { is part ≡ entries_bytes register.entries }
{
    for i in 0..ENTRIES {
        let at = ENTRY * i;
        write_entry(&mut part[at..at + ENTRY], register.entries[i]);
    }
}

// The bytes before the allocator's image: the head and the entries.
pub fn write_front(image: &mut [u8], register: Register)
    requires { length image.old ≡ whole_size current }
    ensures { is image ≡ front_bytes_lem current register.entries ++ memory_in (was image) }
{
    put_be(&mut image[0..LENGTH], VERSION);
    put_be(&mut image[LENGTH..ENTRIES_AT], REST);
    write_entries(&mut image[ENTRIES_AT..MEMORY], register);
}

fn read_entry(part: &[u8]) -> Entry
    requires { length part.now ≡ entry_size }
    ensures { result ≡ entry_in_lem part.now }
{
    let holder = read_be(&part[0..START]);
    let start = read_word(&part[START..LAST]);
    let last = read_word(&part[LAST..ENTRY]);
    Entry {
        holder: Holder(holder),
        start: Address(start),
        last: Address(last),
    }
}

// Entry i of an image.
pub fn entry_at(image: &[u8], i: usize) -> Entry
    requires { (memory_at ≤ length image.now) × (i < entries) }
    ensures { result ≡ entry_at_lem image.now i }
{
    let at = ENTRIES_AT + ENTRY * i;
    read_entry(&image[at..at + ENTRY])
}

// The register of an image goes where it is to lie.
pub fn fill_register(image: &[u8], register: &mut Register)
    requires { (memory_at ≤ length image.now) × (length register.old.entries ≡ entries) }
    ensures { (is register).entries ≡ register_in_lem image.now }
{
    for i in 0..ENTRIES {
        register.entries[i] = entry_at(image, i);
    }
}

// The register in an image.
pub fn read_register(image: &[u8]) -> Register
    requires { memory_at ≤ length image.now }
    ensures { result.entries ≡ register_in_lem image.now }
{
    let mut register = Register {
        entries: [unused_entry(); ENTRIES],
    };
    fill_register(image, &mut register);
    register
}
