// Where each field of the register's image stands: a head, the entries, and the allocator's image whole.
use holder_rules::ENTRIES;
use image_parts::layout::{IMAGE, WORD};

pub const VERSION: u64 = 1;

pub const LENGTH: usize = 1;

pub const ENTRIES_AT: usize = LENGTH + 4;

// In an entry, after its holder.
pub const START: usize = 1;

pub const LAST: usize = START + WORD;

pub const ENTRY: usize = LAST + WORD;

pub const MEMORY: usize = ENTRIES_AT + ENTRY * ENTRIES;

pub const HOLDERS_IMAGE: usize = MEMORY + IMAGE;

// The length field: the bytes after it.
pub const REST: u64 = (HOLDERS_IMAGE - ENTRIES_AT) as u64;
