// A mapping and what it does to tables, which is defined in specs/; what follows is shown in proofs/.
#![tactic(auto)]

// The bytes of a page, and those of a word of a table.
pub const PAGE: u64 = 4096;

pub const WORD: u64 = 8;

// A mapping that is asked for: the inputs from `from` to before `past`, the output of the first of them, and S2AP, 2 for writable and 1 for
// readable.
#[derive(Clone, Copy)]
pub struct Mapping {
    pub from: u64,
    pub past: u64,
    pub out: u64,
    pub permission: u64,
}
