// The byte image of an allocator with its register.
#![tactic(auto)]

pub mod entries;
pub mod head;
pub mod layout;
