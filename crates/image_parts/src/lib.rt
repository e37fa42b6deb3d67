// The parts of an image, each in its own bytes: its layout, links, a record, the head.
#![tactic(auto)]

pub mod head;
pub mod layout;
pub mod links;
pub mod records;
