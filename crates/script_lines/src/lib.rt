// The lines of the script program: where a line ends, and the call that it says.
#![tactic(auto)]

pub mod find;
pub mod parse;
