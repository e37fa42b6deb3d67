// A call of the register on the state that a lent image holds.
#![tactic(auto)]

mod over;
mod settle;

pub use over::serve_over;
