// The numbers, the links and the records of an image.
#![tactic(auto)]

pub mod numbers;
pub mod records;
