// The byte image of an account: its writer and its reader.
#![tactic(auto)]

use account_state::Account;

mod read;
mod write;

pub use read::read_image;
pub use write::{write_account, write_image};

// The refusal of bytes that are no image, of a slice of another length and of an account that is not sound.
#[derive(Clone, Copy, Debug, PartialEq, Eq)]
pub struct InvalidEntry;

// What reading gives: a refused read hands over the account of an empty allocator.
#[derive(Clone, Copy)]
pub struct Reading {
    pub answer: Result<(), InvalidEntry>,
    pub state: Account,
}
