// The byte image of an allocator with its register, by value: its writer and its reader.
#![tactic(auto)]

use holder_rules::HolderAllocator;
use image::InvalidEntry;

mod read;
mod write;

pub use read::read_holders_image;
pub use write::write_holders_image;

// What reading gives: a refused read hands over the state of `new`, which was never offered anything.
#[derive(Clone, Copy)]
pub struct HolderReading {
    pub answer: Result<(), InvalidEntry>,
    pub state: HolderAllocator,
    pub lowest: u64,
}
