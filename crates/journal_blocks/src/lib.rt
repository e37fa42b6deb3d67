// The blocks of a journal, each a call with its answer: reading one and writing one.
#![tactic(auto)]

ghost use Rattle.std.specs.Prelude.{[], ◌∷◌, ◌≡◌};
ghost use Rattle.pool_state.specs.Lent.{was, is};
ghost use Rattle.script_texts.specs.Answers.{Puts};
ghost use Rattle.calls.specs.Calls.{signed_of};
ghost use Rattle.journal_blocks.specs.Bits.{bits_of};
ghost use Rattle.journal_blocks.specs.Journal.{version, versioned, block_at, block_bytes};

use batch::{ALLOCATE, FREE, RESERVE};
use calls::{Answer, MemoryError, Request};
use reading::read_front;
use script_texts::put_bytes;
use writing::put_block;

mod reading;
mod writing;

// A call, and the 64 bits of its answer.
#[derive(Clone, Copy)]
pub struct Entry {
    pub request: Request,
    pub answer: u64,
}

// What stands at a place of a journal: a call with the place after its block, the end, or one of the three faults.
#[derive(Clone, Copy)]
pub enum Block {
    Call(Entry, usize),
    End,
    Truncated,
    UnknownCall,
    WrongLength,
}

pub const VERSION: u8 = 1;

// The 64 bits of an answer's signed number.
pub fn answer_bits(answer: Answer) -> u64
    ensures { result ≡ bits_of (signed_of answer) }
{
    match answer {
        Ok(address) => address.0,
        Err(MemoryError::NoEntry) => 18446744073709551615,
        Err(MemoryError::InvalidEntry) => 18446744073709551614,
        Err(MemoryError::NoMemory) => 18446744073709551613,
        Err(MemoryError::InvalidRequest) => 18446744073709551612,
    }
}

pub fn has_version(journal: &[u8]) -> bool
    ensures { result ≡ versioned journal.now }
{
    journal.first() == Some(&VERSION)
}

// The block at a place; at or past the end there is none.
pub fn read_block(journal: &[u8], at: usize) -> Block
    ensures { result ≡ block_at journal.now at }
{
    if journal.len() <= at {
        return Block::End;
    }
    read_front(&journal[at..], at)
}

// The version byte: a journal without calls.
pub fn begin(journal: &mut [u8]) -> usize
    ensures { Puts (version ∷ []) (was journal) 0 (is journal) result }
{
    put_bytes(journal, 0, &[VERSION])
}

// The block of a call and its answer, from a place on; nothing where it does not fit.
pub fn write_block(journal: &mut [u8], at: usize, entry: Entry) -> usize
    ensures { Puts (block_bytes entry) (was journal) at (is journal) result }
{
    let answer = entry.answer;
    match entry.request {
        Request::Allocate(size, order) => put_block(journal, at, ALLOCATE, &[size, order, answer]),
        Request::Reserve(address, size, order) => {
            put_block(journal, at, RESERVE, &[address.0, size, order, answer])
        }
        Request::Free(address, size) => put_block(journal, at, FREE, &[address.0, size, answer]),
    }
}
