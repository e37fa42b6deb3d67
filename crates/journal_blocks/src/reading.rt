// What the bytes of a block say.
ghost use Rattle.std.specs.Prelude.{true, ◌≡◌, ◌+◌, ◌*◌, ◌^◌, ◌≤◌, ◌<◌, length};
ghost use Rattle.journal_blocks.specs.Journal.{length_of, is_kind_lem, is_length_lem, word_in, entry_in_lem, whole_block, block_of};

use crate::writing::{KIND, NUMBERS, WORD};
use crate::{Block, Entry};
use batch::{ALLOCATE, FREE, RESERVE};
use bytes_be::read_be;
use calls::Request;
use pool_state::Address;

// The lengths that calls have: with two numbers, and with three.
const SHORT: u64 = 25;

const LONG: u64 = 33;

fn is_length(size: u64) -> bool
    ensures { result ≡ is_length_lem size }
{
    matches!(size, SHORT | LONG)
}

fn is_kind(kind: u64) -> bool
    ensures { result ≡ is_kind_lem kind }
{
    matches!(kind, FREE..=RESERVE)
}

fn length_of(kind: u64) -> u64
    ensures { result ≡ length_of kind }
{
    if kind == RESERVE { LONG } else { SHORT }
}

// The j-th number of a block.
fn word_at(block: &[u8], j: usize) -> u64
    requires { 3 + 8 * j + 8 ≤ length block.now }
    ensures { result ≡ word_in block.now j }
{
    let at = NUMBERS + WORD * j;
    read_be(&block[at..at + WORD])
}

// The call of this kind, and its answer.
fn entry_in(block: &[u8], kind: u64) -> Entry
    requires kind_in_bounds { 2 + length_of kind ≤ length block.now }
    requires kind_value { is_kind_lem kind ≡ true }
    ensures { result ≡ entry_in_lem kind block.now }
{
    let x = word_at(block, 0);
    let y = word_at(block, 1);
    let z = word_at(block, 2);
    // Each kind has a way out of its own: with one for all, the numbers are put together byte by byte behind it.
    match kind {
        FREE => {
            return Entry {
                request: Request::Free(Address(x), y),
                answer: z,
            };
        }
        ALLOCATE => {
            return Entry {
                request: Request::Allocate(x, y),
                answer: z,
            };
        }
        _ => {
            return Entry {
                request: Request::Reserve(Address(x), y, z),
                answer: word_at(block, 3),
            };
        }
    }
}

// A block whose bytes are all there.
fn read_whole(block: &[u8], at: usize, size: u64) -> Block
    requires { (is_length_lem size ≡ true) × (2 + size ≤ length block.now) × (at + length block.now < 2 ^ 64) }
    ensures { result ≡ whole_block at size block.now }
{
    let kind = read_be(&block[KIND..NUMBERS]);
    if !is_kind(kind) {
        return Block::UnknownCall;
    }
    if size != length_of(kind) {
        return Block::WrongLength;
    }
    let entry = entry_in(block, kind);
    Block::Call(entry, at + (KIND + size as usize))
}

// The block with which the bytes begin, that stand at the place `at`.
pub fn read_front(bytes: &[u8], at: usize) -> Block
    requires { (0 < length bytes.now) × (at + length bytes.now < 2 ^ 64) }
    ensures { result ≡ block_of at bytes.now }
{
    if bytes.len() < KIND {
        return Block::Truncated;
    }
    let size = read_be(&bytes[0..KIND]);
    if !is_length(size) {
        return Block::WrongLength;
    }
    if bytes.len() - KIND < size as usize {
        return Block::Truncated;
    }
    read_whole(bytes, at, size)
}
