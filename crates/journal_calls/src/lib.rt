// The calls of a journal over lent slices, with one signed number as the answer.
#![tactic(auto)]

ghost use Rattle.std.specs.Prelude.{[], ◌∷◌, ◌≡◌, ◌<◌, ◌^◌};
ghost use Rattle.pool_state.specs.Shown.{pool};
ghost use Rattle.pool_state.specs.Lent.{was, is};
ghost use Rattle.batch.specs.InWords.{asked_of};
ghost use Rattle.journal_blocks.specs.Journal.{version, block_bytes};
ghost use Rattle.journal_audit.specs.Audit.{audit_of};
ghost use Rattle.journal_calls.specs.Calls.{left, put_over, write_over, stored_over, read_over, Reports};

use batch::{asked_at, words_of};
use calls::{INVALID_ENTRY, INVALID_REQUEST};
use journal_audit::{Verdict, audit};
use journal_blocks::{Block, Entry, begin, read_block, write_block};

// The words of a call and its answer.
pub const ENTRY_WORDS: usize = 5;

// The version byte: the place of the first block.
pub fn begin_journal(journal: &mut [u8]) -> i64
    ensures { left result (is journal) ≡ put_over (version ∷ []) (was journal) 0 }
{
    if journal.len() == 0 {
        return INVALID_REQUEST;
    }
    begin(journal) as i64
}

// A block: the place after it.
fn put_entry(journal: &mut [u8], at: usize, entry: Entry) -> i64
    ensures { left result (is journal) ≡ put_over (block_bytes entry) (was journal) at }
{
    let next = write_block(journal, at, entry);
    if next == at {
        return INVALID_REQUEST;
    }
    next as i64
}

// The block of a call in words and the 64 bits of its answer, from a place on.
pub fn write_entry(
    journal: &mut [u8],
    at: usize,
    kind: u64,
    x: u64,
    y: u64,
    z: u64,
    answer: u64,
) -> i64
    ensures { left result (is journal) ≡ write_over (asked_of kind x y z) answer (was journal) at }
{
    match asked_at(&[kind, x, y, z], 0) {
        Some(request) => put_entry(
            journal,
            at,
            Entry {
                request: request,
                answer: answer,
            },
        ),
        None => INVALID_REQUEST,
    }
}

// The words of a call and its answer go into the slice: the place after the block.
fn store_entry(entry: Entry, next: usize, words: &mut [u64]) -> i64
    requires { next < 2 ^ 63 }
    ensures { left result (is words) ≡ stored_over entry next (was words) }
{
    if words.len() < ENTRY_WORDS {
        return INVALID_REQUEST;
    }
    let request = entry.request;
    let call = words_of(request);
    words[0] = call[0];
    words[1] = call[1];
    words[2] = call[2];
    words[3] = call[3];
    words[4] = entry.answer;
    next as i64
}

// The block at a place is read into words.
pub fn read_entry(journal: &[u8], at: usize, words: &mut [u64]) -> i64
    ensures { left result (is words) ≡ read_over journal.now at (was words) }
{
    if journal.len() < at {
        return INVALID_REQUEST;
    }
    match read_block(journal, at) {
        Block::Call(entry, next) => store_entry(entry, next, words),
        Block::End => 0,
        Block::Truncated | Block::UnknownCall | Block::WrongLength => INVALID_ENTRY,
    }
}

// The journal is replayed from empty: which of the reports, with its figure.
pub fn audit_journal(journal: &[u8], figure: &mut u64) -> i64
    ensures { Reports (audit_of pool journal.now) (was figure) result (is figure) }
{
    match audit(journal) {
        Verdict::Agrees(total) => {
            *figure = total;
            0
        }
        Verdict::Differs(index) => {
            *figure = index;
            1
        }
        Verdict::Truncated(index) => {
            *figure = index;
            2
        }
        Verdict::UnknownCall(index) => {
            *figure = index;
            3
        }
        Verdict::WrongLength(index) => {
            *figure = index;
            4
        }
        Verdict::NoVersion => INVALID_ENTRY,
    }
}
