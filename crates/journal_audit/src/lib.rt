// The audit of a journal: its calls are replayed from empty, and each answer is compared with the one that stands in it. The state that
// they leave is ten lent fields.
#![tactic(auto)]

ghost use Rattle.std.specs.Prelude.{◌≡◌, ◌+◌, ◌<◌, ◌^◌, length};
ghost use Rattle.pool_state.specs.Shown.{pool};
ghost use Rattle.pool_state.specs.Sound.{book_of, SoundState};
ghost use Rattle.pool_state.specs.Lent.{fields, turns};
ghost use Rattle.journal_blocks.specs.Journal.{block_at};
ghost use Rattle.journal_blocks.specs.declared.Block.TheVariants.{Call};
ghost use Rattle.journal_audit.specs.Audit.{stands_at_lem, judged_by, audited, audited_on, begun, verdict_for, verdict_of_lem, audit_of};

use call_serve::serve_in;
use journal_blocks::{Block, Entry, answer_bits, has_version, read_block};
use pool_state::{LISTS, NONE, POOL};

// What an audit reports: the final total, or the index, from 0, of the block at which it stopped.
#[derive(Clone, Copy)]
pub enum Verdict {
    Agrees(u64),
    Differs(u64),
    Truncated(u64),
    UnknownCall(u64),
    WrongLength(u64),
    NoVersion,
}

// Why an audit of some blocks stopped: it wants more bytes, or one of the three troubles.
#[derive(Clone, Copy)]
pub enum Stop {
    More,
    Differs,
    UnknownCall,
    WrongLength,
}

// Where an audit stands, besides the state: how many calls have agreed, how many of the bytes were those of their blocks, and why it
// stopped.
#[derive(Clone, Copy)]
pub struct Stand {
    pub index: u64,
    pub used: usize,
    pub stop: Stop,
}

// A call is replayed, and passed where its answer agrees. One that differs has been made, too.
fn audit_call(
    total: &mut u64,
    first: &mut u16,
    heads: &mut [u16; LISTS],
    start: &mut [u64; POOL],
    end: &mut [u64; POOL],
    enabled: &mut [bool; POOL],
    previous: &mut [u16; POOL],
    next: &mut [u16; POOL],
    lprev: &mut [u16; POOL],
    lnext: &mut [u16; POOL],
    index: u64,
    entry: Entry,
    at: usize,
    past: usize,
) -> Stand
    requires fields { fields (SoundState pool) total first heads start end enabled previous next lprev lnext }
    requires index_bound { index + 1 < 2 ^ 64 }
    ensures { turns (λ s s'. audited s' result ≡ judged_by pool (stands_at_lem pool) at index (book_of pool s) (Call entry past)) total first heads start end enabled previous next lprev lnext }
{
    let request = entry.request;
    let answer = serve_in(
        total, first, heads, start, end, enabled, previous, next, lprev, lnext, request,
    );
    if answer_bits(answer) != entry.answer {
        return Stand {
            index,
            used: at,
            stop: Stop::Differs,
        };
    }
    Stand {
        index: index + 1,
        used: past,
        stop: Stop::More,
    }
}

// The block at a place is judged.
fn audit_block(
    total: &mut u64,
    first: &mut u16,
    heads: &mut [u16; LISTS],
    start: &mut [u64; POOL],
    end: &mut [u64; POOL],
    enabled: &mut [bool; POOL],
    previous: &mut [u16; POOL],
    next: &mut [u16; POOL],
    lprev: &mut [u16; POOL],
    lnext: &mut [u16; POOL],
    index: u64,
    part: &[u8],
    at: usize,
) -> Stand
    requires fields { fields (SoundState pool) total first heads start end enabled previous next lprev lnext }
    requires index_bound { index + 1 < 2 ^ 64 }
    ensures { turns (λ s s'. audited s' result ≡ judged_by pool (stands_at_lem pool) at index (book_of pool s) (block_at part.now at)) total first heads start end enabled previous next lprev lnext }
{
    match read_block(part, at) {
        Block::Call(entry, past) => audit_call(
            total, first, heads, start, end, enabled, previous, next, lprev, lnext, index, entry,
            at, past,
        ),
        Block::End | Block::Truncated => Stand {
            index,
            used: at,
            stop: Stop::More,
        },
        Block::UnknownCall => Stand {
            index,
            used: at,
            stop: Stop::UnknownCall,
        },
        Block::WrongLength => Stand {
            index,
            used: at,
            stop: Stop::WrongLength,
        },
    }
}

// Every whole block of a part of a journal, from where an audit stands. The bytes that were not used are those of a block that the part
// cuts off: they go before the next part.
pub fn audit_part(
    total: &mut u64,
    first: &mut u16,
    heads: &mut [u16; LISTS],
    start: &mut [u64; POOL],
    end: &mut [u64; POOL],
    enabled: &mut [bool; POOL],
    previous: &mut [u16; POOL],
    next: &mut [u16; POOL],
    lprev: &mut [u16; POOL],
    lnext: &mut [u16; POOL],
    index: u64,
    part: &[u8],
) -> Stand
    requires fields { fields (SoundState pool) total first heads start end enabled previous next lprev lnext }
    requires part_bound { index + length part.now + 1 < 2 ^ 64 }
    ensures { turns (λ s s'. audited s' result ≡ audited_on pool (record { state = s; index = index }) part.now) total first heads start end enabled previous next lprev lnext }
{
    let mut done = Stand {
        index,
        used: 0,
        stop: Stop::More,
    };
    loop {
        let at = done.used;
        let stand = audit_block(
            total, first, heads, start, end, enabled, previous, next, lprev, lnext, done.index,
            part, at,
        );
        if stand.used <= at {
            return stand;
        }
        done = stand;
    }
}

// What an audit of all blocks, of so many bytes, reports that has left this total.
pub fn verdict_of(done: Stand, total: u64, size: usize) -> Verdict
    ensures { result ≡ verdict_for done.stop size done.used done.index total }
{
    let index = done.index;
    match done.stop {
        Stop::More if done.used == size => Verdict::Agrees(total),
        Stop::More => Verdict::Truncated(index),
        Stop::Differs => Verdict::Differs(index),
        Stop::UnknownCall => Verdict::UnknownCall(index),
        Stop::WrongLength => Verdict::WrongLength(index),
    }
}

// The blocks of a whole journal, from empty.
fn replay(blocks: &[u8]) -> Verdict
    ensures { result ≡ verdict_of_lem (length blocks.now) (audited_on pool (begun pool) blocks.now) }
{
    let mut total: u64 = 0;
    let mut first: u16 = NONE;
    let mut heads = [NONE; LISTS];
    let mut start = [0u64; POOL];
    let mut end = [0u64; POOL];
    let mut enabled = [false; POOL];
    let mut previous = [NONE; POOL];
    let mut next = [NONE; POOL];
    let mut lprev = [NONE; POOL];
    let mut lnext = [NONE; POOL];
    let done = audit_part(
        &mut total,
        &mut first,
        &mut heads,
        &mut start,
        &mut end,
        &mut enabled,
        &mut previous,
        &mut next,
        &mut lprev,
        &mut lnext,
        0,
        blocks,
    );
    verdict_of(done, total, blocks.len())
}

// A whole journal.
pub fn audit(journal: &[u8]) -> Verdict
    ensures { result ≡ audit_of pool journal.now }
{
    if !has_version(journal) {
        return Verdict::NoVersion;
    }
    replay(&journal[1..])
}
