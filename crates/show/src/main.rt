// The program that shows a journal: standard input is read in parts, and each whole block is a line.
#![tactic(auto)]

ghost use Rattle.std.specs.Prelude.{◌≡◌, ◌+◌, ◌*◌, ◌≤◌, ◌<◌, ◌^◌, IfSome, length};
ghost use Rattle.pool_state.specs.Lent.{was, is};
ghost use Rattle.show.specs.Shown.{Came};

use journal_audit::Verdict;
use journal_blocks::{Block, VERSION, read_block};
use journal_prints::{print_entry, report, shift};
use streams::{Streams, read_some};

// The place of the next block, and its index.
#[derive(Clone, Copy)]
pub struct Showing {
    pub at: usize,
    pub index: u64,
}

// What comes after a block was judged: the next one, more of the input, since no whole block is left, or nothing: a fault was reported, or
// a line could not be written.
#[derive(Clone, Copy)]
pub enum Next {
    Block(Showing),
    More,
    Over,
}

// The index of the next block, and how many bytes at the front of the buffer are still to be shown.
#[derive(Clone, Copy)]
pub struct Sitting {
    pub index: u64,
    pub held: usize,
}

// The block at the place is judged.
fn show_block(streams: Streams, part: &[u8], s: Showing) -> Next
    requires { (s.at ≤ length part.now) × (s.index + 1 < 2 ^ 64) }
    ensures { Came (length part.now) s result }
{
    match read_block(part, s.at) {
        Block::Call(entry, next) => {
            if !print_entry(streams, entry) {
                return Next::Over;
            }
            Next::Block(Showing {
                at: next,
                index: s.index + 1,
            })
        }
        Block::End => Next::More,
        Block::Truncated => Next::More,
        Block::UnknownCall => {
            report(streams, Verdict::UnknownCall(s.index));
            Next::Over
        }
        Block::WrongLength => {
            report(streams, Verdict::WrongLength(s.index));
            Next::Over
        }
    }
}

// Every whole block of a part, and where the rest begins. None: all is over.
fn show_part(streams: Streams, part: &[u8], index: u64) -> Option<Showing>
    requires { index + length part.now + 1 < 2 ^ 64 }
    ensures { IfSome result (λ (r : Showing). (r.at ≤ length part.now) × (r.index ≤ index + length part.now)) }
{
    let mut s = Showing { at: 0, index };
    loop {
        match show_block(streams, part, s) {
            Next::Block(next) => s = next,
            Next::More => return Some(s),
            Next::Over => return None,
        }
    }
}

// What was not shown goes to the front, and more is read behind it. At the end of the input a block may be cut off. None: all is over.
fn read_on(mut streams: Streams, s: Showing, held: usize, buf: &mut [u8]) -> Option<Sitting>
    requires { (s.at ≤ held) × (held ≤ length buf.old) }
    ensures { IfSome result (λ (r : Sitting). (r.held ≤ length (is buf)) × (r.index ≡ s.index)) }
{
    let rest = shift(buf, s.at, held);
    let end = buf.len();
    let read = read_some(
        &mut streams.input,
        &mut streams.errors,
        &mut buf[rest..end],
        b"failed: the journal cannot be read",
    );
    let Ok(count) = read else {
        return None;
    };
    if count > 0 {
        return Some(Sitting {
            index: s.index,
            held: rest + count,
        });
    }
    if rest > 0 {
        report(streams, Verdict::Truncated(s.index));
    }
    None
}

// The blocks in the buffer are shown. None: all is over.
fn turn(streams: Streams, index: u64, held: usize, buf: &mut [u8]) -> Option<Sitting>
    requires { (held ≤ length buf.old) × (index + length buf.old + 1 < 2 ^ 64) }
    ensures { IfSome result (λ (r : Sitting). (r.held ≤ length (is buf)) × (r.index ≤ index + length (was buf))) }
{
    let s = show_part(streams, &buf[..held], index)?;
    read_on(streams, s, held, buf)
}

// A proved loop has to end: the turns are more than any file takes.
fn show_all(streams: Streams, buf: &mut [u8], first: usize)
    requires { (first ≤ length buf.old) × (length buf.old ≡ 65536) }
{
    let mut s = Sitting {
        index: 0,
        held: first,
    };
    for _turns in 0..140737488355328u64 {
        match turn(streams, s.index, s.held, buf) {
            Some(more) => s = more,
            None => return,
        }
    }
}

// The first bytes are read: a version byte, or there is nothing to show.
fn open(streams: Streams, buf: &mut [u8], count: usize)
    requires { (count ≤ length buf.old) × (length buf.old ≡ 65536) }
{
    if count == 0 {
        report(streams, Verdict::NoVersion);
        return;
    }
    if buf[0] != VERSION {
        report(streams, Verdict::NoVersion);
        return;
    }
    let first = shift(buf, 1, count);
    show_all(streams, buf, first);
}

fn main(rt: HostRuntime) {
    let mut streams = Streams {
        input: rt.stdin(),
        output: rt.stdout(),
        errors: rt.stderr(),
    };
    let mut buf = [0u8; 65536];
    let read = read_some(
        &mut streams.input,
        &mut streams.errors,
        &mut buf,
        b"failed: the journal cannot be read",
    );
    if let Ok(count) = read {
        open(streams, &mut buf, count);
    }
}
