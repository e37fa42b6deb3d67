// The program that records a journal: the calls of a script, played from empty, each with its answer as a block.
#![tactic(auto)]

ghost use Rattle.std.specs.Prelude.{◌≡◌, ◌<◌, ◌≤◌, IfSome, length};
ghost use Rattle.pool_state.specs.Lent.{is};
ghost use Rattle.record.specs.Taping.{Placed};

use calls::Outcome;
use journal_blocks::{Entry, answer_bits, begin, write_block};
use memory_allocator::{MemoryAllocator, new, serve};
use script_chunks::hold;
use script_lines::find::find_newline;
use script_lines::parse::{Line, parse_line};
use streams::{Streams, read_some, write_all};

// The bytes that are kept of a line: one more than a call can have. The bytes of the longest block.
const KEPT: usize = 81;

const LONGEST: usize = 35;

// The state; how many bytes of the carry belong to the line that has not ended; the next place in the chunk; the place after what is in
// the output.
#[derive(Clone, Copy)]
pub struct Taping {
    pub state: MemoryAllocator,
    pub held: usize,
    pub from: usize,
    pub at: usize,
}

// The state that a line leaves, and the place after its block.
#[derive(Clone, Copy)]
pub struct Taped {
    pub state: MemoryAllocator,
    pub at: usize,
}

// A call is made, and its block written; any other line leaves nothing.
fn tape_line(s: MemoryAllocator, line: &[u8], out: &mut [u8], at: usize) -> Taped
    requires { at ≤ length out.old }
    ensures { result.at ≤ length (is out) }
{
    match parse_line(line) {
        Line::Asks(request) => {
            let made: Outcome = serve(s, request);
            let entry = Entry {
                request,
                answer: answer_bits(made.answer),
            };
            let next = write_block(out, at, entry);
            Taped {
                state: made.state,
                at: next,
            }
        }
        Line::List => Taped { state: s, at: at },
        Line::Bad => Taped { state: s, at: at },
    }
}

// The line that the newline at `end` ends.
fn tape_ended(t: Taping, carry: &mut [u8], chunk: &[u8], end: usize, out: &mut [u8]) -> Taping
    requires { Placed t carry.old out.old × (t.from ≤ end) × (end < length chunk.now) }
    ensures { Placed result (is carry) (is out) × (t.from < result.from) × (result.from ≤ length chunk.now) }
{
    let held = hold(carry, t.held, chunk, t.from, end);
    let taped = tape_line(t.state, &carry[..held], out, t.at);
    Taping {
        state: taped.state,
        held: 0,
        from: end + 1,
        at: taped.at,
    }
}

// The rest of the chunk ends no line.
fn tape_rest(t: Taping, carry: &mut [u8], chunk: &[u8]) -> Taping
    requires { (t.held ≤ length carry.old) × (t.from < length chunk.now) }
    ensures { (result.held ≤ length (is carry)) × (result.at ≡ t.at) × (result.from ≡ length chunk.now) }
{
    let end = chunk.len();
    let held = hold(carry, t.held, chunk, t.from, end);
    Taping {
        state: t.state,
        held,
        from: end,
        at: t.at,
    }
}

// The next line of the chunk.
fn tape_next(t: Taping, carry: &mut [u8], chunk: &[u8], out: &mut [u8]) -> Taping
    requires { Placed t carry.old out.old × (t.from < length chunk.now) }
    ensures { Placed result (is carry) (is out) × (t.from < result.from) × (result.from ≤ length chunk.now) }
{
    match find_newline(chunk, t.from, chunk.len()) {
        Some(end) => tape_ended(t, carry, chunk, end, out),
        None => tape_rest(t, carry, chunk),
    }
}

// What is in the output is handed to the writer. None: that has failed.
fn flush(mut streams: Streams, t: Taping, out: &[u8]) -> Option<Taping>
    requires { t.at ≤ length out.now }
    ensures { IfSome result (λ (r : Taping). (r.at ≡ 0) × (r.held ≡ t.held) × (r.from ≡ t.from)) }
{
    let written = write_all(
        &mut streams.output,
        &mut streams.errors,
        &out[..t.at],
        b"failed: the journal cannot be written",
    );
    if written.is_err() {
        return None;
    }
    Some(Taping {
        state: t.state,
        held: t.held,
        from: t.from,
        at: 0,
    })
}

// There is room for a block. None: a write has failed.
fn with_room(streams: Streams, t: Taping, out: &[u8]) -> Option<Taping>
    requires { t.at ≤ length out.now }
    ensures { IfSome result (λ (r : Taping). (r.at ≤ t.at) × (r.held ≡ t.held) × (r.from ≡ t.from)) }
{
    if out.len() - t.at < LONGEST {
        return flush(streams, t, out);
    }
    Some(t)
}

// Every line of a chunk. None: a write has failed.
fn tape_chunk(
    streams: Streams,
    t: Taping,
    carry: &mut [u8],
    chunk: &[u8],
    out: &mut [u8],
) -> Option<Taping>
    requires { Placed t carry.old out.old }
    ensures { IfSome result (λ (r : Taping). Placed r (is carry) (is out)) }
{
    let mut s = t;
    while s.from < chunk.len() {
        let next = tape_next(s, carry, chunk, out);
        s = with_room(streams, next, out)?;
    }
    Some(s)
}

// The input has ended: a line that no newline ends is recorded too.
fn close(streams: Streams, t: Taping, carry: &[u8], out: &mut [u8]) -> Taping
    requires { Placed t carry.now out.old }
    ensures { (result.held ≡ 0) × (result.at ≡ 0) }
{
    let taped = tape_line(t.state, &carry[..t.held], out, t.at);
    let last = Taping {
        state: taped.state,
        held: 0,
        from: 0,
        at: taped.at,
    };
    let emptied = Taping { at: 0, ..last };
    flush(streams, last, out).unwrap_or(emptied)
}

// A chunk is read and recorded. None: the input has ended, or a read or a write has failed.
fn turn(
    mut streams: Streams,
    t: Taping,
    carry: &mut [u8],
    chunk: &mut [u8],
    out: &mut [u8],
) -> Option<Taping>
    requires { Placed t carry.old out.old }
    ensures { IfSome result (λ (r : Taping). Placed r (is carry) (is out)) }
{
    let read = read_some(
        &mut streams.input,
        &mut streams.errors,
        chunk,
        b"failed: standard input cannot be read",
    );
    let Ok(count) = read else {
        return None;
    };
    if count == 0 {
        let _ = close(streams, t, carry, out);
        return None;
    }
    let fresh = Taping {
        state: t.state,
        held: t.held,
        from: 0,
        at: t.at,
    };
    tape_chunk(streams, fresh, carry, &chunk[..count], out)
}

// A proved loop has to end: the turns are more than any run takes.
fn record_all(streams: Streams, carry: &mut [u8], chunk: &mut [u8], out: &mut [u8]) {
    let first = begin(out);
    let mut t = Taping {
        state: new(),
        held: 0,
        from: 0,
        at: first,
    };
    for _ in 0..u64::MAX {
        match turn(streams, t, carry, chunk, out) {
            Some(next) => t = next,
            None => return,
        }
    }
}

fn main(rt: HostRuntime) {
    let streams = Streams {
        input: rt.stdin(),
        output: rt.stdout(),
        errors: rt.stderr(),
    };
    let mut carry = [0u8; KEPT];
    let mut chunk = [0u8; 65536];
    let mut out = [0u8; 65536];
    record_all(streams, &mut carry, &mut chunk, &mut out);
}
