// The script program: calls from standard input, one a line, and their answers to standard output.
#![tactic(auto)]

ghost use Rattle.std.specs.Prelude.{◌<◌, ◌≤◌, length};
ghost use Rattle.pool_state.specs.Shown.{pool};
ghost use Rattle.pool_state.specs.Lent.{is};
ghost use Rattle.script_forms.specs.Forms.{SoundIn};
ghost use Rattle.script_answers.specs.Script.{room};
ghost use Rattle.script_chunks.specs.Input.{kept, Ready};
ghost use Rattle.script_sessions.specs.Sessions.{fresh, Prepared};
ghost use Rattle.script.specs.Program.{Handed, AnsweredIn, ClosedIn, TurnedIn, Over};

use holder_words::WORDS;
use pool_state::{LISTS, NONE, POOL};
use script_chunks::{Reading, answer_last};
use script_forms::OPEN;
use script_sessions::{Session, afresh, answer_part, begun, goes_on, restarted};
use streams::{Streams, read_some, write_all};

// The bytes that are kept of a line: one more than a call can have.
const KEPT: usize = 81;

// This turn's text is handed to the writer.
fn hand_over(mut streams: Streams, r: Reading, count: usize, ended: bool, out: &[u8]) -> Session
    requires { r.at ≤ length out.now }
    ensures { Handed r count ended result }
{
    let written = write_all(
        &mut streams.output,
        &mut streams.errors,
        &out[..r.at],
        b"failed: the answers cannot be written",
    );
    let (taken, failed) = match written {
        Ok(taken) => (taken, false),
        Err(unwritten) => (unwritten.taken, true),
    };
    Session {
        reading: r,
        count,
        taken,
        ended,
        failed,
    }
}

// The next lines of the chunk are answered.
fn answer_more(
    streams: Streams,
    total: &mut u64,
    first: &mut u16,
    heads: &mut [u16; LISTS],
    start: &mut [u64; POOL],
    end: &mut [u64; POOL],
    enabled: &mut [bool; POOL],
    previous: &mut [u16; POOL],
    next: &mut [u16; POOL],
    lprev: &mut [u16; POOL],
    lnext: &mut [u16; POOL],
    forms: &mut u8,
    words: &mut [u64; WORDS],
    s: Session,
    carry: &mut [u8],
    chunk: &[u8],
    out: &mut [u8],
) -> Session
    requires sound_in { SoundIn pool forms words total first heads start end enabled previous next lprev lnext }
    requires prepared { Prepared pool s carry.old chunk.now out.old × (s.reading.from < s.count) }
    ensures { AnsweredIn pool s carry chunk.now out result forms words total first heads start end enabled previous next lprev lnext }
{
    let reading = s.reading;
    let count = s.count;
    let r = afresh(reading, reading.from);
    let told = answer_part(
        total,
        first,
        heads,
        start,
        end,
        enabled,
        previous,
        next,
        lprev,
        lnext,
        forms,
        words,
        r,
        carry,
        &chunk[..count],
        out,
    );
    hand_over(streams, told, count, false, out)
}

// The input has ended: a line that no newline ends is answered too.
fn close(
    streams: Streams,
    total: &mut u64,
    first: &mut u16,
    heads: &mut [u16; LISTS],
    start: &mut [u64; POOL],
    end: &mut [u64; POOL],
    enabled: &mut [bool; POOL],
    previous: &mut [u16; POOL],
    next: &mut [u16; POOL],
    lprev: &mut [u16; POOL],
    lnext: &mut [u16; POOL],
    forms: &mut u8,
    words: &mut [u64; WORDS],
    s: Session,
    carry: &[u8],
    out: &mut [u8],
) -> Session
    requires sound_in { SoundIn pool forms words total first heads start end enabled previous next lprev lnext }
    requires ready { Ready pool (fresh s.reading 0) carry.now out.old }
    ensures { ClosedIn pool s carry.now out result forms words total first heads start end enabled previous next lprev lnext }
{
    let reading = s.reading;
    let r = afresh(reading, 0);
    let at = answer_last(
        total, first, heads, start, end, enabled, previous, next, lprev, lnext, forms, words, r,
        carry, out,
    );
    let last = Reading {
        held: 0,
        from: 0,
        at: at,
    };
    hand_over(streams, last, 0, true, out)
}

// What is left of the chunk is answered before more is read. Where the input has ended, the session closes.
fn turn(
    mut streams: Streams,
    total: &mut u64,
    first: &mut u16,
    heads: &mut [u16; LISTS],
    start: &mut [u64; POOL],
    end: &mut [u64; POOL],
    enabled: &mut [bool; POOL],
    previous: &mut [u16; POOL],
    next: &mut [u16; POOL],
    lprev: &mut [u16; POOL],
    lnext: &mut [u16; POOL],
    forms: &mut u8,
    words: &mut [u64; WORDS],
    s: Session,
    carry: &mut [u8],
    chunk: &mut [u8],
    out: &mut [u8],
) -> Session
    requires sound_in { SoundIn pool forms words total first heads start end enabled previous next lprev lnext }
    requires prepared { Prepared pool s carry.old chunk.old out.old }
    ensures { TurnedIn pool s carry chunk out result forms words total first heads start end enabled previous next lprev lnext }
{
    let reading = s.reading;
    if reading.from < s.count {
        return answer_more(
            streams, total, first, heads, start, end, enabled, previous, next, lprev, lnext, forms,
            words, s, carry, chunk, out,
        );
    }
    let read = read_some(
        &mut streams.input,
        &mut streams.errors,
        chunk,
        b"failed: standard input cannot be read",
    );
    let Ok(count) = read else {
        return restarted(s, 0, true);
    };
    if count == 0 {
        return close(
            streams, total, first, heads, start, end, enabled, previous, next, lprev, lnext, forms,
            words, s, carry, out,
        );
    }
    restarted(s, count, false)
}

// Twelve locals are the whole state: the ten fields of the allocator, the forms of the lines, and the words of the register. A proved loop has to end, and nothing says that an input does: the turns are more than any run takes.
fn answer_all(streams: Streams, carry: &mut [u8], chunk: &mut [u8], out: &mut [u8]) -> Session
    requires { (kept ≤ length carry.old) × (room pool ≤ length out.old) }
    ensures { Over pool result (is carry) (is chunk) (is out) }
{
    let mut total: u64 = 0;
    let mut first: u16 = NONE;
    let mut heads = [NONE; LISTS];
    let mut start = [0u64; POOL];
    let mut end = [0u64; POOL];
    let mut enabled = [false; POOL];
    let mut previous = [NONE; POOL];
    let mut next = [NONE; POOL];
    let mut lprev = [NONE; POOL];
    let mut lnext = [NONE; POOL];
    let mut forms: u8 = OPEN;
    let mut words = [0u64; WORDS];
    let mut session = begun();
    for _turns in 0..u64::MAX {
        if !goes_on(session) {
            return session;
        }
        session = turn(
            streams,
            &mut total,
            &mut first,
            &mut heads,
            &mut start,
            &mut end,
            &mut enabled,
            &mut previous,
            &mut next,
            &mut lprev,
            &mut lnext,
            &mut forms,
            &mut words,
            session,
            carry,
            chunk,
            out,
        );
    }
    session
}

fn main(rt: HostRuntime) {
    let streams = Streams {
        input: rt.stdin(),
        output: rt.stdout(),
        errors: rt.stderr(),
    };
    let mut carry = [0u8; KEPT];
    let mut chunk = [0u8; 65536];
    let mut out = [0u8; 65536];
    answer_all(streams, &mut carry, &mut chunk, &mut out);
}
