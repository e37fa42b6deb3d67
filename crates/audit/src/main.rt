// The program that audits a journal: standard input is read in parts, and one line says what was found. The state is ten lent fields.
#![tactic(auto)]

ghost use Rattle.std.specs.Prelude.{◌≡◌, ◌+◌, ◌<◌, ◌≤◌, ◌^◌, IfSome, length};
ghost use Rattle.pool_state.specs.Shown.{pool};
ghost use Rattle.pool_state.specs.Sound.{SoundState};
ghost use Rattle.pool_state.specs.Lent.{was, is, fields, turns};
ghost use Rattle.audit.specs.Sittings.{Seated, Ready};

use journal_audit::{Stand, Stop, Verdict, audit_part, verdict_of};
use journal_blocks::VERSION;
use journal_prints::{report, shift};
use pool_state::{LISTS, NONE, POOL};
use streams::{Streams, read_some};

// How many calls have agreed, and how many bytes at the front of the buffer are still to be judged.
#[derive(Clone, Copy)]
pub struct Sitting {
    pub index: u64,
    pub held: usize,
}

fn wants_more(stop: Stop) -> bool {
    match stop {
        Stop::More => true,
        Stop::Differs => false,
        Stop::UnknownCall => false,
        Stop::WrongLength => false,
    }
}

// What was not used goes to the front, and more is read behind it. At the end of the input the audit is reported. None: all is over.
fn read_on(
    mut streams: Streams,
    total: u64,
    done: Stand,
    held: usize,
    buf: &mut [u8],
) -> Option<Sitting>
    requires { (done.used ≤ held) × (held ≤ length buf.old) }
    ensures { IfSome result (λ (r : Sitting). Seated r (is buf) done.index) }
{
    let rest = shift(buf, done.used, held);
    let end = buf.len();
    let read = read_some(
        &mut streams.input,
        &mut streams.errors,
        &mut buf[rest..end],
        b"failed: the journal cannot be read",
    );
    let Ok(count) = read else {
        return None;
    };
    if count == 0 {
        let last = Stand {
            index: done.index,
            used: 0,
            stop: Stop::More,
        };
        report(streams, verdict_of(last, total, rest));
        return None;
    }
    Some(Sitting {
        index: done.index,
        held: rest + count,
    })
}

// The blocks in the buffer are judged. None: a line was printed, or a call has failed.
fn turn(
    streams: Streams,
    total: &mut u64,
    first: &mut u16,
    heads: &mut [u16; LISTS],
    start: &mut [u64; POOL],
    end: &mut [u64; POOL],
    enabled: &mut [bool; POOL],
    previous: &mut [u16; POOL],
    next: &mut [u16; POOL],
    lprev: &mut [u16; POOL],
    lnext: &mut [u16; POOL],
    s: Sitting,
    buf: &mut [u8],
) -> Option<Sitting>
    requires fields { fields (SoundState pool) total first heads start end enabled previous next lprev lnext }
    requires held_in_bounds { (s.held ≤ length buf.old) × (s.index + length buf.old + 1 < 2 ^ 64) }
    ensures { turns (λ _ s'. IfSome result (λ (r : Sitting). Ready pool s' r (is buf) (s.index + length (was buf)))) total first heads start end enabled previous next lprev lnext }
{
    let held = s.held;
    let done = audit_part(
        total,
        first,
        heads,
        start,
        end,
        enabled,
        previous,
        next,
        lprev,
        lnext,
        s.index,
        &buf[..held],
    );
    if wants_more(done.stop) {
        return read_on(streams, *total, done, held, buf);
    }
    report(streams, verdict_of(done, *total, held));
    None
}

// A proved loop has to end: the turns are more than any file takes.
fn audit_all(
    streams: Streams,
    total: &mut u64,
    first: &mut u16,
    heads: &mut [u16; LISTS],
    start: &mut [u64; POOL],
    end: &mut [u64; POOL],
    enabled: &mut [bool; POOL],
    previous: &mut [u16; POOL],
    next: &mut [u16; POOL],
    lprev: &mut [u16; POOL],
    lnext: &mut [u16; POOL],
    buf: &mut [u8],
    count: usize,
)
    requires fields { fields (SoundState pool) total first heads start end enabled previous next lprev lnext }
    requires count_in_bounds { (count ≤ length buf.old) × (length buf.old ≡ 65536) }
{
    let mut s = Sitting {
        index: 0,
        held: count,
    };
    for _turns in 0..140737488355328u64 {
        let led = turn(
            streams, total, first, heads, start, end, enabled, previous, next, lprev, lnext, s, buf,
        );
        match led {
            Some(more) => s = more,
            None => return,
        }
    }
}

// The calls are replayed from empty.
fn audit_from(streams: Streams, buf: &mut [u8], count: usize)
    requires { (count ≤ length buf.old) × (length buf.old ≡ 65536) }
{
    let mut total: u64 = 0;
    let mut first: u16 = NONE;
    let mut heads = [NONE; LISTS];
    let mut start = [0u64; POOL];
    let mut end = [0u64; POOL];
    let mut enabled = [false; POOL];
    let mut previous = [NONE; POOL];
    let mut next = [NONE; POOL];
    let mut lprev = [NONE; POOL];
    let mut lnext = [NONE; POOL];
    audit_all(
        streams,
        &mut total,
        &mut first,
        &mut heads,
        &mut start,
        &mut end,
        &mut enabled,
        &mut previous,
        &mut next,
        &mut lprev,
        &mut lnext,
        buf,
        count,
    );
}

// The first bytes are read: a version byte, or nothing is to be audited.
fn open(streams: Streams, buf: &mut [u8], count: usize)
    requires { (count ≤ length buf.old) × (length buf.old ≡ 65536) }
{
    if count == 0 {
        report(streams, Verdict::NoVersion);
        return;
    }
    if buf[0] != VERSION {
        report(streams, Verdict::NoVersion);
        return;
    }
    let first = shift(buf, 1, count);
    audit_from(streams, buf, first);
}

fn main(rt: HostRuntime) {
    let mut streams = Streams {
        input: rt.stdin(),
        output: rt.stdout(),
        errors: rt.stderr(),
    };
    let mut buf = [0u8; 65536];
    let read = read_some(
        &mut streams.input,
        &mut streams.errors,
        &mut buf,
        b"failed: the journal cannot be read",
    );
    if let Ok(count) = read {
        open(streams, &mut buf, count);
    }
}
