// The input in chunks, answered on the lent fields of a sound state, with the forms of its lines and the words of its register. A line that a chunk does not end is carried over to the next.
#![tactic(auto)]

ghost use Rattle.std.specs.Prelude.{◌+◌, ◌<◌, ◌≤◌, length};
ghost use Rattle.pool_state.specs.Shown.{pool};
ghost use Rattle.pool_state.specs.Lent.{was, is};
ghost use Rattle.script_forms.specs.Forms.{SoundIn};
ghost use Rattle.script_chunks.specs.Input.{Told, ends, joined, between, Joins, Ready, Rests, StepsIn, HearsIn, ClosesIn};

use holder_words::WORDS;
use pool_state::{LISTS, POOL};
use script_forms::answer_any;
use script_lines::find::find_newline;

// How many bytes of the carry belong to the line that has not ended; the next place in the chunk; the next in the output.
#[derive(Clone, Copy)]
pub struct Reading {
    pub held: usize,
    pub from: usize,
    pub at: usize,
}

// The bytes of the chunk from `from` to `to` join the held ones, as far as the carry goes.
pub fn hold(carry: &mut [u8], held: usize, chunk: &[u8], from: usize, to: usize) -> usize
    requires { (held ≤ length carry.old) × (from ≤ to) × (to ≤ length chunk.now) }
    ensures { Joins (between from to chunk.now) (was carry) held (is carry) result }
{
    let count = (to - from).min(carry.len() - held);
    carry[held..held + count].copy_from_slice(&chunk[from..from + count]);
    held + count
}

// The line that the newline at `stop` ends is answered.
fn answer_ended(
    total: &mut u64,
    first: &mut u16,
    heads: &mut [u16; LISTS],
    start: &mut [u64; POOL],
    end: &mut [u64; POOL],
    enabled: &mut [bool; POOL],
    previous: &mut [u16; POOL],
    next: &mut [u16; POOL],
    lprev: &mut [u16; POOL],
    lnext: &mut [u16; POOL],
    forms: &mut u8,
    words: &mut [u64; WORDS],
    r: Reading,
    carry: &mut [u8],
    chunk: &[u8],
    stop: usize,
    out: &mut [u8],
) -> Reading
    requires sound_in { SoundIn pool forms words total first heads start end enabled previous next lprev lnext }
    requires ready { Ready pool r carry.old out.old × (r.from ≤ stop) × (stop < length chunk.now) }
    ensures { StepsIn (λ (t : Told). ends pool (joined t (between r.from stop chunk.now))) (stop + 1) r carry out result forms words total first heads start end enabled previous next lprev lnext }
{
    let from = stop + 1;
    let held = hold(carry, r.held, chunk, r.from, stop);
    let at = answer_any(
        total,
        first,
        heads,
        start,
        end,
        enabled,
        previous,
        next,
        lprev,
        lnext,
        forms,
        words,
        &carry[..held],
        out,
        r.at,
    );
    Reading { held: 0, from, at }
}

// The rest of the chunk ends no line.
fn hold_rest(r: Reading, carry: &mut [u8], chunk: &[u8]) -> Reading
    requires { (r.held ≤ length carry.old) × (r.from ≤ length chunk.now) }
    ensures { Rests (between r.from (length chunk.now) chunk.now) (length chunk.now) r (was carry) result (is carry) }
{
    let size = chunk.len();
    let held = hold(carry, r.held, chunk, r.from, size);
    Reading {
        held,
        from: size,
        at: r.at,
    }
}

// The next line of the chunk is answered; where no line ends in it any more, the rest is held.
pub fn answer_next(
    total: &mut u64,
    first: &mut u16,
    heads: &mut [u16; LISTS],
    start: &mut [u64; POOL],
    end: &mut [u64; POOL],
    enabled: &mut [bool; POOL],
    previous: &mut [u16; POOL],
    next: &mut [u16; POOL],
    lprev: &mut [u16; POOL],
    lnext: &mut [u16; POOL],
    forms: &mut u8,
    words: &mut [u64; WORDS],
    r: Reading,
    carry: &mut [u8],
    chunk: &[u8],
    out: &mut [u8],
) -> Reading
    requires sound_in { SoundIn pool forms words total first heads start end enabled previous next lprev lnext }
    requires ready { Ready pool r carry.old out.old × (r.from < length chunk.now) }
    ensures { HearsIn pool r carry chunk.now out result forms words total first heads start end enabled previous next lprev lnext }
{
    match find_newline(chunk, r.from, chunk.len()) {
        Some(stop) => answer_ended(
            total, first, heads, start, end, enabled, previous, next, lprev, lnext, forms, words,
            r, carry, chunk, stop, out,
        ),
        None => hold_rest(r, carry, chunk),
    }
}

// The input has ended: what is held is a line too, unless it is nothing. The place after its answer.
pub fn answer_last(
    total: &mut u64,
    first: &mut u16,
    heads: &mut [u16; LISTS],
    start: &mut [u64; POOL],
    end: &mut [u64; POOL],
    enabled: &mut [bool; POOL],
    previous: &mut [u16; POOL],
    next: &mut [u16; POOL],
    lprev: &mut [u16; POOL],
    lnext: &mut [u16; POOL],
    forms: &mut u8,
    words: &mut [u64; WORDS],
    r: Reading,
    carry: &[u8],
    out: &mut [u8],
) -> usize
    requires sound_in { SoundIn pool forms words total first heads start end enabled previous next lprev lnext }
    requires ready { Ready pool r carry.now out.old }
    ensures { ClosesIn pool r carry.now out result forms words total first heads start end enabled previous next lprev lnext }
{
    let held = r.held;
    if held == 0 {
        return r.at;
    }
    answer_any(
        total,
        first,
        heads,
        start,
        end,
        enabled,
        previous,
        next,
        lprev,
        lnext,
        forms,
        words,
        &carry[..held],
        out,
        r.at,
    )
}
