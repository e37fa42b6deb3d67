// A session of the script: bytes are read, the lines that they end are answered, and the answers are handed to the writer, turn by turn.
#![tactic(auto)]

ghost use Rattle.std.specs.Prelude.{◌≡◌, ◌<◌, length};
ghost use Rattle.pool_state.specs.Shown.{pool};
ghost use Rattle.script_forms.specs.Forms.{SoundIn};
ghost use Rattle.script_chunks.specs.Input.{Ready, HearsIn};
ghost use Rattle.script_sessions.specs.Sessions.{begin, goes_on_lem, fresh, restart};

use holder_words::WORDS;
use pool_state::{LISTS, POOL};
use script_answers::has_room;
use script_chunks::{Reading, answer_next};

// The reading, with this turn's text in the first places of the output; how many bytes of the chunk were read; how many of the
// text's bytes the writer took; whether the input has ended; whether a read or a write has failed.
#[derive(Clone, Copy)]
pub struct Session {
    pub reading: Reading,
    pub count: usize,
    pub taken: usize,
    pub ended: bool,
    pub failed: bool,
}

// Nothing is read yet.
pub fn begun() -> Session
    ensures { result ≡ begin }
{
    let reading = Reading {
        held: 0,
        from: 0,
        at: 0,
    };
    Session {
        reading: reading,
        count: 0,
        taken: 0,
        ended: false,
        failed: false,
    }
}

// Another turn follows: there may be more to read, and the writer took all that it was handed.
pub fn goes_on(s: Session) -> bool
    ensures { result ≡ goes_on_lem s }
{
    if s.ended {
        return false;
    }
    !s.failed
}

// The reading goes on at the place `from` of a chunk, with an empty output.
pub fn afresh(r: Reading, from: usize) -> Reading
    ensures { result ≡ fresh r from }
{
    Reading {
        held: r.held,
        from: from,
        at: 0,
    }
}

// The chunk holds `count` bytes that are to be heard, or could not be read.
pub fn restarted(s: Session, count: usize, failed: bool) -> Session
    ensures { result ≡ restart s count failed }
{
    let reading = s.reading;
    let r = afresh(reading, 0);
    Session {
        reading: r,
        count: count,
        taken: 0,
        ended: false,
        failed: failed,
    }
}

// As many lines of the chunk are answered as the output is sure to have room for.
pub fn answer_part(
    total: &mut u64,
    first: &mut u16,
    heads: &mut [u16; LISTS],
    start: &mut [u64; POOL],
    end: &mut [u64; POOL],
    enabled: &mut [bool; POOL],
    previous: &mut [u16; POOL],
    next: &mut [u16; POOL],
    lprev: &mut [u16; POOL],
    lnext: &mut [u16; POOL],
    forms: &mut u8,
    words: &mut [u64; WORDS],
    r: Reading,
    carry: &mut [u8],
    chunk: &[u8],
    out: &mut [u8],
) -> Reading
    requires sound_in { SoundIn pool forms words total first heads start end enabled previous next lprev lnext }
    requires ready { Ready pool r carry.old out.old × (r.from < length chunk.now) }
    ensures { HearsIn pool r carry chunk.now out result forms words total first heads start end enabled previous next lprev lnext }
{
    let mut reading = answer_next(
        total, first, heads, start, end, enabled, previous, next, lprev, lnext, forms, words, r,
        carry, chunk, out,
    );
    while reading.from < chunk.len() && has_room(out.len(), reading.at) {
        reading = answer_next(
            total, first, heads, start, end, enabled, previous, next, lprev, lnext, forms, words,
            reading, carry, chunk, out,
        );
    }
    reading
}
