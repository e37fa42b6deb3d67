// Which forms the lines of the script have: the register's after a first line `holders`, else document 01's. The answer to a line in either.
#![tactic(auto)]

ghost use Rattle.std.specs.Prelude.{◌≡◌, ◌&&◌, ◌+◌, ◌≤◌, eqb, length};
ghost use Rattle.pool_state.specs.Shown.{pool};
ghost use Rattle.script_answers.specs.Script.{room};
ghost use Rattle.script_forms.specs.Forms.{opens, SoundIn, RepliesIn};

use holder_answers::answer_holder_line;
use holder_words::WORDS;
use pool_state::{LISTS, POOL};
use script_answers::answer_line;

// No line has ended yet; document 01's forms; the register's.
pub const OPEN: u8 = 0;

const ALLOCATOR: u8 = 1;

const REGISTER: u8 = 2;

// Whether the register's forms begin with this line.
fn begins_register(forms: u8, line: &[u8]) -> bool
    ensures { result ≡ (eqb forms 0 && opens line.now) }
{
    if forms == OPEN {
        return line == b"holders".as_slice();
    }
    false
}

// The bytes of one line, without its newline. The place after its text.
pub fn answer_any(
    total: &mut u64,
    first: &mut u16,
    heads: &mut [u16; LISTS],
    start: &mut [u64; POOL],
    end: &mut [u64; POOL],
    enabled: &mut [bool; POOL],
    previous: &mut [u16; POOL],
    next: &mut [u16; POOL],
    lprev: &mut [u16; POOL],
    lnext: &mut [u16; POOL],
    forms: &mut u8,
    words: &mut [u64; WORDS],
    line: &[u8],
    out: &mut [u8],
    at: usize,
) -> usize
    requires sound_in { SoundIn pool forms words total first heads start end enabled previous next lprev lnext }
    requires pool_in_bounds { at + room pool ≤ length out.old }
    ensures { RepliesIn pool line.now out at result forms words total first heads start end enabled previous next lprev lnext }
{
    if *forms == REGISTER {
        return answer_holder_line(
            total, first, heads, start, end, enabled, previous, next, lprev, lnext, words, line,
            out, at,
        );
    }
    if begins_register(*forms, line) {
        *forms = REGISTER;
        return at;
    }
    *forms = ALLOCATOR;
    answer_line(
        total, first, heads, start, end, enabled, previous, next, lprev, lnext, line, out, at,
    )
}
