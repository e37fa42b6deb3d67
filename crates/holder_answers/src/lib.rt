// The answer to one line after a first line `holders`: the call is made on the lent fields of a state and the words of its register, and its text goes into a
// buffer. The register's calls take the state by value.
#![tactic(auto)]

ghost use Rattle.std.specs.Prelude.{◌≡◌, ◌+◌, ◌≤◌, length};
ghost use Rattle.pool_state.specs.Shown.{pool};
ghost use Rattle.pool_state.specs.State.{arrays};
ghost use Rattle.pool_state.specs.Lent.{was, is};
ghost use Rattle.script_answers.specs.Script.{room};
ghost use Rattle.script_replies.specs.Replies.{PutsWithin};
ghost use Rattle.holder_lines.specs.declared.HolderLine.TheVariants.{Asks};
ghost use Rattle.holder_answers.specs.Answers.{held_text, state_in_lem, SoundWords, turns_words, ServesIn, SaysIn, HolderSaysIn};

use calls::number_of;
use holder_lines::{HolderLine, parse_holder_line};
use holder_lists::{Whose, held};
use holder_ranges::holdings;
use holder_replies::{put_held, put_holder_reply};
use holder_rules::{ENTRIES, HolderAllocator};
use holder_serve::{HolderAnswer, HolderRequest, serve_holder_sound};
use holder_words::{WORDS, register_in, words_of};
use pool_state::{LISTS, MemoryAllocator, POOL, RecordIndex};
use script_answers::put_listing;
use script_texts::{put_bad, put_no};

// The state that the fields and the words make up.
fn state_in(
    total: u64,
    first: u16,
    heads: &[u16; LISTS],
    start: &[u64; POOL],
    end: &[u64; POOL],
    enabled: &[bool; POOL],
    previous: &[u16; POOL],
    next: &[u16; POOL],
    lprev: &[u16; POOL],
    lnext: &[u16; POOL],
    words: &[u64; WORDS],
) -> HolderAllocator
    ensures { result ≡ state_in_lem (arrays total first heads.now start.now end.now enabled.now previous.now next.now lprev.now lnext.now) words.now }
{
    let register = register_in(words);
    HolderAllocator {
        memory: MemoryAllocator {
            free_size: total,
            first_entry: RecordIndex(first),
            free_list: *heads,
            start: *start,
            end: *end,
            enabled: *enabled,
            previous: *previous,
            next: *next,
            list_prev: *lprev,
            list_next: *lnext,
        },
        register: register,
    }
}

// The fields and the words make up this state.
fn store(
    state: HolderAllocator,
    total: &mut u64,
    first: &mut u16,
    heads: &mut [u16; LISTS],
    start: &mut [u64; POOL],
    end: &mut [u64; POOL],
    enabled: &mut [bool; POOL],
    previous: &mut [u16; POOL],
    next: &mut [u16; POOL],
    lprev: &mut [u16; POOL],
    lnext: &mut [u16; POOL],
    words: &mut [u64; WORDS],
)
    ensures { turns_words (λ s s'. s' ≡ state) words total first heads start end enabled previous next lprev lnext }
{
    let memory = state.memory;
    let register = state.register;
    let free_list = memory.free_list;
    let starts = memory.start;
    let ends = memory.end;
    let used = memory.enabled;
    let before = memory.previous;
    let after = memory.next;
    let list_before = memory.list_prev;
    let list_after = memory.list_next;
    *total = memory.free_size;
    *first = memory.first_entry.0;
    *heads = free_list;
    *start = starts;
    *end = ends;
    *enabled = used;
    *previous = before;
    *next = after;
    *lprev = list_before;
    *lnext = list_after;
    *words = words_of(register);
}

// The call is made.
fn serve_words(
    total: &mut u64,
    first: &mut u16,
    heads: &mut [u16; LISTS],
    start: &mut [u64; POOL],
    end: &mut [u64; POOL],
    enabled: &mut [bool; POOL],
    previous: &mut [u16; POOL],
    next: &mut [u16; POOL],
    lprev: &mut [u16; POOL],
    lnext: &mut [u16; POOL],
    words: &mut [u64; WORDS],
    request: HolderRequest,
) -> HolderAnswer
    requires { SoundWords pool words total first heads start end enabled previous next lprev lnext }
    ensures { ServesIn pool request result words total first heads start end enabled previous next lprev lnext }
{
    let s = state_in(
        *total, *first, heads, start, end, enabled, previous, next, lprev, lnext, words,
    );
    let served = serve_holder_sound(s, request);
    let answer = served.answer;
    let state = served.state;
    store(
        state, total, first, heads, start, end, enabled, previous, next, lprev, lnext, words,
    );
    answer
}

// Who holds what, or why it is not said.
fn put_holdings(s: HolderAllocator, whose: Whose, out: &mut [u8], at: usize) -> usize
    requires { at + room pool ≤ length out.old }
    ensures { PutsWithin (room pool) (held_text pool s whose) (was out) at (is out) result }
{
    let bytes = match held(s, whose) {
        Ok(bytes) => bytes,
        Err(error) => return put_no(out, at, number_of(Err(error))),
    };
    let mut holders = [0; ENTRIES];
    let mut starts = [0; ENTRIES];
    let mut lasts = [0; ENTRIES];
    match holdings(s, whose, &mut holders, &mut starts, &mut lasts) {
        Ok(count) => put_held(out, at, &holders, &starts, &lasts, count, bytes),
        Err(error) => put_no(out, at, number_of(Err(error))),
    }
}

// The call is made, and its answer printed. The place after its text.
fn answer_call(
    total: &mut u64,
    first: &mut u16,
    heads: &mut [u16; LISTS],
    start: &mut [u64; POOL],
    end: &mut [u64; POOL],
    enabled: &mut [bool; POOL],
    previous: &mut [u16; POOL],
    next: &mut [u16; POOL],
    lprev: &mut [u16; POOL],
    lnext: &mut [u16; POOL],
    words: &mut [u64; WORDS],
    request: HolderRequest,
    out: &mut [u8],
    at: usize,
) -> usize
    requires { SoundWords pool words total first heads start end enabled previous next lprev lnext }
    ensures { SaysIn pool (Asks request) out at result words total first heads start end enabled previous next lprev lnext }
{
    let answer = serve_words(
        total, first, heads, start, end, enabled, previous, next, lprev, lnext, words, request,
    );
    put_holder_reply(request, answer, out, at)
}

// The bytes of one line, without its newline. The place after its text.
pub fn answer_holder_line(
    total: &mut u64,
    first: &mut u16,
    heads: &mut [u16; LISTS],
    start: &mut [u64; POOL],
    end: &mut [u64; POOL],
    enabled: &mut [bool; POOL],
    previous: &mut [u16; POOL],
    next: &mut [u16; POOL],
    lprev: &mut [u16; POOL],
    lnext: &mut [u16; POOL],
    words: &mut [u64; WORDS],
    line: &[u8],
    out: &mut [u8],
    at: usize,
) -> usize
    requires sound_words { SoundWords pool words total first heads start end enabled previous next lprev lnext }
    requires pool_in_bounds { at + room pool ≤ length out.old }
    ensures { HolderSaysIn pool line.now out at result words total first heads start end enabled previous next lprev lnext }
{
    match parse_holder_line(line) {
        HolderLine::Asks(request) => answer_call(
            total, first, heads, start, end, enabled, previous, next, lprev, lnext, words, request,
            out, at,
        ),
        HolderLine::Held(whose) => {
            let s = state_in(
                *total, *first, heads, start, end, enabled, previous, next, lprev, lnext, words,
            );
            put_holdings(s, whose, out, at)
        }
        HolderLine::List => put_listing(*total, RecordIndex(*first), start, end, next, out, at),
        HolderLine::Bad => put_bad(out, at),
    }
}
