// A call in words, and a list of them, in place.
ghost use Rattle.std.specs.Prelude.{true, ◌≡◌, length};
ghost use Rattle.pool_state.specs.Shown.{pool};
ghost use Rattle.pool_state.specs.Lent.{HoldsBook, HoldsSome, Keeps};
ghost use Rattle.calls.specs.Answers.{Follows, Obeys};
ghost use Rattle.batch.specs.InWords.{asked_by_lem, rule_of};
ghost use Rattle.batch.specs.Lists.{fitted, ServedIn, SoundIn};

use crate::{ALLOCATE, CALL_WORDS, FREE, RESERVE, Words, words_at};
use account_state::noted;
use call_allocate::allocate_in;
use call_free::free_in;
use call_reserve::reserve_in;
use calls::{Answer, MemoryError, signed_number};
use pool_state::{Address, Fields, LISTS, POOL};

// On the fields of a state, lent together. The kind leads to the call itself: a request that was made of the words first would cost as much as
// a tenth of the call.
fn serve_words(f: &mut Fields<'_>, words: Words) -> Answer
    requires { HoldsBook pool f }
    ensures keeps { Keeps f }
    ensures does { Obeys pool (rule_of pool (asked_by_lem words)) result f }
{
    match words.kind {
        FREE => free_in(f, Address(words.x), words.y),
        ALLOCATE => allocate_in(f, words.x, words.y),
        RESERVE => reserve_in(f, Address(words.x), words.y, words.z),
        _ => Err(MemoryError::InvalidRequest),
    }
}

// On fields that are lent one by one.
pub fn serve_words_in(
    total: &mut u64,
    first: &mut u16,
    heads: &mut [u16; LISTS],
    start: &mut [u64; POOL],
    end: &mut [u64; POOL],
    enabled: &mut [bool; POOL],
    previous: &mut [u16; POOL],
    next: &mut [u16; POOL],
    lprev: &mut [u16; POOL],
    lnext: &mut [u16; POOL],
    words: Words,
) -> Answer
    requires { HoldsSome pool total first heads start end enabled previous next lprev lnext }
    ensures { Follows pool (rule_of pool (asked_by_lem words)) result total first heads start end enabled previous next lprev lnext }
{
    let mut f = Fields {
        free_size: total,
        first_entry: first,
        free_list: heads,
        start,
        end,
        enabled,
        previous,
        next,
        list_prev: lprev,
        list_next: lnext,
    };
    serve_words(&mut f, words)
}

// The calls of a list that fits, in order, on the fields of a sound account. They are lent on as they are: nothing is copied or checked
// between two calls, and after each the figure is noted.
pub fn serve_list_in(
    lowest: &mut u64,
    total: &mut u64,
    first: &mut u16,
    heads: &mut [u16; LISTS],
    start: &mut [u64; POOL],
    end: &mut [u64; POOL],
    enabled: &mut [bool; POOL],
    previous: &mut [u16; POOL],
    next: &mut [u16; POOL],
    lprev: &mut [u16; POOL],
    lnext: &mut [u16; POOL],
    calls: &[u64],
    answers: &mut [i64],
)
    requires sound_in { SoundIn pool lowest total first heads start end enabled previous next lprev lnext }
    requires answers_value { fitted calls.now (length answers.old) ≡ true }
    ensures { ServedIn pool calls.now answers lowest total first heads start end enabled previous next lprev lnext }
{
    let count = calls.len() / CALL_WORDS;
    for k in 0..count {
        let words = words_at(calls, k);
        let answer = serve_words_in(
            total, first, heads, start, end, enabled, previous, next, lprev, lnext, words,
        );
        *lowest = noted(answer, *total, *lowest);
        let number = signed_number(answer);
        answers[k] = number;
    }
}
