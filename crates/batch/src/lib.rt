// Many calls at a time: a list of calls in words, and a second slice for their answers.
#![tactic(auto)]

ghost use Rattle.std.specs.Prelude.{true, ◌≡◌, ◌<◌, length};
ghost use Rattle.pool_state.specs.Shown.{pool};
ghost use Rattle.account_state.specs.Account.{is_sound_lem};
ghost use Rattle.batch.specs.InWords.{asked, asked_by_lem, asked_at_lem, words_of_lem};
ghost use Rattle.batch.specs.Lists.{fitted, Served, Serves};

use account_state::{Account, Entered, is_sound};
use calls::{MemoryError, Request};
use pool_state::{Address, MemoryAllocator, RecordIndex};

mod in_place;

pub use in_place::{serve_list_in, serve_words_in};

// A call has this many words: its kind, and three numbers, of which some calls use two.
pub const CALL_WORDS: usize = 4;

// The kinds.
pub const FREE: u64 = 1;

pub const ALLOCATE: u64 = 2;

pub const RESERVE: u64 = 3;

#[derive(Clone, Copy)]
pub struct Words {
    pub kind: u64,
    pub x: u64,
    pub y: u64,
    pub z: u64,
}

// A request as a list of one call.
pub fn words_of(request: Request) -> [u64; CALL_WORDS]
    ensures { result ≡ words_of_lem request }
{
    match request {
        Request::Allocate(size, order) => [ALLOCATE, size, order, 0],
        Request::Reserve(address, size, order) => [RESERVE, address.0, size, order],
        Request::Free(address, size) => [FREE, address.0, size, 0],
    }
}

fn words_at(calls: &[u64], k: usize) -> Words
    requires { k < length (asked calls.now) }
    ensures { asked_by_lem result ≡ asked_at_lem calls.now k }
{
    let at = k * CALL_WORDS;
    Words {
        kind: calls[at],
        x: calls[at + 1],
        y: calls[at + 2],
        z: calls[at + 3],
    }
}

fn asked_by(words: Words) -> Option<Request>
    ensures { result ≡ asked_by_lem words }
{
    match words.kind {
        FREE => Some(Request::Free(Address(words.x), words.y)),
        ALLOCATE => Some(Request::Allocate(words.x, words.y)),
        RESERVE => Some(Request::Reserve(Address(words.x), words.y, words.z)),
        _ => None,
    }
}

// What call k of the list asks for; None where its kind is unknown, and past the list.
pub fn asked_at(calls: &[u64], k: usize) -> Option<Request>
    ensures { result ≡ asked_at_lem calls.now k }
{
    if k < calls.len() / CALL_WORDS {
        let words = words_at(calls, k);
        return asked_by(words);
    }
    None
}

// Whole calls, and a place for the answer of each.
pub fn list_fits(calls: &[u64], places: usize) -> bool
    ensures { result ≡ fitted calls.now places }
{
    if calls.len() % CALL_WORDS != 0 {
        return false;
    }
    calls.len() / CALL_WORDS <= places
}

// The calls of a list that fits, in order, on an account that is known to be sound.
pub fn serve_list_sound(a: Account, calls: &[u64], answers: &mut [i64]) -> Account
    requires a_value { is_sound_lem pool a ≡ true }
    requires answers_value { fitted calls.now (length answers.old) ≡ true }
    ensures { Served pool a calls.now answers.old result answers.new }
{
    let s = a.ranges;
    let mut lowest = a.lowest;
    let mut total = s.free_size;
    let mut first = s.first_entry.0;
    let mut heads = s.free_list;
    let mut start = s.start;
    let mut end = s.end;
    let mut enabled = s.enabled;
    let mut previous = s.previous;
    let mut next = s.next;
    let mut lprev = s.list_prev;
    let mut lnext = s.list_next;
    serve_list_in(
        &mut lowest,
        &mut total,
        &mut first,
        &mut heads,
        &mut start,
        &mut end,
        &mut enabled,
        &mut previous,
        &mut next,
        &mut lprev,
        &mut lnext,
        calls,
        answers,
    );
    let ranges = MemoryAllocator {
        free_size: total,
        first_entry: RecordIndex(first),
        free_list: heads,
        start: start,
        end: end,
        enabled: enabled,
        previous: previous,
        next: next,
        list_prev: lprev,
        list_next: lnext,
    };
    Account {
        ranges: ranges,
        lowest: lowest,
    }
}

// A list of calls on an account that is known to be sound: nothing is checked again.
pub fn serve_list_unchecked(a: Account, calls: &[u64], answers: &mut [i64]) -> Entered
    requires { is_sound_lem pool a ≡ true }
    ensures { Serves pool a calls.now answers.old result answers.new }
{
    if list_fits(calls, answers.len()) {
        let left = serve_list_sound(a, calls, answers);
        return Entered {
            answer: Ok(Address(0)),
            state: left,
        };
    }
    Entered {
        answer: Err(MemoryError::InvalidRequest),
        state: a,
    }
}

// A list of calls on any account: one check, then the calls in order. The signed number of each goes into its place of `answers`.
pub fn serve_list(a: Account, calls: &[u64], answers: &mut [i64]) -> Entered
    ensures { Serves pool a calls.now answers.old result answers.new }
{
    if is_sound(a) {
        return serve_list_unchecked(a, calls, answers);
    }
    Entered {
        answer: Err(MemoryError::InvalidEntry),
        state: a,
    }
}
