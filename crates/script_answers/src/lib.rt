// The answer to one line of the script: the call is made on the lent fields of a sound state, and its text goes into a buffer.
#![tactic(auto)]

ghost use Rattle.std.specs.Prelude.{List, ◌≡◌, ◌+◌, ◌≤◌, leb, length};
ghost use Rattle.rules.specs.Rules.{Range};
ghost use Rattle.pool_state.specs.Shown.{pool};
ghost use Rattle.pool_state.specs.Lent.{was, is, HoldsSome};
ghost use Rattle.pool_chain.specs.Chain.{Ordered};
ghost use Rattle.script_lines.specs.declared.parse.Line.TheVariants.{Asks};
ghost use Rattle.script_answers.specs.Script.{room, chain_text, SaysIn, AnswersIn};
ghost use Rattle.script_replies.specs.Replies.{PutsWithin};

use call_serve::serve_in;
use calls::Request;
use pool_listing::list_in;
use pool_state::{LISTS, POOL, RecordIndex};
use script_lines::parse::{Line, parse_line};
use script_replies::{ROOM, put_reply, put_table};
use script_texts::put_bad;

// There is room for any answer from `at` on.
pub fn has_room(size: usize, at: usize) -> bool
    ensures { result ≡ leb (at + room pool) size }
{
    if size < ROOM {
        return false;
    }
    at <= size - ROOM
}

// The call is made, and its answer printed. The place after its text.
fn answer_request(
    total: &mut u64,
    first: &mut u16,
    heads: &mut [u16; LISTS],
    start: &mut [u64; POOL],
    end: &mut [u64; POOL],
    enabled: &mut [bool; POOL],
    previous: &mut [u16; POOL],
    next: &mut [u16; POOL],
    lprev: &mut [u16; POOL],
    lnext: &mut [u16; POOL],
    request: Request,
    out: &mut [u8],
    at: usize,
) -> usize
    requires { HoldsSome pool total first heads start end enabled previous next lprev lnext }
    ensures { SaysIn pool (Asks request) out at result total first heads start end enabled previous next lprev lnext }
{
    let answer = serve_in(
        total, first, heads, start, end, enabled, previous, next, lprev, lnext, request,
    );
    put_reply(request, answer, out, at)
}

// The head of a listing with this total, and the ranges that the links lead along.
pub fn put_listing(
    total: u64,
    first: RecordIndex,
    start: &[u64; POOL],
    end: &[u64; POOL],
    next: &[u16; POOL],
    out: &mut [u8],
    at: usize,
) -> usize
    requires ordered { (c : List Range) × Ordered pool c start.now end.now next.now first.0 }
    requires pool_in_bounds { at + room pool ≤ length out.old }
    ensures { (c : List Range) → Ordered pool c start.now end.now next.now first.0 → PutsWithin (room pool) (chain_text c total) (was out) at (is out) result }
{
    let mut starts = [0; POOL];
    let mut lasts = [0; POOL];
    match list_in(start, end, next, first, &mut starts, &mut lasts) {
        Some(count) => put_table(out, at, &starts, &lasts, count as u64, total),
        None => at,
    }
}

// The bytes of one line, without its newline. Without room for the longest answer nothing is done. The place after its text.
pub fn answer_line(
    total: &mut u64,
    first: &mut u16,
    heads: &mut [u16; LISTS],
    start: &mut [u64; POOL],
    end: &mut [u64; POOL],
    enabled: &mut [bool; POOL],
    previous: &mut [u16; POOL],
    next: &mut [u16; POOL],
    lprev: &mut [u16; POOL],
    lnext: &mut [u16; POOL],
    line: &[u8],
    out: &mut [u8],
    at: usize,
) -> usize
    requires { HoldsSome pool total first heads start end enabled previous next lprev lnext }
    ensures { AnswersIn pool line.now out at result total first heads start end enabled previous next lprev lnext }
{
    if !has_room(out.len(), at) {
        return at;
    }
    match parse_line(line) {
        Line::Asks(request) => answer_request(
            total, first, heads, start, end, enabled, previous, next, lprev, lnext, request, out,
            at,
        ),
        Line::List => put_listing(*total, RecordIndex(*first), start, end, next, out, at),
        Line::Bad => put_bad(out, at),
    }
}
