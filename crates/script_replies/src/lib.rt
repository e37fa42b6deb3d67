// The texts of the answers that calls give.
#![tactic(auto)]

ghost use Rattle.std.specs.Prelude.{◌≡◌, ◌+◌, ◌*◌, ◌≤◌, length};
ghost use Rattle.pool_state.specs.Shown.{pool};
ghost use Rattle.script_texts.specs.Answers.{range_text};
ghost use Rattle.script_replies.specs.Replies.{line, PutsWithin, moved_text, placed_text, reply_text, table_text};

use calls::{Answer, Request, address_of, number_of};
use pool_state::POOL;
use script_texts::{put_list, put_no, put_ok, put_ok_at, put_range};

// No line of an answer is longer.
const LINE: usize = 48;

// The head of a listing, and as many ranges as there are records.
pub const ROOM: usize = LINE * (POOL + 1);

// The answer of a call that hands out no address.
fn put_moved(answer: Answer, out: &mut [u8], at: usize) -> usize
    ensures { PutsWithin line (moved_text answer) out.old at out.new result }
{
    let number = number_of(answer);
    if number != 0 {
        return put_no(out, at, number);
    }
    put_ok(out, at)
}

// The answer of a call that hands out an address.
fn put_placed(answer: Answer, out: &mut [u8], at: usize) -> usize
    ensures { PutsWithin line (placed_text answer) out.old at out.new result }
{
    let number = number_of(answer);
    if number != 0 {
        return put_no(out, at, number);
    }
    put_ok_at(out, at, address_of(answer))
}

// The answer of any call.
pub fn put_reply(request: Request, answer: Answer, out: &mut [u8], at: usize) -> usize
    ensures { PutsWithin line (reply_text request answer) out.old at out.new result }
{
    match request {
        Request::Allocate(_, _) => put_placed(answer, out, at),
        Request::Reserve(_, _, _) => put_moved(answer, out, at),
        Request::Free(_, _) => put_moved(answer, out, at),
    }
}

fn put_row(out: &mut [u8], at: usize, start: u64, last: u64) -> usize
    ensures { PutsWithin line (range_text start last) out.old at out.new result }
{
    put_range(out, at, start, last)
}

// The head of a listing and the first `count` ranges of two arrays.
pub fn put_table(
    out: &mut [u8],
    at: usize,
    starts: &[u64; POOL],
    lasts: &[u64; POOL],
    count: u64,
    total: u64,
) -> usize
    requires { (count ≤ pool) × (at + line * (count + 1) ≤ length out.old) }
    ensures { PutsWithin (line * (count + 1)) (table_text count total starts.now lasts.now) out.old at out.new result }
{
    let mut next = put_list(out, at, count, total);
    for i in 0..count as usize {
        next = put_row(out, next, starts[i], lasts[i]);
    }
    next
}
