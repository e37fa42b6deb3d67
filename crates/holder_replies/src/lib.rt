// The texts of the answers that the register's calls give, and of its lists.
#![tactic(auto)]

ghost use Rattle.std.specs.Prelude.{◌≡◌, ◌+◌, ◌*◌, ◌≤◌, length};
ghost use Rattle.pool_state.specs.Lent.{was, is};
ghost use Rattle.holder_rules.specs.Register.{entries};
ghost use Rattle.script_replies.specs.Replies.{line, PutsWithin};
ghost use Rattle.holder_replies.specs.Replies.{below_of, holder_reply, row, head_text, row_text, held_table};

use calls::Request;
use holder_rules::ENTRIES;
use holder_serve::{HolderAnswer, HolderError, HolderRequest};
use script_replies::put_reply;
use script_texts::{put_bytes, put_no, put_number, put_range};

const NOT_YOURS: u64 = 5;

const REGISTER_FULL: u64 = 6;

// The allocator's request in it.
fn request_below(request: HolderRequest) -> Request
    ensures { result ≡ below_of request }
{
    match request {
        HolderRequest::Offer(address, size) => Request::Free(address, size),
        HolderRequest::By(_, call) => call,
    }
}

// The answer of any call.
pub fn put_holder_reply(
    request: HolderRequest,
    answer: HolderAnswer,
    out: &mut [u8],
    at: usize,
) -> usize
    ensures { PutsWithin line (holder_reply request answer) (was out) at (is out) result }
{
    match answer {
        Ok(address) => put_reply(request_below(request), Ok(address), out, at),
        Err(HolderError::Memory(error)) => {
            put_reply(request_below(request), Err(error), out, at)
        }
        Err(HolderError::NotYours) => put_no(out, at, NOT_YOURS),
        Err(HolderError::RegisterFull) => put_no(out, at, REGISTER_FULL),
    }
}

// How many ranges, and how many bytes.
fn put_head(out: &mut [u8], at: usize, count: u64, bytes: u64) -> usize
    requires { at + row ≤ length out.old }
    ensures { PutsWithin row (head_text count bytes) (was out) at (is out) result }
{
    let next = put_bytes(out, at, b"held ");
    put_range(out, next, count, bytes)
}

// A holder's range.
fn put_row(out: &mut [u8], at: usize, holder: u64, start: u64, last: u64) -> usize
    requires { at + row ≤ length out.old }
    ensures { PutsWithin row (row_text holder start last) (was out) at (is out) result }
{
    let gap = put_number(out, at, holder);
    let next = put_bytes(out, gap, b" ");
    put_range(out, next, start, last)
}

// The head of a list and the first `count` ranges of three arrays.
pub fn put_held(
    out: &mut [u8],
    at: usize,
    holders: &[u64; ENTRIES],
    starts: &[u64; ENTRIES],
    lasts: &[u64; ENTRIES],
    count: u64,
    bytes: u64,
) -> usize
    requires { (count ≤ entries) × (at + row * (count + 1) ≤ length out.old) }
    ensures { PutsWithin (row * (count + 1)) (held_table count bytes holders.now starts.now lasts.now) (was out) at (is out) result }
{
    let mut next = put_head(out, at, count, bytes);
    for i in 0..count as usize {
        next = put_row(out, next, holders[i], starts[i], lasts[i]);
    }
    next
}
