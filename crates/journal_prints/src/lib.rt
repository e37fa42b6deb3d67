// What the programs of a journal print, and the buffer that they read into.
#![tactic(auto)]

ghost use Rattle.std.specs.Prelude.{◌≡◌, ◌-◌, ◌≤◌, length};
ghost use Rattle.pool_state.specs.Lent.{is};

use calls::Request;
use journal_audit::Verdict;
use journal_blocks::Entry;
use script_texts::{put_bytes, put_number};
use streams::{Streams, write_all};

// A word and a number, as a line.
fn put_line(out: &mut [u8], word: &[u8], number: u64) -> usize
    ensures { result ≤ length (is out) }
{
    let first = put_bytes(out, 0, word);
    let last = put_number(out, first, number);
    put_bytes(out, last, b"\n")
}

fn put_verdict(out: &mut [u8], verdict: Verdict) -> usize
    ensures { result ≤ length (is out) }
{
    match verdict {
        Verdict::Agrees(total) => put_line(out, b"agrees ", total),
        Verdict::Differs(index) => put_line(out, b"differs ", index),
        Verdict::Truncated(index) => put_line(out, b"truncated ", index),
        Verdict::UnknownCall(index) => put_line(out, b"unknown-call ", index),
        Verdict::WrongLength(index) => put_line(out, b"wrong-length ", index),
        Verdict::NoVersion => put_line(out, b"no ", 2),
    }
}

// The line of a report.
pub fn report(mut streams: Streams, verdict: Verdict) {
    let mut out = [0u8; 64];
    let end = put_verdict(&mut out, verdict);
    let _ = write_all(
        &mut streams.output,
        &mut streams.errors,
        &out[..end],
        b"failed: the report cannot be written",
    );
}

// A number, and a space behind it.
fn put_field(out: &mut [u8], at: usize, number: u64) -> usize
    requires { at ≤ length out.old }
    ensures { result ≤ length (is out) }
{
    let end = put_number(out, at, number);
    put_bytes(out, end, b" ")
}

// A call as the script has it, and a space behind it.
fn put_call(out: &mut [u8], request: Request) -> usize
    ensures { result ≤ length (is out) }
{
    match request {
        Request::Allocate(size, order) => {
            let first = put_bytes(out, 0, b"a ");
            let second = put_field(out, first, size);
            put_field(out, second, order)
        }
        Request::Reserve(address, size, order) => {
            let first = put_bytes(out, 0, b"r ");
            let second = put_field(out, first, address.0);
            let third = put_field(out, second, size);
            put_field(out, third, order)
        }
        Request::Free(address, size) => {
            let first = put_bytes(out, 0, b"f ");
            let second = put_field(out, first, address.0);
            put_field(out, second, size)
        }
    }
}

// The signed number of these 64 bits, at the end of the line.
fn put_answer(out: &mut [u8], at: usize, bits: u64) -> usize
    requires { at ≤ length out.old }
    ensures { result ≤ length (is out) }
{
    if bits < 9223372036854775808 {
        let end = put_number(out, at, bits);
        return put_bytes(out, end, b"\n");
    }
    let sign = put_bytes(out, at, b"-");
    let end = put_number(out, sign, 18446744073709551615 - bits + 1);
    put_bytes(out, end, b"\n")
}

fn put_entry(out: &mut [u8], entry: Entry) -> usize
    ensures { result ≤ length (is out) }
{
    let at = put_call(out, entry.request);
    put_answer(out, at, entry.answer)
}

// The line of a call and its answer; whether it was written.
pub fn print_entry(mut streams: Streams, entry: Entry) -> bool {
    let mut out = [0u8; 128];
    let end = put_entry(&mut out, entry);
    let written = write_all(
        &mut streams.output,
        &mut streams.errors,
        &out[..end],
        b"failed: the calls cannot be written",
    );
    written.is_ok()
}

// The bytes of the buffer from `from` to `to` go to its front.
pub fn shift(buf: &mut [u8], from: usize, to: usize) -> usize
    requires { (from ≤ to) × (to ≤ length buf.old) }
    ensures { result ≡ to - from }
{
    buf.copy_within(from..to, 0);
    to - from
}
