// The text of an answer, written whole or, where it does not fit, not at all.
#![tactic(auto)]

ghost use Rattle.std.specs.Prelude.{◌≡◌, ◌++◌, ◌+◌, ◌≤◌, leb, length};
ghost use Rattle.script_texts.specs.Answers.{digits_of, ending, ok_text, bad_text, ok_at, no_text, range_text, list_text, Puts};

fn has_room(size: usize, at: usize, need: usize) -> bool
    ensures { result ≡ leb (at + need) size }
{
    if size < need {
        return false;
    }
    at <= size - need
}

// The number of n's digits.
fn width(n: u64) -> usize
    ensures { result ≡ length (digits_of n) }
{
    let mut count = 1;
    let mut rest = n;
    while 10 <= rest {
        rest = rest / 10;
        count += 1;
    }
    count
}

// n in decimal, in a part that is as long as it.
fn fill_digits(part: &mut [u8], n: u64)
    requires { length part.old ≡ length (digits_of n) }
    ensures { part.new ≡ digits_of n }
{
    let mut i = part.len();
    let mut rest = n;
    while 10 <= rest {
        i -= 1;
        part[i] = b'0' + (rest % 10) as u8;
        rest = rest / 10;
    }
    part[0] = b'0' + rest as u8;
}

pub fn put_bytes(out: &mut [u8], at: usize, text: &[u8]) -> usize
    ensures { Puts text.now out.old at out.new result }
{
    if !has_room(out.len(), at, text.len()) {
        return at;
    }
    let end = at + text.len();
    out[at..end].copy_from_slice(text);
    end
}

pub fn put_number(out: &mut [u8], at: usize, n: u64) -> usize
    ensures { Puts (digits_of n) out.old at out.new result }
{
    let size = width(n);
    if !has_room(out.len(), at, size) {
        return at;
    }
    let end = at + size;
    fill_digits(&mut out[at..end], n);
    end
}

// A number that ends its line.
fn put_ending(out: &mut [u8], at: usize, n: u64) -> usize
    ensures { Puts (ending n) out.old at out.new result }
{
    if !has_room(out.len(), at, width(n) + 1) {
        return at;
    }
    let next = put_number(out, at, n);
    put_bytes(out, next, b"\n")
}

pub fn put_ok(out: &mut [u8], at: usize) -> usize
    ensures { Puts ok_text out.old at out.new result }
{
    put_bytes(out, at, b"ok\n")
}

pub fn put_bad(out: &mut [u8], at: usize) -> usize
    ensures { Puts bad_text out.old at out.new result }
{
    put_bytes(out, at, b"bad\n")
}

// A short word, and the number that ends the line.
fn put_word(out: &mut [u8], at: usize, word: &[u8], n: u64) -> usize
    requires { length word.now ≤ 5 }
    ensures { Puts (word.now ++ ending n) out.old at out.new result }
{
    if !has_room(out.len(), at, word.len() + width(n) + 1) {
        return at;
    }
    let next = put_bytes(out, at, word);
    put_ending(out, next, n)
}

// A short word, and two numbers.
fn put_pair(out: &mut [u8], at: usize, word: &[u8], m: u64, n: u64) -> usize
    requires { length word.now ≤ 5 }
    ensures { Puts (word.now ++ range_text m n) out.old at out.new result }
{
    if !has_room(out.len(), at, word.len() + width(m) + width(n) + 2) {
        return at;
    }
    let first = put_bytes(out, at, word);
    let gap = put_number(out, first, m);
    put_word(out, gap, b" ", n)
}

pub fn put_ok_at(out: &mut [u8], at: usize, address: u64) -> usize
    ensures { Puts (ok_at address) out.old at out.new result }
{
    put_word(out, at, b"ok ", address)
}

pub fn put_no(out: &mut [u8], at: usize, number: u64) -> usize
    ensures { Puts (no_text number) out.old at out.new result }
{
    put_word(out, at, b"no ", number)
}

pub fn put_range(out: &mut [u8], at: usize, start: u64, last: u64) -> usize
    ensures { Puts (range_text start last) out.old at out.new result }
{
    put_pair(out, at, b"", start, last)
}

pub fn put_list(out: &mut [u8], at: usize, count: u64, total: u64) -> usize
    ensures { Puts (list_text count total) out.old at out.new result }
{
    put_pair(out, at, b"list ", count, total)
}
