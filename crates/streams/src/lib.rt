// A program's reading and writing. A call that a signal interrupted is made again, a write that took a part goes on with the rest,
// and what failed is said on standard error, once, in a line that whoever runs the program turns into an exit status.
#![tactic(auto)]

ghost use Rattle.std.specs.Prelude.{◌≡◌, ◌<◌, ◌≤◌, ◌↔◌, IsTrue, Ok, IfOk, IfErr, length, take};
ghost use Rattle.std.specs.IoError.{error_kind};
ghost use Rattle.std.specs.Io.KnownBytes.{Appends, Consumes, IsAtEnd};
ghost use Rattle.streams.specs.Streams.{Moves, Puts, bytes_of, bytes_read, bytes_written};

use std::io;
use std::io::{Cursor, Error, ErrorKind, Read, Stderr, Stdin, Stdout, Write};

// What a program reads, and what it writes on.
#[derive(Clone, Copy)]
pub struct Streams {
    pub input: Stdin,
    pub output: Stdout,
    pub errors: Stderr,
}

// A read has failed, and that is said.
#[derive(Clone, Copy)]
pub struct Unread;

// A write has failed, and that is said; so many bytes of the buffer were taken before.
#[derive(Clone, Copy)]
pub struct Unwritten {
    pub taken: usize,
}

// What came of a call: it moved so many bytes, or a signal interrupted it, so that it is to be made again, or it failed.
#[derive(Clone, Copy)]
enum Moved {
    Bytes(usize),
    Again,
    Failed,
}

// How many bytes the system's words have. A number in brackets stands behind them, and zeros behind all.
fn words(text: &[u8]) -> usize
    ensures { result ≤ length text.now }
{
    for i in 0..text.len() {
        if text[i] == 0 {
            return i;
        }
        if text[i..].starts_with(b" (os error ") {
            return i;
        }
    }
    text.len()
}

// Says what failed, a colon and the system's words for the reason, in a line.
fn say<E: Write>(errors: &mut E, what: &[u8], error: &Error) -> io::Result<()> {
    let mut text = [0u8; 64];
    let mut reason = Cursor::new(&mut text[..]);
    let _ = write!(reason, "{error}");
    errors.write_all(what)?;
    errors.write_all(b": ")?;
    errors.write_all(&text[..words(&text)])?;
    errors.write_all(b"\n")
}

// A call has failed: whether a signal is all the reason. If not, what failed is said.
fn is_interrupted<E: Write>(error: &Error, errors: &mut E, what: &[u8]) -> bool
    ensures { IsTrue result ↔ (error_kind error.now ≡ ErrorKind.Interrupted) }
{
    if error.kind() == ErrorKind::Interrupted {
        return true;
    }
    let _ = say(errors, what, error);
    false
}

// What a call that was lent the buffer has answered.
fn told_by<E: Write>(got: io::Result<usize>, buf: &[u8], errors: &mut E, what: &[u8]) -> Moved
    ensures { Moves got (length buf.now) result }
{
    match got {
        Ok(bytes) => Moved::Bytes(bytes.min(buf.len())),
        Err(error) if is_interrupted(&error, errors, what) => Moved::Again,
        Err(_) => Moved::Failed,
    }
}

// Reads once. No bytes: the input has ended.
pub fn read_some<R: Read, E: Write>(
    input: &mut R,
    errors: &mut E,
    buf: &mut [u8],
    what: &[u8],
) -> Result<usize, Unread>
    ensures within { bytes_read result ≤ length buf.new }
    ensures given { Consumes (R.remaining input.old) (R.remaining input.new) (take (bytes_read result) buf.new) }
    ensures ended { (result ≡ Ok 0) → 0 < length buf.new → IsAtEnd (R.remaining input.new) }
{
    for _ in 0..u64::MAX {
        match told_by(input.read(buf), buf, errors, what) {
            Moved::Bytes(bytes) => return Ok(bytes),
            Moved::Again => {}
            Moved::Failed => return Err(Unread),
        }
    }
    Err(Unread)
}

// One write of the buffer's first bytes. One that takes nothing has failed, too.
fn write_some<W: Write, E: Write>(output: &mut W, errors: &mut E, buf: &[u8], what: &[u8]) -> Moved
    ensures puts { Puts result (length buf.now) }
    ensures taken { Appends (W.contents output.old) (W.contents output.new) (take (bytes_of result) buf.now) }
{
    match told_by(output.write(buf), buf, errors, what) {
        Moved::Bytes(0) => Moved::Failed,
        put => put,
    }
}

// Writes all of the buffer, or as much of it as is taken before a write fails.
pub fn write_all<W: Write, E: Write>(
    output: &mut W,
    errors: &mut E,
    buf: &[u8],
    what: &[u8],
) -> Result<usize, Unwritten>
    ensures whole { IfOk result (λ n. n ≡ length buf.now) }
    ensures part { IfErr result (λ (e : Unwritten). e.taken < length buf.now) }
    ensures taken { Appends (W.contents output.old) (W.contents output.new) (take (bytes_written result) buf.now) }
{
    let mut done = 0;
    let mut tries = u64::MAX;
    while done < buf.len() {
        if tries == 0 {
            return Err(Unwritten { taken: done });
        }
        match write_some(output, errors, &buf[done..], what) {
            Moved::Bytes(bytes) => done += bytes,
            Moved::Again => {}
            Moved::Failed => return Err(Unwritten { taken: done }),
        }
        tries -= 1;
    }
    Ok(done)
}
