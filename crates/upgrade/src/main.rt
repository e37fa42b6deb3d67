// The program that upgrades an image: standard input is an image of any version, standard output the current one, or the line `no 2`.
#![tactic(auto)]

ghost use Rattle.std.specs.Prelude.{◌+◌, ◌≤◌, length};
ghost use Rattle.pool_state.specs.Lent.{is};
ghost use Rattle.streams.specs.Streams.{bytes_read};

use image::InvalidEntry;
use image_parts::layout::IMAGE;
use image_upgrade::upgrade_image;
use streams::{Streams, Unread, read_some, write_all};

// More of the input, behind what is held.
fn read_more(mut streams: Streams, buf: &mut [u8], held: usize) -> Result<usize, Unread>
    requires { held ≤ length buf.old }
    ensures { held + bytes_read result ≤ length (is buf) }
{
    let end = buf.len();
    read_some(
        &mut streams.input,
        &mut streams.errors,
        &mut buf[held..end],
        b"failed: the image cannot be read",
    )
}

// How many bytes of the buffer are the input: the whole of it, or as much as the buffer holds, which is more than any image has.
// A proved loop has to end: each turn reads a byte.
fn read_input(streams: Streams, buf: &mut [u8]) -> Result<usize, Unread>
    ensures { bytes_read result ≤ length (is buf) }
{
    let mut held = 0;
    for _ in 0..65536 {
        let count = read_more(streams, buf, held)?;
        if count == 0 {
            return Ok(held);
        }
        held += count;
    }
    Ok(held)
}

fn put_answer(mut streams: Streams, answer: Result<(), InvalidEntry>, image: &[u8]) {
    match answer {
        Ok(()) => {
            let _ = write_all(
                &mut streams.output,
                &mut streams.errors,
                image,
                b"failed: the image cannot be written",
            );
        }
        Err(InvalidEntry) => {
            let _ = write_all(
                &mut streams.output,
                &mut streams.errors,
                b"no 2\n",
                b"failed: the answer cannot be written",
            );
        }
    }
}

// The image in the first bytes of the buffer.
fn upgrade_held(streams: Streams, buf: &[u8], held: usize)
    requires { held ≤ length buf.now }
{
    let mut image = [0u8; IMAGE];
    let answer = upgrade_image(&buf[..held], &mut image);
    put_answer(streams, answer, &image);
}

fn main(rt: HostRuntime) {
    let streams = Streams {
        input: rt.stdin(),
        output: rt.stdout(),
        errors: rt.stderr(),
    };
    let mut buf = [0u8; 65536];
    if let Ok(held) = read_input(streams, &mut buf) {
        upgrade_held(streams, &buf, held);
    }
}
