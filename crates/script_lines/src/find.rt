// The first place of a byte in a part of a buffer.
ghost use Rattle.std.specs.Prelude.{◌≡◌};
ghost use Rattle.script_lines.specs.Search.{first_in};

// Places from `from`, before `to`; a place past the buffer holds nothing.
pub fn find_byte(buf: &[u8], from: usize, to: usize, byte: u8) -> Option<usize>
    ensures { result ≡ first_in byte from to buf.now }
{
    for i in from..to.min(buf.len()) {
        if buf[i] == byte {
            return Some(i);
        }
    }
    None
}

pub fn find_newline(buf: &[u8], from: usize, to: usize) -> Option<usize>
    ensures { result ≡ first_in 10 from to buf.now }
{
    find_byte(buf, from, to, b'\n')
}
