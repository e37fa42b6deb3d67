// Numbers in bytes, the most significant first, over any width.
#![tactic(auto)]

ghost use Rattle.std.specs.Prelude.{◌≡◌, ◌≤◌, ◌<◌, ◌^◌, length};
ghost use Rattle.bytes_be.specs.Numbers.{be, number};

// x in as many bytes as the part has; what does not fit is cut off.
pub fn put_be(part: &mut [u8], x: u64)
    ensures { part.new ≡ be (length part.old) x }
{
    let mut rest = x;
    for i in (0..part.len()).rev() {
        part[i] = (rest % 256) as u8;
        rest = rest / 256;
    }
}

// The same of eight bytes: a loop whose length stands where it is compiled may become one store.
pub fn put_word(part: &mut [u8], x: u64)
    requires { length part.old ≡ 8 }
    ensures { part.new ≡ be (length part.old) x }
{
    let mut left = x;
    for i in (0..8).rev() {
        part[i] = (left % 256) as u8;
        left = left / 256;
    }
}

// The number in a part of up to eight bytes.
pub fn read_be(part: &[u8]) -> u64
    requires { length part.now ≤ 8 }
    ensures value { result ≡ number part.now }
    ensures fits { result < 256 ^ length part.now }
{
    let mut x = 0;
    for byte in part {
        x = x * 256 + *byte as u64;
    }
    x
}

// The number in eight bytes: one load, likewise.
pub fn read_word(part: &[u8]) -> u64
    requires { length part.now ≡ 8 }
    ensures { result ≡ number part.now }
{
    let mut x = 0;
    for i in 0..8 {
        x = x * 256 + part[i] as u64;
    }
    x
}

// The number in two bytes.
pub fn read_pair(part: &[u8]) -> u64
    requires { length part.now ≡ 2 }
    ensures value { result ≡ number part.now }
    ensures fits { result < 256 ^ 2 }
{
    part[0] as u64 * 256 + part[1] as u64
}
