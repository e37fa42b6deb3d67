// The call that a line says.
ghost use Rattle.std.specs.Prelude.{◌≡◌, [], ◌∷◌, drop, unwrap_or};
ghost use Rattle.script_lines.specs.Fields.{fields, number_of, numbers_of};
ghost use Rattle.script_lines.specs.Script.{said, spoken, line_of};
ghost use Rattle.script_lines.specs.Steps.{value_from, field_end_lem, field_at};
ghost use Rattle.script_lines.specs.declared.parse.Line.TheVariants.{Bad};

use crate::find::find_byte;
use calls::Request;
use pool_state::Address;

#[derive(Clone, Copy)]
pub enum Line {
    Asks(Request),
    List,
    Bad,
}

// A number, and the place after its field.
#[derive(Clone, Copy)]
pub struct Field {
    pub value: u64,
    pub end: usize,
}

// No line of any forms is longer.
pub const LONGEST: usize = 80;

// One digit more after the digits of n.
fn with_digit(n: u64, byte: u8) -> Option<u64>
    ensures { result ≡ value_from n (byte ∷ []) }
{
    if !byte.is_ascii_digit() {
        return None;
    }
    n.checked_mul(10)?.checked_add((byte - b'0') as u64)
}

fn value_of(field: &[u8]) -> Option<u64>
    ensures { result ≡ value_from 0 field.now }
{
    let mut n: u64 = 0;
    for byte in field {
        n = with_digit(n, *byte)?;
    }
    Some(n)
}

fn number_of(field: &[u8]) -> Option<u64>
    ensures { result ≡ number_of field.now }
{
    if field.len() == 0 {
        return None;
    }
    if field.len() == 1 {
        return value_of(field);
    }
    if field[0] == b'0' {
        return None;
    }
    value_of(field)
}

fn field_end(line: &[u8], at: usize) -> usize
    ensures { result ≡ field_end_lem line.now at }
{
    find_byte(line, at, line.len(), b' ').unwrap_or(line.len())
}

pub fn field_at(line: &[u8], at: usize) -> Option<Field>
    ensures { result ≡ field_at line.now at }
{
    let end = field_end(line, at);
    if end < at {
        return None;
    }
    let value = number_of(&line[at..end])?;
    Some(Field { value, end })
}

fn with_none(letter: u8) -> Option<Line>
    ensures { unwrap_or result Bad ≡ said letter [] }
{
    match letter {
        b'l' => Some(Line::List),
        _ => None,
    }
}

fn with_two(letter: u8, x: u64, y: u64) -> Option<Line>
    ensures { unwrap_or result Bad ≡ said letter (x ∷ y ∷ []) }
{
    match letter {
        b'f' => Some(Line::Asks(Request::Free(Address(x), y))),
        b'a' => Some(Line::Asks(Request::Allocate(x, y))),
        _ => None,
    }
}

fn with_three(letter: u8, x: u64, y: u64, z: u64) -> Option<Line>
    ensures { unwrap_or result Bad ≡ said letter (x ∷ y ∷ z ∷ []) }
{
    match letter {
        b'r' => Some(Line::Asks(Request::Reserve(Address(x), y, z))),
        _ => None,
    }
}

// The letter's numbers are the fields from `at` on.
fn with_fields(line: &[u8], at: usize, letter: u8) -> Option<Line>
    ensures { unwrap_or result Bad ≡ spoken letter (numbers_of (fields (drop at line.now))) }
{
    let x = field_at(line, at)?;
    if line.len() <= x.end {
        return None;
    }
    let y = field_at(line, x.end + 1)?;
    if line.len() <= y.end {
        return with_two(letter, x.value, y.value);
    }
    let z = field_at(line, y.end + 1)?;
    if line.len() <= z.end {
        return with_three(letter, x.value, y.value, z.value);
    }
    None
}

// The bytes of one line, without its newline.
pub fn parse_line(line: &[u8]) -> Line
    ensures { result ≡ line_of line.now }
{
    if LONGEST < line.len() {
        return Line::Bad;
    }
    if line.len() == 0 {
        return Line::Bad;
    }
    if line.len() == 1 {
        return with_none(line[0]).unwrap_or(Line::Bad);
    }
    if line[1] != b' ' {
        return Line::Bad;
    }
    with_fields(line, 2, line[0]).unwrap_or(Line::Bad)
}
