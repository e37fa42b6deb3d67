// The lines of the script after a first line `holders`: the register's call, or the list, that a line says.
#![tactic(auto)]

ghost use Rattle.std.specs.Prelude.{◌≡◌, [], ◌∷◌, drop, unwrap_or};
ghost use Rattle.script_lines.specs.Fields.{fields, numbers_of};
ghost use Rattle.holder_lines.specs.Lines.{by, said, spoken, holder_line_of};
ghost use Rattle.holder_lines.specs.declared.HolderLine.TheVariants.{Bad};

use calls::Request;
use holder_lists::Whose;
use holder_rules::Holder;
use holder_serve::HolderRequest;
use pool_state::Address;
use script_lines::parse::{LONGEST, field_at};

#[derive(Clone, Copy)]
pub enum HolderLine {
    Asks(HolderRequest),
    Held(Whose),
    List,
    Bad,
}

// A holder's call.
fn asked_by(holder: u64, request: Request) -> HolderLine
    ensures { result ≡ by holder request }
{
    HolderLine::Asks(HolderRequest::By(Holder(holder), request))
}

fn with_none(letter: u8) -> Option<HolderLine>
    ensures { unwrap_or result Bad ≡ said letter [] }
{
    match letter {
        b'l' => Some(HolderLine::List),
        b'h' => Some(HolderLine::Held(Whose::All)),
        _ => None,
    }
}

fn with_one(letter: u8, x: u64) -> Option<HolderLine>
    ensures { unwrap_or result Bad ≡ said letter (x ∷ []) }
{
    match letter {
        b'h' => Some(HolderLine::Held(Whose::One(Holder(x)))),
        _ => None,
    }
}

fn with_two(letter: u8, x: u64, y: u64) -> Option<HolderLine>
    ensures { unwrap_or result Bad ≡ said letter (x ∷ y ∷ []) }
{
    match letter {
        b'o' => Some(HolderLine::Asks(HolderRequest::Offer(Address(x), y))),
        _ => None,
    }
}

fn with_three(letter: u8, x: u64, y: u64, z: u64) -> Option<HolderLine>
    ensures { unwrap_or result Bad ≡ said letter (x ∷ y ∷ z ∷ []) }
{
    match letter {
        b'f' => Some(asked_by(x, Request::Free(Address(y), z))),
        b'a' => Some(asked_by(x, Request::Allocate(y, z))),
        _ => None,
    }
}

fn with_four(letter: u8, x: u64, y: u64, z: u64, w: u64) -> Option<HolderLine>
    ensures { unwrap_or result Bad ≡ said letter (x ∷ y ∷ z ∷ w ∷ []) }
{
    match letter {
        b'r' => Some(asked_by(x, Request::Reserve(Address(y), z, w))),
        _ => None,
    }
}

// The letter's numbers are the fields from `at` on.
fn with_fields(line: &[u8], at: usize, letter: u8) -> Option<HolderLine>
    ensures { unwrap_or result Bad ≡ spoken letter (numbers_of (fields (drop at line.now))) }
{
    let x = field_at(line, at)?;
    if line.len() <= x.end {
        return with_one(letter, x.value);
    }
    let y = field_at(line, x.end + 1)?;
    if line.len() <= y.end {
        return with_two(letter, x.value, y.value);
    }
    let z = field_at(line, y.end + 1)?;
    if line.len() <= z.end {
        return with_three(letter, x.value, y.value, z.value);
    }
    let w = field_at(line, z.end + 1)?;
    if line.len() <= w.end {
        return with_four(letter, x.value, y.value, z.value, w.value);
    }
    None
}

// The bytes of one line, without its newline.
pub fn parse_holder_line(line: &[u8]) -> HolderLine
    ensures { result ≡ holder_line_of line.now }
{
    if LONGEST < line.len() {
        return HolderLine::Bad;
    }
    if line.len() == 0 {
        return HolderLine::Bad;
    }
    if line.len() == 1 {
        return with_none(line[0]).unwrap_or(HolderLine::Bad);
    }
    if line[1] != b' ' {
        return HolderLine::Bad;
    }
    with_fields(line, 2, line[0]).unwrap_or(HolderLine::Bad)
}
