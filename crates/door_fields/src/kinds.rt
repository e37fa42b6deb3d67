// The kinds of call: those of a list, and pages.
ghost use Rattle.std.specs.Prelude.{◌≡◌};
ghost use Rattle.batch.specs.InWords.{asked_by_lem};
ghost use Rattle.door_fields.specs.Fields.{asked_here};

use batch::{ALLOCATE, FREE, Words};
use pages::{bytes_of, freed_bytes, raised_order};
use pool_state::Address;

pub const ALLOCATE_PAGES: u64 = 4;

pub const FREE_PAGES: u64 = 5;

// The words of the call in bytes that a call is.
pub fn in_bytes(kind: u64, x: u64, y: u64, z: u64) -> Words
    ensures { asked_by_lem result ≡ asked_here kind x y z }
{
    if kind == ALLOCATE_PAGES {
        return Words {
            kind: ALLOCATE,
            x: bytes_of(x),
            y: raised_order(y),
            z: 0,
        };
    }
    if kind == FREE_PAGES {
        return Words {
            kind: FREE,
            x: x,
            y: freed_bytes(Address(x), y),
            z: 0,
        };
    }
    Words {
        kind: kind,
        x: x,
        y: y,
        z: z,
    }
}
