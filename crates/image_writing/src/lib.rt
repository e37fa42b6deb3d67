// The image of an account whose fields are lent, over a slice of its length.
#![tactic(auto)]

ghost use Rattle.std.specs.Prelude.{not, ◌&&◌, ◌≡◌, eqb, length};
ghost use Rattle.image_parts.specs.Layout.{current, image_size_lem};
ghost use Rattle.pool_state.specs.Lent.{was, is};
ghost use Rattle.pool_state.specs.Shown.{pool};
ghost use Rattle.pool_state.specs.State.{arrays};
ghost use Rattle.account_state.specs.Account.{account};
ghost use Rattle.image_writing.specs.Writing.{Stands, WritesRecords, image_of};

use image_parts::head::write_head;
use image_parts::layout::{ENABLED, RECORD, RECORDS};
use image_parts::records::{MemoryEntry, write_record};
use pool_state::{Address, LISTS, POOL, RecordIndex};

// Whether a record's bytes stand in the image already: it is not in use, and was not.
fn is_standing(anew: bool, on: bool, flag: u8) -> bool
    ensures { result ≡ not anew && (not on && not (eqb flag 1)) }
{
    !anew && !on && flag != 1
}

// The records, each in its own part of the image.
fn write_records(
    image: &mut [u8],
    anew: bool,
    start: &[u64; POOL],
    end: &[u64; POOL],
    enabled: &[bool; POOL],
    previous: &[u16; POOL],
    next: &[u16; POOL],
    lprev: &[u16; POOL],
    lnext: &[u16; POOL],
)
    requires image_len { length image.old ≡ image_size_lem current }
    requires stands { Stands current pool anew image start end enabled previous next lprev lnext }
    ensures { WritesRecords current pool image start.now end.now enabled.now previous.now next.now lprev.now lnext.now }
{
    for i in 0..POOL {
        let at = RECORDS + RECORD * i;
        if is_standing(anew, enabled[i], image[at + ENABLED]) {
            continue;
        }
        let e = MemoryEntry {
            start: Address(start[i]),
            end: Address(end[i]),
            enabled: enabled[i],
            previous: RecordIndex(previous[i]),
            next: RecordIndex(next[i]),
            list_prev: RecordIndex(lprev[i]),
            list_next: RecordIndex(lnext[i]),
        };
        write_record(&mut image[at..at + RECORD], e);
    }
}

// The image of the account of these fields: each record anew, or only those that are in use or, by the image as it is, were.
pub fn write_fields(
    image: &mut [u8],
    anew: bool,
    lowest: u64,
    total: u64,
    first: RecordIndex,
    heads: &[u16; LISTS],
    start: &[u64; POOL],
    end: &[u64; POOL],
    enabled: &[bool; POOL],
    previous: &[u16; POOL],
    next: &[u16; POOL],
    lprev: &[u16; POOL],
    lnext: &[u16; POOL],
)
    requires image_len { length image.old ≡ image_size_lem current }
    requires stands { Stands current pool anew image start end enabled previous next lprev lnext }
    ensures { is image ≡ image_of current (account (arrays total first.0 heads.now start.now end.now enabled.now previous.now next.now lprev.now lnext.now) lowest) }
{
    write_records(
        image, anew, start, end, enabled, previous, next, lprev, lnext,
    );
    write_head(&mut image[0..RECORDS], total, first, heads, lowest);
}
