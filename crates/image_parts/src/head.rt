// The bytes before the records.
ghost use Rattle.std.specs.Prelude.{◌≡◌, length};
ghost use Rattle.image_parts.specs.Layout.{current, records_at_lem};
ghost use Rattle.image_parts.specs.Written.{head_bytes};

use crate::layout::{FIRST, HEADS, LENGTH, LOWEST, RECORDS, REST, TOTAL, VERSION};
use crate::links::{link_number, write_links};
use bytes_be::{put_be, put_word};
use pool_state::{LISTS, RecordIndex};

pub fn write_head(part: &mut [u8], total: u64, first: RecordIndex, heads: &[u16; LISTS], low: u64)
    requires { length part.old ≡ records_at_lem current }
    ensures { part.new ≡ head_bytes current total first.0 heads.now low }
{
    put_be(&mut part[0..LENGTH], VERSION);
    put_be(&mut part[LENGTH..TOTAL], REST);
    put_word(&mut part[TOTAL..FIRST], total);
    put_be(&mut part[FIRST..HEADS], link_number(first));
    write_links(&mut part[HEADS..LOWEST], heads);
    put_word(&mut part[LOWEST..RECORDS], low);
}
