// The stage 2 map over a lent image and a lent arena. No refusal changes either: all that may be refused is known before the first store.
#![tactic(auto)]

ghost use Rattle.std.specs.Prelude.{◌≡◌, ◌+◌, ◌*◌, ◌^◌, ◌≤◌, negsuc, length};
ghost use Rattle.pool_state.specs.Lent.{was, is};
ghost use Rattle.image_parts.specs.Layout.{current, image_size_lem};
ghost use Rattle.mapper_rules.specs.Walk.{span};
ghost use Rattle.mapper.specs.Maps.{left, refuse, in_the_way, finished, map_over};

use calls::{INVALID_ENTRY, INVALID_REQUEST};
use image_parts::layout::IMAGE;
use mapper_blocks::block_in;
use mapper_laws::{Mapping, WORD};
use mapper_lies::{all_lies, top_of};
use mapper_numbers::bad_numbers;
use mapper_pages::{ask_in, take_page};
use mapper_stores::store_in;
use mapper_tables::Top;
use mapper_words::permission_of;

// What an accepted map answers.
const MAPPED: i64 = 0;

// A map whose numbers are not refused, over a sound state, free bytes and tables that lie right. The pages are asked for on a copy of the image first.
fn map_lying(image: &mut [u8], arena: &mut [u64], first: u64, top: Top, q: Mapping) -> i64
    requires { (length image.old ≡ image_size_lem current) × (top.height ≤ 3) × (top.entries * span top.height ≤ 2 ^ 48) × (top.word + top.entries ≤ 2 ^ 50) }
    ensures { left result (is image) (is arena) ≡ refuse (in_the_way q first top (was arena)) (negsuc 3) (was image) (was arena) (finished q first top (was image) (was arena)) }
{
    let blocked = block_in(
        &arena[..],
        first,
        q,
        top.height,
        0,
        top.word,
        top.entries,
        false,
    );
    if blocked {
        return INVALID_REQUEST;
    }
    let mut copy = [0u8; IMAGE];
    copy.copy_from_slice(&image[..]);
    let enough = ask_in(
        &arena[..],
        first,
        &mut copy,
        q,
        top.height,
        0,
        top.word,
        top.entries,
        false,
        true,
    );
    if enough {
        store_in(image, arena, first, q, top.height, 0, top.word, top.entries);
        return MAPPED;
    }
    take_page(&mut copy)
}

// `map_size` bytes from `intermediate_physical_address` on are mapped to those from `physical_address` on, in the tables that `vttbr` and `vtcr` name.
// The arena is the memory of the allocator in the image; its first byte has the address `base`.
pub fn cinghjalofa_map_address_stage2(
    image: &mut [u8],
    arena: &mut [u64],
    base: u64,
    vttbr: u64,
    vtcr: u64,
    physical_address: u64,
    intermediate_physical_address: u64,
    map_size: u64,
    is_readable: bool,
    is_writable: bool,
) -> i64
    ensures { left result (is image) (is arena) ≡ map_over base vttbr vtcr physical_address intermediate_physical_address map_size is_readable is_writable (was image) (was arena) }
{
    if image.len() != IMAGE {
        return INVALID_ENTRY;
    }
    let bad = bad_numbers(
        base,
        vttbr,
        vtcr,
        physical_address,
        intermediate_physical_address,
        map_size,
    );
    if bad {
        return INVALID_REQUEST;
    }
    let top = top_of(vttbr, vtcr);
    if all_lies(&image[..], &arena[..], base, top) {
        let q = Mapping {
            from: intermediate_physical_address,
            past: intermediate_physical_address + map_size,
            out: physical_address,
            permission: permission_of(is_readable, is_writable),
        };
        return map_lying(image, arena, base / WORD, top, q);
    }
    INVALID_ENTRY
}
