// The calls as C has them: over a lent image, with one signed number as the answer.
#![tactic(auto)]

ghost use Rattle.std.specs.Prelude.{◌≡◌};
ghost use Rattle.image_parts.specs.Layout.{current};
ghost use Rattle.c_over.specs.CCalls.{returned, new_over, allocate_over, reserve_over, free_over, allocate_pages_over, free_pages_over};
ghost use Rattle.c_over.specs.Lists.{BatchOver};

use account_state::NEVER;
use c_over::call_over;
use calls::INVALID_ENTRY;
use image_calls::list_over;
use image_parts::layout::IMAGE;
use image_writing::write_fields;
use memory_allocator::{Address, Request};
use pages::{bytes_of, freed_bytes, raised_order};
use pool_state::{LISTS, NONE, POOL, RecordIndex};

pub mod holders;
pub mod journal;
pub mod upgrade;

// What the call that begins an image answers.
const BEGUN: i64 = 0;

// The image of the empty allocator, over whatever is there.
pub fn cinghjalofa_new(image: &mut [u8]) -> i64
    ensures { returned result image.new ≡ new_over current image.old }
{
    if image.len() != IMAGE {
        return INVALID_ENTRY;
    }
    let heads = [NONE; LISTS];
    let bytes = [0u64; POOL];
    let unused = [false; POOL];
    let links = [NONE; POOL];
    write_fields(
        image,
        true,
        NEVER,
        0,
        RecordIndex(NONE),
        &heads,
        &bytes,
        &bytes,
        &unused,
        &links,
        &links,
        &links,
        &links,
    );
    BEGUN
}

// `size` bytes from a multiple of 2^order; the answer is the address of the first.
pub fn cinghjalofa_allocate(image: &mut [u8], size: u64, order: u64) -> i64
    ensures { returned result image.new ≡ allocate_over current size order image.old }
{
    call_over(image, Request::Allocate(size, order))
}

// The bytes from `start`, widened to multiples of 2^order, are taken.
pub fn cinghjalofa_reserve_memory(image: &mut [u8], start: u64, size: u64, order: u64) -> i64
    ensures { returned result image.new ≡ reserve_over current start size order image.old }
{
    call_over(image, Request::Reserve(Address(start), size, order))
}

// `size` bytes from `start` become free.
pub fn cinghjalofa_free(image: &mut [u8], start: u64, size: u64) -> i64
    ensures { returned result image.new ≡ free_over current start size image.old }
{
    call_over(image, Request::Free(Address(start), size))
}

// `count` pages from a multiple of 4096 and of 2^order; the answer is the address of the first byte.
pub fn cinghjalofa_allocate_pages(image: &mut [u8], count: u64, order: u64) -> i64
    ensures { returned result image.new ≡ allocate_pages_over current count order image.old }
{
    call_over(
        image,
        Request::Allocate(bytes_of(count), raised_order(order)),
    )
}

// `count` pages from `address` become free.
pub fn cinghjalofa_free_pages(image: &mut [u8], address: u64, count: u64) -> i64
    ensures { returned result image.new ≡ free_pages_over current address count image.old }
{
    let start = Address(address);
    call_over(image, Request::Free(start, freed_bytes(start, count)))
}

// A list of calls, four words each, whose signed answers go into the places of `answers`; 0 where the list was served.
pub fn cinghjalofa_batch(image: &mut [u8], calls: &[u64], answers: &mut [i64]) -> i64
    ensures { BatchOver current image.old calls.now answers.old result image.new answers.new }
{
    list_over(image, calls, answers)
}
