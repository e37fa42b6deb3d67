// The calls over a lent image, as C links them: each is c_calls' own.
#![tactic(auto)]

ghost use Rattle.std.specs.Prelude.{◌≡◌};
ghost use Rattle.image_parts.specs.Layout.{current};
ghost use Rattle.c_over.specs.CCalls.{returned, new_over, allocate_over, reserve_over, free_over, allocate_pages_over, free_pages_over};
ghost use Rattle.c_over.specs.Lists.{BatchOver};

mod holders;
mod journal;
mod upgrade;

// The image of the empty allocator, over whatever is there.
#[unsafe(no_mangle)]
pub extern "C" fn cinghjalofa_new(image: &mut [u8]) -> i64
    ensures { returned result image.new ≡ new_over current image.old }
{
    c_calls::cinghjalofa_new(image)
}

// `size` bytes from a multiple of 2^order; the answer is the address of the first.
#[unsafe(no_mangle)]
pub extern "C" fn cinghjalofa_allocate(image: &mut [u8], size: u64, order: u64) -> i64
    ensures { returned result image.new ≡ allocate_over current size order image.old }
{
    c_calls::cinghjalofa_allocate(image, size, order)
}

// The bytes from `start`, widened to multiples of 2^order, are taken.
#[unsafe(no_mangle)]
pub extern "C" fn cinghjalofa_reserve_memory(
    image: &mut [u8],
    start: u64,
    size: u64,
    order: u64,
) -> i64
    ensures { returned result image.new ≡ reserve_over current start size order image.old }
{
    c_calls::cinghjalofa_reserve_memory(image, start, size, order)
}

// `size` bytes from `start` become free.
#[unsafe(no_mangle)]
pub extern "C" fn cinghjalofa_free(image: &mut [u8], start: u64, size: u64) -> i64
    ensures { returned result image.new ≡ free_over current start size image.old }
{
    c_calls::cinghjalofa_free(image, start, size)
}

// `count` pages from a multiple of 4096 and of 2^order; the answer is the address of the first byte.
#[unsafe(no_mangle)]
pub extern "C" fn cinghjalofa_allocate_pages(image: &mut [u8], count: u64, order: u64) -> i64
    ensures { returned result image.new ≡ allocate_pages_over current count order image.old }
{
    c_calls::cinghjalofa_allocate_pages(image, count, order)
}

// `count` pages from `address` become free.
#[unsafe(no_mangle)]
pub extern "C" fn cinghjalofa_free_pages(image: &mut [u8], address: u64, count: u64) -> i64
    ensures { returned result image.new ≡ free_pages_over current address count image.old }
{
    c_calls::cinghjalofa_free_pages(image, address, count)
}

// A list of calls, four words each, whose signed answers go into the places of `answers`; 0 where the list was served.
#[unsafe(no_mangle)]
pub extern "C" fn cinghjalofa_batch(image: &mut [u8], calls: &[u64], answers: &mut [i64]) -> i64
    ensures { BatchOver current image.old calls.now answers.old result image.new answers.new }
{
    c_calls::cinghjalofa_batch(image, calls, answers)
}
