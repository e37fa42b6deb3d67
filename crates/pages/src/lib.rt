// Pages of 4096 bytes for the table builder: each call is one call of the allocator.
#![tactic(auto)]

ghost use Rattle.std.specs.Prelude.{◌≡◌};
ghost use Rattle.memory_allocator.specs.Names.{pool};
ghost use Rattle.pages.specs.Pages.{bytes_of_lem, raised, freed_bytes_lem, allocate_pages_of, free_pages_of};

use memory_allocator::{Address, MemoryAllocator, Outcome, allocate, free};

pub const PAGE_BYTES: u64 = 4096;

pub const PAGE_ORDER: u64 = 12;

pub const MOST_PAGES: u64 = 2251799813685248;

// The bytes of so many pages; 0, a size that every call refuses, where there are not so many.
pub fn bytes_of(count: u64) -> u64
    ensures { result ≡ bytes_of_lem count }
{
    if MOST_PAGES < count {
        return 0;
    }
    count * PAGE_BYTES
}

// An order at least that of a page.
pub fn raised_order(order: u64) -> u64
    ensures { result ≡ raised order }
{
    if order < PAGE_ORDER {
        return PAGE_ORDER;
    }
    order
}

// The bytes of so many pages from an address; 0 where no page begins there.
pub fn freed_bytes(address: Address, count: u64) -> u64
    ensures { result ≡ freed_bytes_lem address.0 count }
{
    if address.0 % PAGE_BYTES != 0 {
        return 0;
    }
    bytes_of(count)
}

// `count` pages from a multiple of 4096 and of 2^order; the address is that of the first byte.
pub fn allocate_pages(s: MemoryAllocator, count: u64, order: u64) -> Outcome
    ensures { result ≡ allocate_pages_of pool s count order }
{
    allocate(s, bytes_of(count), raised_order(order))
}

// `count` pages from `address` become free.
pub fn free_pages(s: MemoryAllocator, address: Address, count: u64) -> Outcome
    ensures { result ≡ free_pages_of pool s address.0 count }
{
    free(s, address, freed_bytes(address, count))
}
