// The allocator lent in place: each door calls the core, which takes it by value.
#![tactic(auto)]

ghost use Rattle.memory_allocator.specs.Names.{pool};
ghost use Rattle.memory_allocator.specs.Promises.{allocate_of, reserve_of, free_of};
ghost use Rattle.doors.specs.Lent.{Does};

use memory_allocator::{Address, Answer, MemoryAllocator};

// `size` bytes from a multiple of 2^order.
pub fn allocate(m: &mut MemoryAllocator, size: u64, order: u64) -> Answer
    ensures { Does (λ s. allocate_of pool s size order) result m.old m.new }
{
    let allocated = memory_allocator::allocate(*m, size, order);
    *m = allocated.state;
    allocated.answer
}

// The bytes from `address`, widened to multiples of 2^order, are taken.
pub fn reserve_memory(m: &mut MemoryAllocator, address: Address, size: u64, order: u64) -> Answer
    ensures { Does (λ s. reserve_of pool s address.0 size order) result m.old m.new }
{
    let reserved = memory_allocator::reserve_memory(*m, address, size, order);
    *m = reserved.state;
    reserved.answer
}

// `size` bytes from `address` become free.
pub fn free(m: &mut MemoryAllocator, address: Address, size: u64) -> Answer
    ensures { Does (λ s. free_of pool s address.0 size) result m.old m.new }
{
    let freed = memory_allocator::free(*m, address, size);
    *m = freed.state;
    freed.answer
}
