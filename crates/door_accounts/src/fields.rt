// Ten lent fields: the state that they make up, by value. Whoever has it knows how many places the arrays have, which the logic does not know of an array
// behind a reference.
ghost use Rattle.std.specs.Prelude.{◌≡◌};
ghost use Rattle.pool_state.specs.Shown.{pool};
ghost use Rattle.pool_state.specs.State.{arrays};

use pool_state::{LISTS, MemoryAllocator, POOL, RecordIndex};

pub fn state_of(
    total: u64,
    first: u16,
    heads: &[u16; LISTS],
    start: &[u64; POOL],
    end: &[u64; POOL],
    enabled: &[bool; POOL],
    previous: &[u16; POOL],
    next: &[u16; POOL],
    lprev: &[u16; POOL],
    lnext: &[u16; POOL],
) -> MemoryAllocator
    ensures { result ≡ arrays total first heads.now start.now end.now enabled.now previous.now next.now lprev.now lnext.now }
{
    MemoryAllocator {
        free_size: total,
        first_entry: RecordIndex(first),
        free_list: *heads,
        start: *start,
        end: *end,
        enabled: *enabled,
        previous: *previous,
        next: *next,
        list_prev: *lprev,
        list_next: *lnext,
    }
}
