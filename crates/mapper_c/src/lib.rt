// The stage 2 map over a lent image and a lent arena, as C links it: it is mapper's own.
#![tactic(auto)]

ghost use Rattle.std.specs.Prelude.{◌≡◌};
ghost use Rattle.pool_state.specs.Lent.{was, is};
ghost use Rattle.mapper.specs.Maps.{left, map_over};

// `map_size` bytes from `intermediate_physical_address` on are mapped to those from `physical_address` on, in the tables that `vttbr` and `vtcr` name.
// The arena is the memory of the allocator in the image; its first byte has the address `base`.
#[unsafe(no_mangle)]
pub extern "C" fn cinghjalofa_map_address_stage2(
    image: &mut [u8],
    arena: &mut [u64],
    base: u64,
    vttbr: u64,
    vtcr: u64,
    physical_address: u64,
    intermediate_physical_address: u64,
    map_size: u64,
    is_readable: bool,
    is_writable: bool,
) -> i64
    ensures { left result (is image) (is arena) ≡ map_over base vttbr vtcr physical_address intermediate_physical_address map_size is_readable is_writable (was image) (was arena) }
{
    mapper::cinghjalofa_map_address_stage2(
        image,
        arena,
        base,
        vttbr,
        vtcr,
        physical_address,
        intermediate_physical_address,
        map_size,
        is_readable,
        is_writable,
    )
}
