// The register held against the free ranges that stand in the lent arrays of the pool.
#![tactic(auto)]

ghost use Rattle.std.specs.Prelude.{◌≡◌, ◌<◌};
ghost use Rattle.rules.specs.Rules.{any, meets};
ghost use Rattle.holder_rules.specs.Sound.{register_sound};
ghost use Rattle.holder_arrays.specs.Arrays.{SomeFree, OfFree};

use holder_check::is_register_sound_beside;
use holder_rules::Register;
use pool_chain::{overlaps_neighbour, search_entry_previous_address};
use pool_links::Gap;
use pool_state::{Address, POOL, RecordIndex};

// Whether a byte from `address` to before `past` is free.
fn meets_free(
    start: &[u64; POOL],
    end: &[u64; POOL],
    next: &[u16; POOL],
    first: RecordIndex,
    address: Address,
    past: Address,
) -> bool
    requires { SomeFree start end next first.0 × (address.0 < past.0) }
    ensures { OfFree (λ c. result ≡ any (meets address.0 past.0) c) start.now end.now next.now first.0 }
{
    let gap: Gap = search_entry_previous_address(start, next, first, address);
    overlaps_neighbour(start, end, gap.before, gap.after, address, past)
}

// Whether the register is sound beside the free ranges that the links lead along.
pub fn is_register_sound_in(
    register: &Register,
    start: &[u64; POOL],
    end: &[u64; POOL],
    next: &[u16; POOL],
    first: RecordIndex,
) -> bool
    requires { SomeFree start end next first.0 }
    ensures { OfFree (λ c. result ≡ register_sound c register.now.entries) start.now end.now next.now first.0 }
{
    is_register_sound_beside(
        register,
        |address, last| meets_free(start, end, next, first, Address(address), Address(last + 1)),
    )
}
