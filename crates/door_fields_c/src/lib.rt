// A state of one's own, a new one and its check, as C links them: each is door_fields' own.
#![tactic(auto)]

ghost use Rattle.std.specs.Prelude.{◌≡◌};
ghost use Rattle.account_state.specs.Account.{account, opened, is_sound_lem};
ghost use Rattle.account_state.specs.Lent.{turns_eleven};
ghost use Rattle.pool_state.specs.Shown.{pool};
ghost use Rattle.pool_state.specs.State.{arrays};

use pool_state::{LISTS, POOL};

// The empty allocator, over whatever is there.
#[unsafe(no_mangle)]
pub extern "C" fn cinghjalofa_fields_new(
    lowest: &mut u64,
    total: &mut u64,
    first: &mut u16,
    heads: &mut [u16; LISTS],
    start: &mut [u64; POOL],
    end: &mut [u64; POOL],
    enabled: &mut [bool; POOL],
    previous: &mut [u16; POOL],
    next: &mut [u16; POOL],
    lprev: &mut [u16; POOL],
    lnext: &mut [u16; POOL],
)
    ensures { turns_eleven (λ a a'. a' ≡ opened pool) lowest total first heads start end enabled previous next lprev lnext }
{
    door_fields::cinghjalofa_fields_new(
        lowest, total, first, heads, start, end, enabled, previous, next, lprev, lnext,
    );
}

// Whether the fields are a sound state.
#[unsafe(no_mangle)]
pub extern "C" fn cinghjalofa_fields_are_sound(
    lowest: u64,
    total: u64,
    first: u16,
    heads: &[u16; LISTS],
    start: &[u64; POOL],
    end: &[u64; POOL],
    enabled: &[bool; POOL],
    previous: &[u16; POOL],
    next: &[u16; POOL],
    lprev: &[u16; POOL],
    lnext: &[u16; POOL],
) -> bool
    ensures { result ≡ is_sound_lem pool (account (arrays total first heads.now start.now end.now enabled.now previous.now next.now lprev.now lnext.now) lowest) }
{
    door_fields::cinghjalofa_fields_are_sound(
        lowest, total, first, heads, start, end, enabled, previous, next, lprev, lnext,
    )
}
