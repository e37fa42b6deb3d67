// The state of a box: its free ranges, and beside them the lowest figure. What works on the ranges below knows nothing of the figure.
#![tactic(auto)]

ghost use Rattle.std.specs.Prelude.{◌≡◌};
ghost use Rattle.rules_lowest.specs.Lowest as rules;
ghost use Rattle.pool_state.specs.Shown.{pool};
ghost use Rattle.calls.specs.Calls.{number_of};
ghost use Rattle.account_state.specs.Account.{is_sound_lem};

use calls::Answer;
use pool_state::MemoryAllocator;

// The figure before the first accepted free.
pub const NEVER: u64 = 18446744073709551615;

// The figure is the least total after any accepted call since the first accepted free.
#[derive(Clone, Copy)]
pub struct Account {
    pub ranges: MemoryAllocator,
    pub lowest: u64,
}

// An answer beside the account that the call leaves.
#[derive(Clone, Copy)]
pub struct Entered {
    pub answer: Answer,
    pub state: Account,
}

// The figure after a call that was answered so and left this total.
pub fn noted(answer: Answer, total: u64, lowest: u64) -> u64
    ensures { result ≡ rules.noted (number_of answer) total lowest }
{
    match answer {
        Ok(_) => total.min(lowest),
        Err(_) => lowest,
    }
}

// Whether the figure may stand beside this total.
pub fn is_low_sound(total: u64, lowest: u64) -> bool
    ensures { result ≡ rules.low_sound total lowest }
{
    if lowest <= total {
        return true;
    }
    if total == 0 {
        return lowest == NEVER;
    }
    false
}

// Whether an account is sound.
pub fn is_sound(a: Account) -> bool
    ensures { result ≡ is_sound_lem pool a }
{
    let ranges = a.ranges;
    if check_state::is_sound(ranges) {
        return is_low_sound(ranges.free_size, a.lowest);
    }
    false
}
