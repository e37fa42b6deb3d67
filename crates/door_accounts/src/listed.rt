// The listing with one signed number as its answer.
ghost use Rattle.std.specs.Prelude.{List};
ghost use Rattle.rules.specs.Rules.{Range};
ghost use Rattle.pool_state.specs.Lent.{was, is};
ghost use Rattle.pool_state.specs.Shown.{pool};
ghost use Rattle.pool_chain.specs.Chain.{Ordered};
ghost use Rattle.door_accounts.specs.Accounts.{ListsChain};

use calls::INVALID_REQUEST;
use pool_listing::list_in;
use pool_state::{POOL, RecordIndex};

pub fn list_signed(
    start: &[u64; POOL],
    end: &[u64; POOL],
    next: &[u16; POOL],
    first: RecordIndex,
    starts: &mut [u64],
    lasts: &mut [u64],
) -> i64
    requires { (c : List Range) × Ordered pool c start.now end.now next.now first.0 }
    ensures { (c : List Range) → Ordered pool c start.now end.now next.now first.0 → ListsChain c (was starts) (was lasts) result (is starts) (is lasts) }
{
    match list_in(start, end, next, first, starts, lasts) {
        Some(count) => count as i64,
        None => INVALID_REQUEST,
    }
}
