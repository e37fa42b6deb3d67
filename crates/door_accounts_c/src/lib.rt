// The total, the lowest figure and the listing over a lent image, as C links them: each is door_accounts' own; own.rt has those of a state of one's own.
#![tactic(auto)]

ghost use Rattle.image_parts.specs.Layout.{current};
ghost use Rattle.pool_state.specs.Lent.{was, is};
ghost use Rattle.pool_state.specs.Shown.{pool};
ghost use Rattle.account_calls.specs.Accounts.{total_of, lowest_of};
ghost use Rattle.door_accounts.specs.Accounts.{shown_by, Figures, ListsBy};

mod own;

// The total of the account that an image holds goes to the place that is lent.
#[unsafe(no_mangle)]
pub extern "C" fn cinghjalofa_total(image: &[u8], figure: &mut u64) -> i64
    ensures { Figures (shown_by current image.now (total_of pool)) (was figure) result (is figure) }
{
    door_accounts::cinghjalofa_total(image, figure)
}

// The lowest figure goes there: the least total after any accepted call since the first accepted free, 2^64-1 before it.
#[unsafe(no_mangle)]
pub extern "C" fn cinghjalofa_lowest(image: &[u8], figure: &mut u64) -> i64
    ensures { Figures (shown_by current image.now (lowest_of pool)) (was figure) result (is figure) }
{
    door_accounts::cinghjalofa_lowest(image, figure)
}

// The first and last byte of each free range, by address, into the first places of two slices; the answer is their number.
#[unsafe(no_mangle)]
pub extern "C" fn cinghjalofa_listing(image: &[u8], starts: &mut [u64], lasts: &mut [u64]) -> i64
    ensures { ListsBy current image.now (was starts) (was lasts) result (is starts) (is lasts) }
{
    door_accounts::cinghjalofa_listing(image, starts, lasts)
}
