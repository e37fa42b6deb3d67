// The total, the lowest figure and the listing as C has them: over a lent image; own.rt has those of a state of one's own. Nothing is written but what is asked for.
#![tactic(auto)]

ghost use Rattle.image_parts.specs.Layout.{current};
ghost use Rattle.pool_state.specs.Lent.{was, is};
ghost use Rattle.pool_state.specs.Shown.{pool};
ghost use Rattle.account_calls.specs.Accounts.{total_of, lowest_of};
ghost use Rattle.door_accounts.specs.Accounts.{shown_by, Figures, ListsBy};

use calls::INVALID_ENTRY;
use image_reading::read_current;
use listed::list_signed;
use pool_state::new;

mod fields;
mod listed;
pub mod own;

// The total of the account that an image holds goes to the place that is lent.
pub fn cinghjalofa_total(image: &[u8], figure: &mut u64) -> i64
    ensures { Figures (shown_by current image.now (total_of pool)) (was figure) result (is figure) }
{
    let mut lowest = 0;
    let mut ranges = new();
    let readable = read_current(
        image,
        &mut lowest,
        &mut ranges.free_size,
        &mut ranges.first_entry.0,
        &mut ranges.free_list,
        &mut ranges.start,
        &mut ranges.end,
        &mut ranges.enabled,
        &mut ranges.previous,
        &mut ranges.next,
        &mut ranges.list_prev,
        &mut ranges.list_next,
    );
    if readable {
        *figure = ranges.free_size;
        return 0;
    }
    INVALID_ENTRY
}

// The lowest figure goes there: the least total after any accepted call since the first accepted free, 2^64-1 before it.
pub fn cinghjalofa_lowest(image: &[u8], figure: &mut u64) -> i64
    ensures { Figures (shown_by current image.now (lowest_of pool)) (was figure) result (is figure) }
{
    let mut lowest = 0;
    let mut ranges = new();
    let serves = read_current(
        image,
        &mut lowest,
        &mut ranges.free_size,
        &mut ranges.first_entry.0,
        &mut ranges.free_list,
        &mut ranges.start,
        &mut ranges.end,
        &mut ranges.enabled,
        &mut ranges.previous,
        &mut ranges.next,
        &mut ranges.list_prev,
        &mut ranges.list_next,
    );
    if serves {
        *figure = lowest;
        return 0;
    }
    INVALID_ENTRY
}

// The first and last byte of each free range, by address, into the first places of two slices; the answer is their number.
pub fn cinghjalofa_listing(image: &[u8], starts: &mut [u64], lasts: &mut [u64]) -> i64
    ensures { ListsBy current image.now (was starts) (was lasts) result (is starts) (is lasts) }
{
    let mut lowest = 0;
    let mut ranges = new();
    let is_image = read_current(
        image,
        &mut lowest,
        &mut ranges.free_size,
        &mut ranges.first_entry.0,
        &mut ranges.free_list,
        &mut ranges.start,
        &mut ranges.end,
        &mut ranges.enabled,
        &mut ranges.previous,
        &mut ranges.next,
        &mut ranges.list_prev,
        &mut ranges.list_next,
    );
    if is_image {
        return list_signed(
            &ranges.start,
            &ranges.end,
            &ranges.next,
            ranges.first_entry,
            starts,
            lasts,
        );
    }
    INVALID_ENTRY
}
