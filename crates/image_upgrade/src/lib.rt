// An image of any version that is read, written again as the current one.
#![tactic(auto)]

ghost use Rattle.std.specs.Prelude.{◌≡◌};
ghost use Rattle.pool_state.specs.Lent.{was, is};
ghost use Rattle.image.specs.Writing.{written};
ghost use Rattle.image_upgrade.specs.Upgrades.{upgrading_of};

use image::InvalidEntry;
use image_parts::layout::{IMAGE, layout_of};
use image_reading::read_fields;
use image_writing::write_fields;
use pool_state::new;

// The sound account whose image `old` is, written over a slice of the current length; else nothing changes.
pub fn upgrade_image(old: &[u8], image: &mut [u8]) -> Result<(), InvalidEntry>
    ensures { written result (is image) ≡ upgrading_of old.now (was image) }
{
    if image.len() != IMAGE {
        return Err(InvalidEntry);
    }
    let form = layout_of(old);
    let mut lowest = 0;
    let mut ranges = new();
    if read_fields(
        old,
        form,
        &mut lowest,
        &mut ranges.free_size,
        &mut ranges.first_entry.0,
        &mut ranges.free_list,
        &mut ranges.start,
        &mut ranges.end,
        &mut ranges.enabled,
        &mut ranges.previous,
        &mut ranges.next,
        &mut ranges.list_prev,
        &mut ranges.list_next,
    ) {
        write_fields(
            image,
            true,
            lowest,
            ranges.free_size,
            ranges.first_entry,
            &ranges.free_list,
            &ranges.start,
            &ranges.end,
            &ranges.enabled,
            &ranges.previous,
            &ranges.next,
            &ranges.list_prev,
            &ranges.list_next,
        );
        return Ok(());
    }
    Err(InvalidEntry)
}
