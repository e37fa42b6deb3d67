// Reading an image.
ghost use Rattle.std.specs.Prelude.{◌≡◌};
ghost use Rattle.image_parts.specs.Layout.{current};
ghost use Rattle.image.specs.Reading.{handed, refused, reading_any};

use crate::{InvalidEntry, Reading};
use account_state::{Account, NEVER};
use image_parts::layout::layout_of;
use image_reading::read_fields;
use pool_state::new;

fn refusal() -> Reading
    ensures { handed result.answer result.state ≡ refused current }
{
    Reading {
        answer: Err(InvalidEntry),
        state: Account {
            ranges: new(),
            lowest: NEVER,
        },
    }
}

// The sound account whose image this is, if there is one, whatever its version.
pub fn read_image(image: &[u8]) -> Reading
    ensures { handed result.answer result.state ≡ reading_any image.now }
{
    let form = layout_of(image);
    let mut lowest = 0;
    let mut ranges = new();
    if read_fields(
        image,
        form,
        &mut lowest,
        &mut ranges.free_size,
        &mut ranges.first_entry.0,
        &mut ranges.free_list,
        &mut ranges.start,
        &mut ranges.end,
        &mut ranges.enabled,
        &mut ranges.previous,
        &mut ranges.next,
        &mut ranges.list_prev,
        &mut ranges.list_next,
    ) {
        return Reading {
            answer: Ok(()),
            state: Account { ranges, lowest },
        };
    }
    refusal()
}
