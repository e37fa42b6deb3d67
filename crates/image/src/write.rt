// Writing an image.
ghost use Rattle.std.specs.Prelude.{◌≡◌, length};
ghost use Rattle.image_parts.specs.Layout.{current, image_size_lem};
ghost use Rattle.image_writing.specs.Writing.{image_of};
ghost use Rattle.image.specs.Writing.{written, writing_of};

use crate::InvalidEntry;
use account_state::{Account, is_sound};
use image_parts::layout::IMAGE;
use image_writing::write_fields;

// The image of any account, over a slice of its length.
pub fn write_account(a: Account, image: &mut [u8])
    requires { length image.old ≡ image_size_lem current }
    ensures { image.new ≡ image_of current a }
{
    let ranges = a.ranges;
    write_fields(
        image,
        true,
        a.lowest,
        ranges.free_size,
        ranges.first_entry,
        &ranges.free_list,
        &ranges.start,
        &ranges.end,
        &ranges.enabled,
        &ranges.previous,
        &ranges.next,
        &ranges.list_prev,
        &ranges.list_next,
    );
}

// The image of a sound account over a slice of its length; else nothing changes.
pub fn write_image(a: Account, image: &mut [u8]) -> Result<(), InvalidEntry>
    ensures { written result image.new ≡ writing_of current a image.old }
{
    if image.len() != IMAGE {
        return Err(InvalidEntry);
    }
    if is_sound(a) {
        write_account(a, image);
        return Ok(());
    }
    Err(InvalidEntry)
}
