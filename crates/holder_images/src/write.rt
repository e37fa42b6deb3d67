// Writing an image.
ghost use Rattle.std.specs.Prelude.{◌≡◌};
ghost use Rattle.pool_state.specs.Shown.{pool};
ghost use Rattle.image_parts.specs.Layout.{current};
ghost use Rattle.image.specs.Writing.{written};
ghost use Rattle.holder_images.specs.Writing.{is_sound_with_lem, writing_of};

use account_state::{Account, is_low_sound};
use holder_check::is_sound;
use holder_image::entries::write_front;
use holder_image::layout::{HOLDERS_IMAGE, MEMORY};
use holder_rules::HolderAllocator;
use image::{InvalidEntry, write_account};

// Whether a state is sound, and the figure may stand beside its total.
fn is_sound_with(s: HolderAllocator, lowest: u64) -> bool
    ensures { result ≡ is_sound_with_lem pool s lowest }
{
    is_sound(s) && is_low_sound(s.memory.free_size, lowest)
}

// The image of a sound state with this lowest figure, over a slice of its length; else nothing changes.
pub fn write_holders_image(
    s: HolderAllocator,
    lowest: u64,
    image: &mut [u8],
) -> Result<(), InvalidEntry>
    ensures { written result image.new ≡ writing_of current s lowest image.old }
{
    if image.len() != HOLDERS_IMAGE {
        return Err(InvalidEntry);
    }
    if is_sound_with(s, lowest) {
        let account = Account {
            ranges: s.memory,
            lowest,
        };
        write_account(account, &mut image[MEMORY..]);
        write_front(image, s.register);
        return Ok(());
    }
    Err(InvalidEntry)
}
