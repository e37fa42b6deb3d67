// Reading an image.
ghost use Rattle.std.specs.Prelude.{◌≡◌};
ghost use Rattle.image_parts.specs.Layout.{current};
ghost use Rattle.holder_images.specs.Reading.{handed, refused, judged, reading_of};

use crate::HolderReading;
use account_state::{Account, NEVER};
use holder_check::is_sound;
use holder_image::entries::read_register;
use holder_image::head::is_headed;
use holder_image::layout::MEMORY;
use holder_rules::{HolderAllocator, Register, new};
use image::{InvalidEntry, read_image};

fn refusal() -> HolderReading
    ensures { handed result.answer result.state result.lowest ≡ refused current }
{
    HolderReading {
        answer: Err(InvalidEntry),
        state: new(),
        lowest: NEVER,
    }
}

// The account that was read with the register that was, if together they are sound.
fn judge(account: Account, register: Register) -> HolderReading
    ensures { handed result.answer result.state result.lowest ≡ judged current account register.entries }
{
    let state = HolderAllocator {
        memory: account.ranges,
        register,
    };
    if is_sound(state) {
        return HolderReading {
            answer: Ok(()),
            state,
            lowest: account.lowest,
        };
    }
    refusal()
}

// The sound state whose image this is, if there is one, and the lowest figure in it.
pub fn read_holders_image(image: &[u8]) -> HolderReading
    ensures { handed result.answer result.state result.lowest ≡ reading_of current image.now }
{
    if !is_headed(image) {
        return refusal();
    }
    let read = read_image(&image[MEMORY..]);
    match read.answer {
        Ok(()) => judge(read.state, read_register(image)),
        Err(InvalidEntry) => refusal(),
    }
}
