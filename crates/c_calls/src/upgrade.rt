// The call that reads an image of any version, as C has it. In the library it is an object of its own (tools/archives): the others read the current
// layout alone, whose figures are then constants of their code.
ghost use Rattle.std.specs.Prelude.{◌≡◌};
ghost use Rattle.c_over.specs.CCalls.{returned, upgrade_over};

use calls::INVALID_ENTRY;
use image::InvalidEntry;
use image_upgrade::upgrade_image;

// What an upgrade answers that was made.
const UPGRADED: i64 = 0;

// The image of any version, written as the current one; the answer is 0.
pub fn cinghjalofa_upgrade(old: &[u8], image: &mut [u8]) -> i64
    ensures { returned result image.new ≡ upgrade_over old.now image.old }
{
    match upgrade_image(old, image) {
        Ok(()) => UPGRADED,
        Err(InvalidEntry) => INVALID_ENTRY,
    }
}
