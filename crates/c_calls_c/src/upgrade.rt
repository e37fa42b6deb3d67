// The upgrade of an image, as C links it.
ghost use Rattle.std.specs.Prelude.{◌≡◌};
ghost use Rattle.c_over.specs.CCalls.{returned, upgrade_over};

// The image of any version, written as the current one; the answer is 0.
#[unsafe(no_mangle)]
pub extern "C" fn cinghjalofa_upgrade(old: &[u8], image: &mut [u8]) -> i64
    ensures { returned result image.new ≡ upgrade_over old.now image.old }
{
    c_calls::upgrade::cinghjalofa_upgrade(old, image)
}
