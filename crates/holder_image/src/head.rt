// The head of an image.
ghost use Rattle.std.specs.Prelude.{◌≡◌};
ghost use Rattle.image_parts.specs.Layout.{current};
ghost use Rattle.holder_image.specs.Bytes.{headed};

use crate::layout::{ENTRIES_AT, HOLDERS_IMAGE, LENGTH, REST, VERSION};
use bytes_be::read_be;

// Whether length, version and length field are right.
pub fn is_headed(image: &[u8]) -> bool
    ensures { result ≡ headed current image.now }
{
    if image.len() != HOLDERS_IMAGE {
        return false;
    }
    if read_be(&image[0..LENGTH]) != VERSION {
        return false;
    }
    read_be(&image[LENGTH..ENTRIES_AT]) == REST
}
