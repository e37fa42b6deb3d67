// A request served on the state that an image holds.
#![tactic(auto)]

ghost use Rattle.std.specs.Prelude.{◌≡◌};
ghost use Rattle.image_parts.specs.Layout.{current};
ghost use Rattle.calls.specs.Calls.{call_of};
ghost use Rattle.c_over.specs.CCalls.{returned, call_over_lem};

use batch::words_of;
use image_calls::list_over;
use memory_allocator::Request;

// A list of one call: what reads, checks and writes the image stands once, and so is compiled into one function.
pub fn call_over(image: &mut [u8], request: Request) -> i64
    ensures { returned result image.new ≡ call_over_lem current (call_of request) image.old }
{
    let words = words_of(request);
    let mut answers = [0i64; 1];
    let listed = list_over(image, &words, &mut answers);
    if listed < 0 {
        return listed;
    }
    answers[0]
}
