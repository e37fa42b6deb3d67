// The calls of the register as C has them: over a lent image, with one signed number as the answer.
ghost use Rattle.std.specs.Prelude.{◌≡◌};
ghost use Rattle.rules.specs.Rules.{Free, Allocate, Reserve};
ghost use Rattle.image_parts.specs.Layout.{current};
ghost use Rattle.c_over.specs.CCalls.{returned};
ghost use Rattle.pool_state.specs.Lent.{was, is};
ghost use Rattle.holder_rules.specs.Register.{entries, blanks};
ghost use Rattle.holder_rules.specs.Holders.{Offer, By};
ghost use Rattle.holder_calls.specs.Calls.{new_over, call_over_lem};

use crate::BEGUN;
use account_state::NEVER;
use calls::INVALID_ENTRY;
use holder_calls::serve_over;
use holder_entries::unused_entry;
use holder_image::entries::write_front;
use holder_image::layout::{HOLDERS_IMAGE, MEMORY};
use holder_rules::{ENTRIES, Holder, Register};
use holder_serve::HolderRequest;
use image_writing::write_fields;
use memory_allocator::Request;
use pool_state::{Address, LISTS, NONE, POOL, RecordIndex};

// A register with no entry used.
fn no_entries() -> Register
    ensures { result.entries ≡ blanks entries }
{
    let unused = unused_entry();
    Register {
        entries: [unused; ENTRIES],
    }
}

// The image of the empty allocator with no range held, over whatever is there.
pub fn cinghjalofa_holders_new(image: &mut [u8]) -> i64
    ensures { returned result (is image) ≡ new_over current (was image) }
{
    if image.len() != HOLDERS_IMAGE {
        return INVALID_ENTRY;
    }
    let heads = [NONE; LISTS];
    let bytes = [0u64; POOL];
    let unused = [false; POOL];
    let links = [NONE; POOL];
    write_fields(
        &mut image[MEMORY..],
        true,
        NEVER,
        0,
        RecordIndex(NONE),
        &heads,
        &bytes,
        &bytes,
        &unused,
        &links,
        &links,
        &links,
        &links,
    );
    write_front(image, no_entries());
    BEGUN
}

// The board offers `size` bytes from `start`: they become free.
pub fn cinghjalofa_holders_offer(image: &mut [u8], start: u64, size: u64) -> i64
    ensures { returned result (is image) ≡ call_over_lem current (Offer start size) (was image) }
{
    serve_over(image, HolderRequest::Offer(Address(start), size))
}

// The holder takes `size` bytes from a multiple of 2^order; the answer is the address of the first.
pub fn cinghjalofa_holders_allocate(image: &mut [u8], holder: u64, size: u64, order: u64) -> i64
    ensures { returned result (is image) ≡ call_over_lem current (By holder (Allocate size order)) (was image) }
{
    serve_over(
        image,
        HolderRequest::By(Holder(holder), Request::Allocate(size, order)),
    )
}

// The holder takes the bytes from `start`, widened to multiples of 2^order.
pub fn cinghjalofa_holders_reserve_memory(
    image: &mut [u8],
    holder: u64,
    start: u64,
    size: u64,
    order: u64,
) -> i64
    ensures { returned result (is image) ≡ call_over_lem current (By holder (Reserve start size order)) (was image) }
{
    serve_over(
        image,
        HolderRequest::By(
            Holder(holder),
            Request::Reserve(Address(start), size, order),
        ),
    )
}

// The holder hands back `size` bytes from `start`, exactly as they were handed out.
pub fn cinghjalofa_holders_free(image: &mut [u8], holder: u64, start: u64, size: u64) -> i64
    ensures { returned result (is image) ≡ call_over_lem current (By holder (Free start size)) (was image) }
{
    serve_over(
        image,
        HolderRequest::By(Holder(holder), Request::Free(Address(start), size)),
    )
}
