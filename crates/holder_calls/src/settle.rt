// What the register makes of the allocator's answer: nothing of it has been written, so a refusal has nothing to undo.
ghost use Rattle.std.specs.Prelude.{not, List, [], ℕ, T};
ghost use Rattle.rules.specs.Rules.{frees, Free};
ghost use Rattle.calls.specs.Calls.{call_of};
ghost use Rattle.image_parts.specs.Layout.{current};
ghost use Rattle.c_over.specs.Images.{images};
ghost use Rattle.pool_state.specs.Lent.{was, is};
ghost use Rattle.holder_rules.specs.Holders.{offer, give_back_lem, take, step, By, below};
ghost use Rattle.holder_serve.specs.Made.{requested};
ghost use Rattle.holder_image.specs.Bytes.{holding_in};
ghost use Rattle.holder_calls.specs.Calls.{Asks, Settles};

use calls::INVALID_REQUEST;
use holder_entries::{find_handed, find_unused, meets_held, unused_entry};
use holder_image::entries::put_entry;
use holder_rules::{Holder, Register};
use holder_serve::{HolderRequest, piece_of};
use memory_allocator::Request;
use pool_state::Address;

const NOT_YOURS: i64 = -5;

const REGISTER_FULL: i64 = -6;

// The board offers bytes: the register stays as it is.
fn settle_offer(register: &Register, answer: i64, address: Address, size: u64) -> i64
    ensures { (l : List ℕ) → Asks current (Free address.0 size) l register.now.entries answer → Settles current (Free address.0 size) (offer (images current []) address.0 size (holding_in l)) l answer result l }
{
    if answer == INVALID_REQUEST {
        return answer;
    }
    if meets_held(register, 0, address, size) {
        return NOT_YOURS;
    }
    answer
}

// A holder hands a range back.
fn settle_free(
    image: &mut [u8],
    register: &Register,
    answer: i64,
    holder: Holder,
    address: Address,
    size: u64,
) -> i64
    requires { Asks current (Free address.0 size) image.old register.now.entries answer }
    ensures { Settles current (Free address.0 size) (give_back_lem (images current []) holder.0 address.0 size (holding_in (was image))) (was image) answer result (is image) }
{
    if answer == INVALID_REQUEST {
        return answer;
    }
    let Some(i) = find_handed(register, holder, address, size) else {
        return NOT_YOURS;
    };
    if answer < 0 {
        return answer;
    }
    put_entry(image, i, unused_entry());
    answer
}

// A holder takes what an allocate or a reserve hands out.
fn settle_take(
    image: &mut [u8],
    register: &Register,
    answer: i64,
    holder: Holder,
    request: Request,
) -> i64
    requires { Asks current (call_of request) image.old register.now.entries answer × T (not (frees (call_of request))) }
    ensures { Settles current (call_of request) (take (images current []) holder.0 (call_of request) (holding_in (was image))) (was image) answer result (is image) }
{
    if answer < 0 {
        return answer;
    }
    let Some(i) = find_unused(register) else {
        return REGISTER_FULL;
    };
    let entry = piece_of(holder, request, answer as u64);
    put_entry(image, i, entry);
    answer
}

// A call of this holder.
fn settle_by(
    image: &mut [u8],
    register: &Register,
    answer: i64,
    holder: Holder,
    request: Request,
) -> i64
    requires { Asks current (call_of request) image.old register.now.entries answer }
    ensures { Settles current (call_of request) (step (images current []) (By holder.0 (call_of request)) (holding_in (was image))) (was image) answer result (is image) }
{
    if !holder.is_known() {
        return INVALID_REQUEST;
    }
    match request {
        Request::Free(address, size) => settle_free(image, register, answer, holder, address, size),
        Request::Allocate(..) | Request::Reserve(..) => settle_take(
            image, register, answer, holder, request,
        ),
    }
}

// A call of the board or of a holder.
pub fn settle(image: &mut [u8], register: &Register, answer: i64, request: HolderRequest) -> i64
    requires { Asks current (below (requested request)) image.old register.now.entries answer }
    ensures { Settles current (below (requested request)) (step (images current []) (requested request) (holding_in (was image))) (was image) answer result (is image) }
{
    match request {
        HolderRequest::Offer(address, size) => settle_offer(register, answer, address, size),
        HolderRequest::By(holder, call) => settle_by(image, register, answer, holder, call),
    }
}
