// Any of the three calls, in place.
#![tactic(auto)]

ghost use Rattle.rules.specs.Rules.{step};
ghost use Rattle.pool_state.specs.Shown.{pool};
ghost use Rattle.pool_state.specs.Lent.{HoldsBook, HoldsSome, Keeps};
ghost use Rattle.calls.specs.Answers.{Follows, Obeys};
ghost use Rattle.calls.specs.Calls.{call_of};

use call_allocate::allocate_in;
use call_free::free_in;
use call_reserve::reserve_in;
use calls::{Answer, Request};
use pool_state::{Fields, LISTS, POOL};

// On the fields of a state, lent together.
pub fn serve_fields(f: &mut Fields<'_>, request: Request) -> Answer
    requires { HoldsBook pool f }
    ensures keeps { Keeps f }
    ensures does { Obeys pool (step pool (call_of request)) result f }
{
    match request {
        Request::Allocate(size, order) => allocate_in(f, size, order),
        Request::Reserve(address, size, order) => reserve_in(f, address, size, order),
        Request::Free(address, size) => free_in(f, address, size),
    }
}

// On fields that are lent one by one.
pub fn serve_in(
    total: &mut u64,
    first: &mut u16,
    heads: &mut [u16; LISTS],
    start: &mut [u64; POOL],
    end: &mut [u64; POOL],
    enabled: &mut [bool; POOL],
    previous: &mut [u16; POOL],
    next: &mut [u16; POOL],
    lprev: &mut [u16; POOL],
    lnext: &mut [u16; POOL],
    request: Request,
) -> Answer
    requires { HoldsSome pool total first heads start end enabled previous next lprev lnext }
    ensures { Follows pool (step pool (call_of request)) result total first heads start end enabled previous next lprev lnext }
{
    let mut f = Fields {
        free_size: total,
        first_entry: first,
        free_list: heads,
        start,
        end,
        enabled,
        previous,
        next,
        list_prev: lprev,
        list_next: lnext,
    };
    serve_fields(&mut f, request)
}
