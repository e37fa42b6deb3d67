// A call of the register on the state that an image holds, read once into the fields of the account and the register.
ghost use Rattle.std.specs.Prelude.{[], ◌≡◌};
ghost use Rattle.pool_state.specs.Shown.{pool};
ghost use Rattle.pool_state.specs.Lent.{was, is};
ghost use Rattle.calls.specs.Calls.{call_of};
ghost use Rattle.batch.specs.Lists.{SoundIn};
ghost use Rattle.image_parts.specs.Layout.{current};
ghost use Rattle.c_over.specs.CCalls.{returned};
ghost use Rattle.c_over.specs.Images.{images};
ghost use Rattle.holder_rules.specs.Holders.{below, step};
ghost use Rattle.holder_serve.specs.Made.{requested};
ghost use Rattle.holder_image.specs.Bytes.{holding_in};
ghost use Rattle.holder_calls.specs.Calls.{Serves, finished, call_over_lem};
ghost use Rattle.holder_calls.specs.Fields.{AnsweredIn, HeldIn};

use crate::settle::settle;
use account_state::noted;
use call_serve::serve_in;
use calls::{INVALID_ENTRY, signed_number};
use holder_arrays::is_register_sound_in;
use holder_entries::unused_entry;
use holder_image::entries::fill_register;
use holder_image::head::is_headed;
use holder_image::layout::MEMORY;
use holder_rules::{ENTRIES, Register};
use holder_serve::HolderRequest;
use image_reading::read_current;
use image_writing::write_fields;
use memory_allocator::Request;
use pool_state::{LISTS, POOL, RecordIndex, new};

// The allocator's call in it.
fn asked_below(request: HolderRequest) -> Request
    ensures { call_of result ≡ below (requested request) }
{
    match request {
        HolderRequest::Offer(address, size) => Request::Free(address, size),
        HolderRequest::By(_, call) => call,
    }
}

// A request on the fields of a sound account.
fn answer_in(
    lowest: &mut u64,
    total: &mut u64,
    first: &mut u16,
    heads: &mut [u16; LISTS],
    start: &mut [u64; POOL],
    end: &mut [u64; POOL],
    enabled: &mut [bool; POOL],
    previous: &mut [u16; POOL],
    next: &mut [u16; POOL],
    lprev: &mut [u16; POOL],
    lnext: &mut [u16; POOL],
    request: Request,
) -> i64
    requires { SoundIn pool lowest total first heads start end enabled previous next lprev lnext }
    ensures { AnsweredIn pool (call_of request) result lowest total first heads start end enabled previous next lprev lnext }
{
    let answer = serve_in(
        total, first, heads, start, end, enabled, previous, next, lprev, lnext, request,
    );
    *lowest = noted(answer, *total, *lowest);
    signed_number(answer)
}

// A call on the fields of the account and the register whose image this is.
fn serve_held(
    image: &mut [u8],
    register: &Register,
    lowest: &mut u64,
    total: &mut u64,
    first: &mut u16,
    heads: &mut [u16; LISTS],
    start: &mut [u64; POOL],
    end: &mut [u64; POOL],
    enabled: &mut [bool; POOL],
    previous: &mut [u16; POOL],
    next: &mut [u16; POOL],
    lprev: &mut [u16; POOL],
    lnext: &mut [u16; POOL],
    request: HolderRequest,
) -> i64
    requires held_in { HeldIn current image lowest total first heads start end enabled previous next lprev lnext }
    requires serves { Serves current image.old register.now.entries }
    ensures { returned result (is image) ≡ finished current (step (images current []) (requested request) (holding_in (was image))) (was image) }
{
    let call = asked_below(request);
    let answer = answer_in(
        lowest, total, first, heads, start, end, enabled, previous, next, lprev, lnext, call,
    );
    let settled = settle(image, register, answer, request);
    if settled < 0 {
        return settled;
    }
    write_fields(
        &mut image[MEMORY..],
        false,
        *lowest,
        *total,
        RecordIndex(*first),
        heads,
        start,
        end,
        enabled,
        previous,
        next,
        lprev,
        lnext,
    );
    settled
}

// A local state, the figure beside it and the register are the whole of it: what reads, checks, serves and writes is lent them.
pub fn serve_over(image: &mut [u8], request: HolderRequest) -> i64
    ensures { returned result (is image) ≡ call_over_lem current (requested request) (was image) }
{
    if is_headed(&image[..]) {
        let mut lowest = 0;
        let mut ranges = new();
        let readable = read_current(
            &image[MEMORY..],
            &mut lowest,
            &mut ranges.free_size,
            &mut ranges.first_entry.0,
            &mut ranges.free_list,
            &mut ranges.start,
            &mut ranges.end,
            &mut ranges.enabled,
            &mut ranges.previous,
            &mut ranges.next,
            &mut ranges.list_prev,
            &mut ranges.list_next,
        );
        if readable {
            let mut register = Register {
                entries: [unused_entry(); ENTRIES],
            };
            fill_register(&image[..], &mut register);
            if is_register_sound_in(
                &register,
                &ranges.start,
                &ranges.end,
                &ranges.next,
                ranges.first_entry,
            ) {
                return serve_held(
                    image,
                    &register,
                    &mut lowest,
                    &mut ranges.free_size,
                    &mut ranges.first_entry.0,
                    &mut ranges.free_list,
                    &mut ranges.start,
                    &mut ranges.end,
                    &mut ranges.enabled,
                    &mut ranges.previous,
                    &mut ranges.next,
                    &mut ranges.list_prev,
                    &mut ranges.list_next,
                    request,
                );
            }
        }
    }
    INVALID_ENTRY
}
