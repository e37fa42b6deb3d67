// The calls of the board and of the holders on a state by value. The allocator is asked as it is, before the register is looked at.
#![tactic(auto)]

mod pieces;

ghost use Rattle.std.specs.Prelude.{true, not, ◌≡◌, T, eqb};
ghost use Rattle.rules.specs.Rules.{frees};
ghost use Rattle.memory_allocator.specs.Names as allocator;
ghost use Rattle.memory_allocator.specs.Names.{pool, call_of};
ghost use Rattle.memory_allocator.specs.States.{states};
ghost use Rattle.holder_rules.specs.Holders.{both, accepted, unless_refused, offer, give_back_lem, take, step, By};
ghost use Rattle.holder_rules.specs.States.{holding_of, is_sound_lem};
ghost use Rattle.holder_serve.specs.Made.{requested, held, made};
ghost use Rattle.holder_serve.specs.declared.HolderError.TheVariants.{Memory};

use core_serve::serve_sound;
use holder_check::is_sound;
use holder_entries::{find_handed, find_unused, meets_held, unused_entry, with_entry};
use holder_rules::{Holder, HolderAllocator, Register};
use memory_allocator::{Answer, MemoryError, Outcome, Request};
pub use pieces::piece_of;
use pool_state::Address;

// The allocator's refusal; not yours; the register is full.
#[derive(Clone, Copy, Debug, PartialEq, Eq)]
pub enum HolderError {
    Memory(MemoryError),
    NotYours,
    RegisterFull,
}

impl From<MemoryError> for HolderError {
    ghost from_gives = { λ e k. k ≡ Memory e };

    fn from(error: MemoryError) -> HolderError {
        HolderError::Memory(error)
    }
}

pub type HolderAnswer = Result<Address, HolderError>;

#[derive(Clone, Copy)]
pub struct HolderOutcome {
    pub answer: HolderAnswer,
    pub state: HolderAllocator,
}

// The board's offer, or a holder's call.
#[derive(Clone, Copy)]
pub enum HolderRequest {
    Offer(Address, u64),
    By(Holder, Request),
}

// The allocator's answer: its refusal leaves the state as it was; accepted, its next state stands below this register.
fn follow(s: HolderAllocator, served: Outcome, register: Register) -> HolderOutcome
    ensures { result ≡ held (unless_refused (allocator.number_of served.answer) (holding_of s) (accepted (allocator.address_of served.answer) (both served.state register.entries))) }
{
    match served.answer {
        Ok(address) => HolderOutcome {
            answer: Ok(address),
            state: HolderAllocator {
                memory: served.state,
                register: register,
            },
        },
        Err(error) => HolderOutcome {
            answer: Err(error.into()),
            state: s,
        },
    }
}

// A request that no register could make good is refused before the register is looked at.
fn is_invalid_request(answer: Answer) -> bool
    ensures { result ≡ eqb (allocator.number_of answer) 4 }
{
    matches!(answer, Err(MemoryError::InvalidRequest))
}

// The board offers bytes.
fn offer_sound(s: HolderAllocator, address: Address, size: u64) -> HolderOutcome
    requires { is_sound_lem pool s ≡ true }
    ensures { result ≡ held (offer (states pool) address.0 size (holding_of s)) }
{
    let memory = s.memory;
    let register = s.register;
    let served = serve_sound(memory, Request::Free(address, size));
    if is_invalid_request(served.answer) {
        return HolderOutcome {
            answer: Err(HolderError::Memory(MemoryError::InvalidRequest)),
            state: s,
        };
    }
    if meets_held(&register, 0, address, size) {
        return HolderOutcome {
            answer: Err(HolderError::NotYours),
            state: s,
        };
    }
    follow(s, served, register)
}

// A holder hands a range back.
fn give_back(s: HolderAllocator, holder: Holder, address: Address, size: u64) -> HolderOutcome
    requires { is_sound_lem pool s ≡ true }
    ensures { result ≡ held (give_back_lem (states pool) holder.0 address.0 size (holding_of s)) }
{
    let memory = s.memory;
    let register = s.register;
    let served = serve_sound(memory, Request::Free(address, size));
    if is_invalid_request(served.answer) {
        return HolderOutcome {
            answer: Err(HolderError::Memory(MemoryError::InvalidRequest)),
            state: s,
        };
    }
    let Some(i) = find_handed(&register, holder, address, size) else {
        return HolderOutcome {
            answer: Err(HolderError::NotYours),
            state: s,
        };
    };
    let next = with_entry(register, i, unused_entry());
    follow(s, served, next)
}

// A holder takes what an allocate or a reserve hands out. By value nothing has to be undone where no entry is left.
fn take_sound(s: HolderAllocator, holder: Holder, request: Request) -> HolderOutcome
    requires { (is_sound_lem pool s ≡ true) × T (not (frees (call_of request))) }
    ensures { result ≡ held (take (states pool) holder.0 (call_of request) (holding_of s)) }
{
    let memory = s.memory;
    let register = s.register;
    let served = serve_sound(memory, request);
    let address = match served.answer {
        Ok(address) => address,
        Err(error) => {
            return HolderOutcome {
                answer: Err(error.into()),
                state: s,
            };
        }
    };
    let Some(i) = find_unused(&register) else {
        return HolderOutcome {
            answer: Err(HolderError::RegisterFull),
            state: s,
        };
    };
    let entry = piece_of(holder, request, address.0);
    let next = with_entry(register, i, entry);
    follow(s, served, next)
}

// A call of this holder.
fn serve_by(s: HolderAllocator, holder: Holder, request: Request) -> HolderOutcome
    requires { is_sound_lem pool s ≡ true }
    ensures { result ≡ held (step (states pool) (By holder.0 (call_of request)) (holding_of s)) }
{
    if !holder.is_known() {
        return HolderOutcome {
            answer: Err(HolderError::Memory(MemoryError::InvalidRequest)),
            state: s,
        };
    }
    match request {
        Request::Free(address, size) => give_back(s, holder, address, size),
        Request::Allocate(..) | Request::Reserve(..) => take_sound(s, holder, request),
    }
}

// A request of a state that is known to be sound: nothing is checked again.
pub fn serve_holder_sound(s: HolderAllocator, request: HolderRequest) -> HolderOutcome
    requires { is_sound_lem pool s ≡ true }
    ensures { result ≡ made pool s (requested request) }
{
    match request {
        HolderRequest::Offer(address, size) => offer_sound(s, address, size),
        HolderRequest::By(holder, call) => serve_by(s, holder, call),
    }
}

// A request of any state.
pub fn serve_holder(s: HolderAllocator, request: HolderRequest) -> HolderOutcome
    ensures { result ≡ made pool s (requested request) }
{
    if is_sound(s) {
        return serve_holder_sound(s, request);
    }
    HolderOutcome {
        answer: Err(HolderError::Memory(MemoryError::InvalidEntry)),
        state: s,
    }
}
