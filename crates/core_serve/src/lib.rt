// The three calls on a state by value, as one.
#![tactic(auto)]

ghost use Rattle.std.specs.Prelude.{true, ◌≡◌};
ghost use Rattle.pool_state.specs.Shown.{pool};
ghost use Rattle.check_state.specs.IsSound.{is_sound_lem};
ghost use Rattle.calls.specs.Calls.{call_of};
ghost use Rattle.core_serve.specs.Made.{made};

use call_serve::serve_fields;
use calls::{MemoryError, Outcome, Request};
use check_state::is_sound;
use pool_state::{MemoryAllocator, fields_of};

// A request of a state that is known to be sound: nothing is checked again.
pub fn serve_sound(s: MemoryAllocator, request: Request) -> Outcome
    requires { is_sound_lem pool s ≡ true }
    ensures { result ≡ made pool s (call_of request) }
{
    let mut state = s;
    let mut f = fields_of!(state);
    let answer = serve_fields(&mut f, request);
    Outcome {
        answer: answer,
        state: state,
    }
}

// A request of any state.
pub fn serve(s: MemoryAllocator, request: Request) -> Outcome
    ensures { result ≡ made pool s (call_of request) }
{
    if is_sound(s) {
        return serve_sound(s, request);
    }
    Outcome {
        answer: Err(MemoryError::InvalidEntry),
        state: s,
    }
}
