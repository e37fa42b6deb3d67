// A call as code has it: the request, the answer, what stands beside an answer, and the numbers that stand for one.
#![tactic(auto)]

ghost use Rattle.std.specs.Prelude.{◌≡◌, ◌<◌};
ghost use Rattle.rules.specs.Rules.{top};
ghost use Rattle.calls.specs.Calls.{number_of, address_of, signed_of};

use pool_state::{Address, MemoryAllocator};

// One of the three calls: start, size and order, as far as it has them.
#[derive(Clone, Copy)]
pub enum Request {
    Allocate(u64, u64),
    Reserve(Address, u64, u64),
    Free(Address, u64),
}

// A refusal, by its number.
// In MiniVisor: MemoryError.
#[derive(Clone, Copy, Debug, PartialEq, Eq)]
pub enum MemoryError {
    NoEntry = 1,
    InvalidEntry = 2,
    NoMemory = 3,
    InvalidRequest = 4,
}

// The address of what was allocated, and 0 after any other call that is accepted; or the refusal.
pub type Answer = Result<Address, MemoryError>;

// A number that is told, or the refusal.
pub type Counted = Result<u64, MemoryError>;

// An answer beside the state that the call leaves.
#[derive(Clone, Copy)]
pub struct Outcome {
    pub answer: Answer,
    pub state: MemoryAllocator,
}

// Two refusals as signed numbers.
pub const INVALID_ENTRY: i64 = -2;

pub const INVALID_REQUEST: i64 = -4;

pub fn number_of(answer: Answer) -> u64
    ensures { result ≡ number_of answer }
{
    match answer {
        Ok(_) => 0,
        Err(error) => error as u64,
    }
}

pub fn address_of(answer: Answer) -> u64
    ensures { result ≡ address_of answer }
{
    match answer {
        Ok(address) => address.0,
        Err(_) => 0,
    }
}

// The address, or minus the number of the refusal.
pub fn signed_number(answer: Answer) -> i64
    requires { address_of answer < top }
    ensures { result ≡ signed_of answer }
{
    match answer {
        Ok(address) => address.0 as i64,
        Err(MemoryError::NoEntry) => -1,
        Err(MemoryError::InvalidEntry) => INVALID_ENTRY,
        Err(MemoryError::NoMemory) => -3,
        Err(MemoryError::InvalidRequest) => INVALID_REQUEST,
    }
}
