ghost use Rattle.std.specs.Prelude.{◌≡◌};
ghost use Rattle.cvr_call.specs.declared.fault.CallFault.TheVariants.{Memory as NoMemory};
ghost use Rattle.cvr_call.specs.Left.{fault_code};

use cvr_cli::Status;
use std::alloc::{AllocError, AllocFailed};

/// Why a call does nothing.
#[derive(Clone, Copy, Debug, PartialEq, Eq)]
pub enum CallFault {
    /// The input isn't words and files.
    Pieces,
    /// Out of memory.
    Memory,
}

// The status of a call whose input isn't words and files.
const NO_INPUT: u8 = 5;

impl CallFault {
    /// The status of the call. Takes no memory.
    pub fn code(&self) -> u8
        ensures { result ≡ fault_code self.now }
    {
        match self {
            CallFault::Pieces => NO_INPUT,
            CallFault::Memory => Status::Memory.code(),
        }
    }
}

impl From<AllocError> for CallFault {
    ghost from_gives = { λ _ e. e ≡ NoMemory };

    fn from(_refused: AllocError) -> CallFault {
        CallFault::Memory
    }
}

impl<T: Drop> From<AllocFailed<T>> for CallFault {
    ghost from_gives = { λ _ e. e ≡ NoMemory };

    fn from(_refused: AllocFailed<T>) -> CallFault {
        CallFault::Memory
    }
}
