ghost use Rattle.std.specs.Prelude.{◌≡◌, ◌≢◌, ◌+◌, ◌<◌, ◌^◌, OkIff};
ghost use Rattle.cdf_types.specs.declared.fault.ReadFault.TheVariants.{Memory as NoMemory};

use crate::body::Body;
use crate::rule::Rule;
use std::alloc::{AllocError, AllocFailed};
use thiserror::Error;

/// Out of memory: a growth was refused. Its field is private, so other files make none themselves.
#[derive(Clone, Copy, Debug, PartialEq, Eq, Error)]
#[error("out of memory")]
pub struct Memory(());

/// The sum of two counts, or out of memory where it is past 2^64 - 1: no memory holds so many
/// things. Takes no memory.
///
/// # Errors
/// `Memory` where the sum is past 2^64 - 1.
pub fn sum_or_memory(count: usize, more: usize) -> Result<usize, Memory>
    ensures { OkIff result (count + more < 2 ^ 64) (count + more) }
{
    count.checked_add(more).ok_or(Memory(()))
}

impl From<AllocError> for Memory {
    fn from(_refused: AllocError) -> Memory {
        Memory(())
    }
}

impl<T: Drop> From<AllocFailed<T>> for Memory {
    fn from(_refused: AllocFailed<T>) -> Memory {
        Memory(())
    }
}

impl From<Memory> for AllocError {
    fn from(_memory: Memory) -> AllocError {
        AllocError
    }
}

/// Why a file is refused: the first cause that applies, in the order of the variants, `NotWhole`
/// over the whole file before the other rules. A path is a JSON Pointer (RFC 6901).
#[derive(Debug, Drop, Error)]
pub enum ReadFault {
    /// The file has more than 67,108,864 bytes.
    #[error("longer than 67,108,864 bytes")]
    TooLong,
    /// The file is no JSON text.
    #[error("not JSON")]
    NotJson,
    /// The value at the path breaks a rule of form.
    #[error("rule {} broken at `{path}`", .rule.number())]
    Schema { path: Body, rule: Rule },
    /// The text at the path names nothing in the file.
    #[error("nothing has the id at `{path}`")]
    Reference { path: Body },
    /// The object at the path isn't the definition's.
    #[error("not the definition's object at `{path}`")]
    Disagrees { path: Body },
    /// Out of memory; it stands in place of any other answer.
    #[error("out of memory")]
    Memory,
}

impl ReadFault {
    /// The fault, but out of memory as `Memory`. Takes no memory.
    ///
    /// # Errors
    /// `Memory` where memory ran out.
    pub fn or_memory(self) -> Result<ReadFault, Memory>
        ensures { OkIff result (self ≢ NoMemory) self }
    {
        match self {
            ReadFault::Memory => Err(Memory(())),
            fault => Ok(fault),
        }
    }
}

impl From<AllocError> for ReadFault {
    ghost from_gives = { λ _ e. e ≡ NoMemory };

    fn from(_refused: AllocError) -> ReadFault {
        ReadFault::Memory
    }
}

impl From<Memory> for ReadFault {
    ghost from_gives = { λ _ e. e ≡ NoMemory };

    fn from(_refused: Memory) -> ReadFault {
        ReadFault::Memory
    }
}

impl<T: Drop> From<AllocFailed<T>> for ReadFault {
    ghost from_gives = { λ _ e. e ≡ NoMemory };

    fn from(_refused: AllocFailed<T>) -> ReadFault {
        ReadFault::Memory
    }
}
