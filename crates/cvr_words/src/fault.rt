ghost use Rattle.std.specs.Prelude.{◌≡◌};
ghost use Rattle.cvr_words.specs.Fault.{word_fault};
ghost use Rattle.cvr_words.specs.declared.fault.LoggedFault.TheVariants.{Memory as NoMemory};

use cdf_types::{Body, Memory};
use std::alloc::AllocError;
use thiserror::Error;

/// Why words give no request.
#[derive(Debug, Drop, Error)]
pub enum WordFault {
    /// No command takes the words. The text says what is wrong with them.
    #[error("{text}")]
    Refused { text: String },
    /// The words ask for help. The text is the help.
    #[error("{text}")]
    Help { text: String },
    /// The step at the place, from 0, has no form of a step.
    #[error("step {place} has no form of a step")]
    BadStep { place: usize },
    /// Out of memory; it stands in place of any other answer.
    #[error("out of memory")]
    Memory,
}

/// The same, with all that is logged of it.
#[derive(Debug, Drop, Error)]
pub enum LoggedFault {
    /// No command takes the words. The text says what is wrong with them.
    #[error("{text}")]
    Refused { text: String },
    /// The words ask for help. The text is the help.
    #[error("{text}")]
    Help { text: String },
    /// The step at the place, from 0, has no form of a step. It is as given.
    #[error("step {place} has no form of a step")]
    BadStep { place: usize, step: Body },
    /// Out of memory; it stands in place of any other answer.
    #[error("out of memory")]
    Memory,
}

impl LoggedFault {
    /// The fault without the text of a step. Takes no memory.
    pub fn into_word_fault(self) -> WordFault
        ensures { result ≡ word_fault self }
    {
        match self {
            LoggedFault::Refused { text } => WordFault::Refused { text },
            LoggedFault::Help { text } => WordFault::Help { text },
            LoggedFault::BadStep { place, .. } => WordFault::BadStep { place },
            LoggedFault::Memory => WordFault::Memory,
        }
    }
}

impl From<AllocError> for LoggedFault {
    ghost from_gives = { λ _ f. f ≡ NoMemory };

    fn from(_refused: AllocError) -> LoggedFault {
        LoggedFault::Memory
    }
}

impl From<Memory> for LoggedFault {
    ghost from_gives = { λ _ f. f ≡ NoMemory };

    fn from(_refused: Memory) -> LoggedFault {
        LoggedFault::Memory
    }
}
