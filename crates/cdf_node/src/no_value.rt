use json::Invalid;
use std::alloc::{AllocError, AllocFailed};

/// Why nothing was read.
#[derive(Clone, Copy, Debug, PartialEq, Eq, Drop)]
pub enum NoValue {
    /// Out of memory.
    Memory,
    /// There is no such value.
    Unread,
}

impl From<AllocError> for NoValue {
    ghost use Rattle.std.specs.Prelude.{◌≡◌};
    ghost use Rattle.cdf_node.specs.declared.no_value.NoValue.TheVariants.{Memory};

    ghost from_gives = { λ _ s. s ≡ Memory };

    fn from(_refused: AllocError) -> NoValue {
        NoValue::Memory
    }
}

impl<T: Drop> From<AllocFailed<T>> for NoValue {
    ghost use Rattle.std.specs.Prelude.{◌≡◌};
    ghost use Rattle.cdf_node.specs.declared.no_value.NoValue.TheVariants.{Memory};

    ghost from_gives = { λ _ s. s ≡ Memory };

    fn from(_refused: AllocFailed<T>) -> NoValue {
        NoValue::Memory
    }
}

impl From<Invalid> for NoValue {
    ghost use Rattle.std.specs.Prelude.{◌≡◌};
    ghost use Rattle.cdf_node.specs.declared.no_value.NoValue.TheVariants.{Unread};

    ghost from_gives = { λ _ s. s ≡ Unread };

    fn from(_invalid: Invalid) -> NoValue {
        NoValue::Unread
    }
}
