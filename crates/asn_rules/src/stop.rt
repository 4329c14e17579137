//! Why a reader of units gave no value.

ghost use Rattle.std.specs.Prelude.{◌≡◌};
ghost use Rattle.asn_rules.specs.declared.stop.Stop.TheVariants.{Memory};

use crate::fault::Why;
use std::alloc::{AllocError, AllocFailed};

/// Why a reader of units gave no value.
#[derive(Clone, Copy, PartialEq, Eq)]
pub enum Stop {
    /// No encoding starts so; `left` units follow the first offending one.
    Refused { left: u128, why: Why },
    /// The units end before an encoding does.
    Short,
    /// An allocation failed.
    Memory,
}

impl From<AllocError> for Stop {
    ghost from_gives = { λ _ e. e ≡ Memory };

    fn from(_: AllocError) -> Stop {
        Stop::Memory
    }
}

impl<T: Drop> From<AllocFailed<T>> for Stop {
    ghost from_gives = { λ _ e. e ≡ Memory };

    fn from(_: AllocFailed<T>) -> Stop {
        Stop::Memory
    }
}
