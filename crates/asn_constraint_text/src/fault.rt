//! Why a text has no constraint of a type, and why a constraint is not put together.
ghost use Rattle.std.specs.Prelude.{◌≡◌};
ghost use Rattle.asn_constraint_text.specs.declared.fault.ConstrainedFault.TheVariants.{Memory};

use asn_module::ModuleFault;
use std::alloc::{AllocError, AllocFailed};
use thiserror::Error;

/// Why a text is no constraint of a type. `at` is an octet of the text, counted from 0.
#[derive(Clone, Copy, Debug, PartialEq, Eq, Error)]
pub enum ConstraintTextFault {
    /// Something else was expected there, as an item of the type where another name is.
    #[error("at {at}: {expected} expected")]
    Expected { at: usize, expected: &'static str },
    /// More constraints inside one another than `MOST_LEVELS`.
    #[error("at {at}: too many constraints inside one another")]
    TooDeep { at: usize },
    /// An allocation failed.
    #[error("memory")]
    Memory,
}

/// Why a text is no module with constraints.
#[derive(Debug, Drop, Error)]
pub enum ConstrainedFault {
    /// It is no module.
    #[error("{0}")]
    Module(ModuleFault),
    /// A line of a constraint, counted from 1, is none. The fault counts octets in the line.
    #[error("line {line}: {fault}")]
    Line {
        line: usize,
        fault: ConstraintTextFault,
    },
    /// An allocation failed.
    #[error("memory")]
    Memory,
}

/// Why the constraint of a name is not put together.
#[derive(Clone, Copy, Debug, PartialEq, Eq, Error)]
pub enum WholeFault {
    /// It has more parts than `MOST_PARTS`, or more than `MOST_LEVELS` names that refer one to the next have one.
    #[error("constraint too large")]
    TooLarge,
    /// An allocation failed.
    #[error("memory")]
    Memory,
}

impl From<AllocError> for ConstraintTextFault {
    fn from(_e: AllocError) -> ConstraintTextFault {
        ConstraintTextFault::Memory
    }
}

impl<T: Drop> From<AllocFailed<T>> for ConstraintTextFault {
    fn from(_e: AllocFailed<T>) -> ConstraintTextFault {
        ConstraintTextFault::Memory
    }
}

impl From<AllocError> for ConstrainedFault {
    ghost from_gives = { λ _ e. e ≡ Memory };

    fn from(_e: AllocError) -> ConstrainedFault {
        ConstrainedFault::Memory
    }
}

impl<T: Drop> From<AllocFailed<T>> for ConstrainedFault {
    ghost from_gives = { λ _ e. e ≡ Memory };

    fn from(_e: AllocFailed<T>) -> ConstrainedFault {
        ConstrainedFault::Memory
    }
}

impl From<AllocError> for WholeFault {
    fn from(_e: AllocError) -> WholeFault {
        WholeFault::Memory
    }
}

impl<T: Drop> From<AllocFailed<T>> for WholeFault {
    fn from(_e: AllocFailed<T>) -> WholeFault {
        WholeFault::Memory
    }
}
