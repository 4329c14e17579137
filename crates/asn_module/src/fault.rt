//! Why a module is refused.

ghost use Rattle.std.specs.Prelude.{◌≡◌};
ghost use Rattle.asn_module.specs.declared.fault.Refusal.TheVariants.{Memory};

use asn_values::TypeFault;
use std::alloc::{AllocError, AllocFailed};
use thiserror::Error;

/// Why a text is no module of the profile. `at` is an octet of the text, counted from 0.
#[derive(Debug, Drop, Error)]
pub enum ModuleFault {
    /// A character that begins no token.
    #[error("character at {at}")]
    Character { at: usize },
    /// A token with which no module can go on, or the end of the text.
    #[error("unexpected at {at}")]
    Unexpected { at: usize },
    /// A reference to a name that is not assigned.
    #[error("unknown {name}")]
    Unknown { name: String },
    /// An assignment whose references lead back to itself.
    #[error("cycle {name}")]
    Cycle { name: String },
    /// A name that is assigned twice.
    #[error("twice {name}")]
    Twice { name: String },
    /// An assignment whose type is none of the profile.
    #[error("type {name}: {fault}")]
    BadType { name: String, fault: TypeFault },
    /// A reserved word that the profile does not use, a number outside the integers of the profile, or a
    /// constraint that may not stand on the type that a name stands for.
    #[error("out of profile at {at}")]
    OutOfProfile { at: usize },
    /// The module is larger than `read` reads: `size` as `read_within` counts it, as far as the types are built, and `name`
    /// is that with whose type it passes `most`.
    #[error("at {name} its types come to {size}, more than {most}, references followed")]
    TooLarge { most: u32, size: u64, name: String },
    /// An allocation failed.
    #[error("memory")]
    Memory,
}

impl From<AllocError> for ModuleFault {
    fn from(_e: AllocError) -> ModuleFault {
        ModuleFault::Memory
    }
}

impl<T: Drop> From<AllocFailed<T>> for ModuleFault {
    fn from(_e: AllocFailed<T>) -> ModuleFault {
        ModuleFault::Memory
    }
}

impl From<Refusal> for ModuleFault {
    fn from(_e: Refusal) -> ModuleFault {
        ModuleFault::Memory
    }
}

/// Why a text is not read within a bound.
#[derive(Debug, Drop, Error)]
pub enum BoundFault {
    /// The module is larger than was allowed. `name` is that with whose type it is, in the order in which types are built:
    /// each after those that it refers to.
    #[error("larger than {most} at {name}")]
    TooLarge { most: u32, name: String },
    /// The text is no module, or an allocation failed.
    #[error("{0}")]
    Module(ModuleFault),
}

/// Why a type was not built.
#[derive(Drop)]
pub(crate) enum Refusal {
    /// An allocation failed.
    Memory,
    /// With the type of this name, those that are built are larger together than was allowed: of this size.
    TooLarge { name: String, size: u64 },
    /// It refers to a name that has no type, or none yet.
    Missing,
    /// A constraint may not stand on the type that a name stands for; `left` is the number of octets of
    /// the text from the constraint on.
    Constraint { left: usize },
}

impl From<AllocError> for Refusal {
    ghost from_gives = { λ _ e. e ≡ Memory };

    fn from(_e: AllocError) -> Refusal {
        Refusal::Memory
    }
}

impl<T: Drop> From<AllocFailed<T>> for Refusal {
    ghost from_gives = { λ _ e. e ≡ Memory };

    fn from(_e: AllocFailed<T>) -> Refusal {
        Refusal::Memory
    }
}
