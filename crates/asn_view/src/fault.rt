//! Why no value is built.
ghost use Rattle.std.specs.Prelude.{◌≡◌};
ghost use Rattle.asn_view.specs.declared.fault.BuildFault.{BuildFault};

use std::alloc::{AllocError, AllocFailed};
use thiserror::Error;

/// Why no value of a type is built of what is given.
#[derive(Debug, PartialEq, Eq, Error, Drop)]
pub enum BuildFault {
    /// The type has no component, alternative or item of this name, or the name is given twice.
    #[error("no `{name}` in the type")]
    NoSuch { name: String },
    /// Nothing is given for the component of this name, which is neither OPTIONAL nor has a DEFAULT.
    #[error("nothing is given for `{name}`")]
    Missing { name: String },
    /// A text is given for a type that is neither a character string nor an ENUMERATED, or an item,
    /// an alternative, elements or an empty list of components for a type of another kind. Of
    /// components that have names the first is `NoSuch` there.
    #[error("the type is of another kind")]
    OtherKind,
    /// An allocation failed.
    #[error("memory")]
    Memory,
}

impl From<AllocError> for BuildFault {
    ghost from_gives = { λ _ fault. fault ≡ BuildFault.Memory };

    fn from(_: AllocError) -> BuildFault {
        BuildFault::Memory
    }
}

impl<T: Drop> From<AllocFailed<T>> for BuildFault {
    ghost from_gives = { λ _ fault. fault ≡ BuildFault.Memory };

    fn from(_: AllocFailed<T>) -> BuildFault {
        BuildFault::Memory
    }
}
