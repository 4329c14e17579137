//! Why something is not counted.
ghost use Rattle.std.specs.Prelude.{◌≡◌};
ghost use Rattle.asn_jobs.specs.declared.fault.CountFault.TheVariants as count_fault;

use std::alloc::{AllocError, AllocFailed};
use thiserror::Error;

/// Why something is not counted.
#[derive(Clone, Copy, Debug, PartialEq, Eq, Error)]
pub enum CountFault {
    /// A count would be more than 2^64 - 1.
    #[error("too many")]
    Full = 1,
    /// An allocation failed.
    #[error("memory")]
    Memory = 2,
}

impl From<AllocError> for CountFault {
    ghost from_gives = { λ _ e. e ≡ count_fault.Memory };

    fn from(_: AllocError) -> CountFault {
        CountFault::Memory
    }
}

impl<T: Drop> From<AllocFailed<T>> for CountFault {
    ghost from_gives = { λ _ e. e ≡ count_fault.Memory };

    fn from(_: AllocFailed<T>) -> CountFault {
        CountFault::Memory
    }
}
