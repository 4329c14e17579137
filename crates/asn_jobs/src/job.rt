//! Jobs: what is to be done with an input, and how it ended.
ghost use Rattle.std.specs.Prelude.{◌≡◌};
ghost use Rattle.asn_jobs.specs.declared.job.RunFault.{RunFault};

use std::alloc::{AllocError, AllocFailed};
use thiserror::Error;

/// A set of encoding rules.
#[derive(Clone, Copy, PartialEq, Eq, Drop)]
pub enum RuleName {
    /// CANONICAL-PER UNALIGNED (X.691).
    Per,
    /// Canonical OER (X.696).
    Oer,
}

/// What is made of each line.
#[derive(Clone, Copy, PartialEq, Eq, Drop)]
pub enum Order {
    /// Octets become the JSON of their value.
    Show,
    /// Octets are an encoding: how many they are.
    Check,
    /// JSON becomes the octets of its value.
    Encode,
    /// Octets become those of the same value in the other rules.
    Convert,
    /// Octets of a sender whose type has more or fewer extension additions become the JSON of what is read of them, and
    /// the fields that are skipped.
    Newer,
}

/// What is to be done.
#[derive(Drop)]
pub enum Job {
    /// The module is printed.
    Module,
    /// Each line is answered, for the type of this name.
    Lines {
        /// What is made of a line.
        order: Order,
        /// The name of the type in the module.
        type_name: String,
        /// The rules of the octets that are read, or written of JSON. `Convert` writes the other.
        rules: RuleName,
    },
}

/// How a job ended.
#[derive(Clone, Copy, PartialEq, Eq, Drop)]
pub enum Status {
    /// Each line was answered well.
    Good,
    /// At least one line was refused.
    Marked,
    /// The module was refused, or it has no type of the name.
    NoModule,
}

/// Why a job was not done to its end.
#[derive(Clone, Copy, Debug, PartialEq, Eq, Error, Drop)]
pub enum RunFault {
    /// The input could not be read. `run` has written nothing then; `run_on_lines` the answers to
    /// the lines before.
    #[error("read failed")]
    Read = 1,
    /// The output could not be written.
    #[error("write failed")]
    Write = 2,
    /// An allocation failed.
    #[error("memory")]
    Memory = 3,
}

impl From<AllocError> for RunFault {
    ghost from_gives = { λ _ fault. fault ≡ RunFault.Memory };

    fn from(_: AllocError) -> RunFault {
        RunFault::Memory
    }
}

impl<T: Drop> From<AllocFailed<T>> for RunFault {
    ghost from_gives = { λ _ fault. fault ≡ RunFault.Memory };

    fn from(_: AllocFailed<T>) -> RunFault {
        RunFault::Memory
    }
}
