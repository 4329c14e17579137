//! Why a reader of messages of newer and older senders gave no value.
ghost use Rattle.std.specs.Prelude.{◌≡◌};
ghost use Rattle.asn_newer.specs.Halting.{halt_of, halt_before_end, halt_of_field};
ghost use Rattle.asn_newer.specs.declared.halt.Halt.TheVariants.{Memory};

use asn_rules::internal::Stop;
use std::alloc::{AllocError, AllocFailed};

/// Why a reader gave no value.
#[derive(Clone, Copy, PartialEq, Eq)]
pub enum Halt {
    /// No message of any version begins so.
    Refused,
    /// The units end before a message does.
    Short,
    /// A count of extension additions past the profile, or an index or a tag.
    TooMany,
    /// An allocation failed.
    Memory,
}

impl From<Stop> for Halt {
    ghost from_gives = { λ s e. e ≡ halt_of s };

    fn from(stop: Stop) -> Halt {
        match stop {
            Stop::Refused { .. } => Halt::Refused,
            Stop::Short => Halt::Short,
            Stop::Memory => Halt::Memory,
        }
    }
}

impl From<AllocError> for Halt {
    ghost from_gives = { λ _ e. e ≡ Memory };

    fn from(_: AllocError) -> Halt {
        Halt::Memory
    }
}

impl<T: Drop> From<AllocFailed<T>> for Halt {
    ghost from_gives = { λ _ e. e ≡ Memory };

    fn from(_: AllocFailed<T>) -> Halt {
        Halt::Memory
    }
}

/// The fault of units that end before a part does, where its reader found `halt`, and more units could still make
/// another part of them: they are cut short, unless memory was wanting.
pub(crate) fn halt_before_end(halt: Halt) -> Halt
    ensures { result ≡ halt_before_end halt }
{
    match halt {
        Halt::Refused | Halt::Short | Halt::TooMany => Halt::Short,
        Halt::Memory => Halt::Memory,
    }
}

/// The answer for an open type field where the reader of its content answers this. Content that ends
/// early is refused, not cut short: its field is complete.
pub(crate) fn halt_of_field(halt: Halt) -> Halt
    ensures { result ≡ halt_of_field halt }
{
    match halt {
        Halt::Short => Halt::Refused,
        Halt::Refused | Halt::TooMany | Halt::Memory => halt,
    }
}
