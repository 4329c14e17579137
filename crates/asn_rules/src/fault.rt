//! Why a value is not encoded, and why octets are not decoded.

ghost use Rattle.std.specs.Prelude.{◌≡◌};
ghost use Rattle.asn_rules.specs.declared.fault.EncodeFault.TheVariants as encode;
ghost use Rattle.asn_rules.specs.declared.fault.DecodeFault.TheVariants as decode;
ghost use Rattle.asn_rules.specs.declared.fault.Unwritten.TheVariants as unwritten;
ghost use Rattle.asn_rules.specs.LengthFaults.{length_fault_into, length_fault_to};
ghost use Rattle.asn_rules.specs.Reasons.{word_of, reason_in_number, reason_in_count};

use std::alloc::{AllocError, AllocFailed};
use std::fmt;
use thiserror::Error;

/// What was being read where octets were refused.
#[derive(Clone, Copy, Debug, PartialEq, Eq)]
pub enum Why {
    /// The last unit of an open type field whose content is no encoding, or of a UTF8String that is
    /// no UTF-8.
    Sealed = 1,
    /// The value of a component with a DEFAULT.
    Default = 2,
    /// A length or a quantity.
    Length = 3,
    /// An extension bit, or the count of extension additions, their presence bits or, in OER, what fills these up.
    Extension = 4,
    /// A character of a string.
    Character = 5,
    /// The zeros that fill an octet; of a BIT STRING in OER also the octet that says how many there are.
    Padding = 6,
    /// Anything else.
    Number = 7,
}

impl Why {
    /// The reason in one word.
    pub fn word(self) -> &'static str
        ensures { result.now ≡ word_of self }
    {
        match self {
            Why::Sealed => "sealed",
            Why::Default => "default",
            Why::Length => "length",
            Why::Extension => "extension",
            Why::Character => "character",
            Why::Padding => "padding",
            Why::Number => "number",
        }
    }

    /// The reason of a refusal in a number: `left_out` says whether one is left out, the DEFAULT of a component.
    pub fn in_number(left_out: bool) -> Why
        ensures { result ≡ reason_in_number left_out }
    {
        if left_out { Why::Default } else { Why::Number }
    }

    /// The reason of a refusal in the count of octets before a number, likewise.
    pub fn in_count(left_out: bool) -> Why
        ensures { result ≡ reason_in_count left_out }
    {
        if left_out { Why::Default } else { Why::Length }
    }
}

impl fmt::Display for Why {
    ghost use Rattle.std.specs.Prelude.{Some};
    ghost use Rattle.asn_rules.specs.Reasons.{word_of};

    ghost output = { λ why. Some (word_of why) };

    fn fmt<W: fmt::Write>(&self, f: &mut fmt::Formatter<W>) -> fmt::Result {
        f.write_str(self.word())
    }
}

/// Why a value is not encoded.
#[derive(Clone, Copy, Debug, PartialEq, Eq, Error)]
pub enum EncodeFault {
    /// The value does not fit the type.
    #[error("not of type")]
    NotOfType = 1,
    /// The encoding would have more than 268,435,455 octets.
    #[error("too long")]
    TooLong = 2,
    /// An allocation failed.
    #[error("memory")]
    Memory = 3,
}

/// Why a value has no encoding whose octets could be counted.
#[derive(Clone, Copy, Debug, PartialEq, Eq, Error)]
pub enum LengthFault {
    /// The value does not fit the type.
    #[error("not of type")]
    NotOfType,
    /// The encoding would have more than 268,435,455 octets.
    #[error("too long")]
    TooLong,
}

/// Why a value is not encoded into octets that are there. They are as they were.
#[derive(Clone, Copy, Debug, PartialEq, Eq, Error)]
pub enum EncodeIntoFault {
    /// The value does not fit the type.
    #[error("not of type")]
    NotOfType,
    /// The encoding would have more than 268,435,455 octets.
    #[error("too long")]
    TooLong,
    /// The octets are fewer than the `wanted` ones of the encoding.
    #[error("{wanted} octets wanted")]
    Short { wanted: usize },
}

/// Why a value is not written to a writer.
#[derive(Clone, Copy, Debug, PartialEq, Eq, Error)]
pub enum EncodeToFault {
    /// The value does not fit the type. Nothing was written.
    #[error("not of type")]
    NotOfType,
    /// The encoding would have more than 268,435,455 octets. Nothing was written.
    #[error("too long")]
    TooLong,
    /// A write failed, after the first `sent` octets of the encoding.
    #[error("write failed after {sent} octets")]
    Write { sent: u64 },
}

/// Why a value is not written into a sink.
#[derive(Clone, Copy, Debug, Drop)]
pub enum Unwritten<F> {
    /// The value does not fit the type.
    NotOfType,
    /// The sink does not take its bits.
    Full(F),
}

/// Why octets are not decoded.
#[derive(Clone, Copy, Debug, PartialEq, Eq, Error)]
pub enum DecodeFault {
    /// No encoding begins so: `at` is the unit that shows it, counted from 1.
    #[error("refused at unit {at}: {why}")]
    Refused { at: u64, why: Why },
    /// The octets end before the encoding does, after `taken` units.
    #[error("cut short after {taken} units")]
    Truncated { taken: u64 },
    /// The first `used` octets are an encoding, and more octets follow.
    #[error("octets left after {used}")]
    Rest { used: usize },
    /// No encoding of at most 268,435,455 octets begins the octets, and a longer one may.
    #[error("too long")]
    TooLong,
    /// An allocation failed.
    #[error("memory")]
    Memory,
}

impl From<AllocError> for EncodeFault {
    ghost from_gives = { λ _ e. e ≡ encode.Memory };

    fn from(_: AllocError) -> EncodeFault {
        EncodeFault::Memory
    }
}

impl From<LengthFault> for EncodeIntoFault {
    ghost from_gives = { λ why e. e ≡ length_fault_into why };

    fn from(why: LengthFault) -> EncodeIntoFault {
        match why {
            LengthFault::NotOfType => EncodeIntoFault::NotOfType,
            LengthFault::TooLong => EncodeIntoFault::TooLong,
        }
    }
}

impl From<LengthFault> for EncodeToFault {
    ghost from_gives = { λ why e. e ≡ length_fault_to why };

    fn from(why: LengthFault) -> EncodeToFault {
        match why {
            LengthFault::NotOfType => EncodeToFault::NotOfType,
            LengthFault::TooLong => EncodeToFault::TooLong,
        }
    }
}

impl<F> From<F> for Unwritten<F> {
    ghost from_gives = { λ fault e. e ≡ unwritten.Full fault };

    fn from(fault: F) -> Unwritten<F> {
        Unwritten::Full(fault)
    }
}

impl From<AllocError> for DecodeFault {
    ghost from_gives = { λ _ e. e ≡ decode.Memory };

    fn from(_: AllocError) -> DecodeFault {
        DecodeFault::Memory
    }
}

impl<T: Drop> From<AllocFailed<T>> for DecodeFault {
    ghost from_gives = { λ _ e. e ≡ decode.Memory };

    fn from(_: AllocFailed<T>) -> DecodeFault {
        DecodeFault::Memory
    }
}
