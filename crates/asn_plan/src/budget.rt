//! What a value takes, and how much it may.
use asn_rules::DecodeFault;
use thiserror::Error;

/// What a value takes where it is kept as a `Value`.
#[derive(Clone, Copy, PartialEq, Eq)]
pub struct Taken {
    /// How many entries it has: itself, and those of its components, absent ones too, of its elements and of its
    /// alternative.
    pub entries: u64,
    /// How many octets its strings take: a character, an octet and a bit of a BIT STRING one each.
    pub octets: u64,
}

/// The most that a value may take.
#[derive(Clone, Copy)]
pub struct Budget {
    /// The most entries, counted as in `Taken`.
    pub entries: u64,
    /// The most octets of its strings.
    pub octets: u64,
}

/// Why octets are not decoded within a budget.
#[derive(Clone, Copy, Debug, PartialEq, Eq, Error)]
pub enum WithinFault {
    /// 1: they are no encoding, or an allocation failed.
    #[error("{0}")]
    Decode(DecodeFault),
    /// 2: they are the encoding of a value that takes more.
    #[error("over budget")]
    OverBudget,
}
