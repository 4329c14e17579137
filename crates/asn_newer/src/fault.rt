//! Why octets are read as no message of any version of a type.
use thiserror::Error;

/// Why octets are read as no message of any version of a type.
#[derive(Clone, Copy, Debug, PartialEq, Eq, Error)]
pub enum NewerFault {
    /// No message of any version begins so, or more octets follow one.
    #[error("refused")]
    Refused = 1,
    /// The octets end before a message does: any message that was cut is told so.
    #[error("cut short")]
    Truncated = 2,
    /// More extension additions than the profile allows: a count of them, the index or tag of an alternative, or the
    /// index of an item.
    #[error("too many additions")]
    TooManyAdditions = 3,
    /// An allocation failed.
    #[error("memory")]
    Memory = 4,
    /// The octets are more than 268,435,455.
    #[error("too long")]
    TooLong = 5,
}
