//! What a session answers to the pieces of a message, and why it stops.

ghost use Rattle.std.specs.Prelude.{◌≡◌};
ghost use Rattle.asn_rules.specs.declared.session.OpenFault.TheVariants as opening;
ghost use Rattle.asn_rules.specs.declared.session.FeedFault.TheVariants as feed;

use crate::fault::Why;
use asn_values::Value;
use std::alloc::AllocError;
use thiserror::Error;

/// What a session answers to a piece that it took.
#[derive(Debug, Drop)]
pub enum Step {
    /// The octets so far begin with the encoding of `value`, which ends after the first `used` octets of this piece.
    Done { value: Value, used: usize },
    /// The octets so far are no whole encoding, and one may still follow.
    More,
}

/// Why no session was opened.
#[derive(Clone, Copy, Debug, PartialEq, Eq, Error)]
pub enum OpenFault {
    /// An allocation failed.
    #[error("memory")]
    Memory = 1,
}

/// Why a session does not go on.
#[derive(Clone, Copy, Debug, PartialEq, Eq, Error)]
pub enum FeedFault {
    /// No encoding begins so: `at` is the first unit of the message, counted from 1, after which none can follow, and
    /// `why` is what was being read there.
    #[error("refused at unit {at}: {why}")]
    Refused { at: u64, why: Why },
    /// The first 268,435,455 octets are no encoding, and only a longer one may begin so.
    #[error("too long")]
    TooLong,
    /// An allocation failed.
    #[error("memory")]
    Memory,
    /// The session has answered a value or `Memory` before.
    #[error("spent")]
    Spent,
}

/// The octets that a session took are no whole encoding.
#[derive(Clone, Copy, Debug, PartialEq, Eq, Error)]
#[error("cut short after {taken} units")]
pub struct Truncated {
    /// The number of units taken while an encoding could still follow.
    pub taken: u64,
}

impl From<AllocError> for OpenFault {
    ghost from_gives = { λ _ e. e ≡ opening.Memory };

    fn from(_: AllocError) -> OpenFault {
        OpenFault::Memory
    }
}

impl From<AllocError> for FeedFault {
    ghost from_gives = { λ _ e. e ≡ feed.Memory };

    fn from(_: AllocError) -> FeedFault {
        FeedFault::Memory
    }
}
