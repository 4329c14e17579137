//! Why octets are not decoded, and values not encoded, where their contents are judged too.
use crate::broken::BrokenContents;
use asn_constrained::{ConstrainedFault, ConstrainedFeedFault};
use asn_rules::EncodeFault;
use thiserror::Error;

/// Why octets are not decoded where their contents are judged too.
#[derive(Debug, Drop, Error)]
pub enum ContainingFault {
    /// what is reported of the type alone, also that memory was missing while contents were judged
    #[error("{0}")]
    Type(ConstrainedFault),
    /// The first `used` octets are the encoding of a value in which octets are not the encodings that they have to be.
    #[error("contents of the first {used} octets: {}", .broken.reason)]
    Contents {
        /// the octets of the encoding
        used: usize,
        /// which octets in the value, and why
        broken: BrokenContents,
    },
}

/// Why a value is not encoded where its contents are judged too.
#[derive(Debug, Drop, Error)]
pub enum ContainingEncodeFault {
    /// what is reported of the type alone, also that memory was missing while contents were judged
    #[error("{0}")]
    Type(EncodeFault),
    /// The value has the type, and octets in it are not the encodings that they have to be.
    #[error("contents: {}", .0.reason)]
    Contents(BrokenContents),
}

/// Why a session does not go on where contents are judged too.
#[derive(Debug, Drop, Error)]
pub enum ContainingFeedFault {
    /// what is reported of the type alone
    #[error("{0}")]
    Type(ConstrainedFeedFault),
    /// The octets so far begin with the encoding of a value in which octets are not the encodings that they have to be.
    /// It ends after the first `used` octets of this piece.
    #[error("contents of a message that ends after {used} octets of the piece: {}", .broken.reason)]
    Contents {
        /// the octets of this piece that belong to the encoding
        used: usize,
        /// which octets in the value, and why
        broken: BrokenContents,
    },
    /// An allocation failed while contents were judged.
    #[error("memory")]
    Memory,
}
