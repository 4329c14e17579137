//! Why octets in a value are not the encodings that they have to be, and where.
use asn_constrained::ConstrainedFault;
use thiserror::Error;

/// Why octets in a value are not the encoding that they have to be.
#[derive(Debug, Drop, Error)]
pub enum ContentsReason {
    /// The table has no type for them: no row has the number that selects it.
    #[error("no type for this number")]
    NoType,
    /// They lie in more contents than are judged.
    #[error("deeper than 16 contents")]
    TooDeep,
    /// They are no complete encoding of their type, or of a value that breaks its constraint.
    #[error("{0}")]
    Octets(ConstrainedFault),
}

/// Octets in a value, or in the value of contents.
#[derive(Debug, Drop)]
pub struct ContentsPlace {
    /// the path to them: the index of a component, of an element, or of an alternative
    pub path: Vec<usize>,
    /// the position of their type in the table, `None` where no row has the number
    pub ty: Option<usize>,
}

/// Why octets in a value are not the encoding that they have to be, and which.
#[derive(Debug, Drop)]
pub struct BrokenContents {
    pub reason: ContentsReason,
    /// The places from the outside in: octets in the value, octets in the value of these, and so on.
    pub places: Vec<ContentsPlace>,
}
