//! What the caller leaves to the reader of published modules.

/// What becomes of types that the profile does not have as they are.
#[derive(Clone, Copy, Debug, PartialEq, Eq)]
pub struct Options {
    /// Named bits without a fixed size become a BIT STRING; the writer trims the last zeros.
    pub plain_bits: bool,
    /// OBJECT IDENTIFIER, REAL and strings of other characters become an OCTET STRING of their content.
    pub octets: bool,
    /// How many levels of a recursive type are written, below which is NULL; 0 refuses such types.
    pub levels: u32,
    /// A type that is not the same as the published one is refused.
    pub strict: bool,
}
