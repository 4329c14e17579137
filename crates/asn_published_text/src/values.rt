//! Which values a type has, as far as it is known without them.

/// The values of a type. Each may be a name too.
#[derive(Clone, Copy, PartialEq, Eq)]
pub enum Values {
    /// Those of a type that is not known.
    Any,
    Boolean,
    Integer,
    Enumerated,
    Null,
    Real,
    Bits,
    Octets,
    /// Of strings with characters.
    Letters,
    /// Times, and resource identifiers: characters in quotes.
    Text,
    /// Object identifiers.
    Identifier,
    /// With named components.
    Sequence,
    List,
    Choice,
}
