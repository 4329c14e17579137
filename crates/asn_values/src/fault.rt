//! Why a type is not one of the profile.

use thiserror::Error;

/// Why a type is not one of the profile.
///
/// Each variant but `Memory` names a condition that holds somewhere in the type. The numbers stay
/// the same as more kinds of type come.
#[derive(Clone, Copy, Debug, PartialEq, Eq, Error)]
pub enum TypeFault {
    /// A low bound above the high one, a bound of an INTEGER that is no integer of the profile,
    /// or an ENUMERATED or CHOICE without an item or alternative before its extension marker.
    #[error("empty range")]
    EmptyRange = 1,
    /// A bound of a SIZE above 268,435,455.
    #[error("size too large")]
    SizeTooLarge = 2,
    /// A name twice in one SEQUENCE, CHOICE or ENUMERATED, or one that is no identifier.
    #[error("duplicate name")]
    DuplicateName = 3,
    /// A number twice in an ENUMERATED, one that is no integer of 32 signed bits, or an addition
    /// whose number is not above those of the additions before it.
    #[error("bad enumeration")]
    BadEnumeration = 4,
    /// An extension marker on an INTEGER whose root is already every integer of the profile, or on
    /// a SIZE whose root is already every length.
    #[error("useless mark")]
    UselessMark = 5,
    /// A DEFAULT on another type than BOOLEAN, INTEGER and ENUMERATED, on a type with an extension
    /// marker or one value only, or one that is no value of its type.
    #[error("bad default")]
    BadDefault = 6,
    /// A SEQUENCE OF whose element has an empty encoding in PER, whatever its value.
    #[error("zero width element")]
    ZeroWidthElement = 7,
    /// An extension addition of a SEQUENCE that is not OPTIONAL.
    #[error("addition not optional")]
    AdditionNotOptional = 8,
    /// More than 64 components before the extension marker of a SEQUENCE or 64 additions, more than
    /// 256 alternatives in a CHOICE, more than 256 items in an ENUMERATED or 200 additions to them, or
    /// more than 100,000 types in one type, itself counted.
    #[error("too many")]
    TooMany = 9,
    /// More than 64 levels of types inside one another, a SEQUENCE OF counting two.
    #[error("too deep")]
    TooDeep = 10,
    /// An allocation failed.
    #[error("memory")]
    Memory = 11,
}
