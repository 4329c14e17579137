//! A field of a message.

use asn_values::Value;
use std::fmt;

/// What a field of a message is, in the terms of X.691 and X.696.
#[derive(Clone, Copy, Debug, PartialEq, Eq)]
pub enum FieldKind {
    /// The value of a type that is neither SEQUENCE, SEQUENCE OF nor CHOICE, without its length determinant.
    Contents,
    /// The extension bit of a type with an extension marker, in PER.
    ExtensionBit,
    /// The presence bitmap of the components of a SEQUENCE, in PER.
    PresenceBitmap,
    /// The extension bit and the presence bitmap of a SEQUENCE, filled up to octets, in OER.
    Preamble,
    /// A length determinant: of a string, an INTEGER, a SEQUENCE OF, an open type field, or the presence bitmap of
    /// extension additions.
    LengthDeterminant,
    /// The number of elements of a SEQUENCE OF, in OER.
    Quantity,
    /// The octet of OER that says how many bits of the last octet of a BIT STRING are unused.
    UnusedBits,
    /// The presence bitmap of the extension additions of a SEQUENCE.
    AdditionBitmap,
    /// The index of the alternative of a CHOICE, in PER.
    ChoiceIndex,
    /// The tag of the alternative of a CHOICE, in OER.
    Tag,
    /// The octets of an open type field that are not told part by part.
    OpenType,
    /// The zeros that fill up a complete encoding.
    Padding,
    /// A component with a DEFAULT that is not encoded; no unit.
    Default,
    /// A component that is OPTIONAL and absent; no unit.
    Absent,
    /// From the end of the field before to the unit that is refused.
    Refused,
    /// What is there of a field that is cut short.
    CutShort,
    /// The octets after the message.
    Rest,
}

impl FieldKind {
    /// Whether a field of this kind says a value of the message.
    pub fn has_value(self) -> bool {
        matches!(self, FieldKind::Contents | FieldKind::Default)
    }

    /// What it is called.
    pub fn name(self) -> &'static str {
        match self {
            FieldKind::Contents => "contents",
            FieldKind::ExtensionBit => "extension bit",
            FieldKind::PresenceBitmap => "presence bitmap",
            FieldKind::Preamble => "preamble",
            FieldKind::LengthDeterminant => "length determinant",
            FieldKind::Quantity => "quantity",
            FieldKind::UnusedBits => "unused bits",
            FieldKind::AdditionBitmap => "extension addition presence bitmap",
            FieldKind::ChoiceIndex => "choice index",
            FieldKind::Tag => "tag",
            FieldKind::OpenType => "open type field",
            FieldKind::Padding => "padding",
            FieldKind::Default => "DEFAULT",
            FieldKind::Absent => "absent",
            FieldKind::Refused => "refused",
            FieldKind::CutShort => "cut short",
            FieldKind::Rest => "rest",
        }
    }
}

impl fmt::Display for FieldKind {
    fn fmt<W: fmt::Write>(&self, f: &mut fmt::Formatter<W>) -> fmt::Result {
        f.write_str(self.name())
    }
}

/// A field of a message.
#[derive(Debug, Drop)]
pub struct MessageField {
    /// How many units, bits of PER or octets of OER, precede it.
    pub start: u64,
    /// How many units precede the one after it: its last unit, counted from 1. As many as `start` where it has none.
    pub end: u64,
    pub kind: FieldKind,
    /// `$`, and then `.name` for each component or alternative and `[i]`, counted from 0, for each element on the way
    /// to the part of the value that it is of.
    pub path: String,
    /// The type of that part, without those inside it; of the length determinant of an open type field these words.
    pub ty: String,
    /// What it says: for `Contents` and `Default` the value in the notation of X.680.
    pub text: String,
    /// The value itself, of `Contents` and `Default`.
    pub value: Option<Value>,
}

impl MessageField {
    /// Its first unit, counted from 1; the one after its last where it has none.
    pub fn first(&self) -> u64 {
        self.start.saturating_add(1)
    }

    /// Its last unit, counted from 1.
    pub fn last(&self) -> u64 {
        self.end
    }

    /// Whether it has no unit.
    pub fn is_empty(&self) -> bool {
        self.end <= self.start
    }
}
