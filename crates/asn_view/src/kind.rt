//! The kinds of type.
ghost use Rattle.std.specs.Prelude.{◌≡◌};
ghost use Rattle.asn_values.specs.View.{shape_of};
ghost use Rattle.asn_view.specs.Kinds.{kind_of};

use asn_values::{AsnType, TextKind};

/// A kind of type (X.680), as a view returns it.
#[derive(Clone, Copy, Debug, PartialEq, Eq)]
pub enum Kind {
    /// BOOLEAN
    Boolean,
    /// NULL
    Null,
    /// INTEGER
    Integer,
    /// ENUMERATED
    Enumerated,
    /// BIT STRING
    BitString,
    /// OCTET STRING
    OctetString,
    /// IA5String, NumericString, VisibleString or UTF8String
    CharacterString,
    /// SEQUENCE
    Sequence,
    /// SEQUENCE OF
    SequenceOf,
    /// CHOICE
    Choice,
}

impl Kind {
    /// The kind of a type.
    pub fn of(ty: &AsnType) -> Kind
        ensures { result ≡ kind_of (shape_of ty.now) }
    {
        match ty {
            AsnType::Bool => Kind::Boolean,
            AsnType::Null => Kind::Null,
            AsnType::Int(_) => Kind::Integer,
            AsnType::Enum { .. } => Kind::Enumerated,
            AsnType::Bits(_) => Kind::BitString,
            AsnType::Octets(_) => Kind::OctetString,
            AsnType::Text(..) | AsnType::Utf8 => Kind::CharacterString,
            AsnType::Seq { .. } => Kind::Sequence,
            AsnType::SeqOf(..) => Kind::SequenceOf,
            AsnType::Choice { .. } => Kind::Choice,
        }
    }
}

/// What X.680 calls the type.
pub(crate) fn type_name(ty: &AsnType) -> &'static str {
    match ty {
        AsnType::Bool => "BOOLEAN",
        AsnType::Null => "NULL",
        AsnType::Int(_) => "INTEGER",
        AsnType::Enum { .. } => "ENUMERATED",
        AsnType::Bits(_) => "BIT STRING",
        AsnType::Octets(_) => "OCTET STRING",
        AsnType::Text(TextKind::Ia5, _) => "IA5String",
        AsnType::Text(TextKind::Numeric, _) => "NumericString",
        AsnType::Text(TextKind::Visible, _) => "VisibleString",
        AsnType::Utf8 => "UTF8String",
        AsnType::Seq { .. } => "SEQUENCE",
        AsnType::SeqOf(..) => "SEQUENCE OF",
        AsnType::Choice { .. } => "CHOICE",
    }
}
