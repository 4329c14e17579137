//! Types as trees, each with its notation in X.680.
use crate::value::Value;

/// The bounds of an INTEGER, both counted in (X.680, "value range").
#[derive(Clone, Copy, Debug, PartialEq, Eq)]
pub struct Bounds {
    /// `None` where there is no lower bound (MIN).
    pub low: Option<i128>,
    /// `None` where there is no upper bound (MAX).
    pub high: Option<i128>,
    /// Whether an extension marker follows: then other integers are values too.
    pub ext: bool,
}

/// The bounds of a length (X.680, "size constraint"), in items, both counted in.
#[derive(Clone, Copy, Debug, PartialEq, Eq)]
pub struct Size {
    pub low: u32,
    /// `None` where there is no upper bound.
    pub high: Option<u32>,
    /// Whether an extension marker follows: then other lengths are values too.
    pub ext: bool,
}

/// The characters of a string (X.680, "restricted character string types").
#[derive(Clone, Copy, Debug, PartialEq, Eq)]
pub enum TextKind {
    /// IA5String: the codes 0 to 127
    Ia5,
    /// NumericString: SPACE and the digits
    Numeric,
    /// VisibleString: the codes 32 to 126
    Visible,
}

/// An item of an ENUMERATED, with its number.
#[derive(Debug, Drop)]
pub struct Item {
    pub name: String,
    pub number: i64,
}

/// Whether a component of a SEQUENCE has to be there (X.680, "sequence types").
#[derive(Debug, Drop)]
pub enum Need {
    /// It is always there.
    Must,
    /// It may be absent.
    Optional,
    /// It always has a value; where none is encoded, it has this one.
    Default(Value),
}

/// A component of a SEQUENCE.
#[derive(Debug, Drop)]
#[cycle(asn_type)]
pub struct Field {
    pub name: String,
    pub ty: AsnType,
    pub need: Need,
}

/// An alternative of a CHOICE.
#[derive(Debug, Drop)]
#[cycle(asn_type)]
pub struct Alt {
    pub name: String,
    pub ty: AsnType,
}

/// An ASN.1 type, not yet known to be one of the profile: `Checked::new` decides that.
#[derive(Debug, Drop)]
#[cycle(asn_type)]
pub enum AsnType {
    /// BOOLEAN
    Bool,
    /// NULL
    Null,
    /// INTEGER with bounds
    Int(Bounds),
    /// ENUMERATED of the items in `root`, and the additions in `ext`; `None` where there is no
    /// extension marker
    Enum {
        root: Vec<Item>,
        ext: Option<Vec<Item>>,
    },
    /// BIT STRING of this many bits
    Bits(Size),
    /// OCTET STRING of this many octets
    Octets(Size),
    /// IA5String, NumericString or VisibleString of this many characters
    Text(TextKind, Size),
    /// UTF8String
    Utf8,
    /// SEQUENCE of the components in `root`, in this order, and the extension additions in `ext`;
    /// `None` where there is no extension marker
    Seq {
        root: Vec<Field>,
        ext: Option<Vec<Field>>,
    },
    /// SEQUENCE OF this many values of the type
    SeqOf(Box<AsnType>, Size),
    /// CHOICE of the alternatives in `root`, and the additions in `ext`; `None` where there is no
    /// extension marker
    Choice {
        root: Vec<Alt>,
        ext: Option<Vec<Alt>>,
    },
}
