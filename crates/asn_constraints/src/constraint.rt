//! Constraints as trees, each with its notation in X.680.
use asn_values::Value;

/// Integers between two bounds, both counted in (X.680, "value range").
#[derive(Clone, Copy, Debug, PartialEq, Eq)]
pub struct Interval {
    pub low: i128,
    pub high: i128,
}

/// Lengths between two bounds, both counted in (X.680, "size constraint").
#[derive(Clone, Copy, Debug, PartialEq, Eq)]
pub struct Lengths {
    pub low: u32,
    /// `None` where there is no upper bound.
    pub high: Option<u32>,
}

/// Whether a component has to be there (X.680, "inner subtyping").
#[derive(Clone, Copy, Debug, PartialEq, Eq)]
pub enum Presence {
    /// It may be there.
    Any,
    /// PRESENT
    Present,
    /// ABSENT
    Absent,
}

/// The time types of X.680 whose canonical values X.690 restricts.
#[derive(Clone, Copy, Debug, PartialEq, Eq)]
pub enum TimeKind {
    /// UTCTime: YYMMDDhhmmssZ
    Utc,
    /// GeneralizedTime: YYYYMMDDhhmmss, a fraction of a second without last zeros, and Z
    Generalized,
}

/// The constraint on a component, and whether the component has to be there.
#[derive(Debug, Drop)]
#[cycle(constraint)]
pub struct Component {
    pub presence: Presence,
    pub constraint: Constraint,
}

/// A constraint on the values of a type that no encoding shows.
#[derive(Debug, Drop)]
#[cycle(constraint)]
pub enum Constraint {
    /// Each value meets it.
    Free,
    /// No value meets it, as where an alternative is ABSENT.
    Barred,
    /// both constraints, as where a constraint follows a constraint (X.680, "intersection")
    Both(Box<Constraint>, Box<Constraint>),
    /// one constraint or the other (X.680, "union")
    Either(Box<Constraint>, Box<Constraint>),
    /// an INTEGER in one of these intervals
    Numbers(Vec<Interval>),
    /// an ENUMERATED at one of these positions, counted from 0 as written, root then additions
    Items(Vec<u32>),
    /// a string or a list of one of these lengths: bits, octets, characters (also of a UTF8String) or elements
    Lengths(Vec<Lengths>),
    /// a restricted character string whose characters have codes in these intervals (X.680, "permitted alphabet")
    Characters(Vec<Interval>),
    /// a BIT STRING with named bits: no last zeros above this length (X.680, "bitstring type")
    Trimmed(u32),
    /// a canonical value of a time type (X.690, "restrictions on UTCTime and GeneralizedTime")
    Time(TimeKind),
    /// any value but this one, which is the DEFAULT
    Except(Value),
    /// the components of a SEQUENCE, in order, root then additions; those after the last are free
    Components(Vec<Component>),
    /// the elements of a SEQUENCE OF
    Elements(Box<Constraint>),
    /// the alternatives of a CHOICE, in order, root then additions; those after the last are barred
    Alternatives(Vec<Constraint>),
    /// a SEQUENCE of which some component is there, as a group of additions
    SomePresent,
}
