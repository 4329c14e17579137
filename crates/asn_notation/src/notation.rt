//! What a module's text says, as it is written: references are not followed.

/// The values between the parentheses of a range: one, or from one to another, None for MIN or MAX.
#[derive(Clone, Copy)]
pub enum Limits {
    One(i128),
    Between(Option<i128>, Option<i128>),
}

/// A range, and whether it has `...`.
#[derive(Clone, Copy)]
pub struct RangeNotation {
    pub limits: Limits,
    pub marked: bool,
}

/// A size, and whether it has `...`.
#[derive(Clone, Copy)]
pub struct SizeNotation {
    pub low: u64,
    pub high: SizeEnd,
    pub marked: bool,
}

/// What follows the low bound of a size.
#[derive(Clone, Copy)]
pub enum SizeEnd {
    /// Nothing: the low bound is the high one.
    Same,
    To(u64),
    ToMax,
}

/// The size of a SEQUENCE OF, which may be written without the outer parentheses.
#[derive(Clone, Copy)]
pub enum ListSize {
    Any,
    Bare(SizeNotation),
    Bracketed(SizeNotation),
}

/// What follows a reference.
#[derive(Clone, Copy)]
pub enum Constraint {
    None,
    Range(RangeNotation),
    Size(SizeNotation),
}

/// The strings that have a size.
#[derive(Clone, Copy)]
pub enum StringKind {
    Bits,
    Octets,
    Ia5,
    Numeric,
    Visible,
}

/// An item of an ENUMERATED, and its number where one is written.
#[derive(Clone, Copy)]
pub struct ItemNotation<'t> {
    pub name: &'t str,
    pub number: Option<i128>,
}

/// What follows DEFAULT.
#[derive(Clone, Copy)]
pub enum DefaultNotation<'t> {
    Boolean(bool),
    Number(i128),
    Item(&'t str),
}

#[derive(Clone, Copy)]
pub enum NeedNotation<'t> {
    Must,
    Optional,
    Default(DefaultNotation<'t>),
}

/// A component of a SEQUENCE.
#[cycle(notation)]
#[derive(Drop)]
pub struct ComponentNotation<'t> {
    pub name: &'t str,
    pub ty: TypeNotation<'t>,
    pub need: NeedNotation<'t>,
}

/// An alternative of a CHOICE.
#[cycle(notation)]
#[derive(Drop)]
pub struct AlternativeNotation<'t> {
    pub name: &'t str,
    pub ty: TypeNotation<'t>,
}

/// A type as it is written. The lists after a `...` are None where there is no `...`.
#[cycle(notation)]
#[derive(Drop)]
pub enum TypeNotation<'t> {
    Boolean,
    Null,
    Utf8,
    Integer(Option<RangeNotation>),
    Enumerated {
        root: Vec<ItemNotation<'t>>,
        more: Option<Vec<ItemNotation<'t>>>,
    },
    Text(StringKind, Option<SizeNotation>),
    Sequence {
        root: Vec<ComponentNotation<'t>>,
        more: Option<Vec<ComponentNotation<'t>>>,
    },
    SequenceOf(ListSize, Box<TypeNotation<'t>>),
    Choice {
        root: Vec<AlternativeNotation<'t>>,
        more: Option<Vec<AlternativeNotation<'t>>>,
    },
    /// A name that stands for the type assigned to it, and the octets of text from its constraint on.
    Reference {
        name: &'t str,
        constraint: Constraint,
        left: usize,
    },
}

/// An assignment of a type to a name.
#[derive(Drop)]
pub struct AssignmentNotation<'t> {
    pub name: &'t str,
    pub ty: TypeNotation<'t>,
}

/// A module, its assignments in the order of the text.
#[derive(Drop)]
pub struct ModuleNotation<'t> {
    pub name: &'t str,
    pub assignments: Vec<AssignmentNotation<'t>>,
}
