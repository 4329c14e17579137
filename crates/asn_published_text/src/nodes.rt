//! The types of the assignments as nodes, each beside those that it holds.
use crate::refusal::Why;

/// The kind of a string with characters.
#[derive(Clone, Copy, PartialEq, Eq)]
pub enum Letters {
    Ia5,
    Numeric,
    Visible,
    Printable,
}

/// What holds components or alternatives.
#[derive(Clone, Copy, PartialEq, Eq)]
pub enum Holder {
    Sequence,
    Set,
    Choice,
}

/// What a node is.
#[derive(Clone, Copy)]
pub enum Shape {
    Boolean,
    Null,
    Utf8,
    /// With the `{` of its named numbers.
    Integer {
        named: Option<usize>,
    },
    /// With named bits.
    Bits {
        named: bool,
    },
    Octets,
    Text(Letters),
    /// UTCTime or GeneralizedTime.
    Time,
    /// With the `{` of its items.
    Enumerated {
        braces: usize,
    },
    /// With the members from one index to before another.
    Members {
        holder: Holder,
        from: usize,
        to: usize,
        marked: bool,
        /// One of them, or of those in their groups, has a tag that is written.
        tagged: bool,
    },
    /// SEQUENCE OF the type of a node, the size in parentheses from one index to before another.
    List {
        element: usize,
        size: usize,
        size_end: usize,
    },
    /// The type of an assignment or of an instance, by its index among all of them.
    Reference {
        to: usize,
    },
    /// The alternative of a CHOICE, which is the type of a node, with the identifier at an index.
    Selection {
        of: usize,
        at: usize,
    },
    /// The type that the octets of the values of the node around it contain, by its index among all of them.
    Contained {
        to: usize,
    },
    /// The octets of a value that is not looked at: an open type.
    Open,
    /// The octets of a value of this type, where the caller asks for them.
    Content(&'static str),
    Refused(Why),
}

/// A type: its constraints are from `constraints` to before `end`, in the module's lexical items.
#[derive(Clone, Copy)]
pub struct Node<'t> {
    pub shape: Shape,
    pub module: usize,
    pub at: usize,
    pub constraints: usize,
    pub end: usize,
    /// The node that holds this one; itself for the type of an assignment.
    pub parent: usize,
    /// The component's or alternative's name; empty where there is none.
    pub name: &'t str,
    /// The instance whose parameters are known there.
    pub instance: Option<usize>,
    /// The module and the place of a tag that is written where this node is, and its type elsewhere.
    pub tag: Option<(usize, usize)>,
    /// The type is that of the values of a class's field.
    pub is_field: bool,
    /// Constraints follow that field, which are not examined.
    pub is_constrained: bool,
}

/// Whether a member may be absent. A DEFAULT has its value from one index to before another.
#[derive(Clone, Copy)]
pub enum Need {
    Must,
    Optional,
    Default { start: usize, end: usize },
}

/// What a member is.
#[derive(Clone, Copy, PartialEq, Eq)]
pub enum MemberKind {
    /// A component or an alternative.
    Plain,
    /// An addition group, by its number from 1.
    Group(u32),
    /// The components of another type.
    ComponentsOf,
}

/// A component, an alternative, a group, or COMPONENTS OF.
#[derive(Clone, Copy)]
pub struct Member<'t> {
    pub kind: MemberKind,
    pub name: &'t str,
    pub node: usize,
    pub need: Need,
    pub is_addition: bool,
}
