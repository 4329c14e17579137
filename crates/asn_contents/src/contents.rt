//! Where values have octets that are encodings, as a tree.

/// A number of a table, and the type that it selects (X.681, "information object set").
#[derive(Clone, Copy, Debug, PartialEq, Eq)]
pub struct SelectedType {
    pub number: i128,
    /// the position of the type in the table of types, counted from 0
    pub ty: usize,
}

/// An open type of a SEQUENCE whose type another component selects (X.682, "table constraint"). In the profile it is an
/// OCTET STRING.
#[derive(Debug, Drop)]
pub struct Selection {
    /// the index of the component that is the number, an INTEGER
    pub by: usize,
    /// the index of the component that is the open type
    pub open: usize,
    /// the numbers and their types, of which the first with a number counts
    pub rows: Vec<SelectedType>,
    /// Whether other numbers may be there, with any octets: the set of the table has an extension mark.
    pub extensible: bool,
}

/// Where the values of a type have octets that are encodings of other types.
#[derive(Debug, Drop)]
pub enum Contents {
    /// They have none.
    Nowhere,
    /// The value is an OCTET STRING whose octets are an encoding of this type, by its position in the table of types
    /// (X.682, "contents constraint").
    Octets(usize),
    /// in the components of a SEQUENCE, in order, root then additions; none in those after the last
    Components(Vec<Contents>),
    /// in each element of a SEQUENCE OF
    Elements(Box<Contents>),
    /// in the alternatives of a CHOICE, in order, root then additions; none in those after the last
    Alternatives(Vec<Contents>),
    /// at the places of both
    Both(Box<Contents>, Box<Contents>),
    /// the open type of a SEQUENCE
    Selected(Selection),
}
