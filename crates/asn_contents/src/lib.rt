//! Octets in values that are encodings themselves.
#![tactic(auto)]

mod contents;
mod copying;
mod finding;
mod joining;

pub use contents::{Contents, SelectedType, Selection};
pub use copying::{copy_of, with_unknown};
pub use finding::{Content, contents_in};
pub use joining::{
    are_same, both_contents, contents_of_elements, contents_of_parts, is_nowhere, moved, push_types,
};
