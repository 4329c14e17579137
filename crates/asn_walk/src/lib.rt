//! What the walk over types and values wants of a set of encoding rules.
//!
//! A set of encoding rules is an impl of `ReadLeaves` and of `WriteLeaves`: the parts of an encoding in which PER and
//! OER differ. `asn_walk_read` and `asn_walk_write` put SEQUENCE, SEQUENCE OF, CHOICE, open type fields and complete
//! encodings together from these parts, each once for all rules.
#![tactic(auto)]

pub mod at_once;
pub mod items;
mod leaves;
pub mod octets;
mod presence;
pub mod sizes;
pub mod slots;
mod write_leaves;

pub use leaves::{Index, Preamble, ReadLeaves};
pub use presence::{PresenceBits, absent, bitmap_width, has_presence_bit};
pub use write_leaves::WriteLeaves;
