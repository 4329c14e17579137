//! What the crates of this repository need of this one, and its users do not.
pub use crate::read_leaves::marks;
