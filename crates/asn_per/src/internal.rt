//! What the crates of this repository need of this one, and its users do not: a reader for messages of other versions of
//! a type.
pub use crate::indexes::{SHORT_NUMBERS, read_small_number};
