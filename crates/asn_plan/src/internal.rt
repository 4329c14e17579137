//! What the crates of this repository need of this one, and its users do not: how the rules read what was worked out of
//! types, how many octets an INTEGER has by OER, and the index of an item of an ENUMERATED.
pub use crate::fields::take_told;
pub use crate::fixed_sizes::{SIGNED_END, fixed_size, signed_size, unsigned_size};
pub use crate::items::rank;
pub use crate::taking::take_bits;
pub use crate::word::MOST_OCTETS;
