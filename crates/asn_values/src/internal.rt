//! What the crates of this repository need of this one, and its users do not.
pub use crate::enumerations::item_fits;
pub use crate::fitting::fits_received;
pub use crate::lookup::{additions, part_at};
pub use crate::names::Named;
pub use crate::ranges::{is_between, number_fits};
pub use crate::sizes::{is_in_size, length_fits};
pub use crate::texts::{octets_fit, text_fits, unicode_fits};
