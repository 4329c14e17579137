//! What the crates of this repository need of this one, and its users do not.
pub use crate::bit_rows::word_of_bits;
pub use crate::lengths::next_length;
pub use crate::number_field::try_number_of;
pub use crate::numbers::{
    least_parts, least_signed_parts, octet_count, signed_octet_count, signed_residue,
    wide_octet_count, width, width_up_to,
};
pub use crate::offsets::{at_offset, at_wide_offset, wide_offset_from};
pub use crate::shifts::fill_shifted;
pub use crate::words::{full_word, last_octets, low_octet, shift_in};
