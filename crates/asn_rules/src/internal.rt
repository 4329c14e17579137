//! What the crates of this repository need of this one, and its users do not: the readers and writers of fields that
//! PER and OER share.
pub use crate::at_once::{Reads, decode_at_once};
pub use crate::bit_vectors::{bit_at, overwrite_bits, push_bits, push_octets};
pub use crate::integer_sets::{numbers_of, offsets_of};
pub use crate::length_reader::read_next_length;
pub use crate::no_octets::is_value_of_none;
pub use crate::number_reader::{
    NumberSet, admits, bits_left, read_number, read_number_among, read_padding, read_up_to,
    try_number,
};
pub use crate::octet_length_reader::{
    read_length, read_octets_with_length, read_row, try_length, try_row,
};
pub use crate::octet_reader::{
    numbers, octets_left, read_counted, read_filled, read_octets, read_octets_among,
    read_signed_octets, read_wide_counted_signed, try_counted_signed, try_octets,
    try_signed_octets,
};
pub use crate::octet_strings::{read_characters, read_packed, read_variable};
pub use crate::octet_writer::{
    unused_bits, write_content, write_filling, write_fixed, write_flags, write_least,
    write_least_signed, write_length, write_wide_least, write_wide_number,
};
pub use crate::readings::{one_reading, readings_answer};
pub use crate::short_octets::try_short_octets;
pub use crate::signed_reader::{OffsetSet, read_signed, read_wide_unconstrained};
pub use crate::stop::Stop;
pub use crate::whole_number_reader::{
    greatest_of_width, narrow, power_of_two, read_constrained, read_semi_constrained,
    read_wide_constrained, read_wide_semi_constrained,
};
