//! Numbers and lengths as bits and octets: what the encoding rules share.
#![tactic(auto)]

mod bit_rows;
mod cursor;
mod general_length;
pub mod internal;
mod intervals;
mod lengths;
mod number_field;
mod numbers;
mod octet_lengths;
mod offsets;
mod pending;
mod shifts;
mod sink;
mod words;

pub use cursor::BitCursor;
pub use general_length::{Counts, Lengths};
pub use intervals::Intervals;
pub use number_field::{FieldState, NumberField};
pub use octet_lengths::OctetLengths;
pub use sink::BitSink;
