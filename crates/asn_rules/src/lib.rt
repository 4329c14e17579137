//! What encoding rules are, what an encoder and a decoder answer, and the readers of fields that PER and OER share.
#![tactic(auto)]

mod at_once;
mod bit_vectors;
mod counting;
mod fault;
mod integer_sets;
pub mod internal;
pub mod laws;
mod length_reader;
mod limits;
mod newer;
mod no_octets;
mod number_reader;
mod octet_length_reader;
mod octet_reader;
mod octet_strings;
mod octet_writer;
mod open_session;
mod output;
mod readings;
mod rules;
mod session;
mod short_octets;
mod signed_reader;
mod stop;
mod streams;
mod units;
mod whole_number_reader;

pub use counting::Counted;
pub use fault::{
    DecodeFault, EncodeFault, EncodeIntoFault, EncodeToFault, LengthFault, Unwritten, Why,
};
pub use limits::MAX_OCTETS;
pub use newer::{Newer, Skipped};
pub use open_session::{Session, open};
pub use output::Output;
pub use rules::{Rules, decode, decode_into, encode, encode_into, encoded_len};
pub use session::{FeedFault, OpenFault, Step, Truncated};
pub use streams::{MessageStream, StreamFault, messages};
pub use units::{CountedFault, Unit};
