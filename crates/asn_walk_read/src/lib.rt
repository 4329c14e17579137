//! The walk over types and values that reads, once for all encoding rules.
//!
//! SEQUENCE, SEQUENCE OF, CHOICE, open type fields and complete encodings are read here by the parts that a set of
//! rules gives as an impl of `asn_walk::ReadLeaves`.
#![tactic(auto)]

mod components;
mod message_reader;
mod reader;

pub use components::{try_bounded, try_integer};
pub use message_reader::read_message;
pub use reader::{
    SHORT_OPEN_FIELD, added_count, read, read_complete, read_open_field, read_open_octets,
};
