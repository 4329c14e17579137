//! The walk over types and values that reads into a value that is there, once for all encoding rules.
//!
//! A receiver decodes message after message of one type. Here each part of the new value overwrites the part of the
//! value before, whose memory it keeps: entries, elements, the box of a CHOICE, strings. What stood there does not
//! matter: a value of another kind is replaced by one that `asn_walk_read` reads.
#![tactic(auto)]

mod components;
mod decoder;
mod entries;
mod reader;

pub use decoder::{decode_front_into, decode_into};
pub use reader::{read_complete_into, read_into};
