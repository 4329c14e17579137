//! The walk over types and values that writes, once for all encoding rules.
//!
//! SEQUENCE, SEQUENCE OF, CHOICE, open type fields and complete encodings are written here by the parts that a set of
//! rules gives as an impl of `asn_walk::WriteLeaves`.
#![tactic(auto)]

mod components;
mod encoded;
mod encoder;
mod lengths;
mod lists;
mod writer;

pub use encoder::{encode, encode_from, encode_into, encode_to, encoded_len, encoded_len_from};
