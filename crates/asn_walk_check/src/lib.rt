//! The walk over types and values that reads and keeps nothing, once for all encoding rules.
//!
//! It answers as the walk of `asn_walk_read` does, value by value, without the value. So a message takes the memory of
//! its longest string or open type field, whatever its octets are.
#![tactic(auto)]

mod components;
mod message;
mod reader;

pub use message::{check_front, check_message};
pub use reader::{read_complete, read_value};
