//! The walk over types and values that reads a message in pieces, once for all encoding rules.
//!
//! A reader goes on where the last piece ended: `Frames` has the nodes of the value that have begun, and each unit is
//! taken once. Values are read here by the parts that a set of rules gives as impls of `asn_walk::ReadLeaves` and of
//! `FeedLeaves`.
#![tactic(auto)]

mod additions;
mod begun;
mod choices;
mod complete;
mod frame;
mod held;
mod in_fragments;
mod kept;
mod leaf;
mod lists;
mod octet_runs;
mod octets;
mod open_fields;
mod parts;
mod rows;
mod sequences;
mod strings;
mod units;
mod values;
mod whole;

pub use begun::Begun;
pub use complete::feed_complete;
pub use frame::{AdditionBits, Components, Elements, Frame, Frames, ItemsStart};
pub use leaf::FeedLeaves;
pub use units::{Ticks, Units};
pub use values::feed;
