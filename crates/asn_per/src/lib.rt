//! CANONICAL-PER UNALIGNED (X.691): encoding and decoding of messages, whole and in pieces.
#![tactic(auto)]

mod feed_leaves;
mod fragments;
mod in_pieces;
mod indexes;
mod integers;
pub mod internal;
mod item_runs;
mod items;
pub mod laws;
mod plan_leaves;
mod read_leaves;
mod rules;
mod session;
mod simple_into;
mod single_items;
mod sizes;
mod string_items;
mod string_reader;
mod write_leaves;

pub use rules::Per;
