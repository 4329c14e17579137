//! Canonical OER (X.696).
#![tactic(auto)]

mod bit_items;
mod enumerated;
mod in_pieces;
mod integer;
pub mod internal;
mod item_runs;
pub mod laws;
mod plan_leaves;
mod read_leaves;
mod rules;
mod session;
mod single_items;
mod string_reader;
mod tags;
mod text_items;
mod truths;
mod write_leaves;

pub use rules::Oer;
