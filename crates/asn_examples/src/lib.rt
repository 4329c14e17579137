//! Values of a type to begin from: the least one, and others that a seed determines; and how large encodings are.
#![tactic(auto)]

mod choices;
mod examples;
mod leaves;
mod parts;

pub use examples::{least_value, seeded_value, value_within};
