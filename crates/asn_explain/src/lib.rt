//! Why octets are no message, and in which component of the value the unit lies that shows it.
#![tactic(auto)]

mod components;
mod explanation;
mod finding;
mod parts;

pub use explanation::{Counted, Explanation, explain, explain_fault};
