//! JSON of values as text, laid out for people: members in the order of the type, and a line for each.
#![tactic(auto)]

mod declared;
mod layout;

pub use layout::{Layout, laid_out};
