//! What became of the types of published modules, and which modules they lack, as lines of text and as JSON.
#![tactic(auto)]

pub mod json;
pub mod missing;
pub mod telling;
pub mod way;
