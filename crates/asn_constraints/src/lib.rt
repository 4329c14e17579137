//! Constraints on the values of a type that no encoding shows.
#![tactic(auto)]

mod broken;
mod constraint;
mod copying;
mod judging;
pub mod laws;
mod paths;
mod spelling;
mod strings;
mod times;

pub use broken::{Broken, Reason, judge_at};
pub use constraint::{Component, Constraint, Interval, Lengths, Presence, TimeKind};
pub use judging::judge;
pub use paths::path_text;
pub use spelling::judge_spelling;
pub use strings::{is_among, is_length, is_one_of};
