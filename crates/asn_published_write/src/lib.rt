//! The types of published modules (X.680 to X.683) in the notation of the profile, and what became of each.
#![tactic(auto)]

mod checking;
mod constraining;
mod contained;
mod defaults;
mod holding;
mod known;
mod left_out;
mod letters;
mod levels;
mod references;
mod settling;
pub mod sources;
mod spliced;
mod strings;
mod tables;
mod totals;
pub mod wanted;
mod weights;
mod widths;
mod writer;
mod writing;
pub mod written;
