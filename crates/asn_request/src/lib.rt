//! What the words of the command line ask for: published modules flattened, a job on messages, or something shown.
#![tactic(auto)]

pub mod asking;
mod help;
pub mod look;
mod options;
mod program;
pub mod request;
mod words;
