//! Where the parts of a value are taken from when it is written: a tree, or another form that has them.
#![tactic(auto)]

mod source;
mod tree;

pub use source::Source;
