//! What encoders write into: a vector of bits that grows, a count of bits, or whatever else takes bits in order.
#![tactic(auto)]

mod growing;
mod measure;
mod sink;

pub use measure::Measure;
pub use sink::{Framing, Sink};
