//! Values of ASN.1 types as JSON, and back.
#![tactic(auto)]

mod fault;
pub mod laws;
mod leaf_readers;
mod leaves;
mod names;
mod paths;
mod read;
mod repeated;
mod text;
mod write;

pub use fault::{JsonFault, TextFault};
pub use read::{from_json, value_shown};
pub use text::json_in;
pub use write::{to_json, to_json_from};
