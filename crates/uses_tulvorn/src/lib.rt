//! Functions with contracts to start a program from. `examples/uses` has programs that call them.
#![tactic(auto)]

pub mod converting;
pub mod decoding;
pub mod encoding;
pub mod modules;
pub mod planning;
pub mod streaming;
