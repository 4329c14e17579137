//! A sink before a writer: an encoder writes into it piece by piece, and it takes no memory.
#![tactic(auto)]

mod bit_writer;
mod buffer;
mod filling;
mod fragments;
mod octet_writer;
mod shifted;
mod window;

pub use filling::Filling;
pub use window::{Phase, Window};
