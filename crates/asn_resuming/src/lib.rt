//! Sessions that go on where the last piece of a message ended, once for all encoding rules: of the octets that have
//! come they keep what `asn_walk_feed` keeps, and no others.
#![tactic(auto)]

mod reading;
mod session;

pub use reading::ReadsAtOnce;
pub use session::{Resuming, feed, finish, held, kept, open, ticks};
