//! Messages of newer and older senders: what a receiver reads of them whose type has fewer or more extension additions.
#![tactic(auto)]

mod bitmaps;
mod choices;
mod components;
mod fault;
mod halt;
mod indexes;
mod items;
pub mod laws;
mod leaves;
mod message;
mod oer_items;
mod path;
mod per_items;
mod presence;
mod reader;
mod skipping;

pub use bitmaps::read_any_bitmap;
pub use fault::NewerFault;
pub use halt::Halt;
pub use laws::OtherVersions;
pub use leaves::ReadVersions;
pub use message::ReadNewer;
pub use path::{NewerAt, PathStep, SkippedAt};
