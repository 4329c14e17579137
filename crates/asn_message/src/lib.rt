//! Values in one vector of slots, which is used again for the next message.
#![tactic(auto)]

mod beside;
mod flat;
mod leafed;
mod leaves;
mod left;
mod message;
mod parts;
mod path;
mod place;
mod restoring;
mod row;
mod slots;
mod source;
mod values;
mod view;

pub use flat::{Elements, Entries, Flat};
pub use message::Message;
pub use parts::{ComponentViews, ElementViews};
pub use slots::{Content, Room, Slot, Span};
pub use view::MessageView;
