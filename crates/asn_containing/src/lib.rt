//! Types whose values have octets that are encodings of other types, by any encoding rules.
#![tactic(auto)]

mod broken;
mod containing_type;
mod fault;
mod judging;
pub mod laws;
mod session;
mod table;

pub use broken::{BrokenContents, ContentsPlace, ContentsReason};
pub use containing_type::ContainingType;
pub use fault::{ContainingEncodeFault, ContainingFault, ContainingFeedFault};
pub use judging::{MOST_LEVELS, judge_contents};
pub use session::ContainingSession;
pub use table::TableType;
