//! A message field by field: where each field lies, which component it is of, what it is, and its value; and types
//! with the widths of their parts.
#![tactic(auto)]

mod choices;
mod extent;
mod field;
mod laying;
mod leaves;
mod lines;
mod lists;
mod message;
mod oer_widths;
mod page;
mod per_widths;
mod sequences;
mod splitting;
mod table;
mod telling;
mod type_text;
mod units_text;
mod walk;
mod widths;

pub use extent::Extent;
pub use field::{FieldKind, MessageField};
pub use message::{MessageFields, fields, fields_within};
pub use page::{PAGE_END, page_head, page_note};
pub use widths::{TypeSizes, outline, sizes};
