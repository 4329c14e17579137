//! What the program shows of a type and of messages: where each message ends, its value as JSON and its fields, why it is
//! refused, what it takes, and what is counted of many; the types of a module, and values to begin from.
#![tactic(auto)]

mod broken_parts;
mod budget;
mod containing;
mod counting;
mod examples;
mod explaining;
mod fault;
mod field_lines;
mod fronts;
mod json_entries;
mod laying;
mod looking;
mod named_fields;
mod newer_json;
mod paths;
mod streams;
mod typed;
mod valued;
mod wanted;

pub use broken_parts::{broken_at_end, broken_words};
pub use budget::{over_in_line, over_text};
pub use containing::MessageType;
pub use counting::Counts;
pub use examples::{example_line, example_within};
pub use explaining::{over_words, why_refused};
pub use fault::ShowFault;
pub use fronts::front_len;
pub use json_entries::{json_over, widest_of};
pub use laying::laid_text;
pub use looking::{MOST_ENTRIES, show_of};
pub use named_fields::{fields_by, fields_within_by};
pub use newer_json::{TakenBack, newer_line, taken_back};
pub use streams::{Next, next_message};
pub use valued::value_of_digits;
