//! Jobs on messages: what is to be done and by which rules, where the module and each message stand in an input, in which
//! forms octets stand, what is counted of messages, and how a job ends.
#![tactic(auto)]

mod cut;
mod cutting;
mod dump_faults;
mod dump_lines;
mod dump_texts;
mod dump_words;
mod dumps;
mod endings;
mod fault;
mod job;
mod piped;
mod places;
mod progress;
mod sizes;
mod tally;
mod texts;

pub use cut::{cut_input, next_line};
pub use cutting::next_text;
pub use dump_faults::dump_fault_text;
pub use dumps::{OFFSETS, is_dump};
pub use endings::{ending, refusal_ending};
pub use fault::CountFault;
pub use job::{Job, Order, RuleName, RunFault, Status};
pub use piped::Piped;
pub use places::{Place, place_text};
pub use progress::Progress;
pub use sizes::Sizes;
pub use tally::Tally;
pub use texts::{OctetForm, octets_in, text_of};
