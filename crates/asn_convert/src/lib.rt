//! Conversion between encoding rules, and jobs: a module text and lines go in, an answer for each line comes out.
#![tactic(auto)]

mod answers;
mod by_name;
mod coming;
mod conversion;
mod digits;
mod hex_writer;
pub mod laws;
mod newer;
mod put;
mod reading;
mod running;
mod texts;

pub use asn_jobs::{Job, Order, RuleName, RunFault, Status, cut_input, next_line};
pub use by_name::{answer_line, run, run_on_lines};
pub use conversion::{ConvertFault, convert};
pub use reading::read_all;
