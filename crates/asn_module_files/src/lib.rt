//! The module of a job: read from files or from standard input, as it is or as published modules that become one module of
//! the profile; and why a module is refused.
#![tactic(auto)]

mod contained;
mod differences;
mod flattening;
mod kept;
mod published;
mod refused;
mod sources;
mod stop;
mod telling;
mod terminal;
mod texts;

pub use contained::{ContainedType, Containing};
pub use flattening::flatten_files;
pub use kept::Lines;
pub use published::Published;
pub use refused::text_told;
pub use sources::{Instead, MOST, input_with, instead_of, module_of};
pub use stop::Stop;
pub use telling::{Input, input_given, input_of_files, tell_text, tells_of_module};
