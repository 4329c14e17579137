//! Constraints as text, in the subtype notation of X.680, and the modules whose texts have them, or say how their types
//! differ from published ones.
#![tactic(auto)]

mod contents_writing;
mod copying;
mod cursor;
mod differences;
mod extents;
mod fault;
mod leaves;
mod lines;
mod module;
mod read;
mod reading;
mod references;
mod selected_reading;
mod strings;
mod value_reading;
mod value_writing;
mod whole;
mod whole_contents;
mod writing;

pub use contents_writing::contents_text;
pub use fault::{ConstrainedFault, ConstraintTextFault, WholeFault};
pub use lines::{with_constraints, with_differences};
pub use module::{ConstrainedModule, read_constrained};
pub use reading::{MOST_LEVELS, constraint_in};
pub use whole::MOST_PARTS;
pub use writing::constraint_text;
