//! Modules of ASN.1 (X.680): reads the text of a module, and tells what type each of its names stands for.
#![tactic(auto)]

mod bounded;
mod bounds;
mod building;
mod copying;
mod counting;
mod diagnosis;
mod expanding;
mod explaining;
mod fault;
mod finding;
mod graph;
mod heads;
mod indexing;
mod items;
mod known;
mod left_out;
mod listing;
mod measuring;
mod module;
mod places;
mod print;
mod printing;
mod reading;
mod references;
mod shallow;
mod simple;
mod table;
mod type_names;
mod uses;
mod zero_width;

pub use explaining::explain;
pub use fault::{BoundFault, ModuleFault};
pub use module::Module;
pub use reading::{MOST_SIZE, RefusedText, read, read_explained, read_within};
pub use type_names::TypeNames;
