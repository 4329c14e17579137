//! Values of ASN.1 types by the names of their types.
#![tactic(auto)]

mod building;
mod fault;
mod fitting;
mod given;
mod kind;
mod names;
mod parts;
mod path;
mod view;

pub use building::ByName;
pub use fault::BuildFault;
pub use fitting::{WrongPart, misfit};
pub use given::Given;
pub use kind::Kind;
pub use names::{alternative_index, component_index, item_index};
pub use parts::{Components, Elements};
pub use path::{from_root, index_in, is_separator};
pub use view::{View, Viewed};
