//! A plan of a type: what its values' spelling is made of, worked out once, and the walk of the plan alone.
#![tactic(auto)]

mod budget;
mod build;
mod choices;
mod component;
mod components;
mod copies;
mod counting;
mod elements;
mod enumeration;
mod extensions;
mod field;
mod fields;
mod fixed;
mod fixed_sizes;
pub mod internal;
mod items;
mod lean;
mod leaves;
mod lists;
mod message;
mod nothing;
mod of;
mod open;
mod packed;
mod place;
mod plan;
mod planned;
mod ranged;
mod reused;
mod rules;
mod runs;
mod strings;
mod taking;
mod walk;
mod whole;
mod word;

pub use budget::{Budget, Taken, WithinFault};
pub use build::{Build, Nothing};
pub use counting::Counting;
pub use enumeration::{Enumeration, Order};
pub use field::{BitField, BitFields};
pub use fixed::FixedString;
pub use message::{build_octets, check_exactly};
pub use of::plan_of;
pub use place::Place;
pub use plan::{
    AlternativeRows, Between, ComponentRows, ElementRow, Items, Kind, Leaf, Node, Plan, Presence,
    Runs, WithDefault,
};
pub use planned::Planned;
pub use ranged::Ranged;
pub use reused::{ChoiceOver, ElementsOver, Reused, Spare};
pub use rules::{PlanLeaves, PlanRules};
pub use walk::build_at;
pub use whole::Values;
pub use word::{Run, Word};
