//! Published modules of ASN.1 (X.680 to X.683) as their lexical items: where types and values begin and end, and what
//! names stand for.
#![tactic(auto)]

pub mod class_fields;
pub mod class_names;
pub mod classes;
pub mod extents;
mod finding;
pub mod groups;
pub mod instructions;
pub mod modules;
pub mod nodes;
pub mod options;
pub mod places;
pub mod refusal;
pub mod syntax;
pub mod token;
pub mod tokens;
pub mod value_steps;
pub mod values;
pub mod words;
pub mod wrong;
