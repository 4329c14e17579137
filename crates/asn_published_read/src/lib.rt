//! Reads published modules of ASN.1 (X.680 to X.683): lexical items, modules, and all that stands in their assignments.
#![tactic(auto)]

mod actual_reading;
mod assignments;
mod brackets;
mod class_reading;
mod comments;
mod constraint_reading;
mod lexer;
mod module_reading;
mod object_reading;
mod octets;
pub mod passing;
mod prefixes;
mod reading;
mod syntax_reading;
pub mod texts;
mod type_reading;
mod value_forms;
mod value_kinds;
mod value_reading;
mod value_sets;
mod xml;
