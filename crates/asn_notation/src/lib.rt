//! Reads the notation of ASN.1 (X.680) as far as the profile has it: a module's text, as a tree.
#![tactic(auto)]

mod constraints;
mod enumerations;
mod fault;
pub mod laws;
mod lexer;
mod modules;
mod nesting;
mod notation;
mod parts;
mod token;
mod types;

pub use constraints::constraint_at;
pub use fault::SyntaxFault;
pub use lexer::{first_token, skip_blank};
pub use modules::read_notation;
pub use notation::{
    AlternativeNotation, AssignmentNotation, ComponentNotation, Constraint, DefaultNotation,
    ItemNotation, Limits, ListSize, ModuleNotation, NeedNotation, RangeNotation, SizeEnd,
    SizeNotation, StringKind, TypeNotation,
};
pub use token::{Lexeme, Sign, Word};
