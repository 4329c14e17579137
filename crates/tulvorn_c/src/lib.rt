//! The library for C: each export restates the clause of the call of `tulvorn` that it makes, of
//! what handles hold. What each export takes, writes and answers, code by code, stands in
//! `bindings/c/tulvorn.h`.
#![tactic(auto)]

mod conversions;
mod differences;
mod explain;
mod fault;
mod handle;
mod held;
mod json;
mod levels;
mod loose;
mod messages;
mod misfits;
mod modules;
mod newer;
mod object;
mod octets;
mod part_octets;
mod parts;
mod paths;
mod pieces;
mod sessions;
mod shown;
mod within;
mod words;
