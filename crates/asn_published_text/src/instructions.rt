//! Instructions of PER or OER in encoding prefixes (X.680, "encoding prefixed type"), which say how values are encoded.
use crate::token::Sign;
use crate::tokens::{Tokens, next};

/// Whether an encoding reference is one of PER or OER, whose instructions say how values are encoded.
pub fn is_own_reference(word: &str) -> bool {
    word == "PER" || word == "OER"
}

/// Whether one of the tags and encoding prefixes at `from` has an instruction of PER or OER.
pub fn has_own_instruction(tokens: &Tokens<'_>, from: usize) -> bool {
    let mut at = from;
    for _ in 0..tokens.len() {
        if !tokens.is_bracket(at) {
            break;
        }
        let reference = next(at);
        let is_named = tokens.is(next(reference), Sign::Colon);
        if tokens.is(at, Sign::Prefix) && is_named && is_own_reference(tokens.text(reference)) {
            return true;
        }
        at = tokens.after(at);
        if tokens.is_word(at, "IMPLICIT") || tokens.is_word(at, "EXPLICIT") {
            at = next(at);
        }
    }
    false
}
