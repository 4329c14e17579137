//! Where the field of a class or of an object stands (X.681, "object class field type").
use crate::token::Sign;
use crate::tokens::{Tokens, next};

/// The index of the `&` of the field at `at`, as `Name.&field` or `Module.Name.&field`; `None` where none is there.
pub fn sign_of_field(tokens: &Tokens<'_>, at: usize) -> Option<usize> {
    let mut dot = next(at);
    if tokens.is(dot, Sign::Dot) && tokens.is_capital(next(dot)) {
        dot = next(next(dot));
    }
    let sign = next(dot);
    if tokens.is(dot, Sign::Dot) && tokens.is(sign, Sign::Ampersand) {
        Some(sign)
    } else {
        None
    }
}

/// Whether the field of a class is at `at`.
pub fn is_class_field(tokens: &Tokens<'_>, at: usize) -> bool {
    sign_of_field(tokens, at).is_some()
}
