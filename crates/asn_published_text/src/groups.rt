//! Where addition groups begin and end (X.680, "sequence type").
use crate::token::{Kind, Sign};
use crate::tokens::{Tokens, next};

/// Whether `[[` is at `at`.
pub fn is_group(tokens: &Tokens<'_>, at: usize) -> bool {
    tokens.is(at, Sign::LeftBracket) && tokens.is(next(at), Sign::LeftBracket)
}

/// Whether `]]` is at `at`.
pub fn is_group_end(tokens: &Tokens<'_>, at: usize) -> bool {
    tokens.is(at, Sign::RightBracket) && tokens.is(next(at), Sign::RightBracket)
}

/// The index after the number of a version, as `2:`, if it is at `at`.
pub fn after_version(tokens: &Tokens<'_>, at: usize) -> usize {
    if tokens.is_kind(at, Kind::Number) && tokens.is(next(at), Sign::Colon) {
        next(next(at))
    } else {
        at
    }
}
