//! What stands at a place of a constraint.
use crate::token::Sign;
use crate::tokens::{Tokens, next};
use crate::values::Values;

/// Whether `|` or UNION is at `at`.
pub fn is_or(tokens: &Tokens<'_>, at: usize) -> bool {
    tokens.is(at, Sign::Bar) || tokens.is_word(at, "UNION")
}

/// Whether `^` or INTERSECTION is at `at`.
pub fn is_and(tokens: &Tokens<'_>, at: usize) -> bool {
    tokens.is(at, Sign::Caret) || tokens.is_word(at, "INTERSECTION")
}

/// A constraint that no encoding rule sees.
#[derive(Clone, Copy)]
pub enum Unseen {
    /// WITH COMPONENTS, and braces.
    Inner,
    /// CONSTRAINED BY, and braces.
    UserDefined,
    /// A word or two, and a value of a type that has these.
    Value(Values),
    /// CONTAINING, and a type.
    Contents,
    /// INCLUDES, and a type.
    Type,
}

/// The words with which such constraints begin: the first, and the second where there is one.
const UNSEEN: [(&str, &str, Unseen); 7] = [
    ("WITH", "COMPONENTS", Unseen::Inner),
    ("CONSTRAINED", "BY", Unseen::UserDefined),
    ("ENCODED", "BY", Unseen::Value(Values::Identifier)),
    ("PATTERN", "", Unseen::Value(Values::Letters)),
    ("SETTINGS", "", Unseen::Value(Values::Text)),
    ("CONTAINING", "", Unseen::Contents),
    ("INCLUDES", "", Unseen::Type),
];

/// The constraint that no encoding rule sees, whose words are at `at`, and the index after these words; `None`
/// where there is none.
pub fn unseen_at(tokens: &Tokens<'_>, at: usize) -> Option<(Unseen, usize)> {
    let second = next(at);
    for (one, other, unseen) in &UNSEEN {
        if tokens.is_word(at, *one) {
            if other.is_empty() {
                return Some((*unseen, second));
            }
            if tokens.is_word(second, *other) {
                return Some((*unseen, next(second)));
            }
        }
    }
    None
}

/// The words in capitals that are values or ends of ranges.
const WORDS_OF_VALUES: [&str; 8] = [
    "TRUE",
    "FALSE",
    "NULL",
    "MIN",
    "MAX",
    "PLUS-INFINITY",
    "MINUS-INFINITY",
    "NOT-A-NUMBER",
];

/// Whether a type is at `at`, and no value.
pub fn is_contained(tokens: &Tokens<'_>, at: usize) -> bool {
    if !tokens.is_capital(at) || tokens.is(next(at), Sign::Colon) {
        return false;
    }
    if tokens.is(next(at), Sign::Dot) {
        return tokens.is_capital(next(next(at)));
    }
    !tokens.is_one_of(at, &WORDS_OF_VALUES)
}
