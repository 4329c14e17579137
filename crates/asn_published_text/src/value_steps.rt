//! What a value begins with (X.680, "value assignment"), and where it ends.
use crate::extents::type_end;
use crate::token::{Kind, Sign};
use crate::tokens::{Tokens, next};
use crate::wrong::TextFault;

/// What a value begins with.
#[derive(Clone, Copy, PartialEq, Eq)]
pub enum Start {
    Truth,
    Null,
    /// A number, or a minus and a number that is not 0.
    Number,
    /// A number with a fraction or an exponent, -0, an infinity, or NOT-A-NUMBER.
    Real,
    /// Bits or octets in quotes.
    Quoted,
    /// Characters in quotes.
    Text,
    Braces,
    /// The name of a value, an item or a field of an object.
    Name,
    /// `identifier : value`.
    Choice,
    /// `Type : value`.
    Open,
    /// `CONTAINING value`.
    Containing,
}

/// What follows the lexical items with which a value begins.
#[derive(Clone, Copy)]
pub enum Follows {
    /// Nothing: the index after them.
    Nothing(usize),
    /// Another value, from this index on.
    Value(usize),
    /// What stands in the braces at this index.
    Braces(usize),
}

/// What a value begins with, and what follows.
#[derive(Clone, Copy)]
pub struct Step {
    pub start: Start,
    pub follows: Follows,
}

/// A value that has no parts, up to before `end`.
fn whole(start: Start, end: usize) -> Step {
    Step {
        start,
        follows: Follows::Nothing(end),
    }
}

/// The index after actual parameters, and fields of an object, as `{5}.&type.&id`, where they stand at `from`.
fn after_fields(tokens: &Tokens<'_>, from: usize) -> usize {
    let mut at = from;
    if tokens.is(at, Sign::LeftBrace) {
        at = tokens.after(at);
    }
    for _ in 0..tokens.len() {
        let sign = next(at);
        let is_field = tokens.is(sign, Sign::Ampersand) && tokens.is_kind(next(sign), Kind::Word);
        if !tokens.is(at, Sign::Dot) || !is_field {
            break;
        }
        at = next(next(sign));
    }
    at
}

/// The value that begins with an identifier at `at`.
fn named_at(tokens: &Tokens<'_>, at: usize) -> Step {
    let second = next(at);
    if tokens.is(second, Sign::Colon) {
        return Step {
            start: Start::Choice,
            follows: Follows::Value(next(second)),
        };
    }
    whole(Start::Name, after_fields(tokens, second))
}

/// The value of an open type, which begins with its type at `at`.
fn open_at(tokens: &Tokens<'_>, at: usize) -> Result<Step, TextFault> {
    match type_end(tokens, at) {
        Ok(colon) if tokens.is(colon, Sign::Colon) => Ok(Step {
            start: Start::Open,
            follows: Follows::Value(next(colon)),
        }),
        _ => Err(tokens.expected(at, "a value")),
    }
}

/// The value that begins with a capital at `at`.
fn capital_at(tokens: &Tokens<'_>, at: usize) -> Result<Step, TextFault> {
    let second = next(at);
    if tokens.is(second, Sign::Colon) {
        return open_at(tokens, at);
    }
    if tokens.is(second, Sign::Dot) && tokens.is_identifier(next(second)) {
        let behind = after_fields(tokens, next(next(second)));
        return Ok(whole(Start::Name, behind));
    }
    match tokens.text(at) {
        "TRUE" | "FALSE" => Ok(whole(Start::Truth, second)),
        "NULL" => Ok(whole(Start::Null, second)),
        "PLUS-INFINITY" | "MINUS-INFINITY" | "NOT-A-NUMBER" => Ok(whole(Start::Real, second)),
        "CONTAINING" => Ok(Step {
            start: Start::Containing,
            follows: Follows::Value(second),
        }),
        _ => open_at(tokens, at),
    }
}

/// The index after a number at `at`, or a minus and a number that is not 0 (X.680, "SignedNumber"); `None` where
/// neither is there.
pub fn after_signed_number(tokens: &Tokens<'_>, at: usize) -> Option<usize> {
    if tokens.is_kind(at, Kind::Number) {
        return Some(next(at));
    }
    let digits = next(at);
    if tokens.is(at, Sign::Minus)
        && tokens.is_kind(digits, Kind::Number)
        && tokens.text(digits) != "0"
    {
        Some(next(digits))
    } else {
        None
    }
}

/// The value that is a number, a text or digits in quotes at `at`.
fn written_at(tokens: &Tokens<'_>, at: usize) -> Result<Step, TextFault> {
    if let Some(behind) = after_signed_number(tokens, at) {
        return Ok(whole(Start::Number, behind));
    }
    let is_minus = tokens.is(at, Sign::Minus);
    let digits = if is_minus { next(at) } else { at };
    // (the number 0 after a minus)
    let is_zero = is_minus && tokens.is_kind(digits, Kind::Number);
    let start = if is_zero || tokens.is_kind(digits, Kind::Real) {
        Start::Real
    } else if tokens.is_kind(at, Kind::Text) {
        Start::Text
    } else if tokens.is_kind(at, Kind::Quoted) {
        Start::Quoted
    } else {
        return Err(tokens.expected(at, "a value"));
    };
    Ok(whole(start, next(digits)))
}

/// What the value at `at` begins with.
pub fn step_at(tokens: &Tokens<'_>, at: usize) -> Result<Step, TextFault> {
    if tokens.is(at, Sign::LeftBrace) {
        return Ok(Step {
            start: Start::Braces,
            follows: Follows::Braces(at),
        });
    }
    if tokens.is_identifier(at) {
        return Ok(named_at(tokens, at));
    }
    if tokens.is_capital(at) {
        return capital_at(tokens, at);
    }
    if tokens.is_bracket(at) {
        return open_at(tokens, at);
    }
    written_at(tokens, at)
}

/// The index after a value that begins at `from`, of which what is in braces is not read.
pub fn value_end(tokens: &Tokens<'_>, from: usize) -> Result<usize, TextFault> {
    let mut at = from;
    for _ in 0..tokens.len() {
        match step_at(tokens, at)?.follows {
            Follows::Nothing(behind) => return Ok(behind),
            Follows::Value(inner) => at = inner,
            Follows::Braces(braces) => return Ok(tokens.after(braces)),
        }
    }
    Err(tokens.expected(at, "a value"))
}
