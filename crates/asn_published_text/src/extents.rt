//! Where a type or a value ends, told by the lexical items outside of brackets alone: no call goes deeper for what
//! is nested deeper.
use crate::token::{Kind, Sign};
use crate::tokens::{Tokens, next};
use crate::wrong::TextFault;

/// The index after tags, as `[APPLICATION 5] IMPLICIT`.
pub fn after_tags(tokens: &Tokens<'_>, from: usize) -> usize {
    let mut at = from;
    for _ in 0..tokens.len() {
        if !tokens.is_bracket(at) {
            break;
        }
        at = tokens.after(at);
        if tokens.is_word(at, "IMPLICIT") || tokens.is_word(at, "EXPLICIT") {
            at = next(at);
        }
    }
    at
}

/// The index after constraints in parentheses.
pub fn after_constraints(tokens: &Tokens<'_>, from: usize) -> usize {
    let mut at = from;
    for _ in 0..tokens.len() {
        if !tokens.is(at, Sign::LeftParen) {
            break;
        }
        at = tokens.after(at);
    }
    at
}

/// The index after a group in braces, which must be at `from`.
pub fn after_braces(tokens: &Tokens<'_>, from: usize) -> Result<usize, TextFault> {
    if tokens.is(from, Sign::LeftBrace) {
        Ok(tokens.after(from))
    } else {
        Err(tokens.expected(from, "{"))
    }
}

/// What follows the words with which a type begins.
pub enum Rest {
    /// Nothing but constraints, from this index on.
    Constraints(usize),
    /// Another type, from this index on.
    Type(usize),
}

/// What stands after SEQUENCE or SET, from the index after that word.
fn rest_of_sequence(tokens: &Tokens<'_>, from: usize) -> Result<Rest, TextFault> {
    if tokens.is(from, Sign::LeftBrace) {
        return Ok(Rest::Constraints(tokens.after(from)));
    }
    let mut at = from;
    if tokens.is_word(at, "SIZE") {
        at = next(at);
        if !tokens.is(at, Sign::LeftParen) {
            return Err(tokens.expected(at, "("));
        }
    }
    if tokens.is(at, Sign::LeftParen) {
        at = tokens.after(at);
    }
    if !tokens.is_word(at, "OF") {
        return Err(tokens.expected(at, "OF or {"));
    }
    at = next(at);
    // an element may have a name
    if tokens.is_identifier(at) && !tokens.is(next(at), Sign::Less) {
        at = next(at);
    }
    Ok(Rest::Type(at))
}

/// What stands after the name of a type, or of a class with a field, from the index after that name.
fn rest_of_name(tokens: &Tokens<'_>, from: usize) -> Result<Rest, TextFault> {
    let mut at = from;
    for _ in 0..tokens.len() {
        if !tokens.is(at, Sign::Dot) {
            break;
        }
        at = next(at);
        if tokens.is(at, Sign::Ampersand) {
            at = next(at);
        }
        if !tokens.is_kind(at, Kind::Word) {
            return Err(tokens.expected(at, "a name"));
        }
        at = next(at);
    }
    if tokens.is(at, Sign::LeftBrace) {
        at = tokens.after(at);
    }
    Ok(Rest::Constraints(at))
}

/// Of a type that begins at `from`, after its tags, what follows its first words.
pub fn rest_of(tokens: &Tokens<'_>, from: usize) -> Result<Rest, TextFault> {
    let second = next(from);
    if tokens.is_identifier(from) && tokens.is(second, Sign::Less) {
        return Ok(Rest::Type(next(second)));
    }
    let is_object = tokens.is_identifier(from) && tokens.is(next(second), Sign::Ampersand);
    if is_object && tokens.is(second, Sign::Dot) {
        return rest_of_name(tokens, second);
    }
    if !tokens.is_capital(from) {
        return Err(tokens.expected(from, "a type"));
    }
    if tokens.is_one_of(from, &["SEQUENCE", "SET"]) {
        return rest_of_sequence(tokens, second);
    }
    if tokens.is_one_of(from, &["CHOICE", "ENUMERATED"]) {
        return Ok(Rest::Constraints(after_braces(tokens, second)?));
    }
    if tokens.is_word(from, "INSTANCE") {
        return rest_of_name(tokens, next(next(second)));
    }
    match after_words(tokens, from) {
        Some(behind) => Ok(Rest::Constraints(behind)),
        None => rest_of_name(tokens, second),
    }
}

/// The index after the words of a type that begins at `from`, and after the names in braces that may follow them;
/// `None` where it is not one of two words, INTEGER with names, or ANY DEFINED BY a name.
fn after_words(tokens: &Tokens<'_>, from: usize) -> Option<usize> {
    let second = next(from);
    let third = next(second);
    if tokens.is_one_of(from, &["BIT", "OCTET", "CHARACTER", "OBJECT", "EMBEDDED"]) {
        let has_names = tokens.is_word(from, "BIT") && tokens.is(third, Sign::LeftBrace);
        return Some(if has_names {
            tokens.after(third)
        } else {
            third
        });
    }
    if tokens.is_word(from, "INTEGER") && tokens.is(second, Sign::LeftBrace) {
        return Some(tokens.after(second));
    }
    if tokens.is_word(from, "ANY") && tokens.is_word(second, "DEFINED") {
        return Some(next(next(third)));
    }
    None
}

/// The index after a type that begins at `from`, with its tags and constraints.
pub fn type_end(tokens: &Tokens<'_>, from: usize) -> Result<usize, TextFault> {
    let mut at = from;
    for _ in 0..tokens.len() {
        at = after_tags(tokens, at);
        match rest_of(tokens, at)? {
            Rest::Constraints(behind) => return Ok(after_constraints(tokens, behind)),
            Rest::Type(inner) => at = inner,
        }
    }
    Err(tokens.expected(at, "a type"))
}
