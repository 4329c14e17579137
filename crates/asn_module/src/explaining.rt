//! What is wrong with a refused text, in words. No contract rests on what is answered here.

use crate::fault::ModuleFault;
use crate::places::{Place, marked, name_at, place_at};
use asn_notation::{Lexeme, SyntaxFault, first_token, read_notation, skip_blank};
use asn_values::profile::MAX_LEVELS;
use std::alloc::{AllocError, Global};

/// Tokens that could stand somewhere, and how each is called.
const TOKENS: [(&str, &str); 24] = [
    ("a", "an identifier"),
    ("1", "a number"),
    ("MIN", "MIN"),
    ("MAX", "MAX"),
    ("TRUE", "TRUE"),
    ("FALSE", "FALSE"),
    ("SIZE", "SIZE"),
    ("OF", "OF"),
    ("STRING", "STRING"),
    ("OPTIONAL", "OPTIONAL"),
    ("DEFAULT", "DEFAULT"),
    ("DEFINITIONS", "DEFINITIONS"),
    ("AUTOMATIC", "AUTOMATIC"),
    ("TAGS", "TAGS"),
    ("BEGIN", "BEGIN"),
    ("END", "END"),
    ("::=", "\"::=\""),
    ("...", "\"...\""),
    ("..", "\"..\""),
    ("{", "\"{\""),
    ("}", "\"}\""),
    ("(", "\"(\""),
    (")", "\")\""),
    (",", "\",\""),
];

/// The first octets of a text, up to the end of a character, in quotes.
fn quoted(alloc: Global, text: &str, length: usize) -> Result<String, AllocError> {
    let mut token = String::new(alloc);
    for character in text.chars() {
        if token.len() >= length {
            break;
        }
        token.push(character)?;
    }
    format!(in alloc; "\"{token}\"")
}

/// The token at an octet of a text, in quotes; the first character where no token begins there.
fn token_at(alloc: Global, text: &str, at: usize) -> Result<String, AllocError> {
    let mut rest = text;
    'tokens: loop {
        match first_token(rest) {
            None => return String::from_str(alloc, "the end of the text"),
            Some((lexeme, after)) => {
                let token = skip_blank(rest);
                if text.len().saturating_sub(token.len()) >= at {
                    let length = token.len().saturating_sub(after.len());
                    return quoted(
                        alloc,
                        token,
                        if matches!(lexeme, Lexeme::Illegal) {
                            1
                        } else {
                            length
                        },
                    );
                }
                rest = after;
            }
        }
    }
}

/// Whether a module can go on with a token after a text.
fn may_follow(alloc: Global, before: &str, token: &str) -> Result<bool, AllocError> {
    let text = format!(in alloc; "{before} {token}")?;
    match read_notation(alloc, &text, MAX_LEVELS) {
        Ok(_) => Ok(true),
        Err(SyntaxFault::Unexpected { left }) => Ok(left == 0),
        Err(SyntaxFault::Memory) => Err(AllocError),
        Err(_) => Ok(false),
    }
}

/// Adds what a token is called to those before it, where a module can go on with it after a text.
fn push_expected(
    alloc: Global,
    all: &mut String,
    before: &str,
    token: &str,
    called: &str,
) -> Result<(), AllocError> {
    if !may_follow(alloc, before, token)? {
        return Ok(());
    }
    if !all.is_empty() {
        all.push_str(" or ")?;
    }
    all.push_str(called)
}

/// The tokens with which a module can go on after a text, in words; nothing where the text has a fault itself.
fn expected(alloc: Global, before: &str) -> Result<String, AllocError> {
    let mut all = String::new(alloc);
    push_expected(alloc, &mut all, before, "NULL", "a type")?;
    if all.is_empty() {
        push_expected(alloc, &mut all, before, "N", "a name")?;
    }
    for (token, called) in &TOKENS {
        push_expected(alloc, &mut all, before, token, called)?;
    }
    Ok(all)
}

/// What is wrong with a text that `read` refused with this fault, in words: the line and the column, what is there,
/// and what could be there instead. Then the line itself follows, and under it a mark at the column.
///
/// A name that is assigned twice is shown at its second assignment, and an unknown one where it is first referred to.
/// The name of a cycle, of a type that is none of the profile, or of one with which the module is too large, is shown where
/// it is assigned. Of a fault without a
/// place, it is what `Display` says of it.
///
/// # Errors
/// `AllocError` where an allocation failed.
pub fn explain(alloc: Global, text: &str, fault: &ModuleFault) -> Result<String, AllocError> {
    match fault {
        ModuleFault::Character { at } => {
            let token = token_at(alloc, text, *at)?;
            let words = format!(in alloc; "no token begins with {token}")?;
            marked(alloc, text, &place_at(alloc, text, *at)?, &words)
        }
        ModuleFault::Unexpected { at } => {
            let place = place_at(alloc, text, *at)?;
            let words = unexpected(alloc, text, *at, &place)?;
            marked(alloc, text, &place, &words)
        }
        ModuleFault::OutOfProfile { at } => {
            let words = out_of_profile(alloc, &token_at(alloc, text, *at)?)?;
            marked(alloc, text, &place_at(alloc, text, *at)?, &words)
        }
        ModuleFault::Unknown { name } => named(alloc, text, fault, name_at(text, name, false, 0)),
        ModuleFault::Twice { name } => named(alloc, text, fault, name_at(text, name, true, 1)),
        ModuleFault::Cycle { name }
        | ModuleFault::BadType { name, .. }
        | ModuleFault::TooLarge { name, .. } => {
            named(alloc, text, fault, name_at(text, name, true, 0))
        }
        ModuleFault::Memory => format!(in alloc; "{fault}"),
    }
}

/// What is said of a token with which no module can go on.
fn unexpected(alloc: Global, text: &str, at: usize, place: &Place) -> Result<String, AllocError> {
    let token = token_at(alloc, text, at)?;
    let wanted = expected(alloc, &place.before)?;
    if wanted.is_empty() {
        return format!(in alloc; "{token} is unexpected");
    }
    format!(in alloc; "{token} where {wanted} was expected")
}

/// What is said of a token that is outside the profile.
fn out_of_profile(alloc: Global, token: &str) -> Result<String, AllocError> {
    if *token == *"\"(\"" {
        return String::from_str(alloc, "a constraint that may not stand on this type");
    }
    format!(in alloc; "{token} is outside the profile")
}

/// What `Display` says of a fault, at the octet where the name stands that it tells.
fn named(
    alloc: Global,
    text: &str,
    fault: &ModuleFault,
    at: Option<usize>,
) -> Result<String, AllocError> {
    let words = format!(in alloc; "{fault}")?;
    match at {
        Some(at) => marked(alloc, text, &place_at(alloc, text, at)?, &words),
        None => Ok(words),
    }
}
