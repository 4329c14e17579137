//! Places in a text, and the line of one with a mark under it.

use crate::listing::{after_begin, is_assignment};
use asn_notation::{Lexeme, first_token, skip_blank};
use std::alloc::{AllocError, Global};

/// A place in a text, counted from 1 in lines and in the characters of a line, and the text before it.
#[derive(Drop)]
pub(crate) struct Place {
    pub line: usize,
    pub column: usize,
    pub before: String,
}

/// The place of an octet, counted from 0.
pub(crate) fn place_at(alloc: Global, text: &str, at: usize) -> Result<Place, AllocError> {
    let mut line: usize = 1;
    let mut column: usize = 1;
    let mut before = String::new(alloc);
    for character in text.chars() {
        if before.len() >= at {
            break;
        }
        before.push(character)?;
        if character == '\n' {
            line = line.saturating_add(1);
            column = 1;
        } else {
            column = column.saturating_add(1);
        }
    }
    Ok(Place {
        line,
        column,
        before,
    })
}

/// The octet at which a name stands after BEGIN: where it is assigned, or else where it is referred to, after that many
/// earlier times.
pub(crate) fn name_at(text: &str, name: &str, assigned: bool, earlier: usize) -> Option<usize> {
    let mut rest = after_begin(text);
    let mut passed: usize = 0;
    'tokens: loop {
        match first_token(rest) {
            None => return None,
            Some((lexeme, after)) => {
                if is_name(lexeme, name) && is_assignment(after) == assigned {
                    if passed == earlier {
                        return Some(text.len().saturating_sub(skip_blank(rest).len()));
                    }
                    passed = passed.saturating_add(1);
                }
                rest = after;
            }
        }
    }
}

/// Whether the token is this name.
fn is_name(lexeme: Lexeme<'_>, name: &str) -> bool {
    match lexeme {
        Lexeme::Name(other) => *other == *name,
        _ => false,
    }
}

/// Words about a place, after its line and column; then the line itself, and under it a mark at the column.
pub(crate) fn marked(
    alloc: Global,
    text: &str,
    place: &Place,
    words: &str,
) -> Result<String, AllocError> {
    let (number, column) = (place.line, place.column);
    let line = line_of(text, number);
    let mut shown = format!(in alloc; "line {number}, column {column}: {words}\n{line}\n")?;
    for (index, character) in line.chars().enumerate() {
        if index >= column.saturating_sub(1) {
            break;
        }
        shown.push(if character == '\t' { '\t' } else { ' ' })?;
    }
    shown.push('^')?;
    Ok(shown)
}

/// The line of this number, counted from 1; an empty one after the last.
fn line_of(text: &str, number: usize) -> &str {
    for (index, line) in text.lines().enumerate() {
        if index == number.saturating_sub(1) {
            return line;
        }
    }
    ""
}
