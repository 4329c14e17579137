//! Where the parts of constraints begin and end.
use asn_published_text::extents::type_end;
use asn_published_text::places::{Unseen, unseen_at};
use asn_published_text::refusal::{Refusal, Why, refused};
use asn_published_text::token::{Kind, Sign};
use asn_published_text::tokens::{Tokens, next};
use asn_published_text::value_steps::value_end;

/// The index of what ends the first constraint of a group, or `end`: a comma or `!` outside brackets.
pub(crate) fn root_end(tokens: &Tokens<'_>, start: usize, end: usize) -> usize {
    let mut at = start;
    for _ in 0..tokens.len() {
        if at >= end || tokens.is(at, Sign::Comma) || tokens.is(at, Sign::Bang) {
            return at;
        }
        at = tokens.after(at);
    }
    end
}

/// Whether an extension mark stands after the root that ends at `at`; a fault where something else does.
pub(crate) fn mark_at(tokens: &Tokens<'_>, at: usize, end: usize) -> Result<bool, Refusal> {
    if at >= end || tokens.is(at, Sign::Bang) {
        return Ok(false);
    }
    if tokens.is(next(at), Sign::Dots) {
        let behind = next(next(at));
        let goes_on = tokens.is(behind, Sign::Comma) || tokens.is(behind, Sign::Bang);
        if behind >= end || goes_on {
            return Ok(true);
        }
    }
    Err(refused(tokens.line(at), Why::Constraint))
}

/// The index after a constraint that no encoding rule sees, which begins with a word at `at`; `None` where it is
/// not understood.
pub(crate) fn after_unseen(tokens: &Tokens<'_>, at: usize) -> Option<usize> {
    if tokens.is_word(at, "WITH") && tokens.is_word(next(at), "COMPONENT") {
        return group_end(tokens, next(next(at)), Sign::LeftParen);
    }
    let (unseen, start) = unseen_at(tokens, at)?;
    match unseen {
        Unseen::Inner | Unseen::UserDefined => group_end(tokens, start, Sign::LeftBrace),
        Unseen::Value(_) => value_end(tokens, start).ok(),
        Unseen::Contents => after_contents(tokens, start),
        Unseen::Type => None,
    }
}

/// The index after the type at `at`, and after ENCODED BY and a value.
fn after_contents(tokens: &Tokens<'_>, at: usize) -> Option<usize> {
    let behind = type_end(tokens, at).ok()?;
    if tokens.is_word(behind, "ENCODED") && tokens.is_word(next(behind), "BY") {
        value_end(tokens, next(next(behind))).ok()
    } else {
        Some(behind)
    }
}

/// The index after a group that this bracket opens.
fn group_end(tokens: &Tokens<'_>, at: usize, sign: Sign) -> Option<usize> {
    if tokens.is(at, sign) {
        Some(tokens.after(at))
    } else {
        None
    }
}

/// The index after a table constraint or a value in braces.
pub(crate) fn after_table(tokens: &Tokens<'_>, at: usize) -> usize {
    let behind = tokens.after(at);
    if tokens.is(behind, Sign::LeftBrace) {
        tokens.after(behind)
    } else {
        behind
    }
}

/// The code of the only character of a text in quotes.
fn only_letter(text: &str) -> Option<i128> {
    let mut letters = text.chars().skip(1);
    let letter = letters.next()?;
    match letters.next() {
        Some('"') => Some(i128::from(u32::from(letter))),
        _ => None,
    }
}

/// The number at `at`, where it is at most this one and is followed by a sign.
fn part_at(tokens: &Tokens<'_>, at: usize, most: u32, sign: Sign) -> Option<i128> {
    if !tokens.is_kind(at, Kind::Number) || !tokens.is(next(at), sign) {
        return None;
    }
    match tokens.text(at).parse::<u32>() {
        Ok(number) if number <= most => Some(i128::from(number)),
        _ => None,
    }
}

/// The code of the character for which the numbers in the braces at `at` stand: column and row, or group, plane, row
/// and cell (X.680, "restricted character string types").
fn letter_of_numbers(tokens: &Tokens<'_>, at: usize) -> Option<i128> {
    let first = next(at);
    let second = next(next(first));
    if let Some(row) = part_at(tokens, second, 15, Sign::RightBrace) {
        let column = part_at(tokens, first, 7, Sign::Comma)?;
        return Some(column.saturating_mul(16).saturating_add(row));
    }
    let third = next(next(second));
    let mut code = part_at(tokens, first, 127, Sign::Comma)?;
    for part in [
        part_at(tokens, second, 255, Sign::Comma)?,
        part_at(tokens, third, 255, Sign::Comma)?,
        part_at(tokens, next(next(third)), 255, Sign::RightBrace)?,
    ] {
        code = code.saturating_mul(256).saturating_add(part);
    }
    Some(code)
}

/// The code of the character at `at`: the only one of a text in quotes, or by its numbers.
pub(crate) fn letter_at(tokens: &Tokens<'_>, at: usize) -> Option<i128> {
    if tokens.is(at, Sign::LeftBrace) {
        letter_of_numbers(tokens, at)
    } else {
        only_letter(tokens.text(at))
    }
}

/// The index after a value, MIN or MAX.
pub(crate) fn after_value(tokens: &Tokens<'_>, at: usize) -> Result<usize, Refusal> {
    if tokens.is_word(at, "MIN") || tokens.is_word(at, "MAX") {
        return Ok(next(at));
    }
    match value_end(tokens, at) {
        Ok(behind) => Ok(behind),
        Err(_) => Err(refused(tokens.line(at), Why::Constraint)),
    }
}
