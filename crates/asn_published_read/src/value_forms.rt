//! Values in braces that hold no others: of which form they are (X.680: "object identifier value", "real value",
//! "bitstring value", "restricted character string value").
use asn_published_text::token::{Kind, Sign};
use asn_published_text::tokens::{Tokens, next};
use asn_published_text::value_steps::after_signed_number;

/// The index after a name of a value at `at`, as `name` or `Module.name`; `None` where there is none.
fn after_name(tokens: &Tokens<'_>, at: usize) -> Option<usize> {
    if tokens.is_identifier(at) {
        return Some(next(at));
    }
    let dot = next(at);
    let name = next(dot);
    if tokens.is_capital(at) && tokens.is(dot, Sign::Dot) && tokens.is_identifier(name) {
        Some(next(name))
    } else {
        None
    }
}

/// The index after a number, or the name of one, at `at`; `None` where there is none.
fn after_number(tokens: &Tokens<'_>, at: usize) -> Option<usize> {
    if tokens.is_kind(at, Kind::Number) {
        Some(next(at))
    } else {
        after_name(tokens, at)
    }
}

/// The index after a number, one with a minus too, or the name of one, at `at`; `None` where there is none.
fn after_signed(tokens: &Tokens<'_>, at: usize) -> Option<usize> {
    match after_signed_number(tokens, at) {
        Some(behind) => Some(behind),
        None => after_name(tokens, at),
    }
}

/// The index after a component of an object identifier at `at`, as `iso`, `iso(1)`, `3` or `Module.name`; `None` where
/// there is none.
fn after_component(tokens: &Tokens<'_>, at: usize) -> Option<usize> {
    let behind = after_number(tokens, at)?;
    if !tokens.is_identifier(at) || !tokens.is(behind, Sign::LeftParen) {
        return Some(behind);
    }
    let close = tokens.other(behind);
    if after_number(tokens, next(behind)) == Some(close) {
        Some(next(close))
    } else {
        None
    }
}

/// Whether one component of an object identifier or more, and nothing else, stand in the braces at `braces`.
pub(crate) fn has_components(tokens: &Tokens<'_>, braces: usize) -> bool {
    let end = tokens.other(braces);
    let mut at = next(braces);
    let mut is_one = false;
    for _ in 0..tokens.len() {
        if at >= end {
            return is_one;
        }
        match after_component(tokens, at) {
            Some(behind) => at = behind,
            None => return false,
        }
        is_one = true;
    }
    false
}

/// What stands in a list with commas.
#[derive(Clone, Copy)]
enum Part {
    /// The name of a bit.
    Name,
    /// A part of a text.
    Text,
    /// A named number.
    Number,
    /// A named bit, whose number has no minus.
    Bit,
}

/// The index after a part of a list at `at`; `None` where there is none.
fn after_one(tokens: &Tokens<'_>, at: usize, part: Part) -> Option<usize> {
    match part {
        Part::Name if tokens.is_identifier(at) => Some(next(at)),
        Part::Name => None,
        Part::Text => after_part(tokens, at),
        Part::Number => after_named_number(tokens, at),
        Part::Bit => after_named_bit(tokens, at),
    }
}

/// Whether parts, with commas between them, stand in the braces at `braces`.
fn has_parts(tokens: &Tokens<'_>, braces: usize, part: Part) -> bool {
    let end = tokens.other(braces);
    let mut at = next(braces);
    for _ in 0..tokens.len() {
        let Some(behind) = after_one(tokens, at, part) else {
            return false;
        };
        if behind == end {
            return true;
        }
        if !tokens.is(behind, Sign::Comma) {
            return false;
        }
        at = next(behind);
    }
    false
}

/// Whether names of bits, with commas between them, stand in the braces at `braces`.
pub(crate) fn has_names(tokens: &Tokens<'_>, braces: usize) -> bool {
    has_parts(tokens, braces, Part::Name)
}

/// How many numbers, with commas between them, stand in the braces at `braces`; `None` where something else does, or
/// more than four.
fn count_of_numbers(tokens: &Tokens<'_>, braces: usize) -> Option<u32> {
    let end = tokens.other(braces);
    let mut at = next(braces);
    for count in 1..5 {
        if !tokens.is_kind(at, Kind::Number) {
            return None;
        }
        if next(at) == end {
            return Some(count);
        }
        if !tokens.is(next(at), Sign::Comma) {
            return None;
        }
        at = next(next(at));
    }
    None
}

/// Whether a character by its numbers, two or four of them, stands in the braces at `braces`.
fn has_character(tokens: &Tokens<'_>, braces: usize) -> bool {
    tokens.is(braces, Sign::LeftBrace)
        && matches!(count_of_numbers(tokens, braces), Some(2) | Some(4))
}

/// The index after a part of a text at `at`: characters in quotes, a name, or a character by its numbers; `None` where
/// there is none.
fn after_part(tokens: &Tokens<'_>, at: usize) -> Option<usize> {
    if tokens.is_kind(at, Kind::Text) {
        return Some(next(at));
    }
    if has_character(tokens, at) {
        return Some(tokens.after(at));
    }
    after_name(tokens, at)
}

/// Whether a character by its numbers, or parts of a text with commas between them, stand in the braces at `braces`.
pub(crate) fn has_characters(tokens: &Tokens<'_>, braces: usize) -> bool {
    has_character(tokens, braces) || has_parts(tokens, braces, Part::Text)
}

/// The index after the name of a part of a REAL and its number at `at`; `None` where they do not stand there.
fn after_part_of_real(tokens: &Tokens<'_>, at: usize, name: &str) -> Option<usize> {
    if tokens.is_word(at, name) {
        after_signed(tokens, next(at))
    } else {
        None
    }
}

/// Whether the mantissa, the base and the exponent of a REAL stand in the braces at `braces`.
pub(crate) fn has_parts_of_real(tokens: &Tokens<'_>, braces: usize) -> bool {
    let mut at = next(braces);
    for name in &["mantissa", "base", "exponent"] {
        let Some(behind) = after_part_of_real(tokens, at, *name) else {
            return false;
        };
        at = behind;
        if tokens.is(at, Sign::Comma) {
            at = next(at);
        } else {
            return *name == "exponent" && at == tokens.other(braces);
        }
    }
    false
}

/// The index after a named number at `at`, as `name(5)` and `name(-5)`; `None` where there is none.
pub(crate) fn after_named_number(tokens: &Tokens<'_>, at: usize) -> Option<usize> {
    let inside = inside_of_named(tokens, at)?;
    after_closing(tokens, at, after_signed(tokens, inside)?)
}

/// The index after a named bit at `at`, as `name(5)`; `None` where there is none.
fn after_named_bit(tokens: &Tokens<'_>, at: usize) -> Option<usize> {
    let inside = inside_of_named(tokens, at)?;
    after_closing(tokens, at, after_number(tokens, inside)?)
}

/// The index after an identifier at `at` and a parenthesis; `None` where they do not stand there.
fn inside_of_named(tokens: &Tokens<'_>, at: usize) -> Option<usize> {
    let open = next(at);
    if tokens.is_identifier(at) && tokens.is(open, Sign::LeftParen) {
        Some(next(open))
    } else {
        None
    }
}

/// The index after the parenthesis that closes the one after `at`; `None` where another index than `close` has it.
fn after_closing(tokens: &Tokens<'_>, at: usize, close: usize) -> Option<usize> {
    if tokens.other(next(at)) == close {
        Some(next(close))
    } else {
        None
    }
}

/// Whether named numbers, with commas between them, stand in the braces at `braces`.
pub(crate) fn has_named_numbers(tokens: &Tokens<'_>, braces: usize) -> bool {
    has_parts(tokens, braces, Part::Number)
}

/// Whether named bits, with commas between them, stand in the braces at `braces`.
pub(crate) fn has_named_bits(tokens: &Tokens<'_>, braces: usize) -> bool {
    has_parts(tokens, braces, Part::Bit)
}

/// Whether a tag stands in the brackets at `at`, as `[APPLICATION 5]`, or they begin an encoding prefix.
pub(crate) fn has_tag(tokens: &Tokens<'_>, at: usize) -> bool {
    let mut start = next(at);
    if tokens.is(at, Sign::Prefix) {
        return true;
    }
    if tokens.is_word(start, "TAG") && tokens.is(next(start), Sign::Colon) {
        start = next(next(start));
    }
    if tokens.is_one_of(start, &["UNIVERSAL", "APPLICATION", "PRIVATE"]) {
        start = next(start);
    }
    after_number(tokens, start) == Some(tokens.other(at))
}
