//! Values in quotes: bits, octets and characters (X.680, "bstring", "hstring", "cstring").
use asn_published_text::token::Kind;
use asn_published_text::tokens::{Tokens, next};
use asn_values::Value;
use std::alloc::{AllocError, Global};

/// The value of a digit, of as many as there are; `None` where it is no such digit.
fn digit_of(letter: u8, is_binary: bool) -> Option<u8> {
    match letter {
        b'0'..=b'1' => Some(letter - b'0'),
        b'2'..=b'9' if !is_binary => Some(letter - b'0'),
        b'A'..=b'F' if !is_binary => Some(letter - b'A' + 10),
        _ => None,
    }
}

/// The bits of the digits in quotes at `at`, as `'1010'B` or `'A'H`; `None` where there are none.
pub(crate) fn bits_of(
    alloc: Global,
    tokens: &Tokens<'_>,
    at: usize,
) -> Result<Option<Vec<bool>>, AllocError> {
    if !tokens.is_kind(at, Kind::Quoted) {
        return Ok(None);
    }
    let text = tokens.text(at);
    let is_binary = text.ends_with("B");
    let width = if is_binary { 1u8 } else { 4u8 };
    let mut bits = Vec::new(alloc);
    let mut quotes = 0u32;
    for letter in text.as_bytes() {
        if *letter == b'\'' {
            quotes = quotes.saturating_add(1);
        }
        if quotes > 1 {
            break;
        }
        if let Some(digit) = digit_of(*letter, is_binary) {
            for place in (0..width).rev() {
                bits.push(digit & (1u8 << place) != 0)?;
            }
        }
    }
    Ok(Some(bits))
}

/// The octets of the digits in quotes at `at`, with zeros behind where they end in an octet, and the index after them.
pub(crate) fn octets_of(
    alloc: Global,
    tokens: &Tokens<'_>,
    at: usize,
) -> Result<Option<(Value, usize)>, AllocError> {
    let Some(bits) = bits_of(alloc, tokens, at)? else {
        return Ok(None);
    };
    let mut octets = Vec::new(alloc);
    let mut octet = 0u8;
    let mut mask = 128u8;
    for bit in &bits {
        if *bit {
            octet |= mask;
        }
        mask /= 2;
        if mask == 0 {
            octets.push(octet)?;
            octet = 0;
            mask = 128;
        }
    }
    if mask != 128 {
        octets.push(octet)?;
    }
    Ok(Some((Value::Octets(octets), next(at))))
}

/// The characters in quotes at `at`, on one line, and the index after them: of a UTF8String or another string.
pub(crate) fn characters_of(
    alloc: Global,
    tokens: &Tokens<'_>,
    at: usize,
    is_utf8: bool,
) -> Result<Option<(Value, usize)>, AllocError> {
    if !tokens.is_kind(at, Kind::Text) {
        return Ok(None);
    }
    let mut text = String::new(alloc);
    let mut codes = Vec::new(alloc);
    let mut is_quote = true;
    let mut length = 0usize;
    for letter in tokens.text(at).chars() {
        length = length.saturating_add(1);
        // (the first quote opens the text, and inside each is written twice)
        is_quote = letter == '"' && !is_quote;
        if letter == '\n' || (letter == '"' && (is_quote || length == 1)) {
            if letter == '\n' {
                return Ok(None);
            }
            continue;
        }
        text.push(letter)?;
        codes.push(match u8::try_from(u32::from(letter)) {
            Ok(code) => code,
            Err(_) => 255,
        })?;
    }
    let value = if is_utf8 {
        Value::Utf8(text)
    } else {
        Value::Text(codes)
    };
    Ok(Some((value, next(at))))
}
