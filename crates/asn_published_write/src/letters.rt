//! Which characters a constraint leaves (X.691, "permitted alphabet").
use asn_constraints::Interval;
use asn_published_text::nodes::Letters;
use asn_published_types::intervals::{between, joined};
use asn_published_types::ranges::Ranges;
use std::alloc::{AllocError, Global};

/// Whether a kind of string has the character with this code.
fn has_letter(kind: Letters, code: i128) -> bool {
    match kind {
        Letters::Ia5 => code < 128,
        Letters::Visible => 32 <= code && code < 127,
        Letters::Numeric => code == 32 || (48 <= code && code < 58),
        Letters::Printable => {
            (48 <= code && code < 58)
                || (65 <= code && code < 91)
                || (97 <= code && code < 123)
                || [32, 39, 40, 41, 43, 44, 45, 46, 47, 58, 61, 63].contains(&code)
        }
    }
}

/// The codes of the characters of a kind of string.
pub(crate) fn letters_of(alloc: Global, kind: Letters) -> Result<Vec<Interval>, AllocError> {
    let mut letters = Vec::new(alloc);
    for code in 0..128u8 {
        let code = i128::from(code);
        if has_letter(kind, code) {
            let more = between(alloc, code, code)?;
            letters = joined(alloc, letters.as_slice(), more.as_slice())?;
        }
    }
    Ok(letters)
}

/// Whether a character of a kind of string, with this code, is left.
fn is_left(kind: Letters, left: &Ranges, code: i128) -> bool {
    if !has_letter(kind, code) {
        return false;
    }
    for range in &left.ranges {
        let is_above = match range.low {
            Some(low) => low <= code,
            None => true,
        };
        let is_below = match range.high {
            Some(high) => code <= high,
            None => true,
        };
        if is_above && is_below {
            return true;
        }
    }
    false
}

/// Whether the codes of characters stay those of the kind where these are left: all of NumericString, or more than
/// 64 of another kind, so that each has its own code in 7 bits.
pub(crate) fn keeps_codes(kind: Letters, left: &Ranges) -> bool {
    let mut count = 0u32;
    for code in 0..128u8 {
        if is_left(kind, left, i128::from(code)) {
            count = count.saturating_add(1);
        }
    }
    if kind == Letters::Numeric {
        count == 11
    } else {
        count > 64
    }
}

/// Whether each character of a kind of string is left.
pub(crate) fn are_all_left(kind: Letters, left: &Ranges) -> bool {
    for code in 0..128u8 {
        let code = i128::from(code);
        if has_letter(kind, code) && !is_left(kind, left, code) {
            return false;
        }
    }
    true
}

/// The profile's name of a kind of string.
pub(crate) fn name_of(kind: Letters) -> &'static str {
    match kind {
        Letters::Ia5 => "IA5String",
        Letters::Numeric => "NumericString",
        Letters::Visible | Letters::Printable => "VisibleString",
    }
}
