//! Words of hexadecimal dumps: what is between blanks, offsets, and the text column.
ghost use Rattle.std.specs.Prelude.{◌≡◌, ◌≤◌, None, Some, MatchOption, length};
ghost use Rattle.std.specs.List.{list_all, position_or_len};
ghost use Rattle.asn_jobs.specs.Texts.{is_blank};
ghost use Rattle.hex.specs.Hex.{hex_digit_value, is_hex_digit};
ghost use Rattle.asn_jobs.specs.DumpWords.{are_blanks, begins_with_blank, is_bare_column, is_column, is_quoted_column, is_text, number, offset_of, rest_after, unblanked, without_end, word_before};

use crate::texts::is_blank;

/// What offsets are less than.
const OFFSET_LIMIT: u64 = 17_592_186_044_416;

/// The text without the blanks in front.
pub(crate) fn unblanked(text: &[u8]) -> &[u8]
    ensures { result.now ≡ unblanked text.now }
{
    let mut rest = text;
    while let [first, later @ ..] = rest {
        if !is_blank(*first) {
            return rest;
        }
        rest = later;
    }
    rest
}

/// Whether a text has no more than blanks.
pub(crate) fn are_blanks(text: &[u8]) -> bool
    ensures { result ≡ are_blanks text.now }
{
    text.iter().all(|octet| is_blank(*octet))
}

/// How many octets are before the first blank.
fn word_len(text: &[u8]) -> usize
    ensures value { result ≡ position_or_len is_blank text.now }
    ensures within { result ≤ length text.now }
{
    match text.iter().position(|octet| is_blank(*octet)) {
        Some(length) => length,
        None => text.len(),
    }
}

/// The word with which a text begins, and what follows it.
pub(crate) fn split_word(text: &[u8]) -> (&[u8], &[u8])
    ensures word { result.0.now ≡ word_before text.now }
    ensures rest { result.1.now ≡ rest_after text.now }
{
    text.split_at(word_len(text))
}

/// Whether a text begins with a blank.
pub(crate) fn begins_with_blank(text: &[u8]) -> bool
    ensures { result ≡ begins_with_blank text.now }
{
    match text {
        [first, ..] => is_blank(*first),
        [] => false,
    }
}

/// The text without this octet at its end, if it is there.
pub(crate) fn without_end(text: &[u8], end: u8) -> Option<&[u8]>
    ensures { MatchOption result (without_end end text.now ≡ None)
        (λ front. without_end end text.now ≡ Some front.now) }
{
    if text.last() == Some(&end) {
        Some(text.split_at(text.len() - 1).0)
    } else {
        None
    }
}

/// The number of a hexadecimal digit.
fn digit_value(octet: u8) -> Option<u8>
    ensures { result ≡ hex_digit_value octet }
{
    match octet {
        b'A'..=b'F' => Some(octet - 55),
        b'a'..=b'f' => Some(octet - 87),
        b'0'..=b'9' => Some(octet - 48),
        _ => None,
    }
}

/// Whether an octet is a hexadecimal digit.
pub(crate) fn is_digit(octet: u8) -> bool
    ensures { result ≡ is_hex_digit octet }
{
    digit_value(octet).is_some()
}

/// Whether a word has hexadecimal digits and nothing else.
pub(crate) fn are_digits(word: &[u8]) -> bool
    ensures { result ≡ list_all is_hex_digit word.now }
{
    word.iter().all(|octet| is_digit(*octet))
}

/// The number of these hexadecimal digits, if they are no others and it is not past the limit.
fn number(digits: &[u8]) -> Option<u64>
    ensures { result ≡ number 0 digits.now }
{
    let mut value: u64 = 0;
    let mut rest = digits;
    while let [first, later @ ..] = rest {
        let Some(digit) = digit_value(*first) else {
            return None;
        };
        if value >= OFFSET_LIMIT {
            return None;
        }
        value = value * 16 + u64::from(digit);
        rest = later;
    }
    Some(value)
}

/// The offset that a word is: 4 to 16 hexadecimal digits.
pub(crate) fn offset_of(word: &[u8]) -> Option<u64>
    ensures { result ≡ offset_of word.now }
{
    if word.len() > 3 && word.len() < 17 {
        number(word)
    } else {
        None
    }
}

/// Whether a text is that of these octets: each character is the octet or a full stop.
fn is_text(octets: &[u8], text: &[u8]) -> bool
    ensures { result ≡ is_text octets.now text.now }
{
    let mut octets = octets;
    let mut text = text;
    while let [octet, later @ ..] = octets {
        let [character, others @ ..] = text else {
            return false;
        };
        if *character != *octet && *character != b'.' {
            return false;
        }
        octets = later;
        text = others;
    }
    text.is_empty()
}

/// Whether this is blanks, and the text of the octets.
fn is_bare_column(octets: &[u8], rest: &[u8]) -> bool
    ensures { result ≡ is_bare_column octets.now rest.now }
{
    if rest.len() <= octets.len() {
        return false;
    }
    let (gap, text) = rest.split_at(rest.len() - octets.len());
    are_blanks(gap) && is_text(octets, text)
}

/// Whether this is blanks, and the text of the octets between two characters.
fn is_quoted_column(left: u8, right: u8, octets: &[u8], rest: &[u8]) -> bool
    ensures { result ≡ is_quoted_column left right octets.now rest.now }
{
    let Some(inner) = without_end(rest, right) else {
        return false;
    };
    if inner.len() <= octets.len() {
        return false;
    }
    let (front, text) = inner.split_at(inner.len() - octets.len());
    let Some(gap) = without_end(front, left) else {
        return false;
    };
    are_blanks(gap) && is_text(octets, text)
}

/// Whether this is the text column of the octets before it.
pub(crate) fn is_column(octets: &[u8], rest: &[u8]) -> bool
    ensures { result ≡ is_column octets.now rest.now }
{
    is_bare_column(octets, rest)
        || is_quoted_column(b'|', b'|', octets, rest)
        || is_quoted_column(b'>', b'<', octets, rest)
}
