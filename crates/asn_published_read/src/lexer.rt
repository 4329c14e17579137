//! Cuts a text into its lexical items (X.680, "ASN.1 lexical items"), with both kinds of comment and a byte order mark in
//! front.
use crate::comments::after_comment;
use crate::octets::{Place, after_blank, is_blank, octet_at, on, step};
use crate::xml::after_xml;
use asn_published_text::token::{Kind, Sign, Token};
use asn_published_text::wrong::{TextFault, Wrong};
use std::alloc::Global;

/// What may stand in front of a text, and is no part of it.
const BYTE_ORDER_MARK: char = '\u{FEFF}';

/// How many characters a name may have, which stands in each line of a report.
const MOST_CHARACTERS: usize = 1000;

/// The place of the next lexical item, or the end.
fn skip_blank(octets: &[u8], from: Place) -> Result<Place, TextFault> {
    let mut place = from;
    for _ in 0..u64::MAX {
        match after_comment(octets, place)? {
            Some(after) => place = after,
            None if is_blank(octets, place.at) => place = after_blank(octets, place),
            None => break,
        }
    }
    Ok(place)
}

/// The index after a word that begins at `from`: a hyphen belongs to it only before a letter or digit.
fn after_word(octets: &[u8], from: usize) -> usize {
    let mut at = from;
    for _ in 0..octets.len() {
        let octet = octet_at(octets, at);
        let goes_on = octet.is_ascii_alphanumeric()
            || (octet == b'-' && octet_at(octets, on(at, 1)).is_ascii_alphanumeric());
        if !goes_on {
            break;
        }
        at = on(at, 1);
    }
    at
}

/// The place after a word, which is not too long.
fn after_name(octets: &[u8], from: Place) -> Result<Place, TextFault> {
    let at = after_word(octets, from.at);
    if at.saturating_sub(from.at) > MOST_CHARACTERS {
        return Err(TextFault::At {
            line: from.line,
            wrong: Wrong::LongName,
        });
    }
    Ok(Place {
        at,
        line: from.line,
    })
}

/// The index after the digits that begin at `from`.
fn after_digits(octets: &[u8], from: usize) -> usize {
    let mut at = from;
    for _ in 0..octets.len() {
        if !octet_at(octets, at).is_ascii_digit() {
            break;
        }
        at = on(at, 1);
    }
    at
}

/// The kind of the number that begins at `from`, and the index after it.
fn after_number(octets: &[u8], from: usize) -> (Kind, usize) {
    let mut at = after_digits(octets, from);
    let mut kind = Kind::Number;
    if octet_at(octets, at) == b'.' && octet_at(octets, on(at, 1)) != b'.' {
        at = after_digits(octets, on(at, 1));
        kind = Kind::Real;
    }
    if matches!(octet_at(octets, at), b'e' | b'E') {
        let signed = octet_at(octets, on(at, 1)) == b'-';
        let digits = on(at, if signed { 2 } else { 1 });
        if octet_at(octets, digits).is_ascii_digit() {
            at = after_digits(octets, digits);
            kind = Kind::Real;
        }
    }
    (kind, at)
}

/// The place after the string whose first quote is at `from`. A quote inside is written twice.
fn after_quoted(octets: &[u8], from: Place) -> Result<Place, TextFault> {
    let quote = octet_at(octets, from.at);
    let mut place = step(octets, from);
    for _ in 0..octets.len() {
        if place.at >= octets.len() {
            break;
        }
        let octet = octet_at(octets, place.at);
        place = step(octets, place);
        if octet == quote {
            if quote == b'"' && octet_at(octets, place.at) == quote {
                place = step(octets, place);
            } else {
                return Ok(place);
            }
        }
    }
    Err(TextFault::At {
        line: from.line,
        wrong: Wrong::Unended,
    })
}

/// The sign at `at`, and how many octets it has.
fn sign_at(octets: &[u8], at: usize) -> Option<(Sign, usize)> {
    let next = octet_at(octets, on(at, 1));
    let third = octet_at(octets, on(at, 2));
    let one = match octet_at(octets, at) {
        b'.' if next == b'.' && third == b'.' => return Some((Sign::Dots, 3)),
        b'.' if next == b'.' => return Some((Sign::UpTo, 2)),
        b':' if next == b':' && third == b'=' => return Some((Sign::Becomes, 3)),
        b'.' => Sign::Dot,
        b':' => Sign::Colon,
        b'{' => Sign::LeftBrace,
        b'}' => Sign::RightBrace,
        b'(' => Sign::LeftParen,
        b')' => Sign::RightParen,
        b'[' => Sign::LeftBracket,
        b']' => Sign::RightBracket,
        b',' => Sign::Comma,
        b';' => Sign::Semicolon,
        b'|' => Sign::Bar,
        b'^' => Sign::Caret,
        b'!' => Sign::Bang,
        b'<' => Sign::Less,
        b'>' => Sign::Greater,
        b'@' => Sign::At,
        b'&' => Sign::Ampersand,
        b'-' => Sign::Minus,
        b'*' => Sign::Star,
        b'/' => Sign::Slash,
        b'=' => Sign::Equals,
        _ => return None,
    };
    Some((one, 1))
}

/// A character that begins no lexical item.
fn no_item(line: u32) -> TextFault {
    TextFault::At {
        line,
        wrong: Wrong::Character,
    }
}

/// Whether an octet stands in bits, or in hexadecimal digits: those of capitals, and blanks.
fn is_digit_of(kind: u8, octet: u8) -> bool {
    match octet {
        b'0' | b'1' | 9..=13 | b' ' => true,
        b'2'..=b'9' | b'A'..=b'F' => kind == b'H',
        _ => false,
    }
}

/// Whether the octets between two quotes are bits, or hexadecimal digits.
fn are_digits_of(kind: u8, octets: &[u8], first_quote: usize, last_quote: usize) -> bool {
    for at in on(first_quote, 1)..last_quote {
        if !is_digit_of(kind, octet_at(octets, at)) {
            return false;
        }
    }
    true
}

/// The place after bits or octets whose first quote is at a place, with the B or H after them.
fn after_digits_quoted(octets: &[u8], from: Place) -> Result<Place, TextFault> {
    let after = after_quoted(octets, from)?;
    let kind = octet_at(octets, after.at);
    if kind != b'B' && kind != b'H' {
        return Err(no_item(from.line));
    }
    if !are_digits_of(kind, octets, from.at, after.at.saturating_sub(1)) {
        let wrong = Wrong::Expected(if kind == b'B' {
            "bits"
        } else {
            "hexadecimal digits"
        });
        return Err(TextFault::At {
            line: from.line,
            wrong,
        });
    }
    Ok(Place {
        at: on(after.at, 1),
        line: after.line,
    })
}

/// The kind of the lexical item that begins at a place, and the place after it; `follows` says that it follows `::=`.
pub(crate) fn item_after(
    alloc: Global,
    octets: &[u8],
    from: Place,
    follows: bool,
) -> Result<(Kind, Place), TextFault> {
    if follows && octet_at(octets, from.at) == b'<' {
        Ok((Kind::Xml, after_xml(alloc, octets, from)?))
    } else {
        item_at(octets, from)
    }
}

/// The kind of the lexical item that begins at a place, and the place after it.
fn item_at(octets: &[u8], from: Place) -> Result<(Kind, Place), TextFault> {
    let line = from.line;
    let first = octet_at(octets, from.at);
    if first.is_ascii_alphabetic() {
        return Ok((Kind::Word, after_name(octets, from)?));
    }
    if first.is_ascii_digit() {
        let (kind, at) = after_number(octets, from.at);
        return Ok((kind, Place { at, line }));
    }
    if first == b'"' {
        return Ok((Kind::Text, after_quoted(octets, from)?));
    }
    if first == b'\'' {
        return Ok((Kind::Quoted, after_digits_quoted(octets, from)?));
    }
    match sign_at(octets, from.at) {
        Some((sign, length)) => {
            let at = on(from.at, length);
            Ok((Kind::Sign(sign), Place { at, line }))
        }
        None => Err(no_item(line)),
    }
}

/// Where the text begins: after the byte order mark that some editors put in front of UTF-8, if it has one.
fn start_of(text: &str) -> Place {
    let at = if text.starts_with(BYTE_ORDER_MARK) {
        BYTE_ORDER_MARK.len_utf8()
    } else {
        0
    };
    Place { at, line: 1 }
}

/// The lexical items of a text, in order.
pub(crate) fn items_of<'t>(alloc: Global, text: &'t str) -> Result<Vec<Token<'t>>, TextFault> {
    let octets = text.as_bytes();
    let mut tokens = Vec::new(alloc);
    let mut place = start_of(text);
    let mut follows = false;
    for _ in 0..u64::MAX {
        place = skip_blank(octets, place)?;
        if place.at >= octets.len() {
            break;
        }
        let (kind, after) = item_after(alloc, octets, place, follows)?;
        follows = kind == Kind::Sign(Sign::Becomes);
        let Some(item) = text.get(place.at..after.at) else {
            return Err(no_item(place.line));
        };
        tokens.push(Token {
            kind,
            text: item,
            line: place.line,
        })?;
        place = after;
    }
    Ok(tokens)
}
