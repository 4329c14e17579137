//! Values in XML (X.680, "XML value assignment"): elements inside one another, each with the end tag of its name.
use crate::octets::{Place, octet_at, on, step};
use asn_published_text::wrong::{TextFault, Wrong};
use std::alloc::Global;

/// The name of an element: the octets from one index to before another.
#[derive(Clone, Copy)]
struct Name {
    from: usize,
    end: usize,
}

/// A fault: what should stand on the line.
fn expected(line: u32, what: &'static str) -> TextFault {
    TextFault::At {
        line,
        wrong: Wrong::Expected(what),
    }
}

/// The name of an element that begins at `from`: a letter, and then letters, digits, hyphens and low lines; `None` where
/// there is none.
fn name_at(octets: &[u8], from: usize) -> Option<Name> {
    if !octet_at(octets, from).is_ascii_alphabetic() {
        return None;
    }
    let mut end = from;
    for _ in 0..octets.len() {
        let octet = octet_at(octets, end);
        if !octet.is_ascii_alphanumeric() && octet != b'-' && octet != b'_' {
            break;
        }
        end = on(end, 1);
    }
    Some(Name { from, end })
}

/// Whether two names are the same.
fn is_same(octets: &[u8], one: Name, other: Name) -> bool {
    match (
        octets.get(one.from..one.end),
        octets.get(other.from..other.end),
    ) {
        (Some(a), Some(b)) => *a == *b,
        _ => false,
    }
}

/// The place of the next octet that is no blank.
fn after_blanks(octets: &[u8], from: Place) -> Place {
    let mut place = from;
    for _ in 0..octets.len() {
        if !matches!(octet_at(octets, place.at), 9..=13 | b' ') {
            break;
        }
        place = step(octets, place);
    }
    place
}

/// The place `by` octets on, on the same line.
fn moved(place: Place, by: usize) -> Place {
    Place {
        at: on(place.at, by),
        line: place.line,
    }
}

/// Takes the tag at a place, and gives the place after it: one that begins an element, one that is a whole element, or
/// the end tag of the innermost element.
fn after_tag(octets: &[u8], open: &mut Vec<Name>, from: Place) -> Result<Place, TextFault> {
    let is_end = octet_at(octets, on(from.at, 1)) == b'/';
    let start = moved(from, if is_end { 2 } else { 1 });
    let Some(name) = name_at(octets, start.at) else {
        return Err(expected(from.line, "a tag"));
    };
    let behind = Place {
        at: name.end,
        line: from.line,
    };
    let close = after_blanks(octets, behind);
    let is_whole = octet_at(octets, close.at) == b'/';
    let last = moved(close, if is_whole { 1 } else { 0 });
    if octet_at(octets, last.at) != b'>' || (is_end && is_whole) {
        return Err(expected(last.line, "the end of a tag"));
    }
    if is_end {
        match open.pop() {
            Some(first) if is_same(octets, first, name) => {}
            _ => return Err(expected(from.line, "the end tag of the element before")),
        }
    } else if !is_whole {
        open.push(name)?;
    }
    Ok(moved(last, 1))
}

/// The index after the digits of a character's number, from `from` on.
fn after_digits(octets: &[u8], from: usize, is_hexadecimal: bool) -> usize {
    let mut at = from;
    for _ in 0..octets.len() {
        let octet = octet_at(octets, at);
        if !octet.is_ascii_digit() && !(is_hexadecimal && octet.is_ascii_hexdigit()) {
            break;
        }
        at = on(at, 1);
    }
    at
}

/// The words that stand for characters which content does not have as they are.
const WORDS: [&str; 3] = ["&lt;", "&gt;", "&amp;"];

/// The index after what stands for a character, as `&lt;` or `&#10;`, which begins at `from`; `None` where it is none.
fn after_character(octets: &[u8], from: usize) -> Option<usize> {
    for word in &WORDS {
        let end = on(from, word.len());
        if let Some(found) = octets.get(from..end) {
            if *found == *word.as_bytes() {
                return Some(end);
            }
        }
    }
    if octet_at(octets, on(from, 1)) != b'#' {
        return None;
    }
    let is_hexadecimal = octet_at(octets, on(from, 2)) == b'x';
    let digits = on(from, if is_hexadecimal { 3 } else { 2 });
    let end = after_digits(octets, digits, is_hexadecimal);
    if end > digits && octet_at(octets, end) == b';' {
        Some(on(end, 1))
    } else {
        None
    }
}

/// The place after the octet at a place that is in no tag, or after what stands for a character there.
fn after_content(octets: &[u8], place: Place) -> Result<Place, TextFault> {
    if octet_at(octets, place.at) != b'&' {
        return Ok(step(octets, place));
    }
    match after_character(octets, place.at) {
        Some(at) => Ok(Place {
            at,
            line: place.line,
        }),
        None => Err(expected(place.line, "a character of XML")),
    }
}

/// The place after a value in XML, whose first tag is at `from`: after the end tag of that one.
pub(crate) fn after_xml(alloc: Global, octets: &[u8], from: Place) -> Result<Place, TextFault> {
    let mut open = Vec::new(alloc);
    let mut place = from;
    for _ in 0..octets.len() {
        if place.at >= octets.len() {
            break;
        }
        if octet_at(octets, place.at) == b'<' {
            place = after_tag(octets, &mut open, place)?;
            if open.is_empty() {
                return Ok(place);
            }
        } else {
            place = after_content(octets, place)?;
        }
    }
    Err(TextFault::At {
        line: from.line,
        wrong: Wrong::Unended,
    })
}
