//! Why a text is no dump: the line, the column, and the reason. No contract depends on it.
use crate::cut::next_line;
use crate::dump_lines::{
    DumpForm, is_separator, is_tail, is_word, line_octets, marked_offset, split_at_gap, words,
};
use crate::dump_texts::{
    ends_array, form_of, has, has_offsets, is_foreign, is_passed, split_at_first, unreturned,
};
use crate::dump_words::{are_digits, offset_of, split_word, unblanked};
use crate::places::{Place, place_text};
use crate::texts::{uncommented, unprefixed};
use std::alloc::{AllocError, Global};

const ZERO_ALONE: &str = "this may be an offset or octets: write octets in words of two digits";

const NUMBER_FIRST: &str =
    "this may be an offset or octets: offsets begin at 0; write octets in words of two digits, or one word a line";

const SWAPPED: &str =
    "octets in longer words may be in another order: use xxd, od -Ax -tx1 or hexdump -C";

const BOTH: &str = "this may be octets or the text column";

const NO_OCTET: &str = "neither octets nor the text of the octets before it";

const NO_OFFSET: &str = "an offset was expected; an empty line ends a message";

const LEFT_OUT: &str = "* means lines that are left out: use od -v, hexdump -v or xxd without -a";

const NO_DUMP: &str = "no line with the offset 0 and no array of C follows the first line";

const NO_WORD: &str = "octets of two hexadecimal digits each were expected";

const NO_DIGITS: &str = "one word of hexadecimal digits, two an octet, was expected";

const NO_END: &str = "the array has no end";

const MORE: &str = "only lines that end with ; may follow an array; an empty line ends a message";

/// Why a line is refused, and its column, counted in octets from 1.
type Reason = (usize, String);

/// Why a text at this place is no dump, as `octets_in` reads one: the line, the column, counted in octets from 1, and
/// the reason.
///
/// # Errors
/// `AllocError` if an allocation failed.
pub fn dump_fault_text(alloc: Global, place: Place<'_>, text: &[u8]) -> Result<String, AllocError> {
    let (number, (column, reason)) = dump_fault(alloc, text)?;
    let Place {
        file,
        line,
        message,
    } = place;
    let line = line.saturating_add(number).saturating_sub(1);
    let here = Place {
        file,
        line,
        message,
    };
    let here = place_text(alloc, here)?;
    let here = here.as_str();
    let reason = reason.as_str();
    format!(in alloc; "{here}, column {column}: {reason}")
}

/// The line, counted from 1, that is refused, and why.
fn dump_fault(alloc: Global, text: &[u8]) -> Result<(u64, Reason), AllocError> {
    let mut is_headed = false;
    let mut rest = text;
    for number in 1..u64::MAX {
        let Some((line, later)) = next_line(rest) else {
            break;
        };
        let line = unreturned(line);
        if !is_passed(line) {
            if !is_foreign(line) {
                return first_fault(alloc, is_headed, rest, number);
            }
            if has(line, b'{') {
                return array_fault(alloc, line, later, number);
            }
            is_headed = true;
        }
        rest = later;
    }
    Ok((1, reason(alloc, 1, NO_DUMP)?))
}

/// Why lines are refused, of which the first has this number.
fn first_fault(
    alloc: Global,
    is_headed: bool,
    text: &[u8],
    number: u64,
) -> Result<(u64, Reason), AllocError> {
    let line = match next_line(text) {
        Some((line, _)) => uncommented(unreturned(line)),
        None => text,
    };
    let column = column_of(line, unblanked(line));
    match form_of(line) {
        Some(form) if !is_headed || has_offsets(form) => lines_fault(alloc, form, text, number),
        Some(_) => Ok((1, reason(alloc, 1, NO_DUMP)?)),
        None if offset_of(split_word(unblanked(line)).0) == Some(0) => {
            Ok((number, reason(alloc, column, ZERO_ALONE)?))
        }
        None => Ok((number, reason(alloc, column, NUMBER_FIRST)?)),
    }
}

/// Why lines of this form are refused.
fn lines_fault(
    alloc: Global,
    form: DumpForm,
    text: &[u8],
    first: u64,
) -> Result<(u64, Reason), AllocError> {
    let mut before = 0usize;
    let mut rest = text;
    for number in first..u64::MAX {
        let Some((line, later)) = next_line(rest) else {
            break;
        };
        let line = unreturned(line);
        if !is_passed(line) {
            match line_octets(alloc, form, before, line)? {
                Some(more) => before = before.saturating_add(more.len()),
                None => return Ok((number, line_fault(alloc, form, before, line)?)),
            }
        }
        rest = later;
    }
    Ok((first, reason(alloc, 1, NO_DUMP)?))
}

/// Why a line of this form is refused, before which there are so many octets.
fn line_fault(
    alloc: Global,
    form: DumpForm,
    before: usize,
    line: &[u8],
) -> Result<Reason, AllocError> {
    let column = column_of(line, unblanked(line));
    let (word, rest) = split_word(unblanked(line));
    let (offset, most) = match form {
        DumpForm::Marked => (marked_offset(word), 4),
        DumpForm::Bare => (offset_of(word), 2),
        DumpForm::Words => {
            let octets = uncommented(line);
            return reason(
                alloc,
                bad_word(2, octets, octets).unwrap_or(column),
                NO_WORD,
            );
        }
        DumpForm::Packed => return reason(alloc, column, NO_DIGITS),
    };
    match offset {
        _ if word == b"*".as_slice() => reason(alloc, column, LEFT_OUT),
        None => reason(alloc, column, NO_OFFSET),
        Some(offset) if offset == before as u64 => {
            body_fault(alloc, most, line, unblanked(rest))
        }
        Some(offset) => Ok((
            column,
            format!(in alloc;
                "the offset is {offset:x}, and {before:x} was expected (hexadecimal); od needs -Ax, and an empty line ends a message"
            )?,
        )),
    }
}

/// Why what follows the offset of a line is refused.
fn body_fault(alloc: Global, most: usize, line: &[u8], body: &[u8]) -> Result<Reason, AllocError> {
    let (front, rest) = split_at_gap(body);
    if let Some(column) = bad_word(most, line_before(line, rest), front) {
        let (word, _) = split_word(line.split_at(column.saturating_sub(1).min(line.len())).1);
        let is_long = word.len() > most && are_digits(word);
        return reason(alloc, column, if is_long { SWAPPED } else { NO_OCTET });
    }
    let column = column_of(line, unblanked(rest));
    match words(alloc, most, front)? {
        Some(octets) if is_tail(octets.as_slice(), rest) => reason(alloc, column, BOTH),
        _ => reason(alloc, column, NO_OCTET),
    }
}

/// Why an array is refused, which begins in the line with this number.
fn array_fault(
    alloc: Global,
    begun: &[u8],
    text: &[u8],
    first: u64,
) -> Result<(u64, Reason), AllocError> {
    let mut line = begun;
    let mut octets = split_at_first(begun, b'{').1;
    let mut rest = text;
    let mut is_open = true;
    for number in first..u64::MAX {
        let (front, end) = split_at_first(octets, b'}');
        let seen = line_before(line, octets.split_at(front.len().min(octets.len())).1);
        if is_open && let Some(column) = bad_word(2, seen, front) {
            return Ok((number, reason(alloc, column, NO_WORD)?));
        }
        if is_open && has(octets, b'}') {
            is_open = false;
            octets = end;
        }
        if !is_open && !ends_array(octets) {
            return Ok((
                number,
                reason(alloc, column_of(line, unblanked(octets)), MORE)?,
            ));
        }
        let Some((next, later)) = next_line(rest) else {
            break;
        };
        line = unreturned(next);
        octets = line;
        rest = later;
    }
    Ok((first, reason(alloc, 1, NO_END)?))
}

/// The column of the first word that is no octets, in a text with which this line ends.
fn bad_word(most: usize, line: &[u8], text: &[u8]) -> Option<usize> {
    let mut rest = text;
    for _ in 0..u64::MAX {
        let (word, later) = match rest.iter().position(|octet| is_separator(*octet)) {
            Some(length) => rest.split_at(length),
            None => rest.split_at(rest.len()),
        };
        if !word.is_empty() && !(is_word(most, word) && are_digits(unprefixed(word))) {
            return Some(column_of(line, rest));
        }
        let [_, others @ ..] = later else {
            return None;
        };
        rest = others;
    }
    None
}

/// The line without the end of it.
fn line_before<'a>(line: &'a [u8], end: &[u8]) -> &'a [u8] {
    line.split_at(line.len().saturating_sub(end.len())).0
}

/// The column at which the end of a line begins.
fn column_of(line: &[u8], end: &[u8]) -> usize {
    line.len().saturating_sub(end.len()).saturating_add(1)
}

/// A reason with these words.
fn reason(alloc: Global, column: usize, words: &str) -> Result<Reason, AllocError> {
    Ok((column, String::from_str(alloc, words)?))
}
