//! Lines of hexadecimal dumps: an offset, octets, and the text column.
ghost use Rattle.std.specs.Prelude.{◌≡◌, ◌≤◌, None, Some, IfOk, MatchOption, length};
ghost use Rattle.std.specs.List.{flat_map, list_all, slice_split};
ghost use Rattle.std.specs.Result.{result_ok};
ghost use Rattle.hex.specs.Hex.{decode_of};
ghost use Rattle.asn_jobs.specs.Texts.{unprefixed};
ghost use Rattle.asn_jobs.specs.DumpLines.{before_gap, body, from_gap, gap_at, is_separator, is_tail, is_word, line_octets, marked_offset, more_octets, offset_line, packed_line, words};

use crate::cutting::is_gap;
use crate::dump_words::{
    are_blanks, begins_with_blank, is_column, offset_of, split_word, unblanked, without_end,
};
use crate::texts::{is_blank, uncommented, unprefixed};
use hex::FromHexError;
use std::alloc::{AllocError, Global};

/// How the lines of a dump are written.
#[derive(Clone, Copy, PartialEq, Eq, Drop)]
pub(crate) enum DumpForm {
    /// An offset with a colon, words of two or four digits, and the text column or none (xxd, tcpdump).
    Marked,
    /// An offset without a colon, words of two digits, and the text column or none (od, hexdump -C, Wireshark).
    Bare,
    /// Words of two digits.
    Words,
    /// One word (xxd -p).
    Packed,
}

/// Octets of digits, two an octet; `None` if they are no such digits.
fn decoded(alloc: Global, digits: &[u8]) -> Result<Option<Vec<u8>>, AllocError>
    ensures { IfOk result (λ o. MatchOption o (result_ok (decode_of digits.now) ≡ None)
        (λ octets. result_ok (decode_of digits.now) ≡ Some octets.items)) }
{
    match hex::decode(alloc, digits) {
        Ok(octets) => Ok(Some(octets)),
        Err(FromHexError::OutOfMemory) => Err(AllocError),
        Err(_) => Ok(None),
    }
}

/// Whether an octet separates words: a blank, an LF, a comma or a colon.
pub(crate) fn is_separator(octet: u8) -> bool
    ensures { result ≡ is_separator octet }
{
    is_gap(octet) || octet == b',' || octet == b':'
}

/// Whether a word has two characters or this many, not counting 0x in front of them; or none.
pub(crate) fn is_word(most: usize, word: &[u8]) -> bool
    ensures { result ≡ is_word most word.now }
{
    let length = unprefixed(word).len();
    word.is_empty() || length == 2 || length == most
}

/// Whether each word has two digits, or this many, and the digits of all.
fn word_digits(alloc: Global, most: usize, text: &[u8]) -> Result<(bool, Vec<u8>), AllocError>
    ensures fit { IfOk result (λ d. d.0 ≡ list_all (is_word most) (slice_split is_separator text.now)) }
    ensures digits { IfOk result (λ d. d.1.items ≡ flat_map unprefixed (slice_split is_separator text.now)) }
{
    let mut digits = Vec::new(alloc);
    let mut fit = true;
    for word in text.split(|octet| is_separator(*octet)) {
        fit = fit && is_word(most, word);
        digits.extend_from_slice(unprefixed(word))?;
    }
    Ok((fit, digits))
}

/// The octets of words of two digits, or this many; `None` if there is another word.
pub(crate) fn words(alloc: Global, most: usize, text: &[u8]) -> Result<Option<Vec<u8>>, AllocError>
    ensures { IfOk result (λ o. MatchOption o (words most text.now ≡ None)
        (λ octets. words most text.now ≡ Some octets.items)) }
{
    let (fit, digits) = word_digits(alloc, most, text)?;
    if fit {
        decoded(alloc, digits.as_slice())
    } else {
        Ok(None)
    }
}

/// How many octets are before the first two blanks in a row.
fn gap_at(text: &[u8]) -> usize
    ensures value { result ≡ gap_at text.now }
    ensures within { result ≤ length text.now }
{
    let mut count = 0usize;
    let mut rest = text;
    while let [first, later @ ..] = rest {
        if is_blank(*first) && begins_with_blank(later) {
            return count;
        }
        count += 1;
        rest = later;
    }
    count
}

/// What is before the first two blanks in a row, and from them on.
pub(crate) fn split_at_gap(text: &[u8]) -> (&[u8], &[u8])
    ensures front { result.0.now ≡ before_gap text.now }
    ensures rest { result.1.now ≡ from_gap text.now }
{
    text.split_at(gap_at(text))
}

/// Whether this may follow the octets of a line: blanks, or the text column of the octets.
pub(crate) fn is_tail(octets: &[u8], rest: &[u8]) -> bool
    ensures { result ≡ is_tail octets.now rest.now }
{
    are_blanks(rest) || is_column(octets, rest)
}

/// The first eight octets of a line and those after a gap, if this is what follows the gap.
pub(crate) fn more_octets(
    alloc: Global,
    most: usize,
    first: &[u8],
    text: &[u8],
) -> Result<Option<Vec<u8>>, AllocError>
    ensures { IfOk result (λ o. MatchOption o (more_octets most first.now text.now ≡ None)
        (λ octets. more_octets most first.now text.now ≡ Some octets.items)) }
{
    let (front, rest) = split_at_gap(text);
    let Some(more) = words(alloc, most, front)? else {
        return Ok(None);
    };
    let mut octets = Vec::new(alloc);
    octets.extend_from_slice(first)?;
    octets.extend_from_slice(more.as_slice())?;
    if first.len() == 8 && !more.is_empty() && is_tail(octets.as_slice(), rest) {
        Ok(Some(octets))
    } else {
        Ok(None)
    }
}

/// The octets of what follows an offset; `None` if it is no octets and their text, or in doubt.
fn body(alloc: Global, most: usize, text: &[u8]) -> Result<Option<Vec<u8>>, AllocError>
    ensures { IfOk result (λ o. MatchOption o (body most text.now ≡ None)
        (λ octets. body most text.now ≡ Some octets.items)) }
{
    let (front, rest) = split_at_gap(text);
    let Some(octets) = words(alloc, most, front)? else {
        return Ok(None);
    };
    let more = more_octets(alloc, most, octets.as_slice(), unblanked(rest))?;
    if !is_tail(octets.as_slice(), rest) {
        return Ok(more);
    }
    if more.is_some() {
        return Ok(None);
    }
    Ok(Some(octets))
}

/// The offset of a word with a colon at its end.
pub(crate) fn marked_offset(word: &[u8]) -> Option<u64>
    ensures { result ≡ marked_offset word.now }
{
    match without_end(word, b':') {
        Some(front) => offset_of(unprefixed(front)),
        None => None,
    }
}

/// The octets of what follows this offset, which has to be the number of octets before the line.
fn offset_line(
    alloc: Global,
    most: usize,
    offset: Option<u64>,
    before: usize,
    text: &[u8],
) -> Result<Option<Vec<u8>>, AllocError>
    ensures { IfOk result (λ o. MatchOption o (offset_line most offset before text.now ≡ None)
        (λ octets. offset_line most offset before text.now ≡ Some octets.items)) }
{
    match offset {
        Some(offset) if offset == before as u64 => body(alloc, most, unblanked(text)),
        _ => Ok(None),
    }
}

/// The octets of a line that is one word.
fn packed_line(alloc: Global, line: &[u8]) -> Result<Option<Vec<u8>>, AllocError>
    ensures { IfOk result (λ o. MatchOption o (packed_line line.now ≡ None)
        (λ octets. packed_line line.now ≡ Some octets.items)) }
{
    let (word, rest) = split_word(unblanked(line));
    if !are_blanks(rest) {
        return Ok(None);
    }
    decoded(alloc, unprefixed(word))
}

/// The octets of a line of this form, before which there are so many octets; `None` if it is no such line.
pub(crate) fn line_octets(
    alloc: Global,
    form: DumpForm,
    before: usize,
    line: &[u8],
) -> Result<Option<Vec<u8>>, AllocError>
    ensures { IfOk result (λ o. MatchOption o (line_octets form before line.now ≡ None)
        (λ octets. line_octets form before line.now ≡ Some octets.items)) }
{
    let (word, rest) = split_word(unblanked(line));
    match form {
        DumpForm::Marked => offset_line(alloc, 4, marked_offset(word), before, rest),
        DumpForm::Bare => offset_line(alloc, 2, offset_of(word), before, rest),
        DumpForm::Words => words(alloc, 2, uncommented(line)),
        DumpForm::Packed => packed_line(alloc, uncommented(line)),
    }
}
