//! Hexadecimal dumps: the lines of one message.
ghost use Rattle.std.specs.Prelude.{◌≡◌, ◌≤◌, [], ◌∷◌, None, Some, true, IfOk, MatchOption, length};
ghost use Rattle.std.specs.Io.BufRead.{strip_last};
ghost use Rattle.std.specs.List.{before_first, list_all, list_any, position_or_len};
ghost use Rattle.asn_jobs.specs.DumpTexts.{after_first, array_octets, begun_octets, dump_lines, dump_octets, ends_array, ends_well, form_at, form_of, has_offsets, is_foreign, is_foreign_octet, is_octet, is_packed, is_passed, lines_octets};

use crate::cut::next_line;
use crate::dump_lines::{DumpForm, line_octets, marked_offset, words};
use crate::dump_words::{
    are_blanks, are_digits, is_digit, offset_of, split_word, unblanked, without_end,
};
use crate::texts::{is_blank, uncommented, unprefixed};
use std::alloc::{AllocError, Global};

/// Whether an octet is none of offsets, of octets, and of what separates them.
fn is_foreign_octet(octet: u8) -> bool
    ensures { result ≡ is_foreign_octet octet }
{
    !is_digit(octet) && octet != b'x' && octet != b'X' && octet != b':' && octet != b','
}

/// Whether a line begins with a word that is neither an offset nor octets.
pub(crate) fn is_foreign(line: &[u8]) -> bool
    ensures { result ≡ is_foreign line.now }
{
    let (word, _) = split_word(unblanked(line));
    word.iter().any(|octet| is_foreign_octet(*octet))
}

/// Whether a line has no more than blanks and a comment.
pub(crate) fn is_passed(line: &[u8]) -> bool
    ensures { result ≡ is_passed line.now }
{
    are_blanks(uncommented(line))
}

/// Whether the text has this octet.
pub(crate) fn has(text: &[u8], wanted: u8) -> bool
    ensures { result ≡ list_any (is_octet wanted) text.now }
{
    text.iter().any(|octet| *octet == wanted)
}

/// How many octets are before the first of these.
fn first_at(text: &[u8], wanted: u8) -> usize
    ensures value { result ≡ position_or_len (is_octet wanted) text.now }
    ensures within { result ≤ length text.now }
{
    match text.iter().position(|octet| *octet == wanted) {
        Some(length) => length,
        None => text.len(),
    }
}

/// The text before the first of these octets, and after it.
pub(crate) fn split_at_first(text: &[u8], wanted: u8) -> (&[u8], &[u8])
    ensures front { result.0.now ≡ before_first (is_octet wanted) text.now }
    ensures rest { result.1.now ≡ after_first wanted text.now }
{
    let (front, from) = text.split_at(first_at(text, wanted));
    match from {
        [_, rest @ ..] => (front, rest),
        [] => (front, from),
    }
}

/// Whether the last octet that is no blank is a SEMICOLON, or there is none.
fn ends_well(text: &[u8]) -> bool
    ensures { result ≡ ends_well true text.now }
{
    let mut is_end = true;
    let mut rest = text;
    while let [first, later @ ..] = rest {
        is_end = if is_blank(*first) {
            is_end
        } else {
            *first == b';'
        };
        rest = later;
    }
    is_end
}

/// Whether what follows an array on its line, or a line after it, has no octets: it ends with a SEMICOLON, and no other
/// array begins in it.
pub(crate) fn ends_array(text: &[u8]) -> bool
    ensures { result ≡ ends_array text.now }
{
    ends_well(text) && !has(text, b'{')
}

/// Whether all lines are such lines.
#[tactic(auto, using(crate::proofs::DumpTextSteps::ended_on, crate::proofs::DumpTextSteps::ended_not, crate::proofs::DumpTextSteps::ended_none))]
fn are_ended(text: &[u8]) -> bool
    ensures { result ≡ list_all ends_array (dump_lines text.now) }
{
    let mut rest = text;
    while let Some((line, later)) = next_line(rest) {
        if !ends_array(unreturned(line)) {
            return false;
        }
        rest = later;
    }
    true
}

/// The octets of an array of C, which begins in a line and goes on in the lines of a text.
#[tactic(auto, using(crate::proofs::DumpTextSteps::array_refused, crate::proofs::DumpTextSteps::array_further, crate::proofs::DumpTextSteps::array_cut_off, crate::proofs::DumpTextSteps::array_badly_ended, crate::proofs::DumpTextSteps::array_followed, crate::proofs::DumpTextSteps::array_ended))]
fn array_octets(alloc: Global, begun: &[u8], text: &[u8]) -> Result<Option<Vec<u8>>, AllocError>
    ensures { IfOk result (λ o. MatchOption o (array_octets [] (begun.now ∷ dump_lines text.now) ≡ None)
        (λ octets. array_octets [] (begun.now ∷ dump_lines text.now) ≡ Some octets.items)) }
{
    let mut octets = Vec::new(alloc);
    let mut line = begun;
    let mut rest = text;
    while !has(line, b'}') {
        let Some(more) = words(alloc, 2, line)? else {
            return Ok(None);
        };
        octets.extend_from_slice(more.as_slice())?;
        let Some((next, later)) = next_line(rest) else {
            return Ok(None);
        };
        line = unreturned(next);
        rest = later;
    }
    let (front, end) = split_at_first(line, b'}');
    if !ends_array(end) || !are_ended(rest) {
        return Ok(None);
    }
    let Some(more) = words(alloc, 2, front)? else {
        return Ok(None);
    };
    octets.extend_from_slice(more.as_slice())?;
    Ok(Some(octets))
}

/// Whether lines of this form have offsets.
pub(crate) fn has_offsets(form: DumpForm) -> bool
    ensures { result ≡ has_offsets form }
{
    match form {
        DumpForm::Marked | DumpForm::Bare => true,
        DumpForm::Words | DumpForm::Packed => false,
    }
}

/// Whether a line is one word of more than two digits.
fn is_packed(line: &[u8]) -> bool
    ensures { result ≡ is_packed line.now }
{
    let (word, rest) = split_word(unblanked(line));
    let digits = unprefixed(word);
    are_blanks(rest) && digits.len() > 2 && are_digits(digits)
}

/// The form of a line that begins with what may be this offset.
fn form_at(offset: Option<u64>, line: &[u8]) -> Option<DumpForm>
    ensures { result ≡ form_at offset line.now }
{
    let (_, rest) = split_word(unblanked(line));
    match offset {
        None if is_packed(line) => Some(DumpForm::Packed),
        None => Some(DumpForm::Words),
        Some(0) if !are_blanks(rest) => Some(DumpForm::Bare),
        Some(offset) if offset > 0 && are_blanks(rest) => Some(DumpForm::Packed),
        Some(_) => None,
    }
}

/// The form of the first line of a message, and so of all of its lines; `None` if it is in doubt.
pub(crate) fn form_of(line: &[u8]) -> Option<DumpForm>
    ensures { result ≡ form_of line.now }
{
    let (word, _) = split_word(unblanked(line));
    if marked_offset(word).is_some() {
        return Some(DumpForm::Marked);
    }
    form_at(offset_of(word), line)
}

/// The line without the CARRIAGE RETURN at its end.
pub(crate) fn unreturned(line: &[u8]) -> &[u8]
    ensures { result.now ≡ strip_last 13 line.now }
{
    match without_end(line, b'\r') {
        Some(front) => front,
        None => line,
    }
}

/// The octets of lines of this form.
#[tactic(auto, using(crate::proofs::DumpTextSteps::line_passed, crate::proofs::DumpTextSteps::line_read, crate::proofs::DumpTextSteps::line_refused, crate::proofs::DumpTextSteps::lines_end))]
fn lines_octets(alloc: Global, form: DumpForm, text: &[u8]) -> Result<Option<Vec<u8>>, AllocError>
    ensures { IfOk result (λ o. MatchOption o (lines_octets form [] (dump_lines text.now) ≡ None)
        (λ octets. lines_octets form [] (dump_lines text.now) ≡ Some octets.items)) }
{
    let mut octets = Vec::new(alloc);
    let mut rest = text;
    while let Some((line, later)) = next_line(rest) {
        rest = later;
        let line = unreturned(line);
        if is_passed(line) {
            continue;
        }
        let Some(more) = line_octets(alloc, form, octets.len(), line)? else {
            return Ok(None);
        };
        octets.extend_from_slice(more.as_slice())?;
    }
    Ok(Some(octets))
}

/// The octets of lines, of which the first is of this form.
fn begun_octets(
    alloc: Global,
    is_headed: bool,
    form: Option<DumpForm>,
    text: &[u8],
) -> Result<Option<Vec<u8>>, AllocError>
    ensures { IfOk result (λ o. MatchOption o (begun_octets is_headed form (dump_lines text.now) ≡ None)
        (λ octets. begun_octets is_headed form (dump_lines text.now) ≡ Some octets.items)) }
{
    match form {
        Some(form) if !is_headed || has_offsets(form) => lines_octets(alloc, form, text),
        _ => Ok(None),
    }
}

/// The octets of the message that a dump shows; `None` if it is no dump, or in doubt.
///
/// # Errors
/// `AllocError` if an allocation failed.
#[tactic(auto, using(crate::proofs::DumpTextSteps::passed, crate::proofs::DumpTextSteps::opened, crate::proofs::DumpTextSteps::headed, crate::proofs::DumpTextSteps::begun, crate::proofs::DumpTextSteps::none_left))]
pub(crate) fn dump_octets(alloc: Global, text: &[u8]) -> Result<Option<Vec<u8>>, AllocError>
    ensures { IfOk result (λ o. MatchOption o (dump_octets text.now ≡ None)
        (λ octets. dump_octets text.now ≡ Some octets.items)) }
{
    let mut is_headed = false;
    let mut rest = text;
    while let Some((line, later)) = next_line(rest) {
        let here = rest;
        rest = later;
        let line = unreturned(line);
        if is_passed(line) {
            continue;
        }
        if !is_foreign(line) {
            return begun_octets(alloc, is_headed, form_of(uncommented(line)), here);
        }
        if has(line, b'{') {
            return array_octets(alloc, split_at_first(line, b'{').1, later);
        }
        is_headed = true;
    }
    Ok(None)
}
