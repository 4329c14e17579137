//! The texts of messages, cut one after the other from an input.
ghost use Rattle.std.specs.Prelude.{◌≡◌, ◌≤◌, length, None, Some};
ghost use Rattle.std.specs.Io.BufRead.{strip_last};
ghost use Rattle.asn_jobs.specs.Cutting.{from_word, has_word, is_blank_line, is_gap, lines_after, AddsBlock, AddsLine, CutsFirst, FindsLine};
ghost use Rattle.asn_jobs.specs.declared.texts.OctetForm.TheVariants as form;

use crate::job::RunFault;
use crate::texts::{OctetForm, is_blank, uncommented};
use std::io;
use std::io::{BufRead, ErrorKind};

/// Puts the next text of the input in place of the one before, and returns the number of the line, counted from 1, at
/// which it begins; `None` where there is none. `lines` is how many lines were read: 0 at first.
///
/// - Without a form, and in `Base64`, a text is a line without its LF and a CARRIAGE RETURN before it.
/// - In `Hex` it is a line without its LF. One that has no more than blanks and a comment is passed over.
/// - A text of `HexBlock` or `Dump` goes from the first line that has more up to a blank one, or to the end.
/// - A text of `Binary` is all of the input.
///
/// # Errors
/// `Read` where the reader answered a fault, `Memory` where an allocation failed.
pub fn next_text<R: BufRead>(
    input: &mut R,
    form: Option<OctetForm>,
    text: &mut Vec<u8>,
    lines: &mut u64,
) -> Result<Option<u64>, RunFault>
    ensures { CutsFirst result form lines.old (R.remaining input.old) lines.new (R.remaining input.new) text.new.items }
{
    match form {
        None => next_plain(input, text, lines),
        Some(OctetForm::Base64) => next_base64(input, text, lines),
        Some(OctetForm::Hex) => next_hex(input, text, lines),
        Some(OctetForm::HexBlock) => next_block(input, text, lines),
        Some(OctetForm::Dump) => next_dump(input, text, lines),
        Some(OctetForm::Binary) => whole(input, text, lines),
    }
}

/// The next line, without its LF and the CARRIAGE RETURN in front of that.
fn next_plain<R: BufRead>(
    input: &mut R,
    text: &mut Vec<u8>,
    lines: &mut u64,
) -> Result<Option<u64>, RunFault>
    ensures { CutsFirst result None lines.old (R.remaining input.old) lines.new (R.remaining input.new) text.new.items }
{
    if !take_line(input, text, lines)? {
        return Ok(None);
    }
    cut_octet(text, b'\n');
    cut_octet(text, b'\r');
    Ok(Some(*lines))
}

/// The same of Base64.
fn next_base64<R: BufRead>(
    input: &mut R,
    text: &mut Vec<u8>,
    lines: &mut u64,
) -> Result<Option<u64>, RunFault>
    ensures { CutsFirst result (Some form.Base64) lines.old (R.remaining input.old) lines.new (R.remaining input.new)
        text.new.items }
{
    next_plain(input, text, lines)
}

/// The next line that has more than blanks and a comment, without its LF.
fn next_hex<R: BufRead>(
    input: &mut R,
    text: &mut Vec<u8>,
    lines: &mut u64,
) -> Result<Option<u64>, RunFault>
    ensures { CutsFirst result (Some form.Hex) lines.old (R.remaining input.old) lines.new (R.remaining input.new)
        text.new.items }
{
    if !find_word(input, text, lines)? {
        return Ok(None);
    }
    cut_octet(text, b'\n');
    Ok(Some(*lines))
}

/// The next line that has more than blanks and a comment, and those after it up to a blank one.
fn next_block<R: BufRead>(
    input: &mut R,
    text: &mut Vec<u8>,
    lines: &mut u64,
) -> Result<Option<u64>, RunFault>
    ensures { CutsFirst result (Some form.HexBlock) lines.old (R.remaining input.old) lines.new
        (R.remaining input.new) text.new.items }
{
    if !find_word(input, text, lines)? {
        return Ok(None);
    }
    let first = *lines;
    add_block(input, text, lines)?;
    Ok(Some(first))
}

/// The same of a dump.
fn next_dump<R: BufRead>(
    input: &mut R,
    text: &mut Vec<u8>,
    lines: &mut u64,
) -> Result<Option<u64>, RunFault>
    ensures { CutsFirst result (Some form.Dump) lines.old (R.remaining input.old) lines.new (R.remaining input.new)
        text.new.items }
{
    next_block(input, text, lines)
}

/// All of the input, once.
fn whole<R: BufRead>(
    input: &mut R,
    text: &mut Vec<u8>,
    lines: &mut u64,
) -> Result<Option<u64>, RunFault>
    ensures { CutsFirst result (Some form.Binary) lines.old (R.remaining input.old) lines.new (R.remaining input.new)
        text.new.items }
{
    if *lines > 0 {
        return Ok(None);
    }
    *lines = 1;
    text.clear();
    match input.read_to_end(text) {
        Ok(_) => Ok(Some(1)),
        Err(fault) => Err(fault_of(&fault)),
    }
}

/// Puts the next line that has more than blanks and a comment in place of the text. False where there is none.
fn find_word<R: BufRead>(
    input: &mut R,
    text: &mut Vec<u8>,
    lines: &mut u64,
) -> Result<bool, RunFault>
    ensures { FindsLine result (λ octets. from_word (lines_after lines.old octets)) (R.remaining input.old) lines.new
        (R.remaining input.new) text.new.items }
{
    for _ in 0..u64::MAX {
        if !take_line(input, text, lines)? {
            return Ok(false);
        }
        if has_word(text.as_slice()) {
            return Ok(true);
        }
    }
    // (more lines than 64 bits count)
    Err(RunFault::Memory)
}

/// Appends the next lines, up to a blank one, to the text.
fn add_block<R: BufRead>(input: &mut R, text: &mut Vec<u8>, lines: &mut u64) -> Result<(), RunFault>
    ensures { AddsBlock result lines.old (R.remaining input.old) lines.new (R.remaining input.new) text.old.items
        text.new.items }
{
    for _ in 0..u64::MAX {
        let before = text.len();
        if !add_line(input, text, lines)? {
            return Ok(());
        }
        if is_blank_line(&text[before..]) {
            return Ok(());
        }
    }
    // (more lines than 64 bits count)
    Err(RunFault::Memory)
}

/// Puts the next line, with its LF, in place of the text. False where there is none.
fn take_line<R: BufRead>(
    input: &mut R,
    text: &mut Vec<u8>,
    lines: &mut u64,
) -> Result<bool, RunFault>
    ensures { FindsLine result (lines_after lines.old) (R.remaining input.old) lines.new (R.remaining input.new)
        text.new.items }
{
    text.clear();
    add_line(input, text, lines)
}

/// Appends the next line, with its LF, to the text. False where there is none.
fn add_line<R: BufRead>(
    input: &mut R,
    text: &mut Vec<u8>,
    lines: &mut u64,
) -> Result<bool, RunFault>
    ensures line { AddsLine result lines.old (R.remaining input.old) lines.new (R.remaining input.new) text.old.items
        text.new.items }
    ensures kept { length text.old.items ≤ length text.new.items }
{
    match input.read_until(b'\n', text) {
        Ok(0) => Ok(false),
        Ok(_) => {
            *lines = lines.saturating_add(1);
            Ok(true)
        }
        Err(fault) => Err(fault_of(&fault)),
    }
}

/// The fault of a reader: an allocation that failed, or another.
fn fault_of(fault: &io::Error) -> RunFault {
    if fault.kind() == ErrorKind::OutOfMemory {
        RunFault::Memory
    } else {
        RunFault::Read
    }
}

/// Takes the last octet away, if it is this one.
fn cut_octet(text: &mut Vec<u8>, octet: u8)
    ensures { text.new.items ≡ strip_last octet text.old.items }
{
    if text.last() == Some(&octet) {
        text.pop();
    }
}

/// Whether the line has more than blanks and a comment.
fn has_word(line: &[u8]) -> bool
    ensures { result ≡ has_word line.now }
{
    !is_blank_line(uncommented(line))
}

/// Whether the line has nothing but blanks.
fn is_blank_line(line: &[u8]) -> bool
    ensures { result ≡ is_blank_line line.now }
{
    line.iter().all(|octet| is_gap(*octet))
}

/// Whether an octet is a SPACE, a CHARACTER TABULATION, a LF or a CARRIAGE RETURN.
pub(crate) fn is_gap(octet: u8) -> bool
    ensures { result ≡ is_gap octet }
{
    is_blank(octet) || octet == b'\n'
}
