//! What is written of an answer: octets in a form, the line of a refusal, and words with their place on standard error.
use crate::answering::{Answers, Asked, counted};
use asn_convert::RunFault;
use asn_jobs::{OFFSETS, OctetForm, Place, dump_fault_text, octets_in, place_text, text_of};
use asn_request::asking::Forms;
use asn_rules::Counted;
use std::io::Write;

/// Writes the octets of these hexadecimal digits in the form that is asked for. Base64 has a line of its own.
pub fn put_octets<W: Write>(
    rt: &HostRuntime,
    output: &mut Counted<W>,
    digits: &[u8],
    forms: Forms,
) -> Result<(), RunFault> {
    let form = match forms.written {
        Some(form) => form,
        None => OctetForm::Hex,
    };
    let Some(octets) = octets_in(rt.alloc(), OctetForm::Hex, digits)? else {
        return Err(RunFault::Memory);
    };
    let mut text = text_of(rt.alloc(), form, octets.as_slice())?;
    if form != OctetForm::Binary {
        text.push(b'\n')?;
    }
    put(output, text.as_slice())
}

/// Writes this line of a refusal; on standard error, with its place, where octets alone are written. Counts it, if
/// that is asked for.
pub fn put_refusal<W: Write>(
    rt: &HostRuntime,
    answers: &mut Answers<W>,
    place: Place<'_>,
    refusal: &[u8],
    asked: Asked<'_>,
) -> Result<(), RunFault> {
    let Ok(words) = std::str::from_utf8(text_in(refusal)) else {
        return put(&mut answers.output, refusal);
    };
    if asked.is_counted {
        counted(answers.counts.add_refusal(rt.alloc(), words))?;
    }
    if asked.forms.written == Some(OctetForm::Binary) {
        return tell(rt, place, words);
    }
    put(&mut answers.output, refusal)
}

/// What a line has, without its LF.
pub fn text_in(line: &[u8]) -> &[u8] {
    match line {
        [text @ .., b'\n'] => text,
        _ => line,
    }
}

/// Refuses a text of hexadecimal digits that may be a dump with offsets.
///
/// # Errors
/// `Write` if the writer reported an error, `Memory` if an allocation failed.
pub fn refuse_offsets<W: Write>(
    rt: &HostRuntime,
    answers: &mut Answers<W>,
    place: Place<'_>,
    asked: Asked<'_>,
) -> Result<bool, RunFault> {
    put_refusal(rt, answers, place, "! hex\n".as_bytes(), asked)?;
    tell(rt, place, OFFSETS)?;
    Ok(false)
}

/// Refuses a text that is no dump, or in doubt. Standard error has the line, the column and the reason.
///
/// # Errors
/// `Write` if the writer reported an error, `Memory` if an allocation failed.
pub fn refuse_dump<W: Write>(
    rt: &HostRuntime,
    answers: &mut Answers<W>,
    place: Place<'_>,
    text: &[u8],
    asked: Asked<'_>,
) -> Result<bool, RunFault> {
    put_refusal(rt, answers, place, "! dump\n".as_bytes(), asked)?;
    let told = dump_fault_text(rt.alloc(), place, text)?;
    let told = told.as_str();
    let _ = eprintln!(rt; "{told}");
    Ok(false)
}

/// Refuses a text that has no octets of its form.
///
/// # Errors
/// `Write` where the writer answered a fault, `Memory` where an allocation failed.
pub fn refuse_text<W: Write>(
    rt: &HostRuntime,
    answers: &mut Answers<W>,
    place: Place<'_>,
    form: OctetForm,
    asked: Asked<'_>,
) -> Result<bool, RunFault> {
    let (refusal, words) = match form {
        OctetForm::Base64 => ("! base64\n", "not Base64 (RFC 4648) with padding"),
        _ => ("! hex\n", "not hexadecimal digits, two an octet"),
    };
    put_refusal(rt, answers, place, refusal.as_bytes(), asked)?;
    if asked.is_explained {
        tell(rt, place, words)?;
    }
    Ok(false)
}

/// Writes all of these octets.
pub fn put<W: Write>(output: &mut Counted<W>, octets: &[u8]) -> Result<(), RunFault> {
    match output.write_all(octets) {
        Ok(()) => Ok(()),
        Err(_) => Err(RunFault::Write),
    }
}

/// Writes these words, with the place of the message, to standard error.
pub fn tell(rt: &HostRuntime, place: Place<'_>, words: &str) -> Result<(), RunFault> {
    let told = place_text(rt.alloc(), place)?;
    let _ = eprintln!(rt; "{told}: {words}");
    Ok(())
}
