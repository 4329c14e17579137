//! Messages that are answered one after the other.
use crate::answering::{Answers, Asked, answer_one};
use crate::streaming::answer_stream;
use crate::writing::{refuse_dump, refuse_offsets, refuse_text};
use asn_jobs::{OctetForm, Place, RunFault, is_dump, next_text, octets_in};
use asn_look::front_len;
use std::io::{BufRead, Write};

/// Answers the messages of an input, whose name is that of its file, or empty for standard input. Returns whether no
/// answer is a refusal.
///
/// # Errors
/// `Read` where the reader answered a fault, `Write` where the writer did, `Memory` where an allocation failed.
pub fn answer_input<R: BufRead, W: Write>(
    rt: &HostRuntime,
    input: &mut R,
    answers: &mut Answers<W>,
    file: &str,
    asked: Asked<'_>,
) -> Result<bool, RunFault> {
    if asked.forms.is_split && asked.forms.given == Some(OctetForm::Binary) {
        return answer_stream(rt, input, answers, file, asked);
    }
    let mut text = Vec::new(rt.alloc());
    let mut lines = 0;
    let mut all_good = true;
    for _ in 0..u64::MAX {
        let Some(line) = next_text(input, asked.forms.given, &mut text, &mut lines)? else {
            return Ok(all_good);
        };
        let place = Place {
            file,
            line,
            message: 0,
        };
        all_good &= answer_text(rt, answers, place, text.as_slice(), asked)?;
    }
    // (more texts than 64 bits count)
    Err(RunFault::Memory)
}

/// Answers the message of a text, or the messages that stand in it one after the other.
fn answer_text<W: Write>(
    rt: &HostRuntime,
    answers: &mut Answers<W>,
    place: Place<'_>,
    text: &[u8],
    asked: Asked<'_>,
) -> Result<bool, RunFault> {
    let form = match asked.forms.given {
        Some(form) => form,
        None if asked.forms.is_split => OctetForm::Hex,
        None => {
            let is_good = answer_one(rt, answers, place, text, asked)?;
            answers.progress.step(rt);
            return Ok(is_good);
        }
    };
    if is_dump(form, text) {
        return refuse_offsets(rt, answers, place, asked);
    }
    match octets_in(rt.alloc(), form, text)? {
        Some(octets) => {
            if asked.forms.is_split {
                return answer_each(rt, answers, place, octets.as_slice(), asked);
            }
            answer_octets(rt, answers, place, octets.as_slice(), asked)
        }
        None if form == OctetForm::Dump => refuse_dump(rt, answers, place, text, asked),
        None => refuse_text(rt, answers, place, form, asked),
    }
}

/// Answers messages that stand one after the other: each begins where the last ended.
fn answer_each<W: Write>(
    rt: &HostRuntime,
    answers: &mut Answers<W>,
    place: Place<'_>,
    octets: &[u8],
    asked: Asked<'_>,
) -> Result<bool, RunFault> {
    let mut rest = octets;
    let mut all_good = true;
    for message in 1..u64::MAX {
        if rest.is_empty() {
            return Ok(all_good);
        }
        let length = front_len(rt.alloc(), asked.ty(), asked.rules, rest)?;
        let (front, later) = rest.split_at(length);
        let here = Place {
            file: place.file,
            line: place.line,
            message,
        };
        all_good &= answer_octets(rt, answers, here, front, asked)?;
        rest = later;
    }
    Ok(all_good)
}

/// Answers the message that these octets are.
///
/// # Errors
/// `Write` where the writer answered a fault, `Memory` where an allocation failed.
pub fn answer_octets<W: Write>(
    rt: &HostRuntime,
    answers: &mut Answers<W>,
    place: Place<'_>,
    octets: &[u8],
    asked: Asked<'_>,
) -> Result<bool, RunFault> {
    let digits = hex::encode(rt.alloc(), octets)?;
    let is_good = answer_one(rt, answers, place, digits.as_bytes(), asked)?;
    answers.progress.step(rt);
    Ok(is_good)
}
