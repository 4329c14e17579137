//! The part of a message that breaks the constraint of its type, or is not the encoding that it has to be.
use crate::containing::{MessageType, broken_contents, outer_path};
use crate::valued::value_of_digits;
use asn_constraints::{Broken, judge_at, path_text};
use asn_jobs::RuleName;
use asn_values::AsnType;
use std::alloc::{AllocError, Global};

/// The refusal, without its LF, of an encoding of so many octets whose value breaks its constraint for this reason at the
/// path. The place is the last unit of the encoding.
///
/// # Errors
/// `AllocError` if an allocation failed.
pub fn broken_at_end(
    alloc: Global,
    ty: &AsnType,
    broken: &Broken,
    rules: RuleName,
    octets: usize,
) -> Result<String, AllocError> {
    let words = broken_words(alloc, ty, broken)?;
    let words = words.as_str();
    let place = at_end(alloc, rules, octets)?;
    let place = place.as_str();
    format!(in alloc; "! {words}{place}")
}

/// The place of a refusal at the last unit of so many octets: ` (octet 4)`.
///
/// # Errors
/// `AllocError` if an allocation failed.
pub(crate) fn at_end(alloc: Global, rules: RuleName, octets: usize) -> Result<String, AllocError> {
    match rules {
        RuleName::Per => {
            let bits = octets.saturating_mul(8);
            format!(in alloc; " (bit {bits})")
        }
        RuleName::Oer => format!(in alloc; " (octet {octets})"),
    }
}

/// The reason for which a value breaks its constraint, and the path to that part.
///
/// # Errors
/// `AllocError` if an allocation failed.
pub fn broken_words(alloc: Global, ty: &AsnType, broken: &Broken) -> Result<String, AllocError> {
    let path = path_text(alloc, ty, broken.path.as_slice())?;
    let path = path.as_str();
    let reason = broken.reason;
    format!(in alloc; "{reason} at {path}")
}

/// What is wrong with a message of the type of the profile.
#[derive(Drop)]
pub(crate) struct WrongPart {
    /// the path to the part
    pub path: String,
    pub reason: String,
    /// the refusal of the message, without its LF
    pub refusal: String,
}

/// What is wrong with a message of the type of the profile: a part breaks the constraint, or octets are not the encoding
/// that they have to be. `None` if nothing is, or the octets are no encoding of the type.
///
/// # Errors
/// `AllocError` if an allocation failed.
pub(crate) fn wrong_part(
    alloc: Global,
    messages: &MessageType,
    rules: RuleName,
    octets: &[u8],
) -> Result<Option<WrongPart>, AllocError> {
    if !messages.has_contents() {
        return wrong_by_constraint(alloc, messages, rules, octets);
    }
    match broken_contents(alloc, messages, rules, octets)? {
        Some(broken) => Ok(Some(WrongPart {
            path: outer_path(alloc, messages, &broken)?,
            reason: String::from_str(alloc, "contents")?,
            refusal: messages.contents_refusal(alloc, &broken, rules, Some(octets.len()))?,
        })),
        None => wrong_by_constraint(alloc, messages, rules, octets),
    }
}

/// The part of a message that breaks the constraint.
fn wrong_by_constraint(
    alloc: Global,
    messages: &MessageType,
    rules: RuleName,
    octets: &[u8],
) -> Result<Option<WrongPart>, AllocError> {
    let constrained = messages.constrained();
    let digits = hex::encode(alloc, octets)?;
    let value = match value_of_digits(alloc, constrained.ty(), rules, digits.as_bytes())? {
        Some(value) => value,
        None => return Ok(None),
    };
    let Some(broken) = judge_at(alloc, constrained.constraint(), &value)? else {
        return Ok(None);
    };
    let ty = constrained.ty().get();
    let reason = broken.reason;
    Ok(Some(WrongPart {
        path: path_text(alloc, ty, broken.path.as_slice())?,
        reason: format!(in alloc; "{reason}")?,
        refusal: broken_at_end(alloc, ty, &broken, rules, octets.len())?,
    }))
}

/// The lines of a message, the first of the part at the path with the reason at its end.
///
/// # Errors
/// `AllocError` if an allocation failed.
pub(crate) fn lines_marked(
    alloc: Global,
    lines: &str,
    path: &str,
    reason: &str,
) -> Result<String, AllocError> {
    let mut marked = String::new(alloc);
    let mut is_marked = false;
    for line in lines.lines() {
        marked.push_str(line)?;
        if !is_marked && line.split_ascii_whitespace().any(|word| *word == *path) {
            is_marked = true;
            let mark = format!(in alloc; "  ! {reason}")?;
            marked.push_str(mark.as_str())?;
        }
        marked.push('\n')?;
    }
    Ok(marked)
}
