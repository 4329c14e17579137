//! Why a line is refused, in words.
use crate::newer_json::KEY_TWICE;
use crate::typed::{type_at, type_words};
use crate::wanted::wanted_words;
use asn_explain::{Explanation, explain};
use asn_jobs::{Order, RuleName};
use asn_json::{JsonFault, TextFault, json_in, value_shown};
use asn_newer::{NewerFault, ReadNewer};
use asn_oer::Oer;
use asn_per::Per;
use asn_plan::Taken;
use asn_rules::{DecodeFault, Why};
use asn_values::{Checked, Value};
use asn_view::misfit;
use hex::FromHexError;
use serde_json::{Category, Value as Json};
use std::alloc::{AllocError, Global};

/// What is said of an encoding that is longer than any.
const TOO_LONG: &str = "the encoding has more than 268,435,455 octets";

/// Why a message is refused that `newer` reads.
const READ_BY_NEWER: &str =
    "the sender has another version of the type; the command newer reads this message";

/// Why a line was refused, in words: of octets the component in which the refused unit lies, with its type, of a value the
/// first part that does not fit.
///
/// # Errors
/// `AllocError` where an allocation failed.
pub fn why_refused(
    alloc: Global,
    ty: &Checked,
    order: Order,
    rules: RuleName,
    line: &[u8],
) -> Result<String, AllocError> {
    match order {
        Order::Encode => why_no_value(alloc, ty, line),
        Order::Show | Order::Check | Order::Convert | Order::Newer => {
            match hex::decode(alloc, line) {
                Ok(octets) => why_no_message(alloc, ty, order, rules, octets.as_slice()),
                Err(fault) => why_no_octets(alloc, &fault),
            }
        }
    }
}

/// Why a message is refused whose value takes so much, which is over the budget.
pub fn over_words(alloc: Global, taken: &Taken) -> Result<String, AllocError> {
    let Taken { entries, octets } = *taken;
    format!(in alloc;
        "the value takes {entries} entries and {octets} octets of strings, which is more than --budget allows"
    )
}

/// Why a text is no hexadecimal.
fn why_no_octets(alloc: Global, fault: &FromHexError) -> Result<String, AllocError> {
    match fault {
        FromHexError::InvalidHexCharacter { index, .. } => {
            let column = (*index).saturating_add(1);
            format!(in alloc; "column {column}: not a hexadecimal digit")
        }
        FromHexError::OddLength | FromHexError::InvalidStringLength => {
            String::from_str(alloc, "an odd number of hexadecimal digits")
        }
        FromHexError::OutOfMemory => Err(AllocError),
    }
}

/// Why octets are answered with a refusal.
fn why_no_message(
    alloc: Global,
    ty: &Checked,
    order: Order,
    rules: RuleName,
    octets: &[u8],
) -> Result<String, AllocError> {
    if let Order::Newer = order {
        return match rules {
            RuleName::Per => why_not_newer::<Per>(alloc, ty, octets),
            RuleName::Oer => why_not_newer::<Oer>(alloc, ty, octets),
        };
    }
    let (told, is_newer) = match rules {
        RuleName::Per => (
            explain::<Per>(alloc, ty, octets)?,
            reads_newer::<Per>(alloc, ty, octets),
        ),
        RuleName::Oer => (
            explain::<Oer>(alloc, ty, octets)?,
            reads_newer::<Oer>(alloc, ty, octets),
        ),
    };
    let Some(explanation) = told else {
        return String::from_str(alloc, TOO_LONG);
    };
    if is_newer {
        let place = place_words(alloc, ty, explanation.path.as_str())?;
        return format!(in alloc; "in {place}: {READ_BY_NEWER}");
    }
    words_of(alloc, ty, rules, &explanation)
}

/// Whether `newer` reads the octets.
fn reads_newer<R: ReadNewer>(alloc: Global, ty: &Checked, octets: &[u8]) -> bool {
    R::read_newer(alloc, ty, octets).is_ok()
}

/// Why octets are the message of no version of the type.
fn why_not_newer<R: ReadNewer>(
    alloc: Global,
    ty: &Checked,
    octets: &[u8],
) -> Result<String, AllocError> {
    let words = match R::read_newer(alloc, ty, octets) {
        Ok(_) => "",
        Err(NewerFault::Refused) => "no version of the type has a message that begins like this",
        Err(NewerFault::Truncated) => "the message ends too early",
        Err(NewerFault::TooManyAdditions) => "too many extension additions or alternatives",
        Err(NewerFault::TooLong) => TOO_LONG,
        Err(NewerFault::Memory) => return Err(AllocError),
    };
    String::from_str(alloc, words)
}

/// An explanation in words.
fn words_of(
    alloc: Global,
    ty: &Checked,
    rules: RuleName,
    explanation: &Explanation,
) -> Result<String, AllocError> {
    if let DecodeFault::Rest { used } = explanation.fault {
        return format!(in alloc; "the message ends after {used} octets, and more octets follow it");
    }
    let place = place_words(alloc, ty, explanation.path.as_str())?;
    let reason = match explanation.fault {
        DecodeFault::Refused { why, .. } => reason_words(rules, why),
        DecodeFault::Truncated { .. } => "the message ends too early",
        _ => TOO_LONG,
    };
    format!(in alloc; "in {place}: {reason}")
}

/// A path, and the type of the part to which it leads.
fn place_words(alloc: Global, ty: &Checked, path: &str) -> Result<String, AllocError> {
    match type_at(ty.get(), path) {
        Some(part) => {
            let words = type_words(alloc, part)?;
            format!(in alloc; "{path}, {words}")
        }
        None => String::from_str(alloc, path),
    }
}

/// What the word for the reason of a refusal means under these rules.
fn reason_words(rules: RuleName, why: Why) -> &'static str {
    match why {
        Why::Sealed => "the content of the field is not an encoding of its type",
        Why::Default => "the component has its default value, which must not be encoded",
        Why::Length => "this length is not allowed, or is not in its shortest form",
        Why::Extension => {
            "these extension bits are not allowed: an extension bit, a count of additions, or presence bits that are all 0"
        }
        Why::Character => "the string type does not have this character",
        Why::Padding => match rules {
            RuleName::Per => "padding bits must be 0",
            RuleName::Oer => { "padding bits must be 0, or the number of unused bits is wrong" }
        },
        Why::Number => "this number or item is not allowed, or is not in its shortest form",
    }
}

/// Why a text is no JSON of a value of the type that has an encoding.
fn why_no_value(alloc: Global, ty: &Checked, line: &[u8]) -> Result<String, AllocError> {
    match json_in(alloc, line) {
        Ok(json) => why_not_shown(alloc, ty, &json),
        Err(TextFault::NotJson) => why_no_json(alloc, line),
        Err(TextFault::KeyTwice { path }) => format!(in alloc; "in {path}: {KEY_TWICE}"),
        Err(TextFault::Memory) => Err(AllocError),
    }
}

/// Why a text is no JSON.
fn why_no_json(alloc: Global, line: &[u8]) -> Result<String, AllocError> {
    match Json::from_slice(alloc, line) {
        Ok(_) => String::from_str(alloc, "the line is not JSON"),
        Err(fault) => {
            let column = fault.column();
            match fault.classify() {
                Category::Memory => Err(AllocError),
                Category::Eof => format!(in alloc; "column {column}: the JSON ends too early"),
                _ => format!(in alloc;
                    "column {column}: unexpected character, number too large, or too deep"
                ),
            }
        }
    }
}

/// Why JSON shows no value of the type that has an encoding.
fn why_not_shown(alloc: Global, ty: &Checked, json: &Json) -> Result<String, AllocError> {
    match value_shown(alloc, ty, json) {
        Ok(value) => why_no_encoding(alloc, ty, &value),
        Err(JsonFault::Shape { path }) => why_no_shape(alloc, ty, json, path.as_str()),
        Err(_) => Err(AllocError),
    }
}

/// Why JSON is not of the shape of the type at a path.
fn why_no_shape(
    alloc: Global,
    ty: &Checked,
    json: &Json,
    path: &str,
) -> Result<String, AllocError> {
    let place = place_words(alloc, ty, path)?;
    match type_at(ty.get(), path) {
        Some(part) => {
            let reason = wanted_words(alloc, part, json, path)?;
            format!(in alloc; "in {place}: {reason}")
        }
        None => Ok(place),
    }
}

/// Why a value has no encoding.
fn why_no_encoding(alloc: Global, ty: &Checked, value: &Value) -> Result<String, AllocError> {
    match misfit(alloc, ty, value)? {
        Some(wrong) => {
            let place = place_words(alloc, ty, wrong.path.as_str())?;
            let reason = wrong.reason.as_str();
            format!(in alloc; "in {place}: {reason}")
        }
        None => String::from_str(alloc, TOO_LONG),
    }
}
