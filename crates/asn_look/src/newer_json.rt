//! Messages of other versions of a type as JSON, with the fields that are skipped in them, and back.
ghost use Rattle.std.specs.Prelude.{◌≡◌, IfOk, IsTrue};
ghost use Rattle.std.specs.List.{list_all};
ghost use Rattle.asn_jobs.specs.Lines.{IsOneLine};
ghost use Rattle.asn_look.specs.Refusals.{is_of_path, is_path, RefusesInOneLine};

use crate::laying::value_text;
use crate::paths::path_text;
use asn_jobs::RuleName;
use asn_json::{TextFault, json_in};
use asn_json_layout::Layout;
use asn_newer::{NewerAt, NewerFault, ReadNewer, SkippedAt};
use asn_oer::Oer;
use asn_per::Per;
use asn_values::{AsnType, Checked};
use hex::FromHexError;
use serde_json::Value as Json;
use std::alloc::{AllocError, Global};

/// Why a line is refused that is no object as it is written here.
const NO_OBJECT: &str =
    "expected an object with the members value and skipped, as newer --json prints it";

/// Why a line is refused that has a key twice.
pub(crate) const KEY_TWICE: &str = "the object has this key twice";

/// Why a line is refused of which something was skipped.
const WOULD_BE_LOST: &str = "the type does not have this addition, and encoding would lose it";

/// The JSON of what is read of the message that a line of hexadecimal is: an object with its value, which has the order
/// of members that is asked for, and with the fields that are skipped. `None` where the line is no such message.
///
/// # Errors
/// `AllocError` where an allocation failed.
pub fn newer_line(
    alloc: Global,
    ty: &Checked,
    rules: RuleName,
    line: &[u8],
    is_declared: bool,
) -> Result<Option<String>, AllocError> {
    let octets = match hex::decode(alloc, line) {
        Ok(octets) => octets,
        Err(FromHexError::OutOfMemory) => return Err(AllocError),
        Err(_) => return Ok(None),
    };
    let octets = octets.as_slice();
    match rules {
        RuleName::Per => newer_object::<Per>(alloc, ty, octets, is_declared),
        RuleName::Oer => newer_object::<Oer>(alloc, ty, octets, is_declared),
    }
}

/// The same of octets.
fn newer_object<R: ReadNewer>(
    alloc: Global,
    ty: &Checked,
    octets: &[u8],
    is_declared: bool,
) -> Result<Option<String>, AllocError> {
    match R::read_newer_at(alloc, ty, octets) {
        Ok(newer) => Ok(Some(object_text(alloc, ty, &newer, is_declared)?)),
        Err(NewerFault::Memory) => Err(AllocError),
        Err(_) => Ok(None),
    }
}

/// The object of what was read.
fn object_text(
    alloc: Global,
    ty: &Checked,
    newer: &NewerAt,
    is_declared: bool,
) -> Result<String, AllocError> {
    let layout = Layout {
        is_declared,
        is_pretty: false,
    };
    let value = value_text(alloc, ty, &newer.value, layout)?;
    let skipped = fields_text(alloc, ty.get(), newer.skipped.as_slice())?;
    format!(in alloc; "{{\"value\":{value},\"skipped\":[{skipped}]}}")
}

/// The objects of the skipped fields, with a comma between two.
fn fields_text(alloc: Global, ty: &AsnType, skipped: &[SkippedAt]) -> Result<String, AllocError> {
    let [first, others @ ..] = skipped else {
        return Ok(String::new(alloc));
    };
    let mut text = field_text(alloc, ty, first)?;
    for field in others {
        let more = field_text(alloc, ty, field)?;
        let more = format!(in alloc; ",{more}")?;
        text.push_str(more.as_str())?;
    }
    Ok(text)
}

/// The object of a skipped field.
fn field_text(alloc: Global, ty: &AsnType, skipped: &SkippedAt) -> Result<String, AllocError> {
    let path = path_text(alloc, ty, skipped.path.as_slice())?;
    let index = skipped.field.place;
    let octets = hex::encode(alloc, skipped.field.octets.as_slice())?;
    format!(in alloc; "{{\"path\":\"{path}\",\"addition\":{index},\"octets\":\"{octets}\"}}")
}

/// What a line of `newer --json` is encoded as.
#[derive(Drop)]
pub enum TakenBack {
    /// The JSON of its value, of which nothing was skipped.
    Value(String),
    /// It is refused by this line, for this reason.
    Refused(String, &'static str),
}

/// What a line of `newer --json` is encoded as: its value, where nothing was skipped.
///
/// # Errors
/// `AllocError` where an allocation failed.
pub fn taken_back(alloc: Global, line: &[u8]) -> Result<TakenBack, AllocError>
    ensures { IfOk result RefusesInOneLine }
{
    match json_in(alloc, line) {
        Ok(whole) => taken_of(alloc, &whole),
        Err(TextFault::NotJson) => refused(alloc, "! json", "the line is not JSON"),
        Err(TextFault::KeyTwice { path }) => refused_key(alloc, path.as_str()),
        Err(TextFault::Memory) => Err(AllocError),
    }
}

/// The line that refuses an object with a key twice. The path is shown only if it has the form of one.
fn refused_key(alloc: Global, path: &str) -> Result<TakenBack, AllocError>
    ensures { IfOk result RefusesInOneLine }
{
    if is_path(path.as_bytes()) {
        return key_twice_at(alloc, path);
    }
    refused(alloc, "! shape $", KEY_TWICE)
}

/// The line that refuses an object with a key twice, with the path of the key.
fn key_twice_at(alloc: Global, path: &str) -> Result<TakenBack, AllocError>
    requires { IsTrue (is_path path.now) }
    ensures { IfOk result RefusesInOneLine }
{
    let refusal = format!(in alloc; "! shape {path}\n")?;
    Ok(TakenBack::Refused(refusal, KEY_TWICE))
}

/// The same of the JSON of the line.
fn taken_of(alloc: Global, whole: &Json) -> Result<TakenBack, AllocError>
    ensures { IfOk result RefusesInOneLine }
{
    let Some(value) = whole.get("value") else {
        return refused(alloc, "! shape $.value", NO_OBJECT);
    };
    let Some(Json::Array(skipped)) = whole.get("skipped") else {
        return refused(alloc, "! shape $.skipped", NO_OBJECT);
    };
    match skipped.first() {
        None => Ok(TakenBack::Value(value.to_string(alloc)?)),
        Some(field) => refused_field(alloc, field),
    }
}

/// The line that refuses a message of which this field was skipped. Its path may come from anywhere, and is told only
/// where it has the form of one.
fn refused_field(alloc: Global, field: &Json) -> Result<TakenBack, AllocError>
    ensures { IfOk result RefusesInOneLine }
{
    match field.get("path") {
        Some(Json::String(path)) if is_path(path.as_bytes()) => lost_at(alloc, path.as_str()),
        _ => refused(alloc, "! shape $.skipped[0].path", NO_OBJECT),
    }
}

/// The line that tells that what was skipped at this path would be lost.
fn lost_at(alloc: Global, path: &str) -> Result<TakenBack, AllocError>
    requires { IsTrue (is_path path.now) }
    ensures { IfOk result RefusesInOneLine }
{
    let refusal = format!(in alloc; "! skipped {path}\n")?;
    Ok(TakenBack::Refused(refusal, WOULD_BE_LOST))
}

/// Whether the text has the form of a path: `$`, and after it only letters, digits and the marks of paths.
fn is_path(text: &[u8]) -> bool
    ensures { result ≡ is_path text.now }
{
    match text {
        [first, rest @ ..] => *first == b'$' && are_of_path(rest),
        [] => false,
    }
}

/// Whether each octet is a letter of names, a digit or a mark of paths.
fn are_of_path(octets: &[u8]) -> bool
    ensures { result ≡ list_all is_of_path octets.now }
{
    octets.iter().all(|octet| is_of_path(*octet))
}

/// Whether an octet is a letter of names, a digit or a mark of paths.
fn is_of_path(octet: u8) -> bool
    ensures { result ≡ is_of_path octet }
{
    octet.is_ascii_alphanumeric() || matches!(octet, b'$' | b'-' | b'.' | b'[' | b']')
}

/// These words refuse a line, for this reason.
fn refused(alloc: Global, words: &str, reason: &'static str) -> Result<TakenBack, AllocError>
    requires { IsOneLine words.now }
    ensures { IfOk result RefusesInOneLine }
{
    let refusal = format!(in alloc; "{words}\n")?;
    Ok(TakenBack::Refused(refusal, reason))
}
