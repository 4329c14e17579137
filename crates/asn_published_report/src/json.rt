//! The report of the types as JSON.
ghost use Rattle.std.specs.Prelude.{◌≡◌, ◌++◌, ◌/◌, ◌%◌, ◌<◌, ◌∷◌, [], IfOk, flat_map, string_bytes};
ghost use Rattle.std.specs.Char.{digit_char};
ghost use Rattle.asn_published_types.specs.Statuses.{word_of};
ghost use Rattle.asn_published_report.specs.Telling.{escaped, note_json, note_object, notes_json, quoted, report_json, type_json, type_object};

use crate::telling::file_named;
use asn_published_types::report::{Note, Status, TypeReport};
use std::alloc::{AllocError, Global};

/// Appends a hexadecimal digit.
fn push_digit(out: &mut String, digit: u32) -> Result<(), AllocError>
    requires { digit < 16 }
    ensures { IfOk result (λ done. string_bytes out.new ≡ string_bytes out.old ++ (digit_char digit ∷ [])) }
{
    out.push(char::from_digit(digit, 16).unwrap_or('0'))
}

/// Appends what stands in a string of JSON for a character.
fn push_escaped(out: &mut String, letter: char) -> Result<(), AllocError>
    ensures { IfOk result (λ done. string_bytes out.new ≡ string_bytes out.old ++ escaped letter) }
{
    match letter {
        '"' => out.push_str("\\\""),
        '\\' => out.push_str("\\\\"),
        '\0'..='\x1f' => {
            let code = u32::from(letter);
            out.push_str("\\u00")?;
            push_digit(out, code / 16)?;
            push_digit(out, code % 16)
        }
        other => out.push(other),
    }
}

/// A text as a string of JSON.
pub(crate) fn quoted(alloc: Global, text: &str) -> Result<String, AllocError>
    ensures { IfOk result (λ out. string_bytes out ≡ quoted text.now) }
{
    let mut out = String::new(alloc);
    out.push_str("\"")?;
    for letter in text.chars() {
        push_escaped(&mut out, letter)?;
    }
    out.push_str("\"")?;
    Ok(out)
}

/// Appends the note to `before`, as an object of JSON: its line, component, status and remark.
#[tactic(auto, unfolding(crate::specs::Telling::note_object))]
fn note_object(
    alloc: Global,
    before: &str,
    line: u32,
    component: &str,
    status: Status,
    said: &str,
) -> Result<String, AllocError>
    ensures { IfOk result (λ text. string_bytes text
        ≡ note_object before.now line component.now (word_of status) said.now) }
{
    format!(in alloc;
        "{before}{{\"line\":{line},\"component\":{component},\"status\":\"{status}\",\"remark\":{said}}}"
    )
}

/// Appends a note to `before`, as an object of JSON.
fn note_json(alloc: Global, before: &str, note: &Note) -> Result<String, AllocError>
    ensures { IfOk result (λ text. string_bytes text ≡ note_json before.now note.now) }
{
    let component = quoted(alloc, note.component.as_str())?;
    let words = note.remark.to_string(alloc)?;
    let said = quoted(alloc, words.as_str())?;
    let status = note.remark.status();
    note_object(
        alloc,
        before,
        note.line,
        component.as_str(),
        status,
        said.as_str(),
    )
}

/// Appends a note as an object of JSON, and before it what is given.
fn push_note(alloc: Global, out: &mut String, before: &str, note: &Note) -> Result<(), AllocError>
    ensures { IfOk result (λ done. string_bytes out.new ≡ string_bytes out.old ++ note_json before.now note.now) }
{
    let object = note_json(alloc, before, note)?;
    out.push_str(object.as_str())
}

/// Appends notes as objects of JSON, with commas between them.
fn push_notes(alloc: Global, out: &mut String, notes: &[Note]) -> Result<(), AllocError>
    ensures { IfOk result (λ done. string_bytes out.new ≡ string_bytes out.old ++ notes_json notes.now) }
{
    let Some((first, others)) = notes.split_first() else {
        return Ok(());
    };
    push_note(alloc, out, "", first)?;
    for note in others {
        push_note(alloc, out, ",", note)?;
    }
    Ok(())
}

/// The type as an object of JSON on a line of its own: its name, file, line and status, and its notes.
#[tactic(auto, unfolding(crate::specs::Telling::type_object))]
fn type_object(
    alloc: Global,
    name: &str,
    file: &str,
    line: u32,
    status: Status,
    notes: &str,
) -> Result<String, AllocError>
    ensures { IfOk result (λ text. string_bytes text
        ≡ type_object name.now file.now line (word_of status) notes.now) }
{
    format!(in alloc;
        "{{\"type\":{name},\"file\":{file},\"line\":{line},\"status\":\"{status}\",\"notes\":[{notes}]}}\n"
    )
}

/// A type as an object of JSON on a line.
fn type_json(alloc: Global, files: &[&str], one: &TypeReport) -> Result<String, AllocError>
    ensures { IfOk result (λ text. string_bytes text ≡ type_json files.now one.now) }
{
    let name = quoted(alloc, one.name.as_str())?;
    let file = quoted(alloc, file_named(files, one.text))?;
    let mut notes = String::new(alloc);
    push_notes(alloc, &mut notes, one.notes.as_slice())?;
    type_object(
        alloc,
        name.as_str(),
        file.as_str(),
        one.line,
        one.status,
        notes.as_str(),
    )
}

/// Appends a type as an object of JSON on a line.
fn push_type(
    alloc: Global,
    out: &mut String,
    files: &[&str],
    one: &TypeReport,
) -> Result<(), AllocError>
    ensures { IfOk result (λ done. string_bytes out.new ≡ string_bytes out.old ++ type_json files.now one.now) }
{
    let object = type_json(alloc, files, one)?;
    out.push_str(object.as_str())
}

/// The report as JSON: a line for each type, an object with its name, file, line and status, and its notes.
pub fn report_json(
    alloc: Global,
    files: &[&str],
    report: &[TypeReport],
) -> Result<String, AllocError>
    ensures { IfOk result (λ out. string_bytes out ≡ report_json files.now report.now) }
{
    let mut out = String::new(alloc);
    for one in report {
        push_type(alloc, &mut out, files, one)?;
    }
    Ok(out)
}
