//! The report of the types as text.
ghost use Rattle.std.specs.Prelude.{◌≡◌, ◌++◌, ◌==◌, IfOk, count_by, string_bytes};
ghost use Rattle.asn_published_types.specs.Statuses.{distance};
ghost use Rattle.asn_published_report.specs.Telling.{dot_before, file_named, is_other, note_line, others_line, others_words, report_lines, summary, summary_line};
ghost use Rattle.asn_published_report.specs.Telling.{type_lines};

use asn_published_types::report::{Note, Status, TypeReport};
use std::alloc::{AllocError, Global};

/// The name of the file that a text came from.
pub(crate) fn file_named<'a>(files: &[&'a str], text: usize) -> &'a str
    ensures { result.now ≡ file_named files.now text }
{
    match files.get(text) {
        Some(file) => *file,
        None => "",
    }
}

/// How many of the types have a status.
fn count_of(report: &[TypeReport], status: Status) -> usize
    ensures { result ≡ count_by (λ one. distance one.status == distance status) report.now }
{
    let rank = status.rank();
    report
        .iter()
        .filter(|one| one.status.rank() == rank)
        .count()
}

/// Appends the line for a status: how many of the types have it.
fn push_count(
    alloc: Global,
    text: &mut String,
    report: &[TypeReport],
    status: Status,
) -> Result<(), AllocError>
    ensures { IfOk result (λ done. string_bytes text.new ≡ string_bytes text.old ++ summary_line report.now status) }
{
    let count = count_of(report, status);
    let line = format!(in alloc; "{status}: {count}\n")?;
    text.push_str(line.as_str())
}

/// Whether there is a type, and it is not the same as the published one.
fn is_other(status: Status) -> bool
    ensures { result ≡ is_other status }
{
    !matches!(status, Status::Same | Status::Refused)
}

/// How many of the types are not the same, whatever their status.
fn others_in(report: &[TypeReport]) -> usize
    ensures { result ≡ count_by (λ one. is_other one.status) report.now }
{
    report.iter().filter(|one| is_other(one.status)).count()
}

/// The line for so many types that are not the same.
#[tactic(auto, unfolding(crate::specs::Telling::others_words))]
fn others_words(alloc: Global, count: usize) -> Result<String, AllocError>
    ensures { IfOk result (λ line. string_bytes line ≡ others_words count) }
{
    format!(in alloc; "not the same: {count}\n")
}

/// Appends the line for the types that are not the same.
fn push_others(alloc: Global, text: &mut String, report: &[TypeReport]) -> Result<(), AllocError>
    ensures { IfOk result (λ done. string_bytes text.new ≡ string_bytes text.old ++ others_line report.now) }
{
    let line = others_words(alloc, others_in(report))?;
    text.push_str(line.as_str())
}

/// A line for each status: how many of the types have it; and after those that are the same how many are not.
pub fn summary_of(alloc: Global, report: &[TypeReport]) -> Result<String, AllocError>
    ensures { IfOk result (λ text. string_bytes text ≡ summary report.now) }
{
    let mut text = String::new(alloc);
    push_count(alloc, &mut text, report, Status::Same)?;
    push_others(alloc, &mut text, report)?;
    push_count(alloc, &mut text, report, Status::Narrower)?;
    push_count(alloc, &mut text, report, Status::Wider)?;
    push_count(alloc, &mut text, report, Status::Owed)?;
    push_count(alloc, &mut text, report, Status::PerOnly)?;
    push_count(alloc, &mut text, report, Status::Refused)?;
    Ok(text)
}

/// What stands between a type's name and a component: a dot, or nothing where that is empty.
fn dot_before(component: &str) -> &'static str
    ensures { result.now ≡ dot_before component.now }
{
    if component.is_empty() { "" } else { "." }
}

/// The line of a note, as `FILE:LINE: NAME.COMPONENT: STATUS: REMARK`.
pub(crate) fn note_line(
    alloc: Global,
    file: &str,
    one: &TypeReport,
    note: &Note,
) -> Result<String, AllocError>
    ensures { IfOk result (λ text. string_bytes text ≡ note_line file.now one.now note.now) }
{
    let line = note.line;
    let name = one.name.as_str();
    let component = note.component.as_str();
    let dot = dot_before(component);
    let status = note.remark.status();
    let remark = note.remark;
    format!(in alloc; "{file}:{line}: {name}{dot}{component}: {status}: {remark}\n")
}

/// Appends a line for each note of a type.
fn push_type(
    alloc: Global,
    text: &mut String,
    files: &[&str],
    one: &TypeReport,
) -> Result<(), AllocError>
    ensures { IfOk result (λ done. string_bytes text.new ≡ string_bytes text.old ++ type_lines files.now one.now) }
{
    let file = file_named(files, one.text);
    for note in &one.notes {
        let line = note_line(alloc, file, one, note)?;
        text.push_str(line.as_str())?;
    }
    Ok(())
}

/// A line for each note of each type, `files` being the names of the files of the texts.
pub fn report_text(
    alloc: Global,
    files: &[&str],
    report: &[TypeReport],
) -> Result<String, AllocError>
    ensures { IfOk result (λ text. string_bytes text ≡ report_lines files.now report.now) }
{
    let mut text = String::new(alloc);
    for one in report {
        push_type(alloc, &mut text, files, one)?;
    }
    Ok(text)
}
