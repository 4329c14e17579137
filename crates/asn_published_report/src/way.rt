//! Which of the types on the way to one are not the same as the published ones.
ghost use Rattle.std.specs.Prelude.{◌≡◌, ◌++◌, Bool, IfOk, List, false, get_or, if◌then◌else◌, not, option_map, slice_set, string_bytes, true};
ghost use Rattle.asn_published_report.specs.Parts.{AreParts, IsWay, Visited, status_at, type_named, uses_of};
ghost use Rattle.asn_published_report.specs.Telling.{is_own, is_refusal, lines_if, marked_lines, own_lines, refused_lines};
ghost use Rattle.asn_published_report.specs.Telling.{refused_lines_of};

use crate::telling::{file_named, note_line};
use asn_published_types::report::{Remark, Status, TypeReport};
use std::alloc::{AllocError, Global};

/// Marks a type, and gives whether the report has it and it was not marked.
fn mark(marks: &mut Vec<bool>, index: usize) -> bool
    ensures before { get_or marks.old.items index true ≡ not result }
    ensures after { marks.new.items ≡ (if result then slice_set marks.old.items index true else marks.old.items) }
{
    if index < marks.len() && !marks[index] {
        marks[index] = true;
        true
    } else {
        false
    }
}

/// Asks for the types that the type at an index refers to.
fn push_uses(todo: &mut Vec<usize>, report: &[TypeReport], index: usize) -> Result<(), AllocError>
    ensures { IfOk result (λ done. todo.new.items ≡ todo.old.items ++ uses_of report.now index) }
{
    match report.get(index) {
        Some(one) => todo.extend_from_slice(one.uses.as_slice()),
        None => Ok(()),
    }
}

/// Looks at a type: where it is not marked, marks it and asks for those that it refers to.
fn visit(
    report: &[TypeReport],
    marks: &mut Vec<bool>,
    todo: &mut Vec<usize>,
    index: usize,
) -> Result<(), AllocError>
    ensures { IfOk result (λ done. Visited report.now index marks.old.items todo.old.items marks.new.items
        todo.new.items) }
{
    if mark(marks, index) {
        push_uses(todo, report, index)
    } else {
        Ok(())
    }
}

/// Of each type of a report whether the one at an index is made of it.
fn parts_of(alloc: Global, report: &[TypeReport], index: usize) -> Result<Vec<bool>, AllocError>
    ensures { IfOk result (λ marks. AreParts report.now index marks.items) }
{
    let mut marks = vec![in alloc; false; report.len()]?;
    let mut todo = vec![in alloc; index]?;
    while let Some(at) = todo.pop() {
        visit(report, &mut marks, &mut todo, at)?;
    }
    Ok(marks)
}

/// Whether a remark is on the type itself, and does not only say that the type holds another.
fn is_own(remark: Remark) -> bool
    ensures { result ≡ is_own remark }
{
    !matches!(remark, Remark::Holds(_))
}

/// Appends a line for each remark on a type itself.
fn push_own(
    alloc: Global,
    text: &mut String,
    files: &[&str],
    one: &TypeReport,
) -> Result<(), AllocError>
    ensures { IfOk result (λ done. string_bytes text.new ≡ string_bytes text.old ++ own_lines files.now one.now) }
{
    let file = file_named(files, one.text);
    for note in &one.notes {
        if is_own(note.remark) {
            let line = note_line(alloc, file, one, note)?;
            text.push_str(line.as_str())?;
        }
    }
    Ok(())
}

/// Whether the type at an index is marked.
fn is_marked(marks: &[bool], index: usize) -> bool
    ensures { result ≡ get_or marks.now index false }
{
    match marks.get(index) {
        Some(mark) => *mark,
        None => false,
    }
}

/// Appends a line for each remark on the type at an index, where it is marked.
fn push_marked(
    alloc: Global,
    text: &mut String,
    files: &[&str],
    one: &TypeReport,
    is_marked: bool,
) -> Result<(), AllocError>
    ensures { IfOk result (λ done. string_bytes text.new
        ≡ string_bytes text.old ++ lines_if files.now is_marked one.now) }
{
    if is_marked {
        push_own(alloc, text, files, one)
    } else {
        Ok(())
    }
}

/// A line for each remark on the types that are marked.
fn marked_text(
    alloc: Global,
    files: &[&str],
    report: &[TypeReport],
    marks: &[bool],
) -> Result<String, AllocError>
    ensures { IfOk result (λ text. string_bytes text ≡ marked_lines files.now marks.now 0 report.now) }
{
    let mut text = String::new(alloc);
    for (index, one) in report.iter().enumerate() {
        let is_marked = is_marked(marks, index);
        push_marked(alloc, &mut text, files, one, is_marked)?;
    }
    Ok(text)
}

/// The index of the first type of a name.
fn index_named(report: &[TypeReport], name: &str) -> Option<usize>
    ensures { result ≡ type_named report.now name.now }
{
    report
        .iter()
        .position(|one| *one.name.as_str().as_bytes() == *name.as_bytes())
}

/// The status of the first type of a name; `None` where there is none.
pub fn status_named(report: &[TypeReport], name: &str) -> Option<Status>
    ensures { result ≡ option_map (λ i. status_at report.now i) (type_named report.now name.now) }
{
    match index_named(report, name) {
        Some(index) => Some(status_at(report, index)),
        None => None,
    }
}

/// The status of the type at an index; refused, where the report has none.
fn status_at(report: &[TypeReport], index: usize) -> Status
    ensures { result ≡ status_at report.now index }
{
    match report.get(index) {
        Some(one) => one.status,
        None => Status::Refused,
    }
}

/// Of each type of a report whether the first one of a name is made of it; nothing where there is none.
fn way_of(alloc: Global, report: &[TypeReport], name: &str) -> Result<Vec<bool>, AllocError>
    ensures { IfOk result (λ marks. IsWay report.now name.now marks.items) }
{
    match index_named(report, name) {
        Some(index) => parts_of(alloc, report, index),
        None => Ok(Vec::new(alloc)),
    }
}

/// A line for each remark on the type of a name and on those that it is made of, as `FILE:LINE: NAME.COMPONENT:
/// STATUS: REMARK`. Remarks that only say that a type holds another are left out. There is no line where all are the
/// same, or where there is no type of the name. `files` are the names of the files of the texts.
pub fn way_text(
    alloc: Global,
    files: &[&str],
    report: &[TypeReport],
    name: &str,
) -> Result<String, AllocError>
    // The lines are those of the types of which the first type of the name is made, in the order of the report.
    ensures { IfOk result (λ text. (marks : List Bool) × IsWay report.now name.now marks
        × (string_bytes text ≡ marked_lines files.now marks 0 report.now)) }
{
    let marks = way_of(alloc, report, name)?;
    marked_text(alloc, files, report, marks.as_slice())
}

/// Whether a remark says why a type is refused.
fn is_refusal(remark: Remark) -> bool
    ensures { result ≡ is_refusal remark }
{
    matches!(remark, Remark::Refused(_))
}

/// Appends a line for each note that says why a type is refused.
fn push_refusals(
    alloc: Global,
    text: &mut String,
    files: &[&str],
    one: &TypeReport,
) -> Result<(), AllocError>
    ensures { IfOk result (λ done. string_bytes text.new
        ≡ string_bytes text.old ++ refused_lines_of files.now one.now) }
{
    let file = file_named(files, one.text);
    for note in &one.notes {
        if is_refusal(note.remark) {
            let line = note_line(alloc, file, one, note)?;
            text.push_str(line.as_str())?;
        }
    }
    Ok(())
}

/// A line for each type of a report that is refused, as `FILE:LINE: NAME.COMPONENT: refused: WHY`.
pub fn refused_text(
    alloc: Global,
    files: &[&str],
    report: &[TypeReport],
) -> Result<String, AllocError>
    ensures { IfOk result (λ text. string_bytes text ≡ refused_lines files.now report.now) }
{
    let mut text = String::new(alloc);
    for one in report {
        push_refusals(alloc, &mut text, files, one)?;
    }
    Ok(text)
}
