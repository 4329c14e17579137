//! How types differ from the published ones.
use asn_published::{Note, Status, TypeReport};
use std::alloc::{AllocError, Global};

/// How a type differs from the published one: its status, and the first remark that makes it so, as
/// `wider: a.b: a constraint is not looked at`. None of a type that is the same.
pub(crate) fn difference_in(
    alloc: Global,
    report: &TypeReport,
) -> Result<Option<String>, AllocError> {
    let status = report.status;
    if status.is_same() {
        return Ok(None);
    }
    for note in &report.notes {
        if note.remark.status() == status {
            return Ok(Some(difference_by(alloc, status, note)?));
        }
    }
    Ok(Some(format!(in alloc; "{status}")?))
}

/// How a type of this status differs by a remark.
fn difference_by(alloc: Global, status: Status, note: &Note) -> Result<String, AllocError> {
    let component = note.component.as_str();
    let remark = note.remark;
    if component.is_empty() {
        format!(in alloc; "{status}: {remark}")
    } else {
        format!(in alloc; "{status}: {component}: {remark}")
    }
}
