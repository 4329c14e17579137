//! Which types octets contain (X.682, "contents constraint"), and what is known of these before they are written.
use crate::sources::Sources;
use crate::totals::Totals;
use crate::written::{Written, write_with};
use asn_contents::push_types;
use asn_published_text::nodes::Shape;
use asn_published_text::options::Options;
use asn_published_types::report::Status;
use std::alloc::{AllocError, Global};

/// How often types are written again since one that octets contain is not the same.
const MOST_ROUNDS: u32 = 6;

/// How often the statuses of types are taken to those that use them.
const MOST_PASSES: u32 = 64;

/// Writes all types but those that are refused, where these totals have a limit those alone that are within it. Types that
/// octets contain may be written behind those that contain them: each is taken to be the same, and all are written again with
/// what became of it, until that changes nothing.
pub(crate) fn write_settled(
    alloc: Global,
    sources: &Sources<'_>,
    options: Options,
    refused: &[bool],
    totals: &Totals,
) -> Result<(Written, Totals), AllocError> {
    let contained = contained_in(alloc, sources)?;
    let mut before = vec![in alloc; Status::Same; sources.firsts.len()]?;
    for _ in 0..MOST_ROUNDS {
        let statuses = before.clone()?;
        let again = totals.again(alloc);
        let (written, taken) = write_with(alloc, sources, options, refused, again, statuses)?;
        let after = statuses_of(alloc, &written)?;
        let mut is_settled = true;
        for entry in &contained {
            let one = status_at(before.as_slice(), *entry);
            is_settled &= one == status_at(after.as_slice(), *entry);
        }
        if is_settled {
            return Ok((written, taken));
        }
        before = after;
    }
    let statuses = no_contents(alloc, sources)?;
    write_with(
        alloc,
        sources,
        options,
        refused,
        totals.again(alloc),
        statuses,
    )
}

/// The statuses with which no octets are looked at.
pub(crate) fn no_contents(alloc: Global, sources: &Sources<'_>) -> Result<Vec<Status>, AllocError> {
    vec![in alloc; Status::Refused; sources.firsts.len()]
}

/// The types that octets contain.
fn contained_in(alloc: Global, sources: &Sources<'_>) -> Result<Vec<usize>, AllocError> {
    let mut contained = Vec::new(alloc);
    for node in &sources.forest.nodes {
        if let Shape::Contained { to } = node.shape {
            contained.push(to)?;
        }
    }
    contained.sort()?;
    contained.dedup();
    Ok(contained)
}

/// The status of a type; the same where there is none.
fn status_at(statuses: &[Status], entry: usize) -> Status {
    match statuses.get(entry) {
        Some(status) => *status,
        None => Status::Same,
    }
}

/// What became of each type, those that it uses counted too; the same where it is not written.
fn statuses_of(alloc: Global, written: &Written) -> Result<Vec<Status>, AllocError> {
    let mut statuses = vec![in alloc; Status::Same; written.reports.len()]?;
    for _ in 0..MOST_PASSES {
        if !take_uses(written, &mut statuses) {
            break;
        }
    }
    Ok(statuses)
}

/// Takes what became of types to those that use them, the last first, and says whether that changed one.
fn take_uses(written: &Written, statuses: &mut Vec<Status>) -> bool {
    let mut is_changed = false;
    let mut at = written.reports.len();
    for _ in 0..written.reports.len() {
        at = at.saturating_sub(1);
        let Some(Some(report)) = written.reports.get(at) else {
            continue;
        };
        let mut status = report.status;
        for used in &report.uses {
            status = match status_at(statuses.as_slice(), *used) {
                // (what holds a type that is refused does not look at it)
                Status::Refused => status.worse(Status::Wider),
                other => status.worse(other),
            };
        }
        if let Some(place) = statuses.get_mut(at) {
            is_changed |= *place != status;
            *place = status;
        }
    }
    is_changed
}

/// A type, and those that octets contain in its values, in theirs and so on, each once.
pub(crate) fn contained_from(
    alloc: Global,
    written: &Written,
    entry: usize,
) -> Result<Vec<usize>, AllocError> {
    let mut found = Vec::new(alloc);
    let mut is_seen = vec![in alloc; false; written.marked.len()]?;
    let mut is_found = vec![in alloc; false; written.places.len()]?;
    let mut types = Vec::new(alloc);
    types.push(entry)?;
    for _ in 0..u64::MAX {
        let Some(one) = types.pop() else {
            break;
        };
        match is_found.get_mut(one) {
            Some(place) if !*place => *place = true,
            _ => continue,
        }
        found.push(one)?;
        push_contained(alloc, written, &mut is_seen, &mut types, one)?;
    }
    Ok(found)
}

/// Adds the types that octets contain in the values of a type, of which those are left out whose types were seen.
fn push_contained(
    alloc: Global,
    written: &Written,
    is_seen: &mut Vec<bool>,
    types: &mut Vec<usize>,
    entry: usize,
) -> Result<(), AllocError> {
    let mut todo = Vec::new(alloc);
    if let Some(place) = written.places.get(entry) {
        todo.push(*place)?;
    }
    for _ in 0..u64::MAX {
        let Some(index) = todo.pop() else {
            break;
        };
        match is_seen.get_mut(index) {
            Some(place) if !*place => *place = true,
            _ => continue,
        }
        let Some(one) = written.marked.get(index) else {
            continue;
        };
        for step in &one.steps {
            push_types(&step.contents, types)?;
            if let Some(to) = step.to {
                todo.push(to)?;
            }
        }
    }
    Ok(())
}
