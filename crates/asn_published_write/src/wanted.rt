//! All types as they are written, or one alone.
use crate::contained::{contained_from, no_contents, write_settled};
use crate::sources::Sources;
use crate::spliced::written_out;
use crate::totals::Totals;
use crate::written::{Alone, Written, write_with};
use asn_published_text::options::Options;
use std::alloc::{AllocError, Global};

/// The type that is wanted, and whether it alone is. Where it is not, it is all the same if all types that are written come
/// to more than they may. Neither holds of one that comes to more than half of that: its text has each name as often as
/// its tree.
#[derive(Clone, Copy)]
pub struct Wanted {
    pub entry: usize,
    pub is_alone: bool,
}

/// Writes all types but those that are refused. Where they come to more than they may, the largest are refused too, unless
/// a type is wanted that comes to less alone.
pub fn write_all(
    alloc: Global,
    sources: &Sources<'_>,
    options: Options,
    refused: &[bool],
    wanted: Option<Wanted>,
) -> Result<Written, AllocError> {
    let none = Totals::new(alloc);
    let (written, totals) = write_settled(alloc, sources, options, refused, &none)?;
    if let Some(wanted) = wanted {
        let is_alone = wanted.is_alone || !totals.are_within(sources.most);
        if is_alone && can_be_alone(&*sources, &written, &totals, wanted.entry) {
            return write_alone(
                alloc,
                sources,
                options,
                refused,
                written,
                totals,
                wanted.entry,
            );
        }
    }
    match totals.limited(alloc, sources.most)? {
        None => Ok(written),
        Some(totals) => {
            let (written, _totals) = write_settled(alloc, sources, options, refused, &totals)?;
            Ok(written)
        }
    }
}

/// Whether a type is written and comes to no more than half of what all types may come to.
fn can_be_alone(sources: &Sources<'_>, written: &Written, totals: &Totals, entry: usize) -> bool {
    match (sources.names.get(entry), written.lines.get(entry)) {
        (Some(name), Some(Some(_))) => totals.is_within(name.as_str(), sources.most / 2),
        _ => false,
    }
}

/// Writes a type alone, and behind it those that octets contain then. Where these come to more than all types may, octets
/// are not looked at.
fn write_alone(
    alloc: Global,
    sources: &Sources<'_>,
    options: Options,
    refused: &[bool],
    written: Written,
    totals: Totals,
    entry: usize,
) -> Result<Written, AllocError> {
    let contained = contained_from(alloc, &written, entry)?;
    let mut size = 0usize;
    for one in &contained {
        if let Some(name) = sources.names.get(*one) {
            size = size.saturating_add(totals.size_named(name.as_str()));
        }
    }
    if size <= sources.most as usize {
        return with_alone(alloc, sources, written, contained.as_slice());
    }
    let statuses = no_contents(alloc, sources)?;
    let again = totals.again(alloc);
    let (written, _totals) = write_with(alloc, sources, options, refused, again, statuses)?;
    with_alone(alloc, sources, written, &[entry])
}

/// The types as they are written, with the texts of these alone.
fn with_alone(
    alloc: Global,
    sources: &Sources<'_>,
    written: Written,
    entries: &[usize],
) -> Result<Written, AllocError> {
    let mut all = Vec::new(alloc);
    for entry in entries {
        if let Some(text) = text_alone(alloc, &*sources, &written, *entry)? {
            all.push(Alone {
                entry: *entry,
                text,
            })?;
        }
    }
    let mut written = written;
    written.alone = all;
    Ok(written)
}

/// The text of a type with those that it refers to written out in it; `None` where it is refused.
fn text_alone<'a>(
    alloc: Global,
    sources: &'a Sources<'_>,
    written: &'a Written,
    entry: usize,
) -> Result<Option<String>, AllocError> {
    let Some(Some(line)) = written.lines.get(entry) else {
        return Ok(None);
    };
    let lines = written.lines.as_slice();
    let levels = written.levels.as_slice();
    Ok(Some(written_out(alloc, sources, lines, levels, line.as_str())?))
}
