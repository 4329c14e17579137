//! Refuses the type for which the profile does not take the module that was written.
ghost use Rattle.std.specs.Prelude.{IfErr};
ghost use Rattle.asn_published.specs.TextFaults.{IsOneOf};

use crate::fault::PublishedFault;
use crate::flattening::first_line;
use asn_module::ModuleFault;
use asn_published_text::options::Options;
use asn_published_write::sources::Sources;
use asn_published_write::wanted::write_all;
use asn_published_write::written::put;
use std::alloc::{AllocError, Global};

/// Whether a type has a name in the profile, or one of its levels, after whose mark a number stands.
fn is_named(own: &str, name: &str, mark: &str) -> bool {
    match name.strip_prefix(own) {
        Some(rest) => rest.is_empty() || rest.starts_with(mark),
        None => false,
    }
}

/// The index of the type that has a name in the profile, or one of its levels.
fn index_named(sources: &Sources<'_>, name: &str) -> Option<usize> {
    let mark = sources.level_mark.as_str();
    for (index, own) in sources.names.iter().enumerate() {
        if is_named(own.as_str(), name, mark) {
            return Some(index);
        }
    }
    None
}

/// The index of the type of whose levels one is assigned on a line.
fn index_of_level(sources: &Sources<'_>, line: &str) -> Option<usize> {
    match line.split(' ').next() {
        Some(name) => index_named(sources, name),
        None => None,
    }
}

/// How many octets the line of a type has: its name, ` ::=`, what is assigned, and the end of the line.
fn line_length(name: &str, assigned: &str) -> usize {
    name.len().saturating_add(assigned.len()).saturating_add(5)
}

/// The index of the type on whose line an octet of the module's text stands, where the types that are refused are not
/// written.
fn index_at(
    alloc: Global,
    sources: &Sources<'_>,
    options: Options,
    refused: &[bool],
    at: usize,
) -> Result<Option<usize>, AllocError> {
    let written = write_all(alloc, sources, options, refused, None)?;
    let mut end = first_line(alloc, sources)?.len();
    if at < end {
        return Ok(None);
    }
    for line in &written.levels {
        end = end.saturating_add(line.len());
        if at < end {
            return Ok(index_of_level(sources, line.as_str()));
        }
    }
    for (index, line) in written.lines.iter().enumerate() {
        if let (Some(line), Some(name)) = (line, sources.names.get(index)) {
            end = end.saturating_add(line_length(name.as_str(), line.as_str()));
            if at < end {
                return Ok(Some(index));
            }
        }
    }
    Ok(None)
}

/// Refuses the type of this name, with whose type the module is larger than it may be.
pub(crate) fn refuse_large(
    sources: &Sources<'_>,
    refused: &mut Vec<bool>,
    most: u32,
    name: String,
) -> Result<(), PublishedFault>
    ensures { IfErr result (IsOneOf 0) }
{
    match index_named(sources, name.as_str()) {
        Some(index) => {
            put(refused, index, true);
            Ok(())
        }
        None => Err(PublishedFault::TooLarge { most, name }),
    }
}

/// Refuses the type that the profile does not take; a fault of anything else is told.
pub(crate) fn refuse(
    alloc: Global,
    sources: &Sources<'_>,
    options: Options,
    refused: &mut Vec<bool>,
    fault: ModuleFault,
) -> Result<(), PublishedFault>
    ensures { IfErr result (IsOneOf 0) }
{
    let found = match &fault {
        ModuleFault::BadType { name, .. }
        | ModuleFault::Twice { name }
        | ModuleFault::Cycle { name } => index_named(sources, name.as_str()),
        ModuleFault::Character { at }
        | ModuleFault::Unexpected { at }
        | ModuleFault::OutOfProfile { at } => {
            index_at(alloc, sources, options, refused.as_slice(), *at)?
        }
        _ => None,
    };
    match found {
        Some(index) => {
            put(refused, index, true);
            Ok(())
        }
        None => Err(PublishedFault::Unread(fault)),
    }
}
