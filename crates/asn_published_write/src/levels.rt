//! The names of types that are written to fewer levels, and which types lie in one cycle.
use crate::sources::Sources;
use std::alloc::{AllocError, Global};

/// The name by which others refer to a type, whole or of a level.
pub(crate) fn name_of(
    alloc: Global,
    sources: &Sources<'_>,
    entry: usize,
    level: u32,
    is_whole: bool,
) -> Result<String, AllocError> {
    let name = match sources.names.get(entry) {
        Some(name) => name.as_str(),
        None => "",
    };
    if is_whole {
        String::from_str(alloc, name)
    } else {
        let mark = sources.level_mark.as_str();
        format!(in alloc; "{name}{mark}{level}")
    }
}

/// The assignment of a type with fewer levels than are asked for.
pub(crate) fn level_line(
    alloc: Global,
    name: &str,
    mark: &str,
    level: u32,
    text: &str,
) -> Result<String, AllocError> {
    format!(in alloc; "{name}{mark}{level} ::={text}\n")
}

/// The name and the text of a type in such an assignment.
pub(crate) fn assigned(line: &str) -> Option<(&str, &str)> {
    match line.split_once(" ::=") {
        Some((name, text)) => match text.strip_suffix("\n") {
            Some(text) => Some((name, text)),
            None => None,
        },
        None => None,
    }
}

/// How many of the types from `from` on lie in one cycle; 1 where the first lies in none.
pub(crate) fn cycle_end(sources: &Sources<'_>, from: usize) -> usize {
    let types = sources.order.types.as_slice();
    let cycle = match types.get(from) {
        Some(entry) => match sources.order.cycles.get(*entry) {
            Some(Some(cycle)) => *cycle,
            _ => return from.saturating_add(1),
        },
        None => return from.saturating_add(1),
    };
    let mut end = from;
    for _ in 0..types.len() {
        let is_member = match types.get(end) {
            Some(entry) => match sources.order.cycles.get(*entry) {
                Some(Some(other)) => *other == cycle,
                _ => false,
            },
            None => false,
        };
        if !is_member {
            break;
        }
        end = end.saturating_add(1);
    }
    end
}
