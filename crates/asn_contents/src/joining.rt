//! Which octets of values are encodings, put together from what parts of types and constraints say of it.
use crate::contents::{Contents, SelectedType, Selection};
use std::alloc::{AllocError, Global};

/// Whether two say the same of the same octets.
#[cycle(same)]
pub fn are_same(one: &Contents, other: &Contents) -> bool {
    match one {
        Contents::Nowhere => matches!(other, Contents::Nowhere),
        Contents::Octets(ty) => matches!(other, Contents::Octets(another) if *ty == *another),
        Contents::Components(parts) => match other {
            Contents::Components(others) => are_all_same(parts, others),
            _ => false,
        },
        Contents::Elements(inner) => match other {
            Contents::Elements(another) => are_same(inner, another),
            _ => false,
        },
        Contents::Alternatives(parts) => match other {
            Contents::Alternatives(others) => are_all_same(parts, others),
            _ => false,
        },
        Contents::Both(first, second) => match other {
            Contents::Both(third, fourth) => are_same(first, third) && are_same(second, fourth),
            _ => false,
        },
        Contents::Selected(selection) => match other {
            Contents::Selected(another) => is_same_selection(selection, another),
            _ => false,
        },
    }
}

/// Whether two open types are the same.
fn is_same_selection(one: &Selection, other: &Selection) -> bool {
    one.by == other.by
        && one.open == other.open
        && one.extensible == other.extensible
        && *one.rows == *other.rows
}

/// Whether the parts of two say the same.
#[cycle(same)]
fn are_all_same(parts: &[Contents], others: &[Contents]) -> bool {
    if others.len() != parts.len() {
        return false;
    }
    for (index, part) in parts.iter().enumerate() {
        if !are_same(part, &others[index]) {
            return false;
        }
    }
    true
}

/// The octets of both, those that both have once.
pub fn both_contents(
    alloc: Global,
    one: Contents,
    other: Contents,
) -> Result<Contents, AllocError> {
    if are_same(&one, &other) {
        return Ok(one);
    }
    match one {
        Contents::Nowhere => Ok(other),
        one => match other {
            Contents::Nowhere => Ok(one),
            other => Ok(Contents::Both(Box::new(alloc, one)?, Box::new(alloc, other)?)),
        },
    }
}

/// The octets in elements of a list.
pub fn contents_of_elements(alloc: Global, inner: Contents) -> Result<Contents, AllocError> {
    match inner {
        Contents::Nowhere => Ok(Contents::Nowhere),
        inner => Ok(Contents::Elements(Box::new(alloc, inner)?)),
    }
}

/// Whether no octets are encodings.
pub fn is_nowhere(contents: &Contents) -> bool {
    matches!(contents, Contents::Nowhere)
}

/// The octets in components or alternatives, of which those after the last with some are left out.
pub fn contents_of_parts(parts: Vec<Contents>, is_choice: bool) -> Contents {
    let mut parts = parts;
    for _ in 0..parts.len() {
        match parts.last() {
            Some(Contents::Nowhere) => {
                let _ = parts.pop();
            }
            _ => break,
        }
    }
    if parts.is_empty() {
        Contents::Nowhere
    } else if is_choice {
        Contents::Alternatives(parts)
    } else {
        Contents::Components(parts)
    }
}

/// The same octets once more, with other positions for their types; those of a type without one are left out.
#[cycle(moved)]
pub fn moved(
    alloc: Global,
    contents: &Contents,
    places: &[Option<usize>],
) -> Result<Contents, AllocError> {
    match contents {
        Contents::Nowhere => Ok(Contents::Nowhere),
        Contents::Octets(to) => match places.get(*to) {
            Some(Some(place)) => Ok(Contents::Octets(*place)),
            _ => Ok(Contents::Nowhere),
        },
        Contents::Components(parts) => {
            let parts = all_moved(alloc, parts.as_slice(), places)?;
            Ok(contents_of_parts(parts, false))
        }
        Contents::Elements(inner) => contents_of_elements(alloc, moved(alloc, inner, places)?),
        Contents::Alternatives(parts) => {
            let parts = all_moved(alloc, parts.as_slice(), places)?;
            Ok(contents_of_parts(parts, true))
        }
        Contents::Both(first, second) => {
            let one = moved(alloc, first, places)?;
            let other = moved(alloc, second, places)?;
            both_contents(alloc, one, other)
        }
        Contents::Selected(selection) => selected_moved(alloc, selection, places),
    }
}

/// The parts once more, with other positions.
#[cycle(moved)]
fn all_moved(
    alloc: Global,
    parts: &[Contents],
    places: &[Option<usize>],
) -> Result<Vec<Contents>, AllocError> {
    let mut all = Vec::new(alloc);
    for part in parts {
        let one = moved(alloc, part, places)?;
        all.push(one)?;
    }
    Ok(all)
}

/// An open type once more, with other positions for its types.
fn selected_moved(
    alloc: Global,
    selection: &Selection,
    places: &[Option<usize>],
) -> Result<Contents, AllocError> {
    let mut rows = Vec::new(alloc);
    for row in &selection.rows {
        match places.get(row.ty) {
            Some(Some(place)) => rows.push(SelectedType {
                number: row.number,
                ty: *place,
            })?,
            _ => return Ok(Contents::Nowhere),
        }
    }
    Ok(Contents::Selected(Selection {
        by: selection.by,
        open: selection.open,
        rows,
        extensible: selection.extensible,
    }))
}

/// Adds the types of the octets that are encodings, each as often as it is there.
#[cycle(types)]
pub fn push_types(contents: &Contents, types: &mut Vec<usize>) -> Result<(), AllocError> {
    match contents {
        Contents::Nowhere => Ok(()),
        Contents::Octets(to) => Ok(types.push(*to)?),
        Contents::Components(parts) | Contents::Alternatives(parts) => {
            push_all_types(parts.as_slice(), types)
        }
        Contents::Elements(inner) => push_types(inner, types),
        Contents::Both(first, second) => {
            push_types(first, types)?;
            push_types(second, types)
        }
        Contents::Selected(selection) => {
            for row in &selection.rows {
                types.push(row.ty)?;
            }
            Ok(())
        }
    }
}

/// Adds the types of the octets in parts.
#[cycle(types)]
fn push_all_types(parts: &[Contents], types: &mut Vec<usize>) -> Result<(), AllocError> {
    for part in parts {
        push_types(part, types)?;
    }
    Ok(())
}
