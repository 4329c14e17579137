//! Copies of constraints, of which the parts are counted.
use crate::fault::WholeFault;
use asn_constraints::{Component, Constraint};
use asn_values::Value;
use std::alloc::Global;

/// Takes parts from the room that is left.
///
/// # Errors
/// `TooLarge` where there is not as much.
pub(crate) fn take(room: &mut usize, parts: usize) -> Result<(), WholeFault> {
    if parts <= *room {
        *room -= parts;
        Ok(())
    } else {
        Err(WholeFault::TooLarge)
    }
}

/// The same constraint once more. Takes its parts from `room`: itself, those inside it, intervals, items and lengths,
/// and what a value has.
///
/// # Errors
/// `TooLarge` where there is no room; `Memory` where an allocation failed.
#[cycle(copying)]
pub(crate) fn copy(
    alloc: Global,
    constraint: &Constraint,
    room: &mut usize,
) -> Result<Constraint, WholeFault> {
    take(room, 1)?;
    match constraint {
        Constraint::Free => Ok(Constraint::Free),
        Constraint::Barred => Ok(Constraint::Barred),
        Constraint::Both(first, second) => {
            let first = copy(alloc, first, room)?;
            let second = copy(alloc, second, room)?;
            Ok(Constraint::Both(Box::new(alloc, first)?, Box::new(alloc, second)?))
        }
        Constraint::Either(first, second) => {
            let first = copy(alloc, first, room)?;
            let second = copy(alloc, second, room)?;
            Ok(Constraint::Either(Box::new(alloc, first)?, Box::new(alloc, second)?))
        }
        Constraint::Numbers(intervals) => {
            take(room, intervals.len())?;
            Ok(Constraint::Numbers(intervals.clone()?))
        }
        Constraint::Items(positions) => {
            take(room, positions.len())?;
            Ok(Constraint::Items(positions.clone()?))
        }
        Constraint::Lengths(lengths) => {
            take(room, lengths.len())?;
            Ok(Constraint::Lengths(lengths.clone()?))
        }
        Constraint::Characters(intervals) => {
            take(room, intervals.len())?;
            Ok(Constraint::Characters(intervals.clone()?))
        }
        Constraint::Trimmed(low) => Ok(Constraint::Trimmed(*low)),
        Constraint::Time(kind) => Ok(Constraint::Time(*kind)),
        Constraint::Except(value) => {
            take_value(value, room)?;
            Ok(Constraint::Except(value.clone()?))
        }
        Constraint::Components(components) => copy_components(alloc, components, room),
        Constraint::Elements(inner) => {
            let inner = copy(alloc, inner, room)?;
            Ok(Constraint::Elements(Box::new(alloc, inner)?))
        }
        Constraint::Alternatives(alternatives) => copy_alternatives(alloc, alternatives, room),
        Constraint::SomePresent => Ok(Constraint::SomePresent),
    }
}

/// The same components once more.
#[cycle(copying)]
fn copy_components(
    alloc: Global,
    components: &[Component],
    room: &mut usize,
) -> Result<Constraint, WholeFault> {
    let mut copies = Vec::new(alloc);
    for component in components {
        let constraint = copy(alloc, &component.constraint, room)?;
        copies.push(Component {
            presence: component.presence,
            constraint,
        })?;
    }
    Ok(Constraint::Components(copies))
}

/// The same alternatives once more.
#[cycle(copying)]
fn copy_alternatives(
    alloc: Global,
    alternatives: &[Constraint],
    room: &mut usize,
) -> Result<Constraint, WholeFault> {
    let mut copies = Vec::new(alloc);
    for constraint in alternatives {
        copies.push(copy(alloc, constraint, room)?)?;
    }
    Ok(Constraint::Alternatives(copies))
}

/// Takes the parts of a value from the room.
#[cycle(value_copying)]
fn take_value(value: &Value, room: &mut usize) -> Result<(), WholeFault> {
    match value {
        Value::Bool(_)
        | Value::Null
        | Value::Int(_)
        | Value::Enum(_)
        | Value::UnknownItem(_)
        | Value::UnknownAlternative(_) => take(room, 1),
        Value::Bits(bits) => take(room, bits.len()),
        Value::Octets(octets) => take(room, octets.len()),
        Value::Text(codes) => take(room, codes.len()),
        Value::Utf8(text) => take(room, text.len()),
        Value::Seq(entries) => take_entries(entries, room),
        Value::List(elements) => take_elements(elements, room),
        Value::Choice(_, chosen) => take_value(chosen, room),
    }
}

/// Takes the parts of the entries of a SEQUENCE.
#[cycle(value_copying)]
fn take_entries(entries: &[Option<Value>], room: &mut usize) -> Result<(), WholeFault> {
    take(room, entries.len())?;
    for entry in entries {
        if let Some(value) = entry {
            take_value(value, room)?;
        }
    }
    Ok(())
}

/// Takes the parts of the elements of a SEQUENCE OF.
#[cycle(value_copying)]
fn take_elements(elements: &[Value], room: &mut usize) -> Result<(), WholeFault> {
    for element in elements {
        take_value(element, room)?;
    }
    Ok(())
}
