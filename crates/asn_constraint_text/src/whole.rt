//! The constraint of a name, with those of the names that its type refers to.

use crate::copying::{copy, take};
use crate::fault::WholeFault;
use crate::reading::MOST_LEVELS;
use crate::references::{Named, References};
use asn_constraints::{Component, Constraint, Presence};
use asn_values::internal::additions;
use asn_values::{Alt, AsnType, Field};
use std::alloc::{AllocError, Global};

/// How many parts the constraint of a name may have: constraints, components, intervals, items, lengths, and what is in
/// values.
pub const MOST_PARTS: usize = 1_000_000;

/// Both constraints, or the other one where one is free.
fn both(alloc: Global, first: Constraint, second: Constraint) -> Result<Constraint, AllocError> {
    if is_free(&first) {
        return Ok(second);
    }
    if is_free(&second) {
        return Ok(first);
    }
    Ok(Constraint::Both(Box::new(alloc, first)?, Box::new(alloc, second)?))
}

/// Whether each value meets it, as is written.
fn is_free(constraint: &Constraint) -> bool {
    matches!(constraint, Constraint::Free)
}

/// The name that a type is, if it only refers to one.
pub(crate) fn name_in(references: &References) -> Option<usize> {
    match references {
        References::Name(index) => Some(*index),
        References::None | References::Parts(_) | References::Elements(_) => None,
    }
}

/// The name that the type of a name is, if it only refers to one.
pub(crate) fn next_name(names: &[Named], index: usize) -> Option<usize> {
    name_in(&names.get(index)?.references)
}

/// The last name on the way from one to the next.
fn last_name(names: &[Named], first: usize) -> usize {
    let mut last = first;
    for _ in names {
        match next_name(names, last) {
            Some(next) => last = next,
            None => break,
        }
    }
    last
}

/// The constraints that the text has for the names on the way from one to the next; free of what is no name.
///
/// # Errors
/// `TooLarge` where they are more than `MOST_LEVELS`, or have more parts than are left; `Memory` where an allocation
/// failed.
fn along(
    alloc: Global,
    references: &References,
    names: &[Named],
    room: &mut usize,
) -> Result<Constraint, WholeFault> {
    let mut met = Constraint::Free;
    let mut next = name_in(references);
    // (each lies a level deeper, and whoever walks over a constraint takes stack for each level)
    let mut levels = MOST_LEVELS as usize;
    for _ in names {
        let Some(index) = next else {
            break;
        };
        let own = own_of(alloc, names, index, room)?;
        if !is_free(&own) {
            take(&mut levels, 1)?;
        }
        met = both(alloc, met, own)?;
        next = next_name(names, index);
    }
    Ok(met)
}

/// The constraint that the text has for a name; free where it has none.
fn own_of(
    alloc: Global,
    names: &[Named],
    index: usize,
    room: &mut usize,
) -> Result<Constraint, WholeFault> {
    match names.get(index) {
        Some(Named { own: Some(own), .. }) => copy(alloc, own, room),
        _ => Ok(Constraint::Free),
    }
}

/// What the type refers to inside itself, of one that refers to these names.
pub(crate) fn shape_in<'a>(references: &'a References, names: &'a [Named]) -> &'a References {
    match references {
        References::Name(index) => match names.get(last_name(names, *index)) {
            Some(named) => &named.references,
            None => references,
        },
        References::None | References::Parts(_) | References::Elements(_) => references,
    }
}

/// The whole constraint of a type that is the one of a name. Takes its parts from `room`.
///
/// # Errors
/// `TooLarge` where there is no room, or more than `MOST_LEVELS` names that refer one to the next have one; `Memory` where an
/// allocation failed.
pub(crate) fn whole_named(
    alloc: Global,
    ty: &AsnType,
    index: usize,
    names: &[Named],
    room: &mut usize,
) -> Result<Constraint, WholeFault> {
    whole(alloc, ty, &References::Name(index), names, room)
}

/// The constraint of a type that refers to these names.
#[cycle(whole)]
fn whole(
    alloc: Global,
    ty: &AsnType,
    references: &References,
    names: &[Named],
    room: &mut usize,
) -> Result<Constraint, WholeFault> {
    take(room, 1)?;
    let own = along(alloc, references, names, room)?;
    let inner = match (ty, shape_in(references, names)) {
        (AsnType::SeqOf(element, _), References::Elements(inner)) => {
            elements_of(alloc, whole(alloc, element, inner, names, room)?)?
        }
        (AsnType::Seq { root, ext }, References::Parts(parts)) => {
            let mut all = Vec::new(alloc);
            push_components(alloc, root, &mut all, parts, names, room)?;
            push_components(alloc, additions(ext), &mut all, parts, names, room)?;
            components_of(all)
        }
        (AsnType::Choice { root, ext }, References::Parts(parts)) => {
            let mut all = Vec::new(alloc);
            push_alternatives(alloc, root, &mut all, parts, names, room)?;
            push_alternatives(alloc, additions(ext), &mut all, parts, names, room)?;
            alternatives_of(all)
        }
        _ => Constraint::Free,
    };
    Ok(both(alloc, own, inner)?)
}

/// The constraint of elements that have this one.
fn elements_of(alloc: Global, constraint: Constraint) -> Result<Constraint, AllocError> {
    if is_free(&constraint) {
        return Ok(Constraint::Free);
    }
    Ok(Constraint::Elements(Box::new(alloc, constraint)?))
}

/// The constraint of the components up to the last one that has one.
fn components_of(mut all: Vec<Component>) -> Constraint {
    let mut count = 0;
    for (index, component) in all.iter().enumerate() {
        if !is_free(&component.constraint) {
            count = index + 1;
        }
    }
    if count == 0 {
        return Constraint::Free;
    }
    all.truncate(count);
    Constraint::Components(all)
}

/// The constraint of the alternatives, if one of them has one.
fn alternatives_of(all: Vec<Constraint>) -> Constraint {
    if all.iter().all(is_free) {
        Constraint::Free
    } else {
        Constraint::Alternatives(all)
    }
}

/// Adds the constraints of components, behind those of as many as there are already.
#[cycle(whole)]
fn push_components(
    alloc: Global,
    fields: &[Field],
    all: &mut Vec<Component>,
    parts: &[References],
    names: &[Named],
    room: &mut usize,
) -> Result<(), WholeFault> {
    for field in fields {
        let constraint = match parts.get(all.len()) {
            Some(references) => whole(alloc, &field.ty, references, names, room)?,
            None => Constraint::Free,
        };
        all.push(Component {
            presence: Presence::Any,
            constraint,
        })?;
    }
    Ok(())
}

/// Adds the constraints of alternatives, behind those of as many as there are already.
#[cycle(whole)]
fn push_alternatives(
    alloc: Global,
    alternatives: &[Alt],
    all: &mut Vec<Constraint>,
    parts: &[References],
    names: &[Named],
    room: &mut usize,
) -> Result<(), WholeFault> {
    for alternative in alternatives {
        let constraint = match parts.get(all.len()) {
            Some(references) => whole(alloc, &alternative.ty, references, names, room)?,
            None => Constraint::Free,
        };
        all.push(constraint)?;
    }
    Ok(())
}
