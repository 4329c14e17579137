//! Which octets are encodings in the values of the type of a name, with those of the names that it refers to.
use crate::copying::take;
use crate::fault::WholeFault;
use crate::references::{Named, References};
use crate::whole::{name_in, next_name, shape_in};
use asn_contents::{Contents, Selection, both_contents, contents_of_elements, contents_of_parts};
use asn_values::internal::additions;
use asn_values::{Alt, AsnType, Field};
use std::alloc::Global;

/// The octets that are encodings in the values of a type that is the one of a name. Takes their parts from `room`.
///
/// # Errors
/// `TooLarge` where there is no room; `Memory` where an allocation failed.
pub(crate) fn contents_named(
    alloc: Global,
    ty: &AsnType,
    index: usize,
    names: &[Named],
    room: &mut usize,
) -> Result<Contents, WholeFault> {
    whole(alloc, ty, &References::Name(index), names, room)
}

/// What the text has for the names on the way from one to the next; nothing of what is no name.
fn along(
    alloc: Global,
    references: &References,
    names: &[Named],
    room: &mut usize,
) -> Result<Contents, WholeFault> {
    let mut met = Contents::Nowhere;
    let mut next = name_in(references);
    for _ in names {
        let Some(index) = next else {
            break;
        };
        if let Some(named) = names.get(index) {
            let own = copy(alloc, &named.contents, room)?;
            met = both_contents(alloc, met, own)?;
        }
        next = next_name(names, index);
    }
    Ok(met)
}

/// The octets of a type that refers to these names.
#[cycle(whole_contents)]
fn whole(
    alloc: Global,
    ty: &AsnType,
    references: &References,
    names: &[Named],
    room: &mut usize,
) -> Result<Contents, WholeFault> {
    take(room, 1)?;
    let own = along(alloc, references, names, room)?;
    let inner = match (ty, shape_in(references, names)) {
        (AsnType::SeqOf(element, _), References::Elements(inner)) => {
            contents_of_elements(alloc, whole(alloc, element, inner, names, room)?)?
        }
        (AsnType::Seq { root, ext }, References::Parts(parts)) => {
            let mut all = Vec::new(alloc);
            push_components(alloc, root, &mut all, parts, names, room)?;
            push_components(alloc, additions(ext), &mut all, parts, names, room)?;
            contents_of_parts(all, false)
        }
        (AsnType::Choice { root, ext }, References::Parts(parts)) => {
            let mut all = Vec::new(alloc);
            push_alternatives(alloc, root, &mut all, parts, names, room)?;
            push_alternatives(alloc, additions(ext), &mut all, parts, names, room)?;
            contents_of_parts(all, true)
        }
        _ => Contents::Nowhere,
    };
    Ok(both_contents(alloc, own, inner)?)
}

/// Adds those of components, behind those of as many as there are already.
#[cycle(whole_contents)]
fn push_components(
    alloc: Global,
    fields: &[Field],
    all: &mut Vec<Contents>,
    parts: &[References],
    names: &[Named],
    room: &mut usize,
) -> Result<(), WholeFault> {
    for field in fields {
        let contents = match parts.get(all.len()) {
            Some(references) => whole(alloc, &field.ty, references, names, room)?,
            None => Contents::Nowhere,
        };
        all.push(contents)?;
    }
    Ok(())
}

/// Adds those of alternatives, behind those of as many as there are already.
#[cycle(whole_contents)]
fn push_alternatives(
    alloc: Global,
    alternatives: &[Alt],
    all: &mut Vec<Contents>,
    parts: &[References],
    names: &[Named],
    room: &mut usize,
) -> Result<(), WholeFault> {
    for alternative in alternatives {
        let contents = match parts.get(all.len()) {
            Some(references) => whole(alloc, &alternative.ty, references, names, room)?,
            None => Contents::Nowhere,
        };
        all.push(contents)?;
    }
    Ok(())
}

/// The same once more. Takes its parts from `room`.
#[cycle(copying_contents)]
fn copy(alloc: Global, contents: &Contents, room: &mut usize) -> Result<Contents, WholeFault> {
    take(room, 1)?;
    match contents {
        Contents::Nowhere => Ok(Contents::Nowhere),
        Contents::Octets(ty) => Ok(Contents::Octets(*ty)),
        Contents::Components(parts) => Ok(Contents::Components(copies(alloc, parts, room)?)),
        Contents::Alternatives(parts) => Ok(Contents::Alternatives(copies(alloc, parts, room)?)),
        Contents::Elements(inner) => {
            let inner = copy(alloc, inner, room)?;
            Ok(Contents::Elements(Box::new(alloc, inner)?))
        }
        Contents::Both(first, second) => {
            let first = copy(alloc, first, room)?;
            let second = copy(alloc, second, room)?;
            Ok(Contents::Both(Box::new(alloc, first)?, Box::new(alloc, second)?))
        }
        Contents::Selected(selection) => {
            take(room, selection.rows.len())?;
            Ok(Contents::Selected(Selection {
                by: selection.by,
                open: selection.open,
                rows: selection.rows.clone()?,
                extensible: selection.extensible,
            }))
        }
    }
}

/// The parts once more.
#[cycle(copying_contents)]
fn copies(
    alloc: Global,
    parts: &[Contents],
    room: &mut usize,
) -> Result<Vec<Contents>, WholeFault> {
    let mut all = Vec::new(alloc);
    for part in parts {
        all.push(copy(alloc, part, room)?)?;
    }
    Ok(all)
}
