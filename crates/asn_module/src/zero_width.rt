//! Which types of a refused module have no bits in PER, told by their notation before any of them is built. The levels
//! of a type are how many levels of the types inside it have to be looked at to tell that it has none; None where it
//! has some.

use crate::bounds::{any_size, both_sizes, size_of};
use crate::heads::{Head, Met, head_of, with_bounds};
use crate::simple::{integer, string};
use asn_notation::{
    AlternativeNotation, AssignmentNotation, ComponentNotation, ListSize, NeedNotation,
    TypeNotation,
};
use asn_values::{AsnType, Size};
use std::alloc::{AllocError, Global};
use std::collections::HashMap;

/// The assignments of a module, the index and the head of each.
#[derive(Clone, Copy)]
pub(crate) struct Followed<'m, 't, 'n> {
    pub all: &'m [AssignmentNotation<'n>],
    pub indices: &'m HashMap<&'t str, usize>,
    pub heads: &'m [Head],
}

/// BOOLEAN, NULL, INTEGER or a string with the bounds that are written on references to it; None of another type.
pub(crate) fn simple_type(ty: &TypeNotation, met: Met) -> Option<AsnType> {
    match ty {
        TypeNotation::Boolean => Some(AsnType::Bool),
        TypeNotation::Null => Some(AsnType::Null),
        TypeNotation::Utf8 => Some(AsnType::Utf8),
        TypeNotation::Integer(range) => Some(with_bounds(integer(*range).ty, met)),
        TypeNotation::Text(kind, size) => Some(with_bounds(string(*kind, *size).ty, met)),
        TypeNotation::Enumerated { .. }
        | TypeNotation::Sequence { .. }
        | TypeNotation::SequenceOf(..)
        | TypeNotation::Choice { .. }
        | TypeNotation::Reference { .. } => None,
    }
}

/// Whether there is one length only.
fn is_fixed(size: &Size) -> bool {
    !size.ext && size.high == Some(size.low)
}

/// Whether no value of a type without parts has a bit.
fn is_without_bits(ty: &AsnType) -> bool {
    match ty {
        AsnType::Null => true,
        AsnType::Int(bounds) => !bounds.ext && bounds.low.is_some() && bounds.low == bounds.high,
        AsnType::Bits(size) | AsnType::Octets(size) | AsnType::Text(_, size) => {
            is_fixed(size) && size.low == 0
        }
        _ => false,
    }
}

/// The levels of a type whose only part has these.
fn one_more(levels: Option<u32>) -> Option<u32> {
    Some(levels?.saturating_add(1))
}

/// The levels of a SEQUENCE OF, with the bounds on references to it: `inside` where its size is fixed and not 0.
fn levels_of_list(size: ListSize, met: Met, inside: Option<u32>) -> Option<u32> {
    let written = match size {
        ListSize::Any => any_size(),
        ListSize::Bare(size) | ListSize::Bracketed(size) => size_of(size),
    };
    let size = match met {
        Met::Size(size) => both_sizes(written, size),
        _ => written,
    };
    if !is_fixed(&size) {
        return None;
    }
    if size.low == 0 { Some(0) } else { inside }
}

/// The levels of a type that has no parts and is no reference.
fn levels_of_simple(ty: &TypeNotation, met: Met) -> Option<u32> {
    let is_empty = match ty {
        TypeNotation::Enumerated { root, more } => root.len() == 1 && more.is_none(),
        _ => simple_type(ty, met).is_some_and(|ty| is_without_bits(&ty)),
    };
    if is_empty { Some(0) } else { None }
}

/// The levels of a reference. `inside` has what `levels_inside` answers of the assignments that are referred to.
fn levels_of_end<'m, 't, 'n>(
    module: Followed<'m, 't, 'n>,
    inside: &[Option<u32>],
    ty: &TypeNotation<'n>,
) -> Option<u32> {
    let head = head_of(module.heads, module.indices, ty)?;
    let end = module.all.get(head.end)?;
    let inside = match inside.get(head.end) {
        Some(levels) => *levels,
        None => None,
    };
    match &end.ty {
        TypeNotation::Sequence { .. } | TypeNotation::Choice { .. } => inside,
        TypeNotation::SequenceOf(size, _) => levels_of_list(*size, head.met, inside),
        simple => levels_of_simple(simple, head.met),
    }
}

/// The levels of a SEQUENCE of these components: each of them has to be there, and to have no bits.
#[cycle(zero_width)]
fn levels_of_components<'m, 't, 'n>(
    module: Followed<'m, 't, 'n>,
    inside: &[Option<u32>],
    components: &[ComponentNotation<'n>],
) -> Option<u32> {
    let mut most = 0;
    for component in components {
        let NeedNotation::Must = component.need else {
            return None;
        };
        let levels = one_more(levels_of(module, inside, &component.ty))?;
        if levels > most {
            most = levels;
        }
    }
    Some(most)
}

/// The levels of a CHOICE of these alternatives: there has to be one only, without bits.
#[cycle(zero_width)]
fn levels_of_alternatives<'m, 't, 'n>(
    module: Followed<'m, 't, 'n>,
    inside: &[Option<u32>],
    alternatives: &[AlternativeNotation<'n>],
) -> Option<u32> {
    match alternatives {
        [only] => one_more(levels_of(module, inside, &only.ty)),
        _ => None,
    }
}

/// The levels of a type. `inside` has what `levels_inside` answers of the assignments that are referred to.
#[cycle(zero_width)]
pub(crate) fn levels_of<'m, 't, 'n>(
    module: Followed<'m, 't, 'n>,
    inside: &[Option<u32>],
    ty: &TypeNotation<'n>,
) -> Option<u32> {
    match ty {
        TypeNotation::Sequence { root, more } => match more {
            None => levels_of_components(module, inside, root),
            Some(_) => None,
        },
        TypeNotation::SequenceOf(size, element) => {
            let element = one_more(levels_of(module, inside, element));
            levels_of_list(*size, Met::Free, element)
        }
        TypeNotation::Choice { root, more } => match more {
            None => levels_of_alternatives(module, inside, root),
            Some(_) => None,
        },
        TypeNotation::Reference { .. } => levels_of_end(module, inside, ty),
        simple => levels_of_simple(simple, Met::Free),
    }
}

/// The levels of each assignment, those of a SEQUENCE OF as if its size were fixed and not 0: a reference to it may
/// have a size of its own. In `order` each assignment comes after those that it refers to.
pub(crate) fn levels_inside<'m, 't, 'n>(
    alloc: Global,
    module: Followed<'m, 't, 'n>,
    order: &[usize],
) -> Result<Vec<Option<u32>>, AllocError> {
    let mut inside = vec![in alloc; None; module.all.len()]?;
    for index in order {
        if *index < inside.len() && *index < module.all.len() {
            let levels = match &module.all[*index].ty {
                TypeNotation::SequenceOf(_, element) => {
                    one_more(levels_of(module, &inside, element))
                }
                ty => levels_of(module, &inside, ty),
            };
            inside[*index] = levels;
        }
    }
    Ok(inside)
}
