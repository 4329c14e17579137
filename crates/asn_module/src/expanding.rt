//! Types of refused modules, built whether they are of the profile or not, to find the fault that they have.

use crate::fault::Refusal;
use crate::heads::{head_of, with_bounds};
use crate::left_out::{Assignments, field_left_out, type_left_out};
use crate::simple::{enumerated, integer, list, need, string};
use asn_notation::{AlternativeNotation, ComponentNotation, ItemNotation, TypeNotation};
use asn_values::profile::MAX_ITEMS;
use asn_values::{Alt, AsnType, Field};

#[cycle(expanding)]
fn expand_fields<'m, 't, 'n>(
    module: Assignments<'m, 't, 'n>,
    components: &'m [ComponentNotation<'n>],
    levels: u32,
    nodes: &mut u32,
) -> Result<Vec<Field>, Refusal> {
    let mut fields = Vec::new(module.alloc);
    for component in components {
        let name = String::from_str(module.alloc, component.name)?;
        if levels == 0 || *nodes == 0 {
            *nodes = 0;
            fields.push(field_left_out(module, name, component, levels))?;
        } else {
            let ty = expand(module, &component.ty, levels, nodes)?;
            let need = need(&ty, &component.need);
            fields.push(Field { name, ty, need })?;
        }
    }
    Ok(fields)
}

#[cycle(expanding)]
fn expand_alternatives<'m, 't, 'n>(
    module: Assignments<'m, 't, 'n>,
    alternatives: &'m [AlternativeNotation<'n>],
    levels: u32,
    nodes: &mut u32,
) -> Result<Vec<Alt>, Refusal> {
    let mut expanded = Vec::new(module.alloc);
    for alternative in alternatives {
        let name = String::from_str(module.alloc, alternative.name)?;
        let ty = expand(module, &alternative.ty, levels, nodes)?;
        expanded.push(Alt { name, ty })?;
    }
    Ok(expanded)
}

/// Whether one of the two lists has more items than an ENUMERATED of the profile.
fn are_too_many(root: &[ItemNotation], more: &Option<Vec<ItemNotation>>) -> bool {
    root.len() > MAX_ITEMS
        || match more {
            None => false,
            Some(more) => more.len() > MAX_ITEMS,
        }
}

/// A type that is no reference, with the types inside it.
#[cycle(expanding)]
fn expand_here<'m, 't, 'n>(
    module: Assignments<'m, 't, 'n>,
    ty: &'m TypeNotation<'n>,
    levels: u32,
    nodes: &mut u32,
) -> Result<AsnType, Refusal> {
    let alloc = module.alloc;
    match ty {
        TypeNotation::Boolean => Ok(AsnType::Bool),
        TypeNotation::Null => Ok(AsnType::Null),
        TypeNotation::Utf8 => Ok(AsnType::Utf8),
        TypeNotation::Integer(range) => Ok(integer(*range).ty),
        TypeNotation::Enumerated { root, more } => {
            if are_too_many(root, more) {
                *nodes = 0;
            }
            Ok(enumerated(alloc, root, more)?.ty)
        }
        TypeNotation::Text(kind, size) => Ok(string(*kind, *size).ty),
        TypeNotation::Sequence { root, more } => {
            let root = expand_fields(module, root, levels, nodes)?;
            let ext = match more {
                None => None,
                Some(more) => Some(expand_fields(module, more, levels, nodes)?),
            };
            Ok(AsnType::Seq { root, ext })
        }
        TypeNotation::SequenceOf(size, element) => {
            let element = expand(module, element, levels, nodes)?;
            Ok(list(alloc, element, *size)?.ty)
        }
        TypeNotation::Choice { root, more } => {
            let root = expand_alternatives(module, root, levels, nodes)?;
            let ext = match more {
                None => None,
                Some(more) => Some(expand_alternatives(module, more, levels, nodes)?),
            };
            Ok(AsnType::Choice { root, ext })
        }
        TypeNotation::Reference { .. } => Err(Refusal::Missing),
    }
}

/// A type with all references followed, as far as the search for its first fault goes, from the outside in and from
/// left to right: that ends below `levels` levels, past `nodes` types, and at an ENUMERATED of too many items.
/// Something simpler stands for each type after that, with which those that it lies in have the same faults.
#[cycle(expanding)]
pub(crate) fn expand<'m, 't, 'n>(
    module: Assignments<'m, 't, 'n>,
    ty: &'m TypeNotation<'n>,
    levels: u32,
    nodes: &mut u32,
) -> Result<AsnType, Refusal> {
    if levels == 0 || *nodes == 0 {
        *nodes = 0;
        return Ok(type_left_out(module, ty, levels));
    }
    *nodes -= 1;
    let followed = module.followed;
    match head_of(followed.heads, followed.indices, ty) {
        Some(head) if head.end < followed.all.len() => {
            let ty = expand_here(module, &followed.all[head.end].ty, levels - 1, nodes)?;
            Ok(with_bounds(ty, head.met))
        }
        _ => expand_here(module, ty, levels - 1, nodes),
    }
}
