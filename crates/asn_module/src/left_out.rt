//! What stands for types of refused modules that are not built. The faults of the types that they lie in depend on them
//! in two ways: whether the DEFAULT of a component is good, and whether an element has bits.

use crate::heads::{Met, head_of};
use crate::simple::need;
use crate::zero_width::{Followed, levels_of, simple_type};
use asn_notation::{ComponentNotation, DefaultNotation, ItemNotation, NeedNotation, TypeNotation};
use asn_values::{AsnType, Field, Need, Value};
use std::alloc::{AllocError, Global};
use std::collections::HashMap;

/// The assignments of a module, and where memory comes from.
#[derive(Clone, Copy)]
pub(crate) struct Assignments<'m, 't, 'n> {
    pub alloc: Global,
    pub followed: Followed<'m, 't, 'n>,
    /// What `levels_inside` answers of each.
    pub inside: &'m [Option<u32>],
    /// What `items_for_defaults` answers of each.
    pub items: &'m [HashMap<&'n str, ()>],
}

/// The items of each assignment that a DEFAULT may name: those of an ENUMERATED without the extension mark that has
/// several.
pub(crate) fn items_for_defaults<'m, 't, 'n>(
    alloc: Global,
    module: Followed<'m, 't, 'n>,
) -> Result<Vec<HashMap<&'n str, ()>>, AllocError> {
    let mut all = Vec::new(alloc);
    for assignment in module.all {
        let mut names = HashMap::new(alloc);
        if let TypeNotation::Enumerated { root, more } = &assignment.ty {
            if root.len() > 1 && more.is_none() {
                for item in root {
                    names.insert(item.name, ())?;
                }
            }
        }
        all.push(names)?;
    }
    Ok(all)
}

/// Whether one of the items has this name.
fn has_item(items: &[ItemNotation], name: &str) -> bool {
    for item in items {
        if *item.name == *name {
            return true;
        }
    }
    false
}

/// Whether an identifier may be the DEFAULT of a component of this type.
fn may_be_default<'m, 't, 'n>(
    module: Assignments<'m, 't, 'n>,
    ty: &TypeNotation<'n>,
    name: &str,
) -> bool {
    match ty {
        TypeNotation::Enumerated { root, more } => {
            root.len() > 1 && more.is_none() && has_item(root, name)
        }
        TypeNotation::Reference { .. } => {
            match head_of(module.followed.heads, module.followed.indices, ty) {
                Some(head) if head.end < module.items.len() => {
                    module.items[head.end].contains_key(name)
                }
                _ => false,
            }
        }
        _ => false,
    }
}

/// What stands for a type: itself, where it has no parts and no items; else a type without bits where it has none, and
/// one with bits where it has some. Of the types inside it `levels` levels are looked at, and what is below counts as
/// bits.
pub(crate) fn type_left_out<'m, 't, 'n>(
    module: Assignments<'m, 't, 'n>,
    ty: &TypeNotation<'n>,
    levels: u32,
) -> AsnType {
    let followed = module.followed;
    let simple = match head_of(followed.heads, followed.indices, ty) {
        Some(head) if head.end < followed.all.len() => {
            simple_type(&followed.all[head.end].ty, head.met)
        }
        _ => simple_type(ty, Met::Free),
    };
    match simple {
        Some(simple) => simple,
        None => match levels_of(followed, module.inside, ty) {
            Some(needed) if needed <= levels => AsnType::Null,
            _ => AsnType::Utf8,
        },
    }
}

/// What stands for a component: its DEFAULT is good where that of the component is.
pub(crate) fn field_left_out<'m, 't, 'n>(
    module: Assignments<'m, 't, 'n>,
    name: String,
    component: &ComponentNotation<'n>,
    levels: u32,
) -> Field {
    match &component.need {
        NeedNotation::Default(DefaultNotation::Item(item)) => {
            let value = if may_be_default(module, &component.ty, *item) {
                Value::Bool(true)
            } else {
                Value::Null
            };
            let ty = AsnType::Bool;
            let need = Need::Default(value);
            Field { name, ty, need }
        }
        written => {
            let ty = type_left_out(module, &component.ty, levels);
            let need = need(&ty, written);
            Field { name, ty, need }
        }
    }
}
