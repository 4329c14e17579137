//! Types built from their notation, with what is built of the types that they refer to.

ghost use Rattle.std.specs.Prelude.{◌≡◌, None, Some};
ghost use Rattle.asn_notation.specs.Tree.{tree_view, components_view, alternatives_view};
ghost use Rattle.asn_module.specs.Known.{built_view, built_fields, built_alternatives, look, Gives};
ghost use Rattle.asn_module.specs.Lookup.{Finds, names_in};
ghost use Rattle.asn_module.specs.Meaning.{meant, fields_meant, alternatives_meant};

use crate::copying::copy_type;
use crate::fault::Refusal;
use crate::finding::find;
use crate::known::{Built, Named};
use crate::references::constrained;
use crate::simple::{enumerated, free, integer, list, need, string};
use asn_notation::{AlternativeNotation, ComponentNotation, TypeNotation};
use asn_values::{Alt, AsnType, Field};
use std::alloc::Global;
use std::collections::HashMap;

/// The components of a SEQUENCE.
#[cycle(building)]
#[tactic(auto, unfolding(crate::specs::Meaning::meant))]
fn build_fields(
    alloc: Global,
    names: &[Named],
    indices: &HashMap<&str, usize>,
    components: &[ComponentNotation],
) -> Result<Vec<Field>, Refusal>
    requires { Finds indices.now (names_in names.now) }
    ensures { Gives built_fields result (fields_meant (look names.now) (components_view components.now)) }
{
    let mut fields = Vec::new(alloc);
    for component in components {
        let name = String::from_str(alloc, component.name)?;
        let built = build(alloc, names, indices, &component.ty)?;
        let need = need(&built.ty, &component.need);
        fields.push(Field {
            name,
            ty: built.ty,
            need,
        })?;
    }
    Ok(fields)
}

/// The alternatives of a CHOICE.
#[cycle(building)]
#[tactic(auto, unfolding(crate::specs::Meaning::meant))]
fn build_alternatives(
    alloc: Global,
    names: &[Named],
    indices: &HashMap<&str, usize>,
    alternatives: &[AlternativeNotation],
) -> Result<Vec<Alt>, Refusal>
    requires { Finds indices.now (names_in names.now) }
    ensures { Gives built_alternatives result
        (alternatives_meant (look names.now) (alternatives_view alternatives.now)) }
{
    let mut built = Vec::new(alloc);
    for alternative in alternatives {
        let name = String::from_str(alloc, alternative.name)?;
        let inner = build(alloc, names, indices, &alternative.ty)?;
        built.push(Alt { name, ty: inner.ty })?;
    }
    Ok(built)
}

/// The type that a notation stands for, where `names` are the types that are built, and `indices` has their indexes.
///
/// # Errors
/// `Missing` where it refers to a name that has no type there; `Constraint` where a constraint may not stand on the
/// type that a name stands for; `Memory` where an allocation failed.
#[cycle(building)]
#[tactic(auto, unfolding(crate::specs::Meaning::meant))]
pub(crate) fn build(
    alloc: Global,
    names: &[Named],
    indices: &HashMap<&str, usize>,
    ty: &TypeNotation,
) -> Result<Built, Refusal>
    requires { Finds indices.now (names_in names.now) }
    ensures { Gives built_view result (meant (look names.now) (tree_view ty.now)) }
{
    match ty {
        TypeNotation::Boolean => Ok(free(AsnType::Bool)),
        TypeNotation::Null => Ok(free(AsnType::Null)),
        TypeNotation::Utf8 => Ok(free(AsnType::Utf8)),
        TypeNotation::Integer(range) => Ok(integer(*range)),
        TypeNotation::Enumerated { root, more } => enumerated(alloc, root, more),
        TypeNotation::Text(kind, size) => Ok(string(*kind, *size)),
        TypeNotation::Sequence { root, more } => {
            let root = build_fields(alloc, names, indices, root)?;
            match more {
                None => Ok(free(AsnType::Seq { root, ext: None })),
                Some(more) => {
                    let more = build_fields(alloc, names, indices, more)?;
                    Ok(free(AsnType::Seq {
                        root,
                        ext: Some(more),
                    }))
                }
            }
        }
        TypeNotation::SequenceOf(size, element) => {
            let element = build(alloc, names, indices, element)?;
            list(alloc, element.ty, *size)
        }
        TypeNotation::Choice { root, more } => {
            let root = build_alternatives(alloc, names, indices, root)?;
            match more {
                None => Ok(free(AsnType::Choice { root, ext: None })),
                Some(more) => {
                    let more = build_alternatives(alloc, names, indices, more)?;
                    Ok(free(AsnType::Choice {
                        root,
                        ext: Some(more),
                    }))
                }
            }
        }
        TypeNotation::Reference {
            name,
            constraint,
            left,
        } => match find(names, indices, *name) {
            None => Err(Refusal::Missing),
            Some(known) => {
                let copy = copy_type(alloc, known.ty.get())?;
                let referenced = Built {
                    ty: copy,
                    constraint: known.constraint,
                };
                constrained(referenced, *constraint, *left)
            }
        },
    }
}
