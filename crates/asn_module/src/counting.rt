//! How many types a notation stands for, counted before they are built: of more than a type of the profile may have,
//! none is built.

ghost use Rattle.std.specs.Prelude.{◌≡◌, ◌+◌, ◌≤◌};
ghost use Rattle.asn_values.specs.Measures.{nodes, fields_nodes, choice_nodes};
ghost use Rattle.asn_values.specs.View.{shape_of, fields_seen, alternatives_seen};
ghost use Rattle.asn_notation.specs.Tree as tree;
ghost use Rattle.asn_module.specs.Known.{look};
ghost use Rattle.asn_module.specs.Counting as spec;
ghost use Rattle.asn_module.specs.Counting.{capped};
ghost use Rattle.asn_module.specs.Lookup.{Finds, names_in};

use crate::finding::find;
use crate::known::Named;
use asn_notation::{AlternativeNotation, ComponentNotation, TypeNotation};
use asn_values::profile::MAX_TYPES;
use asn_values::{Alt, AsnType, Field};
use std::collections::HashMap;

/// Two numbers of types together, as far as they are counted.
fn together(first: u32, second: u32) -> u32
    requires first { first ≤ 100001 }
    requires second { second ≤ 100001 }
    ensures { result ≡ capped (first + second) }
{
    if first + second > MAX_TYPES {
        MAX_TYPES + 1
    } else {
        first + second
    }
}

/// The types of components.
#[cycle(counting_types)]
fn count_fields(fields: &[Field]) -> u32
    ensures { result ≡ capped (fields_nodes (fields_seen fields.now)) }
{
    let mut total = 0;
    for field in fields {
        total = together(total, count_type(&field.ty));
    }
    total
}

/// The types of alternatives.
#[cycle(counting_types)]
fn count_alternatives(alternatives: &[Alt]) -> u32
    ensures { result ≡ capped (choice_nodes (alternatives_seen alternatives.now)) }
{
    let mut total = 0;
    for alternative in alternatives {
        total = together(total, count_type(&alternative.ty));
    }
    total
}

/// A type and those inside it.
#[cycle(counting_types)]
fn count_type(ty: &AsnType) -> u32
    ensures { result ≡ capped (nodes (shape_of ty.now)) }
{
    match ty {
        AsnType::Bool
        | AsnType::Null
        | AsnType::Int(_)
        | AsnType::Enum { .. }
        | AsnType::Bits(_)
        | AsnType::Octets(_)
        | AsnType::Text(..)
        | AsnType::Utf8 => 1,
        AsnType::SeqOf(element, _) => together(1, count_type(element)),
        AsnType::Seq { root, ext } => {
            let total = together(1, count_fields(root));
            match ext {
                None => total,
                Some(more) => together(total, count_fields(more)),
            }
        }
        AsnType::Choice { root, ext } => {
            let total = together(1, count_alternatives(root));
            match ext {
                None => total,
                Some(more) => together(total, count_alternatives(more)),
            }
        }
    }
}

/// The types that components stand for.
#[cycle(counting)]
fn count_components(
    names: &[Named],
    indices: &HashMap<&str, usize>,
    components: &[ComponentNotation],
) -> u32
    requires { Finds indices.now (names_in names.now) }
    ensures { result ≡ capped (spec.components_weight (look names.now) (tree.components_view components.now)) }
{
    let mut total = 0;
    for component in components {
        total = together(total, count(names, indices, &component.ty));
        if total > MAX_TYPES {
            return total;
        }
    }
    total
}

/// The types that alternatives stand for.
#[cycle(counting)]
fn count_branches(
    names: &[Named],
    indices: &HashMap<&str, usize>,
    alternatives: &[AlternativeNotation],
) -> u32
    requires { Finds indices.now (names_in names.now) }
    ensures { result ≡ capped (spec.alternatives_weight (look names.now) (tree.alternatives_view alternatives.now)) }
{
    let mut total = 0;
    for alternative in alternatives {
        total = together(total, count(names, indices, &alternative.ty));
        if total > MAX_TYPES {
            return total;
        }
    }
    total
}

/// How many types a notation stands for, where `names` are the types that are built; 100,001 where they are more.
#[cycle(counting)]
pub(crate) fn count(names: &[Named], indices: &HashMap<&str, usize>, ty: &TypeNotation) -> u32
    requires { Finds indices.now (names_in names.now) }
    ensures { result ≡ capped (spec.weight (look names.now) (tree.tree_view ty.now)) }
{
    match ty {
        TypeNotation::Boolean
        | TypeNotation::Null
        | TypeNotation::Utf8
        | TypeNotation::Integer(_)
        | TypeNotation::Enumerated { .. }
        | TypeNotation::Text(..) => 1,
        TypeNotation::SequenceOf(_, element) => together(1, count(names, indices, element)),
        TypeNotation::Sequence { root, more } => {
            let total = together(1, count_components(names, indices, root));
            match more {
                None => total,
                Some(more) => together(total, count_components(names, indices, more)),
            }
        }
        TypeNotation::Choice { root, more } => {
            let total = together(1, count_branches(names, indices, root));
            match more {
                None => total,
                Some(more) => together(total, count_branches(names, indices, more)),
            }
        }
        TypeNotation::Reference { name, .. } => match find(names, indices, *name) {
            None => 0,
            Some(known) => count_type(known.ty.get()),
        },
    }
}
