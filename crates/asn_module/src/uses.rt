//! Which names the types of a module refer to.

ghost use Rattle.std.specs.Prelude.{◌≡◌, ◌++◌, ℕ, List, IfOk, OnOk, is_some, bytes_eq};
ghost use Rattle.std.specs.List.{list_any};
ghost use Rattle.std.specs.HashMap.{get_by_text};
ghost use Rattle.asn_notation.specs.Tree.{tree_view, components_view, alternatives_view, assignments_view};
ghost use Rattle.asn_module.specs.Uses.{references, component_references, alternative_references, all_references, names_now};

use asn_notation::{AlternativeNotation, AssignmentNotation, ComponentNotation, TypeNotation};
use std::alloc::{AllocError, Global};
use std::collections::HashMap;

/// The names to which the types refer.
pub(crate) fn names_used(
    alloc: Global,
    assignments: &[AssignmentNotation<'_>],
) -> Result<HashMap<String, ()>, AllocError>
    ensures { IfOk result (λ used. (q : List ℕ) → is_some (get_by_text used q)
        ≡ list_any (bytes_eq q) (all_references (assignments_view assignments.now))) }
{
    let mut names = Vec::new(alloc);
    for assignment in assignments {
        push_references(&mut names, &assignment.ty)?;
    }
    set_of(alloc, &names)
}

/// The set of names.
fn set_of(alloc: Global, names: &[&str]) -> Result<HashMap<String, ()>, AllocError>
    ensures { IfOk result (λ set. (q : List ℕ) → is_some (get_by_text set q)
        ≡ list_any (bytes_eq q) (names_now names.now)) }
{
    let mut set = HashMap::new(alloc);
    for name in names {
        set.insert(String::from_str(alloc, *name)?, ())?;
    }
    Ok(set)
}

/// Adds the names that a type refers to.
#[cycle(uses)]
fn push_references<'t>(names: &mut Vec<&'t str>, ty: &TypeNotation<'t>) -> Result<(), AllocError>
    ensures { OnOk result (names_now names.new.items ≡ names_now names.old.items ++ references (tree_view ty.now)) }
{
    match ty {
        TypeNotation::Boolean
        | TypeNotation::Null
        | TypeNotation::Utf8
        | TypeNotation::Integer(_)
        | TypeNotation::Enumerated { .. }
        | TypeNotation::Text(..) => Ok(()),
        TypeNotation::SequenceOf(_, element) => push_references(names, element),
        TypeNotation::Sequence { root, more } => {
            push_of_components(names, root)?;
            match more {
                None => Ok(()),
                Some(more) => push_of_components(names, more),
            }
        }
        TypeNotation::Choice { root, more } => {
            push_of_alternatives(names, root)?;
            match more {
                None => Ok(()),
                Some(more) => push_of_alternatives(names, more),
            }
        }
        TypeNotation::Reference { name, .. } => Ok(names.push(*name)?),
    }
}

/// Adds those that components refer to.
#[cycle(uses)]
fn push_of_components<'t>(
    names: &mut Vec<&'t str>,
    components: &[ComponentNotation<'t>],
) -> Result<(), AllocError>
    ensures { OnOk result (names_now names.new.items
        ≡ names_now names.old.items ++ component_references (components_view components.now)) }
{
    for component in components {
        push_references(names, &component.ty)?;
    }
    Ok(())
}

/// Adds those that alternatives refer to.
#[cycle(uses)]
fn push_of_alternatives<'t>(
    names: &mut Vec<&'t str>,
    alternatives: &[AlternativeNotation<'t>],
) -> Result<(), AllocError>
    ensures { OnOk result (names_now names.new.items
        ≡ names_now names.old.items ++ alternative_references (alternatives_view alternatives.now)) }
{
    for alternative in alternatives {
        push_references(names, &alternative.ty)?;
    }
    Ok(())
}
