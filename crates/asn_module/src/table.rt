//! The types of a module's assignments, built one after the other.

ghost use Rattle.std.specs.Prelude.{◌≡◌, ◌≤◌, ◌<◌, true, false, List, None};
ghost use Rattle.std.specs.Prelude.{Some, length, vec_len, IfOk, IfErr, IfSome, OnOk, MatchOption};
ghost use Rattle.asn_values.specs.View.{shape_of};
ghost use Rattle.asn_values.specs.Profile.{InProfile};
ghost use Rattle.asn_notation.specs.Tree.{tree_view, assignments_view};
ghost use Rattle.asn_module.specs.Accepted.{Typed};
ghost use Rattle.asn_module.specs.Sizes.{types_size, IsAtMost};
ghost use Rattle.asn_module.specs.Bounded.{AreStopped};
ghost use Rattle.asn_module.specs.Known as spec;
ghost use Rattle.asn_module.specs.Lookup.{Finds, names_in, assigned_names};
ghost use Rattle.asn_module.specs.Known.{look, IsKnownAs, IsKnownOf, IsKnownOrStuck, AreAllSound, AreAllDone, AreAllTypes};
ghost use Rattle.asn_module.specs.Known.{Attempted, unbuilt};

use crate::bounded::{is_past, size_with, stop_past};
use crate::building::build;
use crate::counting::count;
use crate::fault::Refusal;
use crate::finding::find;
use crate::known::{Known, Named};
use asn_notation::{AssignmentNotation, Constraint, TypeNotation};
use asn_values::profile::MAX_TYPES;
use asn_values::{AsnType, Checked, TypeFault};
use std::alloc::{AllocError, Global};
use std::collections::HashMap;

/// A type with its constraint, where it is one of the profile.
fn of_profile(
    alloc: Global,
    ty: AsnType,
    constraint: Option<bool>,
) -> Result<Option<Known>, Refusal>
    ensures known { IfOk result (λ o. MatchOption o (InProfile (shape_of ty) → ⊥)
        (λ k. IsKnownOf ty constraint k)) }
    ensures memory { IfErr result (λ e. e ≡ Refusal.Memory) }
{
    match Checked::new(alloc, ty) {
        Ok(ty) => Ok(Some(Known { ty, constraint })),
        Err(fault) => {
            if fault == TypeFault::Memory {
                Err(Refusal::Memory)
            } else {
                Ok(None)
            }
        }
    }
}

/// The type of a notation that only refers to another, which is built: its tree, which both share. None of another
/// notation.
fn shared(
    names: &[Named],
    indices: &HashMap<&str, usize>,
    ty: &TypeNotation,
) -> Result<Option<Known>, AllocError>
    requires { Finds indices.now (names_in names.now) }
    ensures { IfOk result (λ o. IfSome o (IsKnownAs (look names.now) (tree_view ty.now))) }
{
    let TypeNotation::Reference {
        name,
        constraint,
        ..
    } = ty
    else {
        return Ok(None);
    };
    let Constraint::None = constraint else {
        return Ok(None);
    };
    let Some(known) = find(names, indices, *name) else {
        return Ok(None);
    };
    let _tree = known.ty.get();
    Ok(Some(Known {
        ty: known.ty.copy()?,
        constraint: known.constraint,
    }))
}

/// The type of a notation, where it can be built of those that are built, and is one of the profile. Where it only refers
/// to one, that is shared. Where it has more types inside it than one of the profile may have, none of them is built.
fn build_known(
    alloc: Global,
    names: &[Named],
    indices: &HashMap<&str, usize>,
    ty: &TypeNotation,
) -> Result<Option<Known>, Refusal>
    requires { Finds indices.now (names_in names.now) }
    ensures known { IfOk result (λ o. IsKnownOrStuck (look names.now) (tree_view ty.now) o) }
    ensures memory { IfErr result (λ e. e ≡ Refusal.Memory) }
{
    if let Some(known) = shared(names, indices, ty)? {
        return Ok(Some(known));
    }
    if count(names, indices, ty) > MAX_TYPES {
        return Ok(None);
    }
    match build(alloc, names, indices, ty) {
        Ok(built) => of_profile(alloc, built.ty, built.constraint),
        Err(Refusal::Memory) => Err(Refusal::Memory),
        Err(_) => Ok(None),
    }
}

/// Builds the type at an index where that is not built yet, and says whether it did.
fn attempt(
    alloc: Global,
    names: &mut Vec<Named>,
    indices: &HashMap<&str, usize>,
    index: usize,
    ty: &TypeNotation,
) -> Result<bool, Refusal>
    requires inside { index < vec_len names.old }
    requires finds { Finds indices.now (names_in names.old.items) }
    ensures attempted { IfOk result (λ b. Attempted b (tree_view ty.now) index names.old.items names.new.items) }
    ensures memory { IfErr result (λ e. e ≡ Refusal.Memory) }
{
    if names[index].known.is_some() {
        return Ok(false);
    }
    match build_known(alloc, names, indices, ty)? {
        Some(known) => {
            names[index].known = Some(known);
            Ok(true)
        }
        None => Ok(false),
    }
}

/// Builds the type of the assignment at an index, where there is one and its type can be built.
fn build_at(
    alloc: Global,
    names: &mut Vec<Named>,
    indices: &HashMap<&str, usize>,
    assignments: &[AssignmentNotation],
    index: usize,
) -> Result<(), Refusal>
    requires finds { Finds indices.now (assigned_names (assignments_view assignments.now)) }
    requires sound { AreAllSound assignments.now names.old.items }
    ensures sound { OnOk result (AreAllSound assignments.now names.new.items) }
    ensures memory { IfErr result (λ e. e ≡ Refusal.Memory) }
{
    if index >= assignments.len() {
        return Ok(());
    }
    let built = attempt(alloc, names, indices, index, &assignments[index].ty)?;
    let _ = built;
    Ok(())
}

/// Builds the types at these indices where they can be built, one after the other, and stops where what is built is larger
/// than the bound.
fn build_in_order(
    alloc: Global,
    names: &mut Vec<Named>,
    indices: &HashMap<&str, usize>,
    assignments: &[AssignmentNotation],
    order: &[usize],
    most: Option<u32>,
) -> Result<(), Refusal>
    requires finds { Finds indices.now (assigned_names (assignments_view assignments.now)) }
    requires sound { AreAllSound assignments.now names.old.items }
    ensures sound { OnOk result (AreAllSound assignments.now names.new.items) }
    ensures stopped { IfErr result (AreStopped assignments.now most) }
{
    let mut size = 0;
    for index in order {
        build_at(alloc, names, indices, assignments, *index)?;
        size = size_with(names, *index, size);
        if is_past(size, most) {
            stop_past(alloc, names, assignments, *index, most)?;
        }
    }
    Ok(())
}

/// Builds the first type that is not built yet and can be, and says whether there was one.
fn build_next(
    alloc: Global,
    names: &mut Vec<Named>,
    indices: &HashMap<&str, usize>,
    assignments: &[AssignmentNotation],
) -> Result<bool, Refusal>
    requires finds { Finds indices.now (assigned_names (assignments_view assignments.now)) }
    requires sound { AreAllSound assignments.now names.old.items }
    ensures sound { IfOk result (λ b. AreAllSound assignments.now names.new.items) }
    ensures fewer { IfOk result (λ b. b ≡ true → unbuilt names.new.items < unbuilt names.old.items) }
    ensures done { IfOk result (λ b. b ≡ false → AreAllDone assignments.now names.new.items) }
    ensures memory { IfErr result (λ e. e ≡ Refusal.Memory) }
{
    for (index, assignment) in assignments.iter().enumerate() {
        if attempt(alloc, names, indices, index, &assignment.ty)? {
            return Ok(true);
        }
    }
    Ok(false)
}

/// Builds all types that can be built.
fn build_all(
    alloc: Global,
    names: &mut Vec<Named>,
    indices: &HashMap<&str, usize>,
    assignments: &[AssignmentNotation],
) -> Result<(), Refusal>
    requires finds { Finds indices.now (assigned_names (assignments_view assignments.now)) }
    requires sound { AreAllSound assignments.now names.old.items }
    ensures sound { OnOk result (AreAllSound assignments.now names.new.items) }
    ensures done { OnOk result (AreAllDone assignments.now names.new.items) }
    ensures memory { IfErr result (λ e. e ≡ Refusal.Memory) }
{
    'builds: loop {
        if !build_next(alloc, names, indices, assignments)? {
            return Ok(());
        }
    }
}

/// Whether all are built.
fn are_built(names: &[Named]) -> bool
    ensures all { result ≡ true → unbuilt names.now ≡ 0 }
    ensures some { result ≡ false → 0 < unbuilt names.now }
{
    for named in names {
        if named.known.is_none() {
            return false;
        }
    }
    true
}

/// The names of the assignments, without types.
fn names_of(alloc: Global, assignments: &[AssignmentNotation]) -> Result<Vec<Named>, AllocError>
    ensures { IfOk result (λ v. AreAllSound assignments.now v.items) }
{
    let mut names = Vec::new(alloc);
    for assignment in assignments {
        let name = String::from_str(alloc, assignment.name)?;
        names.push(Named { name, known: None })?;
    }
    Ok(names)
}

/// The types of all assignments; None where one has none. They are first built in the order given, and then
/// until nothing more can be built: with a good order nothing is left for that. What is built is no larger than the bound, but
/// for the type of one name.
pub(crate) fn types_of(
    alloc: Global,
    assignments: &[AssignmentNotation],
    indices: &HashMap<&str, usize>,
    order: &[usize],
    most: Option<u32>,
) -> Result<Option<Vec<Named>>, Refusal>
    requires { Finds indices.now (assigned_names (assignments_view assignments.now)) }
    ensures sound { IfOk result (λ o. IfSome o (λ v. AreAllTypes assignments.now (spec.types_of v.items))) }
    ensures built { IfOk result (λ o. IfSome o (λ v. unbuilt v.items ≡ 0)) }
    ensures within { IfOk result (λ o. IfSome o (λ v. IsAtMost most (types_size (spec.types_of v.items)))) }
    ensures none { IfOk result (λ o. o ≡ None → (ts : List Typed) → AreAllTypes assignments.now ts → ⊥) }
    ensures stopped { IfErr result (AreStopped assignments.now most) }
{
    let mut names = names_of(alloc, assignments)?;
    build_in_order(alloc, &mut names, indices, assignments, order, most)?;
    build_all(alloc, &mut names, indices, assignments)?;
    stop_past(alloc, &names, assignments, 0, most)?;
    if are_built(&names) {
        Ok(Some(names))
    } else {
        Ok(None)
    }
}
