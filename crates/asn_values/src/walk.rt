//! The walk that finds the first fault of a type, from the outside in and from left to right.
ghost use Rattle.std.specs.Prelude.{◌+◌, ◌≤◌, IfOk, IfErr};
ghost use Rattle.asn_values.specs.Shape.{integer};
ghost use Rattle.asn_values.specs.Measures.{depth};
ghost use Rattle.asn_values.specs.Walk.{IsFaultless, HoldsHere, IsFaultlessSize, HoldsOfSize, IsSoundWithin, IsFaultWithin, of_type, of_types};
ghost use Rattle.asn_values.specs.View.{shape_of, range_of, size_range_of, enumerated_seen, sequence_seen, sequence_of_seen, choice_seen, types_of_fields, types_of_alternatives};

use crate::fault::TypeFault;
use crate::profile::{MAX_ADDITIONS, MAX_ALTERNATIVES, MAX_COMPONENTS};
use crate::types::{Alt, AsnType, Bounds, Field, Item, Size};
use crate::{additions, default_values, enumerations, names, ranges, sizes, zero_bits};
use std::alloc::Global;

/// Checks the type and all types inside it. Fails past `levels` levels of nesting, of which a SEQUENCE OF takes two,
/// or a budget of `start` types; returns the budget left.
///
/// # Errors
/// The fault of the first type that has one, a type before those inside it; of several faults of that type, the one
/// with the least number. A type below the last level is `TooDeep`, and it is not looked at.
#[cycle(walk)]
pub(crate) fn check_type(
    alloc: Global,
    ty: &AsnType,
    levels: u32,
    start: u32,
) -> Result<u32, TypeFault>
    ensures sound { IfOk result (λ left. IsSoundWithin levels start left (of_type (shape_of ty.now))) }
    ensures fault { IfErr result (λ f. IsFaultWithin f levels start (of_type (shape_of ty.now))) }
{
    if levels == 0 {
        return Err(TypeFault::TooDeep);
    }
    check_node(alloc, ty, levels - 1)?;
    if start == 0 {
        return Err(TypeFault::TooMany);
    }
    match ty {
        AsnType::Bool
        | AsnType::Null
        | AsnType::Int(_)
        | AsnType::Enum { .. }
        | AsnType::Bits(_)
        | AsnType::Octets(_)
        | AsnType::Text(..)
        | AsnType::Utf8 => Ok(start - 1),
        AsnType::Seq { root, ext } => {
            let left = check_fields(alloc, root, levels - 1, start - 1)?;
            match ext {
                None => Ok(left),
                Some(more) => check_fields(alloc, more, levels - 1, left),
            }
        }
        AsnType::SeqOf(element, _) => {
            check_type(alloc, element, levels.saturating_sub(2), start - 1)
        }
        AsnType::Choice { root, ext } => {
            let left = check_alternatives(alloc, root, levels - 1, start - 1)?;
            match ext {
                None => Ok(left),
                Some(more) => check_alternatives(alloc, more, levels - 1, left),
            }
        }
    }
}

/// Checks the types of the components, one after the other, in the same way.
#[cycle(walk)]
fn check_fields(alloc: Global, fields: &[Field], levels: u32, start: u32) -> Result<u32, TypeFault>
    ensures sound { IfOk result (λ left. IsSoundWithin levels start left (of_types (types_of_fields fields.now))) }
    ensures fault { IfErr result (λ f. IsFaultWithin f levels start (of_types (types_of_fields fields.now))) }
{
    let mut left = start;
    for field in fields {
        left = check_type(alloc, &field.ty, levels, left)?;
    }
    Ok(left)
}

/// Checks the types of the alternatives, one after the other, in the same way.
#[cycle(walk)]
fn check_alternatives(
    alloc: Global,
    alternatives: &[Alt],
    levels: u32,
    start: u32,
) -> Result<u32, TypeFault>
    ensures sound { IfOk result (λ left.
        IsSoundWithin levels start left (of_types (types_of_alternatives alternatives.now))) }
    ensures fault { IfErr result (λ f.
        IsFaultWithin f levels start (of_types (types_of_alternatives alternatives.now))) }
{
    let mut left = start;
    for alternative in alternatives {
        left = check_type(alloc, &alternative.ty, levels, left)?;
    }
    Ok(left)
}

/// Checks the type itself. At most `levels` levels of the types inside it are looked at: a fault may be missed where
/// there are more.
///
/// # Errors
/// Its fault with the least number.
pub(crate) fn check_node(alloc: Global, ty: &AsnType, levels: u32) -> Result<(), TypeFault>
    ensures faultless { IfOk result (λ done. depth (shape_of ty.now) ≤ levels + 1 → IsFaultless (shape_of ty.now)) }
    ensures fault { IfErr result (λ f. HoldsHere f (shape_of ty.now)) }
{
    match ty {
        AsnType::Bool | AsnType::Null | AsnType::Utf8 => Ok(()),
        AsnType::Int(bounds) => check_bounds(bounds),
        AsnType::Enum { root, ext } => check_items(alloc, root, ext),
        AsnType::Bits(size) | AsnType::Octets(size) | AsnType::Text(_, size) => check_size(size),
        AsnType::Seq { root, ext } => check_sequence(alloc, root, ext),
        AsnType::SeqOf(element, size) => check_list(element, size, levels),
        AsnType::Choice { root, ext } => check_choice(alloc, root, ext),
    }
}

/// Checks an INTEGER with these bounds.
///
/// # Errors
/// Its fault with the least number.
fn check_bounds(bounds: &Bounds) -> Result<(), TypeFault>
    ensures faultless { IfOk result (λ done. IsFaultless (integer (range_of bounds.now))) }
    ensures fault { IfErr result (λ f. HoldsHere f (integer (range_of bounds.now))) }
{
    if ranges::is_empty_range(bounds) {
        return Err(TypeFault::EmptyRange);
    }
    if ranges::has_useless_mark(bounds) {
        return Err(TypeFault::UselessMark);
    }
    Ok(())
}

/// Checks an ENUMERATED of these items.
///
/// # Errors
/// Its fault with the least number.
fn check_items(alloc: Global, root: &[Item], more: &Option<Vec<Item>>) -> Result<(), TypeFault>
    ensures faultless { IfOk result (λ done. IsFaultless (enumerated_seen root.now more.now)) }
    ensures fault { IfErr result (λ f. HoldsHere f (enumerated_seen root.now more.now)) }
{
    if enumerations::is_empty(root) {
        return Err(TypeFault::EmptyRange);
    }
    if enumerations::has_bad_names(alloc, root, more) {
        return Err(TypeFault::DuplicateName);
    }
    if enumerations::has_bad_numbers(alloc, root, more) {
        return Err(TypeFault::BadEnumeration);
    }
    if enumerations::is_too_many(root, more) {
        return Err(TypeFault::TooMany);
    }
    Ok(())
}

/// Checks the bounds of a length.
///
/// # Errors
/// Their fault with the least number.
fn check_size(size: &Size) -> Result<(), TypeFault>
    ensures faultless { IfOk result (λ done. IsFaultlessSize (size_range_of size.now)) }
    ensures fault { IfErr result (λ f. HoldsOfSize f (size_range_of size.now)) }
{
    if sizes::is_empty(size) {
        return Err(TypeFault::EmptyRange);
    }
    if sizes::is_too_large(size) {
        return Err(TypeFault::SizeTooLarge);
    }
    if sizes::has_useless_mark(size) {
        return Err(TypeFault::UselessMark);
    }
    Ok(())
}

/// Checks a SEQUENCE of these components, and nothing inside them.
///
/// # Errors
/// Its fault with the least number.
fn check_sequence(alloc: Global, root: &[Field], ext: &Option<Vec<Field>>) -> Result<(), TypeFault>
    ensures faultless { IfOk result (λ done. IsFaultless (sequence_seen root.now ext.now)) }
    ensures fault { IfErr result (λ f. HoldsHere f (sequence_seen root.now ext.now)) }
{
    let more = additions::of_sequence(ext);
    if names::are_bad(alloc, root, more) {
        return Err(TypeFault::DuplicateName);
    }
    if default_values::are_bad(root) || default_values::are_bad(more) {
        return Err(TypeFault::BadDefault);
    }
    if !additions::are_optional(more) {
        return Err(TypeFault::AdditionNotOptional);
    }
    if MAX_COMPONENTS < root.len() || MAX_ADDITIONS < more.len() {
        return Err(TypeFault::TooMany);
    }
    Ok(())
}

/// Checks a SEQUENCE OF, and of the element only whether it has bits, as far as `levels` levels tell.
///
/// # Errors
/// Its fault with the least number.
fn check_list(element: &AsnType, size: &Size, levels: u32) -> Result<(), TypeFault>
    ensures faultless { IfOk result (λ done.
        depth (shape_of element.now) ≤ levels → IsFaultless (sequence_of_seen element.now size.now)) }
    ensures fault { IfErr result (λ f. HoldsHere f (sequence_of_seen element.now size.now)) }
{
    check_size(size)?;
    if zero_bits::has_no_bits(element, levels) {
        return Err(TypeFault::ZeroWidthElement);
    }
    Ok(())
}

/// Checks a CHOICE of these alternatives, and nothing inside them.
///
/// # Errors
/// Its fault with the least number.
fn check_choice(alloc: Global, root: &[Alt], ext: &Option<Vec<Alt>>) -> Result<(), TypeFault>
    ensures faultless { IfOk result (λ done. IsFaultless (choice_seen root.now ext.now)) }
    ensures fault { IfErr result (λ f. HoldsHere f (choice_seen root.now ext.now)) }
{
    if root.is_empty() {
        return Err(TypeFault::EmptyRange);
    }
    let added = additions::of_choice(ext);
    if names::are_bad(alloc, root, added) {
        return Err(TypeFault::DuplicateName);
    }
    if MAX_ALTERNATIVES < root.len() || MAX_ALTERNATIVES - root.len() < added.len() {
        return Err(TypeFault::TooMany);
    }
    Ok(())
}
