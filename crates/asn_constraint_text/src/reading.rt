//! Reads a constraint of a type. The grammar is in the README of the crate.
ghost use Rattle.std.specs.Prelude.{◌≡◌, ◌≤◌, ◌<◌, length};

use crate::cursor::Cursor;
use crate::fault::ConstraintTextFault;
use crate::leaves::{OF_TYPE, free_component, items_at, leaf_at, numbers_at, presence_at};
use crate::read::{
    Listed, Read, above, both, either, elements_of, leaf, leaf_of_contents, of_components,
};
use crate::selected_reading::{TYPE_NAME, selected_at};
use crate::value_reading::{ALTERNATIVE, COMPONENT, part_index};
use asn_constraints::{Component, Constraint};
use asn_contents::Contents;
use asn_values::internal::{additions, part_at};
use asn_values::{Alt, AsnType, Field};
use std::alloc::Global;

/// How many constraints may be inside one another: each parenthesis, each `|` and each `^` counts.
pub const MOST_LEVELS: u32 = 256;

/// The constraint of this type that a text is, in parentheses and with names for what is inside the type.
///
/// # Errors
/// `Expected` at the first octet with which no constraint of the type goes on; `TooDeep` where more than `MOST_LEVELS`
/// are inside one another; `Memory` where an allocation failed.
pub fn constraint_in(
    alloc: Global,
    ty: &AsnType,
    text: &str,
) -> Result<Constraint, ConstraintTextFault> {
    let mut cursor = Cursor::new(text);
    let read = constraint_at(alloc, ty, &mut cursor, MOST_LEVELS)?;
    end_at(&mut cursor)?;
    Ok(read.constraint)
}

/// The constraints of this type that the rest of a text is: one, or two of which both are met.
pub(crate) fn constraints_after(
    alloc: Global,
    ty: &AsnType,
    cursor: &mut Cursor<'_>,
) -> Result<Read, ConstraintTextFault> {
    let mut read = constraint_at(alloc, ty, cursor, MOST_LEVELS)?;
    if cursor.begins(b'(') {
        let next = constraint_at(alloc, ty, cursor, MOST_LEVELS)?;
        read = both(alloc, read, next, cursor)?;
    }
    end_at(cursor)?;
    Ok(read)
}

/// Reads the end of a text.
fn end_at(cursor: &mut Cursor<'_>) -> Result<(), ConstraintTextFault> {
    cursor.skip_blank();
    if cursor.is_at_end() {
        Ok(())
    } else {
        Err(cursor.fault("the end"))
    }
}

/// A constraint in parentheses: a list of values, or a union.
#[cycle(reading)]
fn constraint_at(
    alloc: Global,
    ty: &AsnType,
    cursor: &mut Cursor<'_>,
    levels: u32,
) -> Result<Read, ConstraintTextFault>
    ensures { length cursor.new.rest.now ≤ length cursor.old.rest.now }
{
    cursor.expect(b'(', "`(`")?;
    if levels == 0 {
        return Err(ConstraintTextFault::TooDeep { at: cursor.at() });
    }
    let read = content_at(alloc, ty, cursor, levels - 1)?;
    cursor.expect(b')', "`)`")?;
    Ok(read)
}

/// What is in parentheses: a list of values, or a union.
#[cycle(reading)]
fn content_at(
    alloc: Global,
    ty: &AsnType,
    cursor: &mut Cursor<'_>,
    levels: u32,
) -> Result<Read, ConstraintTextFault>
    ensures { length cursor.new.rest.now ≤ length cursor.old.rest.now }
{
    match ty {
        AsnType::Int(_) => {
            if cursor.begins_number() {
                return Ok(leaf(Constraint::Numbers(numbers_at(alloc, cursor)?)));
            }
            union_at(alloc, ty, cursor, levels)
        }
        AsnType::Enum { .. } => {
            if cursor.begins_identifier() {
                return Ok(leaf(Constraint::Items(items_at(alloc, ty, cursor)?)));
            }
            union_at(alloc, ty, cursor, levels)
        }
        _ => union_at(alloc, ty, cursor, levels),
    }
}

/// Intersections with `|` between them.
#[cycle(reading)]
fn union_at(
    alloc: Global,
    ty: &AsnType,
    cursor: &mut Cursor<'_>,
    levels: u32,
) -> Result<Read, ConstraintTextFault>
    ensures { length cursor.new.rest.now ≤ length cursor.old.rest.now }
{
    let mut read = intersection_at(alloc, ty, cursor, levels)?;
    'operands: while cursor.takes(b'|') {
        let next = intersection_at(alloc, ty, cursor, levels)?;
        read = either(alloc, read, next, cursor)?;
    }
    Ok(read)
}

/// Constraints with `^` between them.
#[cycle(reading)]
fn intersection_at(
    alloc: Global,
    ty: &AsnType,
    cursor: &mut Cursor<'_>,
    levels: u32,
) -> Result<Read, ConstraintTextFault>
    ensures { length cursor.new.rest.now ≤ length cursor.old.rest.now }
{
    let mut read = single_at(alloc, ty, cursor, levels)?;
    'operands: while cursor.takes(b'^') {
        let next = single_at(alloc, ty, cursor, levels)?;
        read = both(alloc, read, next, cursor)?;
    }
    Ok(read)
}

/// A constraint that is no union and no intersection, or one in parentheses.
#[cycle(reading)]
fn single_at(
    alloc: Global,
    ty: &AsnType,
    cursor: &mut Cursor<'_>,
    levels: u32,
) -> Result<Read, ConstraintTextFault>
    ensures { length cursor.new.rest.now ≤ length cursor.old.rest.now }
{
    if cursor.begins(b'(') {
        return constraint_at(alloc, ty, cursor, levels);
    }
    if cursor.takes_word(b"WITH") {
        return inner_at(alloc, ty, cursor, levels);
    }
    if cursor.takes_word(b"CONTAINING") {
        return containing_at(ty, cursor);
    }
    if cursor.takes_selected() {
        return selected_at(alloc, ty, cursor);
    }
    Ok(leaf(leaf_at(alloc, ty, cursor)?))
}

/// The type that octets contain, after CONTAINING.
fn containing_at(ty: &AsnType, cursor: &mut Cursor<'_>) -> Result<Read, ConstraintTextFault>
    ensures { length cursor.new.rest.now ≤ length cursor.old.rest.now }
{
    let AsnType::Octets(_) = ty else {
        return Err(cursor.fault(OF_TYPE));
    };
    match cursor.type_name() {
        Some(position) => Ok(leaf_of_contents(Contents::Octets(position))),
        None => Err(cursor.fault(TYPE_NAME)),
    }
}

/// The constraint of what is inside the type, after WITH.
#[cycle(reading)]
fn inner_at(
    alloc: Global,
    ty: &AsnType,
    cursor: &mut Cursor<'_>,
    levels: u32,
) -> Result<Read, ConstraintTextFault>
    ensures { length cursor.new.rest.now ≤ length cursor.old.rest.now }
{
    match ty {
        AsnType::SeqOf(element, _) => {
            cursor.expect_word("COMPONENT")?;
            let inner = constraint_at(alloc, element, cursor, levels)?;
            elements_of(alloc, inner, cursor)
        }
        AsnType::Seq { root, ext } => {
            cursor.expect_word("COMPONENTS")?;
            components_at(alloc, root, ext, cursor, levels)
        }
        AsnType::Choice { root, ext } => {
            cursor.expect_word("COMPONENTS")?;
            alternatives_at(alloc, root, ext, cursor, levels)
        }
        AsnType::Bool
        | AsnType::Null
        | AsnType::Int(_)
        | AsnType::Enum { .. }
        | AsnType::Bits(_)
        | AsnType::Octets(_)
        | AsnType::Text(..)
        | AsnType::Utf8 => Err(cursor.fault(OF_TYPE)),
    }
}

/// Components with their constraints, after `...` and in their order.
#[cycle(reading)]
fn components_at(
    alloc: Global,
    root: &[Field],
    ext: &Option<Vec<Field>>,
    cursor: &mut Cursor<'_>,
    levels: u32,
) -> Result<Read, ConstraintTextFault>
    ensures { length cursor.new.rest.now ≤ length cursor.old.rest.now }
{
    cursor.expect(b'{', "`{`")?;
    if !cursor.takes_dots() {
        return Err(cursor.fault("`...`"));
    }
    let mut all = Vec::new(alloc);
    let mut contents = Vec::new(alloc);
    let mut deepest = 0;
    'components: while cursor.takes(b',') {
        let inner = push_component(alloc, &mut all, &mut contents, root, ext, cursor, levels)?;
        deepest = inner.max(deepest);
    }
    cursor.expect(b'}', "`}`")?;
    let levels = above(cursor, deepest)?;
    Ok(of_components(all, contents, levels))
}

/// Adds a component that comes after those that there are, and free ones between. Returns how many levels it has.
#[cycle(reading)]
fn push_component(
    alloc: Global,
    all: &mut Vec<Component>,
    contents: &mut Vec<Contents>,
    root: &[Field],
    ext: &Option<Vec<Field>>,
    cursor: &mut Cursor<'_>,
    levels: u32,
) -> Result<u32, ConstraintTextFault>
    ensures { length cursor.new.rest.now ≤ length cursor.old.rest.now }
{
    let index = part_index(root, additions(ext), all.len(), cursor, COMPONENT)?;
    for _ in all.len()..index {
        all.push(free_component())?;
        contents.push(Contents::Nowhere)?;
    }
    let Some(field) = part_at(root, ext, index) else {
        return Err(cursor.fault(COMPONENT));
    };
    let read = part_constraint_at(alloc, &field.ty, cursor, levels)?;
    all.push(Component {
        presence: presence_at(cursor),
        constraint: read.constraint,
    })?;
    contents.push(read.contents)?;
    Ok(read.levels)
}

/// The constraint of a component or an alternative, if it has one.
#[cycle(reading)]
fn part_constraint_at(
    alloc: Global,
    ty: &AsnType,
    cursor: &mut Cursor<'_>,
    levels: u32,
) -> Result<Read, ConstraintTextFault>
    ensures { length cursor.new.rest.now ≤ length cursor.old.rest.now }
{
    if cursor.begins(b'(') {
        constraint_at(alloc, ty, cursor, levels)
    } else {
        Ok(leaf(Constraint::Free))
    }
}

/// Alternatives with their constraints, in their order. After `...` the others have none.
#[cycle(reading)]
fn alternatives_at(
    alloc: Global,
    root: &[Alt],
    ext: &Option<Vec<Alt>>,
    cursor: &mut Cursor<'_>,
    levels: u32,
) -> Result<Read, ConstraintTextFault>
    ensures { length cursor.new.rest.now ≤ length cursor.old.rest.now }
{
    cursor.expect(b'{', "`{`")?;
    let mut listed = Listed::new(alloc, cursor.takes_dots());
    let deepest = push_alternatives(alloc, &mut listed, root, ext, cursor, levels)?;
    cursor.expect(b'}', "`}`")?;
    let levels = above(cursor, deepest)?;
    listed.finish(root.len().saturating_add(additions(ext).len()), levels)
}

/// Adds the alternatives that are listed, if there are some. Returns how many levels they have.
#[cycle(reading)]
fn push_alternatives(
    alloc: Global,
    listed: &mut Listed,
    root: &[Alt],
    ext: &Option<Vec<Alt>>,
    cursor: &mut Cursor<'_>,
    levels: u32,
) -> Result<u32, ConstraintTextFault>
    ensures { length cursor.new.rest.now ≤ length cursor.old.rest.now }
{
    let mut deepest = 0;
    if !listed.is_partial() {
        if !cursor.begins_identifier() {
            return Ok(0);
        }
        deepest = push_alternative(alloc, listed, root, ext, cursor, levels)?;
    }
    'alternatives: while cursor.takes(b',') {
        let inner = push_alternative(alloc, listed, root, ext, cursor, levels)?;
        deepest = inner.max(deepest);
    }
    Ok(deepest)
}

/// Adds an alternative that comes after those that there are. Returns how many levels it has.
#[cycle(reading)]
fn push_alternative(
    alloc: Global,
    listed: &mut Listed,
    root: &[Alt],
    ext: &Option<Vec<Alt>>,
    cursor: &mut Cursor<'_>,
    levels: u32,
) -> Result<u32, ConstraintTextFault>
    ensures { length cursor.new.rest.now ≤ length cursor.old.rest.now }
{
    let index = part_index(root, additions(ext), listed.len(), cursor, ALTERNATIVE)?;
    let Some(alternative) = part_at(root, ext, index) else {
        return Err(cursor.fault(ALTERNATIVE));
    };
    let read = alternative_at(alloc, &alternative.ty, cursor, levels)?;
    let levels = read.levels;
    listed.push(index, read)?;
    Ok(levels)
}

/// The constraint of an alternative if it has one, or that it is ABSENT.
#[cycle(reading)]
fn alternative_at(
    alloc: Global,
    ty: &AsnType,
    cursor: &mut Cursor<'_>,
    levels: u32,
) -> Result<Read, ConstraintTextFault>
    ensures { length cursor.new.rest.now ≤ length cursor.old.rest.now }
{
    if cursor.takes_word(b"ABSENT") {
        return Ok(leaf(Constraint::Barred));
    }
    part_constraint_at(alloc, ty, cursor, levels)
}
