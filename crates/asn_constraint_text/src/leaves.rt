//! Reads constraints with no other in them. The grammar is in the README of the crate.
ghost use Rattle.std.specs.Prelude.{◌≤◌, length};

use crate::cursor::Cursor;
use crate::fault::ConstraintTextFault;
use crate::strings::code_at;
use crate::value_reading::{item_at, value_at};
use asn_constraints::{Component, Constraint, Interval, Lengths, Presence, TimeKind};
use asn_values::AsnType;
use std::alloc::Global;

/// What is expected where no constraint of the type is.
pub(crate) const OF_TYPE: &str = "a constraint of the type";

/// A constraint with no other in it.
pub(crate) fn leaf_at(
    alloc: Global,
    ty: &AsnType,
    cursor: &mut Cursor<'_>,
) -> Result<Constraint, ConstraintTextFault>
    ensures { length cursor.new.rest.now ≤ length cursor.old.rest.now }
{
    if cursor.takes_word(b"ALL") {
        cursor.expect_word("EXCEPT")?;
        return Ok(Constraint::Except(value_at(alloc, ty, cursor)?));
    }
    if cursor.takes_word(b"CONSTRAINED") {
        cursor.expect_word("BY")?;
        return described_at(ty, cursor);
    }
    match ty {
        AsnType::Text(..) => {
            if cursor.takes_word(b"FROM") {
                return Ok(Constraint::Characters(characters_at(alloc, cursor)?));
            }
            sized_at(alloc, cursor)
        }
        AsnType::Bits(_) | AsnType::Octets(_) | AsnType::Utf8 | AsnType::SeqOf(..) => {
            sized_at(alloc, cursor)
        }
        AsnType::Bool
        | AsnType::Null
        | AsnType::Int(_)
        | AsnType::Enum { .. }
        | AsnType::Seq { .. }
        | AsnType::Choice { .. } => Err(cursor.fault(OF_TYPE)),
    }
}

/// The lengths of a type that has some, after SIZE.
fn sized_at(alloc: Global, cursor: &mut Cursor<'_>) -> Result<Constraint, ConstraintTextFault>
    ensures { length cursor.new.rest.now ≤ length cursor.old.rest.now }
{
    if cursor.takes_word(b"SIZE") {
        return Ok(Constraint::Lengths(lengths_at(alloc, cursor)?));
    }
    Err(cursor.fault(OF_TYPE))
}

/// Intervals of integers with `|` between them.
pub(crate) fn numbers_at(
    alloc: Global,
    cursor: &mut Cursor<'_>,
) -> Result<Vec<Interval>, ConstraintTextFault>
    ensures { length cursor.new.rest.now ≤ length cursor.old.rest.now }
{
    let mut all = Vec::new(alloc);
    all.push(interval_at(cursor)?)?;
    'intervals: while cursor.takes(b'|') {
        all.push(interval_at(cursor)?)?;
    }
    Ok(all)
}

/// An integer, or one to another.
fn interval_at(cursor: &mut Cursor<'_>) -> Result<Interval, ConstraintTextFault>
    ensures { length cursor.new.rest.now ≤ length cursor.old.rest.now }
{
    let low = end_at(cursor)?;
    let high = if cursor.takes_range() {
        end_at(cursor)?
    } else {
        low
    };
    Ok(Interval { low, high })
}

/// An integer, or MIN or MAX for the least and the greatest one.
fn end_at(cursor: &mut Cursor<'_>) -> Result<i128, ConstraintTextFault>
    ensures { length cursor.new.rest.now ≤ length cursor.old.rest.now }
{
    if cursor.takes_word(b"MIN") {
        return Ok(i128::MIN);
    }
    if cursor.takes_word(b"MAX") {
        return Ok(i128::MAX);
    }
    cursor.integer()
}

/// Items of an ENUMERATED with `|` between them.
pub(crate) fn items_at(
    alloc: Global,
    ty: &AsnType,
    cursor: &mut Cursor<'_>,
) -> Result<Vec<u32>, ConstraintTextFault>
    ensures { length cursor.new.rest.now ≤ length cursor.old.rest.now }
{
    let mut all = Vec::new(alloc);
    all.push(item_at(ty, cursor)?)?;
    'items: while cursor.takes(b'|') {
        all.push(item_at(ty, cursor)?)?;
    }
    Ok(all)
}

/// Lengths with `|` between them, in parentheses.
fn lengths_at(alloc: Global, cursor: &mut Cursor<'_>) -> Result<Vec<Lengths>, ConstraintTextFault>
    ensures { length cursor.new.rest.now ≤ length cursor.old.rest.now }
{
    cursor.expect(b'(', "`(`")?;
    let mut all = Vec::new(alloc);
    all.push(length_at(cursor)?)?;
    'lengths: while cursor.takes(b'|') {
        all.push(length_at(cursor)?)?;
    }
    cursor.expect(b')', "`)`")?;
    Ok(all)
}

/// A length, or one to another or to MAX.
fn length_at(cursor: &mut Cursor<'_>) -> Result<Lengths, ConstraintTextFault>
    ensures { length cursor.new.rest.now ≤ length cursor.old.rest.now }
{
    let low = cursor.number()?;
    let high = if !cursor.takes_range() {
        Some(low)
    } else if cursor.takes_word(b"MAX") {
        None
    } else {
        Some(cursor.number()?)
    };
    Ok(Lengths { low, high })
}

/// Intervals of characters with `|` between them, in parentheses.
fn characters_at(
    alloc: Global,
    cursor: &mut Cursor<'_>,
) -> Result<Vec<Interval>, ConstraintTextFault>
    ensures { length cursor.new.rest.now ≤ length cursor.old.rest.now }
{
    cursor.expect(b'(', "`(`")?;
    let mut all = Vec::new(alloc);
    all.push(codes_at(cursor)?)?;
    'intervals: while cursor.takes(b'|') {
        all.push(codes_at(cursor)?)?;
    }
    cursor.expect(b')', "`)`")?;
    Ok(all)
}

/// A character, or one to another.
fn codes_at(cursor: &mut Cursor<'_>) -> Result<Interval, ConstraintTextFault>
    ensures { length cursor.new.rest.now ≤ length cursor.old.rest.now }
{
    let low = code_at(cursor)?;
    let high = if cursor.takes_range() {
        code_at(cursor)?
    } else {
        low
    };
    Ok(Interval { low, high })
}

/// What X.680 has no notation for, in braces.
fn described_at(ty: &AsnType, cursor: &mut Cursor<'_>) -> Result<Constraint, ConstraintTextFault>
    ensures { length cursor.new.rest.now ≤ length cursor.old.rest.now }
{
    cursor.expect(b'{', "`{`")?;
    let constraint = words_at(ty, cursor)?;
    cursor.expect(b'}', "`}`")?;
    Ok(constraint)
}

/// The words for what X.680 has no notation for.
fn words_at(ty: &AsnType, cursor: &mut Cursor<'_>) -> Result<Constraint, ConstraintTextFault>
    ensures { length cursor.new.rest.now ≤ length cursor.old.rest.now }
{
    if cursor.takes_word(b"any") {
        cursor.expect_word("value")?;
        return Ok(Constraint::Free);
    }
    if cursor.takes_word(b"no") {
        cursor.expect_word("value")?;
        return Ok(Constraint::Barred);
    }
    match ty {
        AsnType::Seq { .. } => {
            cursor.expect_word("some")?;
            cursor.expect_word("component")?;
            Ok(Constraint::SomePresent)
        }
        AsnType::Bits(_) => {
            cursor.expect_word("trimmed")?;
            Ok(Constraint::Trimmed(cursor.number()?))
        }
        AsnType::Text(..) => Ok(Constraint::Time(time_at(cursor)?)),
        _ => Err(cursor.fault(OF_TYPE)),
    }
}

/// The name of a time type.
fn time_at(cursor: &mut Cursor<'_>) -> Result<TimeKind, ConstraintTextFault>
    ensures { length cursor.new.rest.now ≤ length cursor.old.rest.now }
{
    if cursor.takes_word(b"UTCTime") {
        return Ok(TimeKind::Utc);
    }
    if cursor.takes_word(b"GeneralizedTime") {
        return Ok(TimeKind::Generalized);
    }
    Err(cursor.fault("UTCTime or GeneralizedTime"))
}

/// A component without constraint.
pub(crate) fn free_component() -> Component {
    Component {
        presence: Presence::Any,
        constraint: Constraint::Free,
    }
}

/// Whether a component has to be there.
pub(crate) fn presence_at(cursor: &mut Cursor<'_>) -> Presence
    ensures { length cursor.new.rest.now ≤ length cursor.old.rest.now }
{
    if cursor.takes_word(b"PRESENT") {
        Presence::Present
    } else if cursor.takes_word(b"ABSENT") {
        Presence::Absent
    } else {
        Presence::Any
    }
}
