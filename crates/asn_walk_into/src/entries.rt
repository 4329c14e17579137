//! Entries of a SEQUENCE that are overwritten without reading, and values that are read anew.
ghost use Rattle.std.specs.Prelude.{◌≡◌, ◌≤◌, ◌<◌, true, OnOk, IfErr, IfOk, Some, IsSome, length, take, vec_len};
ghost use Rattle.std.specs.Option.{option_map};
ghost use Rattle.asn_values.specs.Datum.{number};
ghost use Rattle.asn_values.specs.Parts.{IsGoodDemand};
ghost use Rattle.asn_values.specs.Profile.{InProfile, good_default};
ghost use Rattle.asn_values.specs.View.{shape_of, datum_of, part_of_field, fields_seen, entries_seen};
ghost use Rattle.asn_rules.specs.Listed.{default_of};
ghost use Rattle.asn_walk.specs.Coding.{absent_entries};
ghost use Rattle.asn_walk.specs.Reading.{ReadsValue, ReadsOther, StopsAt, ValuesOf, OthersOf};

use asn_bits::BitCursor;
use asn_rules::internal::Stop;
use asn_values::{AsnType, Field, Need, Value};
use asn_walk::{ReadLeaves, absent};
use asn_walk_read::read;
use std::alloc::{AllocError, Global};
use std::mem;

/// Reads a value of the type anew, in place of the one that is there.
#[inline(never)]
pub(crate) fn read_anew<R: ReadLeaves>(
    alloc: Global,
    ty: &AsnType,
    units: &mut BitCursor<'_>,
    slot: &mut Value,
) -> Result<(), Stop>
    requires at_unit { R.rules.at_unit units.old }
    requires of_profile { InProfile (shape_of ty.now) }
    ensures at_unit { OnOk result (R.rules.at_unit units.new) }
    ensures done { OnOk result (ReadsValue R.rules ty.now slot.new units.old units.new) }
    ensures stop { IfErr result (λ why. StopsAt R.rules (ValuesOf R.rules (shape_of ty.now)) units.old why) }
{
    *slot = read::<R>(alloc, ty, units)?;
    Ok(())
}

/// Reads a value of the type of a component with this DEFAULT, which it is not, in place of the one that is there.
#[inline(never)]
pub(crate) fn read_other_into<R: ReadLeaves>(
    ty: &AsnType,
    default: &Value,
    units: &mut BitCursor<'_>,
    slot: &mut Value,
) -> Result<(), Stop>
    requires at_unit { R.rules.at_unit units.old }
    requires of_profile { InProfile (shape_of ty.now) }
    requires good { good_default (shape_of ty.now) (datum_of default.now) ≡ true }
    ensures at_unit { OnOk result (R.rules.at_unit units.new) }
    ensures done { OnOk result (ReadsOther R.rules ty.now default.now slot.new units.old units.new) }
    ensures stop { IfErr result (λ why.
        StopsAt R.rules (OthersOf R.rules (datum_of default.now) (shape_of ty.now)) units.old why) }
{
    *slot = R::read_other(ty, default, units)?;
    Ok(())
}

/// The entry becomes an INTEGER.
#[inline(always)]
pub(crate) fn set_integer(entry: &mut Option<Value>, value: i128)
    ensures { option_map datum_of entry.new ≡ Some (number value) }
{
    if let Some(Value::Int(old)) = entry {
        *old = value;
    } else {
        replace_by_integer(entry, value);
    }
}

/// The entry becomes an INTEGER, where it was none.
#[inline(never)]
fn replace_by_integer(entry: &mut Option<Value>, value: i128)
    ensures { option_map datum_of entry.new ≡ Some (number value) }
{
    *entry = Some(Value::Int(value));
}

/// The entry becomes that of a component that is absent: its DEFAULT, where it has one.
#[inline(always)]
pub(crate) fn set_absent(field: &Field, entry: &mut Option<Value>)
    requires { IsGoodDemand (part_of_field field.now).demand (part_of_field field.now).shape }
    ensures { option_map datum_of entry.new ≡ default_of (part_of_field field.now).demand }
{
    if entry.is_none() {
        match &field.need {
            Need::Must | Need::Optional => return,
            Need::Default(_) => {}
        }
    }
    replace_by_absent(field, entry);
}

/// The entry becomes that of a component that is absent, where it was another.
#[inline(never)]
fn replace_by_absent(field: &Field, entry: &mut Option<Value>)
    requires { IsGoodDemand (part_of_field field.now).demand (part_of_field field.now).shape }
    ensures { option_map datum_of entry.new ≡ default_of (part_of_field field.now).demand }
{
    *entry = absent(field);
}

/// The entries become those of extension additions that are all absent.
#[inline(never)]
pub(crate) fn clear_entries(additions: &[Field], entries: &mut [Option<Value>])
    requires each { length entries.old ≡ length additions.now }
    ensures { entries_seen entries.new ≡ absent_entries (fields_seen additions.now) }
{
    let mut at = 0;
    for field in additions {
        entries[at] = None;
        at += 1;
    }
}

/// An entry that has no value becomes one that has.
#[inline(always)]
pub(crate) fn make_present(entry: &mut Option<Value>)
    ensures { IsSome entry.new }
{
    if entry.is_none() {
        replace_by_null(entry);
    }
}

/// The entry becomes NULL.
#[inline(never)]
fn replace_by_null(entry: &mut Option<Value>)
    ensures { IsSome entry.new }
{
    *entry = Some(Value::Null);
}

/// Appends an element if the list has none at this index, which is at most its length.
#[inline(always)]
pub(crate) fn make_element(elements: &mut Vec<Value>, at: usize) -> Result<(), AllocError>
    requires { at ≤ vec_len elements.old }
    ensures there { OnOk result (at < vec_len elements.new) }
    ensures kept { OnOk result (take at elements.new.items ≡ take at elements.old.items) }
{
    if at == elements.len() {
        elements.push(Value::Null)?;
    }
    Ok(())
}

/// The value is not one whose parts can be overwritten.
#[derive(Clone, Copy)]
pub(crate) struct Unlike;

/// Takes the elements out of a SEQUENCE OF. The value is then NULL.
#[inline(always)]
pub(crate) fn take_elements(slot: &mut Value) -> Result<Vec<Value>, Unlike> {
    match mem::replace(slot, Value::Null) {
        Value::List(elements) => Ok(elements),
        _ => Err(Unlike),
    }
}
