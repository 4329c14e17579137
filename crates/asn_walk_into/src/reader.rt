//! The reader of values of all types into values that are there, over the parts that a set of encoding rules gives.
//!
//! Each reader has the contract of the one of `asn_walk_read` that gives its value, said of what stands in the slot
//! afterwards. At `Err` some value is left there.
ghost use Rattle.std.specs.Prelude.{◌≡◌, ◌≤◌, ◌<◌, ◌+◌, ◌%◌, IfOk, IfErr, OnOk, map, take, length, vec_len};
ghost use Rattle.asn_values.specs.Profile.{InProfile};
ghost use Rattle.asn_values.specs.Parts.{AreAllOfProfile};
ghost use Rattle.asn_values.specs.View.{shape_of, datum_of, alternatives_seen};
ghost use Rattle.asn_walk.specs.Coding.{OpenOf};
ghost use Rattle.asn_walk.specs.Reading.{Reads, ReadsValue, ReadsComplete, ReadsOpen, StopsAt, ValuesOf, CompleteOf, AlternativeOf, OpenAlternativeOf, RowOf, RestOf, ReadsRest, OverwritesRow};

use crate::components::{read_additions_into, read_root_into};
use crate::entries::{clear_entries, make_element, read_anew, take_elements};
use asn_bits::BitCursor;
use asn_rules::Why;
use asn_rules::internal::Stop;
use asn_values::{Alt, AsnType, Value};
use asn_walk::slots::set_integer;
use asn_walk::{Index, ReadLeaves};
use asn_walk_read::{SHORT_OPEN_FIELD, added_count, read_open_octets, try_integer};
use std::alloc::Global;

/// The most elements of a SEQUENCE OF for which capacity is reserved at once: an announced count alone must not
/// allocate more.
const RESERVED_AT_ONCE: usize = 1024;

/// Reads a value of the type into the one that is there, which may be any value.
#[inline(always)]
#[cycle(reader)]
pub fn read_into<R: ReadLeaves>(
    alloc: Global,
    ty: &AsnType,
    units: &mut BitCursor<'_>,
    slot: &mut Value,
) -> Result<(), Stop>
    requires at_unit { R.rules.at_unit units.old }
    requires of_profile { InProfile (shape_of ty.now) }
    ensures at_unit { OnOk result (R.rules.at_unit units.new) }
    ensures done { OnOk result (ReadsValue R.rules ty.now slot.new units.old units.new) }
    ensures stop { IfErr result (λ why. StopsAt R.rules (ValuesOf R.rules (shape_of ty.now)) units.old why) }
{
    match ty {
        AsnType::Seq { ext: None, .. } => read_sequence_into::<R>(alloc, ty, units, slot),
        AsnType::Seq { ext: Some(_), .. } => read_marked_into::<R>(alloc, ty, units, slot),
        AsnType::SeqOf(..) => read_list_into::<R>(alloc, ty, units, slot),
        AsnType::Choice { .. } => read_choice_into::<R>(alloc, ty, units, slot),
        AsnType::Int(_) => {
            if let Some(number) = try_integer::<R>(ty, units) {
                set_integer(number, slot);
                return Ok(());
            }
            R::read_simple_into(alloc, ty, units, slot)
        }
        AsnType::Bool | AsnType::Enum { .. } => {
            if R::try_simple_into(ty, units, slot) {
                return Ok(());
            }
            R::read_simple_into(alloc, ty, units, slot)
        }
        AsnType::Null | AsnType::Bits(_) | AsnType::Octets(_) | AsnType::Text(..) | AsnType::Utf8 =>
            R::read_simple_into(alloc, ty, units, slot),
    }
}

/// Reads a SEQUENCE without an extension mark.
#[inline(never)]
#[cycle(reader)]
fn read_sequence_into<R: ReadLeaves>(
    alloc: Global,
    ty: &AsnType,
    units: &mut BitCursor<'_>,
    slot: &mut Value,
) -> Result<(), Stop>
    requires at_unit { R.rules.at_unit units.old }
    requires of_profile { InProfile (shape_of ty.now) }
    ensures at_unit { OnOk result (R.rules.at_unit units.new) }
    ensures done { OnOk result (ReadsValue R.rules ty.now slot.new units.old units.new) }
    ensures stop { IfErr result (λ why. StopsAt R.rules (ValuesOf R.rules (shape_of ty.now)) units.old why) }
{
    R::keep_laws();
    let AsnType::Seq { root, ext } = ty else {
        return read_anew::<R>(alloc, ty, units, slot);
    };
    let None = ext else {
        return read_anew::<R>(alloc, ty, units, slot);
    };
    let root = root.as_slice();
    let Value::Seq(entries) = slot else {
        return read_anew::<R>(alloc, ty, units, slot);
    };
    if entries.len() != root.len() {
        return read_anew::<R>(alloc, ty, units, slot);
    }
    match read_root_into::<R>(alloc, root, None, entries.as_mut_slice(), units) {
        Ok(_) => Ok(()),
        Err(stop) => Err(stop),
    }
}

/// Reads a SEQUENCE with an extension mark.
#[inline(never)]
#[cycle(reader)]
fn read_marked_into<R: ReadLeaves>(
    alloc: Global,
    ty: &AsnType,
    units: &mut BitCursor<'_>,
    slot: &mut Value,
) -> Result<(), Stop>
    requires at_unit { R.rules.at_unit units.old }
    requires of_profile { InProfile (shape_of ty.now) }
    ensures at_unit { OnOk result (R.rules.at_unit units.new) }
    ensures done { OnOk result (ReadsValue R.rules ty.now slot.new units.old units.new) }
    ensures stop { IfErr result (λ why. StopsAt R.rules (ValuesOf R.rules (shape_of ty.now)) units.old why) }
{
    R::keep_laws();
    let AsnType::Seq { root, ext } = ty else {
        return read_anew::<R>(alloc, ty, units, slot);
    };
    let Some(additions) = ext else {
        return read_anew::<R>(alloc, ty, units, slot);
    };
    let root = root.as_slice();
    let additions = additions.as_slice();
    let Value::Seq(entries) = slot else {
        return read_anew::<R>(alloc, ty, units, slot);
    };
    if entries.len() != root.len() + additions.len() {
        return read_anew::<R>(alloc, ty, units, slot);
    }
    let (of_root, of_additions) = entries.split_at_mut(root.len());
    if read_root_into::<R>(alloc, root, Some(additions.len()), of_root, units)? {
        read_additions_into::<R>(alloc, additions, of_additions, units)?;
    } else {
        clear_entries(additions, of_additions);
    }
    Ok(())
}

/// Reads a complete encoding of a value of the type into the one that is there: the value, and its padding (X.691,
/// "complete encoding").
#[cycle(reader)]
pub fn read_complete_into<R: ReadLeaves>(
    alloc: Global,
    ty: &AsnType,
    units: &mut BitCursor<'_>,
    slot: &mut Value,
) -> Result<(), Stop>
    requires at_unit { R.rules.at_unit units.old }
    requires of_profile { InProfile (shape_of ty.now) }
    requires octets { length (R.rules.to_units units.old) % R.rules.octet_units ≡ 0 }
    ensures at_unit { OnOk result (R.rules.at_unit units.new) }
    ensures done { OnOk result (ReadsComplete R.rules ty.now slot.new units.old units.new) }
    ensures stop { IfErr result (λ why. StopsAt R.rules (CompleteOf R.rules (shape_of ty.now)) units.old why) }
{
    R::keep_laws();
    let given = R::units_left(units);
    read_into::<R>(alloc, ty, units, slot)?;
    R::read_padding(given, units)
}

/// Reads an open type field that holds a value of the type: first all its octets, and then the complete encoding that
/// they have to be (X.691, "open type fields"; X.696, "open type").
#[inline(never)]
#[cycle(reader)]
pub(crate) fn read_open_into<R: ReadLeaves>(
    alloc: Global,
    ty: &AsnType,
    units: &mut BitCursor<'_>,
    slot: &mut Value,
) -> Result<(), Stop>
    requires at_unit { R.rules.at_unit units.old }
    requires of_profile { InProfile (shape_of ty.now) }
    ensures at_unit { OnOk result (R.rules.at_unit units.new) }
    ensures done { OnOk result (ReadsOpen R.rules ty.now slot.new units.old units.new) }
    ensures stop { IfErr result (λ why. StopsAt R.rules (OpenOf R.rules (shape_of ty.now)) units.old why) }
{
    R::keep_laws();
    let mut short = [0; SHORT_OPEN_FIELD];
    let mut long = Vec::new(alloc);
    let octets = read_open_octets::<R>(alloc, units, &mut short, &mut long)?;
    let mut content = BitCursor::over(octets);
    let no_value = Stop::Refused {
        left: R::units_left(units),
        why: Why::Sealed,
    };
    match read_complete_into::<R>(alloc, ty, &mut content, slot) {
        Ok(()) if R::units_left(&content) == 0 => Ok(()),
        Ok(()) => Err(no_value),
        Err(Stop::Short) => Err(no_value),
        Err(Stop::Refused { .. }) => Err(no_value),
        Err(Stop::Memory) => Err(Stop::Memory),
    }
}

/// Reads a CHOICE, whose box is kept.
#[inline(never)]
#[cycle(reader)]
fn read_choice_into<R: ReadLeaves>(
    alloc: Global,
    ty: &AsnType,
    units: &mut BitCursor<'_>,
    slot: &mut Value,
) -> Result<(), Stop>
    requires at_unit { R.rules.at_unit units.old }
    requires of_profile { InProfile (shape_of ty.now) }
    ensures at_unit { OnOk result (R.rules.at_unit units.new) }
    ensures done { OnOk result (ReadsValue R.rules ty.now slot.new units.old units.new) }
    ensures stop { IfErr result (λ why. StopsAt R.rules (ValuesOf R.rules (shape_of ty.now)) units.old why) }
{
    R::keep_laws();
    let AsnType::Choice { root, ext } = ty else {
        return read_anew::<R>(alloc, ty, units, slot);
    };
    let Value::Choice(tag, value) = slot else {
        return read_anew::<R>(alloc, ty, units, slot);
    };
    let known = root.len();
    match R::read_index(known, added_count(ext), units)? {
        Index::Root(index) => {
            *tag = index as u32;
            read_alternative_into::<R>(alloc, root, index, units, value)
        }
        Index::Added(index) => {
            let Some(additions) = ext else { unreachable!() };
            *tag = (known + index) as u32;
            read_added_alternative_into::<R>(alloc, additions, index, units, value)
        }
    }
}

/// Reads a value of the alternative with this index in the root.
#[cycle(reader)]
fn read_alternative_into<R: ReadLeaves>(
    alloc: Global,
    root: &[Alt],
    index: usize,
    units: &mut BitCursor<'_>,
    slot: &mut Value,
) -> Result<(), Stop>
    requires at_unit { R.rules.at_unit units.old }
    requires of_profile { AreAllOfProfile (alternatives_seen root.now) }
    requires inside { index < length root.now }
    ensures at_unit { OnOk result (R.rules.at_unit units.new) }
    ensures done { OnOk result
        (Reads R.rules (AlternativeOf R.rules root.now index) (datum_of slot.new) units.old units.new) }
    ensures stop { IfErr result (λ why. StopsAt R.rules (AlternativeOf R.rules root.now index) units.old why) }
{
    read_into::<R>(alloc, &root[index].ty, units, slot)
}

/// Reads an open type field that holds a value of the alternative with this index among the additions.
#[cycle(reader)]
fn read_added_alternative_into<R: ReadLeaves>(
    alloc: Global,
    added: &[Alt],
    index: usize,
    units: &mut BitCursor<'_>,
    slot: &mut Value,
) -> Result<(), Stop>
    requires at_unit { R.rules.at_unit units.old }
    requires of_profile { AreAllOfProfile (alternatives_seen added.now) }
    requires inside { index < length added.now }
    ensures at_unit { OnOk result (R.rules.at_unit units.new) }
    ensures done { OnOk result
        (Reads R.rules (OpenAlternativeOf R.rules added.now index) (datum_of slot.new) units.old units.new) }
    ensures stop { IfErr result (λ why. StopsAt R.rules (OpenAlternativeOf R.rules added.now index) units.old why) }
{
    read_open_into::<R>(alloc, &added[index].ty, units, slot)
}

/// Reads a SEQUENCE OF.
#[inline(never)]
#[cycle(reader)]
fn read_list_into<R: ReadLeaves>(
    alloc: Global,
    ty: &AsnType,
    units: &mut BitCursor<'_>,
    slot: &mut Value,
) -> Result<(), Stop>
    requires at_unit { R.rules.at_unit units.old }
    requires of_profile { InProfile (shape_of ty.now) }
    ensures at_unit { OnOk result (R.rules.at_unit units.new) }
    ensures done { OnOk result (ReadsValue R.rules ty.now slot.new units.old units.new) }
    ensures stop { IfErr result (λ why. StopsAt R.rules (ValuesOf R.rules (shape_of ty.now)) units.old why) }
{
    R::keep_laws();
    let AsnType::SeqOf(element, size) = ty else {
        return read_anew::<R>(alloc, ty, units, slot);
    };
    let Ok(mut elements) = take_elements(slot) else {
        return read_anew::<R>(alloc, ty, units, slot);
    };
    let fragments = R::start_list(size, units)?;
    read_fragments_into::<R>(alloc, element, fragments, &mut elements, units)?;
    *slot = Value::List(elements);
    Ok(())
}

/// Reads the fragments of a list, from its first element on. Elements beyond the new length are cut off.
#[cycle(reader)]
fn read_fragments_into<R: ReadLeaves>(
    alloc: Global,
    element: &AsnType,
    fragments: R::Fragments,
    elements: &mut Vec<Value>,
    units: &mut BitCursor<'_>,
) -> Result<(), Stop>
    requires at_unit { R.rules.at_unit units.old }
    requires of_profile { InProfile (shape_of element.now) }
    requires between { R.is_between fragments }
    ensures at_unit { OnOk result (R.rules.at_unit units.new) }
    ensures done { OnOk result (ReadsRest R.rules element.now (R.ahead fragments) elements.new units.old units.new) }
    ensures stop { IfErr result (λ why.
        StopsAt R.rules (RestOf R.rules element.now (R.ahead fragments)) units.old why) }
{
    R::keep_laws();
    let mut fragments = fragments;
    let mut start = 0;
    while let Some(count) = R::next_fragment(&mut fragments, units)? {
        let present = elements.len() - start;
        let wanted = count.min(units.octets_left()).min(RESERVED_AT_ONCE);
        elements.reserve(wanted.saturating_sub(present))?;
        read_elements_into::<R>(alloc, element, count, start, elements, units)?;
        start += count;
    }
    elements.truncate(start);
    Ok(())
}

/// Reads `count` elements, one after the other, from index `start` on: each into the element that is there, or else
/// into a new one.
#[cycle(reader)]
fn read_elements_into<R: ReadLeaves>(
    alloc: Global,
    element: &AsnType,
    count: usize,
    start: usize,
    elements: &mut Vec<Value>,
    units: &mut BitCursor<'_>,
) -> Result<(), Stop>
    requires at_unit { R.rules.at_unit units.old }
    requires of_profile { InProfile (shape_of element.now) }
    requires inside { start ≤ vec_len elements.old }
    ensures at_unit { OnOk result (R.rules.at_unit units.new) }
    ensures inside { OnOk result (start + count ≤ vec_len elements.new) }
    ensures done { OnOk result
        (OverwritesRow R.rules element.now start count elements.old elements.new units.old units.new) }
    ensures stop { IfErr result (λ why. StopsAt R.rules (RowOf R.rules element.now count) units.old why) }
{
    R::keep_laws();
    for i in 0..count {
        make_element(elements, start + i)?;
        read_into::<R>(alloc, element, units, &mut elements[start + i])?;
    }
    Ok(())
}
