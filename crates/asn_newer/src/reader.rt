//! The reader of values in messages of newer and older senders: the walk over types of `asn_walk_read`, with other
//! leaves where there is an extension mark.
ghost use Rattle.std.specs.Prelude.{◌≡◌, ◌<◌, ◌≤◌, ◌%◌, ◌^◌, IfOk, IfErr, OnOk, map, length};
ghost use Rattle.asn_values.specs.Profile.{InProfile};
ghost use Rattle.asn_values.specs.Shape.{sequence, closed, marked, sequence_of};
ghost use Rattle.asn_values.specs.View.{datum_of, shape_of, size_range_of, fields_seen, entries_seen};
ghost use Rattle.asn_bits.specs.Numbers.{bits};
ghost use Rattle.asn_rules.specs.Answer.{max_octets};
ghost use Rattle.asn_rules.specs.Laws.{AreOctets};
ghost use Rattle.asn_rules.specs.Languages.{Row};
ghost use Rattle.asn_walk.specs.Ahead.{Remaining};
ghost use Rattle.asn_walk.specs.Coding.{ListingOf};
ghost use Rattle.asn_walk.specs.Reading.{Reads};
ghost use Rattle.asn_newer.specs.Halting.{HaltsAt};
ghost use Rattle.asn_newer.specs.Loose.{Loose, Known};
ghost use Rattle.asn_newer.specs.Reading.{skipped_at_seen};
ghost use Rattle.asn_newer.specs.Skipped.{Inside};
ghost use Rattle.asn_newer.specs.Walking.{
  loose_by,
  ReadingAfter,
  ItemsAfter,
  ReadsContent,
  HaltsContent,
  IsMarkedSequence,
};

use crate::choices::{read_closed_choice, read_marked_choice};
use crate::components::{push_absent, read_additions, read_components};
use crate::halt::{Halt, halt_of_field};
use crate::items::read_any_item;
use crate::leaves::ReadVersions;
use crate::path::{PathStep, SkippedAt, put_inside};
use asn_bits::BitCursor;
use asn_values::profile::MAX_ADDITIONS;
use asn_values::{AsnType, Field, Size, Value};
use asn_walk::{PresenceBits, ReadLeaves, bitmap_width};
use std::alloc::Global;

/// The most elements of a SEQUENCE OF for which capacity is reserved at once: an announced count alone must not
/// allocate more.
const RESERVED_AT_ONCE: usize = 1024;

/// Reads a value of the type, and appends the fields that it skips.
#[cycle(newer)]
pub(crate) fn read<R: ReadVersions>(
    alloc: Global,
    ty: &AsnType,
    skipped: &mut Vec<SkippedAt>,
    units: &mut BitCursor<'_>,
) -> Result<Value, Halt>
    requires at_unit { R.rules.at_unit units.old }
    requires of_profile { InProfile (shape_of ty.now) }
    ensures at_unit { OnOk result (R.rules.at_unit units.new) }
    ensures done { IfOk result (λ v. Reads R.rules
        (ReadingAfter (skipped_at_seen skipped.old.items) (Loose (loose_by R.rules R.loose) (shape_of ty.now)))
        (datum_of v, skipped_at_seen skipped.new.items) units.old units.new) }
    ensures stop { IfErr result (λ why.
        HaltsAt R.rules (Loose (loose_by R.rules R.loose) (shape_of ty.now)) units.old why) }
{
    match ty {
        AsnType::Seq { root, ext } => {
            let root = root.as_slice();
            let Some(additions) = ext else {
                return read_closed::<R>(alloc, root, skipped, units);
            };
            let additions = additions.as_slice();
            read_marked::<R>(alloc, ty, root, additions, skipped, units)
        }
        AsnType::SeqOf(element, size) => read_list::<R>(alloc, element, size, skipped, units),
        AsnType::Choice { root, ext } => {
            let root = root.as_slice();
            let Some(additions) = ext else {
                return read_closed_choice::<R>(alloc, root, skipped, units);
            };
            let additions = additions.as_slice();
            read_marked_choice::<R>(alloc, ty, root, additions, skipped, units)
        }
        AsnType::Enum { root, ext } => {
            let Some(additions) = ext else {
                R::keep_laws();
                return Ok(R::read_simple(alloc, ty, units)?);
            };
            read_any_item::<R>(alloc, ty, root.as_slice(), additions.as_slice(), units)
        }
        AsnType::Bool
        | AsnType::Null
        | AsnType::Int(_)
        | AsnType::Bits(_)
        | AsnType::Octets(_)
        | AsnType::Text(..)
        | AsnType::Utf8 => {
            R::keep_laws();
            Ok(R::read_simple(alloc, ty, units)?)
        }
    }
}

/// Reads a value of the part to which the step leads, and appends the fields that it skips.
#[cycle(newer)]
pub(crate) fn read_part<R: ReadVersions>(
    alloc: Global,
    ty: &AsnType,
    step: PathStep,
    skipped: &mut Vec<SkippedAt>,
    units: &mut BitCursor<'_>,
) -> Result<Value, Halt>
    requires at_unit { R.rules.at_unit units.old }
    requires of_profile { InProfile (shape_of ty.now) }
    ensures at_unit { OnOk result (R.rules.at_unit units.new) }
    ensures done { IfOk result (λ v. Reads R.rules (ReadingAfter (skipped_at_seen skipped.old.items)
        (Inside step (Loose (loose_by R.rules R.loose) (shape_of ty.now))))
        (datum_of v, skipped_at_seen skipped.new.items) units.old units.new) }
    ensures stop { IfErr result (λ why.
        HaltsAt R.rules (Inside step (Loose (loose_by R.rules R.loose) (shape_of ty.now))) units.old why) }
{
    let before = skipped.len();
    let value = read::<R>(alloc, ty, skipped, units)?;
    put_inside(before, step, skipped)?;
    Ok(value)
}

/// Reads a SEQUENCE without an extension mark.
#[cycle(newer)]
fn read_closed<R: ReadVersions>(
    alloc: Global,
    root: &[Field],
    skipped: &mut Vec<SkippedAt>,
    units: &mut BitCursor<'_>,
) -> Result<Value, Halt>
    requires at_unit { R.rules.at_unit units.old }
    requires of_profile { InProfile (sequence (fields_seen root.now) closed) }
    ensures at_unit { OnOk result (R.rules.at_unit units.new) }
    ensures done { IfOk result (λ v. Reads R.rules (ReadingAfter (skipped_at_seen skipped.old.items)
        (Loose (loose_by R.rules R.loose) (sequence (fields_seen root.now) closed)))
        (datum_of v, skipped_at_seen skipped.new.items) units.old units.new) }
    ensures stop { IfErr result (λ why.
        HaltsAt R.rules (Loose (loose_by R.rules R.loose) (sequence (fields_seen root.now) closed)) units.old why) }
{
    R::keep_walk_laws();
    let width = bitmap_width(root);
    let preamble = R::read_preamble(width, None, units)?;
    let mut entries = Vec::with_capacity(alloc, root.len())?;
    let presence = PresenceBits {
        bitmap: preamble.bitmap,
        left: width,
    };
    read_components::<R>(alloc, root, presence, &mut entries, skipped, units)?;
    Ok(Value::Seq(entries))
}

/// Reads the SEQUENCE `_ty`, which has an extension mark, this root and these additions.
#[cycle(newer)]
fn read_marked<R: ReadVersions>(
    alloc: Global,
    _ty: &AsnType,
    root: &[Field],
    additions: &[Field],
    skipped: &mut Vec<SkippedAt>,
    units: &mut BitCursor<'_>,
) -> Result<Value, Halt>
    requires at_unit { R.rules.at_unit units.old }
    requires of_profile { InProfile (sequence (fields_seen root.now) (marked (fields_seen additions.now))) }
    requires parts { IsMarkedSequence _ty.now root.now additions.now }
    ensures at_unit { OnOk result (R.rules.at_unit units.new) }
    ensures done { IfOk result (λ v. Reads R.rules (ReadingAfter (skipped_at_seen skipped.old.items)
        (Loose (loose_by R.rules R.loose) (sequence (fields_seen root.now) (marked (fields_seen additions.now)))))
        (datum_of v, skipped_at_seen skipped.new.items) units.old units.new) }
    ensures stop { IfErr result (λ why. HaltsAt R.rules
        (Loose (loose_by R.rules R.loose) (sequence (fields_seen root.now) (marked (fields_seen additions.now))))
        units.old why) }
{
    R::keep_walk_laws();
    let width = bitmap_width(root);
    let preamble = R::read_preamble(width, Some(MAX_ADDITIONS), units)?;
    let mut entries = Vec::with_capacity(alloc, root.len() + additions.len())?;
    let presence = PresenceBits {
        bitmap: preamble.bitmap,
        left: width,
    };
    read_components::<R>(alloc, root, presence, &mut entries, skipped, units)?;
    if preamble.extended {
        read_additions::<R>(alloc, additions, &mut entries, skipped, units)?;
    } else {
        push_absent(additions, &mut entries)?;
    }
    Ok(Value::Seq(entries))
}

/// Reads an open type field that holds a value of the part to which the step leads, and appends the fields that are
/// skipped in it.
#[cycle(newer)]
pub(crate) fn read_known<R: ReadVersions>(
    alloc: Global,
    ty: &AsnType,
    step: PathStep,
    skipped: &mut Vec<SkippedAt>,
    units: &mut BitCursor<'_>,
) -> Result<Value, Halt>
    requires at_unit { R.rules.at_unit units.old }
    requires of_profile { InProfile (shape_of ty.now) }
    ensures at_unit { OnOk result (R.rules.at_unit units.new) }
    ensures done { IfOk result (λ v. Reads R.rules (ReadingAfter (skipped_at_seen skipped.old.items)
        (Inside step (Known R.rules (Loose (loose_by R.rules R.loose) (shape_of ty.now)))))
        (datum_of v, skipped_at_seen skipped.new.items) units.old units.new) }
    ensures stop { IfErr result (λ why. HaltsAt R.rules
        (Inside step (Known R.rules (Loose (loose_by R.rules R.loose) (shape_of ty.now)))) units.old why) }
{
    R::keep_walk_laws();
    let octets = R::read_open_octets(alloc, units)?;
    let before = skipped.len();
    match read_content::<R>(alloc, ty, &octets, skipped) {
        Ok(value) => {
            put_inside(before, step, skipped)?;
            Ok(value)
        }
        Err(halt) => Err(halt_of_field(halt)),
    }
}

/// Reads octets that are the complete encoding of a value of the type.
#[cycle(newer)]
pub(crate) fn read_content<R: ReadVersions>(
    alloc: Global,
    ty: &AsnType,
    octets: &[u8],
    skipped: &mut Vec<SkippedAt>,
) -> Result<Value, Halt>
    requires of_profile { InProfile (shape_of ty.now) }
    requires octets { AreOctets octets.now }
    requires few { length octets.now ≤ max_octets }
    ensures done { IfOk result (λ v. ReadsContent (loose_by R.rules R.loose) (shape_of ty.now)
        (skipped_at_seen skipped.old.items) (datum_of v) (skipped_at_seen skipped.new.items) octets.now) }
    ensures stop { IfErr result (HaltsContent (loose_by R.rules R.loose) (shape_of ty.now) octets.now) }
{
    R::keep_walk_laws();
    let mut units = BitCursor::over(octets);
    let given = R::units_left(&units);
    let value = read::<R>(alloc, ty, skipped, &mut units)?;
    R::read_padding(given, &mut units)?;
    if R::units_left(&units) > 0 {
        return Err(Halt::Refused);
    }
    Ok(value)
}

/// Reads a SEQUENCE OF.
#[cycle(newer)]
fn read_list<R: ReadVersions>(
    alloc: Global,
    element: &AsnType,
    size: &Size,
    skipped: &mut Vec<SkippedAt>,
    units: &mut BitCursor<'_>,
) -> Result<Value, Halt>
    requires at_unit { R.rules.at_unit units.old }
    requires of_profile { InProfile (sequence_of (shape_of element.now) (size_range_of size.now)) }
    ensures at_unit { OnOk result (R.rules.at_unit units.new) }
    ensures done { IfOk result (λ v. Reads R.rules (ReadingAfter (skipped_at_seen skipped.old.items)
        (Loose (loose_by R.rules R.loose) (sequence_of (shape_of element.now) (size_range_of size.now))))
        (datum_of v, skipped_at_seen skipped.new.items) units.old units.new) }
    ensures stop { IfErr result (λ why. HaltsAt R.rules
        (Loose (loose_by R.rules R.loose) (sequence_of (shape_of element.now) (size_range_of size.now)))
        units.old why) }
{
    R::keep_walk_laws();
    let mut elements = Vec::new(alloc);
    let fragments = R::start_list(size, units)?;
    read_fragments::<R>(alloc, element, fragments, &mut elements, skipped, units)?;
    Ok(Value::List(elements))
}

/// Reads the fragments of a list that are still to be read, and appends their elements.
#[inline(always)]
#[cycle(newer)]
fn read_fragments<R: ReadVersions>(
    alloc: Global,
    element: &AsnType,
    fragments: R::Fragments,
    elements: &mut Vec<Value>,
    skipped: &mut Vec<SkippedAt>,
    units: &mut BitCursor<'_>,
) -> Result<(), Halt>
    requires at_unit { R.rules.at_unit units.old }
    requires of_profile { InProfile (shape_of element.now) }
    requires between { R.is_between fragments }
    ensures at_unit { OnOk result (R.rules.at_unit units.new) }
    ensures done { OnOk result (Reads R.rules
        (ItemsAfter (map datum_of elements.old.items) (skipped_at_seen skipped.old.items)
        (Remaining (Loose (loose_by R.rules R.loose) (shape_of element.now)) (R.ahead fragments)))
        (map datum_of elements.new.items, skipped_at_seen skipped.new.items) units.old units.new) }
    ensures stop { IfErr result (λ why. HaltsAt R.rules
        (Remaining (Loose (loose_by R.rules R.loose) (shape_of element.now)) (R.ahead fragments)) units.old why) }
{
    R::keep_walk_laws();
    let mut fragments = fragments;
    while let Some(count) = R::next_fragment(&mut fragments, units)? {
        elements.reserve(count.min(units.octets_left()).min(RESERVED_AT_ONCE))?;
        read_elements::<R>(alloc, element, count, elements, skipped, units)?;
    }
    Ok(())
}

/// Reads `count` elements, one after the other, and appends them.
#[inline(always)]
#[cycle(newer)]
fn read_elements<R: ReadVersions>(
    alloc: Global,
    element: &AsnType,
    count: usize,
    elements: &mut Vec<Value>,
    skipped: &mut Vec<SkippedAt>,
    units: &mut BitCursor<'_>,
) -> Result<(), Halt>
    requires at_unit { R.rules.at_unit units.old }
    requires of_profile { InProfile (shape_of element.now) }
    ensures at_unit { OnOk result (R.rules.at_unit units.new) }
    ensures done { OnOk result (Reads R.rules
        (ItemsAfter (map datum_of elements.old.items) (skipped_at_seen skipped.old.items)
        (Row (Loose (loose_by R.rules R.loose) (shape_of element.now)) count))
        (map datum_of elements.new.items, skipped_at_seen skipped.new.items) units.old units.new) }
    ensures stop { IfErr result (λ why. HaltsAt R.rules
        (Row (Loose (loose_by R.rules R.loose) (shape_of element.now)) count) units.old why) }
{
    R::keep_walk_laws();
    for i in 0..count {
        let step = PathStep::Element(elements.len());
        let value = read_part::<R>(alloc, element, step, skipped, units)?;
        elements.push(value)?;
    }
    Ok(())
}
