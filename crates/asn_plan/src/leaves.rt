//! What the rules read by themselves, for one node of a plan.
ghost use Rattle.std.specs.Prelude.{◌≡◌, ◌*◌, ◌+◌, ◌≤◌, ◌<◌, ◌^◌, ◌≤ℤ◌, ◌<ℤ◌, pos, Some, IfSome, IsNone, IsSome, false, ◌-◌, ◌/◌};
ghost use Rattle.asn_bits.specs.Numbers.{magnitude};
ghost use Rattle.asn_plan.specs.FixedSizes.{fixed_size};
ghost use Rattle.asn_values.specs.Fits.{lowest_integer, highest_integer};
ghost use Rattle.asn_values.specs.Datum.{truth, item};
ghost use Rattle.asn_values.specs.Profile.{InProfile};
ghost use Rattle.asn_values.specs.Shape.{Shape, boolean, integer};
ghost use Rattle.asn_values.specs.View.{shape_of, range_of};
ghost use Rattle.asn_plan.specs.FixedStrings.{IsFixedString, IsStringOf};
ghost use Rattle.asn_plan.specs.Ranged.{ranged, held_in, IsRanged};
ghost use Rattle.asn_walk.specs.Laws.{IsSimple};
ghost use Rattle.asn_walk.specs.Reading.{Reads, ReadsOther, ReadsValue, ValuesOf};
ghost use Rattle.asn_plan.specs.Enumerations.{IsEnumeration};
ghost use Rattle.asn_plan.specs.declared.plan.Kind.TheVariants as kind;
ghost use Rattle.asn_plan.specs.Plans.{Builds, IsLeafPlan};

use crate::build::Build;
use crate::enumeration::Enumeration;
use crate::fixed::FixedString;
use crate::fixed_sizes::fixed_size;
use crate::plan::{Between, Leaf, WithDefault};
use crate::ranged::Ranged;
use crate::rules::PlanLeaves;
use crate::word::Run;
use asn_bits::BitCursor;
use asn_bits::internal::{wide_offset_from, width};
use asn_rules::internal::greatest_of_width;
use asn_values::{AsnType, Bounds, Value};
use asn_walk::ReadLeaves;
use std::alloc::Global;

/// What is built of a value of the type with which the units begin, and which is taken. `None` where they begin with
/// none, where they are too few or memory is wanting.
#[inline(always)]
pub(crate) fn build_leaf<R: PlanLeaves, B: Build>(
    alloc: Global,
    leaf: &Leaf,
    units: &mut BitCursor<'_>,
    room: &mut B::Room,
) -> Option<B::Part>
    requires at_unit { R.rules.at_unit units.old }
    ensures at_unit { IsSome result → R.rules.at_unit units.new }
    ensures some { IfSome result (λ p. (t : Shape) → InProfile t → IsLeafPlan (kind.Leaf leaf.now) t
        → Builds R.rules (B.built room.old room.new) t p units.old units.new) }
{
    R::keep_nothing();
    if B::takes_counts(room)
        && let AsnType::Null = &leaf.ty
    {
        let null = B::counted(room, 1)?;
        return Some(null);
    }
    if B::takes_strings()
        && let Some(fixed) = &leaf.fixed
        && let Some(number) = try_string::<R>(fixed, units)
    {
        let part = B::string(room, fixed, number)?;
        return Some(part);
    }
    build_made::<R, B>(alloc, leaf, units, room)
}

/// What is built of a value of the type with which the units begin, and which is taken, once it is made. `None` where
/// they begin with none, where they are too few or memory is wanting.
#[inline(never)]
fn build_made<R: ReadLeaves, B: Build>(
    alloc: Global,
    leaf: &Leaf,
    units: &mut BitCursor<'_>,
    room: &mut B::Room,
) -> Option<B::Part>
    requires at_unit { R.rules.at_unit units.old }
    ensures at_unit { IsSome result → R.rules.at_unit units.new }
    ensures some { IfSome result (λ p.
        Builds R.rules (B.built room.old room.new) (shape_of leaf.now.ty) p units.old units.new) }
{
    if let Some(spare) = B::spare(room) {
        let value = read_over::<R>(alloc, leaf, units, spare)?;
        let part = B::value(room, value)?;
        return Some(part);
    }
    if let Some(value) = R::try_simple(alloc, &leaf.ty, units) {
        let part = B::value(room, value)?;
        return Some(part);
    }
    let Ok(value) = R::read_simple(alloc, &leaf.ty, units) else {
        return None;
    };
    let part = B::value(room, value)?;
    Some(part)
}

/// Reads a value of the type, in the memory of another. `None` where the units begin with none, where they are too few or
/// memory is wanting.
#[inline(always)]
fn read_over<R: ReadLeaves>(
    alloc: Global,
    leaf: &Leaf,
    units: &mut BitCursor<'_>,
    spare: Value,
) -> Option<Value>
    requires at_unit { R.rules.at_unit units.old }
    ensures at_unit { IsSome result → R.rules.at_unit units.new }
    ensures some { IfSome result (λ v. ReadsValue R.rules leaf.now.ty v units.old units.new) }
{
    let mut value = spare;
    if R::try_simple_into(&leaf.ty, units, &mut value) {
        return Some(value);
    }
    let Ok(()) = R::read_simple_into(alloc, &leaf.ty, units, &mut value) else {
        return None;
    };
    Some(value)
}

/// What is built of a value of a type that the rules read by themselves, with which the units begin, and which is taken.
/// `None` where they begin with none, where they are too few or memory is wanting.
#[inline(never)]
pub(crate) fn build_other<R: ReadLeaves, B: Build>(
    alloc: Global,
    ty: &AsnType,
    units: &mut BitCursor<'_>,
    room: &mut B::Room,
) -> Option<B::Part>
    requires at_unit { R.rules.at_unit units.old }
    requires of_profile { InProfile (shape_of ty.now) }
    requires simple { IsSimple (shape_of ty.now) }
    ensures at_unit { IsSome result → R.rules.at_unit units.new }
    ensures some { IfSome result (λ p.
        Builds R.rules (B.built room.old room.new) (shape_of ty.now) p units.old units.new) }
{
    if let Some(value) = R::try_simple(alloc, ty, units) {
        let part = B::value(room, value)?;
        return Some(part);
    }
    let Ok(value) = R::read_simple(alloc, ty, units) else {
        return None;
    };
    let part = B::value(room, value)?;
    Some(part)
}

/// Reads a BOOLEAN, where it is at hand; otherwise takes nothing.
#[inline(always)]
pub(crate) fn try_truth<R: PlanLeaves>(units: &mut BitCursor<'_>) -> Option<bool>
    requires at_unit { R.rules.at_unit units.old }
    ensures at_unit { R.rules.at_unit units.new }
    ensures some { IfSome result (λ b.
        Reads R.rules (ValuesOf R.rules boolean) (truth b) units.old units.new) }
    ensures none { IsNone result → units.new ≡ units.old }
{
    let start = units.copied();
    let mut word = R::take_word(Run { bits: 1, octets: 1 }, units);
    if let Some(is_true) = R::next_truth(&mut word)
        && word.is_empty()
    {
        return Some(is_true);
    }
    *units = start;
    None
}

/// Reads an ENUMERATED of the type and gives the position of the item, where it is at hand and one of the root;
/// otherwise takes nothing.
#[inline(always)]
pub(crate) fn try_item<R: PlanLeaves>(items: &Enumeration, units: &mut BitCursor<'_>) -> Option<u32>
    requires at_unit { R.rules.at_unit units.old }
    requires items { IsEnumeration items.now }
    ensures at_unit { R.rules.at_unit units.new }
    ensures some { IfSome result (λ p.
        Reads R.rules (ValuesOf R.rules (shape_of items.now.ty)) (item p) units.old units.new) }
    ensures none { IsNone result → units.new ≡ units.old }
{
    let start = units.copied();
    let run = Run {
        bits: items.bits,
        octets: items.octets,
    };
    let mut word = R::take_word(run, units);
    if let Some(position) = R::next_item(items, &mut word)
        && word.is_empty()
    {
        return Some(position);
    }
    *units = start;
    R::try_item(items, units)
}

/// Reads a string of one length and returns the number in its bits. `None`, with the cursor where it was, if its units
/// have not all come or its length lies outside the extension root.
#[inline(always)]
fn try_string<R: PlanLeaves>(fixed: &FixedString, units: &mut BitCursor<'_>) -> Option<u64>
    requires at_unit { R.rules.at_unit units.old }
    ensures at_unit { R.rules.at_unit units.new }
    ensures some { IfSome result (λ n. (t : Shape) → InProfile t → IsFixedString fixed.now t
        → Builds R.rules (λ n d. IsStringOf fixed.now n d) t n units.old units.new) }
    ensures none { IsNone result → units.new ≡ units.old }
{
    let start = units.copied();
    let run = Run {
        bits: fixed.bits,
        octets: fixed.octets,
    };
    let mut word = R::take_word(run, units);
    if let Some(number) = R::next_string(fixed, &mut word)
        && word.is_empty()
    {
        return Some(number);
    }
    *units = start;
    None
}

/// The INTEGER of these bounds, if there are two, and the offsets between them have at most 64 bits with the extension
/// bit.
pub(crate) fn between_of(bounds: &Bounds) -> Option<Between>
    requires of_profile { InProfile (integer (range_of bounds.now)) }
    ensures { IfSome result (λ b. ranged b.range ≡ integer (range_of bounds.now)) }
{
    let low = bounds.low?;
    let high = bounds.high?;
    let highest = wide_offset_from(low, high);
    let bits = u32::from(bounds.ext) + width(highest + 1);
    if bits > 64 {
        return None;
    }
    let in_octets = octets_between(bounds.ext, low, high);
    let range = Ranged {
        low,
        high,
        marked: bounds.ext,
        highest: highest as u64,
        bits,
        mask: greatest_of_width(bits),
        octets: in_octets.count,
        octet_mask: in_octets.mask,
        least: in_octets.least,
    };
    Some(Between { range })
}

/// The octets by which OER tells a number between two bounds.
#[derive(Clone, Copy)]
struct InOctets {
    /// How many they are, where it is one count for all numbers; else 0.
    count: u32,
    /// The highest number of this many octets.
    mask: u64,
    /// What they hold of the low bound.
    least: u64,
}

/// The octets by which OER tells a number between these bounds; no octets, where it is not one count for all of them.
fn octets_between(marked: bool, low: i128, high: i128) -> InOctets
    requires order { low ≤ℤ high }
    requires low { lowest_integer ≤ℤ low }
    requires high { high ≤ℤ highest_integer }
    ensures { 0 < result.count → (marked ≡ false) × (fixed_size low high ≡ Some result.count)
        × (result.mask + 1 ≡ 2 ^ (8 * result.count)) × (result.least ≡ held_in result.count low) }
{
    let none = InOctets {
        count: 0,
        mask: 0,
        least: 0,
    };
    if marked {
        return none;
    }
    match fixed_size(low, high) {
        Some(count) => InOctets {
            count,
            mask: greatest_of_width(8 * count),
            least: held_in(count, low),
        },
        None => none,
    }
}

/// What octets hold of an integer, which has room in them.
fn held_in(octets: u32, integer: i128) -> u64
    requires low { lowest_integer ≤ℤ integer }
    requires high { integer ≤ℤ highest_integer }
    requires some { integer <ℤ pos 0 → 1 ≤ octets }
    requires few { octets ≤ 8 }
    requires room { magnitude integer < 256 ^ octets }
    ensures { result ≡ held_in octets integer }
{
    if integer >= 0 {
        return integer as u64;
    }
    (u64::MAX >> (64 - 8 * octets)) - (-1 - integer) as u64
}

/// The type of these bounds.
fn type_of(range: &Ranged) -> AsnType
    ensures { shape_of result ≡ ranged range.now }
{
    AsnType::Int(Bounds {
        low: Some(range.low),
        high: Some(range.high),
        ext: range.marked,
    })
}

/// What is built of a number of the range with which the units begin, or of one outside its bounds, where there is a mark.
/// It is taken. `None` where they begin with none, where they are too few or memory is wanting.
#[inline(never)]
pub(crate) fn build_ranged<R: ReadLeaves, B: Build>(
    alloc: Global,
    range: &Ranged,
    units: &mut BitCursor<'_>,
    room: &mut B::Room,
) -> Option<B::Part>
    requires at_unit { R.rules.at_unit units.old }
    requires ranged { IsRanged range.now }
    ensures at_unit { IsSome result → R.rules.at_unit units.new }
    ensures some { IfSome result (λ p.
        Builds R.rules (B.built room.old room.new) (ranged range.now) p units.old units.new) }
{
    let ty = type_of(range);
    build_other::<R, B>(alloc, &ty, units, room)
}

/// Reads a value of the type of a component that is present though it has this DEFAULT, which is then another value.
/// `None` where the units begin with none, or are too few.
#[inline(always)]
pub(crate) fn read_other<R: ReadLeaves>(
    with_default: &WithDefault,
    units: &mut BitCursor<'_>,
) -> Option<Value>
    requires at_unit { R.rules.at_unit units.old }
    ensures at_unit { IsSome result → R.rules.at_unit units.new }
    ensures some { IfSome result (λ v.
        ReadsOther R.rules with_default.now.ty with_default.now.default v units.old units.new) }
{
    let Ok(value) = R::read_other(&with_default.ty, &with_default.default, units) else {
        return None;
    };
    Some(value)
}
