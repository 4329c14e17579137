//! INTEGER and BOOLEAN (X.691). A reader may exclude one value: a component's DEFAULT, which an encoder leaves out.
ghost use Rattle.std.specs.Prelude.{◌≡◌, ◌≤◌, ◌<◌, ◌^◌, ◌≤ℤ◌, ◌++◌, OnOk, IfSome, IsNone, IsTrue, ℕ, suc, Some, None, true, false};
ghost use Rattle.std.specs.Option.{option_map};
ghost use Rattle.asn_values.specs.Fits.{FitsNumber, lowest_integer, highest_integer};
ghost use Rattle.asn_values.specs.Shape.{integer};
ghost use Rattle.asn_values.specs.Datum.{number, truth};
ghost use Rattle.asn_values.specs.Profile.{InProfile};
ghost use Rattle.asn_values.specs.View.{range_of};
ghost use Rattle.asn_bits.specs.Numbers.{above};
ghost use Rattle.asn_bits.specs.Sink.{bit_of};
ghost use Rattle.asn_rules.specs.Languages.{Spells, Inhabited};
ghost use Rattle.asn_rules.specs.OffsetSets.{IsOpen, HasOffset};
ghost use Rattle.asn_rules.specs.IntegerSets.{IsWithin, unmarked, AreOffsets};
ghost use Rattle.asn_walk.specs.Writing.{TellsWhether};
ghost use Rattle.asn_walk.specs.Integers.{IsOfProfile};
ghost use Rattle.asn_per.specs.Kinds.{between, IsNotBetween, IsOutside};
ghost use Rattle.asn_per.specs.Laws.{per_bits};
ghost use Rattle.asn_per.specs.Per.{per_fields, constrained};
ghost use Rattle.asn_rules.specs.Components.{extension_bit};
ghost use Rattle.asn_per.specs.Reading.{Reads, StopsIn, IntegersBut, IntegersBetween, BooleansBut, IntegersOutside};

use crate::indexes::read_extension_bit;
use crate::sizes::write_extension_bit;
use asn_bits::BitCursor;
use asn_bits::internal::{at_offset, at_wide_offset, wide_offset_from, width, width_up_to};
use asn_rules::internal::{
    NumberSet, OffsetSet, Stop, narrow, offsets_of, read_constrained, read_wide_constrained,
    read_wide_semi_constrained, read_wide_unconstrained, try_number, write_wide_least,
    write_wide_number,
};
use asn_rules::{Unwritten, Why};
use asn_sinks::Sink;
use asn_values::Bounds;
use asn_values::internal::{is_between, number_fits};
use asn_values::profile::{HIGHEST_INTEGER, INTEGER_COUNT, LOWEST_INTEGER};

/// One more than the highest number of 64 bits. The offset of an integer from a low bound may be wide: above them.
const WORD: u128 = 1 << 64;

/// One more than the highest number of 63 bits.
const HALF_WORD: u128 = 1 << 63;

/// Writes a number, where it is one of the range (X.691, "encoding the integer type").
#[inline(always)]
pub(crate) fn write_integer<S: Sink>(
    bounds: &Bounds,
    value: i128,
    sink: &mut S,
) -> Result<(), Unwritten<S::Fault>>
    requires of_profile { InProfile (integer (range_of bounds.now)) }
    ensures of_type { TellsWhether result (FitsNumber (range_of bounds.now) value) }
    ensures written { OnOk result (S.pushes sink.old sink.new
        (per_bits (integer (range_of bounds.now)) (number value))) }
{
    if let (Some(low), Some(high)) = (bounds.low, bounds.high) {
        let highest = wide_offset_from(low, high);
        let offset = offset_or_more(low, value);
        if is_near(highest, offset) {
            write_near(highest as u64, bounds.ext, offset as u64, sink)?;
            return Ok(());
        }
    }
    write_far(bounds, value, sink)
}

/// How far `n` lies above `low`, and more than any two integers of the profile lie apart where it lies below it.
#[inline(always)]
fn offset_or_more(low: i128, n: i128) -> u128
    requires within_low { lowest_integer ≤ℤ low }
    requires within_high { low ≤ℤ highest_integer }
    ensures above { low ≤ℤ n → result ≡ above low n }
    ensures below { result < 2 ^ 65 → low ≤ℤ n }
{
    n.wrapping_sub(low).cast_unsigned()
}

/// Whether there are 2 ^ 63 numbers at most from 0 to `highest`, and `offset` is one of them.
#[inline(always)]
fn is_near(highest: u128, offset: u128) -> bool
    requires { highest < 2 ^ 65 }
    ensures { IsTrue result → (highest < 2 ^ 63) × (offset ≤ highest) }
{
    // what both have above is zero, in one test
    let above = ((highest / HALF_WORD) as u64).max((offset / WORD) as u64);
    above == 0 && offset as u64 <= highest as u64
}

/// Writes a number from 0 to `highest` as a constrained whole number, after an extension bit 0 where there is one.
#[inline(always)]
fn write_near<S: Sink>(highest: u64, ext: bool, offset: u64, sink: &mut S) -> Result<(), S::Fault>
    requires few { highest < 2 ^ 63 }
    requires inside { offset ≤ highest }
    ensures { OnOk result (S.pushes sink.old sink.new
        (extension_bit ext false ++ constrained (suc highest) offset)) }
{
    // of twice as many numbers, of which there are two at least: so no test asks whether there is one alone
    let count = width_up_to(2 * highest + 1) - 1;
    let mark_bits = u32::from(ext);
    sink.push_number(mark_bits + count, offset)
}

/// Writes a number, where it is one of the range, whether it lies between two bounds or not.
#[cold]
#[inline(never)]
fn write_far<S: Sink>(bounds: &Bounds, value: i128, sink: &mut S) -> Result<(), Unwritten<S::Fault>>
    requires of_profile { InProfile (integer (range_of bounds.now)) }
    ensures of_type { TellsWhether result (FitsNumber (range_of bounds.now) value) }
    ensures written { OnOk result (S.pushes sink.old sink.new
        (per_bits (integer (range_of bounds.now)) (number value))) }
{
    if let (Some(low), Some(high)) = (bounds.low, bounds.high)
        && low <= value
        && value <= high
    {
        write_wide_between(low, high, bounds.ext, value, sink)?;
        return Ok(());
    }
    write_unbounded(bounds, value, sink)
}

/// Writes a number between two bounds as a constrained whole number, after an extension bit 0 where there is one. It may
/// have more than 64 bits.
fn write_wide_between<S: Sink>(
    low: i128,
    high: i128,
    ext: bool,
    value: i128,
    sink: &mut S,
) -> Result<(), S::Fault>
    requires of_profile { InProfile (integer (between low high ext)) }
    requires of_type { (low ≤ℤ value) × (value ≤ℤ high) }
    ensures { OnOk result (S.pushes sink.old sink.new
        (per_bits (integer (between low high ext)) (number value))) }
{
    write_extension_bit(ext, false, sink)?;
    let count = width(wide_offset_from(low, high) + 1);
    write_wide_number(count, wide_offset_from(low, value), sink)
}

/// Writes a number that does not lie between two bounds, where it is one of the range: after the extension bit, from
/// a low bound on as a semi-constrained whole number, and else as an unconstrained one.
#[inline(never)]
fn write_unbounded<S: Sink>(
    bounds: &Bounds,
    value: i128,
    sink: &mut S,
) -> Result<(), Unwritten<S::Fault>>
    requires of_profile { InProfile (integer (range_of bounds.now)) }
    requires open { IsNotBetween (range_of bounds.now) value }
    ensures of_type { TellsWhether result (FitsNumber (range_of bounds.now) value) }
    ensures written { OnOk result (S.pushes sink.old sink.new
        (per_bits (integer (range_of bounds.now)) (number value))) }
{
    if !number_fits(bounds, value) {
        return Err(Unwritten::NotOfType);
    }
    let inside = is_between(bounds, value);
    write_extension_bit(bounds.ext, !inside, sink)?;
    match bounds.low {
        Some(low) if inside => Ok(write_wide_least(wide_offset_from(low, value), sink)?),
        _ => Ok(sink.push_least_signed_octets(value)?),
    }
}

/// Reads an integer of the range (X.691, "encoding the integer type"), but for `excluded`. With an extension mark the
/// extension bit tells whether it lies outside the bounds.
#[inline(always)]
pub(crate) fn read_integer(
    bounds: &Bounds,
    excluded: Option<i128>,
    bits: &mut BitCursor<'_>,
) -> Result<i128, Stop>
    requires of_profile { InProfile (integer (range_of bounds.now)) }
    requires within { IsWithin (range_of bounds.now) excluded }
    requires some { Inhabited (IntegersBut excluded (range_of bounds.now)) }
    ensures done { Reads result number (IntegersBut excluded (range_of bounds.now)) bits.old bits.new }
    ensures stop { StopsIn result (IntegersBut excluded (range_of bounds.now)) bits.old }
{
    if !bounds.ext {
        return read_ranged(bounds.low, bounds.high, excluded, bits);
    }
    let outside = read_extension_bit(true, bits)?;
    if outside {
        read_outside(bounds, bits)
    } else {
        read_ranged(bounds.low, bounds.high, None, bits)
    }
}

/// Reads an integer between the bounds, but for `excluded`.
#[inline(always)]
fn read_ranged(
    low: Option<i128>,
    high: Option<i128>,
    excluded: Option<i128>,
    bits: &mut BitCursor<'_>,
) -> Result<i128, Stop>
    requires of_profile { InProfile (integer (unmarked low high)) }
    requires within { IsWithin (unmarked low high) excluded }
    requires some { Inhabited (IntegersBut excluded (unmarked low high)) }
    ensures done { Reads result number (IntegersBut excluded (unmarked low high)) bits.old bits.new }
    ensures stop { StopsIn result (IntegersBut excluded (unmarked low high)) bits.old }
{
    if let (Some(low), Some(high)) = (low, high) {
        let highest = wide_offset_from(low, high);
        if highest < WORD {
            let left_out = narrow(excluded_offset(low, Some(high), excluded));
            let offset = read_constrained(highest as u64, left_out, bits)?;
            return Ok(at_offset(low, offset));
        }
    }
    read_far(low, high, excluded, bits)
}

/// Reads an integer between the bounds, but for `excluded`, whether there are two bounds or not.
#[cold]
#[inline(never)]
fn read_far(
    low: Option<i128>,
    high: Option<i128>,
    excluded: Option<i128>,
    bits: &mut BitCursor<'_>,
) -> Result<i128, Stop>
    requires of_profile { InProfile (integer (unmarked low high)) }
    requires within { IsWithin (unmarked low high) excluded }
    requires some { Inhabited (IntegersBut excluded (unmarked low high)) }
    ensures done { Reads result number (IntegersBut excluded (unmarked low high)) bits.old bits.new }
    ensures stop { StopsIn result (IntegersBut excluded (unmarked low high)) bits.old }
{
    match (low, high) {
        (Some(low), Some(high)) => read_wide_between(low, high, excluded, bits),
        (Some(low), None) => read_from(low, excluded, bits),
        (None, _) => read_up_to_high(high, excluded, bits),
    }
}

/// Reads an integer between two bounds, but for `excluded`. How far it lies above the low one may have more than 64 bits.
fn read_wide_between(
    low: i128,
    high: i128,
    excluded: Option<i128>,
    bits: &mut BitCursor<'_>,
) -> Result<i128, Stop>
    requires of_profile { InProfile (integer (unmarked (Some low) (Some high))) }
    requires within { IsWithin (unmarked (Some low) (Some high)) excluded }
    requires some { Inhabited (IntegersBut excluded (unmarked (Some low) (Some high))) }
    ensures done { Reads result number (IntegersBut excluded (unmarked (Some low) (Some high))) bits.old bits.new }
    ensures stop { StopsIn result (IntegersBut excluded (unmarked (Some low) (Some high))) bits.old }
{
    let left_out = excluded_offset(low, Some(high), excluded);
    let offset = read_wide_constrained(wide_offset_from(low, high), left_out, bits)?;
    Ok(at_wide_offset(low, offset))
}

/// Reads an integer from the low bound on, but for `excluded`, where there is no high bound.
fn read_from(low: i128, excluded: Option<i128>, bits: &mut BitCursor<'_>) -> Result<i128, Stop>
    requires of_profile { InProfile (integer (unmarked (Some low) None)) }
    requires within { IsWithin (unmarked (Some low) None) excluded }
    requires some { Inhabited (IntegersBut excluded (unmarked (Some low) None)) }
    ensures done { Reads result number (IntegersBut excluded (unmarked (Some low) None)) bits.old bits.new }
    ensures stop { StopsIn result (IntegersBut excluded (unmarked (Some low) None)) bits.old }
{
    let left_out = excluded_offset(low, None, excluded);
    let highest = wide_offset_from(low, HIGHEST_INTEGER);
    let offset = read_wide_semi_constrained(highest, left_out, bits)?;
    Ok(at_wide_offset(low, offset))
}

/// Fast path: an integer between these bounds, if its bits are present, 64 at most, and in range; otherwise consumes
/// nothing.
#[inline(always)]
pub(crate) fn try_constrained(low: i128, high: i128, bits: &mut BitCursor<'_>) -> Option<i128>
    requires of_profile { InProfile (integer (unmarked (Some low) (Some high))) }
    ensures some { IfSome result (λ z. Spells per_fields (IntegersBetween low high) (number z) bits.old bits.new) }
    ensures of_integers { IfSome result IsOfProfile }
    ensures none { IsNone result → bits.new ≡ bits.old }
{
    let highest = wide_offset_from(low, high);
    if highest >= WORD {
        return None;
    }
    let highest = highest as u64;
    let set = NumberSet {
        low: 0,
        high: highest,
        excluded: None,
    };
    let offset = try_number(width_up_to(highest), set, bits)?;
    Some(at_offset(low, offset))
}

/// The offset of the excluded integer from the low bound.
fn excluded_offset(low: i128, high: Option<i128>, excluded: Option<i128>) -> Option<u128>
    requires of_profile { InProfile (integer (unmarked (Some low) high)) }
    requires within { IsWithin (unmarked (Some low) high) excluded }
    ensures { result ≡ option_map (λ z. above low z) excluded }
{
    match excluded {
        Some(integer) => Some(wide_offset_from(low, integer)),
        None => None,
    }
}

/// Reads an integer up to the high bound, if there is one, but for `excluded`.
fn read_up_to_high(
    high: Option<i128>,
    excluded: Option<i128>,
    bits: &mut BitCursor<'_>,
) -> Result<i128, Stop>
    requires of_profile { InProfile (integer (unmarked None high)) }
    requires within { IsWithin (unmarked None high) excluded }
    requires some { Inhabited (IntegersBut excluded (unmarked None high)) }
    ensures done { Reads result number (IntegersBut excluded (unmarked None high)) bits.old bits.new }
    ensures stop { StopsIn result (IntegersBut excluded (unmarked None high)) bits.old }
{
    let set = offsets_of(None, high, excluded);
    let left_out = excluded.is_some();
    let offset = read_wide_unconstrained(
        set,
        Why::in_count(left_out),
        Why::in_number(left_out),
        bits,
    )?;
    Ok(at_wide_offset(LOWEST_INTEGER, offset))
}

/// Reads an integer outside the bounds.
fn read_outside(bounds: &Bounds, bits: &mut BitCursor<'_>) -> Result<i128, Stop>
    requires of_profile { InProfile (integer (range_of bounds.now)) }
    requires mark { bounds.now.ext ≡ true }
    ensures done { Reads result number (IntegersOutside (range_of bounds.now)) bits.old bits.new }
    ensures stop { StopsIn result (IntegersOutside (range_of bounds.now)) bits.old }
{
    let offset = read_wide_unconstrained(offsets_outside(bounds), Why::Length, Why::Number, bits)?;
    Ok(at_wide_offset(LOWEST_INTEGER, offset))
}

/// The offsets of the integers outside the bounds.
fn offsets_outside(bounds: &Bounds) -> OffsetSet
    requires of_profile { InProfile (integer (range_of bounds.now)) }
    requires mark { bounds.now.ext ≡ true }
    ensures same { AreOffsets result (λ y. IsOutside (range_of bounds.now) y) }
    ensures gap { IsOpen result }
    ensures some { (w : ℕ) × HasOffset result w }
{
    let low = bounds.low.unwrap_or(LOWEST_INTEGER);
    let high = bounds.high.unwrap_or(HIGHEST_INTEGER);
    OffsetSet {
        start: 0,
        below: wide_offset_from(LOWEST_INTEGER, low),
        from: wide_offset_from(LOWEST_INTEGER, high) + 1,
        end: INTEGER_COUNT,
    }
}

/// Reads a truth value, but for `excluded` (X.691, "encoding the boolean type").
#[inline(always)]
pub(crate) fn read_boolean(excluded: Option<bool>, bits: &mut BitCursor<'_>) -> Result<bool, Stop>
    ensures done { Reads result truth (BooleansBut excluded) bits.old bits.new }
    ensures stop { StopsIn result (BooleansBut excluded) bits.old }
{
    let left_out = match excluded {
        Some(truth) => Some(u64::from(truth)),
        None => None,
    };
    Ok(read_constrained(1, left_out, bits)? == 1)
}
