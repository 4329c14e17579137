//! INTEGER (X.696, "encoding of integer types"). A reader may leave one integer out, the excluded one: the DEFAULT of a
//! component, which an encoder does not spell.
ghost use Rattle.std.specs.Prelude.{◌≡◌, ◌≤ℤ◌, ◌<ℤ◌, ◌+ℤ◌, ◌^◌, pos, Some, None, OnOk, IfSome, IsNone};
ghost use Rattle.asn_oer.specs.Words.{lowest_integer, highest_integer, FitsNumber, number, integer, InProfile, range_of, Inhabited, AtOctet, IsWithin, unmarked, between, IsOfProfile, TellsWhether, unsigned_octets, signed_size, signed_size_of, oer_octets, ranged, unpacked, IntegersBut, IsBelowZero, IsCounted, ValuesOf, Reads, ReadsSome, StopsIn};

use asn_bits::BitCursor;
use asn_bits::internal::{at_offset, at_wide_offset};
use asn_plan::internal::{SIGNED_END, signed_size, unsigned_size};
use asn_rules::internal::{
    Stop, numbers_of, offsets_of, read_counted, read_octets, read_signed_octets,
    read_wide_counted_signed, try_octets, try_signed_octets, write_fixed, write_least,
    write_least_signed,
};
use asn_rules::{Unwritten, Why};
use asn_sinks::Sink;
use asn_values::Bounds;
use asn_values::internal::number_fits;
use asn_values::profile::LOWEST_INTEGER;

/// How many octets of two's complement hold the numbers between two bounds, where it is a fixed number; none where one
/// of the bounds is missing.
fn size_between(low: Option<i128>, high: Option<i128>) -> Option<u32>
    requires of_profile { InProfile (integer (unmarked low high)) }
    ensures { result ≡ signed_size_of low high }
{
    match (low, high) {
        (Some(low), Some(high)) => signed_size(low, high),
        _ => None,
    }
}

/// Reads an integer of the range, but for the excluded one. A range with an extension mark counts as none.
///
/// # Errors
/// `Short` if the octets end before the integer does. `Refused` at the first octet after which no such integer can
/// follow, with the reason `Default` where one is excluded, else `Length` in a count of octets and `Number` after it.
pub(crate) fn read_integer(
    bounds: &Bounds,
    excluded: Option<i128>,
    units: &mut BitCursor<'_>,
) -> Result<i128, Stop>
    requires at_octet { AtOctet units.old }
    requires of_profile { InProfile (integer (range_of bounds.now)) }
    requires within { IsWithin (range_of bounds.now) excluded }
    requires some { Inhabited (IntegersBut excluded (range_of bounds.now)) }
    ensures at_octet { OnOk result (AtOctet units.new) }
    ensures done { Reads result number (IntegersBut excluded (range_of bounds.now)) units.old units.new }
    ensures stop { StopsIn result (IntegersBut excluded (range_of bounds.now)) units.old }
{
    if bounds.ext {
        return read_signed(None, None, None, units);
    }
    match bounds.low {
        Some(low) if low >= 0 => read_unsigned(low, bounds.high, excluded, units),
        _ => read_signed(bounds.low, bounds.high, excluded, units),
    }
}

/// Fast path: an integer between two bounds, where its octets are at hand and it lies between them; otherwise takes
/// nothing.
#[inline(always)]
pub(crate) fn try_fixed(low: i128, high: i128, units: &mut BitCursor<'_>) -> Option<i128>
    requires at_octet { AtOctet units.old }
    requires of_profile { InProfile (between low high) }
    ensures at_octet { AtOctet units.new }
    ensures some { ReadsSome result number (ValuesOf (between low high)) units.old units.new }
    ensures of_integers { IfSome result IsOfProfile }
    ensures none { IsNone result → units.new ≡ units.old }
{
    if low >= 0 {
        let set = numbers_of(low, Some(high), None);
        let n = try_octets(unsigned_size(high), set, units)?;
        return Some(i128::from(n));
    }
    let set = offsets_of(Some(low), Some(high), None);
    let count = signed_size(low, high)?;
    let offset = try_signed_octets(count, set, units)?;
    Some(at_offset(LOWEST_INTEGER, offset))
}

/// Reads an integer of a range from a bound on that is not negative, but for the excluded one: in a fixed number of
/// octets where there is a high bound, and else after their count.
fn read_unsigned(
    low: i128,
    high: Option<i128>,
    excluded: Option<i128>,
    units: &mut BitCursor<'_>,
) -> Result<i128, Stop>
    requires at_octet { AtOctet units.old }
    requires of_profile { InProfile (integer (unmarked (Some low) high)) }
    requires from_zero { pos 0 ≤ℤ low }
    requires within { IsWithin (unmarked (Some low) high) excluded }
    requires some { Inhabited (IntegersBut excluded (unmarked (Some low) high)) }
    ensures at_octet { OnOk result (AtOctet units.new) }
    ensures done { Reads result number (IntegersBut excluded (unmarked (Some low) high)) units.old units.new }
    ensures stop { StopsIn result (IntegersBut excluded (unmarked (Some low) high)) units.old }
{
    let set = numbers_of(low, high, excluded);
    let why = Why::in_number(excluded.is_some());
    let n = match high {
        Some(high) => read_octets(unsigned_size(high), set, why, units)?,
        None => read_counted(set, Why::in_count(excluded.is_some()), why, units)?,
    };
    Ok(i128::from(n))
}

/// Reads an integer of a range that is not from 0 on, but for the excluded one, in two's complement: in a fixed number
/// of octets where the bounds have one, and else after their count.
fn read_signed(
    low: Option<i128>,
    high: Option<i128>,
    excluded: Option<i128>,
    units: &mut BitCursor<'_>,
) -> Result<i128, Stop>
    requires at_octet { AtOctet units.old }
    requires of_profile { InProfile (integer (unmarked low high)) }
    requires below_zero { IsBelowZero low }
    requires within { IsWithin (unmarked low high) excluded }
    requires some { Inhabited (IntegersBut excluded (unmarked low high)) }
    ensures at_octet { OnOk result (AtOctet units.new) }
    ensures done { Reads result number (IntegersBut excluded (unmarked low high)) units.old units.new }
    ensures stop { StopsIn result (IntegersBut excluded (unmarked low high)) units.old }
{
    let set = offsets_of(low, high, excluded);
    let why = Why::in_number(excluded.is_some());
    match size_between(low, high) {
        Some(count) => {
            let offset = read_signed_octets(count, set, why, units)?;
            Ok(at_offset(LOWEST_INTEGER, offset))
        }
        None => {
            let in_count = Why::in_count(excluded.is_some());
            let offset = read_wide_counted_signed(set, in_count, why, units)?;
            Ok(at_wide_offset(LOWEST_INTEGER, offset))
        }
    }
}

/// Writes a number, where it is one of the range (X.696, "encoding of integer types"). A range with an extension mark
/// counts as none.
#[inline(always)]
pub(crate) fn write_integer<S: Sink>(
    bounds: &Bounds,
    value: i128,
    sink: &mut S,
) -> Result<(), Unwritten<S::Fault>>
    requires of_profile { InProfile (integer (range_of bounds.now)) }
    ensures of_type { TellsWhether result (FitsNumber (range_of bounds.now) value) }
    ensures written { OnOk result (S.pushes sink.old sink.new
        (unpacked (oer_octets (integer (range_of bounds.now)) (number value)))) }
{
    match (bounds.low, bounds.high) {
        (Some(low), Some(high)) if !bounds.ext => {
            if value < low || high < value {
                return Err(Unwritten::NotOfType);
            }
            match greatest(low, high) {
                Some(greatest) => Ok(write_fixed(greatest, in_64_bits(value), sink)?),
                None => Ok(write_least_signed(value, sink)?),
            }
        }
        _ => write_counted(bounds, value, sink),
    }
}

/// The unsigned bound whose numbers take as many octets as those from `low` to `high`; `None` where
/// these have no fixed number of octets.
#[inline(always)]
fn greatest(low: i128, high: i128) -> Option<u64>
    requires order { low ≤ℤ high }
    requires low { lowest_integer ≤ℤ low }
    requires high { high ≤ℤ highest_integer }
    ensures from_zero { IfSome result (λ g. pos 0 ≤ℤ low → pos g ≡ high) }
    ensures below_zero { IfSome result (λ g. low <ℤ pos 0 → signed_size low high ≡ unsigned_octets (pos g)) }
    ensures none { IsNone result → (low <ℤ pos 0) × (signed_size low high ≡ None) }
{
    if low >= 0 {
        return Some(high as u64);
    }
    if high < SIGNED_END {
        Some(twice_farthest(low as i64, high as i64))
    } else {
        None
    }
}

/// Twice the number that is farthest from zero, of those from `low` to `high` and what is as far from -1 as these.
#[inline(always)]
fn twice_farthest(low: i64, high: i64) -> u64
    requires order { low ≤ℤ high }
    requires below_zero { low <ℤ pos 0 }
    ensures { signed_size low high ≡ unsigned_octets (pos result) }
{
    2 * (high.max(-1 - low) as u64)
}

/// The last 64 bits of an integer in two's complement.
#[inline(always)]
fn in_64_bits(value: i128) -> u64
    requires low { lowest_integer ≤ℤ value }
    requires high { value ≤ℤ highest_integer }
    ensures from_zero { pos 0 ≤ℤ value → pos result ≡ value }
    ensures below_zero { value <ℤ pos 0 → pos result ≡ value +ℤ pos (2 ^ 64) }
{
    if value < 0 {
        (value as i64).cast_unsigned()
    } else {
        value as u64
    }
}

/// Writes a number, where it is one of the range, after its length: unsigned from a bound on that is not negative, and
/// else in two's complement.
#[inline(never)]
fn write_counted<S: Sink>(
    bounds: &Bounds,
    value: i128,
    sink: &mut S,
) -> Result<(), Unwritten<S::Fault>>
    requires of_profile { InProfile (integer (range_of bounds.now)) }
    requires counted { IsCounted (range_of bounds.now) }
    ensures of_type { TellsWhether result (FitsNumber (range_of bounds.now) value) }
    ensures written { OnOk result (S.pushes sink.old sink.new
        (unpacked (oer_octets (integer (range_of bounds.now)) (number value)))) }
{
    if !number_fits(bounds, value) {
        return Err(Unwritten::NotOfType);
    }
    match bounds.low {
        Some(low) if low >= 0 && !bounds.ext => Ok(write_least(value as u64, sink)?),
        _ => Ok(write_least_signed(value, sink)?),
    }
}
