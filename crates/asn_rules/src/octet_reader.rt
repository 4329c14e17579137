//! Readers of whole octets, each refused at the first octet after which nothing that it reads can follow: numbers in a
//! fixed count of octets and after their count, and bits that zeros fill up.
ghost use Rattle.std.specs.Prelude.{◌≡◌, ◌≤◌, ◌*◌, IfOk, IfErr, OnOk, IfSome, IsNone, length, ℕ, pos, ◌+ℤ◌, ◌<◌, ◌+◌, ◌^◌, ◌%◌, ◌-◌};
ghost use Rattle.asn_values.specs.Fits.{lowest_integer};
ghost use Rattle.asn_bits.specs.Numbers.{packed};
ghost use Rattle.asn_bits.specs.Sets.{AreBits, Meets, Among};
ghost use Rattle.asn_rules.specs.NumberSets.{Admits, NumberIn};
ghost use Rattle.asn_rules.specs.PlainReading.{ReadsPlain, StopsPlain};
ghost use Rattle.asn_rules.specs.OffsetSets.{HasOffset, IsOpen, StandsFor};
ghost use Rattle.asn_rules.specs.Fields.{octet_fields};
ghost use Rattle.asn_rules.specs.Languages.{Spells};
ghost use Rattle.asn_rules.specs.Stops.{Stops};
ghost use Rattle.asn_rules.specs.OctetReading.{AtOctet, ReadsOctets, StopsAtOctets, counted_in_octets, OctetsIn, OctetsAmong, AreWithCount, AreTrimmed, CountedIn, CountedSignedIn, SignedOctetsIn, FilledFields, FilledBits, from_to};

use crate::fault::Why;
use crate::number_reader::{NumberSet, read_number, read_number_among, read_up_to, try_in_octets};
use crate::signed_reader::{
    OffsetSet, read_signed, read_wide_unconstrained, try_signed, try_unconstrained,
};
use crate::stop::Stop;
use crate::whole_number_reader::{greatest_of_width, greatest_with, least_with};
use asn_bits::internal::octet_count;
use asn_bits::{BitCursor, Intervals};

/// How many octets are left.
pub fn octets_left(units: &BitCursor<'_>) -> usize
    requires at_octet { AtOctet units.now }
    ensures count { result ≡ length (packed units.now) }
    ensures bits { AreBits units.now }
{
    units.octets_left()
}

/// What a reader of bits says, where octets are counted: those after the octet of a refused bit.
pub(crate) fn in_octets(stop: Stop) -> Stop
    ensures { result ≡ counted_in_octets stop }
{
    match stop {
        Stop::Refused { left, why } => Stop::Refused {
            left: left / 8,
            why,
        },
        Stop::Short => Stop::Short,
        Stop::Memory => Stop::Memory,
    }
}

/// Reads a number of the set in `k` octets: in one step if they are present and hold one.
///
/// # Errors
/// `Short` if the octets end before the number does. `Refused`, with the reason `why`, at the first octet after which
/// no number of the set can follow.
#[inline(always)]
pub fn read_octets(k: u32, set: NumberSet, why: Why, units: &mut BitCursor<'_>) -> Result<u64, Stop>
    requires at_octet { AtOctet units.old }
    requires few { k ≤ 8 }
    requires some { Meets (λ n. Admits set n) 0 (8 * k) }
    ensures at_octet { OnOk result (AtOctet units.new) }
    ensures member { IfOk result (λ n. Admits set n) }
    ensures done { IfOk result (λ n. ReadsOctets (OctetsIn k set) n units.old units.new) }
    ensures stop { IfErr result (λ why. StopsAtOctets (OctetsIn k set) units.old why) }
{
    octets_left(units);
    match read_number(8 * k, set, why, units) {
        Ok(n) => Ok(n),
        Err(stop) => Err(in_octets(stop)),
    }
}

/// Fast path: a number of the set in `k` octets, where they are present and hold one; otherwise takes nothing.
#[inline(always)]
pub fn try_octets(k: u32, set: NumberSet, units: &mut BitCursor<'_>) -> Option<u64>
    requires at_octet { AtOctet units.old }
    requires few { k ≤ 8 }
    ensures at_octet { AtOctet units.new }
    ensures done { IfSome result (λ n. ReadsOctets (OctetsIn k set) n units.old units.new) }
    ensures unchanged { IsNone result → units.new ≡ units.old }
{
    let n = try_in_octets(k, set, units)?;
    Some(n)
}

/// Reads a number of the intervals in `k` octets: in one step if they are present and hold one.
///
/// # Errors
/// As `read_octets`.
pub fn read_octets_among(
    k: u32,
    numbers: Intervals,
    why: Why,
    units: &mut BitCursor<'_>,
) -> Result<u64, Stop>
    requires at_octet { AtOctet units.old }
    requires few { k ≤ 8 }
    requires some { Meets (λ n. Among numbers n) 0 (8 * k) }
    ensures at_octet { OnOk result (AtOctet units.new) }
    ensures member { IfOk result (λ n. Among numbers n) }
    ensures done { IfOk result (λ n. ReadsOctets (OctetsAmong k numbers) n units.old units.new) }
    ensures stop { IfErr result (λ why. StopsAtOctets (OctetsAmong k numbers) units.old why) }
{
    octets_left(units);
    match read_number_among(8 * k, numbers, why, units) {
        Ok(n) => Ok(n as u64),
        Err(stop) => Err(in_octets(stop)),
    }
}

/// Reads a number of the set in the fewest octets, after their count in an octet (X.696, "encoding of integer
/// types").
///
/// # Errors
/// `Short` if the octets end before the number does. `Refused` at the first octet after which no such number can
/// follow, with the reason `in_count` in the count and `in_number` after it.
pub fn read_counted(
    set: NumberSet,
    in_count: Why,
    in_number: Why,
    units: &mut BitCursor<'_>,
) -> Result<u64, Stop>
    requires at_octet { AtOctet units.old }
    requires some { (n : ℕ) × Admits set n }
    ensures at_octet { OnOk result (AtOctet units.new) }
    ensures member { IfOk result (λ n. Admits set n) }
    ensures done { IfOk result (λ n. ReadsOctets (CountedIn set) n units.old units.new) }
    ensures stop { IfErr result (λ why. StopsAtOctets (CountedIn set) units.old why) }
{
    let set = trimmed(set);
    let counts = NumberSet {
        low: u64::from(octet_count(set.low)),
        high: u64::from(octet_count(set.high)),
        excluded: None,
    };
    let count = read_octets(1, counts, in_count, units)? as u32;
    read_octets(count, with_count(set, count), in_number, units)
}

/// The same numbers, where the ends are some of them.
fn trimmed(set: NumberSet) -> NumberSet
    requires some { (n : ℕ) × Admits set n }
    ensures { AreTrimmed set result }
{
    match set.excluded {
        Some(out) if out == set.low => NumberSet {
            low: out + 1,
            high: set.high,
            excluded: None,
        },
        Some(out) if out == set.high => NumberSet {
            low: set.low,
            high: out - 1,
            excluded: None,
        },
        _ => set,
    }
}

/// The numbers of the set that need `count` octets.
fn with_count(set: NumberSet, count: u32) -> NumberSet
    requires some { 1 ≤ count }
    requires few { count ≤ 8 }
    ensures { AreWithCount set count result }
{
    NumberSet {
        low: set.low.max(least_with(count)),
        high: set.high.min(greatest_with(count)),
        excluded: set.excluded,
    }
}

/// Reads an integer of the set, in the fewest octets of two's complement after their count in an octet. Returns its
/// offset, how far it lies above the lowest integer of the profile.
///
/// # Errors
/// As `read_counted`.
pub fn read_wide_counted_signed(
    set: OffsetSet,
    in_count: Why,
    in_number: Why,
    units: &mut BitCursor<'_>,
) -> Result<u128, Stop>
    requires at_octet { AtOctet units.old }
    requires gap { IsOpen set }
    requires some { (w : ℕ) × HasOffset set w }
    ensures at_octet { OnOk result (AtOctet units.new) }
    ensures fits { IfOk result (λ w. w < 2 ^ 72) }
    ensures done { IfOk result (λ w. ReadsOctets (CountedSignedIn set) (lowest_integer +ℤ pos w) units.old units.new) }
    ensures stop { IfErr result (λ why. StopsAtOctets (CountedSignedIn set) units.old why) }
{
    octets_left(units);
    match read_wide_unconstrained(set, in_count, in_number, units) {
        Ok(wide) => Ok(wide),
        Err(stop) => Err(in_octets(stop)),
    }
}

/// Fast path: the same, where eight octets are left and it needs fewer; otherwise takes nothing.
#[inline(always)]
pub fn try_counted_signed(set: OffsetSet, units: &mut BitCursor<'_>) -> Option<u64>
    requires at_octet { AtOctet units.old }
    ensures at_octet { AtOctet units.new }
    ensures done { IfSome result (λ w.
        ReadsOctets (CountedSignedIn set) (lowest_integer +ℤ pos w) units.old units.new) }
    ensures unchanged { IsNone result → units.new ≡ units.old }
{
    let offset = try_unconstrained(set, units)?;
    Some(offset)
}

/// Reads an integer of the set in `count` octets of two's complement. Returns its offset.
///
/// # Errors
/// As `read_octets`.
pub fn read_signed_octets(
    count: u32,
    set: OffsetSet,
    why: Why,
    units: &mut BitCursor<'_>,
) -> Result<u64, Stop>
    requires at_octet { AtOctet units.old }
    requires many { 1 ≤ count }
    requires few { count ≤ 8 }
    requires some { (n : ℕ) × StandsFor set count n }
    ensures at_octet { OnOk result (AtOctet units.new) }
    ensures done { IfOk result (λ w.
        ReadsOctets (SignedOctetsIn count set) (lowest_integer +ℤ pos w) units.old units.new) }
    ensures stop { IfErr result (λ why. StopsAtOctets (SignedOctetsIn count set) units.old why) }
{
    octets_left(units);
    match read_signed(count, set, why, units) {
        Ok(w) => Ok(w),
        Err(stop) => Err(in_octets(stop)),
    }
}

/// Fast path: an integer of the set in `count` octets of two's complement, where they are present and hold one;
/// otherwise takes nothing. Returns its offset.
#[inline(always)]
pub fn try_signed_octets(count: u32, set: OffsetSet, units: &mut BitCursor<'_>) -> Option<u64>
    requires at_octet { AtOctet units.old }
    requires many { 1 ≤ count }
    requires few { count ≤ 8 }
    ensures at_octet { AtOctet units.new }
    ensures done { IfSome result (λ w.
        ReadsOctets (SignedOctetsIn count set) (lowest_integer +ℤ pos w) units.old units.new) }
    ensures unchanged { IsNone result → units.new ≡ units.old }
{
    let offset = try_signed(count, set, units)?;
    Some(offset)
}

/// Reads a number up to `most` in `marks` bits and one from `low` on in `count` bits, and the zeros that fill up the
/// last octet.
///
/// # Errors
/// `Short` if the octets end before the last one does. `Refused` at the first octet after which no such numbers can
/// follow, with the reason `in_zeros` in the zeros, else `Extension`.
#[inline(always)]
pub fn read_filled(
    marks: u32,
    most: u64,
    count: u32,
    low: u64,
    in_zeros: Why,
    units: &mut BitCursor<'_>,
) -> Result<(u64, u64), Stop>
    requires at_octet { AtOctet units.old }
    requires mark { marks ≤ 1 }
    requires marks_hold { most < 2 ^ marks }
    requires few { count ≤ 64 }
    requires some { low < 2 ^ count }
    ensures at_octet { OnOk result (AtOctet units.new) }
    ensures done { IfOk result (λ p. ReadsOctets (FilledFields marks most count low) p units.old units.new) }
    ensures stop { IfErr result (λ why. StopsAtOctets (FilledFields marks most count low) units.old why) }
{
    match try_filled(marks, most, count, low, units) {
        Some(numbers) => Ok(numbers),
        None => read_long_filled(marks, most, count, low, in_zeros, units),
    }
}

/// The same, where the numbers are more than one octet holds, or are not such.
#[inline(never)]
fn read_long_filled(
    marks: u32,
    most: u64,
    count: u32,
    low: u64,
    in_zeros: Why,
    units: &mut BitCursor<'_>,
) -> Result<(u64, u64), Stop>
    requires at_octet { AtOctet units.old }
    requires mark { marks ≤ 1 }
    requires marks_hold { most < 2 ^ marks }
    requires few { count ≤ 64 }
    requires some { low < 2 ^ count }
    ensures at_octet { OnOk result (AtOctet units.new) }
    ensures done { IfOk result (λ p. ReadsOctets (FilledFields marks most count low) p units.old units.new) }
    ensures stop { IfErr result (λ why. StopsAtOctets (FilledFields marks most count low) units.old why) }
{
    octets_left(units);
    match read_bits(marks, most, count, low, in_zeros, units) {
        Ok(numbers) => Ok(numbers),
        Err(stop) => Err(in_octets(stop)),
    }
}

/// Fast path: the same, where one octet at hand has them all, or none does; otherwise takes nothing.
#[inline(always)]
fn try_filled(
    marks: u32,
    most: u64,
    count: u32,
    low: u64,
    units: &mut BitCursor<'_>,
) -> Option<(u64, u64)>
    requires at_octet { AtOctet units.old }
    requires mark { marks ≤ 1 }
    requires marks_hold { most < 2 ^ marks }
    requires few { count ≤ 64 }
    requires some { low < 2 ^ count }
    ensures at_octet { AtOctet units.new }
    ensures done { IfSome result (λ p. ReadsOctets (FilledFields marks most count low) p units.old units.new) }
    ensures unchanged { IsNone result → units.new ≡ units.old }
{
    let width = marks + count;
    if width == 0 {
        return Some((0, 0));
    }
    if 8 < width {
        return None;
    }
    let octet = units.peek_octet()?;
    let zeros = 8 - width;
    let both = octet >> zeros;
    let mark = both >> count;
    let number = both & greatest_of_width(count);
    if octet & greatest_of_width(zeros) == 0 && mark <= most && low <= number {
        units.pass_octets(1);
        return Some((mark, number));
    }
    None
}

/// The same, where bits are counted.
fn read_bits(
    marks: u32,
    most: u64,
    count: u32,
    low: u64,
    in_zeros: Why,
    units: &mut BitCursor<'_>,
) -> Result<(u64, u64), Stop>
    requires mark { marks ≤ 1 }
    requires marks_hold { most < 2 ^ marks }
    requires few { count ≤ 64 }
    requires some { low < 2 ^ count }
    ensures done { IfOk result (λ p. Spells octet_fields (FilledBits marks most count low) p units.old units.new) }
    ensures stop { IfErr result (λ why. Stops octet_fields (FilledBits marks most count low) units.old why) }
{
    let zeros = (8 - (marks + count) % 8) % 8;
    let mark = read_up_to(marks, most, Why::Extension, units)?;
    let number = read_from(count, low, units)?;
    read_up_to(zeros, 0, in_zeros, units)?;
    Ok((mark, number))
}

/// Reads a number from `low` on in `k` bits, as `read_number` does.
#[inline(always)]
fn read_from(k: u32, low: u64, units: &mut BitCursor<'_>) -> Result<u64, Stop>
    requires few { k ≤ 64 }
    requires some { low < 2 ^ k }
    ensures done { ReadsPlain (NumberIn k (from_to low (2 ^ k - 1))) result units.old units.new }
    ensures stop { StopsPlain (NumberIn k (from_to low (2 ^ k - 1))) result units.old }
{
    if k == 0 {
        return Ok(0);
    }
    read_number(k, numbers(low, greatest_of_width(k)), Why::Extension, units)
}

/// The numbers from `low` to `high`.
pub fn numbers(low: u64, high: u64) -> NumberSet
    ensures { result ≡ from_to low high }
{
    NumberSet {
        low,
        high,
        excluded: None,
    }
}
