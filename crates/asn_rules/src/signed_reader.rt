//! The reader of integers in the fewest octets of two's complement (X.691, "unconstrained whole number").

ghost use Rattle.std.specs.Prelude.{◌≡◌, ◌≤◌, ◌<◌, ◌+◌, ◌-◌, ◌*◌, ◌^◌, ◌⊎◌, ℕ, pos, ◌+ℤ◌, ◌≤ℤ◌, length, IsTrue, IsNone, IfSome, IfOk};
ghost use Rattle.asn_values.specs.Fits.{lowest_integer, offset_of_zero, integer_count};
ghost use Rattle.asn_bits.specs.Sets.{Among};
ghost use Rattle.asn_rules.specs.Counted.{signed_number};
ghost use Rattle.asn_rules.specs.Languages.{Spells};
ghost use Rattle.asn_rules.specs.Live.{Fielding};
ghost use Rattle.asn_rules.specs.OffsetSets.{HasOffset, IsOpen, IsRaised, ReadsOffset, SignedIn, StandsFor, UnconstrainedIn, NeedsCount, least_magnitude_of, AreShifted, AreSigned, AreStanding};
ghost use Rattle.asn_rules.specs.PlainReading.{StopsPlain};

use crate::fault::Why;
use crate::number_reader::{NumberSet, peek_in_octets, read_number, read_number_among};
use crate::stop::Stop;
use crate::whole_number_reader::{greatest_of_width, power_of_two, wide_power_of_two};
use asn_bits::internal::{at_offset, signed_octet_count};
use asn_bits::{BitCursor, Intervals};
use asn_values::profile::{LOWEST_INTEGER, OFFSET_OF_ZERO};

/// Integers by their offsets, how far they lie above the lowest one of the profile: the offsets from `start` to those
/// below `below`, and those from `from` on, all below `end`.
#[derive(Clone, Copy)]
pub struct OffsetSet {
    pub start: u128,
    pub below: u128,
    pub from: u128,
    pub end: u128,
}

/// Reads an integer of the set, in the fewest octets of two's complement after their count in an octet. Returns
/// its offset.
///
/// # Errors
/// `Short` if the bits end before the integer does. `Refused` at the first bit after which no integer of the set
/// can follow, with the reason `in_count` in the octet of the count and `in_number` after it.
#[inline(always)]
pub fn read_wide_unconstrained(
    set: OffsetSet,
    in_count: Why,
    in_number: Why,
    bits: &mut BitCursor<'_>,
) -> Result<u128, Stop>
    requires gap { IsOpen set }
    requires some { (w : ℕ) × HasOffset set w }
    ensures done { ReadsOffset (UnconstrainedIn set) result bits.old bits.new }
    ensures fits { IfOk result (λ w. w < 2 ^ 72) }
    ensures stop { StopsPlain (UnconstrainedIn set) result bits.old }
{
    match try_unconstrained(set, bits) {
        Some(offset) => Ok(u128::from(offset)),
        None => read_unconstrained_by_parts(set, in_count, in_number, bits),
    }
}

/// Fast path: an integer of the set, in the fewest octets of two's complement after their count in an octet, where the
/// bits left begin with an octet, eight octets are left, and it needs fewer than eight; otherwise takes nothing. Returns
/// its offset.
#[inline(always)]
pub(crate) fn try_unconstrained(set: OffsetSet, bits: &mut BitCursor<'_>) -> Option<u64>
    ensures done { (R : Fielding) → IfSome result (λ w.
        Spells R (UnconstrainedIn set) (lowest_integer +ℤ pos w) bits.old bits.new) }
    ensures unchanged { IsNone result → bits.new ≡ bits.old }
{
    let first = bits.peek_octet()?;
    if first == 0 || 7 < first {
        return None;
    }
    let count = first as u32;
    let all = bits.peek_octets(1 + count)?;
    let offset = offset_of(count, all & greatest_of_width(8 * count));
    let fewest = signed_octet_count(at_offset(LOWEST_INTEGER, offset));
    let same = all >> (8 * count) == first;
    if same && fewest == count && has_offset(set, u128::from(offset)) {
        bits.pass_octets(1 + count);
        return Some(offset);
    }
    None
}

/// The same, its count first and then the number.
#[inline(never)]
fn read_unconstrained_by_parts(
    set: OffsetSet,
    in_count: Why,
    in_number: Why,
    bits: &mut BitCursor<'_>,
) -> Result<u128, Stop>
    requires gap { IsOpen set }
    requires some { (w : ℕ) × HasOffset set w }
    ensures done { ReadsOffset (UnconstrainedIn set) result bits.old bits.new }
    ensures fits { IfOk result (λ w. w < 2 ^ 72) }
    ensures stop { StopsPlain (UnconstrainedIn set) result bits.old }
{
    let counts = NumberSet {
        low: u64::from(lowest_count(set)),
        high: u64::from(highest_count(set)),
        excluded: None,
    };
    let count = read_number(8, counts, in_count, bits)? as u32;
    let number = read_number_among(8 * count, numbers_of_count(set, count), in_number, bits)?;
    Ok(wide_offset_of(count, number))
}

/// Reads an integer of the set in `count` octets of two's complement: in one step if they are present and hold one.
/// Returns its offset.
///
/// # Errors
/// `Short` if the bits end before the integer does. `Refused`, with the reason `why`, at the first bit after which no
/// integer of the set can follow.
pub fn read_signed(
    count: u32,
    set: OffsetSet,
    why: Why,
    bits: &mut BitCursor<'_>,
) -> Result<u64, Stop>
    requires many { 1 ≤ count }
    requires few { count ≤ 8 }
    requires some { (n : ℕ) × StandsFor set count n }
    ensures done { ReadsOffset (SignedIn count set) result bits.old bits.new }
    ensures stop { StopsPlain (SignedIn count set) result bits.old }
{
    match try_signed(count, set, bits) {
        Some(offset) => Ok(offset),
        None => read_signed_by_bits(count, set, why, bits),
    }
}

/// Reads an integer of the set in `count` octets of two's complement, bit by bit.
#[cold]
#[inline(never)]
fn read_signed_by_bits(
    count: u32,
    set: OffsetSet,
    why: Why,
    bits: &mut BitCursor<'_>,
) -> Result<u64, Stop>
    requires many { 1 ≤ count }
    requires few { count ≤ 8 }
    requires some { (n : ℕ) × StandsFor set count n }
    ensures done { ReadsOffset (SignedIn count set) result bits.old bits.new }
    ensures stop { StopsPlain (SignedIn count set) result bits.old }
{
    match read_number_among(8 * count, numbers_in(set, count), why, bits) {
        Ok(number) => Ok(offset_of(count, number as u64)),
        Err(stop) => Err(stop),
    }
}

/// Fast path: an integer of the set in `count` octets of two's complement, where they are present and hold one;
/// otherwise takes nothing. Returns its offset.
#[inline(always)]
pub(crate) fn try_signed(count: u32, set: OffsetSet, bits: &mut BitCursor<'_>) -> Option<u64>
    requires many { 1 ≤ count }
    requires few { count ≤ 8 }
    ensures done { (R : Fielding) → IfSome result (λ w.
        Spells R (SignedIn count set) (lowest_integer +ℤ pos w) bits.old bits.new) }
    ensures unchanged { IsNone result → bits.new ≡ bits.old }
{
    let number = peek_in_octets(count, bits)?;
    let offset = offset_of(count, number);
    if has_offset(set, u128::from(offset)) {
        bits.pass_octets(count);
        return Some(offset);
    }
    None
}

/// Whether the offset is one of the set.
fn has_offset(set: OffsetSet, w: u128) -> bool
    ensures { IsTrue result → HasOffset set w }
{
    w < set.end && (set.from <= w || set.start <= w && w < set.below)
}

/// The least count of octets that an integer of the set needs.
fn lowest_count(set: OffsetSet) -> u32
    requires gap { IsOpen set }
    ensures some { 1 ≤ result }
    ensures few { result ≤ 9 }
    ensures there { (count : ℕ) → result ≤ count → count ≤ 8 → NeedsCount set count }
    ensures back { (count : ℕ) → NeedsCount set count → result ≤ count }
{
    for count in 1..9 {
        if has_count(set, count) {
            return count;
        }
    }
    9
}

/// The highest count of octets that an integer of the set needs, where one needs eight or fewer.
fn highest_count(set: OffsetSet) -> u32
    requires gap { IsOpen set }
    ensures some { 8 ≤ result }
    ensures few { result ≤ 9 }
    ensures there { result ≡ 9 → NeedsCount set 9 }
    ensures back { (count : ℕ) → NeedsCount set count → count ≤ result }
{
    if has_count(set, 9) { 9 } else { 8 }
}

/// Whether an integer of the set needs `count` octets.
fn has_count(set: OffsetSet, count: u32) -> bool
    requires some { 1 ≤ count }
    requires few { count ≤ 9 }
    requires within { set.end ≤ integer_count }
    ensures there { IsTrue result → NeedsCount set count }
    ensures back { NeedsCount set count → IsTrue result }
{
    let least = least_magnitude(count);
    let weight = sign_weight(count);
    let lowest = OFFSET_OF_ZERO.saturating_sub(weight);
    has_between(set, OFFSET_OF_ZERO + least, OFFSET_OF_ZERO + weight)
        || has_between(set, lowest, OFFSET_OF_ZERO - least)
}

/// Whether an offset of the set lies in `first..end`.
fn has_between(set: OffsetSet, first: u128, end: u128) -> bool
    ensures there { IsTrue result → (w : ℕ) × (first ≤ w) × (w < end) × HasOffset set w }
    ensures back { (w : ℕ) → first ≤ w → w < end → HasOffset set w → IsTrue result }
{
    let end = end.min(set.end);
    first.max(set.start) < end.min(set.below) || first.max(set.from) < end
}

/// The integers of the set, as the unsigned numbers that `count` octets hold.
fn numbers_in(set: OffsetSet, count: u32) -> Intervals
    requires some { 1 ≤ count }
    requires few { count ≤ 8 }
    ensures { AreStanding set count result }
{
    let weight = sign_weight(count);
    let numbers = add_shifted(
        Intervals::none(),
        set,
        OFFSET_OF_ZERO,
        OFFSET_OF_ZERO + weight,
        0,
    );
    add_shifted(
        numbers,
        set,
        OFFSET_OF_ZERO - weight,
        OFFSET_OF_ZERO,
        2 * weight,
    )
}

/// The integers of the set that need `count` octets, as the unsigned numbers that these octets hold.
fn numbers_of_count(set: OffsetSet, count: u32) -> Intervals
    requires some { 1 ≤ count }
    requires few { count ≤ 9 }
    requires within { set.end ≤ integer_count }
    ensures { AreSigned set count result }
{
    let least = least_magnitude(count);
    let weight = sign_weight(count);
    let lowest = OFFSET_OF_ZERO.saturating_sub(weight);
    let numbers = add_shifted(
        Intervals::none(),
        set,
        OFFSET_OF_ZERO + least,
        OFFSET_OF_ZERO + weight,
        0,
    );
    add_shifted(numbers, set, lowest, OFFSET_OF_ZERO - least, 2 * weight)
}

/// Adds the offsets of the set in `first..end`, less that of 0 and raised by `up`.
fn add_shifted(numbers: Intervals, set: OffsetSet, first: u128, end: u128, up: u128) -> Intervals
    requires room { length numbers ≤ 2 }
    requires low { offset_of_zero ≤ first + up }
    requires high { end + up < 2 ^ 80 }
    ensures numbers { AreShifted numbers result set first end up }
    ensures room { length result ≤ length numbers + 2 }
{
    let end = end.min(set.end);
    let up_to = add_interval(numbers, first.max(set.start), end.min(set.below), up);
    add_interval(up_to, first.max(set.from), end, up)
}

/// Adds the offsets in `first..end`, less that of 0 and raised by `up`.
fn add_interval(numbers: Intervals, first: u128, end: u128, up: u128) -> Intervals
    requires room { length numbers < 4 }
    requires low { offset_of_zero ≤ first + up }
    requires high { end + up < 2 ^ 80 }
    ensures there { (n : ℕ) → Among result n → Among numbers n ⊎ IsRaised first end up n }
    ensures kept { (n : ℕ) → Among numbers n → Among result n }
    ensures added { (n : ℕ) → first + up ≤ n + offset_of_zero → n + offset_of_zero < end + up
        → Among result n }
    ensures room { length result ≤ length numbers + 1 }
{
    if first < end {
        numbers.and(first + up - OFFSET_OF_ZERO, end - 1 + up - OFFSET_OF_ZERO)
    } else {
        numbers
    }
}

/// The weight of the sign bit in `count` octets.
fn sign_weight(count: u32) -> u128
    requires some { 1 ≤ count }
    requires few { count ≤ 9 }
    ensures is { result ≡ 2 ^ (8 * count - 1) }
    ensures few { result ≤ 2 ^ 71 }
    ensures within { count ≤ 8 → result ≤ 2 ^ 63 }
{
    wide_power_of_two(8 * count - 1)
}

/// The least magnitude that `count - 1` octets cannot hold beside the sign.
fn least_magnitude(count: u32) -> u128
    requires some { 1 ≤ count }
    requires few { count ≤ 9 }
    ensures is { result ≡ least_magnitude_of count }
    ensures few { result ≤ 2 ^ 63 }
{
    if count <= 1 {
        0
    } else {
        sign_weight(count - 1)
    }
}

/// The offset of the integer for which `number` stands in `count` octets of two's complement.
fn offset_of(count: u32, number: u64) -> u64
    requires some { 1 ≤ count }
    requires few { count ≤ 8 }
    requires fits { number < 256 ^ count }
    ensures { lowest_integer +ℤ pos result ≡ signed_number (count, number) }
{
    let weight = power_of_two(8 * count - 1);
    if number < weight {
        (OFFSET_OF_ZERO + u128::from(number)) as u64
    } else {
        number - weight + (power_of_two(63) - weight)
    }
}

/// The same of a number of up to nine octets, where the integer is no lower than those of the profile.
fn wide_offset_of(count: u32, number: u128) -> u128
    requires some { 1 ≤ count }
    requires few { count ≤ 9 }
    requires fits { number < 256 ^ count }
    requires within { lowest_integer ≤ℤ signed_number (count, number) }
    ensures same { lowest_integer +ℤ pos result ≡ signed_number (count, number) }
    ensures few { result < 2 ^ 72 }
{
    let weight = sign_weight(count);
    if number < weight {
        OFFSET_OF_ZERO + number
    } else {
        OFFSET_OF_ZERO + number - 2 * weight
    }
}
