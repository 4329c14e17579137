//! Readers of numbers from 0 to a bound: in the fewest bits, and in the fewest octets.

ghost use Rattle.std.specs.Prelude.{◌≡◌, ◌≤◌, ◌<◌, ◌+◌, ◌^◌, IfOk, IfSome};
ghost use Rattle.asn_bits.specs.Numbers.{width};
ghost use Rattle.asn_bits.specs.Sets.{Meets};
ghost use Rattle.asn_rules.specs.NumberSets.{Admits, NumberIn, SemiConstrainedIn, between_but, up_to, least_of, highest_count_of};
ghost use Rattle.asn_rules.specs.PlainReading.{ReadsPlain, StopsPlain};

use crate::fault::Why;
use crate::number_reader::{NumberSet, intervals_between, read_number, read_number_among};
use crate::stop::Stop;
use asn_bits::BitCursor;
use asn_bits::internal::{octet_count, wide_octet_count, width, width_up_to};

/// One more than the highest number of 64 bits.
const WORD: u128 = 1 << 64;

/// Reads a number from 0 to `high`, except `excluded`, in the fewest bits that hold `high` (X.691, "constrained
/// whole number").
///
/// # Errors
/// `Short` if the bits end before the number does. `Refused` at the first bit after which no such number can
/// follow, with the reason `Default` where a number is excluded, else `Number`.
#[inline(always)]
pub fn read_constrained(
    high: u64,
    excluded: Option<u64>,
    bits: &mut BitCursor<'_>,
) -> Result<u64, Stop>
    requires { Meets (λ n. Admits (up_to high excluded) n) 0 (width (high + 1)) }
    ensures done { ReadsPlain (NumberIn (width (high + 1)) (up_to high excluded)) result bits.old bits.new }
    ensures member { IfOk result (λ n. Admits (up_to high excluded) n) }
    ensures stop { StopsPlain (NumberIn (width (high + 1)) (up_to high excluded)) result bits.old }
{
    let set = NumberSet {
        low: 0,
        high,
        excluded,
    };
    let why = Why::in_number(excluded.is_some());
    read_number(width_up_to(high), set, why, bits)
}

/// Reads a number from 0 to `high`, except `excluded`, in the fewest octets after their count in an octet (X.691,
/// "semi-constrained whole number").
///
/// # Errors
/// `Short` if the bits end before the number does. `Refused` at the first bit after which no such number can
/// follow, with the reason `Default` where a number is excluded, else `Length` in the count and `Number` after it.
pub fn read_semi_constrained(
    high: u64,
    excluded: Option<u64>,
    bits: &mut BitCursor<'_>,
) -> Result<u64, Stop>
    requires { Meets (λ n. Admits (up_to high excluded) n) 0 64 }
    ensures done { ReadsPlain (SemiConstrainedIn (up_to high excluded)) result bits.old bits.new }
    ensures member { IfOk result (λ n. Admits (up_to high excluded) n) }
    ensures stop { StopsPlain (SemiConstrainedIn (up_to high excluded)) result bits.old }
{
    let counts = NumberSet {
        low: 1,
        high: highest_count(high, excluded),
        excluded: None,
    };
    let left_out = excluded.is_some();
    let count = read_number(8, counts, Why::in_count(left_out), bits)? as u32;
    let set = NumberSet {
        low: least_with(count),
        high: high.min(greatest_with(count)),
        excluded,
    };
    read_number(8 * count, set, Why::in_number(left_out), bits)
}

/// Reads a number from 0 to `high`, of up to 72 bits, as `read_constrained` does.
#[inline(always)]
pub fn read_wide_constrained(
    high: u128,
    excluded: Option<u128>,
    bits: &mut BitCursor<'_>,
) -> Result<u128, Stop>
    requires few { high < 2 ^ 72 }
    requires within { IfSome excluded (λ x. x ≤ high) }
    requires some { Meets (λ n. Admits (up_to high excluded) n) 0 (width (high + 1)) }
    ensures done { ReadsPlain (NumberIn (width (high + 1)) (up_to high excluded)) result bits.old bits.new }
    ensures member { IfOk result (λ n. Admits (up_to high excluded) n) }
    ensures stop { StopsPlain (NumberIn (width (high + 1)) (up_to high excluded)) result bits.old }
{
    if high < WORD {
        return match read_constrained(high as u64, narrow(excluded), bits) {
            Ok(number) => Ok(u128::from(number)),
            Err(stop) => Err(stop),
        };
    }
    let why = Why::in_number(excluded.is_some());
    read_wide_number(width(high + 1), 0, high, excluded, why, bits)
}

/// Reads a number from 0 to `high`, of up to 72 bits, as `read_semi_constrained` does.
pub fn read_wide_semi_constrained(
    high: u128,
    excluded: Option<u128>,
    bits: &mut BitCursor<'_>,
) -> Result<u128, Stop>
    requires few { high < 2 ^ 72 }
    requires within { IfSome excluded (λ x. x ≤ high) }
    requires some { Meets (λ n. Admits (up_to high excluded) n) 0 72 }
    ensures done { ReadsPlain (SemiConstrainedIn (up_to high excluded)) result bits.old bits.new }
    ensures member { IfOk result (λ n. Admits (up_to high excluded) n) }
    ensures stop { StopsPlain (SemiConstrainedIn (up_to high excluded)) result bits.old }
{
    if high < WORD {
        return match read_semi_constrained(high as u64, narrow(excluded), bits) {
            Ok(number) => Ok(u128::from(number)),
            Err(stop) => Err(stop),
        };
    }
    read_wide_counted(high, excluded, bits)
}

/// The same, where the number may have more than 64 bits.
#[inline(never)]
fn read_wide_counted(
    high: u128,
    excluded: Option<u128>,
    bits: &mut BitCursor<'_>,
) -> Result<u128, Stop>
    requires few { high < 2 ^ 72 }
    requires some { Meets (λ n. Admits (up_to high excluded) n) 0 72 }
    ensures done { ReadsPlain (SemiConstrainedIn (up_to high excluded)) result bits.old bits.new }
    ensures member { IfOk result (λ n. Admits (up_to high excluded) n) }
    ensures stop { StopsPlain (SemiConstrainedIn (up_to high excluded)) result bits.old }
{
    let counts = NumberSet {
        low: 1,
        high: wide_highest_count(high, excluded),
        excluded: None,
    };
    let left_out = excluded.is_some();
    let count = read_number(8, counts, Why::in_count(left_out), bits)? as u32;
    let low = wide_least_with(count);
    let high = high.min(wide_greatest_with(count));
    let why = Why::in_number(left_out);
    read_wide_number(8 * count, low, high, excluded, why, bits)
}

/// Reads a number from `low` to `high`, but for `excluded`, in `k` bits, 72 at most.
///
/// # Errors
/// As `read_number`.
#[cold]
#[inline(never)]
fn read_wide_number(
    k: u32,
    low: u128,
    high: u128,
    excluded: Option<u128>,
    why: Why,
    bits: &mut BitCursor<'_>,
) -> Result<u128, Stop>
    requires few { k ≤ 72 }
    requires some { Meets (λ n. Admits (between_but low high excluded) n) 0 k }
    ensures done { ReadsPlain (NumberIn k (between_but low high excluded)) result bits.old bits.new }
    ensures member { IfOk result (λ n. Admits (between_but low high excluded) n) }
    ensures stop { StopsPlain (NumberIn k (between_but low high excluded)) result bits.old }
{
    read_number_among(k, intervals_between(low, high, excluded), why, bits)
}

/// The same number, of 64 bits, where there is one.
pub fn narrow(number: Option<u128>) -> Option<u64>
    requires { IfSome number (λ n. n < 2 ^ 64) }
    ensures { result ≡ number }
{
    match number {
        Some(n) => Some(n as u64),
        None => None,
    }
}

/// The highest count of octets that a number from 0 to `high`, but for `excluded`, needs.
fn highest_count(high: u64, excluded: Option<u64>) -> u64
    ensures count { result ≡ highest_count_of high excluded }
    ensures few { result ≤ 8 }
{
    let most = octet_count(high);
    if excluded == Some(high) && high == least_with(most) {
        u64::from(most) - 1
    } else {
        u64::from(most)
    }
}

/// The same of a number of up to 72 bits.
fn wide_highest_count(high: u128, excluded: Option<u128>) -> u64
    requires { high < 2 ^ 72 }
    ensures count { result ≡ highest_count_of high excluded }
    ensures few { result ≤ 9 }
{
    let most = wide_octet_count(high);
    if excluded == Some(high) && high == wide_least_with(most) {
        u64::from(most) - 1
    } else {
        u64::from(most)
    }
}

/// The least number that needs `count` octets, nine at most.
fn wide_least_with(count: u32) -> u128
    requires some { 1 ≤ count }
    requires few { count ≤ 9 }
    ensures { result ≡ least_of count }
{
    if count <= 1 {
        0
    } else {
        wide_power_of_two(8 * (count - 1))
    }
}

/// The greatest number that `count` octets hold, nine at most.
fn wide_greatest_with(count: u32) -> u128
    requires some { 1 ≤ count }
    requires few { count ≤ 9 }
    ensures { result + 1 ≡ 256 ^ count }
{
    wide_power_of_two(8 * count) - 1
}

/// The least number that needs `count` octets.
pub(crate) fn least_with(count: u32) -> u64
    requires some { 1 ≤ count }
    requires few { count ≤ 8 }
    ensures { result ≡ least_of count }
{
    if count <= 1 {
        0
    } else {
        power_of_two(8 * (count - 1))
    }
}

/// The greatest number that `count` octets hold.
pub(crate) fn greatest_with(count: u32) -> u64
    requires some { 1 ≤ count }
    requires few { count ≤ 8 }
    ensures { result + 1 ≡ 256 ^ count }
{
    greatest_of_width(8 * count)
}

/// The greatest number of `width` bits.
pub fn greatest_of_width(width: u32) -> u64
    requires { width ≤ 64 }
    ensures { result + 1 ≡ 2 ^ width }
{
    if width == 64 {
        u64::MAX
    } else {
        power_of_two(width) - 1
    }
}

/// 2 to the power of `exponent`, as a number of 128 bits.
pub(crate) fn wide_power_of_two(exponent: u32) -> u128
    requires { exponent < 128 }
    ensures { result ≡ 2 ^ exponent }
{
    1u128 << exponent
}

/// 2 to the power of `exponent`.
pub fn power_of_two(exponent: u32) -> u64
    requires { exponent < 64 }
    ensures { result ≡ 2 ^ exponent }
{
    1u64 << exponent
}
