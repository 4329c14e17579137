//! Readers of numbers in a fixed count of bits, refused at the first bit after which no number of the set can follow.

ghost use Rattle.std.specs.Prelude.{◌≡◌, ◌≤◌, ◌<◌, ◌*◌, ◌^◌, ◌++◌, ◌↔◌, ℕ, drop, IfOk, IfSome, IsNone, IsTrue, None, length, replicate};
ghost use Rattle.asn_bits.specs.Begun.{Begins, StandsFirst};
ghost use Rattle.asn_bits.specs.Numbers.{bits};
ghost use Rattle.asn_bits.specs.Sets.{AreBits, Meets, Among};
ghost use Rattle.asn_rules.specs.NumberSets.{Admits, AreAmong, NoneStandsFirst, NumberIn, NumberAmong, up_to, between_but};
ghost use Rattle.asn_rules.specs.Padding.{Fixed};
ghost use Rattle.asn_rules.specs.PlainReading.{ReadsPlain, StopsPlain};

use crate::fault::Why;
use crate::stop::Stop;
use asn_bits::internal::try_number_of;
use asn_bits::{BitCursor, FieldState, Intervals, NumberField};

/// The numbers from `low` to `high`, except `excluded`.
#[derive(Clone, Copy)]
pub struct NumberSet {
    pub low: u64,
    pub high: u64,
    pub excluded: Option<u64>,
}

/// Whether the number is one of the set.
pub fn admits(set: NumberSet, n: u64) -> bool
    ensures { IsTrue result ↔ Admits set n }
{
    set.low <= n && n <= set.high && set.excluded.is_none_or(|excluded| n != excluded)
}

/// The numbers from `low` to `high`, but for `excluded`, as a union of intervals.
pub(crate) fn intervals_between(low: u128, high: u128, excluded: Option<u128>) -> Intervals
    requires { (n : ℕ) × Admits (between_but low high excluded) n }
    ensures { AreAmong (between_but low high excluded) result }
{
    match excluded {
        Some(out) if out == low => Intervals::one(out + 1, high),
        Some(out) if out == high => Intervals::one(low, out - 1),
        Some(out) if low < out && out < high => Intervals::one(low, out - 1).and(out + 1, high),
        _ => Intervals::one(low, high),
    }
}

/// The set as a union of intervals.
fn intervals_of(set: NumberSet) -> Intervals
    requires { (n : ℕ) × Admits set n }
    ensures { AreAmong set result }
{
    intervals_between(
        u128::from(set.low),
        u128::from(set.high),
        widened(set.excluded),
    )
}

/// The same number, where there is one.
fn widened(number: Option<u64>) -> Option<u128>
    ensures { result ≡ number }
{
    match number {
        Some(n) => Some(u128::from(n)),
        None => None,
    }
}

/// The count of bits that are left.
pub fn bits_left(bits: &BitCursor<'_>) -> u128
    ensures count { result ≡ length bits.now }
    ensures bits { AreBits bits.now }
{
    8 * bits.octets_left() as u128 + u128::from(bits.rest_of_octet())
}

/// Reads a number of the set in `k` bits: in one step if they are present and hold one.
///
/// # Errors
/// `Short` if the bits end before the number does. `Refused`, with the reason `why`, at the first bit after which
/// no number of the set can follow.
#[inline(always)]
pub fn read_number(k: u32, set: NumberSet, why: Why, bits: &mut BitCursor<'_>) -> Result<u64, Stop>
    requires few { k ≤ 64 }
    requires some { Meets (λ n. Admits set n) 0 k }
    ensures done { ReadsPlain (NumberIn k set) result bits.old bits.new }
    ensures member { IfOk result (λ n. Admits set n) }
    ensures stop { StopsPlain (NumberIn k set) result bits.old }
{
    match try_short_number(k, set, bits) {
        Some(n) => Ok(n),
        None => read_set_by_bits(k, set, why, bits),
    }
}

/// Reads a number of the set in `k` bits, bit by bit. A function apart, so that the intervals of the set take no part
/// of the frame of those that read numbers.
#[cold]
#[inline(never)]
fn read_set_by_bits(k: u32, set: NumberSet, why: Why, bits: &mut BitCursor<'_>) -> Result<u64, Stop>
    requires many { 1 ≤ k }
    requires few { k ≤ 64 }
    requires some { Meets (λ n. Admits set n) 0 k }
    ensures done { ReadsPlain (NumberIn k set) result bits.old bits.new }
    ensures member { IfOk result (λ n. Admits set n) }
    ensures stop { StopsPlain (NumberIn k set) result bits.old }
{
    if bits.is_empty() {
        return Err(Stop::Short);
    }
    let numbers = intervals_of(set);
    match read_slowly(k, &numbers, why, bits) {
        Ok(number) => Ok(number as u64),
        Err(stop) => Err(stop),
    }
}

/// Reads a number from 0 to `high` in `k` bits, as `read_number` does.
#[inline(always)]
pub fn read_up_to(k: u32, high: u64, why: Why, bits: &mut BitCursor<'_>) -> Result<u64, Stop>
    requires few { k ≤ 64 }
    requires some { Meets (λ n. Admits (up_to high None) n) 0 k }
    ensures done { ReadsPlain (NumberIn k (up_to high None)) result bits.old bits.new }
    ensures member { IfOk result (λ n. Admits (up_to high None) n) }
    ensures stop { StopsPlain (NumberIn k (up_to high None)) result bits.old }
{
    if k == 0 {
        return Ok(0);
    }
    let set = NumberSet {
        low: 0,
        high,
        excluded: None,
    };
    read_number(k, set, why, bits)
}

/// Reads a number of the intervals in `k` bits, 72 at most: in one step if they are present and hold one.
///
/// # Errors
/// As `read_number`.
pub fn read_number_among(
    k: u32,
    numbers: Intervals,
    why: Why,
    bits: &mut BitCursor<'_>,
) -> Result<u128, Stop>
    requires few { k ≤ 72 }
    requires some { Meets (λ n. Among numbers n) 0 k }
    ensures done { ReadsPlain (NumberAmong k numbers) result bits.old bits.new }
    ensures member { IfOk result (λ n. Among numbers n) }
    ensures fits { IfOk result (λ n. n < 2 ^ k) }
    ensures stop { StopsPlain (NumberAmong k numbers) result bits.old }
{
    match try_number_of(&numbers, k, bits) {
        Some(n) => Ok(n),
        None => read_slowly(k, &numbers, why, bits),
    }
}

/// Reads a number of the set in `k` bits, if they are present and hold one; otherwise consumes nothing.
#[inline(always)]
pub fn try_number(k: u32, set: NumberSet, bits: &mut BitCursor<'_>) -> Option<u64>
    requires { k ≤ 64 }
    ensures some { IfSome result (λ n. StandsFirst k (λ m. Admits set m) n bits.old bits.new) }
    ensures none { IsNone result → NoneStandsFirst k set bits.old }
    ensures unchanged { IsNone result → bits.new ≡ bits.old }
{
    let n = bits.peek_number(k)?;
    if admits(set, n) {
        bits.pass(k);
        return Some(n);
    }
    None
}

/// Reads a number of the set in `k` octets, where the bits left begin with an octet and it is at hand: one octet, or of
/// eight that are left. Otherwise, and where it is not of the set, consumes nothing.
#[inline(always)]
pub(crate) fn try_in_octets(k: u32, set: NumberSet, bits: &mut BitCursor<'_>) -> Option<u64>
    requires { k ≤ 8 }
    ensures some { IfSome result (λ n. StandsFirst (8 * k) (λ m. Admits set m) n bits.old bits.new) }
    ensures unchanged { IsNone result → bits.new ≡ bits.old }
{
    let n = peek_in_octets(k, bits)?;
    if admits(set, n) {
        bits.pass_octets(k);
        return Some(n);
    }
    None
}

/// The number in the next `k` octets, which stay, where they are at hand: one octet, or of eight that are left.
#[inline(always)]
pub(crate) fn peek_in_octets(k: u32, units: &BitCursor<'_>) -> Option<u64>
    requires { k ≤ 8 }
    ensures fits { IfSome result (λ n. n < 2 ^ (8 * k)) }
    ensures some { IfSome result (λ n. units.now ≡ bits (8 * k) n ++ drop (8 * k) units.now) }
{
    if k == 1 {
        units.peek_octet()
    } else {
        units.peek_octets(k)
    }
}

/// As `try_number`, and quicker where the bits stand in the next octet and few octets are left.
#[inline(always)]
fn try_short_number(k: u32, set: NumberSet, bits: &mut BitCursor<'_>) -> Option<u64>
    requires { k ≤ 64 }
    ensures some { IfSome result (λ n. StandsFirst k (λ m. Admits set m) n bits.old bits.new) }
    ensures none { IsNone result → NoneStandsFirst k set bits.old }
    ensures unchanged { IsNone result → bits.new ≡ bits.old }
{
    let n = bits.peek_short_number(k)?;
    if admits(set, n) {
        bits.pass(k);
        return Some(n);
    }
    None
}

/// Reads a number of the intervals in `k` bits that could not be taken in one step: where they are cut, in one step
/// too, else bit by bit.
#[cold]
fn read_slowly(
    k: u32,
    numbers: &Intervals,
    why: Why,
    bits: &mut BitCursor<'_>,
) -> Result<u128, Stop>
    requires many { 1 ≤ k }
    requires few { k ≤ 72 }
    requires some { Meets (λ n. Among numbers.now n) 0 k }
    ensures done { ReadsPlain (NumberAmong k numbers.now) result bits.old bits.new }
    ensures member { IfOk result (λ n. Among numbers.now n) }
    ensures fits { IfOk result (λ n. n < 2 ^ k) }
    ensures stop { StopsPlain (NumberAmong k numbers.now) result bits.old }
{
    if is_cut(k, numbers, bits) {
        return Err(Stop::Short);
    }
    read_number_by_bits(k, numbers.copied(), why, bits)
}

/// Reads a number of the intervals in `k` bits, bit by bit.
#[cold]
#[inline(never)]
fn read_number_by_bits(
    k: u32,
    numbers: Intervals,
    why: Why,
    bits: &mut BitCursor<'_>,
) -> Result<u128, Stop>
    requires many { 1 ≤ k }
    requires few { k ≤ 72 }
    requires some { Meets (λ n. Among numbers n) 0 k }
    ensures done { ReadsPlain (NumberAmong k numbers) result bits.old bits.new }
    ensures member { IfOk result (λ n. Among numbers n) }
    ensures fits { IfOk result (λ n. n < 2 ^ k) }
    ensures stop { StopsPlain (NumberAmong k numbers) result bits.old }
{
    let mut field = NumberField::new(k, numbers);
    loop {
        let Some(bit) = bits.next() else {
            return Err(Stop::Short);
        };
        match field.bit(bit == 1) {
            FieldState::Alive => {}
            FieldState::Number(n) => return Ok(n),
            FieldState::Dead => {
                return Err(Stop::Refused {
                    left: bits_left(bits),
                    why,
                });
            }
        }
    }
}

/// Whether fewer than `k` bits are left, and some number of the intervals begins with them. May be `false` where 64
/// bits or more are left.
fn is_cut(k: u32, numbers: &Intervals, bits: &BitCursor<'_>) -> bool
    requires few { k ≤ 72 }
    ensures { IsTrue result → (length bits.now < k) × Begins k (λ n. Among numbers.now n) bits.now }
{
    let octets = bits.octets_left();
    if octets >= 8 {
        return false;
    }
    let left = 8 * octets as u32 + bits.rest_of_octet();
    if left >= k {
        return false;
    }
    let Some(front) = bits.peek_number(left) else {
        return false;
    };
    numbers.meets(u128::from(front), k - left)
}

/// Reads `zeros` zero bits, which fill up octets.
///
/// # Errors
/// `Short` if fewer bits are left. `Refused`, with the reason `Padding`, at the first bit that is set.
pub fn read_padding(zeros: u32, bits: &mut BitCursor<'_>) -> Result<(), Stop>
    requires { zeros ≤ 8 }
    ensures done { ReadsPlain (Fixed (replicate zeros 0)) result bits.old bits.new }
    ensures stop { StopsPlain (Fixed (replicate zeros 0)) result bits.old }
{
    read_up_to(zeros, 0, Why::Padding, bits)?;
    Ok(())
}
