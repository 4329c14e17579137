//! Intervals, lengths and characters, and what is counted in a value.
ghost use Rattle.std.specs.Prelude.{◌≡◌, map};
ghost use Rattle.asn_values.specs.View.{datum_of};
ghost use Rattle.asn_constraints.specs.Constraints.{is_among, is_one_of, is_length, is_trimmed, scalars, length_of, are_among};
ghost use Rattle.asn_constraints.specs.View.{interval_of, lengths_of};

use crate::constraint::{Interval, Lengths};
use asn_values::Value;

/// Whether the number lies in one of the intervals.
pub fn is_among(intervals: &[Interval], number: i128) -> bool
    ensures { result ≡ is_among (map interval_of intervals.now) number }
{
    for interval in intervals {
        if interval.low <= number && number <= interval.high {
            return true;
        }
    }
    false
}

/// Whether each code lies in one of the intervals.
pub(crate) fn are_among(intervals: &[Interval], codes: &[u8]) -> bool
    ensures { result ≡ are_among (map interval_of intervals.now) codes.now }
{
    for code in codes {
        if !is_among(intervals, *code as i128) {
            return false;
        }
    }
    true
}

/// Whether the position is one of these.
pub fn is_one_of(positions: &[u32], position: u32) -> bool
    ensures { result ≡ is_one_of positions.now position }
{
    for other in positions {
        if *other == position {
            return true;
        }
    }
    false
}

/// Whether the length lies between one of the pairs of bounds.
pub fn is_length(lengths: &[Lengths], length: usize) -> bool
    ensures { result ≡ is_length (map lengths_of lengths.now) length }
{
    for bounds in lengths {
        if bounds.low as usize <= length && bounds.high.is_none_or(|high| length <= high as usize) {
            return true;
        }
    }
    false
}

/// Whether the bits have no last zeros above the length `low`.
pub(crate) fn is_trimmed(low: u32, bits: &[bool]) -> bool
    ensures { result ≡ is_trimmed low bits.now }
{
    bits.len() <= low as usize || bits[bits.len() - 1]
}

/// How many characters the octets of a UTF8String are: those octets that do not go on with a character.
fn characters_in(octets: &[u8]) -> usize
    ensures { result ≡ scalars octets.now }
{
    let mut count = 0;
    for octet in octets {
        if *octet < 128 || 192 <= *octet {
            count += 1;
        }
    }
    count
}

/// How many bits, octets, characters or elements the value has, if it is a string or a list.
pub(crate) fn length_of(value: &Value) -> Option<usize>
    ensures { result ≡ length_of (datum_of value.now) }
{
    match value {
        Value::Bits(bits) => Some(bits.len()),
        Value::Octets(octets) => Some(octets.len()),
        Value::Text(codes) => Some(codes.len()),
        Value::Utf8(text) => Some(characters_in(text.as_bytes())),
        Value::List(elements) => Some(elements.len()),
        _ => None,
    }
}
