//! The tag of an alternative of a CHOICE (X.696, "encoding of tags").
ghost use Rattle.std.specs.Prelude.{◌≡◌, ◌≤◌, ◌<◌, ◌^◌, ℕ, OnOk};
ghost use Rattle.asn_oer.specs.Words.{tag, unpacked, Among, Meets, AtOctet, Tags, LongTags, LongTagOctet, Reads, StopsIn};

use asn_bits::{BitCursor, Intervals};
use asn_rules::Why;
use asn_rules::internal::{Stop, numbers, read_octets, read_octets_among};
use asn_sinks::Sink;

/// Writes a context-specific tag: one octet up to 62.
#[inline(always)]
pub(crate) fn write_tag<S: Sink>(number: usize, sink: &mut S) -> Result<(), S::Fault>
    requires { number < 2 ^ 14 }
    ensures { OnOk result (S.pushes sink.old sink.new (unpacked (tag number))) }
{
    if number < 63 {
        sink.push_low_octets(1, 128 + number as u64)
    } else {
        write_long_tag(number as u64, sink)
    }
}

/// Writes a tag from 63 on: 191, and the tag in base 128, with the high bit set in all octets but the last.
#[inline(never)]
fn write_long_tag<S: Sink>(number: u64, sink: &mut S) -> Result<(), S::Fault>
    requires long { 63 ≤ number }
    requires few { number < 2 ^ 14 }
    ensures { OnOk result (S.pushes sink.old sink.new (unpacked (tag number))) }
{
    if number < 128 {
        sink.push_low_octets(2, 0xbf00 + number)
    } else {
        sink.push_low_octets(3, 0xbf_8000 + 256 * (number / 128) + number % 128)
    }
}

/// Reads the tag of an alternative, of which there are `count`.
///
/// # Errors
/// `Short` if the octets end before the tag does. `Refused` at the first octet with which no such tag goes on.
#[inline(always)]
pub(crate) fn read_tag(count: usize, units: &mut BitCursor<'_>) -> Result<usize, Stop>
    requires at_octet { AtOctet units.old }
    requires some { 0 < count }
    requires few { count ≤ 2 ^ 14 }
    ensures at_octet { OnOk result (AtOctet units.new) }
    ensures done { Reads result (λ t. t) (Tags count) units.old units.new }
    ensures stop { StopsIn result (Tags count) units.old }
{
    let first = read_octets(
        1,
        numbers(128, 127 + count.min(64) as u64),
        Why::Number,
        units,
    )?;
    if first < 191 {
        return Ok((first - 128) as usize);
    }
    read_long_tag(count, units)
}

/// Reads a tag from 63 on, after the octet 191.
#[inline(never)]
fn read_long_tag(count: usize, units: &mut BitCursor<'_>) -> Result<usize, Stop>
    requires at_octet { AtOctet units.old }
    requires some { 63 < count }
    requires few { count ≤ 2 ^ 14 }
    ensures at_octet { OnOk result (AtOctet units.new) }
    ensures done { Reads result (λ t. t) (LongTags count) units.old units.new }
    ensures stop { StopsIn result (LongTags count) units.old }
{
    let octet = read_octets_among(1, first_octets(count), Why::Number, units)? as usize;
    if octet < 128 {
        return Ok(octet);
    }
    let before = 128 * (octet - 128);
    let most = (count - 1 - before).min(127) as u64;
    let last = read_octets(1, numbers(0, most), Why::Number, units)?;
    Ok(before + last as usize)
}

/// The first octets of the tags from 63 on in base 128.
fn first_octets(count: usize) -> Intervals
    requires some { 63 < count }
    requires few { count ≤ 2 ^ 14 }
    ensures there { (b : ℕ) → Among result b → LongTagOctet count b }
    ensures back { (b : ℕ) → LongTagOctet count b → Among result b }
    ensures some { Meets (λ b. Among result b) 0 8 }
{
    let to_127 = Intervals::one(63, count.min(128) as u128 - 1);
    if count <= 128 {
        return to_127;
    }
    to_127.and(129, 128 + (count as u128 - 1) / 128)
}
