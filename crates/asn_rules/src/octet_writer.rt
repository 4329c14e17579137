//! Writers of lengths and octets (X.696, "length determinant"), and of the zeros that fill up octets.
ghost use Rattle.std.specs.Prelude.{◌≡◌, ◌*◌, ◌^◌, ◌<◌, ◌≤◌, ◌≤ℤ◌, ◌++◌, OnOk};
ghost use Rattle.asn_values.specs.Fits.{lowest_integer, highest_integer};
ghost use Rattle.asn_bits.specs.Lengths.{general_octets, octet_length};
ghost use Rattle.asn_bits.specs.Numbers.{bits, least, least_signed, padding, unpacked};
ghost use Rattle.asn_rules.specs.Fields.{spelled};
ghost use Rattle.asn_rules.specs.Filled.{unused_bits};
ghost use Rattle.asn_rules.specs.OctetsWritten.{fixed_octets, filled, flagged};

use asn_bits::internal::{least_parts, octet_count, signed_octet_count, signed_residue};
use asn_sinks::Sink;

/// One more than the highest number of 64 bits.
const WORD: u128 = 1 << 64;

/// The first length that one octet does not tell.
const LONG: u64 = 128;

/// Writes a length (X.696, "length determinant"): one octet to 127, and else 128 and a count of octets, and the length
/// in the fewest octets.
///
/// # Errors
/// That of the sink.
#[inline(always)]
pub fn write_length<S: Sink>(length: usize, sink: &mut S) -> Result<(), S::Fault>
    ensures { OnOk result (S.pushes sink.old sink.new (unpacked (octet_length length))) }
{
    let length = length as u64;
    if length < LONG {
        sink.push_low_octets(1, length)
    } else if length < 1 << 8 {
        sink.push_low_octets(2, 0x8100 + length)
    } else if length < 1 << 16 {
        sink.push_low_octets(3, 0x82_0000 + length)
    } else {
        write_long_length(length, sink)
    }
}

/// Writes a length that one octet does not tell.
#[inline(never)]
fn write_long_length<S: Sink>(length: u64, sink: &mut S) -> Result<(), S::Fault>
    requires { 128 ≤ length }
    ensures { OnOk result (S.pushes sink.old sink.new (unpacked (octet_length length))) }
{
    let count = octet_count(length);
    sink.push_low_octets(1, 128 + u64::from(count))?;
    sink.push_low_octets(count, length)
}

/// Writes octets after their length.
///
/// # Errors
/// That of the sink.
pub fn write_content<S: Sink>(octets: &[u8], sink: &mut S) -> Result<(), S::Fault>
    ensures { OnOk result (S.pushes sink.old sink.new (unpacked (spelled octets.now))) }
{
    write_length(octets.len(), sink)?;
    sink.push_row(octets)
}

/// Writes the zeros that fill up the last octet of `count` bits.
///
/// # Errors
/// That of the sink.
pub fn write_filling<S: Sink>(count: usize, sink: &mut S) -> Result<(), S::Fault>
    ensures { OnOk result (S.pushes sink.old sink.new (padding count)) }
{
    sink.push_number(unused_bits(count), 0)
}

/// How many bits of the last octet of `count` bits are unused.
pub fn unused_bits(count: usize) -> u32
    ensures { result ≡ unused_bits count }
{
    (8 - (count % 8) as u32) % 8
}

/// Writes the fewest octets of a number after their count.
///
/// # Errors
/// That of the sink.
pub fn write_least<S: Sink>(n: u64, sink: &mut S) -> Result<(), S::Fault>
    ensures { OnOk result (S.pushes sink.old sink.new (general_octets (λ u. u) (least n))) }
{
    let count = octet_count(n);
    sink.push_low_octets(1, u64::from(count))?;
    sink.push_low_octets(count, n)
}

/// Writes the fewest octets of a number of up to 72 bits after their count.
///
/// # Errors
/// That of the sink.
pub fn write_wide_least<S: Sink>(n: u128, sink: &mut S) -> Result<(), S::Fault>
    requires { n < 2 ^ 72 }
    ensures { OnOk result (S.pushes sink.old sink.new (general_octets (λ u. u) (least n))) }
{
    if n < WORD {
        return sink.push_least_octets(n as u64);
    }
    let (front_bits, front, rest_bits, rest) = least_parts(n);
    sink.push_number(front_bits, front)?;
    sink.push_number(rest_bits, rest)
}

/// Writes `n` in `k` bits, 72 at most, the highest first.
///
/// # Errors
/// That of the sink.
pub fn write_wide_number<S: Sink>(k: u32, n: u128, sink: &mut S) -> Result<(), S::Fault>
    requires few { k ≤ 72 }
    requires fits { n < 2 ^ k }
    ensures { OnOk result (S.pushes sink.old sink.new (bits k n)) }
{
    if k <= 64 {
        return sink.push_number(k, n as u64);
    }
    sink.push_number(k - 64, (n / WORD) as u64)?;
    sink.push_number(64, (n % WORD) as u64)
}

/// Writes the fewest octets of two's complement of an integer of the profile after their count.
///
/// # Errors
/// That of the sink.
pub fn write_least_signed<S: Sink>(z: i128, sink: &mut S) -> Result<(), S::Fault>
    requires low { lowest_integer ≤ℤ z }
    requires high { z ≤ℤ highest_integer }
    ensures { OnOk result (S.pushes sink.old sink.new (general_octets (λ u. u) (least_signed z))) }
{
    let count = signed_octet_count(z);
    if count > 8 {
        return sink.push_least_signed_octets(z);
    }
    let residue = signed_residue(z, count);
    match count {
        1 => sink.push_low_octets(2, (1 << 8) + residue),
        2 => sink.push_low_octets(3, (2 << 16) + residue),
        _ => {
            sink.push_low_octets(1, u64::from(count))?;
            sink.push_low_octets(count, residue)
        }
    }
}

/// Writes the last octets of `n`, as many of 1, 2, 4 and 8 as hold the numbers up to `greatest`.
///
/// # Errors
/// That of the sink.
#[inline(always)]
pub fn write_fixed<S: Sink>(greatest: u64, n: u64, sink: &mut S) -> Result<(), S::Fault>
    ensures { OnOk result (S.pushes sink.old sink.new (bits (8 * fixed_octets greatest) n)) }
{
    if greatest < 1 << 8 {
        sink.push_low_octets(1, n)
    } else if greatest < 1 << 16 {
        sink.push_low_octets(2, n)
    } else if greatest < 1 << 32 {
        sink.push_low_octets(4, n)
    } else {
        sink.push_low_octets(8, n)
    }
}

/// Writes a number in `count` bits, and the zeros that fill up its octet.
#[inline(always)]
fn write_in_octet<S: Sink>(count: u32, n: u64, sink: &mut S) -> Result<(), S::Fault>
    requires few { count ≤ 8 }
    requires some { 1 ≤ count }
    requires fits { n < 2 ^ count }
    ensures { OnOk result (S.pushes sink.old sink.new (bits count n ++ padding count)) }
{
    sink.push_low_octets(1, n << (8 - count))
}

/// Writes a bit, where there is one, and `count` bits after it, and the zeros that fill up their octets.
///
/// # Errors
/// That of the sink.
#[inline(always)]
pub fn write_flags<S: Sink>(
    first: Option<bool>,
    count: u32,
    flags: u64,
    sink: &mut S,
) -> Result<(), S::Fault>
    requires few { count ≤ 64 }
    requires within { flags < 2 ^ count }
    ensures { OnOk result (S.pushes sink.old sink.new (filled (flagged first (bits count flags)))) }
{
    match first {
        None if count == 0 => Ok(()),
        None if count <= 8 => write_in_octet(count, flags, sink),
        Some(bit) if count < 8 => write_in_octet(
            1 + count,
            (u64::from(bit) << count) + flags,
            sink,
        ),
        _ => write_long_flags(first, count, flags, sink),
    }
}

/// Writes the same, where there may be more bits than an octet has.
#[inline(never)]
fn write_long_flags<S: Sink>(
    first: Option<bool>,
    count: u32,
    flags: u64,
    sink: &mut S,
) -> Result<(), S::Fault>
    requires few { count ≤ 64 }
    requires within { flags < 2 ^ count }
    ensures { OnOk result (S.pushes sink.old sink.new (filled (flagged first (bits count flags)))) }
{
    let front = u32::from(first.is_some());
    if let Some(bit) = first {
        sink.push(bit)?;
    }
    sink.push_number(count, flags)?;
    write_filling((front + count) as usize, sink)
}
