//! Readers of length determinants in octets (X.696, "length determinant"), and of octets in a row, after one or
//! not, each refused at the first octet after which nothing that it reads can follow.
ghost use Rattle.std.specs.Prelude.{◌≡◌, ◌≤◌, ◌<◌, ◌^◌, IfOk, IfErr, OnOk, IfSome, IsNone};
ghost use Rattle.asn_bits.specs.Sets.{Between};
ghost use Rattle.asn_rules.specs.Fields.{OctetLength, OctetsAfterLength, OneOctet};
ghost use Rattle.asn_rules.specs.Languages.{Row};
ghost use Rattle.asn_rules.specs.OctetReading.{AtOctet, ReadsOctets, StopsAtOctets};

use crate::fault::Why;
use crate::number_reader::try_in_octets;
use crate::octet_reader::{numbers, octets_left};
use crate::stop::Stop;
use crate::whole_number_reader::greatest_of_width;
use asn_bits::internal::octet_count;
use asn_bits::{BitCursor, Counts, FieldState, OctetLengths};
use std::alloc::Global;

/// Reads a length from `low` to `high` (X.696, "length determinant"): in one step if it has one octet.
///
/// # Errors
/// `Short` if the octets end before the length does. `Refused`, with the reason `Length`, at the first octet after
/// which no such length can follow.
#[inline(always)]
pub fn read_length(low: u64, high: u64, units: &mut BitCursor<'_>) -> Result<u64, Stop>
    requires at_octet { AtOctet units.old }
    requires ordered { low ≤ high }
    requires narrow { high < 2 ^ 32 }
    ensures at_octet { OnOk result (AtOctet units.new) }
    ensures within { IfOk result (λ n. Between low high n) }
    ensures done { IfOk result (λ n. ReadsOctets (OctetLength (Between low high)) n units.old units.new) }
    ensures stop { IfErr result (λ why. StopsAtOctets (OctetLength (Between low high)) units.old why) }
{
    if let Some(n) = try_length(low, high, units) {
        return Ok(n);
    }
    read_length_by_octets(low, high, units)
}

/// Fast path: a length from `low` to `high` of one octet, or of one to four octets after the first one where eight
/// octets are left; otherwise takes nothing.
#[inline(always)]
pub fn try_length(low: u64, high: u64, units: &mut BitCursor<'_>) -> Option<u64>
    requires at_octet { AtOctet units.old }
    requires narrow { high < 2 ^ 32 }
    ensures at_octet { AtOctet units.new }
    ensures within { IfSome result (λ n. Between low high n) }
    ensures done { IfSome result (λ n. ReadsOctets (OctetLength (Between low high)) n units.old units.new) }
    ensures unchanged { IsNone result → units.new ≡ units.old }
{
    if let Some(n) = try_short_length(low, high, units) {
        return Some(n);
    }
    try_long_length(low, high, units)
}

/// Fast path: a length from `low` to `high` that one octet tells, where it is at hand; otherwise takes nothing.
#[inline(always)]
fn try_short_length(low: u64, high: u64, units: &mut BitCursor<'_>) -> Option<u64>
    requires at_octet { AtOctet units.old }
    requires narrow { high < 2 ^ 32 }
    ensures at_octet { AtOctet units.new }
    ensures within { IfSome result (λ n. Between low high n) }
    ensures done { IfSome result (λ n. ReadsOctets (OctetLength (Between low high)) n units.old units.new) }
    ensures unchanged { IsNone result → units.new ≡ units.old }
{
    let n = try_in_octets(1, numbers(low, high.min(127)), units)?;
    Some(n)
}

/// Fast path: a length from `low` to `high` in one to four octets after the first one, where eight octets are left;
/// otherwise takes nothing.
#[inline(always)]
fn try_long_length(low: u64, high: u64, units: &mut BitCursor<'_>) -> Option<u64>
    requires at_octet { AtOctet units.old }
    requires narrow { high < 2 ^ 32 }
    ensures at_octet { AtOctet units.new }
    ensures within { IfSome result (λ n. Between low high n) }
    ensures done { IfSome result (λ n. ReadsOctets (OctetLength (Between low high)) n units.old units.new) }
    ensures unchanged { IsNone result → units.new ≡ units.old }
{
    let first = units.peek_octet()?;
    if first <= 128 || 132 < first {
        return None;
    }
    let count = first as u32 - 128;
    let all = units.peek_octets(1 + count)?;
    let n = all & greatest_of_width(8 * count);
    let same = all >> (8 * count) == first;
    if same && 128 <= n && octet_count(n) == count && low <= n && n <= high {
        units.pass_octets(1 + count);
        return Some(n);
    }
    None
}

/// Reads a length from `low` to `high`, octet by octet.
#[inline(never)]
fn read_length_by_octets(low: u64, high: u64, units: &mut BitCursor<'_>) -> Result<u64, Stop>
    requires at_octet { AtOctet units.old }
    requires ordered { low ≤ high }
    requires narrow { high < 2 ^ 32 }
    ensures at_octet { OnOk result (AtOctet units.new) }
    ensures within { IfOk result (λ n. Between low high n) }
    ensures done { IfOk result (λ n. ReadsOctets (OctetLength (Between low high)) n units.old units.new) }
    ensures stop { IfErr result (λ why. StopsAtOctets (OctetLength (Between low high)) units.old why) }
{
    let counts = Counts {
        low: low as u32,
        high: high as u32,
    };
    let mut lengths = OctetLengths::new(counts, None);
    while let Some(octet) = units.take_number(8) {
        match lengths.octet(octet as u8) {
            FieldState::Alive => {}
            FieldState::Number(n) => return Ok(n as u64),
            FieldState::Dead => {
                return Err(Stop::Refused {
                    left: octets_left(units) as u128,
                    why: Why::Length,
                });
            }
        }
    }
    Err(Stop::Short)
}

/// Reads octets after their length, which is from `low` to `high`.
///
/// # Errors
/// As `read_length`, and `read_row` for the octets.
pub fn read_octets_with_length(
    alloc: Global,
    low: u64,
    high: u64,
    units: &mut BitCursor<'_>,
) -> Result<Vec<u8>, Stop>
    requires at_octet { AtOctet units.old }
    requires ordered { low ≤ high }
    requires narrow { high < 2 ^ 32 }
    ensures at_octet { OnOk result (AtOctet units.new) }
    ensures done { IfOk result (λ o. ReadsOctets (OctetsAfterLength (Between low high)) o.items units.old units.new) }
    ensures stop { IfErr result (λ why. StopsAtOctets (OctetsAfterLength (Between low high)) units.old why) }
{
    let count = read_length(low, high, units)?;
    read_row(alloc, count as usize, units)
}

/// Fast path: `count` octets, where they are left and there is memory for them; otherwise takes nothing.
#[inline(always)]
pub fn try_row(alloc: Global, count: usize, units: &mut BitCursor<'_>) -> Option<Vec<u8>>
    requires at_octet { AtOctet units.old }
    ensures at_octet { AtOctet units.new }
    ensures done { IfSome result (λ os. ReadsOctets (Row OneOctet count) os.items units.old units.new) }
    ensures unchanged { IsNone result → units.new ≡ units.old }
{
    if octets_left(units) < count {
        return None;
    }
    match units.take_row(alloc, count) {
        Ok(octets) => Some(octets),
        Err(_) => None,
    }
}

/// Reads `count` octets, all at once.
///
/// # Errors
/// `Short` if fewer octets are left. `Memory` if an allocation failed.
pub fn read_row(alloc: Global, count: usize, units: &mut BitCursor<'_>) -> Result<Vec<u8>, Stop>
    requires at_octet { AtOctet units.old }
    ensures at_octet { OnOk result (AtOctet units.new) }
    ensures done { IfOk result (λ os. ReadsOctets (Row OneOctet count) os.items units.old units.new) }
    ensures stop { IfErr result (λ why. StopsAtOctets (Row OneOctet count) units.old why) }
{
    if octets_left(units) < count {
        return Err(Stop::Short);
    }
    let octets = units.take_row(alloc, count)?;
    Ok(octets)
}
