//! Sizes of strings and lists, and counts in octets.
ghost use Rattle.std.specs.Prelude.{◌≡◌, ◌<◌, ◌^◌, IfOk, IfErr, OnOk, IfSome, IsNone};
ghost use Rattle.asn_values.specs.Profile.{is_fixed_size};
ghost use Rattle.asn_values.specs.View.{size_range_of};
ghost use Rattle.asn_rules.specs.OctetReading.{AtOctet, ReadsOctets, StopsAtOctets};
ghost use Rattle.asn_walk.specs.Laws.{IsSizeOfProfile};
ghost use Rattle.asn_walk.specs.Sizes.{AreCounts, Count, ReadsSized};

use asn_bits::BitCursor;
use asn_rules::MAX_OCTETS;
use asn_rules::internal::{NumberSet, Stop, read_length, try_length, try_row};
use asn_values::Size;
use std::alloc::Global;

/// Whether there is one length only. A size with an extension mark has more.
pub fn is_fixed(size: &Size) -> bool
    ensures { result ≡ is_fixed_size (size_range_of size.now) }
{
    !size.ext && size.high.is_some_and(|high| size.low == high)
}

/// The counts that a size leaves, within the limit of the profile.
pub fn counts_of(size: &Size) -> NumberSet
    requires of_profile { IsSizeOfProfile (size_range_of size.now) }
    ensures are { AreCounts (size_range_of size.now) result }
    ensures narrow { result.high < 2 ^ 32 }
{
    let (low, high) = if size.ext {
        (0, MAX_OCTETS as u64)
    } else {
        match size.high {
            Some(high) => (u64::from(size.low), u64::from(high)),
            None => (u64::from(size.low), MAX_OCTETS as u64),
        }
    };
    NumberSet {
        low,
        high,
        excluded: None,
    }
}

/// Reads how many octets a string of this size has: as many as the size says, or, where it leaves more than one count,
/// the length before them (X.696, "length determinant").
///
/// # Errors
/// As `read_length`.
pub fn read_count(size: &Size, units: &mut BitCursor<'_>) -> Result<usize, Stop>
    requires at_octet { AtOctet units.old }
    requires of_profile { IsSizeOfProfile (size_range_of size.now) }
    ensures at_octet { OnOk result (AtOctet units.new) }
    ensures done { IfOk result (λ n. ReadsOctets (Count (size_range_of size.now)) n units.old units.new) }
    ensures stop { IfErr result (λ why. StopsAtOctets (Count (size_range_of size.now)) units.old why) }
{
    if is_fixed(size) {
        return Ok(size.low as usize);
    }
    let counts = counts_of(size);
    Ok(read_length(counts.low, counts.high, units)? as usize)
}

/// Fast path: how many octets a string of this size has, where its length is at hand; otherwise takes nothing.
#[inline(always)]
pub fn try_count(size: &Size, units: &mut BitCursor<'_>) -> Option<usize>
    requires at_octet { AtOctet units.old }
    requires of_profile { IsSizeOfProfile (size_range_of size.now) }
    ensures at_octet { AtOctet units.new }
    ensures done { IfSome result (λ n. ReadsOctets (Count (size_range_of size.now)) n units.old units.new) }
    ensures unchanged { IsNone result → units.new ≡ units.old }
{
    if is_fixed(size) {
        return Some(size.low as usize);
    }
    let counts = counts_of(size);
    let n = try_length(counts.low, counts.high, units)?;
    Some(n as usize)
}

/// Fast path: the octets of a string of this size, where they are at hand and there is memory for them; otherwise takes
/// nothing.
#[inline(always)]
pub fn try_sized_octets(alloc: Global, size: &Size, units: &mut BitCursor<'_>) -> Option<Vec<u8>>
    requires at_octet { AtOctet units.old }
    requires of_profile { IsSizeOfProfile (size_range_of size.now) }
    ensures at_octet { AtOctet units.new }
    ensures done { IfSome result (λ os. ReadsSized (size_range_of size.now) os.items units.old units.new) }
    ensures unchanged { IsNone result → units.new ≡ units.old }
{
    let mut ahead = units.copied();
    let count = try_count(size, &mut ahead)?;
    let octets = try_row(alloc, count, &mut ahead)?;
    *units = ahead;
    Some(octets)
}
