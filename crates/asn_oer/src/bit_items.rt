//! BIT STRING in octets that may come in pieces (X.696, "encoding of bit string types").
ghost use Rattle.std.specs.Prelude.{◌≡◌, IfOk, IfErr, OnOk, List, length, []};
ghost use Rattle.std.specs.List.{AllByRecursion};
ghost use Rattle.asn_values.specs.Datum.{bit_list};
ghost use Rattle.asn_values.specs.Profile.{InProfile};
ghost use Rattle.asn_values.specs.Shape.{bit_string};
ghost use Rattle.asn_values.specs.View.{size_range_of};
ghost use Rattle.asn_rules.specs.Chunks.{Chunk};
ghost use Rattle.asn_rules.specs.Fields.{octet_fields};
ghost use Rattle.asn_rules.specs.Filled.{filled_octets};
ghost use Rattle.asn_rules.specs.Languages.{Spells};
ghost use Rattle.asn_rules.specs.OctetReading.{AtOctet, ReadsOctets, StopsAtOctets};
ghost use Rattle.asn_rules.specs.OctetStrings.{PackedBits};
ghost use Rattle.asn_walk.specs.Laws.{IsSizeOfProfile};
ghost use Rattle.asn_walk_feed.specs.Octets.{OctetsOf, start_seen};
ghost use Rattle.asn_walk_feed.specs.OpenFields.{StopsAfter};
ghost use Rattle.asn_oer.specs.ElementsAhead.{ahead_of};
ghost use Rattle.asn_oer.specs.SingleItems.{BitsStart, bit_octets_of, AreBitsOf, AreNoBits, RefusedAtEnd};

use asn_bits::BitCursor;
use asn_rules::Why;
use asn_rules::internal::{NumberSet, Stop, read_length, read_octets, read_packed};
use asn_rules::laws::are_octets;
use asn_values::Size;
use asn_walk::sizes::{counts_of, is_fixed};
use asn_walk_feed::ItemsStart;
use std::alloc::Global;

/// Reads what stands before the octets of bits of this size: nothing, or, where it leaves more than one count, their
/// length and the number of unused bits, which is the first octet that is given.
///
/// # Errors
/// As `read_length` for the length. `Refused`, with the reason `Padding`, at a number of unused bits that leaves no
/// count of the size.
pub(crate) fn start_bits(
    size: &Size,
    units: &mut BitCursor<'_>,
) -> Result<ItemsStart<Option<usize>>, Stop>
    requires at_octet { AtOctet units.old }
    requires of_profile { IsSizeOfProfile (size_range_of size.now) }
    ensures at_octet { OnOk result (AtOctet units.new) }
    ensures done { IfOk result (λ s.
        ReadsOctets (BitsStart (size_range_of size.now)) (start_seen ahead_of s) units.old units.new) }
    ensures stop { IfErr result (λ why. StopsAtOctets (BitsStart (size_range_of size.now)) units.old why) }
{
    if is_fixed(size) {
        return Ok(ItemsStart {
            first: None,
            fragments: Some((size.low as usize + 7) / 8),
        });
    }
    let counts = counts_of(size);
    let length = read_length(1 + (counts.low + 7) / 8, 1 + (counts.high + 7) / 8, units)?;
    let all = 8 * (length - 1);
    let leaving_a_count = NumberSet {
        low: all.saturating_sub(counts.high),
        high: (all - counts.low).min(7),
        excluded: None,
    };
    let unused = read_octets(1, leaving_a_count, Why::Padding, units)?;
    Ok(ItemsStart {
        first: Some(unused as u8),
        fragments: Some((length - 1) as usize),
    })
}

/// The bits of this size that are in these octets, after which this many units are left.
///
/// # Errors
/// `Refused` at the last octet where it does not end in zeros. `Memory` if an allocation failed.
pub(crate) fn bits_of(
    alloc: Global,
    size: &Size,
    octets: &[u8],
    left: u128,
) -> Result<Vec<bool>, Stop>
    requires of_profile { InProfile (bit_string (size_range_of size.now)) }
    requires spelt { (cs : List Chunk) × OctetsOf (bit_octets_of (size_range_of size.now)) octets.now cs }
    ensures done { IfOk result (λ bs. AreBitsOf (size_range_of size.now) octets.now (bit_list bs.items)) }
    ensures stop { IfErr result (λ why. AreNoBits (size_range_of size.now) octets.now left why) }
    ensures after { IfErr result (λ why. StopsAfter left why) }
{
    if is_fixed(size) {
        return packed_bits(alloc, size.low as usize, octets, left);
    }
    let unused = octets[0] as usize;
    let filled = &octets[1..];
    packed_bits(alloc, 8 * filled.len() - unused, filled, left)
}

/// The `count` bits that fill these octets, after which this many units are left.
fn packed_bits(alloc: Global, count: usize, octets: &[u8], left: u128) -> Result<Vec<bool>, Stop>
    requires filled { length octets.now ≡ filled_octets count }
    ensures done { IfOk result (λ bs. Spells octet_fields (PackedBits count) bs.items octets.now []) }
    ensures stop { IfErr result (λ why. RefusedAtEnd count octets.now left why) }
{
    are_octets(octets);
    let mut units = BitCursor::over(octets);
    let no_bits = Stop::Refused {
        left,
        why: Why::Padding,
    };
    match read_packed(alloc, count, &mut units) {
        Ok(bits) => Ok(bits),
        Err(Stop::Memory) => Err(Stop::Memory),
        Err(Stop::Short) => Err(no_bits),
        Err(Stop::Refused { .. }) => Err(no_bits),
    }
}
