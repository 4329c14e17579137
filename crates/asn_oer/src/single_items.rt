//! What stands before octets and items in Canonical OER, and one of them (X.696, "length determinant", "open type").
ghost use Rattle.std.specs.Prelude.{IfOk, IfErr, OnOk, ◌≡◌, ℕ, true};
ghost use Rattle.asn_values.specs.Fits.{is_of_kind};
ghost use Rattle.asn_values.specs.View.{alphabet_of, size_range_of};
ghost use Rattle.asn_bits.specs.Sets.{Among, Meets};
ghost use Rattle.asn_rules.specs.Fields.{OneOctet};
ghost use Rattle.asn_rules.specs.OctetReading.{AtOctet, ReadsOctets, StopsAtOctets};
ghost use Rattle.asn_rules.specs.OctetStrings.{Character};
ghost use Rattle.asn_walk.specs.Laws.{IsSizeOfProfile};
ghost use Rattle.asn_walk.specs.Sizes.{Count};
ghost use Rattle.asn_walk_feed.specs.Octets.{start_seen};
ghost use Rattle.asn_oer.specs.ElementsAhead.{ahead_of};
ghost use Rattle.asn_oer.specs.SingleItems.{InFront, any_octets};

use asn_bits::{BitCursor, Intervals};
use asn_rules::internal::{Stop, numbers, read_length, read_octets, read_octets_among, try_octets};
use asn_rules::{MAX_OCTETS, Why};
use asn_values::{Size, TextKind};
use asn_walk::sizes::read_count;
use asn_walk_feed::ItemsStart;

/// Reads the length that stands before octets of any number.
///
/// # Errors
/// As `read_length`.
pub(crate) fn start_any(units: &mut BitCursor<'_>) -> Result<ItemsStart<Option<usize>>, Stop>
    requires at_octet { AtOctet units.old }
    ensures at_octet { OnOk result (AtOctet units.new) }
    ensures done { IfOk result (λ s. ReadsOctets any_octets.start (start_seen ahead_of s) units.old units.new) }
    ensures stop { IfErr result (λ why. StopsAtOctets any_octets.start units.old why) }
{
    let count = read_length(0, MAX_OCTETS as u64, units)?;
    Ok(ItemsStart {
        first: None,
        fragments: Some(count as usize),
    })
}

/// Reads how many items a string of this size has.
///
/// # Errors
/// As `read_count`.
pub(crate) fn start_items(
    size: &Size,
    units: &mut BitCursor<'_>,
) -> Result<ItemsStart<Option<usize>>, Stop>
    requires at_octet { AtOctet units.old }
    requires of_profile { IsSizeOfProfile (size_range_of size.now) }
    ensures at_octet { OnOk result (AtOctet units.new) }
    ensures done { IfOk result (λ s.
        ReadsOctets (InFront (Count (size_range_of size.now))) (start_seen ahead_of s) units.old units.new) }
    ensures stop { IfErr result (λ why. StopsAtOctets (InFront (Count (size_range_of size.now))) units.old why) }
{
    let count = read_count(size, units)?;
    Ok(ItemsStart {
        first: None,
        fragments: Some(count),
    })
}

/// Reads an octet, whatever it is.
///
/// # Errors
/// `Short` where none is left.
pub(crate) fn read_any_octet(units: &mut BitCursor<'_>) -> Result<u8, Stop>
    requires at_octet { AtOctet units.old }
    ensures at_octet { OnOk result (AtOctet units.new) }
    ensures done { IfOk result (λ o. ReadsOctets OneOctet o units.old units.new) }
    ensures stop { IfErr result (λ why. StopsAtOctets OneOctet units.old why) }
{
    if let Some(octet) = try_octets(1, numbers(0, 255), units) {
        return Ok(octet as u8);
    }
    let octet = read_octets_among(1, Intervals::one(0, 255), Why::Sealed, units)?;
    Ok(octet as u8)
}

/// Reads a character of the kind.
///
/// # Errors
/// `Refused`, with the reason `Character`, at an octet that is none. `Short` where no octet is left.
pub(crate) fn read_character(kind: TextKind, units: &mut BitCursor<'_>) -> Result<u8, Stop>
    requires at_octet { AtOctet units.old }
    ensures at_octet { OnOk result (AtOctet units.new) }
    ensures done { IfOk result (λ c. ReadsOctets (Character (alphabet_of kind)) c units.old units.new) }
    ensures stop { IfErr result (λ why. StopsAtOctets (Character (alphabet_of kind)) units.old why) }
{
    let octet = read_octets_among(1, characters_of(kind), Why::Character, units)?;
    Ok(octet as u8)
}

/// The characters of the kind, as numbers.
fn characters_of(kind: TextKind) -> Intervals
    ensures there { (c : ℕ) → Among result c → is_of_kind (alphabet_of kind) c ≡ true }
    ensures back { (c : ℕ) → is_of_kind (alphabet_of kind) c ≡ true → Among result c }
    ensures some { Meets (λ c. Among result c) 0 8 }
{
    match kind {
        TextKind::Ia5 => Intervals::one(0, 127),
        TextKind::Numeric => Intervals::one(32, 32).and(48, 57),
        TextKind::Visible => Intervals::one(32, 126),
    }
}
