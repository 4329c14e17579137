//! Fast paths of rules that spell values in whole octets.
ghost use Rattle.std.specs.Prelude.{◌≡◌, ◌<◌, ◌++◌, ℕ, [], ◌∷◌, pos, nat_lt, length, IfSome, IsNone};
ghost use Rattle.asn_values.specs.Profile.{InProfile};
ghost use Rattle.asn_bits.specs.Numbers.{bits};
ghost use Rattle.asn_rules.specs.Components.{number_at};
ghost use Rattle.asn_rules.specs.OctetReading.{AtOctet, ReadsOctets, OctetsAmong, from_to};
ghost use Rattle.asn_walk.specs.Items.{enumeration_of, items_of, IsNumberOctet};

use crate::items::{item_count, number_at};
use asn_bits::BitCursor;
use asn_rules::internal::{NumberSet, try_octets};
use asn_values::Item;

/// Fast path: whether the next octet is 255, where it is at hand and is 0 or 255; otherwise takes nothing.
#[inline(always)]
pub fn try_truth(units: &mut BitCursor<'_>) -> Option<bool>
    requires at_octet { AtOctet units.old }
    ensures at_octet { AtOctet units.new }
    ensures done { IfSome result (λ b.
        (n : ℕ) × (b ≡ nat_lt 0 n) × ReadsOctets (OctetsAmong 1 ((0, 0) ∷ (255, 255) ∷ [])) n units.old units.new) }
    ensures unchanged { IsNone result → units.new ≡ units.old }
{
    if let Some(octet) = try_octets(1, only(0), units) {
        return Some(0 < octet);
    }
    let octet = try_octets(1, only(255), units)?;
    Some(0 < octet)
}

/// The number alone.
fn only(n: u64) -> NumberSet
    ensures { result ≡ from_to n n }
{
    NumberSet {
        low: n,
        high: n,
        excluded: None,
    }
}

/// Fast path: the position of the item whose number is the next octet, where the numbers before it run on from the first
/// item's without a gap, and the octet is at hand and below 128; otherwise takes nothing.
#[inline(always)]
pub fn try_item(root: &[Item], more: &Option<Vec<Item>>, units: &mut BitCursor<'_>) -> Option<u32>
    requires at_octet { AtOctet units.old }
    requires of_profile { InProfile (enumeration_of root.now more.now) }
    ensures at_octet { AtOctet units.new }
    ensures there { IfSome result (λ p. p < length (items_of root.now more.now)) }
    ensures number { IfSome result (λ p. IsNumberOctet (items_of root.now more.now) p units.old units.new) }
    ensures unchanged { IsNone result → units.new ≡ units.old }
{
    let octet = units.peek_octet()?;
    let first = root.first()?.number;
    let position = octet.wrapping_sub(first.cast_unsigned());
    if 128 <= octet || u64::from(item_count(root, more)) <= position {
        return None;
    }
    if number_at(root, more, position as usize) != octet as i64 {
        return None;
    }
    units.pass_octets(1);
    Some(position as u32)
}
