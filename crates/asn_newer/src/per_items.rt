//! The items that an ENUMERATED with an extension mark has not, as PER tells them.
ghost use Rattle.std.specs.Prelude.{◌≤◌, ◌<◌, ◌↔◌, IfOk, IfErr, IsTrue};
ghost use Rattle.asn_values.specs.Profile.{most_items, most_item_additions};
ghost use Rattle.asn_rules.specs.Languages.{Spells};
ghost use Rattle.asn_per.specs.Kinds.{SmallBelow};
ghost use Rattle.asn_per.specs.Per.{per_fields};
ghost use Rattle.asn_per.specs.Walk.{per_coding};
ghost use Rattle.asn_newer.specs.Halting.{HaltsAt};
ghost use Rattle.asn_newer.specs.Rules.{IsCountPast, IsIndexPast, IsSmallPast};

use crate::halt::Halt;
use crate::leaves::ReadVersions;
use asn_bits::BitCursor;
use asn_per::Per;
use asn_per::internal::{SHORT_NUMBERS, read_small_number};
use asn_rules::internal::Stop;
use asn_values::Item;
use asn_values::profile::{MAX_ALTERNATIVES, MAX_ITEM_ADDITIONS, MAX_ITEMS};

#[tactic(auto, unfolding(crate::specs::Rules::per_loose))]
impl ReadVersions for Per {
    ghost count_past = { IsCountPast };

    ghost index_past = { IsIndexPast };

    /// A normally small length is 0 and 6 bits; a bit 1 is that of one above 64.
    fn is_count_past(units: &BitCursor<'_>) -> bool {
        let Some(bit) = units.peek_number(1) else {
            return false;
        };
        bit == 1
    }

    /// An extension bit 1, and the index among the additions as a normally small number.
    fn is_index_past(root: usize, units: &BitCursor<'_>) -> bool {
        let mut ahead = units.copied();
        let Some(extension_bit) = ahead.next() else {
            return false;
        };
        if extension_bit == 0 {
            return false;
        }
        is_small_past(MAX_ALTERNATIVES - root, &ahead)
    }

    /// A bit 1 and the index among the additions as a normally small number, of which there are as many, and with the
    /// root as many items, as the limits of the profile say.
    fn read_unknown_item(
        root: &[Item],
        additions: &[Item],
        units: &mut BitCursor<'_>,
    ) -> Result<i128, Halt> {
        let Some(bit) = units.next() else {
            return Err(Halt::Short);
        };
        if bit == 0 {
            return Err(Halt::Refused);
        }
        let most = MAX_ITEM_ADDITIONS.min(MAX_ITEMS - root.len());
        if most == 0 {
            return Err(Halt::TooMany);
        }
        let index = read_index_below(most, units)?;
        if index < additions.len() {
            return Err(Halt::Refused);
        }
        Ok(index as i128)
    }

    fn keep_walk_laws() {}
}

/// Reads the index of an addition, of which there are at most `most`, as a normally small number.
fn read_index_below(most: usize, bits: &mut BitCursor<'_>) -> Result<usize, Halt>
    requires some { 0 < most }
    requires few { most ≤ most_item_additions }
    ensures done { IfOk result (λ n. Spells per_fields (SmallBelow most) n bits.old bits.new) }
    ensures stop { IfErr result (λ why. HaltsAt per_coding (SmallBelow most) bits.old why) }
{
    let before = bits.copied();
    match read_small_number(most, bits) {
        Ok(index) => Ok(index),
        Err(Stop::Refused { .. }) => {
            if is_small_past(most, &before) {
                return Err(Halt::TooMany);
            }
            Err(Halt::Refused)
        }
        Err(Stop::Short) => Err(Halt::Short),
        Err(Stop::Memory) => Err(Halt::Memory),
    }
}

/// Whether a normally small number begins here, and only one of at least `most` can: 0 and 6 bits, or a bit 1, the
/// length of the number in octets, and these.
fn is_small_past(most: usize, bits: &BitCursor<'_>) -> bool
    requires { most ≤ most_items }
    ensures { IsTrue result ↔ IsSmallPast most bits.now }
{
    let mut ahead = bits.copied();
    let Some(form) = ahead.next() else {
        return false;
    };
    if form == 0 {
        let Some(number) = ahead.take_number(6) else {
            return false;
        };
        return number >= most as u64;
    }
    if most <= SHORT_NUMBERS {
        return true;
    }
    let Some(octets) = ahead.take_number(16) else {
        return false;
    };
    // the length 1 and the number, or a length of more octets than one that is not past has
    octets >= 256 + most as u64
}
