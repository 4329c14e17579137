//! The items that an ENUMERATED with an extension mark has not, as OER tells them: by their numbers.
ghost use Rattle.std.specs.Prelude.{◌≡◌, ◌≤◌, ◌<◌, ◌*◌, ◌^◌, ◌&&◌, pos, IfOk, IfErr, OnOk};
ghost use Rattle.std.specs.List.{list_all, list_any};
ghost use Rattle.std.specs.Int.RustNames.{int_le, int_lt};
ghost use Rattle.asn_values.specs.Profile.{int_eq};
ghost use Rattle.asn_values.specs.View.{numbers_seen};
ghost use Rattle.asn_bits.specs.Numbers.{magnitude, packed};
ghost use Rattle.asn_rules.specs.Counted.{signed_number};
ghost use Rattle.asn_rules.specs.OctetReading.{AtOctet};
ghost use Rattle.asn_newer.specs.ItemNumbers.{IsItemNumber, TellsItemNumber};
ghost use Rattle.asn_newer.specs.Rules.{IsLengthPast, IsTagPast};

use crate::halt::Halt;
use crate::leaves::ReadVersions;
use asn_bits::BitCursor;
use asn_bits::internal::signed_octet_count;
use asn_oer::Oer;
use asn_values::Item;
use asn_values::profile::MAX_ALTERNATIVES;

#[tactic(auto, unfolding(crate::specs::Rules::oer_loose))]
impl ReadVersions for Oer {
    ghost count_past = { IsLengthPast };

    ghost index_past = { IsTagPast };

    /// The presence bits of 64 additions have a length of 9 octets.
    fn is_count_past(units: &BitCursor<'_>) -> bool {
        let Some(octet) = units.peek_number(8) else {
            return false;
        };
        octet > 9 && octet != 128
    }

    /// A tag above 62 is the octet 191 and the tag in base 128: an octet up to 127, or two and more, the first above
    /// 128.
    fn is_index_past(_root: usize, units: &BitCursor<'_>) -> bool {
        let mut ahead = units.copied();
        let Some(front) = ahead.take_number(8) else {
            return false;
        };
        if front != 191 {
            return false;
        }
        let Some(first) = ahead.take_number(8) else {
            return false;
        };
        if first < 128 {
            return first >= MAX_ALTERNATIVES as u64;
        }
        if first == 128 {
            return false;
        }
        let Some(second) = ahead.take_number(8) else {
            return false;
        };
        // where a third octet follows, the second is 128 or above
        128 * (first - 128) + second >= MAX_ALTERNATIVES as u64
    }

    /// A number above those of the type's additions that no item of the root has.
    fn read_unknown_item(
        root: &[Item],
        additions: &[Item],
        units: &mut BitCursor<'_>,
    ) -> Result<i128, Halt> {
        let number = read_number(units)?;
        if is_above_each(number, additions) && !has_number(number, root) {
            Ok(number)
        } else {
            Err(Halt::Refused)
        }
    }

    fn keep_walk_laws() {}
}

/// Reads the number of an item (X.696, "encoding of enumerated types"): one octet from 0 to 127, or 128 and a count of
/// octets, and the number in these, the fewest octets of two's complement.
fn read_number(units: &mut BitCursor<'_>) -> Result<i128, Halt>
    requires at_octet { AtOctet units.old }
    ensures at_octet { OnOk result (AtOctet units.new) }
    ensures done { IfOk result (λ z. IsItemNumber z (packed units.old) (packed units.new)) }
    ensures none { IfErr result (λ why. TellsItemNumber (packed units.old) why) }
{
    let Some(first) = units.take_number(8) else {
        return Err(Halt::Short);
    };
    if first < 128 {
        return Ok(i128::from(first));
    }
    let count = first as u32 - 128;
    if count == 0 || count > 4 {
        return Err(Halt::Refused);
    }
    let Some(residue) = units.take_number(8 * count) else {
        return Err(Halt::Short);
    };
    let number = signed_number(count, residue);
    if is_short(number) || signed_octet_count(number) != count {
        return Err(Halt::Refused);
    }
    Ok(number)
}

/// The number that `count` octets of two's complement are, which as a number without a sign are `residue`.
fn signed_number(count: u32, residue: u64) -> i128
    requires some { 1 ≤ count }
    requires few { count ≤ 4 }
    requires fits { residue < 2 ^ (8 * count) }
    ensures is { result ≡ signed_number (count, residue) }
    ensures near { magnitude result < 2147483648 }
{
    if residue < 1 << (8 * count - 1) {
        i128::from(residue)
    } else {
        -1 - i128::from((1u64 << (8 * count)) - 1 - residue)
    }
}

/// Whether one octet tells the number.
fn is_short(number: i128) -> bool
    ensures { result ≡ (int_le (pos 0) number && int_lt number (pos 128)) }
{
    0 <= number && number < 128
}

/// Whether the number is above that of each item.
fn is_above_each(number: i128, items: &[Item]) -> bool
    ensures { result ≡ list_all (λ known. int_lt known number) (numbers_seen items.now) }
{
    for item in items {
        if number <= i128::from(item.number) {
            return false;
        }
    }
    true
}

/// Whether one of the items has this number.
fn has_number(number: i128, items: &[Item]) -> bool
    ensures { result ≡ list_any (int_eq number) (numbers_seen items.now) }
{
    for item in items {
        if number == i128::from(item.number) {
            return true;
        }
    }
    false
}
