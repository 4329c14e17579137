//! ENUMERATED (X.696, "encoding of enumerated types").
ghost use Rattle.std.specs.Prelude.{◌≡◌, ◌≤◌, ◌<◌, ◌^◌, ◌&&◌, length, pos, ℕ, true, false, Option, OnOk, IfSome, IsNone};
ghost use Rattle.std.specs.Option.{option_map};
ghost use Rattle.std.specs.Int.RustNames.{int_le, int_lt};
ghost use Rattle.asn_rules.specs.Listed.{IsOther};
ghost use Rattle.asn_rules.specs.OctetReading.{ReadsOctets};
ghost use Rattle.asn_bits.specs.Numbers.{unpacked};
ghost use Rattle.asn_oer.specs.Words.{item, Fits, InProfile, octets, magnitude, Inhabited, AtOctet, enumeration_of, items_of, ItemsBut, BeginsWith, BeginsOtherwise, oer_octets, item_number, Reads, ReadsSome, StopsIn};

use asn_bits::BitCursor;
use asn_bits::internal::{signed_octet_count, signed_residue};
use asn_rules::Why;
use asn_rules::internal::{Stop, octets_left};
use asn_sinks::Sink;
use asn_values::Item;
use asn_walk::items::{item_count, number_at};

/// The octets of the number of an item, how many and the number that they are: one octet from 0 to 127, and else 128
/// and a count of octets, and the number in the fewest octets of two's complement.
pub(crate) fn octets_of(number: i64) -> (u32, u64)
    requires narrow { magnitude number < 2147483648 }
    ensures few { result.0 ≤ 5 }
    ensures fits { result.1 < 256 ^ result.0 }
    ensures same { item_number number ≡ octets result.0 result.1 }
{
    if is_small(number) {
        return (1, number as u64);
    }
    let number = i128::from(number);
    let count = signed_octet_count(number);
    let first = u64::from(128 + count) << (8 * count);
    (1 + count, first + signed_residue(number, count))
}

/// Whether one octet tells the number.
fn is_small(number: i64) -> bool
    ensures { result ≡ (int_le (pos 0) number && int_lt number (pos 128)) }
{
    0 <= number && number < 128
}

/// Writes the item at this position, by its number.
pub(crate) fn write_item<S: Sink>(
    root: &[Item],
    more: &Option<Vec<Item>>,
    position: u32,
    sink: &mut S,
) -> Result<(), S::Fault>
    requires of_profile { InProfile (enumeration_of root.now more.now) }
    requires of_type { Fits (enumeration_of root.now more.now) (item position) }
    ensures { OnOk result (S.pushes sink.old sink.new
        (unpacked (oer_octets (enumeration_of root.now more.now) (item position)))) }
{
    let number = number_at(root, more, position as usize);
    if is_small(number) {
        return sink.push_low_octets(1, number as u64);
    }
    write_long(number, sink)
}

/// Writes the number of an item by the octets that it has.
#[inline(never)]
fn write_long<S: Sink>(number: i64, sink: &mut S) -> Result<(), S::Fault>
    requires { magnitude number < 2147483648 }
    ensures { OnOk result (S.pushes sink.old sink.new (unpacked (item_number number))) }
{
    let (count, octets) = octets_of(number);
    sink.push_low_octets(count, octets)
}

/// Reads an item, except the excluded one. Returns its position.
///
/// # Errors
/// `Short` if the octets end before an item does. `Refused` at the first octet with which no item goes on, with the
/// reason `Default` where one is excluded, else `Number`.
pub(crate) fn read_item(
    root: &[Item],
    more: &Option<Vec<Item>>,
    excluded: Option<u32>,
    units: &mut BitCursor<'_>,
) -> Result<u32, Stop>
    requires at_octet { AtOctet units.old }
    requires of_profile { InProfile (enumeration_of root.now more.now) }
    requires some { Inhabited (ItemsBut excluded root.now more.now) }
    ensures at_octet { OnOk result (AtOctet units.new) }
    ensures done { Reads result (λ p. item p) (ItemsBut excluded root.now more.now) units.old units.new }
    ensures stop { StopsIn result (ItemsBut excluded root.now more.now) units.old }
{
    match try_numbered(root, more, excluded, units) {
        Some(position) => Ok(position),
        None => read_by_octets(root, more, excluded, units),
    }
}

/// Fast path: an item, except the excluded one, where its octets are at hand; otherwise takes nothing. One pass over the
/// items finds the number.
fn try_numbered(
    root: &[Item],
    more: &Option<Vec<Item>>,
    excluded: Option<u32>,
    units: &mut BitCursor<'_>,
) -> Option<u32>
    requires at_octet { AtOctet units.old }
    requires of_profile { InProfile (enumeration_of root.now more.now) }
    ensures at_octet { AtOctet units.new }
    ensures done { ReadsSome result (λ p. item p) (ItemsBut excluded root.now more.now) units.old units.new }
    ensures unchanged { IsNone result → units.new ≡ units.old }
{
    let number = number_ahead(units)?;
    let position = position_of_number(root, more, number)?;
    if excluded == Some(position) || !take_item(root, more, position, units) {
        return None;
    }
    Some(position)
}

/// The number of which these are the first octets, if it is of 32 bits and they are complete; whether they are the fewest is
/// not asked.
pub(crate) fn number_ahead(units: &BitCursor<'_>) -> Option<i64> {
    let first = units.peek_octet()?;
    if first < 128 {
        return Some(first as i64);
    }
    let count = first as u32 - 128;
    if count == 0 || count > 4 {
        return None;
    }
    let all = units.peek_number(8 + 8 * count)?;
    let unused = 64 - 8 * count;
    Some((all << unused).cast_signed() >> unused)
}

/// The position of the item with this number, the items of the root and the additions counted from 0.
fn position_of_number(root: &[Item], more: &Option<Vec<Item>>, number: i64) -> Option<u32>
    requires of_profile { InProfile (enumeration_of root.now more.now) }
    ensures { IfSome result (λ p. p < length (items_of root.now more.now)) }
{
    if let Some(place) = place_of(root, number) {
        return Some(place as u32);
    }
    let Some(additions) = more else {
        return None;
    };
    let place = place_of(additions.as_slice(), number)?;
    Some((root.len() + place) as u32)
}

/// The place of the item with this number, counted from 0.
fn place_of(items: &[Item], number: i64) -> Option<usize>
    ensures { IfSome result (λ p. p < length items.now) }
{
    for (place, item) in items.iter().enumerate() {
        if item.number == number {
            return Some(place);
        }
    }
    None
}

/// Takes the octets of the item at this position, if they stand here; otherwise takes nothing.
pub(crate) fn take_item(
    root: &[Item],
    more: &Option<Vec<Item>>,
    position: u32,
    units: &mut BitCursor<'_>,
) -> bool
    requires at_octet { AtOctet units.old }
    requires of_profile { InProfile (enumeration_of root.now more.now) }
    requires there { position < length (items_of root.now more.now) }
    ensures at_octet { AtOctet units.new }
    ensures done { result ≡ true → (excluded : Option ℕ) → IsOther (option_map item excluded) (item position)
        → ReadsOctets (ItemsBut excluded root.now more.now) (item position) units.old units.new }
    ensures unchanged { result ≡ false → units.new ≡ units.old }
{
    let (count, octets) = octets_of(number_at(root, more, position as usize));
    let Some(ahead) = units.peek_number(8 * count) else {
        return false;
    };
    if ahead != octets {
        return false;
    }
    units.pass(8 * count);
    true
}

/// Reads an item octet by octet, except the excluded one. Returns its position.
///
/// # Errors
/// Those of `read_item`.
fn read_by_octets(
    root: &[Item],
    more: &Option<Vec<Item>>,
    excluded: Option<u32>,
    units: &mut BitCursor<'_>,
) -> Result<u32, Stop>
    requires at_octet { AtOctet units.old }
    requires of_profile { InProfile (enumeration_of root.now more.now) }
    requires some { Inhabited (ItemsBut excluded root.now more.now) }
    ensures at_octet { OnOk result (AtOctet units.new) }
    ensures done { Reads result (λ p. item p) (ItemsBut excluded root.now more.now) units.old units.new }
    ensures stop { StopsIn result (ItemsBut excluded root.now more.now) units.old }
{
    let why = Why::in_number(excluded.is_some());
    let mut begun = 0;
    for taken in 0..5 {
        let Some(octet) = units.take_number(8) else {
            return Err(Stop::Short);
        };
        begun = 256 * begun + octet;
        let Some((position, left)) = find_item(root, more, excluded, taken + 1, begun) else {
            return Err(Stop::Refused {
                left: octets_left(units) as u128,
                why,
            });
        };
        if left == 0 {
            return Ok(position);
        }
    }
    unreachable!()
}

/// An item, except the excluded one, that begins with the `count` octets of the number `begun`: its position, and how
/// many octets follow these. The item at the position of that number is tried first.
fn find_item(
    root: &[Item],
    more: &Option<Vec<Item>>,
    excluded: Option<u32>,
    count: u32,
    begun: u64,
) -> Option<(u32, u32)>
    requires of_profile { InProfile (enumeration_of root.now more.now) }
    requires few { count ≤ 5 }
    requires within { begun < 256 ^ count }
    ensures some { IfSome result (λ f. BeginsWith root.now more.now excluded (octets count begun) f.0 f.1) }
    ensures none { IsNone result → (p : ℕ) → BeginsOtherwise root.now more.now excluded (octets count begun) p }
{
    let all = item_count(root, more);
    if begun < u64::from(all)
        && let Some(left) = octets_to_come(root, more, excluded, begun as u32, count, begun)
    {
        return Some((begun as u32, left));
    }
    for position in 0..all {
        if let Some(left) = octets_to_come(root, more, excluded, position, count, begun) {
            return Some((position, left));
        }
    }
    None
}

/// How many octets follow the `count` octets of the number `begun`, where the item at this position, which is not the
/// excluded one, begins with these.
fn octets_to_come(
    root: &[Item],
    more: &Option<Vec<Item>>,
    excluded: Option<u32>,
    position: u32,
    count: u32,
    begun: u64,
) -> Option<u32>
    requires of_profile { InProfile (enumeration_of root.now more.now) }
    requires there { position < length (items_of root.now more.now) }
    requires few { count ≤ 5 }
    requires within { begun < 256 ^ count }
    ensures some { IfSome result (λ left. BeginsWith root.now more.now excluded (octets count begun) position left) }
    ensures none { IsNone result → BeginsOtherwise root.now more.now excluded (octets count begun) position }
{
    if excluded == Some(position) {
        return None;
    }
    let (all, octets) = octets_of(number_at(root, more, position as usize));
    if count <= all && octets >> (8 * (all - count)) == begun {
        Some(all - count)
    } else {
        None
    }
}
