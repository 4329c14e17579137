//! Parts of values whose bits are taken at once, where all of them are at hand.
ghost use Rattle.std.specs.Prelude.{◌≡◌, IfSome, IsNone, IsTrue, true, false};
ghost use Rattle.asn_values.specs.View.{datum_of, size_range_of};
ghost use Rattle.asn_walk.specs.AtOnce.{MarkedFirst, IsOnlyLength, BitsFirst, OctetsFirst};
ghost use Rattle.asn_walk.specs.Views.{preamble_seen};

use crate::leaves::Preamble;
use asn_bits::BitCursor;
use asn_rules::internal::{NumberSet, greatest_of_width, overwrite_bits, try_number};
use asn_values::profile::GENERAL_FROM;
use asn_values::{Size, Value};

/// Fast path: an extension bit and a presence bitmap of `count` bits after it, as one number, where there is an
/// extension mark and the bits are present; otherwise takes nothing.
#[inline(always)]
pub fn try_marked_preamble(
    count: u32,
    additions: Option<usize>,
    bits: &mut BitCursor<'_>,
) -> Option<Preamble>
    ensures some { IfSome result (λ p. MarkedFirst count additions (preamble_seen p) bits.old bits.new) }
    ensures none { IsNone result → bits.new ≡ bits.old }
{
    let listed = additions?;
    if count > 63 {
        return None;
    }
    let all = NumberSet {
        low: 0,
        high: greatest_of_width(count + u32::from(listed > 0)),
        excluded: None,
    };
    let number = try_number(count + 1, all, bits)?;
    Some(Preamble {
        extended: number >> count == 1,
        bitmap: number & greatest_of_width(count),
    })
}

/// Fast path: a BIT STRING of one size into one that has as many bits, where its bits are present, after an extension
/// bit 0 where there is a mark; otherwise takes nothing.
pub fn try_bits(size: &Size, slot: &mut Value, bits: &mut BitCursor<'_>) -> bool
    ensures done { result ≡ true → BitsFirst (size_range_of size.now) (datum_of slot.new) bits.old bits.new }
    ensures none { result ≡ false → bits.new ≡ bits.old }
{
    let Value::Bits(truths) = slot else {
        return false;
    };
    let count = truths.len();
    if !is_only_length(size, count) || count > 63 {
        return false;
    }
    let all = NumberSet {
        low: 0,
        high: greatest_of_width(count as u32),
        excluded: None,
    };
    let Some(number) = try_number(u32::from(size.ext) + count as u32, all, bits) else {
        return false;
    };
    overwrite_bits(number, truths.as_mut_slice());
    true
}

/// Fast path: an OCTET STRING of one size below 65,536 without an extension mark into one that has as many octets, where
/// they are present; otherwise takes nothing.
pub fn try_octets(size: &Size, slot: &mut Value, bits: &mut BitCursor<'_>) -> bool
    ensures done { result ≡ true → OctetsFirst (size_range_of size.now) (datum_of slot.new) bits.old bits.new }
    ensures none { result ≡ false → bits.new ≡ bits.old }
{
    let Value::Octets(octets) = slot else {
        return false;
    };
    let count = octets.len();
    if count >= GENERAL_FROM as usize {
        return false;
    }
    if !is_only_length(size, count) || size.ext || count > bits.octets_left() {
        return false;
    }
    bits.copy_octets(octets.as_mut_slice());
    true
}

/// Whether the strings of the root of the size have all this length.
fn is_only_length(size: &Size, length: usize) -> bool
    ensures { IsTrue result → IsOnlyLength (size_range_of size.now) length }
{
    size.low as usize == length && matches!(size.high, Some(high) if high as usize == length)
}
