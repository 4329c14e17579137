//! A BIT STRING or OCTET STRING of one length, and what is worked out of it once for all its values.
ghost use Rattle.std.specs.Prelude.{◌≡◌, ◌*◌, ◌+◌, ◌≤◌, ◌<◌, Some, IfSome, true, false, ◌-◌, ◌/◌, ◌%◌};
ghost use Rattle.asn_bits.specs.Sink.{bit_of};
ghost use Rattle.asn_walk.specs.AtOnce.{IsOnlyLength};
ghost use Rattle.asn_values.specs.View.{shape_of, size_range_of};
ghost use Rattle.asn_plan.specs.FixedStrings.{IsFixedString};

use crate::word::MOST_OCTETS;
use asn_rules::internal::greatest_of_width;
use asn_values::{AsnType, Size};

/// A BIT STRING, or an OCTET STRING without an extension mark, whose size leaves one length in the root, and what a
/// reader would else work out of it for each value.
#[derive(Clone, Copy)]
pub struct FixedString {
    /// Whether it is an OCTET STRING.
    pub of_octets: bool,
    /// How many bits or octets the strings have.
    pub length: u32,
    /// The number in all their bits where each of them is 1.
    pub highest: u64,
    /// How many bits they have, with the extension bit, where there is a mark.
    pub bits: u32,
    /// How many octets they have by OER, if at most 7; else 0.
    pub octets: u32,
    /// How many bits precede their own by OER: 16 with the length and the count of unused bits, where there is a mark,
    /// else none.
    pub head_bits: u32,
    /// The number in these bits.
    pub head: u64,
    /// How many bits they have of their own.
    pub own_bits: u32,
    /// How many zeros fill up the last octet by OER.
    pub unused: u32,
}

/// What is worked out of a string of one length, if it has at most 63 bits with the extension bit; `None` of any other
/// type.
pub(crate) fn fixed_of(ty: &AsnType) -> Option<FixedString>
    ensures { IfSome result (λ f. IsFixedString f (shape_of ty.now)) }
{
    match ty {
        AsnType::Bits(size) => {
            let length = only_length(size)?;
            if length > 62 {
                return None;
            }
            let (head_bits, head) = octets_before(size.ext, length);
            let octets = (head_bits + length + 7) / 8;
            Some(FixedString {
                of_octets: false,
                length,
                highest: greatest_of_width(length),
                bits: u32::from(size.ext) + length,
                octets: if octets <= MOST_OCTETS { octets } else { 0 },
                head_bits,
                head,
                own_bits: length,
                unused: (8 - length % 8) % 8,
            })
        }
        AsnType::Octets(size) => {
            let length = only_length(size)?;
            if length > 7 || size.ext {
                return None;
            }
            Some(FixedString {
                of_octets: true,
                length,
                highest: greatest_of_width(8 * length),
                bits: 8 * length,
                octets: length,
                head_bits: 0,
                head: 0,
                own_bits: 8 * length,
                unused: 0,
            })
        }
        _ => None,
    }
}

/// What stands by OER before a BIT STRING of at most 62 bits: where there is an extension mark, its length and the
/// count of its unused bits, in how many bits, and as a number; else nothing.
fn octets_before(marked: bool, length: u32) -> (u32, u64)
    requires { length ≤ 62 }
    ensures bits { result.0 ≡ 16 * bit_of marked }
    ensures number { marked ≡ true → result.1 ≡ 256 * (1 + (length + 7) / 8) + (8 - length % 8) % 8 }
{
    if !marked {
        return (0, 0);
    }
    let octets = 1 + (length + 7) / 8;
    (16, u64::from(256 * octets + (8 - length % 8) % 8))
}

/// The only length that a size leaves in its root, if it leaves one.
fn only_length(size: &Size) -> Option<u32>
    ensures { IfSome result (λ n. IsOnlyLength (size_range_of size.now) n) }
{
    let high = size.high?;
    if high != size.low {
        return None;
    }
    Some(high)
}
