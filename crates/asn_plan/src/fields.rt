//! Which indexes of a CHOICE and which counts of a SEQUENCE OF one field of bits tells, and the reading of such a field.
ghost use Rattle.std.specs.Prelude.{◌≡◌, ◌%◌, IfSome, IsNone};
ghost use Rattle.asn_values.specs.View.{size_range_of};
ghost use Rattle.asn_walk.specs.Laws.{IsSizeOfProfile};
ghost use Rattle.asn_plan.specs.Fields.{AreIndexFields, AreCountFields, IsCountInBits, IsCountInOctets, IsTold};

use crate::field::{BitField, BitFields};
use asn_bits::BitCursor;
use asn_bits::internal::width;
use asn_values::Size;
use asn_values::profile::GENERAL_FROM;

/// The fields that tell the alternatives of a root of this many, of a CHOICE with this many extension additions, where
/// there is an extension mark.
pub(crate) fn index_fields(root: usize, additions: Option<usize>) -> BitFields
    ensures { AreIndexFields result root additions }
{
    if root == 0 || root > 65536 {
        return BitFields {
            in_bits: None,
            in_octets: None,
        };
    }
    let last = root as u32 - 1;
    BitFields {
        // the extension bit 0 is the highest bit of the number
        in_bits: Some(BitField {
            bits: u32::from(additions.is_some()) + width(root as u128),
            first: 0,
            low: 0,
            most: last,
        }),
        // a tag up to 62 is one octet
        in_octets: Some(BitField {
            bits: 8,
            first: 128,
            low: 0,
            most: last.min(62),
        }),
    }
}

/// The fields that tell the counts of the root of a size.
pub(crate) fn count_fields(size: &Size) -> BitFields
    requires of_profile { IsSizeOfProfile (size_range_of size.now) }
    ensures { AreCountFields result (size_range_of size.now) }
{
    BitFields {
        in_bits: count_in_bits(size),
        in_octets: count_in_octets(size),
    }
}

/// The bits of a count between two bounds, the high one below 65,536, after the extension bit 0, where there is a mark.
fn count_in_bits(size: &Size) -> Option<BitField>
    ensures { IfSome result (λ f. IsCountInBits f (size_range_of size.now)) }
{
    let high = size.high?;
    if high >= GENERAL_FROM {
        return None;
    }
    let most = high.checked_sub(size.low)?;
    Some(BitField {
        bits: u32::from(size.ext) + width(u128::from(most) + 1),
        first: 0,
        low: size.low,
        most,
    })
}

/// The octets of a quantity up to 255: a length of 1, and the count.
fn count_in_octets(size: &Size) -> Option<BitField>
    requires of_profile { IsSizeOfProfile (size_range_of size.now) }
    ensures whole { IfSome result (λ f. f.bits % 8 ≡ 0) }
    ensures tells { IfSome result (λ f. IsCountInOctets f (size_range_of size.now)) }
{
    let high = match size.high {
        Some(high) => high.min(255),
        None => 255,
    };
    let most = high.checked_sub(size.low)?;
    Some(BitField {
        bits: 16,
        first: 256 + size.low,
        low: size.low,
        most,
    })
}

/// Takes the number of a field; `None`, and the cursor stays, where the next bits are no number of the field or
/// have not all come.
#[inline(always)]
pub fn take_told(field: &BitField, units: &mut BitCursor<'_>) -> Option<u32>
    ensures some { IfSome result (λ n. IsTold field.now n units.old units.new) }
    ensures none { IsNone result → units.new ≡ units.old }
{
    let number = units.peek_number(field.bits)?;
    let above = number.checked_sub(u64::from(field.first))?;
    if above > u64::from(field.most) {
        return None;
    }
    units.pass(field.bits);
    Some(field.low + above as u32)
}
