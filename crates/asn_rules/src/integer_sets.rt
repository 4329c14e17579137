//! The integers of a range without one that may be excluded: the DEFAULT of a component, which an encoder leaves out.
ghost use Rattle.std.specs.Prelude.{◌≡◌, ◌≤ℤ◌, ◌^◌, pos, Some, None, ◌⊎◌, IsSomeAnd};
ghost use Rattle.asn_values.specs.Fits.{lowest_integer, highest_integer};
ghost use Rattle.asn_values.specs.Profile.{InProfile};
ghost use Rattle.asn_values.specs.Shape.{integer};
ghost use Rattle.asn_bits.specs.Numbers.{above};
ghost use Rattle.asn_rules.specs.IntegerSets.{unmarked, IsWithin, AreNumbersBut, AreOffsetsBut};
ghost use Rattle.asn_rules.specs.OffsetSets.{IsOpen};

use crate::number_reader::NumberSet;
use crate::signed_reader::OffsetSet;
use asn_bits::internal::wide_offset_from;
use asn_values::profile::{HIGHEST_INTEGER, LOWEST_INTEGER};

/// The integers of the range without `excluded`, where the low bound is not negative.
pub fn numbers_of(low: i128, high: Option<i128>, excluded: Option<i128>) -> NumberSet
    requires of_profile { InProfile (integer (unmarked (Some low) high)) }
    requires from_zero { pos 0 ≤ℤ low }
    requires within { IsWithin (unmarked (Some low) high) excluded }
    ensures { AreNumbersBut excluded (unmarked (Some low) high) result }
{
    let left_out = match excluded {
        Some(number) => Some(number as u64),
        None => None,
    };
    NumberSet {
        low: low as u64,
        high: high.unwrap_or(HIGHEST_INTEGER) as u64,
        excluded: left_out,
    }
}

/// The offsets of the integers of the range without `excluded`.
pub fn offsets_of(low: Option<i128>, high: Option<i128>, excluded: Option<i128>) -> OffsetSet
    requires of_profile { InProfile (integer (unmarked low high)) }
    requires within { IsWithin (unmarked low high) excluded }
    ensures same { AreOffsetsBut excluded (unmarked low high) result }
    ensures gap { (low ≡ None) ⊎ (high ≡ None) → IsOpen result }
    ensures far { IsSomeAnd high (λ h. pos (2 ^ 63) ≤ℤ h) → IsOpen result }
{
    let start = offset_of(low.unwrap_or(LOWEST_INTEGER));
    let end = offset_of(high.unwrap_or(HIGHEST_INTEGER)) + 1;
    match excluded {
        Some(number) => OffsetSet {
            start,
            below: offset_of(number),
            from: offset_of(number) + 1,
            end,
        },
        None => OffsetSet {
            start,
            below: start,
            from: start,
            end,
        },
    }
}

/// The offset of an integer from the lowest one.
fn offset_of(number: i128) -> u128
    requires low { lowest_integer ≤ℤ number }
    requires high { number ≤ℤ highest_integer }
    ensures { result ≡ above lowest_integer number }
{
    wide_offset_from(LOWEST_INTEGER, number)
}
