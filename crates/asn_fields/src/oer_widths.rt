//! How many octets values have in OER (X.696).

use crate::extent::{Extent, octets_above, octets_in, signed_octets};
use crate::per_widths::one_more;
use asn_values::profile::HIGHEST_INTEGER;
use asn_values::{Alt, AsnType, Bounds, Field, Item, Need, Size, Value};

/// How many octets the values of the type have in OER.
#[cycle(octets)]
pub(crate) fn octets_of(ty: &AsnType) -> Extent {
    match ty {
        AsnType::Bool => Extent::fixed(1),
        AsnType::Null => Extent::fixed(0),
        AsnType::Int(bounds) => number_octets(bounds),
        AsnType::Enum { root, ext } => {
            let known = items_octets(None, root);
            let all = match ext {
                None => known,
                Some(additions) => items_octets(known, additions),
            };
            all.unwrap_or(Extent::fixed(1))
        }
        AsnType::Bits(size) => bit_string_octets(size),
        AsnType::Octets(size) | AsnType::Text(_, size) => string_octets(size),
        AsnType::Utf8 => Extent::from(1),
        AsnType::Seq { root, ext } => {
            let (bits, all) = components_octets(root);
            match ext {
                None => with_preamble(bits, all),
                Some(additions) => {
                    let known = with_preamble(bits.saturating_add(1), all);
                    if additions.is_empty() {
                        return known;
                    }
                    known.or(known.and(additions_octets(additions)))
                }
            }
        }
        AsnType::SeqOf(element, size) => {
            let (low, high) = counts_of(size);
            let quantity = Extent {
                least: octets_in(low).saturating_add(1),
                greatest: match high {
                    Some(high) => Some(octets_in(high).saturating_add(1)),
                    None => None,
                },
            };
            quantity.and(octets_of(element).times(low, high))
        }
        AsnType::Choice { root, ext } => {
            let known = alternatives_octets(root);
            let all = match ext {
                None => known,
                Some(additions) => open_alternatives_octets(known, root.len(), additions),
            };
            all.unwrap_or(Extent::fixed(1))
        }
    }
}

/// The least and the greatest count of a size, whatever its extension marker adds.
fn counts_of(size: &Size) -> (u64, Option<u64>) {
    if size.ext {
        return (0, None);
    }
    let high = match size.high {
        Some(high) => Some(u64::from(high)),
        None => None,
    };
    (u64::from(size.low), high)
}

/// Of an INTEGER with these bounds: 1, 2, 4 or 8 octets where both bounds are there and such numbers have no more; else a
/// length, and as many octets as the number has.
fn number_octets(bounds: &Bounds) -> Extent {
    match fixed_octets(bounds) {
        Some(octets) => Extent::fixed(octets),
        None => Extent::fixed(1).and(fewest_octets(bounds)),
    }
}

/// How many octets each number of these bounds has, where they have no length.
pub(crate) fn fixed_octets(bounds: &Bounds) -> Option<u64> {
    match (bounds.low, bounds.high) {
        (Some(low), Some(high)) if !bounds.ext => {
            if low >= 0 {
                width_from_zero(high)
            } else {
                width_signed(low, high)
            }
        }
        _ => None,
    }
}

/// The octets of a number after a length: without a sign where a low bound holds that is not below 0.
fn fewest_octets(bounds: &Bounds) -> Extent {
    match bounds.low {
        Some(low) if low >= 0 && !bounds.ext => Extent {
            least: octets_above(0, low),
            greatest: Some(octets_above(0, HIGHEST_INTEGER)),
        },
        _ if bounds.ext => integers_octets(None, None),
        low => integers_octets(low, bounds.high),
    }
}

/// The octets in two's complement of the integers from one to another.
fn integers_octets(low: Option<i128>, high: Option<i128>) -> Extent {
    signed_octets(low, high).unwrap_or(Extent::fixed(1))
}

/// The octets of numbers from 0 to this one, where 1, 2, 4 or 8 are enough.
fn width_from_zero(high: i128) -> Option<u64> {
    if high < 0x100 {
        Some(1)
    } else if high < 0x1_0000 {
        Some(2)
    } else if high < 0x1_0000_0000 {
        Some(4)
    } else if high < 0x1_0000_0000_0000_0000 {
        Some(8)
    } else {
        None
    }
}

/// The octets of numbers from this one, which is below 0, to that one, where 1, 2, 4 or 8 are enough.
fn width_signed(low: i128, high: i128) -> Option<u64> {
    if low >= -0x80 && high < 0x80 {
        Some(1)
    } else if low >= -0x8000 && high < 0x8000 {
        Some(2)
    } else if low >= -0x8000_0000 && high < 0x8000_0000 {
        Some(4)
    } else if low >= -0x8000_0000_0000_0000 && high < 0x8000_0000_0000_0000 {
        Some(8)
    } else {
        None
    }
}

/// The octets of an item: what `any` has, if anything, or those of the number of one of these
/// items.
fn items_octets(any: Option<Extent>, items: &[Item]) -> Option<Extent> {
    let mut any = any;
    for item in items {
        any = one_more(any, Extent::fixed(item_octets(item.number)));
    }
    any
}

/// The octets of the number of an item: one, or a length and the fewest in two's complement.
fn item_octets(number: i64) -> u64 {
    if number >= 0 && number < 0x80 {
        1
    } else if number >= -0x80 && number < 0x80 {
        2
    } else if number >= -0x8000 && number < 0x8000 {
        3
    } else if number >= -0x80_0000 && number < 0x80_0000 {
        4
    } else {
        5
    }
}

/// Of a BIT STRING: the bits, filled up, and, unless their count is fixed, a length and the number of unused bits.
fn bit_string_octets(size: &Size) -> Extent {
    let (low, high) = counts_of(size);
    let least = low.div_ceil(8);
    if high == Some(low) {
        return Extent::fixed(least);
    }
    Extent {
        least: with_length(least.saturating_add(1)),
        greatest: match high {
            Some(high) => Some(with_length(high.div_ceil(8).saturating_add(1))),
            None => None,
        },
    }
}

/// Of octets, or characters of an octet each, with their length, unless that is fixed.
fn string_octets(size: &Size) -> Extent {
    let (low, high) = counts_of(size);
    if high == Some(low) {
        return Extent::fixed(low);
    }
    Extent {
        least: with_length(low),
        greatest: match high {
            Some(high) => Some(with_length(high)),
            None => None,
        },
    }
}

/// This many octets and their length determinant.
fn with_length(octets: u64) -> u64 {
    let length = if octets < 128 {
        1
    } else {
        octets_in(octets).saturating_add(1)
    };
    octets.saturating_add(length)
}

/// How many presence bits the components of a root have, and how many octets their values.
#[cycle(octets)]
fn components_octets(fields: &[Field]) -> (u64, Extent) {
    let mut bits = 0u64;
    let mut all = Extent::fixed(0);
    for field in fields {
        let value = match &field.need {
            Need::Must => octets_of(&field.ty),
            Need::Optional => octets_of(&field.ty).maybe(),
            Need::Default(value) => others_octets(&field.ty, value).maybe(),
        };
        if !matches!(field.need, Need::Must) {
            bits = bits.saturating_add(1);
        }
        all = all.and(value);
    }
    (bits, all)
}

/// How many octets the values of a type have but for this one, its DEFAULT, which is not written.
#[cycle(octets)]
fn others_octets(ty: &AsnType, default: &Value) -> Extent {
    match (ty, default) {
        (AsnType::Enum { root, ext: None }, Value::Enum(index)) => items_but(root, *index as usize),
        _ => octets_of(ty),
    }
}

/// The octets of an item but for the one at an index; none where there is no other.
fn items_but(items: &[Item], but: usize) -> Extent {
    let mut any = None;
    for (index, item) in items.iter().enumerate() {
        if index != but {
            any = one_more(any, Extent::fixed(item_octets(item.number)));
        }
    }
    any.unwrap_or(Extent::fixed(0))
}

/// Of components after a preamble of this many bits.
fn with_preamble(bits: u64, components: Extent) -> Extent {
    Extent::fixed(bits.div_ceil(8)).and(components)
}

/// Of the presence bitmap of extension additions, and of each that may be there, in an open type field.
#[cycle(octets)]
fn additions_octets(fields: &[Field]) -> Extent {
    let bitmap = (fields.len() as u64).div_ceil(8).saturating_add(2);
    let mut all = Extent::fixed(bitmap);
    for field in fields {
        all = all.and(open_octets(octets_of(&field.ty)).maybe());
    }
    all
}

/// The octets of the tag and the value of one of these alternatives.
#[cycle(octets)]
fn alternatives_octets(alternatives: &[Alt]) -> Option<Extent> {
    let mut any = None;
    for (index, alternative) in alternatives.iter().enumerate() {
        any = one_more(any, tag_octets(index).and(octets_of(&alternative.ty)));
    }
    any
}

/// The octets of an alternative: what `any` has, if anything, or those of one of these, `before` of
/// which stand in front, each a tag and an open type field.
#[cycle(octets)]
fn open_alternatives_octets(
    any: Option<Extent>,
    before: usize,
    alternatives: &[Alt],
) -> Option<Extent> {
    let mut any = any;
    for (index, alternative) in alternatives.iter().enumerate() {
        let tag = tag_octets(before.saturating_add(index));
        any = one_more(any, tag.and(open_octets(octets_of(&alternative.ty))));
    }
    any
}

/// The octets of the tag of the alternative at an index: one, or from 63 on one and those of the index in base 128.
fn tag_octets(index: usize) -> Extent {
    Extent::fixed(if index < 63 {
        1
    } else if index < 128 {
        2
    } else {
        3
    })
}

/// Of an open type field around this many octets.
fn open_octets(content: Extent) -> Extent {
    Extent {
        least: with_length(content.least),
        greatest: match content.greatest {
            Some(most) => Some(with_length(most)),
            None => None,
        },
    }
}
