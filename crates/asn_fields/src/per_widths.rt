//! How many bits values have in PER (X.691).

use crate::extent::{Extent, octets_above, signed_octets, width_above, width_of};
use asn_values::profile::{GENERAL_FROM, HIGHEST_INTEGER};
use asn_values::{Alt, AsnType, Bounds, Field, Need, Size, TextKind};

/// How many bits the values of the type have in PER, without what fills up a complete encoding.
#[cycle(bits)]
pub(crate) fn bits_of(ty: &AsnType) -> Extent {
    match ty {
        AsnType::Bool => Extent::fixed(1),
        AsnType::Null => Extent::fixed(0),
        AsnType::Int(bounds) => number_bits(bounds),
        AsnType::Enum { root, ext } => {
            let known = Extent::fixed(width_of((root.len() as u64).saturating_sub(1)));
            match ext {
                None => known,
                Some(additions) => marked(known, indexes_bits(additions.len())),
            }
        }
        AsnType::Bits(size) => sized_bits(size, Extent::fixed(1)),
        AsnType::Octets(size) => sized_bits(size, Extent::fixed(8)),
        AsnType::Text(TextKind::Numeric, size) => sized_bits(size, Extent::fixed(4)),
        AsnType::Text(TextKind::Ia5 | TextKind::Visible, size) => {
            sized_bits(size, Extent::fixed(7))
        }
        AsnType::Utf8 => Extent::from(8),
        AsnType::Seq { root, ext } => {
            let known = components_bits(root);
            match ext {
                None => known,
                Some(additions) if additions.is_empty() => marked(known, None),
                Some(additions) => {
                    let count = 7u64.saturating_add(additions.len() as u64);
                    let added = known
                        .and(additions_bits(additions))
                        .and(Extent::fixed(count));
                    marked(known, Some(added))
                }
            }
        }
        AsnType::SeqOf(element, size) => sized_bits(size, bits_of(element)),
        AsnType::Choice { root, ext } => {
            let index = width_of((root.len() as u64).saturating_sub(1));
            let known = Extent::fixed(index).and(alternatives_bits(root));
            match ext {
                None => known,
                Some(additions) => marked(known, open_alternatives_bits(additions)),
            }
        }
    }
}

/// After an extension bit what the root has, or what is added, where there is something.
fn marked(known: Extent, added: Option<Extent>) -> Extent {
    Extent::fixed(1).and(one_more(added, known).unwrap_or(known))
}

/// Of the index of one of this many additions, where there are some.
fn indexes_bits(additions: usize) -> Option<Extent> {
    if additions == 0 {
        return None;
    }
    Some(Extent {
        least: index_bits(0),
        greatest: Some(index_bits(additions.saturating_sub(1))),
    })
}

/// Of the index of an addition, a normally small number: 7 bits, or from 64 on a bit, an octet of length and one octet more.
fn index_bits(index: usize) -> u64 {
    if index < 64 { 7 } else { 17 }
}

/// Of an INTEGER with these bounds.
fn number_bits(bounds: &Bounds) -> Extent {
    let known = match (bounds.low, bounds.high) {
        (Some(low), Some(high)) => Some(Extent::fixed(width_above(low, high))),
        (Some(low), None) => Some(counted_bits(Extent {
            least: 1,
            greatest: Some(octets_above(low, HIGHEST_INTEGER)),
        })),
        (None, high) => signed_bits(None, high),
    };
    let known = known.unwrap_or(Extent::fixed(0));
    if bounds.ext {
        return marked(known, others_bits(bounds));
    }
    known
}

/// Of the integers below and above these bounds.
fn others_bits(bounds: &Bounds) -> Option<Extent> {
    let below = match bounds.low {
        Some(low) => signed_bits(None, Some(low.saturating_sub(1))),
        None => None,
    };
    let above = match bounds.high {
        Some(high) => signed_bits(Some(high.saturating_add(1)), None),
        None => None,
    };
    match above {
        Some(above) => one_more(below, above),
        None => below,
    }
}

/// Of the integers from one to another in the fewest octets of two's complement.
fn signed_bits(low: Option<i128>, high: Option<i128>) -> Option<Extent> {
    match signed_octets(low, high) {
        Some(octets) => Some(counted_bits(octets)),
        None => None,
    }
}

/// Of a number in this many octets, with their length.
fn counted_bits(octets: Extent) -> Extent {
    Extent::fixed(8).and(octets.times(8, Some(8)))
}

/// Of as many items as the size says, each of which has these bits, with what tells their count.
fn sized_bits(size: &Size, item: Extent) -> Extent {
    let low = u64::from(size.low);
    let Some(high) = size.high else {
        // (beyond an extension mark there are the counts below `low`)
        return match (size.ext, low) {
            (false, _) => listed_bits(low, item),
            (true, 0) => marked(listed_bits(0, item), None),
            (true, _) => marked(listed_bits(low, item), Some(listed_bits(0, item))),
        };
    };
    let high = u64::from(high);
    let known = root_bits(low, high, item);
    if !size.ext {
        return known;
    }
    let others = if low > 0 { 0 } else { high.saturating_add(1) };
    marked(known, Some(listed_bits(others, item)))
}

/// Of `low` to `high` items of a root: the length is a constrained whole number where the upper bound is below 65,536,
/// and else general (X.691, "length determinant").
fn root_bits(low: u64, high: u64, item: Extent) -> Extent {
    let items = item.times(low, Some(high));
    if high < u64::from(GENERAL_FROM) {
        return Extent::fixed(width_of(high.saturating_sub(low))).and(items);
    }
    Extent {
        least: fewest_bits(low, high, item.least),
        greatest: match (item.greatest, items.greatest) {
            (Some(most), Some(_)) => Some(most_bits(low, high, most)),
            _ => None,
        },
    }
}

/// The most bits of `low` to `high` items, of `item` bits each, under their general length: of the highest count, or of
/// the one before its last whole block, whose length determinants may be an octet longer.
fn most_bits(low: u64, high: u64, item: u64) -> u64 {
    let blocks = (high / 16_384).saturating_mul(16_384);
    let before = blocks.saturating_sub(1).max(low);
    items_bits(high, item).max(items_bits(before, item))
}

/// Of this many items or more under their general length.
fn listed_bits(low: u64, item: Extent) -> Extent {
    Extent::from(fewest_bits(low, u64::MAX, item.least))
}

/// The fewest bits of `low` to `high` items, of `item` bits each, under their general length. A few items more may have
/// fewer bits, where they fill fragments of 16,384 items and the last length determinant is an octet shorter.
fn fewest_bits(low: u64, high: u64, item: u64) -> u64 {
    let whole = low.div_ceil(16_384).saturating_mul(16_384).min(high);
    items_bits(low, item).min(items_bits(whole, item))
}

/// Of this many items, each of as many bits as the other number says, under their general length.
fn items_bits(count: u64, item: u64) -> u64 {
    general_length(count)
        .saturating_mul(8)
        .saturating_add(count.saturating_mul(item))
}

/// Of the presence bitmap and the components of a root.
#[cycle(bits)]
fn components_bits(fields: &[Field]) -> Extent {
    let mut all = Extent::fixed(0);
    for field in fields {
        let value = bits_of(&field.ty);
        let part = match field.need {
            Need::Must => value,
            Need::Optional | Need::Default(_) => Extent::fixed(1).and(value.maybe()),
        };
        all = all.and(part);
    }
    all
}

/// Of extension additions, each of which may be there, in an open type field.
#[cycle(bits)]
fn additions_bits(fields: &[Field]) -> Extent {
    let mut all = Extent::fixed(0);
    for field in fields {
        all = all.and(open_bits(bits_of(&field.ty)).maybe());
    }
    all
}

/// Of one of these alternatives.
#[cycle(bits)]
fn alternatives_bits(alternatives: &[Alt]) -> Extent {
    let mut any = None;
    for alternative in alternatives {
        any = one_more(any, bits_of(&alternative.ty));
    }
    any.unwrap_or(Extent::fixed(0))
}

/// Of one of these alternatives, its index and an open type field.
#[cycle(bits)]
fn open_alternatives_bits(alternatives: &[Alt]) -> Option<Extent> {
    let mut any = None;
    for (at, alternative) in alternatives.iter().enumerate() {
        let index = Extent::fixed(index_bits(at));
        any = one_more(any, index.and(open_bits(bits_of(&alternative.ty))));
    }
    any
}

/// The units of what `any` has, if anything, or of one more.
pub(crate) fn one_more(any: Option<Extent>, more: Extent) -> Option<Extent> {
    match any {
        None => Some(more),
        Some(others) => Some(others.or(more)),
    }
}

/// Of an open type field around a complete encoding that has this many bits before it is filled up.
fn open_bits(content: Extent) -> Extent {
    let octets = content.in_octets();
    Extent {
        least: octets
            .least
            .saturating_add(general_length(octets.least))
            .saturating_mul(8),
        greatest: match octets.greatest {
            Some(most) => Some(most.saturating_add(general_length(most)).saturating_mul(8)),
            None => None,
        },
    }
}

/// How many octets the general length determinants of this many octets have (X.691, "general length determinant"): one of
/// each 65,536 of them, one of what is left of these in whole blocks of 16,384, and one or two of the rest.
fn general_length(octets: u64) -> u64 {
    let fragments = octets / 65_536;
    let blocks = (octets % 65_536) / 16_384;
    let rest = octets % 16_384;
    let last = if rest < 128 { 1 } else { 2 };
    fragments + blocks.min(1) + last
}
