//! The units of a field as text.

use crate::field::MessageField;
use asn_rules::Unit;
use std::alloc::{AllocError, Global};
use std::fmt::Write;

/// The most octets of a field that a line shows.
const MOST_OCTETS: usize = 8;

/// The most octets of a field whose bits a line marks.
const MOST_MARKED: usize = 2;

/// The octets in which the units of the field lie: the index of the first, and of the one after the last.
pub(crate) fn octets_of(unit: Unit, field: &MessageField) -> (usize, usize) {
    if field.is_empty() {
        return (0, 0);
    }
    let (from, to) = match unit {
        Unit::Bit => (field.start / 8, field.end.div_ceil(8)),
        Unit::Octet => (field.start, field.end),
    };
    (
        usize::try_from(from).unwrap_or(usize::MAX),
        usize::try_from(to).unwrap_or(usize::MAX),
    )
}

/// The octets of the field in hexadecimal, and, of few octets in PER, its bits, those of other fields as dots.
///
/// # Errors
/// `AllocError` where an allocation failed.
pub(crate) fn marked_octets(
    alloc: Global,
    unit: Unit,
    field: &MessageField,
    octets: &[u8],
) -> Result<String, AllocError> {
    let mut text = String::new(alloc);
    let (from, to) = octets_of(unit, field);
    let to = to.min(octets.len());
    push_octets(&mut text, from, to, octets)?;
    if matches!(unit, Unit::Bit) && to.saturating_sub(from) <= MOST_MARKED {
        for index in from..to {
            push_marked(&mut text, field, index, octet_at(octets, index))?;
        }
    }
    Ok(text)
}

/// Adds the octets from an index to before another in hexadecimal, as many as a line shows.
fn push_octets(text: &mut String, from: usize, to: usize, octets: &[u8]) -> Result<(), AllocError> {
    let shown = to.min(from.saturating_add(MOST_OCTETS));
    for index in from..shown {
        let blank = if index > from { " " } else { "" };
        write!(text, "{blank}{:02X}", octet_at(octets, index))?;
    }
    text.push_str(if shown < to { " .." } else { "" })
}

/// Adds the bits of an octet after a space, those that are none of the field as dots.
fn push_marked(
    text: &mut String,
    field: &MessageField,
    index: usize,
    octet: u8,
) -> Result<(), AllocError> {
    text.push_str(" ")?;
    let before = (index as u64).saturating_mul(8);
    for place in 0..8u64 {
        let unit = before.saturating_add(place);
        let is_of_field = field.start <= unit && unit < field.end;
        text.push_str(if is_of_field {
            bit_text(octet, place)
        } else {
            "."
        })?;
    }
    Ok(())
}

/// A bit of an octet, counted from the highest, from 0.
pub(crate) fn bit_text(octet: u8, place: u64) -> &'static str {
    if (u64::from(octet) >> (7 - place.min(7))) & 1 == 1 {
        "1"
    } else {
        "0"
    }
}

/// The octet with this index; 0 where there is none.
pub(crate) fn octet_at(octets: &[u8], index: usize) -> u8 {
    octets.get(index).copied().unwrap_or(0)
}
