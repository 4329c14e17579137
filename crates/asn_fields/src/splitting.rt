//! What the units of a value of a simple type are: an extension bit, a length determinant, and the contents.

use crate::oer_widths::fixed_octets;
use asn_rules::Unit;
use asn_values::internal::{is_between, is_in_size};
use asn_values::profile::{BLOCK, GENERAL_FROM};
use asn_values::{AsnType, TextKind, Value};

/// The most bits that one length determinant of PER has; more are those of fragments.
const LONGEST_LENGTH: u64 = 16;

/// What stands in front of the contents of a value.
#[derive(Clone, Copy)]
pub(crate) struct Split {
    /// Whether an extension bit comes first, in PER.
    pub has_mark: bool,
    /// Whether it is set.
    pub is_extended: bool,
    /// How many units the length determinant has; 0 where there is none, or there are fragments.
    pub length: u64,
    /// What it counts: bits, octets or characters.
    pub count: u64,
    /// How many bits of the last octet of a BIT STRING are unused, where an octet of OER says so.
    pub unused: Option<u64>,
}

/// What stands in front of the contents of a value that has this many units.
pub(crate) fn split_of(unit: Unit, ty: &AsnType, value: &Value, units: u64) -> Split {
    match unit {
        Unit::Bit => split_bits(ty, value, units),
        Unit::Octet => split_octets(ty, value, units),
    }
}

/// The same in PER.
fn split_bits(ty: &AsnType, value: &Value, bits: u64) -> Split {
    let has_mark = has_mark(ty);
    let rest = if has_mark {
        bits.saturating_sub(1)
    } else {
        bits
    };
    let (count, contents) = match bits_of(ty, value) {
        Some((count, width)) => (count, count.saturating_mul(width)),
        None if is_counted(ty, value) => {
            let contents = rest.saturating_sub(8);
            (contents / 8, contents)
        }
        None => (0, rest),
    };
    let length = rest.saturating_sub(contents);
    Split {
        has_mark,
        is_extended: has_mark && is_outside(ty, value),
        length: if length > LONGEST_LENGTH || (count >= BLOCK && is_general(ty, value)) {
            0
        } else {
            length
        },
        count,
        unused: None,
    }
}

/// The same in OER.
fn split_octets(ty: &AsnType, value: &Value, octets: u64) -> Split {
    let (count, length, unused) = match value {
        Value::Bits(bits) => {
            let count = bits.len() as u64;
            let contents = count.div_ceil(8);
            if octets == contents {
                (count, 0, None)
            } else {
                let unused = contents.saturating_mul(8).saturating_sub(count);
                let counted = contents.saturating_add(1);
                (counted, octets.saturating_sub(counted), Some(unused))
            }
        }
        Value::Enum(_) if octets > 1 => (octets - 1, 1, None),
        Value::Int(_) if is_counted_in_octets(ty) && octets > 0 => (octets - 1, 1, None),
        _ => match items_of(value) {
            Some(count) => (count, octets.saturating_sub(count), None),
            None => (0, 0, None),
        },
    };
    Split {
        has_mark: false,
        is_extended: false,
        length,
        count,
        unused,
    }
}

/// Whether an extension bit stands before a value of the type in PER.
fn has_mark(ty: &AsnType) -> bool {
    match ty {
        AsnType::Int(bounds) => bounds.ext,
        AsnType::Enum { ext, .. } => ext.is_some(),
        AsnType::Bits(size) | AsnType::Octets(size) | AsnType::Text(_, size) => size.ext,
        _ => false,
    }
}

/// Whether the value is none of the root of the type.
fn is_outside(ty: &AsnType, value: &Value) -> bool {
    match (ty, value) {
        (AsnType::Int(bounds), Value::Int(number)) => !is_between(bounds, *number),
        (AsnType::Enum { root, .. }, Value::Enum(index)) => root.len() <= *index as usize,
        (AsnType::Bits(size), Value::Bits(bits)) => !is_in_size(size, bits.len()),
        (AsnType::Octets(size), Value::Octets(octets)) => !is_in_size(size, octets.len()),
        (AsnType::Text(_, size), Value::Text(codes)) => !is_in_size(size, codes.len()),
        _ => false,
    }
}

/// Whether a string has a general length determinant in PER: it is outside the root of its type, or no upper bound below
/// 65,536 is there.
fn is_general(ty: &AsnType, value: &Value) -> bool {
    match ty {
        AsnType::Utf8 => true,
        AsnType::Bits(size) | AsnType::Octets(size) | AsnType::Text(_, size) => {
            size.high.is_none_or(|high| high >= GENERAL_FROM) || is_outside(ty, value)
        }
        _ => false,
    }
}

/// How many items a string has, and how many bits each has in PER.
fn bits_of(ty: &AsnType, value: &Value) -> Option<(u64, u64)> {
    let width = match ty {
        AsnType::Bits(_) => 1,
        AsnType::Octets(_) | AsnType::Utf8 => 8,
        AsnType::Text(TextKind::Numeric, _) => 4,
        AsnType::Text(TextKind::Ia5 | TextKind::Visible, _) => 7,
        _ => return None,
    };
    let count = match value {
        Value::Bits(bits) => bits.len() as u64,
        _ => items_of(value)?,
    };
    Some((count, width))
}

/// How many octets or characters a string has.
fn items_of(value: &Value) -> Option<u64> {
    match value {
        Value::Octets(octets) => Some(octets.len() as u64),
        Value::Text(codes) => Some(codes.len() as u64),
        Value::Utf8(text) => Some(text.len() as u64),
        _ => None,
    }
}

/// Whether an integer of the type stands after the count of its octets in PER: it has not two bounds, or is outside
/// them.
fn is_counted(ty: &AsnType, value: &Value) -> bool {
    match (ty, value) {
        (AsnType::Int(bounds), Value::Int(number)) => {
            bounds.low.is_none() || bounds.high.is_none() || !is_between(bounds, *number)
        }
        _ => false,
    }
}

/// Whether an integer of the type stands after the count of its octets in OER.
fn is_counted_in_octets(ty: &AsnType) -> bool {
    match ty {
        AsnType::Int(bounds) => fixed_octets(bounds).is_none(),
        _ => false,
    }
}
