//! Which values a remark on their type is about.
use asn_published_types::report::Remark;
use asn_values::profile::MAX_SIZE_BOUND;
use asn_values::{AsnType, Field, Need, Value, same};

/// Whether a value that is encoded could be none of the published type, or its octets no encoding of it, as the remark says.
pub(crate) fn is_met(remark: Remark, ty: &AsnType, value: &Value, is_oer: bool) -> bool {
    match remark {
        Remark::TrimmedBits => !is_trimmed(ty, value),
        Remark::SizeToMax => length_of(value) > MAX_SIZE_BOUND as usize,
        Remark::OerTags => is_oer,
        Remark::OerItems => is_oer && is_addition(ty, value),
        // (the component is there)
        Remark::LeftOut => false,
        Remark::Level | Remark::Unbounded | Remark::Holds(_) | Remark::Refused(_) => false,
        Remark::Gap
        | Remark::Dropped
        | Remark::Default
        | Remark::Characters
        | Remark::Contents
        | Remark::OpenType
        | Remark::Content(_)
        | Remark::Real => true,
    }
}

/// Whether a component has an encoding: it is there, and is not its DEFAULT.
pub(crate) fn is_spelt(field: &Field, entry: &Option<Value>) -> bool {
    match entry {
        Some(value) => match &field.need {
            Need::Default(default) => !same(default, value),
            _ => true,
        },
        None => false,
    }
}

/// Whether named bits are as short as their size lets them be.
fn is_trimmed(ty: &AsnType, value: &Value) -> bool {
    let (AsnType::Bits(size), Value::Bits(bits)) = (ty, value) else {
        return false;
    };
    let low = size.low as usize;
    bits.len() == low || (bits.len() > low && matches!(bits.last(), Some(true)))
}

/// How many items a string or a list has.
fn length_of(value: &Value) -> usize {
    match value {
        Value::Bits(bits) => bits.len(),
        Value::Octets(octets) => octets.len(),
        Value::Text(codes) => codes.len(),
        Value::List(elements) => elements.len(),
        _ => usize::MAX,
    }
}

/// Whether an item of an ENUMERATED is none of its root.
fn is_addition(ty: &AsnType, value: &Value) -> bool {
    match (ty, value) {
        (AsnType::Enum { root, .. }, Value::Enum(place)) => *place as usize >= root.len(),
        _ => true,
    }
}
