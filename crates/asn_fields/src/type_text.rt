//! Types as text, without the types inside them.

use asn_values::{AsnType, Bounds, Size, TextKind};
use std::alloc::{AllocError, Global};

/// The notation of the type (X.680); of a SEQUENCE, a CHOICE and an ENUMERATED the word alone, of a SEQUENCE OF without
/// the type of its elements.
///
/// # Errors
/// `AllocError` where an allocation failed.
pub(crate) fn type_text(alloc: Global, ty: &AsnType) -> Result<String, AllocError> {
    match ty {
        AsnType::Bool => String::from_str(alloc, "BOOLEAN"),
        AsnType::Null => String::from_str(alloc, "NULL"),
        AsnType::Int(bounds) => with_range(alloc, bounds),
        AsnType::Enum { .. } => String::from_str(alloc, "ENUMERATED"),
        AsnType::Bits(size) => with_size(alloc, "BIT STRING", size),
        AsnType::Octets(size) => with_size(alloc, "OCTET STRING", size),
        AsnType::Text(TextKind::Ia5, size) => with_size(alloc, "IA5String", size),
        AsnType::Text(TextKind::Numeric, size) => with_size(alloc, "NumericString", size),
        AsnType::Text(TextKind::Visible, size) => with_size(alloc, "VisibleString", size),
        AsnType::Utf8 => String::from_str(alloc, "UTF8String"),
        AsnType::Seq { .. } => String::from_str(alloc, "SEQUENCE"),
        AsnType::SeqOf(_, size) => list_text(alloc, size),
        AsnType::Choice { .. } => String::from_str(alloc, "CHOICE"),
    }
}

/// The notation of a SEQUENCE OF of this size, without the type of its elements.
pub(crate) fn list_text(alloc: Global, size: &Size) -> Result<String, AllocError> {
    let mut text = with_size(alloc, "SEQUENCE", size)?;
    text.push_str(" OF")?;
    Ok(text)
}

/// INTEGER, and its value range.
fn with_range(alloc: Global, bounds: &Bounds) -> Result<String, AllocError> {
    let mark = mark(bounds.ext);
    match (bounds.low, bounds.high) {
        (None, None) => String::from_str(alloc, "INTEGER"),
        (Some(low), None) => format!(in alloc; "INTEGER ({low}..MAX{mark})"),
        (None, Some(high)) => format!(in alloc; "INTEGER (MIN..{high}{mark})"),
        (Some(low), Some(high)) => format!(in alloc; "INTEGER ({low}..{high}{mark})"),
    }
}

/// The name, and the size constraint.
fn with_size(alloc: Global, name: &str, size: &Size) -> Result<String, AllocError> {
    let mark = mark(size.ext);
    let low = size.low;
    match size.high {
        None if low == 0 && !size.ext => String::from_str(alloc, name),
        None => format!(in alloc; "{name} (SIZE ({low}..MAX{mark}))"),
        Some(high) if high == low => format!(in alloc; "{name} (SIZE ({low}{mark}))"),
        Some(high) => format!(in alloc; "{name} (SIZE ({low}..{high}{mark}))"),
    }
}

/// The extension marker, where there is one.
fn mark(ext: bool) -> &'static str {
    if ext { ", ..." } else { "" }
}
