//! The type of a part of a value, in words.
use asn_values::{AsnType, Bounds, Size, TextKind};
use std::alloc::{AllocError, Global};

/// The type of the part at a path of the names and indexes that `asn_explain`, `asn_view` and `asn_json` return;
/// `None` where the path leads to none.
pub fn type_at<'t>(ty: &'t AsnType, path: &str) -> Option<&'t AsnType> {
    let mut here = ty;
    for piece in path.split('.') {
        here = type_below(here, piece)?;
    }
    Some(here)
}

/// The type of the part at one piece of a path: a name, or `$` for the value itself, and an index in brackets for each
/// list that is gone into.
fn type_below<'t>(ty: &'t AsnType, piece: &str) -> Option<&'t AsnType> {
    match piece.split_once('[') {
        Some((name, indexes)) => element_below(part_named(ty, name)?, indexes),
        None => part_named(ty, piece),
    }
}

/// The type of the element that is reached by so many indexes, each with a bracket behind it.
fn element_below<'t>(ty: &'t AsnType, indexes: &str) -> Option<&'t AsnType> {
    let mut here = ty;
    for index in indexes.split(']') {
        if !index.is_empty() {
            here = element_of(here)?;
        }
    }
    Some(here)
}

/// The type of the component or alternative of this name; `$` is the type itself.
fn part_named<'t>(ty: &'t AsnType, name: &str) -> Option<&'t AsnType> {
    if *name == *"$" {
        return Some(ty);
    }
    match ty.component(name) {
        Some(field) => Some(&field.ty),
        None => match ty.alternative(name) {
            Some(alternative) => Some(&alternative.ty),
            None => None,
        },
    }
}

/// The type of the elements of a list.
fn element_of(ty: &AsnType) -> Option<&AsnType> {
    match ty {
        AsnType::SeqOf(element, _) => {
            let element: &AsnType = element;
            Some(element)
        }
        _ => None,
    }
}

/// The type on one line, without the parts inside it: `INTEGER (0..8191)`.
pub fn type_words(alloc: Global, ty: &AsnType) -> Result<String, AllocError> {
    let words = match ty {
        AsnType::Bool => "BOOLEAN",
        AsnType::Null => "NULL",
        AsnType::Int(bounds) => return number_words(alloc, bounds),
        AsnType::Enum { .. } => "ENUMERATED",
        AsnType::Bits(size) => return sized_words(alloc, "BIT STRING", size, ""),
        AsnType::Octets(size) => return sized_words(alloc, "OCTET STRING", size, ""),
        AsnType::Text(TextKind::Ia5, size) => return sized_words(alloc, "IA5String", size, ""),
        AsnType::Text(TextKind::Numeric, size) => {
            return sized_words(alloc, "NumericString", size, "");
        }
        AsnType::Text(TextKind::Visible, size) => {
            return sized_words(alloc, "VisibleString", size, "");
        }
        AsnType::Utf8 => "UTF8String",
        AsnType::Seq { .. } => "SEQUENCE",
        AsnType::SeqOf(_, size) => return sized_words(alloc, "SEQUENCE", size, " OF"),
        AsnType::Choice { .. } => "CHOICE",
    };
    String::from_str(alloc, words)
}

/// The mark that other values may be added.
fn mark(ext: bool) -> &'static str {
    if ext { ", ..." } else { "" }
}

/// An INTEGER with its bounds.
fn number_words(alloc: Global, bounds: &Bounds) -> Result<String, AllocError> {
    let mark = mark(bounds.ext);
    match (bounds.low, bounds.high) {
        (Some(low), Some(high)) if low == high => format!(in alloc; "INTEGER ({low}{mark})"),
        (Some(low), Some(high)) => format!(in alloc; "INTEGER ({low}..{high}{mark})"),
        (Some(low), None) => format!(in alloc; "INTEGER ({low}..MAX{mark})"),
        (None, Some(high)) => format!(in alloc; "INTEGER (MIN..{high}{mark})"),
        (None, None) => String::from_str(alloc, "INTEGER"),
    }
}

/// A type with its size, and what follows it.
fn sized_words(alloc: Global, name: &str, size: &Size, last: &str) -> Result<String, AllocError> {
    let low = size.low;
    let mark = mark(size.ext);
    match size.high {
        Some(high) if low == high => format!(in alloc; "{name} (SIZE ({low}{mark})){last}"),
        Some(high) => format!(in alloc; "{name} (SIZE ({low}..{high}{mark})){last}"),
        None if low == 0 => format!(in alloc; "{name}{last}"),
        None => format!(in alloc; "{name} (SIZE ({low}..MAX{mark})){last}"),
    }
}
