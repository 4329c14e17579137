//! Writes values in X.680's value notation, so that none ends a comment or a line.
use crate::strings::{put_codes, put_text};
use asn_values::internal::part_at;
use asn_values::{AsnType, Value};
use std::alloc::AllocError;
use std::fmt::Write;

/// Writes a value with the names of the type. A component, an item or an alternative that the type does not have is
/// written by its index.
#[cycle(value_writing)]
pub(crate) fn put_value(
    out: &mut String,
    ty: Option<&AsnType>,
    value: &Value,
) -> Result<(), AllocError> {
    match value {
        Value::Bool(true) => out.push_str("TRUE"),
        Value::Bool(false) => out.push_str("FALSE"),
        Value::Null => out.push_str("NULL"),
        Value::Int(number) => write!(out, "{number}"),
        Value::Enum(index) => put_item(out, ty, *index),
        Value::Bits(bits) => put_bits(out, bits),
        Value::Octets(octets) => put_octets(out, octets),
        Value::Text(codes) => put_codes(out, codes),
        Value::Utf8(text) => put_text(out, text),
        Value::Seq(entries) => put_entries(out, ty, entries),
        Value::List(elements) => put_elements(out, element_of(ty), elements),
        Value::Choice(tag, chosen) => {
            put_name(out, alternative_name(ty, *tag as usize), *tag as usize)?;
            out.push_str(" : ")?;
            put_value(out, alternative_type(ty, *tag as usize), chosen)
        }
        Value::UnknownItem(number) => write!(out, "{number}"),
        Value::UnknownAlternative(tag) => write!(out, "{tag}"),
    }
}

/// Writes a name, or the index of what has none.
pub(crate) fn put_name(
    out: &mut String,
    name: Option<&str>,
    index: usize,
) -> Result<(), AllocError> {
    match name {
        Some(name) => out.push_str(name),
        None => write!(out, "{index}"),
    }
}

/// Writes the item of an ENUMERATED at an index.
pub(crate) fn put_item(
    out: &mut String,
    ty: Option<&AsnType>,
    index: u32,
) -> Result<(), AllocError> {
    match ty {
        Some(AsnType::Enum { root, ext }) => match part_at(root, ext, index as usize) {
            Some(item) => out.push_str(item.name.as_str()),
            None => write!(out, "{index}"),
        },
        _ => write!(out, "{index}"),
    }
}

/// Writes bits between apostrophes, and a B.
fn put_bits(out: &mut String, bits: &[bool]) -> Result<(), AllocError> {
    out.push_str("'")?;
    for bit in bits {
        out.push_str(if *bit { "1" } else { "0" })?;
    }
    out.push_str("'B")
}

/// Writes octets in hexadecimal between apostrophes, and an H.
fn put_octets(out: &mut String, octets: &[u8]) -> Result<(), AllocError> {
    out.push_str("'")?;
    for octet in octets {
        write!(out, "{octet:02X}")?;
    }
    out.push_str("'H")
}

/// Writes the components that have a value, each after its name.
#[cycle(value_writing)]
fn put_entries(
    out: &mut String,
    ty: Option<&AsnType>,
    entries: &[Option<Value>],
) -> Result<(), AllocError> {
    out.push_str("{")?;
    let mut is_first = true;
    for (index, entry) in entries.iter().enumerate() {
        if let Some(value) = entry {
            out.push_str(if is_first { "" } else { ", " })?;
            is_first = false;
            put_name(out, component_name(ty, index), index)?;
            out.push_str(" ")?;
            put_value(out, component_type(ty, index), value)?;
        }
    }
    out.push_str("}")
}

/// Writes the elements of a SEQUENCE OF.
#[cycle(value_writing)]
fn put_elements(
    out: &mut String,
    element: Option<&AsnType>,
    values: &[Value],
) -> Result<(), AllocError> {
    out.push_str("{")?;
    for (index, value) in values.iter().enumerate() {
        out.push_str(if index == 0 { "" } else { ", " })?;
        put_value(out, element, value)?;
    }
    out.push_str("}")
}

/// The name of the component of a SEQUENCE at an index.
pub(crate) fn component_name<'a>(ty: Option<&'a AsnType>, index: usize) -> Option<&'a str> {
    match ty {
        Some(AsnType::Seq { root, ext }) => match part_at(root, ext, index) {
            Some(field) => Some(field.name.as_str()),
            None => None,
        },
        _ => None,
    }
}

/// The type of the component of a SEQUENCE at an index.
pub(crate) fn component_type<'a>(ty: Option<&'a AsnType>, index: usize) -> Option<&'a AsnType> {
    match ty {
        Some(AsnType::Seq { root, ext }) => match part_at(root, ext, index) {
            Some(field) => Some(&field.ty),
            None => None,
        },
        _ => None,
    }
}

/// The name of the alternative of a CHOICE at an index.
pub(crate) fn alternative_name<'a>(ty: Option<&'a AsnType>, index: usize) -> Option<&'a str> {
    match ty {
        Some(AsnType::Choice { root, ext }) => match part_at(root, ext, index) {
            Some(alternative) => Some(alternative.name.as_str()),
            None => None,
        },
        _ => None,
    }
}

/// The type of the alternative of a CHOICE at an index.
pub(crate) fn alternative_type<'a>(ty: Option<&'a AsnType>, index: usize) -> Option<&'a AsnType> {
    match ty {
        Some(AsnType::Choice { root, ext }) => match part_at(root, ext, index) {
            Some(alternative) => Some(&alternative.ty),
            None => None,
        },
        _ => None,
    }
}

/// The type of the elements of a SEQUENCE OF.
pub(crate) fn element_of<'a>(ty: Option<&'a AsnType>) -> Option<&'a AsnType> {
    match ty {
        Some(AsnType::SeqOf(element, _)) => Some(element),
        _ => None,
    }
}
