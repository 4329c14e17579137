//! How many entries the value takes that JSON shows.
use asn_json::{TextFault, json_in};
use asn_values::internal::additions;
use asn_values::{Alt, AsnType, Checked, Field};
use serde_json::{Map, Value as Json};
use std::alloc::{AllocError, Global};

/// How many entries the value takes that a line of JSON shows, if these are more than `most`; `widest` is that of
/// `widest_of` for the type. An entry is counted for each value, each component, absent or not, and each element. No value
/// is built.
///
/// # Errors
/// `AllocError` if an allocation failed.
pub fn json_over(
    alloc: Global,
    ty: &Checked,
    line: &[u8],
    widest: u64,
    most: u64,
) -> Result<Option<u64>, AllocError> {
    // each character shows at most an object, whose value has an entry for each component
    if (line.len() as u64).saturating_mul(widest) <= most {
        return Ok(None);
    }
    match json_in(alloc, line) {
        Ok(json) => {
            let entries = entries_of(ty.get(), &json);
            Ok(if entries > most { Some(entries) } else { None })
        }
        Err(TextFault::Memory) => Err(AllocError),
        Err(TextFault::NotJson | TextFault::KeyTwice { .. }) => Ok(None),
    }
}

/// The entries of the value of the type that the JSON shows.
#[cycle(entries)]
fn entries_of(ty: &AsnType, json: &Json) -> u64 {
    match ty {
        AsnType::Seq { root, ext } => match json.as_object() {
            Some(object) => {
                let known = component_entries(root.as_slice(), object);
                let more = component_entries(additions(ext), object);
                known.saturating_add(more).saturating_add(1)
            }
            None => 1,
        },
        AsnType::SeqOf(element, _) => match json.as_array() {
            Some(items) => element_entries(element, items),
            None => 1,
        },
        AsnType::Choice { root, ext } => match json.as_object() {
            Some(object) => {
                let known = alternative_entries(root.as_slice(), object);
                let more = alternative_entries(additions(ext), object);
                known.saturating_add(more).saturating_add(1)
            }
            None => 1,
        },
        AsnType::Bool
        | AsnType::Null
        | AsnType::Int(_)
        | AsnType::Enum { .. }
        | AsnType::Bits(_)
        | AsnType::Octets(_)
        | AsnType::Text(..)
        | AsnType::Utf8 => 1,
    }
}

/// The entries of the components.
#[cycle(entries)]
fn component_entries(fields: &[Field], object: &Map<String, Json>) -> u64 {
    let mut all = 0u64;
    for field in fields {
        let entries = match object.get(field.name.as_str()) {
            Some(json) => entries_of(&field.ty, json),
            None => 1,
        };
        all = all.saturating_add(entries);
    }
    all
}

/// The entries of the elements, and of their list.
#[cycle(entries)]
fn element_entries(element: &AsnType, items: &[Json]) -> u64 {
    let mut all = 1u64;
    for json in items {
        all = all.saturating_add(entries_of(element, json));
    }
    all
}

/// The entries of the alternatives that are given.
#[cycle(entries)]
fn alternative_entries(alternatives: &[Alt], object: &Map<String, Json>) -> u64 {
    let mut all = 0u64;
    for alternative in alternatives {
        if let Some(json) = object.get(alternative.name.as_str()) {
            all = all.saturating_add(entries_of(&alternative.ty, json));
        }
    }
    all
}

/// The greatest number of components of a SEQUENCE in the type, and one more.
#[cycle(widest)]
pub fn widest_of(ty: &AsnType) -> u64 {
    match ty {
        AsnType::Seq { root, ext } => {
            let more = additions(ext);
            let count = (root.len() as u64).saturating_add(more.len() as u64);
            let inside = widest_component(root.as_slice()).max(widest_component(more));
            inside.max(count.saturating_add(1))
        }
        AsnType::SeqOf(element, _) => widest_of(element),
        AsnType::Choice { root, ext } => {
            widest_alternative(root.as_slice()).max(widest_alternative(additions(ext)))
        }
        AsnType::Bool
        | AsnType::Null
        | AsnType::Int(_)
        | AsnType::Enum { .. }
        | AsnType::Bits(_)
        | AsnType::Octets(_)
        | AsnType::Text(..)
        | AsnType::Utf8 => 1,
    }
}

/// The greatest number in the types of the components.
#[cycle(widest)]
fn widest_component(fields: &[Field]) -> u64 {
    let mut widest = 1u64;
    for field in fields {
        widest = widest.max(widest_of(&field.ty));
    }
    widest
}

/// The greatest number in the types of the alternatives.
#[cycle(widest)]
fn widest_alternative(alternatives: &[Alt]) -> u64 {
    let mut widest = 1u64;
    for alternative in alternatives {
        widest = widest.max(widest_of(&alternative.ty));
    }
    widest
}
