//! The JSON of values.
ghost use Rattle.std.specs.Prelude.{◌≡◌, IfOk, IfErr, true, map, option_map};
ghost use Rattle.std.specs.List.{AllByRecursion};
ghost use Rattle.serde_json.specs.Data.{object};
ghost use Rattle.serde_json.specs.View.{view, members_view};
ghost use Rattle.asn_values.specs.Received.{FitsReceived, FitsComponent, FitsEachBy, FitsAlternativeBy};
ghost use Rattle.asn_values.specs.View.{shape_of, datum_of, part_of_field, fields_seen, alternatives_seen};
ghost use Rattle.asn_json.specs.Parts.{with_entry};
ghost use Rattle.asn_json.specs.Written.{Written, Unwritten, NoJson, Told, json_of, json_alternative, members};

use crate::fault::JsonFault;
use crate::leaves::{leaf_json, put_member, unknown_alternative_json};
use asn_source::Source;
use asn_values::internal::{fits_received, length_fits};
use asn_values::{Alt, AsnType, Checked, Field, Need, Value};
use serde_json::{Map, Value as Json};
use std::alloc::{AllocError, Global};

/// The JSON of the value.
///
/// - BOOLEAN is `true` or `false`, NULL `null`, INTEGER an integer, ENUMERATED the name of the item.
/// - BIT STRING is a string of the characters `0` and `1`, OCTET STRING one of hexadecimal digits in small letters, a
///   character string a string.
/// - SEQUENCE is an object without a member for an absent component, SEQUENCE OF an array.
/// - CHOICE is an object with one member, the name of the alternative and its value.
/// - An item of a newer sender that the type has not is the string of `?` and its number in decimal.
/// - An alternative that the type has not is an object whose one member is `?` with the tag in decimal and `null`.
///   `from_json` reads neither.
///
/// # Errors
/// `NotOfType` exactly where the value is none of the type, nor one that a receiver gives of such a message. `Memory`
/// where an allocation failed. Never `Shape`.
pub fn to_json(alloc: Global, ty: &Checked, value: &Value) -> Result<Json, JsonFault>
    ensures written { IfOk result (λ j. Written (shape_of ty.now) (datum_of value.now) (view j)) }
    ensures refused { IfErr result (λ fault. Unwritten (shape_of ty.now) (datum_of value.now) fault) }
{
    match json_of::<&Value>(alloc, ty.get(), value) {
        Ok(Some(json)) => Ok(json),
        Ok(None) => Err(JsonFault::NotOfType),
        Err(_) => {
            if fits_received(ty, value) {
                Err(JsonFault::Memory)
            } else {
                Err(JsonFault::NotOfType)
            }
        }
    }
}

/// The JSON of a value in any form from which it can be written: what [`to_json`] gives of this value as a tree.
///
/// # Errors
/// `NotOfType` only where the value is none of the type, nor one that a receiver gives of a message of a newer sender.
/// `Memory` where an allocation failed, which may come before it is seen that the value is none. Never `Shape`.
pub fn to_json_from<V: Source>(alloc: Global, ty: &Checked, value: V) -> Result<Json, JsonFault>
    ensures written { IfOk result (λ j. Written (shape_of ty.now) (V.datum value) (view j)) }
    ensures refused { IfErr result (λ fault. NoJson (shape_of ty.now) (V.datum value) fault) }
{
    match json_of::<V>(alloc, ty.get(), value) {
        Ok(Some(json)) => Ok(json),
        Ok(None) => Err(JsonFault::NotOfType),
        Err(_) => Err(JsonFault::Memory),
    }
}

/// The JSON of the value; nothing where it is none of the type.
#[cycle(json)]
fn json_of<V: Source>(alloc: Global, ty: &AsnType, value: V) -> Result<Option<Json>, AllocError>
    ensures { IfOk result (λ o. Told (FitsReceived (shape_of ty.now) (V.datum value))
        (json_of (shape_of ty.now) (V.datum value)) (option_map view o)) }
{
    match ty {
        AsnType::Seq { root, ext } => {
            let Some(entries) = value.entries() else {
                return Ok(None);
            };
            match ext {
                None => {
                    let members = with_members::<V>(alloc, root, entries, Map::new(alloc))?;
                    Ok(object_json(members))
                }
                Some(more) => {
                    let (first, others) = V::split_entries(entries, root.len());
                    let Some(object) = with_members::<V>(alloc, root, first, Map::new(alloc))?
                    else {
                        return Ok(None);
                    };
                    let members = with_members::<V>(alloc, more, others, object)?;
                    Ok(object_json(members))
                }
            }
        }
        AsnType::SeqOf(element, size) => {
            let Some(elements) = value.elements() else {
                return Ok(None);
            };
            let count = V::count_elements(elements);
            if !length_fits(size, count) {
                return Ok(None);
            }
            let Some(all) = elements_json::<V>(alloc, element, elements, count)? else {
                return Ok(None);
            };
            Ok(Some(Json::from(all)))
        }
        AsnType::Choice { root, ext } => {
            let Some(choice) = value.chosen() else {
                return match value.leaf() {
                    Some(leaf) if ext.is_some() => unknown_alternative_json(alloc, leaf),
                    _ => Ok(None),
                };
            };
            let index = choice.0 as usize;
            if index < root.len() {
                return alternative_json::<V>(alloc, root, index, choice.1);
            }
            match ext {
                None => Ok(None),
                Some(more) => alternative_json::<V>(alloc, more, index - root.len(), choice.1),
            }
        }
        AsnType::Bool
        | AsnType::Null
        | AsnType::Int(_)
        | AsnType::Enum { .. }
        | AsnType::Bits(_)
        | AsnType::Octets(_)
        | AsnType::Text(..)
        | AsnType::Utf8 => match value.leaf() {
            Some(leaf) => leaf_json(alloc, ty, leaf),
            None => Ok(None),
        },
    }
}

/// The object of these members, if there are any to be had.
#[inline(always)]
fn object_json(members: Option<Map<String, Json>>) -> Option<Json>
    ensures { option_map view result ≡ option_map (λ ms. object ms) (option_map (λ m. members_view m.entries) members) }
{
    match members {
        Some(members) => Some(Json::from(members)),
        None => None,
    }
}

/// The object with a member for each entry that is there; nothing where the entries are not one for each component,
/// each right for its own.
#[cycle(json)]
fn with_members<V: Source>(
    alloc: Global,
    fields: &[Field],
    entries: V::Entries,
    object: Map<String, Json>,
) -> Result<Option<Map<String, Json>>, AllocError>
    ensures { IfOk result (λ o. Told (FitsEachBy true (fields_seen fields.now) (V.entries_left entries))
        (members (fields_seen fields.now) (V.entries_left entries) (members_view object.entries))
        (option_map (λ m. members_view m.entries) o)) }
{
    if fields.len() != V::count_entries(entries) {
        return Ok(None);
    }
    let mut all = object;
    let mut left = entries;
    for field in fields {
        let entry = V::next_entry(&mut left);
        let Some(more) = with_member::<V>(alloc, field, entry, all)? else {
            return Ok(None);
        };
        all = more;
    }
    Ok(Some(all))
}

/// The object with a member for the entry, where it is there; nothing where the entry is not right for the component.
#[inline(always)]
#[cycle(json)]
fn with_member<V: Source>(
    alloc: Global,
    field: &Field,
    entry: Option<V>,
    object: Map<String, Json>,
) -> Result<Option<Map<String, Json>>, AllocError>
    ensures { IfOk result (λ o. Told (FitsComponent true (part_of_field field.now) (option_map V.datum entry))
        (with_entry (part_of_field field.now) (option_map V.datum entry) object.entries)
        (option_map (λ m. members_view m.entries) o)) }
{
    match entry {
        None => {
            if matches!(field.need, Need::Optional) {
                Ok(Some(object))
            } else {
                Ok(None)
            }
        }
        Some(value) => {
            let Some(json) = json_of::<V>(alloc, &field.ty, value)? else {
                return Ok(None);
            };
            Ok(Some(put_member(object, field.name.clone()?, json)?))
        }
    }
}

/// The JSON of each element, in a vector with room for `count`; nothing where one is none of the type.
#[cycle(json)]
fn elements_json<V: Source>(
    alloc: Global,
    element: &AsnType,
    elements: V::Elements,
    count: usize,
) -> Result<Option<Vec<Json>>, AllocError>
    ensures { IfOk result (λ o.
        Told (AllByRecursion (λ d. FitsReceived (shape_of element.now) d) (V.elements_left elements))
        (map (λ d. json_of (shape_of element.now) d) (V.elements_left elements))
        (option_map (λ v. map view v.items) o)) }
{
    let mut all = Vec::with_capacity(alloc, count)?;
    let mut left = elements;
    while let Some(value) = V::next_element(&mut left) {
        let Some(json) = json_of::<V>(alloc, element, value)? else {
            return Ok(None);
        };
        all.push(json)?;
    }
    Ok(Some(all))
}

/// The object with one member, for the alternative at an index; nothing where there is none, or the value is none of
/// its type.
#[cycle(json)]
fn alternative_json<V: Source>(
    alloc: Global,
    alternatives: &[Alt],
    index: usize,
    value: V,
) -> Result<Option<Json>, AllocError>
    ensures { IfOk result (λ o.
        Told (FitsAlternativeBy true (alternatives_seen alternatives.now) index (V.datum value))
        (json_alternative (alternatives_seen alternatives.now) index (V.datum value)) (option_map view o)) }
{
    if index >= alternatives.len() {
        return Ok(None);
    }
    let alternative = &alternatives[index];
    let Some(json) = json_of::<V>(alloc, &alternative.ty, value)? else {
        return Ok(None);
    };
    let object = put_member(Map::new(alloc), alternative.name.clone()?, json)?;
    Ok(Some(Json::from(object)))
}
