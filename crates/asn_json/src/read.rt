//! The values that JSON shows.
ghost use Rattle.std.specs.Prelude.{◌≡◌, ◌≢◌, ◌<◌, ◌^◌, [], IfOk, IfErr, OnOk, IsOkAnd, None, option_map};
ghost use Rattle.serde_json.specs.View.{view};
ghost use Rattle.asn_values.specs.Datum.{alternative};
ghost use Rattle.asn_values.specs.Fits.{Fits};
ghost use Rattle.asn_values.specs.Parts.{AreOfProfile, AreAllOfProfile, IsGoodDemand};
ghost use Rattle.asn_values.specs.Profile.{InProfile};
ghost use Rattle.asn_values.specs.View.{shape_of, datum_of, part_of_field, fields_seen, alternatives_seen};
ghost use Rattle.asn_json.specs.Errors.{Shown, Refused, errors};
ghost use Rattle.asn_json.specs.Older.{ReadsAsBefore};
ghost use Rattle.asn_json.specs.Parts.{ShowsComponents, component_errors, ShowsComponent, errors_of_component, key_errors, ShowsArray, array_errors, alternative_errors, TellsBelow};
ghost use Rattle.asn_json.specs.Paths.{to_member};
ghost use Rattle.asn_json.specs.Readers.{TellsFirst, Shows, ShowsEntry, errors_of_entry, ShowsAt};
ghost use Rattle.asn_json.specs.declared.fault.JsonFault.{JsonFault};

use crate::fault::JsonFault;
use crate::leaf_readers::{
    bits_shown, characters_shown, item_shown, null_shown, number_shown, octets_shown, truth_shown,
    unicode_shown,
};
use crate::names::{alternative_index, is_component, member, only_member};
use crate::paths::{at_node, below_element, below_member, from_top, value_or_fault};
use asn_values::{Alt, AsnType, Checked, Field, Need, Value, fits};
use serde_json::{Map, Value as Json};
use std::alloc::Global;

/// The value that the JSON shows, in the form that `to_json` writes. Hexadecimal digits may be capital letters too,
/// and a component with a DEFAULT that is missing has that value.
///
/// # Errors
/// `Shape` where the JSON is not of the shape of the type, with the path of the first node where it is not. A node
/// comes before its parts, and each part with all in it before the next. Components and elements come in their order,
/// and the unknown keys of an object after its components.
///
/// Of the shape are the kind of each node, integers of the profile, and the names of items, keys and alternatives. So
/// are one key for a CHOICE, even counts of hexadecimal digits, and the characters 0 and 1 of bits. A missing or
/// unknown key is reported at its object.
///
/// `NotOfType` where the shape is right and the value is none of the type. `Memory` where an allocation failed.
pub fn from_json(alloc: Global, ty: &Checked, json: &Json) -> Result<Value, JsonFault>
    ensures shown { IfOk result (λ v. Shown (shape_of ty.now) (view json.now) (datum_of v)) }
    ensures fits { IfOk result (λ v. Fits (shape_of ty.now) (datum_of v)) }
    ensures refused { IfErr result (λ fault. Refused (shape_of ty.now) (view json.now) fault) }
    // of JSON that showed a value under the limits of the profile before this one
    ensures older { ReadsAsBefore (shape_of ty.now) (view json.now) result }
{
    match value_shown(alloc, ty, json) {
        Ok(value) => {
            if fits(ty, &value) {
                Ok(value)
            } else {
                Err(JsonFault::NotOfType)
            }
        }
        Err(fault) => Err(fault),
    }
}

/// The value that the JSON shows, whether or not it fits the type, as `asn_view::misfit` then reports.
///
/// # Errors
/// `Shape` and `Memory`, as `from_json` reports them.
pub fn value_shown(alloc: Global, ty: &Checked, json: &Json) -> Result<Value, JsonFault>
    ensures shown { IfOk result (λ v. Shown (shape_of ty.now) (view json.now) (datum_of v)) }
    ensures refused { IfErr result (λ fault. Refused (shape_of ty.now) (view json.now) fault) }
    ensures no_bounds { IfErr result (λ fault. fault ≢ JsonFault.NotOfType) }
{
    match read(alloc, ty.get(), json) {
        Ok(value) => Ok(value),
        Err(fault) => Err(from_top(alloc, fault)),
    }
}

/// Reads a value of the type.
#[cycle(reader)]
fn read(alloc: Global, ty: &AsnType, json: &Json) -> Result<Value, JsonFault>
    requires of_profile { InProfile (shape_of ty.now) }
    ensures shown { IfOk result (λ v. Shows (shape_of ty.now) (view json.now) (datum_of v)) }
    ensures refused { IfErr result (λ fault. TellsFirst (errors (shape_of ty.now) (view json.now)) fault) }
{
    match ty {
        AsnType::Bool => value_or_fault(alloc, truth_shown(json)),
        AsnType::Null => value_or_fault(alloc, null_shown(json)),
        AsnType::Int(_) => value_or_fault(alloc, number_shown(json)),
        AsnType::Enum { root, ext } => value_or_fault(alloc, item_shown(root, ext, json)),
        AsnType::Bits(_) => value_or_fault(alloc, bits_shown(alloc, json)?),
        AsnType::Octets(_) => value_or_fault(alloc, octets_shown(alloc, json)?),
        AsnType::Text(..) => value_or_fault(alloc, characters_shown(alloc, json)?),
        AsnType::Utf8 => value_or_fault(alloc, unicode_shown(alloc, json)?),
        AsnType::Seq { root, ext } => {
            let Some(object) = json.as_object() else {
                return Err(at_node(alloc));
            };
            let root_entries = read_entries(alloc, root, object, Vec::new(alloc))?;
            let entries = match ext {
                Some(more) => read_entries(alloc, more, object, root_entries)?,
                None => root_entries,
            };
            check_keys(alloc, root, ext, object)?;
            Ok(Value::Seq(entries))
        }
        AsnType::SeqOf(element, _) => match json.as_array() {
            Some(items) => Ok(Value::List(read_elements(alloc, element, items)?)),
            None => Err(at_node(alloc)),
        },
        AsnType::Choice { root, ext } => {
            let Some((name, chosen)) = only_member(json) else {
                return Err(at_node(alloc));
            };
            let Some(index) = alternative_index(root, ext, name) else {
                return Err(at_node(alloc));
            };
            if index < root.len() {
                let value = read_alternative(alloc, root, index, chosen);
                return choice_read(alloc, name, index, value);
            }
            match ext {
                Some(more) => {
                    let value = read_alternative(alloc, more, index - root.len(), chosen);
                    choice_read(alloc, name, index, value)
                }
                None => choice_read(alloc, name, index, Err(at_node(alloc))),
            }
        }
    }
}

/// Reads the entry of each component, and puts it after those given.
#[cycle(reader)]
fn read_entries(
    alloc: Global,
    fields: &[Field],
    object: &Map<String, Json>,
    given: Vec<Option<Value>>,
) -> Result<Vec<Option<Value>>, JsonFault>
    requires of_profile { AreOfProfile (fields_seen fields.now) }
    ensures shown { IfOk result (λ es. ShowsComponents fields.now object.now.entries given.items es.items) }
    ensures refused { IfErr result (λ fault. TellsFirst (component_errors fields.now object.now.entries) fault) }
{
    let mut all = given;
    for field in fields {
        let entry = read_entry(alloc, field, object)?;
        all.push(entry)?;
    }
    Ok(all)
}

/// Reads the entry of a component: the value at its name, or what a missing key stands for.
#[cycle(reader)]
fn read_entry(
    alloc: Global,
    field: &Field,
    object: &Map<String, Json>,
) -> Result<Option<Value>, JsonFault>
    requires of_profile { InProfile (part_of_field field.now).shape }
    requires good { IsGoodDemand (part_of_field field.now).demand (part_of_field field.now).shape }
    ensures shown { IfOk result (λ e. ShowsComponent (part_of_field field.now) object.now.entries e) }
    ensures refused { IfErr result (λ fault.
        TellsFirst (errors_of_component (part_of_field field.now) object.now.entries) fault) }
{
    match member(object, field.name.as_str()) {
        Some(json) => match read(alloc, &field.ty, json) {
            Ok(value) => Ok(Some(value)),
            Err(fault) => Err(below_member(alloc, field.name.as_str(), fault)),
        },
        None => missing(alloc, field),
    }
}

/// What a missing key stands for: the DEFAULT, or an absent component where it is OPTIONAL.
fn missing(alloc: Global, field: &Field) -> Result<Option<Value>, JsonFault>
    requires { IsGoodDemand (part_of_field field.now).demand (part_of_field field.now).shape }
    ensures shown { IfOk result (λ e. ShowsEntry (part_of_field field.now) None (option_map datum_of e)) }
    ensures refused { IfErr result (λ fault. TellsFirst (errors_of_entry (part_of_field field.now) None) fault) }
{
    match &field.need {
        Need::Must => Err(at_node(alloc)),
        Need::Optional => Ok(None),
        Need::Default(Value::Bool(truth)) => Ok(Some(Value::Bool(*truth))),
        Need::Default(Value::Int(integer)) => Ok(Some(Value::Int(*integer))),
        Need::Default(Value::Enum(index)) => Ok(Some(Value::Enum(*index))),
        Need::Default(
            Value::Null
            | Value::Bits(_)
            | Value::Octets(_)
            | Value::Text(_)
            | Value::Utf8(_)
            | Value::Seq(_)
            | Value::List(_)
            | Value::Choice(..)
            | Value::UnknownItem(_)
            | Value::UnknownAlternative(_),
        ) => unreachable!(),
    }
}

/// Looks for a key of the object that is the name of no component.
fn check_keys(
    alloc: Global,
    root: &[Field],
    ext: &Option<Vec<Field>>,
    object: &Map<String, Json>,
) -> Result<(), JsonFault>
    ensures known { OnOk result (key_errors root.now ext.now object.now.entries ≡ []) }
    ensures refused { IfErr result (λ fault. TellsFirst (key_errors root.now ext.now object.now.entries) fault) }
{
    for (key, _) in object.iter() {
        if !is_component(root, ext, key.as_str()) {
            return Err(at_node(alloc));
        }
    }
    Ok(())
}

/// Reads the elements of an array.
#[cycle(reader)]
fn read_elements(alloc: Global, element: &AsnType, items: &[Json]) -> Result<Vec<Value>, JsonFault>
    requires of_profile { InProfile (shape_of element.now) }
    ensures shown { IfOk result (λ vs. ShowsArray element.now items.now vs.items) }
    ensures refused { IfErr result (λ fault. TellsFirst (array_errors element.now items.now) fault) }
{
    let mut all = Vec::with_capacity(alloc, items.len())?;
    for (index, json) in items.iter().enumerate() {
        match read(alloc, element, json) {
            Ok(value) => all.push(value)?,
            Err(fault) => return Err(below_element(alloc, index, fault)),
        }
    }
    Ok(all)
}

/// The value of a CHOICE from that of the alternative of this name at this index.
fn choice_read(
    alloc: Global,
    name: &str,
    index: usize,
    read: Result<Value, JsonFault>,
) -> Result<Value, JsonFault>
    requires { index < 2 ^ 32 }
    ensures shown { IfOk result (λ v. IsOkAnd read (λ w. datum_of v ≡ alternative index (datum_of w))) }
    ensures refused { IfErr result (λ fault. TellsBelow (to_member name.now) read fault) }
{
    match read {
        Ok(value) => Ok(Value::Choice(index as u32, Box::new(alloc, value)?)),
        Err(fault) => Err(below_member(alloc, name, fault)),
    }
}

/// Reads a value of the alternative at an index of the list.
#[cycle(reader)]
fn read_alternative(
    alloc: Global,
    alternatives: &[Alt],
    index: usize,
    json: &Json,
) -> Result<Value, JsonFault>
    requires of_profile { AreAllOfProfile (alternatives_seen alternatives.now) }
    ensures shown { IfOk result (λ v.
        ShowsAt (alternatives_seen alternatives.now) index (view json.now) (datum_of v)) }
    ensures refused { IfErr result (λ fault.
        TellsFirst (alternative_errors alternatives.now index json.now) fault) }
{
    if index >= alternatives.len() {
        return Err(at_node(alloc));
    }
    read(alloc, &alternatives[index].ty, json)
}
