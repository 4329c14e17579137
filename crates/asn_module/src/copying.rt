//! Copies of types that are built already, for the references to them.

ghost use Rattle.std.specs.Prelude.{◌≡◌, map, IfOk};
ghost use Rattle.asn_values.specs.View.{datum_of, demand_of, shape_of, label_of, fields_seen, alternatives_seen};
ghost use Rattle.asn_module.specs.Plain as spec;

use asn_values::{Alt, AsnType, Field, Item, Need, Value};
use std::alloc::{AllocError, Global};

/// The value of a DEFAULT: a BOOLEAN, a number or an item, and else NULL, which no DEFAULT has.
fn copy_value(value: &Value) -> Value
    ensures { datum_of result ≡ spec.plain_value (datum_of value.now) }
{
    match value {
        Value::Bool(truth) => Value::Bool(*truth),
        Value::Int(number) => Value::Int(*number),
        Value::Enum(index) => Value::Enum(*index),
        Value::Null
        | Value::Bits(_)
        | Value::Octets(_)
        | Value::Text(_)
        | Value::Utf8(_)
        | Value::Seq(_)
        | Value::List(_)
        | Value::Choice(..)
        | Value::UnknownItem(_)
        | Value::UnknownAlternative(_) => Value::Null,
    }
}

fn copy_need(need: &Need) -> Need
    ensures { demand_of result ≡ spec.plain_demand (demand_of need.now) }
{
    match need {
        Need::Must => Need::Must,
        Need::Optional => Need::Optional,
        Need::Default(value) => Need::Default(copy_value(value)),
    }
}

fn copy_items(alloc: Global, items: &[Item]) -> Result<Vec<Item>, AllocError>
    ensures { IfOk result (λ v. map label_of v.items ≡ map label_of items.now) }
{
    let mut copies = Vec::new(alloc);
    for item in items {
        let name = String::from_str(alloc, item.name.as_str())?;
        copies.push(Item {
            name,
            number: item.number,
        })?;
    }
    Ok(copies)
}

#[cycle(copying)]
fn copy_fields(alloc: Global, fields: &[Field]) -> Result<Vec<Field>, AllocError>
    ensures { IfOk result (λ v. fields_seen v.items ≡ spec.plain_fields (fields_seen fields.now)) }
{
    let mut copies = Vec::new(alloc);
    for field in fields {
        let name = String::from_str(alloc, field.name.as_str())?;
        let ty = copy_type(alloc, &field.ty)?;
        copies.push(Field {
            name,
            ty,
            need: copy_need(&field.need),
        })?;
    }
    Ok(copies)
}

#[cycle(copying)]
fn copy_alternatives(alloc: Global, alternatives: &[Alt]) -> Result<Vec<Alt>, AllocError>
    ensures { IfOk result
        (λ v. alternatives_seen v.items ≡ spec.plain_alternatives (alternatives_seen alternatives.now)) }
{
    let mut copies = Vec::new(alloc);
    for alternative in alternatives {
        let name = String::from_str(alloc, alternative.name.as_str())?;
        let ty = copy_type(alloc, &alternative.ty)?;
        copies.push(Alt { name, ty })?;
    }
    Ok(copies)
}

/// A copy of a type.
#[cycle(copying)]
pub(crate) fn copy_type(alloc: Global, ty: &AsnType) -> Result<AsnType, AllocError>
    ensures { IfOk result (λ copy. shape_of copy ≡ spec.plain (shape_of ty.now)) }
{
    match ty {
        AsnType::Bool => Ok(AsnType::Bool),
        AsnType::Null => Ok(AsnType::Null),
        AsnType::Int(bounds) => Ok(AsnType::Int(*bounds)),
        AsnType::Enum { root, ext } => {
            let root = copy_items(alloc, root)?;
            match ext {
                None => Ok(AsnType::Enum { root, ext: None }),
                Some(more) => {
                    let more = copy_items(alloc, more)?;
                    Ok(AsnType::Enum {
                        root,
                        ext: Some(more),
                    })
                }
            }
        }
        AsnType::Bits(size) => Ok(AsnType::Bits(*size)),
        AsnType::Octets(size) => Ok(AsnType::Octets(*size)),
        AsnType::Text(kind, size) => Ok(AsnType::Text(*kind, *size)),
        AsnType::Utf8 => Ok(AsnType::Utf8),
        AsnType::Seq { root, ext } => {
            let root = copy_fields(alloc, root)?;
            match ext {
                None => Ok(AsnType::Seq { root, ext: None }),
                Some(more) => {
                    let more = copy_fields(alloc, more)?;
                    Ok(AsnType::Seq {
                        root,
                        ext: Some(more),
                    })
                }
            }
        }
        AsnType::SeqOf(element, size) => {
            let element = copy_type(alloc, element)?;
            Ok(AsnType::SeqOf(Box::new(alloc, element)?, *size))
        }
        AsnType::Choice { root, ext } => {
            let root = copy_alternatives(alloc, root)?;
            match ext {
                None => Ok(AsnType::Choice { root, ext: None }),
                Some(more) => {
                    let more = copy_alternatives(alloc, more)?;
                    Ok(AsnType::Choice {
                        root,
                        ext: Some(more),
                    })
                }
            }
        }
    }
}
