//! Which values a type has.
ghost use Rattle.std.specs.Prelude.{◌≡◌, ◌↔◌, IsTrue, map, option_map};
ghost use Rattle.std.specs.List.{AllByRecursion};
ghost use Rattle.asn_values.specs.Fits.{Fits};
ghost use Rattle.asn_values.specs.Received.{FitsReceived, FitsBy, FitsComponent, FitsEachBy, FitsAlternativeBy};
ghost use Rattle.asn_values.specs.View.{shape_of, datum_of, part_of_field, fields_seen, alternatives_seen, entries_seen};

use crate::checked::Checked;
use crate::types::{Alt, AsnType, Field, Need};
use crate::value::Value;
use crate::{enumerations, ranges, sizes, texts};

/// Whether the value is one of the type (X.680), an INTEGER being of the profile's numbers, a string of at
/// most 268,435,455 bits, octets or characters, and a list of at most 268,435,455 elements. Allocates
/// nothing.
pub fn fits(ty: &Checked, value: &Value) -> bool
    ensures { IsTrue result ↔ Fits (shape_of ty.now) (datum_of value.now) }
{
    type_has(ty.get(), value, false)
}

/// Whether the value is one that a receiver of the type may be given of a message of a newer sender. It is one of the
/// type as in [`fits`], with two exceptions. An `UnknownItem` may replace an item of an ENUMERATED with an extension
/// marker, and an `UnknownAlternative` an alternative of such a CHOICE. Allocates nothing.
pub fn fits_received(ty: &Checked, value: &Value) -> bool
    ensures { IsTrue result ↔ FitsReceived (shape_of ty.now) (datum_of value.now) }
{
    type_has(ty.get(), value, true)
}

/// Whether the value is one of the type, with unknown items and alternatives where `unknown` is true.
#[inline(always)]
#[cycle(fits)]
fn type_has(ty: &AsnType, value: &Value, unknown: bool) -> bool
    ensures { IsTrue result ↔ FitsBy unknown (shape_of ty.now) (datum_of value.now) }
{
    match ty {
        AsnType::Bool => matches!(value, Value::Bool(_)),
        AsnType::Null => matches!(value, Value::Null),
        AsnType::Int(bounds) => {
            matches!(value, Value::Int(number) if ranges::number_fits(bounds, *number))
        }
        AsnType::Enum { root, ext } => match value {
            Value::Enum(index) => enumerations::item_fits(root, ext, *index),
            Value::UnknownItem(_) => unknown && ext.is_some(),
            _ => false,
        },
        AsnType::Bits(size) => {
            matches!(value, Value::Bits(bits) if sizes::length_fits(size, bits.len()))
        }
        AsnType::Octets(size) => {
            matches!(value, Value::Octets(octets) if texts::octets_fit(size, octets))
        }
        AsnType::Text(kind, size) => {
            matches!(value, Value::Text(codes) if texts::text_fits(*kind, size, codes))
        }
        AsnType::Utf8 => matches!(value, Value::Utf8(text) if texts::unicode_fits(text)),
        AsnType::Seq { root, ext } => match value {
            Value::Seq(entries) => match ext {
                None => fields_have(root, entries, unknown),
                Some(additions) => {
                    let (root_entries, addition_entries) = entries.split_at(
                        root.len().min(entries.len()),
                    );
                    fields_have(root, root_entries, unknown)
                        && fields_have(additions, addition_entries, unknown)
                }
            },
            _ => false,
        },
        AsnType::SeqOf(element, size) => match value {
            Value::List(elements) => {
                sizes::length_fits(size, elements.len()) && elements_fit(element, elements, unknown)
            }
            _ => false,
        },
        AsnType::Choice { root, ext } => match value {
            Value::Choice(tag, chosen) => {
                let index = *tag as usize;
                if index < root.len() {
                    return alternative_has(root, index, chosen, unknown);
                }
                match ext {
                    None => false,
                    Some(additions) => alternative_has(
                        additions,
                        index - root.len(),
                        chosen,
                        unknown,
                    ),
                }
            }
            Value::UnknownAlternative(_) => unknown && ext.is_some(),
            _ => false,
        },
    }
}

/// Whether each element is a value of the type.
#[cycle(fits)]
fn elements_fit(element: &AsnType, elements: &[Value], unknown: bool) -> bool
    ensures { IsTrue result ↔ AllByRecursion (FitsBy unknown (shape_of element.now)) (map datum_of elements.now) }
{
    for value in elements {
        if !type_has(element, value, unknown) {
            return false;
        }
    }
    true
}

/// Whether there is an alternative with this index, and the value is one of its type.
#[cycle(fits)]
fn alternative_has(alternatives: &[Alt], index: usize, chosen: &Value, unknown: bool) -> bool
    ensures { IsTrue result
        ↔ FitsAlternativeBy unknown (alternatives_seen alternatives.now) index (datum_of chosen.now) }
{
    index < alternatives.len() && type_has(&alternatives[index].ty, chosen, unknown)
}

/// Whether there is one entry for each component, and each is right for its own.
#[cycle(fits)]
fn fields_have(fields: &[Field], entries: &[Option<Value>], unknown: bool) -> bool
    ensures { IsTrue result ↔ FitsEachBy unknown (fields_seen fields.now) (entries_seen entries.now) }
{
    if fields.len() != entries.len() {
        return false;
    }
    for (index, field) in fields.iter().enumerate() {
        if !field_has(field, &entries[index], unknown) {
            return false;
        }
    }
    true
}

/// Whether the entry is a value of the component, or absent where the component is OPTIONAL.
#[inline(always)]
#[cycle(fits)]
fn field_has(field: &Field, entry: &Option<Value>, unknown: bool) -> bool
    ensures { IsTrue result ↔ FitsComponent unknown (part_of_field field.now) (option_map datum_of entry.now) }
{
    match entry {
        Some(value) => type_has(&field.ty, value, unknown),
        None => matches!(field.need, Need::Optional),
    }
}
