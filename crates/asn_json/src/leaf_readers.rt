//! What JSON shows of types without parts.
ghost use Rattle.std.specs.Prelude.{◌≡◌, ◌≤◌, ◌+◌, ◌==◌, IfOk, map, option_map, length};
ghost use Rattle.std.specs.List.{list_all};
ghost use Rattle.serde_json.specs.View.{view};
ghost use Rattle.asn_values.specs.Profile.{most_items};
ghost use Rattle.asn_values.specs.Shape.{more_labels};
ghost use Rattle.asn_values.specs.View.{datum_of, more_labels_of};
ghost use Rattle.asn_json.specs.Parts.{names_of_items};
ghost use Rattle.asn_json.specs.Shown.{truth_in, nothing_in, number_in, item_in, is_bit_character, bits_in, octets_in, characters_in, unicode_in};

use crate::leaves::INTEGERS;
use asn_values::internal::is_between;
use asn_values::{Item, Value};
use asn_view::item_index;
use hex::FromHexError;
use serde_json::Value as Json;
use std::alloc::{AllocError, Global};

/// The value of a BOOLEAN.
pub(crate) fn truth_shown(json: &Json) -> Option<Value>
    ensures { option_map datum_of result ≡ truth_in (view json.now) }
{
    match json.as_bool() {
        Some(truth) => Some(Value::Bool(truth)),
        None => None,
    }
}

/// The value of NULL.
pub(crate) fn null_shown(json: &Json) -> Option<Value>
    ensures { option_map datum_of result ≡ nothing_in (view json.now) }
{
    match json.as_null() {
        Some(_) => Some(Value::Null),
        None => None,
    }
}

/// The value of an INTEGER: a number that is an integer of the profile.
pub(crate) fn number_shown(json: &Json) -> Option<Value>
    ensures { option_map datum_of result ≡ number_in (view json.now) }
{
    let integer = json.as_number()?.as_i128()?;
    if is_between(&INTEGERS, integer) {
        Some(Value::Int(integer))
    } else {
        None
    }
}

/// The value of an ENUMERATED: the item of this name.
pub(crate) fn item_shown(root: &[Item], ext: &Option<Vec<Item>>, json: &Json) -> Option<Value>
    requires few { length root.now + length (more_labels (more_labels_of ext.now)) ≤ most_items }
    ensures { option_map datum_of result ≡ item_in (names_of_items root.now ext.now) (view json.now) }
{
    let index = item_index(root, ext, json.as_str()?)?;
    Some(Value::Enum(index as u32))
}

/// The value of a BIT STRING: a bit for each character.
pub(crate) fn bits_shown(alloc: Global, json: &Json) -> Result<Option<Value>, AllocError>
    ensures { IfOk result (λ v. option_map datum_of v ≡ bits_in (view json.now)) }
{
    let Some(text) = json.as_str() else {
        return Ok(None);
    };
    let characters = text.as_bytes();
    if !are_bits(characters) {
        return Ok(None);
    }
    Ok(Some(Value::Bits(bits_from(alloc, characters)?)))
}

/// Whether each character is 0 or 1.
fn are_bits(characters: &[u8]) -> bool
    ensures { result ≡ list_all is_bit_character characters.now }
{
    characters.iter().all(|c| *c == b'0' || *c == b'1')
}

/// A bit for each character, which is 1 or 0.
fn bits_from(alloc: Global, characters: &[u8]) -> Result<Vec<bool>, AllocError>
    ensures { IfOk result (λ bits. bits.items ≡ map (λ c. c == 49) characters.now) }
{
    characters.iter().map(|c| *c == b'1').collect(alloc)
}

/// The value of an OCTET STRING: an octet for each two hexadecimal digits.
pub(crate) fn octets_shown(alloc: Global, json: &Json) -> Result<Option<Value>, AllocError>
    ensures { IfOk result (λ v. option_map datum_of v ≡ octets_in (view json.now)) }
{
    let Some(text) = json.as_str() else {
        return Ok(None);
    };
    match hex::decode(alloc, text) {
        Ok(octets) => Ok(Some(Value::Octets(octets))),
        Err(FromHexError::OutOfMemory) => Err(AllocError),
        Err(_) => Ok(None),
    }
}

/// The value of an IA5String, NumericString or VisibleString.
pub(crate) fn characters_shown(alloc: Global, json: &Json) -> Result<Option<Value>, AllocError>
    ensures { IfOk result (λ v. option_map datum_of v ≡ characters_in (view json.now)) }
{
    match json.as_str() {
        Some(text) => Ok(Some(Value::Text(text.as_bytes().to_vec(alloc)?))),
        None => Ok(None),
    }
}

/// The value of a UTF8String.
pub(crate) fn unicode_shown(alloc: Global, json: &Json) -> Result<Option<Value>, AllocError>
    ensures { IfOk result (λ v. option_map datum_of v ≡ unicode_in (view json.now)) }
{
    match json.as_str() {
        Some(text) => Ok(Some(Value::Utf8(String::from_str(alloc, text)?))),
        None => Ok(None),
    }
}
