//! The JSON of values without parts.
ghost use Rattle.std.specs.Prelude.{◌≡◌, ◌∷◌, IfOk, option_map, string_bytes};
ghost use Rattle.std.specs.Fmt.{signed_decimal};
ghost use Rattle.serde_json.specs.Data.{null, put, string};
ghost use Rattle.serde_json.specs.View.{view, members_view};
ghost use Rattle.asn_values.specs.Datum.{number, item, bit_list, octet_list, characters};
ghost use Rattle.asn_values.specs.Received.{FitsReceived};
ghost use Rattle.asn_values.specs.View.{shape_of, datum_of};
ghost use Rattle.asn_json.specs.Parts.{names_of_items};
ghost use Rattle.asn_json.specs.Written.{Told, IsSimple, IsUnknownAlternative, json_of, json_number, json_item, json_bits, json_octets, json_characters, json_unknown};

use asn_values::internal::{
    is_between, item_fits, length_fits, number_fits, octets_fit, part_at, text_fits, unicode_fits,
};
use asn_values::profile::{HIGHEST_INTEGER, LOWEST_INTEGER};
use asn_values::{AsnType, Bounds, Item, Value};
use serde_json::{Map, Value as Json};
use std::alloc::{AllocError, Global};

/// The JSON of a value of a type without parts; nothing where it is none of the type.
#[inline(always)]
pub(crate) fn leaf_json(
    alloc: Global,
    ty: &AsnType,
    value: &Value,
) -> Result<Option<Json>, AllocError>
    requires { IsSimple (shape_of ty.now) }
    ensures { IfOk result (λ o. Told (FitsReceived (shape_of ty.now) (datum_of value.now))
        (json_of (shape_of ty.now) (datum_of value.now)) (option_map view o)) }
{
    match (ty, value) {
        (AsnType::Bool, Value::Bool(truth)) => Ok(Some(Json::from(*truth))),
        (AsnType::Null, Value::Null) => Ok(Some(Json::Null)),
        (AsnType::Int(bounds), Value::Int(integer)) if number_fits(bounds, *integer) => {
            Ok(Some(number_json(*integer)))
        }
        (AsnType::Enum { root, ext }, Value::Enum(index)) if item_fits(root, ext, *index) => {
            Ok(Some(item_json(alloc, root, ext, *index)?))
        }
        (AsnType::Enum { ext: Some(_), .. }, Value::UnknownItem(number)) => {
            Ok(Some(unknown_item_json(alloc, *number)?))
        }
        (AsnType::Bits(size), Value::Bits(bits)) if length_fits(size, bits.len()) => {
            Ok(Some(bits_json(alloc, bits)?))
        }
        (AsnType::Octets(size), Value::Octets(octets)) if octets_fit(size, octets) => {
            Ok(Some(octets_json(alloc, octets)?))
        }
        (AsnType::Text(kind, size), Value::Text(codes)) if text_fits(*kind, size, codes) => {
            Ok(Some(characters_json(alloc, codes)?))
        }
        (AsnType::Utf8, Value::Utf8(text)) if unicode_fits(text) => {
            Ok(Some(Json::try_from_str(alloc, text.as_str())?))
        }
        _ => Ok(None),
    }
}

/// All integers of the profile.
pub(crate) const INTEGERS: Bounds = Bounds {
    low: Some(LOWEST_INTEGER),
    high: Some(HIGHEST_INTEGER),
    ext: false,
};

/// The JSON of an integer, or null where it is none of the profile.
pub(crate) fn number_json(integer: i128) -> Json
    ensures { view result ≡ json_number (number integer) }
{
    if !is_between(&INTEGERS, integer) {
        Json::Null
    } else if integer < 0 {
        Json::from(integer as i64)
    } else {
        Json::from(integer as u64)
    }
}

/// The JSON of the item at an index, or null where there is none.
pub(crate) fn item_json(
    alloc: Global,
    root: &[Item],
    ext: &Option<Vec<Item>>,
    index: u32,
) -> Result<Json, AllocError>
    ensures { IfOk result (λ j. view j ≡ json_item (names_of_items root.now ext.now) (item index)) }
{
    match part_at(root, ext, index as usize) {
        Some(item) => Json::try_from_str(alloc, item.name.as_str()),
        None => Ok(Json::Null),
    }
}

/// The JSON of an item that the type has not: `?` and its number in decimal.
pub(crate) fn unknown_item_json(alloc: Global, number: i128) -> Result<Json, AllocError>
    ensures { IfOk result (λ j. view j ≡ string (63 ∷ signed_decimal number)) }
{
    Ok(Json::from(format!(in alloc; "?{number}")?))
}

/// The JSON of bits: a character 0 or 1 for each.
pub(crate) fn bits_json(alloc: Global, bits: &[bool]) -> Result<Json, AllocError>
    ensures { IfOk result (λ j. view j ≡ json_bits (bit_list bits.now)) }
{
    let mut text = String::with_capacity(alloc, bits.len())?;
    for bit in bits {
        text.push(if *bit { '1' } else { '0' })?;
    }
    Ok(Json::from(text))
}

/// The JSON of octets: two hexadecimal digits for each.
pub(crate) fn octets_json(alloc: Global, octets: &[u8]) -> Result<Json, AllocError>
    ensures { IfOk result (λ j. view j ≡ json_octets (octet_list octets.now)) }
{
    Ok(Json::from(hex::encode(alloc, octets)?))
}

/// The JSON of characters, of which these are the codes.
pub(crate) fn characters_json(alloc: Global, codes: &[u8]) -> Result<Json, AllocError>
    ensures { IfOk result (λ j. view j ≡ json_characters (characters codes.now)) }
{
    let text: String = codes.iter().map(|code| char::from(*code)).collect(alloc)?;
    Ok(Json::from(text))
}

/// The JSON of an alternative that the type has not: an object whose one member is `?` with the tag in decimal, and
/// null. Nothing where the value is none such.
pub(crate) fn unknown_alternative_json(
    alloc: Global,
    value: &Value,
) -> Result<Option<Json>, AllocError>
    ensures { IfOk result (λ o. Told (IsUnknownAlternative (datum_of value.now)) (json_unknown (datum_of value.now))
        (option_map view o)) }
{
    let Value::UnknownAlternative(tag) = value else {
        return Ok(None);
    };
    let name = format!(in alloc; "?{tag}")?;
    Ok(Some(Json::from(put_member(Map::new(alloc), name, Json::Null)?)))
}

/// The object with this member.
pub(crate) fn put_member(
    object: Map<String, Json>,
    key: String,
    json: Json,
) -> Result<Map<String, Json>, AllocError>
    ensures { IfOk result (λ m.
        members_view m.entries ≡ put (string_bytes key) (view json) (members_view object.entries)) }
{
    let mut all = object;
    all.insert(key, json)?;
    Ok(all)
}
