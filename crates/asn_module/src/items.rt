//! The items of an ENUMERATED and their numbers (X.680, "enumerated type").

ghost use Rattle.std.specs.Prelude.{◌≡◌, ◌+◌, Some, map, IfOk};
ghost use Rattle.std.specs.List.{list_any};
ghost use Rattle.asn_values.specs.View.{label_of, datum_of, shape_of};
ghost use Rattle.asn_notation.specs.Tree.{item_view, items_view};
ghost use Rattle.asn_module.specs.Meaning as spec;

use asn_notation::ItemNotation;
use asn_values::{AsnType, Item, Value};
use asn_view::item_index;
use std::alloc::{AllocError, Global};

/// Whether one of the items carries a number.
pub(crate) fn has_number(items: &[ItemNotation]) -> bool
    ensures { result ≡ list_any spec.has_number (items_view items.now) }
{
    for item in items {
        if item.number.is_some() {
            return true;
        }
    }
    false
}

/// A number of the profile, and 2^31 for each that is none.
fn profile_number(number: i128) -> i64
    ensures { result ≡ spec.written_number (Some number) }
{
    if number < -2_147_483_648 || number > 2_147_483_647 {
        2_147_483_648
    } else {
        number as i64
    }
}

/// The number of the item `index` of those from `start` on.
fn item_number(numbered: bool, start: usize, index: usize, written: Option<i128>) -> i64
    ensures { result ≡ spec.item_number numbered (start + index) written }
{
    if !numbered {
        return profile_number(start as i128 + index as i128);
    }
    match written {
        Some(number) => profile_number(number),
        None => 2_147_483_648,
    }
}

/// Items, the first of them with the index `start`.
pub(crate) fn items_from(
    alloc: Global,
    numbered: bool,
    start: usize,
    items: &[ItemNotation],
) -> Result<Vec<Item>, AllocError>
    ensures { IfOk result (λ v. map label_of v.items ≡ spec.labels_from numbered start (items_view items.now)) }
{
    let mut all = Vec::new(alloc);
    for (index, item) in items.iter().enumerate() {
        let name = String::from_str(alloc, item.name)?;
        let number = item_number(numbered, start, index, item.number);
        all.push(Item { name, number })?;
    }
    Ok(all)
}

/// The item of this name; NULL, a value of no ENUMERATED, where there is none.
fn item_named(items: &[Item], name: &str) -> Value
    ensures { datum_of result ≡ spec.item_named name.now 0 (map label_of items.now) }
{
    match item_index(items, &None, name) {
        Some(index) => match u32::try_from(index) {
            Ok(index) => Value::Enum(index),
            Err(_) => Value::Null,
        },
        None => Value::Null,
    }
}

/// The value that an identifier names in a type; NULL, a value of no ENUMERATED, where it names none.
pub(crate) fn named_value(ty: &AsnType, name: &str) -> Value
    ensures { datum_of result ≡ spec.named_value (shape_of ty.now) name.now }
{
    match ty {
        AsnType::Enum { root, .. } => item_named(root, name),
        AsnType::Bool
        | AsnType::Null
        | AsnType::Int(_)
        | AsnType::Bits(_)
        | AsnType::Octets(_)
        | AsnType::Text(..)
        | AsnType::Utf8
        | AsnType::Seq { .. }
        | AsnType::SeqOf(..)
        | AsnType::Choice { .. } => Value::Null,
    }
}
