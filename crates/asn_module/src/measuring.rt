//! How large a type is, with the items and the octets of the names that it holds.

ghost use Rattle.std.specs.Prelude.{◌≡◌, ◌+◌, ◌≤◌};
ghost use Rattle.asn_values.specs.View.{shape_of, fields_seen, alternatives_seen, labels_seen};
ghost use Rattle.asn_module.specs.Sizes.{labels_size, type_size, fields_size, alternatives_size, capped_size};

use asn_values::{Alt, AsnType, Field, Item};

/// As far as sizes are counted: 2^32.
const LARGEST: u64 = 4294967296;

/// Two sizes together, as far as they are counted.
fn together(first: u64, second: u64) -> u64
    requires { first ≤ 4294967296 }
    ensures { result ≡ capped_size (first + second) }
{
    if second > LARGEST - first {
        LARGEST
    } else {
        first + second
    }
}

/// The size of items.
fn size_of_items(items: &[Item]) -> u64
    ensures { result ≡ capped_size (labels_size (labels_seen items.now)) }
{
    let mut total = 0;
    for item in items {
        total = together(together(total, 1), item.name.len() as u64);
    }
    total
}

/// The size of components.
#[cycle(measuring)]
fn size_of_fields(fields: &[Field]) -> u64
    ensures { result ≡ capped_size (fields_size (fields_seen fields.now)) }
{
    let mut total = 0;
    for field in fields {
        total = together(together(total, field.name.len() as u64), size_of(&field.ty));
    }
    total
}

/// The size of alternatives.
#[cycle(measuring)]
fn size_of_alternatives(alternatives: &[Alt]) -> u64
    ensures { result ≡ capped_size (alternatives_size (alternatives_seen alternatives.now)) }
{
    let mut total = 0;
    for alternative in alternatives {
        total = together(
            together(total, alternative.name.len() as u64),
            size_of(&alternative.ty),
        );
    }
    total
}

/// The size of a type: one for itself, and those of what is inside it; 2^32 where it is larger.
#[cycle(measuring)]
pub(crate) fn size_of(ty: &AsnType) -> u64
    ensures { result ≡ capped_size (type_size (shape_of ty.now)) }
{
    match ty {
        AsnType::Bool
        | AsnType::Null
        | AsnType::Int(_)
        | AsnType::Bits(_)
        | AsnType::Octets(_)
        | AsnType::Text(..)
        | AsnType::Utf8 => 1,
        AsnType::Enum { root, ext } => {
            let total = together(1, size_of_items(root));
            match ext {
                None => total,
                Some(more) => together(total, size_of_items(more)),
            }
        }
        AsnType::SeqOf(element, _) => together(1, size_of(element)),
        AsnType::Seq { root, ext } => {
            let total = together(1, size_of_fields(root));
            match ext {
                None => total,
                Some(more) => together(total, size_of_fields(more)),
            }
        }
        AsnType::Choice { root, ext } => {
            let total = together(1, size_of_alternatives(root));
            match ext {
                None => total,
                Some(more) => together(total, size_of_alternatives(more)),
            }
        }
    }
}
