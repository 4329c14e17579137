//! Copies of the parts of a type that its plan keeps.
ghost use Rattle.std.specs.Prelude.{◌≡◌, IfOk, IfSome, true};
ghost use Rattle.asn_values.specs.View.{shape_of, datum_of, labels_seen};
ghost use Rattle.asn_plan.specs.SimpleTypes.{is_simple};

use asn_values::{AsnType, Item, Value};
use std::alloc::{AllocError, Global};

/// A copy of these items.
pub(crate) fn copy_items(alloc: Global, items: &[Item]) -> Result<Vec<Item>, AllocError>
    ensures { IfOk result (λ v. labels_seen v.items ≡ labels_seen items.now) }
{
    let mut copies = Vec::new(alloc);
    for item in items {
        let name = String::from_str(alloc, item.name.as_str())?;
        copies.push(Item {
            name,
            number: item.number,
        })?;
    }
    Ok(copies)
}

/// A copy of a type that is neither SEQUENCE, SEQUENCE OF nor CHOICE.
///
/// # Errors
/// `AllocError` where an allocation failed.
pub(crate) fn copy_simple(alloc: Global, ty: &AsnType) -> Result<AsnType, AllocError>
    requires simple { is_simple (shape_of ty.now) ≡ true }
    ensures { IfOk result (λ copy. shape_of copy ≡ shape_of ty.now) }
{
    match ty {
        AsnType::Bool => Ok(AsnType::Bool),
        AsnType::Null => Ok(AsnType::Null),
        AsnType::Int(bounds) => Ok(AsnType::Int(*bounds)),
        AsnType::Enum { root, ext } => {
            let root = copy_items(alloc, root)?;
            match ext {
                None => Ok(AsnType::Enum { root, ext: None }),
                Some(more) => {
                    let more = copy_items(alloc, more)?;
                    Ok(AsnType::Enum {
                        root,
                        ext: Some(more),
                    })
                }
            }
        }
        AsnType::Bits(size) => Ok(AsnType::Bits(*size)),
        AsnType::Octets(size) => Ok(AsnType::Octets(*size)),
        AsnType::Text(kind, size) => Ok(AsnType::Text(*kind, *size)),
        AsnType::Utf8 => Ok(AsnType::Utf8),
        AsnType::Seq { .. } | AsnType::SeqOf(..) | AsnType::Choice { .. } => unreachable!(),
    }
}

/// A copy of a BOOLEAN, a number or an item, which a DEFAULT is; of no other value.
#[inline(always)]
pub(crate) fn copy_default(value: &Value) -> Option<Value>
    ensures { IfSome result (λ copy. datum_of copy ≡ datum_of value.now) }
{
    match value {
        Value::Bool(truth) => Some(Value::Bool(*truth)),
        Value::Int(number) => Some(Value::Int(*number)),
        Value::Enum(index) => Some(Value::Enum(*index)),
        _ => None,
    }
}
