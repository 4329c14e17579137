//! The DEFAULTs of components: a value of a type that has others, and no constructed one.
ghost use Rattle.std.specs.Prelude.{◌≡◌};
ghost use Rattle.asn_values.specs.Profile.{good_default, bad_default_at};
ghost use Rattle.asn_values.specs.View.{shape_of, datum_of, fields_seen};

use crate::types::{AsnType, Field, Need};
use crate::value::Value;
use crate::{enumerations, ranges};

/// Whether one of the components has a DEFAULT that it may not have.
pub(crate) fn are_bad(fields: &[Field]) -> bool
    ensures { result ≡ bad_default_at (fields_seen fields.now) }
{
    for field in fields {
        if let Need::Default(value) = &field.need {
            if !is_good(&field.ty, value) {
                return true;
            }
        }
    }
    false
}

/// Whether the value may be the DEFAULT of a component of this type.
fn is_good(ty: &AsnType, value: &Value) -> bool
    ensures { result ≡ good_default (shape_of ty.now) (datum_of value.now) }
{
    match ty {
        AsnType::Bool => matches!(value, Value::Bool(_)),
        AsnType::Int(bounds) => {
            matches!(value, Value::Int(number) if ranges::is_good_number(bounds, *number))
        }
        AsnType::Enum { root, ext } => {
            matches!(value, Value::Enum(index) if enumerations::is_good_item(root, ext, *index))
        }
        AsnType::Null
        | AsnType::Bits(_)
        | AsnType::Octets(_)
        | AsnType::Text(..)
        | AsnType::Utf8
        | AsnType::Seq { .. }
        | AsnType::SeqOf(..)
        | AsnType::Choice { .. } => false,
    }
}
