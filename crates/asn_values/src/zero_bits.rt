//! Types whose PER encoding is empty.
ghost use Rattle.std.specs.Prelude.{◌≡◌};
ghost use Rattle.asn_values.specs.Walk.{no_bits_within, no_field_bits_within, single_no_bits_within};
ghost use Rattle.asn_values.specs.View.{shape_of, fields_seen, alternatives_seen};

use crate::types::{Alt, AsnType, Field, Need};
use crate::{ranges, sizes};

/// Whether no value of the type has a bit in PER, as with NULL and types with one value only. At most `levels` levels
/// of the types inside it are looked at, and a type below them counts as one with bits.
#[cycle(no_bits)]
pub(crate) fn has_no_bits(ty: &AsnType, levels: u32) -> bool
    ensures { result ≡ no_bits_within levels (shape_of ty.now) }
{
    match ty {
        AsnType::Null => true,
        AsnType::Bool | AsnType::Utf8 => false,
        AsnType::Int(bounds) => ranges::is_one_number(bounds),
        AsnType::Enum { root, ext } => root.len() == 1 && ext.is_none(),
        AsnType::Bits(size) | AsnType::Octets(size) | AsnType::Text(_, size) => {
            sizes::is_zero(size)
        }
        AsnType::Seq { root, ext } => ext.is_none() && have_no_bits(root, levels),
        AsnType::SeqOf(element, size) => {
            sizes::is_zero(size)
                || sizes::is_fixed(size) && levels > 0 && has_no_bits(element, levels - 1)
        }
        AsnType::Choice { root, ext } => ext.is_none() && is_single_without_bits(root, levels),
    }
}

/// Whether all components are mandatory, and none has a bit.
#[cycle(no_bits)]
fn have_no_bits(fields: &[Field], levels: u32) -> bool
    ensures { result ≡ no_field_bits_within levels (fields_seen fields.now) }
{
    for field in fields {
        if !matches!(field.need, Need::Must) || levels == 0 || !has_no_bits(&field.ty, levels - 1) {
            return false;
        }
    }
    true
}

/// Whether there is one alternative only, and it has no bit.
#[cycle(no_bits)]
fn is_single_without_bits(root: &[Alt], levels: u32) -> bool
    ensures { result ≡ single_no_bits_within levels (alternatives_seen root.now) }
{
    match root {
        [only] => levels > 0 && has_no_bits(&only.ty, levels - 1),
        _ => false,
    }
}
