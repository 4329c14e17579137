//! Which components of a SEQUENCE are encoded.
ghost use Rattle.std.specs.Prelude.{◌≡◌, ◌≤◌, ◌<◌, ◌^◌, length};
ghost use Rattle.std.specs.Option.{option_map};
ghost use Rattle.asn_values.specs.Parts.{AreOfProfile, IsGoodDemand};
ghost use Rattle.asn_values.specs.Shape.{demands};
ghost use Rattle.asn_values.specs.View.{datum_of, part_of_field, fields_seen};
ghost use Rattle.asn_bits.specs.Numbers.{bits};
ghost use Rattle.asn_rules.specs.Components.{is_default, is_spelled, presence};

use asn_source::Source;
use asn_values::{Field, Need, Value};
use asn_walk::has_presence_bit;

/// How many presence bits the components have, and the bitmap as a number, its first bit the highest.
pub(crate) fn presence_bitmap<V: Source>(fields: &[Field], entries: V::Entries) -> (u32, u64)
    requires of_profile { AreOfProfile (fields_seen fields.now) }
    requires each { length fields.now ≡ length (V.entries_left entries) }
    requires few { length fields.now ≤ 64 }
    ensures count { result.0 ≤ 64 }
    ensures within { result.1 < 2 ^ result.0 }
    ensures bitmap { bits result.0 result.1
        ≡ presence (demands (fields_seen fields.now)) (V.entries_left entries) }
{
    let mut count = 0;
    let mut bitmap = 0;
    for (field, entry) in fields.iter().zip(V::each(entries)) {
        if has_presence_bit(field) {
            count += 1;
            bitmap = 2 * bitmap + u64::from(is_encoded(field, entry));
        }
    }
    (count, bitmap)
}

/// Whether a component is encoded: it has a value, and not its DEFAULT.
pub(crate) fn is_encoded<V: Source>(field: &Field, entry: Option<V>) -> bool
    requires { IsGoodDemand (part_of_field field.now).demand (part_of_field field.now).shape }
    ensures { result ≡ is_spelled (part_of_field field.now).demand (option_map V.datum entry) }
{
    let Some(value) = entry else {
        return matches!(field.need, Need::Must);
    };
    let Need::Default(default) = &field.need else {
        return true;
    };
    match value.leaf() {
        Some(leaf) => !is_default(default, leaf),
        None => true,
    }
}

/// Whether a value is this DEFAULT: a BOOLEAN, an INTEGER or an ENUMERATED.
#[inline(always)]
fn is_default(default: &Value, value: &Value) -> bool
    ensures { result ≡ is_default (datum_of default.now) (datum_of value.now) }
{
    match (default, value) {
        (Value::Bool(truth), Value::Bool(other)) => *truth == *other,
        (Value::Int(number), Value::Int(other)) => *number == *other,
        (Value::Enum(index), Value::Enum(other)) => *index == *other,
        _ => false,
    }
}
