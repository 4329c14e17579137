//! Presence bits of the components of a SEQUENCE, as a number, and the entry of one that is absent.
ghost use Rattle.std.specs.Prelude.{◌≡◌, ◌≤◌, ◌<◌, true, false, length};
ghost use Rattle.std.specs.Option.{option_map};
ghost use Rattle.asn_values.specs.Parts.{IsGoodDemand};
ghost use Rattle.asn_values.specs.View.{datum_of, part_of_field, fields_seen};
ghost use Rattle.asn_rules.specs.Components.{has_presence_bit};
ghost use Rattle.asn_rules.specs.Listed.{bitmap_length, default_of};
ghost use Rattle.asn_walk.specs.Views.{TakesBit};

use asn_values::{Field, Need, Value};

/// Presence bits that are still to be looked at: the lowest `left` bits of a bitmap, the highest of them first.
#[derive(Clone, Copy)]
pub struct PresenceBits {
    pub bitmap: u64,
    pub left: u32,
}

impl PresenceBits {
    /// Takes the next presence bit.
    pub fn next(&mut self) -> bool
        requires some { 0 < self.old.left }
        requires few { self.old.left ≤ 64 }
        ensures bitmap { self.new.bitmap ≡ self.old.bitmap }
        ensures bit { TakesBit self.old self.new result }
    {
        self.left -= 1;
        (self.bitmap >> self.left) & 1 == 1
    }

    /// Whether this component of the root is present: its presence bit, which is taken, where it has one.
    pub fn next_of(&mut self, field: &Field) -> bool
        requires few { self.old.left ≤ 64 }
        requires some { has_presence_bit (part_of_field field.now).demand ≡ true → 0 < self.old.left }
        ensures bitmap { self.new.bitmap ≡ self.old.bitmap }
        ensures must { has_presence_bit (part_of_field field.now).demand ≡ false
            → (result ≡ true) × (self.new.left ≡ self.old.left) }
        ensures bit { has_presence_bit (part_of_field field.now).demand ≡ true → TakesBit self.old self.new result }
    {
        if has_presence_bit(field) {
            self.next()
        } else {
            true
        }
    }
}

/// Whether the component has a presence bit: it is OPTIONAL or has a DEFAULT.
pub fn has_presence_bit(field: &Field) -> bool
    ensures { result ≡ has_presence_bit (part_of_field field.now).demand }
{
    !matches!(field.need, Need::Must)
}

/// How many presence bits the components of a root have.
pub fn bitmap_width(fields: &[Field]) -> u32
    requires { length fields.now ≤ 64 }
    ensures count { result ≡ bitmap_length (fields_seen fields.now) }
    ensures few { result ≤ 64 }
{
    let mut count = 0;
    for field in fields {
        if has_presence_bit(field) {
            count += 1;
        }
    }
    count
}

/// The entry of a component that is absent: its DEFAULT, where it has one.
pub fn absent(field: &Field) -> Option<Value>
    requires { IsGoodDemand (part_of_field field.now).demand (part_of_field field.now).shape }
    ensures { option_map datum_of result ≡ default_of (part_of_field field.now).demand }
{
    match &field.need {
        Need::Must | Need::Optional => None,
        Need::Default(Value::Bool(truth)) => Some(Value::Bool(*truth)),
        Need::Default(Value::Int(number)) => Some(Value::Int(*number)),
        Need::Default(Value::Enum(index)) => Some(Value::Enum(*index)),
        Need::Default(
            Value::Null
            | Value::Bits(_)
            | Value::Octets(_)
            | Value::Text(_)
            | Value::Utf8(_)
            | Value::Seq(_)
            | Value::List(_)
            | Value::Choice(..)
            | Value::UnknownItem(_)
            | Value::UnknownAlternative(_),
        ) => unreachable!(),
    }
}
