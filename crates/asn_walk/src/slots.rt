//! Values that are overwritten, whose memory is used again.
ghost use Rattle.std.specs.Prelude.{◌≡◌};
ghost use Rattle.asn_values.specs.Datum.{truth, number, item, nothing};
ghost use Rattle.asn_values.specs.View.{datum_of};

use asn_values::Value;
use std::alloc::Global;
use std::mem;

/// The value becomes this BOOLEAN.
#[inline(always)]
pub fn set_boolean(new: bool, slot: &mut Value)
    ensures { datum_of slot.new ≡ truth new }
{
    if let Value::Bool(old) = slot {
        *old = new;
    } else {
        *slot = Value::Bool(new);
    }
}

/// The value becomes this INTEGER.
#[inline(always)]
pub fn set_integer(new: i128, slot: &mut Value)
    ensures { datum_of slot.new ≡ number new }
{
    if let Value::Int(old) = slot {
        *old = new;
    } else {
        *slot = Value::Int(new);
    }
}

/// The value becomes the item at this position.
#[inline(always)]
pub fn set_item(position: u32, slot: &mut Value)
    ensures { datum_of slot.new ≡ item position }
{
    if let Value::Enum(old) = slot {
        *old = position;
    } else {
        *slot = Value::Enum(position);
    }
}

/// Takes the bits out of a BIT STRING for their memory, and out of any other value none. The value is then NULL.
#[inline(always)]
pub fn take_bits(alloc: Global, slot: &mut Value) -> Vec<bool>
    ensures { datum_of slot.new ≡ nothing }
{
    match mem::replace(slot, Value::Null) {
        Value::Bits(bits) => bits,
        _ => Vec::new(alloc),
    }
}

/// Takes the octets out of an OCTET STRING for their memory, and out of any other value none. The value is then NULL.
#[inline(always)]
pub fn take_octets(alloc: Global, slot: &mut Value) -> Vec<u8>
    ensures { datum_of slot.new ≡ nothing }
{
    match mem::replace(slot, Value::Null) {
        Value::Octets(octets) => octets,
        _ => Vec::new(alloc),
    }
}

/// Takes the characters out of a string for their memory, and out of any other value none. The value is then NULL.
#[inline(always)]
pub fn take_characters(alloc: Global, slot: &mut Value) -> Vec<u8>
    ensures { datum_of slot.new ≡ nothing }
{
    match mem::replace(slot, Value::Null) {
        Value::Text(characters) => characters,
        _ => Vec::new(alloc),
    }
}
