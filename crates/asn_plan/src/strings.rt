//! Strings of one length that are put over those of a value before.
ghost use Rattle.std.specs.Prelude.{◌≡◌, Bool, List, length, map, IsSome, true};
ghost use Rattle.asn_bits.specs.Numbers.{bits, octets};
ghost use Rattle.asn_bits.specs.Sink.{bit_of};
ghost use Rattle.asn_values.specs.Datum.{bit_list, octet_list};
ghost use Rattle.asn_values.specs.View.{datum_of};
ghost use Rattle.asn_plan.specs.FixedStrings.{IsStringOf};
ghost use Rattle.asn_plan.specs.Placed.{IsPut};

use crate::fixed::FixedString;
use crate::place::Place;
use asn_bits::internal::low_octet;
use asn_values::Value;

impl Place {
    /// Puts a BIT STRING of the last `count` bits of a number here.
    #[inline(never)]
    pub(crate) fn put_low_bits(&mut self, count: u32, number: u64) -> Option<()>
        ensures { IsSome result → (bs : List Bool) → map bit_of bs ≡ bits count number
            → IsPut self.old self.new (bit_list bs) }
    {
        if self.at < self.items.len() {
            if let Some(place) = &mut self.items[self.at]
                && set_low_bits(count, number, place)
            {
                return Some(());
            }
        }
        self.put_new_bits(count, number)
    }

    /// Puts a BIT STRING of the last `count` bits of a number here, where none of this length is.
    fn put_new_bits(&mut self, count: u32, number: u64) -> Option<()>
        ensures { IsSome result → (bs : List Bool) → map bit_of bs ≡ bits count number
            → IsPut self.old self.new (bit_list bs) }
    {
        let mut made = Vec::new(*self.items.allocator());
        made.resize(count as usize, false).ok()?;
        fill_bits(&mut made, number)?;
        self.put_back(Value::Bits(made))
    }

    /// Puts an OCTET STRING of the last `count` octets of a number here.
    #[inline(never)]
    pub(crate) fn put_low_octets(&mut self, count: u32, number: u64) -> Option<()>
        ensures { IsSome result → IsPut self.old self.new (octet_list (octets count number)) }
    {
        if self.at < self.items.len() {
            if let Some(place) = &mut self.items[self.at]
                && set_low_octets(count, number, place)
            {
                return Some(());
            }
        }
        self.put_new_octets(count, number)
    }

    /// Puts an OCTET STRING of the last `count` octets of a number here, where none of this length is.
    fn put_new_octets(&mut self, count: u32, number: u64) -> Option<()>
        ensures { IsSome result → IsPut self.old self.new (octet_list (octets count number)) }
    {
        let mut made = Vec::new(*self.items.allocator());
        made.resize(count as usize, 0).ok()?;
        fill_octets(&mut made, number)?;
        self.put_back(Value::Octets(made))
    }
}

impl FixedString {
    /// Whether the value may be the string whose bits are those of the number: `false` only of another value.
    #[inline(never)]
    pub fn may_be(&self, number: u64, value: &Value) -> bool
        ensures { IsStringOf self.now number (datum_of value.now) → result ≡ true }
    {
        match value {
            Value::Bits(bits) => {
                bits.len() == self.length as usize && are_low_bits(bits, number)
            }
            Value::Octets(octets) => {
                octets.len() == self.length as usize && are_low_octets(octets, number)
            }
            _ => false,
        }
    }
}

/// Whether these may be the last bits of a number: `false` only of others.
fn are_low_bits(those: &[bool], number: u64) -> bool
    ensures { map bit_of those.now ≡ bits (length those.now) number → result ≡ true }
{
    if those.len() > 64 {
        return true;
    }
    let mut room = [false; 64];
    let low = &mut room[..those.len()];
    if fill_bits(low, number).is_none() {
        return true;
    }
    *low == *those
}

/// Whether these may be the last octets of a number: `false` only of others.
fn are_low_octets(those: &[u8], number: u64) -> bool
    ensures { those.now ≡ octets (length those.now) number → result ≡ true }
{
    if those.len() > 8 {
        return true;
    }
    let mut room = [0; 8];
    let low = &mut room[..those.len()];
    if fill_octets(low, number).is_none() {
        return true;
    }
    *low == *those
}

/// Whether the value is a BIT STRING of this many bits, which then become the last ones of a number.
#[inline(always)]
fn set_low_bits(count: u32, number: u64, place: &mut Value) -> bool
    ensures { result ≡ true → (bs : List Bool) → map bit_of bs ≡ bits count number → datum_of place.new ≡ bit_list bs }
{
    if let Value::Bits(there) = place
        && there.len() == count as usize
    {
        return fill_bits(there, number).is_some();
    }
    false
}

/// Whether the value is an OCTET STRING of this many octets, which then become the last ones of a number.
#[inline(always)]
fn set_low_octets(count: u32, number: u64, place: &mut Value) -> bool
    ensures { result ≡ true → datum_of place.new ≡ octet_list (octets count number) }
{
    if let Value::Octets(there) = place
        && there.len() == count as usize
    {
        return fill_octets(there, number).is_some();
    }
    false
}

/// Each bit becomes that of a number at its place from the last one, if there are no more than 64.
#[inline(always)]
fn fill_bits(into: &mut [bool], number: u64) -> Option<()>
    ensures { IsSome result → (bs : List Bool) → map bit_of bs ≡ bits (length into.old) number → into.new ≡ bs }
{
    let count = into.len();
    if count > 64 {
        return None;
    }
    for i in 0..count {
        into[i] = number >> (count - 1 - i) & 1 == 1;
    }
    Some(())
}

/// Each octet becomes that of a number at its place from the last one, if there are no more than 8.
#[inline(always)]
fn fill_octets(into: &mut [u8], number: u64) -> Option<()>
    ensures { IsSome result → into.new ≡ octets (length into.old) number }
{
    let count = into.len();
    if count > 8 {
        return None;
    }
    for i in 0..count {
        into[i] = low_octet(number >> (8 * (count - 1 - i)));
    }
    Some(())
}
