//! Bits of octets and of numbers, added to a vector of truth values or written over others.
ghost use Rattle.std.specs.Prelude.{◌≡◌, ◌≤◌, ◌<◌, ◌/◌, ◌%◌, ◌^◌, ◌++◌, length, map, OnOk};
ghost use Rattle.asn_bits.specs.Numbers.{bits, unpacked};
ghost use Rattle.asn_bits.specs.Sink.{bit_of};

use std::alloc::AllocError;

/// Adds the bits of octets.
///
/// # Errors
/// `AllocError` if an allocation failed.
pub fn push_octets(octets: &[u8], into: &mut Vec<bool>) -> Result<(), AllocError>
    ensures { OnOk result (map bit_of into.new.items ≡ map bit_of into.old.items ++ unpacked octets.now) }
{
    for octet in octets {
        push_bits(8, u64::from(*octet), into)?;
    }
    Ok(())
}

/// Adds the low `count` bits of a number.
///
/// # Errors
/// `AllocError` if an allocation failed.
pub fn push_bits(count: u32, number: u64, into: &mut Vec<bool>) -> Result<(), AllocError>
    requires { count ≤ 8 }
    ensures { OnOk result (map bit_of into.new.items ≡ map bit_of into.old.items ++ bits count number) }
{
    for i in 0..count {
        into.push(bit_at(number, count - 1 - i))?;
    }
    Ok(())
}

/// The truth values become the low bits of the number, as many as there are, the highest first.
pub fn overwrite_bits(number: u64, truths: &mut [bool])
    requires { length truths.old ≤ 64 }
    ensures { map bit_of truths.new ≡ bits (length truths.old) number }
{
    let count = truths.len();
    for i in 0..count {
        truths[i] = bit_at(number, (count - 1 - i) as u32);
    }
}

/// The bit of the number above `below` lower ones.
pub fn bit_at(number: u64, below: u32) -> bool
    requires { below < 64 }
    ensures { bit_of result ≡ number / 2 ^ below % 2 }
{
    number >> below & 1 == 1
}
