//! The value of a message that is given in hexadecimal.
ghost use Rattle.std.specs.Prelude.{◌≡◌, ℕ, List, Ok, IfOk, IfSome};
ghost use Rattle.asn_values.specs.View.{shape_of};
ghost use Rattle.hex.specs.Hex.{decode_of};
ghost use Rattle.asn_rules.specs.Codec.{Decoded};
ghost use Rattle.asn_look.specs.Named.{ruling_of};

use asn_jobs::RuleName;
use asn_oer::Oer;
use asn_per::Per;
use asn_rules::{DecodeFault, Rules, decode};
use asn_values::{Checked, Value};
use hex::FromHexError;
use std::alloc::{AllocError, Global};

/// The value of the type whose encoding, by the rules of this name, is in these hexadecimal digits; `None` where they
/// are no digits, or the octets are the encoding of none.
///
/// # Errors
/// `AllocError` where an allocation failed.
pub fn value_of_digits(
    alloc: Global,
    ty: &Checked,
    rules: RuleName,
    digits: &[u8],
) -> Result<Option<Value>, AllocError>
    ensures { IfOk result (λ o. IfSome o (λ v. (octets : List ℕ) × (decode_of digits.now ≡ Ok octets)
        × Decoded (ruling_of rules) (Ok v) (shape_of ty.now) octets)) }
{
    let octets = match hex::decode(alloc, digits) {
        Ok(octets) => octets,
        Err(FromHexError::OutOfMemory) => return Err(AllocError),
        Err(_) => return Ok(None),
    };
    match rules {
        RuleName::Per => value_by::<Per>(alloc, ty, octets.as_slice()),
        RuleName::Oer => value_by::<Oer>(alloc, ty, octets.as_slice()),
    }
}

/// The value whose encoding the octets are.
fn value_by<R: Rules>(
    alloc: Global,
    ty: &Checked,
    octets: &[u8],
) -> Result<Option<Value>, AllocError>
    ensures { IfOk result (λ o. IfSome o (λ v. Decoded R.ruling (Ok v) (shape_of ty.now) octets.now)) }
{
    match decode::<R>(alloc, ty, octets) {
        Ok(value) => Ok(Some(value)),
        Err(DecodeFault::Memory) => Err(AllocError),
        Err(_) => Ok(None),
    }
}
