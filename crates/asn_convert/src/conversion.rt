//! Octets of one set of encoding rules become those of another.
ghost use Rattle.std.specs.Prelude.{ℕ, List};
ghost use Rattle.asn_values.specs.View.{shape_of};
ghost use Rattle.asn_convert.specs.Converted.{Converts, Converted, GivesUnlessMemory};

use asn_rules::laws::are_octets;
use asn_rules::{DecodeFault, EncodeFault, Rules, decode};
use asn_values::Checked;
use std::alloc::Global;
use thiserror::Error;

/// Why octets are not converted.
#[derive(Clone, Copy, Debug, PartialEq, Eq, Error)]
pub enum ConvertFault {
    /// 1: they are no encoding, or an allocation failed while they were decoded.
    #[error("{0}")]
    Read(DecodeFault),
    /// 2: they are an encoding of a value that has none of at most 268,435,455 octets in the other rules.
    #[error("too long")]
    TooLong,
    /// 3: an allocation failed while the value was encoded.
    #[error("memory")]
    Memory,
}

/// The octets by the rules B of the value that these octets are by the rules A.
///
/// They are given exactly where both are encodings of one value, each of at most 268,435,455 octets, unless an
/// allocation failed. So what is given, converted back, gives these octets.
///
/// # Errors
/// `Read` where the octets are no encoding by A, with what `decode` answers to them; `TooLong` where they are and the
/// encoding of their value by B has more than 268,435,455 octets; `Memory` where an allocation failed.
pub fn convert<A: Rules, B: Rules>(
    alloc: Global,
    ty: &Checked,
    octets: &[u8],
) -> Result<Vec<u8>, ConvertFault>
    ensures converted { Converted A.ruling B.ruling result (shape_of ty.now) octets.now }
    ensures exact { (p : List ℕ) → Converts A.ruling B.ruling (shape_of ty.now) octets.now p
        → GivesUnlessMemory result p }
{
    A::keep_laws();
    B::keep_laws();
    let _of_profile = ty.get();
    recode::<A, B>(alloc, ty, octets)
}

/// Decodes the octets by A and encodes their value by B.
fn recode<A: Rules, B: Rules>(
    alloc: Global,
    ty: &Checked,
    octets: &[u8],
) -> Result<Vec<u8>, ConvertFault>
    ensures { Converted A.ruling B.ruling result (shape_of ty.now) octets.now }
{
    are_octets(octets);
    let value = match decode::<A>(alloc, ty, octets) {
        Ok(value) => value,
        Err(fault) => return Err(ConvertFault::Read(fault)),
    };
    match B::encode(alloc, ty, &value) {
        Ok(other) => {
            are_octets(other.as_slice());
            Ok(other)
        }
        Err(EncodeFault::TooLong) => Err(ConvertFault::TooLong),
        Err(EncodeFault::Memory) => Err(ConvertFault::Memory),
        Err(EncodeFault::NotOfType) => unreachable!(),
    }
}
