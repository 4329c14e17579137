//! The decoder of whole messages into a value that is there.
ghost use Rattle.std.specs.Prelude.{OnOk, IfErr, Ok, Err};
ghost use Rattle.asn_values.specs.View.{shape_of};
ghost use Rattle.asn_rules.specs.Codec.{Decoded, DecodedFront};

use crate::reader::read_complete_into;
use asn_bits::BitCursor;
use asn_rules::internal::Stop;
use asn_rules::laws::are_octets;
use asn_rules::{DecodeFault, MAX_OCTETS};
use asn_values::{Checked, Value};
use asn_walk::ReadLeaves;
use std::alloc::Global;

/// Decodes the value of the type whose complete encoding the octets are into the one that is there, whose memory is
/// used again as far as it serves. Any value may be given, at first `Value::Null`. Only the first 268,435,455 octets
/// are read.
///
/// # Errors
/// `Refused` where no canonical encoding of a value of the type begins so: `at` is the first unit, counted from 1,
/// after which none can follow, and `why` is what was being read there. `Truncated` where an encoding may still
/// follow: `taken` is the number of units of all the octets. `Rest` where the first `used` octets are an encoding, and
/// more follow it. `TooLong` where the octets that are read are 268,435,455 and only a longer encoding may begin so.
/// `Memory` where an allocation failed. What is left of the value then is some value.
pub fn decode_into<R: ReadLeaves>(
    alloc: Global,
    ty: &Checked,
    octets: &[u8],
    value: &mut Value,
) -> Result<(), DecodeFault>
    ensures done { OnOk result (Decoded R.rules.ruling (Ok value.new) (shape_of ty.now) octets.now) }
    ensures fault { IfErr result (λ why. Decoded R.rules.ruling (Err why) (shape_of ty.now) octets.now) }
{
    match decode_front_into::<R>(alloc, ty, octets, value) {
        Ok(used) => {
            if used < octets.len() {
                return Err(DecodeFault::Rest { used });
            }
            Ok(())
        }
        Err(fault) => Err(fault),
    }
}

/// Decodes the value of the type whose encoding the octets begin with, as `decode_into`, and gives how many octets the
/// encoding has. Those that follow it are not looked at.
///
/// # Errors
/// As `decode_into`, except `Rest`.
#[inline(always)]
pub fn decode_front_into<R: ReadLeaves>(
    alloc: Global,
    ty: &Checked,
    octets: &[u8],
    value: &mut Value,
) -> Result<usize, DecodeFault>
    ensures { DecodedFront R.rules.ruling result value.new (shape_of ty.now) octets.now }
{
    R::keep_laws();
    let given = octets.len().min(MAX_OCTETS);
    let message = &octets[..given];
    are_octets(message);
    let mut units = BitCursor::over(message);
    let all = R::units_left(&units);
    match read_complete_into::<R>(alloc, ty.get(), &mut units, value) {
        Ok(()) => {
            let used = given - R::octets_left(&units);
            Ok(used)
        }
        Err(Stop::Refused { left, why }) => {
            let at = (all - left) as u64;
            Err(DecodeFault::Refused { at, why })
        }
        Err(Stop::Short) => {
            if given == MAX_OCTETS {
                return Err(DecodeFault::TooLong);
            }
            let taken = all as u64;
            Err(DecodeFault::Truncated { taken })
        }
        Err(Stop::Memory) => Err(DecodeFault::Memory),
    }
}
