//! The check of messages.
ghost use Rattle.asn_values.specs.View.{shape_of};
ghost use Rattle.asn_walk_check.specs.Checked.{Checks, ChecksFront};

use crate::reader::read_complete;
use asn_bits::BitCursor;
use asn_rules::internal::Stop;
use asn_rules::laws::are_octets;
use asn_rules::{DecodeFault, MAX_OCTETS};
use asn_values::Checked;
use asn_walk::ReadLeaves;
use std::alloc::Global;

/// Whether the octets are the complete encoding of some value of the type. Only the first 268,435,455 octets are read,
/// and no value is built.
///
/// # Errors
/// `Refused` where no canonical encoding of a value of the type begins so: `at` is the first unit, counted from 1,
/// after which none can follow, and `why` is what was being read there. `Truncated` where an encoding may still
/// follow: `taken` is the number of units of all the octets. `Rest` where the first `used` octets are an encoding, and
/// more follow it. `TooLong` where the octets that are read are 268,435,455 and only a longer encoding may begin so.
/// `Memory` where an allocation failed.
pub fn check_message<R: ReadLeaves>(
    alloc: Global,
    ty: &Checked,
    octets: &[u8],
) -> Result<(), DecodeFault>
    ensures { Checks R.rules.ruling result (shape_of ty.now) octets.now }
{
    match check_front::<R>(alloc, ty, octets) {
        Ok(used) => {
            if used < octets.len() {
                return Err(DecodeFault::Rest { used });
            }
            Ok(())
        }
        Err(fault) => Err(fault),
    }
}

/// Whether the octets begin with the encoding of some value of the type, as `check_message`, and how many octets the
/// encoding has. Those that follow it are not looked at.
///
/// # Errors
/// As `check_message`, except `Rest`.
#[inline(always)]
pub fn check_front<R: ReadLeaves>(
    alloc: Global,
    ty: &Checked,
    octets: &[u8],
) -> Result<usize, DecodeFault>
    ensures { ChecksFront R.rules.ruling result (shape_of ty.now) octets.now }
{
    R::keep_laws();
    let given = octets.len().min(MAX_OCTETS);
    let message = &octets[..given];
    are_octets(message);
    let mut units = BitCursor::over(message);
    let all = R::units_left(&units);
    match read_complete::<R>(alloc, ty.get(), &mut units) {
        Ok(()) => {
            let used = given - R::octets_left(&units);
            Ok(used)
        }
        Err(Stop::Refused { left, why }) => {
            let at = (all - left) as u64;
            Err(DecodeFault::Refused { at, why })
        }
        Err(Stop::Short) => {
            if given == MAX_OCTETS {
                return Err(DecodeFault::TooLong);
            }
            let taken = all as u64;
            Err(DecodeFault::Truncated { taken })
        }
        Err(Stop::Memory) => Err(DecodeFault::Memory),
    }
}
