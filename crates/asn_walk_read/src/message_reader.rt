//! The reader of messages.
ghost use Rattle.asn_values.specs.View.{shape_of};
ghost use Rattle.asn_rules.specs.AtOnce.{FedAtOnce};

use crate::reader::read_complete;
use asn_bits::BitCursor;
use asn_rules::internal::Stop;
use asn_rules::laws::are_octets;
use asn_rules::{FeedFault, MAX_OCTETS, Step};
use asn_values::Checked;
use asn_walk::ReadLeaves;
use std::alloc::Global;

/// Reads the value of the type whose complete encoding the octets begin with. Only the first 268,435,455 octets are
/// read.
///
/// `Done` with the value, and `used`, of how many octets its encoding is; `More` where no front of the octets is an
/// encoding and one may still follow.
///
/// # Errors
/// `Refused` where no canonical encoding of a value of the type begins so: `at` is the first unit, counted from 1,
/// after which none can follow, and `why` is what was being read there. `TooLong` where the octets that are read are
/// 268,435,455 and only a longer encoding may begin so. `Memory` where an allocation failed.
pub fn read_message<R: ReadLeaves>(
    alloc: Global,
    ty: &Checked,
    octets: &[u8],
) -> Result<Step, FeedFault>
    ensures { FedAtOnce R.rules.ruling (shape_of ty.now) octets.now result }
{
    R::keep_laws();
    let given = octets.len().min(MAX_OCTETS);
    let message = &octets[..given];
    are_octets(message);
    let mut units = BitCursor::over(message);
    let all = R::units_left(&units);
    match read_complete::<R>(alloc, ty.get(), &mut units) {
        Ok(value) => {
            let used = given - R::octets_left(&units);
            Ok(Step::Done { value, used })
        }
        Err(Stop::Refused { left, why }) => Err(FeedFault::Refused {
            at: (all - left) as u64,
            why,
        }),
        Err(Stop::Short) => {
            if given == MAX_OCTETS {
                return Err(FeedFault::TooLong);
            }
            Ok(Step::More)
        }
        Err(Stop::Memory) => Err(FeedFault::Memory),
    }
}
