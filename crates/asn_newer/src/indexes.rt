//! Which alternative of a CHOICE with an extension mark a message has, also one that the type has not.
ghost use Rattle.std.specs.Prelude.{◌≤◌, ◌<◌, ◌-◌, IfOk, IfErr, OnOk, Some};
ghost use Rattle.asn_values.specs.Profile.{most_alternatives};
ghost use Rattle.asn_walk.specs.Coding.{IndexOf};
ghost use Rattle.asn_walk.specs.Reading.{Reads};
ghost use Rattle.asn_walk.specs.Views.{index_seen};
ghost use Rattle.asn_newer.specs.Halting.{HaltsAt, TellsPast};

use crate::halt::Halt;
use crate::leaves::ReadVersions;
use asn_bits::BitCursor;
use asn_rules::internal::Stop;
use asn_values::profile::MAX_ALTERNATIVES;
use asn_walk::{Index, ReadLeaves};

/// Reads which alternative of a CHOICE with an extension mark is chosen, of `root` in the root and of as many additions
/// as the profile allows. `TooMany` is told where an index or a tag past the profile begins there, and `Refused` only
/// where none does.
#[inline(always)]
pub(crate) fn read_any_index<R: ReadVersions>(
    root: usize,
    units: &mut BitCursor<'_>,
) -> Result<Index, Halt>
    requires at_unit { R.rules.at_unit units.old }
    requires some { 0 < root }
    requires few { root ≤ most_alternatives }
    ensures at_unit { OnOk result (R.rules.at_unit units.new) }
    ensures done { IfOk result (λ i.
        Reads R.rules (IndexOf R.rules root (Some (most_alternatives - root))) (index_seen i) units.old units.new) }
    ensures stop { IfErr result (λ why.
        HaltsAt R.rules (IndexOf R.rules root (Some (most_alternatives - root))) units.old why) }
    ensures past { IfErr result (λ why. TellsPast (R.index_past root (R.rules.to_units units.old)) why) }
{
    R::keep_laws();
    let before = units.copied();
    match R::read_index(root, Some(MAX_ALTERNATIVES - root), units) {
        Ok(index) => Ok(index),
        Err(Stop::Refused { .. }) => {
            if R::is_index_past(root, &before) {
                return Err(Halt::TooMany);
            }
            Err(Halt::Refused)
        }
        Err(Stop::Short) => Err(Halt::Short),
        Err(Stop::Memory) => Err(Halt::Memory),
    }
}
