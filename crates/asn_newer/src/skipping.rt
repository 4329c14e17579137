//! Fields of a message that the type has not: their octets are kept, and nothing of them is decoded.
ghost use Rattle.std.specs.Prelude.{◌≡◌, ◌≤◌, IfErr, OnOk};
ghost use Rattle.asn_walk.specs.Reading.{Reads};
ghost use Rattle.asn_newer.specs.Bitmaps.{bits_left};
ghost use Rattle.asn_newer.specs.Halting.{HaltsAt};
ghost use Rattle.asn_newer.specs.Loose.{AllUnknown, Unknown};
ghost use Rattle.asn_newer.specs.Reading.{skipped_at_seen};
ghost use Rattle.asn_newer.specs.Walking.{FieldAfter, FieldsAfter};

use crate::halt::Halt;
use crate::leaves::ReadVersions;
use crate::path::SkippedAt;
use crate::presence::next_present;
use asn_bits::BitCursor;
use asn_rules::Skipped;
use asn_walk::{PresenceBits, ReadLeaves};
use std::alloc::Global;

/// Skips the open type field of the addition at this index.
pub(crate) fn skip_field<R: ReadLeaves>(
    alloc: Global,
    place: u32,
    skipped: &mut Vec<SkippedAt>,
    units: &mut BitCursor<'_>,
) -> Result<(), Halt>
    requires at_unit { R.rules.at_unit units.old }
    ensures at_unit { OnOk result (R.rules.at_unit units.new) }
    ensures done { OnOk result (Reads R.rules (FieldAfter (skipped_at_seen skipped.old.items) (Unknown R.rules place))
        (skipped_at_seen skipped.new.items) units.old units.new) }
    ensures stop { IfErr result (λ why. HaltsAt R.rules (Unknown R.rules place) units.old why) }
{
    R::keep_laws();
    let octets = R::read_open_octets(alloc, units)?;
    skipped.push(SkippedAt::here(alloc, Skipped { place, octets }))?;
    Ok(())
}

/// Skips the open type fields of the additions that the presence bits tell, the first of which has this index.
pub(crate) fn skip_fields<R: ReadVersions>(
    alloc: Global,
    place: u32,
    presence: PresenceBits,
    skipped: &mut Vec<SkippedAt>,
    units: &mut BitCursor<'_>,
) -> Result<(), Halt>
    requires at_unit { R.rules.at_unit units.old }
    requires few { presence.left ≤ 64 }
    requires few_places { place ≤ 64 }
    ensures at_unit { OnOk result (R.rules.at_unit units.new) }
    ensures done { OnOk result (Reads R.rules (FieldsAfter (skipped_at_seen skipped.old.items)
        (AllUnknown R.rules place (bits_left presence)))
        (skipped_at_seen skipped.new.items) units.old units.new) }
    ensures stop { IfErr result (λ why.
        HaltsAt R.rules (AllUnknown R.rules place (bits_left presence)) units.old why) }
{
    R::keep_walk_laws();
    let mut presence = presence;
    for next in place..place + presence.left {
        if next_present(&mut presence) {
            skip_field::<R>(alloc, next, skipped, units)?;
        }
    }
    Ok(())
}
