//! The reader of strings that goes on where it stopped: BIT STRING, OCTET STRING, IA5String, NumericString,
//! VisibleString and UTF8String.
//!
//! Their items stand in fragments, and are judged once the last of them has come.
ghost use Rattle.asn_rules.specs.declared.stop.Stop.TheVariants.{Short};
ghost use Rattle.asn_walk_feed.specs.Levels.{Costs, OpenUnits};
ghost use Rattle.std.specs.Prelude.{◌≡◌, ◌≤◌, ◌<◌, ◌+◌, ◌^◌, ℕ, List, [], length, IfOk, IfErr, OnOk, Err, ⊤};
ghost use Rattle.asn_values.specs.Profile.{InProfile};
ghost use Rattle.asn_values.specs.View.{shape_of, datum_of};
ghost use Rattle.asn_walk_feed.specs.Feeding.{Ticked, StandsAfter};
ghost use Rattle.asn_walk_feed.specs.Nodes.{nodes};
ghost use Rattle.asn_walk_feed.specs.Strings.{IsString};
ghost use Rattle.asn_walk_feed.specs.Taken.{Took, ReadsOn, StopsOn, KeepsOn};

use crate::frame::Frames;
use crate::in_fragments::StringItems;
use crate::leaf::FeedLeaves;
use crate::octets::feed_octets;
use crate::units::{Ticks, Units};
use asn_rules::internal::Stop;
use asn_values::{AsnType, Value};
use std::alloc::Global;

/// Reads what is left of a string, of which these nodes have begun. Items that no string has are refused at their last
/// unit.
pub(crate) fn feed_string<R: FeedLeaves>(
    alloc: Global,
    ty: &AsnType,
    frames: &mut Frames<R::Fragments>,
    units: &mut Units<'_>,
    ticks: &mut Ticks,
) -> Result<Value, Stop>
    requires at_unit { R.rules.at_unit units.old }
    requires of_profile { InProfile (shape_of ty.now) }
    requires string { IsString (shape_of ty.now) }
    requires reached { (us : List ℕ)
        × Took R.rules R.fields R.ahead R.is_between (nodes frames.old) (shape_of ty.now) us }
    requires few { ticks.old.taken + length (R.rules.to_units units.old) < 2 ^ 64 }
    ensures at_unit { R.rules.at_unit units.new }
    ensures done { IfOk result (λ v. ReadsOn R.rules R.fields R.ahead R.is_between (nodes frames.old) (shape_of ty.now)
        (datum_of v) units.old units.new) }
    ensures emptied { OnOk result (nodes frames.new ≡ []) }
    ensures stop { IfErr result (λ why.
        StopsOn R.rules R.fields R.ahead R.is_between (nodes frames.old) (shape_of ty.now) units.old why) }
    ensures kept { IfErr result (λ why. KeepsOn R.rules R.fields R.ahead R.is_between (nodes frames.old)
        (nodes frames.new) (shape_of ty.now) units.old why) }
    ensures after { IfErr result (λ why. StandsAfter R.rules units.new why) }
    ensures ticked { Ticked R.rules units.old ticks.old.taken units.new ticks.new.taken }
    ensures rising { ticks.old.taken ≤ ticks.new.taken }
    ensures inside { Costs R.rules (λ n. ⊤)
        (λ n. result ≡ Err Short → OpenUnits R.rules R.fields R.ahead R.is_between (nodes frames.new) n)
        0 ticks.old.inside units.old ticks.new.inside
        units.new }
{
    R::keep_string_laws();
    let items = feed_octets::<R, StringItems<'_>>(
        alloc,
        &StringItems { ty },
        frames,
        units,
        ticks,
    )?;
    let left = R::units_left(&units.ahead());
    R::string_of(alloc, ty, items, left)
}
