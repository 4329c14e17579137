//! Values that a piece has whole.
ghost use Rattle.std.specs.Prelude.{◌≡◌, ◌≤◌, ◌<◌, ◌+◌, ◌^◌, [], length, IfSome, IsSome, IsNone};
ghost use Rattle.asn_values.specs.Profile.{InProfile};
ghost use Rattle.asn_values.specs.View.{shape_of, datum_of};
ghost use Rattle.asn_walk_feed.specs.Feeding.{Ticked};
ghost use Rattle.asn_walk_feed.specs.Nodes.{nodes};
ghost use Rattle.asn_walk_feed.specs.Taken.{ReadsOn};

use crate::frame::Frames;
use crate::leaf::{FeedLeaves, take_to};
use crate::units::{Ticks, Units};
use asn_values::{AsnType, Value};
use std::alloc::Global;

/// How many octets a piece has left at least where a value is looked for in it whole.
const LEAST: usize = 8;

/// A value of the type, of which no node has begun and which the piece has whole: its units are taken, a tick each.
/// `None` where a node has begun, where few units are left, or where the
/// piece has not all of it; then no unit is taken.
pub(crate) fn whole_value<R: FeedLeaves>(
    alloc: Global,
    ty: &AsnType,
    frames: &Frames<R::Fragments>,
    units: &mut Units<'_>,
    ticks: &mut Ticks,
) -> Option<Value>
    requires at_unit { R.rules.at_unit units.old }
    requires of_profile { InProfile (shape_of ty.now) }
    requires few { ticks.old.taken + length (R.rules.to_units units.old) < 2 ^ 64 }
    ensures at_unit { R.rules.at_unit units.new }
    ensures done { IfSome result (λ v. ReadsOn R.rules R.fields R.ahead R.is_between (nodes frames.now)
        (shape_of ty.now) (datum_of v) units.old units.new) }
    ensures emptied { IsSome result → nodes frames.now ≡ [] }
    ensures still { IsNone result → (units.new ≡ units.old) × (ticks.new.taken ≡ ticks.old.taken) }
    ensures ticked { Ticked R.rules units.old ticks.old.taken units.new ticks.new.taken }
    ensures rising { ticks.old.taken ≤ ticks.new.taken }
    ensures inside { ticks.new.inside ≡ ticks.old.inside }
{
    let mut ahead = units.ahead();
    if !frames.is_none() || R::octets_left(&ahead) < LEAST {
        return None;
    }
    let value = R::read_whole(alloc, ty, &mut ahead).ok()?;
    take_to::<R>(units, ahead, ticks);
    Some(value)
}
