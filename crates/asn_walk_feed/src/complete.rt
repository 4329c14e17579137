//! The reader of complete encodings that goes on where it stopped.
ghost use Rattle.asn_rules.specs.declared.stop.Stop.TheVariants.{Short};
ghost use Rattle.asn_values.specs.Measures.{sealed_depth};
ghost use Rattle.asn_walk_feed.specs.Levels.{Costs, OpenUnits};
ghost use Rattle.std.specs.Prelude.{◌≡◌, ◌≤◌, ◌<◌, ◌+◌, ◌%◌, ◌^◌, ℕ, List, [], length, IfOk, IfErr, OnOk, Err};
ghost use Rattle.asn_values.specs.Profile.{InProfile};
ghost use Rattle.asn_values.specs.View.{shape_of, datum_of};
ghost use Rattle.asn_walk_feed.specs.Complete.{ReadsCompleteOn, StopsCompleteOn, KeepsCompleteOn};
ghost use Rattle.asn_walk_feed.specs.Feeding.{Ticked, StandsAfter};
ghost use Rattle.asn_walk_feed.specs.Nodes.{nodes};
ghost use Rattle.asn_walk_feed.specs.Taken.{Took};

use crate::begun::Begun;
use crate::frame::Frames;
use crate::leaf::{FeedLeaves, feed_leaf};
use crate::parts::Filling;
use crate::units::{Ticks, Units};
use crate::values::feed;
use asn_rules::internal::Stop;
use asn_values::{AsnType, Value};
use std::alloc::Global;

/// Reads what is left of a complete encoding (X.691, "complete encoding"), of whose value these nodes have begun and
/// `taken` units have come; where none has begun and none has come, all of it. All pieces have to be whole octets.
/// Takes its units and no others, a tick each.
///
/// # Errors
/// `Refused` at the first unit after which no complete encoding can follow, which is the last that is taken. `Short`
/// where all units of the piece belong to it and more are needed; then the nodes keep where it goes on. `Memory` where
/// an allocation failed.
pub fn feed_complete<R: FeedLeaves>(
    alloc: Global,
    ty: &AsnType,
    taken: u64,
    frames: &mut Frames<R::Fragments>,
    units: &mut Units<'_>,
    ticks: &mut Ticks,
) -> Result<Value, Stop>
    requires at_unit { R.rules.at_unit units.old }
    requires of_profile { InProfile (shape_of ty.now) }
    requires reached { (us : List ℕ)
        × Took R.rules R.fields R.ahead R.is_between (nodes frames.old) (shape_of ty.now) us × (length us ≡ taken) }
    requires octets { (taken + length (R.rules.to_units units.old)) % R.rules.octet_units ≡ 0 }
    requires few { ticks.old.taken + length (R.rules.to_units units.old) < 2 ^ 64 }
    ensures at_unit { R.rules.at_unit units.new }
    ensures done { IfOk result (λ v. ReadsCompleteOn R.rules R.fields R.ahead R.is_between (nodes frames.old)
        (shape_of ty.now) taken (datum_of v) units.old units.new) }
    ensures emptied { OnOk result (nodes frames.new ≡ []) }
    ensures stop { IfErr result (λ why. StopsCompleteOn R.rules R.fields R.ahead R.is_between (nodes frames.old)
        (shape_of ty.now) taken units.old why) }
    ensures kept { IfErr result (λ why. KeepsCompleteOn R.rules R.fields R.ahead R.is_between (nodes frames.old)
        (nodes frames.new) (shape_of ty.now) taken units.old why) }
    ensures after { IfErr result (λ why. StandsAfter R.rules units.new why) }
    ensures ticked { Ticked R.rules units.old ticks.old.taken units.new ticks.new.taken }
    ensures rising { ticks.old.taken ≤ ticks.new.taken }
    ensures inside { Costs R.rules (λ n. OpenUnits R.rules R.fields R.ahead R.is_between (nodes frames.old) n)
        (λ n. result ≡ Err Short → OpenUnits R.rules R.fields R.ahead R.is_between (nodes frames.new) n)
        (sealed_depth (shape_of ty.now)) ticks.old.inside units.old ticks.new.inside
        units.new }
{
    R::keep_laws();
    R::keep_feed_laws();
    let left = R::units_left(&units.ahead());
    let all = u128::from(taken) + left;
    let value = feed::<R>(alloc, ty, frames, units, ticks)?;
    let rest = R::units_left(&units.ahead());
    let value_units = all - rest;
    let mut begun = Begun::none();
    feed_leaf::<R, Filling>(alloc, &Filling { value_units }, &mut begun, units, ticks)?;
    Ok(value)
}
