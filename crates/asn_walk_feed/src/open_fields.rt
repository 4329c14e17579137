//! The reader of open type fields that goes on where it stopped.
//!
//! Its octets stand in fragments, as the elements of a SEQUENCE OF do. They are read as a complete encoding once the
//! last of them has come.
ghost use Rattle.asn_rules.specs.declared.stop.Stop.TheVariants.{Short};
ghost use Rattle.asn_values.specs.Measures.{sealed_depth};
ghost use Rattle.asn_walk_feed.specs.Levels.{Costs, FieldUnits};
ghost use Rattle.std.specs.Prelude.{◌≡◌, ◌≤◌, ◌<◌, ◌+◌, ◌^◌, ℕ, List, [], length, ◌%◌, IfOk, IfErr, OnOk, Err, suc, ◌*◌};
ghost use Rattle.asn_values.specs.Profile.{InProfile};
ghost use Rattle.asn_values.specs.View.{shape_of, datum_of};
ghost use Rattle.asn_rules.specs.Chunks.{open_field};
ghost use Rattle.asn_rules.specs.Languages.{Spells};
ghost use Rattle.asn_rules.specs.Live.{IsContent};
ghost use Rattle.asn_rules.specs.Stops.{Stops};
ghost use Rattle.asn_walk.specs.Reading.{CompleteOf};
ghost use Rattle.asn_walk_feed.specs.Feeding.{Ticked, StandsAfter};
ghost use Rattle.asn_walk_feed.specs.Nodes.{nodes};
ghost use Rattle.asn_walk_feed.specs.Octets.{OctetsTook, KeepsOctetsFrom};
ghost use Rattle.asn_walk_feed.specs.OpenFields.{ReadsFieldOn, StopsFieldOn, HoldsValue, HoldsNone, StopsAfter};

use crate::frame::Frames;
use crate::in_fragments::OpenType;
use crate::leaf::{FeedLeaves, take_to};
use crate::octets::feed_octets;
use crate::units::{Ticks, Units};
use crate::values::feed;
use asn_rules::Why;
use asn_rules::internal::Stop;
use asn_values::{AsnType, Value};
use std::alloc::Global;

/// Reads what is left of an open type field that holds a value of the type, of which these nodes have begun (X.691,
/// "open type fields"; X.696, "open type"). A field that holds none is refused at its last unit.
#[cycle(feeder)]
pub(crate) fn feed_open_field<R: FeedLeaves>(
    alloc: Global,
    ty: &AsnType,
    frames: &mut Frames<R::Fragments>,
    units: &mut Units<'_>,
    ticks: &mut Ticks,
) -> Result<Value, Stop>
    requires at_unit { R.rules.at_unit units.old }
    requires of_profile { InProfile (shape_of ty.now) }
    requires reached { (us : List ℕ)
        × OctetsTook R.rules R.fields.open_type R.ahead R.is_between (nodes frames.old) us }
    requires few { ticks.old.taken + length (R.rules.to_units units.old) < 2 ^ 64 }
    ensures at_unit { R.rules.at_unit units.new }
    ensures done { IfOk result (λ v. ReadsFieldOn R.rules R.fields R.ahead R.is_between (nodes frames.old)
        (shape_of ty.now) (datum_of v) units.old units.new) }
    ensures emptied { OnOk result (nodes frames.new ≡ []) }
    ensures stop { IfErr result (λ why. StopsFieldOn R.rules R.fields R.ahead R.is_between (nodes frames.old)
        (shape_of ty.now) units.old why) }
    ensures kept { IfErr result (λ why. KeepsOctetsFrom R.rules R.fields.open_type R.ahead R.is_between
        (nodes frames.old) (nodes frames.new) units.old why) }
    ensures after { IfErr result (λ why. StandsAfter R.rules units.new why) }
    ensures ticked { Ticked R.rules units.old ticks.old.taken units.new ticks.new.taken }
    ensures rising { ticks.old.taken ≤ ticks.new.taken }
    ensures inside { Costs R.rules (λ n. FieldUnits R.rules R.fields R.ahead R.is_between (nodes frames.old) n)
        (λ n. result ≡ Err Short → FieldUnits R.rules R.fields R.ahead R.is_between (nodes frames.new) n)
        (suc (sealed_depth (shape_of ty.now))) ticks.old.inside units.old ticks.new.inside
        units.new }
{
    R::keep_laws();
    R::keep_field_laws();
    let octets = feed_octets::<R, OpenType>(alloc, &OpenType {}, frames, units, ticks)?;
    let left = R::units_left(&units.ahead());
    let mut level = Ticks::none();
    let value = read_content::<R>(alloc, ty, octets.as_slice(), left, &mut level);
    ticks.add_inside(&level);
    value
}

/// Reads the octets of an open type field, after which this many units are left, as the complete encoding that they
/// have to be: a level of its own.
#[cycle(feeder)]
fn read_content<R: FeedLeaves>(
    alloc: Global,
    ty: &AsnType,
    octets: &[u8],
    left: u128,
    ticks: &mut Ticks,
) -> Result<Value, Stop>
    requires of_profile { InProfile (shape_of ty.now) }
    requires content { IsContent R.rules.ruling.fielding open_field octets.now }
    requires none { ticks.old.taken ≡ 0 }
    requires none_inside { ticks.old.inside ≡ 0 }
    ensures done { IfOk result (λ v. HoldsValue R.rules (shape_of ty.now) octets.now (datum_of v)) }
    ensures stop { IfErr result (λ why. HoldsNone R.rules (shape_of ty.now) octets.now left why) }
    ensures after { IfErr result (λ why. StopsAfter left why) }
    ensures cost { (k : ℕ) → suc (sealed_depth (shape_of ty.now)) ≤ k
        → ticks.new.taken + ticks.new.inside ≤ k * length (R.rules.ruling.units octets.now) }
{
    R::keep_laws();
    let mut units = Units::over(octets);
    let no_value = Stop::Refused {
        left,
        why: Why::Sealed,
    };
    match read_complete::<R>(alloc, ty, &mut units, ticks) {
        Ok(value) if R::units_left(&units.ahead()) == 0 => Ok(value),
        Ok(_) => Err(no_value),
        Err(Stop::Short) => Err(no_value),
        Err(Stop::Refused { .. }) => Err(no_value),
        Err(Stop::Memory) => Err(Stop::Memory),
    }
}

/// Reads the complete encoding of a value (X.691, "complete encoding") from units that hold all of it, with the zeros
/// that fill up its last octet.
#[cycle(feeder)]
fn read_complete<R: FeedLeaves>(
    alloc: Global,
    ty: &AsnType,
    units: &mut Units<'_>,
    ticks: &mut Ticks,
) -> Result<Value, Stop>
    requires at_unit { R.rules.at_unit units.old }
    requires of_profile { InProfile (shape_of ty.now) }
    requires octets { length (R.rules.to_units units.old) % R.rules.octet_units ≡ 0 }
    requires few { ticks.old.taken + length (R.rules.to_units units.old) < 2 ^ 64 }
    ensures at_unit { OnOk result (R.rules.at_unit units.new) }
    ensures done { IfOk result (λ v. Spells R.rules.ruling.fielding (CompleteOf R.rules (shape_of ty.now)) (datum_of v)
        (R.rules.to_units units.old) (R.rules.to_units units.new)) }
    ensures stop { IfErr result (λ why. Stops R.rules.ruling.fielding (CompleteOf R.rules (shape_of ty.now))
        (R.rules.to_units units.old) why) }
    ensures cost { (k : ℕ) → suc (sealed_depth (shape_of ty.now)) ≤ k → ticks.new.taken + ticks.new.inside
        ≤ (ticks.old.taken + ticks.old.inside) + k * length (R.rules.to_units units.old) }
{
    R::keep_laws();
    let mut frames = Frames::none(alloc);
    let given = R::units_left(&units.ahead());
    let value = feed::<R>(alloc, ty, &mut frames, units, ticks)?;
    let mut ahead = units.ahead();
    R::read_padding(given, &mut ahead)?;
    take_to::<R>(units, ahead, ticks);
    Ok(value)
}
