//! The reader of values that goes on where it stopped.
ghost use Rattle.asn_rules.specs.declared.stop.Stop.TheVariants.{Short};
ghost use Rattle.asn_values.specs.Measures.{sealed_depth};
ghost use Rattle.asn_walk_feed.specs.Levels.{Costs, OpenUnits};
ghost use Rattle.std.specs.Prelude.{◌≡◌, ◌≤◌, ◌<◌, ◌+◌, ◌^◌, ◌++◌, ℕ, List, [], length, IfOk, IfErr, OnOk, Err, ⊤};
ghost use Rattle.asn_values.specs.Profile.{InProfile};
ghost use Rattle.asn_values.specs.View.{shape_of, datum_of};
ghost use Rattle.asn_rules.specs.Languages.{Spells};
ghost use Rattle.asn_rules.specs.Stops.{Stops};
ghost use Rattle.asn_walk.specs.Reading.{ValuesOf};
ghost use Rattle.asn_walk_feed.specs.Feeding.{Waits, IsScalar, Ticked, StandsAfter};
ghost use Rattle.asn_walk_feed.specs.Nodes.{nodes};
ghost use Rattle.asn_walk_feed.specs.Taken.{IsStart, begun_of, Took, KeepsFrames, ReadsOn, StopsOn, KeepsOn};

use crate::begun::Begun;
use crate::choices::resume_choice;
use crate::frame::{Frame, Frames};
use crate::leaf::{FeedLeaves, feed_leaf};
use crate::lists::resume_list;
use crate::parts::Scalar;
use crate::sequences::resume_sequence;
use crate::strings::feed_string;
use crate::units::{Ticks, Units};
use asn_rules::internal::Stop;
use asn_values::{AsnType, Value};
use std::alloc::Global;

/// Reads what is left of a value of the type, of which these nodes have begun; where none has, the whole value. Takes
/// its units and no others, a tick each.
///
/// # Errors
/// `Refused` at the first unit after which no value can follow, which is the last that is taken. `Short` where all
/// units of the piece belong to the value and more are needed; then the nodes keep where it goes on. `Memory` where an
/// allocation failed.
#[cycle(feeder)]
pub fn feed<R: FeedLeaves>(
    alloc: Global,
    ty: &AsnType,
    frames: &mut Frames<R::Fragments>,
    units: &mut Units<'_>,
    ticks: &mut Ticks,
) -> Result<Value, Stop>
    requires at_unit { R.rules.at_unit units.old }
    requires of_profile { InProfile (shape_of ty.now) }
    requires reached { (us : List ℕ)
        × Took R.rules R.fields R.ahead R.is_between (nodes frames.old) (shape_of ty.now) us }
    requires few { ticks.old.taken + length (R.rules.to_units units.old) < 2 ^ 64 }
    ensures at_unit { R.rules.at_unit units.new }
    ensures done { IfOk result (λ v. ReadsOn R.rules R.fields R.ahead R.is_between (nodes frames.old) (shape_of ty.now)
        (datum_of v) units.old units.new) }
    ensures emptied { OnOk result (nodes frames.new ≡ []) }
    ensures stop { IfErr result (λ why.
        StopsOn R.rules R.fields R.ahead R.is_between (nodes frames.old) (shape_of ty.now) units.old why) }
    ensures kept { IfErr result (λ why. KeepsOn R.rules R.fields R.ahead R.is_between (nodes frames.old) (nodes
        frames.new)
        (shape_of ty.now) units.old why) }
    ensures after { IfErr result (λ why. StandsAfter R.rules units.new why) }
    ensures ticked { Ticked R.rules units.old ticks.old.taken units.new ticks.new.taken }
    ensures rising { ticks.old.taken ≤ ticks.new.taken }
    ensures inside { Costs R.rules (λ n. OpenUnits R.rules R.fields R.ahead R.is_between (nodes frames.old) n)
        (λ n. result ≡ Err Short → OpenUnits R.rules R.fields R.ahead R.is_between (nodes frames.new) n)
        (sealed_depth (shape_of ty.now)) ticks.old.inside units.old ticks.new.inside
        units.new }
{
    R::keep_feed_laws();
    match ty {
        AsnType::SeqOf(element, size) => {
            let node = frames.take();
            resume_list::<R>(alloc, element, size, node, frames, units, ticks)
        }
        AsnType::Seq { root, ext } => {
            let root = root.as_slice();
            let node = frames.take();
            resume_sequence::<R>(alloc, ty, root, ext, node, frames, units, ticks)
        }
        AsnType::Choice { root, ext } => {
            let root = root.as_slice();
            let node = frames.take();
            resume_choice::<R>(alloc, ty, root, ext, node, frames, units, ticks)
        }
        AsnType::Bool | AsnType::Null | AsnType::Int(_) | AsnType::Enum { .. } => {
            let node = frames.take();
            feed_scalar::<R>(alloc, ty, node, frames, units, ticks)
        }
        AsnType::Bits(_) | AsnType::Octets(_) | AsnType::Text(..) | AsnType::Utf8 => {
            feed_string::<R>(alloc, ty, frames, units, ticks)
        }
    }
}

/// The units of the first part of a node that have come.
pub(crate) fn begun_of<F: Drop>(node: Option<Frame<F>>) -> Begun
    requires { IsStart node }
    ensures { result ≡ begun_of node }
{
    match node {
        Some(Frame::Start(begun)) => begun,
        Some(Frame::Elements(_list)) => unreachable!(),
        Some(Frame::Components(_read)) => unreachable!(),
        Some(Frame::Bitmap(_part)) => unreachable!(),
        Some(Frame::Additions(_read)) => unreachable!(),
        Some(Frame::Chosen(_)) => unreachable!(),
        Some(Frame::Added(_)) => unreachable!(),
        Some(Frame::Octets(_octets)) => unreachable!(),
        None => Begun::none(),
    }
}

/// Reads what is left of a BOOLEAN, a NULL, an INTEGER or an ENUMERATED.
fn feed_scalar<R: FeedLeaves>(
    alloc: Global,
    ty: &AsnType,
    node: Option<Frame<R::Fragments>>,
    frames: &mut Frames<R::Fragments>,
    units: &mut Units<'_>,
    ticks: &mut Ticks,
) -> Result<Value, Stop>
    requires at_unit { R.rules.at_unit units.old }
    requires of_profile { InProfile (shape_of ty.now) }
    requires scalar { IsScalar (shape_of ty.now) }
    requires empty { nodes frames.old ≡ [] }
    requires start { IsStart node }
    requires waits { Waits R.rules (ValuesOf R.rules (shape_of ty.now)) (begun_of node)
        (R.rules.to_units (begun_of node)) }
    requires few { ticks.old.taken + length (R.rules.to_units units.old) < 2 ^ 64 }
    ensures at_unit { R.rules.at_unit units.new }
    ensures done { IfOk result (λ v. Spells R.rules.ruling.fielding (ValuesOf R.rules (shape_of ty.now)) (datum_of v)
        (R.rules.to_units (begun_of node) ++ R.rules.to_units units.old) (R.rules.to_units units.new)) }
    ensures emptied { OnOk result (nodes frames.new ≡ []) }
    ensures stop { IfErr result (λ why. Stops R.rules.ruling.fielding (ValuesOf R.rules (shape_of ty.now))
        (R.rules.to_units (begun_of node) ++ R.rules.to_units units.old) why) }
    ensures kept { IfErr result (λ why.
        KeepsFrames R.rules R.fields R.ahead R.is_between (nodes frames.new) (shape_of ty.now)
        (R.rules.to_units (begun_of node) ++ R.rules.to_units units.old) why) }
    ensures after { IfErr result (λ why. StandsAfter R.rules units.new why) }
    ensures ticked { Ticked R.rules units.old ticks.old.taken units.new ticks.new.taken }
    ensures rising { ticks.old.taken ≤ ticks.new.taken }
    ensures inside { Costs R.rules (λ n. ⊤)
        (λ n. result ≡ Err Short → OpenUnits R.rules R.fields R.ahead R.is_between (nodes frames.new) n)
        0 ticks.old.inside units.old ticks.new.inside
        units.new }
{
    R::keep_feed_laws();
    let mut begun = begun_of(node);
    match feed_leaf::<R, Scalar<'_>>(alloc, &Scalar { ty }, &mut begun, units, ticks) {
        Ok(value) => Ok(value),
        Err(Stop::Short) => {
            if begun.is_none() {
                return Err(Stop::Short);
            }
            match frames.put(Frame::Start(begun)) {
                Ok(()) => Err(Stop::Short),
                Err(_) => Err(Stop::Memory),
            }
        }
        Err(stop) => Err(stop),
    }
}
