//! The reader of SEQUENCE OF that goes on where it stopped.
//!
//! What stands before the elements is a part of its own, and so is each length between fragments; `Elements` says where
//! a list stands between two of these parts.
ghost use Rattle.asn_values.specs.Measures.{sealed_depth};
ghost use Rattle.asn_walk_feed.specs.Levels.{Costs, OpenUnits};
ghost use Rattle.std.specs.Prelude.{◌≡◌, ◌≤◌, ◌<◌, ◌+◌, ◌^◌, ◌++◌, ℕ, List, [], length, zero, IfOk, IfErr, OnOk, OnErr, IsNone, IsTrue, Ok, Err, Some, None, true, false, ⊤};
ghost use Rattle.asn_values.specs.Profile.{InProfile};
ghost use Rattle.asn_values.specs.Shape.{SizeRange, sequence_of};
ghost use Rattle.asn_values.specs.View.{shape_of, datum_of, size_range_of};
ghost use Rattle.asn_rules.specs.Languages.{Spells};
ghost use Rattle.asn_rules.specs.Stops.{Stops};
ghost use Rattle.asn_rules.specs.declared.stop.Stop.TheVariants.{Short};
ghost use Rattle.asn_walk.specs.Reading.{ValuesOf};
ghost use Rattle.asn_walk_feed.specs.Feeding.{Waits, NextOf, HasBegun, Ticked, StandsAfter, KeepsUnits};
ghost use Rattle.asn_walk_feed.specs.Nodes.{nodes};
ghost use Rattle.asn_walk_feed.specs.Taken.{with_node, Took, ElementTook, ListGoesOn, KeepsFrames, ReadsOn, StopsOn, KeepsOn, ReadsOneElementOn, StopsOneElementOn, KeepsElementOn, ReadsListOn, StopsListOn, KeepsListOn, ReadsElementsOn, StopsElementsOn, UnderEachSize, GoesOnTo};

use crate::begun::Begun;
use crate::frame::{Elements, Frame, Frames};
use crate::leaf::{FeedLeaves, feed_leaf};
use crate::parts::{ListStart, NextLength};
use crate::rows::{feed_small, is_row};
use crate::units::{Ticks, Units};
use crate::values::feed;
use crate::whole::whole_value;
use asn_rules::internal::Stop;
use asn_values::{AsnType, Size, Value};
use std::alloc::Global;

/// Reads what is left of a list, of which this node has begun and in it the others.
#[cycle(feeder)]
pub(crate) fn resume_list<R: FeedLeaves>(
    alloc: Global,
    element: &AsnType,
    size: &Size,
    node: Option<Frame<R::Fragments>>,
    frames: &mut Frames<R::Fragments>,
    units: &mut Units<'_>,
    ticks: &mut Ticks,
) -> Result<Value, Stop>
    requires at_unit { R.rules.at_unit units.old }
    requires of_profile { InProfile (sequence_of (shape_of element.now) (size_range_of size.now)) }
    requires reached { (us : List ℕ) × Took R.rules R.fields R.ahead R.is_between (with_node node (nodes frames.old))
        (sequence_of (shape_of element.now) (size_range_of size.now)) us }
    requires last { IsNone node → nodes frames.old ≡ [] }
    requires few { ticks.old.taken + length (R.rules.to_units units.old) < 2 ^ 64 }
    ensures at_unit { R.rules.at_unit units.new }
    ensures done { IfOk result (λ v. ReadsOn R.rules R.fields R.ahead R.is_between (with_node node (nodes frames.old))
        (sequence_of (shape_of element.now) (size_range_of size.now)) (datum_of v) units.old units.new) }
    ensures emptied { OnOk result (nodes frames.new ≡ []) }
    ensures stop { IfErr result (λ why. StopsOn R.rules R.fields R.ahead R.is_between
        (with_node node (nodes frames.old)) (sequence_of (shape_of element.now) (size_range_of size.now))
        units.old why) }
    ensures kept { IfErr result (λ why. KeepsOn R.rules R.fields R.ahead R.is_between
        (with_node node (nodes frames.old)) (nodes frames.new) (sequence_of (shape_of element.now)
        (size_range_of size.now)) units.old why) }
    ensures after { IfErr result (λ why. StandsAfter R.rules units.new why) }
    ensures ticked { Ticked R.rules units.old ticks.old.taken units.new ticks.new.taken }
    ensures rising { ticks.old.taken ≤ ticks.new.taken }
    ensures inside { Costs R.rules
        (λ n. OpenUnits R.rules R.fields R.ahead R.is_between (with_node node (nodes frames.old)) n)
        (λ n. result ≡ Err Short → OpenUnits R.rules R.fields R.ahead R.is_between (nodes frames.new) n)
        (sealed_depth (shape_of element.now)) ticks.old.inside units.old ticks.new.inside
        units.new }
{
    R::keep_laws();
    R::keep_feed_laws();
    match node {
        Some(Frame::Elements(list)) => {
            feed_list::<R>(alloc, element, size, list, frames, units, ticks)
        }
        Some(Frame::Start(begun)) => {
            start_list::<R>(alloc, element, size, begun, frames, units, ticks)
        }
        None => start_list::<R>(alloc, element, size, Begun::none(), frames, units, ticks),
        Some(Frame::Components(_read)) => unreachable!(),
        Some(Frame::Bitmap(_part)) => unreachable!(),
        Some(Frame::Additions(_read)) => unreachable!(),
        Some(Frame::Chosen(_)) => unreachable!(),
        Some(Frame::Added(_)) => unreachable!(),
        Some(Frame::Octets(_octets)) => unreachable!(),
    }
}

/// Reads what is left of what stands before the elements of a list, and then these.
#[cycle(feeder)]
fn start_list<R: FeedLeaves>(
    alloc: Global,
    element: &AsnType,
    size: &Size,
    begun: Begun,
    frames: &mut Frames<R::Fragments>,
    units: &mut Units<'_>,
    ticks: &mut Ticks,
) -> Result<Value, Stop>
    requires at_unit { R.rules.at_unit units.old }
    requires of_profile { InProfile (sequence_of (shape_of element.now) (size_range_of size.now)) }
    requires empty { nodes frames.old ≡ [] }
    requires waits { Waits R.rules (R.rules.list_start (size_range_of size.now)) begun (R.rules.to_units begun) }
    requires few { ticks.old.taken + length (R.rules.to_units units.old) < 2 ^ 64 }
    ensures at_unit { R.rules.at_unit units.new }
    ensures done { IfOk result (λ v. Spells R.rules.ruling.fielding
        (ValuesOf R.rules (sequence_of (shape_of element.now) (size_range_of size.now))) (datum_of v)
        (R.rules.to_units begun ++ R.rules.to_units units.old) (R.rules.to_units units.new)) }
    ensures emptied { OnOk result (nodes frames.new ≡ []) }
    ensures stop { IfErr result (λ why. Stops R.rules.ruling.fielding
        (ValuesOf R.rules (sequence_of (shape_of element.now) (size_range_of size.now)))
        (R.rules.to_units begun ++ R.rules.to_units units.old) why) }
    ensures kept { IfErr result (λ why. KeepsFrames R.rules R.fields R.ahead R.is_between (nodes frames.new)
        (sequence_of (shape_of element.now) (size_range_of size.now))
        (R.rules.to_units begun ++ R.rules.to_units units.old) why) }
    ensures after { IfErr result (λ why. StandsAfter R.rules units.new why) }
    ensures ticked { Ticked R.rules units.old ticks.old.taken units.new ticks.new.taken }
    ensures rising { ticks.old.taken ≤ ticks.new.taken }
    ensures inside { Costs R.rules (λ n. ⊤)
        (λ n. result ≡ Err Short → OpenUnits R.rules R.fields R.ahead R.is_between (nodes frames.new) n)
        (sealed_depth (shape_of element.now)) ticks.old.inside units.old ticks.new.inside
        units.new }
{
    R::keep_laws();
    R::keep_feed_laws();
    let mut begun = begun;
    match feed_leaf::<R, ListStart<'_>>(alloc, &ListStart { size }, &mut begun, units, ticks) {
        Ok(fragments) => {
            let list = Elements {
                elements: Vec::new(alloc),
                left: 0,
                fragments,
                next_part: Begun::none(),
            };
            feed_list::<R>(alloc, element, size, list, frames, units, ticks)
        }
        Err(Stop::Short) => match frames.put(Frame::Start(begun)) {
            Ok(()) => Err(Stop::Short),
            Err(_) => Err(Stop::Memory),
        },
        Err(Stop::Refused { left, why }) => Err(Stop::Refused { left, why }),
        Err(Stop::Memory) => Err(Stop::Memory),
    }
}

/// Reads what is left of the elements of a list.
#[cycle(feeder)]
fn feed_list<R: FeedLeaves>(
    alloc: Global,
    element: &AsnType,
    size: &Size,
    list: Elements<R::Fragments, Value>,
    frames: &mut Frames<R::Fragments>,
    units: &mut Units<'_>,
    ticks: &mut Ticks,
) -> Result<Value, Stop>
    requires at_unit { R.rules.at_unit units.old }
    requires of_profile { InProfile (sequence_of (shape_of element.now) (size_range_of size.now)) }
    requires reached { (all : List ℕ) × ListGoesOn R.rules R.fields R.ahead R.is_between (shape_of element.now)
        (size_range_of size.now) list (nodes frames.old) all (R.rules.to_units units.old) }
    requires few { ticks.old.taken + length (R.rules.to_units units.old) < 2 ^ 64 }
    ensures at_unit { R.rules.at_unit units.new }
    ensures done { IfOk result (λ v. ReadsListOn R.rules R.fields R.ahead R.is_between (shape_of element.now)
        (size_range_of size.now) list (nodes frames.old) (datum_of v) units.old units.new) }
    ensures emptied { OnOk result (nodes frames.new ≡ []) }
    ensures stop { IfErr result (λ why. StopsListOn R.rules R.fields R.ahead R.is_between (shape_of element.now)
        (size_range_of size.now) list (nodes frames.old) units.old why) }
    ensures kept { IfErr result (λ why. KeepsListOn R.rules R.fields R.ahead R.is_between (shape_of element.now)
        (size_range_of size.now) list (nodes frames.old) (nodes frames.new) units.old why) }
    ensures after { IfErr result (λ why. StandsAfter R.rules units.new why) }
    ensures ticked { Ticked R.rules units.old ticks.old.taken units.new ticks.new.taken }
    ensures rising { ticks.old.taken ≤ ticks.new.taken }
    ensures inside { Costs R.rules (λ n. OpenUnits R.rules R.fields R.ahead R.is_between (nodes frames.old) n)
        (λ n. result ≡ Err Short → OpenUnits R.rules R.fields R.ahead R.is_between (nodes frames.new) n)
        (sealed_depth (shape_of element.now)) ticks.old.inside units.old ticks.new.inside
        units.new }
{
    R::keep_laws();
    R::keep_feed_laws();
    let mut list = list;
    match feed_elements::<R>(alloc, element, size, &mut list, frames, units, ticks) {
        Ok(()) => Ok(Value::List(list.elements)),
        Err(Stop::Short) => match frames.put(Frame::Elements(list)) {
            Ok(()) => Err(Stop::Short),
            Err(_) => Err(Stop::Memory),
        },
        Err(Stop::Refused { left, why }) => Err(Stop::Refused { left, why }),
        Err(Stop::Memory) => Err(Stop::Memory),
    }
}

/// Reads what is left of the elements of a list, and puts them after those that it has.
#[cycle(feeder)]
fn feed_elements<R: FeedLeaves>(
    alloc: Global,
    element: &AsnType,
    size: &Size,
    list: &mut Elements<R::Fragments, Value>,
    frames: &mut Frames<R::Fragments>,
    units: &mut Units<'_>,
    ticks: &mut Ticks,
) -> Result<(), Stop>
    requires at_unit { R.rules.at_unit units.old }
    requires of_profile { InProfile (sequence_of (shape_of element.now) (size_range_of size.now)) }
    requires reached { (all : List ℕ) × ListGoesOn R.rules R.fields R.ahead R.is_between (shape_of element.now)
        (size_range_of size.now) list.old (nodes frames.old) all (R.rules.to_units units.old) }
    requires few { ticks.old.taken + length (R.rules.to_units units.old) < 2 ^ 64 }
    ensures at_unit { R.rules.at_unit units.new }
    ensures done { OnOk result (ReadsElementsOn R.rules R.fields R.ahead R.is_between (shape_of element.now)
        (size_range_of size.now) list.old (nodes frames.old) list.new units.old units.new) }
    ensures emptied { OnOk result (nodes frames.new ≡ []) }
    ensures stop { IfErr result (λ why. StopsElementsOn R.rules R.fields R.ahead R.is_between (shape_of element.now)
        (size_range_of size.now) list.old (nodes frames.old) units.old why) }
    ensures kept { result ≡ Err Short → GoesOnTo R.rules R.fields R.ahead R.is_between (shape_of element.now)
        (size_range_of size.now) list.old (nodes frames.old) units.old list.new (nodes frames.new) units.new }
    ensures after { IfErr result (λ why. StandsAfter R.rules units.new why) }
    ensures ticked { Ticked R.rules units.old ticks.old.taken units.new ticks.new.taken }
    ensures rising { ticks.old.taken ≤ ticks.new.taken }
    ensures inside { Costs R.rules (λ n. OpenUnits R.rules R.fields R.ahead R.is_between (nodes frames.old) n)
        (λ n. result ≡ Err Short → OpenUnits R.rules R.fields R.ahead R.is_between (nodes frames.new) n)
        (sealed_depth (shape_of element.now)) ticks.old.inside units.old ticks.new.inside
        units.new }
{
    R::keep_laws();
    R::keep_feed_laws();
    loop {
        feed_fragment::<R>(alloc, element, list, frames, units, ticks)?;
        if !next_fragment::<R, Value>(alloc, list, units, ticks)? {
            return Ok(());
        }
    }
}

/// Reads what is left of the elements of a fragment, and puts them after those that the list has. The size of the list
/// does not matter for it.
#[cycle(feeder)]
fn feed_fragment<R: FeedLeaves>(
    alloc: Global,
    element: &AsnType,
    list: &mut Elements<R::Fragments, Value>,
    frames: &mut Frames<R::Fragments>,
    units: &mut Units<'_>,
    ticks: &mut Ticks,
) -> Result<(), Stop>
    requires at_unit { R.rules.at_unit units.old }
    requires reached { (s : SizeRange) × InProfile (sequence_of (shape_of element.now) s) × (all : List ℕ) ×
        ListGoesOn R.rules R.fields R.ahead R.is_between (shape_of element.now) s list.old (nodes frames.old) all
        (R.rules.to_units units.old) }
    requires few { ticks.old.taken + length (R.rules.to_units units.old) < 2 ^ 64 }
    ensures at_unit { R.rules.at_unit units.new }
    ensures done { OnOk result (UnderEachSize (shape_of element.now) (λ s.
        GoesOnTo R.rules R.fields R.ahead R.is_between (shape_of element.now) s
        list.old (nodes frames.old) units.old list.new (nodes frames.new) units.new)) }
    ensures over { OnOk result (list.new.left ≡ 0) }
    ensures fragments { OnOk result (list.new.fragments ≡ list.old.fragments) }
    ensures shorter { OnOk result
        (length (R.rules.to_units units.new) ≤ length (R.rules.to_units units.old)) }
    ensures stop { IfErr result (λ why. UnderEachSize (shape_of element.now) (λ s.
        StopsElementsOn R.rules R.fields R.ahead R.is_between (shape_of element.now) s
        list.old (nodes frames.old) units.old why)) }
    ensures kept { result ≡ Err Short → UnderEachSize (shape_of element.now) (λ s.
        GoesOnTo R.rules R.fields R.ahead R.is_between (shape_of element.now) s
        list.old (nodes frames.old) units.old list.new (nodes frames.new) units.new) }
    ensures after { IfErr result (λ why. StandsAfter R.rules units.new why) }
    ensures ticked { Ticked R.rules units.old ticks.old.taken units.new ticks.new.taken }
    ensures rising { ticks.old.taken ≤ ticks.new.taken }
    ensures inside { Costs R.rules (λ n. OpenUnits R.rules R.fields R.ahead R.is_between (nodes frames.old) n)
        (λ n. result ≡ Err Short → OpenUnits R.rules R.fields R.ahead R.is_between (nodes frames.new) n)
        (sealed_depth (shape_of element.now)) ticks.old.inside units.old ticks.new.inside
        units.new }
{
    R::keep_laws();
    R::keep_feed_laws();
    while list.left > 0 {
        let value = feed_element::<R>(alloc, element, &mut list.next_part, frames, units, ticks)?;
        list.elements.push(value)?;
        list.left -= 1;
    }
    Ok(())
}

/// Reads what is left of an element: at once, where none of it has come and the piece has it whole. Where more is wanted
/// of a row of numbers, the units that have come wait in `begun`; else no node of it begins before its first unit.
#[cycle(feeder)]
fn feed_element<R: FeedLeaves>(
    alloc: Global,
    ty: &AsnType,
    begun: &mut Begun,
    frames: &mut Frames<R::Fragments>,
    units: &mut Units<'_>,
    ticks: &mut Ticks,
) -> Result<Value, Stop>
    requires at_unit { R.rules.at_unit units.old }
    requires of_profile { InProfile (shape_of ty.now) }
    requires listed { (s : SizeRange) × InProfile (sequence_of (shape_of ty.now) s) }
    requires reached { (us : List ℕ)
        × ElementTook R.rules R.fields R.ahead R.is_between begun.old (nodes frames.old) (shape_of ty.now) us }
    requires few { ticks.old.taken + length (R.rules.to_units units.old) < 2 ^ 64 }
    ensures at_unit { R.rules.at_unit units.new }
    ensures done { IfOk result (λ v. ReadsOneElementOn R.rules R.fields R.ahead R.is_between begun.old
        (nodes frames.old) (shape_of ty.now) (datum_of v) units.old units.new) }
    ensures fresh { OnOk result (begun.new ≡ []) }
    ensures emptied { OnOk result (nodes frames.new ≡ []) }
    ensures stop { IfErr result (λ why. StopsOneElementOn R.rules R.fields R.ahead R.is_between begun.old
        (nodes frames.old) (shape_of ty.now) units.old why) }
    ensures kept { IfErr result (λ why. KeepsElementOn R.rules R.fields R.ahead R.is_between begun.old
        (nodes frames.old) begun.new (nodes frames.new) (shape_of ty.now) units.old why) }
    ensures after { IfErr result (λ why. StandsAfter R.rules units.new why) }
    ensures ticked { Ticked R.rules units.old ticks.old.taken units.new ticks.new.taken }
    ensures rising { ticks.old.taken ≤ ticks.new.taken }
    ensures inside { Costs R.rules (λ n. OpenUnits R.rules R.fields R.ahead R.is_between (nodes frames.old) n)
        (λ n. result ≡ Err Short → OpenUnits R.rules R.fields R.ahead R.is_between (nodes frames.new) n)
        (sealed_depth (shape_of ty.now)) ticks.old.inside units.old ticks.new.inside
        units.new }
{
    R::keep_laws();
    R::keep_feed_laws();
    R::keep_hold_laws();
    if !begun.is_none() {
        return feed_small::<R>(alloc, ty, begun, units, ticks);
    }
    if let Some(value) = whole_value::<R>(alloc, ty, frames, units, ticks) {
        return Ok(value);
    }
    if is_to_come::<R>(frames, units) {
        return Err(Stop::Short);
    }
    if is_row(ty, frames) {
        return feed_small::<R>(alloc, ty, begun, units, ticks);
    }
    feed::<R>(alloc, ty, frames, units, ticks)
}

/// Whether no node of an element has begun, and the piece has no unit of it.
fn is_to_come<R: FeedLeaves>(frames: &Frames<R::Fragments>, units: &Units<'_>) -> bool
    requires at_unit { R.rules.at_unit units.now }
    ensures yes { IsTrue result → (nodes frames.now ≡ []) × (R.rules.to_units units.now ≡ []) }
    ensures no { (nodes frames.now ≡ []) → (R.rules.to_units units.now ≡ []) → IsTrue result }
{
    if !frames.is_none() {
        return false;
    }
    R::units_left(&units.ahead()) == 0
}

/// Reads what is left of the next length of a list, where one stands there. Whether a fragment follows it.
pub(crate) fn next_fragment<R: FeedLeaves, T: Drop>(
    alloc: Global,
    list: &mut Elements<R::Fragments, T>,
    units: &mut Units<'_>,
    ticks: &mut Ticks,
) -> Result<bool, Stop>
    requires at_unit { R.rules.at_unit units.old }
    requires between { R.is_between list.old.fragments }
    requires begun { R.rules.at_unit list.old.next_part }
    requires begins { HasBegun R.rules (NextOf (R.ahead list.old.fragments)) list.old.next_part }
    requires few { ticks.old.taken + length (R.rules.to_units units.old) < 2 ^ 64 }
    ensures at_unit { R.rules.at_unit units.new }
    ensures begun { OnErr result (R.rules.at_unit list.new.next_part) }
    ensures between { R.is_between list.new.fragments }
    ensures elements { list.new.elements ≡ list.old.elements }
    ensures more { result ≡ Ok true → Spells R.rules.ruling.fielding (NextOf (R.ahead list.old.fragments))
        (Some list.new.left, R.ahead list.new.fragments)
        (R.rules.to_units list.old.next_part ++ R.rules.to_units units.old) (R.rules.to_units units.new) }
    ensures none { result ≡ Ok false → Spells R.rules.ruling.fielding (NextOf (R.ahead list.old.fragments))
        (None, R.ahead list.new.fragments)
        (R.rules.to_units list.old.next_part ++ R.rules.to_units units.old) (R.rules.to_units units.new) }
    ensures fresh { OnOk result (list.new.next_part ≡ []) }
    ensures stop { IfErr result (λ why. Stops R.rules.ruling.fielding (NextOf (R.ahead list.old.fragments))
        (R.rules.to_units list.old.next_part ++ R.rules.to_units units.old) why) }
    ensures same { IfErr result (λ why.
        (list.new.fragments ≡ list.old.fragments) × (list.new.left ≡ list.old.left)) }
    ensures kept { IfErr result (λ why.
        KeepsUnits R.rules list.old.next_part units.old list.new.next_part why) }
    ensures after { IfErr result (λ why. StandsAfter R.rules units.new why) }
    ensures ticked { Ticked R.rules units.old ticks.old.taken units.new ticks.new.taken }
    ensures rising { ticks.old.taken ≤ ticks.new.taken }
    ensures inside { ticks.new.inside ≡ ticks.old.inside }
{
    let (count, fragments) = feed_leaf::<R, NextLength<'_, R::Fragments>>(
        alloc,
        &NextLength {
            fragments: &list.fragments,
        },
        &mut list.next_part,
        units,
        ticks,
    )?;
    list.next_part = Begun::none();
    list.fragments = fragments;
    match count {
        Some(count) => {
            list.left = count;
            Ok(true)
        }
        None => Ok(false),
    }
}
