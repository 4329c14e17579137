//! The reader of CHOICE that goes on where it stopped.
//!
//! What tells the alternative is a part of its own; what is kept after it is the index of the alternative. The value of
//! an extension addition stands in an open type field.
ghost use Rattle.asn_rules.specs.declared.stop.Stop.TheVariants.{Short};
ghost use Rattle.asn_values.specs.Measures.{sealed_depth, choice_sealed};
ghost use Rattle.asn_walk_feed.specs.Levels.{Costs, OpenUnits, FieldUnits};
ghost use Rattle.std.specs.Prelude.{◌≡◌, ◌≤◌, ◌<◌, ◌+◌, ◌^◌, ◌++◌, ℕ, List, [], length, IfOk, IfErr, OnOk, IsNone, Err, ⊤};
ghost use Rattle.asn_values.specs.Profile.{InProfile};
ghost use Rattle.asn_values.specs.Shape.{MoreAlternatives, choice};
ghost use Rattle.asn_values.specs.View.{datum_of, alternatives_seen, more_alternatives_of, choice_seen};
ghost use Rattle.asn_rules.specs.Languages.{Spells};
ghost use Rattle.asn_rules.specs.Stops.{Stops};
ghost use Rattle.asn_walk.specs.Coding.{IndexOf, added_alternatives};
ghost use Rattle.asn_walk.specs.Reading.{ValuesOf};
ghost use Rattle.asn_walk_feed.specs.Chosen.{IsChoiceOf};
ghost use Rattle.asn_walk_feed.specs.Feeding.{Waits, Ticked, StandsAfter};
ghost use Rattle.asn_walk_feed.specs.Nodes.{nodes};
ghost use Rattle.asn_walk_feed.specs.Taken.{with_node, Took, ChoiceReached, AdditionReached, KeepsFrames, ReadsOn, StopsOn, KeepsOn, UnderEachChoice, ReadsChoiceOn, StopsChoiceOn, KeepsChoiceOn, ReadsAdditionOn, StopsAdditionOn, KeepsAdditionOn};

use crate::begun::Begun;
use crate::frame::{Frame, Frames};
use crate::leaf::{FeedLeaves, feed_leaf};
use crate::open_fields::feed_open_field;
use crate::parts::{Indexed, addition_count};
use crate::units::{Ticks, Units};
use crate::values::feed;
use asn_rules::internal::Stop;
use asn_values::{Alt, AsnType, Value};
use asn_walk::Index;
use std::alloc::Global;

/// Reads what is left of a CHOICE, of which this node has begun and in it the others.
#[cycle(feeder)]
pub(crate) fn resume_choice<R: FeedLeaves>(
    alloc: Global,
    _ty: &AsnType,
    root: &[Alt],
    ext: &Option<Vec<Alt>>,
    node: Option<Frame<R::Fragments>>,
    frames: &mut Frames<R::Fragments>,
    units: &mut Units<'_>,
    ticks: &mut Ticks,
) -> Result<Value, Stop>
    requires at_unit { R.rules.at_unit units.old }
    requires of_profile { InProfile (choice_seen root.now ext.now) }
    requires parts { IsChoiceOf _ty.now root.now ext.now }
    requires some { 0 < length root.now }
    requires reached { (us : List ℕ) × Took R.rules R.fields R.ahead R.is_between (with_node node (nodes frames.old))
        (choice_seen root.now ext.now) us }
    requires last { IsNone node → nodes frames.old ≡ [] }
    requires few { ticks.old.taken + length (R.rules.to_units units.old) < 2 ^ 64 }
    ensures at_unit { R.rules.at_unit units.new }
    ensures done { IfOk result (λ v. ReadsOn R.rules R.fields R.ahead R.is_between (with_node node (nodes frames.old))
        (choice_seen root.now ext.now) (datum_of v) units.old units.new) }
    ensures emptied { OnOk result (nodes frames.new ≡ []) }
    ensures stop { IfErr result (λ why. StopsOn R.rules R.fields R.ahead R.is_between
        (with_node node (nodes frames.old)) (choice_seen root.now ext.now) units.old why) }
    ensures kept { IfErr result (λ why. KeepsOn R.rules R.fields R.ahead R.is_between
        (with_node node (nodes frames.old)) (nodes frames.new) (choice_seen root.now ext.now) units.old why) }
    ensures after { IfErr result (λ why. StandsAfter R.rules units.new why) }
    ensures ticked { Ticked R.rules units.old ticks.old.taken units.new ticks.new.taken }
    ensures rising { ticks.old.taken ≤ ticks.new.taken }
    ensures inside { Costs R.rules
        (λ n. OpenUnits R.rules R.fields R.ahead R.is_between (with_node node (nodes frames.old)) n)
        (λ n. result ≡ Err Short → OpenUnits R.rules R.fields R.ahead R.is_between (nodes frames.new) n)
        (sealed_depth (choice_seen root.now ext.now)) ticks.old.inside units.old ticks.new.inside
        units.new }
{
    R::keep_laws();
    R::keep_feed_laws();
    match node {
        Some(Frame::Chosen(index)) => feed_choice::<R>(alloc, root, index, frames, units, ticks),
        Some(Frame::Added(index)) => feed_added::<R>(
            alloc, _ty, root, ext, index, frames, units, ticks,
        ),
        Some(Frame::Start(begun)) => start_choice::<R>(
            alloc, _ty, root, ext, begun, frames, units, ticks,
        ),
        None => start_choice::<R>(alloc, _ty, root, ext, Begun::none(), frames, units, ticks),
        Some(Frame::Elements(_list)) => unreachable!(),
        Some(Frame::Components(_read)) => unreachable!(),
        Some(Frame::Bitmap(_part)) => unreachable!(),
        Some(Frame::Additions(_read)) => unreachable!(),
        Some(Frame::Octets(_octets)) => unreachable!(),
    }
}

/// Reads what is left of what tells the alternative, and then its value.
#[cycle(feeder)]
fn start_choice<R: FeedLeaves>(
    alloc: Global,
    _ty: &AsnType,
    root: &[Alt],
    ext: &Option<Vec<Alt>>,
    begun: Begun,
    frames: &mut Frames<R::Fragments>,
    units: &mut Units<'_>,
    ticks: &mut Ticks,
) -> Result<Value, Stop>
    requires at_unit { R.rules.at_unit units.old }
    requires of_profile { InProfile (choice_seen root.now ext.now) }
    requires parts { IsChoiceOf _ty.now root.now ext.now }
    requires some { 0 < length root.now }
    requires empty { nodes frames.old ≡ [] }
    requires waits { Waits R.rules (IndexOf R.rules (length root.now)
        (added_alternatives (more_alternatives_of ext.now))) begun (R.rules.to_units begun) }
    requires few { ticks.old.taken + length (R.rules.to_units units.old) < 2 ^ 64 }
    ensures at_unit { R.rules.at_unit units.new }
    ensures done { IfOk result (λ v. Spells R.rules.ruling.fielding
        (ValuesOf R.rules (choice_seen root.now ext.now)) (datum_of v)
        (R.rules.to_units begun ++ R.rules.to_units units.old) (R.rules.to_units units.new)) }
    ensures emptied { OnOk result (nodes frames.new ≡ []) }
    ensures stop { IfErr result (λ why. Stops R.rules.ruling.fielding
        (ValuesOf R.rules (choice_seen root.now ext.now))
        (R.rules.to_units begun ++ R.rules.to_units units.old) why) }
    ensures kept { IfErr result (λ why. KeepsFrames R.rules R.fields R.ahead R.is_between (nodes frames.new)
        (choice_seen root.now ext.now)
        (R.rules.to_units begun ++ R.rules.to_units units.old) why) }
    ensures after { IfErr result (λ why. StandsAfter R.rules units.new why) }
    ensures ticked { Ticked R.rules units.old ticks.old.taken units.new ticks.new.taken }
    ensures rising { ticks.old.taken ≤ ticks.new.taken }
    ensures inside { Costs R.rules (λ n. ⊤)
        (λ n. result ≡ Err Short → OpenUnits R.rules R.fields R.ahead R.is_between (nodes frames.new) n)
        (sealed_depth (choice_seen root.now ext.now)) ticks.old.inside units.old ticks.new.inside
        units.new }
{
    R::keep_laws();
    let mut begun = begun;
    let indexed = Indexed {
        root: root.len(),
        additions: addition_count(ext),
    };
    match feed_leaf::<R, Indexed>(alloc, &indexed, &mut begun, units, ticks) {
        Ok(Index::Root(index)) => feed_choice::<R>(alloc, root, index, frames, units, ticks),
        Ok(Index::Added(index)) => feed_added::<R>(
            alloc, _ty, root, ext, index, frames, units, ticks,
        ),
        Err(Stop::Short) => match frames.put(Frame::Start(begun)) {
            Ok(()) => Err(Stop::Short),
            Err(_) => Err(Stop::Memory),
        },
        Err(Stop::Refused { left, why }) => Err(Stop::Refused { left, why }),
        Err(Stop::Memory) => Err(Stop::Memory),
    }
}

/// Reads what is left of a value of the alternative with this index.
#[cycle(feeder)]
fn feed_choice<R: FeedLeaves>(
    alloc: Global,
    root: &[Alt],
    index: usize,
    frames: &mut Frames<R::Fragments>,
    units: &mut Units<'_>,
    ticks: &mut Ticks,
) -> Result<Value, Stop>
    requires at_unit { R.rules.at_unit units.old }
    requires inside { index < length root.now }
    requires reached { (more : MoreAlternatives) × InProfile (choice (alternatives_seen root.now) more) ×
        (all : List ℕ) × ChoiceReached R.rules R.fields R.ahead R.is_between (alternatives_seen root.now) more index
        (nodes frames.old) all (R.rules.to_units units.old) }
    requires few { ticks.old.taken + length (R.rules.to_units units.old) < 2 ^ 64 }
    ensures at_unit { R.rules.at_unit units.new }
    ensures done { IfOk result (λ v. UnderEachChoice (alternatives_seen root.now) (λ more.
        ReadsChoiceOn R.rules R.fields R.ahead R.is_between (alternatives_seen root.now) more index (nodes frames.old)
        (datum_of v) units.old units.new)) }
    ensures emptied { OnOk result (nodes frames.new ≡ []) }
    ensures stop { IfErr result (λ why. UnderEachChoice (alternatives_seen root.now) (λ more.
        StopsChoiceOn R.rules R.fields R.ahead R.is_between (alternatives_seen root.now) more index (nodes frames.old)
        units.old why)) }
    ensures kept { IfErr result (λ why. UnderEachChoice (alternatives_seen root.now) (λ more.
        KeepsChoiceOn R.rules R.fields R.ahead R.is_between (alternatives_seen root.now) more index (nodes frames.old)
        (nodes frames.new) units.old why)) }
    ensures after { IfErr result (λ why. StandsAfter R.rules units.new why) }
    ensures ticked { Ticked R.rules units.old ticks.old.taken units.new ticks.new.taken }
    ensures rising { ticks.old.taken ≤ ticks.new.taken }
    ensures inside { Costs R.rules (λ n. OpenUnits R.rules R.fields R.ahead R.is_between (nodes frames.old) n)
        (λ n. result ≡ Err Short → OpenUnits R.rules R.fields R.ahead R.is_between (nodes frames.new) n)
        (choice_sealed (alternatives_seen root.now)) ticks.old.inside units.old ticks.new.inside
        units.new }
{
    R::keep_laws();
    let alternative = &root[index];
    match feed::<R>(alloc, &alternative.ty, frames, units, ticks) {
        Ok(value) => match Box::new(alloc, value) {
            Ok(value) => Ok(Value::Choice(index as u32, value)),
            Err(_) => Err(Stop::Memory),
        },
        Err(Stop::Short) => match frames.put(Frame::Chosen(index)) {
            Ok(()) => Err(Stop::Short),
            Err(_) => Err(Stop::Memory),
        },
        Err(Stop::Refused { left, why }) => Err(Stop::Refused { left, why }),
        Err(Stop::Memory) => Err(Stop::Memory),
    }
}

/// Reads what is left of the open type field of the extension addition with this index.
#[cycle(feeder)]
fn feed_added<R: FeedLeaves>(
    alloc: Global,
    _ty: &AsnType,
    root: &[Alt],
    ext: &Option<Vec<Alt>>,
    index: usize,
    frames: &mut Frames<R::Fragments>,
    units: &mut Units<'_>,
    ticks: &mut Ticks,
) -> Result<Value, Stop>
    requires at_unit { R.rules.at_unit units.old }
    requires of_profile { InProfile (choice_seen root.now ext.now) }
    requires parts { IsChoiceOf _ty.now root.now ext.now }
    requires reached { (all : List ℕ) × AdditionReached R.rules R.fields R.ahead R.is_between
        (alternatives_seen root.now) (more_alternatives_of ext.now) index (nodes frames.old) all
        (R.rules.to_units units.old) }
    requires few { ticks.old.taken + length (R.rules.to_units units.old) < 2 ^ 64 }
    ensures at_unit { R.rules.at_unit units.new }
    ensures done { IfOk result (λ v. ReadsAdditionOn R.rules R.fields R.ahead R.is_between
        (alternatives_seen root.now) (more_alternatives_of ext.now) index (nodes frames.old) (datum_of v)
        units.old units.new) }
    ensures emptied { OnOk result (nodes frames.new ≡ []) }
    ensures stop { IfErr result (λ why. StopsAdditionOn R.rules R.fields R.ahead R.is_between
        (alternatives_seen root.now) (more_alternatives_of ext.now) index (nodes frames.old) units.old why) }
    ensures kept { IfErr result (λ why. KeepsAdditionOn R.rules R.fields R.ahead R.is_between
        (alternatives_seen root.now) (more_alternatives_of ext.now) index (nodes frames.old) (nodes frames.new)
        units.old why) }
    ensures after { IfErr result (λ why. StandsAfter R.rules units.new why) }
    ensures ticked { Ticked R.rules units.old ticks.old.taken units.new ticks.new.taken }
    ensures rising { ticks.old.taken ≤ ticks.new.taken }
    ensures inside { Costs R.rules (λ n. FieldUnits R.rules R.fields R.ahead R.is_between (nodes frames.old) n)
        (λ n. result ≡ Err Short → OpenUnits R.rules R.fields R.ahead R.is_between (nodes frames.new) n)
        (sealed_depth (choice_seen root.now ext.now)) ticks.old.inside units.old ticks.new.inside
        units.new }
{
    R::keep_laws();
    let Some(additions) = ext else { unreachable!() };
    let additions = additions.as_slice();
    let alternative = &additions[index];
    match feed_open_field::<R>(alloc, &alternative.ty, frames, units, ticks) {
        Ok(value) => match Box::new(alloc, value) {
            Ok(value) => Ok(Value::Choice((root.len() + index) as u32, value)),
            Err(_) => Err(Stop::Memory),
        },
        Err(Stop::Short) => match frames.put(Frame::Added(index)) {
            Ok(()) => Err(Stop::Short),
            Err(_) => Err(Stop::Memory),
        },
        Err(Stop::Refused { left, why }) => Err(Stop::Refused { left, why }),
        Err(Stop::Memory) => Err(Stop::Memory),
    }
}
