//! The reader of SEQUENCE that goes on where it stopped.
//!
//! The preamble is a part of its own; `Components` says where a SEQUENCE stands before a component of its root, or in
//! it.
ghost use Rattle.asn_values.specs.Measures.{sealed_depth, fields_sealed};
ghost use Rattle.asn_walk_feed.specs.Levels.{Costs, OpenUnits};
ghost use Rattle.std.specs.Prelude.{◌≡◌, vec_len, ◌≤◌, ◌<◌, ◌+◌, ◌^◌, ◌++◌, ℕ, List, [], length, true, IfOk, IfErr, OnOk, IsNone, Ok, Err, Some, None, ⊤};
ghost use Rattle.std.specs.Option.{option_map};
ghost use Rattle.asn_values.specs.Parts.{IsGoodDemand};
ghost use Rattle.asn_values.specs.Profile.{InProfile, good_default};
ghost use Rattle.asn_values.specs.Shape.{MoreFields, sequence};
ghost use Rattle.asn_values.specs.View.{shape_of, datum_of, part_of_field, fields_seen, more_fields_of, sequence_seen};
ghost use Rattle.asn_rules.specs.Languages.{Spells};
ghost use Rattle.asn_rules.specs.Listed.{bitmap_length};
ghost use Rattle.asn_rules.specs.Stops.{Stops};
ghost use Rattle.asn_rules.specs.declared.stop.Stop.TheVariants.{Short};
ghost use Rattle.asn_walk.specs.Coding.{PreambleOf, added};
ghost use Rattle.asn_walk.specs.Reading.{ValuesOf, OthersOf};
ghost use Rattle.asn_walk_feed.specs.Additions.{IsSequenceOf};
ghost use Rattle.asn_walk_feed.specs.Feeding.{Waits, Ticked, StandsAfter};
ghost use Rattle.asn_walk_feed.specs.Nodes.{nodes};
ghost use Rattle.asn_walk_feed.specs.Roots.{OtherTook};
ghost use Rattle.asn_walk_feed.specs.Taken.{with_node, Took, RootReached, ComponentTook, KeepsFrames, ReadsOn, StopsOn, KeepsOn, UnderEachMark, ReadsRootOn, StopsRootOn, KeepsRootOn, RootGoesOnTo, ReadsComponentOn, StopsComponentOn, KeepsComponentOn, ReadsOtherOn, StopsOtherOn, KeepsOtherOn};

use crate::additions::{end_sequence, feed_additions, feed_bitmap};
use crate::begun::Begun;
use crate::frame::{Components, Frame, Frames};
use crate::leaf::{FeedLeaves, feed_leaf};
use crate::parts::{Other, Preambled, addition_count};
use crate::units::{Ticks, Units};
use crate::values::{begun_of, feed};
use asn_rules::internal::Stop;
use asn_values::{AsnType, Field, Need, Value};
use asn_walk::{PresenceBits, absent, bitmap_width};
use std::alloc::Global;

/// Reads what is left of a SEQUENCE without extension additions, with an extension mark or without one, of which this
/// node has begun and in it the others.
#[cycle(feeder)]
pub(crate) fn resume_sequence<R: FeedLeaves>(
    alloc: Global,
    _ty: &AsnType,
    root: &[Field],
    ext: &Option<Vec<Field>>,
    node: Option<Frame<R::Fragments>>,
    frames: &mut Frames<R::Fragments>,
    units: &mut Units<'_>,
    ticks: &mut Ticks,
) -> Result<Value, Stop>
    requires at_unit { R.rules.at_unit units.old }
    requires of_profile { InProfile (sequence_seen root.now ext.now) }
    requires parts { IsSequenceOf _ty.now root.now ext.now }
    requires short { length root.now ≤ 64 }
    requires reached { (us : List ℕ) × Took R.rules R.fields R.ahead R.is_between (with_node node (nodes frames.old))
        (sequence_seen root.now ext.now) us }
    requires last { IsNone node → nodes frames.old ≡ [] }
    requires few { ticks.old.taken + length (R.rules.to_units units.old) < 2 ^ 64 }
    ensures at_unit { R.rules.at_unit units.new }
    ensures done { IfOk result (λ v. ReadsOn R.rules R.fields R.ahead R.is_between (with_node node (nodes frames.old))
        (sequence_seen root.now ext.now) (datum_of v) units.old units.new) }
    ensures emptied { OnOk result (nodes frames.new ≡ []) }
    ensures stop { IfErr result (λ why. StopsOn R.rules R.fields R.ahead R.is_between
        (with_node node (nodes frames.old)) (sequence_seen root.now ext.now) units.old why) }
    ensures kept { IfErr result (λ why. KeepsOn R.rules R.fields R.ahead R.is_between
        (with_node node (nodes frames.old)) (nodes frames.new) (sequence_seen root.now ext.now) units.old why) }
    ensures after { IfErr result (λ why. StandsAfter R.rules units.new why) }
    ensures ticked { Ticked R.rules units.old ticks.old.taken units.new ticks.new.taken }
    ensures rising { ticks.old.taken ≤ ticks.new.taken }
    ensures inside { Costs R.rules
        (λ n. OpenUnits R.rules R.fields R.ahead R.is_between (with_node node (nodes frames.old)) n)
        (λ n. result ≡ Err Short → OpenUnits R.rules R.fields R.ahead R.is_between (nodes frames.new) n)
        (sealed_depth (sequence_seen root.now ext.now)) ticks.old.inside units.old ticks.new.inside
        units.new }
{
    R::keep_laws();
    R::keep_feed_laws();
    match node {
        Some(Frame::Components(read)) => {
            feed_sequence::<R>(alloc, _ty, root, ext, read, frames, units, ticks)
        }
        Some(Frame::Start(begun)) => {
            start_sequence::<R>(alloc, _ty, root, ext, begun, frames, units, ticks)
        }
        None => start_sequence::<R>(alloc, _ty, root, ext, Begun::none(), frames, units, ticks),
        Some(Frame::Bitmap(part)) => {
            let Some(additions) = ext else { unreachable!() };
            feed_bitmap::<R>(
                alloc,
                additions.as_slice(),
                root,
                part,
                frames,
                units,
                ticks,
            )
        }
        Some(Frame::Additions(read)) => {
            let Some(additions) = ext else { unreachable!() };
            feed_additions::<R>(
                alloc,
                additions.as_slice(),
                root,
                read,
                frames,
                units,
                ticks,
            )
        }
        Some(Frame::Elements(_list)) => unreachable!(),
        Some(Frame::Chosen(_)) => unreachable!(),
        Some(Frame::Added(_)) => unreachable!(),
        Some(Frame::Octets(_octets)) => unreachable!(),
    }
}

/// Reads what is left of the preamble, and then the components.
#[cycle(feeder)]
fn start_sequence<R: FeedLeaves>(
    alloc: Global,
    _ty: &AsnType,
    root: &[Field],
    ext: &Option<Vec<Field>>,
    begun: Begun,
    frames: &mut Frames<R::Fragments>,
    units: &mut Units<'_>,
    ticks: &mut Ticks,
) -> Result<Value, Stop>
    requires at_unit { R.rules.at_unit units.old }
    requires of_profile { InProfile (sequence_seen root.now ext.now) }
    requires parts { IsSequenceOf _ty.now root.now ext.now }
    requires short { length root.now ≤ 64 }
    requires empty { nodes frames.old ≡ [] }
    requires waits { Waits R.rules (PreambleOf R.rules (bitmap_length (fields_seen root.now))
        (added (more_fields_of ext.now))) begun (R.rules.to_units begun) }
    requires few { ticks.old.taken + length (R.rules.to_units units.old) < 2 ^ 64 }
    ensures at_unit { R.rules.at_unit units.new }
    ensures done { IfOk result (λ v. Spells R.rules.ruling.fielding
        (ValuesOf R.rules (sequence_seen root.now ext.now)) (datum_of v)
        (R.rules.to_units begun ++ R.rules.to_units units.old) (R.rules.to_units units.new)) }
    ensures emptied { OnOk result (nodes frames.new ≡ []) }
    ensures stop { IfErr result (λ why. Stops R.rules.ruling.fielding
        (ValuesOf R.rules (sequence_seen root.now ext.now))
        (R.rules.to_units begun ++ R.rules.to_units units.old) why) }
    ensures kept { IfErr result (λ why. KeepsFrames R.rules R.fields R.ahead R.is_between (nodes frames.new)
        (sequence_seen root.now ext.now) (R.rules.to_units begun ++ R.rules.to_units units.old) why) }
    ensures after { IfErr result (λ why. StandsAfter R.rules units.new why) }
    ensures ticked { Ticked R.rules units.old ticks.old.taken units.new ticks.new.taken }
    ensures rising { ticks.old.taken ≤ ticks.new.taken }
    ensures inside { Costs R.rules (λ n. ⊤)
        (λ n. result ≡ Err Short → OpenUnits R.rules R.fields R.ahead R.is_between (nodes frames.new) n)
        (sealed_depth (sequence_seen root.now ext.now)) ticks.old.inside units.old ticks.new.inside
        units.new }
{
    R::keep_laws();
    R::keep_feed_laws();
    let mut begun = begun;
    let width = bitmap_width(root);
    let preamble = Preambled {
        count: width,
        additions: addition_count(ext),
    };
    match feed_leaf::<R, Preambled>(alloc, &preamble, &mut begun, units, ticks) {
        Ok(told) => {
            let read = Components {
                extended: told.extended,
                entries: Vec::new(alloc),
                presence: PresenceBits {
                    bitmap: told.bitmap,
                    left: width,
                },
            };
            feed_sequence::<R>(alloc, _ty, root, ext, read, frames, units, ticks)
        }
        Err(Stop::Short) => match frames.put(Frame::Start(begun)) {
            Ok(()) => Err(Stop::Short),
            Err(_) => Err(Stop::Memory),
        },
        Err(Stop::Refused { left, why }) => Err(Stop::Refused { left, why }),
        Err(Stop::Memory) => Err(Stop::Memory),
    }
}

/// Reads what is left of the components of a SEQUENCE.
#[cycle(feeder)]
fn feed_sequence<R: FeedLeaves>(
    alloc: Global,
    _ty: &AsnType,
    root: &[Field],
    ext: &Option<Vec<Field>>,
    read: Components,
    frames: &mut Frames<R::Fragments>,
    units: &mut Units<'_>,
    ticks: &mut Ticks,
) -> Result<Value, Stop>
    requires at_unit { R.rules.at_unit units.old }
    requires of_profile { InProfile (sequence_seen root.now ext.now) }
    requires parts { IsSequenceOf _ty.now root.now ext.now }
    requires reached { (all : List ℕ) × RootReached R.rules R.fields R.ahead R.is_between (fields_seen root.now)
        (more_fields_of ext.now) read (nodes frames.old) all (R.rules.to_units units.old) }
    requires few { ticks.old.taken + length (R.rules.to_units units.old) < 2 ^ 64 }
    ensures at_unit { R.rules.at_unit units.new }
    ensures done { IfOk result (λ v. ReadsRootOn R.rules R.fields R.ahead R.is_between (fields_seen root.now)
        (more_fields_of ext.now) read (nodes frames.old) (datum_of v) units.old units.new) }
    ensures emptied { OnOk result (nodes frames.new ≡ []) }
    ensures stop { IfErr result (λ why. StopsRootOn R.rules R.fields R.ahead R.is_between (fields_seen root.now)
        (more_fields_of ext.now) read (nodes frames.old) units.old why) }
    ensures kept { IfErr result (λ why. KeepsRootOn R.rules R.fields R.ahead R.is_between (fields_seen root.now)
        (more_fields_of ext.now) read (nodes frames.old) (nodes frames.new) units.old why) }
    ensures after { IfErr result (λ why. StandsAfter R.rules units.new why) }
    ensures ticked { Ticked R.rules units.old ticks.old.taken units.new ticks.new.taken }
    ensures rising { ticks.old.taken ≤ ticks.new.taken }
    ensures inside { Costs R.rules (λ n. OpenUnits R.rules R.fields R.ahead R.is_between (nodes frames.old) n)
        (λ n. result ≡ Err Short → OpenUnits R.rules R.fields R.ahead R.is_between (nodes frames.new) n)
        (sealed_depth (sequence_seen root.now ext.now)) ticks.old.inside units.old ticks.new.inside
        units.new }
{
    R::keep_laws();
    let mut read = read;
    match feed_components::<R>(alloc, root, &mut read, frames, units, ticks) {
        Ok(()) => end_sequence::<R>(alloc, _ty, root, ext, read, frames, units, ticks),
        Err(Stop::Short) => match frames.put(Frame::Components(read)) {
            Ok(()) => Err(Stop::Short),
            Err(_) => Err(Stop::Memory),
        },
        Err(Stop::Refused { left, why }) => Err(Stop::Refused { left, why }),
        Err(Stop::Memory) => Err(Stop::Memory),
    }
}

/// Reads what is left of the components of a root, and puts their entries after those that were read.
#[cycle(feeder)]
fn feed_components<R: FeedLeaves>(
    alloc: Global,
    root: &[Field],
    read: &mut Components,
    frames: &mut Frames<R::Fragments>,
    units: &mut Units<'_>,
    ticks: &mut Ticks,
) -> Result<(), Stop>
    requires at_unit { R.rules.at_unit units.old }
    requires reached { (more : MoreFields) × InProfile (sequence (fields_seen root.now) more) ×
        (all : List ℕ) × RootReached R.rules R.fields R.ahead R.is_between (fields_seen root.now) more read.old
        (nodes frames.old) all (R.rules.to_units units.old) }
    requires few { ticks.old.taken + length (R.rules.to_units units.old) < 2 ^ 64 }
    ensures at_unit { R.rules.at_unit units.new }
    ensures done { OnOk result (UnderEachMark (fields_seen root.now) (λ more.
        RootGoesOnTo R.rules R.fields R.ahead R.is_between (fields_seen root.now) more
        read.old (nodes frames.old) units.old read.new (nodes frames.new) units.new)) }
    ensures over { OnOk result (length root.now ≤ length read.new.entries.items) }
    ensures stop { IfErr result (λ why. UnderEachMark (fields_seen root.now) (λ more.
        StopsRootOn R.rules R.fields R.ahead R.is_between (fields_seen root.now) more
        read.old (nodes frames.old) units.old why)) }
    ensures kept { result ≡ Err Short → UnderEachMark (fields_seen root.now) (λ more.
        RootGoesOnTo R.rules R.fields R.ahead R.is_between (fields_seen root.now) more
        read.old (nodes frames.old) units.old read.new (nodes frames.new) units.new) }
    ensures after { IfErr result (λ why. StandsAfter R.rules units.new why) }
    ensures ticked { Ticked R.rules units.old ticks.old.taken units.new ticks.new.taken }
    ensures rising { ticks.old.taken ≤ ticks.new.taken }
    ensures inside { Costs R.rules (λ n. OpenUnits R.rules R.fields R.ahead R.is_between (nodes frames.old) n)
        (λ n. result ≡ Err Short → OpenUnits R.rules R.fields R.ahead R.is_between (nodes frames.new) n)
        (fields_sealed (fields_seen root.now)) ticks.old.inside units.old ticks.new.inside
        units.new }
{
    R::keep_laws();
    while read.entries.len() < root.len() {
        let field = &root[read.entries.len()];
        let mut presence = read.presence;
        let present = presence.next_of(field);
        let entry = feed_component::<R>(alloc, field, present, frames, units, ticks)?;
        read.entries.push(entry)?;
        read.presence = presence;
    }
    Ok(())
}

/// Reads what is left of the entry of a component, of which `present` says whether it is there. One with a DEFAULT that
/// is absent has that value.
#[cycle(feeder)]
fn feed_component<R: FeedLeaves>(
    alloc: Global,
    field: &Field,
    present: bool,
    frames: &mut Frames<R::Fragments>,
    units: &mut Units<'_>,
    ticks: &mut Ticks,
) -> Result<Option<Value>, Stop>
    requires at_unit { R.rules.at_unit units.old }
    requires of_profile { InProfile (part_of_field field.now).shape }
    requires good { IsGoodDemand (part_of_field field.now).demand (part_of_field field.now).shape }
    requires reached { (us : List ℕ) × ComponentTook R.rules R.fields R.ahead R.is_between (nodes frames.old)
        (part_of_field field.now) present us }
    requires few { ticks.old.taken + length (R.rules.to_units units.old) < 2 ^ 64 }
    ensures at_unit { R.rules.at_unit units.new }
    ensures done { IfOk result (λ e. ReadsComponentOn R.rules R.fields R.ahead R.is_between (nodes frames.old)
        (part_of_field field.now) present (option_map datum_of e) units.old units.new) }
    ensures emptied { OnOk result (nodes frames.new ≡ []) }
    ensures stop { IfErr result (λ why. StopsComponentOn R.rules R.fields R.ahead R.is_between (nodes frames.old)
        (part_of_field field.now) present units.old why) }
    ensures kept { IfErr result (λ why. KeepsComponentOn R.rules R.fields R.ahead R.is_between (nodes frames.old)
        (nodes frames.new) (part_of_field field.now) present units.old why) }
    ensures after { IfErr result (λ why. StandsAfter R.rules units.new why) }
    ensures ticked { Ticked R.rules units.old ticks.old.taken units.new ticks.new.taken }
    ensures rising { ticks.old.taken ≤ ticks.new.taken }
    ensures inside { Costs R.rules (λ n. OpenUnits R.rules R.fields R.ahead R.is_between (nodes frames.old) n)
        (λ n. result ≡ Err Short → OpenUnits R.rules R.fields R.ahead R.is_between (nodes frames.new) n)
        (sealed_depth (shape_of field.now.ty)) ticks.old.inside units.old ticks.new.inside
        units.new }
{
    if !present {
        return Ok(absent(field));
    }
    match &field.need {
        Need::Default(default) => Ok(Some(feed_other::<R>(
            alloc, &field.ty, default, frames, units, ticks,
        )?)),
        Need::Must | Need::Optional => {
            Ok(Some(feed::<R>(alloc, &field.ty, frames, units, ticks)?))
        }
    }
}

/// Reads what is left of a value of the type of a component with this DEFAULT, which is refused.
fn feed_other<R: FeedLeaves>(
    alloc: Global,
    ty: &AsnType,
    default: &Value,
    frames: &mut Frames<R::Fragments>,
    units: &mut Units<'_>,
    ticks: &mut Ticks,
) -> Result<Value, Stop>
    requires at_unit { R.rules.at_unit units.old }
    requires of_profile { InProfile (shape_of ty.now) }
    requires good { good_default (shape_of ty.now) (datum_of default.now) ≡ true }
    requires reached { (us : List ℕ) × OtherTook R.rules (nodes frames.old) (datum_of default.now)
        (shape_of ty.now) us }
    requires few { ticks.old.taken + length (R.rules.to_units units.old) < 2 ^ 64 }
    ensures at_unit { R.rules.at_unit units.new }
    ensures done { IfOk result (λ v. ReadsOtherOn R.rules (nodes frames.old) (datum_of default.now)
        (shape_of ty.now) (datum_of v) units.old units.new) }
    ensures emptied { OnOk result (nodes frames.new ≡ []) }
    ensures stop { IfErr result (λ why.
        StopsOtherOn R.rules (nodes frames.old) (datum_of default.now) (shape_of ty.now) units.old why) }
    ensures kept { IfErr result (λ why. KeepsOtherOn R.rules (nodes frames.old) (nodes frames.new)
        (datum_of default.now) (shape_of ty.now) units.old why) }
    ensures after { IfErr result (λ why. StandsAfter R.rules units.new why) }
    ensures ticked { Ticked R.rules units.old ticks.old.taken units.new ticks.new.taken }
    ensures rising { ticks.old.taken ≤ ticks.new.taken }
    ensures inside { Costs R.rules (λ n. ⊤)
        (λ n. result ≡ Err Short → OpenUnits R.rules R.fields R.ahead R.is_between (nodes frames.new) n)
        0 ticks.old.inside units.old ticks.new.inside
        units.new }
{
    R::keep_feed_laws();
    let node = frames.take();
    let mut begun = begun_of(node);
    match feed_leaf::<R, Other<'_>>(alloc, &Other { ty, default }, &mut begun, units, ticks) {
        Ok(value) => Ok(value),
        Err(Stop::Short) => match frames.put(Frame::Start(begun)) {
            Ok(()) => Err(Stop::Short),
            Err(_) => Err(Stop::Memory),
        },
        Err(Stop::Refused { left, why }) => Err(Stop::Refused { left, why }),
        Err(Stop::Memory) => Err(Stop::Memory),
    }
}
