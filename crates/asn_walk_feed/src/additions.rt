//! The reader of the extension additions of a SEQUENCE that goes on where it stopped.
//!
//! Their presence bits are a part of its own, and each addition that is present is an open type field.
ghost use Rattle.asn_values.specs.Measures.{sealed_depth, additions_sealed};
ghost use Rattle.asn_walk_feed.specs.Levels.{Costs, OpenUnits, FieldUnits};
ghost use Rattle.std.specs.Prelude.{◌≡◌, ◌≤◌, ◌<◌, ◌+◌, ◌^◌, ◌++◌, ℕ, List, [], length, IfOk, IfErr, OnOk, Err, ⊤, suc};
ghost use Rattle.std.specs.Option.{option_map};
ghost use Rattle.asn_values.specs.Profile.{InProfile};
ghost use Rattle.asn_values.specs.Shape.{more_fields, sequence};
ghost use Rattle.asn_values.specs.View.{shape_of, datum_of, fields_seen, more_fields_of, sequence_seen, entries_seen};
ghost use Rattle.asn_rules.specs.declared.stop.Stop.TheVariants.{Short};
ghost use Rattle.asn_walk.specs.Coding.{absent_entries};
ghost use Rattle.asn_walk.specs.Reading.{absent_additions};
ghost use Rattle.asn_walk_feed.specs.AddedTaken.{BitmapReached, ReadsBitmapOn, StopsBitmapOn, KeepsBitmapOn, AdditionsReached, ReadsAdditionsOn, StopsAdditionsOn, KeepsAdditionsOn, AdditionsGoOnTo, ReadsOneAdditionOn, StopsOneAdditionOn, KeepsOneAdditionOn};
ghost use Rattle.asn_walk_feed.specs.Additions.{IsSequenceOf, marked_seen, AdditionTook};
ghost use Rattle.asn_walk_feed.specs.Feeding.{Ticked, StandsAfter};
ghost use Rattle.asn_walk_feed.specs.Nodes.{nodes};
ghost use Rattle.asn_walk_feed.specs.Taken.{RootReached, ReadsRootOn, StopsRootOn, KeepsRootOn};

use crate::begun::Begun;
use crate::frame::{AdditionBits, Components, Frame, Frames};
use crate::leaf::{FeedLeaves, feed_leaf};
use crate::open_fields::feed_open_field;
use crate::parts::AdditionBitmap;
use crate::units::{Ticks, Units};
use asn_rules::internal::Stop;
use asn_values::{AsnType, Field, Value};
use asn_walk::PresenceBits;
use std::alloc::{AllocError, Global};

/// Reads what is left of the SEQUENCE `_ty`, which has this root and these additions, after its root.
#[cycle(feeder)]
pub(crate) fn end_sequence<R: FeedLeaves>(
    alloc: Global,
    _ty: &AsnType,
    root: &[Field],
    ext: &Option<Vec<Field>>,
    read: Components,
    frames: &mut Frames<R::Fragments>,
    units: &mut Units<'_>,
    ticks: &mut Ticks,
) -> Result<Value, Stop>
    requires at_unit { R.rules.at_unit units.old }
    requires of_profile { InProfile (sequence_seen root.now ext.now) }
    requires parts { IsSequenceOf _ty.now root.now ext.now }
    requires empty { nodes frames.old ≡ [] }
    requires over { length root.now ≤ length read.entries.items }
    requires reached { (all : List ℕ) × RootReached R.rules R.fields R.ahead R.is_between (fields_seen root.now)
        (more_fields_of ext.now) read (nodes frames.old) all (R.rules.to_units units.old) }
    requires few { ticks.old.taken + length (R.rules.to_units units.old) < 2 ^ 64 }
    ensures at_unit { R.rules.at_unit units.new }
    ensures done { IfOk result (λ v. ReadsRootOn R.rules R.fields R.ahead R.is_between (fields_seen root.now)
        (more_fields_of ext.now) read (nodes frames.old) (datum_of v) units.old units.new) }
    ensures emptied { OnOk result (nodes frames.new ≡ []) }
    ensures stop { IfErr result (λ why. StopsRootOn R.rules R.fields R.ahead R.is_between (fields_seen root.now)
        (more_fields_of ext.now) read (nodes frames.old) units.old why) }
    ensures kept { IfErr result (λ why. KeepsRootOn R.rules R.fields R.ahead R.is_between (fields_seen root.now)
        (more_fields_of ext.now) read (nodes frames.old) (nodes frames.new) units.old why) }
    ensures after { IfErr result (λ why. StandsAfter R.rules units.new why) }
    ensures ticked { Ticked R.rules units.old ticks.old.taken units.new ticks.new.taken }
    ensures rising { ticks.old.taken ≤ ticks.new.taken }
    ensures inside { Costs R.rules (λ n. ⊤)
        (λ n. result ≡ Err Short → OpenUnits R.rules R.fields R.ahead R.is_between (nodes frames.new) n)
        (sealed_depth (sequence_seen root.now ext.now)) ticks.old.inside units.old ticks.new.inside
        units.new }
{
    R::keep_laws();
    R::keep_feed_laws();
    let mut entries = read.entries;
    if read.extended {
        let Some(additions) = ext else { unreachable!() };
        let part = AdditionBits {
            entries,
            begun: Begun::none(),
        };
        return feed_bitmap::<R>(
            alloc,
            additions.as_slice(),
            root,
            part,
            frames,
            units,
            ticks,
        );
    }
    match push_absent(ext, &mut entries) {
        Ok(()) => Ok(Value::Seq(entries)),
        Err(_) => Err(Stop::Memory),
    }
}

/// Appends an absent entry for each extension addition.
fn push_absent(ext: &Option<Vec<Field>>, entries: &mut Vec<Option<Value>>) -> Result<(), AllocError>
    ensures { OnOk result (entries_seen entries.new.items
        ≡ entries_seen entries.old.items ++ absent_entries (more_fields (more_fields_of ext.now))) }
{
    match ext {
        None => Ok(()),
        Some(additions) => push_each(additions.as_slice(), entries),
    }
}

/// Appends an absent entry for each of the additions.
fn push_each(additions: &[Field], entries: &mut Vec<Option<Value>>) -> Result<(), AllocError>
    ensures { OnOk result
        (entries_seen entries.new.items ≡ entries_seen entries.old.items ++ absent_additions additions.now) }
{
    for _ in additions {
        entries.push(None)?;
    }
    Ok(())
}

/// Reads what is left of the presence bits of the extension additions, and then these.
#[cycle(feeder)]
pub(crate) fn feed_bitmap<R: FeedLeaves>(
    alloc: Global,
    additions: &[Field],
    root: &[Field],
    part: AdditionBits,
    frames: &mut Frames<R::Fragments>,
    units: &mut Units<'_>,
    ticks: &mut Ticks,
) -> Result<Value, Stop>
    requires at_unit { R.rules.at_unit units.old }
    requires of_profile { InProfile (sequence (fields_seen root.now) (marked_seen additions.now)) }
    requires empty { nodes frames.old ≡ [] }
    requires reached { (all : List ℕ) × BitmapReached R.rules (fields_seen root.now) (marked_seen additions.now) part
        all (R.rules.to_units units.old) }
    requires few { ticks.old.taken + length (R.rules.to_units units.old) < 2 ^ 64 }
    ensures at_unit { R.rules.at_unit units.new }
    ensures done { IfOk result (λ v. ReadsBitmapOn R.rules (fields_seen root.now) (marked_seen additions.now) part
        (datum_of v) units.old units.new) }
    ensures emptied { OnOk result (nodes frames.new ≡ []) }
    ensures stop { IfErr result (λ why. StopsBitmapOn R.rules (fields_seen root.now) (marked_seen additions.now) part
        units.old why) }
    ensures kept { IfErr result (λ why. KeepsBitmapOn R.rules R.fields R.ahead R.is_between (fields_seen root.now)
        (marked_seen additions.now) part (nodes frames.new) units.old why) }
    ensures after { IfErr result (λ why. StandsAfter R.rules units.new why) }
    ensures ticked { Ticked R.rules units.old ticks.old.taken units.new ticks.new.taken }
    ensures rising { ticks.old.taken ≤ ticks.new.taken }
    ensures inside { Costs R.rules (λ n. ⊤)
        (λ n. result ≡ Err Short → OpenUnits R.rules R.fields R.ahead R.is_between (nodes frames.new) n)
        (additions_sealed (fields_seen additions.now)) ticks.old.inside units.old ticks.new.inside
        units.new }
{
    R::keep_laws();
    R::keep_feed_laws();
    let count = additions.len() as u32;
    let entries = part.entries;
    let mut begun = part.begun;
    match feed_leaf::<R, AdditionBitmap>(
        alloc,
        &AdditionBitmap { count },
        &mut begun,
        units,
        ticks,
    ) {
        Ok(bitmap) => {
            let read = Components {
                extended: true,
                entries,
                presence: PresenceBits {
                    bitmap,
                    left: count,
                },
            };
            feed_additions::<R>(alloc, additions, root, read, frames, units, ticks)
        }
        Err(Stop::Short) => match frames.put(Frame::Bitmap(AdditionBits { entries, begun })) {
            Ok(()) => Err(Stop::Short),
            Err(_) => Err(Stop::Memory),
        },
        Err(Stop::Refused { left, why }) => Err(Stop::Refused { left, why }),
        Err(Stop::Memory) => Err(Stop::Memory),
    }
}

/// Reads what is left of the extension additions.
#[cycle(feeder)]
pub(crate) fn feed_additions<R: FeedLeaves>(
    alloc: Global,
    additions: &[Field],
    root: &[Field],
    read: Components,
    frames: &mut Frames<R::Fragments>,
    units: &mut Units<'_>,
    ticks: &mut Ticks,
) -> Result<Value, Stop>
    requires at_unit { R.rules.at_unit units.old }
    requires of_profile { InProfile (sequence (fields_seen root.now) (marked_seen additions.now)) }
    requires reached { (all : List ℕ) × AdditionsReached R.rules R.fields R.ahead R.is_between (fields_seen root.now)
        (marked_seen additions.now) read (nodes frames.old) all (R.rules.to_units units.old) }
    requires few { ticks.old.taken + length (R.rules.to_units units.old) < 2 ^ 64 }
    ensures at_unit { R.rules.at_unit units.new }
    ensures done { IfOk result (λ v. ReadsAdditionsOn R.rules R.fields R.ahead R.is_between (fields_seen root.now)
        (marked_seen additions.now) read (nodes frames.old) (datum_of v) units.old units.new) }
    ensures emptied { OnOk result (nodes frames.new ≡ []) }
    ensures stop { IfErr result (λ why. StopsAdditionsOn R.rules R.fields R.ahead R.is_between (fields_seen root.now)
        (marked_seen additions.now) read (nodes frames.old) units.old why) }
    ensures kept { IfErr result (λ why. KeepsAdditionsOn R.rules R.fields R.ahead R.is_between (fields_seen root.now)
        (marked_seen additions.now) read (nodes frames.old) (nodes frames.new) units.old why) }
    ensures after { IfErr result (λ why. StandsAfter R.rules units.new why) }
    ensures ticked { Ticked R.rules units.old ticks.old.taken units.new ticks.new.taken }
    ensures rising { ticks.old.taken ≤ ticks.new.taken }
    ensures inside { Costs R.rules (λ n. FieldUnits R.rules R.fields R.ahead R.is_between (nodes frames.old) n)
        (λ n. result ≡ Err Short → OpenUnits R.rules R.fields R.ahead R.is_between (nodes frames.new) n)
        (additions_sealed (fields_seen additions.now)) ticks.old.inside units.old ticks.new.inside
        units.new }
{
    R::keep_laws();
    R::keep_feed_laws();
    let mut read = read;
    match feed_open_fields::<R>(alloc, additions, root, &mut read, frames, units, ticks) {
        Ok(()) => Ok(Value::Seq(read.entries)),
        Err(Stop::Short) => match frames.put(Frame::Additions(read)) {
            Ok(()) => Err(Stop::Short),
            Err(_) => Err(Stop::Memory),
        },
        Err(Stop::Refused { left, why }) => Err(Stop::Refused { left, why }),
        Err(Stop::Memory) => Err(Stop::Memory),
    }
}

/// Reads what is left of the extension additions, and puts their entries after those that were read.
#[cycle(feeder)]
fn feed_open_fields<R: FeedLeaves>(
    alloc: Global,
    additions: &[Field],
    _root: &[Field],
    read: &mut Components,
    frames: &mut Frames<R::Fragments>,
    units: &mut Units<'_>,
    ticks: &mut Ticks,
) -> Result<(), Stop>
    requires at_unit { R.rules.at_unit units.old }
    requires of_profile { InProfile (sequence (fields_seen _root.now) (marked_seen additions.now)) }
    requires reached { (all : List ℕ) × AdditionsReached R.rules R.fields R.ahead R.is_between (fields_seen _root.now)
        (marked_seen additions.now) read.old (nodes frames.old) all (R.rules.to_units units.old) }
    requires few { ticks.old.taken + length (R.rules.to_units units.old) < 2 ^ 64 }
    ensures at_unit { R.rules.at_unit units.new }
    ensures done { OnOk result (AdditionsGoOnTo R.rules R.fields R.ahead R.is_between (fields_seen _root.now)
        (marked_seen additions.now) read.old (nodes frames.old) units.old read.new (nodes frames.new) units.new) }
    ensures over { OnOk result (read.new.presence.left ≡ 0) }
    ensures stop { IfErr result (λ why. StopsAdditionsOn R.rules R.fields R.ahead R.is_between (fields_seen _root.now)
        (marked_seen additions.now) read.old (nodes frames.old) units.old why) }
    ensures kept { result ≡ Err Short → AdditionsGoOnTo R.rules R.fields R.ahead R.is_between (fields_seen _root.now)
        (marked_seen additions.now) read.old (nodes frames.old) units.old read.new (nodes frames.new) units.new }
    ensures after { IfErr result (λ why. StandsAfter R.rules units.new why) }
    ensures ticked { Ticked R.rules units.old ticks.old.taken units.new ticks.new.taken }
    ensures rising { ticks.old.taken ≤ ticks.new.taken }
    ensures inside { Costs R.rules (λ n. FieldUnits R.rules R.fields R.ahead R.is_between (nodes frames.old) n)
        (λ n. result ≡ Err Short → FieldUnits R.rules R.fields R.ahead R.is_between (nodes frames.new) n)
        (additions_sealed (fields_seen additions.now)) ticks.old.inside units.old ticks.new.inside
        units.new }
{
    R::keep_laws();
    R::keep_feed_laws();
    while read.presence.left > 0 {
        let index = additions.len() - read.presence.left as usize;
        let field = &additions[index];
        let mut presence = read.presence;
        let present = presence.next();
        let entry = feed_addition::<R>(alloc, &field.ty, present, frames, units, ticks)?;
        read.entries.push(entry)?;
        read.presence = presence;
    }
    Ok(())
}

/// Reads what is left of the entry of an extension addition, of which `present` says whether it is there.
#[cycle(feeder)]
fn feed_addition<R: FeedLeaves>(
    alloc: Global,
    ty: &AsnType,
    present: bool,
    frames: &mut Frames<R::Fragments>,
    units: &mut Units<'_>,
    ticks: &mut Ticks,
) -> Result<Option<Value>, Stop>
    requires at_unit { R.rules.at_unit units.old }
    requires of_profile { InProfile (shape_of ty.now) }
    requires reached { (us : List ℕ)
        × AdditionTook R.rules R.fields R.ahead R.is_between (nodes frames.old) present us }
    requires few { ticks.old.taken + length (R.rules.to_units units.old) < 2 ^ 64 }
    ensures at_unit { R.rules.at_unit units.new }
    ensures done { IfOk result (λ e. ReadsOneAdditionOn R.rules R.fields R.ahead R.is_between (nodes frames.old)
        (shape_of ty.now) present (option_map datum_of e) units.old units.new) }
    ensures emptied { OnOk result (nodes frames.new ≡ []) }
    ensures stop { IfErr result (λ why. StopsOneAdditionOn R.rules R.fields R.ahead R.is_between (nodes frames.old)
        (shape_of ty.now) present units.old why) }
    ensures kept { IfErr result (λ why. KeepsOneAdditionOn R.rules R.fields R.ahead R.is_between (nodes frames.old)
        (nodes frames.new) present units.old why) }
    ensures after { IfErr result (λ why. StandsAfter R.rules units.new why) }
    ensures ticked { Ticked R.rules units.old ticks.old.taken units.new ticks.new.taken }
    ensures rising { ticks.old.taken ≤ ticks.new.taken }
    ensures inside { Costs R.rules (λ n. FieldUnits R.rules R.fields R.ahead R.is_between (nodes frames.old) n)
        (λ n. result ≡ Err Short → FieldUnits R.rules R.fields R.ahead R.is_between (nodes frames.new) n)
        (suc (sealed_depth (shape_of ty.now))) ticks.old.inside units.old ticks.new.inside
        units.new }
{
    if !present {
        return Ok(None);
    }
    Ok(Some(feed_open_field::<R>(alloc, ty, frames, units, ticks)?))
}
