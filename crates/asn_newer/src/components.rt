//! The components of a SEQUENCE in messages of newer and older senders: those of the root, and the extension additions.
ghost use Rattle.std.specs.Prelude.{◌≡◌, ◌≤◌, ◌<◌, ◌+◌, ◌++◌, ℕ, [], true, false, Some, IfOk, IfErr, IfSome, IsSome, IsNone, OnOk, length, vec_len, vec_capacity};
ghost use Rattle.std.specs.Option.{option_map};
ghost use Rattle.asn_values.specs.Datum.{number};
ghost use Rattle.asn_values.specs.Profile.{InProfile};
ghost use Rattle.asn_values.specs.Parts.{AreOfProfile, IsGoodDemand};
ghost use Rattle.asn_values.specs.View.{datum_of, part_of_field, fields_seen, entries_seen};
ghost use Rattle.asn_bits.specs.Numbers.{bits};
ghost use Rattle.asn_rules.specs.Components.{has_presence_bit};
ghost use Rattle.asn_rules.specs.Listed.{bitmap_length};
ghost use Rattle.asn_walk.specs.Coding.{absent_entries};
ghost use Rattle.asn_walk.specs.Integers.{IsOfProfile};
ghost use Rattle.asn_walk.specs.Reading.{Reads};
ghost use Rattle.asn_newer.specs.Bitmaps.{bits_left};
ghost use Rattle.asn_newer.specs.Halting.{HaltsAt};
ghost use Rattle.asn_newer.specs.Loose.{LooseEach, LooseOpen};
ghost use Rattle.asn_newer.specs.Reading.{skipped_at_seen};
ghost use Rattle.asn_newer.specs.Walking.{loose_by, LooseAdditions, LooseEntry, ReadingAfter, EntriesAfter};

use crate::bitmaps::read_any_bitmap;
use crate::halt::Halt;
use crate::leaves::ReadVersions;
use crate::path::{PathStep, SkippedAt};
use crate::presence::next_present;
use crate::reader::{read_known, read_part};
use crate::skipping::skip_fields;
use asn_bits::BitCursor;
use asn_values::{AsnType, Field, Need, Value};
use asn_walk::{PresenceBits, absent, has_presence_bit};
use asn_walk_read::try_integer;
use std::alloc::{AllocError, Global};

/// Reads the components of a root that the presence bits tell, in order, and appends their entries.
#[cycle(newer)]
pub(crate) fn read_components<R: ReadVersions>(
    alloc: Global,
    fields: &[Field],
    presence: PresenceBits,
    entries: &mut Vec<Option<Value>>,
    skipped: &mut Vec<SkippedAt>,
    units: &mut BitCursor<'_>,
) -> Result<(), Halt>
    requires at_unit { R.rules.at_unit units.old }
    requires of_profile { AreOfProfile (fields_seen fields.now) }
    requires width { presence.left ≡ bitmap_length (fields_seen fields.now) }
    requires few { presence.left ≤ 64 }
    requires capacity { vec_len entries.old + length fields.now ≤ vec_capacity entries.old }
    ensures at_unit { OnOk result (R.rules.at_unit units.new) }
    ensures done { OnOk result (Reads R.rules
        (EntriesAfter (entries_seen entries.old.items) (skipped_at_seen skipped.old.items)
        (LooseEach (loose_by R.rules R.loose) 0 (fields_seen fields.now) (bits_left presence)))
        (entries_seen entries.new.items, skipped_at_seen skipped.new.items) units.old units.new) }
    ensures stop { IfErr result (λ why. HaltsAt R.rules
        (LooseEach (loose_by R.rules R.loose) 0 (fields_seen fields.now) (bits_left presence)) units.old why) }
{
    R::keep_walk_laws();
    let mut presence = presence;
    for (index, field) in fields.iter().enumerate() {
        if let Some(number) = try_bounded::<R>(field, units) {
            entries.push_reserved(Some(Value::Int(number)));
            continue;
        }
        let present = presence.next_of(field);
        let entry = read_entry::<R>(alloc, field, index, present, skipped, units)?;
        entries.push_reserved(entry);
    }
    Ok(())
}

/// Fast path: the INTEGER of a component that is always present and has two bounds and no extension mark, where its
/// units are at hand and it lies between them; otherwise takes nothing.
#[inline(always)]
fn try_bounded<R: ReadVersions>(field: &Field, units: &mut BitCursor<'_>) -> Option<i128>
    requires at_unit { R.rules.at_unit units.old }
    requires of_profile { InProfile (part_of_field field.now).shape }
    ensures at_unit { R.rules.at_unit units.new }
    ensures must { IsSome result → has_presence_bit (part_of_field field.now).demand ≡ false }
    ensures some { IfSome result (λ z. (i : ℕ) → Reads R.rules
        (LooseEntry (loose_by R.rules R.loose) i (part_of_field field.now).demand (part_of_field field.now).shape true)
        (Some (number z), []) units.old units.new) }
    ensures of_integers { IfSome result IsOfProfile }
    ensures none { IsNone result → units.new ≡ units.old }
{
    if has_presence_bit(field) {
        return None;
    }
    match &field.ty {
        AsnType::Int(_) => try_integer::<R>(&field.ty, units),
        _ => None,
    }
}

/// Reads the entry of the component with this index in the root, of which `present` says whether it is there.
#[inline(always)]
#[cycle(newer)]
fn read_entry<R: ReadVersions>(
    alloc: Global,
    field: &Field,
    index: usize,
    present: bool,
    skipped: &mut Vec<SkippedAt>,
    units: &mut BitCursor<'_>,
) -> Result<Option<Value>, Halt>
    requires at_unit { R.rules.at_unit units.old }
    requires of_profile { InProfile (part_of_field field.now).shape }
    requires good { IsGoodDemand (part_of_field field.now).demand (part_of_field field.now).shape }
    ensures at_unit { OnOk result (R.rules.at_unit units.new) }
    ensures done { IfOk result (λ e. Reads R.rules (ReadingAfter (skipped_at_seen skipped.old.items)
        (LooseEntry (loose_by R.rules R.loose) index
        (part_of_field field.now).demand (part_of_field field.now).shape present))
        (option_map datum_of e, skipped_at_seen skipped.new.items) units.old units.new) }
    ensures stop { IfErr result (λ why. HaltsAt R.rules
        (LooseEntry (loose_by R.rules R.loose) index (part_of_field field.now).demand (part_of_field field.now).shape
        present) units.old why) }
{
    R::keep_laws();
    if !present {
        return Ok(absent(field));
    }
    match &field.need {
        Need::Default(default) => Ok(Some(R::read_other(&field.ty, default, units)?)),
        Need::Must | Need::Optional => {
            let step = PathStep::Component(index);
            Ok(Some(read_part::<R>(alloc, &field.ty, step, skipped, units)?))
        }
    }
}

/// Reads the extension additions of a SEQUENCE of which one at least is present, appends the entries of those that the
/// type has, and skips the others.
#[cycle(newer)]
pub(crate) fn read_additions<R: ReadVersions>(
    alloc: Global,
    fields: &[Field],
    entries: &mut Vec<Option<Value>>,
    skipped: &mut Vec<SkippedAt>,
    units: &mut BitCursor<'_>,
) -> Result<(), Halt>
    requires at_unit { R.rules.at_unit units.old }
    requires of_profile { AreOfProfile (fields_seen fields.now) }
    requires few { length fields.now ≤ 64 }
    ensures at_unit { OnOk result (R.rules.at_unit units.new) }
    ensures done { OnOk result (Reads R.rules
        (EntriesAfter (entries_seen entries.old.items) (skipped_at_seen skipped.old.items)
        (LooseAdditions (loose_by R.rules R.loose) (fields_seen fields.now)))
        (entries_seen entries.new.items, skipped_at_seen skipped.new.items) units.old units.new) }
    ensures stop { IfErr result (λ why. HaltsAt R.rules
        (LooseAdditions (loose_by R.rules R.loose) (fields_seen fields.now)) units.old why) }
{
    R::keep_walk_laws();
    let presence = read_any_bitmap::<R>(fields.len() as u32, units)?;
    read_open_fields::<R>(alloc, fields, presence, entries, skipped, units)
}

/// Reads the extension additions that the presence bits tell, each an open type field.
#[cycle(newer)]
fn read_open_fields<R: ReadVersions>(
    alloc: Global,
    fields: &[Field],
    presence: PresenceBits,
    entries: &mut Vec<Option<Value>>,
    skipped: &mut Vec<SkippedAt>,
    units: &mut BitCursor<'_>,
) -> Result<(), Halt>
    requires at_unit { R.rules.at_unit units.old }
    requires of_profile { AreOfProfile (fields_seen fields.now) }
    requires few { length fields.now ≤ 64 }
    requires few_bits { presence.left ≤ 64 }
    ensures at_unit { OnOk result (R.rules.at_unit units.new) }
    ensures done { OnOk result (Reads R.rules
        (EntriesAfter (entries_seen entries.old.items) (skipped_at_seen skipped.old.items)
        (LooseOpen (loose_by R.rules R.loose) 0 (fields_seen fields.now) (bits_left presence)))
        (entries_seen entries.new.items, skipped_at_seen skipped.new.items) units.old units.new) }
    ensures stop { IfErr result (λ why. HaltsAt R.rules
        (LooseOpen (loose_by R.rules R.loose) 0 (fields_seen fields.now) (bits_left presence)) units.old why) }
{
    R::keep_walk_laws();
    let mut presence = presence;
    for (index, field) in fields.iter().enumerate() {
        let entry = if next_present(&mut presence) {
            let step = PathStep::Addition(index);
            Some(read_known::<R>(alloc, &field.ty, step, skipped, units)?)
        } else {
            None
        };
        entries.push(entry)?;
    }
    skip_fields::<R>(alloc, fields.len() as u32, presence, skipped, units)
}

/// Appends an absent entry for each extension addition.
pub(crate) fn push_absent(
    additions: &[Field],
    entries: &mut Vec<Option<Value>>,
) -> Result<(), AllocError>
    ensures { OnOk result (entries_seen entries.new.items
        ≡ entries_seen entries.old.items ++ absent_entries (fields_seen additions.now)) }
{
    for _ in additions {
        entries.push(None)?;
    }
    Ok(())
}
