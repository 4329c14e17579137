//! The writer of SEQUENCE.
ghost use Rattle.std.specs.Prelude.{◌≡◌, ◌+◌, ◌≤◌, OnOk, Some, None, length};
ghost use Rattle.asn_values.specs.Fits.{Fits};
ghost use Rattle.asn_values.specs.Measures.{depth, fields_depth};
ghost use Rattle.asn_values.specs.Parts.{AreOfProfile};
ghost use Rattle.asn_values.specs.Profile.{InProfile};
ghost use Rattle.asn_values.specs.View.{shape_of, fields_seen};
ghost use Rattle.asn_walk.specs.Composites.{each_code, open_code};
ghost use Rattle.asn_walk.specs.Writing.{TellsWhether, Writes, TakesAt, AreOptional};
ghost use Rattle.asn_walk_write.specs.Sources.{EachFits, WritesDatum, IsSequence, sequence_of, WritesRootOf, WritesAdditionsOf};

use crate::encoded::{is_encoded, presence_bitmap};
use crate::lengths::FieldLengths;
use crate::writer::{write, write_open_field};
use asn_rules::Unwritten;
use asn_source::Source;
use asn_values::{AsnType, Field, Need, Value};
use asn_walk::WriteLeaves;

/// Writes a value of a SEQUENCE, where it is one: its root, and after it the extension additions, where there is an
/// extension mark.
#[inline(always)]
#[cycle(writer)]
pub(crate) fn write_sequence<R: WriteLeaves, S: FieldLengths, V: Source>(
    ty: &AsnType,
    value: V,
    level: usize,
    sink: &mut S,
) -> Result<(), Unwritten<S::Fault>>
    requires sequence { IsSequence ty.now }
    requires of_profile { InProfile (shape_of ty.now) }
    requires deep { level + depth (shape_of ty.now) ≤ 64 }
    ensures of_type { TellsWhether result (Fits (shape_of ty.now) (V.datum value)) }
    ensures written { OnOk result (WritesDatum (TakesAt S.stands S.wants_lengths level) R.rules
        sink.old sink.new ty.now (V.datum value)) }
{
    let Some(entries) = value.entries() else {
        return Err(Unwritten::NotOfType);
    };
    write_entries::<R, S, V>(ty, entries, level, sink)
}

/// The same of a value that has these entries.
#[inline(always)]
#[cycle(writer)]
fn write_entries<R: WriteLeaves, S: FieldLengths, V: Source>(
    ty: &AsnType,
    entries: V::Entries,
    level: usize,
    sink: &mut S,
) -> Result<(), Unwritten<S::Fault>>
    requires sequence { IsSequence ty.now }
    requires of_profile { InProfile (shape_of ty.now) }
    requires deep { level + depth (shape_of ty.now) ≤ 64 }
    ensures of_type { TellsWhether result (Fits (shape_of ty.now) (sequence_of (V.entries_left entries))) }
    ensures written { OnOk result (WritesDatum (TakesAt S.stands S.wants_lengths level) R.rules
        sink.old sink.new ty.now (sequence_of (V.entries_left entries))) }
{
    R::keep_write_laws();
    let AsnType::Seq { root, ext } = ty else {
        unreachable!()
    };
    let Some(additions) = ext else {
        return write_plain::<R, S, V>(root, entries, level, sink);
    };
    let (root_entries, addition_entries) = V::split_entries(entries, root.len());
    let extended = V::is_any_present(addition_entries);
    write_marked::<R, S, V>(extended, root, root_entries, level, sink)?;
    if extended {
        return write_additions::<R, S, V>(additions, addition_entries, level, sink);
    }
    if additions.len() != V::count_entries(addition_entries) {
        return Err(Unwritten::NotOfType);
    }
    Ok(())
}

/// The same in a function of its own: what has extension additions takes many words at once, and these then take no
/// registers of a caller that writes a SEQUENCE without an extension mark.
#[inline(never)]
#[cycle(writer)]
fn write_entries_apart<R: WriteLeaves, S: FieldLengths, V: Source>(
    ty: &AsnType,
    entries: V::Entries,
    level: usize,
    sink: &mut S,
) -> Result<(), Unwritten<S::Fault>>
    requires sequence { IsSequence ty.now }
    requires of_profile { InProfile (shape_of ty.now) }
    requires deep { level + depth (shape_of ty.now) ≤ 64 }
    ensures of_type { TellsWhether result (Fits (shape_of ty.now) (sequence_of (V.entries_left entries))) }
    ensures written { OnOk result (WritesDatum (TakesAt S.stands S.wants_lengths level) R.rules
        sink.old sink.new ty.now (sequence_of (V.entries_left entries))) }
{
    write_entries::<R, S, V>(ty, entries, level, sink)
}

/// Writes a component that is a SEQUENCE, where the value is one of the type; `apart` is so where it has an extension
/// mark and the SEQUENCE around it has none.
#[inline(always)]
#[cycle(writer)]
fn write_inner<R: WriteLeaves, S: FieldLengths, V: Source>(
    ty: &AsnType,
    apart: bool,
    value: V,
    level: usize,
    sink: &mut S,
) -> Result<(), Unwritten<S::Fault>>
    requires of_profile { InProfile (shape_of ty.now) }
    requires deep { level + depth (shape_of ty.now) ≤ 64 }
    ensures of_type { TellsWhether result (Fits (shape_of ty.now) (V.datum value)) }
    ensures written { OnOk result (WritesDatum (TakesAt S.stands S.wants_lengths level) R.rules
        sink.old sink.new ty.now (V.datum value)) }
{
    if let AsnType::Seq { ext, .. } = ty
        && apart
        && ext.is_some()
    {
        let Some(entries) = value.entries() else {
            return Err(Unwritten::NotOfType);
        };
        return write_entries_apart::<R, S, V>(ty, entries, level, sink);
    }
    write::<R, S, V>(ty, value, level, sink)
}

/// Writes the components of a SEQUENCE without an extension mark, where each entry is one of its component.
#[cycle(writer)]
fn write_plain<R: WriteLeaves, S: FieldLengths, V: Source>(
    fields: &[Field],
    entries: V::Entries,
    level: usize,
    sink: &mut S,
) -> Result<(), Unwritten<S::Fault>>
    requires of_profile { AreOfProfile (fields_seen fields.now) }
    requires few { length fields.now ≤ 64 }
    requires deep { level + fields_depth (fields_seen fields.now) ≤ 64 }
    ensures of_type { TellsWhether result (EachFits fields.now (V.entries_left entries)) }
    ensures written { OnOk result (WritesRootOf (TakesAt S.stands S.wants_lengths level) R.rules
        sink.old sink.new None fields.now (V.entries_left entries)) }
{
    write_root::<R, S, V>(None, fields, entries, level, sink)
}

/// Writes the components of the root of a SEQUENCE with an extension mark, where each entry is one of its component.
#[cycle(writer)]
fn write_marked<R: WriteLeaves, S: FieldLengths, V: Source>(
    extended: bool,
    fields: &[Field],
    entries: V::Entries,
    level: usize,
    sink: &mut S,
) -> Result<(), Unwritten<S::Fault>>
    requires of_profile { AreOfProfile (fields_seen fields.now) }
    requires few { length fields.now ≤ 64 }
    requires deep { level + fields_depth (fields_seen fields.now) ≤ 64 }
    ensures of_type { TellsWhether result (EachFits fields.now (V.entries_left entries)) }
    ensures written { OnOk result (WritesRootOf (TakesAt S.stands S.wants_lengths level) R.rules
        sink.old sink.new (Some extended) fields.now (V.entries_left entries)) }
{
    write_root::<R, S, V>(Some(extended), fields, entries, level, sink)
}

/// Writes the components of the root of a SEQUENCE, where each entry is one of its component: the extension bit, where
/// there is an extension mark, the presence bitmap, and the components that are encoded.
#[inline(always)]
#[cycle(writer)]
fn write_root<R: WriteLeaves, S: FieldLengths, V: Source>(
    extended: Option<bool>,
    fields: &[Field],
    entries: V::Entries,
    level: usize,
    sink: &mut S,
) -> Result<(), Unwritten<S::Fault>>
    requires of_profile { AreOfProfile (fields_seen fields.now) }
    requires few { length fields.now ≤ 64 }
    requires deep { level + fields_depth (fields_seen fields.now) ≤ 64 }
    ensures of_type { TellsWhether result (EachFits fields.now (V.entries_left entries)) }
    ensures written { OnOk result (WritesRootOf (TakesAt S.stands S.wants_lengths level) R.rules
        sink.old sink.new extended fields.now (V.entries_left entries)) }
{
    R::keep_write_laws();
    if fields.len() != V::count_entries(entries) {
        return Err(Unwritten::NotOfType);
    }
    let (count, bitmap) = presence_bitmap::<V>(fields, entries);
    R::write_preamble(extended, count, bitmap, sink)?;
    write_components::<R, S, V>(fields, extended.is_none(), entries, level, sink)
}

/// Writes the components that are encoded, in order, where each entry is one of its component.
#[inline(always)]
#[tactic(auto, using(crate::proofs::WriteComponents::each_ends))]
#[cycle(writer)]
fn write_components<R: WriteLeaves, S: FieldLengths, V: Source>(
    fields: &[Field],
    apart: bool,
    entries: V::Entries,
    level: usize,
    sink: &mut S,
) -> Result<(), Unwritten<S::Fault>>
    requires of_profile { AreOfProfile (fields_seen fields.now) }
    requires each { length fields.now ≡ length (V.entries_left entries) }
    requires deep { level + fields_depth (fields_seen fields.now) ≤ 64 }
    ensures of_type { TellsWhether result (EachFits fields.now (V.entries_left entries)) }
    ensures written { OnOk result (Writes (TakesAt S.stands S.wants_lengths level) R.rules
        sink.old sink.new
        (each_code R.rules (fields_seen fields.now) (V.entries_left entries))) }
{
    R::keep_write_laws();
    for (field, entry) in fields.iter().zip(V::each(entries)) {
        let Some(value) = entry else {
            if matches!(field.need, Need::Optional) {
                continue;
            }
            return Err(Unwritten::NotOfType);
        };
        // integers without a DEFAULT are most often met, so these are written before any other kind is
        // asked for
        if let (AsnType::Int(bounds), Some(leaf)) = (&field.ty, value.leaf())
            && let Value::Int(number) = leaf
            && !matches!(field.need, Need::Default(_))
        {
            R::write_number(bounds, *number, sink)?;
        } else if let AsnType::Seq { .. } = &field.ty {
            // a SEQUENCE has no DEFAULT
            write_inner::<R, S, V>(&field.ty, apart, value, level, sink)?;
        } else if is_encoded(field, Some(value)) {
            write::<R, S, V>(&field.ty, value, level, sink)?;
        }
    }
    Ok(())
}

/// Writes extension additions, where each entry is one of its addition: nothing where none is present, and else a
/// presence bit for each, and those that are present in open type fields.
#[cycle(writer)]
fn write_additions<R: WriteLeaves, S: FieldLengths, V: Source>(
    fields: &[Field],
    entries: V::Entries,
    level: usize,
    sink: &mut S,
) -> Result<(), Unwritten<S::Fault>>
    requires of_profile { AreOfProfile (fields_seen fields.now) }
    requires optional { AreOptional (fields_seen fields.now) }
    requires few { length fields.now ≤ 64 }
    requires deep { level + fields_depth (fields_seen fields.now) ≤ 63 }
    ensures of_type { TellsWhether result (EachFits fields.now (V.entries_left entries)) }
    ensures written { OnOk result (WritesAdditionsOf (TakesAt S.stands S.wants_lengths level) R.rules
        sink.old sink.new fields.now (V.entries_left entries)) }
{
    R::keep_write_laws();
    if fields.len() != V::count_entries(entries) {
        return Err(Unwritten::NotOfType);
    }
    if !V::is_any_present(entries) {
        return Ok(());
    }
    let (count, bitmap) = presence_bitmap::<V>(fields, entries);
    R::write_addition_bitmap(count, bitmap, sink)?;
    write_open_components::<R, S, V>(fields, entries, level, sink)
}

/// Writes the components that are present, each in an open type field, where each entry is one of
/// its component.
#[tactic(auto, using(crate::proofs::WriteSequences::open_ends))]
#[cycle(writer)]
fn write_open_components<R: WriteLeaves, S: FieldLengths, V: Source>(
    fields: &[Field],
    entries: V::Entries,
    level: usize,
    sink: &mut S,
) -> Result<(), Unwritten<S::Fault>>
    requires of_profile { AreOfProfile (fields_seen fields.now) }
    requires optional { AreOptional (fields_seen fields.now) }
    requires each { length fields.now ≡ length (V.entries_left entries) }
    requires deep { level + fields_depth (fields_seen fields.now) ≤ 63 }
    ensures of_type { TellsWhether result (EachFits fields.now (V.entries_left entries)) }
    ensures written { OnOk result (Writes (TakesAt S.stands S.wants_lengths level) R.rules
        sink.old sink.new
        (open_code R.rules (fields_seen fields.now) (V.entries_left entries))) }
{
    R::keep_write_laws();
    for (field, entry) in fields.iter().zip(V::each(entries)) {
        let Some(value) = entry else {
            continue;
        };
        write_open_field::<R, S, V>(&field.ty, value, level, sink)?;
    }
    Ok(())
}
