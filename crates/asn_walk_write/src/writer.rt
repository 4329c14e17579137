//! The writer of values.
ghost use Rattle.std.specs.Prelude.{◌+◌, ◌≤◌, ◌<◌, OnOk, length};
ghost use Rattle.asn_values.specs.Fits.{Fits, FitsAlternative};
ghost use Rattle.asn_values.specs.Measures.{depth, choice_depth};
ghost use Rattle.asn_values.specs.Parts.{AreAllOfProfile};
ghost use Rattle.asn_values.specs.Profile.{InProfile};
ghost use Rattle.asn_values.specs.View.{shape_of, alternatives_seen};
ghost use Rattle.asn_walk.specs.Writing.{TellsWhether, TakesAt};
ghost use Rattle.asn_walk_write.specs.Sources.{WritesDatum, WritesOpenDatum, WritesWhole, WritesAlternativeOf, WritesOpenAlternativeOf};

use crate::components::write_sequence;
use crate::lengths::FieldLengths;
use crate::lists::write_list;
use asn_rules::Unwritten;
use asn_source::Source;
use asn_values::{Alt, AsnType};
use asn_walk::{Index, WriteLeaves};

/// Writes the complete encoding of a value, where it is one of the type, inside `level` open type fields. Nothing was
/// written before it of the innermost one.
///
/// # Errors
/// `NotOfType` if the value does not fit the type, `Full` if the sink does not take its bits.
#[inline(always)]
#[cycle(writer)]
pub fn write_complete<R: WriteLeaves, S: FieldLengths, V: Source>(
    ty: &AsnType,
    value: V,
    level: usize,
    sink: &mut S,
) -> Result<(), Unwritten<S::Fault>>
    requires of_profile { InProfile (shape_of ty.now) }
    requires deep { level + depth (shape_of ty.now) ≤ 64 }
    ensures of_type { TellsWhether result (Fits (shape_of ty.now) (V.datum value)) }
    ensures written { OnOk result (WritesWhole S.stands S.wants_lengths level R.rules
        sink.old sink.new ty.now (V.datum value)) }
{
    R::keep_open_laws();
    write::<R, S, V>(ty, value, level, sink)?;
    Ok(R::complete(sink)?)
}

/// Writes a value in an open type field inside `level` others, where it is one of the type: its complete encoding,
/// after a length determinant, or in fragments.
#[cycle(writer)]
pub(crate) fn write_open_field<R: WriteLeaves, S: FieldLengths, V: Source>(
    ty: &AsnType,
    value: V,
    level: usize,
    sink: &mut S,
) -> Result<(), Unwritten<S::Fault>>
    requires of_profile { InProfile (shape_of ty.now) }
    requires deep { level + depth (shape_of ty.now) ≤ 63 }
    ensures of_type { TellsWhether result (Fits (shape_of ty.now) (V.datum value)) }
    ensures written { OnOk result (WritesOpenDatum (TakesAt S.stands S.wants_lengths level) R.rules
        sink.old sink.new ty.now (V.datum value)) }
{
    R::keep_open_laws();
    let Some(length) = S::field_length::<R, V>(ty, value) else {
        return Err(Unwritten::NotOfType);
    };
    let outer = sink.begin_field(R::framing(), level, length)?;
    write_complete::<R, S, V>(ty, value, level + 1, sink)?;
    Ok(sink.end_field(outer, R::framing())?)
}

/// Writes a value, where it is one of the type.
#[inline(always)]
#[cycle(writer)]
pub(crate) fn write<R: WriteLeaves, S: FieldLengths, V: Source>(
    ty: &AsnType,
    value: V,
    level: usize,
    sink: &mut S,
) -> Result<(), Unwritten<S::Fault>>
    requires of_profile { InProfile (shape_of ty.now) }
    requires deep { level + depth (shape_of ty.now) ≤ 64 }
    ensures of_type { TellsWhether result (Fits (shape_of ty.now) (V.datum value)) }
    ensures written { OnOk result (WritesDatum (TakesAt S.stands S.wants_lengths level) R.rules
        sink.old sink.new ty.now (V.datum value)) }
{
    R::keep_write_laws();
    match ty {
        AsnType::Seq { .. } => write_sequence::<R, S, V>(ty, value, level, sink),
        AsnType::Choice { root, ext } => {
            let Some(chosen) = value.chosen() else {
                return Err(Unwritten::NotOfType);
            };
            let index = chosen.0 as usize;
            let known = root.len();
            if index < known {
                R::write_index(known, ext.is_some(), Index::Root(index), sink)?;
                return write_alternative::<R, S, V>(root, index, chosen.1, level, sink);
            }
            match ext {
                Some(additions) if index - known < additions.len() => {
                    R::write_index(known, true, Index::Added(index - known), sink)?;
                    write_added_alternative::<R, S, V>(
                        additions,
                        index - known,
                        chosen.1,
                        level,
                        sink,
                    )
                }
                _ => Err(Unwritten::NotOfType),
            }
        }
        AsnType::SeqOf(element, size) => match value.elements() {
            Some(elements) => write_list::<R, S, V>(element, size, elements, level, sink),
            None => Err(Unwritten::NotOfType),
        },
        AsnType::Bool
        | AsnType::Null
        | AsnType::Int(_)
        | AsnType::Enum { .. }
        | AsnType::Bits(_)
        | AsnType::Octets(_)
        | AsnType::Text(..)
        | AsnType::Utf8 => match value.leaf() {
            Some(leaf) => R::write_simple(ty, leaf, sink),
            None => Err(Unwritten::NotOfType),
        },
    }
}

/// Writes a value, where it is one of the alternative at this index.
#[cycle(writer)]
fn write_alternative<R: WriteLeaves, S: FieldLengths, V: Source>(
    alternatives: &[Alt],
    index: usize,
    value: V,
    level: usize,
    sink: &mut S,
) -> Result<(), Unwritten<S::Fault>>
    requires of_profile { AreAllOfProfile (alternatives_seen alternatives.now) }
    requires inside { index < length alternatives.now }
    requires deep { level + choice_depth (alternatives_seen alternatives.now) ≤ 64 }
    ensures of_type { TellsWhether result
        (FitsAlternative (alternatives_seen alternatives.now) index (V.datum value)) }
    ensures written { OnOk result (WritesAlternativeOf (TakesAt S.stands S.wants_lengths level) R.rules
        sink.old sink.new alternatives.now index (V.datum value)) }
{
    write::<R, S, V>(&alternatives[index].ty, value, level, sink)
}

/// Writes a value, where it is one of the alternative at this index, in an open type field.
#[cycle(writer)]
fn write_added_alternative<R: WriteLeaves, S: FieldLengths, V: Source>(
    alternatives: &[Alt],
    index: usize,
    value: V,
    level: usize,
    sink: &mut S,
) -> Result<(), Unwritten<S::Fault>>
    requires of_profile { AreAllOfProfile (alternatives_seen alternatives.now) }
    requires inside { index < length alternatives.now }
    requires deep { level + choice_depth (alternatives_seen alternatives.now) ≤ 63 }
    ensures of_type { TellsWhether result
        (FitsAlternative (alternatives_seen alternatives.now) index (V.datum value)) }
    ensures written { OnOk result (WritesOpenAlternativeOf (TakesAt S.stands S.wants_lengths level) R.rules
        sink.old sink.new alternatives.now index (V.datum value)) }
{
    write_open_field::<R, S, V>(&alternatives[index].ty, value, level, sink)
}
