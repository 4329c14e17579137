//! The writer of SEQUENCE OF.
ghost use Rattle.std.specs.Prelude.{◌+◌, ◌≤◌, OnOk};
ghost use Rattle.std.specs.List.{AllByRecursion};
ghost use Rattle.asn_values.specs.Fits.{Fits};
ghost use Rattle.asn_values.specs.Measures.{depth};
ghost use Rattle.asn_values.specs.Profile.{InProfile};
ghost use Rattle.asn_values.specs.View.{shape_of, sequence_of_seen};
ghost use Rattle.asn_walk.specs.Writing.{TellsWhether, TakesAt};
ghost use Rattle.asn_walk_write.specs.Sources.{WritesListOf, WritesRowOf, list_of};

use crate::lengths::FieldLengths;
use crate::writer::write;
use asn_rules::Unwritten;
use asn_source::Source;
use asn_values::internal::length_fits;
use asn_values::{AsnType, Size};
use asn_walk::WriteLeaves;

/// Writes the elements of a SEQUENCE OF, where there are as many as the size allows, and each is one of the type: what
/// tells their count, in one or more fragments.
#[cycle(writer)]
pub(crate) fn write_list<R: WriteLeaves, S: FieldLengths, V: Source>(
    element: &AsnType,
    size: &Size,
    elements: V::Elements,
    level: usize,
    sink: &mut S,
) -> Result<(), Unwritten<S::Fault>>
    requires of_profile { InProfile (sequence_of_seen element.now size.now) }
    requires deep { level + depth (sequence_of_seen element.now size.now) ≤ 64 }
    ensures of_type { TellsWhether result
        (Fits (sequence_of_seen element.now size.now) (list_of (V.elements_left elements))) }
    ensures written { OnOk result (WritesListOf (TakesAt S.stands S.wants_lengths level) R.rules
        sink.old sink.new element.now size.now (V.elements_left elements)) }
{
    R::keep_write_laws();
    let count = V::count_elements(elements);
    if !length_fits(size, count) {
        return Err(Unwritten::NotOfType);
    }
    let mut fragments = R::start_list(size, count, sink)?;
    let mut left = elements;
    let mut many = count;
    while let Some(next) = R::next_fragment(&mut fragments, many, sink)? {
        let (front, others) = V::split_elements(left, next);
        write_elements::<R, S, V>(element, front, level, sink)?;
        left = others;
        many -= next;
    }
    Ok(())
}

/// Writes elements one after the other, where each is one of the type.
#[cycle(writer)]
fn write_elements<R: WriteLeaves, S: FieldLengths, V: Source>(
    element: &AsnType,
    elements: V::Elements,
    level: usize,
    sink: &mut S,
) -> Result<(), Unwritten<S::Fault>>
    requires of_profile { InProfile (shape_of element.now) }
    requires deep { level + depth (shape_of element.now) ≤ 64 }
    ensures of_type { TellsWhether result
        (AllByRecursion (λ d. Fits (shape_of element.now) d) (V.elements_left elements)) }
    ensures written { OnOk result (WritesRowOf (TakesAt S.stands S.wants_lengths level) R.rules
        sink.old sink.new element.now (V.elements_left elements)) }
{
    R::keep_write_laws();
    let mut left = elements;
    while let Some(value) = V::next_element(&mut left) {
        write::<R, S, V>(element, value, level, sink)?;
    }
    Ok(())
}
