//! The reader of values of all types that keeps none, over the parts that a set of encoding rules gives.
//!
//! Each reader has the contract of the one of `asn_walk_read` that gives its value, said of some value.
ghost use Rattle.std.specs.Prelude.{◌≡◌, ◌<◌, ◌%◌, IfErr, OnOk, length};
ghost use Rattle.asn_values.specs.Profile.{InProfile};
ghost use Rattle.asn_values.specs.Parts.{AreAllOfProfile};
ghost use Rattle.asn_values.specs.View.{shape_of, size_range_of, alternatives_seen};
ghost use Rattle.asn_walk.specs.Coding.{OpenOf};
ghost use Rattle.asn_walk.specs.Laws.{IsSizeOfProfile};
ghost use Rattle.asn_walk.specs.Reading.{StopsAt, ValuesOf, CompleteOf, AlternativeOf, OpenAlternativeOf, ListOf, RowOf, RestOf};
ghost use Rattle.asn_walk_check.specs.Checked.{ReadsSome};

use crate::components::{read_additions, read_root};
use asn_bits::BitCursor;
use asn_rules::Why;
use asn_rules::internal::Stop;
use asn_values::{Alt, AsnType, Size};
use asn_walk::{Index, ReadLeaves};
use asn_walk_read::{SHORT_OPEN_FIELD, added_count, read_open_octets};
use std::alloc::Global;

/// Reads a value of the type.
#[inline(always)]
#[cycle(reader)]
pub fn read_value<R: ReadLeaves>(
    alloc: Global,
    ty: &AsnType,
    units: &mut BitCursor<'_>,
) -> Result<(), Stop>
    requires at_unit { R.rules.at_unit units.old }
    requires of_profile { InProfile (shape_of ty.now) }
    ensures at_unit { OnOk result (R.rules.at_unit units.new) }
    ensures done { OnOk result (ReadsSome R.rules (ValuesOf R.rules (shape_of ty.now)) units.old units.new) }
    ensures stop { IfErr result (λ why. StopsAt R.rules (ValuesOf R.rules (shape_of ty.now)) units.old why) }
{
    R::keep_laws();
    match ty {
        AsnType::Seq { root, ext } => {
            let root = root.as_slice();
            let Some(additions) = ext else {
                read_root::<R>(alloc, root, None, units)?;
                return Ok(());
            };
            let additions = additions.as_slice();
            let extended = read_root::<R>(alloc, root, Some(additions.len()), units)?;
            if extended {
                read_additions::<R>(alloc, additions, units)?;
            }
            Ok(())
        }
        AsnType::SeqOf(element, size) => {
            read_list::<R>(alloc, element, size, units)?;
            Ok(())
        }
        AsnType::Choice { root, ext } => {
            let known = root.len();
            match R::read_index(known, added_count(ext), units)? {
                Index::Root(index) => {
                    read_alternative::<R>(alloc, root, index, units)?;
                    Ok(())
                }
                Index::Added(index) => {
                    let Some(additions) = ext else { unreachable!() };
                    read_added_alternative::<R>(alloc, additions, index, units)?;
                    Ok(())
                }
            }
        }
        AsnType::Bool
        | AsnType::Null
        | AsnType::Int(_)
        | AsnType::Enum { .. }
        | AsnType::Bits(_)
        | AsnType::Octets(_)
        | AsnType::Text(..)
        | AsnType::Utf8 => {
            R::read_simple(alloc, ty, units)?;
            Ok(())
        }
    }
}

/// Reads a complete encoding of a value of the type: the value, and its padding (X.691, "complete encoding").
#[cycle(reader)]
pub fn read_complete<R: ReadLeaves>(
    alloc: Global,
    ty: &AsnType,
    units: &mut BitCursor<'_>,
) -> Result<(), Stop>
    requires at_unit { R.rules.at_unit units.old }
    requires of_profile { InProfile (shape_of ty.now) }
    requires octets { length (R.rules.to_units units.old) % R.rules.octet_units ≡ 0 }
    ensures at_unit { OnOk result (R.rules.at_unit units.new) }
    ensures done { OnOk result (ReadsSome R.rules (CompleteOf R.rules (shape_of ty.now)) units.old units.new) }
    ensures stop { IfErr result (λ why. StopsAt R.rules (CompleteOf R.rules (shape_of ty.now)) units.old why) }
{
    R::keep_laws();
    let given = R::units_left(units);
    read_value::<R>(alloc, ty, units)?;
    R::read_padding(given, units)?;
    Ok(())
}

/// Reads an open type field that holds a value of the type: first all its octets, and then the complete encoding that
/// they have to be (X.691, "open type fields"; X.696, "open type").
#[cycle(reader)]
pub(crate) fn read_open_field<R: ReadLeaves>(
    alloc: Global,
    ty: &AsnType,
    units: &mut BitCursor<'_>,
) -> Result<(), Stop>
    requires at_unit { R.rules.at_unit units.old }
    requires of_profile { InProfile (shape_of ty.now) }
    ensures at_unit { OnOk result (R.rules.at_unit units.new) }
    ensures done { OnOk result (ReadsSome R.rules (OpenOf R.rules (shape_of ty.now)) units.old units.new) }
    ensures stop { IfErr result (λ why. StopsAt R.rules (OpenOf R.rules (shape_of ty.now)) units.old why) }
{
    R::keep_laws();
    let mut short = [0; SHORT_OPEN_FIELD];
    let mut long = Vec::new(alloc);
    let octets = read_open_octets::<R>(alloc, units, &mut short, &mut long)?;
    let mut content = BitCursor::over(octets);
    let no_value = Stop::Refused {
        left: R::units_left(units),
        why: Why::Sealed,
    };
    match read_complete::<R>(alloc, ty, &mut content) {
        Ok(()) if R::units_left(&content) == 0 => Ok(()),
        Ok(()) => Err(no_value),
        Err(Stop::Short) => Err(no_value),
        Err(Stop::Refused { .. }) => Err(no_value),
        Err(Stop::Memory) => Err(Stop::Memory),
    }
}

/// Reads a value of the alternative with this index in the root.
#[cycle(reader)]
fn read_alternative<R: ReadLeaves>(
    alloc: Global,
    root: &[Alt],
    index: usize,
    units: &mut BitCursor<'_>,
) -> Result<(), Stop>
    requires at_unit { R.rules.at_unit units.old }
    requires of_profile { AreAllOfProfile (alternatives_seen root.now) }
    requires inside { index < length root.now }
    ensures at_unit { OnOk result (R.rules.at_unit units.new) }
    ensures done { OnOk result (ReadsSome R.rules (AlternativeOf R.rules root.now index) units.old units.new) }
    ensures stop { IfErr result (λ why. StopsAt R.rules (AlternativeOf R.rules root.now index) units.old why) }
{
    read_value::<R>(alloc, &root[index].ty, units)
}

/// Reads an open type field that holds a value of the alternative with this index among the additions.
#[cycle(reader)]
fn read_added_alternative<R: ReadLeaves>(
    alloc: Global,
    added: &[Alt],
    index: usize,
    units: &mut BitCursor<'_>,
) -> Result<(), Stop>
    requires at_unit { R.rules.at_unit units.old }
    requires of_profile { AreAllOfProfile (alternatives_seen added.now) }
    requires inside { index < length added.now }
    ensures at_unit { OnOk result (R.rules.at_unit units.new) }
    ensures done { OnOk result (ReadsSome R.rules (OpenAlternativeOf R.rules added.now index) units.old units.new) }
    ensures stop { IfErr result (λ why. StopsAt R.rules (OpenAlternativeOf R.rules added.now index) units.old why) }
{
    read_open_field::<R>(alloc, &added[index].ty, units)
}

/// Reads the elements of a SEQUENCE OF.
#[cycle(reader)]
fn read_list<R: ReadLeaves>(
    alloc: Global,
    element: &AsnType,
    size: &Size,
    units: &mut BitCursor<'_>,
) -> Result<(), Stop>
    requires at_unit { R.rules.at_unit units.old }
    requires of_profile { InProfile (shape_of element.now) }
    requires size { IsSizeOfProfile (size_range_of size.now) }
    ensures at_unit { OnOk result (R.rules.at_unit units.new) }
    ensures done { OnOk result (ReadsSome R.rules (ListOf R.rules element.now size.now) units.old units.new) }
    ensures stop { IfErr result (λ why. StopsAt R.rules (ListOf R.rules element.now size.now) units.old why) }
{
    R::keep_laws();
    let fragments = R::start_list(size, units)?;
    read_fragments::<R>(alloc, element, fragments, units)?;
    Ok(())
}

/// Reads the remaining fragments of a list.
#[inline(always)]
#[cycle(reader)]
fn read_fragments<R: ReadLeaves>(
    alloc: Global,
    element: &AsnType,
    fragments: R::Fragments,
    units: &mut BitCursor<'_>,
) -> Result<(), Stop>
    requires at_unit { R.rules.at_unit units.old }
    requires of_profile { InProfile (shape_of element.now) }
    requires between { R.is_between fragments }
    ensures at_unit { OnOk result (R.rules.at_unit units.new) }
    ensures done { OnOk result
        (ReadsSome R.rules (RestOf R.rules element.now (R.ahead fragments)) units.old units.new) }
    ensures stop { IfErr result (λ why.
        StopsAt R.rules (RestOf R.rules element.now (R.ahead fragments)) units.old why) }
{
    R::keep_laws();
    let mut fragments = fragments;
    while let Some(count) = R::next_fragment(&mut fragments, units)? {
        read_elements::<R>(alloc, element, count, units)?;
    }
    Ok(())
}

/// Reads `count` elements, one after the other.
#[inline(always)]
#[cycle(reader)]
fn read_elements<R: ReadLeaves>(
    alloc: Global,
    element: &AsnType,
    count: usize,
    units: &mut BitCursor<'_>,
) -> Result<(), Stop>
    requires at_unit { R.rules.at_unit units.old }
    requires of_profile { InProfile (shape_of element.now) }
    ensures at_unit { OnOk result (R.rules.at_unit units.new) }
    ensures done { OnOk result (ReadsSome R.rules (RowOf R.rules element.now count) units.old units.new) }
    ensures stop { IfErr result (λ why. StopsAt R.rules (RowOf R.rules element.now count) units.old why) }
{
    R::keep_laws();
    for i in 0..count {
        read_value::<R>(alloc, element, units)?;
    }
    Ok(())
}
