//! The component of a value in which the reading of its encoding stops.
//!
//! From the whole value on, level by level: the parts in front are read, and the first whose reading stops is what the
//! next level looks into.
ghost use Rattle.std.specs.Prelude.{◌≡◌, ◌<◌, IfOk, IfSome, length, vec_len};
ghost use Rattle.std.specs.Option.{option_map};
ghost use Rattle.asn_values.specs.Profile.{InProfile};
ghost use Rattle.asn_values.specs.Parts.{AreAllOfProfile};
ghost use Rattle.asn_values.specs.View.{shape_of, size_range_of, alternatives_seen};
ghost use Rattle.asn_walk.specs.Coding.{AreFew};
ghost use Rattle.asn_walk.specs.Laws.{IsSizeOfProfile};
ghost use Rattle.asn_explain.specs.Places.{IsGood, Stands};

use crate::components::in_sequence;
use crate::parts::{Place, here, in_open_field, push_name, stops_in};
use asn_bits::BitCursor;
use asn_rules::MAX_OCTETS;
use asn_rules::laws::are_octets;
use asn_values::profile::MAX_LEVELS;
use asn_values::{Alt, AsnType, Checked, Size};
use asn_walk::{Index, ReadLeaves};
use asn_walk_read::added_count;
use std::alloc::{AllocError, Global};

/// The path to the part of a value of the type in which the reading of the octets stops.
///
/// # Errors
/// `AllocError` where an allocation failed.
pub(crate) fn path_to_stop<R: ReadLeaves>(
    alloc: Global,
    ty: &Checked,
    octets: &[u8],
) -> Result<String, AllocError> {
    let given = octets.len().min(MAX_OCTETS);
    let mut path = String::from_str(alloc, "$")?;
    follow::<R>(alloc, ty.get(), &octets[..given], MAX_LEVELS, &mut path)?;
    Ok(path)
}

/// Adds the steps to the part of a value of the type in which the reading of the octets stops, as many as `levels` at
/// most. In an open type field they go on in its octets.
///
/// # Errors
/// `AllocError` where an allocation failed.
fn follow<R: ReadLeaves>(
    alloc: Global,
    ty: &AsnType,
    octets: &[u8],
    levels: u32,
    path: &mut String,
) -> Result<(), AllocError>
    requires of_profile { InProfile (shape_of ty.now) }
{
    R::keep_laws();
    are_octets(octets);
    let mut units = BitCursor::over(octets);
    let mut here = ty;
    for level in 0..levels {
        match place_in::<R>(alloc, here, &mut units, path)? {
            Place::Part(part) => here = part,
            Place::Sealed(part, content) => {
                return follow::<R>(alloc, part, &content, levels - level - 1, path);
            }
            Place::Here | Place::After => break,
        }
    }
    Ok(())
}

/// Where the reading of a value of the type stops, with the step to that part added to the path.
fn place_in<'t, R: ReadLeaves>(
    alloc: Global,
    ty: &'t AsnType,
    units: &mut BitCursor<'_>,
    path: &mut String,
) -> Result<Place<'t>, AllocError>
    requires at_unit { R.rules.at_unit units.old }
    requires of_profile { InProfile (shape_of ty.now) }
    ensures good { IfOk result IsGood }
    ensures at_unit { IfOk result (Stands (R.rules.at_unit units.new)) }
{
    R::keep_laws();
    match ty {
        AsnType::Seq { root, ext } => {
            let root = root.as_slice();
            let Some(additions) = ext else {
                return in_sequence::<R>(alloc, root, None, units, path);
            };
            let additions = additions.as_slice();
            in_sequence::<R>(alloc, root, Some(additions), units, path)
        }
        AsnType::SeqOf(element, size) => in_list::<R>(alloc, element, size, units, path),
        AsnType::Choice { root, ext } => {
            let known = root.len();
            match R::read_index(known, added_count(ext), units) {
                Ok(Index::Root(index)) => in_alternative::<R>(alloc, root, index, units, path),
                Ok(Index::Added(index)) => {
                    let Some(additions) = ext else { unreachable!() };
                    in_added_alternative::<R>(alloc, additions, index, units, path)
                }
                Err(stop) => here(stop),
            }
        }
        AsnType::Bool
        | AsnType::Null
        | AsnType::Int(_)
        | AsnType::Enum { .. }
        | AsnType::Bits(_)
        | AsnType::Octets(_)
        | AsnType::Text(..)
        | AsnType::Utf8 => Ok(Place::Here),
    }
}

/// The same of the alternative with this index in the root.
fn in_alternative<'t, R: ReadLeaves>(
    alloc: Global,
    root: &'t [Alt],
    index: usize,
    units: &mut BitCursor<'_>,
    path: &mut String,
) -> Result<Place<'t>, AllocError>
    requires at_unit { R.rules.at_unit units.old }
    requires of_profile { AreAllOfProfile (alternatives_seen root.now) }
    requires inside { index < length root.now }
    ensures good { IfOk result IsGood }
    ensures at_unit { IfOk result (Stands (R.rules.at_unit units.new)) }
{
    let alternative = &root[index];
    if stops_in::<R>(alloc, &alternative.ty, units)? {
        push_name(path, alternative.name.as_str())?;
        return Ok(Place::Part(&alternative.ty));
    }
    Ok(Place::After)
}

/// The same of the alternative with this index among the additions.
fn in_added_alternative<'t, R: ReadLeaves>(
    alloc: Global,
    added: &'t [Alt],
    index: usize,
    units: &mut BitCursor<'_>,
    path: &mut String,
) -> Result<Place<'t>, AllocError>
    requires at_unit { R.rules.at_unit units.old }
    requires of_profile { AreAllOfProfile (alternatives_seen added.now) }
    requires inside { index < length added.now }
    ensures good { IfOk result IsGood }
    ensures at_unit { IfOk result (Stands (R.rules.at_unit units.new)) }
{
    let alternative = &added[index];
    in_open_field::<R>(
        alloc,
        &alternative.ty,
        alternative.name.as_str(),
        units,
        path,
    )
}

/// The same of the elements of a SEQUENCE OF.
fn in_list<'t, R: ReadLeaves>(
    alloc: Global,
    element: &'t AsnType,
    size: &Size,
    units: &mut BitCursor<'_>,
    path: &mut String,
) -> Result<Place<'t>, AllocError>
    requires at_unit { R.rules.at_unit units.old }
    requires of_profile { InProfile (shape_of element.now) }
    requires size { IsSizeOfProfile (size_range_of size.now) }
    ensures good { IfOk result IsGood }
    ensures at_unit { IfOk result (Stands (R.rules.at_unit units.new)) }
{
    let mut fragments = match R::start_list(size, units) {
        Ok(fragments) => fragments,
        Err(stop) => return here(stop),
    };
    let mut before = 0usize;
    for _ in 0..u64::MAX {
        let count = match R::next_fragment(&mut fragments, units) {
            Ok(Some(count)) => count,
            Ok(None) => break,
            Err(stop) => return here(stop),
        };
        if let Some(index) = stopping_element::<R>(alloc, element, count, units)? {
            let index = before.saturating_add(index);
            path.push_str(format!(in alloc; "[{index}]")?.as_str())?;
            return Ok(Place::Part(element));
        }
        before = before.saturating_add(count);
    }
    Ok(Place::After)
}

/// The first of `count` elements whose reading stops: its index among these. The units stand in front of it.
fn stopping_element<R: ReadLeaves>(
    alloc: Global,
    element: &AsnType,
    count: usize,
    units: &mut BitCursor<'_>,
) -> Result<Option<usize>, AllocError>
    requires at_unit { R.rules.at_unit units.old }
    requires of_profile { InProfile (shape_of element.now) }
    ensures { IfOk result (λ _. R.rules.at_unit units.new) }
{
    for index in 0..count {
        if stops_in::<R>(alloc, element, units)? {
            return Ok(Some(index));
        }
    }
    Ok(None)
}
