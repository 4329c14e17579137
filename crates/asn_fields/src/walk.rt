//! The walk over a message that tells its fields: a reader's walk, which notes where each part ends.
ghost use Rattle.std.specs.Prelude.{◌≡◌, ◌%◌, OnOk, length};
ghost use Rattle.asn_values.specs.Profile.{InProfile};
ghost use Rattle.asn_values.specs.View.{shape_of};

use crate::choices::{in_additions, in_root};
use crate::field::FieldKind;
use crate::lists::list;
use crate::sequences::{added_fields, root_fields};
use crate::telling::Walk;
use asn_bits::BitCursor;
use asn_rules::MAX_OCTETS;
use asn_rules::internal::Stop;
use asn_rules::laws::are_octets;
use asn_values::{AsnType, Checked};
use asn_walk::{Index, ReadLeaves};
use asn_walk_read::added_count;
use std::alloc::{AllocError, Global};

/// Tells the fields of a message, up to the one whose reading stops.
///
/// # Errors
/// `AllocError` where an allocation failed.
pub(crate) fn walk_message<'t, R: ReadLeaves>(
    walk: &mut Walk<'t>,
    ty: &'t Checked,
    octets: &[u8],
) -> Result<(), AllocError> {
    R::keep_laws();
    let message = &octets[..octets.len().min(MAX_OCTETS)];
    are_octets(message);
    let mut units = BitCursor::over(message);
    walk.end = walk.units_in(message.len());
    match complete::<R>(walk, ty.get(), &mut units) {
        Err(Stop::Memory) => Err(AllocError),
        Ok(()) | Err(Stop::Short | Stop::Refused { .. }) => Ok(()),
    }
}

/// Tells the fields of a complete encoding of a value of the type, and what fills it up.
#[cycle(walk)]
fn complete<'t, R: ReadLeaves>(
    walk: &mut Walk<'t>,
    ty: &'t AsnType,
    units: &mut BitCursor<'_>,
) -> Result<(), Stop>
    requires at_unit { R.rules.at_unit units.old }
    requires of_profile { InProfile (shape_of ty.now) }
    requires octets { length (R.rules.to_units units.old) % R.rules.octet_units ≡ 0 }
    ensures { OnOk result (R.rules.at_unit units.new) }
{
    R::keep_laws();
    let given = R::units_left(units);
    value::<R>(walk, ty, units)?;
    if given < R::units_left(units) {
        return Err(Stop::Short);
    }
    R::read_padding(given, units)?;
    let to = walk.place::<R>(units);
    if walk.told_to < to {
        walk.tell(FieldKind::Padding, to, "", "")?;
    }
    Ok(())
}

/// Tells the fields of a value of the type.
#[cycle(walk)]
pub(crate) fn value<'t, R: ReadLeaves>(
    walk: &mut Walk<'t>,
    ty: &'t AsnType,
    units: &mut BitCursor<'_>,
) -> Result<(), Stop>
    requires at_unit { R.rules.at_unit units.old }
    requires of_profile { InProfile (shape_of ty.now) }
    ensures { OnOk result (R.rules.at_unit units.new) }
{
    R::keep_laws();
    match ty {
        AsnType::Seq { root, ext } => {
            let root = root.as_slice();
            let Some(additions) = ext else {
                root_fields::<R>(walk, root, None, units)?;
                return Ok(());
            };
            let additions = additions.as_slice();
            let extended = root_fields::<R>(walk, root, Some(additions.len()), units)?;
            if extended {
                added_fields::<R>(walk, additions, units)?;
            }
            Ok(())
        }
        AsnType::SeqOf(element, size) => list::<R>(walk, element, size, units),
        AsnType::Choice { root, ext } => {
            let known = root.len();
            match R::read_index(known, added_count(ext), units)? {
                Index::Root(index) => in_root::<R>(walk, root, index, ext.is_some(), units),
                Index::Added(index) => {
                    let Some(additions) = ext else { unreachable!() };
                    in_additions::<R>(walk, additions, index, units)
                }
            }
        }
        AsnType::Bool
        | AsnType::Null
        | AsnType::Int(_)
        | AsnType::Enum { .. }
        | AsnType::Bits(_)
        | AsnType::Octets(_)
        | AsnType::Text(..)
        | AsnType::Utf8 => {
            let read = R::read_simple(walk.alloc, ty, units)?;
            let to = walk.place::<R>(units);
            Ok(walk.tell_value(ty, read, to)?)
        }
    }
}

/// Tells the fields of an open type field that holds a value of the type: its length determinant, the fields of the value,
/// and what fills up its octets.
#[cycle(walk)]
pub(crate) fn open_type<'t, R: ReadLeaves>(
    walk: &mut Walk<'t>,
    ty: &'t AsnType,
    units: &mut BitCursor<'_>,
) -> Result<(), Stop>
    requires at_unit { R.rules.at_unit units.old }
    requires of_profile { InProfile (shape_of ty.now) }
    ensures { OnOk result (R.rules.at_unit units.new) }
{
    R::keep_laws();
    let octets = R::read_open_octets(walk.alloc, units)?;
    let to = walk.place::<R>(units);
    if !walk.tell_open_length(ty, octets.len(), to)? {
        return Ok(());
    }
    let content = octets.as_slice();
    are_octets(content);
    let mut inside = BitCursor::over(content);
    let outer = walk.end;
    walk.end = to;
    complete::<R>(walk, ty, &mut inside)?;
    if R::units_left(&inside) > 0 {
        return Err(Stop::Short);
    }
    walk.end = outer;
    Ok(())
}
