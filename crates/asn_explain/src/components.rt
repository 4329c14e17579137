//! The components of a SEQUENCE, up to the one in which reading stops.
ghost use Rattle.std.specs.Prelude.{◌≡◌, ◌≤◌, ◌<◌, IfOk, IfSome, length};
ghost use Rattle.asn_values.specs.Parts.{AreOfProfile};
ghost use Rattle.asn_values.specs.View.{fields_seen};
ghost use Rattle.asn_rules.specs.Listed.{bitmap_length};
ghost use Rattle.asn_explain.specs.Places.{IsGood, Stands};

use crate::parts::{Place, here, in_open_field, push_name, stops_in_component};
use asn_bits::BitCursor;
use asn_values::Field;
use asn_walk::{PresenceBits, ReadLeaves, bitmap_width};
use std::alloc::{AllocError, Global};

/// Where the reading of a SEQUENCE stops, with the step to that component added to the path.
pub(crate) fn in_sequence<'t, R: ReadLeaves>(
    alloc: Global,
    root: &'t [Field],
    additions: Option<&'t [Field]>,
    units: &mut BitCursor<'_>,
    path: &mut String,
) -> Result<Place<'t>, AllocError>
    requires at_unit { R.rules.at_unit units.old }
    requires of_profile { AreOfProfile (fields_seen root.now) }
    requires few { length root.now ≤ 64 }
    requires added { IfSome additions (λ fs. AreOfProfile (fields_seen fs.now)) }
    requires few_added { IfSome additions (λ fs. length fs.now ≤ 64) }
    ensures good { IfOk result IsGood }
    ensures at_unit { IfOk result (Stands (R.rules.at_unit units.new)) }
{
    let width = bitmap_width(root);
    let marked = match additions {
        Some(fields) => Some(fields.len()),
        None => None,
    };
    let preamble = match R::read_preamble(width, marked, units) {
        Ok(preamble) => preamble,
        Err(stop) => return here(stop),
    };
    let presence = PresenceBits {
        bitmap: preamble.bitmap,
        left: width,
    };
    match in_components::<R>(alloc, root, presence, units, path)? {
        Place::After => match additions {
            Some(fields) if preamble.extended && !fields.is_empty() => {
                in_additions::<R>(alloc, fields, units, path)
            }
            _ => Ok(Place::After),
        },
        Place::Here => Ok(Place::Here),
        Place::Part(ty) => Ok(Place::Part(ty)),
        Place::Sealed(ty, octets) => Ok(Place::Sealed(ty, octets)),
    }
}

/// The same of the components of a root, of which the presence bits tell which are there.
fn in_components<'t, R: ReadLeaves>(
    alloc: Global,
    fields: &'t [Field],
    presence: PresenceBits,
    units: &mut BitCursor<'_>,
    path: &mut String,
) -> Result<Place<'t>, AllocError>
    requires at_unit { R.rules.at_unit units.old }
    requires of_profile { AreOfProfile (fields_seen fields.now) }
    requires width { presence.left ≡ bitmap_length (fields_seen fields.now) }
    requires few { presence.left ≤ 64 }
    ensures good { IfOk result IsGood }
    ensures at_unit { IfOk result (Stands (R.rules.at_unit units.new)) }
{
    let mut presence = presence;
    for field in fields {
        if presence.next_of(field) && stops_in_component::<R>(alloc, field, units)? {
            push_name(path, field.name.as_str())?;
            return Ok(Place::Part(&field.ty));
        }
    }
    Ok(Place::After)
}

/// The same of the extension additions, of which one at least is present.
fn in_additions<'t, R: ReadLeaves>(
    alloc: Global,
    fields: &'t [Field],
    units: &mut BitCursor<'_>,
    path: &mut String,
) -> Result<Place<'t>, AllocError>
    requires at_unit { R.rules.at_unit units.old }
    requires of_profile { AreOfProfile (fields_seen fields.now) }
    requires some { 0 < length fields.now }
    requires few { length fields.now ≤ 64 }
    ensures good { IfOk result IsGood }
    ensures at_unit { IfOk result (Stands (R.rules.at_unit units.new)) }
{
    let count = fields.len() as u32;
    let bitmap = match R::read_addition_bitmap(count, units) {
        Ok(bitmap) => bitmap,
        Err(stop) => return here(stop),
    };
    let mut presence = PresenceBits {
        bitmap,
        left: count,
    };
    for field in fields {
        if !presence.next() {
            continue;
        }
        match in_open_field::<R>(alloc, &field.ty, field.name.as_str(), units, path)? {
            Place::After => {}
            Place::Here => return Ok(Place::Here),
            Place::Part(ty) => return Ok(Place::Part(ty)),
            Place::Sealed(ty, octets) => return Ok(Place::Sealed(ty, octets)),
        }
    }
    Ok(Place::After)
}
