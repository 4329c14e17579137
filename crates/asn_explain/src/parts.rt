//! Single parts of a value: whether their reading stops.
ghost use Rattle.std.specs.Prelude.{◌≡◌, IfOk, OnOk};
ghost use Rattle.asn_values.specs.Profile.{InProfile};
ghost use Rattle.asn_values.specs.Parts.{IsGoodDemand};
ghost use Rattle.asn_values.specs.View.{shape_of, part_of_field};
ghost use Rattle.asn_explain.specs.Places.{IsGood, Stands};

use asn_bits::BitCursor;
use asn_rules::internal::Stop;
use asn_values::{AsnType, Field, Need};
use asn_walk::ReadLeaves;
use asn_walk_read::{read, read_open_field};
use std::alloc::{AllocError, Global};

/// Where the reading of a value stops.
pub(crate) enum Place<'t> {
    /// In a part of it, which has this type: the units stand in front of the part.
    Part(&'t AsnType),
    /// In an open type field: its octets, which are no complete encoding of a value of this type.
    Sealed(&'t AsnType, Vec<u8>),
    /// In what the path leads to, and in no part of it that is looked into.
    Here,
    /// Not in the value: the units stand after it.
    After,
}

/// The place where something in front of the parts was being read.
///
/// # Errors
/// `AllocError` where an allocation failed.
pub(crate) fn here<'t>(stop: Stop) -> Result<Place<'t>, AllocError>
    ensures { IfOk result (λ p. p ≡ Place.Here) }
{
    match stop {
        Stop::Memory => Err(AllocError),
        Stop::Short | Stop::Refused { .. } => Ok(Place::Here),
    }
}

/// Reads a value of the type, and tells whether that stops. Where it does, the units stand in front of it.
///
/// # Errors
/// `AllocError` where an allocation failed.
pub(crate) fn stops_in<R: ReadLeaves>(
    alloc: Global,
    ty: &AsnType,
    units: &mut BitCursor<'_>,
) -> Result<bool, AllocError>
    requires at_unit { R.rules.at_unit units.old }
    requires of_profile { InProfile (shape_of ty.now) }
    ensures { OnOk result (R.rules.at_unit units.new) }
{
    let start = units.copied();
    match read::<R>(alloc, ty, units) {
        Ok(_) => Ok(false),
        Err(Stop::Memory) => Err(AllocError),
        Err(Stop::Short | Stop::Refused { .. }) => {
            *units = start;
            Ok(true)
        }
    }
}

/// The same of a component that is present: one with a DEFAULT is read as another value than that.
///
/// # Errors
/// As `stops_in`.
pub(crate) fn stops_in_component<R: ReadLeaves>(
    alloc: Global,
    field: &Field,
    units: &mut BitCursor<'_>,
) -> Result<bool, AllocError>
    requires at_unit { R.rules.at_unit units.old }
    requires of_profile { InProfile (part_of_field field.now).shape }
    requires good { IsGoodDemand (part_of_field field.now).demand (part_of_field field.now).shape }
    ensures { OnOk result (R.rules.at_unit units.new) }
{
    let Need::Default(default) = &field.need else {
        return stops_in::<R>(alloc, &field.ty, units);
    };
    let start = units.copied();
    match R::read_other(&field.ty, default, units) {
        Ok(_) => Ok(false),
        Err(Stop::Memory) => Err(AllocError),
        Err(Stop::Short | Stop::Refused { .. }) => {
            *units = start;
            Ok(true)
        }
    }
}

/// Where the reading of an open type field stops that holds a value of the type, with the step to that component or
/// alternative added to the path.
///
/// # Errors
/// As `stops_in`.
pub(crate) fn in_open_field<'t, R: ReadLeaves>(
    alloc: Global,
    ty: &'t AsnType,
    name: &str,
    units: &mut BitCursor<'_>,
    path: &mut String,
) -> Result<Place<'t>, AllocError>
    requires at_unit { R.rules.at_unit units.old }
    requires of_profile { InProfile (shape_of ty.now) }
    ensures good { IfOk result IsGood }
    ensures at_unit { IfOk result (Stands (R.rules.at_unit units.new)) }
{
    let start = units.copied();
    match read_open_field::<R>(alloc, ty, units) {
        Ok(_) => Ok(Place::After),
        Err(Stop::Memory) => Err(AllocError),
        Err(Stop::Short | Stop::Refused { .. }) => {
            *units = start;
            push_name(path, name)?;
            content_of::<R>(alloc, ty, units)
        }
    }
}

/// The content of an open type field that holds no value of the type, where its octets are there.
fn content_of<'t, R: ReadLeaves>(
    alloc: Global,
    ty: &'t AsnType,
    units: &mut BitCursor<'_>,
) -> Result<Place<'t>, AllocError>
    requires at_unit { R.rules.at_unit units.old }
    requires of_profile { InProfile (shape_of ty.now) }
    ensures good { IfOk result IsGood }
    ensures at_unit { IfOk result (Stands (R.rules.at_unit units.new)) }
{
    match R::read_open_octets(alloc, units) {
        Ok(octets) => Ok(Place::Sealed(ty, octets)),
        Err(Stop::Memory) => Err(AllocError),
        Err(Stop::Short | Stop::Refused { .. }) => Ok(Place::Here),
    }
}

/// Adds the step to a component or an alternative.
///
/// # Errors
/// `AllocError` where an allocation failed.
pub(crate) fn push_name(path: &mut String, name: &str) -> Result<(), AllocError> {
    path.push_str(".")?;
    path.push_str(name)
}
