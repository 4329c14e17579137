//! `check` and `decode` under a constraint, by a plan.
ghost use Rattle.std.specs.Prelude.{◌≡◌, IfErr, OnOk, Ok, Err};
ghost use Rattle.asn_values.specs.View.{shape_of};
ghost use Rattle.asn_constraints.specs.Constraints.{free};
ghost use Rattle.asn_constraints.specs.View.{constraint_of};
ghost use Rattle.asn_constrained.specs.Under.{ChecksUnder, DecodedUnder, is_rest};

use crate::along::check_along;
use crate::codec::{decode_into_under, decode_under, is_free, why_broken};
use crate::fault::ConstrainedFault;
use asn_constraints::Constraint;
use asn_plan::{PlanRules, Planned, Spare};
use asn_rules::DecodeFault;
use asn_values::Value;
use std::alloc::Global;

/// Whether the octets are the complete encoding of a value that meets the constraint. No value is built where
/// the constraint is free, or where the value meets it and it is judged part by part.
///
/// # Errors
/// As `decode_by_plan`.
pub(crate) fn check_under<R: PlanRules>(
    alloc: Global,
    planned: &Planned,
    constraint: &Constraint,
    octets: &[u8],
) -> Result<(), ConstrainedFault>
    ensures { ChecksUnder R.ruling (constraint_of constraint.now) result (shape_of planned.now) octets.now }
{
    if is_free(constraint) {
        return check_free::<R>(alloc, planned, octets);
    }
    if check_along::<R>(alloc, planned, constraint, octets) {
        return Ok(());
    }
    match decode_by_plan::<R>(alloc, planned, constraint, octets) {
        Ok(_) => Ok(()),
        Err(fault) => Err(fault),
    }
}

/// Whether the octets are the complete encoding of a value.
///
/// # Errors
/// As `Planned::check`.
#[inline(always)]
fn check_free<R: PlanRules>(
    alloc: Global,
    planned: &Planned,
    octets: &[u8],
) -> Result<(), ConstrainedFault>
    ensures { ChecksUnder R.ruling free result (shape_of planned.now) octets.now }
{
    match planned.check::<R>(alloc, octets) {
        Ok(()) => Ok(()),
        Err(fault) => Err(ConstrainedFault::Type(fault)),
    }
}

/// The value whose complete encoding the octets are, if it meets the constraint. Where octets follow the encoding, it
/// is decoded again and judged first.
///
/// # Errors
/// As `decode_under`.
pub(crate) fn decode_by_plan<R: PlanRules>(
    alloc: Global,
    planned: &Planned,
    constraint: &Constraint,
    octets: &[u8],
) -> Result<Value, ConstrainedFault>
    ensures { DecodedUnder R.ruling (constraint_of constraint.now) result (shape_of planned.now) octets.now }
{
    match planned.decode::<R>(alloc, octets) {
        Ok(value) => match why_broken(alloc, constraint, &value, octets.len()) {
            None => Ok(value),
            Some(fault) => Err(fault),
        },
        Err(fault) => {
            if is_rest(fault) {
                decode_under::<R>(alloc, planned.get(), constraint, octets)
            } else {
                Err(ConstrainedFault::Type(fault))
            }
        }
    }
}

/// Decodes that value into the one that is there.
///
/// # Errors
/// As `decode_under`. What is left of the value then is some value.
pub(crate) fn decode_into_by_plan<R: PlanRules>(
    alloc: Global,
    planned: &Planned,
    constraint: &Constraint,
    octets: &[u8],
    value: &mut Value,
    spare: &mut Spare,
) -> Result<(), ConstrainedFault>
    ensures done { OnOk result (DecodedUnder R.ruling (constraint_of constraint.now) (Ok value.new)
        (shape_of planned.now) octets.now) }
    ensures fault { IfErr result (λ why. DecodedUnder R.ruling (constraint_of constraint.now) (Err why)
        (shape_of planned.now) octets.now) }
{
    match planned.decode_into::<R>(alloc, octets, value, spare) {
        Ok(()) => match why_broken(alloc, constraint, value, octets.len()) {
            None => Ok(()),
            Some(fault) => Err(fault),
        },
        Err(fault) => {
            if is_rest(fault) {
                decode_into_under::<R>(alloc, planned.get(), constraint, octets, value)
            } else {
                Err(ConstrainedFault::Type(fault))
            }
        }
    }
}

/// Whether octets follow an encoding.
fn is_rest(fault: DecodeFault) -> bool
    ensures { result ≡ is_rest fault }
{
    matches!(fault, DecodeFault::Rest { .. })
}
