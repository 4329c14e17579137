//! `decode` and `encode` under a constraint, by any encoding rules.
ghost use Rattle.std.specs.Prelude.{◌≡◌, ◌≤◌, IfOk, IfErr, OnOk, Ok, Err, true, vec_len};
ghost use Rattle.asn_values.specs.View.{shape_of, datum_of};
ghost use Rattle.asn_rules.specs.Answer.{max_octets};
ghost use Rattle.asn_constraints.specs.Constraints.{free};
ghost use Rattle.asn_constraints.specs.View.{constraint_of};
ghost use Rattle.asn_constrained.specs.Under.{IsEncodingUnder, NotEncodedUnder, Found, Judged, DecodedUnder, DecodedFrontUnder};

use crate::fault::ConstrainedFault;
use asn_constraints::{Broken, Constraint, judge, judge_at};
use asn_rules::{DecodeFault, EncodeFault, Rules};
use asn_values::{Checked, Value};
use std::alloc::{AllocError, Global};

/// Whether each value meets the constraint: `Free`. Others may be so too.
pub(crate) fn is_free(constraint: &Constraint) -> bool
    ensures { result ≡ true → constraint_of constraint.now ≡ free }
{
    matches!(constraint, Constraint::Free)
}

/// Where the value breaks the constraint: `None` if it meets it.
///
/// # Errors
/// An allocation failed. None is made where the value meets the constraint.
pub(crate) fn broken_in(
    alloc: Global,
    constraint: &Constraint,
    value: &Value,
) -> Result<Option<Broken>, AllocError>
    ensures { IfOk result (λ found. Found (constraint_of constraint.now) (datum_of value.now) found) }
{
    if judge(constraint, value) {
        return Ok(None);
    }
    judge_at(alloc, constraint, value)
}

/// What is reported of a value of `used` octets: `None` where it meets the constraint.
pub(crate) fn why_broken(
    alloc: Global,
    constraint: &Constraint,
    value: &Value,
    used: usize,
) -> Option<ConstrainedFault>
    ensures { Judged (constraint_of constraint.now) (datum_of value.now) used result }
{
    match broken_in(alloc, constraint, value) {
        Ok(Some(broken)) => Some(ConstrainedFault::Broken { used, broken }),
        Ok(None) => None,
        Err(_) => Some(ConstrainedFault::Type(DecodeFault::Memory)),
    }
}

/// Decodes the value of the type whose encoding the octets begin with into the one that is there, if it meets the
/// constraint, and returns how many octets the encoding has: see `Rules::decode_front_into`.
///
/// # Errors
/// `Broken` where that value breaks the constraint. Else as `Rules::decode_front_into`. What is left of the value then
/// is some value.
pub fn decode_front_into_under<R: Rules>(
    alloc: Global,
    ty: &Checked,
    constraint: &Constraint,
    octets: &[u8],
    value: &mut Value,
) -> Result<usize, ConstrainedFault>
    ensures { DecodedFrontUnder R.ruling (constraint_of constraint.now) result value.new
        (shape_of ty.now) octets.now }
{
    match R::decode_front_into(alloc, ty, octets, value) {
        Err(fault) => Err(ConstrainedFault::Type(fault)),
        Ok(used) => match why_broken(alloc, constraint, value, used) {
            Some(fault) => Err(fault),
            None => Ok(used),
        },
    }
}

/// Decodes the value of the type whose complete encoding the octets are into the one that is there, if it meets the
/// constraint. The constraint is judged at the last unit of the encoding, also where octets follow it.
///
/// # Errors
/// `Broken` where the octets begin with the encoding of a value that breaks the constraint. Else as
/// `asn_rules::decode`. What is left of the value then is some value.
pub fn decode_into_under<R: Rules>(
    alloc: Global,
    ty: &Checked,
    constraint: &Constraint,
    octets: &[u8],
    value: &mut Value,
) -> Result<(), ConstrainedFault>
    ensures done { OnOk result (DecodedUnder R.ruling (constraint_of constraint.now) (Ok value.new)
        (shape_of ty.now) octets.now) }
    ensures fault { IfErr result (λ why. DecodedUnder R.ruling (constraint_of constraint.now) (Err why)
        (shape_of ty.now) octets.now) }
{
    match decode_front_into_under::<R>(alloc, ty, constraint, octets, value) {
        Err(fault) => Err(fault),
        Ok(used) => {
            if used < octets.len() {
                return Err(ConstrainedFault::Type(DecodeFault::Rest { used }));
            }
            Ok(())
        }
    }
}

/// The value of the type whose complete encoding the octets are, if it meets the constraint: see `decode_into_under`.
///
/// # Errors
/// As `decode_into_under`.
pub fn decode_under<R: Rules>(
    alloc: Global,
    ty: &Checked,
    constraint: &Constraint,
    octets: &[u8],
) -> Result<Value, ConstrainedFault>
    ensures { DecodedUnder R.ruling (constraint_of constraint.now) result (shape_of ty.now) octets.now }
{
    let mut value = Value::Null;
    match decode_into_under::<R>(alloc, ty, constraint, octets, &mut value) {
        Err(fault) => Err(fault),
        Ok(()) => Ok(value),
    }
}

/// The encoding of a value of the type that meets the constraint.
///
/// # Errors
/// `NotOfType` where the value does not fit the type, or breaks the constraint. Else as `Rules::encode`.
pub fn encode_under<R: Rules>(
    alloc: Global,
    ty: &Checked,
    constraint: &Constraint,
    value: &Value,
) -> Result<Vec<u8>, EncodeFault>
    ensures encoding { IfOk result (λ o.
        IsEncodingUnder R.ruling (shape_of ty.now) (constraint_of constraint.now) (datum_of value.now) o.items) }
    ensures within { IfOk result (λ o. vec_len o ≤ max_octets) }
    ensures fault { IfErr result (λ why.
        NotEncodedUnder R.ruling why (shape_of ty.now) (constraint_of constraint.now) (datum_of value.now)) }
{
    if !judge(constraint, value) {
        return Err(EncodeFault::NotOfType);
    }
    R::encode(alloc, ty, value)
}
