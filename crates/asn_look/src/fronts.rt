//! Where the first of several messages ends that stand one after the other.
ghost use Rattle.std.specs.Prelude.{◌≤◌, IfOk, length};
ghost use Rattle.asn_values.specs.View.{shape_of};
ghost use Rattle.asn_look.specs.Fronts.{IsFront};
ghost use Rattle.asn_look.specs.Named.{ruling_of};

use asn_jobs::RuleName;
use asn_oer::Oer;
use asn_per::Per;
use asn_rules::{DecodeFault, Rules, decode};
use asn_values::Checked;
use std::alloc::{AllocError, Global};

/// How many octets the first message has: those of an encoding with which the octets begin, or all of them where they
/// begin with none that has octets, or with none that others follow.
///
/// # Errors
/// `AllocError` where an allocation failed.
pub fn front_len(
    alloc: Global,
    ty: &Checked,
    rules: RuleName,
    octets: &[u8],
) -> Result<usize, AllocError>
    ensures within { IfOk result (λ n. n ≤ length octets.now) }
    ensures front { IfOk result (IsFront (ruling_of rules) (shape_of ty.now) octets.now) }
{
    match rules {
        RuleName::Per => front_of::<Per>(alloc, ty, octets),
        RuleName::Oer => front_of::<Oer>(alloc, ty, octets),
    }
}

/// How many octets the first message has, by the rules R.
fn front_of<R: Rules>(alloc: Global, ty: &Checked, octets: &[u8]) -> Result<usize, AllocError>
    ensures within { IfOk result (λ n. n ≤ length octets.now) }
    ensures front { IfOk result (IsFront R.ruling (shape_of ty.now) octets.now) }
{
    match decode::<R>(alloc, ty, octets) {
        Err(DecodeFault::Rest { used }) if used > 0 => return Ok(used),
        Err(DecodeFault::Memory) => return Err(AllocError),
        _ => {}
    }
    Ok(octets.len())
}
