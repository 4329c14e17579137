//! The fields of a message by encoding rules that are known by name.
ghost use Rattle.std.specs.Prelude.{IfOk, IfSome};
ghost use Rattle.asn_values.specs.View.{shape_of};
ghost use Rattle.asn_fields.specs.Tells.{Tells};
ghost use Rattle.asn_look.specs.Named.{ruling_of};

use asn_fields::{MessageFields, fields, fields_within};
use asn_jobs::RuleName;
use asn_oer::Oer;
use asn_per::Per;
use asn_values::Checked;
use std::alloc::{AllocError, Global};

/// The fields of octets by the rules of this name: one after the other they are the units of the octets, up to the
/// last or to the refused one, and say the value that the octets encode.
///
/// # Errors
/// `AllocError` where an allocation failed.
pub fn fields_by(
    alloc: Global,
    ty: &Checked,
    rules: RuleName,
    octets: &[u8],
) -> Result<MessageFields, AllocError>
    ensures { IfOk result (Tells (ruling_of rules) (shape_of ty.now) octets.now) }
{
    match rules {
        RuleName::Per => fields::<Per>(alloc, ty, octets),
        RuleName::Oer => fields::<Oer>(alloc, ty, octets),
    }
}

/// The fields of octets, as `fields_by` gives them, if they are at most `most`; `None` if there are more.
///
/// # Errors
/// `AllocError` if an allocation failed.
pub fn fields_within_by(
    alloc: Global,
    ty: &Checked,
    rules: RuleName,
    octets: &[u8],
    most: usize,
) -> Result<Option<MessageFields>, AllocError>
    ensures { IfOk result (λ o. IfSome o (Tells (ruling_of rules) (shape_of ty.now) octets.now)) }
{
    match rules {
        RuleName::Per => fields_within::<Per>(alloc, ty, octets, most),
        RuleName::Oer => fields_within::<Oer>(alloc, ty, octets, most),
    }
}
