//! The encoding of a SEQUENCE whose components are given by name.

ghost use Rattle.std.specs.Prelude.{◌≡◌, IfOk, Some};
ghost use Rattle.tulvorn.specs.Answer.{IsEncoding};
ghost use Rattle.tulvorn.specs.Built.{sequence_given};
ghost use Rattle.tulvorn.specs.Datum.{Datum};
ghost use Rattle.tulvorn.specs.View.{shape_of};

use anyhow::Result;
use std::alloc::Global;
use tulvorn::{ByName, Checked, Given, Rules, Value, encode};

/// The octets of the SEQUENCE that has what is given for each component.
///
/// # Errors
/// As `Value::sequence` and `encode`.
pub fn encoding_of<R: Rules>(
    alloc: Global,
    ty: &Checked,
    parts: &[(&str, Given<'_>)],
) -> Result<Vec<u8>>
    ensures { IfOk result (λ o. (d : Datum) × (sequence_given (shape_of ty.now) parts.now ≡ Some d)
        × IsEncoding R.ruling (shape_of ty.now) d o.items) }
{
    let report = Value::sequence(alloc, ty.get(), parts)?;
    Ok(encode::<R>(alloc, ty, &report)?)
}
