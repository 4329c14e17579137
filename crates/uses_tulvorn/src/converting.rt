//! Conversion of messages, as a gateway does it.

ghost use Rattle.std.specs.Prelude.{IfOk};
ghost use Rattle.tulvorn.specs.Datum.{Datum};
ghost use Rattle.tulvorn.specs.OerRules.{IsOerEncoding};
ghost use Rattle.tulvorn.specs.PerRules.{IsPerEncoding};
ghost use Rattle.tulvorn.specs.View.{shape_of};

use std::alloc::Global;
use tulvorn::{Checked, ConvertFault, Oer, Per, convert};

/// The Canonical OER octets of the value that a CANONICAL-PER UNALIGNED message has.
///
/// # Errors
/// As `convert`.
pub fn oer_of(alloc: Global, ty: &Checked, message: &[u8]) -> Result<Vec<u8>, ConvertFault>
    ensures { IfOk result (λ o. (d : Datum) × IsPerEncoding (shape_of ty.now) d message.now
        × IsOerEncoding (shape_of ty.now) d o.items) }
{
    convert::<Per, Oer>(alloc, ty, message)
}
