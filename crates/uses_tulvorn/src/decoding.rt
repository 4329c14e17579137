//! The speed in a message.

ghost use Rattle.std.specs.Prelude.{◌≡◌, IfOk, IfErr, Err};
ghost use Rattle.tulvorn.specs.Codec.{Decoded};
ghost use Rattle.tulvorn.specs.Datum.{Datum};
ghost use Rattle.tulvorn.specs.PerRules.{IsPerEncoding, per_ruling};
ghost use Rattle.tulvorn.specs.Seen.{seen};
ghost use Rattle.tulvorn.specs.Typed.{typed};
ghost use Rattle.tulvorn.specs.View.{shape_of};
ghost use Rattle.uses_tulvorn.specs.Speed.{speed_in};

use std::alloc::Global;
use tulvorn::{Checked, DecodeFault, Per, View, Viewed, decode};

/// The number at the path `core.speed`; `None` if the type has none there.
pub fn speed_of(message: &View<'_>) -> Option<i128>
    ensures { result ≡ speed_in (seen message.now) }
{
    message.at("core.speed")?.as_int()
}

/// The speed in the message that the octets are.
///
/// # Errors
/// As `decode`.
pub fn decode_speed(alloc: Global, ty: &Checked, octets: &[u8]) -> Result<Option<i128>, DecodeFault>
    ensures speed { IfOk result (λ speed. (d : Datum) × IsPerEncoding (shape_of ty.now) d octets.now
        × (speed ≡ speed_in (typed (shape_of ty.now) d))) }
    ensures fault { IfErr result (λ why. Decoded per_ruling (Err why) (shape_of ty.now) octets.now) }
{
    let message = decode::<Per>(alloc, ty, octets)?;
    Ok(speed_of(&ty.view(&message)))
}
