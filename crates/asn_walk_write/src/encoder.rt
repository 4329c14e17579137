//! The encoders of messages.
ghost use Rattle.std.specs.Prelude.{◌≡◌, ◌≤◌, IfOk, IfErr, OnOk, length, vec_len};
ghost use Rattle.asn_values.specs.Fits.{Fits};
ghost use Rattle.asn_values.specs.Profile.{InProfile};
ghost use Rattle.asn_values.specs.View.{shape_of, datum_of};
ghost use Rattle.asn_bits.specs.Numbers.{unpacked};
ghost use Rattle.asn_rules.specs.Answer.{IsEncoding, max_octets};
ghost use Rattle.asn_rules.specs.Codec.{NotEncoded};
ghost use Rattle.asn_rules.specs.Delivered.{Encoded, NotDelivered};
ghost use Rattle.asn_rules.specs.Held.{state_held};
ghost use Rattle.asn_rules.specs.Measured.{IsLength, NotMeasured, Placed, NotPlaced};
ghost use Rattle.asn_walk.specs.Writing.{TellsWhether};
ghost use Rattle.asn_walk_write.specs.Octets.{IsEncodable, octets_of};
ghost use Rattle.asn_window.specs.Written.{Wrote, Broke};

use crate::lengths::measure;
use crate::writer::write_complete;
use asn_bits::BitSink;
use asn_rules::{
    EncodeFault, EncodeIntoFault, EncodeToFault, LengthFault, MAX_OCTETS, Output, Unwritten,
};
use asn_source::Source;
use asn_values::{AsnType, Checked, Value};
use asn_walk::WriteLeaves;
use asn_window::{Filling, Window};
use std::alloc::{AllocError, Global};

/// The complete encoding of a value of the type.
///
/// # Errors
/// `NotOfType` if the value does not fit the type, `TooLong` if it fits and its encoding has more than 268,435,455
/// octets, `Memory` if it is and an allocation failed.
pub fn encode<R: WriteLeaves>(
    alloc: Global,
    ty: &Checked,
    value: &Value,
) -> Result<Vec<u8>, EncodeFault>
    ensures encoding { IfOk result (λ o. IsEncoding R.rules.ruling (shape_of ty.now) (datum_of value.now) o.items) }
    ensures within { IfOk result (λ o. vec_len o ≤ max_octets) }
    ensures fault { IfErr result (λ why. NotEncoded R.rules.ruling why (shape_of ty.now) (datum_of value.now)) }
{
    encode_from::<R, &Value>(alloc, ty, value)
}

/// The same of a value in any form.
///
/// # Errors
/// As `encode`.
#[inline(always)]
pub fn encode_from<R: WriteLeaves, V: Source>(
    alloc: Global,
    ty: &Checked,
    value: V,
) -> Result<Vec<u8>, EncodeFault>
    ensures encoding { IfOk result (λ o. IsEncoding R.rules.ruling (shape_of ty.now) (V.datum value) o.items) }
    ensures within { IfOk result (λ o. vec_len o ≤ max_octets) }
    ensures fault { IfErr result (λ why. NotEncoded R.rules.ruling why (shape_of ty.now) (V.datum value)) }
{
    R::keep_write_laws();
    let octets = match write_octets::<R, V>(alloc, ty, value) {
        Ok(octets) => octets,
        Err(Unwritten::NotOfType) => return Err(EncodeFault::NotOfType),
        // an allocation may fail before all of the value was seen
        Err(Unwritten::Full(_)) => {
            return match measure::<R, V>(ty.get(), value) {
                Some(_) => Err(EncodeFault::Memory),
                None => Err(EncodeFault::NotOfType),
            };
        }
    };
    if octets.len() > MAX_OCTETS {
        return Err(EncodeFault::TooLong);
    }
    Ok(octets)
}

/// The octets of the complete encoding of a value, where it is one of the type.
#[inline(always)]
fn write_octets<R: WriteLeaves, V: Source>(
    alloc: Global,
    ty: &Checked,
    value: V,
) -> Result<Vec<u8>, Unwritten<AllocError>>
    ensures of_type { TellsWhether result (Fits (shape_of ty.now) (V.datum value)) }
    ensures encoding { IfOk result (λ o. IsEncoding R.rules.ruling (shape_of ty.now) (V.datum value) o.items) }
{
    R::keep_write_laws();
    R::keep_open_laws();
    let inner = ty.get();
    let mut sink = BitSink::with_room(alloc)?;
    write_complete::<R, BitSink, V>(inner, value, 0, &mut sink)?;
    Ok(sink.into_octets())
}

/// How many octets the complete encoding of a value of the type has. It takes no memory, and walks the value once.
///
/// # Errors
/// `NotOfType` if the value does not fit the type, `TooLong` if it fits and its encoding has more than 268,435,455
/// octets.
pub fn encoded_len<R: WriteLeaves>(ty: &Checked, value: &Value) -> Result<usize, LengthFault>
    ensures length { IfOk result (λ n. IsLength R.rules.ruling (shape_of ty.now) (datum_of value.now) n) }
    ensures fault { IfErr result (λ why. NotMeasured R.rules.ruling why (shape_of ty.now) (datum_of value.now)) }
{
    encoded_len_from::<R, &Value>(ty, value)
}

/// The same of a value in any form.
///
/// # Errors
/// As `encoded_len`.
pub fn encoded_len_from<R: WriteLeaves, V: Source>(
    ty: &Checked,
    value: V,
) -> Result<usize, LengthFault>
    ensures length { IfOk result (λ n. IsLength R.rules.ruling (shape_of ty.now) (V.datum value) n) }
    ensures fault { IfErr result (λ why. NotMeasured R.rules.ruling why (shape_of ty.now) (V.datum value)) }
{
    R::keep_write_laws();
    R::keep_open_laws();
    length_of::<R, V>(ty.get(), value)
}

/// Gives the complete encoding of a value of the type to an output, piece by piece. It takes no memory, and does not
/// flush a writer. The value is walked to find its length, and once more to write it; what is inside n open type
/// fields is walked n times more, for their lengths.
///
/// # Errors
/// `NotOfType` if the value does not fit the type, `TooLong` if it fits and its encoding has more than 268,435,455
/// octets; both before the output is given an octet. `Write` if a write failed: `sent` octets were taken, the first
/// ones of the encoding. Nothing is tried again.
pub fn encode_to<R: WriteLeaves, O: Output>(
    ty: &Checked,
    value: &Value,
    output: &mut O,
) -> Result<(), EncodeToFault>
    ensures written { OnOk result (Encoded R.rules.ruling (shape_of ty.now) (datum_of value.now)
        (state_held (O.held output.old)) (state_held (O.held output.new))) }
    ensures fault { IfErr result (λ why. NotDelivered R.rules.ruling why (shape_of ty.now) (datum_of value.now)
        (output.new ≡ output.old) (state_held (O.held output.old)) (state_held (O.held output.new))) }
    ensures through { (O.held output.new).through ≡ (O.held output.old).through }
{
    R::keep_write_laws();
    R::keep_open_laws();
    let inner = ty.get();
    length_of::<R, &Value>(inner, value)?;
    match deliver::<R, O>(inner, value, output) {
        Ok(()) => Ok(()),
        Err(sent) => Err(EncodeToFault::Write { sent }),
    }
}

/// Puts the complete encoding of a value of the type into the first of these octets, and gives how many it has; the
/// others stay as they were. It takes no memory, and walks the value as often as `encode_to`.
///
/// # Errors
/// `NotOfType` if the value does not fit the type, `TooLong` if it fits and its encoding has more than 268,435,455
/// octets, `Short` if it has more octets than there are: `wanted` is how many. The octets are as they were then.
pub fn encode_into<R: WriteLeaves>(
    ty: &Checked,
    value: &Value,
    octets: &mut [u8],
) -> Result<usize, EncodeIntoFault>
    ensures encoding { IfOk result (λ n. Placed R.rules.ruling (shape_of ty.now) (datum_of value.now) n
        octets.old octets.new) }
    ensures fault { IfErr result (λ why. NotPlaced R.rules.ruling why (shape_of ty.now) (datum_of value.now)
        octets.old octets.new) }
{
    R::keep_write_laws();
    R::keep_open_laws();
    let inner = ty.get();
    let length = length_of::<R, &Value>(inner, value)?;
    if octets.len() < length {
        return Err(EncodeIntoFault::Short { wanted: length });
    }
    fill::<R>(inner, value, &mut octets[..length]);
    Ok(length)
}

/// How many octets the complete encoding of a value of the type has, where it is not too long.
fn length_of<R: WriteLeaves, V: Source>(ty: &AsnType, value: V) -> Result<usize, LengthFault>
    requires of_profile { InProfile (shape_of ty.now) }
    ensures encodable { OnOk result (IsEncodable R.rules ty.now (V.datum value)) }
    ensures length { IfOk result (λ n. n ≡ length (octets_of R.rules ty.now (V.datum value))) }
    ensures fault { IfErr result (λ why. NotMeasured R.rules.ruling why (shape_of ty.now) (V.datum value)) }
{
    R::keep_write_laws();
    let Some(length) = measure::<R, V>(ty, value) else {
        return Err(LengthFault::NotOfType);
    };
    if length > MAX_OCTETS as u64 {
        return Err(LengthFault::TooLong);
    }
    Ok(length as usize)
}

/// Puts the complete encoding of a value into octets, of which there are as many as it has.
fn fill<R: WriteLeaves>(ty: &AsnType, value: &Value, octets: &mut [u8])
    requires encodable { IsEncodable R.rules ty.now (datum_of value.now) }
    requires many { length octets.old ≡ length (octets_of R.rules ty.now (datum_of value.now)) }
    ensures { octets.new ≡ octets_of R.rules ty.now (datum_of value.now) }
{
    R::keep_open_laws();
    let mut filling = Filling {
        octets,
        count: 0,
        faults: 0,
    };
    // a slice answers a fault only where it is full, and then all octets are there
    let _ = deliver::<R, Filling<'_>>(ty, value, &mut filling);
}

/// Writes the complete encoding of a value, which is not too long.
///
/// # Errors
/// How many octets were written, where a write failed.
fn deliver<R: WriteLeaves, O: Output>(
    ty: &AsnType,
    value: &Value,
    output: &mut O,
) -> Result<(), u64>
    requires { IsEncodable R.rules ty.now (datum_of value.now) }
    ensures ok { OnOk result (Wrote (O.held output.old) (O.held output.new)
        (unpacked (octets_of R.rules ty.now (datum_of value.now)))) }
    ensures err { IfErr result (λ sent. Broke (O.held output.old) (O.held output.new) sent
        (unpacked (octets_of R.rules ty.now (datum_of value.now)))) }
{
    let mut window = Window::over(output);
    match write_complete::<R, Window<'_, O>, &Value>(ty, value, 0, &mut window) {
        Ok(()) => window.finish(),
        Err(Unwritten::NotOfType) => unreachable!(),
        Err(Unwritten::Full(never)) => match never {},
    }
}
