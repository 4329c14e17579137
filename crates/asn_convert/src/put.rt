//! What is written of an answer.
ghost use Rattle.std.specs.Prelude.{◌≡◌};
ghost use Rattle.asn_values.specs.Fits.{Fits};
ghost use Rattle.asn_values.specs.View.{shape_of, datum_of};
ghost use Rattle.asn_rules.specs.Faults.{faults_of, state_of};
ghost use Rattle.asn_convert.specs.Parts.{Wrote, Broke};
ghost use Rattle.asn_convert.specs.Put.{TextTold, TextBegun, DigitsTold, DigitsBegun, OctetsTold, OctetsBegun, IsWriteFault, GivesDigits, GivesNoDigits};
ghost use Rattle.asn_convert.specs.Text.{IsFront};

use crate::hex_writer::HexWriter;
use crate::texts::Answer;
use asn_jobs::RunFault;
use asn_rules::{Counted, EncodeToFault, Rules};
use asn_values::{Checked, Value};
use std::io::Write;

/// Writes the text.
pub(crate) fn put<W: Write>(output: &mut Counted<W>, text: &str) -> Result<(), RunFault>
    ensures ok { Wrote result W.contents output.old output.new (λ _ out. out ≡ text.now) }
    ensures err { Broke result W.contents output.old output.new (λ out. IsFront out text.now) }
{
    match output.write_all(text.as_bytes()) {
        Ok(()) => Ok(()),
        Err(_) => Err(RunFault::Write),
    }
}

/// Writes a text and its LF, and tells whether it is no refusal.
pub(crate) fn put_answer<W: Write>(
    output: &mut Counted<W>,
    answer: Answer,
) -> Result<bool, RunFault>
    ensures ok { Wrote result W.contents output.old output.new (TextTold answer) }
    ensures err { Broke result W.contents output.old output.new (TextBegun answer) }
{
    let Answer {
        text: mut text,
        is_good,
    } = answer;
    text.push_str("\n")?;
    put(output, text.as_str())?;
    Ok(is_good)
}

/// Writes the octets of the value in hexadecimal, or that they are too many, and an LF. True where they are written.
pub(crate) fn put_octets<R: Rules, W: Write>(
    output: &mut Counted<W>,
    ty: &Checked,
    value: &Value,
) -> Result<bool, RunFault>
    requires fits { Fits (shape_of ty.now) (datum_of value.now) }
    ensures ok { Wrote result W.contents output.old output.new
        (OctetsTold R.ruling (shape_of ty.now) (datum_of value.now)) }
    ensures err { Broke result W.contents output.old output.new
        (OctetsBegun R.ruling (shape_of ty.now) (datum_of value.now)) }
{
    if put_digits::<R, W>(output, ty, value)? {
        put(output, "\n")?;
        return Ok(true);
    }
    put(output, "! too long\n")?;
    Ok(false)
}

/// Writes the octets of the value in hexadecimal. False, and nothing is written, where they are too many.
fn put_digits<R: Rules, W: Write>(
    output: &mut Counted<W>,
    ty: &Checked,
    value: &Value,
) -> Result<bool, RunFault>
    requires fits { Fits (shape_of ty.now) (datum_of value.now) }
    ensures ok { Wrote result W.contents output.old output.new
        (DigitsTold R.ruling (shape_of ty.now) (datum_of value.now)) }
    ensures err { Broke result W.contents output.old output.new
        (DigitsBegun R.ruling (shape_of ty.now) (datum_of value.now)) }
{
    let before = output.faults();
    match give_digits::<R, W>(output, ty, value) {
        Ok(is_whole) => {
            if is_whole && output.faults() == before {
                return Ok(true);
            }
            Err(fault_since(before, output))
        }
        Err(EncodeToFault::Write { .. }) => Err(fault_since(before, output)),
        Err(EncodeToFault::TooLong) => Ok(false),
        Err(EncodeToFault::NotOfType) => unreachable!(),
    }
}

/// The fault of a run in which not all octets were written, `before` being how many faults the writer had answered at
/// first: `Write` where it has answered another one, else `Memory`, for more octets than 64 bits count, which no encoding
/// has.
fn fault_since<W>(before: u64, output: &Counted<W>) -> RunFault
    ensures { IsWriteFault result before (faults_of output.now) }
{
    // a count that stands at its end is taken as risen
    if before < output.faults() || before == u64::MAX {
        RunFault::Write
    } else {
        RunFault::Memory
    }
}

/// Gives the octets of the value to the writer in hexadecimal, and tells whether the last digit was written.
///
/// # Errors
/// As `Rules::encode_to`.
fn give_digits<R: Rules, W: Write>(
    output: &mut Counted<W>,
    ty: &Checked,
    value: &Value,
) -> Result<bool, EncodeToFault>
    ensures ok { GivesDigits R.ruling (shape_of ty.now) (datum_of value.now) result
        (state_of W.contents output.old) (state_of W.contents output.new) }
    ensures err { GivesNoDigits R.ruling (shape_of ty.now) (datum_of value.now) result (output.new ≡ output.old)
        (state_of W.contents output.old) (state_of W.contents output.new) }
{
    let mut digits = HexWriter::over(output);
    match R::encode_to(ty, value, &mut digits) {
        Ok(()) => Ok(digits.half.is_none()),
        Err(why) => Err(why),
    }
}
