//! Calls of any rules that stand nowhere else, in the style of `decode::<R>`.
ghost use Rattle.std.specs.Prelude.{◌≡◌, IfOk, IfErr, OnOk, Err};
ghost use Rattle.asn_values.specs.Datum.{Datum};
ghost use Rattle.asn_values.specs.View.{shape_of, datum_of};
ghost use Rattle.asn_newer.specs.Reading.{IsNewer, IsNewerAt, NotNewer};
ghost use Rattle.asn_rules.specs.Answer.{IsEncoding};
ghost use Rattle.asn_rules.specs.Codec.{Decoded};
ghost use Rattle.asn_rules.specs.Delivered.{Encoded, NotDelivered};
ghost use Rattle.asn_rules.specs.Faults.{state_of};

use asn_newer::{NewerAt, NewerFault, ReadNewer};
use asn_plan::{PlanRules, check_exactly};
use asn_rules::{Counted, DecodeFault, EncodeToFault, Newer, Rules};
use asn_values::{Checked, Value};
use std::alloc::Global;
use std::io::Write;

/// Whether the octets are the complete encoding of a value of the type by the rules R. No value is built, whatever the
/// octets are: what is taken for the time of the call is one string or open type field of the message.
///
/// # Errors
/// As `decode`: they are none, or an allocation failed.
pub fn check<R: PlanRules>(alloc: Global, ty: &Checked, octets: &[u8]) -> Result<(), DecodeFault>
    ensures done { OnOk result ((d : Datum) × IsEncoding R.ruling (shape_of ty.now) d octets.now) }
    ensures fault { IfErr result (λ why. Decoded R.ruling (Err why) (shape_of ty.now) octets.now) }
{
    match check_exactly::<R>(alloc, ty, octets) {
        Ok(()) => Ok(()),
        Err(fault) => Err(fault),
    }
}

/// Writes the encoding of a value of the type to a writer, piece by piece: see `Rules::encode_to`. Takes no memory, and
/// does not flush the writer.
///
/// # Errors
/// As `Rules::encode_to`.
pub fn encode_to<R: Rules, W: Write>(
    ty: &Checked,
    value: &Value,
    output: &mut Counted<W>,
) -> Result<(), EncodeToFault>
    ensures written { OnOk result (Encoded R.ruling (shape_of ty.now) (datum_of value.now)
        (state_of W.contents output.old) (state_of W.contents output.new)) }
    ensures fault { IfErr result (λ why. NotDelivered R.ruling why (shape_of ty.now) (datum_of value.now)
        (output.new ≡ output.old) (state_of W.contents output.old) (state_of W.contents output.new)) }
{
    R::encode_to::<Counted<W>>(ty, value, output)
}

/// Reads the octets as a message of some version of the type: see `ReadNewer::read_newer`.
///
/// # Errors
/// As `ReadNewer::read_newer`.
pub fn read_newer<R: ReadNewer>(
    alloc: Global,
    ty: &Checked,
    octets: &[u8],
) -> Result<Newer, NewerFault>
    ensures read { IfOk result (λ n. IsNewer R.OtherVersions.loose (shape_of ty.now) n octets.now) }
    ensures fault { IfErr result (λ why. NotNewer R.OtherVersions.loose (shape_of ty.now) octets.now why) }
{
    R::read_newer(alloc, ty, octets)
}

/// The same, with the path to the SEQUENCE or CHOICE of each skipped field: see `ReadNewer::read_newer_at`.
///
/// # Errors
/// As `ReadNewer::read_newer_at`.
pub fn read_newer_at<R: ReadNewer>(
    alloc: Global,
    ty: &Checked,
    octets: &[u8],
) -> Result<NewerAt, NewerFault>
    ensures read { IfOk result (λ n. IsNewerAt R.OtherVersions.loose (shape_of ty.now) n octets.now) }
    ensures fault { IfErr result (λ why. NotNewer R.OtherVersions.loose (shape_of ty.now) octets.now why) }
{
    R::read_newer_at(alloc, ty, octets)
}
