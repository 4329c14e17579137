//! Messages of newer and older senders: their octets are the complete encoding of a value, and nothing follows it.
ghost use Rattle.std.specs.Prelude.{◌≡◌, IfOk, IfErr};
ghost use Rattle.asn_values.specs.View.{shape_of};
ghost use Rattle.asn_newer.specs.Reading.{IsNewer, IsNewerAt, NotNewer, fault_of};
ghost use Rattle.asn_newer.specs.Rules.{per_loose, oer_loose};

use crate::fault::NewerFault;
use crate::halt::Halt;
use crate::laws::OtherVersions;
use crate::leaves::ReadVersions;
use crate::path::{NewerAt, fields_of};
use crate::reader::read_content;
use asn_oer::Oer;
use asn_per::Per;
use asn_rules::laws::are_octets;
use asn_rules::{MAX_OCTETS, Newer, Rules};
use asn_values::Checked;
use std::alloc::Global;

/// Encoding rules of which messages of newer and older senders are read.
pub trait ReadNewer: Rules + OtherVersions {
    /// Reads the octets as a message of some version of the type: the value, with the entries and alternatives that the
    /// type has, and the fields that it has not. The octets are the whole message.
    ///
    /// # Errors
    /// `TooLong` where the octets are more than 268,435,455. `Memory` where an allocation failed. Else the octets are
    /// the message of no version: `Truncated` where they are one that was cut, `TooManyAdditions` where a count of
    /// additions, the index or tag of an alternative, or in PER the index of an item is past the profile, and else
    /// `Refused`. `TooManyAdditions` and `Refused` come only for octets with which no message begins; which of the three
    /// comes for these is not promised.
    fn read_newer(alloc: Global, ty: &Checked, octets: &[u8]) -> Result<Newer, NewerFault>
        ensures read { IfOk result (λ n. IsNewer Self.loose (shape_of ty.now) n octets.now) }
        ensures fault { IfErr result (λ why. NotNewer Self.loose (shape_of ty.now) octets.now why) };

    /// The same, with the path to the SEQUENCE or CHOICE of each skipped field.
    ///
    /// # Errors
    /// As of `read_newer`.
    fn read_newer_at(alloc: Global, ty: &Checked, octets: &[u8]) -> Result<NewerAt, NewerFault>
        ensures read { IfOk result (λ n. IsNewerAt Self.loose (shape_of ty.now) n octets.now) }
        ensures fault { IfErr result (λ why. NotNewer Self.loose (shape_of ty.now) octets.now why) };
}

impl ReadNewer for Per {
    fn read_newer(alloc: Global, ty: &Checked, octets: &[u8]) -> Result<Newer, NewerFault> {
        read_fields::<Per>(alloc, ty, octets)
    }

    fn read_newer_at(alloc: Global, ty: &Checked, octets: &[u8]) -> Result<NewerAt, NewerFault> {
        read_message::<Per>(alloc, ty, octets)
    }
}

impl ReadNewer for Oer {
    fn read_newer(alloc: Global, ty: &Checked, octets: &[u8]) -> Result<Newer, NewerFault> {
        read_fields::<Oer>(alloc, ty, octets)
    }

    fn read_newer_at(alloc: Global, ty: &Checked, octets: &[u8]) -> Result<NewerAt, NewerFault> {
        read_message::<Oer>(alloc, ty, octets)
    }
}

/// Reads the octets as a message of some version of the type; the paths of skipped fields are left out.
fn read_fields<R: ReadVersions>(
    alloc: Global,
    ty: &Checked,
    octets: &[u8],
) -> Result<Newer, NewerFault>
    ensures read { IfOk result (λ n. IsNewer R.loose (shape_of ty.now) n octets.now) }
    ensures fault { IfErr result (λ why. NotNewer R.loose (shape_of ty.now) octets.now why) }
{
    match read_message::<R>(alloc, ty, octets) {
        Ok(NewerAt { value, skipped }) => match fields_of(alloc, skipped) {
            Ok(skipped) => Ok(Newer { value, skipped }),
            Err(_) => Err(NewerFault::Memory),
        },
        Err(fault) => Err(fault),
    }
}

/// Reads the octets as a message of some version of the type.
fn read_message<R: ReadVersions>(
    alloc: Global,
    ty: &Checked,
    octets: &[u8],
) -> Result<NewerAt, NewerFault>
    ensures read { IfOk result (λ n. IsNewerAt R.loose (shape_of ty.now) n octets.now) }
    ensures fault { IfErr result (λ why. NotNewer R.loose (shape_of ty.now) octets.now why) }
{
    R::keep_walk_laws();
    if octets.len() > MAX_OCTETS {
        return Err(NewerFault::TooLong);
    }
    are_octets(octets);
    let mut skipped = Vec::new(alloc);
    match read_content::<R>(alloc, ty.get(), octets, &mut skipped) {
        Ok(value) => Ok(NewerAt { value, skipped }),
        Err(halt) => Err(fault_of(halt)),
    }
}

/// What is told of a message where its reader halts.
fn fault_of(halt: Halt) -> NewerFault
    ensures { result ≡ fault_of halt }
{
    match halt {
        Halt::Refused => NewerFault::Refused,
        Halt::Short => NewerFault::Truncated,
        Halt::TooMany => NewerFault::TooManyAdditions,
        Halt::Memory => NewerFault::Memory,
    }
}
