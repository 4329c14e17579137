//! `decode` for any encoding rules whose reader takes the octets of a message at once: they are read where they lie.
ghost use Rattle.std.specs.Prelude.{◌≡◌, ◌≤◌, ℕ, List, length, IfOk};
ghost use Rattle.asn_values.specs.View.{shape_of};
ghost use Rattle.asn_rules.specs.Answer.{Ruling, max_octets};
ghost use Rattle.asn_rules.specs.AtOnce.{FedAtOnce, TellsIfNone};
ghost use Rattle.asn_rules.specs.Codec.{Decoded};
ghost use Rattle.asn_rules.specs.Reading.{RulesTell};

use crate::fault::DecodeFault;
use crate::limits::MAX_OCTETS;
use crate::session::{FeedFault, Step, Truncated};
use asn_values::{Checked, Value};
use std::alloc::{AllocError, Global};

/// Encoding rules whose reader takes the octets of a message at once.
pub trait Reads {
    /// How values are spelt.
    ghost ruling: { Ruling };

    /// Reads the value whose encoding the octets begin with. Only the first 268,435,455 octets are read.
    ///
    /// # Errors
    /// As a session's answer to its first piece (`Rules::feed`).
    fn read(alloc: Global, ty: &Checked, octets: &[u8]) -> Result<Step, FeedFault>
        ensures { FedAtOnce ruling (shape_of ty.now) octets.now result };

    /// Whether the empty message, of no octets, is the encoding of a value of the type.
    ///
    /// # Errors
    /// `AllocError` where an allocation failed.
    fn may_be_empty(alloc: Global, ty: &Checked) -> Result<bool, AllocError>
        ensures { IfOk result (TellsIfNone ruling (shape_of ty.now)) };

    /// The number of units in `octets` octets.
    fn units_of(octets: usize) -> u64
        requires { octets ≤ max_octets }
        ensures { (o : List ℕ) → length o ≡ octets → length (ruling.units o) ≡ result };

    /// Readers can tell the encodings, unit by unit. The call does nothing: its clause is what proofs cite.
    fn keep_reading_laws()
        ensures { RulesTell ruling };
}

/// The value of the type whose complete encoding the octets are, read where they lie: see `asn_rules::decode`.
///
/// # Errors
/// As `asn_rules::decode`.
#[inline(always)]
pub fn decode_at_once<R: Reads>(
    alloc: Global,
    ty: &Checked,
    octets: &[u8],
) -> Result<Value, DecodeFault>
    ensures { Decoded R.ruling result (shape_of ty.now) octets.now }
{
    match R::read(alloc, ty, octets) {
        Ok(Step::Done { value, used }) => {
            if used < octets.len() {
                return Err(DecodeFault::Rest { used });
            }
            Ok(value)
        }
        Ok(Step::More) => {
            let taken = cut_after::<R>(octets.len()).taken;
            Err(DecodeFault::Truncated { taken })
        }
        Err(FeedFault::Refused { at, why }) => Err(DecodeFault::Refused { at, why }),
        Err(FeedFault::TooLong) => Err(DecodeFault::TooLong),
        Err(FeedFault::Memory) => Err(DecodeFault::Memory),
        Err(FeedFault::Spent) => unreachable!(),
    }
}

/// How many units were taken where octets are cut short; at most 268,435,455 octets are counted.
fn cut_after<R: Reads>(octets: usize) -> Truncated
    ensures { (o : List ℕ) → length o ≡ octets → octets ≤ max_octets
        → length (R.ruling.units o) ≡ result.taken }
{
    let taken = R::units_of(octets.min(MAX_OCTETS));
    Truncated { taken }
}
