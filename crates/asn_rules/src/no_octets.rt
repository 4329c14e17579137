//! Whether no octets are an encoding, as it follows from what is answered to them.
ghost use Rattle.std.specs.Prelude.{[], Err, IfOk};
ghost use Rattle.asn_values.specs.Shape.{Shape};
ghost use Rattle.asn_rules.specs.Answer.{Ruling};
ghost use Rattle.asn_rules.specs.AtOnce.{FedAtOnce, TellsIfNone};

use crate::session::{FeedFault, Step};
use std::alloc::AllocError;

/// Whether what was answered to no octets is a value.
///
/// # Errors
/// `AllocError` where an allocation failed.
#[tactic(auto, using(crate::proofs::Answer::NoOctets::more_told))]
pub fn is_value_of_none(answer: &Result<Step, FeedFault>) -> Result<bool, AllocError>
    ensures { (r : Ruling) (t : Shape) → FedAtOnce r t [] answer.now → IfOk result (TellsIfNone r t) }
{
    match answer {
        Ok(Step::Done { .. }) => Ok(true),
        Ok(Step::More) => Ok(false),
        Err(fault) => no_value(*fault),
    }
}

/// That a fault answered to no octets is no value.
///
/// # Errors
/// As `is_value_of_none`.
fn no_value(fault: FeedFault) -> Result<bool, AllocError>
    ensures { (r : Ruling) (t : Shape) → FedAtOnce r t [] (Err fault) → IfOk result (TellsIfNone r t) }
{
    match fault {
        FeedFault::Memory => Err(AllocError),
        FeedFault::Refused { .. } => Ok(false),
        FeedFault::TooLong => Ok(false),
        FeedFault::Spent => Ok(false),
    }
}
