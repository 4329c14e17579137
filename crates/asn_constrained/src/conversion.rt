//! Octets of one set of encoding rules become those of another, under a constraint.
ghost use Rattle.std.specs.Prelude.{ℕ, List};
ghost use Rattle.asn_values.specs.View.{shape_of};
ghost use Rattle.asn_constraints.specs.View.{constraint_of};
ghost use Rattle.asn_constrained.specs.Converted.{ConvertsUnder, ConvertedUnder, GivesUnlessMemory};

use crate::constrained_type::ConstrainedType;
use crate::fault::ConstrainedFault;
use crate::planned::decode_by_plan;
use asn_constraints::Constraint;
use asn_plan::{PlanRules, Planned};
use asn_rules::laws::are_octets;
use asn_rules::{EncodeFault, Rules};
use std::alloc::Global;
use thiserror::Error;

/// Why octets are not converted under a constraint.
#[derive(Debug, Drop, Error)]
pub enum ConvertFault {
    /// They are no encoding under the constraint, or an allocation failed while they were decoded.
    #[error("{0}")]
    Read(ConstrainedFault),
    /// They are an encoding of a value that has none of at most 268,435,455 octets in the other rules.
    #[error("too long")]
    TooLong,
    /// An allocation failed while the value was encoded.
    #[error("memory")]
    Memory,
}

impl ConstrainedType {
    /// The octets by the rules B of the value that these octets are by the rules A.
    ///
    /// They are given exactly where both are encodings under the constraint of one value, each of at most 268,435,455
    /// octets, unless an allocation failed. So what is given, converted back, gives these octets.
    ///
    /// # Errors
    /// `Read` where the octets are no encoding by A under the constraint, with the fault of `decode`; `TooLong` where
    /// they are and the encoding of their value by B has more than 268,435,455 octets; `Memory` where an allocation
    /// failed.
    pub fn convert<A: PlanRules, B: Rules>(
        &self,
        alloc: Global,
        octets: &[u8],
    ) -> Result<Vec<u8>, ConvertFault>
        ensures converted { ConvertedUnder A.ruling B.ruling (constraint_of self.now.constraint.value) result
            (shape_of self.now.planned) octets.now }
        ensures exact { (p : List ℕ) → ConvertsUnder A.ruling B.ruling (constraint_of self.now.constraint.value)
            (shape_of self.now.planned) octets.now p → GivesUnlessMemory result p }
    {
        <A as Rules>::keep_laws();
        B::keep_laws();
        let _of_profile = self.ty().get();
        recode::<A, B>(alloc, self.planned(), self.constraint(), octets)
    }
}

/// Decodes the octets by A and encodes their value by B.
fn recode<A: PlanRules, B: Rules>(
    alloc: Global,
    planned: &Planned,
    constraint: &Constraint,
    octets: &[u8],
) -> Result<Vec<u8>, ConvertFault>
    ensures { ConvertedUnder A.ruling B.ruling (constraint_of constraint.now) result
        (shape_of planned.now) octets.now }
{
    are_octets(octets);
    let value = match decode_by_plan::<A>(alloc, planned, constraint, octets) {
        Ok(value) => value,
        Err(fault) => return Err(ConvertFault::Read(fault)),
    };
    match B::encode(alloc, planned.get(), &value) {
        Ok(other) => {
            are_octets(other.as_slice());
            Ok(other)
        }
        Err(EncodeFault::TooLong) => Err(ConvertFault::TooLong),
        Err(EncodeFault::Memory) => Err(ConvertFault::Memory),
        Err(EncodeFault::NotOfType) => unreachable!(),
    }
}
