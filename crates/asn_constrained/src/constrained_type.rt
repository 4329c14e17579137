//! A type of the profile with a constraint on its values.
ghost use Rattle.std.specs.Prelude.{◌≡◌, IfOk};

use crate::codec::{broken_in, decode_front_into_under, decode_into_under, encode_under};
use crate::fault::ConstrainedFault;
use crate::planned::{check_under, decode_by_plan, decode_into_by_plan};
use crate::session::{ConstrainedSession, End};
use asn_constraints::{Broken, Constraint, judge};
use asn_plan::{PlanRules, Planned, Spare};
use asn_rules::{
    EncodeFault, EncodeIntoFault, EncodeToFault, LengthFault, OpenFault, Output, Rules,
};
use asn_values::{Checked, Value};
use std::alloc::{AllocError, Global};
use std::sync::Arc;

/// A type of the profile with its plan, and a constraint on its values. Its encodings are those of the type whose value
/// meets the constraint.
#[derive(Drop)]
pub struct ConstrainedType {
    planned: Planned,
    constraint: Arc<Constraint>,
}

impl ConstrainedType {
    /// The type under the constraint. Its plan is worked out once.
    ///
    /// # Errors
    /// `AllocError` where an allocation failed.
    pub fn new(
        alloc: Global,
        ty: Checked,
        constraint: Constraint,
    ) -> Result<ConstrainedType, AllocError>
        ensures ty { IfOk result (λ it. it.planned ≡ ty) }
        ensures constraint { IfOk result (λ it. it.constraint.value ≡ constraint) }
    {
        let planned = Planned::new(alloc, ty)?;
        match Arc::new(alloc, constraint) {
            Ok(constraint) => Ok(ConstrainedType {
                planned,
                constraint,
            }),
            Err(_) => Err(AllocError),
        }
    }

    /// The type alone.
    pub fn ty(&self) -> &Checked
        ensures { result.now ≡ self.now.planned }
    {
        self.planned.get()
    }

    /// The type alone, with its plan.
    pub fn planned(&self) -> &Planned
        ensures { result.now ≡ self.now.planned }
    {
        &self.planned
    }

    /// The constraint.
    pub fn constraint(&self) -> &Constraint
        ensures { result.now ≡ self.now.constraint.value }
    {
        &self.constraint
    }
}

impl ConstrainedType {
    ghost use Rattle.std.specs.Prelude.{Ok, Err, IfErr, OnOk};
    ghost use Rattle.asn_values.specs.View.{datum_of, shape_of};
    ghost use Rattle.asn_constraints.specs.View.{constraint_of};
    ghost use Rattle.asn_constrained.specs.Under.{Found, ChecksUnder, DecodedUnder, DecodedFrontUnder};

    /// Whether the octets are the complete encoding by the rules R of a value that meets the constraint: `Ok` exactly
    /// where they are, unless an allocation failed. Where the constraint is free this is `Planned::check`.
    ///
    /// # Errors
    /// As `decode`.
    pub fn check<R: PlanRules>(&self, alloc: Global, octets: &[u8]) -> Result<(), ConstrainedFault>
        ensures { ChecksUnder R.ruling (constraint_of self.now.constraint.value) result
            (shape_of self.now.planned) octets.now }
    {
        check_under::<R>(alloc, &self.planned, &self.constraint, octets)
    }

    /// The value whose complete encoding by the rules R the octets are, if it meets the constraint. The constraint is
    /// judged at the last unit of the encoding, also where octets follow it.
    ///
    /// # Errors
    /// `Broken` where the octets begin with the encoding of a value that breaks the constraint. Else `Type`, as
    /// `asn_rules::decode`.
    pub fn decode<R: PlanRules>(
        &self,
        alloc: Global,
        octets: &[u8],
    ) -> Result<Value, ConstrainedFault>
        ensures { DecodedUnder R.ruling (constraint_of self.now.constraint.value) result
            (shape_of self.now.planned) octets.now }
    {
        decode_by_plan::<R>(alloc, &self.planned, &self.constraint, octets)
    }

    /// Decodes that value into the one that is there: see `Planned::decode_into`.
    ///
    /// # Errors
    /// As `decode`. What is left of the value then is some value.
    pub fn decode_into<R: PlanRules>(
        &self,
        alloc: Global,
        octets: &[u8],
        value: &mut Value,
        spare: &mut Spare,
    ) -> Result<(), ConstrainedFault>
        ensures done { OnOk result (DecodedUnder R.ruling (constraint_of self.now.constraint.value) (Ok value.new)
            (shape_of self.now.planned) octets.now) }
        ensures fault { IfErr result (λ why. DecodedUnder R.ruling (constraint_of self.now.constraint.value) (Err why)
            (shape_of self.now.planned) octets.now) }
    {
        decode_into_by_plan::<R>(alloc, &self.planned, &self.constraint, octets, value, spare)
    }

    /// Decodes the value whose encoding the octets begin with into the one that is there, if it meets the constraint,
    /// and returns how many octets the encoding has: see `Rules::decode_front_into`.
    ///
    /// # Errors
    /// As `decode`, except `Rest`. What is left of the value then is some value.
    pub fn decode_front_into<R: Rules>(
        &self,
        alloc: Global,
        octets: &[u8],
        value: &mut Value,
    ) -> Result<usize, ConstrainedFault>
        ensures { DecodedFrontUnder R.ruling (constraint_of self.now.constraint.value) result value.new
            (shape_of self.now.planned) octets.now }
    {
        decode_front_into_under::<R>(alloc, self.planned.get(), &self.constraint, octets, value)
    }

    /// Where a value breaks the constraint, as one that `encode` refuses: `None` if it meets it.
    ///
    /// # Errors
    /// `AllocError` where an allocation failed.
    pub fn broken_in(&self, alloc: Global, value: &Value) -> Result<Option<Broken>, AllocError>
        ensures { IfOk result (λ found.
            Found (constraint_of self.now.constraint.value) (datum_of value.now) found) }
    {
        broken_in(alloc, &self.constraint, value)
    }
}

impl ConstrainedType {
    ghost use Rattle.std.specs.Prelude.{◌≤◌, IfErr, OnOk, true, vec_len};
    ghost use Rattle.asn_values.specs.View.{datum_of, shape_of};
    ghost use Rattle.asn_rules.specs.Answer.{max_octets};
    ghost use Rattle.asn_rules.specs.Delivered.{Encoded};
    ghost use Rattle.asn_rules.specs.Held.{state_held};
    ghost use Rattle.asn_rules.specs.Measured.{IsLength, Placed};
    ghost use Rattle.asn_constraints.specs.Constraints.{meets};
    ghost use Rattle.asn_constraints.specs.View.{constraint_of};
    ghost use Rattle.asn_constrained.specs.Measured.{NotMeasuredUnder, NotPlacedUnder, NotDeliveredUnder};
    ghost use Rattle.asn_constrained.specs.Under.{IsEncodingUnder, NotEncodedUnder};

    /// The encoding by the rules R of a value that meets the constraint.
    ///
    /// # Errors
    /// `NotOfType` where the value does not fit the type, or breaks the constraint: `broken_in` returns where. Else as
    /// `Rules::encode`.
    pub fn encode<R: Rules>(&self, alloc: Global, value: &Value) -> Result<Vec<u8>, EncodeFault>
        ensures encoding { IfOk result (λ o. IsEncodingUnder R.ruling (shape_of self.now.planned)
            (constraint_of self.now.constraint.value) (datum_of value.now) o.items) }
        ensures within { IfOk result (λ o. vec_len o ≤ max_octets) }
        ensures fault { IfErr result (λ why. NotEncodedUnder R.ruling why (shape_of self.now.planned)
            (constraint_of self.now.constraint.value) (datum_of value.now)) }
    {
        encode_under::<R>(alloc, self.planned.get(), &self.constraint, value)
    }

    /// How many octets that encoding has. It takes no memory.
    ///
    /// # Errors
    /// `NotOfType` as `encode`. Else as `Rules::encoded_len`.
    pub fn encoded_len<R: Rules>(&self, value: &Value) -> Result<usize, LengthFault>
        ensures length { IfOk result (λ n. IsLength R.ruling (shape_of self.now.planned) (datum_of value.now) n) }
        ensures met { IfOk result (λ _. meets (constraint_of self.now.constraint.value) (datum_of value.now) ≡ true) }
        ensures fault { IfErr result (λ why. NotMeasuredUnder R.ruling why (shape_of self.now.planned)
            (constraint_of self.now.constraint.value) (datum_of value.now)) }
    {
        if !judge(&self.constraint, value) {
            return Err(LengthFault::NotOfType);
        }
        R::encoded_len(self.planned.get(), value)
    }

    /// Writes that encoding into the first of these octets: see `Rules::encode_into`.
    ///
    /// # Errors
    /// `NotOfType` as `encode`. Else as `Rules::encode_into`. The octets are as they were then.
    pub fn encode_into<R: Rules>(
        &self,
        value: &Value,
        octets: &mut [u8],
    ) -> Result<usize, EncodeIntoFault>
        ensures encoding { IfOk result (λ n. Placed R.ruling (shape_of self.now.planned) (datum_of value.now) n
            octets.old octets.new) }
        ensures met { IfOk result (λ _. meets (constraint_of self.now.constraint.value) (datum_of value.now) ≡ true) }
        ensures fault { IfErr result (λ why. NotPlacedUnder R.ruling why (shape_of self.now.planned)
            (constraint_of self.now.constraint.value) (datum_of value.now) octets.old octets.new) }
    {
        if !judge(&self.constraint, value) {
            return Err(EncodeIntoFault::NotOfType);
        }
        R::encode_into(self.planned.get(), value, octets)
    }

    /// Writes that encoding to an output: see `Rules::encode_to`.
    ///
    /// # Errors
    /// `NotOfType` as `encode`: nothing was written. Else as `Rules::encode_to`.
    pub fn encode_to<R: Rules, O: Output>(
        &self,
        value: &Value,
        output: &mut O,
    ) -> Result<(), EncodeToFault>
        ensures written { OnOk result (Encoded R.ruling (shape_of self.now.planned) (datum_of value.now)
            (state_held (O.held output.old)) (state_held (O.held output.new))) }
        ensures met { OnOk result (meets (constraint_of self.now.constraint.value) (datum_of value.now) ≡ true) }
        ensures fault { IfErr result (λ why. NotDeliveredUnder R.ruling why (shape_of self.now.planned)
            (constraint_of self.now.constraint.value) (datum_of value.now) (output.new ≡ output.old)
            (state_held (O.held output.old)) (state_held (O.held output.new))) }
        ensures through { (O.held output.new).through ≡ (O.held output.old).through }
    {
        if !judge(&self.constraint, value) {
            return Err(EncodeToFault::NotOfType);
        }
        R::encode_to(self.planned.get(), value, output)
    }
}

impl ConstrainedType {
    ghost use Rattle.std.specs.Prelude.{[]};
    ghost use Rattle.asn_values.specs.View.{shape_of};
    ghost use Rattle.asn_constraints.specs.View.{constraint_of};
    ghost use Rattle.asn_constrained.specs.Sessions.{TookUnder, waiting};

    /// A session by the rules R for a value that meets the constraint, which has taken no octet.
    ///
    /// # Errors
    /// `Memory` where an allocation failed.
    pub fn open<R: Rules>(&self, alloc: Global) -> Result<ConstrainedSession<R>, OpenFault>
        ensures { IfOk result (λ q. TookUnder R.ruling R.took q.inner (constraint_of q.constraint.value) q.end
            (shape_of self.now.planned) (constraint_of self.now.constraint.value) (waiting [])) }
    {
        let ty = self.planned.get().copy()?;
        let constraint = self.constraint.clone()?;
        let inner = R::open(alloc, ty)?;
        Ok(ConstrainedSession {
            inner,
            constraint,
            alloc,
            end: End::Going,
        })
    }
}
