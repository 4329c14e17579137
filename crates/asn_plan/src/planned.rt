//! A type beside its plan.
ghost use Rattle.std.specs.Prelude.{◌≡◌, IfOk};

use crate::budget::{Budget, Taken, WithinFault};
use crate::build::Build;
use crate::lean::{Leans, leans_of};
use crate::message::{
    build_octets, check_by, check_within_by, decode_by, decode_into_by, decode_within_by, taken_by,
};
use crate::of::plan_of;
use crate::plan::Plan;
use crate::reused::Spare;
use crate::rules::PlanRules;
use asn_rules::DecodeFault;
use asn_values::{Checked, Value};
use std::alloc::{AllocError, Global};
use std::marker::Model;

/// A type of the profile, and its plan. To contracts it is the type.
#[derive(Drop)]
pub struct Planned {
    ty: Checked,
    leans: Leans,
    plan: Plan,
}

impl Model for Planned {
    ghost use Rattle.asn_values.specs.declared.types.AsnType.{AsnType};
    ghost use Rattle.asn_values.specs.contracts.types.AsnType as e;
    ghost use Rattle.std.specs.Coded.{codes};

    ghost Value = { AsnType };

    ghost coded = { Prim.hlevel (codes, e.the_row.coded) };

    ghost use Rattle.asn_values.specs.View.{shape_of};
    ghost use Rattle.asn_plan.specs.Lean.{AreLean};
    ghost use Rattle.asn_plan.specs.Plans.{IsPlanOf};

    ghost view = { λ p. p.ty };

    ghost invariant = { λ p. IsPlanOf p.plan (shape_of p.ty) × AreLean p.leans (shape_of p.ty) };
}

impl Planned {
    /// The type with its plan, which is worked out once.
    ///
    /// # Errors
    /// `AllocError` where an allocation failed.
    pub fn new(alloc: Global, ty: Checked) -> Result<Planned, AllocError>
        ensures { IfOk result (λ p. p ≡ ty) }
    {
        let plan = plan_of(alloc, &ty)?;
        let leans = leans_of(alloc, &ty, &plan)?;
        Ok(Planned { ty, leans, plan })
    }

    /// The type.
    pub fn get(&self) -> &Checked
        ensures { result.now ≡ self.now }
    {
        &self.ty
    }
}

impl Planned {
    ghost use Rattle.std.specs.Prelude.{◌≡◌, ◌≤◌, Ok, Err, IfErr, IfSome, IsSome, OnOk, length};
    ghost use Rattle.asn_values.specs.View.{shape_of};
    ghost use Rattle.asn_rules.specs.Answer.{max_octets};
    ghost use Rattle.asn_rules.specs.Codec.{Decoded};
    ghost use Rattle.asn_plan.specs.Plans.{BuildsMessage, Checks};
    ghost use Rattle.asn_plan.specs.Within.{CheckedWithin, DecodedWithin, IsTaken};

    /// Whether the octets are the complete encoding of some value of the type by the rules R: `Ok` exactly where they
    /// are, unless an allocation failed, and else the fault of `decode`. No value is built, whatever the octets are:
    /// what is taken for the time of the call is one string or open type field of the message.
    ///
    /// # Errors
    /// As `asn_rules::decode`.
    pub fn check<R: PlanRules>(&self, alloc: Global, octets: &[u8]) -> Result<(), DecodeFault>
        ensures { Checks R.ruling result (shape_of self.now) octets.now }
    {
        check_by::<R>(alloc, &self.ty, &self.leans, &self.plan, octets)
    }

    /// The value of the type whose complete encoding by the rules R the octets are: what `asn_rules::decode` answers.
    ///
    /// # Errors
    /// As `asn_rules::decode`.
    pub fn decode<R: PlanRules>(&self, alloc: Global, octets: &[u8]) -> Result<Value, DecodeFault>
        ensures { Decoded R.ruling result (shape_of self.now) octets.now }
    {
        decode_by::<R>(alloc, &self.ty, &self.leans, &self.plan, octets)
    }

    /// Decodes the value of the type whose complete encoding by the rules R the octets are into the one that is there,
    /// whose memory is used again as far as it serves: entries, elements, boxes and strings. Any value may be given, at
    /// first `Value::Null`, and any spare memory, at first none: what `asn_rules::decode_into` does, but that SEQUENCEs
    /// of a message which have no place in a later one are kept in the spare memory.
    ///
    /// # Errors
    /// As `asn_rules::decode`. What is left of the value then is some value.
    pub fn decode_into<R: PlanRules>(
        &self,
        alloc: Global,
        octets: &[u8],
        value: &mut Value,
        spare: &mut Spare,
    ) -> Result<(), DecodeFault>
        ensures done { OnOk result (Decoded R.ruling (Ok value.new) (shape_of self.now) octets.now) }
        ensures fault { IfErr result (λ why. Decoded R.ruling (Err why) (shape_of self.now) octets.now) }
    {
        decode_into_by::<R>(
            alloc,
            &self.ty,
            &self.leans,
            &self.plan,
            octets,
            value,
            spare,
        )
    }

    /// What is built, in this room, of the value of the type whose complete encoding by the rules R the octets are.
    /// `None` where the octets are no encoding or an allocation fails; then nothing is claimed, of the room neither.
    #[inline(always)]
    pub fn build<R: PlanRules, B: Build>(
        &self,
        alloc: Global,
        octets: &[u8],
        room: &mut B::Room,
    ) -> Option<B::Part>
        ensures within { IsSome result → length octets.now ≤ max_octets }
        ensures some { IfSome result (λ p.
            BuildsMessage R.ruling (B.built room.old room.new) (shape_of self.now) p octets.now) }
    {
        self.ty.get();
        build_octets::<R, B>(alloc, &self.plan, octets, room)
    }

    /// What the value takes whose complete encoding by the rules R the octets are. No value is built: what is taken
    /// for the time of the call is one string or open type field of the message. `None` where the octets are no
    /// encoding or an allocation fails; then nothing is claimed, and no other reader is asked.
    pub fn taken<R: PlanRules>(&self, alloc: Global, octets: &[u8]) -> Option<Taken>
        ensures { IsTaken R.ruling result (shape_of self.now) octets.now }
    {
        taken_by::<R>(alloc, &self.ty, &self.plan, octets)
    }

    /// What the value takes whose complete encoding by the rules R the octets are, if that is no more than the budget.
    /// No value is built, whatever the octets are: what is taken for the time of the call is one string or open type
    /// field of the message.
    ///
    /// # Errors
    /// `Decode` as `asn_rules::decode`; `OverBudget` where the octets are the encoding of a value that takes more.
    pub fn check_within<R: PlanRules>(
        &self,
        alloc: Global,
        octets: &[u8],
        budget: &Budget,
    ) -> Result<Taken, WithinFault>
        ensures { CheckedWithin R.ruling budget.now result (shape_of self.now) octets.now }
    {
        check_within_by::<R>(alloc, &self.ty, &self.leans, &self.plan, octets, budget)
    }

    /// The value of the type whose complete encoding by the rules R the octets are, if it takes no more than the
    /// budget. What it takes is counted first, as by `check_within`, so that no value is built but one within the
    /// budget.
    ///
    /// # Errors
    /// `Decode` as `asn_rules::decode`; `OverBudget` where the octets are the encoding of a value that takes more.
    pub fn decode_within<R: PlanRules>(
        &self,
        alloc: Global,
        octets: &[u8],
        budget: &Budget,
    ) -> Result<Value, WithinFault>
        ensures { DecodedWithin R.ruling budget.now result (shape_of self.now) octets.now }
    {
        decode_within_by::<R>(alloc, &self.ty, &self.leans, &self.plan, octets, budget)
    }
}
