//! Whole messages, by a plan.
ghost use Rattle.std.specs.Prelude.{◌≡◌, ◌≤◌, Ok, Err, IfErr, IfSome, IsSome, OnOk, length, true};
ghost use Rattle.asn_values.specs.Profile.{InProfile};
ghost use Rattle.asn_values.specs.Shape.{Shape};
ghost use Rattle.asn_values.specs.View.{shape_of, datum_of};
ghost use Rattle.asn_rules.specs.Answer.{IsEncoding, max_octets};
ghost use Rattle.asn_rules.specs.Codec.{Decoded};
ghost use Rattle.asn_plan.specs.InOrder.{SpellsIndexes};
ghost use Rattle.asn_plan.specs.Lean.{AreLean, lean as lean_shape};
ghost use Rattle.asn_plan.specs.Nothing.{SpellsNothing};
ghost use Rattle.asn_plan.specs.Plans.{IsPlanOf, BuildsMessage, Checks};
ghost use Rattle.asn_plan.specs.Within.{CheckedWithin, DecodedWithin, IsTaken};

use crate::budget::{Budget, Taken, WithinFault};
use crate::build::{Build, Nothing};
use crate::counting::Counting;
use crate::lean::Leans;
use crate::open::build_complete;
use crate::plan::Plan;
use crate::reused::{Reused, Spare};
use crate::rules::{PlanLeaves, PlanRules};
use crate::whole::Values;
use asn_rules::{DecodeFault, MAX_OCTETS, Rules};
use asn_values::{Checked, Value};
use asn_walk::ReadLeaves;
use asn_walk_check::check_message;
use std::alloc::Global;
use std::mem;

/// What is built, in this room, of the value whose encoding the octets are. Where it gives nothing, nothing is said.
#[inline(always)]
pub fn build_octets<R: PlanLeaves, B: Build>(
    alloc: Global,
    plan: &Plan,
    octets: &[u8],
    room: &mut B::Room,
) -> Option<B::Part>
    ensures within { IsSome result → length octets.now ≤ max_octets }
    ensures some { IfSome result (λ p. (t : Shape) → InProfile t → IsPlanOf plan.now t
        → BuildsMessage R.rules.ruling (B.built room.old room.new) t p octets.now) }
{
    if octets.len() > MAX_OCTETS {
        return None;
    }
    let part = build_complete::<R, B>(alloc, plan.nodes.as_slice(), &plan.root, octets, room)?;
    Some(part)
}

/// Whether the octets are the complete encoding of some value of the type by the rules R: `Ok` exactly where they are,
/// unless an allocation failed, and else the fault of `decode`. No value is built: what is taken for the time of the call
/// is one string or open type field of the message.
///
/// # Errors
/// As `asn_rules::decode`.
pub fn check_exactly<R: PlanRules>(
    alloc: Global,
    ty: &Checked,
    octets: &[u8],
) -> Result<(), DecodeFault>
    ensures { Checks R.ruling result (shape_of ty.now) octets.now }
{
    check_message::<R>(alloc, ty, octets)
}

/// The same as `check_exactly`, by what the type is without the components that have no units, whose spellings are the same.
fn check_as_lean<R: PlanRules>(
    alloc: Global,
    ty: &Checked,
    lean: &Checked,
    _single: bool,
    octets: &[u8],
) -> Result<(), DecodeFault>
    requires lean { shape_of lean.now ≡ lean_shape _single (shape_of ty.now) }
    requires law { SpellsNothing _single R.rules.code }
    requires indexes { _single ≡ true → SpellsIndexes R.rules.code }
    ensures { Checks R.ruling result (shape_of ty.now) octets.now }
{
    <R as ReadLeaves>::keep_laws();
    ty.get();
    lean.get();
    check_exactly::<R>(alloc, lean, octets)
}

/// The same as `check_exactly`, by a lean type if there is one.
#[inline(never)]
fn check_leanly<R: PlanRules>(
    alloc: Global,
    ty: &Checked,
    leans: &Leans,
    octets: &[u8],
) -> Result<(), DecodeFault>
    requires { AreLean leans.now (shape_of ty.now) }
    ensures { Checks R.ruling result (shape_of ty.now) octets.now }
{
    if R::single_is_empty()
        && R::spells_indexes()
        && let Some(lean) = &leans.single
    {
        return check_as_lean::<R>(alloc, ty, lean, true, octets);
    }
    R::keep_nothing();
    match &leans.any {
        Some(lean) => check_as_lean::<R>(alloc, ty, lean, false, octets),
        None => check_exactly::<R>(alloc, ty, octets),
    }
}

/// Whether the octets are the encoding of some value of the type: `Ok` exactly where they are, unless an allocation failed,
/// and else the fault of `decode`.
///
/// # Errors
/// As `asn_rules::decode`.
#[inline(always)]
pub(crate) fn check_by<R: PlanRules>(
    alloc: Global,
    ty: &Checked,
    leans: &Leans,
    plan: &Plan,
    octets: &[u8],
) -> Result<(), DecodeFault>
    requires plan { IsPlanOf plan.now (shape_of ty.now) }
    requires lean { AreLean leans.now (shape_of ty.now) }
    ensures { Checks R.ruling result (shape_of ty.now) octets.now }
{
    ty.get();
    if let Some(()) = build_octets::<R, Nothing>(alloc, plan, octets, &mut ()) {
        return Ok(());
    }
    check_leanly::<R>(alloc, ty, leans, octets)
}

/// The value of the type whose complete encoding the octets are: what `asn_rules::decode` answers.
///
/// # Errors
/// As `asn_rules::decode`.
#[inline(always)]
pub(crate) fn decode_by<R: PlanRules>(
    alloc: Global,
    ty: &Checked,
    leans: &Leans,
    plan: &Plan,
    octets: &[u8],
) -> Result<Value, DecodeFault>
    requires plan { IsPlanOf plan.now (shape_of ty.now) }
    requires lean { AreLean leans.now (shape_of ty.now) }
    ensures { Decoded R.ruling result (shape_of ty.now) octets.now }
{
    ty.get();
    if let Some(value) = build_octets::<R, Values>(alloc, plan, octets, &mut ()) {
        return Ok(value);
    }
    if let Err(why) = check_leanly::<R>(alloc, ty, leans, octets) {
        return Err(why);
    }
    R::decode(alloc, ty, octets)
}

/// The value becomes the one whose encoding the octets are, in its memory and the spare one; otherwise some value is
/// left.
#[inline(always)]
fn overwrite<R: PlanLeaves>(
    alloc: Global,
    plan: &Plan,
    octets: &[u8],
    value: &mut Value,
    spare: &mut Spare,
) -> bool
    ensures within { result ≡ true → length octets.now ≤ max_octets }
    ensures some { result ≡ true → (t : Shape) → InProfile t → IsPlanOf plan.now t
        → IsEncoding R.rules.ruling t (datum_of value.new) octets.now }
{
    if spare.begin(mem::replace(value, Value::Null)).is_none() {
        return false;
    }
    if let Some(()) = build_octets::<R, Reused>(alloc, plan, octets, spare) {
        *value = spare.here.take();
        return true;
    }
    false
}

/// Decodes the value of the type whose complete encoding the octets are into the one that is there: what
/// `asn_rules::decode_into` does.
///
/// # Errors
/// As `asn_rules::decode_into`.
#[inline(always)]
pub(crate) fn decode_into_by<R: PlanRules>(
    alloc: Global,
    ty: &Checked,
    leans: &Leans,
    plan: &Plan,
    octets: &[u8],
    value: &mut Value,
    spare: &mut Spare,
) -> Result<(), DecodeFault>
    requires plan { IsPlanOf plan.now (shape_of ty.now) }
    requires lean { AreLean leans.now (shape_of ty.now) }
    ensures done { OnOk result (Decoded R.ruling (Ok value.new) (shape_of ty.now) octets.now) }
    ensures fault { IfErr result (λ why. Decoded R.ruling (Err why) (shape_of ty.now) octets.now) }
{
    ty.get();
    if overwrite::<R>(alloc, plan, octets, value, spare) {
        return Ok(());
    }
    if let Err(why) = check_leanly::<R>(alloc, ty, leans, octets) {
        return Err(why);
    }
    R::decode_into(alloc, ty, octets, value)
}

/// What the value takes whose complete encoding the octets are. Where it gives nothing, nothing is said.
#[inline(always)]
pub(crate) fn taken_by<R: PlanRules>(
    alloc: Global,
    ty: &Checked,
    plan: &Plan,
    octets: &[u8],
) -> Option<Taken>
    requires { IsPlanOf plan.now (shape_of ty.now) }
    ensures { IsTaken R.ruling result (shape_of ty.now) octets.now }
{
    ty.get();
    build_octets::<R, Counting>(alloc, plan, octets, &mut ())
}

/// The fault of octets at which the walk gave up: it does so at no encoding unless an allocation failed.
#[inline(never)]
fn fault_of<R: PlanRules>(alloc: Global, ty: &Checked, leans: &Leans, octets: &[u8]) -> DecodeFault
    requires { AreLean leans.now (shape_of ty.now) }
    ensures { Decoded R.ruling (Err result) (shape_of ty.now) octets.now }
{
    match check_leanly::<R>(alloc, ty, leans, octets) {
        Ok(()) => DecodeFault::Memory,
        Err(why) => why,
    }
}

/// What the value takes whose complete encoding the octets are, if it takes no more than the budget.
///
/// # Errors
/// `Decode` as `asn_rules::decode`; `OverBudget` where the octets are the encoding of a value that takes more.
#[inline(always)]
pub(crate) fn check_within_by<R: PlanRules>(
    alloc: Global,
    ty: &Checked,
    leans: &Leans,
    plan: &Plan,
    octets: &[u8],
    budget: &Budget,
) -> Result<Taken, WithinFault>
    requires plan { IsPlanOf plan.now (shape_of ty.now) }
    requires lean { AreLean leans.now (shape_of ty.now) }
    ensures { CheckedWithin R.ruling budget.now result (shape_of ty.now) octets.now }
{
    ty.get();
    let Some(taken) = taken_by::<R>(alloc, ty, plan, octets) else {
        let why = fault_of::<R>(alloc, ty, leans, octets);
        return Err(WithinFault::Decode(why));
    };
    if !taken.is_within(budget) {
        return Err(WithinFault::OverBudget);
    }
    Ok(taken)
}

/// The value of the type whose complete encoding the octets are, if it takes no more than the budget.
///
/// # Errors
/// `Decode` as `asn_rules::decode`; `OverBudget` where the octets are the encoding of a value that takes more.
#[inline(always)]
pub(crate) fn decode_within_by<R: PlanRules>(
    alloc: Global,
    ty: &Checked,
    leans: &Leans,
    plan: &Plan,
    octets: &[u8],
    budget: &Budget,
) -> Result<Value, WithinFault>
    requires plan { IsPlanOf plan.now (shape_of ty.now) }
    requires lean { AreLean leans.now (shape_of ty.now) }
    ensures { DecodedWithin R.ruling budget.now result (shape_of ty.now) octets.now }
{
    <R as Rules>::keep_laws();
    ty.get();
    let Some(taken) = taken_by::<R>(alloc, ty, plan, octets) else {
        return Err(WithinFault::Decode(fault_of::<R>(alloc, ty, leans, octets)));
    };
    if !taken.is_within(budget) {
        return Err(WithinFault::OverBudget);
    }
    match decode_by::<R>(alloc, ty, leans, plan, octets) {
        Ok(value) => Ok(value),
        Err(why) => Err(WithinFault::Decode(why)),
    }
}
