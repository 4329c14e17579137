//! Messages whose values may take no more than a budget.
ghost use Rattle.std.specs.Prelude.{◌≡◌, ⊤, IfOk, IfErr, Ok, Err};
ghost use Rattle.asn_values.specs.View.{shape_of};
ghost use Rattle.asn_plan.specs.Within.{CheckedWithin, DecodedWithin};
ghost use Rattle.tulvorn_c.specs.Answers.{AskedBy, ruling_of};
ghost use Rattle.tulvorn_c.specs.Held.{constrained_of, held_constrained};
ghost use Rattle.tulvorn_c.specs.Within.{
  budget_of,
  ChecksWithin,
  DecodesWithin,
  HoldsWithin,
  HasWithin,
  IsNotWithin,
};
ghost use Rattle.tulvorn_c.specs.Words.{unit_in};

use crate::fault::{DONE, Fault, MISUSE, NO_MEMORY};
use crate::handle::Handle;
use crate::held::HeldType;
use crate::object::Object;
use crate::sessions::put_value;
use crate::shown::Shown;
use std::alloc::{AllocError, Global};
use tulvorn::{
    Budget as Most, Checked, DecodeFault, Oer, Per, PlanRules, Planned, Taken, Unit, Value,
    WithinFault,
};

/// The most that a value may take: see `tulvorn::Budget`.
#[repr(C)]
#[derive(Clone, Copy, Drop)]
pub struct Budget {
    pub entries: u64,
    pub octets: u64,
}

/// Whether the octets are the encoding of a value of the type that takes no more than the budget and meets the
/// constraint: see `tulvorn::Planned::check_within`.
#[unsafe(no_mangle)]
pub extern "C" fn tulvorn_check_within(
    alloc: Global,
    ty: &Shown,
    rules: u32,
    octets: &[u8],
    budget: &Budget,
    fault: &mut Fault,
) -> u32
    ensures told { AskedBy (held_constrained ty.now.kept) (ruling_of rules) ⊤
        (ChecksWithin (unit_in rules) budget.now octets.now) fault.new }
    ensures code { result ≡ fault.new.code }
{
    let Some(it) = ty.object() else {
        *fault = Fault::plain(MISUSE);
        return MISUSE;
    };
    *fault = match it {
        Object::Checked(ty) => match rules {
            0 => check_by::<Per>(alloc, ty, octets, budget, Unit::Bit),
            1 => check_by::<Oer>(alloc, ty, octets, budget, Unit::Octet),
            _ => Fault::plain(MISUSE),
        },
        _ => Fault::plain(MISUSE),
    };
    fault.code
}

fn check_by<R: PlanRules>(
    alloc: Global,
    ty: &HeldType,
    octets: &[u8],
    budget: &Budget,
    unit: Unit,
) -> Fault
    ensures { ChecksWithin unit budget.now octets.now R.ruling (constrained_of ty.now) result }
{
    if ty.constraint.is_none() {
        return match taken_by::<R>(alloc, &ty.checked, octets, budget) {
            Ok(_) => Fault::plain(DONE),
            Err(fault) => Fault::of_within(fault),
        };
    }
    match admitted_by::<R>(alloc, ty, octets, budget, unit) {
        Ok(_) => Fault::plain(DONE),
        Err(fault) => fault,
    }
}

/// What the value takes, if it is within the budget.
fn taken_by<R: PlanRules>(
    alloc: Global,
    ty: &Checked,
    octets: &[u8],
    budget: &Budget,
) -> Result<Taken, WithinFault>
    ensures { CheckedWithin R.ruling (budget_of budget.now) result (shape_of ty.now) octets.now }
{
    let Ok(planned) = planned(alloc, ty) else {
        return Err(WithinFault::Decode(DecodeFault::Memory));
    };
    let most = most_of(budget);
    planned.check_within::<R>(alloc, octets, &most)
}

/// The value whose encoding the octets are, if it takes no more than the budget and meets the constraint: see
/// `tulvorn::Planned::decode_within`.
#[unsafe(no_mangle)]
pub extern "C" fn tulvorn_decode_within(
    alloc: Global,
    ty: &Shown,
    rules: u32,
    octets: &[u8],
    budget: &Budget,
    value: &mut Handle,
    fault: &mut Fault,
) -> u32
    ensures told { AskedBy (held_constrained ty.now.kept) (ruling_of rules) (value.new.kept ≡ value.old.kept)
        (DecodesWithin (unit_in rules) budget.now octets.now value.old.kept value.new.kept) fault.new }
    ensures code { result ≡ fault.new.code }
{
    let Some(it) = ty.object() else {
        *fault = Fault::plain(MISUSE);
        return MISUSE;
    };
    *fault = match it {
        Object::Checked(ty) => match rules {
            0 => decode_into_handle::<Per>(alloc, ty, octets, budget, Unit::Bit, value),
            1 => decode_into_handle::<Oer>(alloc, ty, octets, budget, Unit::Octet, value),
            _ => Fault::plain(MISUSE),
        },
        _ => Fault::plain(MISUSE),
    };
    fault.code
}

fn decode_into_handle<R: PlanRules>(
    alloc: Global,
    ty: &HeldType,
    octets: &[u8],
    budget: &Budget,
    unit: Unit,
    out: &mut Handle,
) -> Fault
    ensures { DecodesWithin unit budget.now octets.now out.old.kept out.new.kept R.ruling
        (constrained_of ty.now) result }
{
    match put_decoded::<R>(alloc, ty, octets, budget, unit, out) {
        Ok(()) => Fault::plain(DONE),
        Err(fault) => fault,
    }
}

/// Puts the value and its type into the handle.
fn put_decoded<R: PlanRules>(
    alloc: Global,
    ty: &HeldType,
    octets: &[u8],
    budget: &Budget,
    unit: Unit,
    out: &mut Handle,
) -> Result<(), Fault>
    ensures decoded { IfOk result (λ _.
        HoldsWithin budget.now R.ruling (constrained_of ty.now) octets.now out.new.kept) }
    ensures fault { IfErr result (IsNotWithin unit budget.now R.ruling (constrained_of ty.now) octets.now) }
    ensures stays { IfErr result (λ _. out.new.kept ≡ out.old.kept) }
{
    let value = admitted_by::<R>(alloc, ty, octets, budget, unit)?;
    match put_value(alloc, ty, value, out) {
        Ok(()) => Ok(()),
        Err(_) => Err(Fault::plain(NO_MEMORY)),
    }
}

/// The value, if it is within the budget and meets the constraint.
fn admitted_by<R: PlanRules>(
    alloc: Global,
    ty: &HeldType,
    octets: &[u8],
    budget: &Budget,
    unit: Unit,
) -> Result<Value, Fault>
    ensures value { IfOk result (λ value. HasWithin budget.now R.ruling (constrained_of ty.now) octets.now value) }
    ensures fault { IfErr result (IsNotWithin unit budget.now R.ruling (constrained_of ty.now) octets.now) }
{
    match decode_by::<R>(alloc, &ty.checked, octets, budget) {
        Ok(value) => {
            if ty.admits(&value) {
                Ok(value)
            } else {
                Err(Fault::broken(octets.len() as u64, unit))
            }
        }
        Err(fault) => Err(Fault::of_within(fault)),
    }
}

/// The value, if it is within the budget. The plan of the type, by which the value is counted, is worked out anew.
fn decode_by<R: PlanRules>(
    alloc: Global,
    ty: &Checked,
    octets: &[u8],
    budget: &Budget,
) -> Result<Value, WithinFault>
    ensures { DecodedWithin R.ruling (budget_of budget.now) result (shape_of ty.now) octets.now }
{
    let Ok(planned) = planned(alloc, ty) else {
        return Err(WithinFault::Decode(DecodeFault::Memory));
    };
    let most = most_of(budget);
    planned.decode_within::<R>(alloc, octets, &most)
}

/// The budget, as plans take it.
fn most_of(budget: &Budget) -> Most
    ensures { result ≡ budget_of budget.now }
{
    Most {
        entries: budget.entries,
        octets: budget.octets,
    }
}

/// The type with its plan.
fn planned(alloc: Global, ty: &Checked) -> Result<Planned, AllocError>
    ensures { IfOk result (λ p. p ≡ ty.now) }
{
    Planned::new(alloc, ty.copy()?)
}
