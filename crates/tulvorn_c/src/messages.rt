//! Messages: octets and values.
ghost use Rattle.std.specs.Prelude.{◌≡◌, ◌≤◌, vec_len, IfOk, IfErr, OnOk, Ok, Err, None, Some, ⊤};
ghost use Rattle.asn_values.specs.Datum.{Datum};
ghost use Rattle.asn_values.specs.View.{datum_of};
ghost use Rattle.asn_rules.specs.Answer.{max_octets};
ghost use Rattle.asn_constrained.specs.Under.{IsEncodingUnder, NotEncodedUnder, DecodedUnder};
ghost use Rattle.tulvorn_c.specs.Answers.{
  AskedBy,
  ruling_of,
  Checks,
  Decodes,
  HoldsDecoded,
  Encodes,
  HoldsEncoding,
  Measures,
  Places,
};
ghost use Rattle.tulvorn_c.specs.Held.{constrained_of, value_of, held_constrained, held_valued};
ghost use Rattle.tulvorn_c.specs.Words.{unit_in};

use crate::fault::{DONE, Fault, MISUSE, NOT_OF_TYPE};
use crate::handle::Handle;
use crate::held::HeldType;
use crate::object::Object;
use crate::sessions::put_value;
use crate::shown::Shown;
use std::alloc::Global;
use tulvorn::{
    ConstrainedFault, Constraint, DecodeFault, EncodeFault, Oer, Per, PlanRules, Rules, Unit,
    Value, check, decode, decode_under, encode_into, encode_under, encoded_len,
};

/// Whether the octets are the encoding of a value of the type: see `tulvorn::check`.
#[unsafe(no_mangle)]
pub extern "C" fn tulvorn_check(
    alloc: Global,
    ty: &Shown,
    rules: u32,
    octets: &[u8],
    fault: &mut Fault,
) -> u32
    ensures told { AskedBy (held_constrained ty.now.kept) (ruling_of rules) ⊤
        (Checks (unit_in rules) octets.now) fault.new }
    ensures code { result ≡ fault.new.code }
{
    let Some(it) = ty.object() else {
        *fault = Fault::plain(MISUSE);
        return MISUSE;
    };
    *fault = match it {
        Object::Checked(ty) => match rules {
            0 => check_by::<Per>(alloc, ty, octets, Unit::Bit),
            1 => check_by::<Oer>(alloc, ty, octets, Unit::Octet),
            _ => Fault::plain(MISUSE),
        },
        _ => Fault::plain(MISUSE),
    };
    fault.code
}

fn check_by<R: PlanRules>(alloc: Global, ty: &HeldType, octets: &[u8], unit: Unit) -> Fault
    ensures { Checks unit octets.now R.ruling (constrained_of ty.now) result }
{
    match checked::<R>(alloc, ty, octets) {
        Ok(()) => Fault::plain(DONE),
        Err(fault) => Fault::of_constrained(&fault, unit),
    }
}

/// Whether the octets are the encoding of a value that meets the constraint. A value is built only to judge it.
#[tactic(auto, using(crate::proofs::Free::free_fault))]
fn checked<R: PlanRules>(
    alloc: Global,
    ty: &HeldType,
    octets: &[u8],
) -> Result<(), ConstrainedFault>
    ensures done { OnOk result ((d : Datum) × IsEncodingUnder R.ruling (constrained_of ty.now).shape
        (constrained_of ty.now).constraint d octets.now) }
    ensures fault { IfErr result (λ why. DecodedUnder R.ruling (constrained_of ty.now).constraint (Err why)
        (constrained_of ty.now).shape octets.now) }
{
    let Some(constraint) = &ty.constraint else {
        return match check::<R>(alloc, &ty.checked, octets) {
            Ok(()) => Ok(()),
            Err(fault) => Err(ConstrainedFault::Type(fault)),
        };
    };
    match decode_under::<R>(alloc, &ty.checked, constraint, octets) {
        Ok(_) => Ok(()),
        Err(fault) => Err(fault),
    }
}

/// The value whose encoding the octets are: see `tulvorn::decode`.
#[unsafe(no_mangle)]
pub extern "C" fn tulvorn_decode(
    alloc: Global,
    ty: &Shown,
    rules: u32,
    octets: &[u8],
    value: &mut Handle,
    fault: &mut Fault,
) -> u32
    ensures told { AskedBy (held_constrained ty.now.kept) (ruling_of rules) (value.new.kept ≡ value.old.kept)
        (Decodes (unit_in rules) octets.now value.old.kept value.new.kept) fault.new }
    ensures code { result ≡ fault.new.code }
{
    let Some(it) = ty.object() else {
        *fault = Fault::plain(MISUSE);
        return MISUSE;
    };
    *fault = match it {
        Object::Checked(ty) => match rules {
            0 => decode_by::<Per>(alloc, ty, octets, Unit::Bit, value),
            1 => decode_by::<Oer>(alloc, ty, octets, Unit::Octet, value),
            _ => Fault::plain(MISUSE),
        },
        _ => Fault::plain(MISUSE),
    };
    fault.code
}

fn decode_by<R: Rules>(
    alloc: Global,
    ty: &HeldType,
    octets: &[u8],
    unit: Unit,
    out: &mut Handle,
) -> Fault
    ensures { Decodes unit octets.now out.old.kept out.new.kept R.ruling (constrained_of ty.now) result }
{
    match put_decoded::<R>(alloc, ty, octets, out) {
        Ok(()) => Fault::plain(DONE),
        Err(fault) => Fault::of_constrained(&fault, unit),
    }
}

/// Puts the value with its type into the handle.
fn put_decoded<R: Rules>(
    alloc: Global,
    ty: &HeldType,
    octets: &[u8],
    out: &mut Handle,
) -> Result<(), ConstrainedFault>
    ensures decoded { IfOk result (λ _. HoldsDecoded R.ruling (constrained_of ty.now) octets.now out.new.kept) }
    ensures fault { IfErr result (λ why. DecodedUnder R.ruling (constrained_of ty.now).constraint (Err why)
        (constrained_of ty.now).shape octets.now) }
    ensures stays { IfErr result (λ _. out.new.kept ≡ out.old.kept) }
{
    let value = decoded::<R>(alloc, ty, octets)?;
    match put_value(alloc, ty, value, out) {
        Ok(()) => Ok(()),
        Err(_) => Err(ConstrainedFault::Type(DecodeFault::Memory)),
    }
}

/// The value whose encoding the octets are, if it meets the constraint.
#[tactic(auto, using(crate::proofs::Free::free_value, crate::proofs::Free::free_fault))]
pub(crate) fn decoded<R: Rules>(
    alloc: Global,
    ty: &HeldType,
    octets: &[u8],
) -> Result<Value, ConstrainedFault>
    ensures { DecodedUnder R.ruling (constrained_of ty.now).constraint result (constrained_of ty.now).shape octets.now }
{
    let Some(constraint) = &ty.constraint else {
        return match decode::<R>(alloc, &ty.checked, octets) {
            Ok(value) => Ok(value),
            Err(fault) => Err(ConstrainedFault::Type(fault)),
        };
    };
    decode_under::<R>(alloc, &ty.checked, constraint, octets)
}

/// The encoding of a value: see `tulvorn::encode`.
#[unsafe(no_mangle)]
pub extern "C" fn tulvorn_encode(
    alloc: Global,
    value: &Shown,
    rules: u32,
    octets: &mut Handle,
    fault: &mut Fault,
) -> u32
    ensures told { AskedBy (held_valued value.now.kept) (ruling_of rules) (octets.new.kept ≡ octets.old.kept)
        (Encodes octets.old.kept octets.new.kept) fault.new }
    ensures code { result ≡ fault.new.code }
{
    let Some(it) = value.object() else {
        *fault = Fault::plain(MISUSE);
        return MISUSE;
    };
    *fault = match it {
        Object::Value { ty, value } => match rules {
            0 => encode_by::<Per>(alloc, ty, value, octets),
            1 => encode_by::<Oer>(alloc, ty, value, octets),
            _ => Fault::plain(MISUSE),
        },
        _ => Fault::plain(MISUSE),
    };
    fault.code
}

fn encode_by<R: Rules>(alloc: Global, ty: &HeldType, value: &Value, out: &mut Handle) -> Fault
    ensures { Encodes out.old.kept out.new.kept R.ruling (value_of (constrained_of ty.now) (datum_of value.now))
        result }
{
    match put_encoded::<R>(alloc, ty, value, out) {
        Ok(()) => Fault::plain(DONE),
        Err(fault) => Fault::of_encode(fault),
    }
}

/// Puts the encoding into the handle.
fn put_encoded<R: Rules>(
    alloc: Global,
    ty: &HeldType,
    value: &Value,
    out: &mut Handle,
) -> Result<(), EncodeFault>
    ensures encoding { IfOk result (λ _.
        HoldsEncoding R.ruling (value_of (constrained_of ty.now) (datum_of value.now)) out.new.kept) }
    ensures fault { IfErr result (λ why. NotEncodedUnder R.ruling why (constrained_of ty.now).shape
        (constrained_of ty.now).constraint (datum_of value.now)) }
    ensures stays { IfErr result (λ _. out.new.kept ≡ out.old.kept) }
{
    let octets = encoded::<R>(alloc, ty, value)?;
    out.put_octets(alloc, octets)?;
    Ok(())
}

/// The encoding of the value, if it meets the constraint.
fn encoded<R: Rules>(alloc: Global, ty: &HeldType, value: &Value) -> Result<Vec<u8>, EncodeFault>
    ensures encoding { IfOk result (λ o. IsEncodingUnder R.ruling (constrained_of ty.now).shape
        (constrained_of ty.now).constraint (datum_of value.now) o.items) }
    ensures within { IfOk result (λ o. vec_len o ≤ max_octets) }
    ensures fault { IfErr result (λ why. NotEncodedUnder R.ruling why (constrained_of ty.now).shape
        (constrained_of ty.now).constraint (datum_of value.now)) }
{
    match &ty.constraint {
        None => encode_under::<R>(alloc, &ty.checked, &Constraint::Free, value),
        Some(constraint) => encode_under::<R>(alloc, &ty.checked, constraint, value),
    }
}

/// How many octets the encoding of a value has: see `tulvorn::encoded_len`. Takes no memory.
#[unsafe(no_mangle)]
pub extern "C" fn tulvorn_encoded_len(
    value: &Shown,
    rules: u32,
    len: &mut usize,
    fault: &mut Fault,
) -> u32
    ensures told { AskedBy (held_valued value.now.kept) (ruling_of rules) (len.new ≡ len.old)
        (Measures len.old len.new) fault.new }
    ensures code { result ≡ fault.new.code }
{
    let Some(it) = value.object() else {
        *fault = Fault::plain(MISUSE);
        return MISUSE;
    };
    *fault = match it {
        Object::Value { ty, value } => match rules {
            0 => measure_by::<Per>(ty, value, len),
            1 => measure_by::<Oer>(ty, value, len),
            _ => Fault::plain(MISUSE),
        },
        _ => Fault::plain(MISUSE),
    };
    fault.code
}

#[tactic(auto, using(crate::proofs::Free::unmeasured))]
fn measure_by<R: Rules>(ty: &HeldType, value: &Value, len: &mut usize) -> Fault
    ensures { Measures len.old len.new R.ruling (value_of (constrained_of ty.now) (datum_of value.now)) result }
{
    if !ty.admits(value) {
        return Fault::plain(NOT_OF_TYPE);
    }
    match encoded_len::<R>(&ty.checked, value) {
        Ok(measured) => {
            *len = measured;
            Fault::plain(DONE)
        }
        Err(fault) => Fault::of_length(fault),
    }
}

/// Puts the encoding of a value into the first of the caller's octets: see `tulvorn::encode_into`. Takes no memory.
#[unsafe(no_mangle)]
pub extern "C" fn tulvorn_encode_into(
    value: &Shown,
    rules: u32,
    into: &mut [u8],
    len: &mut usize,
    fault: &mut Fault,
) -> u32
    ensures told { AskedBy (held_valued value.now.kept) (ruling_of rules)
        ((into.new ≡ into.old) × (len.new ≡ len.old)) (Places into.old into.new len.old len.new) fault.new }
    ensures code { result ≡ fault.new.code }
{
    let Some(it) = value.object() else {
        *fault = Fault::plain(MISUSE);
        return MISUSE;
    };
    *fault = match it {
        Object::Value { ty, value } => match rules {
            0 => place_by::<Per>(ty, value, into, len),
            1 => place_by::<Oer>(ty, value, into, len),
            _ => Fault::plain(MISUSE),
        },
        _ => Fault::plain(MISUSE),
    };
    fault.code
}

#[tactic(auto, using(crate::proofs::Free::unplaced))]
fn place_by<R: Rules>(ty: &HeldType, value: &Value, into: &mut [u8], len: &mut usize) -> Fault
    ensures { Places into.old into.new len.old len.new R.ruling
        (value_of (constrained_of ty.now) (datum_of value.now)) result }
{
    if !ty.admits(value) {
        return Fault::plain(NOT_OF_TYPE);
    }
    match encode_into::<R>(&ty.checked, value, into) {
        Ok(placed) => {
            *len = placed;
            Fault::plain(DONE)
        }
        Err(fault) => Fault::of_encode_into(fault),
    }
}
