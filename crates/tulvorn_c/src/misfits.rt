//! Where a value or JSON is none of a type.
ghost use Rattle.std.specs.Prelude.{◌≡◌, ◌⊎◌, ◌↔◌, [], IfOk, IfErr, IsNone, is_none, string_bytes};
ghost use Rattle.serde_json.specs.View.{view};
ghost use Rattle.asn_values.specs.View.{shape_of, datum_of};
ghost use Rattle.asn_constraints.specs.Constraints.{meets};
ghost use Rattle.tulvorn_c.specs.Answers.{Asked};
ghost use Rattle.tulvorn_c.specs.Faults.{plain};
ghost use Rattle.tulvorn_c.specs.Held.{constrained_of, held_constrained, held_type, held_value};
ghost use Rattle.tulvorn_c.specs.Misfits.{
  AskedOf,
  TellsMisfit,
  HoldsMisfit,
  TellsJson,
  HoldsNoFault,
  HoldsFault,
  text_of_json,
  HoldsWords,
};

use crate::fault::{DONE, MISUSE, NO_JSON, NO_MEMORY};
use crate::handle::Handle;
use crate::held::HeldType;
use crate::object::Object;
use crate::shown::Shown;
use serde_json::Value as Json;
use std::alloc::{AllocError, Global};
use tulvorn::{
    Checked, JsonFault, TextFault, Value, WrongPart, broken_part, from_json, json_in, judge_at,
    misfit,
};

/// Puts into `words` the first part of the value that does not fit the type or breaks its constraint, and why; no octets
/// if the value fits: see `tulvorn::misfit` and `tulvorn::judge_at`.
#[unsafe(no_mangle)]
pub extern "C" fn tulvorn_misfit(
    alloc: Global,
    ty: &Shown,
    value: &Shown,
    words: &mut Handle,
) -> u32
    ensures told { AskedOf (held_constrained ty.now.kept) (held_value value.now.kept)
        (words.new.kept ≡ words.old.kept)
        (λ t v. TellsMisfit words.old.kept words.new.kept t v.datum) (plain result) }
{
    let Some(it) = ty.object() else {
        return MISUSE;
    };
    match it {
        Object::Checked(ty) => misfit_in(alloc, ty, value, words),
        _ => MISUSE,
    }
}

/// The same of the value that a handle holds.
fn misfit_in(alloc: Global, ty: &HeldType, value: &Shown, words: &mut Handle) -> u32
    ensures told { Asked (held_value value.now.kept) (words.new.kept ≡ words.old.kept)
        (λ v. TellsMisfit words.old.kept words.new.kept (constrained_of ty.now) v.datum) (plain result) }
{
    let Some(it) = value.object() else {
        return MISUSE;
    };
    match it {
        Object::Value { ty: _, value } => misfit_of(alloc, ty, value, words),
        _ => MISUSE,
    }
}

fn misfit_of(alloc: Global, ty: &HeldType, value: &Value, out: &mut Handle) -> u32
    ensures { TellsMisfit out.old.kept out.new.kept (constrained_of ty.now) (datum_of value.now) (plain result) }
{
    match misfit_held(alloc, ty, value) {
        Ok(held) => {
            *out = held;
            DONE
        }
        Err(_) => NO_MEMORY,
    }
}

/// A handle of the text.
fn misfit_held(alloc: Global, ty: &HeldType, value: &Value) -> Result<Handle, AllocError>
    ensures { IfOk result (λ h. HoldsMisfit (constrained_of ty.now) (datum_of value.now) h.kept) }
{
    let found = match misfit(alloc, &ty.checked, value)? {
        Some(wrong) => Some(wrong),
        None => broken_in(alloc, ty, value)?,
    };
    let words = wrong_words(alloc, &found)?;
    Handle::holding(alloc, Object::Octets(words.into_bytes()))
}

/// The part in which the value breaks the constraint.
fn broken_in(alloc: Global, ty: &HeldType, value: &Value) -> Result<Option<WrongPart>, AllocError>
    ensures { IfOk result (λ found. is_none found ≡ meets (constrained_of ty.now).constraint (datum_of value.now)) }
{
    let Some(constraint) = &ty.constraint else {
        return Ok(None);
    };
    match judge_at(alloc, constraint, value)? {
        Some(broken) => Ok(Some(broken_part(alloc, &ty.checked, &broken)?)),
        None => Ok(None),
    }
}

/// The text of what is found.
fn wrong_words(alloc: Global, found: &Option<WrongPart>) -> Result<String, AllocError>
    ensures { IfOk result (λ s. (string_bytes s ≡ []) ↔ IsNone found.now) }
{
    match found {
        Some(wrong) => wrong_text(alloc, wrong.path.as_str(), wrong.reason.as_str()),
        None => Ok(String::new(alloc)),
    }
}

/// The text of a part that does not fit.
#[tactic(auto, using(crate::proofs::Texts::not_empty))]
fn wrong_text(alloc: Global, path: &str, reason: &str) -> Result<String, AllocError>
    ensures { IfOk result (λ s. string_bytes s ≡ [] → ⊥) }
{
    format!(in alloc; "{path}: {reason}")
}

/// Puts into `words` why the JSON shows no value of the type; no octets where it shows one: see `tulvorn::from_json`.
#[unsafe(no_mangle)]
pub extern "C" fn tulvorn_explain_json(
    alloc: Global,
    ty: &Shown,
    json: &[u8],
    words: &mut Handle,
) -> u32
    ensures told { Asked (held_type ty.now.kept) (words.new.kept ≡ words.old.kept)
        (TellsJson json.now words.old.kept words.new.kept) (plain result) }
{
    let Some(it) = ty.object() else {
        return MISUSE;
    };
    match it {
        Object::Checked(ty) => explain_json(alloc, &ty.checked, json, words),
        _ => MISUSE,
    }
}

fn explain_json(alloc: Global, ty: &Checked, text: &[u8], out: &mut Handle) -> u32
    ensures { TellsJson text.now out.old.kept out.new.kept (shape_of ty.now) (plain result) }
{
    match json_in(alloc, text) {
        Ok(json) => put_held(json_explained(alloc, ty, &json), out),
        Err(TextFault::KeyTwice { path }) => put_held(key_explained(alloc, path.as_str()), out),
        Err(TextFault::NotJson) => NO_JSON,
        Err(TextFault::Memory) => NO_MEMORY,
    }
}

/// Puts the new handle in place of the old one.
fn put_held(held: Result<Handle, AllocError>, out: &mut Handle) -> u32
    ensures done { IfOk held (λ h. (result ≡ DONE) × (out.new.kept ≡ h.kept)) }
    ensures memory { IfErr held (λ _. (result ≡ NO_MEMORY) × (out.new.kept ≡ out.old.kept)) }
{
    match held {
        Ok(held) => {
            *out = held;
            DONE
        }
        Err(_) => NO_MEMORY,
    }
}

/// A handle of the text that says which key an object has twice.
fn key_explained(alloc: Global, path: &str) -> Result<Handle, AllocError>
    ensures { IfOk result (λ h. HoldsWords h.kept) }
{
    let words = wrong_text(alloc, path, "the object has this key twice")?;
    Handle::holding(alloc, Object::Octets(words.into_bytes()))
}

/// A handle of the text of what is wrong with the JSON.
fn json_explained(alloc: Global, ty: &Checked, json: &Json) -> Result<Handle, AllocError>
    ensures { IfOk result (λ h. HoldsNoFault (shape_of ty.now) (view json.now) h.kept
        ⊎ HoldsFault (shape_of ty.now) (view json.now) h.kept) }
{
    let Err(fault) = from_json(alloc, ty, json) else {
        return Handle::holding(alloc, Object::Octets(Vec::new(alloc)));
    };
    let words = json_words(alloc, &fault)?;
    Handle::holding(alloc, Object::Octets(words.into_bytes()))
}

/// The text of a fault of JSON.
///
/// # Errors
/// `AllocError` where an allocation failed, and for the fault that tells so.
fn json_words(alloc: Global, fault: &JsonFault) -> Result<String, AllocError>
    ensures text { IfOk result (λ s. string_bytes s ≡ text_of_json fault.now) }
    ensures told { IfOk result (λ _. fault.now ≡ JsonFault.Memory → ⊥) }
{
    match fault {
        JsonFault::Shape { path } => {
            let path = path.as_str();
            format!(in alloc; "not of the type's shape at {path}")
        }
        JsonFault::NotOfType => String::from_str(alloc, "not of the type"),
        JsonFault::Memory => Err(AllocError),
    }
}
