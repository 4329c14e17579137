//! Values as JSON, and back.
ghost use Rattle.std.specs.Prelude.{◌≡◌, ◌⊎◌, IfOk, IfErr, Some, string_bytes};
ghost use Rattle.serde_json.specs.View.{view};
ghost use Rattle.serde_json.specs.Written.{compact_text};
ghost use Rattle.asn_values.specs.Received.{FitsReceived};
ghost use Rattle.asn_values.specs.View.{shape_of, datum_of};
ghost use Rattle.asn_view.specs.Typed.{typed};
ghost use Rattle.asn_json.specs.Written.{json_of, Unwritten};
ghost use Rattle.asn_json.specs.Errors.{Refused};
ghost use Rattle.tulvorn_c.specs.Answers.{Asked, WritesJson, ReadsJson, HoldsShown};
ghost use Rattle.tulvorn_c.specs.Held.{constrained_of, held_constrained, held_value, held_octets};

use crate::fault::{DONE, Fault, MISUSE, NO_JSON, NO_MEMORY, SHAPE};
use crate::handle::Handle;
use crate::held::HeldType;
use crate::object::Object;
use crate::shown::Shown;
use serde_json::Value as Json;
use std::alloc::{AllocError, Global};
use tulvorn::{Checked, JsonFault, TextFault, Value, from_json, json_in, to_json};

/// The text of the JSON of a value: see `tulvorn::to_json`.
#[unsafe(no_mangle)]
pub extern "C" fn tulvorn_to_json(
    alloc: Global,
    value: &Shown,
    json: &mut Handle,
    fault: &mut Fault,
) -> u32
    ensures told { Asked (held_value value.now.kept) (json.new.kept ≡ json.old.kept)
        (WritesJson json.old.kept json.new.kept) fault.new }
    ensures code { result ≡ fault.new.code }
{
    let Some(it) = value.object() else {
        *fault = Fault::plain(MISUSE);
        return MISUSE;
    };
    *fault = match it {
        Object::Value { ty, value } => write_json(alloc, &ty.checked, value, json),
        _ => Fault::plain(MISUSE),
    };
    fault.code
}

fn write_json(alloc: Global, ty: &Checked, value: &Value, out: &mut Handle) -> Fault
    ensures { WritesJson out.old.kept out.new.kept (typed (shape_of ty.now) (datum_of value.now)) result }
{
    match put_json(alloc, ty, value, out) {
        Ok(()) => Fault::plain(DONE),
        Err(fault) => Fault::of_json(&fault),
    }
}

/// Puts the text into the handle.
fn put_json(alloc: Global, ty: &Checked, value: &Value, out: &mut Handle) -> Result<(), JsonFault>
    ensures fits { IfOk result (λ _. FitsReceived (shape_of ty.now) (datum_of value.now)) }
    ensures text { IfOk result (λ _. held_octets out.new.kept
        ≡ Some (compact_text (json_of (shape_of ty.now) (datum_of value.now)))) }
    ensures refused { IfErr result (λ why. Unwritten (shape_of ty.now) (datum_of value.now) why) }
    ensures stays { IfErr result (λ _. out.new.kept ≡ out.old.kept) }
{
    let text = json_text(alloc, ty, value)?;
    out.put_octets(alloc, text.into_bytes())?;
    Ok(())
}

/// The text.
fn json_text(alloc: Global, ty: &Checked, value: &Value) -> Result<String, JsonFault>
    ensures fits { IfOk result (λ _. FitsReceived (shape_of ty.now) (datum_of value.now)) }
    ensures text { IfOk result (λ s. string_bytes s ≡ compact_text (json_of (shape_of ty.now) (datum_of value.now))) }
    ensures refused { IfErr result (λ why. Unwritten (shape_of ty.now) (datum_of value.now) why) }
{
    let json = to_json(alloc, ty, value)?;
    match json.to_string(alloc) {
        Ok(text) => Ok(text),
        Err(_) => Err(JsonFault::Memory),
    }
}

/// The value of the type that a JSON text shows: see `tulvorn::from_json`.
#[unsafe(no_mangle)]
pub extern "C" fn tulvorn_from_json(
    alloc: Global,
    ty: &Shown,
    json: &[u8],
    value: &mut Handle,
    fault: &mut Fault,
) -> u32
    ensures told { Asked (held_constrained ty.now.kept) (value.new.kept ≡ value.old.kept)
        (ReadsJson json.now value.old.kept value.new.kept) fault.new }
    ensures code { result ≡ fault.new.code }
{
    let Some(it) = ty.object() else {
        *fault = Fault::plain(MISUSE);
        return MISUSE;
    };
    *fault = match it {
        Object::Checked(ty) => read_json(alloc, ty, json, value),
        _ => Fault::plain(MISUSE),
    };
    fault.code
}

fn read_json(alloc: Global, ty: &HeldType, text: &[u8], out: &mut Handle) -> Fault
    ensures { ReadsJson text.now out.old.kept out.new.kept (constrained_of ty.now) result }
{
    match json_in(alloc, text) {
        Ok(json) => match put_shown(alloc, ty, &json, out) {
            Ok(()) => Fault::plain(DONE),
            Err(fault) => Fault::of_json(&fault),
        },
        Err(TextFault::NotJson) => Fault::plain(NO_JSON),
        Err(TextFault::KeyTwice { .. }) => Fault::plain(SHAPE),
        Err(TextFault::Memory) => Fault::plain(NO_MEMORY),
    }
}

/// Puts the value that the JSON shows into the handle, with its type. No constraint is judged.
fn put_shown(alloc: Global, ty: &HeldType, json: &Json, out: &mut Handle) -> Result<(), JsonFault>
    ensures shown { IfOk result (λ _. HoldsShown (constrained_of ty.now) (view json.now) out.new.kept) }
    ensures refused { IfErr result (λ why. Refused (constrained_of ty.now).shape (view json.now) why) }
    ensures stays { IfErr result (λ _. out.new.kept ≡ out.old.kept) }
{
    let value = from_json(alloc, &ty.checked, json)?;
    let ty = ty.copy()?;
    out.put(alloc, Object::Value { ty, value })?;
    Ok(())
}
