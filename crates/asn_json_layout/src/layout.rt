//! JSON of a value as text, in a layout.
ghost use Rattle.std.specs.Prelude.{◌≡◌, ◌≤◌, IfOk, Some, string_bytes, true, false};
ghost use Rattle.json.specs.Layout.{pretty};
ghost use Rattle.json.specs.Lex.{tokens};
ghost use Rattle.json.specs.Print.{print};
ghost use Rattle.serde_json.specs.Data.{depth};
ghost use Rattle.serde_json.specs.Read.{max_depth, read};
ghost use Rattle.serde_json.specs.View.{view};

use crate::declared::declared_text;
use asn_values::Checked;
use serde_json::Value as Json;
use std::alloc::{AllocError, Global};

/// How JSON is laid out.
#[derive(Clone, Copy, Debug, PartialEq, Eq, Drop)]
pub struct Layout {
    /// Whether the members of objects are in the order of the type's components, and not in that of their names.
    pub is_declared: bool,
    /// Whether each member and element has a line of its own, two blanks further in than what it is in.
    pub is_pretty: bool,
}

/// The text of the JSON of a value of the type, in this layout. It is read as the same JSON. With members in the order
/// of their names it is laid out as `serde_json` does.
///
/// # Errors
/// `AllocError` where an allocation failed.
pub fn laid_out(
    alloc: Global,
    ty: &Checked,
    json: &Json,
    layout: Layout,
) -> Result<String, AllocError>
    ensures same { IfOk result (λ text. depth (view json.now) ≤ max_depth
        → read (string_bytes text) ≡ Some (view json.now)) }
    ensures one_line { IfOk result (λ text. layout.is_declared ≡ false → layout.is_pretty ≡ false
        → string_bytes text ≡ print (tokens (string_bytes text))) }
    ensures lines { IfOk result (λ text. layout.is_declared ≡ false → layout.is_pretty ≡ true
        → string_bytes text ≡ pretty (tokens (string_bytes text))) }
{
    if layout.is_declared {
        let text = declared_text(alloc, ty.get(), json, layout.is_pretty)?;
        if is_text_of(alloc, text.as_str(), json)? {
            return Ok(text);
        }
    }
    if layout.is_pretty {
        json.to_string_pretty(alloc)
    } else {
        json.to_string(alloc)
    }
}

/// Whether the text is read as this JSON, by what is written of both.
fn is_text_of(alloc: Global, text: &str, json: &Json) -> Result<bool, AllocError>
    ensures { IfOk result (λ is. is ≡ true → depth (view json.now) ≤ max_depth
        → read text.now ≡ Some (view json.now)) }
{
    match Json::from_str(alloc, text) {
        Ok(again) => is_same(alloc, &again, json),
        Err(fault) if fault.is_memory() => Err(AllocError),
        Err(_) => Ok(false),
    }
}

/// Whether one text is written of both.
fn is_same(alloc: Global, one: &Json, other: &Json) -> Result<bool, AllocError>
    ensures { IfOk result (λ is. is ≡ true → depth (view one.now) ≤ max_depth
        → depth (view other.now) ≤ max_depth → view one.now ≡ view other.now) }
{
    let first = one.to_string(alloc)?;
    let second = other.to_string(alloc)?;
    Ok(first == second)
}
