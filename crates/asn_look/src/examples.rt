//! Values to begin from, as lines of JSON.
ghost use Rattle.std.specs.Prelude.{◌≡◌, IfOk, IfSome, string_bytes};
ghost use Rattle.serde_json.specs.Written.{compact_text};
ghost use Rattle.asn_values.specs.Fits.{Fits};
ghost use Rattle.asn_values.specs.View.{shape_of, datum_of};
ghost use Rattle.asn_json.specs.Written.{json_of};
ghost use Rattle.asn_look.specs.Looking.{IsExample};

use asn_examples::{least_value, seeded_value, value_within};
use asn_json::to_json;
use asn_values::{Checked, Value};
use std::alloc::{AllocError, Global};

/// A line of JSON: a value of the type, the least one or that of the seed.
///
/// # Errors
/// `AllocError` where an allocation failed.
pub fn example_line(alloc: Global, ty: &Checked, seed: Option<u64>) -> Result<String, AllocError>
    ensures { IfOk result (λ text. IsExample ty.now (string_bytes text)) }
{
    let value = example(alloc, ty, seed)?;
    value_line(alloc, ty, &value)
}

/// A line of JSON as `example_line` gives it, if its value has at most `most` components, elements and items of strings;
/// `None` if it has more.
///
/// # Errors
/// `AllocError` if an allocation failed.
pub fn example_within(
    alloc: Global,
    ty: &Checked,
    seed: Option<u64>,
    most: u64,
) -> Result<Option<String>, AllocError>
    ensures { IfOk result (λ o. IfSome o (λ text. IsExample ty.now (string_bytes text))) }
{
    match value_within(alloc, ty, seed, most)? {
        Some(value) => Ok(Some(value_line(alloc, ty, &value)?)),
        None => Ok(None),
    }
}

/// The line of JSON of a value of the type.
fn value_line(alloc: Global, ty: &Checked, value: &Value) -> Result<String, AllocError>
    requires { Fits (shape_of ty.now) (datum_of value.now) }
    ensures { IfOk result (λ text. IsExample ty.now (string_bytes text)) }
{
    let mut text = json_text(alloc, ty, value)?;
    text.push_str("\n")?;
    Ok(text)
}

/// A value of the type: the least one, or that of the seed.
fn example(alloc: Global, ty: &Checked, seed: Option<u64>) -> Result<Value, AllocError>
    ensures { IfOk result (λ v. Fits (shape_of ty.now) (datum_of v)) }
{
    match seed {
        Some(seed) => seeded_value(alloc, ty, seed),
        None => least_value(alloc, ty),
    }
}

/// The JSON of a value of the type.
fn json_text(alloc: Global, ty: &Checked, value: &Value) -> Result<String, AllocError>
    ensures { IfOk result (λ text. string_bytes text
        ≡ compact_text (json_of (shape_of ty.now) (datum_of value.now))) }
{
    match to_json(alloc, ty, value) {
        Ok(json) => json.to_string(alloc),
        Err(_) => Err(AllocError),
    }
}
