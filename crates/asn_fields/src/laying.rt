//! Fields laid one after the other, with their values.
ghost use Rattle.std.specs.Prelude.{◌≡◌, ◌≤◌, IfOk, OnOk, length, map};
ghost use Rattle.asn_values.specs.View.{datum_of};
ghost use Rattle.asn_fields.specs.Tiles.{Tiles, contents, TakesNext, Lays};

use crate::field::{FieldKind, MessageField};
use asn_values::Value;
use std::alloc::{AllocError, Global};

/// The fields, each from where the one before ended to the unit that it names as its last, and no further than the unit
/// `end`, and each that has a value with the next of these; and then the closing one, where units are left before the end.
///
/// # Errors
/// `AllocError` where an allocation failed.
pub(crate) fn laid(
    alloc: Global,
    told: Vec<MessageField>,
    values: &[Value],
    closing: MessageField,
    end: u64,
) -> Result<Vec<MessageField>, AllocError>
    ensures tiles { IfOk result (λ v. Tiles 0 end v.items) }
    ensures values { IfOk result (λ v. contents v.items ≡ map datum_of values.now) }
{
    let mut fields = Vec::with_capacity(alloc, told.len())?;
    let mut before = 0u64;
    let mut used = 0usize;
    for field in told {
        let mut field = field;
        let last = field.end.max(before).min(end);
        let (value, next) = next_value(values, used, field.kind.has_value())?;
        field.start = before;
        field.end = last;
        field.value = value;
        fields.push(field)?;
        before = last;
        used = next;
    }
    push_left(alloc, &mut fields, before, &values[used..])?;
    if before < end {
        let mut closing = closing;
        closing.start = before;
        closing.end = end;
        closing.value = None;
        fields.push(closing)?;
    }
    Ok(fields)
}

/// The next value, where one is wanted and left, and how many are used then.
fn next_value(
    values: &[Value],
    used: usize,
    is_wanted: bool,
) -> Result<(Option<Value>, usize), AllocError>
    requires { used ≤ length values.now }
    ensures { IfOk result (λ r. TakesNext values.now used r.0 r.1) }
{
    if is_wanted && used < values.len() {
        return Ok((Some(values[used].clone()?), used + 1));
    }
    Ok((None, used))
}

/// Adds a field without units for each of these values: those of which the walk told no field.
fn push_left(
    alloc: Global,
    fields: &mut Vec<MessageField>,
    at: u64,
    values: &[Value],
) -> Result<(), AllocError>
    ensures { OnOk result (Lays fields.old.items at (map datum_of values.now) fields.new.items) }
{
    for value in values {
        let copy = value.clone()?;
        fields.push(MessageField {
            start: at,
            end: at,
            kind: FieldKind::Contents,
            path: String::from_str(alloc, "$")?,
            ty: String::new(alloc),
            text: format!(in alloc; "{value}")?,
            value: Some(copy),
        })?;
    }
    Ok(())
}
