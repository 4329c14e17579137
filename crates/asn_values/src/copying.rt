//! `clone` of values, written out since a derived one says nothing of a type that holds itself.
ghost use Rattle.std.specs.Prelude.{◌≡◌, IfOk, map};
ghost use Rattle.asn_values.specs.View.{datum_of, entries_seen};

use crate::value::Value;
use std::alloc::AllocError;

/// A clone is the same value. It allocates as much as the value that is cloned did, with the allocators of its
/// parts; `AllocError` where an allocation failed.
impl Clone for Value {
    ghost is_clone = { λ v w. datum_of w ≡ datum_of v };

    fn clone(&self) -> Result<Value, AllocError> {
        copy(self)
    }
}

/// The same value once more.
#[cycle(copy)]
fn copy(value: &Value) -> Result<Value, AllocError>
    ensures { IfOk result (λ v. datum_of v ≡ datum_of value.now) }
{
    match value {
        Value::Bool(truth) => Ok(Value::Bool(*truth)),
        Value::Null => Ok(Value::Null),
        Value::Int(number) => Ok(Value::Int(*number)),
        Value::Enum(index) => Ok(Value::Enum(*index)),
        Value::Bits(bits) => Ok(Value::Bits(bits.clone()?)),
        Value::Octets(octets) => Ok(Value::Octets(octets.clone()?)),
        Value::Text(codes) => Ok(Value::Text(codes.clone()?)),
        Value::Utf8(text) => Ok(Value::Utf8(text.clone()?)),
        Value::Seq(entries) => Ok(Value::Seq(copy_entries(entries)?)),
        Value::List(elements) => Ok(Value::List(copy_elements(elements)?)),
        Value::Choice(tag, chosen) => {
            let alloc = *Box::allocator(chosen);
            Ok(Value::Choice(*tag, Box::new(alloc, copy(chosen)?)?))
        }
        Value::UnknownItem(number) => Ok(Value::UnknownItem(*number)),
        Value::UnknownAlternative(tag) => Ok(Value::UnknownAlternative(*tag)),
    }
}

/// The same entries once more.
#[cycle(copy)]
fn copy_entries(entries: &Vec<Option<Value>>) -> Result<Vec<Option<Value>>, AllocError>
    ensures { IfOk result (λ v. entries_seen v.items ≡ entries_seen entries.now.items) }
{
    let mut copies = Vec::with_capacity(*entries.allocator(), entries.len())?;
    for entry in entries {
        let again = match entry {
            None => None,
            Some(value) => Some(copy(value)?),
        };
        copies.push(again)?;
    }
    Ok(copies)
}

/// The same elements once more.
#[cycle(copy)]
fn copy_elements(elements: &Vec<Value>) -> Result<Vec<Value>, AllocError>
    ensures { IfOk result (λ v. map datum_of v.items ≡ map datum_of elements.now.items) }
{
    let mut copies = Vec::with_capacity(*elements.allocator(), elements.len())?;
    for element in elements {
        copies.push(copy(element)?)?;
    }
    Ok(copies)
}
