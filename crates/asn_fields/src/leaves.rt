//! The parts of a value that have no parts themselves.
ghost use Rattle.std.specs.Prelude.{◌≡◌, ◌++◌, ◌∷◌, [], OnOk, map};
ghost use Rattle.asn_values.specs.View.{datum_of, entries_seen};
ghost use Rattle.asn_values.specs.Datum.{components_of, elements_of};
ghost use Rattle.asn_fields.specs.Leaves.{leaves, leaves_present, leaves_each};

use asn_values::Value;
use std::alloc::AllocError;

/// Adds the parts of the value that have no parts themselves, in order: the components that are there, the elements, the
/// value of the alternative, or the value itself.
///
/// # Errors
/// `AllocError` where an allocation failed.
#[cycle(leaves)]
pub(crate) fn push_leaves(value: &Value, all: &mut Vec<Value>) -> Result<(), AllocError>
    ensures { OnOk result (map datum_of all.new.items ≡ map datum_of all.old.items ++ leaves (datum_of value.now)) }
{
    match value {
        Value::Seq(entries) => push_present(entries, all),
        Value::List(elements) => push_each(elements, all),
        Value::Choice(_, chosen) => push_leaves(chosen, all),
        Value::Bool(_) => push_copy(value, all),
        Value::Null => push_copy(value, all),
        Value::Int(_) => push_copy(value, all),
        Value::Enum(_) => push_copy(value, all),
        Value::Bits(_) => push_copy(value, all),
        Value::Octets(_) => push_copy(value, all),
        Value::Text(_) => push_copy(value, all),
        Value::Utf8(_) => push_copy(value, all),
        Value::UnknownItem(_) => push_copy(value, all),
        Value::UnknownAlternative(_) => push_copy(value, all),
    }
}

/// Adds the value itself.
fn push_copy(value: &Value, all: &mut Vec<Value>) -> Result<(), AllocError>
    ensures { OnOk result (map datum_of all.new.items ≡ map datum_of all.old.items ++ datum_of value.now ∷ []) }
{
    let copy = value.clone()?;
    all.push(copy)?;
    Ok(())
}

/// The same of the entries of a SEQUENCE.
#[cycle(leaves)]
fn push_present(entries: &[Option<Value>], all: &mut Vec<Value>) -> Result<(), AllocError>
    ensures { OnOk result (map datum_of all.new.items
        ≡ map datum_of all.old.items ++ leaves_present (components_of (entries_seen entries.now))) }
{
    for entry in entries {
        let Some(value) = entry else {
            continue;
        };
        push_leaves(value, all)?;
    }
    Ok(())
}

/// The same of the elements of a SEQUENCE OF.
#[cycle(leaves)]
fn push_each(elements: &[Value], all: &mut Vec<Value>) -> Result<(), AllocError>
    ensures { OnOk result (map datum_of all.new.items
        ≡ map datum_of all.old.items ++ leaves_each (elements_of (map datum_of elements.now))) }
{
    for element in elements {
        push_leaves(element, all)?;
    }
    Ok(())
}
