//! Values of types around others: SEQUENCE, SEQUENCE OF and CHOICE.
ghost use Rattle.std.specs.Prelude.{◌≡◌, ◌≤◌, ◌<◌, ◌+◌, IfOk, OnOk, length, map, option_map};
ghost use Rattle.std.specs.List.{AllByRecursion};
ghost use Rattle.asn_values.specs.Fits.{Fits, FitsDemand};
ghost use Rattle.asn_values.specs.Parts.{AreOfProfile, AreAllOfProfile};
ghost use Rattle.asn_values.specs.Profile.{InProfile, most_alternatives};
ghost use Rattle.asn_values.specs.View.{shape_of, datum_of, part_of_field, fields_seen, alternatives_seen, entries_seen};
ghost use Rattle.asn_examples.specs.Made.{AddsFitting, IsChosen};

use crate::choices::Choices;
use crate::leaves::{leaf, length_of};
use asn_values::{Alt, AsnType, Field, Need, Value};
use std::alloc::{AllocError, Global};

/// A value of the type.
///
/// # Errors
/// `AllocError` where an allocation failed.
#[cycle(some_value)]
pub(crate) fn some_value(
    alloc: Global,
    ty: &AsnType,
    choices: &mut Choices,
) -> Result<Value, AllocError>
    requires { InProfile (shape_of ty.now) }
    ensures { IfOk result (λ v. Fits (shape_of ty.now) (datum_of v)) }
{
    match ty {
        AsnType::Seq { root, ext } => {
            let root = root.as_slice();
            let mut entries = Vec::new(alloc);
            push_entries(alloc, root, &mut entries, choices)?;
            let Some(additions) = ext else {
                return Ok(Value::Seq(entries));
            };
            let additions = additions.as_slice();
            push_entries(alloc, additions, &mut entries, choices)?;
            Ok(Value::Seq(entries))
        }
        AsnType::SeqOf(element, size) => {
            let count = length_of(size, choices);
            Ok(Value::List(elements(alloc, element, count, choices)?))
        }
        AsnType::Choice { root, ext } => match ext {
            Some(additions) if !additions.is_empty() && choices.coin() => {
                let made = chosen(alloc, additions, root.len(), choices)?;
                Ok(made)
            }
            _ => {
                let made = chosen(alloc, root, 0, choices)?;
                Ok(made)
            }
        },
        AsnType::Bool
        | AsnType::Null
        | AsnType::Int(_)
        | AsnType::Enum { .. }
        | AsnType::Bits(_)
        | AsnType::Octets(_)
        | AsnType::Text(..)
        | AsnType::Utf8 => leaf(alloc, ty, choices),
    }
}

/// Adds an entry for each of the components.
#[cycle(some_value)]
fn push_entries(
    alloc: Global,
    fields: &[Field],
    entries: &mut Vec<Option<Value>>,
    choices: &mut Choices,
) -> Result<(), AllocError>
    requires { AreOfProfile (fields_seen fields.now) }
    ensures { OnOk result
        (AddsFitting (fields_seen fields.now) (entries_seen entries.old.items) (entries_seen entries.new.items)) }
{
    for field in fields {
        choices.spend(1)?;
        let made = entry(alloc, field, choices)?;
        entries.push(made)?;
    }
    Ok(())
}

/// The entry of a component: one that is OPTIONAL may be absent, and is where the least of each is taken.
#[cycle(some_value)]
fn entry(alloc: Global, field: &Field, choices: &mut Choices) -> Result<Option<Value>, AllocError>
    requires { InProfile (part_of_field field.now).shape }
    ensures { IfOk result (λ e. FitsDemand (λ d. Fits (part_of_field field.now).shape d)
        (part_of_field field.now).demand (option_map datum_of e)) }
{
    match field.need {
        Need::Optional => {
            if choices.coin() {
                return Ok(Some(some_value(alloc, &field.ty, choices)?));
            }
            Ok(None)
        }
        Need::Must | Need::Default(_) => Ok(Some(some_value(alloc, &field.ty, choices)?)),
    }
}

/// This many values of the type.
#[cycle(some_value)]
fn elements(
    alloc: Global,
    element: &AsnType,
    count: usize,
    choices: &mut Choices,
) -> Result<Vec<Value>, AllocError>
    requires { InProfile (shape_of element.now) }
    ensures count { IfOk result (λ v. length v.items ≡ count) }
    ensures fit { IfOk result (λ v. AllByRecursion (λ d. Fits (shape_of element.now) d) (map datum_of v.items)) }
{
    let mut values = Vec::new(alloc);
    for i in 0..count {
        choices.spend(1)?;
        let made = some_value(alloc, element, choices)?;
        values.push(made)?;
    }
    Ok(values)
}

/// A CHOICE of one of these alternatives, the tag of the first of which is `first`.
#[cycle(some_value)]
fn chosen(
    alloc: Global,
    alternatives: &[Alt],
    first: usize,
    choices: &mut Choices,
) -> Result<Value, AllocError>
    requires of_profile { AreAllOfProfile (alternatives_seen alternatives.now) }
    requires some { 0 < length alternatives.now }
    requires few { first + length alternatives.now ≤ most_alternatives }
    ensures { IfOk result (λ v. IsChosen (alternatives_seen alternatives.now) first
        (length alternatives.now) (datum_of v)) }
{
    let index = choices.below(alternatives.len());
    let made = some_value(alloc, &alternatives[index].ty, choices)?;
    let tag = (first + index) as u32;
    Ok(Value::Choice(tag, Box::new(alloc, made)?))
}
