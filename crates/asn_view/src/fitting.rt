//! Where a value is none of its type, and why.
ghost use Rattle.std.specs.Prelude.{◌↔◌, IfOk, IsNone};
ghost use Rattle.asn_values.specs.Fits.{Fits};
ghost use Rattle.asn_values.specs.View.{shape_of, datum_of};

use crate::kind::type_name;
use asn_values::internal::{item_fits, length_fits, number_fits, text_fits};
use asn_values::profile::{HIGHEST_INTEGER, LOWEST_INTEGER, MAX_LEN};
use asn_values::{Alt, AsnType, Bounds, Checked, Field, Need, Size, TextKind, Value, fits};
use std::alloc::{AllocError, Global};
use thiserror::Error;

/// The first part of a value that does not fit its type, and why, displayed as `$.coreData.speed: 9000 is not in
/// 0..8191`.
#[derive(Debug, PartialEq, Eq, Error, Drop)]
#[error("{path}: {reason}")]
pub struct WrongPart {
    /// `$`, and then `.name` for each component or alternative and `[i]`, counted from 0, for each element on the way.
    pub path: String,
    /// What is wrong there.
    pub reason: String,
}

/// The first part of the value that does not fit, in the order of components and elements, a part before those inside
/// it; None exactly where the value fits. Allocates the texts.
///
/// # Errors
/// `AllocError` where an allocation failed, which is only where the value does not fit.
pub fn misfit(alloc: Global, ty: &Checked, value: &Value) -> Result<Option<WrongPart>, AllocError>
    ensures { IfOk result (λ found. IsNone found ↔ Fits (shape_of ty.now) (datum_of value.now)) }
{
    if fits(ty, value) {
        return Ok(None);
    }
    let (path, reason) = match wrong_part(alloc, ty.get(), value)? {
        Some(WrongPart { path, reason }) => (format!(in alloc; "${path}")?, reason),
        None => (
            String::from_str(alloc, "$")?,
            String::from_str(alloc, "not of the type")?,
        ),
    };
    Ok(Some(WrongPart { path, reason }))
}

/// What is found in a part: its first part that does not fit, with the path from there on.
type Found = Result<Option<WrongPart>, AllocError>;

/// The first part that does not fit, with the path from this value on.
#[cycle(misfit)]
fn wrong_part(alloc: Global, ty: &AsnType, value: &Value) -> Found {
    match (ty, value) {
        (AsnType::Bool, Value::Bool(_)) | (AsnType::Null, Value::Null) => Ok(None),
        (AsnType::Int(bounds), Value::Int(number)) => wrong_number(alloc, bounds, *number),
        (AsnType::Enum { root, ext }, Value::Enum(index)) => {
            if item_fits(root, ext, *index) {
                return Ok(None);
            }
            here(alloc, format!(in alloc; "no item {index}")?)
        }
        (AsnType::Enum { .. }, Value::UnknownItem(number)) => {
            here(alloc, format!(in alloc; "no item {number}")?)
        }
        (AsnType::Bits(size), Value::Bits(bits)) => wrong_length(alloc, size, bits.len(), "bits"),
        (AsnType::Octets(size), Value::Octets(octets)) => {
            wrong_length(alloc, size, octets.len(), "octets")
        }
        (AsnType::Text(kind, size), Value::Text(codes)) => match wrong_character(*kind, codes) {
            Some(code) => here(
                alloc,
                format!(in alloc; "no character {code} in {}", type_name(ty))?,
            ),
            None => wrong_length(alloc, size, codes.len(), "characters"),
        },
        (AsnType::Utf8, Value::Utf8(text)) => {
            wrong_length(alloc, &Size::any(), text.len(), "octets")
        }
        (AsnType::Seq { root, ext }, Value::Seq(entries)) => {
            let (first, others) = entries.split_at(root.len().min(entries.len()));
            if let Some(found) = wrong_entry(alloc, root, first)? {
                return Ok(Some(found));
            }
            match ext {
                Some(more) => wrong_entry(alloc, more, others),
                None => Ok(None),
            }
        }
        (AsnType::SeqOf(element, size), Value::List(elements)) => {
            match wrong_length(alloc, size, elements.len(), "elements")? {
                Some(found) => Ok(Some(found)),
                None => wrong_element(alloc, element, elements),
            }
        }
        (AsnType::Choice { root, ext }, Value::Choice(tag, chosen)) => {
            let index = *tag as usize;
            match ext {
                Some(more) if root.len() <= index => {
                    wrong_alternative(alloc, more, index - root.len(), *tag, chosen)
                }
                _ => wrong_alternative(alloc, root, index, *tag, chosen),
            }
        }
        (AsnType::Choice { .. }, Value::UnknownAlternative(tag)) => {
            here(alloc, format!(in alloc; "no alternative {tag}")?)
        }
        _ => here(alloc, format!(in alloc; "no {}", type_name(ty))?),
    }
}

/// The components that have these entries.
#[cycle(misfit)]
fn wrong_entry(alloc: Global, fields: &[Field], entries: &[Option<Value>]) -> Found {
    for (index, field) in fields.iter().enumerate() {
        let name = field.name.as_str();
        match entries.get(index) {
            Some(Some(value)) => {
                if let Some(found) = wrong_part(alloc, &field.ty, value)? {
                    return below_name(alloc, name, found);
                }
            }
            Some(None) if matches!(field.need, Need::Optional) => {}
            _ => return here(alloc, format!(in alloc; "no component {name}")?),
        }
    }
    Ok(None)
}

/// The elements in their order.
#[cycle(misfit)]
fn wrong_element(alloc: Global, element: &AsnType, elements: &[Value]) -> Found {
    for (index, value) in elements.iter().enumerate() {
        if let Some(found) = wrong_part(alloc, element, value)? {
            return below_index(alloc, index, found);
        }
    }
    Ok(None)
}

/// The value of the alternative at an index of the list.
#[cycle(misfit)]
fn wrong_alternative(
    alloc: Global,
    alternatives: &[Alt],
    index: usize,
    tag: u32,
    chosen: &Value,
) -> Found {
    match alternatives.get(index) {
        Some(alternative) => match wrong_part(alloc, &alternative.ty, chosen)? {
            Some(found) => below_name(alloc, alternative.name.as_str(), found),
            None => Ok(None),
        },
        None => here(alloc, format!(in alloc; "no alternative {tag}")?),
    }
}

/// A part that does not fit, for this reason.
fn here(alloc: Global, reason: String) -> Found {
    let path = String::new(alloc);
    Ok(Some(WrongPart { path, reason }))
}

/// What was found in a component or an alternative, with the path from the value around it.
fn below_name(alloc: Global, name: &str, found: WrongPart) -> Found {
    let WrongPart { path, reason } = found;
    let path = format!(in alloc; ".{name}{path}")?;
    Ok(Some(WrongPart { path, reason }))
}

/// What was found in an element, with the path from the list around it.
fn below_index(alloc: Global, index: usize, found: WrongPart) -> Found {
    let WrongPart { path, reason } = found;
    let path = format!(in alloc; "[{index}]{path}")?;
    Ok(Some(WrongPart { path, reason }))
}

/// A number outside the bounds.
fn wrong_number(alloc: Global, bounds: &Bounds, number: i128) -> Found {
    if number_fits(bounds, number) {
        return Ok(None);
    }
    let marked = bounds.ext;
    let low = bounds.low.filter(|_| !marked).unwrap_or(LOWEST_INTEGER);
    let high = bounds.high.filter(|_| !marked).unwrap_or(HIGHEST_INTEGER);
    here(
        alloc,
        format!(in alloc; "{number} is not in {low}..{high}")?,
    )
}

/// A length outside the size.
fn wrong_length(alloc: Global, size: &Size, length: usize, items: &str) -> Found {
    if length_fits(size, length) {
        return Ok(None);
    }
    let least = size.low;
    if length < least as usize && !size.ext {
        return here(
            alloc,
            format!(in alloc; "{length} {items} of at least {least}")?,
        );
    }
    let most = match size.high {
        Some(high) if !size.ext => high,
        _ => MAX_LEN,
    };
    here(
        alloc,
        format!(in alloc; "{length} {items} of at most {most}")?,
    )
}

/// The code of the first character that the kind of string has not.
fn wrong_character(kind: TextKind, codes: &[u8]) -> Option<u8> {
    codes
        .iter()
        .copied()
        .find(|code| !text_fits(kind, &Size::any(), &[*code]))
}
