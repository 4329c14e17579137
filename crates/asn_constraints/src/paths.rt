//! Paths of indices as texts, by the names of a type.
use asn_values::{Alt, AsnType, Field};
use std::alloc::{AllocError, Global};

/// The text of the path from a value of the type to a part of it, as `$.list[3].x`. Each index is that of a component, an
/// element or an alternative, counted from 0, root then additions. Indices from one on that leads to no part of the type
/// are left out.
///
/// # Errors
/// `AllocError` where an allocation failed.
pub fn path_text(alloc: Global, ty: &AsnType, path: &[usize]) -> Result<String, AllocError> {
    let mut text = String::from_str(alloc, "$")?;
    let mut here = ty;
    for index in path {
        let index = *index;
        here = match here {
            AsnType::Seq { root, ext } => match component_at(root.as_slice(), ext, index) {
                Some(field) => {
                    push_name(alloc, &mut text, field.name.as_str())?;
                    &field.ty
                }
                None => break,
            },
            AsnType::Choice { root, ext } => match alternative_at(root.as_slice(), ext, index) {
                Some(alternative) => {
                    push_name(alloc, &mut text, alternative.name.as_str())?;
                    &alternative.ty
                }
                None => break,
            },
            AsnType::SeqOf(element, _) => {
                let step = format!(in alloc; "[{index}]")?;
                text.push_str(step.as_str())?;
                element
            }
            _ => break,
        };
    }
    Ok(text)
}

/// Adds the step to a part with this name.
fn push_name(alloc: Global, text: &mut String, name: &str) -> Result<(), AllocError> {
    let step = format!(in alloc; ".{name}")?;
    text.push_str(step.as_str())
}

/// The component with this index, root before additions.
fn component_at<'t>(
    root: &'t [Field],
    ext: &'t Option<Vec<Field>>,
    index: usize,
) -> Option<&'t Field> {
    if let Some(field) = root.get(index) {
        return Some(field);
    }
    let additions: &'t Vec<Field> = ext.as_ref()?;
    additions.as_slice().get(index.saturating_sub(root.len()))
}

/// The alternative with this index, root before additions.
fn alternative_at<'t>(root: &'t [Alt], ext: &'t Option<Vec<Alt>>, index: usize) -> Option<&'t Alt> {
    if let Some(alternative) = root.get(index) {
        return Some(alternative);
    }
    let additions: &'t Vec<Alt> = ext.as_ref()?;
    additions.as_slice().get(index.saturating_sub(root.len()))
}
