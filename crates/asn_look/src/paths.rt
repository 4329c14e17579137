//! Paths as texts, by the names of a type.
use asn_newer::PathStep;
use asn_values::{Alt, AsnType, Field};
use std::alloc::{AllocError, Global};

/// A part of a type, and its name, if it is no element.
#[derive(Clone, Copy)]
struct Part<'t> {
    name: Option<&'t str>,
    ty: &'t AsnType,
}

/// The text of the path from a value of the type, as `$.list[3].x`. Steps from one on that leads to no part of the type
/// are left out.
///
/// # Errors
/// `AllocError` where an allocation failed.
pub fn path_text(alloc: Global, ty: &AsnType, path: &[PathStep]) -> Result<String, AllocError> {
    let mut text = String::from_str(alloc, "$")?;
    let mut here = ty;
    for step in path {
        let Some(part) = part_at(here, *step) else {
            break;
        };
        let more = match (part.name, *step) {
            (Some(name), _) => format!(in alloc; ".{name}")?,
            (None, PathStep::Element(index)) => format!(in alloc; "[{index}]")?,
            (None, _) => break,
        };
        text.push_str(more.as_str())?;
        here = part.ty;
    }
    Ok(text)
}

/// The part of the type to which the step leads, if it has it.
fn part_at(ty: &AsnType, step: PathStep) -> Option<Part<'_>> {
    match (ty, step) {
        (AsnType::Seq { root, .. }, PathStep::Component(index)) => {
            component_at(root.as_slice(), index)
        }
        (AsnType::Seq { ext, .. }, PathStep::Addition(index)) => match ext {
            Some(additions) => component_at(additions.as_slice(), index),
            None => None,
        },
        (AsnType::SeqOf(element, _), PathStep::Element(_)) => Some(Part {
            name: None,
            ty: element,
        }),
        (AsnType::Choice { root, ext }, PathStep::Alternative(tag)) => {
            chosen_at(root.as_slice(), ext, tag)
        }
        _ => None,
    }
}

/// The component with this index.
fn component_at(fields: &[Field], index: usize) -> Option<Part<'_>> {
    let field = fields.get(index)?;
    Some(Part {
        name: Some(field.name.as_str()),
        ty: &field.ty,
    })
}

/// The alternative with this tag, of the root or of the additions.
fn chosen_at<'t>(root: &'t [Alt], ext: &'t Option<Vec<Alt>>, tag: usize) -> Option<Part<'t>> {
    if tag < root.len() {
        return alternative_at(root, tag);
    }
    match ext {
        Some(additions) => alternative_at(additions.as_slice(), tag - root.len()),
        None => None,
    }
}

/// The alternative with this index.
fn alternative_at(alternatives: &[Alt], index: usize) -> Option<Part<'_>> {
    let alternative = alternatives.get(index)?;
    Some(Part {
        name: Some(alternative.name.as_str()),
        ty: &alternative.ty,
    })
}
