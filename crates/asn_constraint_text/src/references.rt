//! Where a type refers to names.
use asn_constraints::Constraint;
use asn_contents::Contents;
use asn_notation::{AlternativeNotation, AssignmentNotation, ComponentNotation, TypeNotation};
use std::alloc::{AllocError, Global};
use std::collections::HashMap;

/// The names that a type refers to, each at its place inside the type.
#[derive(Debug, Drop)]
pub(crate) enum References {
    /// It refers to none.
    None,
    /// It is the type of the name at this index of the module.
    Name(usize),
    /// Its components or alternatives refer to these, in order, root then additions.
    Parts(Vec<References>),
    /// Its elements refer to these.
    Elements(Box<References>),
}

impl References {
    /// Whether it is no name, and none is inside it.
    fn is_none(&self) -> bool {
        matches!(self, References::None)
    }
}

/// A name of a module: what its type refers to, the constraint of its line, with which octets are encodings, and how it
/// differs from the published type, if it has such lines.
#[derive(Debug, Drop)]
pub(crate) struct Named {
    pub name: String,
    pub references: References,
    pub own: Option<Constraint>,
    pub difference: Option<String>,
    pub contents: Contents,
}

/// The index of each name.
pub(crate) fn indices_of(
    alloc: Global,
    assignments: &[AssignmentNotation<'_>],
) -> Result<HashMap<String, usize>, AllocError> {
    let mut indices = HashMap::new(alloc);
    for (index, assignment) in assignments.iter().enumerate() {
        indices.insert(String::from_str(alloc, assignment.name)?, index)?;
    }
    Ok(indices)
}

/// What the type of each name refers to.
pub(crate) fn names_of(
    alloc: Global,
    assignments: &[AssignmentNotation<'_>],
    indices: &HashMap<String, usize>,
) -> Result<Vec<Named>, AllocError> {
    let mut names = Vec::new(alloc);
    for assignment in assignments {
        let references = references_of(alloc, &assignment.ty, indices)?;
        names.push(Named {
            name: String::from_str(alloc, assignment.name)?,
            references,
            own: None,
            difference: None,
            contents: Contents::Nowhere,
        })?;
    }
    Ok(names)
}

/// What a type refers to, where `indices` has the index of each name. A name that has none is left out.
#[cycle(references)]
pub(crate) fn references_of(
    alloc: Global,
    ty: &TypeNotation<'_>,
    indices: &HashMap<String, usize>,
) -> Result<References, AllocError> {
    match ty {
        TypeNotation::Boolean
        | TypeNotation::Null
        | TypeNotation::Utf8
        | TypeNotation::Integer(_)
        | TypeNotation::Enumerated { .. }
        | TypeNotation::Text(..) => Ok(References::None),
        TypeNotation::SequenceOf(_, element) => {
            let inside = references_of(alloc, element, indices)?;
            if inside.is_none() {
                return Ok(References::None);
            }
            Ok(References::Elements(Box::new(alloc, inside)?))
        }
        TypeNotation::Sequence { root, more } => {
            let mut parts = Vec::new(alloc);
            push_of_components(alloc, root, &mut parts, indices)?;
            if let Some(more) = more {
                push_of_components(alloc, more, &mut parts, indices)?;
            }
            Ok(references_in(parts))
        }
        TypeNotation::Choice { root, more } => {
            let mut parts = Vec::new(alloc);
            push_of_alternatives(alloc, root, &mut parts, indices)?;
            if let Some(more) = more {
                push_of_alternatives(alloc, more, &mut parts, indices)?;
            }
            Ok(references_in(parts))
        }
        TypeNotation::Reference { name, .. } => match indices.get(*name) {
            Some(index) => Ok(References::Name(*index)),
            None => Ok(References::None),
        },
    }
}

/// What a type refers to whose parts refer to these.
fn references_in(parts: Vec<References>) -> References {
    if parts.iter().all(References::is_none) {
        References::None
    } else {
        References::Parts(parts)
    }
}

/// Adds what components refer to.
#[cycle(references)]
fn push_of_components(
    alloc: Global,
    components: &[ComponentNotation<'_>],
    parts: &mut Vec<References>,
    indices: &HashMap<String, usize>,
) -> Result<(), AllocError> {
    for component in components {
        parts.push(references_of(alloc, &component.ty, indices)?)?;
    }
    Ok(())
}

/// Adds what alternatives refer to.
#[cycle(references)]
fn push_of_alternatives(
    alloc: Global,
    alternatives: &[AlternativeNotation<'_>],
    parts: &mut Vec<References>,
    indices: &HashMap<String, usize>,
) -> Result<(), AllocError> {
    for alternative in alternatives {
        parts.push(references_of(alloc, &alternative.ty, indices)?)?;
    }
    Ok(())
}
