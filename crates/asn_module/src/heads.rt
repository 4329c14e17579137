//! What the references of a refused module lead to, each followed once.

use crate::bounds::{both_bounds, both_sizes, bounds_of, size_of};
use crate::references::may_add;
use asn_notation::{AssignmentNotation, Constraint, ListSize, TypeNotation};
use asn_values::{AsnType, Bounds, Size};
use std::alloc::{AllocError, Global};
use std::collections::HashMap;

/// Which constraints may stand on a type.
#[derive(Clone, Copy, PartialEq, Eq)]
enum Kind {
    /// A range.
    Integer,
    /// A size.
    Sized,
    /// None.
    Other,
}

/// The bounds that are written on references, met together.
#[derive(Clone, Copy)]
pub(crate) enum Met {
    Free,
    Range(Bounds),
    Size(Size),
}

/// What a name stands for.
#[derive(Clone, Copy)]
pub(crate) struct Head {
    /// The index of the assignment to which its references lead: the type there is no reference.
    pub end: usize,
    kind: Kind,
    /// None where no constraint is written on the way, and else whether it has the extension mark.
    constraint: Option<bool>,
    pub met: Met,
}

/// The head of an assignment whose type is no reference.
fn own_head(index: usize, ty: &TypeNotation) -> Head {
    let (kind, constraint) = match ty {
        TypeNotation::Integer(Some(range)) => (Kind::Integer, Some(range.marked)),
        TypeNotation::Integer(None) => (Kind::Integer, None),
        TypeNotation::Text(_, Some(size)) => (Kind::Sized, Some(size.marked)),
        TypeNotation::Text(_, None) | TypeNotation::SequenceOf(ListSize::Any, _) => {
            (Kind::Sized, None)
        }
        TypeNotation::SequenceOf(ListSize::Bare(size) | ListSize::Bracketed(size), _) => {
            (Kind::Sized, Some(size.marked))
        }
        _ => (Kind::Other, None),
    };
    Head {
        end: index,
        kind,
        constraint,
        met: Met::Free,
    }
}

/// Whether a constraint may stand on a reference to a name with this head.
pub(crate) fn may_stand(head: &Head, constraint: Constraint) -> bool {
    match constraint {
        Constraint::None => true,
        Constraint::Range(range) => {
            may_add(head.constraint, range.marked) && head.kind == Kind::Integer
        }
        Constraint::Size(size) => may_add(head.constraint, size.marked) && head.kind == Kind::Sized,
    }
}

/// The head with a constraint more. Where it may not stand there, only that it is written counts, and its mark.
pub(crate) fn constrained_head(head: Head, constraint: Constraint) -> Head {
    if !may_stand(&head, constraint) {
        let marked = match constraint {
            Constraint::None => return head,
            Constraint::Range(range) => range.marked,
            Constraint::Size(size) => size.marked,
        };
        return Head {
            constraint: Some(marked),
            ..head
        };
    }
    match constraint {
        Constraint::None => head,
        Constraint::Range(range) => {
            let bounds = bounds_of(range);
            Head {
                end: head.end,
                kind: head.kind,
                constraint: Some(range.marked),
                met: Met::Range(match head.met {
                    Met::Range(before) => both_bounds(before, bounds),
                    _ => bounds,
                }),
            }
        }
        Constraint::Size(size) => {
            let sizes = size_of(size);
            Head {
                end: head.end,
                kind: head.kind,
                constraint: Some(size.marked),
                met: Met::Size(match head.met {
                    Met::Size(before) => both_sizes(before, sizes),
                    _ => sizes,
                }),
            }
        }
    }
}

/// The head of the type that a reference stands for; None where the type is no reference, or refers to no name.
pub(crate) fn head_of(
    heads: &[Head],
    indices: &HashMap<&str, usize>,
    ty: &TypeNotation,
) -> Option<Head> {
    match ty {
        TypeNotation::Reference {
            name,
            constraint,
            ..
        } => {
            let index = indices.get(*name)?;
            let head = heads.get(*index)?;
            Some(constrained_head(*head, *constraint))
        }
        _ => None,
    }
}

/// The head of each assignment. `indices` has the index of each name, and in `order` each assignment comes after
/// those that it refers to.
pub(crate) fn heads_of(
    alloc: Global,
    assignments: &[AssignmentNotation],
    indices: &HashMap<&str, usize>,
    order: &[usize],
) -> Result<Vec<Head>, AllocError> {
    let mut heads = Vec::new(alloc);
    for (index, assignment) in assignments.iter().enumerate() {
        heads.push(own_head(index, &assignment.ty))?;
    }
    for index in order {
        if *index < heads.len() && *index < assignments.len() {
            if let Some(head) = head_of(&heads, indices, &assignments[*index].ty) {
                heads[*index] = head;
            }
        }
    }
    Ok(heads)
}

/// The type with the bounds that are written on references to it.
pub(crate) fn with_bounds(ty: AsnType, met: Met) -> AsnType {
    match met {
        Met::Free => ty,
        Met::Range(range) => match ty {
            AsnType::Int(bounds) => AsnType::Int(both_bounds(bounds, range)),
            other => other,
        },
        Met::Size(size) => match ty {
            AsnType::Bits(before) => AsnType::Bits(both_sizes(before, size)),
            AsnType::Octets(before) => AsnType::Octets(both_sizes(before, size)),
            AsnType::Text(kind, before) => AsnType::Text(kind, both_sizes(before, size)),
            AsnType::SeqOf(element, before) => AsnType::SeqOf(element, both_sizes(before, size)),
            other => other,
        },
    }
}
