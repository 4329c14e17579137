//! The constraint of a whole type, and which octets of its values are encodings, of those of its nodes.
use crate::joining::both;
use crate::limits::MOST_LEVELS;
use crate::steps::{Holds, Marked, Step};
use asn_constraints::{Component, Constraint, Presence};
use asn_contents::{Contents, both_contents, contents_of_elements, contents_of_parts, moved};
use std::alloc::{AllocError, Global};

/// A node of a type among those that are written.
#[derive(Clone, Copy)]
struct Place {
    index: usize,
    step: usize,
}

impl Place {
    /// The node, where it has a constraint or holds one that has.
    fn step(self, types: &[Marked]) -> Option<&Step> {
        match types.get(self.index)?.steps.get(self.step) {
            Some(step) if !step.is_free => Some(step),
            _ => None,
        }
    }
}

/// The constraint of the type at an index among those that are written; `Free` where it has none.
pub fn constraint_at(
    alloc: Global,
    types: &[Marked],
    index: usize,
) -> Result<Constraint, AllocError> {
    // (two calls for each level that a type can have)
    let levels = MOST_LEVELS.saturating_mul(2).saturating_add(2);
    tree_at(alloc, types, Place { index, step: 0 }, levels)
}

/// The constraint of a node with that of what it holds and of the types that it names, which are no deeper than `levels`
/// calls.
#[cycle(tree)]
fn tree_at(
    alloc: Global,
    types: &[Marked],
    place: Place,
    levels: usize,
) -> Result<Constraint, AllocError> {
    if levels == 0 {
        return Ok(Constraint::Barred);
    }
    let mut total = Constraint::Free;
    let mut at = place;
    // (a type names one that was written before it)
    for _ in 0..=types.len() {
        let Some(step) = at.step(types) else {
            return Ok(total);
        };
        let own = step.constraint.copy(alloc)?;
        total = both(alloc, total, own)?;
        let inside = at.step.saturating_add(1);
        if step.end > inside {
            let names = constraint_of_names(alloc, types, step.to)?;
            total = both(alloc, total, names)?;
            let first = Place {
                index: at.index,
                step: inside,
            };
            let held = held_at(alloc, types, first, step.end, step.holds, levels - 1)?;
            return both(alloc, total, held);
        }
        match step.to {
            Some(index) if !step.is_whole => at = Place { index, step: 0 },
            _ => return Ok(total),
        }
    }
    Ok(total)
}

/// The constraint on values of a type that is written once more where it is named: that of the node of the type itself alone.
fn constraint_of_names(
    alloc: Global,
    types: &[Marked],
    to: Option<usize>,
) -> Result<Constraint, AllocError> {
    let mut total = Constraint::Free;
    let mut to = to;
    for _ in 0..=types.len() {
        let Some(index) = to else {
            break;
        };
        let Some(step) = (Place { index, step: 0 }).step(types) else {
            break;
        };
        let own = step.constraint.copy(alloc)?;
        total = both(alloc, total, own)?;
        to = step.to;
    }
    Ok(total)
}

/// The constraint of what a node holds: of the nodes from one on, to before another in the same type.
#[cycle(tree)]
fn held_at(
    alloc: Global,
    types: &[Marked],
    first: Place,
    end: usize,
    holds: Holds,
    levels: usize,
) -> Result<Constraint, AllocError> {
    if levels == 0 {
        return Ok(Constraint::Barred);
    }
    let Some(one) = types.get(first.index) else {
        return Ok(Constraint::Free);
    };
    let mut constraints = Vec::new(alloc);
    let mut is_free = true;
    let mut at = first.step;
    for _ in first.step..end {
        let step = match one.steps.get(at) {
            Some(step) if at < end => step,
            _ => break,
        };
        let place = Place {
            index: first.index,
            step: at,
        };
        let constraint = tree_at(alloc, types, place, levels - 1)?;
        is_free &= matches!(&constraint, Constraint::Free);
        constraints.push(constraint)?;
        at = step.end;
    }
    if is_free {
        return Ok(Constraint::Free);
    }
    match holds {
        Holds::Nothing => Ok(Constraint::Free),
        Holds::Components => components_of(alloc, constraints),
        Holds::Element => match constraints.pop() {
            Some(constraint) => Ok(Constraint::Elements(Box::new(alloc, constraint)?)),
            None => Ok(Constraint::Free),
        },
        Holds::Alternatives => Ok(Constraint::Alternatives(constraints)),
    }
}

/// The constraint on components with these constraints, of which those after the last that is not free are left out.
fn components_of(alloc: Global, constraints: Vec<Constraint>) -> Result<Constraint, AllocError> {
    let mut count = 0usize;
    let mut at = 0usize;
    for constraint in &constraints {
        at = at.saturating_add(1);
        if !matches!(constraint, Constraint::Free) {
            count = at;
        }
    }
    let mut components = Vec::new(alloc);
    for constraint in constraints {
        if components.len() < count {
            components.push(Component {
                presence: Presence::Any,
                constraint,
            })?;
        }
    }
    Ok(Constraint::Components(components))
}

/// Which octets of the values of the type at an index among those that are written are encodings. `places` has the
/// positions of their types.
pub fn contents_at(
    alloc: Global,
    types: &[Marked],
    index: usize,
    places: &[Option<usize>],
) -> Result<Contents, AllocError> {
    let levels = MOST_LEVELS.saturating_mul(2).saturating_add(2);
    let contents = contents_of_node(alloc, types, Place { index, step: 0 }, places, levels)?;
    Ok(contents)
}

/// The same of a node with what it holds and with the types that it names, which are no deeper than `levels` calls.
#[cycle(contents)]
fn contents_of_node(
    alloc: Global,
    types: &[Marked],
    place: Place,
    places: &[Option<usize>],
    levels: usize,
) -> Result<Contents, AllocError> {
    if levels == 0 {
        return Ok(Contents::Nowhere);
    }
    let mut total = Contents::Nowhere;
    let mut at = place;
    for _ in 0..=types.len() {
        let Some(step) = at.step(types) else {
            return Ok(total);
        };
        let own = moved(alloc, &step.contents, places)?;
        total = both_contents(alloc, total, own)?;
        let inside = at.step.saturating_add(1);
        if step.end > inside {
            let names = contents_of_names(alloc, types, step.to, places)?;
            total = both_contents(alloc, total, names)?;
            let first = Place {
                index: at.index,
                step: inside,
            };
            let held = contents_held(
                alloc,
                types,
                first,
                step.end,
                step.holds,
                places,
                levels - 1,
            )?;
            return both_contents(alloc, total, held);
        }
        match step.to {
            Some(index) => at = Place { index, step: 0 },
            None => return Ok(total),
        }
    }
    Ok(total)
}

/// The same of a type that is written once more where it is named: of the node of the type itself alone.
fn contents_of_names(
    alloc: Global,
    types: &[Marked],
    to: Option<usize>,
    places: &[Option<usize>],
) -> Result<Contents, AllocError> {
    let mut total = Contents::Nowhere;
    let mut to = to;
    for _ in 0..=types.len() {
        let Some(index) = to else {
            break;
        };
        let Some(step) = (Place { index, step: 0 }).step(types) else {
            break;
        };
        let own = moved(alloc, &step.contents, places)?;
        total = both_contents(alloc, total, own)?;
        to = step.to;
    }
    Ok(total)
}

/// The same of what a node holds: of the nodes from one on, to before another in the same type.
#[cycle(contents)]
fn contents_held(
    alloc: Global,
    types: &[Marked],
    first: Place,
    end: usize,
    holds: Holds,
    places: &[Option<usize>],
    levels: usize,
) -> Result<Contents, AllocError> {
    if levels == 0 {
        return Ok(Contents::Nowhere);
    }
    let Some(one) = types.get(first.index) else {
        return Ok(Contents::Nowhere);
    };
    let mut parts = Vec::new(alloc);
    let mut at = first.step;
    for _ in first.step..end {
        let step = match one.steps.get(at) {
            Some(step) if at < end => step,
            _ => break,
        };
        let place = Place {
            index: first.index,
            step: at,
        };
        let contents = contents_of_node(alloc, types, place, places, levels - 1)?;
        parts.push(contents)?;
        at = step.end;
    }
    match holds {
        Holds::Nothing => Ok(Contents::Nowhere),
        Holds::Components => Ok(contents_of_parts(parts, false)),
        Holds::Element => match parts.pop() {
            Some(contents) => contents_of_elements(alloc, contents),
            None => Ok(Contents::Nowhere),
        },
        Holds::Alternatives => Ok(contents_of_parts(parts, true)),
    }
}
