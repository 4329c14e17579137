//! What inner subtyping allows of the parts of a type (X.680, "inner subtyping").
use crate::parts::{Part, Parts, Said};
use asn_constraints::{Component, Constraint, Presence};
use asn_published_text::nodes::Need;
use std::alloc::{AllocError, Global};
use std::mem;

impl<'t> Parts<'t> {
    /// The constraint on the alternatives of a CHOICE.
    pub(crate) fn alternatives(self, alloc: Global) -> Result<Constraint, AllocError> {
        let Parts {
            parts,
            is_partial,
            ..
        } = self;
        let has_present = parts.iter().any(|part| part.said == Said::Present);
        let mut alternatives = Vec::new(alloc);
        let mut is_free = true;
        for part in parts {
            let Part {
                said,
                constraint,
                is_listed,
                ..
            } = part;
            let is_barred = said == Said::Absent
                || (has_present && said != Said::Present)
                || (!is_partial && !is_listed);
            let one = if is_barred {
                Constraint::Barred
            } else {
                constraint
            };
            is_free &= matches!(&one, Constraint::Free);
            alternatives.push(one)?;
        }
        if is_free {
            return Ok(Constraint::Free);
        }
        Ok(Constraint::Alternatives(alternatives))
    }

    /// The constraint on the components of a SEQUENCE or SET.
    pub(crate) fn components(self, alloc: Global) -> Result<Constraint, AllocError> {
        let Parts {
            parts,
            groups,
            count,
            is_partial,
            ..
        } = self;
        let mut components = unconstrained(alloc, count)?;
        for group in &groups {
            let mut inner = unconstrained(alloc, group.count)?;
            for part in &parts {
                if let (Some(inside), true) = (part.inside, part.place == group.place) {
                    put_presence(&mut inner, inside, presence_of(part, is_partial));
                }
            }
            let is_present = inner.iter().any(|one| one.presence == Presence::Present);
            let presence = if is_present {
                Presence::Present
            } else {
                Presence::Any
            };
            put_presence(&mut components, group.place, presence);
            put_constraint(&mut components, group.place, Constraint::Components(inner));
        }
        for part in parts {
            match part.inside {
                None => {
                    put_presence(&mut components, part.place, presence_of(&part, is_partial));
                    put_constraint(&mut components, part.place, part.constraint);
                }
                Some(inside) => {
                    if let Some(group) = components.get_mut(part.place) {
                        if let Constraint::Components(inner) = &mut group.constraint {
                            put_constraint(inner, inside, part.constraint);
                        }
                    }
                }
            }
        }
        Ok(without_free(components))
    }
}

/// Whether a component has to be there.
fn presence_of(part: &Part<'_>, is_partial: bool) -> Presence {
    let is_optional = matches!(part.need, Need::Optional);
    if part.is_default_barred {
        return Presence::Present;
    }
    match part.said {
        Said::Present if is_optional || part.is_addition => Presence::Present,
        Said::Absent if is_optional => Presence::Absent,
        Said::Nothing if !is_partial && is_optional => {
            if part.is_listed {
                Presence::Present
            } else {
                Presence::Absent
            }
        }
        _ => Presence::Any,
    }
}

/// Components without a constraint.
fn unconstrained(alloc: Global, count: usize) -> Result<Vec<Component>, AllocError> {
    let mut components = Vec::new(alloc);
    for _ in 0..count {
        components.push(Component {
            presence: Presence::Any,
            constraint: Constraint::Free,
        })?;
    }
    Ok(components)
}

/// Takes whether a component has to be there.
fn put_presence(components: &mut Vec<Component>, place: usize, presence: Presence) {
    if let Some(one) = components.get_mut(place) {
        one.presence = presence;
    }
}

/// Takes the constraint on a component.
fn put_constraint(components: &mut Vec<Component>, place: usize, constraint: Constraint) {
    if let Some(one) = components.get_mut(place) {
        let _before = mem::replace(&mut one.constraint, constraint);
    }
}

/// Whether a component has no constraint.
fn is_free(component: &Component) -> bool {
    if component.presence != Presence::Any {
        return false;
    }
    match &component.constraint {
        Constraint::Free => true,
        Constraint::Components(inner) => inner.iter().all(|one| {
            one.presence == Presence::Any && matches!(&one.constraint, Constraint::Free)
        }),
        _ => false,
    }
}

/// The constraint on components, those after the last with a constraint left out.
fn without_free(components: Vec<Component>) -> Constraint {
    let mut components = components;
    for _ in 0..components.len() {
        match components.last() {
            Some(last) if is_free(last) => {
                components.pop();
            }
            _ => break,
        }
    }
    if components.is_empty() {
        Constraint::Free
    } else {
        Constraint::Components(components)
    }
}
