//! Additions that are there where a later one is (X.680, "extension additions").
use crate::known::Known;
use crate::writer::{Task, Writer};
use asn_constraints::{Component, Constraint, Presence};
use asn_published_text::nodes::{Member, MemberKind, Need, Shape};
use asn_published_text::refusal::Refusal;
use asn_published_types::joining::{both, either};
use asn_published_types::layout::{Layout, layout_of};
use asn_published_types::report::Remark;
use std::alloc::{AllocError, Global};

/// Of how many additions of a type it is looked at whether they are left out.
const MOST_LOOKED_AT: usize = 16;

/// Whether an addition has to be there in the versions that have it: it is not OPTIONAL, or is a group in which a component
/// has to be there.
fn has_to_be_there<'t>(
    alloc: Global,
    known: &Known<'_, 't>,
    member: &Member<'t>,
) -> Result<bool, Refusal> {
    let MemberKind::Group(_) = member.kind else {
        return Ok(matches!(member.need, Need::Must));
    };
    let Some(node) = known.forest.node(member.node) else {
        return Ok(false);
    };
    let Shape::Members { from, to, .. } = node.shape else {
        return Ok(false);
    };
    let layout = layout_of(alloc, known.tagging(), (from, to), known.line_of(&node))?;
    Ok(!layout.may_be_empty(known.forest))
}

/// So many components without a constraint.
fn unconstrained(alloc: Global, count: usize) -> Result<Vec<Component>, AllocError> {
    let mut components = Vec::new(alloc);
    for _ in 0..count {
        components.push(Component {
            presence: Presence::Any,
            constraint: Constraint::Free,
        })?;
    }
    Ok(components)
}

/// That a component is there, or none after it; `count` is how many there are in all.
fn present_before_others(
    alloc: Global,
    place: usize,
    count: usize,
) -> Result<Constraint, AllocError> {
    let mut present = unconstrained(alloc, place)?;
    present.push(Component {
        presence: Presence::Present,
        constraint: Constraint::Free,
    })?;
    let mut absent = unconstrained(alloc, place.saturating_add(1))?;
    for _ in absent.len()..count {
        absent.push(Component {
            presence: Presence::Absent,
            constraint: Constraint::Free,
        })?;
    }
    either(
        alloc,
        Constraint::Components(present),
        Constraint::Components(absent),
    )
}

impl<'t> Writer<'t> {
    /// Takes that the additions of a node that have to be there are, where a later one is.
    pub fn take_left_out(
        &mut self,
        alloc: Global,
        known: &Known<'_, 't>,
        tasks: &mut Vec<Task<'t>>,
        index: usize,
        layout: &Layout,
    ) -> Result<(), Refusal> {
        let mut total = Constraint::Free;
        let mut looked_at = 0usize;
        let mut at = layout.root.len();
        for placed in &layout.additions {
            let place = at;
            at = at.saturating_add(1);
            let Some(member) = known.forest.member(placed.member) else {
                continue;
            };
            if at >= layout.len() || !has_to_be_there(alloc, known, &member)? {
                continue;
            }
            looked_at = looked_at.saturating_add(1);
            if looked_at > MOST_LOOKED_AT {
                self.note(alloc, known, member.node, Remark::LeftOut)?;
                tasks.push(Task::Mark(member.node, Remark::LeftOut))?;
                continue;
            }
            let one = present_before_others(alloc, place, layout.len())?;
            total = both(alloc, total, one)?;
        }
        Ok(self.trail.constrain(alloc, index, total)?)
    }
}
