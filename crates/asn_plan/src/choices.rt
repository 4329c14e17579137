//! The walk of a plan in the alternatives of a CHOICE.
ghost use Rattle.std.specs.Prelude.{◌≡◌, ◌≤◌, ◌<◌, IfSome, IsSome, true};
ghost use Rattle.asn_values.specs.Profile.{InProfile, most_alternatives};
ghost use Rattle.asn_values.specs.Shape.{Shape};
ghost use Rattle.asn_walk.specs.Coding.{AreFew};
ghost use Rattle.asn_plan.specs.declared.plan.Kind.TheVariants as kind;
ghost use Rattle.asn_plan.specs.Plans.{IsPlan, Builds};

use crate::build::Build;
use crate::open::build_open;
use crate::plan::{AlternativeRows, Node};
use crate::rules::PlanLeaves;
use crate::walk::build_at;
use asn_bits::BitCursor;
use asn_values::profile::MAX_ALTERNATIVES;
use asn_walk::Index;
use std::alloc::Global;

/// What is built of the CHOICE with which the units begin, and which is taken.
#[inline(never)]
#[cycle(walk)]
pub(crate) fn build_choice<R: PlanLeaves, B: Build>(
    alloc: Global,
    nodes: &[Node],
    parts: &AlternativeRows,
    units: &mut BitCursor<'_>,
    room: &mut B::Room,
) -> Option<B::Part>
    requires at_unit { R.rules.at_unit units.old }
    ensures at_unit { IsSome result → R.rules.at_unit units.new }
    ensures some { IfSome result (λ p. (t : Shape) → InProfile t → IsPlan nodes.now t (kind.Choice parts.now)
        → Builds R.rules (B.built room.old room.new) t p units.old units.new) }
{
    R::keep_laws();
    if parts.begin >= parts.middle || parts.middle > nodes.len() {
        return None;
    }
    let Some(told) = R::try_index(&parts.indexes, units) else {
        return build_chosen::<R, B>(alloc, nodes, parts, units, room);
    };
    let (before, root) = (&nodes[..parts.begin], &nodes[parts.begin..parts.middle]);
    let place = told as usize;
    if place >= root.len() {
        return None;
    }
    let chosen = B::choosing(room, place)?;
    let part = build_at::<R, B>(alloc, before, &root[place].kind, units, room)?;
    B::choice(alloc, room, chosen, place, part)
}

/// The same, where the index is read on its own.
#[inline(never)]
#[cycle(walk)]
fn build_chosen<R: PlanLeaves, B: Build>(
    alloc: Global,
    nodes: &[Node],
    parts: &AlternativeRows,
    units: &mut BitCursor<'_>,
    room: &mut B::Room,
) -> Option<B::Part>
    requires at_unit { R.rules.at_unit units.old }
    ensures at_unit { IsSome result → R.rules.at_unit units.new }
    ensures some { IfSome result (λ p. (t : Shape) → InProfile t → IsPlan nodes.now t (kind.Choice parts.now)
        → Builds R.rules (B.built room.old room.new) t p units.old units.new) }
{
    R::keep_laws();
    if parts.begin >= parts.end || parts.end > nodes.len() {
        return None;
    }
    if parts.begin > parts.middle || parts.middle > parts.end {
        return None;
    }
    let before = &nodes[..parts.begin];
    let root = &nodes[parts.begin..parts.middle];
    let added = &nodes[parts.middle..parts.end];
    if !are_few(root.len(), parts.additions) {
        return None;
    }
    let Ok(index) = R::read_index(root.len(), parts.additions, units) else {
        return None;
    };
    match index {
        Index::Root(place) => {
            if place >= root.len() {
                return None;
            }
            let chosen = B::choosing(room, place)?;
            let part = build_at::<R, B>(alloc, before, &root[place].kind, units, room)?;
            let whole = B::choice(alloc, room, chosen, place, part)?;
            Some(whole)
        }
        Index::Added(place) => {
            if place >= added.len() || place > MAX_ALTERNATIVES {
                return None;
            }
            let place_in_all = root.len() + place;
            let chosen = B::choosing(room, place_in_all)?;
            let part = build_open::<R, B>(alloc, before, &added[place].kind, units, room)?;
            let whole = B::choice(alloc, room, chosen, place_in_all, part)?;
            Some(whole)
        }
    }
}

/// Whether a CHOICE may have this many alternatives in its root, and this many extension additions.
#[inline(always)]
fn are_few(root: usize, additions: Option<usize>) -> bool
    ensures some { result ≡ true → 0 < root }
    ensures few { result ≡ true → AreFew root additions }
    ensures few_in_root { result ≡ true → root ≤ most_alternatives }
{
    let added = match additions {
        Some(count) => count,
        None => 0,
    };
    0 < root && root <= MAX_ALTERNATIVES && added <= MAX_ALTERNATIVES - root
}
