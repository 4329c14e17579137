//! The walk of a plan in the elements of a SEQUENCE OF.
ghost use Rattle.std.specs.Prelude.{◌≡◌, IfSome, IsSome};
ghost use Rattle.asn_values.specs.Profile.{InProfile};
ghost use Rattle.asn_values.specs.Shape.{Shape};
ghost use Rattle.asn_rules.specs.Languages.{Row};
ghost use Rattle.asn_walk.specs.Ahead.{Remaining};
ghost use Rattle.asn_walk.specs.Reading.{ValuesOf};
ghost use Rattle.asn_plan.specs.declared.plan.Kind.TheVariants as kind;
ghost use Rattle.asn_plan.specs.Plans.{IsPlan, Builds, BuildsList, BuildsRow};

use crate::build::Build;
use crate::components::build_sequences;
use crate::plan::{ElementRow, Kind, Node};
use crate::rules::PlanLeaves;
use crate::walk::build_at;
use asn_bits::BitCursor;
use std::alloc::Global;

/// What is built of the SEQUENCE OF with which the units begin, and which is taken.
#[inline(never)]
#[cycle(walk)]
pub(crate) fn build_list<R: PlanLeaves, B: Build>(
    alloc: Global,
    nodes: &[Node],
    list: &ElementRow,
    units: &mut BitCursor<'_>,
    room: &mut B::Room,
) -> Option<B::Part>
    requires at_unit { R.rules.at_unit units.old }
    ensures at_unit { IsSome result → R.rules.at_unit units.new }
    ensures some { IfSome result (λ p. (t : Shape) → InProfile t → IsPlan nodes.now t (kind.List list.now)
        → Builds R.rules (B.built room.old room.new) t p units.old units.new) }
{
    R::keep_laws();
    if list.element >= nodes.len() {
        return None;
    }
    let Some(count) = R::try_count(&list.counts, units) else {
        return build_counted::<R, B>(alloc, nodes, list, units, room);
    };
    let (before, element) = (&nodes[..list.element], &nodes[list.element]);
    let mut row = B::elements(alloc, room)?;
    let count = count as usize;
    build_elements::<R, B>(alloc, before, &element.kind, count, &mut row, units, room)?;
    B::list(room, row)
}

/// The same, where the count is read on its own.
#[inline(never)]
#[cycle(walk)]
fn build_counted<R: PlanLeaves, B: Build>(
    alloc: Global,
    nodes: &[Node],
    list: &ElementRow,
    units: &mut BitCursor<'_>,
    room: &mut B::Room,
) -> Option<B::Part>
    requires at_unit { R.rules.at_unit units.old }
    ensures at_unit { IsSome result → R.rules.at_unit units.new }
    ensures some { IfSome result (λ p. (t : Shape) → InProfile t → IsPlan nodes.now t (kind.List list.now)
        → Builds R.rules (B.built room.old room.new) t p units.old units.new) }
{
    R::keep_laws();
    if list.element >= nodes.len() {
        return None;
    }
    let before = &nodes[..list.element];
    let element = &nodes[list.element];
    let Ok(fragments) = R::start_list(&list.size, units) else {
        return None;
    };
    let row = build_fragments::<R, B>(alloc, before, &element.kind, fragments, units, room)?;
    let part = B::list(room, row)?;
    Some(part)
}

/// What is built of the elements of the fragments that are ahead, with which the units begin, and which are taken.
#[inline(always)]
#[cycle(walk)]
fn build_fragments<R: PlanLeaves, B: Build>(
    alloc: Global,
    nodes: &[Node],
    kind: &Kind,
    fragments: R::Fragments,
    units: &mut BitCursor<'_>,
    room: &mut B::Room,
) -> Option<B::Elements>
    requires at_unit { R.rules.at_unit units.old }
    requires between { R.is_between fragments }
    ensures at_unit { IsSome result → R.rules.at_unit units.new }
    ensures some { IfSome result (λ p. (t : Shape) → InProfile t → IsPlan nodes.now t kind.now
        → BuildsList R.rules (B.rowed room.old room.new) (Remaining (ValuesOf R.rules t) (R.ahead fragments)) p
        units.old units.new) }
{
    R::keep_laws();
    let mut fragments = fragments;
    let mut row = B::elements(alloc, room)?;
    for i in 0..u64::MAX {
        let Ok(next) = R::next_fragment(&mut fragments, units) else {
            return None;
        };
        let Some(count) = next else {
            return Some(row);
        };
        build_elements::<R, B>(alloc, nodes, kind, count, &mut row, units, room)?;
    }
    None
}

/// Adds `count` elements, with which the units begin, and which are taken.
#[inline(always)]
#[cycle(walk)]
fn build_elements<R: PlanLeaves, B: Build>(
    alloc: Global,
    nodes: &[Node],
    kind: &Kind,
    count: usize,
    row: &mut B::Elements,
    units: &mut BitCursor<'_>,
    room: &mut B::Room,
) -> Option<()>
    requires at_unit { R.rules.at_unit units.old }
    ensures at_unit { IsSome result → R.rules.at_unit units.new }
    ensures some { IsSome result → (s : B.Room) → (t : Shape) → InProfile t → IsPlan nodes.now t kind.now
        → BuildsRow R.rules (B.rowed s room.old row.old) (B.rowed s room.new row.new) (Row (ValuesOf R.rules t) count)
        (R.rules.to_units units.old) (R.rules.to_units units.new) }
{
    if let Kind::Sequence(parts) = kind {
        if parts.begin < parts.end && !B::passes(room) {
            return build_sequences::<R, B>(alloc, nodes, parts, count, row, units, room);
        }
    }
    for i in 0..count {
        let value = build_at::<R, B>(alloc, nodes, kind, units, room)?;
        B::element(room, row, value)?;
    }
    Some(())
}
