//! The walk of a plan in complete encodings, and in the open type fields that hold them.
ghost use Rattle.std.specs.Prelude.{◌≡◌, IfSome, IsSome};
ghost use Rattle.asn_values.specs.Profile.{InProfile};
ghost use Rattle.asn_values.specs.Shape.{Shape};
ghost use Rattle.asn_plan.specs.Plans.{IsPlan, BuildsMessage, BuildsOpen};

use crate::build::Build;
use crate::plan::{Kind, Node};
use crate::rules::PlanLeaves;
use crate::walk::build_at;
use asn_bits::BitCursor;
use asn_rules::laws::are_octets;
use asn_walk_read::{SHORT_OPEN_FIELD, read_open_octets};
use std::alloc::Global;

/// What is built of the value whose complete encoding the octets are.
#[inline(always)]
#[cycle(walk)]
pub(crate) fn build_complete<R: PlanLeaves, B: Build>(
    alloc: Global,
    nodes: &[Node],
    kind: &Kind,
    octets: &[u8],
    room: &mut B::Room,
) -> Option<B::Part>
    ensures { IfSome result (λ p. (t : Shape) → InProfile t → IsPlan nodes.now t kind.now
        → BuildsMessage R.rules.ruling (B.built room.old room.new) t p octets.now) }
{
    R::keep_laws();
    are_octets(octets);
    let Ok(count) = u32::try_from(octets.len()) else {
        return None;
    };
    let mut units = BitCursor::over(octets);
    let given = R::units_left(&units);
    let part = build_at::<R, B>(alloc, nodes, kind, &mut units, room)?;
    let left = R::units_left(&units);
    if left > given || !R::leave_open(count, given - left, &mut units) {
        return None;
    }
    Some(part)
}

/// What is built of the value in the open type field with which the units begin, and which is taken.
#[inline(never)]
#[cycle(walk)]
pub(crate) fn build_open<R: PlanLeaves, B: Build>(
    alloc: Global,
    nodes: &[Node],
    kind: &Kind,
    units: &mut BitCursor<'_>,
    room: &mut B::Room,
) -> Option<B::Part>
    requires at_unit { R.rules.at_unit units.old }
    ensures at_unit { IsSome result → R.rules.at_unit units.new }
    ensures some { IfSome result (λ p. (t : Shape) → InProfile t → IsPlan nodes.now t kind.now
        → BuildsOpen R.rules (B.built room.old room.new) t p units.old units.new) }
{
    if let Some(octets) = R::enter_open(units) {
        let given = R::units_left(units);
        let part = build_at::<R, B>(alloc, nodes, kind, units, room)?;
        let left = R::units_left(units);
        if left > given || !R::leave_open(octets, given - left, units) {
            return None;
        }
        return Some(part);
    }
    build_copied::<R, B>(alloc, nodes, kind, units, room)
}

/// What is built of the value in the open type field with which the units begin, and which is taken, by a copy of its
/// octets.
#[inline(never)]
#[cycle(walk)]
fn build_copied<R: PlanLeaves, B: Build>(
    alloc: Global,
    nodes: &[Node],
    kind: &Kind,
    units: &mut BitCursor<'_>,
    room: &mut B::Room,
) -> Option<B::Part>
    requires at_unit { R.rules.at_unit units.old }
    ensures at_unit { IsSome result → R.rules.at_unit units.new }
    ensures some { IfSome result (λ p. (t : Shape) → InProfile t → IsPlan nodes.now t kind.now
        → BuildsOpen R.rules (B.built room.old room.new) t p units.old units.new) }
{
    let mut short = [0; SHORT_OPEN_FIELD];
    let mut long = Vec::new(alloc);
    let Ok(octets) = read_open_octets::<R>(alloc, units, &mut short, &mut long) else {
        return None;
    };
    let part = build_complete::<R, B>(alloc, nodes, kind, octets, room)?;
    Some(part)
}
