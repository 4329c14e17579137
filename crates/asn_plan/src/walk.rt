//! The walk of a plan: it reads by the nodes alone, without the type.
//!
//! Where it gives a part, the units taken are the spelling of the value that the part was built of, of each type that
//! the nodes are a plan of. Where it gives none, nothing is said, neither of the units nor of why: the caller asks the
//! reader of types, which tells the fault and its place.
ghost use Rattle.std.specs.Prelude.{◌≡◌, IfSome, IsSome};
ghost use Rattle.asn_values.specs.Profile.{InProfile};
ghost use Rattle.asn_values.specs.Shape.{Shape};
ghost use Rattle.asn_plan.specs.Plans.{IsPlan, Builds};

use crate::build::Build;
use crate::choices::build_choice;
use crate::components::build_sequence;
use crate::leaves::{build_leaf, build_other, build_ranged, try_item, try_truth};
use crate::lists::build_list;
use crate::plan::{Kind, Node};
use crate::rules::PlanLeaves;
use asn_bits::BitCursor;
use asn_values::AsnType;
use std::alloc::Global;

/// What is built of the value of the type with which the units begin, and which is taken.
#[inline(always)]
#[cycle(walk)]
pub fn build_at<R: PlanLeaves, B: Build>(
    alloc: Global,
    nodes: &[Node],
    kind: &Kind,
    units: &mut BitCursor<'_>,
    room: &mut B::Room,
) -> Option<B::Part>
    requires at_unit { R.rules.at_unit units.old }
    ensures at_unit { IsSome result → R.rules.at_unit units.new }
    ensures some { IfSome result (λ p. (t : Shape) → InProfile t → IsPlan nodes.now t kind.now
        → Builds R.rules (B.built room.old room.new) t p units.old units.new) }
{
    if kind.has_parts() && B::passes(room) {
        return B::pass_over::<R>(alloc, nodes, kind, units, room);
    }
    match kind {
        Kind::Number(number) => {
            if let Some(integer) = R::try_ranged(&number.range, units) {
                let part = B::number(room, integer)?;
                return Some(part);
            }
            build_ranged::<R, B>(alloc, &number.range, units, room)
        }
        Kind::Truth => {
            if let Some(is_true) = try_truth::<R>(units) {
                let part = B::truth(room, is_true)?;
                return Some(part);
            }
            build_other::<R, B>(alloc, &AsnType::Bool, units, room)
        }
        Kind::Item(items) => {
            if let Some(position) = try_item::<R>(&items.of, units) {
                let part = B::item(room, position)?;
                return Some(part);
            }
            build_other::<R, B>(alloc, &items.of.ty, units, room)
        }
        Kind::Leaf(leaf) => build_leaf::<R, B>(alloc, leaf, units, room),
        Kind::Sequence(parts) => build_sequence::<R, B>(alloc, nodes, parts, units, room),
        Kind::List(list) => build_list::<R, B>(alloc, nodes, list, units, room),
        Kind::Choice(parts) => build_choice::<R, B>(alloc, nodes, parts, units, room),
    }
}
