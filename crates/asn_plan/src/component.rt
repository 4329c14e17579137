//! The walk of a plan in one component of a SEQUENCE.
ghost use Rattle.std.specs.Prelude.{◌≡◌, ◌≤◌, IfSome, IsSome, Option};
ghost use Rattle.asn_values.specs.Profile.{InProfile};
ghost use Rattle.asn_values.specs.View.{shape_of};
ghost use Rattle.asn_values.specs.Shape.{Shape};
ghost use Rattle.asn_bits.specs.Numbers.{bits};
ghost use Rattle.asn_plan.specs.declared.plan.Kind.TheVariants as kind;
ghost use Rattle.asn_plan.specs.declared.plan.Presence.TheVariants as presences;
ghost use Rattle.asn_plan.specs.Plans.{IsPlan, BuildsNext, BuildsOther, BuildsEntry};
ghost use Rattle.asn_plan.specs.Words.{before};

use crate::build::Build;
use crate::leaves::read_other;
use crate::packed::{build_next, build_other_number, fill};
use crate::plan::{Node, Presence, WithDefault};
use crate::rules::PlanLeaves;
use crate::walk::build_at;
use crate::word::Word;
use asn_bits::BitCursor;
use asn_walk::PresenceBits;
use std::alloc::Global;

/// Adds the entry of a component, which is taken where the presence bits tell that it is there.
#[inline(always)]
#[cycle(walk)]
pub(crate) fn build_component<R: PlanLeaves, B: Build>(
    alloc: Global,
    nodes: &[Node],
    part: &Node,
    presence: &mut PresenceBits,
    word: &mut Word,
    entries: &mut B::Entries,
    units: &mut BitCursor<'_>,
    room: &mut B::Room,
) -> Option<()>
    requires at_unit { R.rules.at_unit units.old }
    requires few { presence.old.left ≤ 64 }
    ensures at_unit { IsSome result → R.rules.at_unit units.new }
    ensures bitmap { IsSome result → presence.new.bitmap ≡ presence.old.bitmap }
    ensures some { IsSome result → (s : B.Room)
        → BuildsEntry R.rules (B.listed s room.old entries.old) (B.listed s room.new entries.new)
        nodes.now part.now presence.old.bitmap presence.old.left presence.new.left
        (before R.rules word.old (R.rules.to_units units.old)) (before R.rules word.new (R.rules.to_units units.new)) }
{
    match &part.presence {
        Presence::Must => {}
        Presence::Optional => {
            if presence.left == 0 {
                return None;
            }
            if !presence.next() {
                return B::absent(room, entries);
            }
        }
        Presence::Default(with_default) => {
            return build_with_default::<R, B>(
                nodes,
                part,
                with_default,
                presence,
                word,
                entries,
                units,
                room,
            );
        }
    }
    let value = build_value::<R, B>(alloc, nodes, part, word, units, room)?;
    B::present(room, entries, value)
}

/// Adds the entry of a component with this DEFAULT: in a function of its own, where the builder leaves no registers.
#[inline(always)]
fn build_with_default<R: PlanLeaves, B: Build>(
    nodes: &[Node],
    part: &Node,
    with_default: &WithDefault,
    presence: &mut PresenceBits,
    word: &mut Word,
    entries: &mut B::Entries,
    units: &mut BitCursor<'_>,
    room: &mut B::Room,
) -> Option<()>
    requires at_unit { R.rules.at_unit units.old }
    requires few { presence.old.left ≤ 64 }
    requires is { part.now.presence ≡ presences.Default with_default.now }
    ensures at_unit { IsSome result → R.rules.at_unit units.new }
    ensures bitmap { IsSome result → presence.new.bitmap ≡ presence.old.bitmap }
    ensures some { IsSome result → (s : B.Room)
        → BuildsEntry R.rules (B.listed s room.old entries.old) (B.listed s room.new entries.new)
        nodes.now part.now presence.old.bitmap presence.old.left presence.new.left
        (before R.rules word.old (R.rules.to_units units.old)) (before R.rules word.new (R.rules.to_units units.new)) }
{
    if B::is_light() {
        return build_default::<R, B>(
            nodes,
            part,
            with_default,
            presence,
            word,
            entries,
            units,
            room,
        );
    }
    build_default_apart::<R, B>(
        nodes,
        part,
        with_default,
        presence,
        word,
        entries,
        units,
        room,
    )
}

/// The same, where the builder leaves no registers for it.
#[inline(never)]
fn build_default_apart<R: PlanLeaves, B: Build>(
    nodes: &[Node],
    part: &Node,
    with_default: &WithDefault,
    presence: &mut PresenceBits,
    word: &mut Word,
    entries: &mut B::Entries,
    units: &mut BitCursor<'_>,
    room: &mut B::Room,
) -> Option<()>
    requires at_unit { R.rules.at_unit units.old }
    requires few { presence.old.left ≤ 64 }
    requires is { part.now.presence ≡ presences.Default with_default.now }
    ensures at_unit { IsSome result → R.rules.at_unit units.new }
    ensures bitmap { IsSome result → presence.new.bitmap ≡ presence.old.bitmap }
    ensures some { IsSome result → (s : B.Room)
        → BuildsEntry R.rules (B.listed s room.old entries.old) (B.listed s room.new entries.new)
        nodes.now part.now presence.old.bitmap presence.old.left presence.new.left
        (before R.rules word.old (R.rules.to_units units.old)) (before R.rules word.new (R.rules.to_units units.new)) }
{
    build_default::<R, B>(
        nodes,
        part,
        with_default,
        presence,
        word,
        entries,
        units,
        room,
    )
}

/// Adds the entry of a component with this DEFAULT: where its presence bit is 1, its value, which
/// is another, is taken from the units.
#[inline(always)]
fn build_default<R: PlanLeaves, B: Build>(
    nodes: &[Node],
    part: &Node,
    with_default: &WithDefault,
    presence: &mut PresenceBits,
    word: &mut Word,
    entries: &mut B::Entries,
    units: &mut BitCursor<'_>,
    room: &mut B::Room,
) -> Option<()>
    requires at_unit { R.rules.at_unit units.old }
    requires few { presence.old.left ≤ 64 }
    requires is { part.now.presence ≡ presences.Default with_default.now }
    ensures at_unit { IsSome result → R.rules.at_unit units.new }
    ensures bitmap { IsSome result → presence.new.bitmap ≡ presence.old.bitmap }
    ensures some { IsSome result → (s : B.Room)
        → BuildsEntry R.rules (B.listed s room.old entries.old) (B.listed s room.new entries.new)
        nodes.now part.now presence.old.bitmap presence.old.left presence.new.left
        (before R.rules word.old (R.rules.to_units units.old)) (before R.rules word.new (R.rules.to_units units.new)) }
{
    if presence.left == 0 {
        return None;
    }
    if !presence.next() {
        let absent = B::kept(room, &with_default.default)?;
        return B::present(room, entries, absent);
    }
    let other = build_other::<R, B>(nodes, part, with_default, word, units, room)?;
    B::present(room, entries, other)
}

/// What is built of the value of a component that is there, which is taken from the word, or where it does not stand in
/// one from the units.
#[inline(always)]
#[cycle(walk)]
fn build_value<R: PlanLeaves, B: Build>(
    alloc: Global,
    nodes: &[Node],
    part: &Node,
    word: &mut Word,
    units: &mut BitCursor<'_>,
    room: &mut B::Room,
) -> Option<B::Part>
    requires at_unit { R.rules.at_unit units.old }
    ensures at_unit { IsSome result → R.rules.at_unit units.new }
    ensures some { IfSome result (λ p. (t : Shape) → InProfile t → IsPlan nodes.now t part.now.kind
        → BuildsNext R.rules (B.built room.old room.new) t p
        (before R.rules word.old (R.rules.to_units units.old)) (before R.rules word.new (R.rules.to_units units.new))) }
{
    fill::<R>(part.run.of::<B>(), word, units);
    if word.is_empty() {
        return build_at::<R, B>(alloc, nodes, &part.kind, units, room);
    }
    build_next::<R, B>(alloc, nodes, &part.kind, word, units, room)
}

/// What is built of the value of a component that is there though it has this DEFAULT, and is then another one.
#[inline(always)]
fn build_other<R: PlanLeaves, B: Build>(
    nodes: &[Node],
    part: &Node,
    with_default: &WithDefault,
    word: &mut Word,
    units: &mut BitCursor<'_>,
    room: &mut B::Room,
) -> Option<B::Part>
    requires at_unit { R.rules.at_unit units.old }
    ensures at_unit { IsSome result → R.rules.at_unit units.new }
    ensures some { IfSome result (λ p. IsPlan nodes.now (shape_of with_default.now.ty) part.now.kind
        → BuildsOther R.rules (B.built room.old room.new) with_default.now p
        (before R.rules word.old (R.rules.to_units units.old)) (before R.rules word.new (R.rules.to_units units.new))) }
{
    fill::<R>(part.run.of::<B>(), word, units);
    if !word.is_empty() {
        return build_other_number::<R, B>(nodes, &part.kind, with_default, word, room);
    }
    let value = read_other::<R>(with_default, units)?;
    let other = B::value(room, value)?;
    Some(other)
}
