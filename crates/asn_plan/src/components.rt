//! The walk of a plan in the components of a SEQUENCE.
ghost use Rattle.std.specs.Prelude.{◌≡◌, ◌≤◌, IfSome, IsSome, Option};
ghost use Rattle.asn_values.specs.Parts.{AreOfProfile};
ghost use Rattle.asn_values.specs.Profile.{InProfile};
ghost use Rattle.asn_values.specs.Shape.{Shape, Fields, MoreFields, sequence, no_fields, more_fields};
ghost use Rattle.asn_bits.specs.Numbers.{bits};
ghost use Rattle.asn_rules.specs.Languages.{Row, Spells};
ghost use Rattle.asn_rules.specs.Listed.{bitmap_length};
ghost use Rattle.asn_walk.specs.Coding.{PreambleOf, added as added_to};
ghost use Rattle.asn_walk.specs.Reading.{ValuesOf};
ghost use Rattle.asn_walk.specs.Views.{preamble_seen};
ghost use Rattle.asn_plan.specs.declared.plan.Kind.TheVariants as kind;
ghost use Rattle.asn_plan.specs.declared.plan.Presence.TheVariants as presence;
ghost use Rattle.asn_plan.specs.Plans.{IsPlan, ArePlans, ArePlansOfMore, Builds, BuildsComponents, BuildsRow};
ghost use Rattle.asn_plan.specs.Words.{before};

use crate::build::Build;
use crate::component::build_component;
use crate::extensions::{add_absents, build_additions};
use crate::plan::{ComponentRows, Node};
use crate::rules::PlanLeaves;
use crate::word::Word;
use asn_bits::BitCursor;
use asn_walk::{Preamble, PresenceBits};
use std::alloc::Global;

/// What is built of the SEQUENCE with which the units begin, and which is taken.
#[inline(never)]
#[cycle(walk)]
pub(crate) fn build_sequence<R: PlanLeaves, B: Build>(
    alloc: Global,
    nodes: &[Node],
    parts: &ComponentRows,
    units: &mut BitCursor<'_>,
    room: &mut B::Room,
) -> Option<B::Part>
    requires at_unit { R.rules.at_unit units.old }
    ensures at_unit { IsSome result → R.rules.at_unit units.new }
    ensures some { IfSome result (λ p. (t : Shape) → InProfile t → IsPlan nodes.now t (kind.Sequence parts.now)
        → Builds R.rules (B.built room.old room.new) t p units.old units.new) }
{
    R::keep_laws();
    R::keep_nothing();
    if B::takes_counts(room) && parts.entries > 0 {
        let part = B::counted(room, parts.entries)?;
        return Some(part);
    }
    if B::takes_counts(room) && parts.single_entries > 0 && R::single_is_empty() {
        let part = B::counted(room, parts.single_entries)?;
        return Some(part);
    }
    if parts.begin > parts.middle || parts.middle > parts.end || parts.end > nodes.len() {
        return None;
    }
    if parts.begin >= parts.end {
        let empty = build_empty::<R, B>(alloc, parts.additions, units, room)?;
        return Some(empty);
    }
    let before = &nodes[..parts.begin];
    let root = &nodes[parts.begin..parts.middle];
    let added = &nodes[parts.middle..parts.end];
    build_parts::<R, B>(alloc, before, root, added, parts, units, room)
}

/// What is built of the elements that are SEQUENCEs with these components, with which the units begin, and which are taken.
#[inline(always)]
#[cycle(walk)]
pub(crate) fn build_sequences<R: PlanLeaves, B: Build>(
    alloc: Global,
    nodes: &[Node],
    parts: &ComponentRows,
    count: usize,
    row: &mut B::Elements,
    units: &mut BitCursor<'_>,
    room: &mut B::Room,
) -> Option<()>
    requires at_unit { R.rules.at_unit units.old }
    ensures at_unit { IsSome result → R.rules.at_unit units.new }
    ensures some { IsSome result → (s : B.Room) → (t : Shape) → InProfile t
        → IsPlan nodes.now t (kind.Sequence parts.now)
        → BuildsRow R.rules (B.rowed s room.old row.old) (B.rowed s room.new row.new) (Row (ValuesOf R.rules t) count)
        (R.rules.to_units units.old) (R.rules.to_units units.new) }
{
    if parts.begin > parts.middle || parts.middle > parts.end || parts.end > nodes.len() {
        return None;
    }
    if parts.begin >= parts.end {
        return None;
    }
    let before = &nodes[..parts.begin];
    let root = &nodes[parts.begin..parts.middle];
    let added = &nodes[parts.middle..parts.end];
    for i in 0..count {
        let value = build_parts::<R, B>(alloc, before, root, added, parts, units, room)?;
        B::element(room, row, value)?;
    }
    Some(())
}

/// What is built of the SEQUENCE with these components and extension additions with which the units begin, and which is
/// taken.
#[inline(always)]
#[cycle(walk)]
fn build_parts<R: PlanLeaves, B: Build>(
    alloc: Global,
    nodes: &[Node],
    root: &[Node],
    added: &[Node],
    parts: &ComponentRows,
    units: &mut BitCursor<'_>,
    room: &mut B::Room,
) -> Option<B::Part>
    requires at_unit { R.rules.at_unit units.old }
    ensures at_unit { IsSome result → R.rules.at_unit units.new }
    ensures some { IfSome result (λ p. (fields : Fields) (more : MoreFields) → InProfile (sequence fields more)
        → ArePlans nodes.now root.now fields → ArePlansOfMore nodes.now added.now more
        → parts.now.width ≡ bitmap_length fields → parts.now.additions ≡ added_to more
        → Builds R.rules (B.built room.old room.new) (sequence fields more) p units.old units.new) }
{
    R::keep_laws();
    if parts.width > 64 {
        return None;
    }
    let mut word = R::take_word(parts.head.of::<B>(), units);
    let preamble = read_preamble::<R>(parts, &mut word, units)?;
    let presence = PresenceBits {
        bitmap: preamble.bitmap,
        left: parts.width,
    };
    let count = root.len() + added.len();
    let mut entries = build_components::<R, B>(
        alloc, nodes, root, presence, word, count, units, room,
    )?;
    if !preamble.extended {
        add_absents::<B>(added, &mut entries, room)?;
        let whole = B::sequence(room, entries)?;
        return Some(whole);
    }
    build_additions::<R, B>(alloc, nodes, added, &mut entries, units, room)?;
    let part = B::sequence(room, entries)?;
    Some(part)
}

/// Reads the extension bit, where there is an extension mark with this many additions, and a presence bitmap of `count`
/// bits, from the word, where one was taken.
#[inline(always)]
fn read_preamble<R: PlanLeaves>(
    parts: &ComponentRows,
    word: &mut Word,
    units: &mut BitCursor<'_>,
) -> Option<Preamble>
    requires at_unit { R.rules.at_unit units.old }
    requires few { parts.now.width ≤ 64 }
    ensures at_unit { IsSome result → R.rules.at_unit units.new }
    ensures some { IfSome result (λ p.
        Spells R.rules.ruling.fielding (PreambleOf R.rules parts.now.width parts.now.additions) (preamble_seen p)
        (before R.rules word.old (R.rules.to_units units.old)) (before R.rules word.new (R.rules.to_units units.new))) }
{
    if !word.is_empty() {
        return R::next_preamble(parts.width, parts.mask, parts.additions, word);
    }
    let Ok(preamble) = R::read_preamble(parts.width, parts.additions, units) else {
        return None;
    };
    Some(preamble)
}

/// What is built of the SEQUENCE with neither components nor extension additions with which the units begin, and which
/// is taken.
#[inline(never)]
fn build_empty<R: PlanLeaves, B: Build>(
    alloc: Global,
    additions: Option<usize>,
    units: &mut BitCursor<'_>,
    room: &mut B::Room,
) -> Option<B::Part>
    requires at_unit { R.rules.at_unit units.old }
    ensures at_unit { IsSome result → R.rules.at_unit units.new }
    ensures some { IfSome result (λ p. (more : MoreFields) → InProfile (sequence no_fields more)
        → more_fields more ≡ no_fields → additions ≡ added_to more
        → Builds R.rules (B.built room.old room.new) (sequence no_fields more) p units.old units.new) }
{
    R::keep_laws();
    let Ok(preamble) = R::read_preamble(0, additions, units) else {
        return None;
    };
    if preamble.extended {
        return None;
    }
    let entries = B::entries(alloc, room, 0)?;
    let part = B::sequence(room, entries)?;
    Some(part)
}

/// What is built of the components that the presence bits tell, with which the units begin, and which are taken, where
/// there are this many with the extension additions.
#[inline(always)]
#[cycle(walk)]
fn build_components<R: PlanLeaves, B: Build>(
    alloc: Global,
    nodes: &[Node],
    parts: &[Node],
    presence: PresenceBits,
    word: Word,
    count: usize,
    units: &mut BitCursor<'_>,
    room: &mut B::Room,
) -> Option<B::Entries>
    requires at_unit { R.rules.at_unit units.old }
    requires few { presence.left ≤ 64 }
    ensures at_unit { IsSome result → R.rules.at_unit units.new }
    ensures some { IfSome result (λ p. (root : Fields) → AreOfProfile root → ArePlans nodes.now parts.now root
        → presence.left ≡ bitmap_length root
        → BuildsComponents R.rules (B.listed room.old room.new) root presence.bitmap presence.left p
        (before R.rules word (R.rules.to_units units.old)) (R.rules.to_units units.new)) }
{
    let mut presence = presence;
    let mut word = word;
    let mut entries = B::entries(alloc, room, count)?;
    let mut rest = parts;
    while let Some((part, others)) = rest.split_first() {
        build_component::<R, B>(
            alloc,
            nodes,
            part,
            &mut presence,
            &mut word,
            &mut entries,
            units,
            room,
        )?;
        rest = others;
    }
    if !word.is_empty() {
        return None;
    }
    Some(entries)
}
