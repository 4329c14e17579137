//! The walk of a plan in a word, which holds the bits of several values.
ghost use Rattle.std.specs.Prelude.{◌≡◌, ◌≤◌, ◌<◌, ℕ, List, IfSome, IsSome, length};
ghost use Rattle.asn_values.specs.Profile.{InProfile};
ghost use Rattle.asn_values.specs.Parts.{AreOfProfile};
ghost use Rattle.asn_values.specs.Shape.{Shape, Fields};
ghost use Rattle.asn_values.specs.View.{shape_of};
ghost use Rattle.asn_rules.specs.Listed.{bitmap_length};
ghost use Rattle.asn_plan.specs.declared.plan.Kind.TheVariants as kind;
ghost use Rattle.asn_plan.specs.Plans.{IsPlan, ArePlans, BuildsNext, BuildsNumbers, BuildsOther};
ghost use Rattle.asn_plan.specs.Words.{before};

use crate::build::Build;
use crate::plan::{ComponentRows, Kind, Node, Presence, WithDefault};
use crate::rules::PlanLeaves;
use crate::word::{Run, Word};
use asn_bits::BitCursor;
use asn_values::Value;
use std::alloc::Global;

/// What is built of the value of a component, which is taken from a word. `None` where none stands in it.
#[inline(always)]
pub(crate) fn build_next<R: PlanLeaves, B: Build>(
    alloc: Global,
    nodes: &[Node],
    kind: &Kind,
    word: &mut Word,
    units: &mut BitCursor<'_>,
    room: &mut B::Room,
) -> Option<B::Part>
    requires at_unit { R.rules.at_unit units.old }
    ensures at_unit { IsSome result → R.rules.at_unit units.new }
    ensures some { IfSome result (λ p. (t : Shape) → InProfile t → IsPlan nodes.now t kind.now
        → BuildsNext R.rules (B.built room.old room.new) t p
        (before R.rules word.old (R.rules.to_units units.old)) (before R.rules word.new (R.rules.to_units units.new))) }
{
    if let Kind::Sequence(parts) = kind {
        return build_row::<R, B>(alloc, nodes, parts, word, units, room);
    }
    build_number::<R, B>(nodes, kind, word, room)
}

/// What is built of a SEQUENCE of numbers, each of which has to be there, which is taken from a word. `None` where none
/// stands in it.
#[inline(always)]
fn build_row<R: PlanLeaves, B: Build>(
    alloc: Global,
    nodes: &[Node],
    rows: &ComponentRows,
    word: &mut Word,
    units: &mut BitCursor<'_>,
    room: &mut B::Room,
) -> Option<B::Part>
    requires at_unit { R.rules.at_unit units.old }
    ensures at_unit { IsSome result → R.rules.at_unit units.new }
    ensures some { IfSome result (λ p. (t : Shape) → InProfile t → IsPlan nodes.now t (kind.Sequence rows.now)
        → BuildsNext R.rules (B.built room.old room.new) t p
        (before R.rules word.old (R.rules.to_units units.old)) (before R.rules word.new (R.rules.to_units units.new))) }
{
    R::keep_laws();
    if rows.begin >= rows.middle || rows.middle < rows.end || rows.middle > nodes.len() {
        return None;
    }
    if rows.width > 0 || rows.additions.is_some() {
        return None;
    }
    let preamble = R::next_preamble(0, 0, None, word)?;
    if preamble.extended {
        return None;
    }
    let before = &nodes[..rows.begin];
    let root = &nodes[rows.begin..rows.middle];
    let entries = build_numbers::<R, B>(alloc, before, root, word, units, room)?;
    let part = B::sequence(room, entries)?;
    Some(part)
}

/// What is built of the numbers of components, each of which has to be there, which are taken from a word, and from the
/// next ones. `None` where these do not stand in them.
#[inline(always)]
fn build_numbers<R: PlanLeaves, B: Build>(
    alloc: Global,
    nodes: &[Node],
    parts: &[Node],
    word: &mut Word,
    units: &mut BitCursor<'_>,
    room: &mut B::Room,
) -> Option<B::Entries>
    requires at_unit { R.rules.at_unit units.old }
    ensures at_unit { IsSome result → R.rules.at_unit units.new }
    ensures some { IfSome result (λ p. (root : Fields) → AreOfProfile root → ArePlans nodes.now parts.now root
        → 0 ≡ bitmap_length root → BuildsNumbers R.rules (B.listed room.old room.new) root p
        (before R.rules word.old (R.rules.to_units units.old)) (before R.rules word.new (R.rules.to_units units.new))) }
{
    let mut entries = B::entries(alloc, room, parts.len())?;
    let mut rest = parts;
    while let Some((part, others)) = rest.split_first() {
        rest = others;
        let Presence::Must = &part.presence else {
            return None;
        };
        fill::<R>(part.run.of::<B>(), word, units);
        let value = build_number::<R, B>(nodes, &part.kind, word, room)?;
        B::present(room, &mut entries, value)?;
    }
    Some(entries)
}

/// Takes this many units into the word, if it is empty and they have all come.
#[inline(always)]
pub(crate) fn fill<R: PlanLeaves>(run: Run, word: &mut Word, units: &mut BitCursor<'_>)
    requires at_unit { R.rules.at_unit units.old }
    ensures at_unit { R.rules.at_unit units.new }
    ensures same { before R.rules word.old (R.rules.to_units units.old)
        ≡ before R.rules word.new (R.rules.to_units units.new) }
{
    if !word.is_empty() {
        return;
    }
    *word = R::take_word(run, units);
}

/// What is built of a number or of a string of one length, which is taken from a word. `None` where none stands in it.
#[inline(always)]
fn build_number<R: PlanLeaves, B: Build>(
    nodes: &[Node],
    kind: &Kind,
    word: &mut Word,
    room: &mut B::Room,
) -> Option<B::Part>
    ensures { IfSome result (λ p. (t : Shape) (us : List ℕ) → InProfile t → IsPlan nodes.now t kind.now
        → BuildsNext R.rules (B.built room.old room.new) t p
        (before R.rules word.old us) (before R.rules word.new us)) }
{
    if let Kind::Number(number) = kind {
        let integer = R::next_ranged(&number.range, word)?;
        let part = B::number(room, integer)?;
        return Some(part);
    }
    match kind {
        Kind::Truth => {
            let is_true = R::next_truth(word)?;
            let part = B::truth(room, is_true)?;
            Some(part)
        }
        Kind::Item(items) => {
            let position = R::next_item(&items.of, word)?;
            let part = B::item(room, position)?;
            Some(part)
        }
        Kind::Leaf(leaf) => {
            let Some(fixed) = &leaf.fixed else {
                return None;
            };
            let number = R::next_string(fixed, word)?;
            let part = B::string(room, fixed, number)?;
            Some(part)
        }
        Kind::Number(_) | Kind::Sequence(_) | Kind::List(_) | Kind::Choice(_) => None,
    }
}

/// The same of a component that is present though it has this DEFAULT, which is then another value.
#[inline(always)]
pub(crate) fn build_other_number<R: PlanLeaves, B: Build>(
    nodes: &[Node],
    kind: &Kind,
    with_default: &WithDefault,
    word: &mut Word,
    room: &mut B::Room,
) -> Option<B::Part>
    ensures { IfSome result (λ p. (us : List ℕ) → IsPlan nodes.now (shape_of with_default.now.ty) kind.now
        → BuildsOther R.rules (B.built room.old room.new) with_default.now p
        (before R.rules word.old us) (before R.rules word.new us)) }
{
    match (kind, &with_default.default) {
        (Kind::Number(number), Value::Int(default)) => {
            let integer = R::next_ranged(&number.range, word)?;
            if integer == *default {
                return None;
            }
            let part = B::number(room, integer)?;
            Some(part)
        }
        (Kind::Truth, Value::Bool(default)) => {
            let is_true = R::next_truth(word)?;
            if is_true == *default {
                return None;
            }
            let part = B::truth(room, is_true)?;
            Some(part)
        }
        (Kind::Item(items), Value::Enum(default)) => {
            let position = R::next_item(&items.of, word)?;
            if position == *default {
                return None;
            }
            let part = B::item(room, position)?;
            Some(part)
        }
        _ => None,
    }
}
