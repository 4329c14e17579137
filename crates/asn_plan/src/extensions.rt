//! The walk of a plan in the extension additions of a SEQUENCE.
ghost use Rattle.std.specs.Prelude.{◌≡◌, ◌≤◌, ◌++◌, IsSome, List, Option, length};
ghost use Rattle.asn_values.specs.Datum.{Datum};
ghost use Rattle.asn_values.specs.Parts.{AreOfProfile};
ghost use Rattle.asn_values.specs.Shape.{Fields, demands};
ghost use Rattle.asn_bits.specs.Numbers.{bits};
ghost use Rattle.asn_walk.specs.Coding.{OpenListed, AdditionsOf};
ghost use Rattle.asn_plan.specs.declared.plan.Kind.TheVariants as kind;
ghost use Rattle.asn_plan.specs.declared.plan.Presence.TheVariants as presence;
ghost use Rattle.asn_plan.specs.Plans.{ArePlans, BuildsMore, BuildsAddition, absents};

use crate::build::Build;
use crate::open::build_open;
use crate::plan::Node;
use crate::rules::PlanLeaves;
use asn_bits::BitCursor;
use asn_walk::PresenceBits;
use std::alloc::Global;

/// Adds the entries of extension additions, of which one at least is present, with whose presence bitmap the units
/// begin, and which are taken.
#[inline(always)]
#[cycle(walk)]
pub(crate) fn build_additions<R: PlanLeaves, B: Build>(
    alloc: Global,
    nodes: &[Node],
    parts: &[Node],
    entries: &mut B::Entries,
    units: &mut BitCursor<'_>,
    room: &mut B::Room,
) -> Option<()>
    requires at_unit { R.rules.at_unit units.old }
    ensures at_unit { IsSome result → R.rules.at_unit units.new }
    ensures some { IsSome result → (s : B.Room) → (fs : Fields) → AreOfProfile fs → ArePlans nodes.now parts.now fs
        → BuildsMore R.rules (B.listed s room.old entries.old) (B.listed s room.new entries.new)
        (AdditionsOf R.rules fs) (R.rules.to_units units.old) (R.rules.to_units units.new) }
{
    if parts.is_empty() || parts.len() > 64 {
        return None;
    }
    let count = parts.len() as u32;
    let Ok(bitmap) = R::read_addition_bitmap(count, units) else {
        return None;
    };
    let presence = PresenceBits {
        bitmap,
        left: count,
    };
    build_open_fields::<R, B>(alloc, nodes, parts, presence, entries, units, room)
}

/// Adds the entries of extension additions that the presence bits tell, in whose open type fields the units begin, and
/// which are taken.
#[inline(always)]
#[cycle(walk)]
fn build_open_fields<R: PlanLeaves, B: Build>(
    alloc: Global,
    nodes: &[Node],
    parts: &[Node],
    presence: PresenceBits,
    entries: &mut B::Entries,
    units: &mut BitCursor<'_>,
    room: &mut B::Room,
) -> Option<()>
    requires at_unit { R.rules.at_unit units.old }
    requires few { presence.left ≤ 64 }
    ensures at_unit { IsSome result → R.rules.at_unit units.new }
    ensures some { IsSome result → (s : B.Room) → (fs : Fields) → AreOfProfile fs → ArePlans nodes.now parts.now fs
        → presence.left ≡ length (demands fs)
        → BuildsMore R.rules (B.listed s room.old entries.old) (B.listed s room.new entries.new)
        (OpenListed R.rules fs (bits presence.left presence.bitmap))
        (R.rules.to_units units.old) (R.rules.to_units units.new) }
{
    let mut presence = presence;
    for part in parts {
        build_addition::<R, B>(alloc, nodes, part, &mut presence, entries, units, room)?;
    }
    Some(())
}

/// Adds the entry of an extension addition, whose open type field is taken where its presence bit tells that it is
/// there.
#[inline(always)]
#[cycle(walk)]
fn build_addition<R: PlanLeaves, B: Build>(
    alloc: Global,
    nodes: &[Node],
    part: &Node,
    presence: &mut PresenceBits,
    entries: &mut B::Entries,
    units: &mut BitCursor<'_>,
    room: &mut B::Room,
) -> Option<()>
    requires at_unit { R.rules.at_unit units.old }
    requires few { presence.old.left ≤ 64 }
    ensures at_unit { IsSome result → R.rules.at_unit units.new }
    ensures bitmap { IsSome result → presence.new.bitmap ≡ presence.old.bitmap }
    ensures some { IsSome result → (s : B.Room) → BuildsAddition R.rules
        (B.listed s room.old entries.old) (B.listed s room.new entries.new)
        nodes.now part.now presence.old.bitmap presence.old.left presence.new.left
        (R.rules.to_units units.old) (R.rules.to_units units.new) }
{
    if presence.left == 0 {
        return None;
    }
    if !presence.next() {
        return B::absent(room, entries);
    }
    let value = build_open::<R, B>(alloc, nodes, &part.kind, units, room)?;
    B::present(room, entries, value)
}

/// Adds the entry of an absent component for each of these.
#[inline(always)]
pub(crate) fn add_absents<B: Build>(
    parts: &[Node],
    entries: &mut B::Entries,
    room: &mut B::Room,
) -> Option<()>
    ensures { IsSome result → (s : B.Room) (es : List (Option Datum)) → B.listed s room.old entries.old es
        → B.listed s room.new entries.new (es ++ absents (length parts.now)) }
{
    for _ in parts {
        B::absent(room, entries)?;
    }
    Some(())
}
