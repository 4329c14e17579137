//! Judges a constraint along the walk of a plan, and builds nothing of the value.
ghost use Rattle.std.specs.Prelude.{◌≡◌, ◌≤◌, true, length, IsSome};
ghost use Rattle.asn_values.specs.Datum.{Datum};
ghost use Rattle.asn_values.specs.View.{shape_of, datum_of};
ghost use Rattle.asn_rules.specs.Answer.{max_octets};
ghost use Rattle.asn_constraints.specs.Constraints.{meets};
ghost use Rattle.asn_constraints.specs.View.{constraint_of};
ghost use Rattle.asn_constrained.specs.Along.{MeetsDue, AreListed, AreRowed, IsChosen};
ghost use Rattle.asn_constrained.specs.Under.{IsEncodingUnder};

use crate::along::choices::choose;
use crate::along::elements::Elements;
use crate::along::entries::Entries;
use crate::along::leaves::{item_met, met, number_met, string_met, truth_met};
use asn_bits::BitCursor;
use asn_constraints::Constraint;
use asn_plan::{Build, FixedString, Kind, Node, Nothing, PlanLeaves, PlanRules, Planned, build_at};
use asn_values::Value;
use std::alloc::Global;

/// Judges what is due of each part, and builds nothing. It gives up where a constraint is broken, or can only be
/// judged of a whole value.
pub struct Along<'c> {
    pub due: Option<&'c Constraint>,
}

impl<'c> Build for Along<'c> {
    type Room = Option<&'c Constraint>;

    type Part = ();

    type Entries = Entries<'c>;

    type Elements = Elements<'c>;

    type Chosen = ();

    ghost built = { λ s r p d. MeetsDue s d };

    ghost listed = { AreListed };

    ghost rowed = { AreRowed };

    ghost opened = { λ s r c place. IsChosen s r place };

    #[inline(always)]
    fn number(room: &mut Option<&'c Constraint>, integer: i128) -> Option<()> {
        let Some(constraint) = *room else {
            return Some(());
        };
        number_met(constraint, integer)
    }

    #[inline(always)]
    fn truth(room: &mut Option<&'c Constraint>, is_true: bool) -> Option<()> {
        let Some(constraint) = *room else {
            return Some(());
        };
        truth_met(constraint, is_true)
    }

    #[inline(always)]
    fn item(room: &mut Option<&'c Constraint>, position: u32) -> Option<()> {
        let Some(constraint) = *room else {
            return Some(());
        };
        item_met(constraint, position)
    }

    #[inline(always)]
    fn takes_strings() -> bool {
        true
    }

    #[inline(always)]
    fn is_light() -> bool {
        true
    }

    #[inline(always)]
    fn string(room: &mut Option<&'c Constraint>, fixed: &FixedString, number: u64) -> Option<()> {
        let Some(constraint) = *room else {
            return Some(());
        };
        string_met(constraint, fixed, number)
    }

    #[inline(always)]
    fn takes_counts(room: &Option<&'c Constraint>) -> bool {
        room.is_none()
    }

    #[inline(always)]
    fn counted(room: &mut Option<&'c Constraint>, _entries: u32) -> Option<()> {
        if room.is_some() {
            return None;
        }
        Some(())
    }

    #[inline(always)]
    fn value(room: &mut Option<&'c Constraint>, value: Value) -> Option<()> {
        let Some(constraint) = *room else {
            return Some(());
        };
        met(constraint, &value)
    }

    #[inline(always)]
    fn kept(room: &mut Option<&'c Constraint>, value: &Value) -> Option<()> {
        let Some(constraint) = *room else {
            return Some(());
        };
        met(constraint, value)
    }

    #[inline(always)]
    fn passes(room: &Option<&'c Constraint>) -> bool {
        room.is_none()
    }

    #[inline(always)]
    fn pass_over<R: PlanLeaves>(
        alloc: Global,
        nodes: &[Node],
        kind: &Kind,
        units: &mut BitCursor<'_>,
        room: &Option<&'c Constraint>,
    ) -> Option<()> {
        if room.is_some() {
            return None;
        }
        build_at::<R, Nothing>(alloc, nodes, kind, units, &mut ())?;
        Some(())
    }

    #[inline(always)]
    fn entries(
        _alloc: Global,
        room: &mut Option<&'c Constraint>,
        _count: usize,
    ) -> Option<Entries<'c>> {
        Entries::begin(room)
    }

    #[inline(always)]
    fn absent(room: &mut Option<&'c Constraint>, entries: &mut Entries<'c>) -> Option<()> {
        entries.pass_absent(room)
    }

    #[inline(always)]
    fn present(
        room: &mut Option<&'c Constraint>,
        entries: &mut Entries<'c>,
        _part: (),
    ) -> Option<()> {
        entries.pass_present(room)
    }

    #[inline(always)]
    fn sequence(_room: &mut Option<&'c Constraint>, entries: Entries<'c>) -> Option<()> {
        entries.end()
    }

    #[inline(always)]
    fn elements(_alloc: Global, room: &mut Option<&'c Constraint>) -> Option<Elements<'c>> {
        Elements::begin(room)
    }

    #[inline(always)]
    fn element(room: &mut Option<&'c Constraint>, row: &mut Elements<'c>, _part: ()) -> Option<()> {
        row.pass(room)
    }

    #[inline(always)]
    fn list(room: &mut Option<&'c Constraint>, row: Elements<'c>) -> Option<()> {
        row.end(room)
    }

    #[inline(always)]
    fn choosing(room: &mut Option<&'c Constraint>, place: usize) -> Option<()> {
        choose(room, place)
    }

    #[inline(always)]
    fn choice(
        _alloc: Global,
        _room: &mut Option<&'c Constraint>,
        _chosen: (),
        _place: usize,
        _part: (),
    ) -> Option<()> {
        Some(())
    }
}

/// Whether the octets are the complete encoding by the rules R of a value of the type that meets the constraint. No
/// value is built. Where it is false, nothing is claimed: the constraint may be one that only a whole value shows.
pub(crate) fn check_along<'c, R: PlanRules>(
    alloc: Global,
    planned: &Planned,
    constraint: &'c Constraint,
    octets: &[u8],
) -> bool
    ensures within { result ≡ true → length octets.now ≤ max_octets }
    ensures encoding { result ≡ true → (d : Datum)
        × IsEncodingUnder R.ruling (shape_of planned.now) (constraint_of constraint.now) d octets.now }
{
    let mut due = Some(constraint);
    match planned.build::<R, Along<'c>>(alloc, octets, &mut due) {
        Some(()) => true,
        None => false,
    }
}
