//! What a constraint on a CHOICE asks of the value of an alternative.
ghost use Rattle.std.specs.Prelude.{◌≡◌, true, IfSome, IsSome};
ghost use Rattle.asn_values.specs.Datum.{Datum, alternative};
ghost use Rattle.asn_constraints.specs.Constraints.{meets, meets_at};
ghost use Rattle.asn_constraints.specs.View.{constraint_of, alternatives_seen};
ghost use Rattle.asn_constrained.specs.Along.{MeetsDue, IsChosen};

use asn_constraints::Constraint;

/// What is due of a CHOICE becomes what is due of the value of its alternative at this place. `None` where that may not
/// be chosen, or where the constraint can only be judged of the whole value.
#[inline(always)]
pub(crate) fn choose<'c>(due: &mut Option<&'c Constraint>, place: usize) -> Option<()>
    ensures { IsSome result → IsChosen due.old due.new place }
{
    let Some(constraint) = *due else {
        return Some(());
    };
    *due = asked_of_chosen(constraint, place)?;
    Some(())
}

/// What the constraint on a CHOICE asks of the value of the alternative at this place; `None` as of `choose`.
fn asked_of_chosen<'c>(constraint: &'c Constraint, place: usize) -> Option<Option<&'c Constraint>>
    ensures { IfSome result (λ due. (d : Datum) → MeetsDue due d
        → meets (constraint_of constraint.now) (alternative place d) ≡ true) }
{
    match constraint {
        Constraint::Alternatives(alternatives) => { asked_at(alternatives.as_slice(), place) }
        Constraint::Both(first, second) => {
            let of_first = asked_of_chosen(first, place)?;
            let of_second = asked_of_chosen(second, place)?;
            of_both(of_first, of_second)
        }
        Constraint::Free => Some(None),
        Constraint::Barred
        | Constraint::Either(..)
        | Constraint::Numbers(_)
        | Constraint::Items(_)
        | Constraint::Lengths(_)
        | Constraint::Characters(_)
        | Constraint::Trimmed(_)
        | Constraint::Time(_)
        | Constraint::Except(_)
        | Constraint::Components(_)
        | Constraint::Elements(_)
        | Constraint::SomePresent => None,
    }
}

/// What is asked of the value of the alternative at this place; `None` where there is no such.
#[inline(always)]
fn asked_at<'c>(alternatives: &'c [Constraint], place: usize) -> Option<Option<&'c Constraint>>
    ensures { IfSome result (λ due. (d : Datum) → MeetsDue due d
        → meets_at (alternatives_seen alternatives.now) place d ≡ true) }
{
    if place < alternatives.len() {
        let asked = due_of(&alternatives[place]);
        return Some(asked);
    }
    None
}

/// The constraint, if it asks anything.
#[inline(always)]
fn due_of<'c>(constraint: &'c Constraint) -> Option<&'c Constraint>
    ensures { (d : Datum) → MeetsDue result d → meets (constraint_of constraint.now) d ≡ true }
{
    match constraint {
        Constraint::Free => None,
        asked => Some(asked),
    }
}

/// The one of two constraints on a value that there is, `None` where there are both.
#[inline(always)]
fn of_both<'c>(
    first: Option<&'c Constraint>,
    second: Option<&'c Constraint>,
) -> Option<Option<&'c Constraint>>
    ensures of_first { IfSome result (λ due. (d : Datum) → MeetsDue due d → MeetsDue first.entry d) }
    ensures of_second { IfSome result (λ due. (d : Datum) → MeetsDue due d → MeetsDue second.entry d) }
{
    match (first, second) {
        (None, _) => Some(second),
        (Some(_), None) => Some(first),
        (Some(_), Some(_)) => None,
    }
}
