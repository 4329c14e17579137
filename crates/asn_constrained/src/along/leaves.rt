//! Judges values without parts, which are not built.
ghost use Rattle.std.specs.Prelude.{◌≡◌, true, IsSome};
ghost use Rattle.asn_values.specs.Datum.{Datum, truth, number, item};
ghost use Rattle.asn_values.specs.View.{datum_of};
ghost use Rattle.asn_plan.specs.FixedStrings.{IsStringOf};
ghost use Rattle.asn_constraints.specs.Constraints.{meets};
ghost use Rattle.asn_constraints.specs.View.{constraint_of};

use asn_constraints::{Constraint, is_among, is_length, is_one_of, judge};
use asn_plan::FixedString;
use asn_values::Value;

/// Judges an INTEGER; `None` where it breaks the constraint.
#[inline(never)]
pub(crate) fn number_met(constraint: &Constraint, integer: i128) -> Option<()>
    ensures { IsSome result → meets (constraint_of constraint.now) (number integer) ≡ true }
{
    match constraint {
        Constraint::Numbers(intervals) => some_if(is_among(intervals, integer)),
        other => met(other, &Value::Int(integer)),
    }
}

/// Judges a BOOLEAN; `None` where it breaks the constraint.
#[inline(never)]
pub(crate) fn truth_met(constraint: &Constraint, is_true: bool) -> Option<()>
    ensures { IsSome result → meets (constraint_of constraint.now) (truth is_true) ≡ true }
{
    met(constraint, &Value::Bool(is_true))
}

/// Judges an ENUMERATED, whose item is at this position; `None` where it breaks the constraint.
#[inline(never)]
pub(crate) fn item_met(constraint: &Constraint, position: u32) -> Option<()>
    ensures { IsSome result → meets (constraint_of constraint.now) (item position) ≡ true }
{
    match constraint {
        Constraint::Items(positions) => some_if(is_one_of(positions, position)),
        other => met(other, &Value::Enum(position)),
    }
}

/// Judges the string of one length whose bits are those of the number. `None` where it breaks the constraint, or where
/// only the string shows whether it does.
#[inline(never)]
pub(crate) fn string_met(constraint: &Constraint, fixed: &FixedString, number: u64) -> Option<()>
    ensures { IsSome result → (d : Datum) → IsStringOf fixed.now number d
        → meets (constraint_of constraint.now) d ≡ true }
{
    match constraint {
        Constraint::Except(default) => some_if(!fixed.may_be(number, default)),
        Constraint::Lengths(lengths) => some_if(is_length(lengths, fixed.length as usize)),
        Constraint::Both(first, second) => {
            string_met(first, fixed, number)?;
            string_met(second, fixed, number)
        }
        Constraint::Free => Some(()),
        Constraint::Barred
        | Constraint::Either(..)
        | Constraint::Numbers(_)
        | Constraint::Items(_)
        | Constraint::Characters(_)
        | Constraint::Trimmed(_)
        | Constraint::Time(_)
        | Constraint::Components(_)
        | Constraint::Elements(_)
        | Constraint::Alternatives(_)
        | Constraint::SomePresent => None,
    }
}

/// Judges the value; `None` where it breaks the constraint.
#[inline(never)]
pub(crate) fn met(constraint: &Constraint, value: &Value) -> Option<()>
    ensures { IsSome result → meets (constraint_of constraint.now) (datum_of value.now) ≡ true }
{
    some_if(judge(constraint, value))
}

/// Something exactly where it is so.
#[inline(always)]
fn some_if(holds: bool) -> Option<()>
    ensures { IsSome result → holds ≡ true }
{
    if holds {
        return Some(());
    }
    None
}
