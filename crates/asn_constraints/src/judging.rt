//! Whether a value meets a constraint.
ghost use Rattle.std.specs.Prelude.{◌≡◌, map, option_map};
ghost use Rattle.std.specs.List.{list_all};
ghost use Rattle.asn_values.specs.View.{datum_of, entries_seen};
ghost use Rattle.asn_constraints.specs.Constraints.{meets, meet_each, meets_at, one_present};
ghost use Rattle.asn_constraints.specs.View.{constraint_of, on_one, components_seen, alternatives_seen, meets_one};

use crate::constraint::{Component, Constraint, Presence};
use crate::{strings, times};
use asn_values::{Value, same};

/// Whether the value meets the constraint. Allocates nothing; calls itself as deep as the constraint is.
#[cycle(judge)]
pub fn judge(constraint: &Constraint, value: &Value) -> bool
    ensures { result ≡ meets (constraint_of constraint.now) (datum_of value.now) }
{
    match constraint {
        Constraint::Free => true,
        Constraint::Barred => false,
        Constraint::Both(first, second) => judge(first, value) && judge(second, value),
        Constraint::Either(first, second) => judge(first, value) || judge(second, value),
        Constraint::Numbers(intervals) => {
            matches!(value, Value::Int(number) if strings::is_among(intervals, *number))
        }
        Constraint::Items(positions) => {
            matches!(value, Value::Enum(position) if strings::is_one_of(positions, *position))
        }
        Constraint::Lengths(lengths) => {
            strings::length_of(value).is_some_and(|length| strings::is_length(lengths, length))
        }
        Constraint::Characters(intervals) => {
            matches!(value, Value::Text(codes) if strings::are_among(intervals, codes))
        }
        Constraint::Trimmed(low) => {
            matches!(value, Value::Bits(bits) if strings::is_trimmed(*low, bits))
        }
        Constraint::Time(kind) => {
            matches!(value, Value::Text(codes) if times::is_time(*kind, codes))
        }
        Constraint::Except(default) => !same(default, value),
        Constraint::Components(components) => match value {
            Value::Seq(entries) => entries_meet(components, entries),
            _ => false,
        },
        Constraint::Elements(inner) => match value {
            Value::List(elements) => elements_meet(inner, elements),
            _ => false,
        },
        Constraint::Alternatives(alternatives) => match value {
            Value::Choice(tag, chosen) => alternative_meets(alternatives, *tag as usize, chosen),
            _ => false,
        },
        Constraint::SomePresent => match value {
            Value::Seq(entries) => is_one_present(entries),
            _ => false,
        },
    }
}

/// Whether there is an entry for each of the components, and it meets its own constraint.
#[cycle(judge)]
fn entries_meet(components: &[Component], entries: &[Option<Value>]) -> bool
    ensures { result ≡ meet_each (components_seen components.now) (entries_seen entries.now) }
{
    if entries.len() < components.len() {
        return false;
    }
    for (index, component) in components.iter().enumerate() {
        if !entry_meets(component, &entries[index]) {
            return false;
        }
    }
    true
}

/// Whether the entry may be absent if it is, and else may be there and meets the constraint.
#[inline(always)]
#[cycle(judge)]
fn entry_meets(component: &Component, entry: &Option<Value>) -> bool
    ensures { result ≡ meets_one (on_one component.now) (option_map datum_of entry.now) }
{
    match entry {
        None => !matches!(component.presence, Presence::Present),
        Some(value) => {
            !matches!(component.presence, Presence::Absent) && judge(&component.constraint, value)
        }
    }
}

/// Whether each element meets the constraint.
#[cycle(judge)]
fn elements_meet(constraint: &Constraint, elements: &[Value]) -> bool
    ensures { result ≡ list_all (λ d. meets (constraint_of constraint.now) d) (map datum_of elements.now) }
{
    for element in elements {
        if !judge(constraint, element) {
            return false;
        }
    }
    true
}

/// Whether there is a constraint for the alternative with this index, and the value meets it.
#[cycle(judge)]
fn alternative_meets(alternatives: &[Constraint], index: usize, chosen: &Value) -> bool
    ensures { result ≡ meets_at (alternatives_seen alternatives.now) index (datum_of chosen.now) }
{
    index < alternatives.len() && judge(&alternatives[index], chosen)
}

/// Whether some entry is a value.
pub(crate) fn is_one_present(entries: &[Option<Value>]) -> bool
    ensures { result ≡ one_present (entries_seen entries.now) }
{
    for entry in entries {
        if entry.is_some() {
            return true;
        }
    }
    false
}
