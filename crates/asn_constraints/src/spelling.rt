//! What a constraint says of spelling alone, which a sender of any version keeps.
ghost use Rattle.std.specs.Prelude.{◌≡◌, map, option_map};
ghost use Rattle.std.specs.List.{list_all};
ghost use Rattle.asn_values.specs.View.{datum_of, entries_seen};
ghost use Rattle.asn_constraints.specs.Constraints.{any, meets, meet_each, meets_at, entry_meets, is_unknown};
ghost use Rattle.asn_constraints.specs.Spelling.{is_of_spelling, are_of_spelling, is_one_of_spelling, spelling, spelling_of_components, spelling_of_alternatives};
ghost use Rattle.asn_constraints.specs.View.{constraint_of, on_one, components_seen, alternatives_seen};

use crate::constraint::{Component, Constraint, Presence};
use crate::judging::judge;
use asn_values::Value;

/// Whether the value meets what the constraint says of spelling.
///
/// That is: no DEFAULT is written out, no group is empty, and named bits and times have no last zeros. A receiver judges
/// so what a newer sender wrote, since a newer version may have loosened the other constraints. An item or an alternative
/// that the receiver's type has not is not judged. Allocates nothing.
#[cycle(spelling)]
pub fn judge_spelling(constraint: &Constraint, value: &Value) -> bool
    ensures { result ≡ meets (spelling (constraint_of constraint.now)) (datum_of value.now) }
{
    match constraint {
        Constraint::Free => true,
        Constraint::Barred => true,
        Constraint::Numbers(_) => true,
        Constraint::Items(_) => true,
        Constraint::Lengths(_) => true,
        Constraint::Characters(_) => true,
        Constraint::Both(first, second) => {
            judge_spelling(first, value) && judge_spelling(second, value)
        }
        Constraint::Either(first, second) => {
            if is_of_spelling(first) && is_of_spelling(second) {
                judge_spelling(first, value) || judge_spelling(second, value)
            } else {
                true
            }
        }
        Constraint::Trimmed(_) => is_unknown(value) || judge(constraint, value),
        Constraint::Time(_) => is_unknown(value) || judge(constraint, value),
        Constraint::Except(_) => is_unknown(value) || judge(constraint, value),
        Constraint::SomePresent => is_unknown(value) || judge(constraint, value),
        Constraint::Components(components) => match value {
            Value::Seq(entries) => entries_are_spelt(components, entries),
            _ => is_unknown(value),
        },
        Constraint::Elements(inner) => match value {
            Value::List(elements) => elements_are_spelt(inner, elements),
            _ => is_unknown(value),
        },
        Constraint::Alternatives(alternatives) => match value {
            Value::Choice(tag, chosen) => alternative_is_spelt(alternatives, *tag as usize, chosen),
            _ => is_unknown(value),
        },
    }
}

/// Whether the value is an item or an alternative that the receiver's type has not.
fn is_unknown(value: &Value) -> bool
    ensures { result ≡ is_unknown (datum_of value.now) }
{
    matches!(value, Value::UnknownItem(_) | Value::UnknownAlternative(_))
}

/// Whether nothing in the constraint is a constraint of values.
#[cycle(of_spelling)]
fn is_of_spelling(constraint: &Constraint) -> bool
    ensures { result ≡ is_of_spelling (constraint_of constraint.now) }
{
    match constraint {
        Constraint::Free => true,
        Constraint::Both(first, second) => is_of_spelling(first) && is_of_spelling(second),
        Constraint::Either(first, second) => is_of_spelling(first) && is_of_spelling(second),
        Constraint::Trimmed(_) => true,
        Constraint::Time(_) => true,
        Constraint::Except(_) => true,
        Constraint::SomePresent => true,
        Constraint::Components(components) => are_of_spelling(components),
        Constraint::Elements(inner) => is_of_spelling(inner),
        Constraint::Barred => false,
        Constraint::Numbers(_) => false,
        Constraint::Items(_) => false,
        Constraint::Lengths(_) => false,
        Constraint::Characters(_) => false,
        Constraint::Alternatives(_) => false,
    }
}

/// The same of the constraints on components, each of which may be there or not.
#[cycle(of_spelling)]
fn are_of_spelling(components: &[Component]) -> bool
    ensures { result ≡ are_of_spelling (components_seen components.now) }
{
    for component in components {
        if !is_one_of_spelling(component) {
            return false;
        }
    }
    true
}

/// The same of the constraint on one component.
#[cycle(of_spelling)]
fn is_one_of_spelling(component: &Component) -> bool
    ensures { result ≡ is_one_of_spelling (on_one component.now) }
{
    matches!(component.presence, Presence::Any) && is_of_spelling(&component.constraint)
}

/// Whether there is an entry for each of the components, and the values among them meet the spelling of their own
/// constraints.
#[cycle(spelling)]
fn entries_are_spelt(components: &[Component], entries: &[Option<Value>]) -> bool
    ensures { result ≡ meet_each (spelling_of_components (components_seen components.now)) (entries_seen entries.now) }
{
    if entries.len() < components.len() {
        return false;
    }
    for (index, component) in components.iter().enumerate() {
        if !entry_is_spelt(&component.constraint, &entries[index]) {
            return false;
        }
    }
    true
}

/// Whether the entry is absent or meets the spelling of the constraint.
#[cycle(spelling)]
fn entry_is_spelt(constraint: &Constraint, entry: &Option<Value>) -> bool
    ensures { result ≡
        entry_meets any (λ d. meets (spelling (constraint_of constraint.now)) d) (option_map datum_of entry.now) }
{
    match entry {
        None => true,
        Some(value) => judge_spelling(constraint, value),
    }
}

/// Whether each element meets the spelling of the constraint.
#[cycle(spelling)]
fn elements_are_spelt(constraint: &Constraint, elements: &[Value]) -> bool
    ensures { result ≡ list_all (λ d. meets (spelling (constraint_of constraint.now)) d) (map datum_of elements.now) }
{
    for element in elements {
        if !judge_spelling(constraint, element) {
            return false;
        }
    }
    true
}

/// Whether the value meets the spelling of the constraint on the alternative with this index, if there is one.
#[cycle(spelling)]
fn alternative_is_spelt(alternatives: &[Constraint], index: usize, chosen: &Value) -> bool
    ensures { result ≡
        meets_at (spelling_of_alternatives (alternatives_seen alternatives.now)) index (datum_of chosen.now) }
{
    alternatives.len() <= index || judge_spelling(&alternatives[index], chosen)
}
