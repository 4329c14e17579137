//! Where a value breaks a constraint.
ghost use Rattle.std.specs.Prelude.{◌≡◌, ◌<◌, length, IsTrue, IsFalse, IfOk, IfSome, Some, option_map, reverse, is_none, [], ◌∷◌, false};
ghost use Rattle.asn_values.specs.Datum.{alternative};
ghost use Rattle.asn_values.specs.View.{datum_of};
ghost use Rattle.asn_constraints.specs.Constraints.{meets, barred, on_components, on_elements, on_alternatives};
ghost use Rattle.asn_constraints.specs.Broken.{BreaksAt, alternative_at, reason_of, has_parts};
ghost use Rattle.asn_constraints.specs.Finding.{Finds, FindsEntry};
ghost use Rattle.asn_constraints.specs.View.{constraint_of, on_one, components_seen, alternatives_seen, sequence_seen, list_seen};

use crate::constraint::{Component, Constraint, Presence};
use crate::judging::judge;
use asn_values::Value;
use std::alloc::{AllocError, Global};
use thiserror::Error;

/// Why a value does not meet a constraint, in words that follow on "refused:".
#[derive(Clone, Copy, Debug, PartialEq, Eq, Error)]
pub enum Reason {
    /// The value has no such parts as the constraint is about.
    #[error("a value of another kind")]
    Kind,
    /// An INTEGER lies in none of the intervals.
    #[error("a number in a gap of the range")]
    Number,
    /// An item of an ENUMERATED is not one of those allowed.
    #[error("an item that is not allowed")]
    Item,
    /// A length lies outside of the SIZE.
    #[error("a length outside of the SIZE")]
    Length,
    /// A character lies outside of the permitted alphabet.
    #[error("a character outside of the alphabet")]
    Character,
    /// Named bits end in zeros.
    #[error("last zeros of named bits")]
    LastZeros,
    /// A time is not written in its canonical form.
    #[error("no canonical time")]
    Time,
    /// A DEFAULT is written out.
    #[error("default written out")]
    Default,
    /// A component has to be present.
    #[error("component missing")]
    Missing,
    /// A component has to be absent.
    #[error("component that must be absent")]
    Present,
    /// An alternative is not allowed.
    #[error("alternative that must be absent")]
    Alternative,
    /// No value is allowed there.
    #[error("a value where none is allowed")]
    Barred,
    /// A group has no components.
    #[error("a group without components")]
    NonePresent,
    /// A value meets no constraint of a union.
    #[error("none of the allowed combinations")]
    Neither,
}

/// Why a value does not meet a constraint, and where.
#[derive(Debug, Drop)]
pub struct Broken {
    pub reason: Reason,
    /// The path to that place from the outside in: the index of a component, of an element, or of an alternative.
    pub path: Vec<usize>,
}

/// The first place at which the value breaks the constraint, from the outside in and in the order of the parts; `None`
/// exactly if the value meets it. A union of which neither side is met is broken at its own value.
///
/// # Errors
/// An allocation failed.
pub fn judge_at(
    alloc: Global,
    constraint: &Constraint,
    value: &Value,
) -> Result<Option<Broken>, AllocError>
    ensures exactly { IfOk result (λ found.
        is_none found ≡ meets (constraint_of constraint.now) (datum_of value.now)) }
    ensures there { IfOk result (λ found. IfSome found (λ b.
        BreaksAt (constraint_of constraint.now) (datum_of value.now) b.path.items b.reason)) }
{
    match first_broken(alloc, constraint, value)? {
        None => Ok(None),
        Some(broken) => Ok(Some(turned(broken))),
    }
}

/// The same with its path turned.
fn turned(broken: Broken) -> Broken
    ensures reason { result.reason ≡ broken.reason }
    ensures path { result.path.items ≡ reverse broken.path.items }
{
    let mut turned = broken;
    turned.path.reverse();
    turned
}

/// The first place, its path from the inside out.
#[cycle(broken)]
fn first_broken(
    alloc: Global,
    constraint: &Constraint,
    value: &Value,
) -> Result<Option<Broken>, AllocError>
    ensures { IfOk result (λ found. Finds (constraint_of constraint.now) (datum_of value.now) found) }
{
    match constraint {
        Constraint::Free => Ok(None),
        Constraint::Both(first, second) => match first_broken(alloc, first, value)? {
            Some(broken) => Ok(Some(broken)),
            None => first_broken(alloc, second, value),
        },
        Constraint::Components(components) => match value {
            Value::Seq(entries) => broken_component(alloc, components, entries),
            _ => Ok(Some(without_parts(alloc, constraint, value))),
        },
        Constraint::Elements(inner) => match value {
            Value::List(elements) => broken_element(alloc, inner, elements),
            _ => Ok(Some(without_parts(alloc, constraint, value))),
        },
        Constraint::Alternatives(alternatives) => match value {
            Value::Choice(tag, chosen) => {
                broken_alternative(alloc, alternatives, *tag as usize, chosen)
            }
            _ => Ok(Some(without_parts(alloc, constraint, value))),
        },
        Constraint::Barred => Ok(itself(alloc, constraint, value, Reason::Barred)),
        Constraint::Either(..) => Ok(itself(alloc, constraint, value, Reason::Neither)),
        Constraint::Numbers(_) => Ok(itself(alloc, constraint, value, Reason::Number)),
        Constraint::Items(_) => Ok(itself(alloc, constraint, value, Reason::Item)),
        Constraint::Lengths(_) => Ok(itself(alloc, constraint, value, Reason::Length)),
        Constraint::Characters(_) => Ok(itself(alloc, constraint, value, Reason::Character)),
        Constraint::Trimmed(_) => Ok(itself(alloc, constraint, value, Reason::LastZeros)),
        Constraint::Time(_) => Ok(itself(alloc, constraint, value, Reason::Time)),
        Constraint::Except(_) => Ok(itself(alloc, constraint, value, Reason::Default)),
        Constraint::SomePresent => Ok(itself(alloc, constraint, value, Reason::NonePresent)),
    }
}

/// The place of the value itself, unless it meets the constraint.
fn itself(alloc: Global, constraint: &Constraint, value: &Value, reason: Reason) -> Option<Broken>
    requires { reason_of (constraint_of constraint.now) ≡ Some reason }
    ensures { Finds (constraint_of constraint.now) (datum_of value.now) result }
{
    if judge(constraint, value) {
        None
    } else {
        Some(here(alloc, reason))
    }
}

/// The place of a value that has no such parts.
fn without_parts(alloc: Global, constraint: &Constraint, value: &Value) -> Broken
    requires { has_parts (constraint_of constraint.now) (datum_of value.now) ≡ false }
    ensures { Finds (constraint_of constraint.now) (datum_of value.now) (Some result) }
{
    here(alloc, Reason::Kind)
}

/// The place of the value itself.
fn here(alloc: Global, reason: Reason) -> Broken
    ensures reason { result.reason ≡ reason }
    ensures path { result.path.items ≡ [] }
{
    Broken {
        reason,
        path: Vec::new(alloc),
    }
}

/// The place, one step further in: at the component, element or alternative with this index.
fn at(index: usize, broken: Broken) -> Result<Broken, AllocError>
    ensures reason { IfOk result (λ b. b.reason ≡ broken.reason) }
    ensures path { IfOk result (λ b. reverse b.path.items ≡ index ∷ reverse broken.path.items) }
{
    let mut outer = broken;
    outer.path.push(index)?;
    Ok(outer)
}

/// The first place in the entries of a SEQUENCE.
#[cycle(broken)]
fn broken_component(
    alloc: Global,
    components: &[Component],
    entries: &[Option<Value>],
) -> Result<Option<Broken>, AllocError>
    ensures { IfOk result (λ found.
        Finds (on_components (components_seen components.now)) (sequence_seen entries.now) found) }
{
    if entries.len() < components.len() {
        return Ok(Some(here(alloc, Reason::Kind)));
    }
    for (index, component) in components.iter().enumerate() {
        if let Some(broken) = broken_entry(alloc, component, &entries[index])? {
            return Ok(Some(at(index, broken)?));
        }
    }
    Ok(None)
}

/// The first place in an entry, which may be absent.
#[cycle(broken)]
fn broken_entry(
    alloc: Global,
    component: &Component,
    entry: &Option<Value>,
) -> Result<Option<Broken>, AllocError>
    ensures { IfOk result (λ found. FindsEntry (on_one component.now) (option_map datum_of entry.now) found) }
{
    match entry {
        None => {
            if matches!(component.presence, Presence::Present) {
                Ok(Some(here(alloc, Reason::Missing)))
            } else {
                Ok(None)
            }
        }
        Some(value) => {
            if matches!(component.presence, Presence::Absent) {
                Ok(Some(here(alloc, Reason::Present)))
            } else {
                first_broken(alloc, &component.constraint, value)
            }
        }
    }
}

/// The first place in the elements of a SEQUENCE OF.
#[cycle(broken)]
fn broken_element(
    alloc: Global,
    constraint: &Constraint,
    elements: &[Value],
) -> Result<Option<Broken>, AllocError>
    ensures { IfOk result (λ found.
        Finds (on_elements (constraint_of constraint.now)) (list_seen elements.now) found) }
{
    for (index, element) in elements.iter().enumerate() {
        if let Some(broken) = first_broken(alloc, constraint, element)? {
            return Ok(Some(at(index, broken)?));
        }
    }
    Ok(None)
}

/// The first place in the alternative with this index.
#[cycle(broken)]
fn broken_alternative(
    alloc: Global,
    alternatives: &[Constraint],
    index: usize,
    chosen: &Value,
) -> Result<Option<Broken>, AllocError>
    ensures { IfOk result (λ found.
        Finds (on_alternatives (alternatives_seen alternatives.now)) (alternative index (datum_of chosen.now)) found) }
{
    if is_barred(alternatives, index) {
        return Ok(Some(at(index, here(alloc, Reason::Alternative))?));
    }
    match first_broken(alloc, &alternatives[index], chosen)? {
        None => Ok(None),
        Some(broken) => Ok(Some(at(index, broken)?)),
    }
}

/// Whether no value of the alternative with this index is allowed.
fn is_barred(alternatives: &[Constraint], index: usize) -> bool
    ensures barred { IsTrue result → alternative_at (alternatives_seen alternatives.now) index ≡ barred }
    ensures listed { IsFalse result → index < length alternatives.now }
{
    if alternatives.len() <= index {
        return true;
    }
    matches!(alternatives[index], Constraint::Barred)
}
