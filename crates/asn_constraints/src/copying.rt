//! Constraints that are free, and copies of constraints.
ghost use Rattle.std.specs.Prelude.{◌≡◌, ◌↔◌, IsTrue, IfOk, map};
ghost use Rattle.asn_constraints.specs.Constraints.{free};
ghost use Rattle.asn_constraints.specs.View.{constraint_of, on_one};

use crate::constraint::{Component, Constraint};
use std::alloc::{AllocError, Global};

impl Constraint {
    /// Whether it is `Free`, so that nothing has to be judged.
    pub fn is_free(&self) -> bool
        ensures { IsTrue result ↔ (constraint_of self.now ≡ free) }
    {
        matches!(self, Constraint::Free)
    }

    /// The same constraint once more.
    ///
    /// # Errors
    /// An allocation failed.
    pub fn copy(&self, alloc: Global) -> Result<Constraint, AllocError>
        ensures { IfOk result (λ c. constraint_of c ≡ constraint_of self.now) }
    {
        copied(alloc, self)
    }
}

/// The same constraint once more.
#[cycle(copied)]
fn copied(alloc: Global, constraint: &Constraint) -> Result<Constraint, AllocError>
    ensures { IfOk result (λ c. constraint_of c ≡ constraint_of constraint.now) }
{
    match constraint {
        Constraint::Free => Ok(Constraint::Free),
        Constraint::Barred => Ok(Constraint::Barred),
        Constraint::Both(first, second) => {
            let left = Box::new(alloc, copied(alloc, first)?)?;
            let right = Box::new(alloc, copied(alloc, second)?)?;
            Ok(Constraint::Both(left, right))
        }
        Constraint::Either(first, second) => {
            let left = Box::new(alloc, copied(alloc, first)?)?;
            let right = Box::new(alloc, copied(alloc, second)?)?;
            Ok(Constraint::Either(left, right))
        }
        Constraint::Numbers(intervals) => Ok(Constraint::Numbers(intervals.clone()?)),
        Constraint::Items(positions) => Ok(Constraint::Items(positions.clone()?)),
        Constraint::Lengths(lengths) => Ok(Constraint::Lengths(lengths.clone()?)),
        Constraint::Characters(intervals) => Ok(Constraint::Characters(intervals.clone()?)),
        Constraint::Trimmed(low) => Ok(Constraint::Trimmed(*low)),
        Constraint::Time(kind) => Ok(Constraint::Time(*kind)),
        Constraint::Except(value) => Ok(Constraint::Except(value.clone()?)),
        Constraint::Components(components) => {
            Ok(Constraint::Components(copied_components(alloc, components)?))
        }
        Constraint::Elements(inner) => {
            Ok(Constraint::Elements(Box::new(alloc, copied(alloc, inner)?)?))
        }
        Constraint::Alternatives(alternatives) => {
            Ok(Constraint::Alternatives(copied_alternatives(alloc, alternatives)?))
        }
        Constraint::SomePresent => Ok(Constraint::SomePresent),
    }
}

/// The same constraints on components once more.
#[cycle(copied)]
fn copied_components(alloc: Global, components: &[Component]) -> Result<Vec<Component>, AllocError>
    ensures { IfOk result (λ v. map on_one v.items ≡ map on_one components.now) }
{
    let mut copies = Vec::with_capacity(alloc, components.len())?;
    for component in components {
        copies.push(copied_component(alloc, component)?)?;
    }
    Ok(copies)
}

/// The same constraint on a component once more.
#[cycle(copied)]
fn copied_component(alloc: Global, component: &Component) -> Result<Component, AllocError>
    ensures { IfOk result (λ c. on_one c ≡ on_one component.now) }
{
    Ok(Component {
        presence: component.presence,
        constraint: copied(alloc, &component.constraint)?,
    })
}

/// The same constraints on alternatives once more.
#[cycle(copied)]
fn copied_alternatives(
    alloc: Global,
    alternatives: &[Constraint],
) -> Result<Vec<Constraint>, AllocError>
    ensures { IfOk result (λ v. map constraint_of v.items ≡ map constraint_of alternatives.now) }
{
    let mut copies = Vec::with_capacity(alloc, alternatives.len())?;
    for alternative in alternatives {
        copies.push(copied(alloc, alternative)?)?;
    }
    Ok(copies)
}
