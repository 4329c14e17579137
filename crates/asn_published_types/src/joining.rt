//! Constraints that are put together.
use asn_constraints::Constraint;
use std::alloc::{AllocError, Global};

/// Both constraints.
pub fn both(alloc: Global, one: Constraint, other: Constraint) -> Result<Constraint, AllocError> {
    match one {
        Constraint::Free => Ok(other),
        one => match other {
            Constraint::Free => Ok(one),
            other => Ok(Constraint::Both(Box::new(alloc, one)?, Box::new(alloc, other)?)),
        },
    }
}

/// One constraint or the other.
pub fn either(alloc: Global, one: Constraint, other: Constraint) -> Result<Constraint, AllocError> {
    match one {
        Constraint::Free => Ok(Constraint::Free),
        one => match other {
            Constraint::Free => Ok(Constraint::Free),
            other => Ok(Constraint::Either(Box::new(alloc, one)?, Box::new(alloc, other)?)),
        },
    }
}
