//! The type that handles hold, and its constraint.
ghost use Rattle.std.specs.Prelude.{◌≡◌, IfOk};
ghost use Rattle.asn_values.specs.View.{datum_of};
ghost use Rattle.asn_constraints.specs.Constraints.{meets};
ghost use Rattle.asn_constraints.specs.Spelling.{spelling};
ghost use Rattle.tulvorn_c.specs.Held.{constrained_of};

use std::alloc::AllocError;
use std::sync::Arc;
use tulvorn::{Checked, Constraint, Value, judge, judge_spelling};

/// A type and the constraint on its values, which all handles of the type share.
#[derive(Drop)]
pub struct HeldType {
    pub(crate) checked: Checked,
    /// `None` if each value of the type meets it.
    pub(crate) constraint: Option<Arc<Constraint>>,
}

impl HeldType {
    /// The same type, for another handle.
    ///
    /// # Errors
    /// `AllocError` if an allocation failed.
    pub(crate) fn copy(&self) -> Result<HeldType, AllocError>
        ensures { IfOk result (λ ty. constrained_of ty ≡ constrained_of self.now) }
    {
        let checked = self.checked.copy()?;
        let constraint = match &self.constraint {
            Some(constraint) => Some(constraint.clone()?),
            None => None,
        };
        Ok(HeldType {
            checked,
            constraint,
        })
    }

    /// Whether the value meets the constraint.
    pub(crate) fn admits(&self, value: &Value) -> bool
        ensures { result ≡ meets (constrained_of self.now).constraint (datum_of value.now) }
    {
        match &self.constraint {
            Some(constraint) => judge(constraint, value),
            None => true,
        }
    }

    /// Whether the value meets what the constraint says of spelling.
    pub(crate) fn admits_spelling(&self, value: &Value) -> bool
        ensures { result ≡ meets (spelling (constrained_of self.now).constraint) (datum_of value.now) }
    {
        match &self.constraint {
            Some(constraint) => judge_spelling(constraint, value),
            None => true,
        }
    }
}
