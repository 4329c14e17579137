//! The index of the assignment to each name of a module.

ghost use Rattle.std.specs.Prelude.{◌≡◌, true, false, IfOk, IfSome, MatchOption, bytes_eq};
ghost use Rattle.asn_values.specs.Profile.{has_twice};
ghost use Rattle.asn_notation.specs.Tree.{assignments_view};
ghost use Rattle.asn_module.specs.Lookup.{Finds, IsNoneIfTwice, assigned_names};

use asn_notation::AssignmentNotation;
use std::alloc::{AllocError, Global};
use std::collections::HashMap;

/// The index of the assignment to each name; None where one is assigned twice.
pub(crate) fn indices_of<'t>(
    alloc: Global,
    assignments: &[AssignmentNotation<'t>],
) -> Result<Option<HashMap<&'t str, usize>>, AllocError>
    ensures finds { IfOk result (λ o. IfSome o (λ m. Finds m (assigned_names (assignments_view assignments.now)))) }
    ensures twice { IfOk result (λ o. IsNoneIfTwice (assigned_names (assignments_view assignments.now)) o) }
{
    let mut indices = HashMap::new(alloc);
    let mut index = assignments.len();
    'names: while index > 0 {
        index -= 1;
        if indices.insert(assignments[index].name, index)?.is_some() {
            return Ok(None);
        }
    }
    Ok(Some(indices))
}
