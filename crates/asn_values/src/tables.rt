//! Whether a name or a number stands twice in long lists, found by a table of those that stand after it.
ghost use Rattle.std.specs.Prelude.{◌≡◌, ◌++◌, map, bytes_eq, IfOk};
ghost use Rattle.asn_values.specs.Profile.{has_twice, int_eq};
ghost use Rattle.asn_values.specs.View.{numbers_seen};

use crate::names::Named;
use crate::types::Item;
use std::alloc::{AllocError, Global};
use std::collections::HashSet;

/// Whether a name stands twice in the lists.
///
/// # Errors
/// `AllocError` where an allocation failed.
pub(crate) fn is_name_twice<T: Named>(
    alloc: Global,
    root: &[T],
    additions: &[T],
) -> Result<bool, AllocError>
    ensures { IfOk result (λ twice.
        twice ≡ has_twice bytes_eq (map T.name_of root.now ++ map T.name_of additions.now)) }
{
    let mut later = HashSet::new(alloc);
    let mut index = additions.len();
    'additions: while index > 0 {
        index -= 1;
        if !later.insert(additions[index].name())? {
            return Ok(true);
        }
    }
    index = root.len();
    'root: while index > 0 {
        index -= 1;
        if !later.insert(root[index].name())? {
            return Ok(true);
        }
    }
    Ok(false)
}

/// Whether two of the items have the same number.
///
/// # Errors
/// `AllocError` where an allocation failed.
pub(crate) fn is_number_twice(
    alloc: Global,
    root: &[Item],
    additions: &[Item],
) -> Result<bool, AllocError>
    ensures { IfOk result (λ twice. twice ≡ has_twice int_eq (numbers_seen root.now ++ numbers_seen additions.now)) }
{
    let mut later = HashSet::new(alloc);
    let mut index = additions.len();
    'additions: while index > 0 {
        index -= 1;
        if !later.insert(additions[index].number)? {
            return Ok(true);
        }
    }
    index = root.len();
    'root: while index > 0 {
        index -= 1;
        if !later.insert(root[index].number)? {
            return Ok(true);
        }
    }
    Ok(false)
}
