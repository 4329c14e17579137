//! Which assignments refer to which: an order to build them in, and which of them lead back to themselves.
//! No call goes deeper for a longer chain of references.

ghost use Rattle.std.specs.Prelude.{◌+◌, ◌^◌, ◌<◌, IfSome};

use crate::fault::ModuleFault;
use crate::listing::Listed;
use std::alloc::{AllocError, Global};
use std::collections::HashMap;

/// The index of the assignment to each name.
pub(crate) fn indices_of<'t>(
    alloc: Global,
    listed: &[Listed<'t>],
) -> Result<HashMap<&'t str, usize>, ModuleFault> {
    let mut indices = HashMap::new(alloc);
    for (index, assignment) in listed.iter().enumerate() {
        indices.insert(assignment.name, index)?;
    }
    Ok(indices)
}

/// Of each assignment the indices of those that it refers to. `indices` has the index of each name.
pub(crate) fn references_of<'t>(
    alloc: Global,
    listed: &[Listed<'t>],
    indices: &HashMap<&'t str, usize>,
) -> Result<Vec<Vec<usize>>, ModuleFault> {
    let mut all = Vec::new(alloc);
    for assignment in listed {
        let mut references = Vec::new(alloc);
        for reference in &assignment.references {
            if let Some(index) = indices.get(reference.name) {
                references.push(*index)?;
            }
        }
        all.push(references)?;
    }
    Ok(all)
}

/// The reference with a number, counted from 0, of an assignment.
fn reference_at(references: &[Vec<usize>], from: usize, number: usize) -> Option<usize>
    ensures { IfSome result (λ _. number + 1 < 2 ^ 64) }
{
    if from < references.len() && number < references[from].len() {
        Some(references[from][number])
    } else {
        None
    }
}

/// Marks an index, and says whether it was not marked before.
fn mark(marks: &mut Vec<bool>, index: usize) -> bool {
    if index < marks.len() && !marks[index] {
        marks[index] = true;
        true
    } else {
        false
    }
}

/// An order of the assignments in which each comes after those that it refers to, where none leads back.
pub(crate) fn order_of(alloc: Global, references: &[Vec<usize>]) -> Result<Vec<usize>, AllocError> {
    let mut order = Vec::new(alloc);
    let mut marks = vec![in alloc; false; references.len()]?;
    // assignments that are not in the order yet, each with the number of references that were followed
    let mut stack = Vec::new(alloc);
    for start in 0..references.len() {
        if mark(&mut marks, start) {
            stack.push((start, 0))?;
        }
        for _ in 0..u64::MAX {
            let Some((index, number)) = stack.pop() else {
                break;
            };
            match reference_at(references, index, number) {
                Some(reference) => {
                    stack.push((index, number + 1))?;
                    if mark(&mut marks, reference) {
                        stack.push((reference, 0))?;
                    }
                }
                None => order.push(index)?,
            }
        }
    }
    Ok(order)
}

/// Of each assignment the indices of those that refer to it.
fn referrers_of(alloc: Global, references: &[Vec<usize>]) -> Result<Vec<Vec<usize>>, AllocError> {
    let mut all = Vec::new(alloc);
    for _ in 0..references.len() {
        all.push(Vec::new(alloc))?;
    }
    for (index, refers_to) in references.iter().enumerate() {
        for reference in refers_to {
            if let Some(referrers) = all.get_mut(*reference) {
                referrers.push(index)?;
            }
        }
    }
    Ok(all)
}

/// Gives the number to an assignment that has none yet, and says whether it did.
fn give(numbers: &mut Vec<Option<usize>>, index: usize, number: usize) -> bool {
    if index < numbers.len() && numbers[index].is_none() {
        numbers[index] = Some(number);
        true
    } else {
        false
    }
}

/// A number for each assignment; two have the same number where the references of each lead to the other.
fn numbers_of(alloc: Global, references: &[Vec<usize>]) -> Result<Vec<Option<usize>>, AllocError> {
    let order = order_of(alloc, references)?;
    let referrers = referrers_of(alloc, references)?;
    let mut numbers = vec![in alloc; None; references.len()]?;
    // The last unnumbered assignment of the order begins a new component (Kosaraju): it leads back
    // to each unnumbered one that leads to it.
    let mut stack = Vec::new(alloc);
    for start in order.iter().rev() {
        stack.push(*start)?;
        for _ in 0..u64::MAX {
            let Some(index) = stack.pop() else {
                break;
            };
            if give(&mut numbers, index, *start) && index < referrers.len() {
                for referrer in &referrers[index] {
                    stack.push(*referrer)?;
                }
            }
        }
    }
    Ok(numbers)
}

/// The first assignment whose references lead back to itself.
pub(crate) fn first_on_cycle(
    alloc: Global,
    references: &[Vec<usize>],
) -> Result<Option<usize>, AllocError> {
    let numbers = numbers_of(alloc, references)?;
    for (index, refers_to) in references.iter().enumerate() {
        for reference in refers_to {
            if numbers.get(index) == numbers.get(*reference) {
                return Ok(Some(index));
            }
        }
    }
    Ok(None)
}
