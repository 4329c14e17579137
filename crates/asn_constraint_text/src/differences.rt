//! How types differ from the published ones.
use crate::cursor::Cursor;
use crate::fault::ConstraintTextFault;
use crate::references::{Named, References};
use std::alloc::{AllocError, Global};

/// What is expected behind the name.
const WORDS: &str = "how the type differs";

/// Reads the words of a line behind the name.
pub(crate) fn difference_after(
    alloc: Global,
    cursor: &mut Cursor<'_>,
) -> Result<String, ConstraintTextFault> {
    cursor.skip_blank();
    match std::str::from_utf8(cursor.rest()) {
        Ok(words) if !words.is_empty() => Ok(String::from_str(alloc, words)?),
        _ => Err(cursor.fault(WORDS)),
    }
}

/// The words of the name at an index, or of one that its type refers to; None where none of them has some.
///
/// # Errors
/// `AllocError` where an allocation failed.
pub(crate) fn difference_at(
    alloc: Global,
    names: &[Named],
    index: usize,
) -> Result<Option<&str>, AllocError> {
    let mut is_met = vec![in alloc; false; names.len()]?;
    let mut left = Vec::new(alloc);
    left.push(index)?;
    for _ in 0..u64::MAX {
        let Some(at) = left.pop() else {
            break;
        };
        let (Some(named), Some(is_met)) = (names.get(at), is_met.get_mut(at)) else {
            continue;
        };
        if *is_met {
            continue;
        }
        *is_met = true;
        if let Some(words) = &named.difference {
            return Ok(Some(words.as_str()));
        }
        push_names(&named.references, &mut left)?;
    }
    Ok(None)
}

/// Adds the names that a type refers to.
#[cycle(names)]
fn push_names(references: &References, left: &mut Vec<usize>) -> Result<(), AllocError> {
    match references {
        References::None => Ok(()),
        References::Name(index) => Ok(left.push(*index)?),
        References::Parts(parts) => {
            for part in parts {
                push_names(part, left)?;
            }
            Ok(())
        }
        References::Elements(inside) => push_names(inside, left),
    }
}
