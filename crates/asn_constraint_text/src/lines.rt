//! The lines of a module's text that have the constraints of its names, and how these differ from published types.
ghost use Rattle.std.specs.Prelude.{◌<◌, length, IfSome};

use crate::cursor::Cursor;
use crate::fault::ConstraintTextFault;
use std::alloc::{AllocError, Global};
use std::collections::HashMap;
use std::fmt::Write;

/// What the line of a constraint begins with: to other readers of X.680 it is a comment.
pub(crate) const CONSTRAINT: &str = "--:";

/// What the line of a difference begins with, which is a comment too.
pub(crate) const DIFFERENCE: &str = "--!";

/// The text of a module with a line for each constraint: `--:`, a name, and what `constraint_text` writes for its type.
/// It comes behind the line in which the assignment of the name begins, or at the end of the text where no line begins
/// with that. Of two constraints of a name the second is written.
///
/// # Errors
/// `AllocError` where an allocation failed.
pub fn with_constraints(
    alloc: Global,
    text: &str,
    constraints: &[(&str, &str)],
) -> Result<String, AllocError> {
    with_lines(alloc, text, CONSTRAINT, constraints)
}

/// The text of a module with a line for each type that differs from the published one: `--!`, its name, and how it differs,
/// which is on one line and has no two hyphens next to one another. It comes where the line of a constraint does.
///
/// # Errors
/// `AllocError` where an allocation failed.
pub fn with_differences(
    alloc: Global,
    text: &str,
    differences: &[(&str, &str)],
) -> Result<String, AllocError> {
    with_lines(alloc, text, DIFFERENCE, differences)
}

/// The text of a module with a line for each of these names, which begins with the mark.
fn with_lines(
    alloc: Global,
    text: &str,
    mark: &str,
    lines: &[(&str, &str)],
) -> Result<String, AllocError> {
    let mut left = HashMap::new(alloc);
    for (name, words) in lines {
        left.insert(*name, *words)?;
    }
    let mut out = String::new(alloc);
    for line in text.lines() {
        out.push_str(line)?;
        out.push_str("\n")?;
        if let Some((name, _)) = line.split_once("::=") {
            put_line(&mut out, &mut left, mark, name.trim())?;
        }
    }
    for (name, _) in lines {
        put_line(&mut out, &mut left, mark, *name)?;
    }
    Ok(out)
}

/// Writes the line of a name, if it is left.
fn put_line(
    out: &mut String,
    left: &mut HashMap<&str, &str>,
    mark: &str,
    name: &str,
) -> Result<(), AllocError> {
    match left.remove(name) {
        Some(words) => writeln!(out, "{mark} {name} {words}"),
        None => Ok(()),
    }
}

/// Whether a line of the text begins with `--:` or `--!`.
pub(crate) fn has_marks(text: &str) -> bool {
    text.lines().any(|line| line.starts_with(CONSTRAINT) || line.starts_with(DIFFERENCE))
}

/// A line that begins with the mark, after that; None of another line.
///
/// # Errors
/// `Expected` where the comment ends before the line.
pub(crate) fn marked_line<'t>(
    line: &'t str,
    mark: &str,
) -> Result<Option<Cursor<'t>>, ConstraintTextFault> {
    if !line.starts_with(mark) {
        return Ok(None);
    }
    let mut cursor = Cursor::new(line);
    cursor.skip(mark.len());
    match comment_len(cursor.rest()) {
        None => Ok(Some(cursor)),
        Some(len) => {
            cursor.skip(len);
            Err(cursor.fault("the rest of the comment"))
        }
    }
}

/// Where a comment ends; None where it goes on to the end of the line.
fn comment_len(line: &[u8]) -> Option<usize>
    ensures { IfSome result (λ n. n < length line.now) }
{
    let mut is_after_hyphen = false;
    for (index, octet) in line.iter().enumerate() {
        let is_hyphen = *octet == b'-';
        if (is_hyphen && is_after_hyphen) || (10 <= *octet && *octet <= 13) {
            return Some(index);
        }
        is_after_hyphen = is_hyphen;
    }
    None
}
