//! Where messages stand.
use std::alloc::{AllocError, Global};

/// Where a message is.
#[derive(Clone, Copy)]
pub struct Place<'a> {
    /// The name of the file; empty for standard input.
    pub file: &'a str,
    /// The line at which its text begins, from 1.
    pub line: u64,
    /// Which message of that text it is, from 1; 0 where it is the only one.
    pub message: u64,
}

/// Where a message is, in words.
pub fn place_text(alloc: Global, place: Place<'_>) -> Result<String, AllocError> {
    let Place {
        file,
        line,
        message,
    } = place;
    let mut told = if file.is_empty() {
        format!(in alloc; "line {line}")?
    } else {
        format!(in alloc; "{file}:{line}")?
    };
    if message > 0 {
        let which = format!(in alloc; ", message {message}")?;
        told.push_str(which.as_str())?;
    }
    Ok(told)
}
