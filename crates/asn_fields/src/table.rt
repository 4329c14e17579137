//! Lines of cells, in columns.

use std::alloc::{AllocError, Global};

/// How wide the columns of lines are. A column but the last of a line is as wide as its widest cell, and two spaces.
#[derive(Drop)]
pub(crate) struct Columns {
    /// In characters.
    widths: Vec<usize>,
}

impl Columns {
    /// Columns that are as wide as these numbers, in characters.
    ///
    /// # Errors
    /// `AllocError` where an allocation failed; and so in each of the following.
    pub(crate) fn new(alloc: Global, least: &[usize]) -> Result<Columns, AllocError> {
        let mut widths = Vec::new(alloc);
        widths.extend_from_slice(least)?;
        Ok(Columns { widths })
    }

    /// Makes the columns wide enough for a line.
    pub(crate) fn fit(&mut self, row: &[&str]) {
        let before = row.len().saturating_sub(1);
        for (index, cell) in row.iter().enumerate() {
            if index < before {
                if let Some(width) = self.widths.get_mut(index) {
                    *width = (*width).max(cell.len());
                }
            }
        }
    }

    /// Adds a line to a text.
    pub(crate) fn push(&self, text: &mut String, row: &[&str]) -> Result<(), AllocError> {
        let before = row.len().saturating_sub(1);
        for (index, cell) in row.iter().enumerate() {
            text.push_str(cell)?;
            if index < before {
                let width = self.widths.get(index).copied().unwrap_or(0);
                push_spaces(text, width.saturating_sub(cell.len()))?;
                text.push_str("  ")?;
            }
        }
        text.push_str("\n")
    }
}

/// Adds this many spaces.
pub(crate) fn push_spaces(text: &mut String, count: usize) -> Result<(), AllocError> {
    for _ in 0..count {
        text.push_str(" ")?;
    }
    Ok(())
}
