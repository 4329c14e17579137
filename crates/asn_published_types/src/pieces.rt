//! Texts that are put together from pieces.
use std::alloc::AllocError;

/// Appends pieces one after the other.
pub fn push_pieces(out: &mut String, pieces: &[&str]) -> Result<(), AllocError> {
    for piece in pieces {
        out.push_str(*piece)?;
    }
    Ok(())
}
