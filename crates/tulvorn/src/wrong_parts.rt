//! The part in which a value breaks a constraint, by the names of its type.
use asn_constraints::{Broken, path_text};
use asn_values::Checked;
use asn_view::WrongPart;
use std::alloc::{AllocError, Global};

/// Where a value of the type breaks a constraint, as a path of names, and why, displayed as `$.n: default written out`.
///
/// # Errors
/// `AllocError` if an allocation failed.
pub fn broken_part(alloc: Global, ty: &Checked, broken: &Broken) -> Result<WrongPart, AllocError> {
    let path = path_text(alloc, ty.get(), broken.path.as_slice())?;
    let reason = broken.reason;
    let reason = format!(in alloc; "{reason}")?;
    Ok(WrongPart { path, reason })
}
