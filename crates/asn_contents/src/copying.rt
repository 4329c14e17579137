//! Which octets of values are encodings, once more.
use crate::contents::{Contents, Selection};
use std::alloc::{AllocError, Global};

/// The same octets.
///
/// # Errors
/// `AllocError` if an allocation failed.
pub fn copy_of(alloc: Global, contents: &Contents) -> Result<Contents, AllocError> {
    copied(alloc, contents, true)
}

/// The same octets, and those of open types whose number has no type, where an extension mark allows such numbers.
///
/// # Errors
/// `AllocError` if an allocation failed.
pub fn with_unknown(alloc: Global, contents: &Contents) -> Result<Contents, AllocError> {
    copied(alloc, contents, false)
}

/// The same octets, where extension marks of tables stay or not.
#[cycle(copied)]
fn copied(alloc: Global, contents: &Contents, is_marked: bool) -> Result<Contents, AllocError> {
    match contents {
        Contents::Nowhere => Ok(Contents::Nowhere),
        Contents::Octets(ty) => Ok(Contents::Octets(*ty)),
        Contents::Components(parts) => {
            let parts = all_copied(alloc, parts.as_slice(), is_marked)?;
            Ok(Contents::Components(parts))
        }
        Contents::Elements(inner) => {
            let inner = copied(alloc, inner, is_marked)?;
            Ok(Contents::Elements(Box::new(alloc, inner)?))
        }
        Contents::Alternatives(parts) => {
            let parts = all_copied(alloc, parts.as_slice(), is_marked)?;
            Ok(Contents::Alternatives(parts))
        }
        Contents::Both(first, second) => {
            let one = copied(alloc, first, is_marked)?;
            let other = copied(alloc, second, is_marked)?;
            Ok(Contents::Both(Box::new(alloc, one)?, Box::new(alloc, other)?))
        }
        Contents::Selected(selection) => Ok(Contents::Selected(Selection {
            by: selection.by,
            open: selection.open,
            rows: selection.rows.as_slice().to_vec(alloc)?,
            extensible: selection.extensible && is_marked,
        })),
    }
}

/// The same octets in each part.
#[cycle(copied)]
fn all_copied(
    alloc: Global,
    parts: &[Contents],
    is_marked: bool,
) -> Result<Vec<Contents>, AllocError> {
    let mut all = Vec::new(alloc);
    for part in parts {
        let one = copied(alloc, part, is_marked)?;
        all.push(one)?;
    }
    Ok(all)
}
