//! Where in a type its first fault is.
ghost use Rattle.std.specs.Prelude.{◌≢◌, IfOk, IfSome, MatchOption};
ghost use Rattle.asn_values.specs.Profile.{InProfile};
ghost use Rattle.asn_values.specs.View.{shape_of, Holds};

use crate::fault::TypeFault;
use crate::profile::{MAX_LEVELS, MAX_TYPES};
use crate::types::{Alt, AsnType, Field};
use crate::walk::{check_node, check_type};
use std::alloc::{AllocError, Global};
use thiserror::Error;

/// A fault of a type, and the path to it: `$` is the type itself, `.name` a component or an alternative inside it, and
/// `[]` the element of a SEQUENCE OF, as in `$.header.speed` or `$.list[].id`.
#[derive(Debug, PartialEq, Eq, Drop, Error)]
#[error("{fault} at {path}")]
pub struct FoundFault {
    pub fault: TypeFault,
    pub path: String,
}

impl AsnType {
    /// The fault that `Checked::new` answers for this type, and the path to where it is; None where the type is of the
    /// profile. Allocates the path. The fault is never `Memory`.
    ///
    /// The path of a type that is too deep leads to its first type past level 64; of one with too many types inside,
    /// to the 100,001st.
    ///
    /// # Errors
    /// `AllocError` where an allocation failed.
    pub fn first_fault(&self, alloc: Global) -> Result<Option<FoundFault>, AllocError>
        ensures found { IfOk result (λ found.
            MatchOption found (InProfile (shape_of self.now)) (λ f. Holds f.fault (shape_of self.now))) }
        ensures memory { IfOk result (λ found. IfSome found (λ f. f.fault ≢ TypeFault.Memory)) }
    {
        match check_type(alloc, self, MAX_LEVELS, MAX_TYPES) {
            Ok(_) => Ok(None),
            Err(fault) => {
                let path = path_to_fault(alloc, self)?;
                Ok(Some(FoundFault { fault, path }))
            }
        }
    }
}

/// A part of a type that has a fault in it.
#[derive(Drop)]
struct FaultyPart<'a> {
    /// None is the element of a SEQUENCE OF.
    name: Option<&'a str>,
    ty: &'a AsnType,
    /// How many types the walk has left there.
    start: u32,
}

/// The path to the first fault of a type that has one.
fn path_to_fault(alloc: Global, ty: &AsnType) -> Result<String, AllocError> {
    let mut path = String::from_str(alloc, "$")?;
    let mut here = ty;
    let mut start = MAX_TYPES;
    let mut levels = MAX_LEVELS;
    for _ in 0..MAX_LEVELS {
        if levels == 0 {
            break;
        }
        let Some(part) = faulty_part(alloc, here, levels - 1, start) else {
            return Ok(path);
        };
        match part.name {
            Some(name) => {
                path.push_str(".")?;
                path.push_str(name)?;
                levels -= 1;
            }
            None => {
                path.push_str("[]")?;
                levels = levels.saturating_sub(2);
            }
        }
        here = part.ty;
        start = part.start;
    }
    Ok(path)
}

/// The first part of the type in which the walk finds a fault; None where it finds one of the type itself, or none.
fn faulty_part<'a>(
    alloc: Global,
    ty: &'a AsnType,
    levels: u32,
    start: u32,
) -> Option<FaultyPart<'a>> {
    if start == 0 || check_node(alloc, ty, levels).is_err() {
        return None;
    }
    match ty {
        AsnType::Seq { root, ext } => match faulty_field(alloc, root, levels, start - 1) {
            Err(part) => Some(part),
            Ok(left) => match ext {
                None => None,
                Some(more) => faulty_field(alloc, more, levels, left).err(),
            },
        },
        AsnType::SeqOf(element, _) => Some(FaultyPart {
            name: None,
            ty: element,
            start: start - 1,
        }),
        AsnType::Choice { root, ext } => match faulty_alternative(alloc, root, levels, start - 1) {
            Err(part) => Some(part),
            Ok(left) => match ext {
                None => None,
                Some(more) => faulty_alternative(alloc, more, levels, left).err(),
            },
        },
        _ => None,
    }
}

/// The first component with a fault in its type, as an error; the number of types that are left where there is none.
fn faulty_field<'a>(
    alloc: Global,
    fields: &'a [Field],
    levels: u32,
    start: u32,
) -> Result<u32, FaultyPart<'a>> {
    let mut left = start;
    for field in fields {
        match check_type(alloc, &field.ty, levels, left) {
            Ok(after) => left = after,
            Err(_) => {
                return Err(FaultyPart {
                    name: Some(field.name.as_str()),
                    ty: &field.ty,
                    start: left,
                });
            }
        }
    }
    Ok(left)
}

/// The same of alternatives.
fn faulty_alternative<'a>(
    alloc: Global,
    alternatives: &'a [Alt],
    levels: u32,
    start: u32,
) -> Result<u32, FaultyPart<'a>> {
    let mut left = start;
    for alternative in alternatives {
        match check_type(alloc, &alternative.ty, levels, left) {
            Ok(after) => left = after,
            Err(_) => {
                return Err(FaultyPart {
                    name: Some(alternative.name.as_str()),
                    ty: &alternative.ty,
                    start: left,
                });
            }
        }
    }
    Ok(left)
}
