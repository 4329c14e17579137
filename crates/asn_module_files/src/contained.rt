//! The types whose encodings octets of a message contain (X.682, "contents constraint"), one after the other.
use crate::kept::{constraint_within, contents_in, contents_within};
use asn_constraint_text::ConstrainedModule;
use asn_constraints::Constraint;
use asn_contents::{Contents, is_nowhere, moved, push_types};
use asn_published::{Flattened, PublishedFault};
use std::alloc::{AllocError, Global};

/// How many parts the constraints and contents of all types may have that octets contain.
const MOST_PARTS: usize = 10_000_000;

/// A type that octets contain: its name in the module, the constraint on its values, and which of their octets are encodings.
#[derive(Drop)]
pub struct ContainedType {
    pub name: String,
    pub constraint: Constraint,
    /// by the positions of their types among the contained ones, counted from 0
    pub contents: Contents,
}

/// Which octets of the values of a type are encodings, and the types of these.
#[derive(Drop)]
pub struct Containing {
    /// by the positions of their types, counted from 0
    pub contents: Contents,
    pub types: Vec<ContainedType>,
}

impl Containing {
    /// None are.
    pub fn nothing(alloc: Global) -> Containing {
        Containing {
            contents: Contents::Nowhere,
            types: Vec::new(alloc),
        }
    }
}

/// Positions that types have in a module, and those that they have among the contained ones.
#[derive(Drop)]
struct Positions {
    /// Of each position in the module the one among the contained types.
    places: Vec<Option<usize>>,
    /// Of each contained type its position in the module.
    found: Vec<usize>,
}

impl Positions {
    /// Nothing is contained yet.
    fn new(alloc: Global) -> Positions {
        Positions {
            places: Vec::new(alloc),
            found: Vec::new(alloc),
        }
    }

    /// The same octets, by the positions of their types among the contained ones. Types that were not met yet become contained
    /// ones.
    fn taken(&mut self, alloc: Global, contents: &Contents) -> Result<Contents, AllocError> {
        if is_nowhere(contents) {
            return Ok(Contents::Nowhere);
        }
        let mut types = Vec::new(alloc);
        push_types(contents, &mut types)?;
        for position in types {
            for _ in self.places.len()..=position {
                self.places.push(None)?;
            }
            if let Some(place) = self.places.get_mut(position) {
                if place.is_none() {
                    *place = Some(self.found.len());
                    self.found.push(position)?;
                }
            }
        }
        moved(alloc, contents, self.places.as_slice())
    }
}

/// Which octets of the values of a published type are encodings, and the types of these, those in their values too.
///
/// # Errors
/// `AllocError` where an allocation failed.
pub(crate) fn containing_flattened(
    alloc: Global,
    flattened: &Flattened,
    name: &str,
) -> Result<Containing, AllocError> {
    let mut positions = Positions::new(alloc);
    let own = flattened.contents_of(alloc, name)?;
    let contents = positions.taken(alloc, &own)?;
    let mut types = Vec::new(alloc);
    for _ in 0..flattened.report.len() {
        let Some(at) = positions.found.get(types.len()) else {
            break;
        };
        let at = *at;
        let name = match flattened.report.get(at) {
            Some(one) => one.name.clone()?,
            None => String::new(alloc),
        };
        let inner = flattened.contents_at(alloc, at)?;
        types.push(ContainedType {
            name,
            constraint: flattened.constraint_at(alloc, at)?,
            contents: positions.taken(alloc, &inner)?,
        })?;
    }
    Ok(Containing { contents, types })
}

/// The same of a type of a module of the profile.
///
/// # Errors
/// `TooLarge` if one has too many parts, and `Memory` if an allocation failed.
pub(crate) fn containing_own(
    alloc: Global,
    own: &ConstrainedModule,
    name: &str,
) -> Result<Containing, PublishedFault> {
    let mut positions = Positions::new(alloc);
    let of_type = contents_in(alloc, own, name)?;
    let contents = positions.taken(alloc, &of_type)?;
    let mut types = Vec::new(alloc);
    let mut room = MOST_PARTS;
    for _ in 0..u64::MAX {
        let Some(at) = positions.found.get(types.len()) else {
            break;
        };
        let Some(name) = own.name_at(*at) else {
            break;
        };
        let inner = contents_within(alloc, own, name, &mut room, MOST_PARTS)?;
        types.push(ContainedType {
            name: String::from_str(alloc, name)?,
            constraint: constraint_within(alloc, own, name, &mut room, MOST_PARTS)?,
            contents: positions.taken(alloc, &inner)?,
        })?;
    }
    Ok(Containing { contents, types })
}
