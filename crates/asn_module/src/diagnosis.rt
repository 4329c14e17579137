//! Which fault a refused text is told to have. No contract rests on what is answered here.

use crate::expanding::expand;
use crate::fault::ModuleFault;
use crate::graph::{first_on_cycle, indices_of, order_of, references_of};
use crate::heads::{Head, heads_of, may_stand};
use crate::left_out::{Assignments, items_for_defaults};
use crate::listing::{Listed, assignments_listed, first_twice, first_unknown};
use crate::shallow::without_deep_types;
use crate::zero_width::{Followed, levels_inside};
use asn_notation::{Lexeme, ModuleNotation, SyntaxFault, first_token, read_notation, skip_blank};
use asn_values::profile::{MAX_LEVELS, MAX_TYPES};
use asn_values::{Checked, TypeFault};
use std::alloc::Global;
use std::collections::HashMap;

/// A type at this level has a fault, whatever it is. Those inside it are not looked at.
const LEVELS: u32 = MAX_LEVELS + 1;

/// At most this many types inside one another are built, one more than the profile has.
const NODES: u32 = MAX_TYPES + 1;

/// So the types at the next level are read where no others are inside them, and else left out.
const READ_LEVELS: u32 = LEVELS + 1;

/// Where the first character stands that begins no token.
fn first_illegal(text: &str) -> Option<usize> {
    let mut rest = text;
    'tokens: loop {
        match first_token(rest) {
            None => return None,
            Some((Lexeme::Illegal, _)) => {
                return Some(text.len().saturating_sub(skip_blank(rest).len()));
            }
            Some((_, after)) => rest = after,
        }
    }
}

/// The fault of the grammar at a token; None where there is none.
fn fault_of_syntax(text: &str, fault: SyntaxFault) -> Option<ModuleFault> {
    let length = text.len();
    match fault {
        SyntaxFault::Memory => Some(ModuleFault::Memory),
        SyntaxFault::Unexpected { left } => Some(ModuleFault::Unexpected {
            at: length.saturating_sub(left),
        }),
        SyntaxFault::OutOfProfile { left } => Some(ModuleFault::OutOfProfile {
            at: length.saturating_sub(left),
        }),
        SyntaxFault::TooDeep { .. } => None,
    }
}

/// The fault of a text that is not read, or of one whose types are not all of the profile.
pub(crate) fn fault_of(alloc: Global, text: &str) -> ModuleFault {
    if let Some(at) = first_illegal(text) {
        return ModuleFault::Character { at };
    }
    let found = match read_notation(alloc, text, READ_LEVELS) {
        Ok(notation) => fault_of_names(alloc, text, &notation),
        Err(SyntaxFault::TooDeep { .. }) => fault_of_deep(alloc, text),
        Err(fault) => match fault_of_syntax(text, fault) {
            Some(fault) => Ok(fault),
            None => Err(ModuleFault::Memory),
        },
    };
    match found {
        Ok(fault) => fault,
        Err(fault) => fault,
    }
}

/// The fault of a text of the grammar in which a type lies inside too many others to be read.
fn fault_of_deep(alloc: Global, text: &str) -> Result<ModuleFault, ModuleFault> {
    let shallow = without_deep_types(alloc, text, LEVELS)?;
    match read_notation(alloc, &shallow, READ_LEVELS) {
        Ok(notation) => fault_of_names(alloc, text, &notation),
        Err(_) => Err(ModuleFault::Memory),
    }
}

/// Faults of the names: one assigned twice, a reference to none, references that lead back. `indices` has the index
/// of each name, and `references` the indices that each assignment refers to.
fn fault_in_names<'t>(
    alloc: Global,
    listed: &[Listed<'t>],
    indices: &HashMap<&'t str, usize>,
    references: &[Vec<usize>],
) -> Result<Option<ModuleFault>, ModuleFault> {
    if let Some(name) = first_twice(alloc, listed)? {
        let name = String::from_str(alloc, name)?;
        return Ok(Some(ModuleFault::Twice { name }));
    }
    if let Some(name) = first_unknown(listed, indices) {
        let name = String::from_str(alloc, name)?;
        return Ok(Some(ModuleFault::Unknown { name }));
    }
    match first_on_cycle(alloc, references)? {
        Some(index) if index < listed.len() => {
            let name = String::from_str(alloc, listed[index].name)?;
            Ok(Some(ModuleFault::Cycle { name }))
        }
        _ => Ok(None),
    }
}

/// The number of octets of the text from the first constraint on that may not stand on the type that its reference
/// stands for.
fn first_misplaced<'t>(
    listed: &[Listed<'t>],
    indices: &HashMap<&'t str, usize>,
    heads: &[Head],
) -> Option<usize> {
    for assignment in listed {
        for reference in &assignment.references {
            let head = match indices.get(reference.name) {
                Some(index) => heads.get(*index),
                None => None,
            };
            if let Some(head) = head {
                if !may_stand(head, reference.constraint) {
                    return Some(reference.left);
                }
            }
        }
    }
    None
}

/// The first assignment whose type is none of the profile, and the fault of its type.
fn first_bad_type<'m, 't, 'n>(
    alloc: Global,
    followed: Followed<'m, 't, 'n>,
    order: &[usize],
) -> Result<Option<ModuleFault>, ModuleFault> {
    let inside = levels_inside(alloc, followed, order)?;
    let items = items_for_defaults(alloc, followed)?;
    let module = Assignments {
        alloc,
        followed,
        inside: &inside,
        items: &items,
    };
    for assignment in followed.all {
        let mut nodes = NODES;
        let ty = expand(module, &assignment.ty, MAX_LEVELS, &mut nodes)?;
        match Checked::new(alloc, ty) {
            Ok(_) => {}
            Err(TypeFault::Memory) => return Err(ModuleFault::Memory),
            Err(fault) => {
                let name = String::from_str(alloc, assignment.name)?;
                return Ok(Some(ModuleFault::BadType { name, fault }));
            }
        }
    }
    Ok(None)
}

/// The fault of a text of the grammar. `notation` has its assignments, with types that are nested too deep left out.
fn fault_of_names<'t, 'n>(
    alloc: Global,
    text: &'t str,
    notation: &ModuleNotation<'n>,
) -> Result<ModuleFault, ModuleFault> {
    let listed = assignments_listed(alloc, text)?;
    let indices = indices_of(alloc, &listed)?;
    let references = references_of(alloc, &listed, &indices)?;
    if let Some(fault) = fault_in_names(alloc, &listed, &indices, &references)? {
        return Ok(fault);
    }
    let order = order_of(alloc, &references)?;
    let heads = heads_of(alloc, &notation.assignments, &indices, &order)?;
    if let Some(left) = first_misplaced(&listed, &indices, &heads) {
        return Ok(ModuleFault::OutOfProfile {
            at: text.len().saturating_sub(left),
        });
    }
    let followed = Followed {
        all: notation.assignments.as_slice(),
        indices: &indices,
        heads: heads.as_slice(),
    };
    match first_bad_type(alloc, followed, &order)? {
        Some(fault) => Ok(fault),
        None => Err(ModuleFault::Memory),
    }
}
