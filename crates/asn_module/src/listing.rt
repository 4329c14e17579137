//! The assignments of a text and the names that each refers to, told by its tokens alone: however deep a type
//! is nested, no call goes deeper. The text is one of the grammar.

use crate::fault::ModuleFault;
use asn_notation::{Constraint, Lexeme, Sign, Word, constraint_at, first_token, skip_blank};
use std::alloc::Global;
use std::collections::HashMap;

/// A name that a type refers to, and the constraint after it.
#[derive(Clone, Copy)]
pub(crate) struct Reference<'t> {
    pub name: &'t str,
    pub constraint: Constraint,
    /// The number of octets of the text from the constraint on.
    pub left: usize,
}

/// An assignment, and the references of its type, in the order of the text.
#[derive(Drop)]
pub(crate) struct Listed<'t> {
    pub name: &'t str,
    pub references: Vec<Reference<'t>>,
}

/// The text after BEGIN.
pub(crate) fn after_begin<'t>(text: &'t str) -> &'t str {
    let mut rest = text;
    'tokens: loop {
        match first_token(rest) {
            None => return rest,
            Some((Lexeme::Word(Word::Begin), after)) => return after,
            Some((_, after)) => rest = after,
        }
    }
}

/// Whether `::=` comes next.
pub(crate) fn is_assignment(text: &str) -> bool {
    match first_token(text) {
        Some((Lexeme::Sign(sign), _)) => sign == Sign::Becomes,
        _ => false,
    }
}

/// The reference to a name, and the text from its constraint on.
fn reference_to<'t>(name: &'t str, text: &str) -> Reference<'t> {
    let constraint = match constraint_at(text) {
        Ok((constraint, _)) => constraint,
        Err(_) => Constraint::None,
    };
    Reference {
        name,
        constraint,
        left: skip_blank(text).len(),
    }
}

/// The assignments of a text.
pub(crate) fn assignments_listed<'t>(
    alloc: Global,
    text: &'t str,
) -> Result<Vec<Listed<'t>>, ModuleFault> {
    let mut listed = Vec::new(alloc);
    let mut rest = after_begin(text);
    'tokens: loop {
        match first_token(rest) {
            None => return Ok(listed),
            Some((Lexeme::Name(name), after)) => {
                if is_assignment(after) {
                    listed.push(Listed {
                        name,
                        references: Vec::new(alloc),
                    })?;
                } else if let Some(last) = listed.last_mut() {
                    last.references.push(reference_to(name, after))?;
                }
                rest = after;
            }
            Some((_, after)) => rest = after,
        }
    }
}

/// The first name that is assigned a second time.
pub(crate) fn first_twice<'t>(
    alloc: Global,
    listed: &[Listed<'t>],
) -> Result<Option<&'t str>, ModuleFault> {
    let mut names = HashMap::new(alloc);
    for assignment in listed {
        if names.insert(assignment.name, ())?.is_some() {
            return Ok(Some(assignment.name));
        }
    }
    Ok(None)
}

/// The first reference to a name that is not assigned. `indices` has the names that are.
pub(crate) fn first_unknown<'t>(
    listed: &[Listed<'t>],
    indices: &HashMap<&'t str, usize>,
) -> Option<&'t str> {
    for assignment in listed {
        for reference in &assignment.references {
            if indices.get(reference.name).is_none() {
                return Some(reference.name);
            }
        }
    }
    None
}
