//! What is read of a text: a constraint, and which octets are encodings.
use crate::cursor::Cursor;
use crate::fault::ConstraintTextFault;
use crate::reading::MOST_LEVELS;
use asn_constraints::{Component, Constraint, Presence};
use asn_contents::{
    Contents, are_same, both_contents, contents_of_elements, contents_of_parts, is_nowhere,
};
use std::alloc::{AllocError, Global};

/// What is expected where operands of `|` have other contents.
const SAME: &str = "the same contents on both sides of `|`";

/// What was read, and how many constraints are inside one another in it.
#[derive(Drop)]
pub(crate) struct Read {
    pub constraint: Constraint,
    /// which octets are encodings
    pub contents: Contents,
    pub levels: u32,
}

/// A constraint with no other in it.
pub(crate) fn leaf(constraint: Constraint) -> Read {
    Read {
        constraint,
        contents: Contents::Nowhere,
        levels: 1,
    }
}

/// Which octets are encodings, with no constraint on other values.
pub(crate) fn leaf_of_contents(contents: Contents) -> Read {
    Read {
        constraint: Constraint::Free,
        contents,
        levels: 1,
    }
}

/// The levels above these, if they are not too many.
pub(crate) fn above(cursor: &Cursor<'_>, levels: u32) -> Result<u32, ConstraintTextFault> {
    if levels < MOST_LEVELS {
        Ok(levels + 1)
    } else {
        Err(ConstraintTextFault::TooDeep { at: cursor.at() })
    }
}

/// Whether it says no more than which octets are encodings.
fn is_contents(read: &Read) -> bool {
    matches!(&read.constraint, Constraint::Free) && !is_nowhere(&read.contents)
}

/// One or the other. Both say the same of octets.
pub(crate) fn either(
    alloc: Global,
    first: Read,
    second: Read,
    cursor: &Cursor<'_>,
) -> Result<Read, ConstraintTextFault> {
    if !are_same(&first.contents, &second.contents) {
        return Err(cursor.fault(SAME));
    }
    let levels = above(cursor, first.levels.max(second.levels))?;
    let are_contents = is_contents(&first) && is_contents(&second);
    let Read {
        constraint: one,
        contents,
        levels: _,
    } = first;
    let Read {
        constraint: other,
        contents: _other_contents,
        levels: _,
    } = second;
    let constraint = if are_contents {
        one
    } else {
        Constraint::Either(Box::new(alloc, one)?, Box::new(alloc, other)?)
    };
    Ok(Read {
        constraint,
        contents,
        levels,
    })
}

/// Both.
pub(crate) fn both(
    alloc: Global,
    first: Read,
    second: Read,
    cursor: &Cursor<'_>,
) -> Result<Read, ConstraintTextFault> {
    let levels = above(cursor, first.levels.max(second.levels))?;
    let (is_first, is_second) = (is_contents(&first), is_contents(&second));
    let Read {
        constraint: one,
        contents,
        levels: _,
    } = first;
    let Read {
        constraint: other,
        contents: other_contents,
        levels: _,
    } = second;
    let constraint = if is_second {
        one
    } else if is_first {
        other
    } else {
        Constraint::Both(Box::new(alloc, one)?, Box::new(alloc, other)?)
    };
    Ok(Read {
        constraint,
        contents: both_contents(alloc, contents, other_contents)?,
        levels,
    })
}

/// The components that were read, of each which octets are encodings.
pub(crate) fn of_components(all: Vec<Component>, contents: Vec<Contents>, levels: u32) -> Read {
    let contents = contents_of_parts(contents, false);
    let is_free = !is_nowhere(&contents) && all.iter().all(is_free);
    Read {
        constraint: if is_free {
            Constraint::Free
        } else {
            Constraint::Components(all)
        },
        contents,
        levels,
    }
}

/// Whether a component may be absent and have any value.
fn is_free(component: &Component) -> bool {
    matches!(component.presence, Presence::Any) && matches!(component.constraint, Constraint::Free)
}

/// The alternatives that are listed in a constraint.
#[derive(Drop)]
pub(crate) struct Listed {
    all: Vec<Constraint>,
    contents: Vec<Contents>,
    /// Those that are not listed are not constrained.
    is_partial: bool,
}

impl Listed {
    /// None is listed yet.
    pub fn new(alloc: Global, is_partial: bool) -> Listed {
        Listed {
            all: Vec::new(alloc),
            contents: Vec::new(alloc),
            is_partial,
        }
    }

    /// Whether those that are not listed are not constrained.
    pub fn is_partial(&self) -> bool {
        self.is_partial
    }

    /// The index after the last one that is listed.
    pub fn len(&self) -> usize {
        self.all.len()
    }

    /// Adds those that are not listed, up to an index.
    fn fill(&mut self, index: usize) -> Result<(), AllocError> {
        for _ in self.all.len()..index {
            self.all.push(if self.is_partial {
                Constraint::Free
            } else {
                Constraint::Barred
            })?;
            self.contents.push(Contents::Nowhere)?;
        }
        Ok(())
    }

    /// Adds the one at an index.
    pub fn push(&mut self, index: usize, read: Read) -> Result<(), AllocError> {
        self.fill(index)?;
        self.all.push(read.constraint)?;
        self.contents.push(read.contents)?;
        Ok(())
    }

    /// What was read, of a type with so many alternatives. Those after the last that is listed are left out if they are barred.
    pub fn finish(self, count: usize, levels: u32) -> Result<Read, ConstraintTextFault> {
        let mut listed = self;
        if listed.is_partial {
            listed.fill(count)?;
        }
        let Listed {
            all,
            contents,
            is_partial,
        } = listed;
        let is_free = is_partial && all.iter().all(|one| matches!(one, Constraint::Free));
        Ok(Read {
            constraint: if is_free {
                Constraint::Free
            } else {
                Constraint::Alternatives(all)
            },
            contents: contents_of_parts(contents, true),
            levels,
        })
    }
}

/// What is read of elements that are read so.
pub(crate) fn elements_of(
    alloc: Global,
    inner: Read,
    cursor: &Cursor<'_>,
) -> Result<Read, ConstraintTextFault> {
    let levels = above(cursor, inner.levels)?;
    let is_free = is_contents(&inner);
    let Read {
        constraint,
        contents,
        levels: _,
    } = inner;
    let constraint = if is_free {
        Constraint::Free
    } else {
        Constraint::Elements(Box::new(alloc, constraint)?)
    };
    Ok(Read {
        constraint,
        contents: contents_of_elements(alloc, contents)?,
        levels,
    })
}
