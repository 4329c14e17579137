//! Names of classes (X.681, "object class assignment"): what leads to a class is one, and no type.
use crate::modules::{What, World};
use crate::refusal::Why;
use crate::tokens::next;

/// How many names are followed to a class.
const MOST_LEADS: u32 = 32;

/// A class: the assignment that defines it, or one of those that X.681 defines.
#[derive(Clone, Copy)]
pub enum ClassName {
    Defined(usize),
    TypeIdentifier,
    AbstractSyntax,
}

/// The class of this name that X.681 defines.
pub fn built_in(name: &str) -> Option<ClassName> {
    match name {
        "TYPE-IDENTIFIER" => Some(ClassName::TypeIdentifier),
        "ABSTRACT-SYNTAX" => Some(ClassName::AbstractSyntax),
        _ => None,
    }
}

impl<'t> World<'t> {
    /// What the name with its module stands for from `start` to before `end`.
    fn find_between(&self, module: usize, start: usize, end: usize) -> Result<usize, Why> {
        match self.reference_at(module, start)? {
            (to, behind) if behind == end => Ok(to),
            _ => Err(Why::NoType),
        }
    }

    /// The class that an assignment defines, or to which the name leads that it has.
    pub fn class_from(&self, assignment: usize) -> Option<ClassName> {
        let found = self.assignment(assignment)?;
        let there = self.tokens_of(found.module)?;
        match found.what {
            What::Class if found.parameters.is_some() => None,
            What::Class if there.is_word(found.start, "CLASS") => {
                Some(ClassName::Defined(assignment))
            }
            What::Class => self.class_named(found.module, found.start, found.end),
            _ => None,
        }
    }

    /// The class to which the name from `start` to before `end` leads; `None` where it leads to none.
    pub fn class_named(&self, module: usize, start: usize, end: usize) -> Option<ClassName> {
        let (mut module, mut start, mut end) = (module, start, end);
        for _ in 0..MOST_LEADS {
            let tokens = self.tokens_of(module)?;
            let is_alone = next(start) == end;
            let to = if is_alone {
                self.find(module, tokens.text(start))
            } else {
                self.find_between(module, start, end)
            };
            let to = match to {
                Ok(to) => to,
                Err(Why::Unknown) if is_alone => return built_in(tokens.text(start)),
                Err(_) => return None,
            };
            let found = self.assignment(to)?;
            let there = self.tokens_of(found.module)?;
            match found.what {
                What::Class if there.is_word(found.start, "CLASS") => {
                    return Some(ClassName::Defined(to));
                }
                What::Class | What::Type if found.parameters.is_none() => {
                    (module, start, end) = (found.module, found.start, found.end);
                }
                _ => return None,
            }
        }
        None
    }
}
