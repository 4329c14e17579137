//! Reads all that stands in assignments, each from a stack of what is still to be read, however deep it is nested.
use asn_published_text::modules::{Assignment, What, World};
use asn_published_text::token::{Kind, Sign};
use asn_published_text::tokens::{Tokens, next};
use asn_published_text::wrong::TextFault;
use std::alloc::Global;

/// What is still to be read of an assignment. Indexes are those of lexical items.
#[derive(Clone, Copy)]
pub(crate) enum Work {
    /// A type, from one index to before another.
    Type {
        from: usize,
        end: usize,
    },
    /// Components or alternatives, from one index to before another, after this many extension marks.
    Members {
        from: usize,
        end: usize,
        is_choice: bool,
        marks: u32,
    },
    /// Elements of a constraint, or of a set of values, in the brackets that open at an index.
    Elements {
        open: usize,
    },
    /// What WITH COMPONENTS says, in the braces at an index.
    Inner {
        braces: usize,
    },
    /// An object in the braces at an index, of a class; `None` where it is not known which.
    Object {
        class: Option<usize>,
        braces: usize,
    },
    /// A set of objects in the braces at an index.
    Objects {
        class: Option<usize>,
        braces: usize,
    },
    /// What a reference at an index gives for parameters, in the braces at another.
    Actual {
        at: usize,
        braces: usize,
    },
    /// A value, an object or a set in the braces at an index, where it is not known which of them.
    Any {
        braces: usize,
    },
}

/// Where notation is read: in a module, whose names stand for parameters too where `is_plain` does not hold.
#[derive(Clone, Copy)]
pub(crate) struct Reading<'a, 't> {
    pub world: &'a World<'t>,
    pub tokens: &'a Tokens<'t>,
    pub module: usize,
    pub(crate) is_plain: bool,
    pub(crate) alloc: Global,
}

/// Reads all that stands in an assignment.
pub(crate) fn read_assignment<'t>(
    alloc: Global,
    world: &World<'t>,
    index: usize,
) -> Result<(), TextFault> {
    let Some(it) = world.assignment(index) else {
        return Ok(());
    };
    let Some(tokens) = world.tokens_of(it.module) else {
        return Ok(());
    };
    let reading = Reading {
        world,
        tokens,
        module: it.module,
        is_plain: it.parameters.is_none(),
        alloc,
    };
    let mut todo = Vec::new(alloc);
    reading.read_parts(&mut todo, it, index)?;
    reading.read_all(&mut todo)
}

impl<'a, 't> Reading<'a, 't> {
    /// Reads what is still to be read.
    fn read_all(&self, todo: &mut Vec<Work>) -> Result<(), TextFault> {
        for _ in 0..u64::MAX {
            match todo.pop() {
                Some(work) => self.read_work(todo, work)?,
                None => break,
            }
        }
        Ok(())
    }

    /// Reads one thing, and asks for what it holds.
    fn read_work(&self, todo: &mut Vec<Work>, work: Work) -> Result<(), TextFault> {
        match work {
            Work::Type { from, end } => self.read_type(todo, from, end),
            Work::Members {
                from,
                end,
                is_choice,
                marks,
            } => self.read_members(todo, (from, end), is_choice, marks),
            Work::Elements { open } => self.read_elements(todo, open),
            Work::Inner { braces } => self.read_inner(todo, braces),
            Work::Object { class, braces } => self.read_object(todo, class, braces),
            Work::Objects { class, braces } => self.read_objects(todo, class, braces),
            Work::Actual { at, braces } => self.read_actual(todo, at, braces),
            Work::Any { braces } => self.read_any(todo, braces),
        }
    }

    /// Reads the parameters of an assignment, and what stands before and after its `::=`.
    fn read_parts(
        &self,
        todo: &mut Vec<Work>,
        it: &Assignment<'t>,
        index: usize,
    ) -> Result<(), TextFault> {
        if let Some(braces) = it.parameters {
            self.read_formal(todo, braces)?;
        }
        if it.what == What::Class {
            return self.read_class(todo, index);
        }
        let has_governor = !self.tokens.is(it.governor, Sign::Becomes);
        if !has_governor {
            // a type, or a value in XML, which was read as one lexical item
            return if it.what == What::Type {
                self.push(
                    todo,
                    Work::Type {
                        from: it.start,
                        end: it.end,
                    },
                )
            } else {
                Ok(())
            };
        }
        let behind = self.push_type(todo, it.governor)?;
        let start = next(behind);
        match it.what {
            What::Value => self.read_value_of(todo, (it.governor, behind), start),
            _ => self.push_set(todo, (it.governor, behind), start),
        }
    }

    /// Asks for one thing more.
    pub fn push(&self, todo: &mut Vec<Work>, work: Work) -> Result<(), TextFault> {
        Ok(todo.push(work)?)
    }

    /// The value or the object at `start` of what governs it.
    fn read_value_of(
        &self,
        todo: &mut Vec<Work>,
        governor: (usize, usize),
        start: usize,
    ) -> Result<(), TextFault> {
        if self.tokens.is_kind(start, Kind::Xml) {
            return Ok(());
        }
        self.read_governed(todo, (self.module, governor.0, governor.1), start)?;
        Ok(())
    }

    /// Asks for the set in the braces at `start`, of values or objects, as what governs it says.
    fn push_set(
        &self,
        todo: &mut Vec<Work>,
        governor: (usize, usize),
        start: usize,
    ) -> Result<(), TextFault> {
        let work = self.set_of((self.module, governor.0, governor.1), start);
        self.push(todo, work)
    }
}
