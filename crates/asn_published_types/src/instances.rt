//! Parameterized assignments as they are referred to (X.683): the actual parameter of each dummy one. Types that are written
//! in a constraint are counted among them.
use crate::pieces::push_pieces;
use asn_published_text::modules::World;
use asn_published_text::refusal::Why;
use asn_published_text::token::Sign;
use asn_published_text::tokens::{Tokens, next};
use std::alloc::{AllocError, Global};
use std::collections::HashMap;

/// How many references with parameters may lie inside one another.
const MOST_LEVELS: u32 = 32;

/// How many instances there may be.
const MOST_INSTANCES: usize = 20000;

/// How many lexical items of parameters are looked at.
const MOST_ITEMS: u32 = 200;

/// How many lexical items of actual parameters are compared with those of other references.
const MOST_COMPARED: usize = 24;

/// A reference to a parameterized assignment.
#[derive(Clone, Copy)]
pub struct Instance {
    pub assignment: usize,
    /// The module in which the actual parameters are, and their `{`.
    pub module: usize,
    pub braces: usize,
    /// The instance in which the reference stands, whose parameters the actual ones may name.
    pub(crate) outer: Option<usize>,
    pub level: u32,
    /// Of a type that is written in a constraint of the assignment, the index after it: it begins at `braces`.
    pub end: Option<usize>,
}

/// All instances, by what distinguishes them.
#[derive(Drop)]
pub struct Instances {
    pub all: Vec<Instance>,
    by_text: HashMap<String, usize>,
}

/// An actual parameter: lexical items of a module from `start` to before `end`.
#[derive(Clone, Copy)]
pub(crate) struct Actual {
    pub module: usize,
    pub start: usize,
    pub end: usize,
    pub(crate) outer: Option<usize>,
}

/// Which of the parameters whose `{` is at `braces` has the name, from 0.
fn index_of_parameter(tokens: &Tokens<'_>, braces: usize, name: &str) -> Result<Option<u32>, Why> {
    let end = tokens.other(braces);
    let mut at = next(braces);
    let mut index = 0u32;
    for _ in 0..MOST_ITEMS {
        if at >= end {
            return Ok(None);
        }
        let behind = tokens.after(at);
        let is_last = behind >= end || tokens.is(behind, Sign::Comma);
        if is_last && *tokens.text(at).as_bytes() == *name.as_bytes() {
            return Ok(Some(index));
        }
        if tokens.is(at, Sign::Comma) {
            index = index.saturating_add(1);
        }
        at = behind;
    }
    Err(Why::Parameter)
}

/// Where the actual parameter of an index stands among those whose `{` is at `braces`: from one index to before
/// another.
fn actual_at(tokens: &Tokens<'_>, braces: usize, wanted: u32) -> Option<(usize, usize)> {
    let end = tokens.other(braces);
    let mut at = next(braces);
    let mut start = at;
    let mut index = 0u32;
    for _ in 0..MOST_ITEMS {
        if at >= end || tokens.is(at, Sign::Comma) {
            if index == wanted && start < at {
                return Some((start, at));
            }
            if at >= end {
                return None;
            }
            index = index.saturating_add(1);
            start = next(at);
        }
        at = tokens.after(at);
    }
    None
}

/// How many parameters stand in the braces at `braces`; `None` where there are too many lexical items.
fn count_of(tokens: &Tokens<'_>, braces: usize) -> Option<u32> {
    let end = tokens.other(braces);
    let mut at = next(braces);
    let mut count = 1u32;
    for _ in 0..MOST_ITEMS {
        if at >= end {
            return Some(count);
        }
        if tokens.is(at, Sign::Comma) {
            count = count.saturating_add(1);
        }
        at = tokens.after(at);
    }
    None
}

/// Whether the braces of a reference have as many parameters as those of the assignment.
pub(crate) fn are_as_many(
    here: &Tokens<'_>,
    braces: usize,
    there: Option<&Tokens<'_>>,
    parameters: usize,
) -> bool {
    let count = match there {
        Some(there) => count_of(there, parameters),
        None => None,
    };
    count.is_some() && count_of(here, braces) == count
}

impl Instances {
    /// None.
    pub fn new(alloc: Global) -> Instances {
        Instances {
            all: Vec::new(alloc),
            by_text: HashMap::new(alloc),
        }
    }

    /// The instance at an index.
    pub fn instance(&self, index: usize) -> Option<Instance> {
        match self.all.get(index) {
            Some(instance) => Some(*instance),
            None => None,
        }
    }

    /// The actual parameter for a name inside an instance; `None` where the name is none of its parameters.
    pub(crate) fn actual(
        &self,
        world: &World<'_>,
        instance: usize,
        name: &str,
    ) -> Result<Option<Actual>, Why> {
        let Some(it) = self.instance(instance) else {
            return Ok(None);
        };
        let Some(assignment) = world.assignment(it.assignment) else {
            return Ok(None);
        };
        let (Some(there), Some(here)) = (
            world.tokens_of(assignment.module),
            world.tokens_of(it.module),
        ) else {
            return Ok(None);
        };
        if it.end.is_some() {
            return Ok(None);
        }
        let Some(parameters) = assignment.parameters else {
            return Ok(None);
        };
        let Some(index) = index_of_parameter(there, parameters, name)? else {
            return Ok(None);
        };
        match actual_at(here, it.braces, index) {
            Some((start, end)) => Ok(Some(Actual {
                module: it.module,
                start,
                end,
                outer: it.outer,
            })),
            None => Err(Why::Parameter),
        }
    }

    /// The index of the instance that a reference asks for, which is another one only where the assignment or what
    /// stands for its parameters is another.
    pub(crate) fn index_for(
        &mut self,
        alloc: Global,
        world: &World<'_>,
        asked: Instance,
    ) -> Result<Result<usize, Why>, AllocError> {
        let key = key_of(alloc, world, asked)?;
        if let Some(index) = self.by_text.get(key.as_str()) {
            return Ok(Ok(*index));
        }
        let level = match asked.outer {
            Some(outer) => match self.instance(outer) {
                Some(outer) => outer.level.saturating_add(1),
                None => 0,
            },
            None => 0,
        };
        let index = self.all.len();
        if level >= MOST_LEVELS || index >= MOST_INSTANCES {
            return Ok(Err(Why::Endless));
        }
        self.all.push(Instance { level, ..asked })?;
        self.by_text.insert(key, index)?;
        Ok(Ok(index))
    }
}

/// Appends the lexical items from one index to before another, each after a space.
fn push_items(
    key: &mut String,
    tokens: &Tokens<'_>,
    from: usize,
    to: usize,
) -> Result<(), AllocError> {
    for at in from..to {
        push_pieces(key, &[" ", tokens.text(at)])?;
    }
    Ok(())
}

/// A text that is the same for references that ask for the same: the assignment, where the reference stands, and the
/// actual parameters, or the place of them where there are many lexical items.
fn key_of(alloc: Global, world: &World<'_>, asked: Instance) -> Result<String, AllocError> {
    let assignment = asked.assignment;
    let module = asked.module;
    let outer = match asked.outer {
        Some(outer) => outer.saturating_add(1),
        None => 0,
    };
    let place = asked.braces;
    if asked.end.is_some() {
        return format!(in alloc; "{module} {outer} in {place}");
    }
    let Some(tokens) = world.tokens_of(asked.module) else {
        return format!(in alloc; "{assignment} {module} {outer}");
    };
    let end = tokens.other(place);
    if end.saturating_sub(place) > MOST_COMPARED {
        return format!(in alloc; "{assignment} {module} {outer} at {place}");
    }
    let mut key = format!(in alloc; "{assignment} {module} {outer}")?;
    push_items(&mut key, tokens, place, end)?;
    Ok(key)
}
