//! The types that octets contain (X.682, "contents constraint").
use crate::allowed::Allowed;
use crate::building::Forest;
use crate::elements::Element;
use crate::instances::{Instance, are_as_many};
use crate::subtypes::{Around, Subtypes};
use asn_contents::Contents;
use asn_published_text::extents::type_end;
use asn_published_text::modules::{What, World};
use asn_published_text::nodes::{Node, Shape};
use asn_published_text::token::Sign;
use asn_published_text::tokens::{Tokens, next};
use asn_published_text::words::is_type_word;
use std::alloc::{AllocError, Global};

/// How many dummy parameters are followed to the actual ones.
const MOST_NAMES: u32 = 100;

/// Where the word CONTAINING is: the module, its index there, and the instance whose parameters are known.
#[derive(Clone, Copy, PartialEq, Eq, Hash)]
pub(crate) struct ContentPlace {
    pub module: usize,
    pub at: usize,
    pub instance: Option<usize>,
}

/// A type that is written from an index of a module to before another.
#[derive(Clone, Copy)]
pub(crate) struct Written {
    pub module: usize,
    pub start: usize,
    pub end: usize,
    pub instance: Option<usize>,
}

impl<'t> Forest<'t> {
    /// The type that octets contain whose constraint has CONTAINING at a place, by its index among all types; `None`
    /// where it is not known.
    pub(crate) fn contained_at(
        &self,
        module: usize,
        at: usize,
        instance: Option<usize>,
    ) -> Option<usize> {
        let place = ContentPlace {
            module,
            at,
            instance,
        };
        match self.contained.get(&place) {
            Some(to) => Some(*to),
            None => None,
        }
    }

    /// The root of a type: of one that is written in a constraint, its own lexical items.
    pub(crate) fn written_in_place(&self, root: Node<'t>) -> Node<'t> {
        let Some(index) = root.instance else {
            return root;
        };
        match self.instances.instance(index) {
            Some(
                Instance {
                    module,
                    braces,
                    outer,
                    end: Some(end),
                    ..
                },
            ) => Node {
                module,
                at: braces,
                constraints: end,
                end,
                instance: outer,
                ..root
            },
            _ => root,
        }
    }

    /// Adds a node for each type that the constraints of a node name after CONTAINING.
    pub(crate) fn take_contents(
        &mut self,
        alloc: Global,
        world: &World<'t>,
        tokens: &Tokens<'t>,
        index: usize,
    ) -> Result<(), AllocError> {
        let Some(node) = self.node(index) else {
            return Ok(());
        };
        let mut at = node.constraints;
        for _ in 0..tokens.len() {
            if at >= node.end {
                break;
            }
            let start = next(at);
            let end = match content_end(tokens, at) {
                Some(end) if end <= node.end => end,
                _ => {
                    at = start;
                    continue;
                }
            };
            let written = Written {
                module: node.module,
                start,
                end,
                instance: node.instance,
            };
            self.take_content(alloc, world, node, index, at, written)?;
            at = end;
        }
        Ok(())
    }

    /// Adds a node for the type that octets contain, where it is one.
    fn take_content(
        &mut self,
        alloc: Global,
        world: &World<'t>,
        node: Node<'t>,
        index: usize,
        at: usize,
        written: Written,
    ) -> Result<(), AllocError> {
        let Some(to) = self.entry_of(alloc, world, written)? else {
            return Ok(());
        };
        let place = ContentPlace {
            module: node.module,
            at,
            instance: node.instance,
        };
        self.contained.insert(place, to)?;
        self.nodes.push(Node {
            shape: Shape::Contained { to },
            parent: index,
            ..node
        })?;
        Ok(())
    }

    /// The index among all types of one that is written in a constraint; `None` where it is no type.
    pub(crate) fn entry_of(
        &mut self,
        alloc: Global,
        world: &World<'t>,
        written: Written,
    ) -> Result<Option<usize>, AllocError> {
        let mut written = written;
        for _ in 0..MOST_NAMES {
            let Some(tokens) = world.tokens_of(written.module) else {
                return Ok(None);
            };
            let name = tokens.text(written.start);
            let Some(instance) = written.instance else {
                return self.entry_named(alloc, world, tokens, written);
            };
            match self.instances.actual(world, instance, name) {
                Ok(None) => return self.entry_named(alloc, world, tokens, written),
                Ok(Some(actual)) if next(written.start) == written.end => {
                    written = Written {
                        module: actual.module,
                        start: actual.start,
                        end: actual.end,
                        instance: actual.outer,
                    };
                }
                _ => return Ok(None),
            }
        }
        Ok(None)
    }

    /// The same of a type whose first name is no parameter.
    fn entry_named(
        &mut self,
        alloc: Global,
        world: &World<'t>,
        tokens: &Tokens<'t>,
        written: Written,
    ) -> Result<Option<usize>, AllocError> {
        match world.reference_at(written.module, written.start) {
            Ok((to, behind)) => self.entry_assigned(alloc, world, tokens, written, to, behind),
            Err(_) if is_type_begun(tokens, written.start) => {
                self.entry_in_place(alloc, world, written)
            }
            Err(_) => Ok(None),
        }
    }

    /// The same of a type that begins with the name of an assignment, behind which an index is.
    fn entry_assigned(
        &mut self,
        alloc: Global,
        world: &World<'t>,
        tokens: &Tokens<'t>,
        written: Written,
        to: usize,
        behind: usize,
    ) -> Result<Option<usize>, AllocError> {
        let assignment = match world.assignment(to) {
            Some(it) if it.what == What::Type => it,
            _ => return Ok(None),
        };
        let Some(parameters) = assignment.parameters else {
            return if behind == written.end {
                Ok(Some(to))
            } else {
                self.entry_in_place(alloc, world, written)
            };
        };
        let there = world.tokens_of(assignment.module);
        let is_whole = tokens.is(behind, Sign::LeftBrace)
            && tokens.after(behind) == written.end
            && are_as_many(tokens, behind, there, parameters);
        if !is_whole {
            return self.entry_in_place(alloc, world, written);
        }
        let asked = Instance {
            assignment: to,
            module: written.module,
            braces: behind,
            outer: written.instance,
            level: 0,
            end: None,
        };
        self.entry_of_instance(alloc, world, asked)
    }

    /// The same of a type that is written in place: it is counted among the instances.
    fn entry_in_place(
        &mut self,
        alloc: Global,
        world: &World<'t>,
        written: Written,
    ) -> Result<Option<usize>, AllocError> {
        let asked = Instance {
            assignment: self.assignment,
            module: written.module,
            braces: written.start,
            outer: written.instance,
            level: 0,
            end: Some(written.end),
        };
        self.entry_of_instance(alloc, world, asked)
    }

    /// The same of an instance.
    fn entry_of_instance(
        &mut self,
        alloc: Global,
        world: &World<'t>,
        asked: Instance,
    ) -> Result<Option<usize>, AllocError> {
        match self.instances.index_for(alloc, world, asked)? {
            Ok(index) => Ok(Some(world.assignments.len().saturating_add(index))),
            Err(_) => Ok(None),
        }
    }
}

impl<'a, 't> Subtypes<'a, 't> {
    /// What CONTAINING at `at` allows of octets, and the index after it; `None` where it is not looked at, as with ENCODED BY.
    pub(crate) fn containing_of(&self, around: Around, at: usize) -> Element {
        let tokens = self.values.world.tokens_of(around.module)?;
        let behind = content_end(tokens, at)?;
        if tokens.is_word(behind, "ENCODED") {
            return None;
        }
        match self.tagging.forest.node(around.base)?.shape {
            Shape::Octets => {}
            _ => return None,
        }
        let to = self
            .tagging
            .forest
            .contained_at(around.module, at, around.instance)?;
        Some((Allowed::containing(Contents::Octets(to)), behind))
    }
}

/// The index after the type that CONTAINING names at `at`; `None` where there is no such word.
pub(crate) fn content_end(tokens: &Tokens<'_>, at: usize) -> Option<usize> {
    if tokens.is_word(at, "CONTAINING") {
        type_end(tokens, next(at)).ok()
    } else {
        None
    }
}

/// Whether a type of words of its own begins at `at`.
fn is_type_begun(tokens: &Tokens<'_>, at: usize) -> bool {
    tokens.is_bracket(at) || is_type_word(tokens.text(at))
}
