//! What is known when a type is written: all types, the one that is written, and where a node of it stands.
use crate::written::whole_level;
use asn_published_text::nodes::Node;
use asn_published_text::options::Options;
use asn_published_types::building::Forest;
use asn_published_types::info::State;
use asn_published_types::numbers::{Scope, Values};
use asn_published_types::order::Order;
use asn_published_types::pieces::push_pieces;
use asn_published_types::report::Status;
use asn_published_types::subtypes::Subtypes;
use asn_published_types::tags::Tagging;
use std::alloc::{AllocError, Global};

/// What is known of all types.
#[derive(Clone, Copy)]
pub(crate) struct Types<'a> {
    /// Of each type the first node.
    pub firsts: &'a [Option<usize>],
    /// Of each type its name in the profile.
    pub names: &'a [String],
    /// What separates the name of a type from the number of its level.
    pub level_mark: &'a str,
    /// In which cycle of references types lie, and where they contain themselves.
    pub order: &'a Order,
    /// Of each type the status that it has where octets contain it.
    pub statuses: &'a [Status],
}

/// The type that is written.
#[derive(Clone, Copy)]
pub(crate) struct Own<'a> {
    pub entry: usize,
    /// Which of the texts assigns it, on which line, and how many levels of its cycle there are.
    pub file: usize,
    pub line: u32,
    pub level: u32,
    /// The types of its cycle with a level less, and those of its own level.
    pub below: &'a [State],
    pub beside: &'a [State],
}

/// What is known when a type is written.
#[derive(Clone, Copy)]
pub(crate) struct Known<'a, 't> {
    pub values: Values<'a, 't>,
    pub forest: &'a Forest<'t>,
    pub options: Options,
    pub types: Types<'a>,
    pub own: Own<'a>,
}

/// How many characters of a path are enough: a longer one has its last names alone.
const MOST_CHARACTERS: usize = 1000;

/// The names of a node and of those that it stands in, from the inside, as far as a path has them.
fn names_around<'t>(
    alloc: Global,
    forest: &Forest<'t>,
    node: usize,
) -> Result<Vec<&'t str>, AllocError> {
    let mut names = Vec::new(alloc);
    let mut at = node;
    let mut length = 0usize;
    for _ in 0..100 {
        let Some(it) = forest.node(at) else {
            break;
        };
        if !it.name.is_empty() {
            if length > MOST_CHARACTERS {
                break;
            }
            length = length.saturating_add(it.name.len());
            names.push(it.name)?;
        }
        if it.parent == at {
            break;
        }
        at = it.parent;
    }
    Ok(names)
}

/// The path of a node from the type of its assignment: names with dots between, as `header.id`.
pub(crate) fn path_of(
    alloc: Global,
    forest: &Forest<'_>,
    node: usize,
) -> Result<String, AllocError> {
    let names = names_around(alloc, forest, node)?;
    let mut path = String::new(alloc);
    for name in names.iter().rev() {
        let dot = if path.is_empty() { "" } else { "." };
        push_pieces(&mut path, &[dot, *name])?;
    }
    Ok(path)
}

impl<'a, 't> Known<'a, 't> {
    /// The line of a node; that of the type, where the node is in another text.
    pub fn line_of(&self, node: &Node<'t>) -> u32 {
        match self.values.world.modules.get(node.module) {
            Some(module) if module.file == self.own.file => {}
            _ => return self.own.line,
        }
        match self.values.world.tokens_of(node.module) {
            Some(tokens) => tokens.line(node.at),
            None => 0,
        }
    }

    /// Whether a type lies in the cycle of references of the one that is written.
    pub fn is_in_cycle(&self, to: usize) -> bool {
        let cycles = self.types.order.cycles.as_slice();
        match (cycles.get(self.own.entry), cycles.get(to)) {
            (Some(Some(own)), Some(Some(other))) => own == other,
            _ => false,
        }
    }

    /// Whether the type that is written is contained in a type to which it refers: a turn of the recursion, and a level less.
    pub fn is_below(&self, to: usize) -> bool {
        self.is_in_cycle(to) && self.types.order.is_turn(self.own.entry, to)
    }

    /// How many levels of a type there are that is referred to. One that is in no cycle with the type that is written
    /// has all.
    pub fn level_of(&self, to: usize) -> u32 {
        if self.is_below(to) {
            self.own.level.saturating_sub(1)
        } else if self.is_in_cycle(to) {
            self.own.level
        } else {
            whole_level(self.options)
        }
    }

    /// What became of the types that one is of, to which the type that is written refers.
    pub fn states_for(&self, to: usize) -> &'a [State] {
        if self.is_below(to) {
            self.own.below
        } else if self.is_in_cycle(to) {
            self.own.beside
        } else {
            self.values.states
        }
    }

    /// What tags are found in.
    pub fn tagging(&self) -> Tagging<'a, 't> {
        Tagging {
            world: self.values.world,
            forest: self.forest,
            firsts: self.types.firsts,
            numbers: self.values.numbers,
        }
    }

    /// What the constraints of types are read with.
    pub fn subtypes(&self) -> Subtypes<'a, 't> {
        Subtypes {
            values: self.values,
            tagging: self.tagging(),
        }
    }

    /// Where the values of a node's constraints are.
    pub fn scope_of(&self, node: &Node<'t>, named: Option<(usize, usize)>) -> Scope {
        Scope {
            module: node.module,
            named,
            instance: node.instance,
            least: None,
            most: None,
        }
    }
}
