//! What the constraints of types are read with, and the constraints of one node.
use crate::allowed::Allowed;
use crate::intervals::EVERY;
use crate::layout::{alternative_named, members_behind};
use crate::numbers::{Scope, Values};
use crate::tags::Tagging;
use asn_constraints::Interval;
use asn_published_text::nodes::{Node, Shape};
use asn_published_text::token::Sign;
use asn_published_text::tokens::next;
use std::alloc::{AllocError, Global};

/// How many names of types are followed to a type that is none.
const MOST_NAMES: u32 = 100;

/// How deep constraints are read: some levels for each parenthesis and each type inside another.
const MOST_LEVELS: u32 = 128;

/// How much is still read of the constraints of all types: short texts can name the same constraints again and again.
#[derive(Clone, Copy)]
pub struct Work {
    left: usize,
}

/// How much is read of the constraints of all types at least, and for each of their nodes.
const MOST_WORK: usize = 1000000;

const FOR_EACH_NODE: usize = 100;

/// How many octets of a string that is read are one piece.
const OCTETS: usize = 8;

impl Work {
    /// What may be read of types that have so many nodes.
    pub fn of(nodes: usize) -> Work {
        Work {
            left: nodes
                .saturating_mul(FOR_EACH_NODE)
                .saturating_add(MOST_WORK),
        }
    }

    /// Takes so many pieces more.
    pub(crate) fn take_more(&mut self, pieces: usize) {
        self.left = self.left.saturating_sub(pieces);
    }

    /// Takes the octets of a string more.
    pub(crate) fn take_octets(&mut self, octets: usize) {
        self.take_more(octets / OCTETS);
    }

    /// Takes one piece of what is left, and returns whether there was one.
    pub(crate) fn take(&mut self) -> bool {
        let is_left = self.left > 0;
        self.left = self.left.saturating_sub(1);
        is_left
    }
}

/// What the constraints of types are read with.
#[derive(Clone, Copy)]
pub struct Subtypes<'a, 't> {
    pub values: Values<'a, 't>,
    pub tagging: Tagging<'a, 't>,
}

/// What a value in a constraint is one of.
#[derive(Clone, Copy, PartialEq, Eq)]
pub(crate) enum Of {
    Values,
    Sizes,
    Letters,
}

/// Where a constraint is, and the node of the type that it constrains.
#[derive(Clone, Copy)]
pub(crate) struct Around {
    pub module: usize,
    pub instance: Option<usize>,
    /// The node of the type, which is no name of another.
    pub base: usize,
    pub of: Of,
    /// Between which numbers and lengths the constraints before it leave values.
    pub numbers: Interval,
    pub lengths: Interval,
}

impl Around {
    /// The place of the constraints of a node.
    pub(crate) fn of(node: &Node<'_>, base: usize) -> Around {
        Around {
            module: node.module,
            instance: node.instance,
            base,
            of: Of::Values,
            numbers: EVERY,
            lengths: EVERY,
        }
    }

    /// The same place, after constraints that allow these values.
    pub(crate) fn after(self, allowed: &Allowed) -> Around {
        Around {
            numbers: hull_within(self.numbers, &allowed.numbers),
            lengths: hull_within(self.lengths, &allowed.lengths),
            ..self
        }
    }

    /// Where numbers are: MIN and MAX mean those that the constraints before leave.
    pub(crate) fn scope(self, named: Option<(usize, usize)>) -> Scope {
        let hull = match self.of {
            Of::Values => self.numbers,
            Of::Sizes => Interval {
                low: self.lengths.low.max(0),
                high: self.lengths.high,
            },
            Of::Letters => EVERY,
        };
        Scope {
            module: self.module,
            named,
            instance: self.instance,
            least: if hull.low == EVERY.low {
                None
            } else {
                Some(hull.low)
            },
            most: if hull.high == EVERY.high {
                None
            } else {
                Some(hull.high)
            },
        }
    }
}

/// The least interval that has the numbers of a set, inside of another interval.
fn hull_within(whole: Interval, set: &Option<Vec<Interval>>) -> Interval {
    match set {
        Some(set) => match (set.first(), set.last()) {
            (Some(first), Some(last)) => Interval {
                low: whole.low.max(first.low),
                high: whole.high.min(last.high),
            },
            _ => whole,
        },
        None => whole,
    }
}

/// Where the constraints of a node begin and end.
fn extent_of(node: &Node<'_>) -> (usize, usize) {
    match node.shape {
        Shape::List { size, size_end, .. } => (size, size_end),
        _ => (node.constraints, node.end),
    }
}

impl<'a, 't> Subtypes<'a, 't> {
    /// The node that a name stands for, or the alternative that a selection does; `None` where the node is a type itself.
    fn named_by(&self, index: usize) -> Option<usize> {
        let node = self.tagging.forest.node(index)?;
        match node.shape {
            Shape::Reference { to } => match self.tagging.firsts.get(to) {
                Some(Some(first)) => Some(*first),
                _ => None,
            },
            Shape::Selection { of, at } => {
                let tokens = self.values.world.tokens_of(node.module)?;
                let choice = members_behind(self.tagging, of)?;
                let member = alternative_named(self.tagging.forest, choice, tokens.text(at))?;
                Some(self.tagging.forest.member(member)?.node)
            }
            _ => None,
        }
    }

    /// The node of the type that a node is, which is no name of another; `None` where it is not found.
    pub(crate) fn base_of(&self, index: usize) -> Option<usize> {
        let mut at = index;
        for _ in 0..MOST_NAMES {
            match self.tagging.forest.node(at)?.shape {
                Shape::Reference { .. } | Shape::Selection { .. } => at = self.named_by(at)?,
                _ => return Some(at),
            }
        }
        None
    }

    /// Whether a node has constraints of its own.
    pub fn is_constrained(&self, index: usize) -> bool {
        match self.tagging.forest.node(index) {
            Some(node) => {
                let (start, end) = extent_of(&node);
                start < end
            }
            None => false,
        }
    }

    /// Which values the constraints of a node allow.
    ///
    /// Those of the types that it names come with these types, and are given in two cases only. A marker that ends them is
    /// no marker of the node's type (X.680, "serial application of constraints"). After a marker that ends those of the
    /// node, each value of its parent may come.
    pub fn allowed_at(
        &self,
        alloc: Global,
        index: usize,
        work: &mut Work,
    ) -> Result<Allowed, AllocError> {
        let own = self.own_of(alloc, index, false, MOST_LEVELS, work)?;
        if !self.is_constrained(index) {
            return Ok(own);
        }
        let is_marked = own.is_marked;
        let mut total = own;
        let mut at = self.named_by(index);
        for _ in 0..MOST_NAMES {
            let Some(name) = at else {
                break;
            };
            let root = self.own_of(alloc, name, true, MOST_LEVELS, work)?;
            if is_marked || root.is_marked {
                total = total.and(alloc, root)?;
            }
            at = self.named_by(name);
        }
        Ok(total)
    }

    /// Which values the constraints of a node allow and those of the types that it names.
    pub fn allowed_with_names(
        &self,
        alloc: Global,
        index: usize,
        work: &mut Work,
    ) -> Result<Allowed, AllocError> {
        let own = self.own_of(alloc, index, false, MOST_LEVELS, work)?;
        match self.named_by(index) {
            Some(name) => {
                let names = self.whole_of(alloc, name, MOST_LEVELS, work)?;
                own.and(alloc, names)
            }
            None => Ok(own),
        }
    }

    /// Whether a node has numbers or lengths.
    pub(crate) fn is_simple(&self, base: usize) -> bool {
        match self.tagging.forest.node(base) {
            Some(node) => !matches!(node.shape, Shape::Members { .. }),
            None => false,
        }
    }

    /// Which values the constraints of a node allow and those of the types that it names, without what a marker adds.
    #[cycle(allowed)]
    pub(crate) fn whole_of(
        &self,
        alloc: Global,
        index: usize,
        levels: u32,
        work: &mut Work,
    ) -> Result<Allowed, AllocError> {
        if levels == 0 || !work.take() {
            return Ok(Allowed::missing());
        }
        let mut total = Allowed::all();
        let mut at = index;
        for _ in 0..MOST_NAMES {
            let own = self.own_of(alloc, at, true, levels - 1, work)?;
            total = total.and(alloc, own)?;
            match self.named_by(at) {
                Some(name) => at = name,
                None => break,
            }
        }
        Ok(total)
    }

    /// The place of the constraints of a node, after those of the type that it names.
    #[cycle(allowed)]
    fn place_in(
        &self,
        alloc: Global,
        index: usize,
        node: &Node<'t>,
        base: usize,
        levels: u32,
        work: &mut Work,
    ) -> Result<Around, AllocError> {
        let around = Around::of(node, base);
        match self.named_by(index) {
            Some(name) if levels > 0 && self.is_simple(base) => {
                let parent = self.whole_of(alloc, name, levels - 1, work)?;
                Ok(around.after(&parent))
            }
            _ => Ok(around),
        }
    }

    /// Which values the constraints of a node allow: one with a marker, if it is the last, allows every value of its
    /// parent, unless the root is asked for.
    #[cycle(allowed)]
    fn own_of(
        &self,
        alloc: Global,
        index: usize,
        is_root: bool,
        levels: u32,
        work: &mut Work,
    ) -> Result<Allowed, AllocError> {
        let Some(node) = self.tagging.forest.node(index) else {
            return Ok(Allowed::missing());
        };
        let (start, end) = extent_of(&node);
        if start >= end {
            return Ok(Allowed::all());
        }
        let (Some(base), Some(tokens)) = (
            self.base_of(index),
            self.values.world.tokens_of(node.module),
        ) else {
            return Ok(Allowed::missing());
        };
        if levels == 0 || !work.take() {
            return Ok(Allowed::missing());
        }
        let mut around = self.place_in(alloc, index, &node, base, levels - 1, work)?;
        let mut total = Allowed::all();
        let mut is_marked = false;
        let mut at = start;
        for _ in 0..tokens.len() {
            if at >= end {
                break;
            }
            if tokens.is(at, Sign::Becomes) {
                // a value set
                at = next(at);
            }
            let is_size = tokens.is_word(at, "SIZE");
            let one = if is_size {
                self.set_of(alloc, around, at, end, levels - 1, work)?
            } else {
                self.group_of(alloc, around, at, levels - 1, work)?
            };
            at = if is_size { end } else { tokens.after(at) };
            around = around.after(&one);
            is_marked = one.is_marked && at >= end;
            if is_root || !is_marked {
                total = total.and(alloc, one)?;
            }
        }
        total.is_marked = is_marked;
        Ok(total)
    }
}
