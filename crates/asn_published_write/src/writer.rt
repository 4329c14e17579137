//! Writes the type of an assignment in the notation of the profile, node after node from a stack.
ghost use Rattle.std.specs.Prelude.{IfOk};
ghost use Rattle.asn_published_write.specs.Limits.{IsWithin};

use crate::constraining::Left;
use crate::known::{Known, path_of};
use asn_published_text::nodes::Need;
use asn_published_text::refusal::Refusal;
use asn_published_types::info::{Base, Info};
use asn_published_types::limits::{MOST_LEVELS, MOST_NODES, most_of_all, within};
use asn_published_types::pieces::push_pieces;
use asn_published_types::ranges::Ranges;
use asn_published_types::report::{Note, Remark, Status};
use asn_published_types::steps::Trail;
use asn_published_types::subtypes::Work;
use std::alloc::Global;
use std::collections::HashSet;
use std::fmt::Write;

/// What is still to be written.
#[derive(Clone, Copy)]
pub(crate) enum Task<'t> {
    /// A node, and how many levels down it is.
    Node(usize, usize),
    Text(&'t str),
    /// The name of a component or an alternative.
    Name(&'t str),
    /// The name of an addition group.
    Group(u32),
    /// The need of a component of the root, whose type was written last.
    Need(usize, Need),
    /// The need of one that is OPTIONAL also where it has a DEFAULT.
    Apart(usize, Need),
    /// A remark on the values of a node whose type was written last.
    Mark(usize, Remark),
    /// The end of a list, by the node of its element: whether its size has a mark, and whether it is 0.
    List {
        element: usize,
        marked: bool,
        is_empty: bool,
    },
    /// The end of a type that holds components or alternatives.
    Members,
}

/// Where a type passes the limit of nodes, or of levels: the node, and its line.
#[derive(Clone, Copy)]
pub(crate) struct Passed {
    node: usize,
    line: u32,
    by_nodes: bool,
}

/// What was counted of the types before one: the nodes that were written, and how much of constraints is still read.
#[derive(Clone, Copy)]
pub(crate) struct Spent {
    pub nodes: usize,
    pub work: Work,
}

/// What was counted of a type that is being written.
#[derive(Clone, Copy)]
pub(crate) struct Counts {
    /// The nodes and the levels, those of the types that it refers to with them.
    pub nodes: usize,
    pub depth: usize,
    pub passed: Option<Passed>,
    /// How many nodes were written, of the types before it too.
    pub written: usize,
    /// How much of constraints is still read, of the types behind it too.
    pub work: Work,
    pub selections: u32,
    /// The node that is written, at which a fault is reported.
    pub node: usize,
}

/// The remarks on a type that is being written, and its status.
#[derive(Drop)]
pub(crate) struct Told {
    pub notes: Vec<Note>,
    pub status: Status,
    /// The types that it refers to.
    pub uses: Vec<usize>,
}

/// Of each type that holds the next node, from the outside, and of each list.
#[derive(Drop)]
pub(crate) struct Held {
    /// Whether nothing in the type so far has a bit in PER.
    pub without_bits: Vec<bool>,
    /// What is left of the sizes of the list.
    pub sizes: Vec<Option<Ranges>>,
}

/// A type that is being written.
#[derive(Drop)]
pub(crate) struct Writer<'t> {
    pub out: String,
    pub stack: Vec<Task<'t>>,
    /// The type that was written last.
    pub last: Info,
    pub told: Told,
    pub counts: Counts,
    pub held: Held,
    /// The nodes that are written, and what is not looked at there.
    pub trail: Trail,
    /// The open types whose types are selected.
    pub selected: HashSet<usize>,
}

impl<'t> Writer<'t> {
    /// Nothing of the type is written yet; of other types so much is.
    pub fn new(alloc: Global, spent: Spent) -> Self {
        Writer {
            out: String::new(alloc),
            stack: Vec::new(alloc),
            last: Info::of(Base::Other),
            told: Told {
                notes: Vec::new(alloc),
                status: Status::Same,
                uses: Vec::new(alloc),
            },
            counts: Counts {
                nodes: 0,
                depth: 0,
                passed: None,
                written: spent.nodes,
                work: spent.work,
                selections: 0,
                node: 0,
            },
            held: Held {
                without_bits: Vec::new(alloc),
                sizes: Vec::new(alloc),
            },
            trail: Trail::new(alloc),
            selected: HashSet::new(alloc),
        }
    }

    /// Takes a remark on a node that is written.
    pub fn remark(
        &mut self,
        alloc: Global,
        known: &Known<'_, 't>,
        index: usize,
        remark: Remark,
    ) -> Result<(), Refusal> {
        self.note(alloc, known, index, remark)?;
        Ok(self.trail.mark(index, remark)?)
    }

    /// Takes a remark on a node into the report.
    pub fn note(
        &mut self,
        alloc: Global,
        known: &Known<'_, 't>,
        index: usize,
        remark: Remark,
    ) -> Result<(), Refusal> {
        let Some(node) = known.forest.node(index) else {
            return Ok(());
        };
        let component = path_of(alloc, known.forest, index)?;
        self.told.status = self.told.status.worse(remark.status());
        self.told.notes.push(Note {
            line: known.line_of(&node),
            component,
            remark,
        })?;
        Ok(())
    }

    /// Counts nodes that reach `depth` levels down. Where they pass a limit, the node that is written is the one at
    /// which that is reported, and what is left is counted all the same.
    pub fn count(&mut self, nodes: usize, depth: usize, line: u32) {
        self.counts.nodes = self.counts.nodes.saturating_add(nodes);
        self.counts.depth = self.counts.depth.max(depth);
        let by_nodes = self.counts.nodes > MOST_NODES;
        if self.counts.passed.is_none() && (by_nodes || self.counts.depth > MOST_LEVELS) {
            self.counts.passed = Some(Passed {
                node: self.counts.node,
                line,
                by_nodes,
            });
        }
    }

    /// Takes nodes from those that may be written of all types.
    pub fn take_nodes(
        &mut self,
        known: &Known<'_, 't>,
        nodes: usize,
        line: u32,
    ) -> Result<(), Refusal> {
        let most = most_of_all(known.forest.nodes.len(), known.options.levels);
        self.counts.written = self.counts.written.saturating_add(nodes);
        within(line, "nodes of all types", self.counts.written, most)
    }

    /// A refusal where more nodes or levels were counted than a type may have.
    fn within_limits(&self) -> Result<(), Refusal>
        ensures { IfOk result (λ done. IsWithin self.now.counts.nodes self.now.counts.depth) }
    {
        let (line, by_nodes) = match self.counts.passed {
            Some(passed) => (passed.line, passed.by_nodes),
            None => (0, false),
        };
        if by_nodes {
            within(line, "nodes", self.counts.nodes, MOST_NODES)?;
        }
        within(line, "levels", self.counts.depth, MOST_LEVELS)?;
        within(line, "nodes", self.counts.nodes, MOST_NODES)
    }

    /// Writes the type whose first node this is. Where a limit is passed, the fault has how many nodes or levels the
    /// type has, as far as they can be counted.
    pub fn write_type(
        &mut self,
        alloc: Global,
        known: &Known<'_, 't>,
        first: usize,
    ) -> Result<(), Refusal>
        // A type that is written has no more nodes and levels than the profile allows.
        ensures { IfOk result (λ done. IsWithin self.new.counts.nodes self.new.counts.depth) }
    {
        self.stack.push(Task::Node(first, 1))?;
        self.take_all(alloc, known)?;
        if let Some(passed) = self.counts.passed {
            self.counts.node = passed.node;
        }
        self.within_limits()
    }

    /// Writes all that is still to be written; after a limit was passed, up to the first refusal.
    fn take_all(&mut self, alloc: Global, known: &Known<'_, 't>) -> Result<(), Refusal> {
        for _ in 0..u64::MAX {
            let Some(task) = self.stack.pop() else {
                break;
            };
            if self.counts.passed.is_some() {
                // what is left is counted and not kept
                self.out.clear();
            }
            match self.take(alloc, known, task) {
                Err(Refusal::At { .. }) if self.counts.passed.is_some() => break,
                Err(refusal) => return Err(refusal),
                Ok(()) => {}
            }
        }
        Ok(())
    }

    /// Writes what is next.
    fn take(
        &mut self,
        alloc: Global,
        known: &Known<'_, 't>,
        task: Task<'t>,
    ) -> Result<(), Refusal> {
        match task {
            Task::Node(index, depth) => {
                self.counts.node = index;
                self.write_node(alloc, known, index, depth)
            }
            Task::Text(text) => Ok(self.out.push_str(text)?),
            Task::Name(name) => Ok(push_pieces(&mut self.out, &[" ", name])?),
            Task::Group(number) => Ok(write!(self.out, " ext{number}")?),
            Task::Mark(index, remark) => Ok(self.trail.mark(index, remark)?),
            Task::Need(index, need) => {
                self.take_member_bits(need);
                self.write_need(alloc, known, index, need)
            }
            Task::Apart(index, need) => {
                self.take_member_bits(need);
                self.write_need_apart(alloc, known, index, need)
            }
            Task::List {
                element,
                marked,
                is_empty,
            } => self.end_list(known, element, marked, is_empty),
            Task::Members => {
                self.end_members();
                Ok(())
            }
        }
    }

    /// A remark where the constraints have something that neither encodings show nor is looked at.
    pub fn remark_dropped(
        &mut self,
        alloc: Global,
        known: &Known<'_, 't>,
        index: usize,
        left: &Left,
    ) -> Result<(), Refusal> {
        if left.seen.dropped && left.allowed.is_missing {
            self.remark(alloc, known, index, Remark::Dropped)?;
        }
        Ok(())
    }

    /// Writes whether the component may be absent, whose type was written last.
    fn write_need(
        &mut self,
        alloc: Global,
        known: &Known<'_, 't>,
        index: usize,
        need: Need,
    ) -> Result<(), Refusal> {
        let Need::Default { start, end } = need else {
            return self.write_need_apart(alloc, known, index, need);
        };
        match self.default_text(alloc, known, index, start, end)? {
            Some(text) => Ok(write!(self.out, " DEFAULT {text}")?),
            None => self.write_need_apart(alloc, known, index, need),
        }
    }

    /// Writes whether the component may be absent, whose type was written last: one with a DEFAULT is OPTIONAL, and has any
    /// value but that.
    fn write_need_apart(
        &mut self,
        alloc: Global,
        known: &Known<'_, 't>,
        index: usize,
        need: Need,
    ) -> Result<(), Refusal> {
        match need {
            Need::Must => Ok(()),
            Need::Optional => Ok(self.out.push_str(" OPTIONAL")?),
            Need::Default { start, end } => {
                self.out.push_str(" OPTIONAL")?;
                self.take_default(alloc, known, index, start, end)
            }
        }
    }
}
