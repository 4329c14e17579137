//! The nodes of a type as it is written, in the order of its text, each with its constraint and with what is not looked at
//! there.
use crate::joining::both;
use crate::report::Remark;
use asn_constraints::Constraint;
use asn_contents::{Contents, both_contents, is_nowhere};
use std::alloc::{AllocError, Global};
use std::mem;

/// What a node holds.
#[derive(Clone, Copy, PartialEq, Eq)]
pub enum Holds {
    Nothing,
    Components,
    Element,
    Alternatives,
}

/// A node of a type that is written.
#[derive(Drop)]
pub struct Step {
    /// How many levels down it is; the type itself is on level 1.
    pub depth: usize,
    /// The index after the last node inside it.
    pub end: usize,
    /// What is to be said of its values.
    pub remarks: Vec<Remark>,
    /// Which of its values the published type has, as far as no encoding shows it.
    pub constraint: Constraint,
    /// Which octets of its values are encodings, by the index of their type among all types.
    pub contents: Contents,
    /// Whether the constraint has that of the type that it names.
    pub is_whole: bool,
    pub holds: Holds,
    /// The type that it names, by its index among those that are written.
    pub to: Option<usize>,
    /// Whether recursion ends there.
    pub is_bottom: bool,
    /// Whether nothing is to be said of its values, nor of what they hold.
    pub is_clean: bool,
    /// Whether neither its values nor what they hold have a constraint, or octets that are encodings.
    pub is_free: bool,
}

/// A type that is written: no nodes, where its values have no constraint, and nothing is to be said of them.
#[derive(Drop)]
pub struct Marked {
    pub steps: Vec<Step>,
    /// Whether recursion ends in it, or in a type that it leads to.
    pub has_bottom: bool,
}

/// Whether a remark is about values that are taken: others say what is refused, or speak of other types.
fn is_of_values(remark: Remark) -> bool {
    !matches!(
        remark,
        Remark::Level | Remark::Unbounded | Remark::Holds(_) | Remark::Refused(_)
    )
}

impl Marked {
    /// Whether something is to be said of its values.
    pub fn is_marked(&self) -> bool {
        match self.steps.first() {
            Some(step) => !step.is_clean,
            None => false,
        }
    }

    /// Whether its values have a constraint, or octets that are encodings.
    pub fn is_constrained(&self) -> bool {
        match self.steps.first() {
            Some(step) => !step.is_free,
            None => false,
        }
    }
}

/// Whether a type among those that are written has nodes of which something is to be said.
fn is_marked(types: &[Marked], index: usize) -> bool {
    match types.get(index) {
        Some(one) => one.is_marked(),
        None => false,
    }
}

/// Whether a type among those that are written has values with a constraint.
fn is_constrained(types: &[Marked], index: usize) -> bool {
    match types.get(index) {
        Some(one) => one.is_constrained(),
        None => false,
    }
}

/// Whether recursion ends in a type among those that are written.
fn ends_in(types: &[Marked], index: usize) -> bool {
    match types.get(index) {
        Some(one) => one.has_bottom,
        None => false,
    }
}

/// The nodes of a type that is being written.
#[derive(Drop)]
pub struct Trail {
    steps: Vec<Step>,
    /// Of each the node that is written, and the one that selected it, which is itself where none did.
    nodes: Vec<(usize, usize)>,
    /// Whether the last node selects one that is still to come.
    is_selecting: bool,
}

impl Trail {
    /// No node.
    pub fn new(alloc: Global) -> Trail {
        Trail {
            steps: Vec::new(alloc),
            nodes: Vec::new(alloc),
            is_selecting: false,
        }
    }

    /// The nodes that were written.
    pub fn steps(&self) -> &[Step] {
        self.steps.as_slice()
    }

    /// Takes the node that is written next. One that the last selects takes its place.
    pub fn enter(&mut self, alloc: Global, node: usize, depth: usize) -> Result<(), AllocError> {
        if self.is_selecting {
            self.is_selecting = false;
            if let Some(place) = self.nodes.last_mut() {
                *place = (node, place.1);
            }
            return Ok(());
        }
        self.nodes.push((node, node))?;
        self.steps.push(Step {
            depth,
            end: 0,
            remarks: Vec::new(alloc),
            constraint: Constraint::Free,
            contents: Contents::Nowhere,
            is_whole: false,
            holds: Holds::Nothing,
            to: None,
            is_bottom: false,
            is_clean: true,
            is_free: true,
        })?;
        Ok(())
    }

    /// Takes that the last node selects the next one.
    pub fn select(&mut self) {
        self.is_selecting = true;
    }

    /// Takes that the last node names a type, by its index among those that are written.
    pub fn refer(&mut self, to: usize) {
        if let Some(step) = self.steps.last_mut() {
            step.to = Some(to);
        }
    }

    /// Takes that recursion ends in the last node.
    pub fn end_recursion(&mut self) {
        if let Some(step) = self.steps.last_mut() {
            step.is_bottom = true;
        }
    }

    /// Takes what the last node holds.
    pub fn hold(&mut self, holds: Holds) {
        if let Some(step) = self.steps.last_mut() {
            step.holds = holds;
        }
    }

    /// Takes that the constraint of the last node has that of the type that it names.
    pub fn take_whole(&mut self) {
        if let Some(step) = self.steps.last_mut() {
            step.is_whole = true;
        }
    }

    /// Takes a constraint on the values of a node that was written.
    pub fn constrain(
        &mut self,
        alloc: Global,
        node: usize,
        constraint: Constraint,
    ) -> Result<(), AllocError> {
        let Some(at) = self.place_of(node) else {
            return Ok(());
        };
        match self.steps.get_mut(at) {
            Some(step) => {
                let before = mem::replace(&mut step.constraint, Constraint::Free);
                step.constraint = both(alloc, before, constraint)?;
                Ok(())
            }
            None => Ok(()),
        }
    }

    /// Takes that octets of the values of a node that was written are encodings.
    pub fn contain(
        &mut self,
        alloc: Global,
        node: usize,
        contents: Contents,
    ) -> Result<(), AllocError> {
        let Some(at) = self.place_of(node) else {
            return Ok(());
        };
        match self.steps.get_mut(at) {
            Some(step) => {
                let before = mem::replace(&mut step.contents, Contents::Nowhere);
                step.contents = both_contents(alloc, before, contents)?;
                Ok(())
            }
            None => Ok(()),
        }
    }

    /// Takes a remark on a node that was written.
    pub fn mark(&mut self, node: usize, remark: Remark) -> Result<(), AllocError> {
        if !is_of_values(remark) {
            return Ok(());
        }
        let Some(at) = self.place_of(node) else {
            return Ok(());
        };
        match self.steps.get_mut(at) {
            Some(step) => Ok(step.remarks.push(remark)?),
            None => Ok(()),
        }
    }

    /// Where a node was written last.
    fn place_of(&self, node: usize) -> Option<usize> {
        let mut at = self.nodes.len();
        for (written, selecting) in self.nodes.iter().rev() {
            at = at.saturating_sub(1);
            if *written == node || *selecting == node {
                return Some(at);
            }
        }
        None
    }

    /// The type that was written, `types` being those before it.
    pub fn finish(self, alloc: Global, types: &[Marked]) -> Marked {
        let Trail { mut steps, .. } = self;
        let mut has_bottom = false;
        for step in &steps {
            has_bottom |= step.is_bottom;
            if let Some(to) = step.to {
                has_bottom |= ends_in(types, to);
            }
        }
        close(&mut steps, types);
        let is_needless = match steps.first() {
            Some(step) => step.is_clean && step.is_free,
            None => true,
        };
        Marked {
            steps: if is_needless { Vec::new(alloc) } else { steps },
            has_bottom,
        }
    }
}

/// What is known of a node once the nodes after it are known.
#[derive(Clone, Copy)]
struct Ending {
    end: usize,
    is_clean: bool,
    is_free: bool,
}

/// Gives each node its end, and whether it has no remark and no constraint, with what it holds.
fn close(steps: &mut Vec<Step>, types: &[Marked]) {
    let mut index = steps.len();
    for _ in 0..steps.len() {
        index = index.saturating_sub(1);
        let ending = ending_of(steps.as_slice(), index, types);
        if let Some(step) = steps.get_mut(index) {
            step.end = ending.end;
            step.is_clean = ending.is_clean;
            step.is_free = ending.is_free;
        }
    }
}

/// What is known of a node, where those after it are known.
fn ending_of(steps: &[Step], index: usize, types: &[Marked]) -> Ending {
    let Some(step) = steps.get(index) else {
        return Ending {
            end: index,
            is_clean: true,
            is_free: true,
        };
    };
    let mut is_clean = step.remarks.is_empty() && !step.is_bottom;
    let mut is_free = matches!(&step.constraint, Constraint::Free) && is_nowhere(&step.contents);
    if let Some(to) = step.to {
        is_clean &= !is_marked(types, to);
        is_free &= step.is_whole || !is_constrained(types, to);
    }
    let mut at = index.saturating_add(1);
    for _ in index..steps.len() {
        match steps.get(at) {
            Some(inner) if inner.depth > step.depth => {
                is_clean &= inner.is_clean;
                is_free &= inner.is_free;
                at = inner.end;
            }
            _ => break,
        }
    }
    Ending {
        end: at,
        is_clean,
        is_free,
    }
}
