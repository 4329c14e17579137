//! Builds the nodes of a type: one after the other from a stack, however deep they are nested.
use crate::containing::ContentPlace;
use crate::expansion::Expansion;
use crate::instances::Instances;
use crate::selecting::Table;
use asn_published_text::extents::{Rest, after_constraints, after_tags, rest_of};
use asn_published_text::instructions::has_own_instruction;
use asn_published_text::modules::World;
use asn_published_text::nodes::{Holder, Member, Node, Shape};
use asn_published_text::refusal::Why;
use asn_published_text::tokens::{Tokens, next};
use asn_published_text::wrong::TextFault;
use std::alloc::Global;
use std::collections::HashMap;

/// The nodes of all types, their members, and the instances of parameterized assignments.
#[derive(Drop)]
pub struct Forest<'t> {
    pub nodes: Vec<Node<'t>>,
    pub members: Vec<Member<'t>>,
    pub instances: Instances,
    /// The types that octets contain, where CONTAINING is.
    pub(crate) contained: HashMap<ContentPlace, usize>,
    /// The tables of components, by their nodes.
    pub(crate) tables: HashMap<usize, Table<'t>>,
    /// How many elements of sets were looked at for them.
    pub(crate) elements: u32,
    /// The assignment whose type is built.
    pub(crate) assignment: usize,
    expansion: Expansion,
}

/// A node that is to be built.
#[derive(Clone, Copy)]
pub(crate) struct Task {
    pub node: usize,
    /// The node is an addition group, from `at` to before `end`.
    pub is_group: bool,
}

/// Whether instructions of PER or OER say how the values of a node are encoded.
fn is_instructed(world: &World<'_>, tokens: &Tokens<'_>, node: &Node<'_>) -> bool {
    let by_module = match world.modules.get(node.module) {
        Some(module) => module.is_instructed,
        None => false,
    };
    by_module || has_own_instruction(tokens, node.at)
}

impl<'t> Forest<'t> {
    /// No node.
    pub fn new(alloc: Global) -> Self {
        Forest {
            nodes: Vec::new(alloc),
            members: Vec::new(alloc),
            instances: Instances::new(alloc),
            contained: HashMap::new(alloc),
            tables: HashMap::new(alloc),
            elements: 0,
            assignment: 0,
            expansion: Expansion::none(),
        }
    }

    /// The node at an index.
    pub fn node(&self, index: usize) -> Option<Node<'t>> {
        match self.nodes.get(index) {
            Some(node) => Some(*node),
            None => None,
        }
    }

    /// The member at an index.
    pub fn member(&self, index: usize) -> Option<Member<'t>> {
        match self.members.get(index) {
            Some(member) => Some(*member),
            None => None,
        }
    }

    /// Builds the nodes of the type of an assignment, inside an instance where it has parameters, and gives the index
    /// of the first.
    pub fn add(
        &mut self,
        alloc: Global,
        world: &World<'t>,
        assignment: usize,
        instance: Option<usize>,
    ) -> Result<usize, TextFault> {
        let first = self.nodes.len();
        let Some(it) = world.assignment(assignment) else {
            return Ok(first);
        };
        self.assignment = assignment;
        let room = self.expansion.room(world, it, instance.is_some());
        let root = Node {
            shape: Shape::Refused(Why::NoType),
            module: it.module,
            at: it.start,
            constraints: it.end,
            end: it.end,
            parent: first,
            name: "",
            instance,
            tag: None,
            is_field: false,
            is_constrained: false,
        };
        let root = self.written_in_place(root);
        let end = root.end;
        self.nodes.push(root)?;
        let members = self.members.len();
        let is_built = self.build_within(alloc, world, first, room.nodes)?;
        self.expansion
            .take(self.nodes.len().saturating_sub(first), room);
        if !is_built {
            self.forget_tables(first);
            self.members.truncate(members);
            self.nodes.truncate(next(first));
            self.settle(first, Shape::Refused(Why::Expanded(room.most)), end);
        }
        Ok(first)
    }

    /// Builds all that the first node of a type holds, and says whether that is done: not where it comes to more than
    /// `most` nodes.
    fn build_within(
        &mut self,
        alloc: Global,
        world: &World<'t>,
        first: usize,
        most: usize,
    ) -> Result<bool, TextFault> {
        let mut todo = Vec::new(alloc);
        todo.push(Task {
            node: first,
            is_group: false,
        })?;
        for _ in 0..u64::MAX {
            if self.nodes.len().saturating_sub(first) > most {
                return Ok(false);
            }
            let Some(task) = todo.pop() else {
                break;
            };
            self.build(alloc, world, &mut todo, task)?;
        }
        Ok(true)
    }

    /// Builds one node, and asks for those that it holds.
    fn build(
        &mut self,
        alloc: Global,
        world: &World<'t>,
        todo: &mut Vec<Task>,
        task: Task,
    ) -> Result<(), TextFault> {
        let Some(node) = self.node(task.node) else {
            return Ok(());
        };
        let Some(tokens) = world.tokens_of(node.module) else {
            return Ok(());
        };
        if task.is_group {
            return self.build_group(tokens, todo, task.node, &node);
        }
        if is_instructed(world, tokens, &node) {
            let why = Why::Kind("a type with encoding instructions of PER or OER");
            self.settle(task.node, Shape::Refused(why), node.end);
            return Ok(());
        }
        let at = after_tags(tokens, node.at);
        match rest_of(tokens, at)? {
            Rest::Type(inner) if tokens.is_capital(at) => {
                let shape = self.list_of(tokens, todo, task.node, at, inner)?;
                self.settle(task.node, shape, node.end);
                Ok(())
            }
            Rest::Type(inner) => {
                let of = self.child(todo, task.node, "", inner, node.end, false)?;
                self.settle(task.node, Shape::Selection { of, at }, node.end);
                Ok(())
            }
            Rest::Constraints(constraints) => {
                self.build_other(alloc, world, tokens, todo, (task.node, at, constraints))
            }
        }
    }

    /// Builds the members of an addition group.
    fn build_group(
        &mut self,
        tokens: &Tokens<'t>,
        todo: &mut Vec<Task>,
        index: usize,
        node: &Node<'t>,
    ) -> Result<(), TextFault> {
        let shape = self.members_of(tokens, todo, index, Holder::Sequence, node.at, node.end)?;
        if matches!(shape, Shape::Members { tagged: true, .. }) {
            self.take_tag(node.parent);
        }
        self.settle(index, shape, node.end);
        Ok(())
    }

    /// Takes that a member in a group of a node has a tag that is written.
    fn take_tag(&mut self, holder: usize) {
        if let Some(node) = self.nodes.get_mut(holder) {
            if let Shape::Members {
                holder,
                from,
                to,
                marked,
                tagged: _,
            } = node.shape
            {
                node.shape = Shape::Members {
                    holder,
                    from,
                    to,
                    marked,
                    tagged: true,
                };
            }
        }
    }

    /// Builds a node of a type that begins with a word or a name: its index, where the type stands, and where its
    /// constraints do.
    fn build_other(
        &mut self,
        alloc: Global,
        world: &World<'t>,
        tokens: &Tokens<'t>,
        todo: &mut Vec<Task>,
        place: (usize, usize, usize),
    ) -> Result<(), TextFault> {
        let (index, at, constraints) = place;
        self.settle(index, Shape::Refused(Why::NoType), constraints);
        let Some(shape) = self.shape_at(alloc, world, tokens, todo, index, at)? else {
            return Ok(());
        };
        self.settle(index, shape, constraints);
        self.contained_types(world, tokens, index)?;
        Ok(self.take_contents(alloc, world, tokens, index)?)
    }

    /// Gives a node its shape, and the index of its constraints.
    fn settle(&mut self, index: usize, shape: Shape, constraints: usize) {
        if let Some(node) = self.nodes.get_mut(index) {
            node.shape = shape;
            node.constraints = constraints;
        }
    }

    /// A node that is to be built, from `at` to before `end`.
    pub(crate) fn child(
        &mut self,
        todo: &mut Vec<Task>,
        parent: usize,
        name: &'t str,
        at: usize,
        end: usize,
        is_group: bool,
    ) -> Result<usize, TextFault> {
        let index = self.nodes.len();
        let Some(above) = self.node(parent) else {
            return Ok(index);
        };
        self.nodes.push(Node {
            shape: Shape::Refused(Why::NoType),
            module: above.module,
            at,
            constraints: end,
            end,
            parent,
            name,
            instance: above.instance,
            tag: None,
            is_field: false,
            is_constrained: false,
        })?;
        todo.push(Task {
            node: index,
            is_group,
        })?;
        Ok(index)
    }

    /// SEQUENCE OF or SET OF at `at`, with its element at `inner`.
    fn list_of(
        &mut self,
        tokens: &Tokens<'t>,
        todo: &mut Vec<Task>,
        node: usize,
        at: usize,
        inner: usize,
    ) -> Result<Shape, TextFault> {
        let Some(list) = self.node(node) else {
            return Ok(Shape::Refused(Why::NoType));
        };
        // the constraints after the element are its own
        let element = self.child(todo, node, "", inner, list.end, false)?;
        if tokens.is_word(at, "SET") {
            return Ok(Shape::Refused(Why::SetOf));
        }
        let size = next(at);
        let size_end = if tokens.is_word(size, "SIZE") {
            tokens.after(next(size))
        } else {
            after_constraints(tokens, size)
        };
        Ok(Shape::List {
            element,
            size,
            size_end,
        })
    }
}
