//! Writes SEQUENCE, SET and CHOICE: their members in the order that the profile has.
use crate::known::Known;
use crate::writer::{Task, Writer};
use crate::writing::is_extensible;
use asn_constraints::Constraint;
use asn_published_text::extents::after_tags;
use asn_published_text::nodes::{Holder, Member, MemberKind, Need, Node, Shape};
use asn_published_text::refusal::{Refusal, Why, refused};
use asn_published_types::layout::{Layout, Placed, TagOrder, layout_of, sort_by_tags};
use asn_published_types::limits::{MOST_ADDITIONS, MOST_COMPONENTS};
use asn_published_types::report::Remark;
use asn_published_types::steps::Holds;
use asn_published_types::tags::is_automatic;
use std::alloc::Global;

/// A SEQUENCE, SET, CHOICE or group that is written.
#[derive(Clone, Copy)]
struct Members {
    index: usize,
    holder: Holder,
    is_marked: bool,
    /// It is a group that may have no component.
    may_be_empty: bool,
    /// How many levels down its members are.
    depth: usize,
}

impl<'t> Writer<'t> {
    /// Writes the beginning of SEQUENCE or CHOICE, and asks for its members.
    pub fn write_members(
        &mut self,
        alloc: Global,
        known: &Known<'_, 't>,
        index: usize,
        node: &Node<'t>,
        depth: usize,
    ) -> Result<(), Refusal> {
        let Shape::Members {
            holder,
            from,
            to,
            marked,
            tagged,
        } = node.shape
        else {
            return Ok(());
        };
        self.take_allowed(alloc, known, index)?;
        let layout = self.layout_of_node(alloc, known, node, holder, (from, to))?;
        let layout = self.in_order(alloc, known, index, node, holder, tagged, layout)?;
        let is_group = is_group(known, node);
        let may_be_empty = is_group && layout.may_be_empty(known.forest);
        if may_be_empty {
            // (without components it is absent)
            self.trail.constrain(alloc, index, Constraint::SomePresent)?;
        }
        if holder != Holder::Choice {
            self.take_selections(alloc, known, index, &layout)?;
        }
        self.trail.hold(if holder == Holder::Choice {
            Holds::Alternatives
        } else {
            Holds::Components
        });
        let is_marked = marked || (is_extensible(known, node) && !is_group);
        // a CHOICE of more than one alternative has an index
        let is_single = holder != Holder::Choice || layout.root.len() == 1;
        self.held.without_bits.push(!is_marked && is_single)?;
        let written = Members {
            index,
            holder,
            is_marked,
            may_be_empty,
            depth: depth.saturating_add(1),
        };
        let mut tasks = Vec::new(alloc);
        self.push_members(alloc, known, &mut tasks, written, &layout)?;
        self.ask_for(tasks.as_slice())
    }

    /// The members of a node, where the profile takes them; `written` are those that stand in it, from one index to
    /// before another.
    fn layout_of_node(
        &mut self,
        alloc: Global,
        known: &Known<'_, 't>,
        node: &Node<'t>,
        holder: Holder,
        written: (usize, usize),
    ) -> Result<Layout, Refusal> {
        let line = known.line_of(node);
        let layout = layout_of(alloc, known.tagging(), written, line)?;
        if layout.len() > MOST_COMPONENTS + MOST_ADDITIONS {
            // too many, and each of them was looked at
            self.take_nodes(known, layout.len(), line)?;
        }
        if holder == Holder::Choice && layout.root.is_empty() {
            return Err(refused(line, Why::NoRoot));
        }
        self.check_members(alloc, known, &layout, holder)?;
        Ok(layout)
    }

    /// Asks for tasks, which are done in their order.
    fn ask_for(&mut self, tasks: &[Task<'t>]) -> Result<(), Refusal> {
        for task in tasks.iter().rev() {
            self.stack.push(*task)?;
        }
        Ok(())
    }

    /// The members of a SET or CHOICE in the order of their tags, those of a SEQUENCE as they are: a refusal where tags
    /// are not known, and a remark where OER tells alternatives apart by other tags.
    fn in_order(
        &mut self,
        alloc: Global,
        known: &Known<'_, 't>,
        index: usize,
        node: &Node<'t>,
        holder: Holder,
        tagged: bool,
        layout: Layout,
    ) -> Result<Layout, Refusal> {
        let world = known.values.world;
        if holder == Holder::Sequence || is_automatic(world, node.module, tagged) {
            return Ok(layout);
        }
        let mut layout = layout;
        match sort_by_tags(alloc, known.tagging(), &mut layout)? {
            TagOrder::Others if holder == Holder::Choice => {
                self.remark(alloc, known, index, Remark::OerTags)?;
            }
            TagOrder::Unknown => return Err(refused(known.line_of(node), Why::Tags)),
            TagOrder::Twice => return Err(refused(known.line_of(node), Why::TagTaken)),
            _ => {}
        }
        Ok(layout)
    }

    /// What is to be written of members, in order.
    fn push_members(
        &mut self,
        alloc: Global,
        known: &Known<'_, 't>,
        tasks: &mut Vec<Task<'t>>,
        written: Members,
        layout: &Layout,
    ) -> Result<(), Refusal> {
        let is_choice = written.holder == Holder::Choice;
        tasks.push(Task::Text(if is_choice {
            " CHOICE {"
        } else {
            " SEQUENCE {"
        }))?;
        push_root(known, tasks, layout.root.as_slice(), written)?;
        if written.is_marked {
            let is_first = layout.root.is_empty();
            tasks.push(Task::Text(if is_first { " ..." } else { ", ..." }))?;
            push_additions(
                known,
                tasks,
                layout.additions.as_slice(),
                is_choice,
                written.depth,
            )?;
        }
        if !is_choice {
            self.take_left_out(alloc, known, tasks, written.index, layout)?;
        }
        Ok(tasks.extend_from_slice(&[Task::Text(" }"), Task::Members])?)
    }
}

/// What is to be written of additions, in order: those of a SEQUENCE are OPTIONAL.
fn push_additions<'t>(
    known: &Known<'_, 't>,
    tasks: &mut Vec<Task<'t>>,
    additions: &[Placed],
    is_choice: bool,
    depth: usize,
) -> Result<(), Refusal> {
    for placed in additions {
        if let Some(member) = known.forest.member(placed.member) {
            push_member(tasks, &member, ",", depth)?;
            match member.need {
                _ if is_choice => {}
                Need::Default { .. } => tasks.push(Task::Apart(member.node, member.need))?,
                _ => tasks.push(Task::Text(" OPTIONAL"))?,
            }
        }
    }
    Ok(())
}

/// What is to be written of the members of a root, in order.
fn push_root<'t>(
    known: &Known<'_, 't>,
    tasks: &mut Vec<Task<'t>>,
    root: &[Placed],
    written: Members,
) -> Result<(), Refusal> {
    let mut comma = "";
    for placed in root {
        if let Some(member) = known.forest.member(placed.member) {
            push_member(tasks, &member, comma, written.depth)?;
            tasks.push(if written.may_be_empty {
                // (a group is there where a component is, which is not its DEFAULT)
                Task::Apart(member.node, member.need)
            } else {
                Task::Need(member.node, member.need)
            })?;
        }
        comma = ",";
    }
    Ok(())
}

/// What is to be written of one member, but for its need.
fn push_member<'t>(
    tasks: &mut Vec<Task<'t>>,
    member: &Member<'t>,
    comma: &'static str,
    depth: usize,
) -> Result<(), Refusal> {
    let name = match member.kind {
        MemberKind::Group(number) => Task::Group(number),
        _ => Task::Name(member.name),
    };
    Ok(tasks.extend_from_slice(&[Task::Text(comma), name, Task::Node(member.node, depth)])?)
}

/// Whether the members of a node are an addition group.
fn is_group(known: &Known<'_, '_>, node: &Node<'_>) -> bool {
    match known.values.world.tokens_of(node.module) {
        Some(tokens) => {
            let at = after_tags(tokens, node.at);
            !tokens.is_one_of(at, &["SEQUENCE", "SET", "CHOICE"])
        }
        None => false,
    }
}
