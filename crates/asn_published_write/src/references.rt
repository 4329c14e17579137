//! Writes lists, and names of types with further constraints.
use crate::constraining::{Left, lengths_shown};
use crate::known::Known;
use crate::writer::{Task, Writer};
use crate::written::whole_level;
use asn_published_text::nodes::{Member, Node, Shape};
use asn_published_text::refusal::{Refusal, Why, refused};
use asn_published_types::allowed::Shown;
use asn_published_types::info::{Base, Info, State};
use asn_published_types::layout::{alternative_named, members_behind};
use asn_published_types::pieces::push_pieces;
use asn_published_types::ranges::Ranges;
use asn_published_types::report::{Remark, Status};
use asn_published_types::seen::{Mode, intersection};
use asn_published_types::steps::Holds;
use std::alloc::Global;

/// How many selections of an alternative a type may have.
const MOST_SELECTIONS: u32 = 1000;

impl<'t> Writer<'t> {
    /// Writes SEQUENCE OF, and asks for its element.
    pub fn write_list(
        &mut self,
        alloc: Global,
        known: &Known<'_, 't>,
        index: usize,
        node: &Node<'t>,
        depth: usize,
    ) -> Result<(), Refusal> {
        let Shape::List {
            element,
            size,
            size_end,
        } = node.shape
        else {
            return Ok(());
        };
        let scope = known.scope_of(node, None);
        let seen = known.values.sizes_seen(alloc, scope, size, size_end)?;
        let left = self.left_of(alloc, known, index, seen)?;
        self.put_list(
            alloc,
            known,
            index,
            left,
            element,
            known.line_of(node),
            depth,
        )
    }

    /// Writes SEQUENCE OF with what is left of its sizes, and asks for its element.
    fn put_list(
        &mut self,
        alloc: Global,
        known: &Known<'_, 't>,
        index: usize,
        left: Left,
        element: usize,
        line: u32,
        depth: usize,
    ) -> Result<(), Refusal> {
        self.out.push_str(" SEQUENCE")?;
        let end = Task::List {
            element,
            marked: left.seen.marked,
            is_empty: self.put_size(alloc, known, index, &left, line)?,
        };
        self.trail.hold(Holds::Element);
        let sizes = self.constrain_list(alloc, known, index, left, line)?;
        self.held.sizes.push(sizes)?;
        self.ask_for_element(element, end, depth)
    }

    /// Takes what is left of the values of a list, and gives the lengths.
    fn constrain_list(
        &mut self,
        alloc: Global,
        known: &Known<'_, 't>,
        index: usize,
        left: Left,
        line: u32,
    ) -> Result<Option<Ranges>, Refusal> {
        let Left { seen, allowed } = left;
        let shown = Shown {
            lengths: lengths_shown(&seen, line)?,
            ..Shown::nothing()
        };
        self.constrain(alloc, known, index, allowed, shown)?;
        Ok(seen.sizes)
    }

    /// Asks for the element of a list, and for what ends the list. A list counts two levels.
    fn ask_for_element(
        &mut self,
        element: usize,
        end: Task<'t>,
        depth: usize,
    ) -> Result<(), Refusal> {
        self.out.push_str(" OF")?;
        self.stack.push(end)?;
        self.stack
            .push(Task::Node(element, depth.saturating_add(2)))?;
        Ok(())
    }

    /// Writes a name of the profile, with its own type's constraints where it has any.
    pub fn write_reference(
        &mut self,
        alloc: Global,
        known: &Known<'_, 't>,
        index: usize,
        node: &Node<'t>,
        to: usize,
        depth: usize,
    ) -> Result<(), Refusal> {
        let line = known.line_of(node);
        self.told.uses.push(to)?;
        if known.options.levels == 0 && known.is_in_cycle(to) {
            return Err(refused(line, Why::Recursive));
        }
        if known.is_below(to) && known.own.level <= 1 {
            return self.write_last_level(alloc, known, index, line);
        }
        self.take_info(alloc, known, index, to, depth, line)?;
        if node.constraints >= node.end {
            return self.put_name(alloc, known, to);
        }
        if matches!(
            self.last.base,
            Base::Other | Base::Boolean | Base::Enumerated
        ) {
            self.take_allowed(alloc, known, index)?;
            return self.put_name(alloc, known, to);
        }
        self.write_constrained(alloc, known, index, node, to, depth)
    }

    /// Writes NULL where recursion ends, which no value is taken to hold. Where a list has it for an element, it is
    /// BOOLEAN, since the profile has no lists of elements without bits.
    fn write_last_level(
        &mut self,
        alloc: Global,
        known: &Known<'_, 't>,
        index: usize,
        line: u32,
    ) -> Result<(), Refusal> {
        self.remark(alloc, known, index, Remark::Level)?;
        self.trail.end_recursion();
        self.last = Info::of(Base::Other);
        if is_part(known, index) {
            self.last.no_bits = true;
            return Ok(self.out.push_str(" NULL")?);
        }
        Ok(self.out.push_str(" BOOLEAN")?)
    }

    /// Takes what is known of a type that is referred to: counts its nodes, and remarks that it is not the same.
    fn take_info(
        &mut self,
        alloc: Global,
        known: &Known<'_, 't>,
        index: usize,
        to: usize,
        depth: usize,
        line: u32,
    ) -> Result<(), Refusal> {
        self.last = info_of(alloc, known, to, line)?;
        self.trail.refer(self.last.written);
        let levels = depth.saturating_add(self.last.depth).saturating_sub(1);
        let nodes = self.last.nodes.saturating_sub(1);
        self.count(nodes, levels, line);
        if known.is_below(to) {
            self.remark(alloc, known, index, Remark::Level)?;
        }
        let status = self.last.status;
        let is_known = match status {
            Status::Same => true,
            Status::Narrower | Status::Wider => known.is_below(to),
            _ => false,
        };
        if is_known {
            return Ok(());
        }
        self.remark(alloc, known, index, Remark::Holds(status))
    }

    /// Asks for the alternative of a CHOICE (X.680, "selection type").
    pub fn write_selection(
        &mut self,
        known: &Known<'_, 't>,
        node: &Node<'t>,
        of: usize,
        at: usize,
        depth: usize,
    ) -> Result<(), Refusal> {
        let line = known.line_of(node);
        let member = match selected(known, node, of, at) {
            Ok(member) => member,
            Err(why) => return Err(refused(line, why)),
        };
        self.trail.select();
        self.counts.nodes = self.counts.nodes.saturating_sub(1);
        self.counts.selections = self.counts.selections.saturating_add(1);
        if self.counts.selections > MOST_SELECTIONS {
            return Err(refused(line, Why::Recursive));
        }
        Ok(self.stack.push(Task::Node(member.node, depth))?)
    }

    /// Writes the name of a type, of one of its cycle with a level less.
    fn put_name(&mut self, alloc: Global, known: &Known<'_, 't>, to: usize) -> Result<(), Refusal> {
        let name = match known.types.names.get(to) {
            Some(name) => name.as_str(),
            None => "",
        };
        push_pieces(&mut self.out, &[" ", name])?;
        let level = known.level_of(to);
        if level == whole_level(known.options) {
            return Ok(());
        }
        let number = format!(in alloc; "{level}")?;
        Ok(push_pieces(&mut self.out, &[known.types.level_mark, number.as_str()])?)
    }

    /// Writes the type of an assignment with further constraints; of the type itself `last` tells.
    fn write_constrained(
        &mut self,
        alloc: Global,
        known: &Known<'_, 't>,
        index: usize,
        node: &Node<'t>,
        to: usize,
        depth: usize,
    ) -> Result<(), Refusal> {
        let line = known.line_of(node);
        let base = self.last.base;
        let named = self.last.named;
        let mode = if base == Base::Integer {
            Mode::Numbers
        } else {
            Mode::Others
        };
        let scope = known.scope_of(node, named).after(&self.last.left);
        let own = self.seen_of(alloc, known, index, node, mode, scope)?;
        if base == Base::List && self.last.marked && own.seen.sizes.is_some() {
            return self.write_list_again(alloc, known, index, own, to, line, depth);
        }
        if base == Base::List {
            self.put_name(alloc, known, to)?;
            return self.put_further_size(alloc, known, index, own, line);
        }
        let both = left_with(alloc, &self.last, own, line)?;
        if base == Base::Integer {
            self.put_integer(alloc, known, index, both, named, line)
        } else {
            self.put_string(alloc, known, index, base, both, line)
        }
    }

    /// Writes a list of a name once more, with a further size: the extension mark of its own size is none of the
    /// further one (X.680, "serial application of constraints"), and the profile has no further size of a size with a
    /// mark.
    fn write_list_again(
        &mut self,
        alloc: Global,
        known: &Known<'_, 't>,
        index: usize,
        own: Left,
        to: usize,
        line: u32,
        depth: usize,
    ) -> Result<(), Refusal> {
        let element = match element_of(known, to) {
            Some(element) if !known.is_in_cycle(to) => element,
            _ => return Err(refused(line, Why::Size)),
        };
        let both = left_with(alloc, &self.last, own, line)?;
        // the nodes of the element are counted as it is written
        let counted = self.last.nodes.saturating_sub(1);
        self.counts.nodes = self.counts.nodes.saturating_sub(counted);
        self.put_list(alloc, known, index, both, element, line, depth)
    }

    /// Writes a further size of a list, whose name is written.
    fn put_further_size(
        &mut self,
        alloc: Global,
        known: &Known<'_, 't>,
        index: usize,
        own: Left,
        line: u32,
    ) -> Result<(), Refusal> {
        let has_size = own.seen.sizes.is_some();
        let both = left_with(alloc, &self.last, own, line)?;
        if has_size {
            self.last.no_bits = self.put_size(alloc, known, index, &both, line)?;
            self.last.marked = both.seen.marked;
        }
        self.last.left = self.constrain_list(alloc, known, index, both, line)?;
        Ok(())
    }
}

/// Whether a node is a component or an alternative, and no element of a list nor the whole of a type.
fn is_part(known: &Known<'_, '_>, index: usize) -> bool {
    match known.forest.node(index) {
        Some(node) => !node.name.is_empty(),
        None => false,
    }
}

/// The alternative that a node selects, by the identifier at `at`, of the CHOICE that another node stands for.
fn selected<'t>(
    known: &Known<'_, 't>,
    node: &Node<'t>,
    of: usize,
    at: usize,
) -> Result<Member<'t>, Why> {
    let Some(tokens) = known.values.world.tokens_of(node.module) else {
        return Err(Why::NoType);
    };
    match known.forest.node(of) {
        Some(choice) if choice.constraints < choice.end => return Err(Why::Constraint),
        _ => {}
    }
    let Some(choice) = members_behind(known.tagging(), of) else {
        return Err(Why::Unknown);
    };
    let Some(index) = alternative_named(known.forest, choice, tokens.text(at)) else {
        return Err(Why::Unknown);
    };
    match known.forest.member(index) {
        Some(member) => Ok(member),
        None => Err(Why::Unknown),
    }
}

/// The node of the element of the list that a name stands for.
fn element_of(known: &Known<'_, '_>, to: usize) -> Option<usize> {
    let mut to = to;
    for _ in 0..MOST_SELECTIONS {
        let Some(Some(first)) = known.types.firsts.get(to) else {
            return None;
        };
        match known.forest.node(*first)?.shape {
            Shape::List { element, .. } => return Some(element),
            Shape::Reference { to: inner } => to = inner,
            _ => return None,
        }
    }
    None
}

/// What the constraints of a type leave, and further ones.
fn left_with(alloc: Global, info: &Info, own: Left, line: u32) -> Result<Left, Refusal> {
    let Left { seen, allowed } = own;
    Ok(Left {
        seen: intersection(alloc, info.seen(alloc)?, seen, line)?,
        allowed,
    })
}

/// What is known of a type that passes a limit: what refers to it passes that too.
fn past_info(nodes: usize, depth: usize) -> Info {
    let mut info = Info::of(Base::Other);
    info.nodes = nodes;
    info.depth = depth;
    info
}

/// What is known of a type that is referred to.
fn info_of(alloc: Global, known: &Known<'_, '_>, to: usize, line: u32) -> Result<Info, Refusal> {
    match known.states_for(to).get(to) {
        Some(State::Ready(info)) => Ok(info.copy(alloc)?),
        Some(State::Past { nodes, depth }) => Ok(past_info(*nodes, *depth)),
        Some(State::Refused) => Err(refused(line, Why::Holds)),
        _ => Err(refused(line, Why::Parameter)),
    }
}
