//! The parts of a type with what inner subtyping says of each, in the order in which the profile has them (X.680, "inner
//! subtyping").
use crate::allowed::{Allowed, Shown};
use crate::layout::{Layout, TagOrder, layout_of, sort_by_tags};
use crate::subtypes::Subtypes;
use crate::tags::is_automatic;
use asn_constraints::{Constraint, judge};
use asn_contents::{Contents, contents_of_parts};
use asn_published_text::nodes::{Holder, MemberKind, Need, Shape};
use asn_published_text::refusal::Refusal;
use asn_values::Value;
use std::alloc::{AllocError, Global};
use std::mem;

/// What is said of the presence of a part.
#[derive(Clone, Copy, PartialEq, Eq)]
pub(crate) enum Said {
    Nothing,
    Present,
    Absent,
    Optional,
}

/// A component or an alternative.
#[derive(Drop)]
pub(crate) struct Part<'t> {
    pub name: &'t str,
    pub node: usize,
    pub need: Need,
    pub is_addition: bool,
    /// Its place among the parts, and inside the group that has this place.
    pub place: usize,
    pub inside: Option<usize>,
    pub is_listed: bool,
    pub said: Said,
    pub constraint: Constraint,
    pub contents: Contents,
    /// The constraint does not allow its DEFAULT.
    pub is_default_barred: bool,
}

/// A group of additions: its place among the parts, and how many it has itself.
#[derive(Clone, Copy)]
pub(crate) struct Group {
    pub place: usize,
    pub count: usize,
}

/// The parts of a SEQUENCE, SET or CHOICE.
#[derive(Drop)]
pub(crate) struct Parts<'t> {
    pub parts: Vec<Part<'t>>,
    pub groups: Vec<Group>,
    /// How many places there are.
    pub count: usize,
    pub is_choice: bool,
    /// Parts that are not listed are not constrained.
    pub is_partial: bool,
    pub depth: u32,
    pub is_missing: bool,
}

impl<'a, 't> Subtypes<'a, 't> {
    /// The parts of the type of a node, of which nothing is said; `None` where it has none, or their order is not known.
    pub(crate) fn parts_of(
        &self,
        alloc: Global,
        base: usize,
    ) -> Result<Option<Parts<'t>>, AllocError> {
        let Some(node) = self.tagging.forest.node(base) else {
            return Ok(None);
        };
        let Shape::Members {
            holder,
            from,
            to,
            tagged,
            ..
        } = node.shape
        else {
            return Ok(None);
        };
        let Some(mut layout) = self.layout_within(alloc, (from, to))? else {
            return Ok(None);
        };
        if holder != Holder::Sequence && !is_automatic(self.values.world, node.module, tagged) {
            match sort_by_tags(alloc, self.tagging, &mut layout)? {
                TagOrder::Automatic | TagOrder::Others => {}
                TagOrder::Unknown | TagOrder::Twice => return Ok(None),
            }
        }
        let mut parts = Parts {
            parts: Vec::new(alloc),
            groups: Vec::new(alloc),
            count: layout.len(),
            is_choice: holder == Holder::Choice,
            is_partial: false,
            depth: 1,
            is_missing: false,
        };
        for (place, placed) in layout
            .root
            .iter()
            .chain(layout.additions.iter())
            .enumerate()
        {
            let is_addition = place >= layout.root.len();
            self.push_part(alloc, &mut parts, placed.member, place, is_addition)?;
        }
        Ok(Some(parts))
    }

    /// The members from one index to before another in their order; `None` where that is not known.
    fn layout_within(
        &self,
        alloc: Global,
        written: (usize, usize),
    ) -> Result<Option<Layout>, AllocError> {
        match layout_of(alloc, self.tagging, written, 0) {
            Ok(layout) => Ok(Some(layout)),
            Err(Refusal::Memory) => Err(AllocError),
            Err(Refusal::At { .. }) => Ok(None),
        }
    }

    /// Takes a member at a place, or those that it has itself, where it is a group.
    fn push_part(
        &self,
        alloc: Global,
        parts: &mut Parts<'t>,
        index: usize,
        place: usize,
        is_addition: bool,
    ) -> Result<(), AllocError> {
        let Some(member) = self.tagging.forest.member(index) else {
            return Ok(());
        };
        let MemberKind::Group(_) = member.kind else {
            return parts.push(self, index, place, None, is_addition);
        };
        let Some(node) = self.tagging.forest.node(member.node) else {
            return Ok(());
        };
        let Shape::Members { from, to, .. } = node.shape else {
            return Ok(());
        };
        let Some(layout) = self.layout_within(alloc, (from, to))? else {
            return Ok(());
        };
        parts.groups.push(Group {
            place,
            count: layout.root.len(),
        })?;
        for (inside, placed) in layout.root.iter().enumerate() {
            parts.push(self, placed.member, place, Some(inside), false)?;
        }
        Ok(())
    }
}

impl<'t> Parts<'t> {
    /// Takes a member at a place.
    fn push(
        &mut self,
        subtypes: &Subtypes<'_, 't>,
        index: usize,
        place: usize,
        inside: Option<usize>,
        is_addition: bool,
    ) -> Result<(), AllocError> {
        let Some(member) = subtypes.tagging.forest.member(index) else {
            return Ok(());
        };
        self.parts.push(Part {
            name: member.name,
            node: member.node,
            need: member.need,
            is_addition,
            place,
            inside,
            is_listed: false,
            said: Said::Nothing,
            constraint: Constraint::Free,
            contents: Contents::Nowhere,
            is_default_barred: false,
        })?;
        Ok(())
    }

    /// How many components or alternatives there are, those of groups counted one by one.
    pub fn len(&self) -> usize {
        self.parts.len()
    }

    /// Whether they are alternatives.
    pub fn is_choice(&self) -> bool {
        self.is_choice
    }

    /// Whether they are components of a root without DEFAULT.
    pub fn are_plain(&self) -> bool {
        !self.is_choice
            && self.groups.is_empty()
            && self.parts.iter().all(|part| {
                !part.is_addition && !matches!(part.need, Need::Default { .. })
            })
    }

    /// Whether each component has an entry that has to have one.
    pub fn are_given(&self, entries: &[Option<Value>]) -> bool {
        self.parts.iter().zip(entries.iter()).all(|(part, entry)| entry.is_some()
            || matches!(part.need, Need::Optional))
    }

    /// The index of the part of a name.
    pub fn place_of(&self, name: &str) -> Option<usize> {
        self.parts
            .iter()
            .position(|part| *part.name.as_bytes() == *name.as_bytes())
    }

    /// The node of the type of a part.
    pub fn node_of(&self, index: usize) -> usize {
        match self.parts.get(index) {
            Some(part) => part.node,
            None => 0,
        }
    }

    /// Takes what is said of a part.
    pub fn take(
        &mut self,
        alloc: Global,
        index: usize,
        allowed: Allowed,
        said: Said,
    ) -> Result<(), AllocError> {
        self.depth = self.depth.max(allowed.depth());
        self.is_missing |= allowed.is_missing;
        let mut allowed = allowed;
        let contents = allowed.take_contents();
        let constraint = allowed.into_constraint(alloc, Shown::nothing())?;
        if let Some(part) = self.parts.get_mut(index) {
            part.is_listed = true;
            part.said = said;
            part.constraint = constraint;
            part.contents = contents;
        }
        Ok(())
    }

    /// The node of a part with a DEFAULT and a constraint, and where the DEFAULT is.
    pub fn default_at(&self, index: usize) -> Option<(usize, usize)> {
        let part = self.parts.get(index)?;
        match part.need {
            Need::Default { start, .. } if !matches!(&part.constraint, Constraint::Free) => {
                Some((part.node, start))
            }
            _ => None,
        }
    }

    /// Takes the DEFAULT of a part, where it is read.
    pub fn take_default(&mut self, index: usize, value: Option<(Value, usize)>) {
        let Some(part) = self.parts.get_mut(index) else {
            return;
        };
        match value {
            Some((value, _)) => part.is_default_barred = !judge(&part.constraint, &value),
            None => self.is_missing = true,
        }
    }

    /// What is allowed.
    pub fn allowed(self, alloc: Global) -> Result<Allowed, AllocError> {
        let mut parts = self;
        let contents = parts.take_contents(alloc)?;
        parts.allowed_without(alloc, contents)
    }

    /// Which octets are encodings, which is then no longer said of the parts.
    fn take_contents(&mut self, alloc: Global) -> Result<Contents, AllocError> {
        let mut all = nowhere(alloc, self.count)?;
        for group in &self.groups {
            let mut inner = nowhere(alloc, group.count)?;
            for part in &mut self.parts {
                if let (Some(inside), true) = (part.inside, part.place == group.place) {
                    put_contents(&mut inner, inside, take(part));
                }
            }
            put_contents(&mut all, group.place, contents_of_parts(inner, false));
        }
        for part in &mut self.parts {
            if part.inside.is_none() {
                put_contents(&mut all, part.place, take(part));
            }
        }
        Ok(contents_of_parts(all, self.is_choice))
    }

    /// What is allowed, with which octets are encodings.
    fn allowed_without(self, alloc: Global, contents: Contents) -> Result<Allowed, AllocError> {
        let depth = self.depth.saturating_add(3);
        let mut is_missing = self.is_missing;
        let constraint = if self.is_choice {
            self.alternatives(alloc)?
        } else {
            for part in &self.parts {
                // (a component with a DEFAULT, or one that is not OPTIONAL, has no presence to constrain)
                is_missing |= part.said == Said::Absent && !matches!(part.need, Need::Optional);
            }
            self.components(alloc)?
        };
        let mut allowed = Allowed::others(constraint, depth);
        allowed.contents = contents;
        allowed.is_missing |= is_missing;
        Ok(allowed)
    }
}

/// Parts without octets that are encodings.
fn nowhere(alloc: Global, count: usize) -> Result<Vec<Contents>, AllocError> {
    let mut all = Vec::new(alloc);
    for _ in 0..count {
        all.push(Contents::Nowhere)?;
    }
    Ok(all)
}

/// Takes which octets of a part are encodings.
fn put_contents(all: &mut Vec<Contents>, place: usize, contents: Contents) {
    if let Some(one) = all.get_mut(place) {
        *one = contents;
    }
}

/// Which octets of a part are encodings, which is then no longer said of it.
fn take(part: &mut Part<'_>) -> Contents {
    mem::replace(&mut part.contents, Contents::Nowhere)
}
