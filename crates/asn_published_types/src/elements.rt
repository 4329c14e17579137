//! Reads the elements of constraints, and unions, intersections and exceptions of them (X.680, "element set
//! specification").
use crate::allowed::{Allowed, letters_of, sizes_of};
use crate::intervals::{between, of_ranges, only};
use crate::numbers::Scope;
use crate::places::{after_table, after_unseen, mark_at, root_end};
use crate::seen::Mode;
use crate::subtypes::{Around, Of, Subtypes, Work};
use asn_constraints::Constraint;
use asn_published_text::nodes::Shape;
use asn_published_text::places::{is_and, is_contained, is_or};
use asn_published_text::refusal::Refusal;
use asn_published_text::token::Sign;
use asn_published_text::tokens::next;
use asn_values::Value;
use std::alloc::{AllocError, Global};

/// What a reader of constraints answers: what is allowed, and the index after it; `None` where that is not known.
pub(crate) type Element = Option<(Allowed, usize)>;

impl<'a, 't> Subtypes<'a, 't> {
    /// What the constraint in the brackets at `at` allows, with its marker.
    #[cycle(allowed)]
    pub(crate) fn group_of(
        &self,
        alloc: Global,
        around: Around,
        at: usize,
        levels: u32,
        work: &mut Work,
    ) -> Result<Allowed, AllocError> {
        let Some(tokens) = self.values.world.tokens_of(around.module) else {
            return Ok(Allowed::missing());
        };
        let end = tokens.other(at);
        if levels == 0 || !work.take() || end <= at {
            return Ok(Allowed::missing());
        }
        let root = root_end(tokens, next(at), end);
        let Ok(is_marked) = mark_at(tokens, root, end) else {
            return Ok(Allowed::missing());
        };
        let mut allowed = self.set_of(alloc, around, next(at), root, levels - 1, work)?;
        allowed.is_marked |= is_marked;
        Ok(allowed)
    }

    /// What a set of constraints allows, from `start` to before `end`: intersections bind tighter than unions.
    #[cycle(allowed)]
    pub(crate) fn set_of(
        &self,
        alloc: Global,
        around: Around,
        start: usize,
        end: usize,
        levels: u32,
        work: &mut Work,
    ) -> Result<Allowed, AllocError> {
        let Some(tokens) = self.values.world.tokens_of(around.module) else {
            return Ok(Allowed::missing());
        };
        if levels == 0 || !work.take() {
            return Ok(Allowed::missing());
        }
        let mut total: Option<Allowed> = None;
        let mut current: Option<Allowed> = None;
        let mut at = start;
        for _ in 0..tokens.len() {
            let Some((one, behind)) = self.exception_of(alloc, around, at, levels - 1, work)? else {
                return Ok(Allowed::missing());
            };
            if one.is_marked && (at != start || behind < end) {
                return Ok(Allowed::missing());
            }
            let both = all_of(alloc, current, one)?;
            at = behind;
            if at < end && is_and(tokens, at) {
                current = Some(both);
                at = next(at);
                continue;
            }
            current = None;
            let either = one_of(alloc, total, both)?;
            if at >= end {
                return Ok(if at == end {
                    either
                } else {
                    Allowed::missing()
                });
            }
            if !is_or(tokens, at) {
                return Ok(Allowed::missing());
            }
            total = Some(either);
            at = next(at);
        }
        Ok(Allowed::missing())
    }

    /// What the element at `at` allows without what EXCEPT takes out, and the index after both.
    #[cycle(allowed)]
    fn exception_of(
        &self,
        alloc: Global,
        around: Around,
        at: usize,
        levels: u32,
        work: &mut Work,
    ) -> Result<Element, AllocError> {
        let Some(tokens) = self.values.world.tokens_of(around.module) else {
            return Ok(None);
        };
        if levels == 0 || !work.take() {
            return Ok(None);
        }
        let found = if tokens.is_word(at, "ALL") {
            Some((self.all_of_items(alloc, around)?, next(at)))
        } else {
            self.element_of(alloc, around, at, levels - 1, work)?
        };
        let Some((allowed, behind)) = found else {
            return Ok(None);
        };
        if !tokens.is_word(behind, "EXCEPT") {
            return Ok(Some((allowed, behind)));
        }
        let out = next(behind);
        if let Some((value, behind)) = self.value_taken_out(alloc, around, out, levels - 1, work)? {
            let others = Allowed::others(Constraint::Except(value), 1);
            return Ok(Some((allowed.and(alloc, others)?, behind)));
        }
        match self.element_of(alloc, around, out, levels - 1, work)? {
            Some((other, behind)) => Ok(Some((allowed.except(alloc, other)?, behind))),
            None => Ok(None),
        }
    }

    /// The value at `at` that EXCEPT takes out, and the index after it; `None` where the values are a set, or it is not read.
    fn value_taken_out(
        &self,
        alloc: Global,
        around: Around,
        at: usize,
        levels: u32,
        work: &mut Work,
    ) -> Result<Option<(Value, usize)>, AllocError> {
        let Some(node) = self.tagging.forest.node(around.base) else {
            return Ok(None);
        };
        let is_set = matches!(node.shape, Shape::Integer { .. } | Shape::Enumerated { .. });
        if is_set || around.of != Of::Values || levels == 0 || !work.take() {
            return Ok(None);
        }
        self.value_at(alloc, around, at, levels - 1, work)
    }

    /// What ALL allows: of an ENUMERATED each item.
    fn all_of_items(&self, alloc: Global, around: Around) -> Result<Allowed, AllocError> {
        let Some(count) = self.count_of_items(alloc, around.base)? else {
            return Ok(Allowed::all());
        };
        let last = (count as i128).saturating_sub(1);
        Ok(Allowed {
            items: Some(between(alloc, 0, last)?),
            ..Allowed::all()
        })
    }

    /// What the element at `at` allows, and the index after it.
    #[cycle(allowed)]
    fn element_of(
        &self,
        alloc: Global,
        around: Around,
        at: usize,
        levels: u32,
        work: &mut Work,
    ) -> Result<Element, AllocError> {
        let Some(tokens) = self.values.world.tokens_of(around.module) else {
            return Ok(None);
        };
        if levels == 0 || !work.take() {
            return Ok(None);
        }
        if tokens.is(at, Sign::LeftParen) {
            let allowed = self.group_of(alloc, around, at, levels - 1, work)?;
            return Ok(Some((allowed, tokens.after(at))));
        }
        if is_contained(tokens, at) || tokens.is_word(at, "INCLUDES") {
            if let Some(found) = self.worded_of(alloc, around, at, levels - 1, work)? {
                return Ok(Some(found));
            }
            return self.contained_of(alloc, around, at, levels - 1, work);
        }
        if around.of != Of::Values {
            return self.numbers_at(alloc, around, at);
        }
        self.single_of(alloc, around, at, levels - 1, work)
    }

    /// What the constraint at `at` allows that begins with a word of its own, and the index after it; `None` where none does.
    #[cycle(allowed)]
    fn worded_of(
        &self,
        alloc: Global,
        around: Around,
        at: usize,
        levels: u32,
        work: &mut Work,
    ) -> Result<Element, AllocError> {
        let Some(tokens) = self.values.world.tokens_of(around.module) else {
            return Ok(None);
        };
        if levels == 0 || !work.take() || around.of != Of::Values {
            return Ok(None);
        }
        let second = next(at);
        if tokens.is_word(at, "SIZE") && self.has_lengths(around.base) {
            let around = Around {
                of: Of::Sizes,
                ..around
            };
            let inner = self.group_of(alloc, around, second, levels - 1, work)?;
            return Ok(Some((sizes_of(inner), tokens.after(second))));
        }
        if tokens.is_word(at, "FROM") && self.has_letters(around.base) {
            let around = Around {
                of: Of::Letters,
                ..around
            };
            let inner = self.group_of(alloc, around, second, levels - 1, work)?;
            return Ok(Some((letters_of(inner), tokens.after(second))));
        }
        if tokens.is_word(at, "WITH") && tokens.is_word(second, "COMPONENT") {
            let inside = next(second);
            let allowed = self.element_constraint(alloc, around, inside, levels - 1, work)?;
            return Ok(Some((allowed, tokens.after(inside))));
        }
        if tokens.is_word(at, "WITH") && tokens.is_word(second, "COMPONENTS") {
            let braces = next(second);
            let allowed = self.inner_of(alloc, around, braces, levels - 1, work)?;
            return Ok(Some((allowed, tokens.after(braces))));
        }
        if tokens.is_word(at, "SIZE") || tokens.is_word(at, "FROM") {
            return Ok(Some((Allowed::missing(), tokens.after(second))));
        }
        if let Some(found) = self.containing_of(around, at) {
            return Ok(Some(found));
        }
        match after_unseen(tokens, at) {
            Some(behind) => Ok(Some((Allowed::missing(), behind))),
            None => Ok(None),
        }
    }

    /// Whether the values of a node have lengths.
    fn has_lengths(&self, base: usize) -> bool {
        match self.tagging.forest.node(base) {
            Some(node) => matches!(
                node.shape,
                Shape::Bits { .. }
                    | Shape::Octets
                    | Shape::Text(_)
                    | Shape::Utf8
                    | Shape::List { .. }
            ),
            None => false,
        }
    }

    /// Whether the values of a node have characters of a byte each.
    fn has_letters(&self, base: usize) -> bool {
        match self.tagging.forest.node(base) {
            Some(node) => matches!(node.shape, Shape::Text(_)),
            None => false,
        }
    }

    /// What the numbers or characters at `at` are inside SIZE or FROM, and the index after them.
    fn numbers_at(&self, alloc: Global, around: Around, at: usize) -> Result<Element, AllocError> {
        let mode = if around.of == Of::Letters {
            Mode::Letters
        } else {
            Mode::Numbers
        };
        self.range_at(alloc, around.scope(None), mode, at)
    }

    /// What the range or the single number or character at `at` allows, and the index after it.
    fn range_at(
        &self,
        alloc: Global,
        scope: Scope,
        mode: Mode,
        at: usize,
    ) -> Result<Element, AllocError> {
        let found = match self.values.value_seen(alloc, scope, mode, at) {
            Ok(found) => found,
            Err(Refusal::Memory) => return Err(AllocError),
            Err(Refusal::At { .. }) => return Ok(None),
        };
        let allowed = match &found.0.numbers {
            Some(ranges) => Allowed {
                numbers: Some(of_ranges(alloc, ranges)?),
                ..Allowed::all()
            },
            None => Allowed::missing(),
        };
        Ok(Some((allowed, found.1)))
    }

    /// What the value or the range at `at` allows, and the index after it.
    fn single_of(
        &self,
        alloc: Global,
        around: Around,
        at: usize,
        levels: u32,
        work: &mut Work,
    ) -> Result<Element, AllocError> {
        let (Some(tokens), Some(node)) = (
            self.values.world.tokens_of(around.module),
            self.tagging.forest.node(around.base),
        ) else {
            return Ok(None);
        };
        if levels == 0 || !work.take() {
            return Ok(None);
        }
        if let Shape::Integer { named } = node.shape {
            let named = named.map(|braces| (node.module, braces));
            if !tokens.is(at, Sign::LeftBrace) {
                return self.range_at(alloc, around.scope(named), Mode::Numbers, at);
            }
        }
        if matches!(
            node.shape,
            Shape::Boolean | Shape::Null | Shape::Enumerated { .. }
        ) {
            if let Some((value, behind)) = self.value_at(alloc, around, at, levels - 1, work)? {
                return Ok(Some((only_value(alloc, value)?, behind)));
            }
        }
        if tokens.is(at, Sign::LeftBrace) {
            return Ok(Some((Allowed::missing(), after_table(tokens, at))));
        }
        match self.range_at(alloc, around.scope(None), Mode::Others, at)? {
            Some((_, behind)) => Ok(Some((Allowed::missing(), behind))),
            None => Ok(None),
        }
    }
}

/// What both allow, where there is a first.
fn all_of(alloc: Global, one: Option<Allowed>, other: Allowed) -> Result<Allowed, AllocError> {
    match one {
        Some(one) => one.and(alloc, other),
        None => Ok(other),
    }
}

/// What either allows, where there is a first.
fn one_of(alloc: Global, one: Option<Allowed>, other: Allowed) -> Result<Allowed, AllocError> {
    match one {
        Some(one) => one.or(alloc, other),
        None => Ok(other),
    }
}

/// What allows a value alone, where that is a set.
fn only_value(alloc: Global, value: Value) -> Result<Allowed, AllocError> {
    match value {
        Value::Null => Ok(Allowed::all()),
        Value::Bool(truth) => Ok(Allowed::others(Constraint::Except(Value::Bool(!truth)), 1)),
        Value::Enum(position) => Ok(Allowed {
            items: Some(only(alloc, i128::from(position))?),
            ..Allowed::all()
        }),
        _ => Ok(Allowed::missing()),
    }
}
