//! Reads values that hold others: of lists, CHOICE, and SEQUENCE without DEFAULT and additions (X.680, "value notation").
use crate::parts::Parts;
use crate::subtypes::{Around, Subtypes, Work};
use crate::value_notation::Read;
use asn_published_text::nodes::Shape;
use asn_published_text::token::Sign;
use asn_published_text::tokens::next;
use asn_values::Value;
use std::alloc::{AllocError, Global};
use std::mem;

impl<'a, 't> Subtypes<'a, 't> {
    /// The value at `at` of a part whose type is a node, and the index after it.
    #[cycle(values)]
    fn part_value(
        &self,
        alloc: Global,
        around: Around,
        index: usize,
        at: usize,
        levels: u32,
        work: &mut Work,
    ) -> Result<Read, AllocError> {
        match self.base_of(index) {
            // (of named bits the lengths are not looked at)
            Some(base) if levels > 0 && !self.has_bits(base) => {
                self.value_at(alloc, Around { base, ..around }, at, levels - 1, work)
            }
            _ => Ok(None),
        }
    }

    /// The list in the braces at `at`, and the index after them.
    #[cycle(values)]
    pub(crate) fn list_value(
        &self,
        alloc: Global,
        around: Around,
        at: usize,
        levels: u32,
        work: &mut Work,
    ) -> Result<Read, AllocError> {
        let (Some(tokens), Some(node)) = (
            self.values.world.tokens_of(around.module),
            self.tagging.forest.node(around.base),
        ) else {
            return Ok(None);
        };
        let Shape::List { element, .. } = node.shape else {
            return Ok(None);
        };
        if levels == 0 || !work.take() || !tokens.is(at, Sign::LeftBrace) {
            return Ok(None);
        }
        let end = tokens.other(at);
        let mut elements = Vec::new(alloc);
        let mut place = next(at);
        for _ in 0..tokens.len() {
            if place >= end {
                return Ok(Some((Value::List(elements), next(end))));
            }
            let found = self.part_value(alloc, around, element, place, levels - 1, work)?;
            let Some((value, behind)) = found else {
                return Ok(None);
            };
            elements.push(value)?;
            if behind < end && !tokens.is(behind, Sign::Comma) {
                return Ok(None);
            }
            place = next(behind);
        }
        Ok(None)
    }

    /// The alternative and its value at `at`, as `identifier : value`, and the index after it.
    #[cycle(values)]
    pub(crate) fn choice_value(
        &self,
        alloc: Global,
        around: Around,
        parts: &Parts<'t>,
        at: usize,
        levels: u32,
        work: &mut Work,
    ) -> Result<Read, AllocError> {
        let Some(tokens) = self.values.world.tokens_of(around.module) else {
            return Ok(None);
        };
        let Some(place) = parts.place_of(tokens.text(at)) else {
            return Ok(None);
        };
        if levels == 0 || !work.take() || !tokens.is(next(at), Sign::Colon) {
            return Ok(None);
        }
        let inside = next(next(at));
        let found = self.part_value(
            alloc,
            around,
            parts.node_of(place),
            inside,
            levels - 1,
            work,
        )?;
        match (found, u32::try_from(place)) {
            (Some((value, behind)), Ok(tag)) => {
                let chosen = Value::Choice(tag, Box::new(alloc, value)?);
                Ok(Some((chosen, behind)))
            }
            _ => Ok(None),
        }
    }

    /// The components in the braces at `at`, and the index after them.
    #[cycle(values)]
    pub(crate) fn sequence_value(
        &self,
        alloc: Global,
        around: Around,
        parts: &Parts<'t>,
        at: usize,
        levels: u32,
        work: &mut Work,
    ) -> Result<Read, AllocError> {
        let Some(tokens) = self.values.world.tokens_of(around.module) else {
            return Ok(None);
        };
        if levels == 0 || !work.take() || !tokens.is(at, Sign::LeftBrace) || !parts.are_plain() {
            return Ok(None);
        }
        let end = tokens.other(at);
        let mut entries: Vec<Option<Value>> = Vec::new(alloc);
        for _ in 0..parts.len() {
            entries.push(None)?;
        }
        let mut name = next(at);
        for _ in 0..tokens.len() {
            if name >= end {
                break;
            }
            let Some(place) = parts.place_of(tokens.text(name)) else {
                return Ok(None);
            };
            let node = parts.node_of(place);
            let found = self.part_value(alloc, around, node, next(name), levels - 1, work)?;
            let Some((value, behind)) = found else {
                return Ok(None);
            };
            put_entry(&mut entries, place, value);
            if behind < end && !tokens.is(behind, Sign::Comma) {
                return Ok(None);
            }
            name = next(behind);
        }
        if !parts.are_given(entries.as_slice()) {
            return Ok(None);
        }
        Ok(Some((Value::Seq(entries), next(end))))
    }

    /// The value at `at` of a SEQUENCE, SET or CHOICE, and the index after it.
    #[cycle(values)]
    pub(crate) fn members_value(
        &self,
        alloc: Global,
        around: Around,
        at: usize,
        levels: u32,
        work: &mut Work,
    ) -> Result<Read, AllocError> {
        let Some(parts) = self.parts_of(alloc, around.base)? else {
            return Ok(None);
        };
        if levels == 0 || !work.take() {
            return Ok(None);
        }
        if parts.is_choice() {
            self.choice_value(alloc, around, &parts, at, levels - 1, work)
        } else {
            self.sequence_value(alloc, around, &parts, at, levels - 1, work)
        }
    }
}

/// Takes the value of a component.
fn put_entry(entries: &mut Vec<Option<Value>>, place: usize, value: Value) {
    if let Some(entry) = entries.get_mut(place) {
        let _before = mem::replace(entry, Some(value));
    }
}
