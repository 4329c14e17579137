//! Reads constraints on the parts of a type (X.680, "inner subtyping").
use crate::allowed::Allowed;
use crate::intervals::EVERY;
use crate::parts::{Parts, Said};
use crate::subtypes::{Around, Of, Subtypes, Work};
use asn_published_text::nodes::Shape;
use asn_published_text::token::Sign;
use asn_published_text::tokens::{Tokens, next};
use std::alloc::{AllocError, Global};

/// What the words after a component say of its presence, and the index after them.
fn said_at(tokens: &Tokens<'_>, at: usize) -> (Said, usize) {
    if tokens.is_word(at, "PRESENT") {
        (Said::Present, next(at))
    } else if tokens.is_word(at, "ABSENT") {
        (Said::Absent, next(at))
    } else if tokens.is_word(at, "OPTIONAL") {
        (Said::Optional, next(at))
    } else {
        (Said::Nothing, at)
    }
}

impl<'a, 't> Subtypes<'a, 't> {
    /// What the constraint in parentheses at `at` allows of the elements of a list.
    #[cycle(allowed)]
    pub(crate) fn element_constraint(
        &self,
        alloc: Global,
        around: Around,
        at: usize,
        levels: u32,
        work: &mut Work,
    ) -> Result<Allowed, AllocError> {
        let Some(node) = self.tagging.forest.node(around.base) else {
            return Ok(Allowed::missing());
        };
        let Shape::List { element, .. } = node.shape else {
            return Ok(Allowed::missing());
        };
        if levels == 0 || !work.take() {
            return Ok(Allowed::missing());
        }
        let inner = self.part_constraint(alloc, around, element, at, levels - 1, work)?;
        inner.elements(alloc)
    }

    /// What the constraint in parentheses at `at` allows of a part whose type is a node; with a marker it is no constraint.
    #[cycle(allowed)]
    fn part_constraint(
        &self,
        alloc: Global,
        around: Around,
        index: usize,
        at: usize,
        levels: u32,
        work: &mut Work,
    ) -> Result<Allowed, AllocError> {
        let Some(base) = self.base_of(index) else {
            return Ok(Allowed::missing());
        };
        if levels == 0 || !work.take() {
            return Ok(Allowed::missing());
        }
        let mut inside = Around {
            base,
            of: Of::Values,
            numbers: EVERY,
            lengths: EVERY,
            ..around
        };
        if self.is_simple(base) {
            let whole = self.whole_of(alloc, index, levels - 1, work)?;
            inside = inside.after(&whole);
        }
        let allowed = self.group_of(alloc, inside, at, levels - 1, work)?;
        if allowed.is_marked {
            return Ok(Allowed::all());
        }
        Ok(allowed)
    }

    /// What WITH COMPONENTS allows, whose braces are at `braces`.
    #[cycle(allowed)]
    pub(crate) fn inner_of(
        &self,
        alloc: Global,
        around: Around,
        braces: usize,
        levels: u32,
        work: &mut Work,
    ) -> Result<Allowed, AllocError> {
        let Some(tokens) = self.values.world.tokens_of(around.module) else {
            return Ok(Allowed::missing());
        };
        let Some(mut parts) = self.parts_of(alloc, around.base)? else {
            return Ok(Allowed::missing());
        };
        if levels == 0 || !work.take() || !tokens.is(braces, Sign::LeftBrace) {
            return Ok(Allowed::missing());
        }
        work.take_more(parts.len());
        let end = tokens.other(braces);
        let mut at = next(braces);
        for _ in 0..tokens.len() {
            if at >= end {
                break;
            }
            if tokens.is(at, Sign::Dots) {
                parts.is_partial = true;
                at = next(at);
            } else {
                match self.part_at(alloc, around, &mut parts, at, levels - 1, work)? {
                    Some(behind) => at = behind,
                    None => return Ok(Allowed::missing()),
                }
            }
            if at < end && !tokens.is(at, Sign::Comma) {
                return Ok(Allowed::missing());
            }
            at = next(at);
        }
        self.judge_defaults(alloc, &mut parts, levels - 1, work)?;
        parts.allowed(alloc)
    }

    /// Takes of each component with a DEFAULT whether that value is allowed: if it is not, the component is there.
    fn judge_defaults(
        &self,
        alloc: Global,
        parts: &mut Parts<'t>,
        levels: u32,
        work: &mut Work,
    ) -> Result<(), AllocError> {
        for place in 0..parts.len() {
            let Some((index, at)) = parts.default_at(place) else {
                continue;
            };
            let value = match self.place_of_default(index) {
                Some(around) if levels > 0 && !self.has_bits(around.base) => {
                    self.value_at(alloc, around, at, levels - 1, work)?
                }
                _ => None,
            };
            parts.take_default(place, value);
        }
        Ok(())
    }

    /// Whether a node is a BIT STRING.
    pub(crate) fn has_bits(&self, base: usize) -> bool {
        match self.tagging.forest.node(base) {
            Some(node) => matches!(node.shape, Shape::Bits { .. }),
            None => true,
        }
    }

    /// Takes what is said at `at` of the part of a name, and gives the index after it; `None` where there is no such part.
    #[cycle(allowed)]
    fn part_at(
        &self,
        alloc: Global,
        around: Around,
        parts: &mut Parts<'t>,
        at: usize,
        levels: u32,
        work: &mut Work,
    ) -> Result<Option<usize>, AllocError> {
        let Some(tokens) = self.values.world.tokens_of(around.module) else {
            return Ok(None);
        };
        let Some(place) = parts.place_of(tokens.text(at)) else {
            return Ok(None);
        };
        if levels == 0 || !work.take() {
            return Ok(None);
        }
        let mut allowed = Allowed::all();
        let mut behind = next(at);
        if tokens.is(behind, Sign::LeftParen) {
            let node = parts.node_of(place);
            allowed = self.part_constraint(alloc, around, node, behind, levels - 1, work)?;
            behind = tokens.after(behind);
        }
        let said = said_at(tokens, behind);
        parts.take(alloc, place, allowed, said.0)?;
        Ok(Some(said.1))
    }
}
