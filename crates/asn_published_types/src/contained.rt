//! Types as constraints (X.680, "contained subtype").
use crate::allowed::Allowed;
use crate::elements::Element;
use crate::subtypes::{Around, Of, Subtypes, Work};
use asn_published_text::nodes::Shape;
use asn_published_text::tokens::next;
use std::alloc::{AllocError, Global};

impl<'a, 't> Subtypes<'a, 't> {
    /// What the type at `at` allows whose values are (X.680, "contained subtype"), and the index after it.
    #[cycle(allowed)]
    pub(crate) fn contained_of(
        &self,
        alloc: Global,
        around: Around,
        at: usize,
        levels: u32,
        work: &mut Work,
    ) -> Result<Element, AllocError> {
        let Some(tokens) = self.values.world.tokens_of(around.module) else {
            return Ok(None);
        };
        let start = if tokens.is_word(at, "INCLUDES") {
            next(at)
        } else {
            at
        };
        let Ok((to, behind)) = self.values.world.reference_at(around.module, start) else {
            return Ok(None);
        };
        let first = match self.tagging.firsts.get(to) {
            Some(Some(first)) if levels > 0 => *first,
            _ => return Ok(Some((Allowed::missing(), behind))),
        };
        if !self.is_alike(around, first) {
            return Ok(Some((Allowed::missing(), behind)));
        }
        let mut allowed = self.whole_of(alloc, first, levels - 1, work)?;
        allowed.is_marked = false;
        Ok(Some((allowed, behind)))
    }

    /// Whether the type of a node has values of the same kind as those at a place, and the same parts inside.
    fn is_alike(&self, around: Around, index: usize) -> bool {
        let Some(base) = self.base_of(index) else {
            return false;
        };
        let (Some(one), Some(other)) = (
            self.tagging.forest.node(around.base),
            self.tagging.forest.node(base),
        ) else {
            return false;
        };
        match around.of {
            Of::Sizes => matches!(other.shape, Shape::Integer { .. }),
            Of::Letters => false,
            Of::Values if base == around.base => true,
            Of::Values => match (one.shape, other.shape) {
                (Shape::Integer { .. }, Shape::Integer { .. })
                | (Shape::Bits { .. }, Shape::Bits { .. })
                | (Shape::Octets, Shape::Octets)
                | (Shape::Utf8, Shape::Utf8)
                | (Shape::Boolean, Shape::Boolean) => true,
                (Shape::Text(kind), Shape::Text(too)) => kind == too,
                _ => false,
            },
        }
    }
}
