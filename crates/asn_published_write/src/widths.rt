//! Types of which no value has a bit in PER: the profile has no lists of them.
use crate::known::Known;
use crate::writer::Writer;
use asn_published_text::nodes::Need;
use asn_published_text::refusal::{Refusal, Why, refused};
use asn_published_types::bounds::{Numbers, lengths_between, numbers_between};
use asn_published_types::info::{Base, Info};
use asn_published_types::seen::Seen;

/// Whether one number is left, and no mark.
pub(crate) fn is_one_number(seen: &Seen, line: u32) -> Result<bool, Refusal> {
    match numbers_between(&seen.numbers, seen.marked, line)? {
        Numbers::Between(Some(low), Some(high)) => Ok(low == high && !seen.marked),
        _ => Ok(false),
    }
}

/// Whether the length 0 alone is left, and no mark.
pub(crate) fn is_zero(seen: &Seen, line: u32) -> Result<bool, Refusal> {
    match lengths_between(&seen.sizes, seen.marked, line)? {
        Some(lengths) => Ok(lengths.high == Some(0) && !seen.marked),
        None => Ok(false),
    }
}

impl<'t> Writer<'t> {
    /// Ends a list, whose element was written last.
    pub fn end_list(
        &mut self,
        known: &Known<'_, 't>,
        element: usize,
        marked: bool,
        is_empty: bool,
    ) -> Result<(), Refusal> {
        if self.last.no_bits {
            self.counts.node = element;
            let line = match known.forest.node(element) {
                Some(node) => known.line_of(&node),
                None => 0,
            };
            return Err(refused(line, Why::ZeroWidth));
        }
        let mut info = Info::of(Base::List);
        if let Some(sizes) = self.held.sizes.pop() {
            info.left = sizes;
        }
        info.marked = marked;
        info.no_bits = is_empty;
        self.last = info;
        Ok(())
    }

    /// Takes a component or an alternative of the root, whose type was written last.
    pub fn take_member_bits(&mut self, need: Need) {
        let has_none = matches!(need, Need::Must) && self.last.no_bits;
        if let Some(place) = self.held.without_bits.last_mut() {
            *place = *place && has_none;
        }
    }

    /// Ends a type that holds components or alternatives.
    pub fn end_members(&mut self) {
        let mut info = Info::of(Base::Other);
        info.no_bits = self.held.without_bits.pop().unwrap_or(false);
        self.last = info;
    }
}
