//! DEFAULTs that the profile takes.
use crate::known::Known;
use crate::writer::Writer;
use asn_published_text::nodes::Node;
use asn_published_text::refusal::Refusal;
use asn_published_types::bounds::{Numbers, is_integer, numbers_between};
use asn_published_types::info::Base;
use asn_published_types::items::items_of;
use asn_published_types::numbers::Scope;
use asn_values::profile::{HIGHEST_INTEGER, LOWEST_INTEGER};
use std::alloc::Global;

/// Whether an integer of the profile lies in a range that has others of it too.
fn is_one_of_more(number: i128, low: Option<i128>, high: Option<i128>) -> bool {
    let low = low.unwrap_or(LOWEST_INTEGER);
    let high = high.unwrap_or(HIGHEST_INTEGER);
    low <= number && number <= high && low < high
}

/// The node of the type that holds a component, in whose text its DEFAULT is.
fn holder_of<'t>(known: &Known<'_, 't>, index: usize) -> Option<Node<'t>> {
    let component = known.forest.node(index)?;
    known.forest.node(component.parent)
}

impl<'t> Writer<'t> {
    /// The DEFAULT from `start` to before `end` as the profile has it, of a component whose type was written last;
    /// `None` where the profile does not take it.
    pub fn default_text(
        &mut self,
        alloc: Global,
        known: &Known<'_, 't>,
        index: usize,
        start: usize,
        end: usize,
    ) -> Result<Option<String>, Refusal> {
        let Some(node) = holder_of(known, index) else {
            return Ok(None);
        };
        let Some(tokens) = known.values.world.tokens_of(node.module) else {
            return Ok(None);
        };
        if self.last.marked {
            return Ok(None);
        }
        let scope = known.scope_of(&node, self.last.named);
        match self.last.base {
            Base::Boolean => match known.values.last_word(scope, start) {
                word if word == "TRUE" || word == "FALSE" => {
                    Ok(Some(String::from_str(alloc, word)?))
                }
                _ => Ok(None),
            },
            Base::Integer => self.default_number(alloc, known, scope, start, end),
            Base::Enumerated => {
                let item = self.default_item(alloc, known, tokens.text(start))?;
                if item.is_some() {
                    return Ok(item);
                }
                self.default_item(alloc, known, known.values.last_word(scope, start))
            }
            _ => Ok(None),
        }
    }

    /// The number that a DEFAULT is.
    fn default_number(
        &self,
        alloc: Global,
        known: &Known<'_, 't>,
        scope: Scope,
        start: usize,
        end: usize,
    ) -> Result<Option<String>, Refusal> {
        let number = match known.values.number_at(scope, start) {
            Ok((number, behind)) if behind == end => number,
            _ => return Ok(None),
        };
        let is_taken = match numbers_between(&self.last.left, false, 0) {
            Ok(Numbers::All) => is_integer(number),
            Ok(Numbers::Between(low, high)) => is_one_of_more(number, low, high),
            _ => false,
        };
        if is_taken {
            Ok(Some(format!(in alloc; "{number}")?))
        } else {
            Ok(None)
        }
    }

    /// The item that a DEFAULT names.
    fn default_item(
        &self,
        alloc: Global,
        known: &Known<'_, 't>,
        name: &str,
    ) -> Result<Option<String>, Refusal> {
        let Some((module, braces)) = self.last.named else {
            return Ok(None);
        };
        let scope = Scope {
            module,
            named: None,
            instance: None,
            least: None,
            most: None,
        };
        let items = items_of(alloc, known.values, scope, braces)?;
        if items.root.len() < 2 {
            return Ok(None);
        }
        for item in &items.root {
            if *item.name.as_bytes() == *name.as_bytes() {
                return Ok(Some(String::from_str(alloc, name)?));
            }
        }
        Ok(None)
    }
}
