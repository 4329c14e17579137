//! Reads values as they are written, of types that are simple (X.680, "value notation").
use crate::items::items_of;
use crate::numbers::Scope;
use crate::quoted::{bits_of, characters_of, octets_of};
use crate::subtypes::{Around, Of, Subtypes, Work};
use asn_constraints::{Constraint, TimeKind, judge};
use asn_published_text::extents::after_tags;
use asn_published_text::modules::What;
use asn_published_text::nodes::{Node, Shape};
use asn_published_text::refusal::Refusal;
use asn_published_text::token::Sign;
use asn_published_text::tokens::{Tokens, next};
use asn_values::Value;
use asn_values::profile::{HIGHEST_INTEGER, LOWEST_INTEGER, MAX_SIZE_BOUND};
use std::alloc::{AllocError, Global};

/// A value, and the index after it; `None` where it is not read.
pub(crate) type Read = Option<(Value, usize)>;

/// How deep values are read.
const MOST_LEVELS: u32 = 64;

/// The `{` of the named bits of a node; `None` where it has none.
fn braces_of_bits(tokens: &Tokens<'_>, node: &Node<'_>) -> Option<usize> {
    let braces = next(next(after_tags(tokens, node.at)));
    if tokens.is(braces, Sign::LeftBrace) {
        Some(braces)
    } else {
        None
    }
}

/// The bits of a type with named bits as they are encoded: without last zeros, and with as many as the least length has
/// (X.691, "bitstring type"). `None` where they are too many.
fn trimmed(bits: Vec<bool>, low: i128, high: i128) -> Result<Option<Vec<bool>>, AllocError> {
    let mut bits = bits;
    for _ in 0..bits.len() {
        if !matches!(bits.last(), Some(false)) {
            break;
        }
        bits.pop();
    }
    let low = match usize::try_from(low) {
        Ok(low) if low <= MAX_SIZE_BOUND as usize => low,
        Ok(_) => return Ok(None),
        Err(_) => 0,
    };
    for _ in bits.len()..low {
        bits.push(false)?;
    }
    if bits.len() as i128 > high {
        return Ok(None);
    }
    Ok(Some(bits))
}

impl<'a, 't> Subtypes<'a, 't> {
    /// The DEFAULT of a component whose type is a node, from `start` to before `end`; `None` where it is not read.
    pub fn default_of(
        &self,
        alloc: Global,
        index: usize,
        start: usize,
        end: usize,
        work: &mut Work,
    ) -> Result<Option<Value>, AllocError> {
        let Some(around) = self.place_of_default(index) else {
            return Ok(None);
        };
        let whole = self.whole_of(alloc, index, MOST_LEVELS, work)?;
        match self.value_at(alloc, around.after(&whole), start, MOST_LEVELS, work)? {
            Some((value, behind)) if behind == end => Ok(Some(value)),
            _ => Ok(None),
        }
    }

    /// Where the DEFAULT of a component is, whose type is a node: in the text of the type that holds the component.
    pub(crate) fn place_of_default(&self, index: usize) -> Option<Around> {
        let node = self.tagging.forest.node(index)?;
        let holder = self.tagging.forest.node(node.parent)?;
        Some(Around::of(&holder, self.base_of(index)?))
    }

    /// The value at `at` of the type at a place, and the index after it.
    #[cycle(values)]
    pub(crate) fn value_at(
        &self,
        alloc: Global,
        around: Around,
        at: usize,
        levels: u32,
        work: &mut Work,
    ) -> Result<Read, AllocError> {
        let (Some(tokens), Some(node)) = (
            self.values.world.tokens_of(around.module),
            self.tagging.forest.node(around.base),
        ) else {
            return Ok(None);
        };
        if levels == 0 || !work.take() || around.of != Of::Values {
            return Ok(None);
        }
        let there = self.values.world.tokens_of(node.module);
        let found = match node.shape {
            Shape::Boolean => truth_at(tokens, at),
            Shape::Null if tokens.is_word(at, "NULL") => Some((Value::Null, next(at))),
            Shape::Integer { named } => self.number_value(around, &node, named, at),
            Shape::Enumerated { braces } => self.item_at(alloc, around, &node, braces, at)?,
            Shape::Bits { .. } => self.bits_at(alloc, around, &node, at)?,
            Shape::Octets => octets_of(alloc, tokens, at)?,
            Shape::Text(_) => characters_of(alloc, tokens, at, false)?,
            Shape::Time => canonical_time(characters_of(alloc, tokens, at, false)?, &node, there),
            Shape::Utf8 => characters_of(alloc, tokens, at, true)?,
            Shape::List { .. } => self.list_value(alloc, around, at, levels - 1, work)?,
            Shape::Members { .. } => self.members_value(alloc, around, at, levels - 1, work)?,
            _ => None,
        };
        match found {
            Some((value, behind)) => {
                work.take_octets(octets_in(&value));
                Ok(Some((value, behind)))
            }
            None => self.value_of_name(alloc, around, at, levels - 1, work),
        }
    }

    /// The value that the name at `at` is assigned, and the index after it.
    #[cycle(values)]
    fn value_of_name(
        &self,
        alloc: Global,
        around: Around,
        at: usize,
        levels: u32,
        work: &mut Work,
    ) -> Result<Read, AllocError> {
        let Ok((to, behind)) = self.values.world.reference_at(around.module, at) else {
            return Ok(None);
        };
        let it = match self.values.world.assignment(to) {
            Some(it) if it.what == What::Value && it.parameters.is_none() && levels > 0 => *it,
            _ => return Ok(None),
        };
        let there = Around {
            module: it.module,
            instance: None,
            ..around
        };
        match self.value_at(alloc, there, it.start, levels - 1, work)? {
            Some((value, end)) if end == it.end => Ok(Some((value, behind))),
            _ => Ok(None),
        }
    }

    /// The number at `at`, and the index after it.
    fn number_value(
        &self,
        around: Around,
        node: &Node<'t>,
        named: Option<usize>,
        at: usize,
    ) -> Read {
        let named = named.map(|braces| (node.module, braces));
        match self.values.number_at(around.scope(named), at) {
            Ok((number, behind)) if LOWEST_INTEGER <= number && number <= HIGHEST_INTEGER => {
                Some((Value::Int(number), behind))
            }
            _ => None,
        }
    }

    /// The names of the items of an ENUMERATED with the number of those before them, root and then additions: the position
    /// of the item at `at`, and the index after it.
    fn item_at(
        &self,
        alloc: Global,
        around: Around,
        node: &Node<'t>,
        braces: usize,
        at: usize,
    ) -> Result<Read, AllocError> {
        let Some(tokens) = self.values.world.tokens_of(around.module) else {
            return Ok(None);
        };
        if !tokens.is_identifier(at) {
            return Ok(None);
        }
        let name = tokens.text(at);
        let items = match items_of(alloc, self.values, scope_of_items(node), braces) {
            Ok(items) => items,
            Err(Refusal::Memory) => return Err(AllocError),
            Err(Refusal::At { .. }) => return Ok(None),
        };
        let mut position = 0u32;
        for item in items.root.iter().chain(items.additions.iter()) {
            if *item.name.as_bytes() == *name.as_bytes() {
                return Ok(Some((Value::Enum(position), next(at))));
            }
            position = position.saturating_add(1);
        }
        Ok(None)
    }

    /// How many items the type of a node has; `None` where it is no ENUMERATED.
    pub fn count_of_items_at(
        &self,
        alloc: Global,
        index: usize,
    ) -> Result<Option<usize>, AllocError> {
        match self.base_of(index) {
            Some(base) => self.count_of_items(alloc, base),
            None => Ok(None),
        }
    }

    /// How many items an ENUMERATED has; `None` where the node is none.
    pub(crate) fn count_of_items(
        &self,
        alloc: Global,
        base: usize,
    ) -> Result<Option<usize>, AllocError> {
        let Some(node) = self.tagging.forest.node(base) else {
            return Ok(None);
        };
        let Shape::Enumerated { braces } = node.shape else {
            return Ok(None);
        };
        match items_of(alloc, self.values, scope_of_items(&node), braces) {
            Ok(items) => Ok(Some(items.root.len().saturating_add(items.additions.len()))),
            Err(Refusal::Memory) => Err(AllocError),
            Err(Refusal::At { .. }) => Ok(None),
        }
    }

    /// The bits at `at`, and the index after them: named ones, or digits in quotes.
    fn bits_at(
        &self,
        alloc: Global,
        around: Around,
        node: &Node<'t>,
        at: usize,
    ) -> Result<Read, AllocError> {
        let (Some(tokens), Some(there)) = (
            self.values.world.tokens_of(around.module),
            self.values.world.tokens_of(node.module),
        ) else {
            return Ok(None);
        };
        let braces = braces_of_bits(there, node);
        let bits = match braces {
            Some(braces) if tokens.is(at, Sign::LeftBrace) => {
                self.named_bits_at(alloc, tokens, at, (node.module, braces))?
            }
            _ => bits_of(alloc, tokens, at)?,
        };
        let Some(bits) = bits else {
            return Ok(None);
        };
        let bits = if braces.is_some() {
            trimmed(bits, around.lengths.low, around.lengths.high)?
        } else {
            Some(bits)
        };
        match bits {
            Some(bits) => Ok(Some((Value::Bits(bits), tokens.after(at)))),
            None => Ok(None),
        }
    }

    /// The bits whose names are in the braces at `at`; `named` has them with their numbers.
    fn named_bits_at(
        &self,
        alloc: Global,
        tokens: &Tokens<'t>,
        at: usize,
        named: (usize, usize),
    ) -> Result<Option<Vec<bool>>, AllocError> {
        let end = tokens.other(at);
        let mut bits = Vec::new(alloc);
        let mut at = next(at);
        for _ in 0..tokens.len() {
            if at >= end {
                return Ok(Some(bits));
            }
            let number = match self.values.named(named.0, named.1, tokens.text(at)) {
                Ok(Some(number)) => usize::try_from(number),
                _ => return Ok(None),
            };
            let number = match number {
                Ok(number) if number < MAX_SIZE_BOUND as usize => number,
                _ => return Ok(None),
            };
            for _ in bits.len()..=number {
                bits.push(false)?;
            }
            if let Some(bit) = bits.get_mut(number) {
                *bit = true;
            }
            at = next(at);
            if at < end && !tokens.is(at, Sign::Comma) {
                return Ok(None);
            }
            at = next(at);
        }
        Ok(None)
    }
}

/// How many octets of memory a string takes; none of another value.
fn octets_in(value: &Value) -> usize {
    match value {
        Value::Bits(bits) => bits.len(),
        Value::Octets(octets) => octets.len(),
        Value::Text(codes) => codes.len(),
        Value::Utf8(text) => text.len(),
        _ => 0,
    }
}

/// Where the numbers of items are.
fn scope_of_items(node: &Node<'_>) -> Scope {
    Scope {
        module: node.module,
        named: None,
        instance: node.instance,
        least: None,
        most: None,
    }
}

/// The kind of a time type.
pub fn kind_of_time(tokens: Option<&Tokens<'_>>, node: &Node<'_>) -> TimeKind {
    match tokens {
        Some(tokens) if tokens.is_word(after_tags(tokens, node.at), "UTCTime") => TimeKind::Utc,
        _ => TimeKind::Generalized,
    }
}

/// The value of a time type, where it is the canonical one of its time.
fn canonical_time(read: Read, node: &Node<'_>, tokens: Option<&Tokens<'_>>) -> Read {
    let (value, behind) = read?;
    if judge(&Constraint::Time(kind_of_time(tokens, node)), &value) {
        Some((value, behind))
    } else {
        None
    }
}

/// The truth value at `at`, and the index after it.
fn truth_at(tokens: &Tokens<'_>, at: usize) -> Read {
    if tokens.is_word(at, "TRUE") {
        Some((Value::Bool(true), next(at)))
    } else if tokens.is_word(at, "FALSE") {
        Some((Value::Bool(false), next(at)))
    } else {
        None
    }
}
