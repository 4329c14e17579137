//! The syntax of the objects of a class (X.681, "object class assignment"), and what of it an object has.
use crate::token::Sign;
use crate::tokens::{Tokens, next};
use std::collections::HashMap;

/// How many lexical items a syntax may have.
pub const MOST_ITEMS: usize = 1000;

/// What a syntax has.
#[derive(Clone, Copy)]
pub enum Item<'t> {
    /// A word in capitals, or a comma.
    Word(&'t str),
    /// A field, by its index in the class.
    Field(usize),
    /// `[` of a group that may be left out.
    Open,
    /// `]`
    Close,
}

/// An item of a syntax.
#[derive(Clone, Copy)]
pub struct SyntaxItem<'t> {
    pub what: Item<'t>,
    /// The `[` of the innermost group around it.
    pub group: Option<usize>,
    /// Of `[` the index after its `]`.
    pub end: usize,
}

/// The syntax of a class.
#[derive(Drop)]
pub struct Syntax<'t> {
    pub items: Vec<SyntaxItem<'t>>,
    pub words: HashMap<&'t str, ()>,
    pub fields: HashMap<usize, ()>,
}

/// Whether all of a word is capitals and hyphens, as of those in a syntax.
pub fn is_literal(tokens: &Tokens<'_>, at: usize) -> bool {
    for one in tokens.text(at).as_bytes() {
        if !one.is_ascii_uppercase() && *one != b'-' {
            return false;
        }
    }
    tokens.is_capital(at)
}

impl<'t> Syntax<'t> {
    /// The item at an index.
    pub fn item(&self, index: usize) -> Option<SyntaxItem<'t>> {
        match self.items.get(index) {
            Some(item) => Some(*item),
            None => None,
        }
    }

    /// Whether a field is in the syntax.
    pub fn has_field(&self, index: usize) -> bool {
        self.fields.contains_key(&index)
    }

    /// Whether what an object gives may begin at `at`, and no word of the syntax stands there.
    fn is_given(&self, tokens: &Tokens<'_>, at: usize) -> bool {
        !tokens.is(at, Sign::RightBrace)
            && !tokens.is(at, Sign::Comma)
            && !(is_literal(tokens, at) && self.words.contains_key(tokens.text(at)))
    }

    /// The index after the innermost group around an item.
    fn after_group(&self, item: &SyntaxItem<'t>) -> usize {
        let open = match item.group {
            Some(open) => self.items.get(open),
            None => None,
        };
        match open {
            Some(open) => open.end,
            None => self.items.len(),
        }
    }

    /// Of the group that opens at `open` the item at `at` in an object, with which the group begins there;
    /// the index after the group where it is left out.
    pub fn entered(&self, tokens: &Tokens<'_>, at: usize, open: usize) -> usize {
        let end = match self.items.get(open) {
            Some(group) => group.end,
            None => next(open),
        };
        let mut index = next(open);
        for _ in 0..MOST_ITEMS {
            if index >= end {
                break;
            }
            let Some(item) = self.items.get(index) else {
                break;
            };
            let is_it = match item.what {
                Item::Word(word) => *word.as_bytes() == *tokens.text(at).as_bytes(),
                Item::Field(_) => self.is_given(tokens, at),
                Item::Open | Item::Close => {
                    index = next(index);
                    continue;
                }
            };
            if is_it {
                return index;
            }
            index = self.after_group(item);
        }
        end
    }
}
