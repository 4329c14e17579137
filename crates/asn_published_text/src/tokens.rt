//! The lexical items of a text, each bracket with its other.
use crate::token::{Kind, Sign, Token};
use crate::wrong::{TextFault, Wrong};

/// The lexical items of a text. An index past the end is that of no item.
#[derive(Drop)]
pub struct Tokens<'t> {
    pub items: Vec<Token<'t>>,
    /// Of an opening bracket the index of its other, else that of the item itself.
    pub others: Vec<usize>,
}

/// The index before this one.
pub fn before(index: usize) -> usize {
    index.saturating_sub(1)
}

/// The index after this one.
pub fn next(index: usize) -> usize {
    index.saturating_add(1)
}

impl<'t> Tokens<'t> {
    pub fn len(&self) -> usize {
        self.items.len()
    }

    /// The line of an item; past the end that of the last one.
    pub fn line(&self, index: usize) -> u32 {
        match self.items.get(index) {
            Some(item) => item.line,
            None => match self.items.last() {
                Some(item) => item.line,
                None => 1,
            },
        }
    }

    /// The text of an item; past the end there is none.
    pub fn text(&self, index: usize) -> &'t str {
        match self.items.get(index) {
            Some(item) => item.text,
            None => "",
        }
    }

    fn kind(&self, index: usize) -> Option<Kind> {
        match self.items.get(index) {
            Some(item) => Some(item.kind),
            None => None,
        }
    }

    /// Whether the item is this sign.
    pub fn is(&self, index: usize, sign: Sign) -> bool {
        match self.kind(index) {
            Some(Kind::Sign(found)) => found == sign,
            _ => false,
        }
    }

    /// Whether the item is this word.
    pub fn is_word(&self, index: usize, word: &str) -> bool {
        match self.kind(index) {
            Some(Kind::Word) => *self.text(index).as_bytes() == *word.as_bytes(),
            _ => false,
        }
    }

    /// Whether the item is one of these words.
    pub fn is_one_of(&self, index: usize, words: &[&str]) -> bool {
        words.contains(&self.text(index))
    }

    /// Whether the item is of a kind that is no sign.
    pub fn is_kind(&self, index: usize, kind: Kind) -> bool {
        self.kind(index) == Some(kind)
    }

    /// Whether the item is a word that begins with a small letter.
    pub fn is_identifier(&self, index: usize) -> bool {
        self.is_kind(index, Kind::Word) && starts_small(self.text(index))
    }

    /// Whether the item is a word that begins with a capital.
    pub fn is_capital(&self, index: usize) -> bool {
        self.is_kind(index, Kind::Word) && !starts_small(self.text(index))
    }

    /// Whether a tag or an encoding prefix begins at `index`.
    pub fn is_bracket(&self, index: usize) -> bool {
        self.is(index, Sign::LeftBracket) || self.is(index, Sign::Prefix)
    }

    /// The index of the other bracket, where an opening one is at `index`; else `index`.
    pub fn other(&self, index: usize) -> usize {
        match self.others.get(index) {
            Some(other) => *other,
            None => index,
        }
    }

    /// The index after an item, or after the group of brackets that it opens.
    pub fn after(&self, index: usize) -> usize {
        next(self.other(index))
    }

    /// A fault at an item: what should be there.
    pub fn expected(&self, index: usize, what: &'static str) -> TextFault {
        TextFault::At {
            line: self.line(index),
            wrong: Wrong::Expected(what),
        }
    }

    /// The index after this sign, which must be at `index`.
    pub fn past(&self, index: usize, sign: Sign, what: &'static str) -> Result<usize, TextFault> {
        if self.is(index, sign) {
            Ok(next(index))
        } else {
            Err(self.expected(index, what))
        }
    }
}

/// Whether the word begins with a small letter.
fn starts_small(word: &str) -> bool {
    match word.as_bytes().first() {
        Some(first) => first.is_ascii_lowercase(),
        None => false,
    }
}
