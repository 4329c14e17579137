//! Reads constraints and sets of values (X.680, "constrained types"; X.682), what stands in brackets apart.
use crate::brackets::past_comma;
use crate::reading::{Reading, Work};
use asn_published_text::extents::{after_braces, type_end};
use asn_published_text::places::{Unseen, is_and, is_contained, is_or, unseen_at};
use asn_published_text::token::Sign;
use asn_published_text::tokens::{Tokens, before, next};
use asn_published_text::values::Values;
use asn_published_text::wrong::TextFault;

/// Whether another element of a set follows the item at `at`.
pub(crate) fn is_operator(tokens: &Tokens<'_>, at: usize) -> bool {
    is_or(tokens, at) || is_and(tokens, at) || tokens.is_word(at, "EXCEPT")
}

/// The index after ALL EXCEPT, where it stands at `at`.
pub(crate) fn after_all(tokens: &Tokens<'_>, at: usize) -> usize {
    if tokens.is_word(at, "ALL") && tokens.is_word(next(at), "EXCEPT") {
        next(next(at))
    } else {
        at
    }
}

/// Whether a type is at `at`, and no value.
pub(crate) fn is_type(tokens: &Tokens<'_>, at: usize) -> bool {
    let second = next(at);
    let is_field = tokens.is(second, Sign::Dot) && tokens.is(next(second), Sign::Ampersand);
    let is_selection = tokens.is_identifier(at)
        && tokens.is(second, Sign::Less)
        && !tokens.is(next(second), Sign::UpTo);
    tokens.is_bracket(at) || is_selection || is_field || is_contained(tokens, at)
}

/// Whether what stands before `end` is the low end of a range.
fn is_range(tokens: &Tokens<'_>, end: usize) -> bool {
    tokens.is(end, Sign::UpTo) || tokens.is(end, Sign::Less)
}

/// Of a component relation, as `@a.b` or `@..c`, the index after it.
fn after_relation(tokens: &Tokens<'_>, from: usize) -> Result<usize, TextFault> {
    let mut at = tokens.past(from, Sign::At, "@")?;
    for _ in 0..tokens.len() {
        if !tokens.is(at, Sign::Dot) && !tokens.is(at, Sign::UpTo) && !tokens.is(at, Sign::Dots) {
            break;
        }
        at = next(at);
    }
    for _ in 0..tokens.len() {
        if !tokens.is_identifier(at) {
            break;
        }
        if !tokens.is(next(at), Sign::Dot) {
            return Ok(next(at));
        }
        at = next(next(at));
    }
    Err(tokens.expected(at, "the name of a component"))
}

/// Reads the components to which a table constraint relates, in the braces at `braces`.
fn read_relations(tokens: &Tokens<'_>, braces: usize) -> Result<(), TextFault> {
    let end = tokens.other(braces);
    let mut at = next(braces);
    for _ in 0..tokens.len() {
        at = after_relation(tokens, at)?;
        if at >= end {
            break;
        }
        at = past_comma(tokens, at)?;
    }
    Ok(())
}

/// The index after PRESENT, ABSENT or OPTIONAL, where it stands at `at`.
fn after_presence(tokens: &Tokens<'_>, at: usize) -> usize {
    if tokens.is_one_of(at, &["PRESENT", "ABSENT", "OPTIONAL"]) {
        next(at)
    } else {
        at
    }
}

impl<'a, 't> Reading<'a, 't> {
    /// Reads the elements of a constraint or of a set of values, in the brackets that open at `open`.
    pub(crate) fn read_elements(&self, todo: &mut Vec<Work>, open: usize) -> Result<(), TextFault> {
        let tokens = self.tokens;
        let end = tokens.other(open);
        let class = self.class_before(open);
        let mut at = next(open);
        let mut has_mark = false;
        for _ in 0..tokens.len() {
            at = self.read_element(todo, after_all(tokens, at), class)?;
            if tokens.is(at, Sign::Comma) && tokens.is(next(at), Sign::Dots) && !has_mark {
                has_mark = true;
                at = next(next(at));
                if tokens.is(at, Sign::Comma) {
                    at = next(at);
                    continue;
                }
            }
            at = self.read_exception(todo, at)?;
            if at >= end {
                break;
            }
            if !is_operator(tokens, at) {
                return Err(tokens.expected(at, "| or the end of a constraint"));
            }
            at = next(at);
        }
        Ok(())
    }

    /// The class whose field is the type before the constraint that opens at `open`, as in `C.&id ({Set})`.
    fn class_before(&self, open: usize) -> Option<usize> {
        let dot = before(before(before(open)));
        let is_field = self.tokens.is(dot, Sign::Dot) && self.tokens.is(next(dot), Sign::Ampersand);
        if !is_field || !self.tokens.is(open, Sign::LeftParen) {
            return None;
        }
        let name = before(dot);
        let is_named = self.tokens.is(before(name), Sign::Dot);
        let start = if is_named { before(before(name)) } else { name };
        self.class_at(self.module, start, dot)
    }

    /// Reads an element of a constraint at `at`, and gives the index after it; objects in braces are those of a class.
    fn read_element(
        &self,
        todo: &mut Vec<Work>,
        at: usize,
        class: Option<usize>,
    ) -> Result<usize, TextFault> {
        let tokens = self.tokens;
        if tokens.is(at, Sign::LeftParen) {
            self.push(todo, Work::Elements { open: at })?;
            return Ok(tokens.after(at));
        }
        if tokens.is(at, Sign::LeftBrace) && is_table(tokens, at, class) {
            return self.read_table(todo, at, class);
        }
        if let Some(open) = opens_elements(tokens, at) {
            self.push(todo, Work::Elements { open })?;
            return Ok(tokens.after(open));
        }
        if let Some((unseen, start)) = unseen_at(tokens, at) {
            return self.read_unseen(todo, unseen, start);
        }
        if is_type(tokens, at) {
            if let Ok(end) = type_end(tokens, at) {
                if !tokens.is(end, Sign::Colon) && !is_range(tokens, end) {
                    return self.push_type(todo, at);
                }
            }
        }
        self.read_range(todo, at)
    }

    /// Reads a value or a range of values at `at`, and gives the index after it.
    fn read_range(&self, todo: &mut Vec<Work>, at: usize) -> Result<usize, TextFault> {
        let tokens = self.tokens;
        let mut behind = self.read_bound(todo, at, "MIN")?;
        if tokens.is(behind, Sign::Less) {
            behind = next(behind);
        }
        if !tokens.is(behind, Sign::UpTo) {
            return if tokens.is_word(at, "MIN") || tokens.is(before(behind), Sign::Less) {
                Err(tokens.expected(behind, ".."))
            } else {
                Ok(behind)
            };
        }
        behind = next(behind);
        if tokens.is(behind, Sign::Less) {
            behind = next(behind);
        }
        self.read_bound(todo, behind, "MAX")
    }

    /// Reads the end of a range at `at`, a value or one of the words MIN and MAX, and gives the index after it.
    fn read_bound(&self, todo: &mut Vec<Work>, at: usize, open: &str) -> Result<usize, TextFault> {
        if self.tokens.is_word(at, open) {
            Ok(next(at))
        } else {
            self.read_value(todo, at, Values::Any)
        }
    }

    /// Reads the constraint after whose words `start` is, and gives the index after it.
    fn read_unseen(
        &self,
        todo: &mut Vec<Work>,
        unseen: Unseen,
        start: usize,
    ) -> Result<usize, TextFault> {
        match unseen {
            Unseen::Inner => {
                let behind = after_braces(self.tokens, start)?;
                self.push(todo, Work::Inner { braces: start })?;
                Ok(behind)
            }
            Unseen::UserDefined => {
                let behind = after_braces(self.tokens, start)?;
                self.read_user_defined(todo, start)?;
                Ok(behind)
            }
            Unseen::Value(values) => self.read_value(todo, start, values),
            Unseen::Type => self.push_type(todo, start),
            Unseen::Contents => self.read_contents(todo, start),
        }
    }

    /// Reads the type of contents at `at`, and how they are encoded, and gives the index after that.
    fn read_contents(&self, todo: &mut Vec<Work>, at: usize) -> Result<usize, TextFault> {
        let behind = self.push_type(todo, at)?;
        let by = next(behind);
        if self.tokens.is_word(behind, "ENCODED") && self.tokens.is_word(by, "BY") {
            self.read_value(todo, next(by), Values::Identifier)
        } else {
            Ok(behind)
        }
    }

    /// Reads what WITH COMPONENTS says, in the braces at `braces`.
    pub(crate) fn read_inner(&self, todo: &mut Vec<Work>, braces: usize) -> Result<(), TextFault> {
        let tokens = self.tokens;
        let end = tokens.other(braces);
        let mut at = next(braces);
        if tokens.is(at, Sign::Dots) {
            at = next(at);
            if at < end {
                at = past_comma(tokens, at)?;
            }
        }
        for _ in 0..tokens.len() {
            if at >= end {
                break;
            }
            if !tokens.is_identifier(at) {
                return Err(tokens.expected(at, "the name of a component"));
            }
            at = next(at);
            if tokens.is(at, Sign::LeftParen) {
                self.push(todo, Work::Elements { open: at })?;
                at = tokens.after(at);
            }
            at = after_presence(tokens, at);
            if at < end {
                at = past_comma(tokens, at)?;
            }
        }
        Ok(())
    }

    /// Reads what a user-defined constraint names, in the braces at `braces`: types, classes and sets of objects, and
    /// values and objects after what governs them.
    fn read_user_defined(&self, todo: &mut Vec<Work>, braces: usize) -> Result<(), TextFault> {
        let tokens = self.tokens;
        let end = tokens.other(braces);
        let mut at = next(braces);
        for _ in 0..tokens.len() {
            if at >= end {
                break;
            }
            let behind = self.push_type(todo, at)?;
            at = if tokens.is(behind, Sign::Colon) {
                self.read_governed(todo, (self.module, at, behind), next(behind))?
            } else {
                behind
            };
            if at < end {
                at = past_comma(tokens, at)?;
            }
        }
        Ok(())
    }

    /// Reads the table constraint at `at`, with objects of a class, and gives the index after it.
    fn read_table(
        &self,
        todo: &mut Vec<Work>,
        at: usize,
        class: Option<usize>,
    ) -> Result<usize, TextFault> {
        let behind = self.tokens.after(at);
        self.push(todo, Work::Objects { class, braces: at })?;
        if !self.tokens.is(behind, Sign::LeftBrace) {
            return Ok(behind);
        }
        read_relations(self.tokens, behind)?;
        Ok(self.tokens.after(behind))
    }
}

/// The opening parenthesis of the constraint inside of SIZE, FROM or WITH COMPONENT at `at`.
fn opens_elements(tokens: &Tokens<'_>, at: usize) -> Option<usize> {
    let open = if tokens.is_word(at, "SIZE") || tokens.is_word(at, "FROM") {
        next(at)
    } else if tokens.is_word(at, "WITH") && tokens.is_word(next(at), "COMPONENT") {
        next(next(at))
    } else {
        return None;
    };
    if tokens.is(open, Sign::LeftParen) {
        Some(open)
    } else {
        None
    }
}

/// Whether the item at `at` stands in a set of objects, and in no value.
fn is_of_set(tokens: &Tokens<'_>, at: usize) -> bool {
    tokens.is(at, Sign::Bar)
        || tokens.is(at, Sign::Dots)
        || tokens.is(at, Sign::Ampersand) && !tokens.is(before(at), Sign::Dot)
}

/// Whether a table constraint stands in the braces at `at`, and no value: components to which it relates follow, it
/// holds a set of objects, or of a class that is known what stands in braces.
fn is_table(tokens: &Tokens<'_>, at: usize, class: Option<usize>) -> bool {
    tokens.is(tokens.after(at), Sign::LeftBrace)
        || class.is_some() && tokens.is(next(at), Sign::LeftBrace)
        || is_set(tokens, at)
}

/// Whether the braces at `braces` hold a set of objects or its name, and no value.
fn is_set(tokens: &Tokens<'_>, braces: usize) -> bool {
    let end = tokens.other(braces);
    let mut at = next(braces);
    if is_type(tokens, at) && matches!(type_end(tokens, at), Ok(behind) if behind == end) {
        return true;
    }
    for _ in 0..tokens.len() {
        if at >= end {
            break;
        }
        if is_of_set(tokens, at) {
            return true;
        }
        at = tokens.after(at);
    }
    false
}
