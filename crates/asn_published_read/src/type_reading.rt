//! Reads types (X.680) with what they hold: tags, components, items, named numbers, parameters and constraints.
use crate::brackets::past_comma;
use crate::reading::{Reading, Work};
use crate::value_forms::{after_named_number, has_named_bits, has_named_numbers, has_tag};
use crate::value_kinds::values_at;
use asn_published_text::extents::{Rest, rest_of, type_end};
use asn_published_text::groups::{after_version, is_group};
use asn_published_text::token::Sign;
use asn_published_text::tokens::{Tokens, next};
use asn_published_text::value_steps::{Start, step_at};
use asn_published_text::values::Values;
use asn_published_text::words::{is_reserved, is_type_word, second_word};
use asn_published_text::wrong::TextFault;

/// The index after the tags and encoding prefixes at `from`.
fn after_read_tags(tokens: &Tokens<'_>, from: usize) -> Result<usize, TextFault> {
    let mut at = from;
    for _ in 0..tokens.len() {
        if !tokens.is_bracket(at) {
            break;
        }
        if !has_tag(tokens, at) {
            return Err(tokens.expected(at, "a tag"));
        }
        at = tokens.after(at);
        if tokens.is_word(at, "IMPLICIT") || tokens.is_word(at, "EXPLICIT") {
            at = next(at);
        }
    }
    Ok(at)
}

/// Reads named numbers, where braces stand at `at`.
fn read_names(tokens: &Tokens<'_>, at: usize) -> Result<(), TextFault> {
    if !tokens.is(at, Sign::LeftBrace) || has_named_numbers(tokens, at) {
        Ok(())
    } else {
        Err(tokens.expected(at, "named numbers"))
    }
}

/// Reads STRING at `second`, after BIT, and named bits.
fn read_bits(tokens: &Tokens<'_>, second: usize) -> Result<(), TextFault> {
    let names = next(second);
    if !tokens.is_word(second, "STRING") {
        Err(tokens.expected(second, "STRING"))
    } else if !tokens.is(names, Sign::LeftBrace) || has_named_bits(tokens, names) {
        Ok(())
    } else {
        Err(tokens.expected(names, "named bits"))
    }
}

/// Reads OF at `second`, after INSTANCE, and the name of a class.
fn read_instance(tokens: &Tokens<'_>, second: usize) -> Result<(), TextFault> {
    if !tokens.is_word(second, "OF") {
        Err(tokens.expected(second, "OF"))
    } else if tokens.is_capital(next(second)) {
        Ok(())
    } else {
        Err(tokens.expected(next(second), "the name of a class"))
    }
}

/// Reads ANY, with DEFINED BY and a name where they stand after it.
fn read_any_type(tokens: &Tokens<'_>, at: usize) -> Result<(), TextFault> {
    let second = next(at);
    let third = next(second);
    if !tokens.is_word(second, "DEFINED") {
        return Ok(());
    }
    if tokens.is_word(third, "BY") && tokens.is_identifier(next(third)) {
        Ok(())
    } else {
        Err(tokens.expected(third, "BY and the name of a component"))
    }
}

/// The index after the name at `at`, with those that stand after it, as `Module.Name` or `Class.&Field`.
pub(crate) fn after_names(tokens: &Tokens<'_>, from: usize) -> usize {
    let mut at = next(from);
    for _ in 0..tokens.len() {
        if !tokens.is(at, Sign::Dot) {
            break;
        }
        at = next(at);
        if tokens.is(at, Sign::Ampersand) {
            at = next(at);
        }
        at = next(at);
    }
    at
}

/// The index after an item of ENUMERATED at `at`.
fn after_item(tokens: &Tokens<'_>, at: usize) -> Result<usize, TextFault> {
    let behind = next(at);
    let end = if !tokens.is_identifier(at) {
        None
    } else if tokens.is(behind, Sign::LeftParen) {
        after_named_number(tokens, at)
    } else {
        Some(behind)
    };
    match end {
        Some(end) => Ok(end),
        None => Err(tokens.expected(at, "an item")),
    }
}

impl<'a, 't> Reading<'a, 't> {
    /// Asks for the type at `from`, and gives the index after it.
    pub(crate) fn push_type(&self, todo: &mut Vec<Work>, from: usize) -> Result<usize, TextFault> {
        let end = type_end(self.tokens, from)?;
        self.push(todo, Work::Type { from, end })?;
        Ok(end)
    }

    /// Reads the type from `from` on, which ends before `end`.
    pub(crate) fn read_type(
        &self,
        todo: &mut Vec<Work>,
        from: usize,
        end: usize,
    ) -> Result<(), TextFault> {
        let mut at = from;
        for _ in 0..self.tokens.len() {
            at = after_read_tags(self.tokens, at)?;
            match rest_of(self.tokens, at)? {
                Rest::Type(inner) => {
                    self.push_size(todo, at)?;
                    at = inner;
                }
                Rest::Constraints(behind) => {
                    self.push_constraints(todo, behind, end)?;
                    return self.read_words(todo, at);
                }
            }
        }
        Err(self.tokens.expected(at, "a type"))
    }

    /// Asks for the size of the list whose first word stands at `at`.
    fn push_size(&self, todo: &mut Vec<Work>, at: usize) -> Result<(), TextFault> {
        let second = next(at);
        let open = if self.tokens.is_word(second, "SIZE") {
            next(second)
        } else {
            second
        };
        self.push_constraints(todo, open, next(open))
    }

    /// Asks for the constraints in parentheses from `from` on, which begin before `end`.
    fn push_constraints(
        &self,
        todo: &mut Vec<Work>,
        from: usize,
        end: usize,
    ) -> Result<(), TextFault> {
        let mut open = from;
        for _ in 0..self.tokens.len() {
            if open >= end || !self.tokens.is(open, Sign::LeftParen) {
                break;
            }
            self.push(todo, Work::Elements { open })?;
            open = self.tokens.after(open);
        }
        Ok(())
    }

    /// Reads the words with which the type at `at` begins, after its tags, and what stands in braces after them.
    fn read_words(&self, todo: &mut Vec<Work>, at: usize) -> Result<(), TextFault> {
        let tokens = self.tokens;
        let second = next(at);
        if tokens.is_one_of(at, &["SEQUENCE", "SET", "CHOICE"]) {
            let members = Work::Members {
                from: next(second),
                end: tokens.other(second),
                is_choice: tokens.is_word(at, "CHOICE"),
                marks: 0,
            };
            return self.push(todo, members);
        }
        match tokens.text(at) {
            "ENUMERATED" => self.read_items(todo, second),
            "INTEGER" => read_names(tokens, second),
            "BIT" => read_bits(tokens, second),
            "ANY" => read_any_type(tokens, at),
            "INSTANCE" => read_instance(tokens, second),
            _ => self.read_name(todo, at),
        }
    }

    /// Reads the name of a type, or the words of one that has nothing in braces, at `at`.
    fn read_name(&self, todo: &mut Vec<Work>, at: usize) -> Result<(), TextFault> {
        let tokens = self.tokens;
        let word = tokens.text(at);
        if let Some((wanted, _)) = second_word(word) {
            return if tokens.is_word(next(at), wanted) {
                Ok(())
            } else {
                Err(tokens.expected(next(at), wanted))
            };
        }
        if is_reserved(word) && !is_type_word(word) {
            return Err(tokens.expected(at, "a type"));
        }
        let braces = after_names(tokens, at);
        if tokens.is(braces, Sign::LeftBrace) {
            return self.push(todo, Work::Actual { at, braces });
        }
        Ok(())
    }

    /// Reads components or alternatives, after this many extension marks; in a group there are none.
    pub(crate) fn read_members(
        &self,
        todo: &mut Vec<Work>,
        place: (usize, usize),
        is_choice: bool,
        marks: u32,
    ) -> Result<(), TextFault> {
        let tokens = self.tokens;
        let (mut at, end) = place;
        let mut marks = marks;
        for _ in 0..tokens.len() {
            if at >= end {
                break;
            }
            if tokens.is(at, Sign::Dots) {
                marks = marks.saturating_add(1);
            }
            if marks > 2 || is_group(tokens, at) && marks != 1 {
                return Err(tokens.expected(at, "a component"));
            }
            at = self.read_member(todo, at, is_choice)?;
            if at < end {
                at = past_comma(tokens, at)?;
                if at >= end {
                    return Err(tokens.expected(at, "a component"));
                }
            }
        }
        Ok(())
    }

    /// Reads the component, the alternative, the mark or the group at `at`, and gives the index after it.
    fn read_member(
        &self,
        todo: &mut Vec<Work>,
        at: usize,
        is_choice: bool,
    ) -> Result<usize, TextFault> {
        let tokens = self.tokens;
        let second = next(at);
        if tokens.is(at, Sign::Dots) {
            return self.read_exception(todo, second);
        }
        if is_group(tokens, at) {
            return self.push_group(todo, at, is_choice);
        }
        if tokens.is_word(at, "COMPONENTS") {
            return if tokens.is_word(second, "OF") {
                self.push_type(todo, next(second))
            } else {
                Err(tokens.expected(second, "OF"))
            };
        }
        if !tokens.is_identifier(at) {
            return Err(tokens.expected(at, "an identifier"));
        }
        let behind = self.push_type(todo, second)?;
        if is_choice {
            Ok(behind)
        } else {
            self.read_need(todo, second, behind)
        }
    }

    /// Asks for what the group at `at` holds, and gives the index after it.
    fn push_group(
        &self,
        todo: &mut Vec<Work>,
        at: usize,
        is_choice: bool,
    ) -> Result<usize, TextFault> {
        let inner = next(at);
        let end = self.tokens.other(inner);
        if next(end) != self.tokens.other(at) {
            return Err(self.tokens.expected(next(end), "]]"));
        }
        self.push(
            todo,
            Work::Members {
                from: after_version(self.tokens, next(inner)),
                end,
                is_choice,
                marks: 2,
            },
        )?;
        Ok(next(next(end)))
    }

    /// Reads whether the component may be absent whose type begins at `start` and ends before `at`, and gives the index
    /// after that.
    fn read_need(&self, todo: &mut Vec<Work>, start: usize, at: usize) -> Result<usize, TextFault> {
        if self.tokens.is_word(at, "OPTIONAL") {
            return Ok(next(at));
        }
        if !self.tokens.is_word(at, "DEFAULT") {
            return Ok(at);
        }
        let values = values_at(self.world, self.module, start, self.is_plain);
        self.read_value(todo, next(at), values)
    }

    /// Reads an exception, as `! 5` or `! Type : value`, where it stands at `at`, and gives the index after it.
    pub(crate) fn read_exception(
        &self,
        todo: &mut Vec<Work>,
        at: usize,
    ) -> Result<usize, TextFault> {
        if !self.tokens.is(at, Sign::Bang) {
            return Ok(at);
        }
        let start = step_at(self.tokens, next(at))?.start;
        if matches!(start, Start::Number | Start::Name | Start::Open) {
            self.read_value(todo, next(at), Values::Any)
        } else {
            Err(self.tokens.expected(next(at), "an exception"))
        }
    }

    /// Reads the items of ENUMERATED, in the braces at `braces`.
    fn read_items(&self, todo: &mut Vec<Work>, braces: usize) -> Result<(), TextFault> {
        let tokens = self.tokens;
        let end = tokens.other(braces);
        let mut at = next(braces);
        for _ in 0..tokens.len() {
            at = if tokens.is(at, Sign::Dots) {
                self.read_exception(todo, next(at))?
            } else {
                after_item(tokens, at)?
            };
            if at >= end {
                break;
            }
            at = past_comma(tokens, at)?;
        }
        Ok(())
    }
}
