//! Reads values (X.680, "value assignment"), from a stack of the braces that are open, however deep they are nested.
use crate::brackets::past_comma;
use crate::reading::{Reading, Work};
use crate::value_kinds::{are_whole, begin_with, values_at, words_of};
use asn_published_text::token::Sign;
use asn_published_text::tokens::{Tokens, before, next};
use asn_published_text::value_steps::{Follows, Start, step_at};
use asn_published_text::values::Values;
use asn_published_text::wrong::TextFault;

/// Braces that are open: the index of the other one, and whether each value in them has a name.
#[derive(Clone, Copy)]
struct Open {
    close: usize,
    has_names: bool,
}

/// Whether the value at `at` has a name, as in SEQUENCE: an identifier after which a value begins.
fn has_name(tokens: &Tokens<'_>, at: usize) -> bool {
    let second = next(at);
    tokens.is_identifier(at)
        && !tokens.is(second, Sign::Comma)
        && !tokens.is(second, Sign::RightBrace)
        && !tokens.is(second, Sign::Colon)
        && !tokens.is(second, Sign::Dot)
}

/// The index of the value at `at`, after its name where those around it have names.
fn after_name(tokens: &Tokens<'_>, at: usize, has_names: bool) -> Result<usize, TextFault> {
    if !has_names {
        return Ok(at);
    }
    if has_name(tokens, at) {
        Ok(next(at))
    } else {
        Err(tokens.expected(at, "a name and its value"))
    }
}

/// Opens the braces at `braces`, and gives the index of the first value in them.
fn open_braces(
    tokens: &Tokens<'_>,
    open: &mut Vec<Open>,
    braces: usize,
    values: Values,
) -> Result<usize, TextFault> {
    let first = next(braces);
    let has_names = values == Values::Sequence || has_name(tokens, first);
    open.push(Open {
        close: tokens.other(braces),
        has_names,
    })?;
    after_name(tokens, first, has_names)
}

/// Closes the braces that end at `from`, and gives the index after them.
fn close_braces(open: &mut Vec<Open>, from: usize) -> usize {
    let mut at = from;
    for _ in 0..u64::MAX {
        match open.last() {
            Some(last) if last.close == at => at = next(at),
            _ => break,
        }
        let _closed = open.pop();
    }
    at
}

/// The index of the next value in the innermost braces, whose comma stands at `at`; `None` where no braces are open.
fn next_value(tokens: &Tokens<'_>, open: &[Open], at: usize) -> Result<Option<usize>, TextFault> {
    match open.last() {
        None => Ok(None),
        Some(last) => {
            let start = past_comma(tokens, at)?;
            Ok(Some(after_name(tokens, start, last.has_names)?))
        }
    }
}

/// The braces of actual parameters after the name of a value at `at`, as `name {5}` or `Module.name {5}`; `None` where
/// there are none before `end`.
fn actual_braces(tokens: &Tokens<'_>, at: usize, end: usize) -> Option<usize> {
    let braces = if tokens.is_identifier(at) {
        next(at)
    } else {
        next(next(next(at)))
    };
    if braces < end && tokens.is(braces, Sign::LeftBrace) {
        Some(braces)
    } else {
        None
    }
}

impl<'a, 't> Reading<'a, 't> {
    /// Reads the value that begins at `from`, which is one of these, and gives the index after it.
    pub(crate) fn read_value(
        &self,
        todo: &mut Vec<Work>,
        from: usize,
        values: Values,
    ) -> Result<usize, TextFault> {
        let mut open = Vec::new(self.alloc);
        let mut values = values;
        let mut at = from;
        for _ in 0..u64::MAX {
            let (behind, inner) = self.read_step(todo, &mut open, at, values)?;
            at = behind;
            match inner {
                Some(inner) => values = inner,
                None => {
                    values = Values::Any;
                    at = close_braces(&mut open, at);
                    match next_value(self.tokens, open.as_slice(), at)? {
                        Some(start) => at = start,
                        None => return Ok(at),
                    }
                }
            }
        }
        Err(self.tokens.expected(at, "a value"))
    }

    /// Reads what the value at `at` begins with, and gives the index after it, and which values may follow there; `None`
    /// where the value ends.
    fn read_step(
        &self,
        todo: &mut Vec<Work>,
        open: &mut Vec<Open>,
        at: usize,
        values: Values,
    ) -> Result<(usize, Option<Values>), TextFault> {
        let tokens = self.tokens;
        let step = step_at(tokens, at)?;
        if !begin_with(values, step.start) {
            return Err(tokens.expected(at, words_of(values)));
        }
        match step.follows {
            Follows::Nothing(behind) => {
                self.push_actual(todo, at, behind, step.start)?;
                Ok((behind, None))
            }
            Follows::Value(inner) if step.start == Start::Open => {
                let end = before(inner);
                self.push(todo, Work::Type { from: at, end })?;
                let values = values_at(self.world, self.module, at, self.is_plain);
                Ok((inner, Some(values)))
            }
            Follows::Value(inner) => Ok((inner, Some(Values::Any))),
            Follows::Braces(braces) => {
                if are_whole(values, tokens, braces)? {
                    Ok((tokens.after(braces), None))
                } else {
                    let first = open_braces(tokens, open, braces, values)?;
                    Ok((first, Some(Values::Any)))
                }
            }
        }
    }

    /// Asks for the actual parameters of the name of a value at `at`, where it has any before `end`.
    fn push_actual(
        &self,
        todo: &mut Vec<Work>,
        at: usize,
        end: usize,
        start: Start,
    ) -> Result<(), TextFault> {
        if start != Start::Name {
            return Ok(());
        }
        match actual_braces(self.tokens, at, end) {
            Some(braces) => self.push(todo, Work::Actual { at, braces }),
            None => Ok(()),
        }
    }
}
