//! Where a text first departs from the grammar, however deep its types are nested. No call goes deeper for a type
//! inside another one: the lists that are open are kept on a stack.

ghost use Rattle.std.specs.Prelude.{◌≤◌, ◌<◌, length, IfOk};
ghost use Rattle.asn_notation.specs.Lexing.{lexed};
ghost use Rattle.asn_notation.specs.Reading.{Shortens};

use crate::constraints::{
    after_sign, after_word, begins_sign, begins_word, constraint_at, list_size_at,
};
use crate::fault::SyntaxFault;
use crate::lexer::{after_first, first_token};
use crate::modules::{heading_at, name_at};
use crate::parts::{after_additions, goes_on, identifier_at, need_at};
use crate::token::{Lexeme, Sign, Word};
use crate::types::type_after_word;
use std::alloc::Global;

/// A list of components or of alternatives that is open.
#[derive(Clone, Copy)]
struct Open {
    /// Whether its entries are components.
    components: bool,
    /// Whether its `...` was read.
    marked: bool,
}

/// What was read of a type.
#[derive(Clone, Copy)]
enum Begun {
    /// All of it.
    Whole,
    /// SEQUENCE OF: the type of its elements follows.
    Element,
    /// The brace that opens a list, and the first identifier: the type of this entry follows.
    List(Open),
}

/// The text after the next identifier.
fn after_identifier<'t>(text: &'t str) -> Result<&'t str, SyntaxFault>
    ensures { IfOk result (λ rest. length (lexed rest.now) < length (lexed text.now)) }
{
    let (_, rest) = identifier_at(text)?;
    Ok(rest)
}

/// After `...` or an extension addition: a further addition up to its type, or the closing brace.
fn addition<'t>(open: Open, text: &'t str) -> Result<(Option<Open>, &'t str), SyntaxFault>
    ensures shorter { Shortens text.now result }
{
    if goes_on(text) {
        let rest = after_identifier(after_first(text))?;
        Ok((Some(open), rest))
    } else {
        let rest = after_additions(text)?;
        Ok((None, rest))
    }
}

/// After an entry of the root: a further entry up to its type, or the closing brace.
fn root_entry<'t>(open: Open, text: &'t str) -> Result<(Option<Open>, &'t str), SyntaxFault>
    ensures shorter { Shortens text.now result }
{
    if goes_on(text) {
        let rest = after_identifier(after_first(text))?;
        Ok((Some(open), rest))
    } else if begins_sign(Sign::Comma, text) {
        let rest = after_sign(Sign::Dots, after_first(text))?;
        let open = Open {
            components: open.components,
            marked: true,
        };
        addition(open, rest)
    } else {
        let rest = after_sign(Sign::RightBrace, text)?;
        Ok((None, rest))
    }
}

/// After the type of an entry: what belongs to this entry, and a further entry up to its type, or the closing
/// brace.
fn next_entry<'t>(open: Open, text: &'t str) -> Result<(Option<Open>, &'t str), SyntaxFault>
    ensures shorter { Shortens text.now result }
{
    let mut rest = text;
    if open.components {
        let (_, after) = need_at(text)?;
        rest = after;
    }
    if open.marked {
        addition(open, rest)
    } else {
        root_entry(open, rest)
    }
}

/// What follows the brace of a SEQUENCE.
fn begin_body<'t>(text: &'t str) -> Result<(Begun, &'t str), SyntaxFault>
    ensures shorter { Shortens text.now result }
{
    if begins_sign(Sign::RightBrace, text) {
        return Ok((Begun::Whole, after_first(text)));
    }
    if begins_sign(Sign::Dots, text) {
        let open = Open {
            components: true,
            marked: true,
        };
        return match addition(open, after_first(text))? {
            (Some(open), rest) => Ok((Begun::List(open), rest)),
            (None, rest) => Ok((Begun::Whole, rest)),
        };
    }
    let rest = after_identifier(text)?;
    let open = Open {
        components: true,
        marked: false,
    };
    Ok((Begun::List(open), rest))
}

/// What follows SEQUENCE.
fn begin_sequence<'t>(text: &'t str) -> Result<(Begun, &'t str), SyntaxFault>
    ensures shorter { Shortens text.now result }
{
    if begins_sign(Sign::LeftBrace, text) {
        return begin_body(after_first(text));
    }
    let (_, rest) = list_size_at(text)?;
    let rest = after_word(Word::Of, rest)?;
    Ok((Begun::Element, rest))
}

/// What follows CHOICE.
fn begin_choice<'t>(text: &'t str) -> Result<(Begun, &'t str), SyntaxFault>
    ensures shorter { Shortens text.now result }
{
    let rest = after_sign(Sign::LeftBrace, text)?;
    let rest = after_identifier(rest)?;
    let open = Open {
        components: false,
        marked: false,
    };
    Ok((Begun::List(open), rest))
}

/// A type up to the first one inside it.
fn begin_type<'t>(alloc: Global, text: &'t str) -> Result<(Begun, &'t str), SyntaxFault>
    ensures shorter { Shortens text.now result }
{
    match first_token(text) {
        Some((Lexeme::Name(_), rest)) => {
            let (_, rest) = constraint_at(rest)?;
            Ok((Begun::Whole, rest))
        }
        Some((Lexeme::Word(Word::Sequence), rest)) => begin_sequence(rest),
        Some((Lexeme::Word(Word::Choice), rest)) => begin_choice(rest),
        Some((Lexeme::Word(word), rest)) => {
            let (_, rest) = type_after_word(alloc, word, text, rest, 0)?;
            Ok((Begun::Whole, rest))
        }
        _ => Err(SyntaxFault::at(text)),
    }
}

/// After a type: the lists that end there, and whether a further entry was read up to its type.
fn end_types<'t>(open: &mut Vec<Open>, text: &'t str) -> Result<(bool, &'t str), SyntaxFault>
    ensures within { IfOk result (λ p. length (lexed p.1.now) ≤ length (lexed text.now)) }
{
    let mut rest = text;
    'lists: loop {
        let Some(list) = open.pop() else {
            return Ok((false, rest));
        };
        match next_entry(list, rest)? {
            (Some(list), after) => {
                open.push(list)?;
                return Ok((true, after));
            }
            (None, after) => rest = after,
        }
    }
}

/// The text after a type.
fn after_type<'t>(alloc: Global, text: &'t str) -> Result<&'t str, SyntaxFault>
    ensures { IfOk result (λ rest. length (lexed rest.now) < length (lexed text.now)) }
{
    let mut open = Vec::new(alloc);
    let mut rest = text;
    'types: loop {
        match begin_type(alloc, rest)? {
            (Begun::Whole, after) => {
                let (goes_on, after) = end_types(&mut open, after)?;
                if !goes_on {
                    return Ok(after);
                }
                rest = after;
            }
            (Begun::Element, after) => rest = after,
            (Begun::List(list), after) => {
                open.push(list)?;
                rest = after;
            }
        }
    }
}

/// Whether a text is of the grammar, with types at any depth.
///
/// # Errors
/// `Unexpected` and `OutOfProfile` at the first token with which no module goes on; `Memory` where an allocation
/// failed.
pub(crate) fn check_grammar(alloc: Global, text: &str) -> Result<(), SyntaxFault> {
    let (_, heading) = heading_at(text)?;
    let mut rest = heading;
    'assignments: loop {
        if begins_word(Word::End, rest) {
            let end = after_first(rest);
            return match first_token(end) {
                None => Ok(()),
                Some(_) => Err(SyntaxFault::at(end)),
            };
        }
        let (_, after) = name_at(rest)?;
        let after = after_sign(Sign::Becomes, after)?;
        rest = after_type(alloc, after)?;
    }
}
