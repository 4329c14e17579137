//! The lexical items of a text, each bracket with its other.
use crate::lexer::items_of;
use crate::prefixes::mark_prefixes;
use asn_published_text::token::{Kind, Sign, Token};
use asn_published_text::tokens::Tokens;
use asn_published_text::wrong::{TextFault, Wrong};
use std::alloc::Global;

/// The bracket that closes an opening one.
fn closing(sign: Sign) -> Option<Sign> {
    match sign {
        Sign::LeftBrace => Some(Sign::RightBrace),
        Sign::LeftParen => Some(Sign::RightParen),
        Sign::LeftBracket => Some(Sign::RightBracket),
        _ => None,
    }
}

/// Whether the sign closes a bracket.
fn is_closing(sign: Sign) -> bool {
    matches!(
        sign,
        Sign::RightBrace | Sign::RightParen | Sign::RightBracket
    )
}

/// A bracket that is open: the index and the line of its item, and the sign that closes it.
#[derive(Clone, Copy)]
struct Open {
    index: usize,
    line: u32,
    closing: Sign,
}

/// A bracket without its other, on this line.
fn lone_bracket(line: u32) -> TextFault {
    TextFault::At {
        line,
        wrong: Wrong::Bracket,
    }
}

/// Takes a closing bracket: gives the innermost open one its index.
fn close(
    open: &mut Vec<Open>,
    others: &mut Vec<usize>,
    index: usize,
    sign: Sign,
    line: u32,
) -> Result<(), TextFault> {
    match open.pop() {
        Some(last) if last.closing == sign => {
            if let Some(other) = others.get_mut(last.index) {
                *other = index;
            }
            Ok(())
        }
        _ => Err(lone_bracket(line)),
    }
}

/// The index after the comma at `at`, in braces that hold more.
pub(crate) fn past_comma(tokens: &Tokens<'_>, at: usize) -> Result<usize, TextFault> {
    tokens.past(at, Sign::Comma, ", or }")
}

/// Of each item the index of its other bracket, or its own.
fn others_of(alloc: Global, items: &[Token<'_>]) -> Result<Vec<usize>, TextFault> {
    let mut others = Vec::new(alloc);
    let mut open = Vec::new(alloc);
    for (index, item) in items.iter().enumerate() {
        others.push(index)?;
        if let Kind::Sign(sign) = item.kind {
            if let Some(closing) = closing(sign) {
                open.push(Open {
                    index,
                    line: item.line,
                    closing,
                })?;
            } else if is_closing(sign) {
                close(&mut open, &mut others, index, sign, item.line)?;
            }
        }
    }
    match open.pop() {
        None => Ok(others),
        Some(last) => Err(lone_bracket(last.line)),
    }
}

/// The lexical items of a text.
pub(crate) fn tokens_of<'t>(alloc: Global, text: &'t str) -> Result<Tokens<'t>, TextFault> {
    let mut items = items_of(alloc, text)?;
    let others = others_of(alloc, items.as_slice())?;
    mark_prefixes(&mut items, others.as_slice());
    Ok(Tokens { items, others })
}
