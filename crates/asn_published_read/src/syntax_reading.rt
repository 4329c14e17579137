//! The syntax of the objects of a class (X.681, "object class assignment"; "object assignment").
use crate::class_reading::after_field_name;
use asn_published_text::syntax::{Item, MOST_ITEMS, Syntax, SyntaxItem, is_literal};
use asn_published_text::token::Sign;
use asn_published_text::tokens::{Tokens, next};
use asn_published_text::wrong::TextFault;
use std::alloc::Global;
use std::collections::HashMap;

/// The syntax in the braces at `braces`, of a class with these fields.
pub(crate) fn syntax_at<'t>(
    alloc: Global,
    tokens: &Tokens<'t>,
    braces: usize,
    fields: &HashMap<&'t str, usize>,
) -> Result<Syntax<'t>, TextFault> {
    let end = tokens.other(braces);
    if end.saturating_sub(braces) > MOST_ITEMS {
        return Err(tokens.expected(braces, "a syntax of at most 1000 lexical items"));
    }
    let mut syntax = Syntax {
        items: Vec::new(alloc),
        words: HashMap::new(alloc),
        fields: HashMap::new(alloc),
    };
    let mut at = next(braces);
    let mut group = None;
    for _ in 0..MOST_ITEMS {
        if at >= end {
            break;
        }
        let (what, behind) = item_at(&mut syntax, tokens, at, fields)?;
        group = take(&mut syntax, what, group)?;
        at = behind;
    }
    Ok(syntax)
}

/// The item at `at`, and the index after it.
fn item_at<'t>(
    syntax: &mut Syntax<'t>,
    tokens: &Tokens<'t>,
    at: usize,
    fields: &HashMap<&'t str, usize>,
) -> Result<(Item<'t>, usize), TextFault> {
    let behind = next(at);
    if tokens.is(at, Sign::LeftBracket) {
        return Ok((Item::Open, behind));
    }
    if tokens.is(at, Sign::RightBracket) {
        return Ok((Item::Close, behind));
    }
    if tokens.is(at, Sign::Comma) || is_literal(tokens, at) {
        let word = tokens.text(at);
        let _before = syntax.words.insert(word, ())?;
        return Ok((Item::Word(word), behind));
    }
    let end = after_field_name(tokens, at)?;
    match fields.get(tokens.text(behind)) {
        Some(index) => {
            let _before = syntax.fields.insert(*index, ())?;
            Ok((Item::Field(*index), end))
        }
        None => Err(tokens.expected(behind, "a field of this class")),
    }
}

/// Takes an item inside of a group, and gives the group that is the innermost after it.
fn take<'t>(
    syntax: &mut Syntax<'t>,
    what: Item<'t>,
    group: Option<usize>,
) -> Result<Option<usize>, TextFault> {
    let index = syntax.items.len();
    syntax.items.push(SyntaxItem {
        what,
        group,
        end: 0,
    })?;
    match what {
        Item::Open => Ok(Some(index)),
        Item::Close => Ok(close(syntax, group, next(index))),
        _ => Ok(group),
    }
}

/// Closes a group before `end`, and gives the one around it.
fn close(syntax: &mut Syntax<'_>, group: Option<usize>, end: usize) -> Option<usize> {
    match syntax.items.get_mut(group?) {
        Some(open) => {
            open.end = end;
            open.group
        }
        None => None,
    }
}
