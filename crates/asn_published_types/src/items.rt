//! Items of ENUMERATED, each with its number (X.680, "enumerated type").
use crate::limits::{MOST_ITEM_ADDITIONS, MOST_ITEMS, within};
use crate::membering::after_exception;
use crate::numbers::{Scope, Values};
use asn_published_text::refusal::{Refusal, Why, refused};
use asn_published_text::token::Sign;
use asn_published_text::tokens::{Tokens, next};
use std::alloc::Global;
use std::collections::HashMap;

/// An item, its line, and its number where it is given.
#[derive(Clone, Copy)]
pub struct Item<'t> {
    pub name: &'t str,
    pub number: i128,
    line: u32,
    has_number: bool,
    is_addition: bool,
}

/// The items of an ENUMERATED.
#[derive(Drop)]
pub struct Items<'t> {
    pub root: Vec<Item<'t>>,
    pub additions: Vec<Item<'t>>,
    pub marked: bool,
    /// Additional items have other numbers than the published ones.
    pub renumbered: bool,
}

/// The item at `at`, and the index after it.
fn item_at<'t>(
    values: Values<'_, 't>,
    tokens: &Tokens<'t>,
    scope: Scope,
    at: usize,
    is_addition: bool,
) -> Result<(Item<'t>, usize), Refusal> {
    if !tokens.is_identifier(at) {
        return Err(refused(tokens.line(at), Why::Items));
    }
    let mut item = Item {
        name: tokens.text(at),
        number: 0,
        line: tokens.line(at),
        has_number: false,
        is_addition,
    };
    let mut behind = next(at);
    if tokens.is(behind, Sign::LeftParen) {
        let end = tokens.other(behind);
        let (number, after) = values.number_at(scope, next(behind))?;
        if after != end {
            return Err(refused(tokens.line(at), Why::Items));
        }
        item.number = number;
        item.has_number = true;
        behind = next(end);
    }
    Ok((item, behind))
}

/// The index after an extension mark and its exception, from the index after the mark.
fn after_mark(tokens: &Tokens<'_>, from: usize, line: u32) -> Result<usize, Refusal> {
    match after_exception(tokens, from) {
        Ok(behind) => Ok(behind),
        Err(_fault) => Err(refused(line, Why::Items)),
    }
}

/// The items in the braces at `braces`, as they are written, and whether a mark is.
fn written_items<'t>(
    alloc: Global,
    values: Values<'_, 't>,
    tokens: &Tokens<'t>,
    scope: Scope,
    braces: usize,
) -> Result<(Vec<Item<'t>>, bool), Refusal> {
    let end = tokens.other(braces);
    let mut items = Vec::new(alloc);
    let mut marked = false;
    let mut at = next(braces);
    for _ in 0..tokens.len() {
        if at >= end {
            break;
        }
        let line = tokens.line(at);
        if tokens.is(at, Sign::Dots) && !marked {
            marked = true;
            at = after_mark(tokens, next(at), line)?;
        } else {
            let (item, behind) = item_at(values, tokens, scope, at, marked)?;
            items.push(item)?;
            at = behind;
        }
        if at < end {
            if !tokens.is(at, Sign::Comma) {
                return Err(refused(line, Why::Items));
            }
            at = next(at);
        }
    }
    Ok((items, marked))
}

/// Refuses no items before the mark, more than the profile takes, and a name that two have: on the line of the item, or
/// of the braces.
fn check_items(alloc: Global, items: &[Item<'_>], line: u32) -> Result<(), Refusal> {
    match items.first() {
        Some(first) if !first.is_addition => {}
        _ => return Err(refused(line, Why::NoRoot)),
    }
    if let Some(item) = items.get(MOST_ITEMS) {
        within(item.line, "items", items.len(), MOST_ITEMS)?;
    }
    let mut taken = HashMap::new(alloc);
    for item in items {
        if taken.insert(item.name, ())?.is_some() {
            return Err(refused(item.line, Why::NameTaken));
        }
    }
    Ok(())
}

/// Refuses a number that two items have.
fn check_numbers(alloc: Global, items: &[Item<'_>]) -> Result<(), Refusal> {
    let mut taken = HashMap::new(alloc);
    for item in items {
        if taken.insert(item.number, ())?.is_some() {
            return Err(refused(item.line, Why::NumberTaken));
        }
    }
    Ok(())
}

/// Refuses a number outside 32 bits.
fn check_range(items: &[Item<'_>]) -> Result<(), Refusal> {
    for item in items {
        if i32::try_from(item.number).is_err() {
            return Err(refused(item.line, Why::ItemNumber));
        }
    }
    Ok(())
}

/// Numbers the items that have none: those of the root with the least numbers that no item of the root has, one
/// after the other; each additional one with the least number above the additional ones before it that no item of the
/// root has.
fn give_numbers(alloc: Global, items: &mut Vec<Item<'_>>) -> Result<(), Refusal> {
    let mut taken = HashMap::new(alloc);
    for item in items.iter() {
        if item.has_number && !item.is_addition {
            taken.insert(item.number, ())?;
        }
    }
    let mut free = 0i128;
    let mut last: Option<i128> = None;
    for item in items.iter_mut() {
        if item.is_addition {
            if let Some(number) = last {
                free = number.saturating_add(1).max(free);
            }
        }
        if !item.has_number {
            for _ in 0..MOST_ITEMS {
                if !taken.contains_key(&free) {
                    break;
                }
                free = free.saturating_add(1);
            }
            item.number = free;
            free = free.saturating_add(1);
        }
        if item.is_addition {
            last = Some(item.number);
        }
    }
    Ok(())
}

/// Whether one of the items has this number.
fn has_number(items: &[Item<'_>], number: i128) -> bool {
    items.iter().any(|item| item.number == number)
}

/// The least number above this one that no item of the root has.
fn free_above(number: i128, root: &[Item<'_>]) -> i128 {
    let mut free = number.saturating_add(1);
    for _ in 0..MOST_ITEMS {
        if !has_number(root, free) {
            break;
        }
        free = free.saturating_add(1);
    }
    free
}

/// Puts the items of the root and the additional ones into their lists. An additional item whose number is not above
/// that of the one before it, which X.680 asks for, gets another.
fn put_apart<'t>(all: &[Item<'t>], items: &mut Items<'t>) -> Result<(), Refusal> {
    for item in all {
        if !item.is_addition {
            items.root.push(*item)?;
        }
    }
    let mut last: Option<i128> = None;
    for item in all {
        if item.is_addition {
            let mut addition = *item;
            if let Some(number) = last {
                if addition.number <= number {
                    addition.number = free_above(number, items.root.as_slice());
                    items.renumbered = true;
                }
            }
            last = Some(addition.number);
            items.additions.push(addition)?;
        }
    }
    Ok(())
}

/// The items in the braces at `braces`, with numbers. Additional items whose numbers do not rise get others.
pub fn items_of<'t>(
    alloc: Global,
    values: Values<'_, 't>,
    scope: Scope,
    braces: usize,
) -> Result<Items<'t>, Refusal> {
    let Some(tokens) = values.world.tokens_of(scope.module) else {
        return Err(refused(0, Why::Items));
    };
    let (mut all, marked) = written_items(alloc, values, tokens, scope, braces)?;
    check_items(alloc, all.as_slice(), tokens.line(braces))?;
    give_numbers(alloc, &mut all)?;
    check_numbers(alloc, all.as_slice())?;
    let mut items = Items {
        root: Vec::new(alloc),
        additions: Vec::new(alloc),
        marked,
        renumbered: false,
    };
    put_apart(all.as_slice(), &mut items)?;
    if let Some(item) = items.additions.get(MOST_ITEM_ADDITIONS) {
        within(
            item.line,
            "additional items",
            items.additions.len(),
            MOST_ITEM_ADDITIONS,
        )?;
    }
    check_range(items.root.as_slice())?;
    check_range(items.additions.as_slice())?;
    Ok(items)
}
