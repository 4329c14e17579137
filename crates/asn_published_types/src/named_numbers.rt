//! Named numbers of INTEGER (X.680, "integer type").
use asn_published_text::extents::after_tags;
use asn_published_text::modules::{Assignment, What, World};
use asn_published_text::refusal::Why;
use asn_published_text::token::Sign;
use asn_published_text::tokens::{Tokens, next};

/// How many named numbers are looked at for a name.
const MOST_NAMES: u32 = 1000;

/// How many types are followed to their named numbers.
const MOST_LEADS: u32 = 32;

/// Where the number of a name stands among the named ones whose `{` is at `braces`; `None` where none has the name. A
/// fault where there are too many of them.
pub(crate) fn place_of_named(
    tokens: &Tokens<'_>,
    braces: usize,
    name: &str,
) -> Result<Option<usize>, Why> {
    let end = tokens.other(braces);
    let mut at = next(braces);
    for _ in 0..MOST_NAMES {
        if at >= end {
            return Ok(None);
        }
        if *tokens.text(at).as_bytes() == *name.as_bytes() {
            return Ok(Some(next(next(at))));
        }
        at = next(tokens.after(next(at)));
    }
    Err(Why::Value)
}

/// The module and the `{` of the named numbers of the type at `from`; `None` where it has none.
fn named_numbers_of(world: &World<'_>, module: usize, from: usize) -> Option<(usize, usize)> {
    let (mut module, mut from) = (module, from);
    for _ in 0..MOST_LEADS {
        let tokens = world.tokens_of(module)?;
        let at = after_tags(tokens, from);
        if tokens.is_word(at, "INTEGER") {
            let braces = next(at);
            return if tokens.is(braces, Sign::LeftBrace) {
                Some((module, braces))
            } else {
                None
            };
        }
        let found = match world.reference_at(module, at) {
            Ok((to, _)) => world.assignment(to)?,
            Err(_) => return None,
        };
        if found.what != What::Type {
            return None;
        }
        (module, from) = (found.module, found.start);
    }
    None
}

/// Where the number stands that a value assignment names, in a module, where its value is a named number of its type.
pub(crate) fn named_number_of(
    world: &World<'_>,
    assignment: &Assignment<'_>,
) -> Option<(usize, usize)> {
    let tokens = world.tokens_of(assignment.module)?;
    if !tokens.is_identifier(assignment.start) || next(assignment.start) != assignment.end {
        return None;
    }
    let (module, braces) = named_numbers_of(world, assignment.module, assignment.governor)?;
    let there = world.tokens_of(module)?;
    match place_of_named(there, braces, tokens.text(assignment.start)) {
        Ok(Some(place)) => Some((module, place)),
        _ => None,
    }
}
