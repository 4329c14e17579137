//! Where the sets of objects of tables are (X.682, "table constraint").
use asn_published_text::modules::{What, World};
use asn_published_text::nodes::Node;
use asn_published_text::token::Sign;
use asn_published_text::tokens::{Tokens, next};

/// A set of objects in braces.
#[derive(Clone, Copy)]
pub(crate) struct Set {
    pub module: usize,
    pub braces: usize,
    pub instance: Option<usize>,
}

/// The braces of the set of a table constraint alone after the field of a class, and those of what it relates to.
pub(crate) fn table_at(tokens: &Tokens<'_>, node: &Node<'_>) -> Option<(usize, Option<usize>)> {
    let open = node.constraints;
    let set = next(open);
    let is_alone = tokens.is(open, Sign::LeftParen) && tokens.after(open) == node.end;
    if !is_alone || !tokens.is(set, Sign::LeftBrace) {
        return None;
    }
    let behind = tokens.after(set);
    if tokens.is(behind, Sign::LeftBrace) {
        if tokens.after(behind) == tokens.other(open) {
            return Some((set, Some(behind)));
        }
        return None;
    }
    if behind == tokens.other(open) {
        Some((set, None))
    } else {
        None
    }
}

/// The component of the same SEQUENCE to which a table constraint relates, in the braces at `braces`, and whether it is found from
/// the outermost type; `None` where it is another or there are several.
pub(crate) fn relation_at<'t>(tokens: &Tokens<'t>, braces: usize) -> Option<(&'t str, bool)> {
    let sign = next(braces);
    if !tokens.is(sign, Sign::At) {
        return None;
    }
    let is_outermost = !tokens.is(next(sign), Sign::Dot);
    let at = if is_outermost {
        next(sign)
    } else {
        next(next(sign))
    };
    if tokens.is_identifier(at) && next(at) == tokens.other(braces) {
        Some((tokens.text(at), is_outermost))
    } else {
        None
    }
}

/// The set that the name at `at` assigns, and the index after the name; `None` where it is none in braces.
pub(crate) fn set_assigned(world: &World<'_>, module: usize, at: usize) -> Option<(Set, usize)> {
    let (to, behind) = world.reference_at(module, at).ok()?;
    let it = world.assignment(to)?;
    let is_set = it.what == What::Set && it.parameters.is_none();
    if !is_set || !is_braced(world, it.module, it.start, it.end) {
        return None;
    }
    let set = Set {
        module: it.module,
        braces: it.start,
        instance: None,
    };
    Some((set, behind))
}

/// Whether lexical items are one pair of braces.
pub(crate) fn is_braced(world: &World<'_>, module: usize, start: usize, end: usize) -> bool {
    match world.tokens_of(module) {
        Some(tokens) => tokens.is(start, Sign::LeftBrace) && tokens.after(start) == end,
        None => false,
    }
}
