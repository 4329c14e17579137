//! Encoding prefixes (X.680, "encoding prefixed type"): which brackets begin one, by their encoding reference, or by that of
//! the module, as `XER INSTRUCTIONS`. What stands in them is defined by the Recommendation of that reference.
use asn_published_text::token::{Kind, Sign, Token};
use asn_published_text::tokens::next;

/// The text of an item; none past the end.
fn text_at<'t>(items: &[Token<'t>], index: usize) -> &'t str {
    match items.get(index) {
        Some(item) => item.text,
        None => "",
    }
}

/// Whether a sign stands at an index.
fn is_sign(items: &[Token<'_>], index: usize, sign: Sign) -> bool {
    match items.get(index) {
        Some(item) => item.kind == Kind::Sign(sign),
        None => false,
    }
}

/// Whether the bracket at `at` begins an encoding prefix, where those without a reference do if `is_default` holds.
fn is_prefix(items: &[Token<'_>], at: usize, is_default: bool) -> bool {
    let reference = next(at);
    let is_group = is_sign(items, reference, Sign::LeftBracket)
        || at > 0 && is_sign(items, at.saturating_sub(1), Sign::LeftBracket);
    if !is_sign(items, at, Sign::LeftBracket) || is_group {
        return false;
    }
    let word = text_at(items, reference);
    if is_sign(items, next(reference), Sign::Colon) {
        return is_capital(word) && word != "TAG";
    }
    // a tag has a class, a number or the name of one
    is_default && is_capital(word) && !["UNIVERSAL", "APPLICATION", "PRIVATE"].contains(&word)
}

/// Whether a word begins with a capital.
fn is_capital(word: &str) -> bool {
    match word.as_bytes().first() {
        Some(first) => first.is_ascii_uppercase(),
        None => false,
    }
}

/// Whether the brackets without a reference begin encoding prefixes from the item at `at` on, where they did before it if
/// `is_default` holds: a module says so with its head.
fn default_at(items: &[Token<'_>], at: usize, is_default: bool) -> bool {
    let second = next(next(at));
    if text_at(items, at) != "DEFINITIONS" {
        is_default
    } else if text_at(items, second) == "INSTRUCTIONS" {
        text_at(items, next(at)) != "TAG"
    } else {
        false
    }
}

/// The index after the syntax of a class, whose brackets are groups, where its WITH stands at `at`; else the next one.
fn after_syntax(items: &[Token<'_>], others: &[usize], at: usize) -> usize {
    let braces = next(next(at));
    let is_syntax = text_at(items, at) == "WITH" && text_at(items, next(at)) == "SYNTAX";
    match others.get(braces) {
        Some(other) if is_syntax => next((*other).max(at)),
        _ => next(at),
    }
}

/// Marks the brackets that begin encoding prefixes; `others` has the index of the other bracket of each.
pub(crate) fn mark_prefixes(items: &mut Vec<Token<'_>>, others: &[usize]) {
    let mut at = 0;
    let mut is_default = false;
    for _ in 0..items.len() {
        if at >= items.len() {
            break;
        }
        is_default = default_at(items.as_slice(), at, is_default);
        if is_prefix(items.as_slice(), at, is_default) {
            if let Some(item) = items.get_mut(at) {
                item.kind = Kind::Sign(Sign::Prefix);
            }
        }
        at = after_syntax(items.as_slice(), others, at);
    }
}
