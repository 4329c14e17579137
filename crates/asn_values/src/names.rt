//! The names of components, alternatives and items: identifiers of the notation, each only once.
ghost use Rattle.std.specs.Prelude.{◌≡◌, ◌&&◌, ◌||◌, ◌++◌, List, ℕ, map, bytes_eq, string_bytes};
ghost use Rattle.std.specs.List.{list_any, list_all};
ghost use Rattle.asn_values.specs.Profile as profile;

use crate::profile::MAX_ITEMS;
use crate::tables::is_name_twice;
use crate::types::{Alt, Field, Item};
use std::alloc::Global;

/// What has a name in a type.
pub trait Named {
    ghost name_of: { Self → List ℕ };

    /// Its name.
    fn name(&self) -> &str
        ensures { result.now ≡ name_of self.now };
}

impl Named for Field {
    ghost name_of = { λ f. string_bytes f.name };

    fn name(&self) -> &str {
        self.name.as_str()
    }
}

impl Named for Alt {
    ghost name_of = { λ a. string_bytes a.name };

    fn name(&self) -> &str {
        self.name.as_str()
    }
}

impl Named for Item {
    ghost name_of = { λ i. string_bytes i.name };

    fn name(&self) -> &str {
        self.name.as_str()
    }
}

/// Whether a name stands twice in the lists, or one is no identifier.
pub(crate) fn are_bad<T: Named>(alloc: Global, root: &[T], additions: &[T]) -> bool
    ensures { result ≡ profile.bad_names (map T.name_of root.now ++ map T.name_of additions.now) }
{
    if MAX_ITEMS < root.len() || MAX_ITEMS < additions.len() {
        // a list longer than the profile has; without memory for a table its names are compared by pairs
        if let Ok(is_twice) = is_name_twice(alloc, root, additions) {
            return is_twice || !are_identifiers(root) || !are_identifiers(additions);
        }
    }
    are_bad_by_pairs(root, additions)
}

/// Whether each name is an identifier.
fn are_identifiers<T: Named>(parts: &[T]) -> bool
    ensures { result ≡ list_all profile.is_identifier (map T.name_of parts.now) }
{
    for part in parts {
        if !is_identifier(part.name().as_bytes()) {
            return false;
        }
    }
    true
}

/// Whether a name stands twice in the lists, or one is no identifier, each name being compared with those after it.
fn are_bad_by_pairs<T: Named>(root: &[T], additions: &[T]) -> bool
    ensures { result ≡ profile.bad_names (map T.name_of root.now ++ map T.name_of additions.now) }
{
    for (index, part) in root.iter().enumerate() {
        let name = part.name();
        if !is_identifier(name.as_bytes())
            || is_among(name, &root[index + 1..])
            || is_among(name, additions)
        {
            return true;
        }
    }
    for (index, part) in additions.iter().enumerate() {
        let name = part.name();
        if !is_identifier(name.as_bytes()) || is_among(name, &additions[index + 1..]) {
            return true;
        }
    }
    false
}

/// Whether one of the parts has this name.
fn is_among<T: Named>(name: &str, parts: &[T]) -> bool
    ensures { result ≡ list_any (bytes_eq name.now) (map T.name_of parts.now) }
{
    for part in parts {
        if *name == *part.name() {
            return true;
        }
    }
    false
}

/// Whether the text is an identifier (X.680): a small letter, then letters, digits and hyphens,
/// a hyphen only before a letter or digit.
fn is_identifier(text: &[u8]) -> bool
    ensures { result ≡ profile.is_identifier text.now }
{
    match text {
        [] => false,
        [first, rest @ ..] => is_small_letter(*first) && goes_on(rest),
    }
}

/// Whether the text consists of letters and digits, and of hyphens before these.
fn goes_on(text: &[u8]) -> bool
    ensures { result ≡ profile.goes_on text.now }
{
    for (index, code) in text.iter().enumerate() {
        let is_hyphen = *code == b'-'
            && index + 1 < text.len()
            && is_letter_or_digit(text[index + 1]);
        if !is_letter_or_digit(*code) && !is_hyphen {
            return false;
        }
    }
    true
}

fn is_small_letter(code: u8) -> bool
    ensures { result ≡ profile.is_small_letter code }
{
    b'a' <= code && code <= b'z'
}

fn is_letter_or_digit(code: u8) -> bool
    ensures { result ≡ profile.is_letter_or_digit code }
{
    is_small_letter(code) || b'A' <= code && code <= b'Z' || b'0' <= code && code <= b'9'
}
