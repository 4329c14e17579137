//! The indexes of names: of components, items and alternatives, root before additions.
ghost use Rattle.std.specs.Prelude.{◌≡◌, ◌<◌, ◌+◌, ◌^◌, ◌++◌, IfSome, length, map};
ghost use Rattle.asn_values.specs.LookUp.{added};
ghost use Rattle.asn_view.specs.Names.{index_of, component_names, item_names, alternative_names};

use asn_values::internal::{Named, additions};
use asn_values::{Alt, Field, Item};

/// The index of the component of this name, root and then additions.
pub fn component_index(root: &[Field], ext: &Option<Vec<Field>>, name: &str) -> Option<usize>
    ensures index { result ≡ index_of name.now (component_names (root.now ++ added ext.now)) }
    ensures inside { IfSome result (λ p. p < length (root.now ++ added ext.now)) }
{
    index_named::<Field>(root, additions(ext), name)
}

/// The index of the item of this name, root and then additions.
pub fn item_index(root: &[Item], ext: &Option<Vec<Item>>, name: &str) -> Option<usize>
    ensures index { result ≡ index_of name.now (item_names (root.now ++ added ext.now)) }
    ensures inside { IfSome result (λ p. p < length (root.now ++ added ext.now)) }
{
    index_named::<Item>(root, additions(ext), name)
}

/// The index of the alternative of this name, root and then additions: its tag.
pub fn alternative_index(root: &[Alt], ext: &Option<Vec<Alt>>, name: &str) -> Option<usize>
    ensures index { result ≡ index_of name.now (alternative_names (root.now ++ added ext.now)) }
    ensures inside { IfSome result (λ p. p < length (root.now ++ added ext.now)) }
{
    index_named::<Alt>(root, additions(ext), name)
}

/// The index of the first of this name in the root, or else among the additions, which count from the root's end.
fn index_named<T: Named>(root: &[T], more: &[T], name: &str) -> Option<usize>
    requires { length root.now + length more.now < 2 ^ 64 }
    ensures index { result ≡ index_of name.now (map T.name_of (root.now ++ more.now)) }
    ensures inside { IfSome result (λ p. p < length (root.now ++ more.now)) }
{
    match index_among(root, name) {
        Some(index) => Some(index),
        None => match index_among(more, name) {
            None => None,
            Some(index) => Some(root.len() + index),
        },
    }
}

/// The index of the first of this name.
fn index_among<T: Named>(parts: &[T], name: &str) -> Option<usize>
    ensures index { result ≡ index_of name.now (map T.name_of parts.now) }
    ensures inside { IfSome result (λ p. p < length parts.now) }
{
    for (index, part) in parts.iter().enumerate() {
        if *part.name() == *name {
            return Some(index);
        }
    }
    None
}
