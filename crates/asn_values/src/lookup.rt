//! Components, items and alternatives by their names and indexes.
ghost use Rattle.std.specs.Prelude.{◌≡◌, ◌++◌, option_map, bytes_eq, slice_get};
ghost use Rattle.asn_values.specs.LookUp.{added, first_where, first_part, item_named, component_named, alternative_named};
ghost use Rattle.asn_values.specs.View.{shape_of, label_of, part_of_field, branch_of};

use crate::names::Named;
use crate::types::{Alt, AsnType, Field, Item};

impl AsnType {
    /// The first component of a SEQUENCE with this name, root before additions; None where there is
    /// none, or the type is no SEQUENCE.
    pub fn component(&self, name: &str) -> Option<&Field>
        ensures { option_map (λ f. part_of_field f.now) result ≡ component_named name.now (shape_of self.now) }
    {
        match self {
            AsnType::Seq { root, ext } => first_of(root, ext, name),
            _ => None,
        }
    }

    /// The first item of an ENUMERATED with this name, root before additions; None where there is
    /// none, or the type is no ENUMERATED.
    pub fn item(&self, name: &str) -> Option<&Item>
        ensures { option_map (λ i. label_of i.now) result ≡ item_named name.now (shape_of self.now) }
    {
        match self {
            AsnType::Enum { root, ext } => first_of(root, ext, name),
            _ => None,
        }
    }

    /// The first alternative of a CHOICE with this name, root before additions; None where there is
    /// none, or the type is no CHOICE.
    pub fn alternative(&self, name: &str) -> Option<&Alt>
        ensures { option_map (λ a. branch_of a.now) result ≡ alternative_named name.now (shape_of self.now) }
    {
        match self {
            AsnType::Choice { root, ext } => first_of(root, ext, name),
            _ => None,
        }
    }
}

/// The parts after an extension marker, if there is one.
pub fn additions<T>(ext: &Option<Vec<T>>) -> &[T]
    ensures { result.now ≡ added ext.now }
{
    match ext {
        Some(more) => more.as_slice(),
        None => &[],
    }
}

/// The part at an index, root before additions.
pub fn part_at<'a, T>(root: &'a [T], ext: &'a Option<Vec<T>>, index: usize) -> Option<&'a T>
    ensures { option_map (λ t. t.now) result ≡ slice_get (root.now ++ added ext.now) index }
{
    if index < root.len() {
        return root.get(index);
    }
    additions(ext).get(index - root.len())
}

/// The first of this name in the root, or else among the additions.
fn first_of<'a, T: Named>(root: &'a [T], ext: &'a Option<Vec<T>>, name: &str) -> Option<&'a T>
    ensures { option_map (λ t. t.now) result
        ≡ first_part (λ t. bytes_eq name.now (T.name_of t)) root.now ext.now }
{
    match first_among(root, name) {
        Some(part) => Some(part),
        None => match ext {
            Some(more) => first_among(more, name),
            None => None,
        },
    }
}

/// The first of this name.
fn first_among<'a, T: Named>(parts: &'a [T], name: &str) -> Option<&'a T>
    ensures { option_map (λ t. t.now) result ≡ first_where (λ t. bytes_eq name.now (T.name_of t)) parts.now }
{
    for part in parts {
        if *name == *part.name() {
            return Some(part);
        }
    }
    None
}
