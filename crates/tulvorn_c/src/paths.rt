//! Paths to the parts of a type's values, by the type alone.
ghost use Rattle.std.specs.Prelude.{◌≡◌, option_map, bytes_eq};
ghost use Rattle.asn_values.specs.LookUp.{first_where, first_part, component_named, alternative_named};
ghost use Rattle.asn_values.specs.View.{shape_of, part_of_field, branch_of};
ghost use Rattle.tulvorn_c.specs.Paths.{
  element_shape,
  shape_named,
  shape_at_step,
  shape_along,
  shape_at_path,
  code_without,
};

use crate::fault::{ABSENT, NO_PATH};
use asn_values::internal::Named;
use asn_values::{Alt, AsnType, Field};
use asn_view::{from_root, index_in, is_separator};

/// The code where a value has no part at the path.
pub(crate) fn code_without(ty: &AsnType, path: &str) -> u32
    ensures { result ≡ code_without (shape_at_path path.now (shape_of ty.now)) }
{
    match along(ty, from_root(path.as_bytes())) {
        Some(_) => ABSENT,
        None => NO_PATH,
    }
}

/// The type of the part at a path without a `$` in front.
fn along<'a>(ty: &'a AsnType, path: &[u8]) -> Option<&'a AsnType>
    ensures { option_map (λ t. shape_of t.now) result ≡ shape_along path.now (shape_of ty.now) }
{
    let mut here = ty;
    let mut start = 0;
    for (index, octet) in path.iter().enumerate() {
        if !is_separator(*octet) {
            continue;
        }
        here = step(here, &path[start..index])?;
        start = index + 1;
    }
    step(here, &path[start..])
}

/// The type that a piece of a path leads to.
fn step<'a>(ty: &'a AsnType, piece: &[u8]) -> Option<&'a AsnType>
    ensures { option_map (λ t. shape_of t.now) result ≡ shape_at_step piece.now (shape_of ty.now) }
{
    if piece.is_empty() {
        return Some(ty);
    }
    match index_in(piece) {
        Some(_) => element(ty),
        None => named(ty, piece),
    }
}

/// The type of the elements of a SEQUENCE OF.
fn element(ty: &AsnType) -> Option<&AsnType>
    ensures { option_map (λ t. shape_of t.now) result ≡ element_shape (shape_of ty.now) }
{
    match ty {
        AsnType::SeqOf(element, _) => Some(element),
        _ => None,
    }
}

/// The type of the component or alternative of a name.
fn named<'a>(ty: &'a AsnType, name: &[u8]) -> Option<&'a AsnType>
    ensures { option_map (λ t. shape_of t.now) result ≡ shape_named name.now (shape_of ty.now) }
{
    match component(ty, name) {
        Some(field) => Some(&field.ty),
        None => match alternative(ty, name) {
            Some(alternative) => Some(&alternative.ty),
            None => None,
        },
    }
}

fn component<'a>(ty: &'a AsnType, name: &[u8]) -> Option<&'a Field>
    ensures { option_map (λ f. part_of_field f.now) result ≡ component_named name.now (shape_of ty.now) }
{
    match ty {
        AsnType::Seq { root, ext } => first_of(root, ext, name),
        _ => None,
    }
}

fn alternative<'a>(ty: &'a AsnType, name: &[u8]) -> Option<&'a Alt>
    ensures { option_map (λ a. branch_of a.now) result ≡ alternative_named name.now (shape_of ty.now) }
{
    match ty {
        AsnType::Choice { root, ext } => first_of(root, ext, name),
        _ => None,
    }
}

/// The first of this name in the root, or else among the additions.
fn first_of<'a, T: Named>(root: &'a [T], ext: &'a Option<Vec<T>>, name: &[u8]) -> Option<&'a T>
    ensures { option_map (λ t. t.now) result ≡ first_part (λ t. bytes_eq name.now (T.name_of t)) root.now ext.now }
{
    match first_among(root, name) {
        Some(part) => Some(part),
        None => match ext {
            Some(more) => first_among(more, name),
            None => None,
        },
    }
}

/// The first of this name.
fn first_among<'a, T: Named>(parts: &'a [T], name: &[u8]) -> Option<&'a T>
    ensures { option_map (λ t. t.now) result ≡ first_where (λ t. bytes_eq name.now (T.name_of t)) parts.now }
{
    for part in parts {
        if *name == *part.name().as_bytes() {
            return Some(part);
        }
    }
    None
}
