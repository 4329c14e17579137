//! Which types are the same.
ghost use Rattle.std.specs.Prelude.{◌≡◌, ◌↔◌, IsTrue, map};
ghost use Rattle.std.specs.Cmp.{on_per};
ghost use Rattle.std.specs.Ordering.{on};
ghost use Rattle.asn_values.specs.TypeEquality.{shape_eq, shape_eq_per};
ghost use Rattle.asn_values.specs.View.{shape_of, label_of, more_labels_of, demand_of, part_of_field, branch_of, labels_seen};

use crate::equality::same;
use crate::types::{Alt, AsnType, Field, Item, Need};

/// Two types are equal where they are the same: of the same kind, with the same bounds, names, numbers, DEFAULT
/// values and extension markers, and the same types inside. Allocates nothing.
impl PartialEq for AsnType {
    ghost eq = { on shape_of shape_eq };

    ghost laws = { on_per shape_of shape_eq_per };

    fn eq(&self, other: &Self) -> bool {
        is_same_type(self, other)
    }
}

/// Whether both are the same type.
#[cycle(is_same_type)]
fn is_same_type(left: &AsnType, right: &AsnType) -> bool
    ensures { IsTrue result ↔ (shape_of left.now ≡ shape_of right.now) }
{
    match left {
        AsnType::Bool => matches!(right, AsnType::Bool),
        AsnType::Null => matches!(right, AsnType::Null),
        AsnType::Int(bounds) => matches!(right, AsnType::Int(other) if *bounds == *other),
        AsnType::Enum { root, ext } => match right {
            AsnType::Enum {
                root: items,
                ext: more,
            } => are_same_items(root, items) && are_same_added_items(ext, more),
            _ => false,
        },
        AsnType::Bits(size) => matches!(right, AsnType::Bits(other) if *size == *other),
        AsnType::Octets(size) => matches!(right, AsnType::Octets(other) if *size == *other),
        AsnType::Text(kind, size) => match right {
            AsnType::Text(other_kind, other) => *kind == *other_kind && *size == *other,
            _ => false,
        },
        AsnType::Utf8 => matches!(right, AsnType::Utf8),
        AsnType::Seq { root, ext } => match right {
            AsnType::Seq {
                root: fields,
                ext: more,
            } => {
                are_same_fields(root, fields)
                    && match (ext, more) {
                        (None, None) => true,
                        (Some(added), Some(others)) => are_same_fields(added, others),
                        _ => false,
                    }
            }
            _ => false,
        },
        AsnType::SeqOf(element, size) => match right {
            AsnType::SeqOf(other, bounds) => *size == *bounds && is_same_type(element, other),
            _ => false,
        },
        AsnType::Choice { root, ext } => match right {
            AsnType::Choice {
                root: alternatives,
                ext: more,
            } => {
                are_same_alternatives(root, alternatives)
                    && match (ext, more) {
                        (None, None) => true,
                        (Some(added), Some(others)) => are_same_alternatives(added, others),
                        _ => false,
                    }
            }
            _ => false,
        },
    }
}

/// Whether both are the same components, one after the other.
#[cycle(is_same_type)]
fn are_same_fields(left: &[Field], right: &[Field]) -> bool
    ensures { IsTrue result ↔ (map part_of_field left.now ≡ map part_of_field right.now) }
{
    if right.len() != left.len() {
        return false;
    }
    for (index, field) in left.iter().enumerate() {
        if !is_same_field(field, &right[index]) {
            return false;
        }
    }
    true
}

/// Whether both are the same component.
#[cycle(is_same_type)]
fn is_same_field(left: &Field, right: &Field) -> bool
    ensures { IsTrue result ↔ (part_of_field left.now ≡ part_of_field right.now) }
{
    *left.name == *right.name
        && is_same_need(&left.need, &right.need)
        && is_same_type(&left.ty, &right.ty)
}

/// Whether both are the same alternatives, one after the other.
#[cycle(is_same_type)]
fn are_same_alternatives(left: &[Alt], right: &[Alt]) -> bool
    ensures { IsTrue result ↔ (map branch_of left.now ≡ map branch_of right.now) }
{
    if right.len() != left.len() {
        return false;
    }
    for (index, alternative) in left.iter().enumerate() {
        if !is_same_alternative(alternative, &right[index]) {
            return false;
        }
    }
    true
}

/// Whether both are the same alternative.
#[cycle(is_same_type)]
fn is_same_alternative(left: &Alt, right: &Alt) -> bool
    ensures { IsTrue result ↔ (branch_of left.now ≡ branch_of right.now) }
{
    *left.name == *right.name && is_same_type(&left.ty, &right.ty)
}

/// Whether both say the same of when a component is there.
fn is_same_need(left: &Need, right: &Need) -> bool
    ensures { IsTrue result ↔ (demand_of left.now ≡ demand_of right.now) }
{
    match left {
        Need::Must => matches!(right, Need::Must),
        Need::Optional => matches!(right, Need::Optional),
        Need::Default(value) => matches!(right, Need::Default(other) if same(value, other)),
    }
}

/// Whether both are the same items, one after the other.
fn are_same_items(left: &[Item], right: &[Item]) -> bool
    ensures { IsTrue result ↔ (labels_seen left.now ≡ labels_seen right.now) }
{
    if right.len() != left.len() {
        return false;
    }
    for (index, item) in left.iter().enumerate() {
        if !is_same_item(item, &right[index]) {
            return false;
        }
    }
    true
}

/// Whether both are the same item.
fn is_same_item(left: &Item, right: &Item) -> bool
    ensures { IsTrue result ↔ (label_of left.now ≡ label_of right.now) }
{
    left.number == right.number && *left.name == *right.name
}

/// Whether both are the same additions, or there is no extension marker in either.
fn are_same_added_items(left: &Option<Vec<Item>>, right: &Option<Vec<Item>>) -> bool
    ensures { IsTrue result ↔ (more_labels_of left.now ≡ more_labels_of right.now) }
{
    match left {
        None => right.is_none(),
        Some(items) => match right {
            None => false,
            Some(others) => are_same_items(items, others),
        },
    }
}
