//! Types that hold no others, built from their notation, and the DEFAULT of a component.

ghost use Rattle.std.specs.Prelude.{◌≡◌, None, Some, map, length};
ghost use Rattle.asn_values.specs.View.{datum_of, demand_of, shape_of, size_range_of};
ghost use Rattle.asn_notation.specs.Tree.{items_view, more_items, default_view, need_view};
ghost use Rattle.asn_module.specs.Known.{built_view, Gives};
ghost use Rattle.asn_module.specs.Meaning as spec;

use crate::bounds::{any_bounds, any_size, bounds_of, size_of};
use crate::fault::Refusal;
use crate::items::{has_number, items_from, named_value};
use crate::known::Built;
use asn_notation::{
    DefaultNotation, ItemNotation, ListSize, NeedNotation, RangeNotation, SizeNotation, StringKind,
};
use asn_values::{AsnType, Need, Size, TextKind, Value};
use std::alloc::Global;

/// A type on which no constraint is written.
pub(crate) fn free(ty: AsnType) -> Built
    ensures { built_view result ≡ spec.free (shape_of ty) }
{
    Built {
        ty,
        constraint: None,
    }
}

/// An INTEGER.
pub(crate) fn integer(range: Option<RangeNotation>) -> Built
    ensures { built_view result ≡ spec.integer_meant range }
{
    match range {
        None => free(AsnType::Int(any_bounds())),
        Some(range) => Built {
            ty: AsnType::Int(bounds_of(range)),
            constraint: Some(range.marked),
        },
    }
}

fn string_type(kind: StringKind, size: Size) -> AsnType
    ensures { shape_of result ≡ spec.string_shape kind (size_range_of size) }
{
    match kind {
        StringKind::Bits => AsnType::Bits(size),
        StringKind::Octets => AsnType::Octets(size),
        StringKind::Ia5 => AsnType::Text(TextKind::Ia5, size),
        StringKind::Numeric => AsnType::Text(TextKind::Numeric, size),
        StringKind::Visible => AsnType::Text(TextKind::Visible, size),
    }
}

/// A string that has a size.
pub(crate) fn string(kind: StringKind, size: Option<SizeNotation>) -> Built
    ensures { built_view result ≡ spec.string_meant kind size }
{
    match size {
        None => free(string_type(kind, any_size())),
        Some(size) => Built {
            ty: string_type(kind, size_of(size)),
            constraint: Some(size.marked),
        },
    }
}

/// A SEQUENCE OF this element.
pub(crate) fn list(alloc: Global, element: AsnType, size: ListSize) -> Result<Built, Refusal>
    ensures { Gives built_view result (Some (spec.list_meant (shape_of element) size)) }
{
    let element = Box::new(alloc, element)?;
    match size {
        ListSize::Any => Ok(free(AsnType::SeqOf(element, any_size()))),
        ListSize::Bare(size) | ListSize::Bracketed(size) => Ok(Built {
            ty: AsnType::SeqOf(element, size_of(size)),
            constraint: Some(size.marked),
        }),
    }
}

/// An ENUMERATED.
pub(crate) fn enumerated(
    alloc: Global,
    root: &[ItemNotation],
    more: &Option<Vec<ItemNotation>>,
) -> Result<Built, Refusal>
    ensures { Gives built_view result (Some (spec.enumerated_meant (items_view root.now) (more_items more.now))) }
{
    match more {
        None => {
            let numbered = has_number(root);
            let items = items_from(alloc, numbered, 0, root)?;
            Ok(free(AsnType::Enum {
                root: items,
                ext: None,
            }))
        }
        Some(more) => {
            let numbered = has_number(root) || has_number(more);
            let items = items_from(alloc, numbered, 0, root)?;
            let additions = items_from(alloc, numbered, root.len(), more)?;
            Ok(free(AsnType::Enum {
                root: items,
                ext: Some(additions),
            }))
        }
    }
}

/// The value of a DEFAULT of a component of this type.
fn default_value(ty: &AsnType, default: &DefaultNotation) -> Value
    ensures { datum_of result ≡ spec.default_value (shape_of ty.now) (default_view default.now) }
{
    match default {
        DefaultNotation::Boolean(truth) => Value::Bool(*truth),
        DefaultNotation::Number(number) => Value::Int(*number),
        DefaultNotation::Item(name) => named_value(ty, *name),
    }
}

/// Whether a component of this type has to be there.
pub(crate) fn need(ty: &AsnType, written: &NeedNotation) -> Need
    ensures { demand_of result ≡ spec.demand_meant (shape_of ty.now) (need_view written.now) }
{
    match written {
        NeedNotation::Must => Need::Must,
        NeedNotation::Optional => Need::Optional,
        NeedNotation::Default(default) => Need::Default(default_value(ty, default)),
    }
}
