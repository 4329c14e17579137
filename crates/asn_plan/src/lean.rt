//! Types without the components that have no units, which the exact reader reads faster.
ghost use Rattle.std.specs.Prelude.{◌≡◌, IfOk, IfSome};
ghost use Rattle.asn_values.specs.View.{shape_of, fields_seen, alternatives_seen, labels_seen, demand_of, part_of_field, branch_of, Part, Branch};
ghost use Rattle.asn_plan.specs.Nothing.{has_nothing, have_nothing};
ghost use Rattle.asn_plan.specs.InOrder.{numbered, numbered_if};
ghost use Rattle.asn_plan.specs.Lean.{AreLean, lean, lean_root, lean_each, lean_alternatives, is_left_out, is_single};

use crate::copies::{copy_items, copy_simple};
use crate::nothing::{is_one_number, is_zero};
use crate::plan::{Kind, Plan};
use asn_values::{Alt, AsnType, Checked, Field, Item, Need, TypeFault};
use std::alloc::{AllocError, Global};

/// Of fewer parts without units no lean type is made.
const FEW: usize = 64;

/// What a type is without the components that have no units.
#[derive(Drop)]
pub(crate) struct Leans {
    /// By any rules, where there are many of these.
    pub(crate) any: Option<Checked>,
    /// By rules that spell the only value of a type by nothing and an item by its index, where there are more of these, and
    /// many, or items out of order.
    pub(crate) single: Option<Checked>,
}

/// What the type of a plan is without the components that have no units.
///
/// # Errors
/// `AllocError` where an allocation failed.
pub(crate) fn leans_of(alloc: Global, ty: &Checked, plan: &Plan) -> Result<Leans, AllocError>
    ensures { IfOk result (λ l. AreLean l (shape_of ty.now)) }
{
    let parts = count_nothing(plan, false);
    let single_parts = count_nothing(plan, true);
    let is_leaner = FEW <= single_parts && parts < single_parts;
    let any = lean_type(alloc, ty, FEW <= parts, false)?;
    let single = lean_type(alloc, ty, is_leaner || has_items_out_of_order(plan), true)?;
    Ok(Leans { any, single })
}

/// The type without the components that have no units by any rules, if it is wanted; else none. With `single`, the same by
/// rules that spell the only value of a type by nothing and an item by its index.
///
/// # Errors
/// `AllocError` where an allocation failed.
fn lean_type(
    alloc: Global,
    ty: &Checked,
    is_wanted: bool,
    single: bool,
) -> Result<Option<Checked>, AllocError>
    ensures { IfOk result (λ o. IfSome o (λ l. shape_of l ≡ lean single (shape_of ty.now))) }
{
    if !is_wanted {
        return Ok(None);
    }
    let lean = lean_of(alloc, ty.get(), single)?;
    match Checked::new(alloc, lean) {
        Ok(lean) => Ok(Some(lean)),
        Err(TypeFault::Memory) => Err(AllocError),
        Err(_) => Ok(None),
    }
}

/// How many parts of the plan have no units by any rules; with `single`, by rules that spell the only value of a type by
/// nothing.
fn count_nothing(plan: &Plan, single: bool) -> usize {
    let mut parts: usize = 0;
    for node in plan.nodes.as_slice() {
        if node.entries_if_nothing(single) > 0 {
            parts = parts.saturating_add(1);
        }
    }
    parts
}

/// Whether the plan has an ENUMERATED whose items are written in another order than that of their numbers.
fn has_items_out_of_order(plan: &Plan) -> bool {
    for node in plan.nodes.as_slice() {
        if let Kind::Item(items) = &node.kind
            && !items.of.order.sorted.is_empty()
        {
            return true;
        }
    }
    false
}

/// Whether no value of the type has a unit, by any rules; with `single`, by rules that spell the only value of a type by
/// nothing.
#[cycle(has_nothing)]
pub(crate) fn has_nothing(ty: &AsnType, single: bool) -> bool
    ensures { result ≡ has_nothing single (shape_of ty.now) }
{
    match ty {
        AsnType::Null => true,
        AsnType::Int(bounds) => single && is_one_number(bounds),
        AsnType::Enum { root, ext } => single && root.len() == 1 && ext.is_none(),
        AsnType::Bits(size) | AsnType::Octets(size) | AsnType::Text(_, size) => {
            single && is_zero(size)
        }
        AsnType::Seq { root, ext } => ext.is_none() && have_nothing(root, single),
        AsnType::Bool | AsnType::Utf8 | AsnType::SeqOf(..) | AsnType::Choice { .. } => false,
    }
}

/// Whether all components have to be there, and none has a unit.
#[cycle(has_nothing)]
fn have_nothing(fields: &[Field], single: bool) -> bool
    ensures { result ≡ have_nothing single (fields_seen fields.now) }
{
    for field in fields {
        if !matches!(field.need, Need::Must) || !has_nothing(&field.ty, single) {
            return false;
        }
    }
    true
}

/// Whether the component has to be there, and no value of it has a unit.
fn is_left_out(field: &Field, single: bool) -> bool
    ensures { result ≡ is_left_out single (part_of_field field.now) }
{
    matches!(field.need, Need::Must) && has_nothing(&field.ty, single)
}

/// The items; with `single`, with the numbers from the least of 32 bits on, in the order in which they are written.
fn lean_items(alloc: Global, items: &[Item], single: bool) -> Result<Vec<Item>, AllocError>
    ensures { IfOk result (λ v. labels_seen v.items ≡ numbered_if single (labels_seen items.now)) }
{
    if single {
        return numbered_items(alloc, items);
    }
    copy_items(alloc, items)
}

/// The items with the numbers from the least of 32 bits on.
fn numbered_items(alloc: Global, items: &[Item]) -> Result<Vec<Item>, AllocError>
    ensures { IfOk result (λ v. labels_seen v.items ≡ numbered 0 (labels_seen items.now)) }
{
    let mut numbered = Vec::with_capacity(alloc, items.len())?;
    for (place, item) in items.iter().enumerate() {
        let name = String::from_str(alloc, item.name.as_str())?;
        let number = place as i64 - 2_147_483_648;
        numbered.push(Item { name, number })?;
    }
    Ok(numbered)
}

/// The type without the components that have no units; with `single`, and with numbers of items in the order in which these
/// are written.
#[cycle(lean)]
fn lean_of(alloc: Global, ty: &AsnType, single: bool) -> Result<AsnType, AllocError>
    ensures { IfOk result (λ l. shape_of l ≡ lean single (shape_of ty.now)) }
{
    match ty {
        AsnType::Seq { root, ext } => {
            let root = lean_root(alloc, root.as_slice(), single)?;
            let Some(more) = ext else {
                return Ok(AsnType::Seq { root, ext: None });
            };
            let more = lean_each(alloc, more.as_slice(), single)?;
            Ok(AsnType::Seq {
                root,
                ext: Some(more),
            })
        }
        AsnType::SeqOf(element, size) => {
            let element = lean_of(alloc, element, single)?;
            Ok(AsnType::SeqOf(Box::new(alloc, element)?, *size))
        }
        AsnType::Choice { root, ext } => {
            let root = lean_alternatives(alloc, root.as_slice(), single)?;
            let Some(more) = ext else {
                return Ok(AsnType::Choice { root, ext: None });
            };
            let more = lean_alternatives(alloc, more.as_slice(), single)?;
            Ok(AsnType::Choice {
                root,
                ext: Some(more),
            })
        }
        AsnType::Enum { root, ext } => {
            let root = lean_items(alloc, root.as_slice(), single)?;
            let Some(more) = ext else {
                return Ok(AsnType::Enum { root, ext: None });
            };
            let more = copy_items(alloc, more.as_slice())?;
            Ok(AsnType::Enum {
                root,
                ext: Some(more),
            })
        }
        AsnType::Bool
        | AsnType::Null
        | AsnType::Int(_)
        | AsnType::Bits(_)
        | AsnType::Octets(_)
        | AsnType::Text(..)
        | AsnType::Utf8 => copy_simple(alloc, ty),
    }
}

/// The components of a root, without those that have to be there and have no units.
#[cycle(lean)]
fn lean_root(alloc: Global, fields: &[Field], single: bool) -> Result<Vec<Field>, AllocError>
    ensures { IfOk result (λ v. fields_seen v.items ≡ lean_root single (fields_seen fields.now)) }
{
    let mut kept = Vec::new(alloc);
    for field in fields {
        if !is_left_out(field, single) {
            kept.push(lean_field(alloc, field, single)?)?;
        }
    }
    Ok(kept)
}

/// Extension additions, none left out.
#[cycle(lean)]
fn lean_each(alloc: Global, fields: &[Field], single: bool) -> Result<Vec<Field>, AllocError>
    ensures { IfOk result (λ v. fields_seen v.items ≡ lean_each single (fields_seen fields.now)) }
{
    let mut kept = Vec::with_capacity(alloc, fields.len())?;
    for field in fields {
        kept.push(lean_field(alloc, field, single)?)?;
    }
    Ok(kept)
}

/// Whether items are numbered in the type of such a component: not where an item is its DEFAULT.
fn is_single(need: &Need, single: bool) -> bool
    ensures { result ≡ is_single single (demand_of need.now) }
{
    match need {
        Need::Must | Need::Optional => single,
        Need::Default(_) => false,
    }
}

/// A component of the lean type.
#[cycle(lean)]
fn lean_field(alloc: Global, field: &Field, single: bool) -> Result<Field, AllocError>
    ensures { IfOk result (λ f. part_of_field f ≡ record {
      name = (part_of_field field.now).name;
      demand = (part_of_field field.now).demand;
      shape = lean (is_single single (part_of_field field.now).demand) (part_of_field field.now).shape;
    }) }
{
    let need = match &field.need {
        Need::Must => Need::Must,
        Need::Optional => Need::Optional,
        Need::Default(default) => Need::Default(default.clone()?),
    };
    Ok(Field {
        name: String::from_str(alloc, field.name.as_str())?,
        ty: lean_of(alloc, &field.ty, is_single(&field.need, single))?,
        need,
    })
}

/// Alternatives of lean types.
#[cycle(lean)]
fn lean_alternatives(
    alloc: Global,
    alternatives: &[Alt],
    single: bool,
) -> Result<Vec<Alt>, AllocError>
    ensures { IfOk result (λ v.
        alternatives_seen v.items ≡ lean_alternatives single (alternatives_seen alternatives.now)) }
{
    let mut kept = Vec::with_capacity(alloc, alternatives.len())?;
    for alternative in alternatives {
        kept.push(lean_alternative(alloc, alternative, single)?)?;
    }
    Ok(kept)
}

/// An alternative of the lean type.
#[cycle(lean)]
fn lean_alternative(alloc: Global, alternative: &Alt, single: bool) -> Result<Alt, AllocError>
    ensures { IfOk result (λ a. branch_of a ≡ record {
      name = (branch_of alternative.now).name;
      shape = lean single (branch_of alternative.now).shape;
    }) }
{
    Ok(Alt {
        name: String::from_str(alloc, alternative.name.as_str())?,
        ty: lean_of(alloc, &alternative.ty, single)?,
    })
}
