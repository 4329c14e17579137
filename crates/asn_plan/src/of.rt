//! The plan of a type.
ghost use Rattle.std.specs.Prelude.{◌≡◌, ◌++◌, true, List, IfOk, OnOk};
ghost use Rattle.asn_values.specs.Parts.{AreOfProfile, AreAllOfProfile, IsGoodDemand};
ghost use Rattle.asn_values.specs.Profile.{InProfile};
ghost use Rattle.asn_values.specs.Shape.{Shape, Fields, MoreFields, Alternatives, MoreAlternatives, sequence, sequence_of, choice};
ghost use Rattle.asn_values.specs.View.{shape_of, fields_seen, part_of_field, size_range_of, alternatives_seen};
ghost use Rattle.asn_rules.specs.Listed.{bitmap_length};
ghost use Rattle.asn_walk.specs.Coding.{added, added_alternatives};
ghost use Rattle.asn_walk.specs.Laws.{IsSizeOfProfile};
ghost use Rattle.asn_plan.specs.declared.plan.Node.{Node};
ghost use Rattle.asn_plan.specs.SimpleTypes.{is_simple};
ghost use Rattle.asn_plan.specs.Plans.{IsLeafPlan, IsPresence, IsPlan, IsPlanOf, ArePlans, ArePlansOfMore, ArePlansOfEach, ArePlansOfOthers};

use crate::copies::copy_simple;
use crate::fields::{count_fields, index_fields};
use crate::fixed::fixed_of;
use crate::items::items_of;
use crate::leaves::between_of;
use crate::nothing::entries_of;
use crate::plan::{
    AlternativeRows, ComponentRows, ElementRow, Kind, Leaf, Node, Plan, Presence, Runs, WithDefault,
};
use crate::runs::{head_of, run_of};
use asn_rules::internal::greatest_of_width;
use asn_values::{Alt, AsnType, Checked, Field, Need, Size};
use asn_walk::bitmap_width;
use std::alloc::{AllocError, Global};

/// The plan of a type.
///
/// # Errors
/// `AllocError` where an allocation failed.
pub fn plan_of(alloc: Global, ty: &Checked) -> Result<Plan, AllocError>
    ensures { IfOk result (λ p. IsPlanOf p (shape_of ty.now)) }
{
    let mut nodes = Vec::new(alloc);
    let root = kind_of(alloc, ty.get(), &mut nodes)?;
    Ok(Plan { nodes, root })
}

/// What is to be read of a type, after the nodes that it needs are added.
#[cycle(plan)]
fn kind_of(alloc: Global, ty: &AsnType, nodes: &mut Vec<Node>) -> Result<Kind, AllocError>
    requires of_profile { InProfile (shape_of ty.now) }
    ensures added { OnOk result ((more : List Node) × (nodes.new.items ≡ nodes.old.items ++ more)) }
    ensures plan { IfOk result (λ k. IsPlan nodes.new.items (shape_of ty.now) k) }
{
    match ty {
        AsnType::Seq { root, ext } => {
            let root = root.as_slice();
            let first = components_of(alloc, root, nodes)?;
            let width = bitmap_width(root);
            let Some(additions) = ext else {
                return place_components(first, Vec::new(alloc), None, width, nodes);
            };
            let additions = additions.as_slice();
            let rest = components_of(alloc, additions, nodes)?;
            place_components(first, rest, Some(additions.len()), width, nodes)
        }
        AsnType::SeqOf(element, size) => {
            let kind = kind_of(alloc, element, nodes)?;
            place_element(kind, *size, nodes)
        }
        AsnType::Choice { root, ext } => {
            let root = root.as_slice();
            let first = alternatives_of(alloc, root, nodes)?;
            let Some(additions) = ext else {
                return place_alternatives(first, Vec::new(alloc), None, nodes);
            };
            let additions = additions.as_slice();
            let rest = alternatives_of(alloc, additions, nodes)?;
            place_alternatives(first, rest, Some(additions.len()), nodes)
        }
        AsnType::Bool
        | AsnType::Null
        | AsnType::Int(_)
        | AsnType::Enum { .. }
        | AsnType::Bits(_)
        | AsnType::Octets(_)
        | AsnType::Text(..)
        | AsnType::Utf8 => leaf_of(alloc, ty),
    }
}

/// The nodes of the components of a SEQUENCE, after the nodes that they need are added.
#[cycle(plan)]
fn components_of(
    alloc: Global,
    fields: &[Field],
    nodes: &mut Vec<Node>,
) -> Result<Vec<Node>, AllocError>
    requires of_profile { AreOfProfile (fields_seen fields.now) }
    ensures added { OnOk result ((more : List Node) × (nodes.new.items ≡ nodes.old.items ++ more)) }
    ensures plans { IfOk result (λ parts. ArePlans nodes.new.items parts.items (fields_seen fields.now)) }
{
    let mut parts = Vec::with_capacity(alloc, fields.len())?;
    for (place, field) in fields.iter().enumerate() {
        let kind = kind_of(alloc, &field.ty, nodes)?;
        let presence = presence_of(alloc, field)?;
        let run = run_of(&fields[place..]);
        parts.push(Node {
            presence,
            kind,
            run,
        })?;
    }
    Ok(parts)
}

/// A SEQUENCE with these nodes of its root and of its extension additions, once they are added.
fn place_components(
    first: Vec<Node>,
    rest: Vec<Node>,
    additions: Option<usize>,
    width: u32,
    nodes: &mut Vec<Node>,
) -> Result<Kind, AllocError>
    ensures added { OnOk result ((more : List Node) × (nodes.new.items ≡ nodes.old.items ++ more)) }
    ensures plan { IfOk result (λ k. (root : Fields) (more : MoreFields) → ArePlans nodes.old.items first.items root
        → ArePlansOfMore nodes.old.items rest.items more → width ≡ bitmap_length root → additions ≡ added more
        → IsPlan nodes.new.items (sequence root more) k) }
{
    let mut first = first;
    let mut rest = rest;
    let begin = nodes.len();
    let head = head_of(first.as_slice(), additions, width);
    let entries = entries_of(first.as_slice(), additions, false);
    let single_entries = entries_of(first.as_slice(), additions, true);
    nodes.append(&mut first)?;
    let middle = nodes.len();
    nodes.append(&mut rest)?;
    let end = nodes.len();
    Ok(Kind::Sequence(ComponentRows {
        begin,
        middle,
        end,
        additions,
        width,
        mask: greatest_of_width(width.min(64)),
        head,
        entries,
        single_entries,
    }))
}

/// A SEQUENCE OF this many elements, once the node of their type is added.
fn place_element(kind: Kind, size: Size, nodes: &mut Vec<Node>) -> Result<Kind, AllocError>
    requires of_profile { IsSizeOfProfile (size_range_of size) }
    ensures added { OnOk result ((more : List Node) × (nodes.new.items ≡ nodes.old.items ++ more)) }
    ensures plan { IfOk result (λ k. (t : Shape) → IsPlan nodes.old.items t kind
        → IsPlan nodes.new.items (sequence_of t (size_range_of size)) k) }
{
    let element = nodes.len();
    nodes.push(Node {
        presence: Presence::Must,
        kind,
        run: Runs::none(),
    })?;
    let counts = count_fields(&size);
    Ok(Kind::List(ElementRow {
        size,
        counts,
        element,
    }))
}

/// The nodes of the alternatives of a CHOICE, after the nodes that they need are added.
#[cycle(plan)]
fn alternatives_of(
    alloc: Global,
    alternatives: &[Alt],
    nodes: &mut Vec<Node>,
) -> Result<Vec<Node>, AllocError>
    requires of_profile { AreAllOfProfile (alternatives_seen alternatives.now) }
    ensures added { OnOk result ((more : List Node) × (nodes.new.items ≡ nodes.old.items ++ more)) }
    ensures plans { IfOk result (λ parts.
        ArePlansOfEach nodes.new.items parts.items (alternatives_seen alternatives.now)) }
{
    let mut parts = Vec::with_capacity(alloc, alternatives.len())?;
    for alternative in alternatives {
        let kind = kind_of(alloc, &alternative.ty, nodes)?;
        parts.push(Node {
            presence: Presence::Must,
            kind,
            run: Runs::none(),
        })?;
    }
    Ok(parts)
}

/// A CHOICE with these nodes of its root and of its extension additions, once they are added.
fn place_alternatives(
    first: Vec<Node>,
    rest: Vec<Node>,
    additions: Option<usize>,
    nodes: &mut Vec<Node>,
) -> Result<Kind, AllocError>
    ensures added { OnOk result ((more : List Node) × (nodes.new.items ≡ nodes.old.items ++ more)) }
    ensures plan { IfOk result (λ k. (root : Alternatives) (more : MoreAlternatives)
        → ArePlansOfEach nodes.old.items first.items root → ArePlansOfOthers nodes.old.items rest.items more
        → additions ≡ added_alternatives more → IsPlan nodes.new.items (choice root more) k) }
{
    let mut first = first;
    let mut rest = rest;
    let begin = nodes.len();
    let indexes = index_fields(first.len(), additions);
    nodes.append(&mut first)?;
    let middle = nodes.len();
    nodes.append(&mut rest)?;
    let end = nodes.len();
    Ok(Kind::Choice(AlternativeRows {
        begin,
        middle,
        end,
        additions,
        indexes,
    }))
}

/// Whether the component has to be there.
fn presence_of(alloc: Global, field: &Field) -> Result<Presence, AllocError>
    requires of_profile { InProfile (part_of_field field.now).shape }
    requires good { IsGoodDemand (part_of_field field.now).demand (part_of_field field.now).shape }
    ensures { IfOk result (λ p. IsPresence p (part_of_field field.now).demand (part_of_field field.now).shape) }
{
    match &field.need {
        Need::Must => Ok(Presence::Must),
        Need::Optional => Ok(Presence::Optional),
        Need::Default(default) => {
            let ty = copy_simple(alloc, &field.ty)?;
            let default = default.clone()?;
            Ok(Presence::Default(WithDefault { ty, default }))
        }
    }
}

/// What is to be read of a type that is neither SEQUENCE, SEQUENCE OF nor CHOICE.
fn leaf_of(alloc: Global, ty: &AsnType) -> Result<Kind, AllocError>
    requires of_profile { InProfile (shape_of ty.now) }
    requires simple { is_simple (shape_of ty.now) ≡ true }
    ensures { IfOk result (λ k. IsLeafPlan k (shape_of ty.now)) }
{
    if let AsnType::Int(bounds) = ty {
        if let Some(number) = between_of(bounds) {
            return Ok(Kind::Number(number));
        }
    }
    if let AsnType::Bool = ty {
        return Ok(Kind::Truth);
    }
    if let Some(items) = items_of(alloc, ty)? {
        return Ok(Kind::Item(items));
    }
    let fixed = fixed_of(ty);
    let ty = copy_simple(alloc, ty)?;
    Ok(Kind::Leaf(Leaf { ty, fixed }))
}
