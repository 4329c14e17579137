//! Whether the octets in a value are the encodings that they have to be.
ghost use Rattle.std.specs.Prelude.{◌≡◌, ◌≤◌, ◌∷◌, IfOk, Some, map, reverse};
ghost use Rattle.asn_values.specs.View.{datum_of};
ghost use Rattle.asn_contents.specs.View.{contents_of, content_of};
ghost use Rattle.asn_containing.specs.View.{table_of, type_of, place_of, place_of_content};
ghost use Rattle.asn_containing.specs.Judged.{Judged, Finds, FindsIn, IsAt, IsContentOrNot, is_memory};

use crate::broken::{BrokenContents, ContentsPlace, ContentsReason};
use crate::table::TableType;
use asn_constrained::ConstrainedFault;
use asn_contents::{Content, Contents, contents_in};
use asn_plan::PlanRules;
use asn_rules::laws::are_octets;
use asn_rules::{DecodeFault, Rules};
use asn_values::Value;
use std::alloc::{AllocError, Global};

/// How deep contents lie in contents at most.
pub const MOST_LEVELS: u32 = 16;

/// Octets in the value that are not the encoding by the rules R that they have to be: `None` exactly if all are, also
/// those in the values of such octets, and none lie deeper than 16 contents.
///
/// What is taken for the time of the call grows with the octets alone. Calls itself as deep as contents lie in
/// contents.
///
/// # Errors
/// An allocation failed.
pub fn judge_contents<R: PlanRules>(
    alloc: Global,
    table: &[TableType],
    contents: &Contents,
    value: &Value,
) -> Result<Option<BrokenContents>, AllocError>
    ensures { IfOk result (λ found. Judged R.ruling (table_of table.now)
        (contents_of contents.now) (datum_of value.now) found) }
{
    match first_broken::<R>(alloc, table, MOST_LEVELS, contents, value)? {
        None => Ok(None),
        Some(broken) => Ok(Some(turned(broken))),
    }
}

/// The same with its places turned.
fn turned(broken: BrokenContents) -> BrokenContents
    ensures reason { result.reason ≡ broken.reason }
    ensures places { result.places.items ≡ reverse broken.places.items }
{
    let mut turned = broken;
    turned.places.reverse();
    turned
}

/// The first of them, its places from the inside out, where contents lie at most `levels` deep in contents.
#[cycle(broken)]
fn first_broken<R: PlanRules>(
    alloc: Global,
    table: &[TableType],
    levels: u32,
    contents: &Contents,
    value: &Value,
) -> Result<Option<BrokenContents>, AllocError>
    ensures { IfOk result (λ found. Finds R.ruling (table_of table.now) levels
        (contents_of contents.now) (datum_of value.now) found) }
{
    let found = contents_in(alloc, contents, value)?;
    for content in &found {
        if let Some(broken) = broken_content::<R>(alloc, table, levels, content)? {
            return Ok(Some(broken));
        }
    }
    Ok(None)
}

/// Why these octets are not the encoding that they have to be.
#[cycle(broken)]
fn broken_content<R: PlanRules>(
    alloc: Global,
    table: &[TableType],
    levels: u32,
    content: &Content,
) -> Result<Option<BrokenContents>, AllocError>
    ensures { IfOk result (λ found. FindsIn R.ruling (table_of table.now) levels (content_of content.now) found) }
{
    if levels == 0 {
        return at_octets(alloc, content, ContentsReason::TooDeep);
    }
    match content.ty {
        None => at_octets(alloc, content, ContentsReason::NoType),
        Some(index) => broken_of_type::<R>(alloc, table, levels, index, content),
    }
}

/// Why they are no encoding of the type with this index.
#[cycle(broken)]
fn broken_of_type<R: PlanRules>(
    alloc: Global,
    table: &[TableType],
    levels: u32,
    index: usize,
    content: &Content,
) -> Result<Option<BrokenContents>, AllocError>
    requires levels { 1 ≤ levels }
    requires index { content.now.ty ≡ Some index }
    ensures { IfOk result (λ found. FindsIn R.ruling (table_of table.now) levels (content_of content.now) found) }
{
    if table.len() <= index {
        return at_octets(alloc, content, ContentsReason::NoType);
    }
    let ty = &table[index];
    match content_value::<R>(alloc, ty, content.octets)? {
        Err(fault) => at_octets(alloc, content, ContentsReason::Octets(fault)),
        Ok(value) => match first_broken::<R>(alloc, table, levels - 1, &ty.contents, &value)? {
            None => Ok(None),
            Some(broken) => Ok(Some(at(alloc, content, broken)?)),
        },
    }
}

/// The value of the type whose encoding these octets are, or why they are none.
///
/// # Errors
/// An allocation failed.
fn content_value<R: PlanRules>(
    alloc: Global,
    ty: &TableType,
    octets: &[u8],
) -> Result<Result<Value, ConstrainedFault>, AllocError>
    ensures { IfOk result (λ answer. IsContentOrNot R.ruling (type_of ty.now) octets.now answer) }
{
    <R as Rules>::keep_laws();
    are_octets(octets);
    let _of_profile = ty.ty.ty().get();
    match ty.ty.decode::<R>(alloc, octets) {
        Ok(value) => Ok(Ok(value)),
        Err(fault) => {
            if is_memory(&fault) {
                return Err(AllocError);
            }
            Ok(Err(fault))
        }
    }
}

/// Whether an allocation failed.
fn is_memory(fault: &ConstrainedFault) -> bool
    ensures { result ≡ is_memory fault.now }
{
    matches!(fault, ConstrainedFault::Type(DecodeFault::Memory))
}

/// The place of these octets, and why they are not the encoding.
fn at_octets(
    alloc: Global,
    content: &Content,
    reason: ContentsReason,
) -> Result<Option<BrokenContents>, AllocError>
    ensures { IfOk result (λ found. IsAt (content_of content.now) reason found) }
{
    let broken = BrokenContents {
        reason,
        places: Vec::new(alloc),
    };
    Ok(Some(at(alloc, content, broken)?))
}

/// The place, one content further out: in these octets.
fn at(
    alloc: Global,
    content: &Content,
    broken: BrokenContents,
) -> Result<BrokenContents, AllocError>
    ensures reason { IfOk result (λ b. b.reason ≡ broken.reason) }
    ensures places { IfOk result (λ b. map place_of (reverse b.places.items)
        ≡ place_of_content (content_of content.now) ∷ map place_of (reverse broken.places.items)) }
{
    let path = content.path.as_slice().to_vec(alloc)?;
    let mut outer = broken;
    outer.places.push(ContentsPlace {
        path,
        ty: content.ty,
    })?;
    Ok(outer)
}
