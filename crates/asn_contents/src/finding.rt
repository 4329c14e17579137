//! The octets in a value that are encodings themselves.
ghost use Rattle.std.specs.Prelude.{◌≡◌, ◌∷◌, ◌++◌, [], OnOk, IfOk, get_or, map, option_map, None, Some};
ghost use Rattle.asn_values.specs.View.{datum_of, entries_seen};
ghost use Rattle.asn_contents.specs.Contents.{one_content, places_in, of_parts, of_entry, of_elements, of_alternative, of_selected, octets_of_type, octets_at, octets_of, number_at, number_of, type_of_number, type_at};
ghost use Rattle.asn_contents.specs.View.{contents_of, parts_seen, content_list, row_of, octets_now};

use crate::contents::{Contents, SelectedType, Selection};
use asn_values::Value;
use std::alloc::{AllocError, Global};

/// Octets in a value that have to be an encoding.
#[derive(Debug, Drop)]
pub struct Content<'v> {
    /// the path from the value to the octets: the index of a component, of an element, or of an alternative
    pub path: Vec<usize>,
    /// the position of their type in the table of types; `None` where no row of a table has the number
    pub ty: Option<usize>,
    pub octets: &'v [u8],
}

/// The octets in the value that have to be encodings, from the outside in and in the order of the parts.
///
/// # Errors
/// An allocation failed. None is made where there are no such octets.
pub fn contents_in<'v>(
    alloc: Global,
    contents: &Contents,
    value: &'v Value,
) -> Result<Vec<Content<'v>>, AllocError>
    ensures { IfOk result (λ found.
        content_list found.items ≡ places_in (contents_of contents.now) [] (datum_of value.now)) }
{
    let mut found = Vec::new(alloc);
    push_contents(alloc, contents, value, &[], &mut found)?;
    Ok(found)
}

/// Adds the octets in a value to which this path leads.
#[cycle(finding)]
fn push_contents<'v>(
    alloc: Global,
    contents: &Contents,
    value: &'v Value,
    path: &[usize],
    found: &mut Vec<Content<'v>>,
) -> Result<(), AllocError>
    ensures { OnOk result (content_list found.new.items ≡ content_list found.old.items
        ++ places_in (contents_of contents.now) path.now (datum_of value.now)) }
{
    match contents {
        Contents::Nowhere => Ok(()),
        Contents::Octets(ty) => match value {
            Value::Octets(octets) => push_content(alloc, path, Some(*ty), octets, found),
            _ => Ok(()),
        },
        Contents::Components(parts) => match value {
            Value::Seq(entries) => push_of_parts(alloc, parts, entries, path, found),
            _ => Ok(()),
        },
        Contents::Elements(inner) => match value {
            Value::List(elements) => push_of_elements(alloc, inner, elements, path, found),
            _ => Ok(()),
        },
        Contents::Alternatives(parts) => match value {
            Value::Choice(tag, chosen) => {
                push_of_alternative(alloc, parts, *tag as usize, chosen, path, found)
            }
            _ => Ok(()),
        },
        Contents::Both(first, second) => {
            push_contents(alloc, first, value, path, found)?;
            push_contents(alloc, second, value, path, found)
        }
        Contents::Selected(selection) => match value {
            Value::Seq(entries) => push_selected(alloc, selection, entries, path, found),
            _ => Ok(()),
        },
    }
}

/// Adds those of a part of the value, which has this index.
#[cycle(finding)]
fn push_of_part<'v>(
    alloc: Global,
    contents: &Contents,
    value: &'v Value,
    path: &[usize],
    index: usize,
    found: &mut Vec<Content<'v>>,
) -> Result<(), AllocError>
    ensures { OnOk result (content_list found.new.items ≡ content_list found.old.items
        ++ places_in (contents_of contents.now) (path.now ++ index ∷ []) (datum_of value.now)) }
{
    if let Contents::Nowhere = contents {
        return Ok(());
    }
    let inner = further(alloc, path, index)?;
    push_contents(alloc, contents, value, &inner, found)
}

/// Adds those of the entries of a SEQUENCE.
#[cycle(finding)]
fn push_of_parts<'v>(
    alloc: Global,
    parts: &[Contents],
    entries: &'v [Option<Value>],
    path: &[usize],
    found: &mut Vec<Content<'v>>,
) -> Result<(), AllocError>
    ensures { OnOk result (content_list found.new.items ≡ content_list found.old.items
        ++ of_parts (parts_seen parts.now) path.now 0 (entries_seen entries.now)) }
{
    for (index, part) in parts.iter().enumerate() {
        push_of_entry(alloc, part, entries, path, index, found)?;
    }
    Ok(())
}

/// Adds those of the component with this index, if it is there.
#[cycle(finding)]
fn push_of_entry<'v>(
    alloc: Global,
    part: &Contents,
    entries: &'v [Option<Value>],
    path: &[usize],
    index: usize,
    found: &mut Vec<Content<'v>>,
) -> Result<(), AllocError>
    ensures { OnOk result (content_list found.new.items ≡ content_list found.old.items
        ++ of_entry (λ q d. places_in (contents_of part.now) q d) (path.now ++ index ∷ [])
        (get_or (entries_seen entries.now) index None)) }
{
    if entries.len() <= index {
        return Ok(());
    }
    match &entries[index] {
        None => Ok(()),
        Some(value) => push_of_part(alloc, part, value, path, index, found),
    }
}

/// Adds those of the elements of a SEQUENCE OF.
#[cycle(finding)]
fn push_of_elements<'v>(
    alloc: Global,
    contents: &Contents,
    elements: &'v [Value],
    path: &[usize],
    found: &mut Vec<Content<'v>>,
) -> Result<(), AllocError>
    ensures { OnOk result (content_list found.new.items ≡ content_list found.old.items
        ++ of_elements (λ q d. places_in (contents_of contents.now) q d) path.now 0 (map datum_of elements.now)) }
{
    for (index, element) in elements.iter().enumerate() {
        push_of_part(alloc, contents, element, path, index, found)?;
    }
    Ok(())
}

/// Adds those of the alternative with this index.
#[cycle(finding)]
fn push_of_alternative<'v>(
    alloc: Global,
    parts: &[Contents],
    index: usize,
    chosen: &'v Value,
    path: &[usize],
    found: &mut Vec<Content<'v>>,
) -> Result<(), AllocError>
    ensures { OnOk result (content_list found.new.items ≡ content_list found.old.items
        ++ of_alternative (parts_seen parts.now) index (path.now ++ index ∷ []) (datum_of chosen.now)) }
{
    if parts.len() <= index {
        return Ok(());
    }
    push_of_part(alloc, &parts[index], chosen, path, index, found)
}

/// Adds the octets of the open type, if it is there.
fn push_selected<'v>(
    alloc: Global,
    selection: &Selection,
    entries: &'v [Option<Value>],
    path: &[usize],
    found: &mut Vec<Content<'v>>,
) -> Result<(), AllocError>
    ensures { OnOk result (content_list found.new.items ≡ content_list found.old.items
        ++ of_selected (map row_of selection.now.rows.items) selection.now.extensible
        (path.now ++ selection.now.open ∷ []) (number_at selection.now.by (entries_seen entries.now))
        (octets_at selection.now.open (entries_seen entries.now))) }
{
    match octets_at(entries, selection.open) {
        None => Ok(()),
        Some(octets) => {
            let number = number_at(entries, selection.by);
            push_open(alloc, selection, number, octets, path, found)
        }
    }
}

/// Adds the octets of the open type, if a row has this number or other numbers may not be there.
fn push_open<'v>(
    alloc: Global,
    selection: &Selection,
    number: Option<i128>,
    octets: &'v [u8],
    path: &[usize],
    found: &mut Vec<Content<'v>>,
) -> Result<(), AllocError>
    ensures { OnOk result (content_list found.new.items ≡ content_list found.old.items
        ++ octets_of_type selection.now.extensible (path.now ++ selection.now.open ∷ [])
        (type_at (map row_of selection.now.rows.items) number) octets.now) }
{
    match selected_type(&selection.rows, number) {
        Some(ty) => push_at(alloc, path, selection.open, Some(ty), octets, found),
        None => {
            if selection.extensible {
                return Ok(());
            }
            push_at(alloc, path, selection.open, None, octets, found)
        }
    }
}

/// Adds octets at the part with this index.
fn push_at<'v>(
    alloc: Global,
    path: &[usize],
    index: usize,
    ty: Option<usize>,
    octets: &'v [u8],
    found: &mut Vec<Content<'v>>,
) -> Result<(), AllocError>
    ensures { OnOk result (content_list found.new.items ≡ content_list found.old.items
        ++ one_content (path.now ++ index ∷ []) ty octets.now ∷ []) }
{
    let inner = further(alloc, path, index)?;
    push_content(alloc, &inner, ty, octets, found)
}

/// The type of the first row with this number.
fn selected_type(rows: &[SelectedType], number: Option<i128>) -> Option<usize>
    ensures { result ≡ type_at (map row_of rows.now) number }
{
    match number {
        None => None,
        Some(number) => type_of_number(rows, number),
    }
}

/// The type of the first row with this number.
fn type_of_number(rows: &[SelectedType], number: i128) -> Option<usize>
    ensures { result ≡ type_of_number (map row_of rows.now) number }
{
    for row in rows {
        if row.number == number {
            return Some(row.ty);
        }
    }
    None
}

/// The number of the component with this index, if it is there and an INTEGER.
fn number_at(entries: &[Option<Value>], index: usize) -> Option<i128>
    ensures { result ≡ number_at index (entries_seen entries.now) }
{
    if entries.len() <= index {
        return None;
    }
    match &entries[index] {
        None => None,
        Some(value) => number_of(value),
    }
}

/// The number that the value is.
fn number_of(value: &Value) -> Option<i128>
    ensures { result ≡ number_of (datum_of value.now) }
{
    match value {
        Value::Int(number) => Some(*number),
        _ => None,
    }
}

/// The octets of the component with this index, if it is there and an OCTET STRING.
fn octets_at<'v>(entries: &'v [Option<Value>], index: usize) -> Option<&'v [u8]>
    ensures { option_map octets_now result ≡ octets_at index (entries_seen entries.now) }
{
    if entries.len() <= index {
        return None;
    }
    match &entries[index] {
        None => None,
        Some(value) => octets_of(value),
    }
}

/// The octets that the value is.
fn octets_of<'v>(value: &'v Value) -> Option<&'v [u8]>
    ensures { option_map octets_now result ≡ octets_of (datum_of value.now) }
{
    match value {
        Value::Octets(octets) => Some(octets.as_slice()),
        _ => None,
    }
}

/// Adds octets.
fn push_content<'v>(
    alloc: Global,
    path: &[usize],
    ty: Option<usize>,
    octets: &'v [u8],
    found: &mut Vec<Content<'v>>,
) -> Result<(), AllocError>
    ensures { OnOk result (content_list found.new.items ≡ content_list found.old.items
        ++ one_content path.now ty octets.now ∷ []) }
{
    let path = path.to_vec(alloc)?;
    found.push(Content { path, ty, octets })?;
    Ok(())
}

/// The path, one step further in.
fn further(alloc: Global, path: &[usize], index: usize) -> Result<Vec<usize>, AllocError>
    ensures { IfOk result (λ longer. longer.items ≡ path.now ++ index ∷ []) }
{
    let mut longer = path.to_vec(alloc)?;
    longer.push(index)?;
    Ok(longer)
}
