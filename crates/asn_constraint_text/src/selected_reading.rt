//! Reads which component selects the type of an open type. The grammar is in the README of the crate.
ghost use Rattle.std.specs.Prelude.{◌≤◌, length};

use crate::cursor::Cursor;
use crate::fault::ConstraintTextFault;
use crate::leaves::OF_TYPE;
use crate::read::{Read, leaf_of_contents};
use crate::value_reading::{COMPONENT, part_index};
use asn_contents::{Contents, SelectedType, Selection};
use asn_values::internal::{additions, part_at};
use asn_values::{AsnType, Field};
use std::alloc::Global;

/// The open type of a SEQUENCE, the component that is the number, and the types that numbers select, after `selected`.
pub(crate) fn selected_at(
    alloc: Global,
    ty: &AsnType,
    cursor: &mut Cursor<'_>,
) -> Result<Read, ConstraintTextFault>
    ensures { length cursor.new.rest.now ≤ length cursor.old.rest.now }
{
    let AsnType::Seq { root, ext } = ty else {
        return Err(cursor.fault(OF_TYPE));
    };
    let open = part_index(root, additions(ext), 0, cursor, COMPONENT)?;
    cursor.expect_word("by")?;
    let by = part_index(root, additions(ext), 0, cursor, COMPONENT)?;
    if !is_open(root, ext, open) || !is_number(root, ext, by) {
        return Err(cursor.fault("an OCTET STRING by an INTEGER"));
    }
    cursor.expect(b':', "`:`")?;
    let selection = rows_at(alloc, open, by, cursor)?;
    cursor.expect(b'}', "`}`")?;
    Ok(leaf_of_contents(Contents::Selected(selection)))
}

/// Whether a component is an OCTET STRING.
fn is_open(root: &[Field], ext: &Option<Vec<Field>>, index: usize) -> bool {
    match part_at(root, ext, index) {
        Some(field) => matches!(field.ty, AsnType::Octets(_)),
        None => false,
    }
}

/// Whether a component is an INTEGER.
fn is_number(root: &[Field], ext: &Option<Vec<Field>>, index: usize) -> bool {
    match part_at(root, ext, index) {
        Some(field) => matches!(field.ty, AsnType::Int(_)),
        None => false,
    }
}

/// Numbers with their types, with commas between them, and `...` at the end if other numbers may be there.
fn rows_at(
    alloc: Global,
    open: usize,
    by: usize,
    cursor: &mut Cursor<'_>,
) -> Result<Selection, ConstraintTextFault>
    ensures { length cursor.new.rest.now ≤ length cursor.old.rest.now }
{
    let mut selection = Selection {
        by,
        open,
        rows: Vec::new(alloc),
        extensible: cursor.takes_dots(),
    };
    if selection.extensible || cursor.begins(b'}') {
        return Ok(selection);
    }
    selection.rows.push(row_at(cursor)?)?;
    'rows: while cursor.takes(b',') {
        if cursor.takes_dots() {
            selection.extensible = true;
            break;
        }
        selection.rows.push(row_at(cursor)?)?;
    }
    Ok(selection)
}

/// A number and its type.
fn row_at(cursor: &mut Cursor<'_>) -> Result<SelectedType, ConstraintTextFault>
    ensures { length cursor.new.rest.now ≤ length cursor.old.rest.now }
{
    let number = cursor.integer()?;
    match cursor.type_name() {
        Some(ty) => Ok(SelectedType { number, ty }),
        None => Err(cursor.fault(TYPE_NAME)),
    }
}

/// What is expected where a type is named.
pub(crate) const TYPE_NAME: &str = "the name of a type of the module";
