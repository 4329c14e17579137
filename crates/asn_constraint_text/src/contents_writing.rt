//! Writes which octets of the values of a type are encodings. The grammar is in the README of the crate.
use crate::value_writing::{
    alternative_name, alternative_type, component_name, component_type, element_of, put_name,
};
use asn_contents::{Contents, Selection, is_nowhere};
use asn_values::AsnType;
use std::alloc::{AllocError, Global};
use std::fmt::Write;

/// Which octets of the values of this type are encodings as text, in parentheses and with names for what is inside the type. It
/// is on one line and has no two hyphens next to one another, so it may be in a comment. `names` has the name of each type
/// at its position.
///
/// A part that the type does not have is written by its index, as a type is that has no name, and the text is then not read
/// back.
///
/// # Errors
/// `AllocError` where an allocation failed.
pub fn contents_text(
    alloc: Global,
    ty: &AsnType,
    contents: &Contents,
    names: &[&str],
) -> Result<String, AllocError> {
    let mut out = String::new(alloc);
    out.push_str("(")?;
    put_contents(&mut out, Some(ty), contents, names)?;
    out.push_str(")")?;
    Ok(out)
}

/// Writes which octets are encodings.
#[cycle(contents_writing)]
fn put_contents(
    out: &mut String,
    ty: Option<&AsnType>,
    contents: &Contents,
    names: &[&str],
) -> Result<(), AllocError> {
    match contents {
        Contents::Nowhere => out.push_str("CONSTRAINED BY {any value}"),
        Contents::Selected(selection) => put_selection(out, ty, selection, names),
        Contents::Octets(position) => {
            out.push_str("CONTAINING ")?;
            put_type(out, *position, names)
        }
        Contents::Components(parts) => put_components(out, ty, parts, names),
        Contents::Alternatives(parts) => put_alternatives(out, ty, parts, names),
        Contents::Elements(inner) => {
            out.push_str("WITH COMPONENT (")?;
            put_contents(out, element_of(ty), inner, names)?;
            out.push_str(")")
        }
        Contents::Both(first, second) => {
            put_contents(out, ty, first, names)?;
            out.push_str(" ^ (")?;
            put_contents(out, ty, second, names)?;
            out.push_str(")")
        }
    }
}

/// Writes the name of the type at a position.
fn put_type(out: &mut String, position: usize, names: &[&str]) -> Result<(), AllocError> {
    match names.get(position) {
        Some(name) => out.push_str(*name),
        None => write!(out, "{position}"),
    }
}

/// Writes which component selects the type of an open type.
fn put_selection(
    out: &mut String,
    ty: Option<&AsnType>,
    selection: &Selection,
    names: &[&str],
) -> Result<(), AllocError> {
    out.push_str("CONSTRAINED BY {selected ")?;
    put_name(out, component_name(ty, selection.open), selection.open)?;
    out.push_str(" by ")?;
    put_name(out, component_name(ty, selection.by), selection.by)?;
    out.push_str(":")?;
    let mut before = " ";
    for row in &selection.rows {
        let number = row.number;
        write!(out, "{before}{number} ")?;
        put_type(out, row.ty, names)?;
        before = ", ";
    }
    if selection.extensible {
        out.push_str(before)?;
        out.push_str("...")?;
    }
    out.push_str("}")
}

/// Writes the components that have octets which are encodings.
#[cycle(contents_writing)]
fn put_components(
    out: &mut String,
    ty: Option<&AsnType>,
    parts: &[Contents],
    names: &[&str],
) -> Result<(), AllocError> {
    out.push_str("WITH COMPONENTS {...")?;
    for (index, part) in parts.iter().enumerate() {
        if is_nowhere(part) {
            continue;
        }
        out.push_str(", ")?;
        put_name(out, component_name(ty, index), index)?;
        out.push_str(" (")?;
        put_contents(out, component_type(ty, index), part, names)?;
        out.push_str(")")?;
    }
    out.push_str("}")
}

/// Writes the alternatives that have octets which are encodings.
#[cycle(contents_writing)]
fn put_alternatives(
    out: &mut String,
    ty: Option<&AsnType>,
    parts: &[Contents],
    names: &[&str],
) -> Result<(), AllocError> {
    out.push_str("WITH COMPONENTS {...")?;
    for (index, part) in parts.iter().enumerate() {
        if is_nowhere(part) {
            continue;
        }
        out.push_str(", ")?;
        put_name(out, alternative_name(ty, index), index)?;
        out.push_str(" (")?;
        put_contents(out, alternative_type(ty, index), part, names)?;
        out.push_str(")")?;
    }
    out.push_str("}")
}
