//! A type with the widths of its parts.

use crate::extent::Extent;
use crate::oer_widths::octets_of;
use crate::per_widths::bits_of;
use crate::table::{Columns, push_spaces};
use crate::type_text::type_text;
use asn_values::{Alt, AsnType, Checked, Field, Need};
use std::alloc::{AllocError, Global};
use std::fmt::Write;

/// How many spaces a line stands further in for each level.
const INDENT: usize = 2;

/// How wide the columns are at least, in characters: the name, the type and the bits.
const WIDTHS: [usize; 3] = [30, 32, 14];

/// What stands above the lines.
const HEADING: [&str; 4] = ["", "", "PER bits", "OER octets"];

/// The least and the greatest size of encodings.
#[derive(Clone, Copy, Debug, PartialEq, Eq)]
pub struct TypeSizes {
    /// Of a value in PER, in bits, without what fills up a complete encoding.
    pub per_bits: Extent,
    /// Of a value in OER, in octets.
    pub oer_octets: Extent,
}

/// The least and the greatest size of the encodings of the values of a type.
pub fn sizes(ty: &Checked) -> TypeSizes {
    sizes_of(ty.get())
}

/// The type as an outline, a line for each part, with the sizes of its values: bits in PER, octets in OER. A size is
/// from the least to the greatest; a `..` without a number after it leaves the greatest open. The first line is the
/// type itself, by this name.
///
/// # Errors
/// `AllocError` where an allocation failed.
pub fn outline(alloc: Global, name: &str, ty: &Checked) -> Result<String, AllocError> {
    let mut lines = Vec::new(alloc);
    push_type(alloc, &mut lines, 0, name, "", ty.get())?;
    let mut text = lines_of(alloc, lines.as_slice())?;
    let octets = sizes(ty).per_bits.in_octets();
    writeln!(text, "a message in PER has {octets} octets")?;
    Ok(text)
}

/// The line of a part, or of an extension marker, which has a name alone.
#[derive(Drop)]
struct Line {
    name: String,
    notation: String,
    bits: String,
    octets: String,
}

impl Line {
    fn is_mark(&self) -> bool {
        self.notation.is_empty()
    }

    /// The cells of the line of a part.
    fn row(&self) -> [&str; 4] {
        [
            self.name.as_str(),
            self.notation.as_str(),
            self.bits.as_str(),
            self.octets.as_str(),
        ]
    }
}

/// These lines, in columns, under a heading.
fn lines_of(alloc: Global, lines: &[Line]) -> Result<String, AllocError> {
    let mut columns = Columns::new(alloc, WIDTHS.as_slice())?;
    columns.fit(HEADING.as_slice());
    for line in lines {
        if !line.is_mark() {
            columns.fit(line.row().as_slice());
        }
    }
    let mut text = String::new(alloc);
    columns.push(&mut text, HEADING.as_slice())?;
    for line in lines {
        if line.is_mark() {
            columns.push(&mut text, [line.name.as_str()].as_slice())?;
        } else {
            columns.push(&mut text, line.row().as_slice())?;
        }
    }
    Ok(text)
}

fn sizes_of(ty: &AsnType) -> TypeSizes {
    TypeSizes {
        per_bits: bits_of(ty),
        oer_octets: octets_of(ty),
    }
}

/// Adds the lines of a part of this name, `level` levels down, with a word on whether it has to be there.
#[cycle(outline)]
fn push_type(
    alloc: Global,
    lines: &mut Vec<Line>,
    level: usize,
    name: &str,
    need: &str,
    ty: &AsnType,
) -> Result<(), AllocError> {
    push_part(alloc, lines, level, name, need, ty)?;
    let inner = level.saturating_add(1);
    match ty {
        AsnType::Seq { root, ext } => {
            push_fields(alloc, lines, inner, root)?;
            if let Some(additions) = ext {
                push_mark(alloc, lines, inner)?;
                push_fields(alloc, lines, inner, additions)?;
            }
            Ok(())
        }
        AsnType::SeqOf(element, _) => push_type(alloc, lines, inner, "[]", "", element),
        AsnType::Choice { root, ext } => {
            push_alternatives(alloc, lines, inner, root)?;
            if let Some(additions) = ext {
                push_mark(alloc, lines, inner)?;
                push_alternatives(alloc, lines, inner, additions)?;
            }
            Ok(())
        }
        AsnType::Bool
        | AsnType::Null
        | AsnType::Int(_)
        | AsnType::Enum { .. }
        | AsnType::Bits(_)
        | AsnType::Octets(_)
        | AsnType::Text(..)
        | AsnType::Utf8 => Ok(()),
    }
}

/// Adds the lines of components.
#[cycle(outline)]
fn push_fields(
    alloc: Global,
    lines: &mut Vec<Line>,
    level: usize,
    fields: &[Field],
) -> Result<(), AllocError> {
    for field in fields {
        let need = need_text(alloc, field)?;
        push_type(
            alloc,
            lines,
            level,
            field.name.as_str(),
            need.as_str(),
            &field.ty,
        )?;
    }
    Ok(())
}

/// What follows the type of a component: whether it may be absent, and its DEFAULT.
fn need_text(alloc: Global, field: &Field) -> Result<String, AllocError> {
    match &field.need {
        Need::Must => Ok(String::new(alloc)),
        Need::Optional => String::from_str(alloc, " OPTIONAL"),
        Need::Default(value) => format!(in alloc; " DEFAULT {}", value.notation(&field.ty)),
    }
}

/// Adds the lines of alternatives.
#[cycle(outline)]
fn push_alternatives(
    alloc: Global,
    lines: &mut Vec<Line>,
    level: usize,
    alternatives: &[Alt],
) -> Result<(), AllocError> {
    for alternative in alternatives {
        push_type(
            alloc,
            lines,
            level,
            alternative.name.as_str(),
            "",
            &alternative.ty,
        )?;
    }
    Ok(())
}

/// Adds the line of an extension marker.
fn push_mark(alloc: Global, lines: &mut Vec<Line>, level: usize) -> Result<(), AllocError> {
    lines.push(Line {
        name: indented(alloc, level, "...")?,
        notation: String::new(alloc),
        bits: String::new(alloc),
        octets: String::new(alloc),
    })?;
    Ok(())
}

/// A name, as far in as its level stands.
fn indented(alloc: Global, level: usize, name: &str) -> Result<String, AllocError> {
    let mut text = String::new(alloc);
    push_spaces(&mut text, level.saturating_mul(INDENT))?;
    text.push_str(name)?;
    Ok(text)
}

/// Adds the line of a part.
fn push_part(
    alloc: Global,
    lines: &mut Vec<Line>,
    level: usize,
    name: &str,
    need: &str,
    ty: &AsnType,
) -> Result<(), AllocError> {
    lines.push(line_of(alloc, level, name, need, ty)?)?;
    Ok(())
}

/// The line of a part.
fn line_of(
    alloc: Global,
    level: usize,
    name: &str,
    need: &str,
    ty: &AsnType,
) -> Result<Line, AllocError> {
    let sizes = sizes_of(ty);
    let ty = type_text(alloc, ty)?;
    Ok(Line {
        name: indented(alloc, level, name)?,
        notation: format!(in alloc; "{ty}{need}")?,
        bits: format!(in alloc; "{}", sizes.per_bits)?,
        octets: format!(in alloc; "{}", sizes.oer_octets)?,
    })
}
