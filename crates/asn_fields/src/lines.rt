//! Fields as text, a line each.

use crate::field::{FieldKind, MessageField};
use crate::message::MessageFields;
use crate::table::Columns;
use crate::units_text::marked_octets;
use asn_rules::Unit;
use std::alloc::{AllocError, Global};
use std::fmt;
use std::fmt::Write;

/// How wide the columns are at least, in characters: the units, the octets, the path and the type.
const WIDTHS: [usize; 4] = [11, 24, 28, 28];

impl MessageFields {
    /// The fields as text, a line each, in columns. A line has the first and the last unit, or a hyphen where the
    /// field has none. Then come the octets in which it lies, in hexadecimal, and its bits where these are one or two
    /// octets in PER. Then come the path, the type, and what the field is and says. Where the octets are no message, a
    /// last line says why.
    ///
    /// `octets` are those that `fields` was given; of other octets the column shows what is there, and nothing past
    /// the end.
    ///
    /// # Errors
    /// `AllocError` where an allocation failed.
    pub fn lines(&self, alloc: Global, octets: &[u8]) -> Result<String, AllocError> {
        let mut columns = Columns::new(alloc, WIDTHS.as_slice())?;
        for field in &self.fields {
            let cells = Cells::of(alloc, self.unit, field, octets)?;
            columns.fit(cells.row(field).as_slice());
        }
        // (a line is made twice, since the fields may be many)
        let mut text = String::new(alloc);
        self.push_lines(alloc, &columns, &mut text, octets)?;
        Ok(text)
    }

    /// Adds the lines, in these columns.
    fn push_lines(
        &self,
        alloc: Global,
        columns: &Columns,
        text: &mut String,
        octets: &[u8],
    ) -> Result<(), AllocError> {
        for field in &self.fields {
            let cells = Cells::of(alloc, self.unit, field, octets)?;
            columns.push(text, cells.row(field).as_slice())?;
        }
        match &self.answer {
            Ok(_) => Ok(()),
            Err(fault) => writeln!(text, "{}", fault.counted_in(self.unit)),
        }
    }
}

/// The cells of the line of a field that are no texts of the field itself.
#[derive(Drop)]
pub(crate) struct Cells {
    units: String,
    marked: String,
    said: String,
}

impl Cells {
    /// The cells of this field. `octets` are those that `fields` was given.
    ///
    /// # Errors
    /// `AllocError` where an allocation failed.
    pub(crate) fn of(
        alloc: Global,
        unit: Unit,
        field: &MessageField,
        octets: &[u8],
    ) -> Result<Cells, AllocError> {
        Ok(Cells {
            units: units_text(alloc, field)?,
            marked: marked_octets(alloc, unit, field, octets)?,
            said: said(alloc, field)?,
        })
    }

    /// All cells of the line: the units, the octets, the path, the type, and what it is and says.
    pub(crate) fn row<'c>(&'c self, field: &'c MessageField) -> [&'c str; 5] {
        [
            self.units.as_str(),
            self.marked.as_str(),
            field.path.as_str(),
            field.ty.as_str(),
            self.said.as_str(),
        ]
    }
}

/// The first and the last unit of a field: one number where it has one unit, a hyphen where it has none.
fn units_text(alloc: Global, field: &MessageField) -> Result<String, AllocError> {
    if field.is_empty() {
        return String::from_str(alloc, "-");
    }
    let first = field.first();
    let last = field.last();
    if first == last {
        return format!(in alloc; "{first}");
    }
    format!(in alloc; "{first}-{last}")
}

/// What a field is, and what it says: of contents the value alone.
fn said(alloc: Global, field: &MessageField) -> Result<String, AllocError> {
    let name = field.kind.name();
    let text = Visible(field.text.as_str());
    if field.kind == FieldKind::Contents {
        format!(in alloc; "{text}")
    } else if field.text.is_empty() {
        String::from_str(alloc, name)
    } else {
        format!(in alloc; "{name} {text}")
    }
}

/// A text, its control characters as a backslash, an x and their numbers in hexadecimal, so that it stays on its line.
#[derive(Clone, Copy)]
struct Visible<'t>(&'t str);

impl fmt::Display for Visible<'_> {
    fn fmt<W: fmt::Write>(&self, f: &mut fmt::Formatter<W>) -> fmt::Result {
        for character in self.0.chars() {
            write_visible(f, character)?;
        }
        Ok(())
    }
}

/// Writes such a character.
fn write_visible<W: fmt::Write>(f: &mut fmt::Formatter<W>, character: char) -> fmt::Result {
    match character {
        '\0'..='\x1F' | '\x7F'..='\u{9F}' => write!(f, "\\x{:02X}", u32::from(character)),
        other => f.write_char(other),
    }
}
