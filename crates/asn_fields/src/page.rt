//! Fields as HTML, without a script: all units in colours, and a line for each field in the colour of its units.

use crate::field::MessageField;
use crate::lines::Cells;
use crate::message::MessageFields;
use crate::units_text::{bit_text, octet_at};
use asn_rules::Unit;
use std::alloc::{AllocError, Global};
use std::fmt;
use std::fmt::Write;

/// What stands before the title.
const HEAD: &str = "<!DOCTYPE html>\n<html lang=\"en\">\n<head>\n<meta charset=\"utf-8\">\n<title>";

/// What follows the title: the colours, of which neighbours have different ones.
const STYLE: &str =
    "</title>\n<style>\nbody { font-family: sans-serif; margin: 2em; color: #111; background: #fff; }\n\
pre, td { font-family: monospace; }\npre { line-height: 1.5; }\n\
i { color: #767676; font-style: normal; user-select: none; }\ntable { border-collapse: collapse; }\n\
td, th { padding: 0.15em 0.8em; text-align: left; }\ntd:nth-child(2) { white-space: pre; }\n\
.c0 { background: #cfe8ff; }\n.c1 { background: #ffe3c2; }\n.c2 { background: #d9f2d0; }\n\
.c3 { background: #f6d3e4; }\n.c4 { background: #e4dcfa; }\n.c5 { background: #fdf3b5; }\n\
.none { color: #767676; }\n.fault { color: #a00; }\n</style>\n</head>\n<body>\n<h1>";

/// What stands before the lines of the fields.
const TABLE: &str = "<table>\n\
<tr><th>units</th><th>octets</th><th>path</th><th>type</th><th>value</th></tr>\n";

/// The end of a page.
pub const PAGE_END: &str = "</body>\n</html>\n";

/// The classes of the colours.
const CLASSES: [&str; 6] = ["c0", "c1", "c2", "c3", "c4", "c5"];

/// The class of what has no unit.
const NONE: &str = "none";

/// How many bits, or octets, stand in a row.
const ROW_BITS: u64 = 64;

const ROW_OCTETS: u64 = 16;

/// The beginning of a page with this title, up to its sections.
///
/// # Errors
/// `AllocError` where an allocation failed.
pub fn page_head(alloc: Global, title: &str) -> Result<String, AllocError> {
    let title = Escaped(title);
    format!(in alloc; "{HEAD}{title}{STYLE}{title}</h1>\n")
}

/// A section of a page that says this alone, under a heading, which may be empty.
///
/// # Errors
/// `AllocError` where an allocation failed.
pub fn page_note(alloc: Global, heading: &str, words: &str) -> Result<String, AllocError> {
    let mut page = String::new(alloc);
    push_heading(&mut page, heading)?;
    push_paragraph(&mut page, words)?;
    Ok(page)
}

impl MessageFields {
    /// The fields as one page of HTML: its beginning, one section, and its end. `octets` are as in
    /// `section`.
    ///
    /// # Errors
    /// `AllocError` where an allocation failed.
    pub fn html(&self, alloc: Global, title: &str, octets: &[u8]) -> Result<String, AllocError> {
        let mut page = page_head(alloc, title)?;
        self.push_section(alloc, &mut page, octets)?;
        page.push_str(PAGE_END)?;
        Ok(page)
    }

    /// The fields as a section of a page, under a heading, which may be empty: all units, in rows
    /// with the number of the first in front, and a line for each field, in the colour of its
    /// units.
    ///
    /// `octets` are those that `fields` was given; of other octets the rows show what is there,
    /// and 0 past the end, and the lines nothing there.
    ///
    /// # Errors
    /// `AllocError` where an allocation failed.
    pub fn section(
        &self,
        alloc: Global,
        heading: &str,
        octets: &[u8],
    ) -> Result<String, AllocError> {
        let mut page = String::new(alloc);
        push_heading(&mut page, heading)?;
        self.push_section(alloc, &mut page, octets)?;
        Ok(page)
    }

    /// Adds a section without its heading.
    fn push_section(
        &self,
        alloc: Global,
        page: &mut String,
        octets: &[u8],
    ) -> Result<(), AllocError> {
        self.push_colours(page, octets)?;
        self.push_table(alloc, page, octets)?;
        match &self.answer {
            Ok(_) => Ok(()),
            Err(fault) => {
                let words = format!(in alloc; "{}", fault.counted_in(self.unit))?;
                push_paragraph(page, words.as_str())
            }
        }
    }

    /// Adds all units, those of a field in its colour.
    fn push_colours(&self, page: &mut String, octets: &[u8]) -> Result<(), AllocError> {
        page.push_str("<pre>")?;
        let mut shade = 0usize;
        for field in &self.fields {
            push_units(page, self.unit, shade, field, octets)?;
            shade = next_shade(shade, field);
        }
        page.push_str("\n</pre>\n")
    }

    /// Adds a line for each field, in its colour.
    fn push_table(
        &self,
        alloc: Global,
        page: &mut String,
        octets: &[u8],
    ) -> Result<(), AllocError> {
        page.push_str(TABLE)?;
        let mut shade = 0usize;
        for field in &self.fields {
            let cells = Cells::of(alloc, self.unit, field, octets)?;
            push_row(page, class_of(shade, field), cells.row(field).as_slice())?;
            shade = next_shade(shade, field);
        }
        page.push_str("</table>\n")
    }
}

/// The number of the next colour: a field without a unit takes none.
fn next_shade(shade: usize, field: &MessageField) -> usize {
    if field.is_empty() {
        shade
    } else {
        (shade % 6).saturating_add(1)
    }
}

/// The class of a field: that of its colour, if it has units.
fn class_of(shade: usize, field: &MessageField) -> &'static str {
    if field.is_empty() {
        NONE
    } else {
        CLASSES[shade % 6]
    }
}

/// Adds the units of a field in its colour, in as many pieces as rows have some of them.
fn push_units(
    page: &mut String,
    unit: Unit,
    shade: usize,
    field: &MessageField,
    octets: &[u8],
) -> Result<(), AllocError> {
    let row = match unit {
        Unit::Bit => ROW_BITS,
        Unit::Octet => ROW_OCTETS,
    };
    let mut at = field.start;
    for _ in 0..field.end.saturating_sub(field.start) {
        if at >= field.end {
            return Ok(());
        }
        let in_row = at % row;
        if in_row == 0 {
            write!(page, "\n<i>{:>6}  </i>", at.saturating_add(1))?;
        }
        let end = at.saturating_add(row - in_row).min(field.end);
        push_piece(page, unit, class_of(shade, field), (at, end), octets)?;
        at = end;
    }
    Ok(())
}

/// Adds the units of a row from one number to another.
fn push_piece(
    page: &mut String,
    unit: Unit,
    class: &str,
    units: (u64, u64),
    octets: &[u8],
) -> Result<(), AllocError> {
    write!(page, "<span class=\"{class}\">")?;
    for at in units.0..units.1 {
        push_unit(page, unit, at, octets)?;
    }
    page.push_str("</span>")
}

/// Adds the unit with this number: in PER a bit, with a space after the last one of an octet, and in OER an octet.
fn push_unit(page: &mut String, unit: Unit, number: u64, octets: &[u8]) -> Result<(), AllocError> {
    match unit {
        Unit::Bit => {
            let octet = octet_at(octets, usize::try_from(number / 8).unwrap_or(usize::MAX));
            page.push_str(bit_text(octet, number % 8))?;
            page.push_str(if number % 8 == 7 { " " } else { "" })
        }
        Unit::Octet => {
            let octet = octet_at(octets, usize::try_from(number).unwrap_or(usize::MAX));
            write!(page, "{octet:02X} ")
        }
    }
}

/// Adds a line of these cells.
fn push_row(page: &mut String, class: &str, cells: &[&str]) -> Result<(), AllocError> {
    write!(page, "<tr class=\"{class}\">")?;
    for cell in cells {
        write!(page, "<td>{}</td>", Escaped(cell))?;
    }
    page.push_str("</tr>\n")
}

/// Adds a heading, if there is one.
fn push_heading(page: &mut String, heading: &str) -> Result<(), AllocError> {
    if heading.is_empty() {
        return Ok(());
    }
    writeln!(page, "<h2>{}</h2>", Escaped(heading))
}

/// Adds a paragraph on what is refused.
fn push_paragraph(page: &mut String, words: &str) -> Result<(), AllocError> {
    writeln!(page, "<p class=\"fault\">{}</p>", Escaped(words))
}

/// A text as HTML has it: `&`, `<`, `>` and `"` by their names.
#[derive(Clone, Copy)]
struct Escaped<'t>(&'t str);

impl fmt::Display for Escaped<'_> {
    fn fmt<W: fmt::Write>(&self, f: &mut fmt::Formatter<W>) -> fmt::Result {
        for character in self.0.chars() {
            write_escaped(f, character)?;
        }
        Ok(())
    }
}

/// Writes a character as HTML has it.
fn write_escaped<W: fmt::Write>(f: &mut fmt::Formatter<W>, character: char) -> fmt::Result {
    let name = match character {
        '&' => "&amp;",
        '<' => "&lt;",
        '>' => "&gt;",
        '"' => "&quot;",
        other => return f.write_char(other),
    };
    f.write_str(name)
}
