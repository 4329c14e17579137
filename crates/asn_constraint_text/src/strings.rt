//! Characters and strings of characters in the notation of X.680.
ghost use Rattle.std.specs.Prelude.{◌≤◌, ◌<◌, length, IfOk, IfSome};

use crate::cursor::Cursor;
use crate::fault::ConstraintTextFault;
use std::alloc::{AllocError, Global};
use std::fmt::Write;

/// Whether a character of the table is one of VisibleString.
fn is_visible(code: u8) -> bool {
    32 <= code && code <= 126
}

/// Writes the character with a code: between quotation marks, or as column and row of the table of characters, or the
/// code alone past this table.
pub(crate) fn put_code(out: &mut String, code: i128) -> Result<(), AllocError> {
    match u8::try_from(code) {
        Ok(code) => put_octet(out, code),
        Err(_) => write!(out, "{code}"),
    }
}

/// The same of a code within the table.
fn put_octet(out: &mut String, code: u8) -> Result<(), AllocError> {
    if is_visible(code) {
        put_quoted(out, char::from(code))
    } else {
        let column = code / 16;
        let row = code % 16;
        write!(out, "{{{column}, {row}}}")
    }
}

/// Writes a character between quotation marks.
fn put_quoted(out: &mut String, character: char) -> Result<(), AllocError> {
    out.push_str("\"")?;
    put_character(out, character)?;
    out.push_str("\"")
}

/// Writes a character of a string, a quotation mark twice.
fn put_character(out: &mut String, character: char) -> Result<(), AllocError> {
    if character == '"' {
        out.push_str("\"")?;
    }
    out.push(character)
}

/// Writes a string by the codes of its characters. One that would end a comment or a line is a list of characters.
pub(crate) fn put_codes(out: &mut String, codes: &[u8]) -> Result<(), AllocError> {
    if !is_on_a_line(codes) || codes.iter().any(|code| *code >= 128) {
        return put_code_list(out, codes);
    }
    out.push_str("\"")?;
    for code in codes {
        put_character(out, char::from(*code))?;
    }
    out.push_str("\"")
}

/// Writes a string as a list of its characters.
fn put_code_list(out: &mut String, codes: &[u8]) -> Result<(), AllocError> {
    out.push_str("{")?;
    for (index, code) in codes.iter().enumerate() {
        out.push_str(if index == 0 { "" } else { ", " })?;
        put_octet(out, *code)?;
    }
    out.push_str("}")
}

/// Writes a string. One that would end a comment or a line is a list of characters.
pub(crate) fn put_text(out: &mut String, text: &str) -> Result<(), AllocError> {
    if !is_on_a_line(text.as_bytes()) {
        return put_text_list(out, text);
    }
    out.push_str("\"")?;
    for character in text.chars() {
        put_character(out, character)?;
    }
    out.push_str("\"")
}

/// Writes a string as a list of its characters, a control character by group, plane, row and cell.
fn put_text_list(out: &mut String, text: &str) -> Result<(), AllocError> {
    out.push_str("{")?;
    for (index, character) in text.chars().enumerate() {
        out.push_str(if index == 0 { "" } else { ", " })?;
        let code = u32::from(character);
        if code < 32 || code == 127 {
            write!(out, "{{0, 0, 0, {code}}}")?;
        } else {
            put_quoted(out, character)?;
        }
    }
    out.push_str("}")
}

/// Whether the octets are no control characters, and no two of them hyphens next to one another.
fn is_on_a_line(octets: &[u8]) -> bool {
    let mut is_after_hyphen = false;
    for octet in octets {
        let is_hyphen = *octet == b'-';
        if octet.is_ascii_control() || (is_hyphen && is_after_hyphen) {
            return false;
        }
        is_after_hyphen = is_hyphen;
    }
    true
}

/// Reads a character as `put_code` writes it, and returns its code.
pub(crate) fn code_at(cursor: &mut Cursor<'_>) -> Result<i128, ConstraintTextFault>
    ensures { length cursor.new.rest.now ≤ length cursor.old.rest.now }
{
    if cursor.takes(b'"') {
        let octet = quoted_octet(cursor)?;
        cursor.expect_here(b'"', "`\"`")?;
        return match octet {
            Some(octet) => Ok(i128::from(octet)),
            None => Err(cursor.fault("a character")),
        };
    }
    if cursor.takes(b'{') {
        return Ok(i128::from(tuple_at(cursor)?));
    }
    cursor.integer()
}

/// The next octet of a string after its first quotation mark; None at the last one, which is not read.
fn quoted_octet(cursor: &mut Cursor<'_>) -> Result<Option<u8>, ConstraintTextFault>
    ensures within { length cursor.new.rest.now ≤ length cursor.old.rest.now }
    ensures shorter { IfOk result (λ o. IfSome o (λ _. length cursor.new.rest.now < length cursor.old.rest.now)) }
{
    if cursor.is_doubled(b'"') {
        let _ = cursor.octet();
        return Ok(cursor.octet());
    }
    if cursor.is_here(b'"') {
        return Ok(None);
    }
    match cursor.octet() {
        Some(octet) => Ok(Some(octet)),
        None => Err(cursor.fault("`\"`")),
    }
}

/// The code of a character by column and row, or by group, plane, row and cell, after the brace.
fn tuple_at(cursor: &mut Cursor<'_>) -> Result<u8, ConstraintTextFault>
    ensures { length cursor.new.rest.now ≤ length cursor.old.rest.now }
{
    let first = cursor.number()?;
    cursor.expect(b',', "`,`")?;
    let second = cursor.number()?;
    let code = if cursor.takes(b',') {
        let third = cursor.number()?;
        cursor.expect(b',', "`,`")?;
        let fourth = cursor.number()?;
        cell_code(first, second, third, fourth)
    } else {
        table_code(first, second)
    };
    match code {
        Some(code) => {
            cursor.expect(b'}', "`}`")?;
            Ok(code)
        }
        None => Err(cursor.fault("a character of the table")),
    }
}

/// The code at a column and a row.
fn table_code(column: u32, row: u32) -> Option<u8> {
    if column < 16 && row < 16 {
        Some((16 * column + row) as u8)
    } else {
        None
    }
}

/// The code in a cell of the first row.
fn cell_code(group: u32, plane: u32, row: u32, cell: u32) -> Option<u8> {
    if group == 0 && plane == 0 && row == 0 && cell < 128 {
        Some(cell as u8)
    } else {
        None
    }
}

/// Reads a string as it is written, and returns its octets.
pub(crate) fn octets_at(
    alloc: Global,
    cursor: &mut Cursor<'_>,
) -> Result<Vec<u8>, ConstraintTextFault>
    ensures { length cursor.new.rest.now ≤ length cursor.old.rest.now }
{
    let mut octets = Vec::new(alloc);
    if !cursor.takes(b'{') {
        cursor.expect(b'"', "a string")?;
        quoted_at(cursor, &mut octets)?;
        return Ok(octets);
    }
    piece_at(cursor, &mut octets)?;
    'pieces: while cursor.takes(b',') {
        piece_at(cursor, &mut octets)?;
    }
    cursor.expect(b'}', "`}`")?;
    Ok(octets)
}

/// Reads a string between quotation marks after the first of them, and adds its octets.
fn quoted_at(cursor: &mut Cursor<'_>, octets: &mut Vec<u8>) -> Result<(), ConstraintTextFault>
    ensures { length cursor.new.rest.now ≤ length cursor.old.rest.now }
{
    'octets: while let Some(octet) = quoted_octet(cursor)? {
        octets.push(octet)?;
    }
    cursor.expect_here(b'"', "`\"`")
}

/// Reads a piece of a list, and adds its octets.
fn piece_at(cursor: &mut Cursor<'_>, octets: &mut Vec<u8>) -> Result<(), ConstraintTextFault>
    ensures { length cursor.new.rest.now ≤ length cursor.old.rest.now }
{
    if cursor.takes(b'{') {
        octets.push(tuple_at(cursor)?)?;
        return Ok(());
    }
    cursor.expect(b'"', "a character")?;
    quoted_at(cursor, octets)
}

/// The value of a hexadecimal digit.
pub(crate) fn hexadecimal_value(octet: u8) -> Option<u8>
    ensures { IfSome result (λ d. d < 16) }
{
    match octet {
        b'0'..=b'9' => Some(octet - b'0'),
        b'A'..=b'F' => Some(octet - b'A' + 10),
        _ => None,
    }
}
