//! Values as text, in X.680's value notation.
ghost use Rattle.std.specs.Prelude.{◌≡◌};

use crate::lookup::part_at;
use crate::types::{Alt, AsnType, Field, Item};
use crate::value::Value;
use std::fmt;

/// A value with its type, to be displayed: `{ id 5, list { TRUE, FALSE }, side left : NULL }`.
///
/// Components, items and alternatives have their names; or their index, counted from 0 as written, root then
/// additions, where the type has none there. A string is in quotation marks, and each of its own is doubled.
#[derive(Debug, Clone, Copy, Drop)]
pub struct Notation<'v, 't> {
    pub value: &'v Value,
    pub ty: &'t AsnType,
}

impl Value {
    /// The value with the names of the type, to be displayed: `format!(in alloc; "{}", value.notation(ty))`.
    /// Allocates nothing.
    pub fn notation<'v, 't>(&'v self, ty: &'t AsnType) -> Notation<'v, 't>
        ensures value { result.value.now ≡ self.now }
        ensures ty { result.ty.now ≡ ty.now }
    {
        Notation { value: self, ty }
    }
}

impl fmt::Display for Notation<'_, '_> {
    fn fmt<W: fmt::Write>(&self, f: &mut fmt::Formatter<W>) -> fmt::Result {
        put_value(f, Some(self.ty), self.value)
    }
}

/// The value without names: components, items and alternatives stand by their index.
impl fmt::Display for Value {
    fn fmt<W: fmt::Write>(&self, f: &mut fmt::Formatter<W>) -> fmt::Result {
        put_value(f, None, self)
    }
}

#[cycle(put_value)]
fn put_value<W: fmt::Write>(
    f: &mut fmt::Formatter<W>,
    ty: Option<&AsnType>,
    value: &Value,
) -> fmt::Result {
    match value {
        Value::Bool(true) => f.write_str("TRUE"),
        Value::Bool(false) => f.write_str("FALSE"),
        Value::Null => f.write_str("NULL"),
        Value::Int(number) => write!(f, "{number}"),
        Value::Enum(index) => match item_at(ty, *index as usize) {
            Some(item) => f.write_str(item.name.as_str()),
            None => write!(f, "{index}"),
        },
        Value::Bits(bits) => put_bits(f, bits),
        Value::Octets(octets) => put_octets(f, octets),
        Value::Text(codes) => put_codes(f, codes),
        Value::Utf8(text) => put_text(f, text),
        Value::Seq(entries) => put_entries(f, ty, entries),
        Value::List(elements) => put_elements(f, element_of(ty), elements),
        Value::Choice(tag, chosen) => match alternative_at(ty, *tag as usize) {
            Some(alternative) => {
                f.write_str(alternative.name.as_str())?;
                f.write_str(" : ")?;
                put_value(f, Some(&alternative.ty), chosen)
            }
            None => {
                write!(f, "{tag} : ")?;
                put_value(f, None, chosen)
            }
        },
        Value::UnknownItem(number) => write!(f, "unknown item {number}"),
        Value::UnknownAlternative(tag) => write!(f, "unknown alternative {tag}"),
    }
}

/// The components that have a value, each after its name.
#[cycle(put_value)]
fn put_entries<W: fmt::Write>(
    f: &mut fmt::Formatter<W>,
    ty: Option<&AsnType>,
    entries: &[Option<Value>],
) -> fmt::Result {
    f.write_str("{")?;
    let mut is_first = true;
    for (index, entry) in entries.iter().enumerate() {
        if let Some(value) = entry {
            f.write_str(if is_first { " " } else { ", " })?;
            is_first = false;
            match field_at(ty, index) {
                Some(field) => {
                    f.write_str(field.name.as_str())?;
                    f.write_str(" ")?;
                    put_value(f, Some(&field.ty), value)?;
                }
                None => {
                    write!(f, "{index} ")?;
                    put_value(f, None, value)?;
                }
            }
        }
    }
    f.write_str(" }")
}

/// The elements of a SEQUENCE OF.
#[cycle(put_value)]
fn put_elements<W: fmt::Write>(
    f: &mut fmt::Formatter<W>,
    element: Option<&AsnType>,
    values: &[Value],
) -> fmt::Result {
    f.write_str("{")?;
    for (index, value) in values.iter().enumerate() {
        f.write_str(if index == 0 { " " } else { ", " })?;
        put_value(f, element, value)?;
    }
    f.write_str(" }")
}

/// Bits between apostrophes, and a B.
fn put_bits<W: fmt::Write>(f: &mut fmt::Formatter<W>, bits: &[bool]) -> fmt::Result {
    f.write_str("'")?;
    for bit in bits {
        f.write_str(if *bit { "1" } else { "0" })?;
    }
    f.write_str("'B")
}

/// Octets in hexadecimal between apostrophes, and an H.
fn put_octets<W: fmt::Write>(f: &mut fmt::Formatter<W>, octets: &[u8]) -> fmt::Result {
    f.write_str("'")?;
    for octet in octets {
        write!(f, "{octet:02X}")?;
    }
    f.write_str("'H")
}

/// Characters by their codes, in quotation marks.
fn put_codes<W: fmt::Write>(f: &mut fmt::Formatter<W>, codes: &[u8]) -> fmt::Result {
    f.write_str("\"")?;
    for code in codes {
        put_character(f, char::from(*code))?;
    }
    f.write_str("\"")
}

/// A string in quotation marks.
fn put_text<W: fmt::Write>(f: &mut fmt::Formatter<W>, text: &str) -> fmt::Result {
    f.write_str("\"")?;
    for character in text.chars() {
        put_character(f, character)?;
    }
    f.write_str("\"")
}

/// A character of a string, a quotation mark twice.
fn put_character<W: fmt::Write>(f: &mut fmt::Formatter<W>, character: char) -> fmt::Result {
    if character == '"' {
        f.write_char('"')?;
    }
    f.write_char(character)
}

/// The component of a SEQUENCE at an index.
fn field_at<'a>(ty: Option<&'a AsnType>, index: usize) -> Option<&'a Field> {
    match ty {
        Some(AsnType::Seq { root, ext }) => part_at(root, ext, index),
        _ => None,
    }
}

/// The item of an ENUMERATED at an index.
fn item_at<'a>(ty: Option<&'a AsnType>, index: usize) -> Option<&'a Item> {
    match ty {
        Some(AsnType::Enum { root, ext }) => part_at(root, ext, index),
        _ => None,
    }
}

/// The alternative of a CHOICE with a tag.
fn alternative_at<'a>(ty: Option<&'a AsnType>, tag: usize) -> Option<&'a Alt> {
    match ty {
        Some(AsnType::Choice { root, ext }) => part_at(root, ext, tag),
        _ => None,
    }
}

/// The type of the elements of a SEQUENCE OF.
fn element_of<'a>(ty: Option<&'a AsnType>) -> Option<&'a AsnType> {
    match ty {
        Some(AsnType::SeqOf(element, _)) => Some(element),
        _ => None,
    }
}
