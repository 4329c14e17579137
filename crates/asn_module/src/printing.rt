//! Types as text: each token after one SPACE.

ghost use Rattle.std.specs.Prelude.{◌≡◌, ◌∷◌, ◌++◌, OnOk, string_bytes};
ghost use Rattle.asn_values.specs.View.{alphabet_of, datum_of, demand_of, label_of, range_of, shape_of, size_range_of};
ghost use Rattle.asn_values.specs.View.{labels_seen, enumerated_seen, fields_seen, alternatives_seen};
ghost use Rattle.asn_notation.specs.Grammar as g;
ghost use Rattle.asn_notation.specs.Tree.{integer, text};
ghost use Rattle.asn_module.specs.Printing as spec;
ghost use Rattle.asn_module.specs.Printing.{Writes};

use asn_notation::StringKind;
use asn_values::{Alt, AsnType, Bounds, Field, Item, Need, Size, TextKind, Value};
use std::alloc::{AllocError, Global};

/// Appends a SPACE and a token.
pub(crate) fn write_token(out: &mut String, token: &str) -> Result<(), AllocError>
    ensures { OnOk result (string_bytes out.new ≡ string_bytes out.old ++ 32 ∷ token.now) }
{
    out.push_str(" ")?;
    out.push_str(token)
}

fn write_int(out: &mut String, alloc: Global, number: i128) -> Result<(), AllocError>
    ensures { Writes (g.int number) result out.old out.new }
{
    let digits = format!(in alloc; "{number}")?;
    write_token(out, digits.as_str())
}

fn write_low(out: &mut String, alloc: Global, low: Option<i128>) -> Result<(), AllocError>
    ensures { Writes (g.low_end low) result out.old out.new }
{
    match low {
        None => write_token(out, "MIN"),
        Some(low) => write_int(out, alloc, low),
    }
}

fn write_high(out: &mut String, alloc: Global, high: Option<i128>) -> Result<(), AllocError>
    ensures { Writes (g.high_end high) result out.old out.new }
{
    match high {
        None => write_token(out, "MAX"),
        Some(high) => write_int(out, alloc, high),
    }
}

/// A comma, where something stands before.
fn write_comma(out: &mut String, comma: bool) -> Result<(), AllocError>
    ensures { Writes (spec.comma_if comma) result out.old out.new }
{
    if comma {
        write_token(out, ",")?;
    }
    Ok(())
}

/// The extension mark, after a comma where something stands before it.
fn write_dots(out: &mut String, comma: bool) -> Result<(), AllocError>
    ensures { Writes (spec.dots_tokens comma) result out.old out.new }
{
    write_comma(out, comma)?;
    write_token(out, "...")
}

fn write_mark(out: &mut String, marked: bool) -> Result<(), AllocError>
    ensures { Writes (g.mark marked) result out.old out.new }
{
    if marked {
        write_dots(out, true)?;
    }
    Ok(())
}

/// The range of an INTEGER, where it has bounds.
fn write_range(out: &mut String, alloc: Global, bounds: Bounds) -> Result<(), AllocError>
    ensures { Writes (g.maybe g.range (spec.range_printed (range_of bounds))) result out.old out.new }
{
    if bounds.low.is_some() || bounds.high.is_some() || bounds.ext {
        write_token(out, "(")?;
        write_low(out, alloc, bounds.low)?;
        write_token(out, "..")?;
        write_high(out, alloc, bounds.high)?;
        write_mark(out, bounds.ext)?;
        write_token(out, ")")?;
    }
    Ok(())
}

/// The high bound of a size.
fn write_size_end(out: &mut String, alloc: Global, high: Option<u32>) -> Result<(), AllocError>
    ensures { Writes (g.size_end (spec.size_end_printed high)) result out.old out.new }
{
    write_token(out, "..")?;
    match high {
        None => write_token(out, "MAX"),
        Some(high) => write_int(out, alloc, i128::from(high)),
    }
}

/// The size of a string or list, where it allows not every length.
fn write_size(out: &mut String, alloc: Global, size: Size) -> Result<(), AllocError>
    ensures { Writes (g.maybe g.size_con (spec.size_printed (size_range_of size))) result out.old out.new }
{
    if size.low > 0 || size.high.is_some() || size.ext {
        write_token(out, "(")?;
        write_token(out, "SIZE")?;
        write_token(out, "(")?;
        write_int(out, alloc, i128::from(size.low))?;
        write_size_end(out, alloc, size.high)?;
        write_mark(out, size.ext)?;
        write_token(out, ")")?;
        write_token(out, ")")?;
    }
    Ok(())
}

/// An item of an ENUMERATED with its number.
fn write_item(out: &mut String, alloc: Global, item: &Item) -> Result<(), AllocError>
    ensures { Writes (g.item (spec.item_printed (label_of item.now))) result out.old out.new }
{
    write_token(out, item.name.as_str())?;
    write_token(out, "(")?;
    write_int(out, alloc, i128::from(item.number))?;
    write_token(out, ")")
}

/// Items with commas between them, and one before the first where they follow others.
#[tactic(auto, using(crate::proofs::Spaces::spaces_append, crate::proofs::Spaces::no_items))]
fn write_items(
    out: &mut String,
    alloc: Global,
    items: &[Item],
    follow: bool,
) -> Result<(), AllocError>
    ensures { Writes (spec.items_tokens follow (labels_seen items.now)) result out.old out.new }
{
    let mut comma = follow;
    for item in items {
        write_comma(out, comma)?;
        write_item(out, alloc, item)?;
        comma = true;
    }
    Ok(())
}

/// An ENUMERATED.
#[tactic(auto, using(crate::proofs::Spaces::spaces_append), unfolding(asn_notation::specs::Grammar::written))]
fn write_enumerated(
    out: &mut String,
    alloc: Global,
    root: &[Item],
    more: &Option<Vec<Item>>,
) -> Result<(), AllocError>
    ensures { Writes (g.written (spec.type_printed (enumerated_seen root.now more.now))) result out.old out.new }
{
    write_token(out, "ENUMERATED")?;
    write_token(out, "{")?;
    write_items(out, alloc, root, false)?;
    match more {
        None => write_token(out, "}"),
        Some(more) => {
            write_dots(out, true)?;
            write_items(out, alloc, more, true)?;
            write_token(out, "}")
        }
    }
}

/// The kind of a string.
fn string_kind(kind: TextKind) -> StringKind
    ensures { result ≡ spec.kind_printed (alphabet_of kind) }
{
    match kind {
        TextKind::Ia5 => StringKind::Ia5,
        TextKind::Numeric => StringKind::Numeric,
        TextKind::Visible => StringKind::Visible,
    }
}

/// The words with which a string of this kind begins.
fn write_kind(out: &mut String, kind: StringKind) -> Result<(), AllocError>
    ensures { Writes (g.string_words kind) result out.old out.new }
{
    match kind {
        StringKind::Bits => {
            write_token(out, "BIT")?;
            write_token(out, "STRING")
        }
        StringKind::Octets => {
            write_token(out, "OCTET")?;
            write_token(out, "STRING")
        }
        StringKind::Ia5 => write_token(out, "IA5String"),
        StringKind::Numeric => write_token(out, "NumericString"),
        StringKind::Visible => write_token(out, "VisibleString"),
    }
}

/// A string other than a UTF8String.
#[tactic(auto, using(crate::proofs::Spaces::spaces_append), unfolding(asn_notation::specs::Grammar::written))]
fn write_string(
    out: &mut String,
    alloc: Global,
    kind: StringKind,
    size: Size,
) -> Result<(), AllocError>
    ensures { Writes (g.written (text kind (spec.size_printed (size_range_of size)))) result out.old out.new }
{
    write_kind(out, kind)?;
    write_size(out, alloc, size)
}

/// An INTEGER.
#[tactic(auto, using(crate::proofs::Spaces::spaces_append), unfolding(asn_notation::specs::Grammar::written))]
fn write_integer(out: &mut String, alloc: Global, bounds: Bounds) -> Result<(), AllocError>
    ensures { Writes (g.written (integer (spec.range_printed (range_of bounds)))) result out.old out.new }
{
    write_token(out, "INTEGER")?;
    write_range(out, alloc, bounds)
}

/// The name of the item at an index; nothing where there is none.
fn label_name<'a>(items: &'a [Item], index: usize) -> &'a str
    ensures { result.now ≡ spec.label_name (labels_seen items.now) index }
{
    if index < items.len() {
        items[index].name.as_str()
    } else {
        ""
    }
}

/// The name of the item of a type at an index; nothing where there is none.
fn item_name<'a>(ty: &'a AsnType, index: usize) -> &'a str
    ensures { result.now ≡ spec.item_name (shape_of ty.now) index }
{
    match ty {
        AsnType::Enum { root, .. } => label_name(root, index),
        AsnType::Bool
        | AsnType::Null
        | AsnType::Int(_)
        | AsnType::Bits(_)
        | AsnType::Octets(_)
        | AsnType::Text(..)
        | AsnType::Utf8
        | AsnType::Seq { .. }
        | AsnType::SeqOf(..)
        | AsnType::Choice { .. } => "",
    }
}

/// The value of a DEFAULT.
fn write_default(
    out: &mut String,
    alloc: Global,
    ty: &AsnType,
    value: &Value,
) -> Result<(), AllocError>
    ensures { Writes (g.default (spec.default_printed (shape_of ty.now) (datum_of value.now))) result out.old out.new }
{
    match value {
        Value::Bool(true) => write_token(out, "TRUE"),
        Value::Int(number) => write_int(out, alloc, *number),
        Value::Enum(index) => write_token(out, item_name(ty, *index as usize)),
        _ => write_token(out, "FALSE"),
    }
}

/// What follows the type of a component.
fn write_need(out: &mut String, alloc: Global, ty: &AsnType, need: &Need) -> Result<(), AllocError>
    ensures { Writes (g.need (spec.need_printed (shape_of ty.now) (demand_of need.now))) result out.old out.new }
{
    match need {
        Need::Must => Ok(()),
        Need::Optional => write_token(out, "OPTIONAL"),
        Need::Default(value) => {
            write_token(out, "DEFAULT")?;
            write_default(out, alloc, ty, value)
        }
    }
}

/// Components with commas between them, and one before the first where they follow others.
#[cycle(printing)]
#[tactic(auto, using(crate::proofs::Spaces::spaces_append), unfolding(asn_notation::specs::Grammar::written))]
fn write_components(
    out: &mut String,
    alloc: Global,
    fields: &[Field],
    follow: bool,
) -> Result<(), AllocError>
    ensures { Writes (spec.components_tokens follow (fields_seen fields.now)) result out.old out.new }
{
    let mut comma = follow;
    for field in fields {
        write_comma(out, comma)?;
        write_token(out, field.name.as_str())?;
        write_type(out, alloc, &field.ty)?;
        write_need(out, alloc, &field.ty, &field.need)?;
        comma = true;
    }
    Ok(())
}

/// Alternatives with commas between them, and one before the first where they follow others.
#[cycle(printing)]
#[tactic(auto, using(crate::proofs::Spaces::spaces_append), unfolding(asn_notation::specs::Grammar::written))]
fn write_alternatives(
    out: &mut String,
    alloc: Global,
    alternatives: &[Alt],
    follow: bool,
) -> Result<(), AllocError>
    ensures { Writes (spec.alternatives_tokens follow (alternatives_seen alternatives.now)) result out.old out.new }
{
    let mut comma = follow;
    for alternative in alternatives {
        write_comma(out, comma)?;
        write_token(out, alternative.name.as_str())?;
        write_type(out, alloc, &alternative.ty)?;
        comma = true;
    }
    Ok(())
}

/// A type.
#[cycle(printing)]
#[tactic(auto, unfolding(asn_notation::specs::Grammar::written))]
pub(crate) fn write_type(out: &mut String, alloc: Global, ty: &AsnType) -> Result<(), AllocError>
    ensures { Writes (g.written (spec.type_printed (shape_of ty.now))) result out.old out.new }
{
    match ty {
        AsnType::Bool => write_token(out, "BOOLEAN"),
        AsnType::Null => write_token(out, "NULL"),
        AsnType::Utf8 => write_token(out, "UTF8String"),
        AsnType::Int(bounds) => write_integer(out, alloc, *bounds),
        AsnType::Enum { root, ext } => write_enumerated(out, alloc, root, ext),
        AsnType::Bits(size) => write_string(out, alloc, StringKind::Bits, *size),
        AsnType::Octets(size) => write_string(out, alloc, StringKind::Octets, *size),
        AsnType::Text(kind, size) => write_string(out, alloc, string_kind(*kind), *size),
        AsnType::Seq { root, ext } => {
            write_token(out, "SEQUENCE")?;
            write_token(out, "{")?;
            write_components(out, alloc, root, false)?;
            match ext {
                None => write_token(out, "}"),
                Some(more) => {
                    write_dots(out, !root.is_empty())?;
                    write_components(out, alloc, more, true)?;
                    write_token(out, "}")
                }
            }
        }
        AsnType::SeqOf(element, size) => {
            write_token(out, "SEQUENCE")?;
            write_size(out, alloc, *size)?;
            write_token(out, "OF")?;
            write_type(out, alloc, element)
        }
        AsnType::Choice { root, ext } => {
            write_token(out, "CHOICE")?;
            write_token(out, "{")?;
            write_alternatives(out, alloc, root, false)?;
            match ext {
                None => write_token(out, "}"),
                Some(more) => {
                    write_dots(out, true)?;
                    write_alternatives(out, alloc, more, true)?;
                    write_token(out, "}")
                }
            }
        }
    }
}
