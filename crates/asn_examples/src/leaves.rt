//! Values of types that have no parts of their own kind: numbers, items and strings.
ghost use Rattle.std.specs.Prelude.{◌≡◌, ◌<◌, false, IfOk, IsTrue, length, string_bytes};
ghost use Rattle.std.specs.List.{AllByRecursion};
ghost use Rattle.asn_values.specs.Fits.{Fits, FitsNumber, FitsLength, is_of_kind};
ghost use Rattle.asn_values.specs.Profile.{InProfile, empty_range};
ghost use Rattle.asn_values.specs.Datum.{item, unicode};
ghost use Rattle.asn_values.specs.Shape.{integer, utf8_string};
ghost use Rattle.asn_values.specs.View.{shape_of, datum_of, range_of, size_range_of, alphabet_of, labels_seen, enumerated_seen};
ghost use Rattle.asn_walk.specs.Laws.{IsSimple};
ghost use Rattle.asn_examples.specs.Lengths.{IsSizeWithLengths};

use crate::choices::Choices;
use asn_values::internal::{additions, item_fits, length_fits, number_fits, unicode_fits};
use asn_values::{AsnType, Bounds, Item, Size, TextKind, Value};
use std::alloc::{AllocError, Global};

/// A value of a type that is neither SEQUENCE, SEQUENCE OF nor CHOICE.
///
/// # Errors
/// `AllocError` where an allocation failed.
pub(crate) fn leaf(alloc: Global, ty: &AsnType, choices: &mut Choices) -> Result<Value, AllocError>
    requires of_profile { InProfile (shape_of ty.now) }
    requires simple { IsSimple (shape_of ty.now) }
    ensures { IfOk result (λ v. Fits (shape_of ty.now) (datum_of v)) }
{
    match ty {
        AsnType::Bool => Ok(Value::Bool(choices.coin())),
        AsnType::Null => Ok(Value::Null),
        AsnType::Int(bounds) => Ok(Value::Int(number_of(bounds, choices))),
        AsnType::Enum { root, ext } => Ok(Value::Enum(item_of(root, ext, choices))),
        AsnType::Bits(size) => {
            let count = length_of(size, choices);
            choices.spend(count)?;
            Ok(Value::Bits(some_bits(alloc, count, choices)?))
        }
        AsnType::Octets(size) => {
            let count = length_of(size, choices);
            choices.spend(count)?;
            Ok(Value::Octets(some_octets(alloc, count, choices)?))
        }
        AsnType::Text(kind, size) => {
            let count = length_of(size, choices);
            choices.spend(count)?;
            Ok(Value::Text(some_codes(alloc, *kind, count, choices)?))
        }
        AsnType::Utf8 => Ok(Value::Utf8(some_text(alloc, choices)?)),
        AsnType::Seq { .. } | AsnType::SeqOf(..) | AsnType::Choice { .. } => unreachable!(),
    }
}

/// A number of an INTEGER with these bounds.
fn number_of(bounds: &Bounds, choices: &mut Choices) -> i128
    requires { empty_range (integer (range_of bounds.now)) ≡ false }
    ensures { FitsNumber (range_of bounds.now) result }
{
    let least = least_number(bounds);
    let chosen = choices.number(bounds, least);
    if number_fits(bounds, chosen) {
        chosen
    } else {
        least
    }
}

/// The low bound; where there is none, 0, and where that is none of the numbers, the high bound.
fn least_number(bounds: &Bounds) -> i128
    requires { empty_range (integer (range_of bounds.now)) ≡ false }
    ensures { FitsNumber (range_of bounds.now) result }
{
    if let Some(low) = bounds.low {
        return low;
    }
    if number_fits(bounds, 0) {
        return 0;
    }
    match bounds.high {
        Some(high) => high,
        None => 0,
    }
}

/// The index of an item of an ENUMERATED of these.
fn item_of(root: &[Item], ext: &Option<Vec<Item>>, choices: &mut Choices) -> u32
    requires { 0 < length (labels_seen root.now) }
    ensures { Fits (enumerated_seen root.now ext.now) (item result) }
{
    let known = root.len() as u64;
    let most = known
        .saturating_add(additions(ext).len() as u64)
        .saturating_sub(1);
    let index = u32::try_from(choices.pick(0, most)).unwrap_or(0);
    if item_fits(root, ext, index) {
        index
    } else {
        0
    }
}

/// A length of this size, in items.
pub(crate) fn length_of(size: &Size, choices: &mut Choices) -> usize
    requires { IsSizeWithLengths (size_range_of size.now) }
    ensures { FitsLength (size_range_of size.now) result }
{
    let length = choices.length(size);
    if length_fits(size, length) {
        length
    } else {
        size.low as usize
    }
}

/// This many bits.
fn some_bits(alloc: Global, count: usize, choices: &mut Choices) -> Result<Vec<bool>, AllocError>
    ensures { IfOk result (λ v. length v.items ≡ count) }
{
    let mut bits = Vec::new(alloc);
    for i in 0..count {
        bits.push(choices.coin())?;
    }
    Ok(bits)
}

/// This many octets.
fn some_octets(alloc: Global, count: usize, choices: &mut Choices) -> Result<Vec<u8>, AllocError>
    ensures count { IfOk result (λ v. length v.items ≡ count) }
    ensures octets { IfOk result (λ v. AllByRecursion (λ o. o < 256) v.items) }
{
    let mut octets = Vec::new(alloc);
    for i in 0..count {
        octets.push(choices.pick(0, 255) as u8)?;
    }
    Ok(octets)
}

/// The codes of this many characters of this kind.
fn some_codes(
    alloc: Global,
    kind: TextKind,
    count: usize,
    choices: &mut Choices,
) -> Result<Vec<u8>, AllocError>
    ensures count { IfOk result (λ v. length v.items ≡ count) }
    ensures kind { IfOk result (λ v. AllByRecursion (λ c. IsTrue (is_of_kind (alphabet_of kind) c)) v.items) }
{
    let mut codes = Vec::new(alloc);
    for i in 0..count {
        codes.push(character(kind, choices))?;
    }
    Ok(codes)
}

/// The code of a character of this kind; of the digit 0 where the least of each is taken.
fn character(kind: TextKind, choices: &mut Choices) -> u8
    ensures { IsTrue (is_of_kind (alphabet_of kind) result) }
{
    if choices.are_least() {
        return b'0';
    }
    match kind {
        TextKind::Ia5 => choices.pick(0, 127) as u8,
        TextKind::Numeric => choices.pick(48, 57) as u8,
        TextKind::Visible => choices.pick(32, 126) as u8,
    }
}

/// A text of at most 268,435,455 octets, of characters of one to four octets.
fn some_text(alloc: Global, choices: &mut Choices) -> Result<String, AllocError>
    ensures { IfOk result (λ s. Fits utf8_string (unicode (string_bytes s))) }
{
    let any = Size {
        low: 0,
        high: None,
        ext: false,
    };
    let mut text = String::new(alloc);
    for i in 0..choices.length(&any) {
        text.push_str(match choices.pick(0, 3) {
            0 => "a",
            1 => "\u{e9}",
            2 => "\u{20ac}",
            _ => "\u{1f600}",
        })?;
    }
    if unicode_fits(text.as_str()) {
        Ok(text)
    } else {
        Ok(String::new(alloc))
    }
}
