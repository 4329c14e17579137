//! The parts of a value, by paths: what views of `asn_view` find. None of these calls takes memory.
ghost use Rattle.std.specs.Prelude.{◌≡◌, IfOk, IfErr, Some};
ghost use Rattle.asn_values.specs.View.{shape_of, datum_of};
ghost use Rattle.asn_view.specs.Typed.{typed};
ghost use Rattle.asn_view.specs.Paths.{value_at_path};
ghost use Rattle.asn_view.specs.Seen.{seen};
ghost use Rattle.tulvorn_c.specs.Faults.{plain};
ghost use Rattle.tulvorn_c.specs.Held.{held_value};
ghost use Rattle.tulvorn_c.specs.Parts.{
  HasNoPart,
  TellsPart,
  AskedPart,
  TellsKind,
  number_of_kind,
  TellsTruth,
  TellsInteger,
  TellsUnsigned,
  TellsCount,
  TellsBit,
};

use crate::fault::{DONE, MISUSE, NOT_TEXT, OTHER_KIND};
use crate::object::Object;
use crate::paths::code_without;
use crate::shown::Shown;
use tulvorn::{Checked, Kind, Value, View, Viewed};

/// The part at a path, or the code of why there is none.
pub(crate) fn part_at<'a>(ty: &'a Checked, value: &'a Value, path: &[u8]) -> Result<View<'a>, u32>
    ensures found { IfOk result (λ v.
        value_at_path path.now (typed (shape_of ty.now) (datum_of value.now)) ≡ Some (seen v)) }
    ensures none { IfErr result (λ code.
        HasNoPart path.now (typed (shape_of ty.now) (datum_of value.now)) (plain code)) }
{
    let Ok(path) = std::str::from_utf8(path) else {
        return Err(NOT_TEXT);
    };
    match ty.view(value).at(path) {
        Some(part) => Ok(part),
        None => Err(code_without(ty.get(), path)),
    }
}

/// The kind of the part's type.
#[unsafe(no_mangle)]
pub extern "C" fn tulvorn_kind(value: &Shown, path: &[u8], kind: &mut u32) -> u32
    ensures told { AskedPart (held_value value.now.kept) path.now (kind.new ≡ kind.old)
        (TellsKind kind.new) (plain result) }
{
    let Some(it) = value.object() else {
        return MISUSE;
    };
    match it {
        Object::Value { ty, value } => kind_at(&ty.checked, value, path, kind),
        _ => MISUSE,
    }
}

fn kind_at(ty: &Checked, value: &Value, path: &[u8], kind: &mut u32) -> u32
    ensures { TellsPart path.now (kind.new ≡ kind.old) (TellsKind kind.new)
        (typed (shape_of ty.now) (datum_of value.now)) (plain result) }
{
    match part_at(ty, value, path) {
        Ok(part) => kind_of(&part, kind),
        Err(code) => code,
    }
}

fn kind_of(part: &View<'_>, kind: &mut u32) -> u32
    ensures { TellsKind kind.new (seen part.now) (plain result) }
{
    *kind = number_of(part.kind());
    DONE
}

/// The number of a kind.
fn number_of(kind: Kind) -> u32
    ensures { result ≡ number_of_kind kind }
{
    match kind {
        Kind::Boolean => 1,
        Kind::Null => 2,
        Kind::Integer => 3,
        Kind::Enumerated => 4,
        Kind::BitString => 5,
        Kind::OctetString => 6,
        Kind::CharacterString => 7,
        Kind::Sequence => 8,
        Kind::SequenceOf => 9,
        Kind::Choice => 10,
    }
}

/// The value of a BOOLEAN: 0 or 1.
#[unsafe(no_mangle)]
pub extern "C" fn tulvorn_boolean(value: &Shown, path: &[u8], truth: &mut u32) -> u32
    ensures told { AskedPart (held_value value.now.kept) path.now (truth.new ≡ truth.old)
        (TellsTruth truth.old truth.new) (plain result) }
{
    let Some(it) = value.object() else {
        return MISUSE;
    };
    match it {
        Object::Value { ty, value } => boolean_at(&ty.checked, value, path, truth),
        _ => MISUSE,
    }
}

fn boolean_at(ty: &Checked, value: &Value, path: &[u8], truth: &mut u32) -> u32
    ensures { TellsPart path.now (truth.new ≡ truth.old) (TellsTruth truth.old truth.new)
        (typed (shape_of ty.now) (datum_of value.now)) (plain result) }
{
    match part_at(ty, value, path) {
        Ok(part) => boolean_of(&part, truth),
        Err(code) => code,
    }
}

fn boolean_of(part: &View<'_>, truth: &mut u32) -> u32
    ensures { TellsTruth truth.old truth.new (seen part.now) (plain result) }
{
    match part.as_bool() {
        Some(true) => {
            *truth = 1;
            DONE
        }
        Some(false) => {
            *truth = 0;
            DONE
        }
        None => OTHER_KIND,
    }
}

/// The value of an INTEGER that is no more than 2^63 - 1. A greater one is of another kind: see `tulvorn_unsigned`.
#[unsafe(no_mangle)]
pub extern "C" fn tulvorn_integer(value: &Shown, path: &[u8], number: &mut i64) -> u32
    ensures told { AskedPart (held_value value.now.kept) path.now (number.new ≡ number.old)
        (TellsInteger number.old number.new) (plain result) }
{
    let Some(it) = value.object() else {
        return MISUSE;
    };
    match it {
        Object::Value { ty, value } => integer_at(&ty.checked, value, path, number),
        _ => MISUSE,
    }
}

fn integer_at(ty: &Checked, value: &Value, path: &[u8], number: &mut i64) -> u32
    ensures { TellsPart path.now (number.new ≡ number.old) (TellsInteger number.old number.new)
        (typed (shape_of ty.now) (datum_of value.now)) (plain result) }
{
    match part_at(ty, value, path) {
        Ok(part) => integer_of(&part, number),
        Err(code) => code,
    }
}

fn integer_of(part: &View<'_>, number: &mut i64) -> u32
    ensures { TellsInteger number.old number.new (seen part.now) (plain result) }
{
    let Some(value) = part.as_int() else {
        return OTHER_KIND;
    };
    match i64::try_from(value) {
        Ok(value) => {
            *number = value;
            DONE
        }
        Err(_) => OTHER_KIND,
    }
}

/// The value of an INTEGER that is not below 0. Another is of another kind: see `tulvorn_integer`.
#[unsafe(no_mangle)]
pub extern "C" fn tulvorn_unsigned(value: &Shown, path: &[u8], number: &mut u64) -> u32
    ensures told { AskedPart (held_value value.now.kept) path.now (number.new ≡ number.old)
        (TellsUnsigned number.old number.new) (plain result) }
{
    let Some(it) = value.object() else {
        return MISUSE;
    };
    match it {
        Object::Value { ty, value } => unsigned_at(&ty.checked, value, path, number),
        _ => MISUSE,
    }
}

fn unsigned_at(ty: &Checked, value: &Value, path: &[u8], number: &mut u64) -> u32
    ensures { TellsPart path.now (number.new ≡ number.old) (TellsUnsigned number.old number.new)
        (typed (shape_of ty.now) (datum_of value.now)) (plain result) }
{
    match part_at(ty, value, path) {
        Ok(part) => unsigned_of(&part, number),
        Err(code) => code,
    }
}

fn unsigned_of(part: &View<'_>, number: &mut u64) -> u32
    ensures { TellsUnsigned number.old number.new (seen part.now) (plain result) }
{
    let Some(value) = part.as_int() else {
        return OTHER_KIND;
    };
    match u64::try_from(value) {
        Ok(value) => {
            *number = value;
            DONE
        }
        Err(_) => OTHER_KIND,
    }
}

/// How many elements a SEQUENCE OF has, or bits, octets or characters a string; 0 of a value of another kind.
#[unsafe(no_mangle)]
pub extern "C" fn tulvorn_count(value: &Shown, path: &[u8], count: &mut usize) -> u32
    ensures told { AskedPart (held_value value.now.kept) path.now (count.new ≡ count.old)
        (TellsCount count.new) (plain result) }
{
    let Some(it) = value.object() else {
        return MISUSE;
    };
    match it {
        Object::Value { ty, value } => count_at(&ty.checked, value, path, count),
        _ => MISUSE,
    }
}

fn count_at(ty: &Checked, value: &Value, path: &[u8], count: &mut usize) -> u32
    ensures { TellsPart path.now (count.new ≡ count.old) (TellsCount count.new)
        (typed (shape_of ty.now) (datum_of value.now)) (plain result) }
{
    match part_at(ty, value, path) {
        Ok(part) => count_of(&part, count),
        Err(code) => code,
    }
}

fn count_of(part: &View<'_>, count: &mut usize) -> u32
    ensures { TellsCount count.new (seen part.now) (plain result) }
{
    *count = part.len();
    DONE
}

/// The bit of a BIT STRING at an index, counted from 0: 0 or 1.
#[unsafe(no_mangle)]
pub extern "C" fn tulvorn_bit(value: &Shown, path: &[u8], index: usize, bit: &mut u32) -> u32
    ensures told { AskedPart (held_value value.now.kept) path.now (bit.new ≡ bit.old)
        (TellsBit index bit.old bit.new) (plain result) }
{
    let Some(it) = value.object() else {
        return MISUSE;
    };
    match it {
        Object::Value { ty, value } => bit_at(&ty.checked, value, path, index, bit),
        _ => MISUSE,
    }
}

fn bit_at(ty: &Checked, value: &Value, path: &[u8], index: usize, bit: &mut u32) -> u32
    ensures { TellsPart path.now (bit.new ≡ bit.old) (TellsBit index bit.old bit.new)
        (typed (shape_of ty.now) (datum_of value.now)) (plain result) }
{
    match part_at(ty, value, path) {
        Ok(part) => bit_of(&part, index, bit),
        Err(code) => code,
    }
}

fn bit_of(part: &View<'_>, index: usize, bit: &mut u32) -> u32
    ensures { TellsBit index bit.old bit.new (seen part.now) (plain result) }
{
    let Some(bits) = part.as_bits() else {
        return OTHER_KIND;
    };
    if index >= bits.len() {
        return OTHER_KIND;
    }
    *bit = if bits[index] { 1 } else { 0 };
    DONE
}
