//! Parts of a value that are octets, characters or names, put into octets of the caller. No call here takes memory.
ghost use Rattle.std.specs.Prelude.{◌≡◌};
ghost use Rattle.asn_values.specs.View.{shape_of, datum_of};
ghost use Rattle.asn_view.specs.Typed.{typed};
ghost use Rattle.asn_view.specs.Seen.{seen};
ghost use Rattle.tulvorn_c.specs.Answers.{AreAsBefore};
ghost use Rattle.tulvorn_c.specs.Faults.{plain};
ghost use Rattle.tulvorn_c.specs.Held.{held_value};
ghost use Rattle.tulvorn_c.specs.Parts.{TellsPart, AskedPart, TellsOctets, octets_in, name_in, TellsText};

use crate::fault::{MISUSE, OTHER_KIND};
use crate::object::Object;
use crate::octets::copy;
use crate::parts::part_at;
use crate::shown::Shown;
use tulvorn::{Checked, Value, View};

/// Writes the octets of an OCTET STRING, as `tulvorn_copy` does.
#[unsafe(no_mangle)]
pub extern "C" fn tulvorn_octets(
    value: &Shown,
    path: &[u8],
    into: &mut [u8],
    needed: &mut usize,
) -> u32
    ensures told { AskedPart (held_value value.now.kept) path.now (AreAsBefore into.old into.new needed.old needed.new)
        (TellsOctets octets_in into.old into.new needed.old needed.new) (plain result) }
{
    let Some(it) = value.object() else {
        return MISUSE;
    };
    match it {
        Object::Value { ty, value } => octets_at(&ty.checked, value, path, into, needed),
        _ => MISUSE,
    }
}

fn octets_at(ty: &Checked, value: &Value, path: &[u8], into: &mut [u8], needed: &mut usize) -> u32
    ensures { TellsPart path.now (AreAsBefore into.old into.new needed.old needed.new)
        (TellsOctets octets_in into.old into.new needed.old needed.new)
        (typed (shape_of ty.now) (datum_of value.now)) (plain result) }
{
    match part_at(ty, value, path) {
        Ok(part) => octets_of(&part, into, needed),
        Err(code) => code,
    }
}

fn octets_of(part: &View<'_>, into: &mut [u8], needed: &mut usize) -> u32
    ensures { TellsOctets octets_in into.old into.new needed.old needed.new (seen part.now) (plain result) }
{
    match part.as_octets() {
        Some(octets) => copy(octets, into, needed),
        None => OTHER_KIND,
    }
}

/// Writes the characters of a character string in UTF-8, as `tulvorn_copy` does.
#[unsafe(no_mangle)]
pub extern "C" fn tulvorn_text(
    value: &Shown,
    path: &[u8],
    into: &mut [u8],
    needed: &mut usize,
) -> u32
    ensures told { AskedPart (held_value value.now.kept) path.now (AreAsBefore into.old into.new needed.old needed.new)
        (TellsText into.old into.new needed.old needed.new) (plain result) }
{
    let Some(it) = value.object() else {
        return MISUSE;
    };
    match it {
        Object::Value { ty, value } => text_at(&ty.checked, value, path, into, needed),
        _ => MISUSE,
    }
}

fn text_at(ty: &Checked, value: &Value, path: &[u8], into: &mut [u8], needed: &mut usize) -> u32
    ensures { TellsPart path.now (AreAsBefore into.old into.new needed.old needed.new)
        (TellsText into.old into.new needed.old needed.new)
        (typed (shape_of ty.now) (datum_of value.now)) (plain result) }
{
    match part_at(ty, value, path) {
        Ok(part) => text_of(&part, into, needed),
        Err(code) => code,
    }
}

fn text_of(part: &View<'_>, into: &mut [u8], needed: &mut usize) -> u32
    ensures { TellsText into.old into.new needed.old needed.new (seen part.now) (plain result) }
{
    match part.as_str() {
        Some(text) => copy(text.as_bytes(), into, needed),
        None => OTHER_KIND,
    }
}

/// Writes the name of the item of an ENUMERATED or of the chosen alternative of a CHOICE, as `tulvorn_copy` does. One that
/// the type has not (of a newer sender) has no name.
#[unsafe(no_mangle)]
pub extern "C" fn tulvorn_name(
    value: &Shown,
    path: &[u8],
    into: &mut [u8],
    needed: &mut usize,
) -> u32
    ensures told { AskedPart (held_value value.now.kept) path.now (AreAsBefore into.old into.new needed.old needed.new)
        (TellsOctets name_in into.old into.new needed.old needed.new) (plain result) }
{
    let Some(it) = value.object() else {
        return MISUSE;
    };
    match it {
        Object::Value { ty, value } => name_at(&ty.checked, value, path, into, needed),
        _ => MISUSE,
    }
}

fn name_at(ty: &Checked, value: &Value, path: &[u8], into: &mut [u8], needed: &mut usize) -> u32
    ensures { TellsPart path.now (AreAsBefore into.old into.new needed.old needed.new)
        (TellsOctets name_in into.old into.new needed.old needed.new)
        (typed (shape_of ty.now) (datum_of value.now)) (plain result) }
{
    match part_at(ty, value, path) {
        Ok(part) => name_of(&part, into, needed),
        Err(code) => code,
    }
}

fn name_of(part: &View<'_>, into: &mut [u8], needed: &mut usize) -> u32
    ensures { TellsOctets name_in into.old into.new needed.old needed.new (seen part.now) (plain result) }
{
    match part.item_name() {
        Some(name) => copy(name.as_bytes(), into, needed),
        None => match part.alternative() {
            Some((name, _)) => copy(name.as_bytes(), into, needed),
            None => OTHER_KIND,
        },
    }
}
