//! Faults in words, and the version.
ghost use Rattle.std.specs.Prelude.{◌≡◌, codes, string_bytes, IfOk, Some};
ghost use Rattle.asn_values.specs.View.{shape_of};
ghost use Rattle.tulvorn_c.specs.Answers.{Copies};
ghost use Rattle.tulvorn_c.specs.Faults.{plain};
ghost use Rattle.tulvorn_c.specs.Held.{held_octets};
ghost use Rattle.tulvorn_c.specs.Words.{
  version,
  unit_of,
  why_of,
  decode_fault_of,
  words_of_code,
  is_broken,
  words_of_broken,
  words_by,
  words_of,
  TellsWords,
};

use crate::fault::{DONE, Fault, MISUSE, NO_MEMORY};
use crate::handle::Handle;
use crate::object::Object;
use crate::octets::copy;
use std::alloc::{AllocError, Global};
use tulvorn::{DecodeFault, Unit, Why};

/// The version of the library.
const VERSION: &str = "0.1.0";

/// The number of the header: it grows with each change after which a program has to be compiled anew.
const INTERFACE: u32 = 2;

/// Writes the version of the library, as `tulvorn_copy` does.
#[unsafe(no_mangle)]
pub extern "C" fn tulvorn_version(into: &mut [u8], needed: &mut usize) -> u32
    ensures { Copies into.old into.new needed.new version (plain result) }
{
    copy(VERSION.as_bytes(), into, needed)
}

/// The number of the header that the library was built with, `TULVORN_INTERFACE`: a program
/// compiled with another has to be compiled anew.
#[unsafe(no_mangle)]
pub extern "C" fn tulvorn_interface() -> u32
    ensures { result ≡ 2 }
{
    INTERFACE
}

/// The words of a fault, its places counted in the unit of the encoding rules.
#[unsafe(no_mangle)]
pub extern "C" fn tulvorn_words(alloc: Global, fault: &Fault, rules: u32, words: &mut Handle) -> u32
    ensures { TellsWords (unit_of rules) fault.now words.old.kept words.new.kept (plain result) }
{
    let Some(unit) = unit_of(rules) else {
        return MISUSE;
    };
    match words_held(alloc, fault, unit) {
        Ok(held) => {
            *words = held;
            DONE
        }
        Err(_) => NO_MEMORY,
    }
}

/// A handle of the words.
fn words_held(alloc: Global, fault: &Fault, unit: Unit) -> Result<Handle, AllocError>
    ensures { IfOk result (λ h. held_octets h.kept ≡ Some (words_of unit fault.now)) }
{
    let words = if is_broken(fault) {
        broken_words(alloc, unit, fault.at)?
    } else {
        other_words(alloc, fault, unit)?
    };
    Handle::holding(alloc, Object::Octets(words.into_bytes()))
}

/// Whether the fault is the refusal of a value that breaks its constraint.
fn is_broken(fault: &Fault) -> bool
    ensures { result ≡ is_broken fault.now }
{
    fault.code == 3 && fault.why == 8
}

/// The words of such a refusal.
fn broken_words(alloc: Global, unit: Unit, at: u64) -> Result<String, AllocError>
    ensures { IfOk result (λ s. string_bytes s ≡ words_of_broken unit at) }
{
    let unit = unit.name();
    format!(in alloc; "refused at {unit} {at}: constraint")
}

/// The words of any other fault.
fn other_words(alloc: Global, fault: &Fault, unit: Unit) -> Result<String, AllocError>
    ensures { IfOk result (λ s. string_bytes s ≡ words_by unit fault.now.code (decode_fault_of fault.now)) }
{
    match decode_fault(fault) {
        Some(told) => {
            let told = told.counted_in(unit);
            format!(in alloc; "{told}")
        }
        None => String::from_str(alloc, words_of_code(fault.code)),
    }
}

/// The unit of the encoding rules of that number.
pub(crate) fn unit_of(rules: u32) -> Option<Unit>
    ensures { result ≡ unit_of rules }
{
    match rules {
        0 => Some(Unit::Bit),
        1 => Some(Unit::Octet),
        _ => None,
    }
}

/// The fault of decoding that the numbers tell.
fn decode_fault(fault: &Fault) -> Option<DecodeFault>
    ensures { result ≡ decode_fault_of fault.now }
{
    let at = fault.at;
    match fault.code {
        3 => match why_of(fault.why) {
            Some(why) => Some(DecodeFault::Refused { at, why }),
            None => None,
        },
        4 => Some(DecodeFault::Truncated { taken: at }),
        5 => Some(DecodeFault::Rest { used: at as usize }),
        _ => None,
    }
}

/// The reason of that number.
fn why_of(number: u32) -> Option<Why>
    ensures { result ≡ why_of number }
{
    match number {
        1 => Some(Why::Sealed),
        2 => Some(Why::Default),
        3 => Some(Why::Length),
        4 => Some(Why::Extension),
        5 => Some(Why::Character),
        6 => Some(Why::Padding),
        7 => Some(Why::Number),
        _ => None,
    }
}

/// The words of a code without a place.
fn words_of_code(code: u32) -> &'static str
    ensures { result.now ≡ words_of_code code }
{
    match code {
        0 => "done",
        1 => "memory",
        2 => "misuse",
        3 => "refused",
        6 => "too long",
        7 => "too short",
        8 => "not UTF-8",
        9 => "no module",
        10 => "no such name",
        11 => "not of the type",
        12 => "no JSON",
        13 => "not of the type's shape",
        14 => "no such path",
        15 => "another kind",
        16 => "no message",
        17 => "cut short",
        18 => "too many additions",
        19 => "more octets wanted",
        20 => "session spent",
        21 => "absent",
        22 => "over budget",
        23 => "constraint too large",
        24 => "too many levels",
        _ => "unknown code",
    }
}
