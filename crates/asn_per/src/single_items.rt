//! The items of strings and the octets of open type fields, one at a time, and the bits that items are.
ghost use Rattle.std.specs.Prelude.{◌≡◌, ◌≤◌, map, IfOk, None};
ghost use Rattle.asn_values.specs.View.{alphabet_of};
ghost use Rattle.asn_rules.specs.Fields.{Octet};
ghost use Rattle.asn_rules.specs.NumberSets.{Admits};
ghost use Rattle.asn_per.specs.Kinds.{truth_of};
ghost use Rattle.asn_per.specs.Reading.{Reads, StopsIn, CharacterOf, code_width, codes_of, character_at};
ghost use Rattle.asn_per.specs.SingleItems.{BitHeld};

use asn_bits::BitCursor;
use asn_rules::Why;
use asn_rules::internal::{NumberSet, Stop, read_number};
use asn_values::TextKind;
use std::alloc::{AllocError, Global};

/// Reads a bit of a BIT STRING: 0 or 1.
pub(crate) fn read_bit(cursor: &mut BitCursor<'_>) -> Result<u8, Stop>
    ensures done { Reads result (λ bit. bit) BitHeld cursor.old cursor.new }
    ensures stop { StopsIn result BitHeld cursor.old }
{
    let bit = read_number(1, up_to(1), Why::Number, cursor)?;
    Ok(bit as u8)
}

/// Reads an octet, at once where it is one of the octets of the piece.
#[inline(always)]
pub(crate) fn read_octet(cursor: &mut BitCursor<'_>) -> Result<u8, Stop>
    ensures done { Reads result (λ octet. octet) Octet cursor.old cursor.new }
    ensures stop { StopsIn result Octet cursor.old }
{
    if let Some(octet) = cursor.peek_octet() {
        cursor.pass_octets(1);
        return Ok(octet as u8);
    }
    read_octet_across(cursor)
}

/// The same, where its bits are in two octets.
#[cold]
#[inline(never)]
fn read_octet_across(cursor: &mut BitCursor<'_>) -> Result<u8, Stop>
    ensures done { Reads result (λ octet. octet) Octet cursor.old cursor.new }
    ensures stop { StopsIn result Octet cursor.old }
{
    let octet = read_number(8, up_to(255), Why::Number, cursor)?;
    Ok(octet as u8)
}

/// The numbers from 0 to this one.
fn up_to(high: u64) -> NumberSet
    ensures { result ≡ record { low = 0; high = high; excluded = None } }
{
    NumberSet {
        low: 0,
        high,
        excluded: None,
    }
}

/// Reads a character, refused at the first bit after which there is none.
pub(crate) fn read_character(kind: TextKind, cursor: &mut BitCursor<'_>) -> Result<u8, Stop>
    ensures done { Reads result (λ character. character) (CharacterOf kind) cursor.old cursor.new }
    ensures stop { StopsIn result (CharacterOf kind) cursor.old }
{
    let code = read_number(width_of(kind), codes(kind), Why::Character, cursor)?;
    Ok(character_of(kind, code))
}

/// The count of the bits of a character.
fn width_of(kind: TextKind) -> u32
    ensures width { result ≡ code_width (alphabet_of kind) }
    ensures some { 4 ≤ result }
    ensures few { result ≤ 7 }
{
    match kind {
        TextKind::Ia5 | TextKind::Visible => 7,
        TextKind::Numeric => 4,
    }
}

/// The codes of the characters of a kind.
fn codes(kind: TextKind) -> NumberSet
    ensures { result ≡ codes_of (alphabet_of kind) }
{
    let (low, high) = match kind {
        TextKind::Ia5 => (0, 127),
        TextKind::Visible => (32, 126),
        TextKind::Numeric => (0, 10),
    };
    NumberSet {
        low,
        high,
        excluded: None,
    }
}

/// The character with the code: of a NumericString, SPACE has 0 and a digit one more than it says.
fn character_of(kind: TextKind, code: u64) -> u8
    requires { Admits (codes_of (alphabet_of kind)) code }
    ensures { result ≡ character_at (alphabet_of kind) code }
{
    match kind {
        TextKind::Ia5 | TextKind::Visible => code as u8,
        TextKind::Numeric => {
            if code == 0 {
                b' '
            } else {
                b'0' + (code as u8 - 1)
            }
        }
    }
}

/// The truth values of bits, each held as 0 or 1.
pub(crate) fn truths(alloc: Global, bits: &[u8]) -> Result<Vec<bool>, AllocError>
    ensures { IfOk result (λ truths. truths.items ≡ map truth_of bits.now) }
{
    let mut truths = Vec::new(alloc);
    for bit in bits {
        truths.push(*bit != 0)?;
    }
    Ok(truths)
}
