//! The items of strings: octets all at once, bits and characters as many at a time as a word holds.
ghost use Rattle.std.specs.Prelude.{◌≡◌, ◌≤◌, ◌<◌, ◌+◌, ◌*◌, ◌^◌, ◌++◌, OnOk, IsTrue, length, map, take, drop, ◌/◌, ℕ, List, IfOk, true, false, vec_len, vec_capacity};
ghost use Rattle.std.specs.List.{AllByRecursion};
ghost use Rattle.asn_values.specs.Fits.{FitsLength, is_of_kind};
ghost use Rattle.asn_values.specs.View.{alphabet_of, size_range_of};
ghost use Rattle.asn_bits.specs.Lengths.{joined};
ghost use Rattle.asn_bits.specs.Numbers.{bits};
ghost use Rattle.asn_rules.specs.Fields.{Octet};
ghost use Rattle.asn_rules.specs.Languages.{Row};
ghost use Rattle.asn_rules.specs.NumberSets.{Admits};
ghost use Rattle.asn_per.specs.Per.{character_bits};
ghost use Rattle.asn_per.specs.Reading.{AppendsAll, AppendsText, bits_of_codes, code_width, Appends, codes_of, character_at, Reads, StopsIn, CharacterOf, code_in, AreCodes};
ghost use Rattle.asn_per.specs.StringItems.{bit_items, octet_items, character_items, item_chunks, AreOfKind, row_bits, sized_bits, HoldsText};
ghost use Rattle.asn_per.specs.Kinds.{Bit};

use crate::sizes::write_size;
use asn_bits::BitCursor;
use asn_rules::Why;
use asn_rules::internal::{NumberSet, Stop, admits, bit_at, bits_left, power_of_two, read_number};
use asn_sinks::Sink;
use asn_values::{Size, TextKind};
use std::alloc::AllocError;

/// The items of a string.
#[derive(Clone, Copy)]
enum Items<'a> {
    Bits(&'a [bool]),
    Octets(&'a [u8]),
    Characters(TextKind, &'a [u8]),
}

/// Writes the bits of a BIT STRING (X.691, "encoding the bitstring type").
#[inline(never)]
pub(crate) fn write_bits<S: Sink>(size: &Size, bits: &[bool], sink: &mut S) -> Result<(), S::Fault>
    requires of_type { FitsLength (size_range_of size.now) (length bits.now) }
    ensures { OnOk result (S.pushes sink.old sink.new (sized_bits (size_range_of size.now) (bit_items bits.now))) }
{
    write_sized(size, Items::Bits(bits), sink)
}

/// Writes the octets of an OCTET STRING (X.691, "encoding the octetstring type").
#[inline(never)]
pub(crate) fn write_octets<S: Sink>(
    size: &Size,
    octets: &[u8],
    sink: &mut S,
) -> Result<(), S::Fault>
    requires of_type { FitsLength (size_range_of size.now) (length octets.now) }
    ensures { OnOk result (S.pushes sink.old sink.new (sized_bits (size_range_of size.now) (octet_items octets.now))) }
{
    write_sized(size, Items::Octets(octets), sink)
}

/// Writes the characters of a string of this kind (X.691, "encoding the restricted character string types").
#[inline(never)]
pub(crate) fn write_characters<S: Sink>(
    kind: TextKind,
    size: &Size,
    text: &[u8],
    sink: &mut S,
) -> Result<(), S::Fault>
    requires of_type { FitsLength (size_range_of size.now) (length text.now) }
    requires of_kind { AllByRecursion (λ c. IsTrue (is_of_kind (alphabet_of kind) c)) text.now }
    ensures { OnOk result (S.pushes sink.old sink.new
        (sized_bits (size_range_of size.now) (character_items (alphabet_of kind) text.now))) }
{
    write_sized(size, Items::Characters(kind, text), sink)
}

/// Writes items under a size: inlined, so that each kind of string has a loop of its own.
#[inline(always)]
fn write_sized<S: Sink>(size: &Size, items: Items<'_>, sink: &mut S) -> Result<(), S::Fault>
    requires of_type { FitsLength (size_range_of size.now) (length (item_chunks items)) }
    requires of_kind { AreOfKind items }
    ensures { OnOk result (S.pushes sink.old sink.new
        (sized_bits (size_range_of size.now) (item_chunks items.entry))) }
{
    let count = count_of(items);
    let mut following = write_size(size, count, sink)?;
    let mut done = 0;
    while let Some(many) = following.next(count - done, sink)? {
        write_items(items, done, many, sink)?;
        done += many;
    }
    Ok(())
}

/// The count of the items.
fn count_of(items: Items<'_>) -> usize
    ensures { result ≡ length (item_chunks items.entry) }
{
    match items {
        Items::Bits(bits) => bits.len(),
        Items::Octets(octets) => octets.len(),
        Items::Characters(_, text) => text.len(),
    }
}

/// Writes `count` items, from the one at index `from` on.
#[inline(always)]
fn write_items<S: Sink>(
    items: Items<'_>,
    from: usize,
    count: usize,
    sink: &mut S,
) -> Result<(), S::Fault>
    requires there { from + count ≤ length (item_chunks items) }
    requires of_kind { AreOfKind items }
    ensures { OnOk result (S.pushes sink.old sink.new (row_bits (take count (drop from (item_chunks items.entry))))) }
{
    match items {
        Items::Bits(bits) => sink.push_bits(&bits[from..from + count]),
        Items::Octets(octets) => sink.push_octets(&octets[from..from + count]),
        Items::Characters(kind, text) => push_characters(kind, &text[from..from + count], sink),
    }
}

/// Appends characters, as many at a time as a word holds (X.691, "encoding the restricted character string types").
fn push_characters<S: Sink>(kind: TextKind, text: &[u8], sink: &mut S) -> Result<(), S::Fault>
    requires { AllByRecursion (λ c. IsTrue (is_of_kind (alphabet_of kind) c)) text.now }
    ensures { OnOk result (S.pushes sink.old sink.new
        (joined (map (λ c. character_bits (alphabet_of kind) c) text.now))) }
{
    let width = width_of(kind);
    let at_once = (64 / width) as usize;
    let mut done = 0;
    while done < text.len() {
        let many = (text.len() - done).min(at_once);
        let word = word_of_characters(kind, &text[done..done + many]);
        sink.push_number(width * many as u32, word)?;
        done += many;
    }
    Ok(())
}

/// The number that the bits of the characters are.
fn word_of_characters(kind: TextKind, text: &[u8]) -> u64
    requires few { code_width (alphabet_of kind) * length text.now ≤ 64 }
    requires of_kind { AllByRecursion (λ c. IsTrue (is_of_kind (alphabet_of kind) c)) text.now }
    ensures within { result < 2 ^ (code_width (alphabet_of kind) * length text.now) }
    ensures bits { HoldsText kind result text.now }
{
    let radix = power_of_two(width_of(kind));
    let mut word = 0;
    for character in text {
        let code = code_of(kind, *character);
        word = word * radix + code;
    }
    word
}

/// The code that is spelt for a character: of a NumericString, 0 for SPACE and one more than the digit says.
fn code_of(kind: TextKind, character: u8) -> u64
    requires { IsTrue (is_of_kind (alphabet_of kind) character) }
    ensures within { result < 2 ^ code_width (alphabet_of kind) }
    ensures bits { bits (code_width (alphabet_of kind)) result ≡ character_bits (alphabet_of kind) character }
{
    let code = match kind {
        TextKind::Ia5 | TextKind::Visible => character,
        TextKind::Numeric => {
            if character == b' ' {
                0
            } else {
                character - b'0' + 1
            }
        }
    };
    u64::from(code)
}

/// Appends `count` octets of an OCTET STRING (X.691, "encoding the octetstring type").
pub(crate) fn append_octets(
    count: usize,
    into: &mut Vec<u8>,
    cursor: &mut BitCursor<'_>,
) -> Result<(), Stop>
    ensures done { IfOk result (λ _. Appends Octet count into.old.items into.new.items cursor.old cursor.new) }
    ensures stop { StopsIn result (Row Octet count) cursor.old }
{
    if bits_left(cursor) < 8 * count as u128 {
        return Err(Stop::Short);
    }
    cursor.take_octets(count, into)?;
    Ok(())
}

/// Appends `count` bits of a BIT STRING (X.691, "encoding the bitstring type").
pub(crate) fn append_bits(
    count: usize,
    into: &mut Vec<bool>,
    cursor: &mut BitCursor<'_>,
) -> Result<(), Stop>
    ensures done { IfOk result (λ _. Appends Bit count into.old.items into.new.items cursor.old cursor.new) }
    ensures stop { StopsIn result (Row Bit count) cursor.old }
{
    if bits_left(cursor) < count as u128 {
        return Err(Stop::Short);
    }
    into.reserve(count)?;
    let mut left = count;
    while left > 0 {
        let many = left.min(64) as u32;
        let Some(word) = cursor.take_number(many) else {
            unreachable!()
        };
        append_low_bits(many, word, into);
        left -= many as usize;
    }
    Ok(())
}

/// Appends the low `count` bits of a number, for which the vector has capacity.
fn append_low_bits(count: u32, word: u64, into: &mut Vec<bool>)
    requires few { count ≤ 64 }
    requires room { vec_len into.old + count ≤ vec_capacity into.old }
    ensures items { AppendsAll Bit count into.old.items into.new.items (bits count word) }
    ensures len { vec_len into.new ≡ vec_len into.old + count }
    ensures capacity { vec_capacity into.new ≡ vec_capacity into.old }
{
    for i in 0..count {
        into.push_reserved(bit_at(word, count - 1 - i));
    }
}

/// Appends `count` characters (X.691, "encoding the restricted character string types").
pub(crate) fn append_characters(
    kind: TextKind,
    count: usize,
    into: &mut Vec<u8>,
    cursor: &mut BitCursor<'_>,
) -> Result<(), Stop>
    ensures done { IfOk result (λ _. AppendsText kind count into.old.items into.new.items cursor.old cursor.new) }
    ensures stop { StopsIn result (Row (CharacterOf kind) count) cursor.old }
{
    let at_once = (64 / width_of(kind)) as usize;
    let mut left = count;
    while left > 0 {
        let many = left.min(at_once);
        if try_append_characters(kind, many as u32, into, cursor)? {
            left -= many;
        } else {
            into.push(read_character(kind, cursor)?)?;
            left -= 1;
        }
    }
    Ok(())
}

/// Appends `count` characters at once if all are present and valid; returns whether it did.
pub(crate) fn try_append_characters(
    kind: TextKind,
    count: u32,
    into: &mut Vec<u8>,
    cursor: &mut BitCursor<'_>,
) -> Result<bool, AllocError>
    requires { code_width (alphabet_of kind) * count ≤ 64 }
    ensures taken { IfOk result (λ taken. taken ≡ true
        → AppendsText kind count into.old.items into.new.items cursor.old cursor.new) }
    ensures not_taken { IfOk result (λ taken. taken ≡ false
        → (into.new.items ≡ into.old.items) × (cursor.new ≡ cursor.old)) }
{
    let before = cursor.copied();
    let Some(word) = cursor.take_number(width_of(kind) * count) else {
        return Ok(false);
    };
    if !are_of_kind(kind, count, word) {
        *cursor = before;
        return Ok(false);
    }
    into.reserve(count as usize)?;
    append_word(kind, count, word, into);
    Ok(true)
}

/// Whether the low `count` codes of the number are those of characters.
fn are_of_kind(kind: TextKind, count: u32, word: u64) -> bool
    requires { code_width (alphabet_of kind) * count ≤ 64 }
    ensures { IsTrue result → AreCodes kind count word }
{
    for after in 0..count {
        if !admits(codes(kind), code_at(kind, word, after)) {
            return false;
        }
    }
    true
}

/// Appends the characters of the low `count` codes of the number, for which the vector has capacity.
fn append_word(kind: TextKind, count: u32, word: u64, into: &mut Vec<u8>)
    requires few { code_width (alphabet_of kind) * count ≤ 64 }
    requires of_kind { AreCodes kind count word }
    requires room { vec_len into.old + count ≤ vec_capacity into.old }
    ensures { AppendsAll (CharacterOf kind) count into.old.items into.new.items (bits_of_codes kind count word) }
{
    for i in 0..count {
        let code = code_at(kind, word, count - 1 - i);
        into.push_reserved(character_of(kind, code));
    }
}

/// The code in the number that `after` codes follow.
fn code_at(kind: TextKind, word: u64, after: u32) -> u64
    requires { code_width (alphabet_of kind) * after < 64 }
    ensures { result ≡ code_in kind word after }
{
    let width = width_of(kind);
    word >> (width * after) & ((1 << width) - 1)
}

/// Reads a character, refused at the first bit after which there is none.
fn read_character(kind: TextKind, cursor: &mut BitCursor<'_>) -> Result<u8, Stop>
    ensures done { Reads result (λ c. c) (CharacterOf kind) cursor.old cursor.new }
    ensures stop { StopsIn result (CharacterOf kind) cursor.old }
{
    let code = read_number(width_of(kind), codes(kind), Why::Character, cursor)?;
    Ok(character_of(kind, code))
}

/// The count of the bits of a character.
pub(crate) fn width_of(kind: TextKind) -> u32
    ensures width { result ≡ code_width (alphabet_of kind) }
    ensures some { 4 ≤ result }
    ensures few { result ≤ 7 }
{
    match kind {
        TextKind::Ia5 | TextKind::Visible => 7,
        TextKind::Numeric => 4,
    }
}

/// The codes of the characters of a kind.
fn codes(kind: TextKind) -> NumberSet
    ensures { result ≡ codes_of (alphabet_of kind) }
{
    let (low, high) = match kind {
        TextKind::Ia5 => (0, 127),
        TextKind::Visible => (32, 126),
        TextKind::Numeric => (0, 10),
    };
    NumberSet {
        low,
        high,
        excluded: None,
    }
}

/// The character with the code: of a NumericString, SPACE has 0 and a digit one more than it says.
fn character_of(kind: TextKind, code: u64) -> u8
    requires { Admits (codes_of (alphabet_of kind)) code }
    ensures { result ≡ character_at (alphabet_of kind) code }
{
    match kind {
        TextKind::Ia5 | TextKind::Visible => code as u8,
        TextKind::Numeric => {
            if code == 0 {
                b' '
            } else {
                b'0' + (code as u8 - 1)
            }
        }
    }
}
