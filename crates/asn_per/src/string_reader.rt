//! Readers of strings: bits, octets and characters under a size, and UTF8String.
ghost use Rattle.std.specs.Prelude.{string_bytes};
ghost use Rattle.asn_values.specs.View.{size_range_of};
ghost use Rattle.asn_rules.specs.Chunks.{utf8_field};
ghost use Rattle.asn_rules.specs.Fields.{Octet};
ghost use Rattle.asn_rules.specs.Languages.{Sealed};
ghost use Rattle.asn_per.specs.Kinds.{Bit, Sized, IsUtf8Content};
ghost use Rattle.asn_walk.specs.Laws.{IsSizeOfProfile};
ghost use Rattle.asn_per.specs.Reading.{Reads, ReadsInto, StopsIn, CharactersOf};

use crate::sizes::Fragments;
use crate::string_items::{append_bits, append_characters, append_octets};
use asn_bits::BitCursor;
use asn_rules::Why;
use asn_rules::internal::{Stop, bits_left};
use asn_values::{Size, TextKind};
use std::alloc::Global;

/// Reads a BIT STRING (X.691, "encoding the bitstring type") into the vector, in place of the bits that it has.
#[inline(never)]
pub(crate) fn read_bits(
    size: &Size,
    bits: &mut Vec<bool>,
    cursor: &mut BitCursor<'_>,
) -> Result<(), Stop>
    requires of_profile { IsSizeOfProfile (size_range_of size.now) }
    ensures done { ReadsInto result (Sized (size_range_of size.now) Bit) bits.new.items cursor.old cursor.new }
    ensures stop { StopsIn result (Sized (size_range_of size.now) Bit) cursor.old }
{
    bits.clear();
    let mut fragments = Fragments::start(size, cursor)?;
    while let Some(count) = fragments.next(cursor)? {
        append_bits(count, bits, cursor)?;
    }
    Ok(())
}

/// Reads the octets of an OCTET STRING (X.691, "encoding the octetstring type").
pub(crate) fn read_octet_string(
    alloc: Global,
    size: &Size,
    cursor: &mut BitCursor<'_>,
) -> Result<Vec<u8>, Stop>
    requires of_profile { IsSizeOfProfile (size_range_of size.now) }
    ensures done { Reads result (λ os. os.items) (Sized (size_range_of size.now) Octet) cursor.old cursor.new }
    ensures stop { StopsIn result (Sized (size_range_of size.now) Octet) cursor.old }
{
    let mut octets = Vec::new(alloc);
    read_octets(size, &mut octets, cursor)?;
    Ok(octets)
}

/// Reads the octets of an OCTET STRING into the vector, in place of those that it has.
#[inline(always)]
pub(crate) fn read_octets(
    size: &Size,
    octets: &mut Vec<u8>,
    cursor: &mut BitCursor<'_>,
) -> Result<(), Stop>
    requires of_profile { IsSizeOfProfile (size_range_of size.now) }
    ensures done { ReadsInto result (Sized (size_range_of size.now) Octet) octets.new.items cursor.old cursor.new }
    ensures stop { StopsIn result (Sized (size_range_of size.now) Octet) cursor.old }
{
    octets.clear();
    let mut fragments = Fragments::start(size, cursor)?;
    while let Some(count) = fragments.next(cursor)? {
        append_octets(count, octets, cursor)?;
    }
    Ok(())
}

/// Reads a string (X.691, "encoding the restricted character string types") into the vector, in place of what it has.
#[inline(never)]
pub(crate) fn read_characters(
    kind: TextKind,
    size: &Size,
    characters: &mut Vec<u8>,
    cursor: &mut BitCursor<'_>,
) -> Result<(), Stop>
    requires of_profile { IsSizeOfProfile (size_range_of size.now) }
    ensures done { ReadsInto result (CharactersOf kind (size_range_of size.now)) characters.new.items cursor.old
        cursor.new }
    ensures stop { StopsIn result (CharactersOf kind (size_range_of size.now)) cursor.old }
{
    characters.clear();
    let mut fragments = Fragments::start(size, cursor)?;
    while let Some(count) = fragments.next(cursor)? {
        append_characters(kind, count, characters, cursor)?;
    }
    Ok(())
}

/// Reads a UTF8String: its octets with their length determinants, which are judged once all are read (X.691,
/// "encoding the restricted character string types").
pub(crate) fn read_utf8(alloc: Global, cursor: &mut BitCursor<'_>) -> Result<String, Stop>
    ensures done { Reads result string_bytes (Sealed utf8_field IsUtf8Content) cursor.old cursor.new }
    ensures stop { StopsIn result (Sealed utf8_field IsUtf8Content) cursor.old }
{
    let octets = read_octet_string(alloc, &Size::any(), cursor)?;
    match String::from_utf8(octets) {
        Ok(text) => Ok(text),
        Err(_) => Err(Stop::Refused {
            left: bits_left(cursor),
            why: Why::Sealed,
        }),
    }
}
