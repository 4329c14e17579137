//! Readers of strings into the value that is there, which is cleared and filled.
ghost use Rattle.asn_values.specs.Profile.{InProfile};
ghost use Rattle.asn_values.specs.Shape.{bit_string, octet_string, restricted};
ghost use Rattle.asn_values.specs.View.{datum_of, size_range_of, alphabet_of};
ghost use Rattle.asn_per.specs.Reading.{ReadsInto, StopsIn, BitStringsOf, OctetStringsOf, TextsOf};

use crate::string_reader::{read_bits, read_characters, read_octets};
use asn_bits::BitCursor;
use asn_rules::internal::Stop;
use asn_values::{Size, TextKind, Value};
use asn_walk::slots::{take_bits, take_characters, take_octets};
use std::alloc::Global;

/// Reads a BIT STRING.
#[inline(never)]
pub(crate) fn read_bit_string_into(
    alloc: Global,
    size: &Size,
    slot: &mut Value,
    cursor: &mut BitCursor<'_>,
) -> Result<(), Stop>
    requires of_profile { InProfile (bit_string (size_range_of size.now)) }
    ensures done { ReadsInto result (BitStringsOf (size_range_of size.now)) (datum_of slot.new) cursor.old cursor.new }
    ensures stop { StopsIn result (BitStringsOf (size_range_of size.now)) cursor.old }
{
    let mut bits = take_bits(alloc, slot);
    read_bits(size, &mut bits, cursor)?;
    *slot = Value::Bits(bits);
    Ok(())
}

/// Reads an OCTET STRING.
#[inline(never)]
pub(crate) fn read_octet_string_into(
    alloc: Global,
    size: &Size,
    slot: &mut Value,
    cursor: &mut BitCursor<'_>,
) -> Result<(), Stop>
    requires of_profile { InProfile (octet_string (size_range_of size.now)) }
    ensures done { ReadsInto result (OctetStringsOf (size_range_of size.now)) (datum_of slot.new) cursor.old
        cursor.new }
    ensures stop { StopsIn result (OctetStringsOf (size_range_of size.now)) cursor.old }
{
    let mut octets = take_octets(alloc, slot);
    read_octets(size, &mut octets, cursor)?;
    *slot = Value::Octets(octets);
    Ok(())
}

/// Reads a string of characters.
#[inline(never)]
pub(crate) fn read_text_into(
    alloc: Global,
    kind: TextKind,
    size: &Size,
    slot: &mut Value,
    cursor: &mut BitCursor<'_>,
) -> Result<(), Stop>
    requires of_profile { InProfile (restricted (alphabet_of kind) (size_range_of size.now)) }
    ensures done { ReadsInto result (TextsOf kind (size_range_of size.now)) (datum_of slot.new) cursor.old cursor.new }
    ensures stop { StopsIn result (TextsOf kind (size_range_of size.now)) cursor.old }
{
    let mut characters = take_characters(alloc, slot);
    read_characters(kind, size, &mut characters, cursor)?;
    *slot = Value::Text(characters);
    Ok(())
}
