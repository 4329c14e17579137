//! Readers of strings, and of octets after their length (X.696, "length determinant", "open type"). Each answers
//! `Short` if the octets end before what it reads does, `Refused` as `read_length` for a length, and `Memory` if an
//! allocation failed.
ghost use Rattle.std.specs.Prelude.{OnOk, string_bytes};
ghost use Rattle.asn_oer.specs.Words.{octet_list, characters, unicode, bit_list, InProfile, octet_string, restricted, size_range_of, alphabet_of, AtOctet, IsSizeOfProfile, BitStringsOf, OctetStringsOf, TextsOf, Reads, StopsIn, Utf8Strings};

use asn_bits::BitCursor;
use asn_rules::internal::{
    Stop, octets_left, read_characters, read_octets_with_length, read_packed, read_row,
    read_variable,
};
use asn_rules::{MAX_OCTETS, Why};
use asn_values::{Size, TextKind};
use asn_walk::sizes::{counts_of, is_fixed, read_count};
use std::alloc::Global;

/// Reads the octets of an OCTET STRING (X.696, "encoding of octet string types").
pub(crate) fn read_octet_string(
    alloc: Global,
    size: &Size,
    units: &mut BitCursor<'_>,
) -> Result<Vec<u8>, Stop>
    requires at_octet { AtOctet units.old }
    requires of_profile { InProfile (octet_string (size_range_of size.now)) }
    ensures at_octet { OnOk result (AtOctet units.new) }
    ensures done { Reads result (λ os. octet_list os.items) (OctetStringsOf size.now) units.old units.new }
    ensures stop { StopsIn result (OctetStringsOf size.now) units.old }
{
    let count = read_count(size, units)?;
    read_row(alloc, count, units)
}

/// Reads the characters of a string, an octet each: as many as the size says, or, where it leaves more than one count,
/// after their length. The first octet that is no character of the kind is refused, with the reason `Character`, also
/// where octets are missing after it.
pub(crate) fn read_text(
    alloc: Global,
    kind: TextKind,
    size: &Size,
    units: &mut BitCursor<'_>,
) -> Result<Vec<u8>, Stop>
    requires at_octet { AtOctet units.old }
    requires of_profile { InProfile (restricted (alphabet_of kind) (size_range_of size.now)) }
    ensures at_octet { OnOk result (AtOctet units.new) }
    ensures done { Reads result (λ cs. characters cs.items) (TextsOf kind size.now) units.old units.new }
    ensures stop { StopsIn result (TextsOf kind size.now) units.old }
{
    let count = read_count(size, units)?;
    read_characters(alloc, kind, count, units)
}

/// Reads a UTF8String: its octets after their length, and that they are UTF-8 is asked once they have all been read.
/// Where they are not, the last octet is refused, with the reason `Sealed`.
pub(crate) fn read_utf8_string(alloc: Global, units: &mut BitCursor<'_>) -> Result<String, Stop>
    requires at_octet { AtOctet units.old }
    ensures at_octet { OnOk result (AtOctet units.new) }
    ensures done { Reads result (λ text. unicode (string_bytes text)) Utf8Strings units.old units.new }
    ensures stop { StopsIn result Utf8Strings units.old }
{
    let octets = read_octets_with_length(alloc, 0, MAX_OCTETS as u64, units)?;
    match String::from_utf8(octets) {
        Ok(text) => Ok(text),
        Err(_) => Err(Stop::Refused {
            left: octets_left(units) as u128,
            why: Why::Sealed,
        }),
    }
}

/// Reads the bits of a BIT STRING: as many as the size says, or, where it leaves more than one count, after their
/// length and the number of unused bits.
pub(crate) fn read_bit_string(
    alloc: Global,
    size: &Size,
    units: &mut BitCursor<'_>,
) -> Result<Vec<bool>, Stop>
    requires at_octet { AtOctet units.old }
    requires of_profile { IsSizeOfProfile (size_range_of size.now) }
    ensures at_octet { OnOk result (AtOctet units.new) }
    ensures done { Reads result (λ bs. bit_list bs.items) (BitStringsOf size.now) units.old units.new }
    ensures stop { StopsIn result (BitStringsOf size.now) units.old }
{
    if is_fixed(size) {
        return read_packed(alloc, size.low as usize, units);
    }
    let counts = counts_of(size);
    read_variable(alloc, counts.low, counts.high, units)
}
