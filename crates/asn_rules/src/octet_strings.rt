//! Readers of characters and bits in whole octets.
ghost use Rattle.std.specs.Prelude.{◌≡◌, ◌≤◌, IfOk, IfErr, OnOk};
ghost use Rattle.asn_values.specs.Fits.{is_of_kind, max_len};
ghost use Rattle.asn_values.specs.View.{alphabet_of};
ghost use Rattle.asn_bits.specs.Sets.{Between};
ghost use Rattle.asn_rules.specs.Languages.{Row};
ghost use Rattle.asn_rules.specs.OctetReading.{AtOctet, ReadsOctets, StopsAtOctets};
ghost use Rattle.asn_rules.specs.OctetStrings.{Character, IsValidCount, PackedBits, VariableBits};

use crate::bit_vectors::{push_bits, push_octets};
use crate::fault::Why;
use crate::number_reader::NumberSet;
use crate::octet_length_reader::{read_length, read_row};
use crate::octet_reader::{octets_left, read_filled, read_octets};
use crate::stop::Stop;
use asn_bits::BitCursor;
use asn_values::TextKind;
use std::alloc::Global;

/// Reads `count` characters of the kind, an octet each (X.696, "encoding of restricted character string types").
///
/// # Errors
/// `Refused`, with the reason `Character`, at the first octet that is no character of the kind, also where octets are
/// missing after it. `Short` if fewer octets are left. `Memory` if an allocation failed.
pub fn read_characters(
    alloc: Global,
    kind: TextKind,
    count: usize,
    units: &mut BitCursor<'_>,
) -> Result<Vec<u8>, Stop>
    requires at_octet { AtOctet units.old }
    ensures at_octet { OnOk result (AtOctet units.new) }
    ensures done { IfOk result (λ cs.
        ReadsOctets (Row (Character (alphabet_of kind)) count) cs.items units.old units.new) }
    ensures stop { IfErr result (λ why. StopsAtOctets (Row (Character (alphabet_of kind)) count) units.old why) }
{
    let present = octets_left(units).min(count);
    let characters = read_row(alloc, present, units)?;
    let valid = valid_count(kind, characters.as_slice());
    if valid < characters.len() {
        let after = characters.len() - valid - 1;
        return Err(Stop::Refused {
            left: octets_left(units) as u128 + after as u128,
            why: Why::Character,
        });
    }
    if present < count {
        return Err(Stop::Short);
    }
    Ok(characters)
}

/// How many characters of the kind stand before the first octet that is none.
fn valid_count(kind: TextKind, octets: &[u8]) -> usize
    ensures { IsValidCount (alphabet_of kind) octets.now result }
{
    let mut count = 0;
    while count < octets.len() && is_character(kind, octets[count]) {
        count += 1;
    }
    count
}

/// Whether the octet is a character of this kind.
fn is_character(kind: TextKind, octet: u8) -> bool
    ensures { result ≡ is_of_kind (alphabet_of kind) octet }
{
    match kind {
        TextKind::Ia5 => octet < 128,
        TextKind::Numeric => octet == b' ' || b'0' <= octet && octet <= b'9',
        TextKind::Visible => b' ' <= octet && octet <= b'~',
    }
}

/// Reads `count` bits, and the zeros that fill up the last octet.
///
/// # Errors
/// `Short` if the octets end before the last one does. `Refused`, with the reason `Padding`, at the last octet where it
/// does not end in zeros. `Memory` if an allocation failed.
pub fn read_packed(
    alloc: Global,
    count: usize,
    units: &mut BitCursor<'_>,
) -> Result<Vec<bool>, Stop>
    requires at_octet { AtOctet units.old }
    ensures at_octet { OnOk result (AtOctet units.new) }
    ensures done { IfOk result (λ bs. ReadsOctets (PackedBits count) bs.items units.old units.new) }
    ensures stop { IfErr result (λ why. StopsAtOctets (PackedBits count) units.old why) }
{
    let octets = read_row(alloc, count / 8, units)?;
    let rest = (count % 8) as u32;
    let (_, last) = read_filled(0, 0, rest, 0, Why::Padding, units)?;
    let mut truths = Vec::with_capacity(alloc, count)?;
    push_octets(&octets, &mut truths)?;
    push_bits(rest, last, &mut truths)?;
    Ok(truths)
}

/// Reads bits of a count from `low` to `high` (X.696, "encoding of bit string types"): the length of what follows, the
/// number of unused bits, and the bits.
///
/// # Errors
/// As `read_length` for the length and `read_packed` for the bits. `Refused`, with the reason `Padding`, at the
/// number of unused bits where it leaves no such count.
pub fn read_variable(
    alloc: Global,
    low: u64,
    high: u64,
    units: &mut BitCursor<'_>,
) -> Result<Vec<bool>, Stop>
    requires at_octet { AtOctet units.old }
    requires ordered { low ≤ high }
    requires few { high ≤ max_len }
    ensures at_octet { OnOk result (AtOctet units.new) }
    ensures done { IfOk result (λ bs. ReadsOctets (VariableBits (Between low high)) bs.items units.old units.new) }
    ensures stop { IfErr result (λ why. StopsAtOctets (VariableBits (Between low high)) units.old why) }
{
    let length = read_length(1 + (low + 7) / 8, 1 + (high + 7) / 8, units)?;
    let all = 8 * (length - 1);
    let leaving_a_count = NumberSet {
        low: all.saturating_sub(high),
        high: (all - low).min(7),
        excluded: None,
    };
    let unused = read_octets(1, leaving_a_count, Why::Padding, units)?;
    read_packed(alloc, (all - unused) as usize, units)
}
