//! The items of strings and the octets of open type fields that a piece has whole, many at once.
ghost use Rattle.std.specs.Prelude.{◌≡◌, ◌≤◌, IfOk, OnOk, IsTrue};
ghost use Rattle.std.specs.List.{AllByRecursion};
ghost use Rattle.asn_values.specs.Fits.{is_of_kind};
ghost use Rattle.asn_values.specs.View.{alphabet_of};
ghost use Rattle.asn_rules.specs.Fields.{OneOctet};
ghost use Rattle.asn_rules.specs.OctetReading.{AtOctet};
ghost use Rattle.asn_rules.specs.OctetStrings.{Character};
ghost use Rattle.asn_oer.specs.SingleItems.{TakesOctets};

use asn_bits::BitCursor;
use asn_values::TextKind;
use std::alloc::AllocError;

/// Takes octets, whatever they are, at most `most` of them, and appends them. Gives how many they are.
///
/// # Errors
/// `AllocError` where an allocation failed.
pub(crate) fn take_any_octets(
    most: usize,
    into: &mut Vec<u8>,
    units: &mut BitCursor<'_>,
) -> Result<usize, AllocError>
    requires at_octet { AtOctet units.old }
    ensures at_octet { OnOk result (AtOctet units.new) }
    ensures few { IfOk result (λ n. n ≤ most) }
    ensures done { IfOk result (λ n. TakesOctets OneOctet n into.old.items into.new.items units.old units.new) }
{
    let count = most.min(units.octets_left());
    units.take_octets(count, into)?;
    Ok(count)
}

/// Takes characters of the kind, at most `most` of them, and appends them. Gives how many they are: it stops before an
/// octet that is none.
///
/// # Errors
/// `AllocError` where an allocation failed.
pub(crate) fn take_characters(
    kind: TextKind,
    most: usize,
    into: &mut Vec<u8>,
    units: &mut BitCursor<'_>,
) -> Result<usize, AllocError>
    requires at_octet { AtOctet units.old }
    ensures at_octet { OnOk result (AtOctet units.new) }
    ensures few { IfOk result (λ n. n ≤ most) }
    ensures done { IfOk result (λ n. TakesOctets (Character (alphabet_of kind)) n
        into.old.items into.new.items units.old units.new) }
{
    let before = units.copied();
    let start = into.len();
    let count = take_any_octets(most, into, units)?;
    if are_characters(kind, &into.as_slice()[start..]) {
        return Ok(count);
    }
    into.truncate(start);
    *units = before;
    take_each(kind, most, into, units)
}

/// Takes characters one by one, as `take_characters`.
///
/// # Errors
/// `AllocError` where an allocation failed.
#[cold]
fn take_each(
    kind: TextKind,
    most: usize,
    into: &mut Vec<u8>,
    units: &mut BitCursor<'_>,
) -> Result<usize, AllocError>
    requires at_octet { AtOctet units.old }
    ensures at_octet { OnOk result (AtOctet units.new) }
    ensures few { IfOk result (λ n. n ≤ most) }
    ensures done { IfOk result (λ n. TakesOctets (Character (alphabet_of kind)) n
        into.old.items into.new.items units.old units.new) }
{
    let mut count = 0;
    while count < most {
        let Some(octet) = units.peek_octet() else {
            return Ok(count);
        };
        if !is_character(kind, octet as u8) {
            return Ok(count);
        }
        into.push(octet as u8)?;
        units.pass_octets(1);
        count += 1;
    }
    Ok(count)
}

/// Whether each octet is a character of the kind.
fn are_characters(kind: TextKind, octets: &[u8]) -> bool
    ensures { IsTrue result → AllByRecursion (λ c. IsTrue (is_of_kind (alphabet_of kind) c)) octets.now }
{
    for octet in octets {
        if !is_character(kind, *octet) {
            return false;
        }
    }
    true
}

/// Whether the octet is a character of the kind.
fn is_character(kind: TextKind, octet: u8) -> bool
    ensures { result ≡ is_of_kind (alphabet_of kind) octet }
{
    match kind {
        TextKind::Ia5 => octet < 128,
        TextKind::Numeric => octet == b' ' || b'0' <= octet && octet <= b'9',
        TextKind::Visible => b' ' <= octet && octet <= b'~',
    }
}
