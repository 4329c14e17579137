//! BOOLEAN where one of the two values is known not to be there (X.696, "encoding of boolean types").
ghost use Rattle.std.specs.Prelude.{◌≡◌, Some, true, false, not};
ghost use Rattle.asn_values.specs.Datum.{truth};
ghost use Rattle.asn_rules.specs.OctetReading.{AtOctet, ReadsOctets};
ghost use Rattle.asn_oer.specs.Oer.{truth_octet};
ghost use Rattle.asn_oer.specs.Reading.{BooleansBut};

use asn_bits::BitCursor;
use asn_rules::internal::{numbers, try_octets};

/// Fast path: whether the next octet is that of the truth value that is not left out, and then takes it; otherwise takes
/// nothing.
#[inline(always)]
pub(crate) fn try_other(left_out: bool, units: &mut BitCursor<'_>) -> bool
    requires at_octet { AtOctet units.old }
    ensures at_octet { AtOctet units.new }
    ensures done { result ≡ true
        → ReadsOctets (BooleansBut (Some left_out)) (truth (not left_out)) units.old units.new }
    ensures unchanged { result ≡ false → units.new ≡ units.old }
{
    let octet = other_octet(left_out);
    let Some(_) = try_octets(1, numbers(octet, octet), units) else {
        return false;
    };
    true
}

/// The octet of the truth value that is not left out.
fn other_octet(left_out: bool) -> u64
    ensures { result ≡ truth_octet (not left_out) }
{
    if left_out { 0 } else { 255 }
}
