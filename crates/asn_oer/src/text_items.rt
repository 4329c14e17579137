//! UTF8String in octets that may come in pieces.
ghost use Rattle.std.specs.Prelude.{IfOk, IfErr, List, string_bytes};
ghost use Rattle.asn_rules.specs.Chunks.{Chunk};
ghost use Rattle.asn_walk_feed.specs.Octets.{OctetsOf};
ghost use Rattle.asn_walk_feed.specs.OpenFields.{StopsAfter};
ghost use Rattle.asn_oer.specs.SingleItems.{any_octets, AreText, AreNoText};

use asn_rules::Why;
use asn_rules::internal::Stop;

/// The UTF8String that has these octets, after which this many units are left.
///
/// # Errors
/// `Refused` at the last octet where they are not UTF-8.
pub(crate) fn text_of(octets: Vec<u8>, left: u128) -> Result<String, Stop>
    ensures done { IfOk result (λ text. AreText octets.items (string_bytes text)) }
    ensures stop { IfErr result (λ why. AreNoText octets.items left why) }
    ensures after { IfErr result (λ why. StopsAfter left why) }
{
    match String::from_utf8(octets) {
        Ok(text) => Ok(text),
        Err(_) => Err(Stop::Refused {
            left,
            why: Why::Sealed,
        }),
    }
}
