//! Octets and characters: which strings of them a type has.
ghost use Rattle.std.specs.Prelude.{◌≡◌, ◌↔◌, IsTrue};
ghost use Rattle.std.specs.List.{AllByRecursion};
ghost use Rattle.asn_values.specs.Datum.{octet_list, characters, unicode};
ghost use Rattle.asn_values.specs.Shape.{octet_string, restricted, utf8_string};
ghost use Rattle.asn_values.specs.Fits.{Fits, is_of_kind};
ghost use Rattle.asn_values.specs.View.{size_range_of, alphabet_of};

use crate::profile::MAX_LEN;
use crate::sizes;
use crate::types::{Size, TextKind};

/// Whether the octets are a value of an OCTET STRING of this size (X.680, "octetstring type").
pub fn octets_fit(size: &Size, octets: &[u8]) -> bool
    ensures { IsTrue result ↔ Fits (octet_string (size_range_of size.now)) (octet_list octets.now) }
{
    sizes::length_fits(size, octets.len())
}

/// Whether the codes, one a character, are a value of a string of this kind and this size (X.680,
/// "restricted character string types").
pub fn text_fits(kind: TextKind, size: &Size, codes: &[u8]) -> bool
    ensures { IsTrue result ↔ Fits (restricted (alphabet_of kind) (size_range_of size.now)) (characters codes.now) }
{
    sizes::length_fits(size, codes.len()) && characters_fit(kind, codes)
}

/// Whether the text is a value of UTF8String: it has at most 268,435,455 octets (X.680, "restricted
/// character string types").
pub fn unicode_fits(text: &str) -> bool
    ensures { IsTrue result ↔ Fits utf8_string (unicode text.now) }
{
    text.len() <= MAX_LEN as usize
}

/// Whether each code is one of this kind of characters.
fn characters_fit(kind: TextKind, codes: &[u8]) -> bool
    ensures { IsTrue result ↔ AllByRecursion (λ c. IsTrue (is_of_kind (alphabet_of kind) c)) codes.now }
{
    codes.iter().all(|code| is_of_kind(kind, *code))
}

/// Whether the code is one of this kind of characters.
fn is_of_kind(kind: TextKind, code: u8) -> bool
    ensures { result ≡ is_of_kind (alphabet_of kind) code }
{
    match kind {
        TextKind::Ia5 => code < 128,
        TextKind::Numeric => code == b' ' || b'0' <= code && code <= b'9',
        TextKind::Visible => b' ' <= code && code <= b'~',
    }
}
