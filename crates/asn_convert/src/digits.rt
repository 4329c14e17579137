//! Octets out of hexadecimal digits.
ghost use Rattle.std.specs.Prelude.{◌≡◌, ◌*◌, ℕ, List, true, false, None, Ok, IfOk, IfSome, MatchOption, length};
ghost use Rattle.hex.specs.Hex.{decode_of, hex_digit_value, pair_value};
ghost use Rattle.asn_convert.specs.Answers.{IsNoHex, line_digits};

use std::alloc::{AllocError, Global};

/// What stands for an octet that is no digit.
const NO_DIGIT: u8 = 255;

/// The line without the CARRIAGE RETURN at its end.
fn line_digits(line: &[u8]) -> &[u8]
    ensures { result.now ≡ line_digits line.now }
{
    if line.last() == Some(&b'\r') {
        line.split_at(line.len() - 1).0
    } else {
        line
    }
}

/// The octets that a line of hexadecimal stands for without the CARRIAGE RETURN at its end; None where it is
/// none.
pub(crate) fn octets_in(alloc: Global, line: &[u8]) -> Result<Option<Vec<u8>>, AllocError>
    ensures some { IfOk result (λ o. IfSome o (λ octets. decode_of (line_digits line.now) ≡ Ok octets.items)) }
    ensures none { IfOk result (λ o. o ≡ None → IsNoHex line.now) }
{
    let digits = line_digits(line);
    if digits.len() % 2 != 0 {
        return Ok(None);
    }
    let mut octets = vec![in alloc; 0u8; digits.len() / 2]?;
    if are_octets_of(digits, octets.as_mut_slice()) {
        Ok(Some(octets))
    } else {
        Ok(None)
    }
}

/// Whether the line has digits alone; then the octets become those that it stands for. All of the line is looked at
/// before there is an answer, so that many digits are read at once.
fn are_octets_of(line: &[u8], octets: &mut [u8]) -> bool
    requires twice { length line.now ≡ 2 * length octets.old }
    ensures yes { result ≡ true → decode_of line.now ≡ Ok octets.new }
    ensures no { result ≡ false → (os : List ℕ) → decode_of line.now ≡ Ok os → ⊥ }
{
    let mut all_digits = true;
    'pairs: for index in 0..octets.len() {
        let (are_digits, octet) = octet_of(line[2 * index], line[2 * index + 1]);
        all_digits = all_digits & are_digits;
        octets[index] = octet;
    }
    all_digits
}

/// Whether these are two digits, and then the octet that they stand for.
#[inline(always)]
fn octet_of(high: u8, low: u8) -> (bool, u8)
    ensures yes { result.0 ≡ true → (i : ℕ) → pair_value high low i ≡ Ok result.1 }
    ensures no { result.0 ≡ false → (i octet : ℕ) → pair_value high low i ≡ Ok octet → ⊥ }
{
    let high = digit_value(high);
    let low = digit_value(low);
    let are_digits = (high < 16) & (low < 16);
    (are_digits, high % 16 * 16 + low % 16)
}

/// The value of a digit, in either case.
#[inline(always)]
fn digit_value(octet: u8) -> u8
    ensures { MatchOption (hex_digit_value octet) (result ≡ 255) (λ value. result ≡ value) }
{
    match octet {
        b'0'..=b'9' => octet - b'0',
        b'a'..=b'f' => octet - b'a' + 10,
        b'A'..=b'F' => octet - b'A' + 10,
        _ => NO_DIGIT,
    }
}
