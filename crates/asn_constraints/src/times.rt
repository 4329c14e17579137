//! Canonical values of the time types.
ghost use Rattle.std.specs.Prelude.{◌≡◌, ◌+◌, ◌<◌, ◌≤◌, length};
ghost use Rattle.asn_constraints.specs.Times.{are_digits, two_digits, is_between, is_moment, is_utc, is_fraction, has_ending, is_generalized, is_time};
ghost use Rattle.asn_constraints.specs.View.{time_kind_of};

use crate::constraint::TimeKind;

/// Whether the codes are a canonical value of the time type (X.690, "restrictions on UTCTime and GeneralizedTime").
pub(crate) fn is_time(kind: TimeKind, codes: &[u8]) -> bool
    ensures { result ≡ is_time (time_kind_of kind) codes.now }
{
    match kind {
        TimeKind::Utc => is_utc(codes),
        TimeKind::Generalized => is_generalized(codes),
    }
}

/// Whether the codes are YYMMDDhhmmssZ.
fn is_utc(codes: &[u8]) -> bool
    ensures { result ≡ is_utc codes.now }
{
    codes.len() == 13 && are_digits(&codes[..12]) && is_moment(codes, 2) && codes[12] == b'Z'
}

/// Whether the codes are YYYYMMDDhhmmss, a fraction of a second without last zeros, or none, and Z.
fn is_generalized(codes: &[u8]) -> bool
    ensures { result ≡ is_generalized codes.now }
{
    15 <= codes.len() && are_digits(&codes[..14]) && is_moment(codes, 4) && has_ending(codes)
}

/// Whether a fraction, or none, and Z follow on the first 14 codes.
fn has_ending(codes: &[u8]) -> bool
    requires { 15 ≤ length codes.now }
    ensures { result ≡ has_ending codes.now }
{
    let last = codes.len() - 1;
    is_fraction(&codes[14..last]) && codes[last] == b'Z'
}

/// Whether there are no codes, or a full stop and digits, of which the last is not 0.
fn is_fraction(codes: &[u8]) -> bool
    ensures { result ≡ is_fraction codes.now }
{
    codes.is_empty()
        || (codes[0] == b'.'
            && 2 <= codes.len()
            && are_digits(&codes[1..])
            && codes[codes.len() - 1] != b'0')
}

/// Whether each code is a digit.
fn are_digits(codes: &[u8]) -> bool
    ensures { result ≡ are_digits codes.now }
{
    for code in codes {
        if *code < b'0' || b'9' < *code {
            return false;
        }
    }
    true
}

/// Whether the codes from this index on are MMDDhhmmss: month, day, hour, minute and second.
fn is_moment(codes: &[u8], index: usize) -> bool
    requires { index + 9 < length codes.now }
    ensures { result ≡ is_moment codes.now index }
{
    is_between(1, 12, two_digits(codes, index))
        && is_between(1, 31, two_digits(codes, index + 2))
        && is_between(0, 23, two_digits(codes, index + 4))
        && is_between(0, 59, two_digits(codes, index + 6))
        && is_between(0, 59, two_digits(codes, index + 8))
}

/// Whether the number lies between the bounds, both counted in.
fn is_between(low: u32, high: u32, number: u32) -> bool
    ensures { result ≡ is_between low high number }
{
    low <= number && number <= high
}

/// The number that the two digits at this index write.
fn two_digits(codes: &[u8], index: usize) -> u32
    requires { index + 1 < length codes.now }
    ensures { result ≡ two_digits codes.now index }
{
    let tens = codes[index].saturating_sub(b'0') as u32;
    let ones = codes[index + 1].saturating_sub(b'0') as u32;
    10 * tens + ones
}
