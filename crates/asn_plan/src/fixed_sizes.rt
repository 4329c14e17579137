//! How many octets INTEGER has by OER between two bounds (X.696, "encoding of integer types").
ghost use Rattle.std.specs.Prelude.{◌≡◌, ◌≤ℤ◌, ◌<ℤ◌, ◌^◌, pos, Some};
ghost use Rattle.asn_values.specs.Fits.{lowest_integer, highest_integer};
ghost use Rattle.asn_plan.specs.FixedSizes.{unsigned_octets, signed_size, fixed_size};

/// 2^63: each integer of 64 bits in two's complement is below it.
pub const SIGNED_END: i128 = 1 << 63;

/// How many octets hold the numbers from 0 to `high` (X.696, "encoding of integer types").
pub fn unsigned_size(high: i128) -> u32
    requires { high <ℤ pos (2 ^ 64) }
    ensures { unsigned_octets high ≡ Some result }
{
    if high < 1 << 8 {
        1
    } else if high < 1 << 16 {
        2
    } else if high < 1 << 32 {
        4
    } else {
        8
    }
}

/// How many octets of two's complement hold the numbers from `low` to `high`, where it is a fixed number: as many as
/// hold twice the one that is farthest from zero, with a bit for the sign.
pub fn signed_size(low: i128, high: i128) -> Option<u32>
    requires low { lowest_integer ≤ℤ low }
    requires high { high ≤ℤ highest_integer }
    ensures { result ≡ signed_size low high }
{
    let farthest = high.max(-1 - low).max(0);
    if farthest < SIGNED_END {
        Some(unsigned_size(2 * farthest))
    } else {
        None
    }
}

/// How many octets each INTEGER from `low` to `high` has, where it is one count for all of them: unsigned from a bound
/// on that is not negative, and else in two's complement.
pub fn fixed_size(low: i128, high: i128) -> Option<u32>
    requires low { lowest_integer ≤ℤ low }
    requires high { high ≤ℤ highest_integer }
    ensures { result ≡ fixed_size low high }
{
    if low >= 0 {
        Some(unsigned_size(high))
    } else {
        signed_size(low, high)
    }
}
