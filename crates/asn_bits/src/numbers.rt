//! How many bits and octets a number needs.
ghost use Rattle.std.specs.Prelude.{◌≡◌, ℕ, pos, ◌+◌, ◌-◌, ◌*◌, ◌^◌, ◌<◌, ◌≤◌, ◌≤ℤ◌, ◌<ℤ◌, ◌++◌};
ghost use Rattle.asn_limits.specs.Limits.{lowest_integer, highest_integer};
ghost use Rattle.asn_bits.specs.Lengths.{general_octets};
ghost use Rattle.asn_bits.specs.Numbers.{bits, least, least_signed, octet_count, width, octets, signed_octets, signed_octet_count, most_signed_octets, magnitude};

/// One more than the highest number of 64 bits.
const WORD: u128 = 1 << 64;

/// How many bits distinguish `values` values: the least k with `values <= 2 ^ k`
/// (X.691, "constrained whole number"). No values need no bits.
pub fn width(values: u128) -> u32
    ensures width { result ≡ width values }
    ensures few { values ≤ 2 ^ 64 → result ≤ 64 }
    ensures wide { values ≤ 2 ^ 72 → result ≤ 72 }
{
    128 - values.saturating_sub(1).leading_zeros()
}

/// How many bits distinguish the numbers from 0 to `highest` (X.691, "constrained whole number").
pub fn width_up_to(highest: u64) -> u32
    ensures width { result ≡ width (highest + 1) }
    ensures few { result ≤ 64 }
{
    64 - highest.leading_zeros()
}

/// How many octets `n` needs, at least one (X.691, "semi-constrained whole number").
pub fn octet_count(n: u64) -> u32
    ensures count { result ≡ octet_count n }
    ensures few { result ≤ 8 }
    ensures fits { n < 2 ^ (8 * result) }
{
    let bits = 64 - n.leading_zeros();
    if bits == 0 {
        return 1;
    }
    (bits + 7) / 8
}

/// How many octets a number of up to 72 bits needs, at least one (X.691, "semi-constrained whole number").
pub fn wide_octet_count(n: u128) -> u32
    requires { n < 2 ^ 72 }
    ensures count { result ≡ octet_count n }
    ensures few { result ≤ 9 }
    ensures fits { n < 2 ^ (8 * result) }
{
    if n < WORD {
        return octet_count(n as u64);
    }
    9
}

/// How many octets of two's complement `z` needs, at least one; `z` is an integer of the profile (X.691, "unconstrained
/// whole number").
pub fn signed_octet_count(z: i128) -> u32
    requires low { lowest_integer ≤ℤ z }
    requires high { z ≤ℤ highest_integer }
    ensures count { result ≡ signed_octet_count z }
    ensures some { 1 ≤ result }
    ensures few { result ≤ most_signed_octets }
    ensures short { z <ℤ pos (2 ^ 63) → result ≤ 8 }
{
    (72 - magnitude(z).leading_zeros()) / 8
}

/// The number whose octets are `count` octets of two's complement of `z`, which has room in them.
pub fn signed_residue(z: i128, count: u32) -> u64
    requires low { lowest_integer ≤ℤ z }
    requires high { z ≤ℤ highest_integer }
    requires some { 1 ≤ count }
    requires few { count ≤ 8 }
    requires room { magnitude z < 2 ^ (8 * count - 1) }
    ensures octets { signed_octets count z ≡ octets count result }
    ensures fits { result < 2 ^ (8 * count) }
{
    let below = magnitude(z);
    if z < 0 {
        (u64::MAX >> (64 - 8 * count)) - below
    } else {
        below
    }
}

/// The fewest octets of `n` after their count in an octet, as two numbers and how many bits each has.
pub fn least_parts(n: u128) -> (u32, u64, u32, u64)
    requires { n < 2 ^ 72 }
    ensures few { (result.0 ≤ 64) × (result.2 ≤ 64) }
    ensures fits { (result.1 < 2 ^ result.0) × (result.3 < 2 ^ result.2) }
    ensures same { general_octets (λ u. u) (least n) ≡ bits result.0 result.1 ++ bits result.2 result.3 }
{
    let count = wide_octet_count(n);
    if count > 8 {
        return (16, (9 << 8) + (n / WORD) as u64, 64, (n % WORD) as u64);
    }
    (8, u64::from(count), 8 * count, n as u64)
}

/// The fewest octets of two's complement of `z`, an integer of the profile, after their count in an octet, as two
/// numbers and how many bits each has.
pub fn least_signed_parts(z: i128) -> (u32, u64, u32, u64)
    requires low { lowest_integer ≤ℤ z }
    requires high { z ≤ℤ highest_integer }
    ensures few { (result.0 ≤ 64) × (result.2 ≤ 64) }
    ensures fits { (result.1 < 2 ^ result.0) × (result.3 < 2 ^ result.2) }
    ensures same { general_octets (λ u. u) (least_signed z) ≡ bits result.0 result.1 ++ bits result.2 result.3 }
{
    let count = signed_octet_count(z);
    if count > 8 {
        return (16, 9 << 8, 64, z as u64);
    }
    (8, u64::from(count), 8 * count, signed_residue(z, count))
}

/// What has to fit beside the sign bit.
fn magnitude(z: i128) -> u64
    requires low { lowest_integer ≤ℤ z }
    requires high { z ≤ℤ highest_integer }
    ensures { result ≡ magnitude z }
{
    if z < 0 { (-1 - z) as u64 } else { z as u64 }
}
