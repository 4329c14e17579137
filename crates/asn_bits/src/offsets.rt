//! How far integers lie above one another.
ghost use Rattle.std.specs.Prelude.{◌≡◌, ◌<◌, ◌^◌, ◌≤ℤ◌, ◌+ℤ◌, pos};
ghost use Rattle.asn_limits.specs.Limits.{lowest_integer, highest_integer};
ghost use Rattle.asn_bits.specs.Numbers.{above};

/// The integer that lies `n` above `low`, an integer of the profile.
pub fn at_offset(low: i128, n: u64) -> i128
    requires within_low { lowest_integer ≤ℤ low }
    requires within_high { low ≤ℤ highest_integer }
    ensures { result ≡ low +ℤ pos n }
{
    low + i128::from(n)
}

/// How far `n` lies above `low`, both integers of the profile.
pub fn wide_offset_from(low: i128, n: i128) -> u128
    requires ordered { low ≤ℤ n }
    requires within_low { lowest_integer ≤ℤ low }
    requires within_high { n ≤ℤ highest_integer }
    ensures is { result ≡ above low n }
    ensures few { result < 2 ^ 65 }
{
    (n - low) as u128
}

/// The same of an offset that may have more than 64 bits.
pub fn at_wide_offset(low: i128, n: u128) -> i128
    requires within_low { lowest_integer ≤ℤ low }
    requires within_high { low ≤ℤ highest_integer }
    requires few { n < 2 ^ 72 }
    ensures { result ≡ low +ℤ pos n }
{
    low + n as i128
}
