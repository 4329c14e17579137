//! How many units the encodings of the values of a type have, least and most.

use asn_values::profile::{HIGHEST_INTEGER, LOWEST_INTEGER};
use std::fmt;

/// A least and a greatest number of units. A least number past 2^64 is reported as 2^64 - 1.
#[derive(Clone, Copy, Debug, PartialEq, Eq)]
pub struct Extent {
    pub least: u64,
    /// `None` where there is no bound but that of a message, or it is past 2^64.
    pub greatest: Option<u64>,
}

impl Extent {
    /// This many units, whatever the value is.
    pub(crate) fn fixed(units: u64) -> Extent {
        Extent {
            least: units,
            greatest: Some(units),
        }
    }

    /// From this many units on, without a bound.
    pub(crate) fn from(least: u64) -> Extent {
        Extent {
            least,
            greatest: None,
        }
    }

    /// The units of both, one after the other.
    pub(crate) fn and(self, other: Extent) -> Extent {
        Extent {
            least: self.least.saturating_add(other.least),
            greatest: match (self.greatest, other.greatest) {
                (Some(first), Some(second)) => first.checked_add(second),
                _ => None,
            },
        }
    }

    /// The units of one of both.
    pub(crate) fn or(self, other: Extent) -> Extent {
        Extent {
            least: self.least.min(other.least),
            greatest: match (self.greatest, other.greatest) {
                (Some(first), Some(second)) => Some(first.max(second)),
                _ => None,
            },
        }
    }

    /// These units, or none.
    pub(crate) fn maybe(self) -> Extent {
        Extent {
            least: 0,
            greatest: self.greatest,
        }
    }

    /// The units of this many parts: from `low` of them to `high`.
    pub(crate) fn times(self, low: u64, high: Option<u64>) -> Extent {
        Extent {
            least: self.least.saturating_mul(low),
            greatest: match (self.greatest, high) {
                (Some(0), _) | (_, Some(0)) => Some(0),
                (Some(units), Some(high)) => units.checked_mul(high),
                _ => None,
            },
        }
    }

    /// Octets that this many bits fill, one at least.
    pub fn in_octets(self) -> Extent {
        Extent {
            least: filled(self.least),
            greatest: match self.greatest {
                Some(bits) => Some(filled(bits)),
                None => None,
            },
        }
    }
}

/// From the least to the greatest number; one number where they are the same.
impl fmt::Display for Extent {
    fn fmt<W: fmt::Write>(&self, f: &mut fmt::Formatter<W>) -> fmt::Result {
        let least = self.least;
        match self.greatest {
            Some(greatest) if greatest == least => write!(f, "{least}"),
            Some(greatest) => write!(f, "{least}..{greatest}"),
            None => write!(f, "{least}.."),
        }
    }
}

/// How many octets this many bits fill, one at least: those of a complete encoding of PER.
fn filled(bits: u64) -> u64 {
    bits.div_ceil(8).max(1)
}

/// The fewest bits that a number has.
pub(crate) fn width_of(number: u64) -> u64 {
    u64::from(64 - number.leading_zeros())
}

/// The fewest octets that a number has, one at least.
pub(crate) fn octets_in(number: u64) -> u64 {
    filled(width_of(number))
}

/// The fewest bits of an offset of an integer of the profile from another, none where it is below it.
pub(crate) fn width_above(low: i128, high: i128) -> u64 {
    let offset = u128::try_from(high.saturating_sub(low)).unwrap_or(0);
    u64::from(128 - offset.leading_zeros())
}

/// The fewest octets of such an offset, one at least.
pub(crate) fn octets_above(low: i128, high: i128) -> u64 {
    filled(width_above(low, high))
}

/// The octets in two's complement of the integers of the profile from one to another; `None` where there are none.
pub(crate) fn signed_octets(low: Option<i128>, high: Option<i128>) -> Option<Extent> {
    let low = low.unwrap_or(LOWEST_INTEGER);
    let high = high.unwrap_or(HIGHEST_INTEGER);
    if low > high {
        return None;
    }
    let nearest_to_zero = low.max(0).min(high);
    Some(Extent {
        least: octets_signed(nearest_to_zero),
        greatest: Some(octets_signed(low).max(octets_signed(high))),
    })
}

/// The fewest octets of an integer in two's complement.
fn octets_signed(number: i128) -> u64 {
    let magnitude = number.max((-1i128).saturating_sub(number));
    filled(width_above(0, magnitude).saturating_add(1))
}
