//! The constraints that sets of numbers, lengths, characters and items are.
use crate::intervals::{covers, met};
use asn_constraints::{Constraint, Interval, Lengths};
use asn_values::profile::{HIGHEST_INTEGER, LOWEST_INTEGER};
use std::alloc::{AllocError, Global};

/// The integers of the profile, and the codes of the characters of its strings that have codes of one octet.
pub(crate) const INTEGERS: Interval = Interval {
    low: LOWEST_INTEGER,
    high: HIGHEST_INTEGER,
};

const CODES: Interval = Interval { low: 0, high: 127 };

/// How many positions of items are looked at: more than an ENUMERATED has.
const MOST_POSITIONS: u32 = 512;

/// That a number is in a set, unless it has each that encodings show.
pub(crate) fn numbers_among(
    alloc: Global,
    set: Option<Vec<Interval>>,
    shown: Interval,
) -> Result<Constraint, AllocError> {
    match set {
        Some(set) if !covers(set.as_slice(), shown) => {
            let numbers = met(alloc, set.as_slice(), &[INTEGERS])?;
            Ok(Constraint::Numbers(numbers))
        }
        _ => Ok(Constraint::Free),
    }
}

/// That a length is in a set, unless it has each that encodings show.
pub(crate) fn lengths_among(
    alloc: Global,
    set: Option<Vec<Interval>>,
    shown: Interval,
) -> Result<Constraint, AllocError> {
    match set {
        Some(set) if !covers(set.as_slice(), shown) => {
            let lengths = lengths_of(alloc, set.as_slice())?;
            Ok(Constraint::Lengths(lengths))
        }
        _ => Ok(Constraint::Free),
    }
}

/// That characters have codes in a set, unless it has each.
pub(crate) fn letters_among(
    alloc: Global,
    set: Option<Vec<Interval>>,
) -> Result<Constraint, AllocError> {
    match set {
        Some(set) if !covers(set.as_slice(), CODES) => {
            let letters = met(alloc, set.as_slice(), &[CODES])?;
            Ok(Constraint::Characters(letters))
        }
        _ => Ok(Constraint::Free),
    }
}

/// That an item has a position in a set, unless it has each that encodings show.
pub(crate) fn items_among(
    alloc: Global,
    set: Option<Vec<Interval>>,
    shown: Interval,
) -> Result<Constraint, AllocError> {
    match set {
        Some(set) if !covers(set.as_slice(), shown) => {
            let positions = positions_of(alloc, set.as_slice())?;
            Ok(Constraint::Items(positions))
        }
        _ => Ok(Constraint::Free),
    }
}

/// A set of numbers as lengths.
fn lengths_of(alloc: Global, set: &[Interval]) -> Result<Vec<Lengths>, AllocError> {
    let mut lengths = Vec::new(alloc);
    for interval in set {
        let low = u32::try_from(interval.low.max(0));
        if let (Ok(low), true) = (low, interval.high >= 0) {
            lengths.push(Lengths {
                low,
                high: match u32::try_from(interval.high) {
                    Ok(high) => Some(high),
                    Err(_) => None,
                },
            })?;
        }
    }
    Ok(lengths)
}

/// A set of positions, one by one.
fn positions_of(alloc: Global, set: &[Interval]) -> Result<Vec<u32>, AllocError> {
    let mut positions = Vec::new(alloc);
    for position in 0..MOST_POSITIONS {
        let at = i128::from(position);
        if covers(set, Interval { low: at, high: at }) {
            positions.push(position)?;
        }
    }
    Ok(positions)
}
