//! Sets of whole numbers as intervals, which rise and leave a number between two of them at least.
use crate::ranges::Ranges;
use asn_constraints::Interval;
use std::alloc::{AllocError, Global};

/// The interval of every number.
pub const EVERY: Interval = Interval {
    low: i128::MIN,
    high: i128::MAX,
};

/// The set of one number.
pub fn only(alloc: Global, number: i128) -> Result<Vec<Interval>, AllocError> {
    between(alloc, number, number)
}

/// The set of the numbers between two bounds, both counted in.
pub fn between(alloc: Global, low: i128, high: i128) -> Result<Vec<Interval>, AllocError> {
    let mut set = Vec::new(alloc);
    if low <= high {
        set.push(Interval { low, high })?;
    }
    Ok(set)
}

/// The set of the numbers of ranges.
pub fn of_ranges(alloc: Global, ranges: &Ranges) -> Result<Vec<Interval>, AllocError> {
    let mut set = Vec::new(alloc);
    for range in &ranges.ranges {
        let interval = Interval {
            low: range.low.unwrap_or(i128::MIN),
            high: range.high.unwrap_or(i128::MAX),
        };
        if interval.low <= interval.high {
            set = with(alloc, set.as_slice(), interval)?;
        }
    }
    Ok(set)
}

/// The set of these numbers.
pub fn of_numbers(alloc: Global, numbers: Vec<i128>) -> Result<Vec<Interval>, AllocError> {
    let mut numbers = numbers;
    numbers.sort()?;
    let mut set: Vec<Interval> = Vec::new(alloc);
    for number in numbers {
        let is_next = match set.last() {
            Some(last) => number <= last.high.saturating_add(1),
            None => false,
        };
        if is_next {
            if let Some(last) = set.last_mut() {
                last.high = number;
            }
        } else {
            set.push(Interval {
                low: number,
                high: number,
            })?;
        }
    }
    Ok(set)
}

/// Whether a number is left between the end of one interval and the begin of another.
fn is_before(one: Interval, other: Interval) -> bool {
    one.high.saturating_add(1) < other.low
}

/// The numbers of a set and of an interval.
fn with(alloc: Global, set: &[Interval], more: Interval) -> Result<Vec<Interval>, AllocError> {
    let mut result = Vec::new(alloc);
    let mut more = more;
    let mut is_put = false;
    for interval in set {
        if is_before(*interval, more) {
            result.push(*interval)?;
        } else if is_before(more, *interval) {
            if !is_put {
                result.push(more)?;
                is_put = true;
            }
            result.push(*interval)?;
        } else {
            more = Interval {
                low: more.low.min(interval.low),
                high: more.high.max(interval.high),
            };
        }
    }
    if !is_put {
        result.push(more)?;
    }
    Ok(result)
}

/// The numbers of either set.
pub fn joined(
    alloc: Global,
    one: &[Interval],
    other: &[Interval],
) -> Result<Vec<Interval>, AllocError> {
    let mut set = Vec::from_slice(alloc, one)?;
    for interval in other {
        set = with(alloc, set.as_slice(), *interval)?;
    }
    Ok(set)
}

/// The numbers of both sets.
pub fn met(
    alloc: Global,
    one: &[Interval],
    other: &[Interval],
) -> Result<Vec<Interval>, AllocError> {
    let mut set = Vec::new(alloc);
    for interval in one {
        for with in other {
            let low = interval.low.max(with.low);
            let high = interval.high.min(with.high);
            if low <= high {
                set.push(Interval { low, high })?;
            }
        }
    }
    Ok(set)
}

/// The numbers that are not in a set.
pub fn outside(alloc: Global, set: &[Interval]) -> Result<Vec<Interval>, AllocError> {
    let mut others = Vec::new(alloc);
    let mut low = i128::MIN;
    for interval in set {
        if low < interval.low {
            others.push(Interval {
                low,
                high: interval.low.saturating_sub(1),
            })?;
        }
        if interval.high == i128::MAX {
            return Ok(others);
        }
        low = interval.high.saturating_add(1);
    }
    others.push(Interval {
        low,
        high: i128::MAX,
    })?;
    Ok(others)
}

/// Whether each number between two bounds is in a set.
pub fn covers(set: &[Interval], whole: Interval) -> bool {
    set.iter().any(|interval| interval.low <= whole.low && whole.high <= interval.high)
}
