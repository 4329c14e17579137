//! Writes numbers, ranges and sizes of the profile.
ghost use Rattle.std.specs.Prelude.{ℤ, IfOk};
ghost use Rattle.asn_published_types.specs.Left.{IsBetween, IsLeft};

use crate::ranges::{Range, Ranges};
use asn_published_text::refusal::{Refusal, Why, refused};
use asn_values::profile::{HIGHEST_INTEGER, LOWEST_INTEGER, MAX_SIZE_BOUND};
use std::alloc::{AllocError, Global};

/// The highest finite bound of a size of the profile.
const HIGHEST_SIZE: i128 = MAX_SIZE_BOUND as i128;

/// What a set of numbers becomes.
#[derive(Clone, Copy, PartialEq, Eq)]
pub enum Numbers {
    All,
    Between(Option<i128>, Option<i128>),
}

/// Whether a bound is none, or an integer of the profile.
fn fits(bound: Option<i128>) -> bool {
    match bound {
        None => true,
        Some(number) => is_integer(number),
    }
}

/// Whether the profile has the integer.
pub fn is_integer(number: i128) -> bool {
    LOWEST_INTEGER <= number && number <= HIGHEST_INTEGER
}

/// Whether a range has all integers of the profile, and no others but where it has no bound.
fn is_every_number(range: Range) -> bool {
    (range.low.is_none() || range.low == Some(LOWEST_INTEGER))
        && (range.high.is_none() || range.high == Some(HIGHEST_INTEGER))
}

/// The range that a set of numbers, marked or not, becomes.
pub fn numbers_between(left: &Option<Ranges>, marked: bool, line: u32) -> Result<Numbers, Refusal>
    // Each number that is left is one of the range.
    ensures { IfOk result (λ n. (z : ℤ) → IsLeft left.now z → IsBetween n z) }
{
    let hull = match left {
        None => Range {
            low: None,
            high: None,
        },
        Some(ranges) => match ranges.hull() {
            Some(hull) => hull,
            None => return Err(refused(line, Why::Empty)),
        },
    };
    if marked && is_every_number(hull) {
        return Err(refused(line, Why::UselessMark));
    }
    if hull.low.is_none() && hull.high.is_none() {
        return Ok(Numbers::All);
    }
    if fits(hull.low) && fits(hull.high) {
        return Ok(Numbers::Between(hull.low, hull.high));
    }
    Err(refused(line, Why::Bounds))
}

/// The lowest and highest length of a set, and whether the highest was given up.
#[derive(Clone, Copy)]
pub struct Lengths {
    pub low: i128,
    pub high: Option<i128>,
    pub cut: bool,
}

/// The lengths that a set of them, marked or not, becomes; `None` where it is all.
pub fn lengths_between(
    left: &Option<Ranges>,
    marked: bool,
    line: u32,
) -> Result<Option<Lengths>, Refusal> {
    let Some(ranges) = left else {
        return if marked {
            Err(refused(line, Why::UselessMark))
        } else {
            Ok(None)
        };
    };
    let Some(hull) = ranges.hull() else {
        return Err(refused(line, Why::Empty));
    };
    let low = hull.low.unwrap_or(0).max(0);
    let is_fixed = hull.high == Some(low);
    if let Some(high) = hull.high {
        if high < low {
            return Err(refused(line, Why::Empty));
        }
    }
    let high = match hull.high {
        Some(high) if high <= HIGHEST_SIZE => Some(high),
        _ => None,
    };
    let cut = hull.high != high;
    if low > HIGHEST_SIZE || (cut && is_fixed) {
        return Err(refused(line, Why::Size));
    }
    if low == 0 && marked && high.is_none_or(|high| high == HIGHEST_SIZE) {
        return Err(refused(line, Why::UselessMark));
    }
    Ok(Some(Lengths { low, high, cut }))
}

/// Appends a bound, or the word for none.
fn write_bound(
    alloc: Global,
    out: &mut String,
    bound: Option<i128>,
    none: &str,
) -> Result<(), AllocError> {
    match bound {
        Some(number) => {
            let digits = format!(in alloc; "{number}")?;
            out.push_str(digits.as_str())
        }
        None => out.push_str(none),
    }
}

/// Appends ` (LOW..HIGH)`, with its mark.
pub fn write_range(
    alloc: Global,
    out: &mut String,
    low: Option<i128>,
    high: Option<i128>,
    marked: bool,
) -> Result<(), AllocError> {
    out.push_str(" (")?;
    write_bound(alloc, out, low, "MIN")?;
    out.push_str("..")?;
    write_bound(alloc, out, high, "MAX")?;
    out.push_str(if marked { ", ...)" } else { ")" })
}

/// Appends ` (SIZE (LOW..HIGH))`, with its mark.
pub fn write_size(
    alloc: Global,
    out: &mut String,
    lengths: Lengths,
    marked: bool,
) -> Result<(), AllocError> {
    out.push_str(" (SIZE")?;
    write_range(alloc, out, Some(lengths.low), lengths.high, marked)?;
    out.push_str(")")
}
