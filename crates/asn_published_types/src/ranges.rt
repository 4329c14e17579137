//! Sets of whole numbers, as ranges: what the constraints of a type leave.
ghost use Rattle.std.specs.Prelude.{◌≡◌, ℤ, [], ◌∷◌, IfNone, IfOk, IfSome, IsTrue, OnOk, ◌↔◌, ◌≤ℤ◌, ◌⊎◌};
ghost use Rattle.asn_published_types.specs.Left.{IsLeft, IsWhole};
ghost use Rattle.asn_published_types.specs.Numbers.{AreFrom, AreTo, InRange, InSet, IsAbove, IsBelow, IsFrom, IsOrdered, IsTo};

use std::alloc::{AllocError, Global};

/// How many ranges, one beside the other, are followed from the lowest number to the highest.
const MOST_STEPS: usize = 32;

/// The whole numbers from a lowest to a highest one. `None` is no bound.
#[derive(Clone, Copy)]
pub struct Range {
    pub low: Option<i128>,
    pub high: Option<i128>,
}

/// A set of whole numbers: those of any of the ranges.
#[derive(Drop)]
pub struct Ranges {
    pub ranges: Vec<Range>,
}

/// The greater of two low bounds.
fn higher_low(a: Option<i128>, b: Option<i128>) -> Option<i128>
    ensures { (z : ℤ) → IsAbove result z ↔ (IsAbove a z × IsAbove b z) }
{
    match a {
        None => b,
        Some(x) => match b {
            None => Some(x),
            Some(y) => Some(if x < y { y } else { x }),
        },
    }
}

/// The lesser of two high bounds.
fn lower_high(a: Option<i128>, b: Option<i128>) -> Option<i128>
    ensures { (z : ℤ) → IsBelow result z ↔ (IsBelow a z × IsBelow b z) }
{
    match a {
        None => b,
        Some(x) => match b {
            None => Some(x),
            Some(y) => Some(if y < x { y } else { x }),
        },
    }
}

/// The lesser of two low bounds.
fn lower_low(a: Option<i128>, b: Option<i128>) -> Option<i128>
    ensures covers { (z : ℤ) → (IsAbove a z ⊎ IsAbove b z) → IsAbove result z }
    ensures lowest { (n : ℤ) → (IsFrom n a × IsFrom n b) → IsFrom n result }
{
    match a {
        None => None,
        Some(x) => match b {
            None => None,
            Some(y) => Some(if y < x { y } else { x }),
        },
    }
}

/// The greater of two high bounds.
fn higher_high(a: Option<i128>, b: Option<i128>) -> Option<i128>
    ensures covers { (z : ℤ) → (IsBelow a z ⊎ IsBelow b z) → IsBelow result z }
    ensures highest { (n : ℤ) → (IsTo n a × IsTo n b) → IsTo n result }
{
    match a {
        None => None,
        Some(x) => match b {
            None => None,
            Some(y) => Some(if x < y { y } else { x }),
        },
    }
}

impl Range {
    /// The numbers of both.
    fn meet(self, other: Range) -> Range
        ensures { (z : ℤ) → InRange result z ↔ (InRange self z × InRange other z) }
    {
        Range {
            low: higher_low(self.low, other.low),
            high: lower_high(self.high, other.high),
        }
    }

    /// Whether there is a number in it.
    pub(crate) fn has_number(self) -> bool
        ensures { IsTrue result ↔ IsOrdered self.low self.high }
    {
        match self.low {
            None => true,
            Some(low) => match self.high {
                None => true,
                Some(high) => low <= high,
            },
        }
    }

    /// The least range that has the numbers of both.
    fn around(self, other: Range) -> Range
        ensures covers { (z : ℤ) → (InRange self z ⊎ InRange other z) → InRange result z }
        ensures lowest { (n : ℤ) → (IsFrom n self.low × IsFrom n other.low) → IsFrom n result.low }
        ensures highest { (n : ℤ) → (IsTo n self.high × IsTo n other.high) → IsTo n result.high }
    {
        Range {
            low: lower_low(self.low, other.low),
            high: higher_high(self.high, other.high),
        }
    }
}

impl Ranges {
    /// No number.
    pub(crate) fn none(alloc: Global) -> Ranges
        ensures { (z : ℤ) → InSet result.ranges.items z → ⊥ }
    {
        Ranges {
            ranges: Vec::new(alloc),
        }
    }

    /// The numbers of one range.
    pub fn of(alloc: Global, range: Range) -> Result<Ranges, AllocError>
        ensures { IfOk result (λ s. (z : ℤ) → InSet s.ranges.items z ↔ InRange range z) }
    {
        let mut ranges = Vec::new(alloc);
        if range.has_number() {
            ranges.push(range)?;
        }
        Ok(Ranges { ranges })
    }

    /// Another set of the same numbers.
    pub fn copy(&self, alloc: Global) -> Result<Ranges, AllocError>
        ensures { IfOk result (λ s. s.ranges.items ≡ self.now.ranges.items) }
    {
        let ranges = Vec::from_slice(alloc, self.ranges.as_slice())?;
        Ok(Ranges { ranges })
    }

    /// Adds the numbers of the other.
    pub(crate) fn join(&mut self, other: &Ranges) -> Result<(), AllocError>
        ensures { OnOk result ((z : ℤ) → InSet self.new.ranges.items z
            ↔ (InSet self.old.ranges.items z ⊎ InSet other.now.ranges.items z)) }
    {
        self.ranges.extend_from_slice(other.ranges.as_slice())?;
        Ok(())
    }

    /// Adds the numbers of a range.
    fn join_range(&mut self, range: Range) -> Result<(), AllocError>
        ensures { OnOk result ((z : ℤ) → InSet self.new.ranges.items z
            ↔ (InSet self.old.ranges.items z ⊎ InRange range z)) }
    {
        if range.has_number() {
            self.ranges.push(range)?;
        }
        Ok(())
    }

    /// Adds the numbers that both the range and one of the others have.
    fn join_meet(&mut self, range: Range, others: &[Range]) -> Result<(), AllocError>
        ensures { OnOk result ((z : ℤ) → InSet self.new.ranges.items z
            ↔ (InSet self.old.ranges.items z ⊎ (InRange range z × InSet others.now z))) }
    {
        let mut left = others;
        'others: while let [other, rest @ ..] = left {
            self.join_range(range.meet(*other))?;
            left = rest;
        }
        Ok(())
    }

    /// The numbers of both.
    pub(crate) fn meet(&self, alloc: Global, other: &Ranges) -> Result<Ranges, AllocError>
        ensures { IfOk result (λ both. (z : ℤ) → InSet both.ranges.items z
            ↔ (InSet self.now.ranges.items z × InSet other.now.ranges.items z)) }
    {
        let mut both = Ranges {
            ranges: Vec::new(alloc),
        };
        let mut left = self.ranges.as_slice();
        'own: while let [range, rest @ ..] = left {
            both.join_meet(*range, other.ranges.as_slice())?;
            left = rest;
        }
        Ok(both)
    }

    /// The lowest and the highest number; `None` where there is no number.
    pub(crate) fn hull(&self) -> Option<Range>
        ensures none { IfNone result ((z : ℤ) → InSet self.now.ranges.items z → ⊥) }
        ensures covers { IfSome result (λ r. (z : ℤ) → InSet self.now.ranges.items z → InRange r z) }
        ensures lowest { IfSome result (λ r. (n : ℤ) → AreFrom n self.now.ranges.items → IsFrom n r.low) }
        ensures highest { IfSome result (λ r. (n : ℤ) → AreTo n self.now.ranges.items → IsTo n r.high) }
    {
        match hull_of(self.ranges.as_slice()) {
            Some(hull) => Some(hull),
            None => None,
        }
    }

    /// Whether each number of a range is found to be one of them.
    pub(crate) fn fill(&self, range: Range) -> bool
        ensures { IsTrue result → (z : ℤ) → InRange range z → InSet self.now.ranges.items z }
    {
        fill(self.ranges.as_slice(), range.low, range.high, MOST_STEPS)
    }

    pub fn len(&self) -> usize {
        self.ranges.len()
    }
}

/// The first of ranges and the rest; `None` where there is no range.
fn next_range(ranges: &[Range]) -> Option<(Range, &[Range])>
    ensures none { IfNone result (ranges.now ≡ []) }
    ensures some { IfSome result (λ p. ranges.now ≡ p.0 ∷ p.1.now) }
{
    match ranges {
        [] => None,
        [first, rest @ ..] => Some((*first, rest)),
    }
}

/// The lowest and the highest number of ranges; `None` where there is no range.
fn hull_of(ranges: &[Range]) -> Option<Range>
    ensures none { IfNone result ((z : ℤ) → InSet ranges.now z → ⊥) }
    ensures covers { IfSome result (λ r. (z : ℤ) → InSet ranges.now z → InRange r z) }
    ensures lowest { IfSome result (λ r. (n : ℤ) → AreFrom n ranges.now → IsFrom n r.low) }
    ensures highest { IfSome result (λ r. (n : ℤ) → AreTo n ranges.now → IsTo n r.high) }
{
    match next_range(ranges) {
        None => None,
        Some((first, rest)) => Some(around_all(first, rest)),
    }
}

/// The least range that has the numbers of one and of others.
fn around_all(hull: Range, ranges: &[Range]) -> Range
    ensures own { (z : ℤ) → InRange hull z → InRange result z }
    ensures covers { (z : ℤ) → InSet ranges.now z → InRange result z }
    ensures lowest { (n : ℤ) → IsFrom n hull.low → AreFrom n ranges.now → IsFrom n result.low }
    ensures highest { (n : ℤ) → IsTo n hull.high → AreTo n ranges.now → IsTo n result.high }
{
    match next_range(ranges) {
        None => hull,
        Some((range, rest)) => around_all(hull.around(range), rest),
    }
}

/// Whether what is above the one low bound is above the other.
fn is_from(bound: Option<i128>, other: Option<i128>) -> bool
    ensures { IsTrue result → (z : ℤ) → IsAbove bound z → IsAbove other z }
{
    match other {
        None => true,
        Some(other) => match bound {
            None => false,
            Some(bound) => other <= bound,
        },
    }
}

/// Whether a high bound is above another, where there is one.
fn is_further(bound: Option<i128>, other: Option<Option<i128>>) -> bool {
    match other {
        None => true,
        Some(None) => false,
        Some(Some(other)) => match bound {
            None => true,
            Some(bound) => other < bound,
        },
    }
}

/// The high bound up to which one of the ranges has each number from a low bound on; `None` where none has.
fn reach(ranges: &[Range], low: Option<i128>) -> Option<Option<i128>>
    ensures { IfSome result (λ high. (z : ℤ) → IsAbove low z → IsBelow high z → InSet ranges.now z) }
{
    match next_range(ranges) {
        None => None,
        Some((range, rest)) => {
            let others = reach(rest, low);
            if is_from(low, range.low) && is_further(range.high, others) {
                Some(range.high)
            } else {
                others
            }
        }
    }
}

/// A number from which on those up to a high bound are left, after another high bound; `None` where none are.
fn left_behind(end: Option<i128>, high: Option<i128>) -> Option<i128>
    ensures none { IfNone result ((z : ℤ) → IsBelow high z → IsBelow end z) }
    ensures some { IfSome result (λ n. (z : ℤ) → IsBelow end z ⊎ (n ≤ℤ z)) }
{
    match end {
        None => None,
        Some(end) => match high {
            Some(high) if high <= end => None,
            _ => Some(if end < i128::MAX { end + 1 } else { end }),
        },
    }
}

/// Whether each number from a low to a high bound is found to be in one of the ranges, of which at most `steps` are
/// followed.
fn fill(ranges: &[Range], low: Option<i128>, high: Option<i128>, steps: usize) -> bool
    ensures { IsTrue result → (z : ℤ) → IsAbove low z → IsBelow high z → InSet ranges.now z }
{
    match reach(ranges, low) {
        Some(end) if steps > 0 => match left_behind(end, high) {
            None => true,
            Some(next) => fill(ranges, Some(next), high, steps - 1),
        },
        _ => false,
    }
}

/// Whether it is found that no number between two of those that are left is missing; `None` is all numbers.
pub fn is_whole(left: &Option<Ranges>) -> bool
    ensures { IsTrue result → IsWhole left.now }
{
    match left {
        None => true,
        Some(ranges) => match ranges.hull() {
            None => true,
            Some(hull) => ranges.fill(hull),
        },
    }
}

/// The numbers of both, where `None` is all numbers.
pub(crate) fn met(
    alloc: Global,
    a: Option<Ranges>,
    b: Option<Ranges>,
) -> Result<Option<Ranges>, AllocError>
    ensures { IfOk result (λ both. (z : ℤ) → IsLeft both z ↔ (IsLeft a z × IsLeft b z)) }
{
    match a {
        None => Ok(b),
        Some(x) => match b {
            None => Ok(Some(x)),
            Some(y) => {
                let both = x.meet(alloc, &y)?;
                Ok(Some(both))
            }
        },
    }
}

/// The numbers of either, where `None` is all numbers.
pub(crate) fn joined(a: Option<Ranges>, b: Option<Ranges>) -> Result<Option<Ranges>, AllocError>
    ensures { IfOk result (λ either. (z : ℤ) → IsLeft either z ↔ (IsLeft a z ⊎ IsLeft b z)) }
{
    match a {
        None => Ok(None),
        Some(mut x) => match b {
            None => Ok(None),
            Some(y) => {
                x.join(&y)?;
                Ok(Some(x))
            }
        },
    }
}
