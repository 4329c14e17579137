//! What the constraints of a type leave, as far as the encoding rules see them (X.691 and X.696, "visible
//! constraints"), and what several of them leave together.
ghost use Rattle.std.specs.Prelude.{◌≡◌, ℤ, IfOk, ◌↔◌, ◌⊎◌};
ghost use Rattle.asn_published_types.specs.Left.{IsLeft};

use crate::ranges::{Range, Ranges, joined, met};
use asn_published_text::refusal::{Refusal, Why, refused};
use std::alloc::{AllocError, Global};

/// How many ranges a set is given.
pub(crate) const MOST_RANGES: usize = 256;

/// What single values mean where they are.
#[derive(Clone, Copy, PartialEq, Eq)]
pub enum Mode {
    /// Numbers, as of an INTEGER or of lengths.
    Numbers,
    /// Characters.
    Letters,
    /// Nothing that encoding rules see.
    Others,
}

/// What constraints leave. `None` is everything.
#[derive(Drop)]
pub struct Seen {
    /// The values of an INTEGER, or the lengths or characters inside SIZE or FROM.
    pub numbers: Option<Ranges>,
    /// The lengths.
    pub sizes: Option<Ranges>,
    /// The characters, by their codes.
    pub letters: Option<Ranges>,
    /// The last constraint has an extension mark.
    pub marked: bool,
    /// Something is not seen by the encoding rules, or is an exception.
    pub dropped: bool,
    /// Characters are named that encoding rules do not see, since others may come later.
    pub others: bool,
}

impl Seen {
    /// Everything.
    pub fn all() -> Seen
        ensures numbers { (z : ℤ) → IsLeft result.numbers z }
        ensures sizes { (z : ℤ) → IsLeft result.sizes z }
    {
        Seen {
            numbers: None,
            sizes: None,
            letters: None,
            marked: false,
            dropped: false,
            others: false,
        }
    }

    /// Everything, since the constraint is not seen.
    pub(crate) fn unseen() -> Seen
        ensures numbers { (z : ℤ) → IsLeft result.numbers z }
        ensures sizes { (z : ℤ) → IsLeft result.sizes z }
    {
        Seen {
            dropped: true,
            ..Seen::all()
        }
    }

    /// The numbers of a range.
    pub fn numbers(alloc: Global, range: Range) -> Result<Seen, AllocError> {
        Ok(Seen {
            numbers: Some(Ranges::of(alloc, range)?),
            ..Seen::all()
        })
    }

    /// Whether the encoding rules see nothing of a constraint.
    pub(crate) fn is_unseen(&self) -> bool {
        (self.dropped || self.others) && self.kinds() == 0
    }

    /// How many of numbers, sizes and letters are constrained.
    fn kinds(&self) -> u32 {
        u32::from(self.numbers.is_some())
            .saturating_add(u32::from(self.sizes.is_some()))
            .saturating_add(u32::from(self.letters.is_some()))
    }
}

/// Whether there are not too many ranges.
fn is_small(ranges: &Option<Ranges>) -> bool {
    match ranges {
        Some(ranges) => ranges.len() <= MOST_RANGES,
        None => true,
    }
}

/// Where there are not too many ranges, what is seen.
fn if_small(seen: Seen, line: u32) -> Result<Seen, Refusal>
    ensures { IfOk result (λ s. s ≡ seen) }
{
    if is_small(&seen.numbers) && is_small(&seen.sizes) && is_small(&seen.letters) {
        Ok(seen)
    } else {
        Err(refused(line, Why::Ranges))
    }
}

/// What both constraints leave. The mark is that of the second, unless the encoding rules see nothing of it.
pub fn intersection(alloc: Global, a: Seen, b: Seen, line: u32) -> Result<Seen, Refusal>
    ensures numbers { IfOk result (λ s. (z : ℤ) → IsLeft s.numbers z ↔ (IsLeft a.numbers z × IsLeft b.numbers z)) }
    ensures sizes { IfOk result (λ s. (z : ℤ) → IsLeft s.sizes z ↔ (IsLeft a.sizes z × IsLeft b.sizes z)) }
{
    let marked = if b.is_unseen() { a.marked } else { b.marked };
    let both = Seen {
        numbers: met(alloc, a.numbers, b.numbers)?,
        sizes: met(alloc, a.sizes, b.sizes)?,
        letters: met(alloc, a.letters, b.letters)?,
        marked,
        dropped: a.dropped || b.dropped,
        others: a.others || b.others,
    };
    if_small(both, line)
}

/// What either constraint leaves. Of one on lengths and one on characters that is every value, of which the encoding
/// rules see that all characters are allowed.
pub(crate) fn union(alloc: Global, a: Seen, b: Seen, line: u32) -> Result<Seen, Refusal>
    ensures numbers { IfOk result (λ s. (z : ℤ) → IsLeft s.numbers z ↔ (IsLeft a.numbers z ⊎ IsLeft b.numbers z)) }
    ensures sizes { IfOk result (λ s. (z : ℤ) → IsLeft s.sizes z ↔ (IsLeft a.sizes z ⊎ IsLeft b.sizes z)) }
{
    if a.kinds() > 1 || b.kinds() > 1 {
        return Err(refused(line, Why::Constraint));
    }
    let constrained = a.kinds() == 1 && b.kinds() == 1;
    let mut either = Seen {
        numbers: joined(a.numbers, b.numbers)?,
        sizes: joined(a.sizes, b.sizes)?,
        letters: joined(a.letters, b.letters)?,
        marked: false,
        dropped: a.dropped || b.dropped,
        others: a.others || b.others,
    };
    if constrained && either.kinds() == 0 {
        either.letters = Some(Ranges::of(alloc, every_number())?);
        either.dropped = true;
    }
    if_small(either, line)
}

/// The range without bounds.
pub(crate) fn every_number() -> Range {
    Range {
        low: None,
        high: None,
    }
}

/// What a constraint leaves from which another takes values out: encoding rules do not see the other one (X.691 and
/// X.696, "EXCEPT").
pub(crate) fn exception(from: Seen) -> Seen
    ensures numbers { (z : ℤ) → IsLeft result.numbers z ↔ IsLeft from.numbers z }
    ensures sizes { (z : ℤ) → IsLeft result.sizes z ↔ IsLeft from.sizes z }
{
    Seen {
        dropped: true,
        ..from
    }
}

/// What either leaves, where there is a first.
pub(crate) fn either_of(
    alloc: Global,
    a: Option<Seen>,
    b: Option<Seen>,
    line: u32,
) -> Result<Option<Seen>, Refusal> {
    match a {
        None => Ok(b),
        Some(x) => match b {
            None => Ok(Some(x)),
            Some(y) => Ok(Some(union(alloc, x, y, line)?)),
        },
    }
}

/// What both leave, where there is a first.
pub(crate) fn both_of(
    alloc: Global,
    a: Option<Seen>,
    b: Seen,
    line: u32,
) -> Result<Option<Seen>, Refusal> {
    match a {
        None => Ok(Some(b)),
        Some(x) => Ok(Some(intersection(alloc, x, b, line)?)),
    }
}
