//! What is ahead of a list between two of its fragments (X.691, "general length determinant"), as a value that can be
//! copied: what PER's own reader keeps there cannot.
ghost use Rattle.std.specs.Prelude.{◌≡◌, ◌≤◌, ◌<◌, ◌+◌, ◌^◌, ℕ, IfOk, IfErr, IfSome, false, true, nat_lt};
ghost use Rattle.asn_values.specs.View.{size_range_of};
ghost use Rattle.asn_bits.specs.Ranges.{Spanned, At};
ghost use Rattle.asn_walk.specs.Ahead.{StopsNext, SomeAhead, lengths};
ghost use Rattle.asn_walk.specs.Laws.{IsSizeOfProfile};
ghost use Rattle.asn_per.specs.ListsAhead.{RootStart, Start, other_counts};
ghost use Rattle.asn_per.specs.Per.{per_fields};
ghost use Rattle.asn_per.specs.Reading.{Reads, StopsIn};
ghost use Rattle.asn_per.specs.FragmentsAhead.{ahead_of, counts_of, IsBetween, GoesOn, CountsLeft, IsLeft, AreLengthsLeft};

use asn_bits::internal::width;
use asn_bits::{BitCursor, Counts, Lengths};
use asn_rules::Why;
use asn_rules::internal::{Stop, read_next_length, read_up_to};
use asn_values::Size;
use asn_values::profile::{BLOCK, GENERAL_FROM, MAX_LEN};

/// How many items four blocks have: after a fragment that has fewer no other fragment follows.
const LARGEST_FRAGMENT: u64 = 4 * BLOCK;

/// The counts that a list may have, of one interval or of two, and how far it is read.
#[derive(Clone, Copy)]
pub struct CountsAhead {
    first: Counts,
    second: Option<Counts>,
    /// how many items its fragments so far have
    so_far: u32,
    /// whether the last of them had fewer than four blocks
    closed: bool,
}

impl CountsAhead {
    /// The lengths of a list that has the counts of what is left.
    fn lengths(&self) -> Lengths
        requires some { (n : ℕ) × CountsLeft self.now n }
        ensures { AreLengthsLeft self.now result }
    {
        let second = self.left_within(self.second);
        match self.left_within(Some(self.first)) {
            Some(first) => Lengths::new(first, second),
            None => match second {
                Some(second) => Lengths::new(second, None),
                None => unreachable!(),
            },
        }
    }

    /// The counts of what is left that this interval allows, as an interval; `None` where there are none.
    fn left_within(&self, counts: Option<Counts>) -> Option<Counts>
        ensures ordered { IfSome result (λ left. left.low ≤ left.high) }
        ensures left { IsLeft self.now counts result }
    {
        let counts = counts?;
        if counts.high < self.so_far {
            return None;
        }
        let low = counts.low.saturating_sub(self.so_far);
        let most = counts.high - self.so_far;
        let high = if self.closed {
            most.min(BLOCK as u32 - 1)
        } else {
            most
        };
        if low > high {
            return None;
        }
        Some(Counts { low, high })
    }

    /// The same counts, after a fragment of this many further items.
    fn after_fragment(&self, items: u32) -> CountsAhead
        requires { self.now.so_far + items < 2 ^ 32 }
        ensures { lengths (counts_of result) result.so_far result.closed
            ≡ lengths (counts_of self.now) (self.now.so_far + items) (nat_lt items 65536) }
    {
        CountsAhead {
            first: self.first,
            second: self.second,
            so_far: self.so_far + items,
            closed: u64::from(items) < LARGEST_FRAGMENT,
        }
    }
}

/// What follows of a list that is read.
#[derive(Clone, Copy)]
pub enum Fragments {
    /// This count of items, and then nothing.
    Items(usize),
    /// A length determinant, and the items that it counts.
    Lengths(CountsAhead),
    /// Nothing.
    End,
}

impl Fragments {
    /// Reads what stands before the items of a list under the size: the extension bit, and the count of a list of
    /// the root that has an upper bound below 65,536.
    pub(crate) fn start(size: &Size, bits: &mut BitCursor<'_>) -> Result<Fragments, Stop>
        requires of_profile { IsSizeOfProfile (size_range_of size.now) }
        ensures done { Reads result ahead_of (Start (size_range_of size.now)) bits.old bits.new }
        ensures between { IfOk result IsBetween }
        ensures stop { StopsIn result (Start (size_range_of size.now)) bits.old }
    {
        if !size.ext {
            return read_root_start(size, bits);
        }
        let Some(bit) = bits.next() else {
            return Err(Stop::Short);
        };
        if bit == 1 {
            return Ok(Fragments::Lengths(other_counts(size)));
        }
        read_root_start(size, bits)
    }

    /// Reads as far as the next items. Returns their count: `None` if the list has ended.
    pub(crate) fn next(&mut self, bits: &mut BitCursor<'_>) -> Result<Option<usize>, Stop>
        requires between { IsBetween self.old }
        ensures between { IfOk result (λ count. IsBetween self.new) }
        ensures done { IfOk result (λ count. GoesOn self.old count self.new bits.old bits.new) }
        ensures stop { IfErr result (λ why. StopsNext per_fields (ahead_of self.old) bits.old why) }
    {
        match self {
            Fragments::End => Ok(None),
            Fragments::Items(count) => {
                let count = *count;
                *self = Fragments::End;
                Ok(Some(count))
            }
            Fragments::Lengths(counts) => {
                let counts = *counts;
                let mut lengths = counts.lengths();
                let count = read_next_length(&mut lengths, bits)?;
                if !lengths.more() {
                    *self = Fragments::End;
                    return Ok(Some(count as usize));
                }
                *self = Fragments::Lengths(counts.after_fragment(count as u32));
                Ok(Some(count as usize))
            }
        }
    }
}

/// Reads what stands before the items of a list of the root.
fn read_root_start(size: &Size, bits: &mut BitCursor<'_>) -> Result<Fragments, Stop>
    requires of_profile { IsSizeOfProfile (size_range_of size.now) }
    ensures done { Reads result ahead_of (RootStart size.now.low size.now.high) bits.old bits.new }
    ensures between { IfOk result IsBetween }
    ensures stop { StopsIn result (RootStart size.now.low size.now.high) bits.old }
{
    let Some(high) = size.high else {
        let counts = Counts {
            low: size.low,
            high: MAX_LEN,
        };
        return Ok(Fragments::Lengths(all_of(counts, None)));
    };
    if high >= GENERAL_FROM {
        let counts = Counts {
            low: size.low,
            high,
        };
        return Ok(Fragments::Lengths(all_of(counts, None)));
    }
    let above = u64::from(high - size.low);
    let count = read_up_to(width(u128::from(above) + 1), above, Why::Length, bits)?;
    Ok(Fragments::Items(size.low as usize + count as usize))
}

/// The counts of lists outside the root of the size.
fn other_counts(size: &Size) -> CountsAhead
    requires of_profile { IsSizeOfProfile (size_range_of size.now) }
    requires marked { size.now.ext ≡ true }
    ensures counts { ahead_of (Fragments.Lengths result) ≡ lengths (other_counts size.now.low size.now.high) 0 false }
{
    let below = Counts {
        low: 0,
        high: size.low.saturating_sub(1),
    };
    let Some(high) = size.high else {
        return all_of(below, None);
    };
    let above = Counts {
        low: high + 1,
        high: MAX_LEN,
    };
    if size.low == 0 {
        all_of(above, None)
    } else {
        all_of(below, Some(above))
    }
}

/// A list that may have these counts, of which nothing is read.
fn all_of(first: Counts, second: Option<Counts>) -> CountsAhead
    ensures { result ≡ record { first = first; second = second; so_far = 0; closed = false } }
{
    CountsAhead {
        first,
        second,
        so_far: 0,
        closed: false,
    }
}
