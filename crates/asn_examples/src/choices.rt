//! How the parts of a value are chosen: the least of them, the greatest, or as a seed says.
ghost use Rattle.std.specs.Prelude.{◌≤◌, ◌<◌};

use asn_values::profile::{HIGHEST_INTEGER, INTEGER_COUNT, LOWEST_INTEGER};
use asn_values::{Bounds, Size};
use std::alloc::AllocError;

/// How many items strings and lists may have beyond the least number of each, all together.
const ROOM: usize = 2_000;

/// How many items a string or list without a high bound may have beyond the least number: enough for a length of two
/// octets.
const LONGEST: usize = 200;

/// Which of the values that a part may have is taken.
#[derive(Clone, Copy)]
enum Way {
    Least,
    Greatest,
    Seeded,
}

/// Chooses the parts of one value.
#[derive(Drop)]
pub(crate) struct Choices {
    way: Way,
    // where the sequence of numbers that the seed determines stands
    state: u64,
    // how many items strings and lists may still have beyond the least number of each
    room: usize,
    // how many parts and items of strings the value may still have
    left: u64,
}

impl Choices {
    /// Takes the least of each.
    pub(crate) fn least() -> Choices {
        Choices {
            way: Way::Least,
            state: 0,
            room: 0,
            left: u64::MAX,
        }
    }

    /// Takes the greatest of each for the seed 0; for another seed the least, the greatest, or any, as the seed says.
    pub(crate) fn seeded(seed: u64) -> Choices {
        let way = if seed == 0 {
            Way::Greatest
        } else {
            Way::Seeded
        };
        Choices {
            way,
            state: seed,
            room: ROOM,
            left: u64::MAX,
        }
    }

    /// The same choices, for a value of at most so many parts and items of strings.
    pub(crate) fn within(mut self, most: u64) -> Choices {
        self.left = most.saturating_add(1);
        self
    }

    /// Whether a value was given up since it has too many parts.
    pub(crate) fn are_over(&self) -> bool {
        self.left == 0
    }

    /// Counts parts of the value, or items of a string.
    ///
    /// # Errors
    /// `AllocError` if the value may not have as many.
    pub(crate) fn spend(&mut self, count: usize) -> Result<(), AllocError> {
        self.left = self.left.saturating_sub(count as u64);
        if self.left == 0 {
            return Err(AllocError);
        }
        Ok(())
    }

    /// Whether the least of each is taken.
    pub(crate) fn are_least(&self) -> bool {
        matches!(self.way, Way::Least)
    }

    /// The next number of the sequence that the seed determines (SplitMix64).
    fn next(&mut self) -> u64 {
        self.state = self.state.wrapping_add(0x9E37_79B9_7F4A_7C15);
        let first = (self.state ^ (self.state >> 30)).wrapping_mul(0xBF58_476D_1CE4_E5B9);
        let second = (first ^ (first >> 27)).wrapping_mul(0x94D0_49BB_1331_11EB);
        second ^ (second >> 31)
    }

    /// A number from `low` to `high`, both counted in.
    pub(crate) fn pick(&mut self, low: u64, high: u64) -> u64
        requires { low ≤ high }
        ensures from { low ≤ result }
        ensures to { result ≤ high }
    {
        match self.way {
            Way::Least => low,
            Way::Greatest => high,
            Way::Seeded => match self.next() % 4 {
                0 => low,
                1 => high,
                _ => between(low, high, self.next()),
            },
        }
    }

    /// One of two.
    pub(crate) fn coin(&mut self) -> bool {
        self.pick(0, 1) == 1
    }

    /// An index below the count.
    pub(crate) fn below(&mut self, count: usize) -> usize
        requires { 0 < count }
        ensures { result < count }
    {
        self.pick(0, count as u64 - 1) as usize
    }

    /// An integer for these bounds; `least` where the least of each is taken. Where an extension marker follows, it may be
    /// outside them.
    pub(crate) fn number(&mut self, bounds: &Bounds, least: i128) -> i128 {
        if self.are_least() {
            return least;
        }
        let low = bounds.low.unwrap_or(LOWEST_INTEGER);
        let high = bounds.high.unwrap_or(HIGHEST_INTEGER);
        if bounds.ext && self.next() % 4 == 0 {
            return self.any_number();
        }
        match u64::try_from(high.saturating_sub(low)) {
            Ok(span) => low.saturating_add(i128::from(self.pick(0, span))),
            Err(_) => self.far_number(low, high),
        }
    }

    /// An integer of the profile, as near to the lowest in all of them as the next number of the sequence is to 0.
    fn any_number(&mut self) -> i128 {
        let part = u128::from(self.next()).saturating_mul(INTEGER_COUNT >> 32) >> 32;
        LOWEST_INTEGER.saturating_add(i128::try_from(part).unwrap_or(0))
    }

    /// An integer between bounds that are further apart than 64 bits tell: one of those that are not, from one of both.
    fn far_number(&mut self, low: i128, high: i128) -> i128 {
        if self.coin() {
            let left = u64::MAX - self.pick(0, u64::MAX);
            high.saturating_sub(i128::from(left))
        } else {
            low.saturating_add(i128::from(self.pick(0, u64::MAX)))
        }
    }

    /// A length, in items, for this size; more than its low bound only as far as there is room. Where an extension marker
    /// follows, it may be outside the bounds.
    pub(crate) fn length(&mut self, size: &Size) -> usize {
        let low = size.low as usize;
        if self.are_least() {
            return low;
        }
        if size.ext && self.next() % 4 == 0 {
            return self.within_room(0, LONGEST);
        }
        match size.high {
            Some(high) => self.within_room(low, high as usize),
            None => self.within_room(low, low.saturating_add(LONGEST)),
        }
    }

    /// A length from `low` to `high`, and to no more than there is room for, which it takes.
    fn within_room(&mut self, low: usize, high: usize) -> usize {
        let most = high.min(low.saturating_add(self.room)).max(low);
        let length = self.pick(low as u64, most as u64) as usize;
        self.room = self.room.saturating_sub(length.saturating_sub(low));
        length
    }
}

/// A number from `low` to `high`, both counted in, as another number says.
fn between(low: u64, high: u64, drawn: u64) -> u64
    requires { low ≤ high }
    ensures from { low ≤ result }
    ensures to { result ≤ high }
{
    let span = high - low;
    if drawn <= span {
        low + drawn
    } else {
        low + drawn % (span + 1)
    }
}
