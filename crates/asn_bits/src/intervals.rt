//! Sets of numbers as unions of a few intervals.
ghost use Rattle.std.specs.Prelude.{◌≡◌, ℕ, ◌<◌, ◌≤◌, ◌↔◌, List, [], ◌∷◌, ◌++◌, length, take, IsTrue};
ghost use Rattle.asn_bits.specs.Sets.{Among, AreOrdered, Meets};

use std::marker::Model;

/// The most intervals of a union.
const MAX_INTERVALS: usize = 4;

/// A union of up to four intervals of numbers, without memory of its own. Contracts see the list of
/// their ends, the low end of an interval before its high one.
#[derive(Drop)]
pub struct Intervals {
    ends: [(u128, u128); MAX_INTERVALS],
    // how many of them are the set's; the others are garbage
    count: usize,
}

impl Model for Intervals {
    ghost Value = { List (ℕ × ℕ) };

    ghost view = { λ s. take s.count s.ends };

    ghost invariant = { λ s. (s.count ≤ 4) × AreOrdered (take s.count s.ends) };
}

impl Intervals {
    /// No number.
    pub fn none() -> Intervals
        ensures { result ≡ [] }
    {
        Intervals {
            ends: [(0, 0); MAX_INTERVALS],
            count: 0,
        }
    }

    /// The numbers from `low` to `high`.
    pub fn one(low: u128, high: u128) -> Intervals
        requires { low ≤ high }
        ensures { result ≡ (low, high) ∷ [] }
    {
        Intervals {
            ends: [(low, high); MAX_INTERVALS],
            count: 1,
        }
    }

    /// These numbers, and those from `low` to `high`.
    pub fn and(mut self, low: u128, high: u128) -> Intervals
        requires ordered { low ≤ high }
        requires room { length self < 4 }
        ensures { result ≡ self ++ (low, high) ∷ [] }
    {
        self.ends[self.count] = (low, high);
        self.count += 1;
        self
    }

    /// The same numbers once more.
    pub fn copied(&self) -> Intervals
        ensures { result ≡ self.now }
    {
        Intervals {
            ends: self.ends,
            count: self.count,
        }
    }

    /// Whether `n` is one of the numbers.
    pub fn has(&self, n: u128) -> bool
        ensures { IsTrue result ↔ Among self.now n }
    {
        self.meets(n, 0)
    }

    /// Whether one of the numbers begins with the bits of `prefix`, `left` bits before its end.
    pub fn meets(&self, prefix: u128, left: u32) -> bool
        requires { left < 128 }
        ensures { IsTrue result ↔ Meets (λ n. Among self.now n) prefix left }
    {
        for (low, high) in &self.ends[..self.count] {
            if *low >> left <= prefix && prefix <= *high >> left {
                return true;
            }
        }
        false
    }
}
