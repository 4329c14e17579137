//! Numbers of a set in a given number of bits, read bit by bit or in one step.
ghost use Rattle.std.specs.Prelude.{◌≡◌, ℕ, ◌+◌, ◌-◌, ◌*◌, ◌^◌, ◌↔◌, ◌<◌, ◌≤◌, ◌++◌, ◌∷◌, [], List, length, IfSome, IsNone};
ghost use Rattle.asn_bits.specs.Numbers.{bits};
ghost use Rattle.asn_bits.specs.Sets.{Among};
ghost use Rattle.asn_bits.specs.Sink.{bit_of};
ghost use Rattle.asn_bits.specs.Begun.{BegunField, Tells, StandsFirst};

use crate::cursor::BitCursor;
use crate::intervals::Intervals;
use std::marker::Model;

/// What the bits say that a [`NumberField`] or [`Lengths`](crate::Lengths) was given.
#[derive(Clone, Copy, PartialEq, Eq)]
pub enum FieldState {
    /// A number of the set begins with these bits, and bits of it are left.
    Alive,
    /// The bits are all given, and are this number of the set.
    Number(u128),
    /// No number of the set begins with these bits.
    Dead,
}

/// A number of a set of intervals in `k` bits, 72 at most, the highest first (X.691,
/// "non-negative-binary-integer encoding"), which is given bit by bit. Contracts see the set, how
/// many bits the number has, and the bits given.
#[derive(Drop)]
pub struct NumberField {
    numbers: Intervals,
    width: u32,
    left: u32,
    // the number that the bits given stand for
    prefix: u128,
}

impl Model for NumberField {
    ghost Value = { BegunField };

    ghost view = { λ s. record { numbers = s.numbers; width = s.width; given = bits (s.width - s.left) s.prefix } };

    ghost invariant = { λ s. (s.left ≤ s.width) × (s.width ≤ 72) × (s.prefix < 2 ^ (s.width - s.left)) };
}

impl NumberField {
    /// A number of the set in `k` bits, of which none is given.
    pub fn new(k: u32, numbers: Intervals) -> NumberField
        requires { k ≤ 72 }
        ensures { result ≡ record { numbers = numbers; width = k; given = [] } }
    {
        NumberField {
            numbers,
            width: k,
            left: k,
            prefix: 0,
        }
    }

    /// Takes the next bit, where one is left, and says what is known of the number. Bits after
    /// those that made it dead leave it dead.
    pub fn bit(&mut self, bit: bool) -> FieldState
        requires { length self.old.given < self.old.width }
        ensures given { self.new ≡ record {
          numbers = self.old.numbers;
          width = self.old.width;
          given = self.old.given ++ bit_of bit ∷ [];
        } }
        ensures state { Tells self.new result }
    {
        self.prefix = 2 * self.prefix + u128::from(bit);
        self.left -= 1;
        if !self.numbers.meets(self.prefix, self.left) {
            FieldState::Dead
        } else if self.left == 0 {
            FieldState::Number(self.prefix)
        } else {
            FieldState::Alive
        }
    }
}

/// The number in the next `k` bits, where it is one of the set. `None` exactly where fewer bits are
/// left or their number is none of the set, and then all of them stay.
pub fn try_number_of(numbers: &Intervals, k: u32, bits: &mut BitCursor<'_>) -> Option<u128>
    requires { k ≤ 72 }
    ensures some { IfSome result (λ n. StandsFirst k (λ m. Among numbers.now m) n bits.old bits.new) }
    ensures none { IsNone result → (n : ℕ) (rest : List ℕ) →
        StandsFirst k (λ m. Among numbers.now m) n bits.old rest → ⊥ }
    ensures unchanged { IsNone result → bits.new ≡ bits.old }
{
    let before = bits.copied();
    if let Some(n) = take_wide_number(k, bits) {
        if numbers.has(n) {
            return Some(n);
        }
    }
    *bits = before;
    None
}

/// The number in the next `k` bits, the highest first. `None` exactly where fewer bits are left, and then some of them
/// may be taken.
fn take_wide_number(k: u32, units: &mut BitCursor<'_>) -> Option<u128>
    requires { k ≤ 72 }
    ensures fits { IfSome result (λ n. n < 2 ^ k) }
    ensures some { IfSome result (λ n. units.old ≡ bits k n ++ units.new) }
    ensures none { IsNone result ↔ (length units.old < k) }
{
    if k <= 64 {
        let n = units.take_number(k)?;
        return Some(u128::from(n));
    }
    let front = units.take_number(k - 64)?;
    let rest = units.take_number(64)?;
    Some(joined(front, rest))
}

/// The number that `front` is with the 64 bits of `rest` after it.
fn joined(front: u64, rest: u64) -> u128
    ensures { result ≡ front * 2 ^ 64 + rest }
{
    u128::from(front) << 64 | u128::from(rest)
}
