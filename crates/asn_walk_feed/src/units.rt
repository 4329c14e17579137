//! The units of a piece of a message, each of which is counted as it is taken.
ghost use Rattle.std.specs.Prelude.{◌≡◌, ◌∷◌, ◌++◌, ◌+◌, ◌-◌, ◌%◌, ◌<◌, ◌≤◌, ◌^◌, ◌↔◌, [], ℕ, IfNone, IfOk, IfSome, IsTrue, List, length, min};
ghost use Rattle.asn_bits.specs.Numbers.{bits, unpacked};
ghost use Rattle.asn_walk_feed.specs.Counts.{count_of};
ghost use Rattle.asn_walk_feed.specs.Feeding.{Ticked};
ghost use Rattle.asn_walk_feed.specs.Octets.{TakesRow};

use crate::in_fragments::InFragments;
use crate::leaf::FeedLeaves;
use asn_bits::BitCursor;
use std::alloc::AllocError;
use std::marker::Model;

/// How many units were taken, bits in PER and octets in OER: one more with each unit that a level of a message takes. The
/// first level is the message; the content of a sealed field is a level of its own.
#[derive(Debug, Drop)]
pub struct Ticks {
    // those of the level that is read
    taken: u64,
    // those of the levels inside it, at most `u64::MAX`
    inside: u64,
}

impl Ticks {
    /// No unit was taken.
    pub fn none() -> Ticks
        ensures taken { result.taken ≡ 0 }
        ensures inside { result.inside ≡ 0 }
    {
        Ticks {
            taken: 0,
            inside: 0,
        }
    }

    /// How many units were taken, at all levels together; at most `u64::MAX`.
    pub fn count(&self) -> u64
        ensures count { result ≡ count_of self.now }
        ensures least { self.now.taken ≤ result }
        ensures most { result ≤ self.now.taken + self.now.inside }
    {
        self.taken.saturating_add(self.inside)
    }

    /// This many further units are taken, by a reader that does not take them through `Units`.
    pub fn add(&mut self, units: u64)
        requires { self.old.taken + units < 2 ^ 64 }
        ensures taken { self.new.taken ≡ self.old.taken + units }
        ensures inside { self.new.inside ≡ self.old.inside }
    {
        self.taken += units;
    }

    /// The units of a level inside are taken.
    pub(crate) fn add_inside(&mut self, level: &Ticks)
        ensures taken { self.new.taken ≡ self.old.taken }
        ensures inside { self.new.inside
            ≡ min (self.old.inside + (level.now.taken + level.now.inside)) (2 ^ 64 - 1) }
    {
        self.inside = self.inside.saturating_add(level.count());
    }
}

/// The units of octets that are left to take. Contracts see their bits.
#[derive(Drop)]
pub struct Units<'a> {
    cursor: BitCursor<'a>,
}

impl<'a> Model for Units<'a> {
    ghost Value = { List ℕ };

    ghost view = { λ s. s.cursor };
}

impl<'a> Units<'a> {
    /// All units of the octets.
    pub fn over(octets: &'a [u8]) -> Units<'a>
        ensures { result ≡ unpacked octets.now }
    {
        Units {
            cursor: BitCursor::over(octets),
        }
    }

    /// A cursor over the units that are left, to look ahead: it takes none.
    pub fn ahead(&self) -> BitCursor<'a>
        ensures { result ≡ self.now }
    {
        self.cursor.copied()
    }

    /// Whether no unit is left.
    pub(crate) fn is_empty(&self) -> bool
        ensures { IsTrue result ↔ (self.now ≡ []) }
    {
        self.cursor.is_empty()
    }

    /// The next bit, 0 or 1: the unit of PER. It is taken, with a tick. `None` where no bit is left, and no tick then.
    pub fn bit(&mut self, ticks: &mut Ticks) -> Option<u8>
        requires { ticks.old.taken + 1 < 2 ^ 64 }
        ensures some { IfSome result (λ bit. self.old ≡ bit ∷ self.new) }
        ensures bit { IfSome result (λ bit. bit < 2) }
        ensures tick { IfSome result (λ bit. ticks.new.taken ≡ ticks.old.taken + 1) }
        ensures none { IfNone result ((self.old ≡ []) × (self.new ≡ [])) }
        ensures no_tick { IfNone result (ticks.new.taken ≡ ticks.old.taken) }
        ensures inside { ticks.new.inside ≡ ticks.old.inside }
    {
        let bit = self.cursor.next()?;
        ticks.add(1);
        Some(bit)
    }

    /// The next octet: the unit of OER, asked for where whole octets are left. It is taken, with a tick. `None` where no
    /// octet is left, and no tick then.
    pub fn octet(&mut self, ticks: &mut Ticks) -> Option<u8>
        requires few { ticks.old.taken + 1 < 2 ^ 64 }
        requires whole { length self.old % 8 ≡ 0 }
        ensures some { IfSome result (λ octet. self.old ≡ bits 8 octet ++ self.new) }
        ensures tick { IfSome result (λ octet. ticks.new.taken ≡ ticks.old.taken + 1) }
        ensures none { IfNone result ((self.old ≡ []) × (self.new ≡ [])) }
        ensures no_tick { IfNone result (ticks.new.taken ≡ ticks.old.taken) }
        ensures inside { ticks.new.inside ≡ ticks.old.inside }
    {
        let octet = self.cursor.take_number(8)?;
        ticks.add(1);
        Some(octet as u8)
    }

    /// Takes the units up to where the cursor stands, which are this many, a tick each.
    pub(crate) fn take_to(&mut self, ahead: BitCursor<'a>, units: u64, ticks: &mut Ticks)
        requires { ticks.old.taken + units < 2 ^ 64 }
        ensures left { self.new ≡ ahead.entry }
        ensures tick { ticks.new.taken ≡ ticks.old.taken + units }
        ensures inside { ticks.new.inside ≡ ticks.old.inside }
    {
        self.cursor = ahead;
        ticks.add(units);
    }

    /// Takes octets that have come whole, as `InFragments::take_row` does, a tick for each of their units.
    ///
    /// # Errors
    /// `AllocError` where an allocation failed, and then no unit is taken.
    pub(crate) fn take_row<R: FeedLeaves, K: InFragments<R>>(
        &mut self,
        kind: &K,
        most: usize,
        into: &mut Vec<u8>,
        ticks: &mut Ticks,
    ) -> Result<usize, AllocError>
        requires good { K.good kind.now }
        requires at_unit { R.rules.at_unit self.old }
        requires room { ticks.old.taken + length (R.rules.to_units self.old) < 2 ^ 64 }
        ensures at_unit { R.rules.at_unit self.new }
        ensures few { IfOk result (λ n. n ≤ most) }
        ensures done { IfOk result (λ n. TakesRow R.rules (K.coding kind.now).octet n
            into.old.items into.new.items self.old self.new) }
        ensures shorter { length (R.rules.to_units self.new) ≤ length (R.rules.to_units self.old) }
        ensures ticked { Ticked R.rules self.old ticks.old.taken self.new ticks.new.taken }
        ensures rising { ticks.old.taken ≤ ticks.new.taken }
        ensures inside { ticks.new.inside ≡ ticks.old.inside }
    {
        let before = self.cursor.copied();
        match kind.take_row(most, into, &mut self.cursor) {
            Ok(count) => {
                let taken = R::units_left(&before) - R::units_left(&self.cursor);
                ticks.add(taken as u64);
                Ok(count)
            }
            Err(fault) => {
                self.cursor = before;
                Err(fault)
            }
        }
    }
}
