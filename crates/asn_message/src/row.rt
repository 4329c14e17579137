//! Slots one after the other, and what is left of them.
ghost use Rattle.std.specs.Prelude.{[]};
ghost use Rattle.asn_message.specs.Slots.{AreNested};
ghost use Rattle.asn_message.specs.DataSets.{nested_prop};

use crate::slots::{Content, Slot};

/// Slots, of which the first is that of a value, and the octets of the strings in them.
#[derive(Clone, Copy)]
pub(crate) struct Row<'a> {
    pub(crate) slots: &'a [Slot],
    pub(crate) octets: &'a [u8],
    ghost nested: { AreNested octets.now [] slots.now } by { nested_prop octets.now [] slots.now },
}

impl<'a> Row<'a> {
    ghost use Rattle.std.specs.Prelude.{◌≡◌, ◌++◌, ℕ, IfSome, IfNone, drop};
    ghost use Rattle.asn_values.specs.Datum.{nothing};
    ghost use Rattle.asn_plan.specs.Plans.{absents};
    ghost use Rattle.asn_message.specs.Slots.{entries_after, entries_from, entries_in, first_of, value_at, value_in, IsCounted};

    /// What the first slot is of.
    #[inline(always)]
    pub(crate) fn content(&self) -> Option<Content>
        ensures some { IfSome result (λ c. value_in self.now.octets.now self.now.slots.now
            ≡ value_at self.now.octets.now c (entries_in self.now.octets.now (drop 1 self.now.slots.now) [])) }
        ensures counted { IfSome result (λ c.
            IsCounted c (entries_in self.now.octets.now (drop 1 self.now.slots.now) [])) }
        ensures none { IfNone result (self.now.slots.now ≡ []) }
    {
        let (slot, _) = self.slots.split_first()?;
        Some(slot.content)
    }

    /// The slots after the first one: first those of the values inside it.
    #[inline(always)]
    pub(crate) fn inside(&self) -> Row<'a>
        ensures slots { result.slots.now ≡ drop 1 self.now.slots.now }
        ensures octets { result.octets.now ≡ self.now.octets.now }
    {
        match self.slots.split_first() {
            Some((_, others)) => Row {
                slots: others,
                octets: self.octets,
            },
            None => *self,
        }
    }

    /// The slots after those of the first value.
    #[inline(always)]
    pub(crate) fn after(&self) -> Row<'a>
        ensures entries { entries_in result.octets.now result.slots.now []
            ≡ entries_after self.now.octets.now self.now.slots.now }
        ensures last { (n : ℕ) × (result.slots.now ≡ drop n self.now.slots.now) }
        ensures octets { result.octets.now ≡ self.now.octets.now }
    {
        let Some((slot, others)) = self.slots.split_first() else {
            return *self;
        };
        Row {
            slots: &others[slot.inside as usize..],
            octets: self.octets,
        }
    }

    /// How many components are absent before the first value.
    #[inline(always)]
    pub(crate) fn absent_before(&self) -> u32
        ensures { entries_in self.now.octets.now self.now.slots.now []
            ≡ absents result ++ entries_from self.now.octets.now self.now.slots.now }
    {
        match self.slots.split_first() {
            Some((slot, _)) => slot.absent_before,
            None => 0,
        }
    }

    /// The value inside a CHOICE, of which the first slot is.
    #[inline(always)]
    pub(crate) fn chosen(&self) -> Row<'a>
        ensures value { value_in result.octets.now result.slots.now
            ≡ first_of (entries_in self.now.octets.now (drop 1 self.now.slots.now) []) }
        ensures last { (n : ℕ) × (result.slots.now ≡ drop n self.now.slots.now) }
        ensures octets { result.octets.now ≡ self.now.octets.now }
    {
        let inside = self.inside();
        if inside.absent_before() == 0 {
            return inside;
        }
        Row {
            slots: &[],
            octets: self.octets,
        }
    }
}
