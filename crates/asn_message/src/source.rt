//! Values in slots as a source: their parts, one after the other.
ghost use Rattle.std.specs.Prelude.{◌≡◌, ◌↔◌, [], ℕ, List, Option, IsTrue, true, false, drop, option_map};
ghost use Rattle.std.specs.Iterator.{YieldsFirstBy};
ghost use Rattle.asn_values.specs.Datum.{Datum};
ghost use Rattle.asn_source.specs.Parts.{HasParts, first_entry};
ghost use Rattle.asn_message.specs.Leaves.{leaf_at};
ghost use Rattle.asn_message.specs.Rows.{row_value, left_entries};
ghost use Rattle.asn_message.specs.Slots.{value_at};
ghost use Rattle.asn_message.specs.Sources.{slot_entries, slot_elements};

use crate::leafed::{Leafed, SlotElements, SlotEntries};
use crate::left::{Left, first_entries, next_entry, next_value};
use crate::slots::Content;
use asn_source::Source;
use asn_values::Value;

/// Whether a slot of this content has no parts.
#[inline(always)]
fn is_leaf(content: Content) -> bool
    ensures leaf { result ≡ true → (os : List ℕ) (es : List (Option Datum))
        → leaf_at os content ≡ value_at os content es }
    ensures parts { result ≡ false → (os : List ℕ) (es : List (Option Datum)) → HasParts (value_at os content es) }
{
    !matches!(
        content,
        Content::Sequence { .. } | Content::List(_) | Content::Choice(_)
    )
}

/// Whether no entry is left.
#[inline(always)]
fn is_done(left: Left<'_>) -> bool
    ensures { IsTrue result ↔ (left_entries left.entry ≡ []) }
{
    left.count == 0 || left.absent == 0 && left.row.slots.is_empty()
}

/// Whether there is no entry.
#[inline(always)]
fn is_empty(entries: SlotEntries<'_>) -> bool
    ensures { IsTrue result ↔ (slot_entries entries.entry ≡ []) }
{
    entries.most == 0 || entries.after == 0 && is_done(left_of(entries))
}

/// The entries that are left in slots.
#[inline(always)]
fn left_of<'a>(entries: SlotEntries<'a>) -> Left<'a>
    ensures row { result.row ≡ entries.entry.first.row }
    ensures count { result.count ≡ entries.entry.count }
    ensures absent { result.absent ≡ entries.entry.before }
{
    Left {
        row: entries.first.row,
        count: entries.count,
        absent: entries.before,
    }
}

/// Takes the first entry, and gives its value if it is present.
fn take_entry<'a>(entries: &mut SlotEntries<'a>) -> Option<Leafed<'a>>
    ensures first { option_map (λ p. row_value p.row) result ≡ first_entry (slot_entries entries.old) }
    ensures others { slot_entries entries.new ≡ drop 1 (slot_entries entries.old) }
{
    let before = *entries;
    if before.most == 0 {
        return None;
    }
    let left = left_of(before);
    if is_done(left) {
        *entries = SlotEntries {
            first: before.first,
            count: before.count,
            before: before.before,
            after: before.after.saturating_sub(1),
            most: before.most - 1,
        };
        return None;
    }
    let (row, others) = next_entry(left);
    *entries = SlotEntries {
        first: before.first.at(others.row),
        count: others.count,
        before: others.absent,
        after: before.after,
        most: before.most - 1,
    };
    match row {
        Some(_) => Some(before.first),
        None => None,
    }
}

/// The entries one after the other.
#[derive(Drop)]
pub(crate) struct SlotEach<'a>(SlotEntries<'a>);

impl<'a> Iterator for SlotEach<'a> {
    type Item = Option<Leafed<'a>>;

    ghost next_gives = { YieldsFirstBy (option_map (λ p. row_value p.row)) (λ it. slot_entries it.0) };

    fn next(&mut self) -> Option<Option<Leafed<'a>>> {
        if is_empty(self.0) {
            return None;
        }
        let entry = take_entry(&mut self.0);
        Some(entry)
    }
}

impl<'a> Source for Leafed<'a> {
    type Entries = SlotEntries<'a>;

    type Elements = SlotElements<'a>;

    type Each = SlotEach<'a>;

    ghost datum = { λ p. row_value p.row };

    ghost entries_left = { slot_entries };

    ghost each_left = { λ it. slot_entries it.0 };

    ghost elements_left = { slot_elements };

    fn leaf(&self) -> Option<&Value> {
        match self.row.content() {
            Some(content) => {
                if is_leaf(content) {
                    Some(&self.leaves[0])
                } else {
                    None
                }
            }
            None => Some(&self.leaves[0]),
        }
    }

    fn entries(self) -> Option<SlotEntries<'a>> {
        match self.row.content() {
            Some(Content::Sequence { taken, absent }) => {
                let inside = first_entries(self.row.inside(), taken);
                Some(SlotEntries {
                    first: self.at(inside.row),
                    count: inside.count,
                    before: inside.absent,
                    after: absent,
                    most: taken as usize + absent as usize,
                })
            }
            _ => None,
        }
    }

    fn count_entries(entries: SlotEntries<'a>) -> usize {
        let mut left = entries;
        let mut count = 0;
        while !is_empty(left) {
            let _ = Self::next_entry(&mut left);
            count += 1;
        }
        count
    }

    fn split_entries(entries: SlotEntries<'a>, count: usize) -> (SlotEntries<'a>, SlotEntries<'a>) {
        let mut others = entries;
        for passed in 0..count {
            let _ = Self::next_entry(&mut others);
        }
        let mut first = entries;
        first.most = entries.most.min(count);
        (first, others)
    }

    fn is_any_present(entries: SlotEntries<'a>) -> bool {
        let mut left = entries;
        while !is_empty(left) {
            if Self::next_entry(&mut left).is_some() {
                return true;
            }
        }
        false
    }

    fn each(entries: SlotEntries<'a>) -> SlotEach<'a> {
        SlotEach(entries)
    }

    fn next_entry(entries: &mut SlotEntries<'a>) -> Option<Leafed<'a>> {
        take_entry(entries)
    }

    fn elements(self) -> Option<SlotElements<'a>> {
        match self.row.content() {
            Some(Content::List(count)) => {
                let inside = first_entries(self.row.inside(), count);
                Some(SlotElements {
                    first: self.at(inside.row),
                    count: inside.count,
                    before: inside.absent,
                    most: count as usize,
                })
            }
            _ => None,
        }
    }

    fn count_elements(elements: SlotElements<'a>) -> usize {
        let mut left = elements;
        let mut count = 0;
        while let Some(element) = Self::next_element(&mut left) {
            count += 1;
        }
        count
    }

    fn split_elements(
        elements: SlotElements<'a>,
        count: usize,
    ) -> (SlotElements<'a>, SlotElements<'a>) {
        let mut others = elements;
        for passed in 0..count {
            let _ = Self::next_element(&mut others);
        }
        let mut first = elements;
        first.most = elements.most.min(count);
        (first, others)
    }

    fn next_element(elements: &mut SlotElements<'a>) -> Option<Leafed<'a>> {
        let before = *elements;
        if before.most == 0 {
            return None;
        }
        let (row, others) = next_value(Left {
            row: before.first.row,
            count: before.count,
            absent: before.before,
        });
        let _ = row?;
        *elements = SlotElements {
            first: before.first.at(others.row),
            count: others.count,
            before: others.absent,
            most: before.most - 1,
        };
        Some(before.first)
    }

    fn chosen(self) -> Option<(u32, Leafed<'a>)> {
        match self.row.content() {
            Some(Content::Choice(tag)) => Some((tag, self.at(self.row.chosen()))),
            _ => None,
        }
    }

    ghost each_gives = { λ s r t gave. gave };
}
