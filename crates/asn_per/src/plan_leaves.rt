//! What a plan reads by PER: values by what was worked out of their types once, from bits that were taken at once.
ghost use Rattle.std.specs.Prelude.{◌≡◌, ◌≤◌};
ghost use Rattle.asn_bits.specs.Numbers.{bits};
ghost use Rattle.asn_per.specs.Parts.{per_parts};
ghost use Rattle.asn_per.specs.Per.{filling};

use crate::rules::Per;
use asn_bits::BitCursor;
use asn_bits::internal::at_offset;
use asn_plan::internal::{take_bits, take_told};
use asn_plan::{BitFields, Enumeration, FixedString, PlanLeaves, PlanRules, Ranged, Run, Word};
use asn_rules::internal::{NumberSet, try_number};
use asn_walk::Preamble;

#[tactic(auto, unfolding(crate::specs::Walk::per_coding, crate::specs::Rules::per_ruling))]
impl PlanLeaves for Per {
    fn keep_nothing() {}

    #[inline(always)]
    fn single_is_empty() -> bool {
        true
    }

    #[inline(always)]
    fn spells_indexes() -> bool {
        true
    }

    #[inline(always)]
    fn take_word(run: Run, units: &mut BitCursor<'_>) -> Word {
        take_bits(run.bits, units)
    }

    #[inline(always)]
    fn next_preamble(
        count: u32,
        mask: u64,
        additions: Option<usize>,
        word: &mut Word,
    ) -> Option<Preamble> {
        let Some(listed) = additions else {
            let alone = word.take_below(count, mask)?;
            return Some(Preamble {
                extended: false,
                bitmap: alone,
            });
        };
        let mark = word.take(1)?;
        if mark > 0 && listed == 0 {
            return None;
        }
        let bitmap = word.take_below(count, mask)?;
        Some(Preamble {
            extended: mark > 0,
            bitmap,
        })
    }

    #[inline(always)]
    fn next_ranged(range: &Ranged, word: &mut Word) -> Option<i128> {
        let offset = word.take_below(range.bits, range.mask)?;
        if offset > range.highest {
            return None;
        }
        Some(at_offset(range.low, offset))
    }

    #[inline(always)]
    fn next_truth(word: &mut Word) -> Option<bool> {
        let bit = word.take(1)?;
        Some(bit > 0)
    }

    #[inline(always)]
    fn next_item(items: &Enumeration, word: &mut Word) -> Option<u32> {
        let index = word.take_below(items.bits, items.mask)?;
        if index >= u64::from(items.order.in_place) {
            return items.sorted_position(index);
        }
        Some(index as u32)
    }

    /// The extension bit, where there is a mark, is read as the highest bit of the number: so it is 0.
    #[inline(always)]
    fn next_string(fixed: &FixedString, word: &mut Word) -> Option<u64> {
        let number = word.take(fixed.bits)?;
        if number > fixed.highest {
            return None;
        }
        Some(number)
    }

    #[inline(always)]
    fn enter_open(units: &mut BitCursor<'_>) -> Option<u32> {
        let octets = units.peek_number(8)?;
        if octets == 0 || octets > 127 {
            return None;
        }
        units.pass(8);
        Some(octets as u32)
    }

    #[inline(always)]
    fn leave_open(octets: u32, taken: u128, units: &mut BitCursor<'_>) -> bool {
        let all = 8 * u128::from(octets);
        let zeros = zeros_after(taken);
        if taken > all || all - taken != u128::from(zeros) {
            return false;
        }
        let Some(0) = units.peek_short_number(zeros) else {
            return false;
        };
        units.pass(zeros);
        true
    }

    /// The extension bit, where there is a mark, is read as the highest bit of the offset: so it is 0.
    #[inline(always)]
    fn try_ranged(range: &Ranged, units: &mut BitCursor<'_>) -> Option<i128> {
        let offsets = NumberSet {
            low: 0,
            high: range.highest,
            excluded: None,
        };
        let offset = try_number(range.bits, offsets, units)?;
        Some(at_offset(range.low, offset))
    }

    #[inline(always)]
    fn try_index(fields: &BitFields, units: &mut BitCursor<'_>) -> Option<u32> {
        let Some(indexes) = &fields.in_bits else {
            return None;
        };
        take_told(indexes, units)
    }

    #[inline(always)]
    fn try_count(fields: &BitFields, units: &mut BitCursor<'_>) -> Option<u32> {
        let Some(counts) = &fields.in_bits else {
            return None;
        };
        take_told(counts, units)
    }
}

impl PlanRules for Per {
    ghost same_ruling = { per_parts };
}

/// How many zeros fill up a value of `taken` bits to whole octets, one at least (X.691, "complete encoding").
#[inline(always)]
fn zeros_after(taken: u128) -> u32
    ensures few { result ≤ 8 }
    ensures filled { filling taken ≡ bits result 0 }
{
    if taken == 0 {
        return 8;
    }
    (8 - (taken % 8) as u32) % 8
}
