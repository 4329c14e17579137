//! What a plan reads by OER: values by what was worked out of their types once, from octets that were taken at once.
ghost use Rattle.std.specs.Prelude.{◌≡◌, ◌*◌, ◌≤◌, ◌<◌, ◌+◌, ◌++◌, ◌%◌, ◌^◌, None, IfSome, IsNone, IsSome};
ghost use Rattle.asn_bits.specs.Numbers.{bits};
ghost use Rattle.asn_rules.specs.Listed.{Spelt};
ghost use Rattle.asn_rules.specs.OctetReading.{ReadsOctets};
ghost use Rattle.asn_plan.specs.Ranged.{ranged, IsRanged};
ghost use Rattle.asn_oer.specs.Parts.{oer_parts};
ghost use Rattle.asn_oer.specs.Words.{number, AtOctet, IsOfProfile, oer};

use crate::enumerated::{number_ahead, take_item};
use crate::rules::Oer;
use asn_bits::BitCursor;
use asn_bits::internal::at_offset;
use asn_plan::internal::{MOST_OCTETS, take_bits, take_told};
use asn_plan::{BitFields, Enumeration, FixedString, PlanLeaves, PlanRules, Ranged, Run, Word};
use asn_rules::internal::{offsets_of, try_counted_signed};
use asn_values::AsnType;
use asn_values::profile::LOWEST_INTEGER;
use asn_walk::{Preamble, ReadLeaves};

#[tactic(auto, unfolding(crate::specs::Walk::oer_coding, crate::specs::Rules::oer_ruling))]
impl PlanLeaves for Oer {
    fn keep_nothing() {}

    #[inline(always)]
    fn take_word(run: Run, units: &mut BitCursor<'_>) -> Word {
        if run.octets > MOST_OCTETS {
            return Word::none();
        }
        take_bits(8 * run.octets, units)
    }

    /// The zeros after the bits fill up the last octet.
    #[inline(always)]
    fn next_preamble(
        count: u32,
        mask: u64,
        additions: Option<usize>,
        word: &mut Word,
    ) -> Option<Preamble> {
        let Some(listed) = additions else {
            let alone = word.take_below(count, mask)?;
            next_zeros((8 - count % 8) % 8, word)?;
            return Some(Preamble {
                extended: false,
                bitmap: alone,
            });
        };
        let mark = word.take(1)?;
        if mark > 0 && listed == 0 {
            return None;
        }
        let bitmap = word.take_below(count, mask)?;
        next_zeros(7 - count % 8, word)?;
        Some(Preamble {
            extended: mark > 0,
            bitmap,
        })
    }

    #[inline(always)]
    fn next_ranged(range: &Ranged, word: &mut Word) -> Option<i128> {
        if range.octets == 0 || range.octets > MOST_OCTETS {
            return None;
        }
        let octets = word.take_below(8 * range.octets, range.octet_mask)?;
        let offset = offset_from(range.least, octets, range.octets, range.octet_mask);
        if offset > range.highest {
            return None;
        }
        Some(at_offset(range.low, offset))
    }

    #[inline(always)]
    fn next_truth(word: &mut Word) -> Option<bool> {
        match word.take(8)? {
            0 => Some(false),
            255 => Some(true),
            _ => None,
        }
    }

    #[inline(always)]
    fn next_item(items: &Enumeration, word: &mut Word) -> Option<u32> {
        if items.octets == 0 {
            return None;
        }
        let octet = word.take(8)?;
        let position = octet.checked_sub(items.first)?;
        let last = u64::from(items.highest);
        if position > last {
            return None;
        }
        Some(position as u32)
    }

    fn try_item(items: &Enumeration, units: &mut BitCursor<'_>) -> Option<u32> {
        let AsnType::Enum { root, ext } = &items.ty else {
            return None;
        };
        let number = number_ahead(units)?;
        let position = items.position_of_number(number);
        if take_item(root, ext, position, units) {
            Some(position)
        } else {
            None
        }
    }

    #[inline(always)]
    fn try_ranged(range: &Ranged, units: &mut BitCursor<'_>) -> Option<i128> {
        if range.octets == 0 || range.octets > MOST_OCTETS {
            return try_apart(range, units);
        }
        let start = units.copied();
        let run = Run {
            bits: 0,
            octets: range.octets,
        };
        let mut word = Oer::take_word(run, units);
        if let Some(integer) = Oer::next_ranged(range, &mut word)
            && word.is_empty()
        {
            return Some(integer);
        }
        *units = start;
        None
    }

    #[inline(always)]
    fn next_string(fixed: &FixedString, word: &mut Word) -> Option<u64> {
        let head = word.take(fixed.head_bits)?;
        let number = word.take(fixed.own_bits)?;
        let unused = word.take(fixed.unused)?;
        if head != fixed.head || unused > 0 {
            return None;
        }
        Some(number)
    }

    #[inline(always)]
    fn enter_open(units: &mut BitCursor<'_>) -> Option<u32> {
        let octets = units.peek_octet()?;
        if octets > 127 {
            return None;
        }
        units.pass(8);
        Some(octets as u32)
    }

    #[inline(always)]
    fn leave_open(octets: u32, taken: u128, _units: &mut BitCursor<'_>) -> bool {
        taken == u128::from(octets)
    }

    #[inline(always)]
    fn try_index(fields: &BitFields, units: &mut BitCursor<'_>) -> Option<u32> {
        let Some(indexes) = &fields.in_octets else {
            return None;
        };
        take_told(indexes, units)
    }

    #[inline(always)]
    fn try_count(fields: &BitFields, units: &mut BitCursor<'_>) -> Option<u32> {
        let Some(counts) = &fields.in_octets else {
            return None;
        };
        take_told(counts, units)
    }
}

impl PlanRules for Oer {
    ghost same_ruling = { oer_parts };
}

/// Takes this many zeros; `None` where other bits stand there, or fewer.
#[inline(always)]
fn next_zeros(count: u32, word: &mut Word) -> Option<()>
    ensures { IsSome result → bits word.old.left word.old.bits ≡ bits count 0 ++ bits word.new.left word.new.bits }
{
    let number = word.take(count)?;
    if number > 0 {
        return None;
    }
    Some(())
}

/// Reads an INTEGER by OER whose octets are more than are taken at once, or not as many for all its numbers; one with an
/// extension mark is spelt as one without bounds. `None`, with the cursor where it was, if it is not complete.
#[inline(never)]
#[tactic(auto, unfolding(crate::specs::Walk::oer_coding, crate::specs::Rules::oer_ruling))]
fn try_apart(range: &Ranged, units: &mut BitCursor<'_>) -> Option<i128>
    requires at_octet { AtOctet units.old }
    requires ranged { IsRanged range.now }
    ensures at_octet { AtOctet units.new }
    ensures some { IfSome result (λ z.
        ReadsOctets (Spelt oer None (ranged range.now)) (number z) units.old units.new) }
    ensures of_integers { IfSome result IsOfProfile }
    ensures none { IsNone result → units.new ≡ units.old }
{
    if !range.marked {
        return Oer::try_between(range.low, range.high, units);
    }
    let offset = try_counted_signed(offsets_of(None, None, None), units)?;
    Some(at_offset(LOWEST_INTEGER, offset))
}

/// How far an integer lies above the low bound, of which `count` octets hold `octets` and `least`, where it is no lower;
/// `mask` is the highest number of this many octets.
#[inline(always)]
fn offset_from(least: u64, octets: u64, count: u32, mask: u64) -> u64
    requires some { 1 ≤ count }
    requires few { count ≤ 8 }
    requires mask { mask + 1 ≡ 2 ^ (8 * count) }
    requires least { least < 256 ^ count }
    requires octets { octets < 256 ^ count }
    ensures { (least + result) % 256 ^ count ≡ octets }
{
    octets.wrapping_sub(least) & mask
}
