//! What Canonical OER reads by itself: the simple types, and the parts of the composite ones.
ghost use Rattle.std.specs.Prelude.{◌≡◌, ℕ, OnOk, ⊤};
ghost use Rattle.asn_oer.specs.Words.{truth, Among, Meets, AtOctet, BooleansBut, TruthOctet, Reads, StopsIn, ahead_of, oer_coding, mark_of};

use crate::enumerated::read_item;
use crate::integer::{read_integer, try_fixed};
use crate::rules::Oer;
use crate::string_reader::{read_bit_string, read_octet_string, read_text, read_utf8_string};
use crate::tags::read_tag;
use crate::truths::try_other;
use asn_bits::internal::at_offset;
use asn_bits::{BitCursor, Intervals};
use asn_rules::internal::{
    self, Stop, numbers, offsets_of, read_counted, read_filled, read_length, read_octets,
    read_octets_among, read_octets_with_length, try_counted_signed,
};
use asn_rules::{MAX_OCTETS, Why};
use asn_values::profile::LOWEST_INTEGER;
use asn_values::{AsnType, Size, Value};
use asn_walk::octets::{try_item, try_truth};
use asn_walk::sizes::{counts_of, try_sized_octets};
use asn_walk::{Index, Preamble, ReadLeaves};
use std::alloc::Global;

#[tactic(auto, unfolding(crate::specs::Walk::oer_coding, crate::specs::Rules::oer_ruling))]
impl ReadLeaves for Oer {
    ghost rules = { oer_coding };

    type Fragments = Option<usize>;

    ghost ahead = { ahead_of };

    ghost is_between = { λ e. ⊤ };

    fn units_left(units: &BitCursor<'_>) -> u128 {
        internal::octets_left(units) as u128
    }

    fn octets_left(units: &BitCursor<'_>) -> usize {
        internal::octets_left(units)
    }

    #[inline(always)]
    fn read_simple(alloc: Global, ty: &AsnType, units: &mut BitCursor<'_>) -> Result<Value, Stop> {
        match ty {
            AsnType::Bool => Ok(Value::Bool(read_boolean(None, units)?)),
            AsnType::Null => Ok(Value::Null),
            AsnType::Int(bounds) => Ok(Value::Int(read_integer(bounds, None, units)?)),
            AsnType::Enum { root, ext } => Ok(Value::Enum(read_item(root, ext, None, units)?)),
            AsnType::Bits(size) => Ok(Value::Bits(read_bit_string(alloc, size, units)?)),
            AsnType::Octets(size) => Ok(Value::Octets(read_octet_string(alloc, size, units)?)),
            AsnType::Text(kind, size) => Ok(Value::Text(read_text(alloc, *kind, size, units)?)),
            AsnType::Utf8 => Ok(Value::Utf8(read_utf8_string(alloc, units)?)),
            AsnType::Seq { .. } | AsnType::SeqOf(..) | AsnType::Choice { .. } => unreachable!(),
        }
    }

    fn read_other(ty: &AsnType, default: &Value, units: &mut BitCursor<'_>) -> Result<Value, Stop> {
        match (ty, default) {
            (AsnType::Bool, Value::Bool(truth)) => {
                if try_other(*truth, units) {
                    return Ok(Value::Bool(!*truth));
                }
                Ok(Value::Bool(read_boolean(Some(*truth), units)?))
            }
            (AsnType::Int(bounds), Value::Int(number)) => {
                Ok(Value::Int(read_integer(bounds, Some(*number), units)?))
            }
            (AsnType::Enum { root, ext }, Value::Enum(position)) => {
                Ok(Value::Enum(read_item(root, ext, Some(*position), units)?))
            }
            _ => unreachable!(),
        }
    }

    #[inline(always)]
    fn try_between(low: i128, high: i128, units: &mut BitCursor<'_>) -> Option<i128> {
        try_fixed(low, high, units)
    }

    #[inline(always)]
    fn try_simple(alloc: Global, ty: &AsnType, units: &mut BitCursor<'_>) -> Option<Value> {
        match ty {
            AsnType::Bool => Some(Value::Bool(try_truth(units)?)),
            AsnType::Int(bounds) => match (bounds.low, bounds.high) {
                (Some(low), Some(high)) if !bounds.ext => {
                    Some(Value::Int(try_fixed(low, high, units)?))
                }
                _ if bounds.ext => {
                    let offset = try_counted_signed(offsets_of(None, None, None), units)?;
                    Some(Value::Int(at_offset(LOWEST_INTEGER, offset)))
                }
                _ => None,
            },
            AsnType::Enum { root, ext } => Some(Value::Enum(try_item(root, ext, units)?)),
            AsnType::Octets(size) => Some(Value::Octets(try_sized_octets(alloc, size, units)?)),
            _ => None,
        }
    }

    #[inline(always)]
    fn read_preamble(
        count: u32,
        additions: Option<usize>,
        units: &mut BitCursor<'_>,
    ) -> Result<Preamble, Stop> {
        let (marks, most) = marks(additions);
        let (mark, bitmap) = read_filled(marks, most, count, 0, Why::Padding, units)?;
        Ok(Preamble {
            extended: 0 < mark,
            bitmap,
        })
    }

    #[inline(always)]
    fn read_addition_bitmap(count: u32, units: &mut BitCursor<'_>) -> Result<u64, Stop> {
        // a BIT STRING with its length and the count of its unused bits
        let length = u64::from((count + 7) / 8 + 1);
        let unused = u64::from((8 - count % 8) % 8);
        read_length(length, length, units)?;
        read_octets(1, numbers(unused, unused), Why::Extension, units)?;
        let (_, bitmap) = read_filled(0, 0, count, 1, Why::Extension, units)?;
        Ok(bitmap)
    }

    #[inline(always)]
    fn read_index(
        root: usize,
        additions: Option<usize>,
        units: &mut BitCursor<'_>,
    ) -> Result<Index, Stop> {
        // tags count the alternatives from 0, root first
        let tag = read_tag(root + additions.unwrap_or(0), units)?;
        if tag < root {
            Ok(Index::Root(tag))
        } else {
            Ok(Index::Added(tag - root))
        }
    }

    #[inline(always)]
    fn read_open_octets(alloc: Global, units: &mut BitCursor<'_>) -> Result<Vec<u8>, Stop> {
        read_octets_with_length(alloc, 0, MAX_OCTETS as u64, units)
    }

    #[inline(always)]
    fn try_open_octets(units: &mut BitCursor<'_>, into: &mut [u8]) -> Option<usize> {
        internal::try_short_octets(units, into)
    }

    #[inline(always)]
    fn read_padding(_given: u128, _units: &mut BitCursor<'_>) -> Result<(), Stop> {
        Ok(())
    }

    #[inline(always)]
    fn start_list(size: &Size, units: &mut BitCursor<'_>) -> Result<Option<usize>, Stop> {
        // the quantity, an INTEGER from 0 on
        let count = read_counted(counts_of(size), Why::Length, Why::Length, units)?;
        Ok(Some(count as usize))
    }

    #[inline(always)]
    fn next_fragment(
        elements: &mut Option<usize>,
        _units: &mut BitCursor<'_>,
    ) -> Result<Option<usize>, Stop> {
        Ok(elements.take())
    }

    fn keep_laws() {}
}

/// How many bits the extension bit has, and the highest number that they may hold: 1 only where additions are listed.
#[inline(always)]
pub fn marks(additions: Option<usize>) -> (u32, u64)
    ensures { result ≡ mark_of additions }
{
    match additions {
        None => (0, 0),
        Some(0) => (1, 0),
        Some(_) => (1, 1),
    }
}

/// Reads a truth value, but for the excluded one: FALSE is the octet 0 and TRUE the octet 255.
pub(crate) fn read_boolean(excluded: Option<bool>, units: &mut BitCursor<'_>) -> Result<bool, Stop>
    requires at_octet { AtOctet units.old }
    ensures at_octet { OnOk result (AtOctet units.new) }
    ensures done { Reads result (λ b. truth b) (BooleansBut excluded) units.old units.new }
    ensures stop { StopsIn result (BooleansBut excluded) units.old }
{
    let why = Why::in_number(excluded.is_some());
    let octet = read_octets_among(1, truth_octets(excluded), why, units)?;
    Ok(0 < octet)
}

/// The octets of the truth values.
fn truth_octets(excluded: Option<bool>) -> Intervals
    ensures there { (n : ℕ) → Among result n → TruthOctet excluded n }
    ensures back { (n : ℕ) → TruthOctet excluded n → Among result n }
    ensures some { Meets (λ n. Among result n) 0 8 }
{
    match excluded {
        None => Intervals::one(0, 0).and(255, 255),
        Some(false) => Intervals::one(255, 255),
        Some(true) => Intervals::one(0, 0),
    }
}
