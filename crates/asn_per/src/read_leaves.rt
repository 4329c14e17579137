//! What PER reads by itself: the simple types, and the parts of the composite ones.
ghost use Rattle.asn_per.specs.RowsAhead.{ahead_of, IsBetween};
ghost use Rattle.asn_per.specs.Walk.{per_coding};

use crate::indexes::{self, read_extension_bit, read_small_length};
use crate::integers::{read_boolean, read_integer, try_constrained};
use crate::items::{read_item, try_item};
use crate::rules::Per;
use crate::simple_into::{read_bit_string_into, read_octet_string_into, read_text_into};
use crate::sizes::Fragments;
use crate::string_reader::{read_bits, read_characters, read_octet_string, read_utf8};
use asn_bits::BitCursor;
use asn_rules::Why;
use asn_rules::internal::{
    self, NumberSet, Stop, bits_left, greatest_of_width, read_number, read_padding, read_up_to,
};
use asn_values::{AsnType, Size, Value};
use asn_walk::at_once::{try_bits, try_marked_preamble, try_octets};
use asn_walk::slots::{set_boolean, set_item};
use asn_walk::{Index, Preamble, ReadLeaves};
use std::alloc::Global;

#[tactic(auto, unfolding(crate::specs::Walk::per_coding, crate::specs::Rules::per_ruling))]
impl ReadLeaves for Per {
    ghost rules = { per_coding };

    type Fragments = Fragments;

    ghost ahead = { ahead_of };

    ghost is_between = { IsBetween };

    fn units_left(units: &BitCursor<'_>) -> u128 {
        bits_left(units)
    }

    fn octets_left(units: &BitCursor<'_>) -> usize {
        units.octets_left()
    }

    #[inline(always)]
    fn read_simple(alloc: Global, ty: &AsnType, units: &mut BitCursor<'_>) -> Result<Value, Stop> {
        match ty {
            AsnType::Bool => Ok(Value::Bool(read_boolean(None, units)?)),
            AsnType::Null => Ok(Value::Null),
            AsnType::Int(bounds) => Ok(Value::Int(read_integer(bounds, None, units)?)),
            AsnType::Enum { root, ext } => Ok(Value::Enum(read_item(root, ext, None, units)?)),
            AsnType::Bits(size) => {
                let mut bits = Vec::new(alloc);
                read_bits(size, &mut bits, units)?;
                Ok(Value::Bits(bits))
            }
            AsnType::Octets(size) => Ok(Value::Octets(read_octet_string(alloc, size, units)?)),
            AsnType::Text(kind, size) => {
                let mut characters = Vec::new(alloc);
                read_characters(*kind, size, &mut characters, units)?;
                Ok(Value::Text(characters))
            }
            AsnType::Utf8 => Ok(Value::Utf8(read_utf8(alloc, units)?)),
            AsnType::Seq { .. } | AsnType::SeqOf(..) | AsnType::Choice { .. } => unreachable!(),
        }
    }

    #[inline(never)]
    fn read_simple_into(
        alloc: Global,
        ty: &AsnType,
        units: &mut BitCursor<'_>,
        slot: &mut Value,
    ) -> Result<(), Stop> {
        match ty {
            AsnType::Bits(size) => read_bit_string_into(alloc, size, slot, units),
            AsnType::Octets(size) => read_octet_string_into(alloc, size, slot, units),
            AsnType::Text(kind, size) => read_text_into(alloc, *kind, size, slot, units),
            AsnType::Bool
            | AsnType::Null
            | AsnType::Int(_)
            | AsnType::Enum { .. }
            | AsnType::Utf8 => {
                *slot = Self::read_simple(alloc, ty, units)?;
                Ok(())
            }
            AsnType::Seq { .. } | AsnType::SeqOf(..) | AsnType::Choice { .. } => unreachable!(),
        }
    }

    #[inline(never)]
    fn try_simple_into(ty: &AsnType, units: &mut BitCursor<'_>, slot: &mut Value) -> bool {
        match ty {
            AsnType::Bool => match units.next() {
                Some(bit) => set_boolean(bit == 1, slot),
                None => return false,
            },
            AsnType::Enum { root, ext } => match try_item(root, ext, units) {
                Some(position) => set_item(position, slot),
                None => return false,
            },
            AsnType::Bits(size) => return try_bits(size, slot, units),
            AsnType::Octets(size) => return try_octets(size, slot, units),
            _ => return false,
        }
        true
    }

    #[inline(always)]
    fn try_simple(_alloc: Global, ty: &AsnType, units: &mut BitCursor<'_>) -> Option<Value> {
        let AsnType::Int(bounds) = ty else {
            return None;
        };
        match (bounds.low, bounds.high) {
            (Some(low), Some(high)) if !bounds.ext => {
                Some(Value::Int(try_constrained(low, high, units)?))
            }
            _ => None,
        }
    }

    fn read_other(ty: &AsnType, default: &Value, units: &mut BitCursor<'_>) -> Result<Value, Stop> {
        match (ty, default) {
            (AsnType::Bool, Value::Bool(truth)) => {
                Ok(Value::Bool(read_boolean(Some(*truth), units)?))
            }
            (AsnType::Int(bounds), Value::Int(number)) => {
                Ok(Value::Int(read_integer(bounds, Some(*number), units)?))
            }
            (AsnType::Enum { root, ext }, Value::Enum(position)) => {
                Ok(Value::Enum(read_item(root, ext, Some(*position), units)?))
            }
            _ => unreachable!(),
        }
    }

    #[inline(always)]
    fn try_between(low: i128, high: i128, units: &mut BitCursor<'_>) -> Option<i128> {
        try_constrained(low, high, units)
    }

    #[inline(always)]
    fn read_preamble(
        count: u32,
        additions: Option<usize>,
        units: &mut BitCursor<'_>,
    ) -> Result<Preamble, Stop> {
        if let Some(preamble) = try_marked_preamble(count, additions, units) {
            return Ok(preamble);
        }
        let extended = match additions {
            None => false,
            Some(listed) => read_extension_bit(listed > 0, units)?,
        };
        let bitmap = read_up_to(count, greatest_of_width(count), Why::Number, units)?;
        Ok(Preamble { extended, bitmap })
    }

    #[inline(always)]
    fn read_addition_bitmap(count: u32, units: &mut BitCursor<'_>) -> Result<u64, Stop> {
        read_small_length(count, units)?;
        let some_present = NumberSet {
            low: 0,
            high: greatest_of_width(count),
            excluded: Some(0),
        };
        read_number(count, some_present, Why::Extension, units)
    }

    #[inline(always)]
    fn read_index(
        root: usize,
        additions: Option<usize>,
        units: &mut BitCursor<'_>,
    ) -> Result<Index, Stop> {
        indexes::read_index(root, additions, units)
    }

    #[inline(always)]
    fn read_open_octets(alloc: Global, units: &mut BitCursor<'_>) -> Result<Vec<u8>, Stop> {
        read_octet_string(alloc, &Size::at_least(1), units)
    }

    #[inline(always)]
    fn try_open_octets(units: &mut BitCursor<'_>, into: &mut [u8]) -> Option<usize> {
        internal::try_short_octets(units, into)
    }

    fn read_padding(given: u128, units: &mut BitCursor<'_>) -> Result<(), Stop> {
        let rest = units.rest_of_octet();
        let is_empty = rest == 0 && bits_left(units) == given;
        let zeros = if is_empty { 8 } else { rest };
        read_padding(zeros, units)
    }

    #[inline(always)]
    fn start_list(size: &Size, units: &mut BitCursor<'_>) -> Result<Fragments, Stop> {
        Fragments::start(size, units)
    }

    #[inline(always)]
    fn next_fragment(
        fragments: &mut Fragments,
        units: &mut BitCursor<'_>,
    ) -> Result<Option<usize>, Stop> {
        fragments.next(units)
    }

    fn keep_laws() {}
}
