//! Canonical OER as a set of encoding rules whose parts a piece may cut.
ghost use Rattle.std.specs.Prelude.{⊤};
ghost use Rattle.asn_oer.specs.ElementsAhead.{ahead_of};
ghost use Rattle.asn_oer.specs.Walk.{oer_coding};
ghost use Rattle.asn_oer.specs.SingleItems.{oer_parts};

use crate::bit_items::{bits_of, start_bits};
use crate::item_runs::{take_any_octets, take_characters};
use crate::rules::Oer;
use crate::single_items::{read_any_octet, read_character, start_any, start_items};
use crate::text_items::text_of;
use asn_bits::BitCursor;
use asn_resuming::ReadsAtOnce;
use asn_rules::internal::{Reads, Stop};
use asn_rules::{FeedFault, Step};
use asn_values::{AsnType, Checked, Size, Value};
use asn_walk::{Index, Preamble, ReadLeaves};
use asn_walk_feed::{Begun, FeedLeaves, ItemsStart};
use asn_walk_read::read;
use std::alloc::{AllocError, Global};

/// Canonical OER (X.696), as the walk that reads in pieces asks for a set of encoding rules: its units are octets. Its
/// parts are those of `Oer`; a part that a piece cuts has at most 15 octets while it wants more.
#[derive(Debug)]
pub struct OerInPieces;

#[tactic(auto, unfolding(crate::specs::Walk::oer_coding))]
impl ReadLeaves for OerInPieces {
    ghost rules = { oer_coding };

    type Fragments = Option<usize>;

    ghost ahead = { ahead_of };

    ghost is_between = { λ e. ⊤ };

    fn units_left(units: &BitCursor<'_>) -> u128 {
        Oer::units_left(units)
    }

    fn octets_left(units: &BitCursor<'_>) -> usize {
        Oer::octets_left(units)
    }

    fn read_simple(alloc: Global, ty: &AsnType, units: &mut BitCursor<'_>) -> Result<Value, Stop> {
        Oer::read_simple(alloc, ty, units)
    }

    fn read_other(ty: &AsnType, default: &Value, units: &mut BitCursor<'_>) -> Result<Value, Stop> {
        Oer::read_other(ty, default, units)
    }

    fn try_between(low: i128, high: i128, units: &mut BitCursor<'_>) -> Option<i128> {
        Oer::try_between(low, high, units)
    }

    fn try_simple(alloc: Global, ty: &AsnType, units: &mut BitCursor<'_>) -> Option<Value> {
        Oer::try_simple(alloc, ty, units)
    }

    fn read_preamble(
        count: u32,
        additions: Option<usize>,
        units: &mut BitCursor<'_>,
    ) -> Result<Preamble, Stop> {
        Oer::read_preamble(count, additions, units)
    }

    fn read_addition_bitmap(count: u32, units: &mut BitCursor<'_>) -> Result<u64, Stop> {
        Oer::read_addition_bitmap(count, units)
    }

    fn read_index(
        root: usize,
        additions: Option<usize>,
        units: &mut BitCursor<'_>,
    ) -> Result<Index, Stop> {
        Oer::read_index(root, additions, units)
    }

    fn read_open_octets(alloc: Global, units: &mut BitCursor<'_>) -> Result<Vec<u8>, Stop> {
        Oer::read_open_octets(alloc, units)
    }

    fn try_open_octets(units: &mut BitCursor<'_>, into: &mut [u8]) -> Option<usize> {
        Oer::try_open_octets(units, into)
    }

    fn read_padding(given: u128, units: &mut BitCursor<'_>) -> Result<(), Stop> {
        Oer::read_padding(given, units)
    }

    fn start_list(size: &Size, units: &mut BitCursor<'_>) -> Result<Option<usize>, Stop> {
        Oer::start_list(size, units)
    }

    fn next_fragment(
        elements: &mut Option<usize>,
        units: &mut BitCursor<'_>,
    ) -> Result<Option<usize>, Stop> {
        Oer::next_fragment(elements, units)
    }

    fn keep_laws() {
        Oer::keep_laws()
    }
}

#[tactic(auto, unfolding(crate::specs::Walk::oer_coding, crate::specs::Rules::oer_ruling))]
impl FeedLeaves for OerInPieces {
    ghost fields = { oer_parts };

    fn extend(begun: &mut Begun, units: &BitCursor<'_>) -> u32 {
        begun.extend(units) / 8
    }

    fn pass_units(units: &mut BitCursor<'_>, count: u32) {
        units.pass_octets(count);
    }

    fn copied(fragments: &Option<usize>) -> Option<usize> {
        *fragments
    }

    fn start_octets(units: &mut BitCursor<'_>) -> Result<ItemsStart<Option<usize>>, Stop> {
        start_any(units)
    }

    fn read_octet(units: &mut BitCursor<'_>) -> Result<u8, Stop> {
        read_any_octet(units)
    }

    fn take_octets(
        most: usize,
        into: &mut Vec<u8>,
        units: &mut BitCursor<'_>,
    ) -> Result<usize, AllocError> {
        take_any_octets(most, into, units)
    }

    fn start_string(
        ty: &AsnType,
        units: &mut BitCursor<'_>,
    ) -> Result<ItemsStart<Option<usize>>, Stop> {
        match ty {
            AsnType::Bits(size) => start_bits(size, units),
            AsnType::Octets(size) => start_items(size, units),
            AsnType::Text(_, size) => start_items(size, units),
            AsnType::Utf8 => start_any(units),
            _ => unreachable!(),
        }
    }

    fn read_item(ty: &AsnType, units: &mut BitCursor<'_>) -> Result<u8, Stop> {
        match ty {
            AsnType::Bits(_) => read_any_octet(units),
            AsnType::Octets(_) => read_any_octet(units),
            AsnType::Text(kind, _) => read_character(*kind, units),
            AsnType::Utf8 => read_any_octet(units),
            _ => unreachable!(),
        }
    }

    fn take_items(
        ty: &AsnType,
        most: usize,
        into: &mut Vec<u8>,
        units: &mut BitCursor<'_>,
    ) -> Result<usize, AllocError> {
        match ty {
            AsnType::Bits(_) => take_any_octets(most, into, units),
            AsnType::Octets(_) => take_any_octets(most, into, units),
            AsnType::Text(kind, _) => take_characters(*kind, most, into, units),
            AsnType::Utf8 => take_any_octets(most, into, units),
            _ => unreachable!(),
        }
    }

    fn string_of(alloc: Global, ty: &AsnType, items: Vec<u8>, left: u128) -> Result<Value, Stop> {
        match ty {
            AsnType::Bits(size) => Ok(Value::Bits(bits_of(alloc, size, items.as_slice(), left)?)),
            AsnType::Octets(_) => Ok(Value::Octets(items)),
            AsnType::Text(..) => Ok(Value::Text(items)),
            AsnType::Utf8 => Ok(Value::Utf8(text_of(items, left)?)),
            _ => unreachable!(),
        }
    }

    fn read_whole(alloc: Global, ty: &AsnType, units: &mut BitCursor<'_>) -> Result<Value, Stop> {
        read::<Oer>(alloc, ty, units)
    }

    fn read_filling(_value_units: u128, _units: &mut BitCursor<'_>) -> Result<(), Stop> {
        Ok(())
    }

    fn keep_feed_laws() {}

    fn keep_field_laws() {}

    fn keep_string_laws() {}

    fn keep_kept_laws() {}

    fn keep_hold_laws() {}
}

#[tactic(auto, unfolding(crate::specs::Walk::oer_coding))]
impl ReadsAtOnce for OerInPieces {
    fn read(alloc: Global, ty: &Checked, octets: &[u8]) -> Result<Step, FeedFault> {
        <Oer as Reads>::read(alloc, ty, octets)
    }

    fn may_be_empty(alloc: Global, ty: &Checked) -> Result<bool, AllocError> {
        Oer::may_be_empty(alloc, ty)
    }
}
