//! What is asked of a whole part is asked of PER's own reader.
ghost use Rattle.asn_per.specs.Walk.{per_coding};
ghost use Rattle.asn_per.specs.FragmentsAhead.{ahead_of, IsBetween};

use crate::fragments::Fragments;
use crate::rules::Per;
use asn_bits::BitCursor;
use asn_resuming::ReadsAtOnce;
use asn_rules::internal::{Reads, Stop};
use asn_rules::{FeedFault, Step};
use asn_values::{AsnType, Checked, Size, Value};
use asn_walk::{Index, Preamble, ReadLeaves};
use std::alloc::{AllocError, Global};

/// CANONICAL-PER UNALIGNED (X.691) as the rules of a reader of messages in pieces, whose units are bits. Its parts are
/// those of `asn_per::Per`; what it keeps of a list between two fragments can be copied.
#[derive(Debug)]
pub struct PerInPieces;

#[tactic(auto, unfolding(crate::specs::Walk::per_coding, crate::specs::Rules::per_ruling))]
impl ReadLeaves for PerInPieces {
    ghost rules = { per_coding };

    type Fragments = Fragments;

    ghost ahead = { ahead_of };

    ghost is_between = { IsBetween };

    fn units_left(units: &BitCursor<'_>) -> u128 {
        Per::units_left(units)
    }

    fn octets_left(units: &BitCursor<'_>) -> usize {
        Per::octets_left(units)
    }

    fn read_simple(alloc: Global, ty: &AsnType, units: &mut BitCursor<'_>) -> Result<Value, Stop> {
        Per::read_simple(alloc, ty, units)
    }

    fn read_other(ty: &AsnType, default: &Value, units: &mut BitCursor<'_>) -> Result<Value, Stop> {
        Per::read_other(ty, default, units)
    }

    fn try_between(low: i128, high: i128, units: &mut BitCursor<'_>) -> Option<i128> {
        Per::try_between(low, high, units)
    }

    fn read_preamble(
        count: u32,
        additions: Option<usize>,
        units: &mut BitCursor<'_>,
    ) -> Result<Preamble, Stop> {
        Per::read_preamble(count, additions, units)
    }

    fn read_addition_bitmap(count: u32, units: &mut BitCursor<'_>) -> Result<u64, Stop> {
        Per::read_addition_bitmap(count, units)
    }

    fn read_index(
        root: usize,
        additions: Option<usize>,
        units: &mut BitCursor<'_>,
    ) -> Result<Index, Stop> {
        Per::read_index(root, additions, units)
    }

    fn read_open_octets(alloc: Global, units: &mut BitCursor<'_>) -> Result<Vec<u8>, Stop> {
        Per::read_open_octets(alloc, units)
    }

    fn read_padding(given: u128, units: &mut BitCursor<'_>) -> Result<(), Stop> {
        Per::read_padding(given, units)
    }

    fn start_list(size: &Size, units: &mut BitCursor<'_>) -> Result<Fragments, Stop> {
        Fragments::start(size, units)
    }

    fn next_fragment(
        fragments: &mut Fragments,
        units: &mut BitCursor<'_>,
    ) -> Result<Option<usize>, Stop> {
        fragments.next(units)
    }

    fn keep_laws() {
        Per::keep_laws();
    }
}

#[tactic(auto, unfolding(crate::specs::Walk::per_coding))]
impl ReadsAtOnce for PerInPieces {
    fn read(alloc: Global, ty: &Checked, octets: &[u8]) -> Result<Step, FeedFault> {
        <Per as Reads>::read(alloc, ty, octets)
    }

    fn may_be_empty(alloc: Global, ty: &Checked) -> Result<bool, AllocError> {
        Per::may_be_empty(alloc, ty)
    }
}
