//! What a reader of messages in pieces asks of PER beside its parts: bits of a part that was cut, the items of strings
//! and the octets of open type fields, and what fills up a message.
ghost use Rattle.std.specs.Prelude.{◌≡◌, ◌≤◌, IfOk, IfErr, replicate};
ghost use Rattle.asn_values.specs.View.{size_range_of};
ghost use Rattle.asn_walk.specs.Laws.{IsSizeOfProfile};
ghost use Rattle.asn_per.specs.ListsAhead.{Start};
ghost use Rattle.asn_per.specs.Per.{filling};
ghost use Rattle.asn_per.specs.Reading.{Reads, StopsIn};
ghost use Rattle.asn_walk_feed.specs.Octets.{NoFirst, start_seen};
ghost use Rattle.asn_per.specs.FragmentsAhead.{ahead_of, IsBetween};
ghost use Rattle.asn_per.specs.SingleItems.{per_field_coding};

use crate::fragments::Fragments;
use crate::in_pieces::PerInPieces;
use crate::item_runs::{take_bits, take_characters, take_octets};
use crate::rules::Per;
use crate::single_items::{read_bit, read_character, read_octet, truths};
use asn_bits::BitCursor;
use asn_rules::Why;
use asn_rules::internal::{Stop, read_padding};
use asn_values::{AsnType, Size, Value};
use asn_walk_feed::{Begun, FeedLeaves, ItemsStart};
use asn_walk_read::read;
use std::alloc::{AllocError, Global};

#[tactic(auto, unfolding(crate::specs::Walk::per_coding, crate::specs::Rules::per_ruling, crate::specs::SingleItems::per_field_coding))]
impl FeedLeaves for PerInPieces {
    ghost fields = { per_field_coding };

    fn extend(begun: &mut Begun, units: &BitCursor<'_>) -> u32 {
        begun.extend(units)
    }

    fn pass_units(units: &mut BitCursor<'_>, count: u32) {
        if count <= 64 {
            units.pass(count);
            return;
        }
        units.pass(64);
        units.pass(count - 64);
    }

    fn copied(fragments: &Fragments) -> Fragments {
        *fragments
    }

    fn start_octets(units: &mut BitCursor<'_>) -> Result<ItemsStart<Fragments>, Stop> {
        start_items(&Size::at_least(1), units)
    }

    fn read_octet(units: &mut BitCursor<'_>) -> Result<u8, Stop> {
        read_octet(units)
    }

    fn take_octets(
        most: usize,
        into: &mut Vec<u8>,
        units: &mut BitCursor<'_>,
    ) -> Result<usize, AllocError> {
        take_octets(most, into, units)
    }

    fn start_string(
        ty: &AsnType,
        units: &mut BitCursor<'_>,
    ) -> Result<ItemsStart<Fragments>, Stop> {
        match ty {
            AsnType::Bits(size) => start_items(size, units),
            AsnType::Octets(size) => start_items(size, units),
            AsnType::Text(_, size) => start_items(size, units),
            AsnType::Utf8 => start_items(&Size::any(), units),
            AsnType::Bool | AsnType::Null | AsnType::Int(_) | AsnType::Enum { .. } =>
                unreachable!(),
            AsnType::Seq { .. } | AsnType::SeqOf(..) | AsnType::Choice { .. } => unreachable!(),
        }
    }

    fn read_item(ty: &AsnType, units: &mut BitCursor<'_>) -> Result<u8, Stop> {
        match ty {
            AsnType::Bits(_) => read_bit(units),
            AsnType::Octets(_) | AsnType::Utf8 => read_octet(units),
            AsnType::Text(kind, _) => read_character(*kind, units),
            AsnType::Bool | AsnType::Null | AsnType::Int(_) | AsnType::Enum { .. } =>
                unreachable!(),
            AsnType::Seq { .. } | AsnType::SeqOf(..) | AsnType::Choice { .. } => unreachable!(),
        }
    }

    fn take_items(
        ty: &AsnType,
        most: usize,
        into: &mut Vec<u8>,
        units: &mut BitCursor<'_>,
    ) -> Result<usize, AllocError> {
        match ty {
            AsnType::Bits(_) => take_bits(most, into, units),
            AsnType::Octets(_) | AsnType::Utf8 => take_octets(most, into, units),
            AsnType::Text(kind, _) => take_characters(*kind, most, into, units),
            AsnType::Bool | AsnType::Null | AsnType::Int(_) | AsnType::Enum { .. } =>
                unreachable!(),
            AsnType::Seq { .. } | AsnType::SeqOf(..) | AsnType::Choice { .. } => unreachable!(),
        }
    }

    fn string_of(alloc: Global, ty: &AsnType, items: Vec<u8>, left: u128) -> Result<Value, Stop> {
        match ty {
            AsnType::Bits(_) => Ok(Value::Bits(truths(alloc, items.as_slice())?)),
            AsnType::Octets(_) => Ok(Value::Octets(items)),
            AsnType::Text(..) => Ok(Value::Text(items)),
            AsnType::Utf8 => match String::from_utf8(items) {
                Ok(text) => Ok(Value::Utf8(text)),
                Err(_) => Err(Stop::Refused {
                    left,
                    why: Why::Sealed,
                }),
            },
            AsnType::Bool | AsnType::Null | AsnType::Int(_) | AsnType::Enum { .. } =>
                unreachable!(),
            AsnType::Seq { .. } | AsnType::SeqOf(..) | AsnType::Choice { .. } => unreachable!(),
        }
    }

    fn read_whole(alloc: Global, ty: &AsnType, units: &mut BitCursor<'_>) -> Result<Value, Stop> {
        read::<Per>(alloc, ty, units)
    }

    fn read_filling(value_units: u128, units: &mut BitCursor<'_>) -> Result<(), Stop> {
        read_padding(zeros_after(value_units), units)
    }

    fn keep_feed_laws() {}

    fn keep_field_laws() {}

    fn keep_string_laws() {}

    fn keep_kept_laws() {}

    fn keep_hold_laws() {}
}

/// Reads what stands before the items of a string or an open type field under the size. No item stands there.
fn start_items(size: &Size, units: &mut BitCursor<'_>) -> Result<ItemsStart<Fragments>, Stop>
    requires of_profile { IsSizeOfProfile (size_range_of size.now) }
    ensures done { Reads result (start_seen ahead_of) (NoFirst (Start (size_range_of size.now))) units.old units.new }
    ensures between { IfOk result (λ s. IsBetween s.fragments) }
    ensures stop { StopsIn result (NoFirst (Start (size_range_of size.now))) units.old }
{
    let fragments = Fragments::start(size, units)?;
    Ok(ItemsStart {
        first: None,
        fragments,
    })
}

/// How many zeros fill up a message whose value has this many bits: those that fill its last octet, and eight where it
/// has no bit (X.691, "complete encoding").
fn zeros_after(bits: u128) -> u32
    ensures few { result ≤ 8 }
    ensures zeros { filling bits ≡ replicate result 0 }
{
    let rest = (bits % 8) as u32;
    if bits == 0 { 8 } else { (8 - rest) % 8 }
}
