//! Canonical OER as encoding rules: the encoder, the decoder and sessions.
ghost use Rattle.std.specs.Prelude.{[]};
ghost use Rattle.asn_oer.specs.Words.{oer_ruling};
ghost use Rattle.asn_oer.specs.Sessions.{OerTook, oer_ticked, oer_holds};

use crate::session::OerSession;
use asn_rules::internal::{self, Reads, is_value_of_none};
use asn_rules::{
    DecodeFault, EncodeFault, EncodeIntoFault, EncodeToFault, FeedFault, LengthFault, OpenFault,
    Output, Rules, Step, Truncated,
};
use asn_values::{Checked, Value};
use std::alloc::{AllocError, Global};

/// Canonical OER (X.696), as the walk over types and values asks for a set of encoding rules: its units are octets.
#[derive(Debug)]
pub struct Oer;

impl Reads for Oer {
    ghost ruling = { oer_ruling };

    #[inline(always)]
    #[tactic(auto, unfolding(crate::specs::Walk::oer_coding))]
    fn read(alloc: Global, ty: &Checked, octets: &[u8]) -> Result<Step, FeedFault> {
        asn_walk_read::read_message::<Oer>(alloc, ty, octets)
    }

    #[tactic(auto, unfolding(crate::specs::Walk::oer_coding))]
    fn may_be_empty(alloc: Global, ty: &Checked) -> Result<bool, AllocError> {
        is_value_of_none(&asn_walk_read::read_message::<Oer>(alloc, ty, &[]))
    }

    #[inline(always)]
    #[tactic(auto, unfolding(crate::specs::Rules::oer_ruling))]
    fn units_of(octets: usize) -> u64 {
        octets as u64
    }

    fn keep_reading_laws() {}
}

impl Rules for Oer {
    type Session = OerSession;

    ghost ruling = { oer_ruling };

    ghost took = { OerTook };

    ghost ticked = { oer_ticked };

    ghost holds = { oer_holds };

    #[tactic(auto, unfolding(crate::specs::Walk::oer_coding))]
    fn encode(alloc: Global, ty: &Checked, value: &Value) -> Result<Vec<u8>, EncodeFault> {
        asn_walk_write::encode::<Oer>(alloc, ty, value)
    }

    #[tactic(auto, unfolding(crate::specs::Walk::oer_coding))]
    fn encode_to<O: Output>(
        ty: &Checked,
        value: &Value,
        output: &mut O,
    ) -> Result<(), EncodeToFault> {
        asn_walk_write::encode_to::<Oer, O>(ty, value, output)
    }

    #[tactic(auto, unfolding(crate::specs::Walk::oer_coding))]
    fn encoded_len(ty: &Checked, value: &Value) -> Result<usize, LengthFault> {
        asn_walk_write::encoded_len::<Oer>(ty, value)
    }

    #[tactic(auto, unfolding(crate::specs::Walk::oer_coding))]
    fn encode_into(
        ty: &Checked,
        value: &Value,
        octets: &mut [u8],
    ) -> Result<usize, EncodeIntoFault> {
        asn_walk_write::encode_into::<Oer>(ty, value, octets)
    }

    #[inline(always)]
    fn decode(alloc: Global, ty: &Checked, octets: &[u8]) -> Result<Value, DecodeFault> {
        internal::decode_at_once::<Oer>(alloc, ty, octets)
    }

    #[tactic(auto, unfolding(crate::specs::Walk::oer_coding))]
    fn decode_into(
        alloc: Global,
        ty: &Checked,
        octets: &[u8],
        value: &mut Value,
    ) -> Result<(), DecodeFault> {
        asn_walk_into::decode_into::<Oer>(alloc, ty, octets, value)
    }

    #[tactic(auto, unfolding(crate::specs::Walk::oer_coding))]
    fn decode_front_into(
        alloc: Global,
        ty: &Checked,
        octets: &[u8],
        value: &mut Value,
    ) -> Result<usize, DecodeFault> {
        asn_walk_into::decode_front_into::<Oer>(alloc, ty, octets, value)
    }

    fn open(alloc: Global, ty: Checked) -> Result<OerSession, OpenFault> {
        OerSession::open(alloc, ty)
    }

    fn feed(session: &mut OerSession, piece: &[u8]) -> Result<Step, FeedFault> {
        session.feed(piece)
    }

    fn ticks(session: &OerSession) -> u64 {
        session.ticks()
    }

    fn kept(session: &OerSession) -> &[u8] {
        session.kept()
    }

    fn held(session: &OerSession) -> u64 {
        session.held()
    }

    fn finish(session: OerSession) -> Result<(), Truncated> {
        session.finish()
    }

    fn keep_laws() {}
}
