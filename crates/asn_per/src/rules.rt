//! PER as encoding rules: the encoder, the decoder and sessions.
ghost use Rattle.asn_per.specs.Rules.{per_ruling};
ghost use Rattle.asn_per.specs.Sessions.{PerTook, per_ticked, per_holds};

use crate::session::PerSession;
use asn_rules::internal::{self, Reads};
use asn_rules::{
    DecodeFault, EncodeFault, EncodeIntoFault, EncodeToFault, FeedFault, LengthFault, OpenFault,
    Output, Rules, Step, Truncated,
};
use asn_values::{Checked, Value};
use std::alloc::{AllocError, Global};

/// CANONICAL-PER UNALIGNED (X.691) as a set of encoding rules, whose units are bits.
#[derive(Debug)]
pub struct Per;

impl Reads for Per {
    ghost ruling = { per_ruling };

    #[inline(always)]
    #[tactic(auto, unfolding(crate::specs::Walk::per_coding))]
    fn read(alloc: Global, ty: &Checked, octets: &[u8]) -> Result<Step, FeedFault> {
        asn_walk_read::read_message::<Per>(alloc, ty, octets)
    }

    #[inline(always)]
    fn may_be_empty(_alloc: Global, _ty: &Checked) -> Result<bool, AllocError> {
        Ok(false)
    }

    #[inline(always)]
    #[tactic(auto, unfolding(crate::specs::Rules::per_ruling))]
    fn units_of(octets: usize) -> u64 {
        8 * octets as u64
    }

    fn keep_reading_laws() {}
}

impl Rules for Per {
    type Session = PerSession;

    ghost ruling = { per_ruling };

    ghost took = { PerTook };

    ghost ticked = { per_ticked };

    ghost holds = { per_holds };

    #[tactic(auto, unfolding(crate::specs::Walk::per_coding))]
    fn encode(alloc: Global, ty: &Checked, value: &Value) -> Result<Vec<u8>, EncodeFault> {
        asn_walk_write::encode::<Per>(alloc, ty, value)
    }

    #[tactic(auto, unfolding(crate::specs::Walk::per_coding))]
    fn encode_to<O: Output>(
        ty: &Checked,
        value: &Value,
        output: &mut O,
    ) -> Result<(), EncodeToFault> {
        asn_walk_write::encode_to::<Per, O>(ty, value, output)
    }

    #[tactic(auto, unfolding(crate::specs::Walk::per_coding))]
    fn encoded_len(ty: &Checked, value: &Value) -> Result<usize, LengthFault> {
        asn_walk_write::encoded_len::<Per>(ty, value)
    }

    #[tactic(auto, unfolding(crate::specs::Walk::per_coding))]
    fn encode_into(
        ty: &Checked,
        value: &Value,
        octets: &mut [u8],
    ) -> Result<usize, EncodeIntoFault> {
        asn_walk_write::encode_into::<Per>(ty, value, octets)
    }

    #[inline(always)]
    fn decode(alloc: Global, ty: &Checked, octets: &[u8]) -> Result<Value, DecodeFault> {
        internal::decode_at_once::<Per>(alloc, ty, octets)
    }

    #[tactic(auto, unfolding(crate::specs::Walk::per_coding))]
    fn decode_into(
        alloc: Global,
        ty: &Checked,
        octets: &[u8],
        value: &mut Value,
    ) -> Result<(), DecodeFault> {
        asn_walk_into::decode_into::<Per>(alloc, ty, octets, value)
    }

    #[tactic(auto, unfolding(crate::specs::Walk::per_coding))]
    fn decode_front_into(
        alloc: Global,
        ty: &Checked,
        octets: &[u8],
        value: &mut Value,
    ) -> Result<usize, DecodeFault> {
        asn_walk_into::decode_front_into::<Per>(alloc, ty, octets, value)
    }

    fn open(alloc: Global, ty: Checked) -> Result<PerSession, OpenFault> {
        PerSession::open(alloc, ty)
    }

    fn feed(session: &mut PerSession, piece: &[u8]) -> Result<Step, FeedFault> {
        session.feed(piece)
    }

    fn ticks(session: &PerSession) -> u64 {
        session.ticks()
    }

    fn kept(session: &PerSession) -> &[u8] {
        session.kept()
    }

    fn held(session: &PerSession) -> u64 {
        session.held()
    }

    fn finish(session: PerSession) -> Result<(), Truncated> {
        session.finish()
    }

    fn keep_laws() {}
}
