//! Sessions of Canonical OER: messages whose octets come in pieces.
ghost use Rattle.std.specs.Prelude.{◌≡◌, [], ℕ, List, Option, IfOk};
ghost use Rattle.std.specs.Coded.{codes};
ghost use Rattle.asn_values.specs.Shape.{Shape};
ghost use Rattle.asn_values.specs.View.{shape_of};
ghost use Rattle.asn_values.specs.contracts.checked.Checked as types;
ghost use Rattle.asn_values.specs.contracts.value.Value as values;
ghost use Rattle.asn_rules.specs.Holding.{HoldsFew, GivesFewOf};
ghost use Rattle.asn_rules.specs.Kept.{Keeps};
ghost use Rattle.asn_rules.specs.Sessions.{Past, waiting, Feeds, Finished};
ghost use Rattle.asn_rules.specs.Ticks.{Counts, TicksOn};
ghost use Rattle.asn_resuming.specs.declared.session.Resuming.{Resuming as TheResuming};
ghost use Rattle.asn_oer.specs.Rules.{oer_ruling};
ghost use Rattle.asn_oer.specs.Sessions.{OerTook, oer_ticked, oer_holds};

use crate::in_pieces::OerInPieces;
use asn_resuming::Resuming;
use asn_rules::{FeedFault, OpenFault, Step, Truncated};
use asn_values::Checked;
use std::alloc::Global;
use std::marker::Model;

/// A session of Canonical OER, which keeps the nodes of the value that have begun. Some octets have brought it there.
#[derive(Drop)]
pub struct OerSession {
    inner: Resuming<Option<usize>>,
}

impl Model for OerSession {
    ghost Value = { TheResuming (Option ℕ) };

    ghost coded = { Prim.hlevel (codes, types.the_row.coded, values.the_row.coded) };

    ghost view = { λ s. s.inner };

    ghost invariant = { λ s. (t : Shape) × (past : Past) × OerTook s.inner t past };
}

#[tactic(auto, unfolding(crate::specs::Walk::oer_coding))]
impl OerSession {
    /// A session for a value of the type, which has taken no octet.
    ///
    /// # Errors
    /// `Memory` where an allocation failed.
    pub(crate) fn open(alloc: Global, ty: Checked) -> Result<OerSession, OpenFault>
        ensures { IfOk result (λ q. OerTook q (shape_of ty) (waiting [])) }
    {
        Ok(OerSession {
            inner: asn_resuming::open::<OerInPieces>(alloc, ty)?,
        })
    }

    /// Takes the next piece.
    ///
    /// # Errors
    /// As `asn_rules::Rules::feed`.
    pub(crate) fn feed(&mut self, piece: &[u8]) -> Result<Step, FeedFault>
        ensures answered { Feeds oer_ruling OerTook self.old self.new piece.now result }
        ensures ticked { TicksOn oer_ruling OerTook oer_ticked self.old self.new piece.now result }
        ensures few { GivesFewOf OerTook self.old result }
    {
        asn_resuming::feed::<OerInPieces>(&mut self.inner, piece)
    }

    /// How many units its levels took. Takes no memory.
    pub(crate) fn ticks(&self) -> u64
        ensures count { result ≡ oer_ticked self.now }
        ensures seen { Counts oer_ruling OerTook self.now result }
    {
        asn_resuming::ticks::<OerInPieces>(&self.inner)
    }

    /// The octets that it keeps. Takes no memory.
    pub(crate) fn kept(&self) -> &[u8]
        ensures { Keeps oer_ruling OerTook self.now result.now }
    {
        asn_resuming::kept::<OerInPieces>(&self.inner)
    }

    /// How much of a message it holds. Takes no memory.
    pub(crate) fn held(&self) -> u64
        ensures count { result ≡ oer_holds self.now }
        ensures few { HoldsFew OerTook self.now result }
    {
        asn_resuming::held::<OerInPieces>(&self.inner)
    }

    /// Ends the session. Takes no memory.
    ///
    /// # Errors
    /// As `asn_rules::Rules::finish`.
    pub(crate) fn finish(self) -> Result<(), Truncated>
        ensures { (t : Shape) (past : Past) → OerTook self t past → Finished oer_ruling t past result }
    {
        let OerSession { inner } = self;
        asn_resuming::finish::<OerInPieces>(inner)
    }
}
