//! Sessions of PER: messages whose octets come in pieces.
ghost use Rattle.std.specs.Prelude.{◌≡◌, [], ℕ, List, IfOk};
ghost use Rattle.std.specs.Coded.{codes};
ghost use Rattle.asn_values.specs.Shape.{Shape};
ghost use Rattle.asn_values.specs.View.{shape_of};
ghost use Rattle.asn_values.specs.contracts.checked.Checked as types;
ghost use Rattle.asn_values.specs.contracts.value.Value as values;
ghost use Rattle.asn_rules.specs.Holding.{HoldsFew, GivesFewOf};
ghost use Rattle.asn_rules.specs.Kept.{Keeps};
ghost use Rattle.asn_rules.specs.Sessions.{Past, waiting, Feeds, Finished};
ghost use Rattle.asn_rules.specs.Ticks.{Counts, TicksOn};
ghost use Rattle.asn_resuming.specs.declared.session.Resuming.{Resuming as TheResuming};
ghost use Rattle.asn_per.specs.Rules.{per_ruling};
ghost use Rattle.asn_per.specs.Sessions.{PerTook, per_ticked, per_holds};
ghost use Rattle.asn_per.specs.declared.fragments.Fragments.{Fragments as TheFragments};

use crate::fragments::Fragments;
use crate::in_pieces::PerInPieces;
use asn_resuming::Resuming;
use asn_rules::{FeedFault, OpenFault, Step, Truncated};
use asn_values::Checked;
use std::alloc::Global;
use std::marker::Model;

/// A session of PER, which keeps the nodes of the value that have begun. Some octets have brought it there.
#[derive(Drop)]
pub struct PerSession {
    inner: Resuming<Fragments>,
}

impl Model for PerSession {
    ghost Value = { TheResuming TheFragments };

    ghost coded = { Prim.hlevel (codes, types.the_row.coded, values.the_row.coded) };

    ghost view = { λ s. s.inner };

    ghost invariant = { λ s. (t : Shape) × (past : Past) × PerTook s.inner t past };
}

#[tactic(auto, unfolding(crate::specs::Walk::per_coding))]
impl PerSession {
    /// A session for a value of the type, which has taken no octet.
    ///
    /// # Errors
    /// `Memory` where an allocation failed.
    pub(crate) fn open(alloc: Global, ty: Checked) -> Result<PerSession, OpenFault>
        ensures { IfOk result (λ q. PerTook q (shape_of ty) (waiting [])) }
    {
        Ok(PerSession {
            inner: asn_resuming::open::<PerInPieces>(alloc, ty)?,
        })
    }

    /// Takes the next piece.
    ///
    /// # Errors
    /// As `asn_rules::Rules::feed`.
    pub(crate) fn feed(&mut self, piece: &[u8]) -> Result<Step, FeedFault>
        ensures answered { Feeds per_ruling PerTook self.old self.new piece.now result }
        ensures ticked { TicksOn per_ruling PerTook per_ticked self.old self.new piece.now result }
        ensures few { GivesFewOf PerTook self.old result }
    {
        asn_resuming::feed::<PerInPieces>(&mut self.inner, piece)
    }

    /// How many units its levels took. Takes no memory.
    pub(crate) fn ticks(&self) -> u64
        ensures count { result ≡ per_ticked self.now }
        ensures seen { Counts per_ruling PerTook self.now result }
    {
        asn_resuming::ticks::<PerInPieces>(&self.inner)
    }

    /// The octets that it keeps. Takes no memory.
    pub(crate) fn kept(&self) -> &[u8]
        ensures { Keeps per_ruling PerTook self.now result.now }
    {
        asn_resuming::kept::<PerInPieces>(&self.inner)
    }

    /// How much of a message it holds. Takes no memory.
    pub(crate) fn held(&self) -> u64
        ensures count { result ≡ per_holds self.now }
        ensures few { HoldsFew PerTook self.now result }
    {
        asn_resuming::held::<PerInPieces>(&self.inner)
    }

    /// Ends the session. Takes no memory.
    ///
    /// # Errors
    /// As `asn_rules::Rules::finish`.
    pub(crate) fn finish(self) -> Result<(), Truncated>
        ensures { (t : Shape) (past : Past) → PerTook self t past → Finished per_ruling t past result }
    {
        let PerSession { inner } = self;
        asn_resuming::finish::<PerInPieces>(inner)
    }
}
