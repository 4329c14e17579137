//! A session under a constraint, by any encoding rules.
ghost use Rattle.std.specs.Prelude.{◌≡◌};
ghost use Rattle.asn_values.specs.Shape.{Shape};
ghost use Rattle.asn_rules.specs.Holding.{HoldsFew};
ghost use Rattle.asn_rules.specs.Kept.{Keeps};
ghost use Rattle.asn_rules.specs.Ticks.{Counts};
ghost use Rattle.asn_constraints.specs.Constraints.{Constraint as Rule};
ghost use Rattle.asn_constraints.specs.View.{constraint_of};
ghost use Rattle.asn_constrained.specs.Sessions.{PastUnder, TookUnder, FeedsUnder, FinishedUnder};

use crate::codec::{broken_in, is_free};
use crate::fault::{ConstrainedFeedFault, FinishFault};
use asn_constraints::Constraint;
use asn_rules::{FeedFault, Rules, Step};
use std::alloc::Global;
use std::sync::Arc;

/// Whether a session has answered, and what.
#[derive(Clone, Copy, Debug, PartialEq, Eq)]
pub enum End {
    /// nothing that ends it, or a fault of the type that it answers again
    Going,
    /// a value that meets the constraint
    Met,
    /// that a value breaks the constraint
    Broken,
    /// that memory was wanting
    Spent,
}

/// What is kept, by the rules R, of a message whose octets come in pieces, under a constraint. The constraint is judged
/// once, at the last unit of the message.
#[derive(Drop)]
pub struct ConstrainedSession<R: Rules> {
    pub(crate) inner: R::Session,
    pub(crate) constraint: Arc<Constraint>,
    pub(crate) alloc: Global,
    pub(crate) end: End,
}

impl<R: Rules> ConstrainedSession<R> {
    /// Takes the next piece: see `Rules::feed`.
    ///
    /// # Errors
    /// `Broken` where the octets so far begin with the encoding of a value that breaks the constraint; `Type` with
    /// `Memory` also where memory was wanting while it was judged. Else as `Rules::feed`. A session that answered
    /// `Broken` answers `Spent` to every further piece.
    pub fn feed(&mut self, piece: &[u8]) -> Result<Step, ConstrainedFeedFault>
        ensures { FeedsUnder R.ruling
            (λ q. TookUnder R.ruling R.took q.inner (constraint_of q.constraint.value) q.end)
            self.old self.new piece.now result }
    {
        match R::feed(&mut self.inner, piece) {
            Ok(Step::Done { value, used }) => match broken_in(
                self.alloc,
                &self.constraint,
                &value,
            ) {
                Ok(None) => {
                    self.end = End::Met;
                    Ok(Step::Done { value, used })
                }
                Ok(Some(broken)) => {
                    self.end = End::Broken;
                    Err(ConstrainedFeedFault::Broken { used, broken })
                }
                Err(_) => {
                    self.end = End::Spent;
                    Err(ConstrainedFeedFault::Type(FeedFault::Memory))
                }
            },
            Ok(Step::More) => Ok(Step::More),
            Err(FeedFault::Refused { at, why }) => {
                Err(ConstrainedFeedFault::Type(FeedFault::Refused { at, why }))
            }
            Err(FeedFault::TooLong) => Err(ConstrainedFeedFault::Type(FeedFault::TooLong)),
            Err(FeedFault::Memory) => {
                self.end = End::Spent;
                Err(ConstrainedFeedFault::Type(FeedFault::Memory))
            }
            Err(FeedFault::Spent) => Err(ConstrainedFeedFault::Type(FeedFault::Spent)),
        }
    }

    /// How many units its levels took: see `Rules::ticks`. Takes no memory.
    pub fn ticks(&self) -> u64
        ensures count { result ≡ R.ticked self.now.inner }
        ensures seen { Counts R.ruling (λ q. R.took q.inner) self.now result }
    {
        R::ticks(&self.inner)
    }

    /// The octets that it keeps: see `Rules::kept`. Takes no memory.
    pub fn kept(&self) -> &[u8]
        ensures { Keeps R.ruling (λ q. R.took q.inner) self.now result.now }
    {
        R::kept(&self.inner)
    }

    /// How much of a message it holds: see `Rules::held`. Takes no memory.
    pub fn held(&self) -> u64
        ensures count { result ≡ R.holds self.now.inner }
        ensures few { HoldsFew (λ q. R.took q.inner) self.now result }
    {
        R::held(&self.inner)
    }

    /// Ends the session: whether the octets taken are a whole encoding under the constraint. Takes no memory.
    ///
    /// # Errors
    /// `Type` where they are no whole encoding of the type: see `Rules::finish`. `Broken` where they are that of a
    /// value that breaks the constraint. `NotJudged` where no value was answered: after `Memory`, and where no piece
    /// was taken and the type has a value whose encoding has no octets.
    pub fn finish(self) -> Result<(), FinishFault>
        ensures { (t : Shape) (c : Rule) (past : PastUnder)
            → TookUnder R.ruling R.took self.inner (constraint_of self.constraint.value) self.end t c past
            → FinishedUnder R.ruling t c past result }
    {
        match self.end {
            End::Met => Ok(()),
            End::Broken => Err(FinishFault::Broken),
            End::Spent => Err(FinishFault::NotJudged),
            End::Going => {
                let free = is_free(&self.constraint);
                match R::finish(self.inner) {
                    Err(cut) => Err(FinishFault::Type(cut)),
                    Ok(()) => {
                        if free {
                            Ok(())
                        } else {
                            Err(FinishFault::NotJudged)
                        }
                    }
                }
            }
        }
    }
}
