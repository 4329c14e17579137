//! A session for values whose contents are judged too.
ghost use Rattle.asn_constraints.specs.View.{constraint_of};
ghost use Rattle.asn_constrained.specs.Sessions.{TookUnder};
ghost use Rattle.asn_contents.specs.View.{contents_of};
ghost use Rattle.asn_containing.specs.View.{table_of};
ghost use Rattle.asn_containing.specs.Sessions.{FeedsJudged};

use crate::fault::ContainingFeedFault;
use crate::judging::judge_contents;
use crate::table::TableType;
use asn_constrained::ConstrainedSession;
use asn_plan::PlanRules;
use asn_rules::Step;
use std::alloc::Global;
use std::sync::Arc;

/// What is kept, by the rules R, of a message whose octets come in pieces. Its contents are judged once, at its last
/// unit.
#[derive(Drop)]
pub struct ContainingSession<R: PlanRules> {
    pub(crate) inner: ConstrainedSession<R>,
    pub(crate) outer: Arc<TableType>,
    pub(crate) table: Arc<Vec<TableType>>,
    pub(crate) alloc: Global,
}

impl<R: PlanRules> ContainingSession<R> {
    /// Takes the next piece: see `ConstrainedSession::feed`.
    ///
    /// # Errors
    /// `Contents` where the octets so far begin with the encoding of a value in which octets are not the encodings that
    /// they have to be; `Memory` where an allocation failed while they were judged. A session that answered so answers
    /// `Spent` to every further piece. Else `Type`, as `ConstrainedSession::feed`.
    pub fn feed(&mut self, piece: &[u8]) -> Result<Step, ContainingFeedFault>
        ensures { FeedsJudged R.ruling
            (λ q. TookUnder R.ruling R.took q.inner (constraint_of q.constraint.value) q.end)
            self.old.inner self.new.inner piece.now
            (table_of self.old.table.value.items) (contents_of self.old.outer.value.contents) result }
    {
        match self.inner.feed(piece) {
            Ok(Step::More) => Ok(Step::More),
            Ok(Step::Done { value, used }) => match judge_contents::<R>(
                self.alloc,
                &self.table,
                &self.outer.contents,
                &value,
            ) {
                Ok(None) => Ok(Step::Done { value, used }),
                Ok(Some(broken)) => Err(ContainingFeedFault::Contents { used, broken }),
                Err(_) => Err(ContainingFeedFault::Memory),
            },
            Err(fault) => Err(ContainingFeedFault::Type(fault)),
        }
    }
}
