//! Messages of newer and older senders under a constraint.
ghost use Rattle.asn_values.specs.View.{shape_of};
ghost use Rattle.asn_constraints.specs.View.{constraint_of};
ghost use Rattle.asn_constrained.specs.Newer.{JudgedNewer, ReadUnder};

use crate::codec::broken_in;
use crate::constrained_type::ConstrainedType;
use asn_constraints::laws::spelling_asks_no_more;
use asn_constraints::{Broken, Constraint, judge_spelling};
use asn_newer::{NewerFault, ReadNewer};
use asn_rules::Newer;
use std::alloc::Global;
use thiserror::Error;

/// What is read of a message of some version of the type, and the first constraint that its value breaks. A newer
/// version may have loosened it.
#[derive(Debug, Drop)]
pub struct ConstrainedNewer {
    /// the value, and the fields that were skipped
    pub newer: Newer,
    /// what the value breaks, and where
    pub broken: Option<Broken>,
}

/// Why octets are read as no message of any version of a type under a constraint.
#[derive(Debug, Drop, Error)]
pub enum ConstrainedNewerFault {
    /// what is reported of the type alone, also that memory was wanting while the constraint was judged
    #[error("{0}")]
    Type(NewerFault),
    /// The message breaks a constraint of spelling, which each version keeps. Reported is the first constraint that its
    /// value breaks.
    #[error("{}", .0.reason)]
    Spelling(Broken),
}

impl ConstrainedType {
    /// Reads the octets as a message of some version of the type: see `ReadNewer::read_newer`. What the constraint
    /// says of spelling is judged: no DEFAULT is written out, no group is empty, named bits and times have no last
    /// zeros. Of the rest the first that the value breaks is returned.
    ///
    /// # Errors
    /// `Spelling` where the message breaks a constraint of spelling. Else `Type`, as `ReadNewer::read_newer`.
    pub fn read_newer<R: ReadNewer>(
        &self,
        alloc: Global,
        octets: &[u8],
    ) -> Result<ConstrainedNewer, ConstrainedNewerFault>
        ensures { ReadUnder R.loose (constraint_of self.now.constraint.value) result
            (shape_of self.now.planned) octets.now }
    {
        match R::read_newer(alloc, self.ty(), octets) {
            Err(fault) => Err(ConstrainedNewerFault::Type(fault)),
            Ok(newer) => judged_newer(alloc, self.constraint(), newer),
        }
    }
}

/// The message with the first constraint that its value breaks, if it keeps those of spelling.
fn judged_newer(
    alloc: Global,
    constraint: &Constraint,
    newer: Newer,
) -> Result<ConstrainedNewer, ConstrainedNewerFault>
    ensures { JudgedNewer (constraint_of constraint.now) newer result }
{
    spelling_asks_no_more();
    if judge_spelling(constraint, &newer.value) {
        match broken_in(alloc, constraint, &newer.value) {
            Ok(broken) => Ok(ConstrainedNewer { newer, broken }),
            Err(_) => Err(ConstrainedNewerFault::Type(NewerFault::Memory)),
        }
    } else {
        match broken_in(alloc, constraint, &newer.value) {
            Ok(Some(broken)) => Err(ConstrainedNewerFault::Spelling(broken)),
            Ok(None) => unreachable!(),
            Err(_) => Err(ConstrainedNewerFault::Type(NewerFault::Memory)),
        }
    }
}
