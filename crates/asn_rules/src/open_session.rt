//! A session of any encoding rules as a value with methods.
ghost use Rattle.std.specs.Prelude.{◌≡◌, [], IfOk};
ghost use Rattle.asn_values.specs.Shape.{Shape};
ghost use Rattle.asn_values.specs.View.{shape_of};
ghost use Rattle.asn_rules.specs.Holding.{HoldsFew, GivesFewOf};
ghost use Rattle.asn_rules.specs.Kept.{Keeps};
ghost use Rattle.asn_rules.specs.Sessions.{Past, waiting, Feeds, Finished};
ghost use Rattle.asn_rules.specs.Ticks.{Counts, TicksOn};

use crate::rules::Rules;
use crate::session::{FeedFault, OpenFault, Step, Truncated};
use asn_values::Checked;
use std::alloc::Global;

/// A session of the rules R: what they keep of a message whose octets come in pieces.
#[derive(Drop)]
pub struct Session<R: Rules> {
    inner: R::Session,
}

/// A session for a value of the type, which has taken no octet: see `Rules::open`.
///
/// # Errors
/// `Memory` where an allocation failed.
pub fn open<R: Rules>(alloc: Global, ty: Checked) -> Result<Session<R>, OpenFault>
    ensures { IfOk result (λ q. R.took q.inner (shape_of ty) (waiting [])) }
{
    Ok(Session {
        inner: R::open(alloc, ty)?,
    })
}

impl<R: Rules> Session<R> {
    /// Takes the next piece: see `Rules::feed`.
    ///
    /// # Errors
    /// As `Rules::feed`.
    pub fn feed(&mut self, piece: &[u8]) -> Result<Step, FeedFault>
        ensures answered { Feeds R.ruling (λ q. R.took q.inner) self.old self.new piece.now result }
        ensures ticked { TicksOn R.ruling (λ q. R.took q.inner) (λ q. R.ticked q.inner) self.old self.new
            piece.now result }
        ensures few { GivesFewOf (λ q. R.took q.inner) self.old result }
    {
        R::feed(&mut self.inner, piece)
    }

    /// How many units its levels took: see `Rules::ticks`. Takes no memory.
    pub fn ticks(&self) -> u64
        ensures count { result ≡ R.ticked self.now.inner }
        ensures seen { Counts R.ruling (λ q. R.took q.inner) self.now result }
    {
        R::ticks(&self.inner)
    }

    /// The octets that it keeps: see `Rules::kept`. Takes no memory.
    pub fn kept(&self) -> &[u8]
        ensures { Keeps R.ruling (λ q. R.took q.inner) self.now result.now }
    {
        R::kept(&self.inner)
    }

    /// How much of a message it holds: see `Rules::held`. Takes no memory.
    pub fn held(&self) -> u64
        ensures count { result ≡ R.holds self.now.inner }
        ensures few { HoldsFew (λ q. R.took q.inner) self.now result }
    {
        R::held(&self.inner)
    }

    /// Ends the session: whether the octets taken are a whole encoding. Takes no memory.
    ///
    /// # Errors
    /// As `Rules::finish`.
    pub fn finish(self) -> Result<(), Truncated>
        ensures { (t : Shape) (past : Past) → R.took self.inner t past → Finished R.ruling t past result }
    {
        R::finish(self.inner)
    }
}
