//! A session of a type with a constraint.
ghost use Rattle.tulvorn_c.specs.Held.{Constrained, constrained_of};
ghost use Rattle.tulvorn_c.specs.Sessions.{PastUnder, TookBeside, HasTaken, AnswersUnder, EndsUnder};

use crate::fault::{DONE, Fault, MORE, NO_MEMORY};
use crate::handle::Handle;
use crate::held::HeldType;
use crate::sessions::put_value;
use std::alloc::Global;
use tulvorn::{Rules, Session, Step, Unit};

/// A session, and what its constraint asks for.
#[derive(Drop)]
pub struct HeldSession<R: Rules> {
    pub(crate) session: Session<R>,
    /// How many octets it took. After a value that breaks the constraint: those of its encoding.
    pub(crate) taken: u64,
    /// Whether it returned a value that breaks the constraint.
    pub(crate) is_broken: bool,
}

/// Takes the next piece. The constraint is judged when the message ends.
pub(crate) fn feed_by<R: Rules>(
    alloc: Global,
    ty: &HeldType,
    unit: Unit,
    held: &mut HeldSession<R>,
    piece: &[u8],
    value: &mut Handle,
    used: &mut usize,
) -> Fault
    ensures { (t : Constrained) (past : PastUnder)
        → TookBeside (constrained_of ty.now) (R.took held.old.session.inner) held.old.is_broken held.old.taken t past
        → AnswersUnder unit R.ruling
        (TookBeside (constrained_of ty.now) (R.took held.new.session.inner) held.new.is_broken held.new.taken)
        t past piece.now value.old.kept value.new.kept used.old used.new result }
{
    if held.is_broken {
        return Fault::broken(held.taken, unit);
    }
    match held.session.feed(piece) {
        Ok(
            Step::Done {
                value: read,
                used: taken,
            },
        ) => {
            held.taken = held.taken.saturating_add(taken as u64);
            if !ty.admits(&read) {
                held.is_broken = true;
                return Fault::broken(held.taken, unit);
            }
            match put_value(alloc, ty, read, value) {
                Ok(()) => {
                    *used = taken;
                    Fault::plain(DONE)
                }
                Err(_) => Fault::plain(NO_MEMORY),
            }
        }
        Ok(Step::More) => {
            held.taken = held.taken.saturating_add(piece.len() as u64);
            Fault::plain(MORE)
        }
        Err(fault) => Fault::of_feed(fault),
    }
}

/// Ends the session.
pub(crate) fn end_by<R: Rules>(held: HeldSession<R>, unit: Unit) -> Fault
    ensures { (t : Constrained) (past : PastUnder)
        → HasTaken (R.took held.session.inner t.shape) held.is_broken held.taken past
        → EndsUnder unit R.ruling t past result }
{
    let HeldSession {
        session,
        taken,
        is_broken,
    } = held;
    if is_broken {
        return Fault::cut_before(taken, unit);
    }
    Fault::of_end(session.finish())
}
