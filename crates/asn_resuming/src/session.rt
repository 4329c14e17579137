//! Sessions: `open`, `feed` and `finish` as `asn_rules::Rules` has them, for any rules whose parts a piece may cut.
ghost use Rattle.std.specs.Prelude.{◌≡◌, [], ℕ, List, IfOk};
ghost use Rattle.asn_values.specs.Shape.{Shape};
ghost use Rattle.asn_values.specs.View.{shape_of};
ghost use Rattle.asn_rules.specs.Holding.{HoldsFew, GivesFewOf};
ghost use Rattle.asn_rules.specs.Kept.{Keeps};
ghost use Rattle.asn_rules.specs.Sessions.{Past, waiting, Feeds, Finished};
ghost use Rattle.asn_rules.specs.Ticks.{Counts, TicksOn};
ghost use Rattle.asn_walk_feed.specs.Counts.{count_of};
ghost use Rattle.asn_walk_feed.specs.Holding.{held_in, counted};
ghost use Rattle.asn_walk_feed.specs.Nodes.{nodes};
ghost use Rattle.asn_resuming.specs.Resumed.{Resumes};

use crate::reading::{ReadsAtOnce, read_next, units_of};
use asn_rules::{FeedFault, MAX_OCTETS, OpenFault, Step, Truncated};
use asn_values::Checked;
use asn_walk_feed::{FeedLeaves, Frames, Ticks};
use std::alloc::Global;

/// What a session answers next.
#[derive(Clone, Copy, Debug)]
enum State {
    /// An answer to all octets so far.
    Waiting,
    /// This fault, to every piece.
    Stopped(FeedFault),
    /// `Spent`, to every piece.
    Over,
}

/// A session that goes on where the last piece ended.
#[derive(Drop)]
pub struct Resuming<F> {
    alloc: Global,
    ty: Checked,
    // the nodes that have begun, while it waits for more
    frames: Frames<F>,
    // how many units and how many octets have come, while it waits for more
    units: u64,
    octets: usize,
    ticks: Ticks,
    state: State,
    // what `finish` answers
    end: Result<(), Truncated>,
}

/// A session for a value of the type, which has taken no octet: see `asn_rules::Rules::open`.
///
/// # Errors
/// `Memory` where an allocation failed.
pub fn open<R: ReadsAtOnce>(alloc: Global, ty: Checked) -> Result<Resuming<R::Fragments>, OpenFault>
    ensures { IfOk result (λ q. Resumes R.rules R.fields R.ahead R.is_between q (shape_of ty) (waiting [])) }
{
    R::keep_laws();
    let _ = ty.get();
    let end = if R::may_be_empty(alloc, &ty)? {
        Ok(())
    } else {
        Err(Truncated { taken: 0 })
    };
    Ok(Resuming {
        alloc,
        ty,
        frames: Frames::none(alloc),
        units: 0,
        octets: 0,
        ticks: Ticks::none(),
        state: State::Waiting,
        end,
    })
}

/// Takes the next piece: see `asn_rules::Rules::feed`.
///
/// # Errors
/// As `asn_rules::Rules::feed`.
pub fn feed<R: ReadsAtOnce>(
    session: &mut Resuming<R::Fragments>,
    piece: &[u8],
) -> Result<Step, FeedFault>
    requires known { (t : Shape) × (past : Past) × Resumes R.rules R.fields R.ahead R.is_between session.old t past }
    ensures answered { Feeds R.rules.ruling (λ q. Resumes R.rules R.fields R.ahead R.is_between q) session.old
        session.new piece.now result }
    ensures ticked { TicksOn R.rules.ruling (λ q. Resumes R.rules R.fields R.ahead R.is_between q)
        (λ q. count_of q.ticks) session.old session.new piece.now result }
    ensures few { GivesFewOf (λ q. Resumes R.rules R.fields R.ahead R.is_between q) session.old result }
{
    match session.state {
        State::Waiting => {}
        State::Stopped(fault) => return Err(fault),
        State::Over => return Err(FeedFault::Spent),
    }
    R::keep_laws();
    R::keep_hold_laws();
    let room = MAX_OCTETS.saturating_sub(session.octets);
    let message = &piece[..piece.len().min(room)];
    let octets = session.octets + message.len();
    let units = session.units + units_of::<R>(message);
    match read_next::<R>(
        session.alloc,
        &session.ty,
        session.units,
        session.octets,
        &mut session.frames,
        &mut session.ticks,
        message,
    ) {
        Ok(Step::Done { value, used }) => {
            session.frames = Frames::none(session.alloc);
            session.state = State::Over;
            session.end = Ok(());
            Ok(Step::Done { value, used })
        }
        Ok(Step::More) => {
            session.end = Err(Truncated { taken: units });
            if octets == MAX_OCTETS {
                session.frames = Frames::none(session.alloc);
                session.state = State::Stopped(FeedFault::TooLong);
                return Err(FeedFault::TooLong);
            }
            session.octets = octets;
            session.units = units;
            Ok(Step::More)
        }
        Err(FeedFault::Refused { at, why }) => {
            let taken = at.saturating_sub(1);
            session.end = Err(Truncated { taken });
            session.frames = Frames::none(session.alloc);
            session.state = State::Stopped(FeedFault::Refused { at, why });
            Err(FeedFault::Refused { at, why })
        }
        Err(FeedFault::Memory | FeedFault::Spent | FeedFault::TooLong) => {
            session.frames = Frames::none(session.alloc);
            session.state = State::Over;
            Err(FeedFault::Memory)
        }
    }
}

/// How many units the levels of the session took: see `asn_rules::Rules::ticks`. Takes no memory.
pub fn ticks<R: FeedLeaves>(session: &Resuming<R::Fragments>) -> u64
    ensures count { result ≡ count_of session.now.ticks }
    ensures seen { Counts R.rules.ruling (λ q. Resumes R.rules R.fields R.ahead R.is_between q) session.now result }
{
    session.ticks.count()
}

/// The octets that the session keeps: see `asn_rules::Rules::kept`. Takes no memory.
pub fn kept<R: FeedLeaves>(session: &Resuming<R::Fragments>) -> &[u8]
    ensures { Keeps R.rules.ruling (λ q. Resumes R.rules R.fields R.ahead R.is_between q) session.now result.now }
{
    R::keep_laws();
    R::keep_feed_laws();
    R::keep_field_laws();
    R::keep_string_laws();
    R::keep_kept_laws();
    match session.state {
        State::Waiting => session.frames.kept(session.ty.get()),
        State::Stopped(_) | State::Over => &[],
    }
}

/// How much the session holds: see `asn_rules::Rules::held`. Takes no memory.
pub fn held<R: FeedLeaves>(session: &Resuming<R::Fragments>) -> u64
    ensures count { result ≡ counted (held_in (nodes session.now.frames)) }
    ensures few { HoldsFew (λ q. Resumes R.rules R.fields R.ahead R.is_between q) session.now result }
{
    R::keep_laws();
    R::keep_kept_laws();
    R::keep_hold_laws();
    session.frames.held()
}

/// Ends a session: see `asn_rules::Rules::finish`. Takes no memory.
///
/// # Errors
/// As `asn_rules::Rules::finish`.
pub fn finish<R: FeedLeaves>(session: Resuming<R::Fragments>) -> Result<(), Truncated>
    ensures { (t : Shape) (past : Past) → Resumes R.rules R.fields R.ahead R.is_between session t past
        → Finished R.rules.ruling t past result }
{
    let Resuming { end, .. } = session;
    end
}
