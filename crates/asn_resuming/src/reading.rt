//! The next octets of a message, read from where the last ones ended.
ghost use Rattle.std.specs.Prelude.{◌≡◌, ◌≤◌, ◌+◌, ℕ, List, length, IfOk};
ghost use Rattle.asn_values.specs.View.{shape_of};
ghost use Rattle.asn_rules.specs.Answer.{max_octets};
ghost use Rattle.asn_rules.specs.AtOnce.{FedAtOnce, TellsIfNone};
ghost use Rattle.asn_walk_feed.specs.Nodes.{nodes};
ghost use Rattle.asn_resuming.specs.Counting.{Going, CountsAfter};
ghost use Rattle.asn_resuming.specs.Reached.{Reached, AnswersOn};

use asn_bits::BitCursor;
use asn_rules::internal::Stop;
use asn_rules::laws::are_octets;
use asn_rules::{FeedFault, Step};
use asn_values::Checked;
use asn_walk_feed::{FeedLeaves, Frames, Ticks, Units, feed_complete};
use std::alloc::{AllocError, Global};

/// Encoding rules that read messages in pieces, and one that has come whole where it lies.
pub trait ReadsAtOnce: FeedLeaves {
    /// Reads the value whose encoding the octets begin with. Only the first 268,435,455 octets are read.
    ///
    /// # Errors
    /// As a session's answer to its first piece (`asn_rules::Rules::feed`).
    fn read(alloc: Global, ty: &Checked, octets: &[u8]) -> Result<Step, FeedFault>
        ensures { FedAtOnce Self.rules.ruling (shape_of ty.now) octets.now result };

    /// Whether the empty message, of no octets, is the encoding of a value of the type.
    ///
    /// # Errors
    /// `AllocError` where an allocation failed.
    fn may_be_empty(alloc: Global, ty: &Checked) -> Result<bool, AllocError>
        ensures { IfOk result (TellsIfNone Self.rules.ruling (shape_of ty.now)) };
}

/// How many units these octets are.
pub(crate) fn units_of<R: FeedLeaves>(octets: &[u8]) -> u64
    requires few { length octets.now ≤ max_octets }
    ensures { result ≡ length (R.rules.ruling.units octets.now) }
{
    R::keep_laws();
    are_octets(octets);
    R::units_left(&BitCursor::over(octets)) as u64
}

/// Reads the next octets of a message of which `octets` have come, which are `units` units, and these nodes have begun.
/// Where the message goes on, the nodes tell where. The first octets are read where they lie, and from no node where
/// more are wanted: then they tick; a message that is read where it lies ticks once a unit that is seen.
///
/// # Errors
/// `Refused` as `asn_rules::Rules::feed`; `Memory` where an allocation failed.
pub(crate) fn read_next<R: ReadsAtOnce>(
    alloc: Global,
    ty: &Checked,
    units: u64,
    octets: usize,
    frames: &mut Frames<R::Fragments>,
    ticks: &mut Ticks,
    piece: &[u8],
) -> Result<Step, FeedFault>
    requires reached { (s : List ℕ) × Reached R.rules R.fields R.ahead R.is_between (nodes frames.old)
        (shape_of ty.now) units octets s }
    requires few { octets + length piece.now ≤ max_octets }
    requires taken { ticks.old.taken ≡ units }
    ensures answered { (s : List ℕ) → Reached R.rules R.fields R.ahead R.is_between (nodes frames.old) (shape_of ty.now)
        units octets s → AnswersOn R.rules R.fields R.ahead R.is_between (nodes frames.new) (shape_of ty.now) s
        piece.now result }
    ensures counted { (s : List ℕ) → Reached R.rules R.fields R.ahead R.is_between (nodes frames.old)
        (shape_of ty.now) units octets s → Going R.rules R.fields R.ahead R.is_between (nodes frames.old)
        (shape_of ty.now) (length (R.rules.ruling.units s)) ticks.old → CountsAfter R.rules R.fields R.ahead
        R.is_between (nodes frames.new) (shape_of ty.now) s piece.now result ticks.new }
{
    R::keep_laws();
    if octets > 0 {
        return read_on::<R>(alloc, ty, units, octets, frames, ticks, piece);
    }
    match R::read(alloc, ty, piece) {
        Ok(Step::Done { value, used }) => {
            ticks.add(units_of::<R>(&piece[..used]));
            Ok(Step::Done { value, used })
        }
        Err(FeedFault::Refused { at, why }) => {
            ticks.add(at);
            Err(FeedFault::Refused { at, why })
        }
        Err(FeedFault::Memory) => Err(FeedFault::Memory),
        Ok(Step::More) => read_on::<R>(alloc, ty, units, octets, frames, ticks, piece),
        Err(FeedFault::TooLong) => read_on::<R>(alloc, ty, units, octets, frames, ticks, piece),
        Err(FeedFault::Spent) => read_on::<R>(alloc, ty, units, octets, frames, ticks, piece),
    }
}

/// As `read_next`, from where the last octets ended.
///
/// # Errors
/// As `read_next`.
fn read_on<R: FeedLeaves>(
    alloc: Global,
    ty: &Checked,
    units: u64,
    octets: usize,
    frames: &mut Frames<R::Fragments>,
    ticks: &mut Ticks,
    piece: &[u8],
) -> Result<Step, FeedFault>
    requires reached { (s : List ℕ) × Reached R.rules R.fields R.ahead R.is_between (nodes frames.old)
        (shape_of ty.now) units octets s }
    requires few { octets + length piece.now ≤ max_octets }
    requires taken { ticks.old.taken ≡ units }
    ensures answered { (s : List ℕ) → Reached R.rules R.fields R.ahead R.is_between (nodes frames.old) (shape_of ty.now)
        units octets s → AnswersOn R.rules R.fields R.ahead R.is_between (nodes frames.new) (shape_of ty.now) s
        piece.now result }
    ensures counted { (s : List ℕ) → Reached R.rules R.fields R.ahead R.is_between (nodes frames.old)
        (shape_of ty.now) units octets s → Going R.rules R.fields R.ahead R.is_between (nodes frames.old)
        (shape_of ty.now) (length (R.rules.ruling.units s)) ticks.old → CountsAfter R.rules R.fields R.ahead
        R.is_between (nodes frames.new) (shape_of ty.now) s piece.now result ticks.new }
{
    R::keep_laws();
    are_octets(piece);
    let all = units + units_of::<R>(piece);
    let mut ahead = Units::over(piece);
    match feed_complete::<R>(alloc, ty.get(), units, frames, &mut ahead, ticks) {
        Ok(value) => {
            let used = piece.len() - R::octets_left(&ahead.ahead());
            Ok(Step::Done { value, used })
        }
        Err(Stop::Refused { left, why }) => Err(FeedFault::Refused {
            at: all - left as u64,
            why,
        }),
        Err(Stop::Short) => Ok(Step::More),
        Err(Stop::Memory) => Err(FeedFault::Memory),
    }
}
