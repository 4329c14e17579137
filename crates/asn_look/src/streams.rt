//! Messages that stand one after the other in an input, cut as they come.
ghost use Rattle.std.specs.Prelude.{◌≡◌, ◌≢◌, ◌≤◌, ◌<◌, ◌++◌, [], ℕ, List, length, take, Some, IfOk, OnOk, MatchBool};
ghost use Rattle.std.specs.Io.KnownBytes.{Consumes};
ghost use Rattle.asn_values.specs.Shape.{Shape};
ghost use Rattle.asn_values.specs.View.{shape_of};
ghost use Rattle.asn_rules.specs.Sessions.{waiting};
ghost use Rattle.asn_look.specs.declared.streams.Next.TheVariants as next;
ghost use Rattle.asn_look.specs.Named.{ruling_of};
ghost use Rattle.asn_look.specs.Streams.{Cuts, Ends, IsKnown, IsMessage, IsNext, Takes, Waits};

use asn_jobs::{RuleName, RunFault};
use asn_oer::Oer;
use asn_per::Per;
use asn_rules::{DecodeFault, FeedFault, OpenFault, Rules, Session, Step, decode, open};
use asn_values::Checked;
use std::alloc::Global;
use std::io::{BufRead, ErrorKind};

/// What comes next in an input.
#[derive(Clone, Copy, PartialEq, Eq, Drop)]
pub enum Next {
    /// A message.
    Message,
    /// Octets that begin with no message, which may be cut short by the input's end. All that were read, where a value
    /// of the type has no octets.
    Last,
    /// Nothing.
    End,
}

/// Puts the octets of the next message in place of those that are there. Of the input no more is taken than these.
///
/// # Errors
/// `Read` where the reader answered a fault, `Memory` where an allocation failed.
pub fn next_message<R: BufRead>(
    alloc: Global,
    input: &mut R,
    ty: &Checked,
    rules: RuleName,
    octets: &mut Vec<u8>,
) -> Result<Next, RunFault>
    ensures { Cuts (ruling_of rules) (shape_of ty.now) result (R.remaining input.old) (R.remaining input.new)
        octets.new.items }
{
    match rules {
        RuleName::Per => next_by::<Per, R>(alloc, input, ty, octets),
        RuleName::Oer => next_by::<Oer, R>(alloc, input, ty, octets),
    }
}

/// The same by the rules S.
fn next_by<S: Rules, R: BufRead>(
    alloc: Global,
    input: &mut R,
    ty: &Checked,
    octets: &mut Vec<u8>,
) -> Result<Next, RunFault>
    ensures { Cuts S.ruling (shape_of ty.now) result (R.remaining input.old) (R.remaining input.new) octets.new.items }
{
    octets.clear();
    if front_at_hand::<S, R>(alloc, input, ty, octets)? {
        return Ok(Next::Message);
    }
    let mut session = opened::<S>(alloc, ty)?;
    feed_message::<S, R>(input, &mut session, octets)
}

/// Feeds the session what is read until it is known what stands there, and appends that to the octets.
fn feed_message<S: Rules, R: BufRead>(
    input: &mut R,
    session: &mut Session<S>,
    octets: &mut Vec<u8>,
) -> Result<Next, RunFault>
    ensures taken { OnOk result (Takes (R.remaining input.old) (R.remaining input.new)
        octets.old.items octets.new.items) }
    ensures known { (t : Shape) → Waits S.ruling (λ q. S.took q.inner) session.old t octets.old.items
        → IfOk result (λ next.
        IsNext S.ruling t next octets.new.items (R.remaining input.old) (R.remaining input.new)) }
{
    for _ in 0..u64::MAX {
        match fed::<S, R>(input, session, octets)? {
            None => {}
            Some(Next::End) if octets.is_empty() => return Ok(Next::End),
            Some(Next::End) => return Ok(Next::Last),
            Some(Next::Last) => return Ok(Next::Last),
            Some(Next::Message) => return Ok(Next::Message),
        }
    }
    // (more pieces than 64 bits count)
    Err(RunFault::Memory)
}

/// Appends the next message to the octets, if all of it was read, and it has any. Tells whether it did.
fn front_at_hand<S: Rules, R: BufRead>(
    alloc: Global,
    input: &mut R,
    ty: &Checked,
    octets: &mut Vec<u8>,
) -> Result<bool, RunFault>
    ensures { IfOk result (λ is_there. (more : List ℕ) × (octets.new.items ≡ octets.old.items ++ more)
        × Consumes (R.remaining input.old) (R.remaining input.new) more
        × MatchBool is_there (IsMessage S.ruling (shape_of ty.now) more) (more ≡ [])) }
{
    let piece = match input.fill_buf() {
        Ok(piece) => piece,
        Err(fault) => return Err(fault_of(fault.kind())),
    };
    let used = message_len::<S>(alloc, ty, piece)?;
    octets.extend_from_slice(&piece[..used])?;
    input.consume(used);
    Ok(used > 0)
}

/// How many octets the message has that they begin with; 0 where they begin with none that is whole.
fn message_len<S: Rules>(alloc: Global, ty: &Checked, octets: &[u8]) -> Result<usize, RunFault>
    ensures within { IfOk result (λ n. n ≤ length octets.now) }
    ensures message { IfOk result (λ n. 0 < n → IsMessage S.ruling (shape_of ty.now) (take n octets.now)) }
{
    match decode::<S>(alloc, ty, octets) {
        Err(DecodeFault::Rest { used }) => return Ok(used),
        Err(DecodeFault::Memory) => return Err(RunFault::Memory),
        Err(_) => return Ok(0),
        Ok(_) => {}
    }
    Ok(octets.len())
}

/// A session for the next message.
fn opened<S: Rules>(alloc: Global, ty: &Checked) -> Result<Session<S>, RunFault>
    ensures { IfOk result (λ q. S.took q.inner (shape_of ty.now) (waiting [])) }
{
    match open::<S>(alloc, ty.copy()?) {
        Ok(session) => Ok(session),
        Err(OpenFault::Memory) => Err(RunFault::Memory),
    }
}

/// Feeds the session what was read, and appends what of that belongs to the message. Tells what stands there, if that
/// is known now.
fn fed<S: Rules, R: BufRead>(
    input: &mut R,
    session: &mut Session<S>,
    octets: &mut Vec<u8>,
) -> Result<Option<Next>, RunFault>
    ensures taken { OnOk result (Takes (R.remaining input.old) (R.remaining input.new)
        octets.old.items octets.new.items) }
    ensures known { (t : Shape) → Waits S.ruling (λ q. S.took q.inner) session.old t octets.old.items
        → IfOk result (λ o. IsKnown S.ruling (λ q. S.took q.inner) session.new t o octets.new.items) }
    ensures end { IfOk result (λ o. o ≡ Some next.End → Ends (R.remaining input.old) (R.remaining input.new)) }
{
    let piece = match input.fill_buf() {
        Ok(piece) => piece,
        Err(fault) => return Err(fault_of(fault.kind())),
    };
    if piece.is_empty() {
        return Ok(Some(Next::End));
    }
    let (used, next) = answered::<S>(session, piece)?;
    octets.extend_from_slice(&piece[..used])?;
    input.consume(used);
    Ok(next)
}

/// Feeds the session a piece: how many octets of that belong to the message, and what stands there, if it is known now.
fn answered<S: Rules>(
    session: &mut Session<S>,
    piece: &[u8],
) -> Result<(usize, Option<Next>), RunFault>
    ensures within { IfOk result (λ p. p.0 ≤ length piece.now) }
    ensures some { IfOk result (λ p. p.1 ≢ Some next.End) }
    ensures known { (t : Shape) (s : List ℕ) → 0 < length piece.now
        → Waits S.ruling (λ q. S.took q.inner) session.old t s
        → IfOk result (λ p. IsKnown S.ruling (λ q. S.took q.inner) session.new t p.1 (s ++ take p.0 piece.now)) }
{
    match session.feed(piece) {
        Ok(Step::Done { used, .. }) if used > 0 => {
            Ok((used.min(piece.len()), Some(Next::Message)))
        }
        // (a message without octets is one of all octets that were read)
        Ok(Step::Done { .. }) => Ok((piece.len(), Some(Next::Last))),
        Ok(Step::More) => Ok((piece.len(), None)),
        Err(FeedFault::Refused { .. }) => Ok((piece.len(), Some(Next::Last))),
        Err(FeedFault::TooLong) => Ok((piece.len(), Some(Next::Last))),
        Err(FeedFault::Spent) => Ok((piece.len(), Some(Next::Last))),
        Err(FeedFault::Memory) => Err(RunFault::Memory),
    }
}

/// The fault of a reader: an allocation that failed, or another.
fn fault_of(kind: ErrorKind) -> RunFault {
    if kind == ErrorKind::OutOfMemory {
        RunFault::Memory
    } else {
        RunFault::Read
    }
}
