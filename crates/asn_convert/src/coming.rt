//! A job whose lines are answered as they come, its module being there from the first.
ghost use Rattle.std.specs.Prelude.{◌≡◌, ◌++◌, IfNone, IfSome, []};
ghost use Rattle.asn_module.specs.ModuleView.{types_view};
ghost use Rattle.asn_convert.specs.Coming.{AreWholeLines, HasNoEnd, HasNoTypeFor, IsTypeFor, Ended, Stopped, TextBy, BegunBy, ModuleBy, ModuleBegunBy, LinesBy, LinesBegunBy, Took, TookPart};
ghost use Rattle.asn_convert.specs.Parts.{Wrote, Broke, LinesTold, LinesBegun};

use crate::laws::lines_have_answers;
use crate::put::put;
use crate::running::{answer_lines, answer_module, module_in, with_plan};
use asn_jobs::{Job, Order, RuleName, RunFault, Status, cut_input};
use asn_module::Module;
use asn_newer::ReadNewer;
use asn_plan::{PlanRules, Planned};
use asn_rules::{Counted, Rules};
use asn_values::Checked;
use memchr::memrchr;
use std::alloc::Global;
use std::io::{Read, Write};

/// How many octets are asked for at once.
const PIECE: usize = 65536;

/// Writes the text of the job for the module in front of the mark and the lines that the reader gives, octets being those
/// of the rules A, or converted to those of B.
pub(crate) fn run_coming<A: ReadNewer + PlanRules, B: Rules, R: Read, W: Write>(
    alloc: Global,
    head: &[u8],
    input: &mut Counted<R>,
    output: &mut Counted<W>,
    job: &Job,
) -> Result<Status, RunFault>
    ensures text { Ended result R.remaining input.old W.contents output.old output.new
        (TextBy A.ruling B.ruling A.loose job.now head.now) }
    ensures fault { Stopped result R.remaining input.old input.new W.contents output.old output.new
        (BegunBy A.ruling B.ruling A.loose job.now head.now) }
{
    let (text, _) = cut_input(head);
    match module_in(alloc, text)? {
        Ok(accepted) => answer_coming::<A, B, R, W>(alloc, input, output, job, &accepted),
        Err(refusal) => {
            put(output, refusal.as_str())?;
            put_through(output)?;
            Ok(Status::NoModule)
        }
    }
}

/// Writes the text of the job for this module and the lines that the reader gives.
fn answer_coming<A: ReadNewer + PlanRules, B: Rules, R: Read, W: Write>(
    alloc: Global,
    input: &mut Counted<R>,
    output: &mut Counted<W>,
    job: &Job,
    accepted: &Module,
) -> Result<Status, RunFault>
    ensures text { Ended result R.remaining input.old W.contents output.old output.new
        (ModuleBy A.ruling B.ruling A.loose job.now accepted.now) }
    ensures fault { Stopped result R.remaining input.old input.new W.contents output.old output.new
        (ModuleBegunBy A.ruling B.ruling A.loose job.now accepted.now) }
{
    match type_for(job, accepted) {
        Some((ty, order, rules)) => {
            if answer_stream::<A, B, R, W>(alloc, input, output, ty, order, rules)? {
                Ok(Status::Good)
            } else {
                Ok(Status::Marked)
            }
        }
        None => {
            let status = answer_module::<A, B, W>(alloc, output, job, accepted, b"".as_slice())?;
            put_through(output)?;
            Ok(status)
        }
    }
}

/// The type that the job's lines are answered for, what is made of a line, and the rules; `None` where the module has no
/// such type, or is only to be printed.
fn type_for<'a>(job: &Job, accepted: &'a Module) -> Option<(&'a Checked, Order, RuleName)>
    ensures none { IfNone result (HasNoTypeFor job.now (types_view accepted.now)) }
    ensures some { IfSome result (λ p. IsTypeFor job.now (types_view accepted.now) p.0.now p.1 p.2) }
{
    let Job::Lines {
        order,
        type_name,
        rules,
    } = job
    else {
        return None;
    };
    let ty = accepted.type_named(type_name.as_str())?;
    Some((ty, *order, *rules))
}

/// Answers each line that the reader gives, those of a piece once it has come, and tells whether no answer is a refusal.
/// Of the input no more is kept than a piece and the line that has begun.
fn answer_stream<A: ReadNewer + PlanRules, B: Rules, R: Read, W: Write>(
    alloc: Global,
    input: &mut Counted<R>,
    output: &mut Counted<W>,
    ty: &Checked,
    order: Order,
    rules: RuleName,
) -> Result<bool, RunFault>
    ensures told { Ended result R.remaining input.old W.contents output.old output.new
        (LinesBy A.ruling B.ruling A.loose rules order ty.now) }
    ensures begun { Stopped result R.remaining input.old input.new W.contents output.old output.new
        (LinesBegunBy A.ruling B.ruling A.loose rules order ty.now) }
{
    lines_have_answers::<A, B>(ty);
    let planned = with_plan(alloc, ty)?;
    let mut held = Vec::new(alloc);
    let mut all_good = true;
    let mut piece = [0; PIECE];
    for _ in 0..u64::MAX {
        let count = match input.read(&mut piece) {
            Ok(count) => count,
            Err(_) => return Err(RunFault::Read),
        };
        if count == 0 {
            let held = held.as_slice();
            let is_good = answer_held::<A, B, W>(alloc, output, &planned, order, rules, held)?;
            return Ok(all_good & is_good);
        }
        let is_good = answer_piece::<A, B, W>(
            alloc,
            output,
            &planned,
            order,
            rules,
            &mut held,
            &piece[..count],
        )?;
        all_good &= is_good;
    }
    // (more pieces than 64 bits count)
    Err(RunFault::Memory)
}

/// Answers the lines that end within a piece, the first of which begins with what is held. What begins the next line is
/// held then.
fn answer_piece<A: ReadNewer + PlanRules, B: Rules, W: Write>(
    alloc: Global,
    output: &mut Counted<W>,
    planned: &Planned,
    order: Order,
    rules: RuleName,
    held: &mut Vec<u8>,
    piece: &[u8],
) -> Result<bool, RunFault>
    ensures told { Took result W.contents output.old output.new held.old.items piece.now held.new.items
        (LinesTold A.ruling B.ruling A.loose rules order planned.now) }
    ensures begun { TookPart result W.contents output.old output.new held.old.items piece.now
        (LinesBegun A.ruling B.ruling A.loose rules order planned.now) }
{
    let (ended, begun) = cut_last_line(piece);
    if ended.is_empty() {
        held.extend_from_slice(begun)?;
        return Ok(true);
    }
    held.extend_from_slice(ended)?;
    let is_good = answer_held::<A, B, W>(alloc, output, planned, order, rules, held.as_slice())?;
    held.clear();
    held.extend_from_slice(begun)?;
    Ok(is_good)
}

/// Answers the lines that are held, and lets the writer hold nothing back.
fn answer_held<A: ReadNewer + PlanRules, B: Rules, W: Write>(
    alloc: Global,
    output: &mut Counted<W>,
    planned: &Planned,
    order: Order,
    rules: RuleName,
    held: &[u8],
) -> Result<bool, RunFault>
    ensures told { Wrote result W.contents output.old output.new
        (LinesTold A.ruling B.ruling A.loose rules order planned.now held.now) }
    ensures begun { Broke result W.contents output.old output.new
        (LinesBegun A.ruling B.ruling A.loose rules order planned.now held.now) }
{
    let is_good = answer_lines::<A, B, W>(alloc, output, planned, order, rules, held)?;
    put_through(output)?;
    Ok(is_good)
}

/// Lets the writer hold nothing back.
fn put_through<W: Write>(output: &mut Counted<W>) -> Result<(), RunFault>
    ensures ok { Wrote result W.contents output.old output.new (λ _ out. out ≡ []) }
    ensures err { Broke result W.contents output.old output.new (λ out. out ≡ []) }
{
    match output.flush() {
        Ok(()) => Ok(()),
        Err(_) => Err(RunFault::Write),
    }
}

/// The whole lines of a piece, up to its last LF, and what follows them.
fn cut_last_line(piece: &[u8]) -> (&[u8], &[u8])
    ensures parts { piece.now ≡ result.0.now ++ result.1.now }
    ensures ended { AreWholeLines result.0.now }
    ensures begun { HasNoEnd result.1.now }
{
    match memrchr(b'\n', piece) {
        Some(index) => piece.split_at(index + 1),
        None => piece.split_at(0),
    }
}
