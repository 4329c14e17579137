//! Jobs under the encoding rules that they name.
ghost use Rattle.std.specs.Prelude.{◌≡◌};
ghost use Rattle.asn_convert.specs.Named.{Ran, Failed, RanOnLines, StoppedOnLines, OneTold, OneBegun, rules_of};
ghost use Rattle.asn_convert.specs.Parts.{Wrote, Broke};

use crate::coming::run_coming;
use crate::running;
use crate::running::run_with;
use asn_jobs::{Job, Order, RuleName, RunFault, Status};
use asn_oer::Oer;
use asn_per::Per;
use asn_plan::Planned;
use asn_rules::Counted;
use std::alloc::Global;
use std::io::{Read, Write};

/// Reads all of the input, and writes the text of the job: the module printed, or an answer for each line.
///
/// The input is cut at LF. The module text is all before the first line that is exactly `====`, and the lines after
/// it are the job's; without such a line all is module text. Each line is answered, written and freed before the
/// next. The writer is flushed at the end. Nothing is tried again after a fault.
///
/// # Errors
/// `Read` only where the reader answered a fault: nothing was written. `Write` only where the writer answered one, and
/// `Memory` where an allocation failed: what was written is a beginning of the text.
pub fn run<R: Read, W: Write>(
    alloc: Global,
    input: &mut Counted<R>,
    output: &mut Counted<W>,
    job: &Job,
) -> Result<Status, RunFault>
    ensures text { Ran job.now result R.remaining input.old W.contents output.old output.new }
    ensures fault { Failed job.now result R.remaining input.old input.new W.contents output.old output.new }
{
    match rules_of(job) {
        RuleName::Per => run_with::<Per, Oer, R, W>(alloc, input, output, job),
        RuleName::Oer => run_with::<Oer, Per, R, W>(alloc, input, output, job),
    }
}

/// Writes the text of the job for a module that is there from the first and lines that come: the module printed, or an
/// answer for each line.
///
/// The module text is all of `head` before the first line that is exactly `====`, or all of it where there is none;
/// what follows that line in `head` is not looked at. The lines are those of the input alone, each ended by LF but the
/// last, which may lack it. As soon as a piece of the input has come, the lines that it ends are answered and the
/// writer is flushed; no more of the input is kept than a piece and the line that has begun. Where the module is
/// refused, is to be printed or has no type of the name, nothing is read. Nothing is tried again after a fault.
///
/// # Errors
/// `Read` only where the reader answered a fault, `Write` only where the writer answered one, and `Memory` where an
/// allocation failed: what was written is a beginning of the text for the lines that were read.
pub fn run_on_lines<R: Read, W: Write>(
    alloc: Global,
    head: &[u8],
    input: &mut Counted<R>,
    output: &mut Counted<W>,
    job: &Job,
) -> Result<Status, RunFault>
    ensures text { RanOnLines job.now head.now result R.remaining input.old W.contents output.old output.new }
    ensures fault { StoppedOnLines job.now head.now result
        R.remaining input.old input.new W.contents output.old output.new }
{
    match rules_of(job) {
        RuleName::Per => run_coming::<Per, Oer, R, W>(alloc, head, input, output, job),
        RuleName::Oer => run_coming::<Oer, Per, R, W>(alloc, head, input, output, job),
    }
}

/// Answers one line, without its LF, for the type. Returns whether the answer is no refusal. The writer is not flushed.
///
/// # Errors
/// `Write` only where the writer answered a fault, and `Memory` where an allocation failed: what was written is a
/// beginning of the answer.
pub fn answer_line<W: Write>(
    alloc: Global,
    output: &mut Counted<W>,
    planned: &Planned,
    order: Order,
    rules: RuleName,
    line: &[u8],
) -> Result<bool, RunFault>
    ensures told { Wrote result W.contents output.old output.new (OneTold rules order planned.now line.now) }
    ensures begun { Broke result W.contents output.old output.new (OneBegun rules order planned.now line.now) }
{
    match rules {
        RuleName::Per => {
            running::answer_line::<Per, Oer, W>(alloc, output, planned, order, rules, line)
        }
        RuleName::Oer => {
            running::answer_line::<Oer, Per, W>(alloc, output, planned, order, rules, line)
        }
    }
}

/// The rules that a job names; PER where it has no octets.
fn rules_of(job: &Job) -> RuleName
    ensures { result ≡ rules_of job.now }
{
    match job {
        Job::Module => RuleName::Per,
        Job::Lines { rules, .. } => *rules,
    }
}
