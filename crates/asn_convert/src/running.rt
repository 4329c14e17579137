//! A whole job: reads all, and writes the text of the job.
ghost use Rattle.std.specs.Prelude.{◌≡◌, ◌≢◌, IfOk, IfErr, OnOk, string_bytes};
ghost use Rattle.asn_module.specs.ModuleView.{types_view};
ghost use Rattle.asn_module.specs.declared.fault.ModuleFault.{ModuleFault};
ghost use Rattle.asn_convert.specs.Parts.{Wrote, Broke, JobTold, JobBegun, ModuleTold, ModuleBegun, LinesTold, LinesBegun, LineTold, LineBegun, RanBy, FailedBy};
ghost use Rattle.asn_jobs.specs.Lines.{IsOneLine};
ghost use Rattle.asn_convert.specs.Text.{IsModule, IsRefusal, is_past_most};

use crate::answers::answer_to;
use crate::laws::lines_have_answers;
use crate::put::{put, put_answer, put_octets};
use crate::reading::read_all;
use crate::texts::Reply;
use asn_jobs::{Job, Order, RuleName, RunFault, Status, cut_input, next_line};
use asn_module::{Module, ModuleFault, read};
use asn_newer::ReadNewer;
use asn_plan::{PlanRules, Planned};
use asn_rules::{Counted, Rules};
use asn_values::Checked;
use std::alloc::{AllocError, Global};
use std::io::{Read, Write};

/// Reads all, and writes the text of the job, octets being those of the rules A, or converted to those of B.
pub(crate) fn run_with<A: ReadNewer + PlanRules, B: Rules, R: Read, W: Write>(
    alloc: Global,
    input: &mut Counted<R>,
    output: &mut Counted<W>,
    job: &Job,
) -> Result<Status, RunFault>
    ensures text { RanBy A.ruling B.ruling A.loose job.now result
        R.remaining input.old W.contents output.old output.new }
    ensures fault { FailedBy A.ruling B.ruling A.loose job.now result
        R.remaining input.old input.new W.contents output.old output.new }
{
    let octets = read_all(alloc, input)?;
    write_text::<A, B, W>(alloc, output, job, octets.as_slice())
}

/// Writes the text of the job for this input, and lets the writer hold nothing back.
fn write_text<A: ReadNewer + PlanRules, B: Rules, W: Write>(
    alloc: Global,
    output: &mut Counted<W>,
    job: &Job,
    input: &[u8],
) -> Result<Status, RunFault>
    ensures text { Wrote result W.contents output.old output.new
        (JobTold A.ruling B.ruling A.loose job.now input.now) }
    ensures fault { Broke result W.contents output.old output.new
        (JobBegun A.ruling B.ruling A.loose job.now input.now) }
{
    let status = answer_input::<A, B, W>(alloc, output, job, input)?;
    match output.flush() {
        Ok(()) => Ok(status),
        Err(_) => Err(RunFault::Write),
    }
}

/// Writes the text of the job for this input.
fn answer_input<A: ReadNewer + PlanRules, B: Rules, W: Write>(
    alloc: Global,
    output: &mut Counted<W>,
    job: &Job,
    input: &[u8],
) -> Result<Status, RunFault>
    ensures text { Wrote result W.contents output.old output.new
        (JobTold A.ruling B.ruling A.loose job.now input.now) }
    ensures fault { Broke result W.contents output.old output.new
        (JobBegun A.ruling B.ruling A.loose job.now input.now) }
{
    let (text, lines) = cut_input(input);
    match module_in(alloc, text)? {
        Ok(accepted) => answer_module::<A, B, W>(alloc, output, job, &accepted, lines),
        Err(refusal) => {
            put(output, refusal.as_str())?;
            Ok(Status::NoModule)
        }
    }
}

/// The module of the text, or the line that refuses it: as none, or as one that is too large.
pub(crate) fn module_in(alloc: Global, text: &[u8]) -> Result<Result<Module, String>, RunFault>
    ensures accepted { IfOk result (λ r. IfOk r (λ m. IsModule text.now (types_view m))) }
    ensures refused { IfOk result (λ r. IfErr r (λ line. IsRefusal text.now (string_bytes line))) }
    ensures fault { IfErr result (λ fault. fault ≡ RunFault.Memory) }
{
    let Ok(text) = std::str::from_utf8(text) else {
        return Ok(Err(String::from_str(alloc, "! module not text\n")?));
    };
    match read(alloc, text) {
        Ok(accepted) => Ok(Ok(accepted)),
        Err(fault) => {
            let is_larger = is_past_most(&fault);
            let words = words_of(alloc, fault)?;
            if is_larger {
                let line = format!(in alloc; "! module too large: {words}\n")?;
                return Ok(Err(line));
            }
            let line = format!(in alloc; "! module {words}\n")?;
            Ok(Err(line))
        }
    }
}

/// Whether the fault is that of a module which is larger than is read.
fn is_past_most(fault: &ModuleFault) -> bool
    ensures { result ≡ is_past_most fault.now }
{
    matches!(fault, ModuleFault::TooLarge { .. })
}

/// What a fault of a module says, in one line.
///
/// # Errors
/// `AllocError` where an allocation failed, here or while the module was read.
fn words_of(alloc: Global, fault: ModuleFault) -> Result<String, AllocError>
    ensures told { OnOk result (fault ≢ ModuleFault.Memory) }
    ensures one_line { IfOk result (λ words. IsOneLine (string_bytes words)) }
{
    if let ModuleFault::Memory = fault {
        return Err(AllocError);
    }
    let words = format!(in alloc; "{fault}")?;
    if words.as_bytes().contains(&b'\n') {
        // no name that a fault tells has a line feed
        return String::from_str(alloc, "refused");
    }
    Ok(words)
}

/// Writes the text of the job for this module and these lines.
pub(crate) fn answer_module<A: ReadNewer + PlanRules, B: Rules, W: Write>(
    alloc: Global,
    output: &mut Counted<W>,
    job: &Job,
    accepted: &Module,
    lines: &[u8],
) -> Result<Status, RunFault>
    ensures text { Wrote result W.contents output.old output.new
        (ModuleTold A.ruling B.ruling A.loose job.now accepted.now lines.now) }
    ensures fault { Broke result W.contents output.old output.new
        (ModuleBegun A.ruling B.ruling A.loose job.now accepted.now lines.now) }
{
    match job {
        Job::Module => {
            let text = accepted.print(alloc)?;
            put(output, text.as_str())?;
            Ok(Status::Good)
        }
        Job::Lines {
            order,
            type_name,
            rules,
        } => match accepted.type_named(type_name.as_str()) {
            Some(ty) => {
                if answer_all::<A, B, W>(alloc, output, ty, *order, *rules, lines)? {
                    Ok(Status::Good)
                } else {
                    Ok(Status::Marked)
                }
            }
            None => {
                let line = format!(in alloc; "! no type {type_name}\n")?;
                put(output, line.as_str())?;
                Ok(Status::NoModule)
            }
        },
    }
}

/// Answers each line by a plan of the type, and tells whether no answer is a refusal.
fn answer_all<A: ReadNewer + PlanRules, B: Rules, W: Write>(
    alloc: Global,
    output: &mut Counted<W>,
    ty: &Checked,
    order: Order,
    rules: RuleName,
    lines: &[u8],
) -> Result<bool, RunFault>
    ensures told { Wrote result W.contents output.old output.new
        (LinesTold A.ruling B.ruling A.loose rules order ty.now lines.now) }
    ensures begun { Broke result W.contents output.old output.new
        (LinesBegun A.ruling B.ruling A.loose rules order ty.now lines.now) }
{
    lines_have_answers::<A, B>(ty);
    let planned = with_plan(alloc, ty)?;
    answer_lines::<A, B, W>(alloc, output, &planned, order, rules, lines)
}

/// The type with its plan, which is worked out once for all lines.
pub(crate) fn with_plan(alloc: Global, ty: &Checked) -> Result<Planned, RunFault>
    ensures planned { IfOk result (λ p. p ≡ ty.now) }
    ensures fault { IfErr result (λ fault. fault ≡ RunFault.Memory) }
{
    Ok(Planned::new(alloc, ty.copy()?)?)
}

/// Answers each line, and tells whether no answer is a refusal.
pub(crate) fn answer_lines<A: ReadNewer + PlanRules, B: Rules, W: Write>(
    alloc: Global,
    output: &mut Counted<W>,
    planned: &Planned,
    order: Order,
    rules: RuleName,
    lines: &[u8],
) -> Result<bool, RunFault>
    ensures told { Wrote result W.contents output.old output.new
        (LinesTold A.ruling B.ruling A.loose rules order planned.now lines.now) }
    ensures begun { Broke result W.contents output.old output.new
        (LinesBegun A.ruling B.ruling A.loose rules order planned.now lines.now) }
{
    lines_have_answers::<A, B>(planned.get());
    let mut rest = lines;
    let mut all_good = true;
    while let Some((line, later)) = next_line(rest) {
        let is_good = answer_line::<A, B, W>(alloc, output, planned, order, rules, line)?;
        all_good &= is_good;
        rest = later;
    }
    Ok(all_good)
}

/// Answers one line, and tells whether the answer is no refusal. What is answered is let go at the end.
pub(crate) fn answer_line<A: ReadNewer + PlanRules, B: Rules, W: Write>(
    alloc: Global,
    output: &mut Counted<W>,
    planned: &Planned,
    order: Order,
    rules: RuleName,
    line: &[u8],
) -> Result<bool, RunFault>
    ensures told { Wrote result W.contents output.old output.new
        (LineTold A.ruling B.ruling A.loose rules order planned.now line.now) }
    ensures begun { Broke result W.contents output.old output.new
        (LineBegun A.ruling B.ruling A.loose rules order planned.now line.now) }
{
    match answer_to::<A, B>(alloc, planned, order, rules, line)? {
        Reply::Text(answer) => put_answer(output, answer),
        Reply::Encoded(value) => put_octets::<A, W>(output, planned.get(), &value),
        Reply::Converted(value) => put_octets::<B, W>(output, planned.get(), &value),
    }
}
