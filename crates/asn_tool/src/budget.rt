//! Lines whose values may take no more than a budget.
ghost use Rattle.std.specs.Prelude.{◌≡◌};
ghost use Rattle.asn_convert.specs.Parts.{Wrote, Broke};
ghost use Rattle.asn_convert.specs.Text.{IsFront, ended};
ghost use Rattle.asn_look.specs.Budget.{over_text};
ghost use Rattle.asn_tool.specs.Budget.{BegunWithin, ToldWithin};

use asn_convert::{Order, RuleName, RunFault, answer_line};
use asn_look::{over_in_line, over_text};
use asn_plan::{Planned, Taken};
use asn_rules::Counted;
use std::alloc::Global;
use std::io::Write;

/// How a line was answered.
#[derive(Clone, Copy)]
pub enum Answered {
    /// As `answer_line` answers it: true where that is no refusal.
    Line(bool),
    /// It was refused: its octets are the encoding of a value that takes so much, which is over the budget.
    Over(Taken),
}

/// Answers one line, without its LF, for the type of the plan, as `answer_line` does, unless its value takes too much.
/// That is where the order has octets of the type, and those of the line are the encoding of a value that takes more
/// than `most` entries, or `most` octets of strings. `asn_plan::Taken` counts them. Such a line is refused in words of
/// its own, with what the value takes, and no value of it is built. The writer is not flushed.
///
/// # Errors
/// `Write` only where the writer answered a fault, and `Memory` where an allocation failed: what was written is a
/// beginning of the answer.
pub fn answer_within<W: Write>(
    alloc: Global,
    output: &mut Counted<W>,
    planned: &Planned,
    most: u32,
    order: Order,
    rules: RuleName,
    line: &[u8],
) -> Result<Answered, RunFault>
    ensures told { Wrote result W.contents output.old output.new
        (ToldWithin rules order planned.now most line.now) }
    ensures begun { Broke result W.contents output.old output.new
        (BegunWithin rules order planned.now most line.now) }
{
    match over_in_line(alloc, planned, most, order, rules, line)? {
        Some(taken) => {
            put_over(alloc, output, &taken)?;
            Ok(Answered::Over(taken))
        }
        None => {
            let is_good = answer_line(alloc, output, planned, order, rules, line)?;
            Ok(Answered::Line(is_good))
        }
    }
}

/// Writes the refusal of a line whose value is over the budget, with its LF.
fn put_over<W: Write>(alloc: Global, output: &mut Counted<W>, taken: &Taken) -> Result<(), RunFault>
    ensures told { Wrote result W.contents output.old output.new (λ _ out. out ≡ ended (over_text taken.now)) }
    ensures begun { Broke result W.contents output.old output.new (λ out. IsFront out (ended (over_text taken.now))) }
{
    let mut text = over_text(alloc, taken)?;
    text.push_str("\n")?;
    put(output, text.as_str())
}

/// Writes the text.
fn put<W: Write>(output: &mut Counted<W>, text: &str) -> Result<(), RunFault>
    ensures ok { Wrote result W.contents output.old output.new (λ _ out. out ≡ text.now) }
    ensures err { Broke result W.contents output.old output.new (λ out. IsFront out text.now) }
{
    match output.write_all(text.as_bytes()) {
        Ok(()) => Ok(()),
        Err(_) => Err(RunFault::Write),
    }
}
