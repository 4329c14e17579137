//! The answer to one message, in the form and the layout that is asked for. Standard error says why it is refused.
use crate::budget::{Answered, answer_within};
use crate::demands::Demands;
use crate::marking::{answer_published, judge_version};
use crate::writing::{put, put_octets, put_refusal, tell, text_in};
use asn_constrained::ConstrainedType;
use asn_convert::{Job, Order, RuleName, RunFault, answer_line};
use asn_jobs::{CountFault, OctetForm, Place, Progress, octets_in};
use asn_json_layout::Layout;
use asn_look::{
    Counts, MOST_ENTRIES, MessageType, TakenBack, json_over, laid_text, newer_line, over_words,
    taken_back, why_refused, widest_of,
};
use asn_request::asking::{Asking, Forms, Versions};
use asn_rules::Counted;
use asn_values::Checked;
use std::alloc::AllocError;
use std::io::Write;

/// What is made of messages.
#[derive(Clone, Copy)]
pub struct Asked<'t> {
    /// The type of the messages, with its plan, its constraint and its contents.
    pub messages: &'t MessageType,
    pub order: Order,
    pub rules: RuleName,
    pub forms: Forms,
    pub layout: Layout,
    pub versions: Versions,
    /// Whether standard error says why a message is refused.
    pub is_explained: bool,
    /// Whether messages are counted.
    pub is_counted: bool,
    /// The most that a value may take, if there is a bound.
    pub budget: Option<u32>,
    /// What the published type has in addition to this type.
    pub demands: Demands<'t>,
    /// Whether a message is answered plainly though a part of it is not looked at.
    pub is_wider_taken: bool,
    /// That of `asn_look::widest_of` for the type.
    pub widest: u64,
}

impl<'t> Asked<'t> {
    /// What is made of the messages of a job, for this type; `None` where the module is to be printed.
    pub fn of(
        asking: &Asking<'_>,
        job: &Job,
        messages: &'t MessageType,
        demands: Demands<'t>,
    ) -> Option<Asked<'t>> {
        let Job::Lines { order, rules, .. } = job else {
            return None;
        };
        Some(Asked {
            messages,
            order: *order,
            rules: *rules,
            forms: asking.forms,
            layout: asking.layout,
            versions: asking.versions,
            is_explained: asking.is_explained,
            is_counted: asking.is_counted,
            budget: asking.budget,
            demands,
            is_wider_taken: asking.is_wider_taken,
            widest: widest_of(messages.constrained().ty().get()),
        })
    }

    /// The type of the messages under its constraint.
    pub fn constrained(&self) -> &'t ConstrainedType {
        self.messages.constrained()
    }

    /// The type of the messages.
    pub fn ty(&self) -> &'t Checked {
        self.constrained().ty()
    }

    /// Whether JSON is laid out.
    fn is_laid(&self) -> bool {
        self.layout.is_declared || self.layout.is_pretty || self.versions.is_json
    }

    /// Whether an answer is written as it is.
    fn is_as_it_is(&self) -> bool {
        let is_hexadecimal = matches!(
            self.forms.written,
            None | Some(OctetForm::Hex | OctetForm::HexBlock)
        );
        is_hexadecimal && !self.is_counted && !self.is_laid()
    }
}

/// Where the answers go, and what is counted of them.
#[derive(Drop)]
pub struct Answers<W> {
    pub output: Counted<W>,
    pub counts: Counts,
    pub progress: Progress,
    /// Whether a part of a message is not looked at.
    pub has_unlooked: bool,
}

/// Answers one line of hexadecimal or JSON, and returns whether that is no refusal.
///
/// # Errors
/// `Write` where the writer answered a fault, `Memory` where an allocation failed.
pub fn answer_one<W: Write>(
    rt: &HostRuntime,
    answers: &mut Answers<W>,
    place: Place<'_>,
    line: &[u8],
    asked: Asked<'_>,
) -> Result<bool, RunFault> {
    if !asked.versions.is_taken_back {
        return answer_line_of(rt, answers, place, line, asked);
    }
    match taken_back(rt.alloc(), line)? {
        TakenBack::Value(value) => answer_line_of(rt, answers, place, value.as_bytes(), asked),
        TakenBack::Refused(refusal, reason) => {
            put_refusal(rt, answers, place, refusal.as_bytes(), asked)?;
            if asked.is_explained {
                tell(rt, place, reason)?;
            }
            Ok(false)
        }
    }
}

/// The same of a line that is hexadecimal or the JSON of a value itself.
fn answer_line_of<W: Write>(
    rt: &HostRuntime,
    answers: &mut Answers<W>,
    place: Place<'_>,
    line: &[u8],
    asked: Asked<'_>,
) -> Result<bool, RunFault> {
    if let Some(entries) = over_by_json(rt, line, asked)? {
        return refuse_json(rt, answers, place, entries, asked);
    }
    if !asked.demands.is_nothing() && asked.order != Order::Newer {
        return answer_published(rt, answers, place, line, asked);
    }
    if asked.demands.constraint.is_some() || asked.demands.has_contents {
        if let Some(is_good) = judge_version(rt, answers, place, line, asked)? {
            return Ok(is_good);
        }
    }
    let answered = if asked.is_as_it_is() {
        answer_to(rt, &mut answers.output, line, asked)?
    } else {
        answer_otherwise(rt, answers, place, line, asked)?
    };
    let is_good = matches!(answered, Answered::Line(true));
    if !is_good && asked.is_explained {
        tell_why(rt, place, line, &answered, asked)?;
    }
    Ok(is_good)
}

/// Says on standard error why a line was refused.
pub fn tell_why(
    rt: &HostRuntime,
    place: Place<'_>,
    line: &[u8],
    answered: &Answered,
    asked: Asked<'_>,
) -> Result<(), RunFault> {
    let words = match answered {
        Answered::Over(taken) => over_words(rt.alloc(), taken)?,
        Answered::Line(_) => why_refused(rt.alloc(), asked.ty(), asked.order, asked.rules, line)?,
    };
    tell(rt, place, words.as_str())
}

/// How many entries the value of a line of JSON takes, if these are too many.
fn over_by_json(
    rt: &HostRuntime,
    line: &[u8],
    asked: Asked<'_>,
) -> Result<Option<u64>, AllocError> {
    if asked.order != Order::Encode {
        return Ok(None);
    }
    let most = u64::from(asked.budget.unwrap_or(MOST_ENTRIES));
    json_over(rt.alloc(), asked.ty(), line, asked.widest, most)
}

/// Refuses a line of JSON whose value takes so many entries.
fn refuse_json<W: Write>(
    rt: &HostRuntime,
    answers: &mut Answers<W>,
    place: Place<'_>,
    entries: u64,
    asked: Asked<'_>,
) -> Result<bool, RunFault> {
    let refusal = format!(in rt.alloc(); "! over budget: {entries} entries\n")?;
    put_refusal(rt, answers, place, refusal.as_bytes(), asked)?;
    if asked.is_explained {
        let most = asked.budget.unwrap_or(MOST_ENTRIES);
        let words = format!(in rt.alloc();
            "the value takes {entries} entries, and at most {most} are allowed; --budget N allows N"
        )?;
        tell(rt, place, words.as_str())?;
    }
    Ok(false)
}

/// Answers one line of hexadecimal or JSON by a line, as it is answered where nothing but a bound is asked for.
pub fn answer_to<W: Write>(
    rt: &HostRuntime,
    output: &mut Counted<W>,
    line: &[u8],
    asked: Asked<'_>,
) -> Result<Answered, RunFault> {
    let Asked { order, rules, .. } = asked;
    let planned = asked.constrained().planned();
    match asked.budget {
        Some(most) => answer_within(rt.alloc(), output, planned, most, order, rules, line),
        None => {
            let is_good = answer_line(rt.alloc(), output, planned, order, rules, line)?;
            Ok(Answered::Line(is_good))
        }
    }
}

/// Answers one line of hexadecimal or JSON in memory, as `answer_to` does.
///
/// # Errors
/// `Memory` if an allocation failed: a vector refuses octets for no other reason.
pub fn answer_in_memory(
    rt: &HostRuntime,
    answer: &mut Counted<Vec<u8>>,
    line: &[u8],
    asked: Asked<'_>,
) -> Result<Answered, RunFault> {
    match answer_to(rt, answer, line, asked) {
        Err(RunFault::Write) => Err(RunFault::Memory),
        answered => answered,
    }
}

/// Answers one line of hexadecimal or JSON, what is written being laid out, in another form or counted.
fn answer_otherwise<W: Write>(
    rt: &HostRuntime,
    answers: &mut Answers<W>,
    place: Place<'_>,
    line: &[u8],
    asked: Asked<'_>,
) -> Result<Answered, RunFault> {
    let mut answer = Counted::new(Vec::new(rt.alloc()));
    let answered = answer_in_memory(rt, &mut answer, line, asked)?;
    let answer = answer.into_inner();
    if matches!(answered, Answered::Line(true)) {
        put_good(rt, answers, line, answer.as_slice(), asked)?;
    } else {
        put_refusal(rt, answers, place, answer.as_slice(), asked)?;
    }
    Ok(answered)
}

/// Writes the answer to a line that is no refusal, as it is or otherwise.
pub fn put_answer<W: Write>(
    rt: &HostRuntime,
    answers: &mut Answers<W>,
    line: &[u8],
    answer: &[u8],
    asked: Asked<'_>,
) -> Result<(), RunFault> {
    if asked.is_as_it_is() {
        put(&mut answers.output, answer)
    } else {
        put_good(rt, answers, line, answer, asked)
    }
}

/// Writes the answer to a line that is no refusal, laid out, in another form or counted.
fn put_good<W: Write>(
    rt: &HostRuntime,
    answers: &mut Answers<W>,
    line: &[u8],
    answer: &[u8],
    asked: Asked<'_>,
) -> Result<(), RunFault> {
    if asked.is_counted {
        count_message(rt, answers, line, asked)?;
        put(&mut answers.output, answer)
    } else if asked.is_laid() {
        put_laid(rt, &mut answers.output, line, asked)
    } else {
        put_octets(rt, &mut answers.output, text_in(answer), asked.forms)
    }
}

/// Writes the JSON of the message that a line of hexadecimal is, in the layout that is asked for.
fn put_laid<W: Write>(
    rt: &HostRuntime,
    output: &mut Counted<W>,
    line: &[u8],
    asked: Asked<'_>,
) -> Result<(), RunFault> {
    let Asked {
        order,
        rules,
        layout,
        ..
    } = asked;
    let text = if asked.versions.is_json {
        newer_line(rt.alloc(), asked.ty(), rules, line, layout.is_declared)?
    } else {
        laid_text(rt.alloc(), asked.ty(), order, rules, line, layout)?
    };
    match text {
        Some(mut text) => {
            text.push('\n')?;
            put(output, text.as_bytes())
        }
        None => Err(RunFault::Memory),
    }
}

/// Counts the message that a line of hexadecimal is.
fn count_message<W>(
    rt: &HostRuntime,
    answers: &mut Answers<W>,
    line: &[u8],
    asked: Asked<'_>,
) -> Result<(), RunFault> {
    match octets_in(rt.alloc(), OctetForm::Hex, line)? {
        Some(octets) => {
            let octets = octets.as_slice();
            counted(
                answers
                    .counts
                    .add_message(rt.alloc(), asked.ty(), asked.rules, octets),
            )
        }
        None => Err(RunFault::Memory),
    }
}

/// The fault of a run whose messages are not counted. (A count of 2^64 is not reached.)
pub fn counted(answer: Result<(), CountFault>) -> Result<(), RunFault> {
    match answer {
        Ok(()) => Ok(()),
        Err(CountFault::Full | CountFault::Memory) => Err(RunFault::Memory),
    }
}
