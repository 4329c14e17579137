//! Lines of a published type that demands more than the type of the profile: a value that breaks its constraint is refused,
//! and where a part of a message is not looked at, the answer says so.
use crate::answering::{Answers, Asked, answer_in_memory, put_answer, tell_why};
use crate::budget::Answered;
use crate::marked::{answer_beside, deeper_text, refusal_beside, unlooked_words};
use crate::writing::{put_refusal, tell, text_in};
use asn_constrained::{ConstrainedFault, ConstrainedNewerFault};
use asn_constraints::Broken;
use asn_containing::{BrokenContents, ContainingFault, judge_contents};
use asn_convert::{Order, RuleName, RunFault};
use asn_jobs::Place;
use asn_look::{broken_at_end, broken_words};
use asn_oer::Oer;
use asn_per::Per;
use asn_plan::PlanRules;
use asn_published::Looked;
use asn_rules::Counted;
use asn_values::Value;
use std::alloc::{AllocError, Global};
use std::io::Write;

/// What is said where a value is refused since it is deeper than its type.
const TOO_DEEP: &str =
    "the value goes on where the recursion of the type ends: --levels says where";

/// What is said where a value breaks the constraint of its type.
const BROKEN: &str =
    "the octets are an encoding, but of a value that the published type does not have";

/// What is said where octets in a value are not the encoding that they have to be.
const WRONG_CONTENTS: &str =
    "the octets are an encoding of the outer type, and octets in its value are no encoding of the type that they contain";

/// What is said where octets in a value are encodings, and the message is to be converted.
const NOT_CONVERTED: &str =
    "the octets in the value are an encoding by the old rules; convert them by themselves";

/// Answers one line of hexadecimal or JSON as it is answered for the type of the profile, and returns whether that is no
/// refusal. A value that breaks the constraint is refused, and one whose contents are no encodings. If a part of the value has a mark, `check` says so behind its
/// answer, and of the others standard error does. A value that goes on where recursion ends is refused, and a refusal of such
/// a type says that the message can be deeper.
///
/// # Errors
/// `Write` if the writer reported an error, `Memory` if an allocation failed.
pub fn answer_published<W: Write>(
    rt: &HostRuntime,
    answers: &mut Answers<W>,
    place: Place<'_>,
    line: &[u8],
    asked: Asked<'_>,
) -> Result<bool, RunFault> {
    let mut plain = Counted::new(Vec::new(rt.alloc()));
    let answered = answer_in_memory(rt, &mut plain, line, asked)?;
    let plain = plain.into_inner();
    let plain = text_in(plain.as_slice());
    if let Answered::Line(true) = answered {
        return answer_value(rt, answers, place, line, plain, asked);
    }
    refuse(rt, answers, place, plain, asked, asked.demands.levels())?;
    if asked.is_explained {
        tell_why(rt, place, line, &answered, asked)?;
    }
    Ok(false)
}

/// What is found of a value that the type of the profile has.
#[derive(Drop)]
enum Finding {
    /// It goes on where recursion ends, after this many levels.
    Deeper(u32),
    /// It breaks the constraint.
    Broken(Broken),
    /// Octets in it are not the encoding that they have to be, or are one and cannot be converted: the refusal, without its
    /// LF, and what is said of it.
    Refused(String, &'static str),
    /// Parts of it are not looked at.
    Looked(Looked),
    /// It is a value of the published type.
    Good,
}

/// Answers a line that the type of the profile does not refuse.
fn answer_value<W: Write>(
    rt: &HostRuntime,
    answers: &mut Answers<W>,
    place: Place<'_>,
    line: &[u8],
    plain: &[u8],
    asked: Asked<'_>,
) -> Result<bool, RunFault> {
    let digits = match asked.order {
        Order::Encode => plain,
        _ => line,
    };
    match finding_of(rt.alloc(), digits, asked)? {
        Finding::Deeper(levels) => {
            let refusal = deeper_text(rt.alloc(), levels)?;
            refuse_value(rt, answers, place, refusal.as_str(), asked, TOO_DEEP)
        }
        Finding::Broken(broken) => {
            let refusal = refusal_of(rt.alloc(), &broken, digits.len() / 2, asked)?;
            refuse_value(rt, answers, place, refusal.as_str(), asked, BROKEN)
        }
        Finding::Refused(refusal, words) => {
            refuse_value(rt, answers, place, refusal.as_str(), asked, words)
        }
        Finding::Looked(looked) => {
            let words = unlooked_words(rt.alloc(), &looked)?;
            put_looked(rt, answers, place, line, plain, asked, words)?;
            Ok(true)
        }
        Finding::Good => {
            put_looked(rt, answers, place, line, plain, asked, None)?;
            Ok(true)
        }
    }
}

/// What is found of the value whose encoding is in these digits.
fn finding_of(alloc: Global, digits: &[u8], asked: Asked<'_>) -> Result<Finding, RunFault> {
    let Ok(octets) = hex::decode(alloc, digits) else {
        return Err(RunFault::Memory);
    };
    match asked.rules {
        RuleName::Per => finding_by::<Per>(alloc, octets.as_slice(), asked),
        RuleName::Oer => finding_by::<Oer>(alloc, octets.as_slice(), asked),
    }
}

/// What is found of the value whose encoding the octets are. A check without marks needs no value.
fn finding_by<R: PlanRules>(
    alloc: Global,
    octets: &[u8],
    asked: Asked<'_>,
) -> Result<Finding, RunFault> {
    if asked.demands.has_contents {
        return finding_inside::<R>(alloc, octets, asked);
    }
    if asked.demands.marks.is_none() && asked.order == Order::Check {
        return match asked.constrained().check::<R>(alloc, octets) {
            Ok(()) => Ok(Finding::Good),
            Err(fault) => finding_of_fault(fault),
        };
    }
    match asked.constrained().decode::<R>(alloc, octets) {
        Ok(value) => finding_of_value(alloc, &value, asked),
        Err(fault) => finding_of_fault(fault),
    }
}

/// The same of a type whose values have octets that are encodings.
fn finding_inside<R: PlanRules>(
    alloc: Global,
    octets: &[u8],
    asked: Asked<'_>,
) -> Result<Finding, RunFault> {
    let value = match asked.messages.ty.decode::<R>(alloc, octets) {
        Ok(value) => value,
        Err(ContainingFault::Contents { broken, .. }) => {
            let refusal = contents_refusal(alloc, &broken, octets.len(), asked)?;
            return Ok(Finding::Refused(refusal, WRONG_CONTENTS));
        }
        Err(ContainingFault::Type(fault)) => return finding_of_fault(fault),
    };
    if asked.order == Order::Convert {
        if let Some(path) = asked.messages.first_contents(alloc, &value)? {
            let path = path.as_str();
            let refusal = format!(in alloc; "! contents cannot be converted yet at {path}")?;
            return Ok(Finding::Refused(refusal, NOT_CONVERTED));
        }
    }
    finding_of_value(alloc, &value, asked)
}

/// What is found of octets that are an encoding of the type of the profile.
fn finding_of_fault(fault: ConstrainedFault) -> Result<Finding, RunFault> {
    match fault {
        ConstrainedFault::Broken { broken, .. } => Ok(Finding::Broken(broken)),
        ConstrainedFault::Type(_) => Err(RunFault::Memory),
    }
}

/// What is found of a value that meets the constraint.
fn finding_of_value(alloc: Global, value: &Value, asked: Asked<'_>) -> Result<Finding, RunFault> {
    match looked_at(alloc, value, asked)? {
        Some(looked) if looked.is_deeper => {
            Ok(Finding::Deeper(asked.demands.levels().unwrap_or(0)))
        }
        Some(looked) if !asked.is_wider_taken => Ok(Finding::Looked(looked)),
        _ => Ok(Finding::Good),
    }
}

/// What is not looked at of a value, if its type has marks.
fn looked_at(alloc: Global, value: &Value, asked: Asked<'_>) -> Result<Option<Looked>, AllocError> {
    let Some(marks) = asked.demands.marks else {
        return Ok(None);
    };
    let is_oer = asked.order == Order::Convert || asked.rules == RuleName::Oer;
    Ok(Some(marks.look(alloc, asked.ty(), value, is_oer)?))
}

/// The refusal, without its LF, of a value of so many octets that breaks the constraint.
fn refusal_of(
    alloc: Global,
    broken: &Broken,
    octets: usize,
    asked: Asked<'_>,
) -> Result<String, AllocError> {
    let ty = asked.ty().get();
    match asked.order {
        Order::Encode => {
            let words = broken_words(alloc, ty, broken)?;
            let words = words.as_str();
            format!(in alloc; "! {words}")
        }
        _ => broken_at_end(alloc, ty, broken, asked.rules, octets),
    }
}

/// The refusal, without its LF, of a value of so many octets in which octets are not the encoding that they have to be.
fn contents_refusal(
    alloc: Global,
    broken: &BrokenContents,
    octets: usize,
    asked: Asked<'_>,
) -> Result<String, AllocError> {
    let octets = match asked.order {
        Order::Encode => None,
        _ => Some(octets),
    };
    asked
        .messages
        .contents_refusal(alloc, broken, asked.rules, octets)
}

/// Writes the answer to a message, and what is said of it.
fn put_looked<W: Write>(
    rt: &HostRuntime,
    answers: &mut Answers<W>,
    place: Place<'_>,
    line: &[u8],
    plain: &[u8],
    asked: Asked<'_>,
    words: Option<String>,
) -> Result<(), RunFault> {
    let Ok(text) = std::str::from_utf8(plain) else {
        return Err(RunFault::Memory);
    };
    let mut answer = answer_beside(rt.alloc(), asked.order, text, &words)?;
    answer.push('\n')?;
    put_answer(rt, answers, line, answer.as_bytes(), asked)?;
    if let Some(words) = words {
        answers.has_unlooked = true;
        if asked.order != Order::Check {
            return tell(rt, place, words.as_str());
        }
    }
    Ok(())
}

/// Refuses a value, and says these words of it where that is asked for.
fn refuse_value<W: Write>(
    rt: &HostRuntime,
    answers: &mut Answers<W>,
    place: Place<'_>,
    refusal: &str,
    asked: Asked<'_>,
    words: &str,
) -> Result<bool, RunFault> {
    refuse(rt, answers, place, refusal.as_bytes(), asked, None)?;
    if asked.is_explained {
        tell(rt, place, words)?;
    }
    Ok(false)
}

/// Judges a message of some version of a type with a constraint. One that breaks a constraint of spelling, which every
/// version keeps, is refused: the answer is whether it is good. `None` if it is still to be answered. Standard error says
/// which other constraint its value breaks.
///
/// # Errors
/// `Write` if the writer reported an error, `Memory` if an allocation failed.
pub fn judge_version<W: Write>(
    rt: &HostRuntime,
    answers: &mut Answers<W>,
    place: Place<'_>,
    line: &[u8],
    asked: Asked<'_>,
) -> Result<Option<bool>, RunFault> {
    let octets = match hex::decode(rt.alloc(), line) {
        Ok(octets) => octets,
        Err(_) => return Ok(None),
    };
    let read = match asked.rules {
        RuleName::Per => asked
            .constrained()
            .read_newer::<Per>(rt.alloc(), octets.as_slice()),
        RuleName::Oer => asked
            .constrained()
            .read_newer::<Oer>(rt.alloc(), octets.as_slice()),
    };
    match read {
        Err(ConstrainedNewerFault::Spelling(broken)) => {
            let refusal = refusal_of(rt.alloc(), &broken, octets.len(), asked)?;
            let is_good = refuse_value(rt, answers, place, refusal.as_str(), asked, BROKEN)?;
            Ok(Some(is_good))
        }
        Ok(read) => {
            if let Some(broken) = &read.broken {
                let words = broken_words(rt.alloc(), asked.ty().get(), broken)?;
                let words = words.as_str();
                let told = format!(in rt.alloc(); "a newer version may allow this: {words}")?;
                tell(rt, place, told.as_str())?;
            }
            tell_newer_contents(rt, place, &read.newer.value, asked)?;
            Ok(None)
        }
        Err(ConstrainedNewerFault::Type(_)) => Ok(None),
    }
}

/// Says on standard error which octets in the value of a message of some version are not the encoding that they have to be: a
/// newer version may have other types inside.
fn tell_newer_contents(
    rt: &HostRuntime,
    place: Place<'_>,
    value: &Value,
    asked: Asked<'_>,
) -> Result<(), RunFault> {
    if !asked.demands.has_contents {
        return Ok(());
    }
    let (table, contents) = (&asked.messages.ty.table, &asked.messages.ty.outer.contents);
    let broken = match asked.rules {
        RuleName::Per => judge_contents::<Per>(rt.alloc(), table, contents, value)?,
        RuleName::Oer => judge_contents::<Oer>(rt.alloc(), table, contents, value)?,
    };
    if let Some(broken) = broken {
        let messages = asked.messages;
        let refusal = messages.contents_refusal(rt.alloc(), &broken, asked.rules, None)?;
        let words = text_behind_mark(refusal.as_str());
        let told = format!(in rt.alloc(); "a newer version may allow this: {words}")?;
        tell(rt, place, told.as_str())?;
    }
    Ok(())
}

/// What a refusal has behind its mark.
fn text_behind_mark(refusal: &str) -> &str {
    match refusal.strip_prefix("! ") {
        Some(words) => words,
        None => refusal,
    }
}

/// Writes a refusal, which says that the message can be deeper where there are so many levels.
fn refuse<W: Write>(
    rt: &HostRuntime,
    answers: &mut Answers<W>,
    place: Place<'_>,
    plain: &[u8],
    asked: Asked<'_>,
    levels: Option<u32>,
) -> Result<(), RunFault> {
    let Ok(text) = std::str::from_utf8(plain) else {
        return Err(RunFault::Memory);
    };
    let mut refusal = refusal_beside(rt.alloc(), text, levels)?;
    refusal.push('\n')?;
    put_refusal(rt, answers, place, refusal.as_bytes(), asked)
}
