//! The answer to one line.
ghost use Rattle.std.specs.Prelude.{◌≡◌, IfOk, string_bytes};
ghost use Rattle.serde_json.specs.View.{view};
ghost use Rattle.serde_json.specs.Written.{compact_text};
ghost use Rattle.asn_values.specs.Received.{FitsReceived};
ghost use Rattle.asn_values.specs.View.{shape_of, datum_of};
ghost use Rattle.asn_json.specs.Written.{json_of};
ghost use Rattle.asn_convert.specs.Answers.{AnswersShow, AnswersCheck};
ghost use Rattle.asn_convert.specs.Replies.{LineReply, RepliesConvert, RepliesJson, RepliesValue};

use crate::digits::octets_in;
use crate::newer::newer_octets;
use crate::texts::{Answer, Reply, decode_refusal, json_refusal, refusal, text_refusal};
use asn_jobs::{Order, RuleName};
use asn_json::{from_json, json_in, to_json};
use asn_newer::ReadNewer;
use asn_plan::{PlanRules, Planned};
use asn_rules::Rules;
use asn_rules::laws::are_octets;
use asn_values::{Checked, Value};
use itoa::Buffer;
use serde_json::Value as Json;
use std::alloc::{AllocError, Global};

/// How many characters there is room for in a text for the count of octets and its LF.
const SHORT: usize = 32;

/// What is answered to one line.
pub(crate) fn answer_to<A: ReadNewer + PlanRules, B: Rules>(
    alloc: Global,
    planned: &Planned,
    order: Order,
    rules: RuleName,
    line: &[u8],
) -> Result<Reply, AllocError>
    ensures { IfOk result (LineReply A.ruling B.ruling A.loose rules order planned.now line.now) }
{
    let ty = planned.get();
    if let Order::Encode = order {
        return answer_json(alloc, ty, line);
    }
    let octets = match octets_in(alloc, line)? {
        Some(octets) => octets,
        None => return Ok(Reply::Text(refusal(alloc, "! hex")?)),
    };
    let octets = octets.as_slice();
    match order {
        Order::Show => Ok(Reply::Text(show_octets::<A>(alloc, planned, rules, octets)?)),
        Order::Check => Ok(Reply::Text(check_octets::<A>(alloc, planned, rules, octets)?)),
        Order::Convert => convert_octets::<A>(alloc, planned, rules, octets),
        Order::Newer => Ok(Reply::Text(newer_octets::<A>(alloc, ty, octets)?)),
        Order::Encode => unreachable!(),
    }
}

/// The JSON of the value that the octets encode. It is built once they are known to be an encoding.
fn show_octets<A: PlanRules>(
    alloc: Global,
    planned: &Planned,
    rules: RuleName,
    octets: &[u8],
) -> Result<Answer, AllocError>
    ensures { IfOk result (λ a. AnswersShow A.ruling rules (shape_of planned.now) octets.now
        (string_bytes a.text) a.is_good) }
{
    are_octets(octets);
    if let Err(fault) = planned.check::<A>(alloc, octets) {
        return decode_refusal(alloc, rules, fault);
    }
    match planned.decode::<A>(alloc, octets) {
        Ok(value) => {
            let text = json_text(alloc, planned.get(), &value)?;
            Ok(Answer {
                text,
                is_good: true,
            })
        }
        Err(fault) => decode_refusal(alloc, rules, fault),
    }
}

/// The text of the JSON of a value of the type, or of one that is read of a message of a newer sender.
pub(crate) fn json_text(alloc: Global, ty: &Checked, value: &Value) -> Result<String, AllocError>
    requires { FitsReceived (shape_of ty.now) (datum_of value.now) }
    ensures { IfOk result (λ text. string_bytes text
        ≡ compact_text (json_of (shape_of ty.now) (datum_of value.now))) }
{
    match to_json(alloc, ty, value) {
        Ok(json) => json.to_string(alloc),
        Err(_) => Err(AllocError),
    }
}

/// How many the octets are, where they encode a value.
fn check_octets<A: PlanRules>(
    alloc: Global,
    planned: &Planned,
    rules: RuleName,
    octets: &[u8],
) -> Result<Answer, AllocError>
    ensures { IfOk result (λ a. AnswersCheck A.ruling rules (shape_of planned.now) octets.now
        (string_bytes a.text) a.is_good) }
{
    are_octets(octets);
    match planned.check::<A>(alloc, octets) {
        Ok(()) => {
            let mut digits = Buffer::new();
            let mut text = String::with_capacity(alloc, SHORT)?;
            text.push_str("ok ")?;
            text.push_str(digits.format(octets.len()))?;
            Ok(Answer {
                text,
                is_good: true,
            })
        }
        Err(fault) => decode_refusal(alloc, rules, fault),
    }
}

/// The value that the octets encode, whose octets by the other rules are the answer. It is built once they are known to be
/// an encoding.
fn convert_octets<A: PlanRules>(
    alloc: Global,
    planned: &Planned,
    rules: RuleName,
    octets: &[u8],
) -> Result<Reply, AllocError>
    ensures { IfOk result (RepliesConvert A.ruling rules (shape_of planned.now) octets.now) }
{
    are_octets(octets);
    if let Err(fault) = planned.check::<A>(alloc, octets) {
        return Ok(Reply::Text(decode_refusal(alloc, rules, fault)?));
    }
    match planned.decode::<A>(alloc, octets) {
        Ok(value) => Ok(Reply::Converted(value)),
        Err(fault) => Ok(Reply::Text(decode_refusal(alloc, rules, fault)?)),
    }
}

/// The value that a line of JSON shows, whose octets are the answer.
#[tactic(auto, using(crate::proofs::Replying::refused_text))]
fn answer_json(alloc: Global, ty: &Checked, line: &[u8]) -> Result<Reply, AllocError>
    ensures { IfOk result (RepliesJson (shape_of ty.now) line.now) }
{
    match json_in(alloc, line) {
        Ok(json) => encode_json(alloc, ty, &json),
        Err(fault) => Ok(Reply::Text(text_refusal(alloc, &fault)?)),
    }
}

/// The value that JSON shows.
fn encode_json(alloc: Global, ty: &Checked, json: &Json) -> Result<Reply, AllocError>
    ensures { IfOk result (RepliesValue (shape_of ty.now) (view json.now)) }
{
    match from_json(alloc, ty, json) {
        Ok(value) => Ok(Reply::Encoded(value)),
        Err(fault) => Ok(Reply::Text(json_refusal(alloc, &fault)?)),
    }
}
