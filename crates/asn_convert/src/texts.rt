//! What is written for a line that is refused.
ghost use Rattle.std.specs.Prelude.{◌≡◌, false, IfOk, string_bytes};
ghost use Rattle.asn_convert.specs.Answers.{unit_of, TellsDecodeFault, TellsJsonFault, TellsNewerFault, TellsTextFault};

use asn_jobs::RuleName;
use asn_json::{JsonFault, TextFault};
use asn_newer::NewerFault;
use asn_rules::{DecodeFault, Unit};
use asn_values::Value;
use std::alloc::{AllocError, Global};

/// What is written for a line, without its LF.
#[derive(Drop)]
pub(crate) struct Answer {
    /// The text.
    pub text: String,
    /// Whether it is no refusal.
    pub is_good: bool,
}

/// What is answered to a line.
#[derive(Drop)]
pub(crate) enum Reply {
    /// This text.
    Text(Answer),
    /// The octets of this value in hexadecimal, by the rules of the octets of the job.
    Encoded(Value),
    /// The octets of this value in hexadecimal, by the rules that the job converts to.
    Converted(Value),
}

/// A refusal in these words.
pub(crate) fn refusal(alloc: Global, words: &str) -> Result<Answer, AllocError>
    ensures text { IfOk result (λ a. string_bytes a.text ≡ words.now) }
    ensures refused { IfOk result (λ a. a.is_good ≡ false) }
{
    let text = String::from_str(alloc, words)?;
    Ok(Answer {
        text,
        is_good: false,
    })
}

/// What the places and lengths of the rules are counted in.
fn unit_of(rules: RuleName) -> Unit
    ensures { result ≡ unit_of rules }
{
    match rules {
        RuleName::Per => Unit::Bit,
        RuleName::Oer => Unit::Octet,
    }
}

/// The refusal of octets that are not decoded.
///
/// # Errors
/// `AllocError` where an allocation failed, here or while they were decoded.
pub(crate) fn decode_refusal(
    alloc: Global,
    rules: RuleName,
    fault: DecodeFault,
) -> Result<Answer, AllocError>
    ensures text { IfOk result (λ a. TellsDecodeFault rules fault (string_bytes a.text)) }
    ensures refused { IfOk result (λ a. a.is_good ≡ false) }
{
    if let DecodeFault::Memory = fault {
        return Err(AllocError);
    }
    let told = fault.counted_in(unit_of(rules));
    let text = format!(in alloc; "! {told}")?;
    Ok(Answer {
        text,
        is_good: false,
    })
}

/// The refusal of JSON that shows no value of the type.
///
/// # Errors
/// `AllocError` where an allocation failed, here or while it was read.
pub(crate) fn json_refusal(alloc: Global, fault: &JsonFault) -> Result<Answer, AllocError>
    ensures text { IfOk result (λ a. TellsJsonFault fault.now (string_bytes a.text)) }
    ensures refused { IfOk result (λ a. a.is_good ≡ false) }
{
    match fault {
        JsonFault::Shape { path } => {
            let text = format!(in alloc; "! shape {path}")?;
            Ok(Answer {
                text,
                is_good: false,
            })
        }
        JsonFault::NotOfType => refusal(alloc, "! not of type"),
        JsonFault::Memory => Err(AllocError),
    }
}

/// The refusal of a line that is not read as JSON.
///
/// # Errors
/// `AllocError` if an allocation failed, here or while it was read.
pub(crate) fn text_refusal(alloc: Global, fault: &TextFault) -> Result<Answer, AllocError>
    ensures text { IfOk result (λ a. TellsTextFault fault.now (string_bytes a.text)) }
    ensures refused { IfOk result (λ a. a.is_good ≡ false) }
{
    match fault {
        TextFault::NotJson => refusal(alloc, "! json"),
        TextFault::KeyTwice { path } => {
            let text = format!(in alloc; "! shape {path}")?;
            Ok(Answer {
                text,
                is_good: false,
            })
        }
        TextFault::Memory => Err(AllocError),
    }
}

/// The line for a message that `read_newer` refuses.
///
/// # Errors
/// `AllocError` where an allocation failed, here or while they were read.
pub(crate) fn newer_refusal(alloc: Global, fault: NewerFault) -> Result<Answer, AllocError>
    ensures text { IfOk result (λ a. TellsNewerFault fault (string_bytes a.text)) }
    ensures refused { IfOk result (λ a. a.is_good ≡ false) }
{
    match fault {
        NewerFault::Refused => refusal(alloc, "! refused"),
        NewerFault::Truncated => refusal(alloc, "! cut short"),
        NewerFault::TooManyAdditions => refusal(alloc, "! too many additions"),
        NewerFault::TooLong => refusal(alloc, "! too long"),
        NewerFault::Memory => Err(AllocError),
    }
}
