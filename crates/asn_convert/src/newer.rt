//! What is read of messages of newer and older senders, as answers.
ghost use Rattle.std.specs.Prelude.{◌≡◌, ◌++◌, IfOk, OnOk, string_bytes};
ghost use Rattle.asn_values.specs.View.{shape_of};
ghost use Rattle.asn_newer.specs.Reading.{skipped_of, skipped_seen};
ghost use Rattle.asn_convert.specs.Answers.{AnswersNewer, skipped_text, skipped_texts};

use crate::answers::json_text;
use crate::texts::{Answer, newer_refusal};
use asn_newer::ReadNewer;
use asn_newer::laws::version_laws;
use asn_rules::Skipped;
use asn_values::Checked;
use std::alloc::{AllocError, Global};

/// The JSON of what is read of the octets, and the fields that are skipped in them.
pub(crate) fn newer_octets<A: ReadNewer>(
    alloc: Global,
    ty: &Checked,
    octets: &[u8],
) -> Result<Answer, AllocError>
    ensures { IfOk result (λ a. AnswersNewer A.loose (shape_of ty.now) octets.now (string_bytes a.text) a.is_good) }
{
    version_laws::<A>();
    let _of_profile = ty.get();
    match A::read_newer(alloc, ty, octets) {
        Ok(newer) => {
            let mut text = json_text(alloc, ty, &newer.value)?;
            push_skipped(alloc, &mut text, newer.skipped.as_slice())?;
            Ok(Answer {
                text,
                is_good: true,
            })
        }
        Err(fault) => newer_refusal(alloc, fault),
    }
}

/// Puts the skipped fields at the end of the text.
fn push_skipped(alloc: Global, text: &mut String, skipped: &[Skipped]) -> Result<(), AllocError>
    ensures { OnOk result (string_bytes text.new ≡ string_bytes text.old ++ skipped_texts (skipped_seen skipped.now)) }
{
    for field in skipped {
        let more = field_text(alloc, field)?;
        text.push_str(more.as_str())?;
    }
    Ok(())
}

/// A skipped field: its index among the additions of its type, and its octets in hexadecimal.
fn field_text(alloc: Global, field: &Skipped) -> Result<String, AllocError>
    ensures { IfOk result (λ text. string_bytes text ≡ skipped_text (skipped_of field.now)) }
{
    let index = field.place;
    let octets = hex::encode(alloc, field.octets.as_slice())?;
    format!(in alloc; " +{index}:{octets}")
}
