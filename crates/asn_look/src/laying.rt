//! JSON of messages in the layout that is asked for.
ghost use Rattle.std.specs.Prelude.{IfOk, IfSome, string_bytes};
ghost use Rattle.asn_values.specs.View.{datum_of, shape_of};
ghost use Rattle.asn_look.specs.Laying.{ReadsAs, ShowsSame};

use asn_jobs::{Order, RuleName};
use asn_json::to_json;
use asn_json_layout::{Layout, laid_out};
use asn_newer::{NewerFault, ReadNewer};
use asn_oer::Oer;
use asn_per::Per;
use asn_rules::laws::are_octets;
use asn_rules::{DecodeFault, Rules, Skipped, decode};
use asn_values::{Checked, Value};
use hex::FromHexError;
use std::alloc::{AllocError, Global};

/// The JSON of the message that a line of hexadecimal is, in this layout; for `newer`, followed by what is skipped in it.
/// `None` where the line is no message.
///
/// # Errors
/// `AllocError` where an allocation failed.
pub fn laid_text(
    alloc: Global,
    ty: &Checked,
    order: Order,
    rules: RuleName,
    line: &[u8],
    layout: Layout,
) -> Result<Option<String>, AllocError> {
    let octets = match hex::decode(alloc, line) {
        Ok(octets) => octets,
        Err(FromHexError::OutOfMemory) => return Err(AllocError),
        Err(_) => return Ok(None),
    };
    let octets = octets.as_slice();
    match (order, rules) {
        (Order::Newer, RuleName::Per) => newer_text::<Per>(alloc, ty, octets, layout),
        (Order::Newer, RuleName::Oer) => newer_text::<Oer>(alloc, ty, octets, layout),
        (_, RuleName::Per) => shown_text::<Per>(alloc, ty, octets, layout),
        (_, RuleName::Oer) => shown_text::<Oer>(alloc, ty, octets, layout),
    }
}

/// The JSON of the value that the octets encode, in this layout.
fn shown_text<R: Rules>(
    alloc: Global,
    ty: &Checked,
    octets: &[u8],
    layout: Layout,
) -> Result<Option<String>, AllocError>
    ensures { IfOk result (λ o. IfSome o
        (λ text. ShowsSame R.ruling (shape_of ty.now) octets.now (string_bytes text))) }
{
    are_octets(octets);
    match decode::<R>(alloc, ty, octets) {
        Ok(value) => {
            let text = value_text(alloc, ty, &value, layout)?;
            Ok(Some(text))
        }
        Err(DecodeFault::Memory) => Err(AllocError),
        Err(_) => Ok(None),
    }
}

/// The JSON of what is read of the octets of a sender of another version, in this layout, and what is skipped in them.
fn newer_text<R: ReadNewer>(
    alloc: Global,
    ty: &Checked,
    octets: &[u8],
    layout: Layout,
) -> Result<Option<String>, AllocError> {
    match R::read_newer(alloc, ty, octets) {
        Ok(newer) => {
            let mut text = value_text(alloc, ty, &newer.value, layout)?;
            push_skipped(alloc, &mut text, newer.skipped.as_slice())?;
            Ok(Some(text))
        }
        Err(NewerFault::Memory) => Err(AllocError),
        Err(_) => Ok(None),
    }
}

/// The JSON of a value of the type, or of one that is read of a message of a newer sender, in this layout.
pub fn value_text(
    alloc: Global,
    ty: &Checked,
    value: &Value,
    layout: Layout,
) -> Result<String, AllocError>
    ensures { IfOk result (λ text. ReadsAs (shape_of ty.now) (datum_of value.now) (string_bytes text)) }
{
    match to_json(alloc, ty, value) {
        Ok(json) => laid_out(alloc, ty, &json, layout),
        Err(_) => Err(AllocError),
    }
}

/// Puts the skipped fields at the end of the text: of each its index among the additions of its type, and its octets.
fn push_skipped(alloc: Global, text: &mut String, skipped: &[Skipped]) -> Result<(), AllocError> {
    for field in skipped {
        let index = field.place;
        let octets = hex::encode(alloc, field.octets.as_slice())?;
        let more = format!(in alloc; " +{index}:{octets}")?;
        text.push_str(more.as_str())?;
    }
    Ok(())
}
