//! JSON texts.
ghost use Rattle.std.specs.Prelude.{IfOk, IfErr, OnOk};
ghost use Rattle.serde_json.specs.View.{view};
ghost use Rattle.asn_json.specs.Texts.{HasKeysOnce, IsJson, ReadsAs, RefusesText};

use crate::fault::TextFault;
use crate::repeated::repeated_path;
use json::{Error, Scratch, Tape};
use serde_json::Value as Json;
use std::alloc::Global;

/// Reads a JSON text (RFC 8259) in which no object has a key twice.
///
/// # Errors
/// `NotJson` if it is no JSON, and `KeyTwice` if an object has a key twice. `Memory` if an allocation failed.
pub fn json_in(alloc: Global, text: &[u8]) -> Result<Json, TextFault>
    ensures read { IfOk result (λ j. IsJson text.now (view j)) }
    ensures refused { IfErr result (λ why. RefusesText text.now why) }
{
    let json = parsed(alloc, text)?;
    check_keys(alloc, text)?;
    Ok(json)
}

/// The JSON that a text is. Of a key that an object has twice the last value stays.
fn parsed(alloc: Global, text: &[u8]) -> Result<Json, TextFault>
    ensures read { IfOk result (λ j. ReadsAs text.now (view j)) }
    ensures refused { IfErr result (λ why. RefusesText text.now why) }
{
    match Json::from_slice(alloc, text) {
        Ok(json) => Ok(json),
        Err(fault) => {
            if fault.is_memory() {
                Err(TextFault::Memory)
            } else {
                Err(TextFault::NotJson)
            }
        }
    }
}

/// Refuses a text that has an object with a key twice.
#[tactic(auto, using(crate::proofs::KeysOnce::has_keys_once, crate::proofs::KeysOnce::repeats_key, crate::proofs::KeysOnce::has_no_keys))]
fn check_keys(alloc: Global, text: &[u8]) -> Result<(), TextFault>
    ensures once { OnOk result (HasKeysOnce text.now) }
    ensures refused { IfErr result (λ why. RefusesText text.now why) }
{
    let Ok(text) = std::str::from_utf8(text) else {
        return Err(TextFault::NotJson);
    };
    let mut scratch = Scratch::new(alloc);
    match Tape::parse_strict(text, &mut scratch, Vec::new(alloc)) {
        Ok(_) => Ok(()),
        Err(Error::DuplicateKey) => Err(TextFault::KeyTwice {
            path: repeated_path(alloc, text)?,
        }),
        // (what `parsed` took is JSON)
        Err(Error::Invalid) => Ok(()),
        Err(Error::OutOfMemory | Error::TooLong) => Err(TextFault::Memory),
    }
}
