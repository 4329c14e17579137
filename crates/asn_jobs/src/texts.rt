//! Octets as texts.
ghost use Rattle.std.specs.Prelude.{◌≡◌, ◌++◌, None, Some, IfOk, MatchOption, OnOk};
ghost use Rattle.std.specs.Result.{result_ok};
ghost use Rattle.std.specs.List.{before_first};
ghost use Rattle.hex.specs.Hex.{decode_of, encode_lower};
ghost use Rattle.base64.specs.Engines.{standard};
ghost use Rattle.base64.specs.GeneralPurpose as engine;
ghost use Rattle.asn_jobs.specs.Forms.{octets_in, read_form, text_of};
ghost use Rattle.asn_jobs.specs.Texts.{digits_of, is_blank, is_comment, line_digits, unprefixed};

use crate::dump_texts::dump_octets;
use base64::DecodeAllocError;
use base64::engine::general_purpose::STANDARD;
use hex::FromHexError;
use std::alloc::{AllocError, Global};

/// How the octets of a message are written in a text.
#[derive(Clone, Copy, PartialEq, Eq, Drop)]
pub enum OctetForm {
    /// Hexadecimal digits on one line, two an octet: words between blanks, with or without 0x in front of each, and
    /// a comment from # on.
    Hex,
    /// The same on several lines.
    HexBlock,
    /// Lines as xxd, od -Ax -tx1, hexdump -C, Wireshark and tcpdump write them: an offset, octets and the text column;
    /// or octets without offsets, also as an array of C.
    Dump,
    /// Base64 (RFC 4648, "Base 64 Encoding"), with its padding.
    Base64,
    /// The octets themselves.
    Binary,
}

/// The octets that are written in a text of this form; `None` where it is none.
///
/// # Errors
/// `AllocError` where an allocation failed.
pub fn octets_in(alloc: Global, form: OctetForm, text: &[u8]) -> Result<Option<Vec<u8>>, AllocError>
    ensures { IfOk result (λ o. MatchOption o
        (octets_in form text.now ≡ None) (λ octets. octets_in form text.now ≡ Some octets.items)) }
{
    match form {
        OctetForm::Hex | OctetForm::HexBlock => hexadecimal_in(alloc, text),
        OctetForm::Dump => dump_octets(alloc, text),
        OctetForm::Base64 => base64_in(alloc, text),
        OctetForm::Binary => Ok(Some(copied(alloc, text)?)),
    }
}

/// The octets of hexadecimal digits.
fn hexadecimal_in(alloc: Global, text: &[u8]) -> Result<Option<Vec<u8>>, AllocError>
    ensures { IfOk result (λ o. MatchOption o (result_ok (decode_of (digits_of text.now)) ≡ None)
        (λ octets. result_ok (decode_of (digits_of text.now)) ≡ Some octets.items)) }
{
    let digits = digits_in(alloc, text)?;
    match hex::decode(alloc, digits.as_slice()) {
        Ok(octets) => Ok(Some(octets)),
        Err(FromHexError::OutOfMemory) => Err(AllocError),
        Err(_) => Ok(None),
    }
}

/// The digits of the text, one after the other.
fn digits_in(alloc: Global, text: &[u8]) -> Result<Vec<u8>, AllocError>
    ensures { IfOk result (λ digits. digits.items ≡ digits_of text.now) }
{
    let mut digits = Vec::new(alloc);
    for line in text.split(|octet| *octet == b'\n') {
        push_line(&mut digits, line)?;
    }
    Ok(digits)
}

/// Puts the digits of the line at the end.
fn push_line(digits: &mut Vec<u8>, line: &[u8]) -> Result<(), AllocError>
    ensures { OnOk result (digits.new.items ≡ digits.old.items ++ line_digits line.now) }
{
    for word in uncommented(line).split(|octet| is_blank(*octet)) {
        digits.extend_from_slice(unprefixed(word))?;
    }
    Ok(())
}

/// The line up to its comment.
pub(crate) fn uncommented(line: &[u8]) -> &[u8]
    ensures { result.now ≡ before_first is_comment line.now }
{
    match line.iter().position(|octet| *octet == b'#') {
        Some(length) => line.split_at(length).0,
        None => line,
    }
}

/// Whether an octet stands between words: a space, a tabulator or a carriage return.
pub(crate) fn is_blank(octet: u8) -> bool
    ensures { result ≡ is_blank octet }
{
    octet == b' ' || octet == b'\t' || octet == b'\r'
}

/// The word without the 0x in front of it.
pub(crate) fn unprefixed(word: &[u8]) -> &[u8]
    ensures { result.now ≡ unprefixed word.now }
{
    match word {
        [b'0', b'x' | b'X', rest @ ..] => rest,
        _ => word,
    }
}

/// The octets of Base64.
fn base64_in(alloc: Global, text: &[u8]) -> Result<Option<Vec<u8>>, AllocError>
    ensures { IfOk result (λ o. MatchOption o (result_ok (engine.decode_of standard text.now) ≡ None)
        (λ octets. result_ok (engine.decode_of standard text.now) ≡ Some octets.items)) }
{
    match STANDARD.decode(alloc, text) {
        Ok(octets) => Ok(Some(octets)),
        Err(DecodeAllocError::DecodeError(_)) => Ok(None),
        Err(DecodeAllocError::OutOfMemory) => Err(AllocError),
    }
}

/// A copy of the octets.
fn copied(alloc: Global, octets: &[u8]) -> Result<Vec<u8>, AllocError>
    ensures { IfOk result (λ copy. copy.items ≡ octets.now) }
{
    let mut copy = Vec::new(alloc);
    copy.extend_from_slice(octets)?;
    Ok(copy)
}

/// The text of this form that is written of octets, without a line's end. `octets_in` reads the same octets in it; of
/// `Dump` it is written, and read, as `Hex`.
///
/// # Errors
/// `AllocError` where an allocation failed.
pub fn text_of(alloc: Global, form: OctetForm, octets: &[u8]) -> Result<Vec<u8>, AllocError>
    ensures text { IfOk result (λ text. text.items ≡ text_of form octets.now) }
    ensures read_again { IfOk result (λ text. octets_in (read_form form) text.items ≡ Some octets.now) }
{
    match form {
        OctetForm::Hex | OctetForm::HexBlock | OctetForm::Dump => hexadecimal_of(alloc, octets),
        OctetForm::Base64 => base64_of(alloc, octets),
        OctetForm::Binary => copied(alloc, octets),
    }
}

/// The octets as hexadecimal digits.
fn hexadecimal_of(alloc: Global, octets: &[u8]) -> Result<Vec<u8>, AllocError>
    ensures text { IfOk result (λ text. text.items ≡ encode_lower octets.now) }
    ensures read_again { IfOk result (λ text. result_ok (decode_of (digits_of text.items)) ≡ Some octets.now) }
{
    let digits = hex::encode(alloc, octets)?;
    let text = copied(alloc, digits.as_bytes())?;
    Ok(text)
}

/// The octets as Base64.
fn base64_of(alloc: Global, octets: &[u8]) -> Result<Vec<u8>, AllocError>
    ensures text { IfOk result (λ text. text.items ≡ engine.encode_of standard octets.now) }
    ensures read_again { IfOk result (λ text. result_ok (engine.decode_of standard text.items) ≡ Some octets.now) }
{
    let coded = STANDARD.encode(alloc, octets)?;
    let text = copied(alloc, coded.as_bytes())?;
    Ok(text)
}
