//! The answer to one line.
ghost use Rattle.std.specs.Prelude.{◌≡◌, IfOk, IfErr, OnOk, MatchOption, string_bytes};
ghost use Rattle.std.specs.Io.KnownBytes.{Appends};
ghost use Rattle.asn_first.specs.declared.runner.FirstFault.{FirstFault};
ghost use Rattle.asn_first.specs.Lines.{IsTwoLines, Shows, IsNoMessage, IsFirstLine, Answered, IsUnwritten};
ghost use Rattle.hex.specs.Hex.{IsBytes};

use crate::notation::text_of;
use crate::sample::sample_type;
use asn_per::Per;
use asn_rules::{DecodeFault, EncodeFault, Rules, decode};
use std::alloc::{AllocError, AllocFailed, Global};
use std::io;
use std::io::{BufRead, BufReader, ErrorKind, Read, Write};
use thiserror::Error;

/// Why there is no answer to a line.
#[derive(Clone, Copy, Debug, PartialEq, Eq, Error)]
pub enum FirstFault {
    /// The input could not be read.
    #[error("read failed")]
    Read = 1,
    /// The output could not be written.
    #[error("write failed")]
    Write = 2,
    /// An allocation failed.
    #[error("memory")]
    Memory = 3,
}

/// Answers the first line of `input`, up to its first LF or its end: hexadecimal digits, two an octet.
///
/// Where they are the complete encoding of a value of the sample type, two lines are written: the
/// components that have a value, and the octets encoded again; the result is true. Otherwise the one
/// line `! refused` is written, and the result is false. `Read` and `Write` come where the reader or
/// the writer failed, `Memory` where an allocation failed, before any writing.
pub fn first<R: Read, W: Write>(
    alloc: Global,
    input: &mut R,
    output: &mut W,
) -> Result<bool, FirstFault>
    ensures answer { IfOk result (λ ok.
        Answered ok (R.remaining input.old) (W.contents output.old) (W.contents output.new)) }
    ensures unwritten { IfErr result (λ fault. IsUnwritten fault (W.contents output.old) (W.contents output.new)) }
{
    let line = first_line(alloc, input)?;
    match answer_to(alloc, line.as_slice())? {
        Some(text) => {
            put(output, text.as_str())?;
            Ok(true)
        }
        None => {
            put(output, "! refused\n")?;
            Ok(false)
        }
    }
}

/// Writes the text.
fn put<W: Write>(output: &mut W, text: &str) -> Result<(), FirstFault>
    ensures ok { OnOk result (Appends (W.contents output.old) (W.contents output.new) text.now) }
    ensures err { IfErr result (λ fault. fault ≡ FirstFault.Write) }
{
    if output.write_all(text.as_bytes()).is_err() || output.flush().is_err() {
        return Err(FirstFault::Write);
    }
    Ok(())
}

/// What comes before the first LF, or before the end.
fn first_line<R: Read>(alloc: Global, input: &mut R) -> Result<Vec<u8>, FirstFault>
    ensures { IfOk result (λ line. IsFirstLine (R.remaining input.old) line.items) }
{
    let mut line = Vec::new(alloc);
    let mut buffered = BufReader::new(alloc, input)?;
    buffered.read_until(b'\n', &mut line)?;
    let count = line.len();
    if count > 0 && line[count - 1] == b'\n' {
        line.truncate(count - 1);
    }
    Ok(line)
}

/// The two lines of the answer, or `None` where the line is refused.
fn answer_to(alloc: Global, line: &[u8]) -> Result<Option<String>, FirstFault>
    ensures answer { IfOk result (λ answer.
        MatchOption answer (IsNoMessage line.now) (λ text. Shows line.now (string_bytes text))) }
    ensures memory { IfErr result (λ fault. fault ≡ FirstFault.Memory) }
{
    let octets = match hex::decode(alloc, line) {
        Ok(octets) => octets,
        Err(hex::FromHexError::OutOfMemory) => return Err(FirstFault::Memory),
        Err(_) => return Ok(None),
    };
    let ty = sample_type(alloc)?;
    let value = match decode::<Per>(alloc, &ty, octets.as_slice()) {
        Ok(value) => value,
        Err(DecodeFault::Memory) => return Err(FirstFault::Memory),
        Err(_) => return Ok(None),
    };
    let again = match Per::encode(alloc, &ty, &value) {
        Ok(again) => again,
        Err(EncodeFault::Memory) => return Err(FirstFault::Memory),
        Err(_) => unreachable!(),
    };
    let shown = text_of(alloc, ty.get(), &value)?;
    Ok(Some(two_lines(alloc, shown, again.as_slice())?))
}

/// What is shown, and the octets in hexadecimal, a line each.
fn two_lines(alloc: Global, shown: String, octets: &[u8]) -> Result<String, AllocError>
    ensures text { IfOk result (λ text. IsTwoLines (string_bytes shown) octets.now (string_bytes text)) }
    ensures octets { IsBytes octets.now }
{
    let digits = hex::encode(alloc, octets)?;
    let mut text = shown;
    text.push_str("\n")?;
    text.push_str(digits.as_str())?;
    text.push_str("\n")?;
    Ok(text)
}

impl From<io::Error> for FirstFault {
    fn from(error: io::Error) -> FirstFault {
        if error.kind() == ErrorKind::OutOfMemory {
            FirstFault::Memory
        } else {
            FirstFault::Read
        }
    }
}

impl From<AllocError> for FirstFault {
    ghost from_gives = { λ _ fault. fault ≡ FirstFault.Memory };

    fn from(_: AllocError) -> FirstFault {
        FirstFault::Memory
    }
}

impl<T: Drop> From<AllocFailed<T>> for FirstFault {
    fn from(_: AllocFailed<T>) -> FirstFault {
        FirstFault::Memory
    }
}
