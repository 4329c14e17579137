//! The fields of a message, beside what a decoder answers to it.
ghost use Rattle.std.specs.Prelude.{◌≡◌, IfOk, IfSome, length, map, take};
ghost use Rattle.asn_values.specs.View.{shape_of, datum_of};
ghost use Rattle.asn_rules.specs.Answer.{max_octets};
ghost use Rattle.asn_fields.specs.Tells.{AreContents, Tells, last_told};

use crate::field::{FieldKind, MessageField};
use crate::laying::laid;
use crate::leaves::push_leaves;
use crate::telling::Walk;
use crate::walk::walk_message;
use asn_rules::internal::{Reads, decode_at_once};
use asn_rules::{DecodeFault, MAX_OCTETS, Unit};
use asn_values::{Checked, Value};
use asn_walk::ReadLeaves;
use std::alloc::{AllocError, Global};

/// The fields of a message, one after the other.
#[derive(Debug, Drop)]
pub struct MessageFields {
    /// The unit in which they are counted: the bit in PER, the octet in OER.
    pub unit: Unit,
    /// From the first unit to the last of the octets that are read; of octets that are refused, to the refused unit. A
    /// field without a unit is where its value would begin. Of a message, those that have a value have, in order, the
    /// parts of its value that have no parts themselves.
    pub fields: Vec<MessageField>,
    /// What `decode` answers: the value whose encoding the octets are, or why they are none.
    pub answer: Result<Value, DecodeFault>,
}

/// The fields of octets that are to be the complete encoding of a value of the type by the rules R. Only the first
/// 268,435,455 octets are read. The message is read twice.
///
/// # Errors
/// `AllocError` where an allocation failed.
pub fn fields<R: Reads + ReadLeaves>(
    alloc: Global,
    ty: &Checked,
    octets: &[u8],
) -> Result<MessageFields, AllocError>
    ensures { IfOk result (Tells R.Reads.ruling (shape_of ty.now) octets.now) }
{
    match fields_within::<R>(alloc, ty, octets, usize::MAX)? {
        Some(told) => Ok(told),
        None => Err(AllocError),
    }
}

/// The fields of octets, as `fields` gives them, if they are at most `most`. `None` if there are more; then the octets
/// are not decoded.
///
/// # Errors
/// `AllocError` if an allocation failed.
pub fn fields_within<R: Reads + ReadLeaves>(
    alloc: Global,
    ty: &Checked,
    octets: &[u8],
    most: usize,
) -> Result<Option<MessageFields>, AllocError>
    ensures { IfOk result (λ o. IfSome o (Tells R.Reads.ruling (shape_of ty.now) octets.now)) }
{
    let unit = if R::units_of(1) == 1 {
        Unit::Octet
    } else {
        Unit::Bit
    };
    let mut walk = Walk::new(alloc, unit, most);
    let walked = walk_message::<R>(&mut walk, ty, octets);
    if walk.is_over {
        return Ok(None);
    }
    walked?;
    let answer = decode_at_once::<R>(alloc, ty, octets);
    if matches!(&answer, Err(DecodeFault::Memory)) {
        return Err(AllocError);
    }
    let end = end_of::<R>(&answer, octets);
    let closing = walk.closing(closing_kind(&answer), end)?;
    let values = values_of(alloc, &answer, walk.values)?;
    let fields = laid(alloc, walk.told, values.as_slice(), closing, end)?;
    Ok(Some(MessageFields {
        unit,
        fields,
        answer,
    }))
}

/// The values of the fields, in order: the parts of the value of a message that have no parts, and of octets that are
/// no message those that were read.
fn values_of(
    alloc: Global,
    answer: &Result<Value, DecodeFault>,
    read: Vec<Value>,
) -> Result<Vec<Value>, AllocError>
    ensures { IfOk result (λ v. AreContents answer.now (map datum_of v.items)) }
{
    match answer {
        Ok(value) => {
            let mut all = Vec::new(alloc);
            push_leaves(value, &mut all)?;
            Ok(all)
        }
        Err(_) => Ok(read),
    }
}

/// The last unit that the fields of the octets have.
fn end_of<R: Reads>(answer: &Result<Value, DecodeFault>, octets: &[u8]) -> u64
    ensures { result ≡ last_told R.ruling octets.now answer.now }
{
    let all = units_read::<R>(octets);
    match answer {
        Ok(_) => all,
        Err(DecodeFault::Refused { at, .. }) => *at,
        Err(DecodeFault::Truncated { .. }) => all,
        Err(DecodeFault::Rest { .. }) => all,
        Err(DecodeFault::TooLong) => all,
        Err(DecodeFault::Memory) => all,
    }
}

/// How many units the octets have, as far as they are read.
fn units_read<R: Reads>(octets: &[u8]) -> u64
    ensures { result ≡ length (R.ruling.units (take max_octets octets.now)) }
{
    R::units_of(octets.len().min(MAX_OCTETS))
}

/// What the units are that follow the fields which were read.
fn closing_kind(answer: &Result<Value, DecodeFault>) -> FieldKind {
    match answer {
        Err(DecodeFault::Refused { .. }) => FieldKind::Refused,
        Ok(_) | Err(DecodeFault::Rest { .. }) => FieldKind::Rest,
        Err(DecodeFault::Truncated { .. } | DecodeFault::TooLong | DecodeFault::Memory) => {
            FieldKind::CutShort
        }
    }
}
