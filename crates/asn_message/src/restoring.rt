//! Values out of slots.
ghost use Rattle.std.specs.Prelude.{◌≡◌, ◌==◌, ◌++◌, ◌∷◌, [], IfOk, IsOk, Some, drop, map, option_map, take};
ghost use Rattle.asn_values.specs.View.{datum_of, entries_seen};
ghost use Rattle.asn_plan.specs.Plans.{absents};
ghost use Rattle.asn_message.specs.Slots.{bits_at, entries_inside, first_of, octets_at, value_at, value_in, values_of};

use crate::slots::{Content, Slot, Span};
use asn_values::Value;
use std::alloc::{AllocError, Global};
use std::collections::VecDeque;

/// The octets of a string.
#[inline(always)]
pub(crate) fn octets_of(octets: &[u8], span: Span) -> &[u8]
    ensures { result.now ≡ octets_at octets.now span }
{
    let begin = span.begin as usize;
    let length = span.length as usize;
    if begin > octets.len() {
        return &[];
    }
    let rest = &octets[begin..];
    if length > rest.len() {
        return rest;
    }
    &rest[..length]
}

/// The value that stands in the slots.
pub(crate) fn value_of(alloc: Global, slots: &[Slot], octets: &[u8]) -> Result<Value, AllocError>
    ensures { IfOk result (λ v. datum_of v ≡ value_in octets.now slots.now) }
{
    let Some((first, others)) = slots.split_first() else {
        return Ok(Value::Null);
    };
    let mut left = VecDeque::new(alloc);
    let count = others.len();
    for i in 0..count {
        let at = count - 1 - i;
        let slot = &others[at];
        restore(alloc, slot, octets, &mut left)?;
    }
    let value = restored(alloc, first.content, octets, &mut left)?;
    Ok(value)
}

/// Puts the entries that a slot makes in front of those that are left of the slots after it.
fn restore(
    alloc: Global,
    slot: &Slot,
    octets: &[u8],
    left: &mut VecDeque<Option<Value>>,
) -> Result<(), AllocError>
    ensures { IsOk result → entries_seen left.new.items ≡ absents slot.now.absent_before
        ++ (Some (value_at octets.now slot.now.content (entries_seen left.old.items))
        ∷ drop (entries_inside slot.now.content) (entries_seen left.old.items)) }
{
    let value = restored(alloc, slot.content, octets, left)?;
    if left.push_front(Some(value)).is_err() {
        return Err(AllocError);
    }
    for i in 0..slot.absent_before {
        if left.push_front(None).is_err() {
            return Err(AllocError);
        }
    }
    Ok(())
}

/// The value of a slot, of whose entries those inside it are taken.
pub(crate) fn restored(
    alloc: Global,
    content: Content,
    octets: &[u8],
    left: &mut VecDeque<Option<Value>>,
) -> Result<Value, AllocError>
    ensures value { IfOk result (λ v. datum_of v ≡ value_at octets.now content (entries_seen left.old.items)) }
    ensures left { IsOk result
        → entries_seen left.new.items ≡ drop (entries_inside content) (entries_seen left.old.items) }
{
    match content {
        Content::Truth(truth) => Ok(Value::Bool(truth)),
        Content::Null => Ok(Value::Null),
        Content::Number(number) => Ok(Value::Int(i128::from(number))),
        Content::Large(number) => Ok(Value::Int(i128::from(number))),
        Content::Item(index) => Ok(Value::Enum(index)),
        Content::Bits(span) => Ok(Value::Bits(copy_bits(alloc, octets_of(octets, span))?)),
        Content::Octets(span) => Ok(Value::Octets(copy_octets(alloc, octets_of(octets, span))?)),
        Content::Text(span) => Ok(Value::Text(copy_octets(alloc, octets_of(octets, span))?)),
        Content::Utf8(span) => match str::from_utf8(octets_of(octets, span)) {
            Ok(text) => Ok(Value::Utf8(String::from_str(alloc, text)?)),
            Err(_) => Err(AllocError),
        },
        Content::Sequence { taken, absent } => {
            let entries = take_entries(alloc, left, taken, absent)?;
            Ok(Value::Seq(entries))
        }
        Content::List(count) => {
            let elements = take_elements(alloc, left, count)?;
            Ok(Value::List(elements))
        }
        Content::Choice(place) => {
            let value = take_value(left);
            let chosen = Box::new(alloc, value)?;
            Ok(Value::Choice(place, chosen))
        }
    }
}

/// Takes the first value that is left; NULL where there is none.
fn take_value(left: &mut VecDeque<Option<Value>>) -> Value
    ensures value { datum_of result ≡ first_of (entries_seen left.old.items) }
    ensures left { entries_seen left.new.items ≡ drop 1 (entries_seen left.old.items) }
{
    match left.pop_front() {
        Some(Some(value)) => value,
        _ => Value::Null,
    }
}

/// Takes the first entries that are left, and puts entries that are absent after them.
fn take_entries(
    alloc: Global,
    left: &mut VecDeque<Option<Value>>,
    taken: u32,
    absent: u32,
) -> Result<Vec<Option<Value>>, AllocError>
    ensures entries { IfOk result (λ v.
        entries_seen v.items ≡ take taken (entries_seen left.old.items) ++ absents absent) }
    ensures left { IsOk result → entries_seen left.new.items ≡ drop taken (entries_seen left.old.items) }
{
    let mut entries = Vec::new(alloc);
    for i in 0..taken {
        if let Some(entry) = left.pop_front() {
            entries.push(entry)?;
        }
    }
    for i in 0..absent {
        entries.push(None)?;
    }
    Ok(entries)
}

/// Adds the value, if there is one.
fn push_present(elements: &mut Vec<Value>, entry: Option<Value>) -> Result<(), AllocError>
    ensures { IsOk result → map datum_of elements.new.items
        ≡ map datum_of elements.old.items ++ values_of (option_map datum_of entry ∷ []) }
{
    match entry {
        Some(value) => {
            elements.push(value)?;
            Ok(())
        }
        None => Ok(()),
    }
}

/// Takes the first elements that are left.
fn take_elements(
    alloc: Global,
    left: &mut VecDeque<Option<Value>>,
    count: u32,
) -> Result<Vec<Value>, AllocError>
    ensures elements { IfOk result (λ v.
        map datum_of v.items ≡ values_of (take count (entries_seen left.old.items))) }
    ensures left { IsOk result → entries_seen left.new.items ≡ drop count (entries_seen left.old.items) }
{
    let mut elements = Vec::new(alloc);
    for i in 0..count {
        if let Some(entry) = left.pop_front() {
            push_present(&mut elements, entry)?;
        }
    }
    Ok(elements)
}

/// A copy of octets.
fn copy_octets(alloc: Global, octets: &[u8]) -> Result<Vec<u8>, AllocError>
    ensures { IfOk result (λ v. v.items ≡ octets.now) }
{
    let mut copy = Vec::new(alloc);
    copy.extend_from_slice(octets)?;
    Ok(copy)
}

/// The bits of octets that are one bit each.
fn copy_bits(alloc: Global, octets: &[u8]) -> Result<Vec<bool>, AllocError>
    ensures { IfOk result (λ v. v.items ≡ map (λ n. n == 1) octets.now) }
{
    let mut bits = Vec::new(alloc);
    for octet in octets {
        bits.push(*octet == 1)?;
    }
    Ok(bits)
}
