//! The items of strings and the octets of open type fields that a piece has whole, many at once.
ghost use Rattle.std.specs.Prelude.{◌≡◌, ◌≤◌, ◌<◌, ◌+◌, ◌/◌, ◌%◌, ◌^◌, IfOk, vec_len, vec_capacity};
ghost use Rattle.asn_values.specs.View.{alphabet_of};
ghost use Rattle.asn_bits.specs.Numbers.{bits};
ghost use Rattle.asn_rules.specs.Fields.{Octet};
ghost use Rattle.asn_per.specs.Reading.{CharacterOf};
ghost use Rattle.asn_per.specs.SingleItems.{BitHeld, TakesItems, TakesAll};

use crate::string_items::{try_append_characters, width_of};
use asn_bits::BitCursor;
use asn_rules::internal::bits_left;
use asn_values::TextKind;
use std::alloc::AllocError;

/// Takes octets that have come whole, at most `most` of them, and appends them. Gives how many they are.
///
/// # Errors
/// `AllocError` where an allocation failed.
pub(crate) fn take_octets(
    most: usize,
    into: &mut Vec<u8>,
    cursor: &mut BitCursor<'_>,
) -> Result<usize, AllocError>
    ensures few { IfOk result (λ n. n ≤ most) }
    ensures done { IfOk result (λ n. TakesItems Octet n into.old.items into.new.items cursor.old cursor.new) }
{
    let count = most.min(cursor.octets_left());
    cursor.take_octets(count, into)?;
    Ok(count)
}

/// Takes bits, at most `most` of them, and appends each as an octet that is 0 or 1. Gives how many they are.
///
/// # Errors
/// `AllocError` where an allocation failed.
pub(crate) fn take_bits(
    most: usize,
    into: &mut Vec<u8>,
    cursor: &mut BitCursor<'_>,
) -> Result<usize, AllocError>
    ensures few { IfOk result (λ n. n ≤ most) }
    ensures done { IfOk result (λ n. TakesItems BitHeld n into.old.items into.new.items cursor.old cursor.new) }
{
    let count = (most as u128).min(bits_left(cursor)) as usize;
    into.reserve(count)?;
    let mut left = count;
    while left > 0 {
        let many = left.min(64) as u32;
        let Some(word) = cursor.take_number(many) else {
            unreachable!()
        };
        append_bits(many, word, into);
        left -= many as usize;
    }
    Ok(count)
}

/// Appends the low `count` bits of a number, for which the vector has capacity.
fn append_bits(count: u32, word: u64, into: &mut Vec<u8>)
    requires few { count ≤ 64 }
    requires room { vec_len into.old + count ≤ vec_capacity into.old }
    ensures items { TakesAll BitHeld count into.old.items into.new.items (bits count word) }
    ensures len { vec_len into.new ≡ vec_len into.old + count }
    ensures capacity { vec_capacity into.new ≡ vec_capacity into.old }
{
    for i in 0..count {
        into.push_reserved(bit_at(word, count - 1 - i));
    }
}

/// The bit of the number above `below` lower ones, as 0 or 1.
fn bit_at(number: u64, below: u32) -> u8
    requires { below < 64 }
    ensures { result ≡ number / 2 ^ below % 2 }
{
    (number >> below & 1) as u8
}

/// Takes characters that have come whole, at most `most` of them, and appends them, a word of them at a time. Gives how
/// many they are: it stops before a word in which a code is that of no character.
///
/// # Errors
/// `AllocError` where an allocation failed.
pub(crate) fn take_characters(
    kind: TextKind,
    most: usize,
    into: &mut Vec<u8>,
    cursor: &mut BitCursor<'_>,
) -> Result<usize, AllocError>
    ensures few { IfOk result (λ n. n ≤ most) }
    ensures done { IfOk result (λ n. TakesItems (CharacterOf kind) n
        into.old.items into.new.items cursor.old cursor.new) }
{
    let width = width_of(kind);
    let at_once = (64 / width) as usize;
    let there = (most as u128).min(bits_left(cursor) / u128::from(width)) as usize;
    let mut count = 0;
    while count < there {
        let many = (there - count).min(at_once);
        if !try_append_characters(kind, many as u32, into, cursor)? {
            return Ok(count);
        }
        count += many;
    }
    Ok(count)
}
