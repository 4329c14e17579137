//! Whole octets, moved by fewer bits than an octet has.
ghost use Rattle.std.specs.Prelude.{◌≡◌, ◌+◌, ◌*◌, ◌/◌, ◌%◌, ◌^◌, ◌<◌, ◌≤◌, length, drop, [], IfOk, OnOk, OnErr, vec_len, vec_capacity};
ghost use Rattle.asn_bits.specs.Moves.{Shifted, TakenFrom};
ghost use Rattle.asn_bits.specs.Numbers.{unpacked};

use crate::words::{full_word, low_octet};
use std::alloc::{AllocError, Global};

// appends `count` octets, read from bit `offset` on; an `Err` is out of memory, and then nothing has changed
pub(crate) fn push_front(
    bytes: &mut Vec<u8>,
    octets: &[u8],
    offset: u32,
    count: usize,
) -> Result<(), AllocError>
    requires begun { offset < 8 }
    requires there { 8 * count + offset ≤ 8 * length octets.now }
    ensures ok { OnOk result (TakenFrom offset count octets.now bytes.old.items bytes.new.items) }
    ensures err { OnErr result (bytes.new.items ≡ bytes.old.items) }
{
    if offset == 0 {
        bytes.extend_from_slice(&octets[..count])?;
    } else {
        bytes.reserve(count)?;
        push_shifted(bytes, 8 - offset, octets[0] as u64, &octets[1..count + 1]);
    }
    Ok(())
}

// `count` octets, read from bit `offset` on, as a vector that has no more capacity than they need
#[inline(always)]
pub(crate) fn front_row(
    alloc: Global,
    octets: &[u8],
    offset: u32,
    count: usize,
) -> Result<Vec<u8>, AllocError>
    requires begun { offset < 8 }
    requires there { 8 * count + offset ≤ 8 * length octets.now }
    ensures { IfOk result (λ row. TakenFrom offset count octets.now [] row.items) }
{
    if offset == 0 {
        return Vec::from_slice(alloc, &octets[..count]);
    }
    let mut row = Vec::with_capacity(alloc, count)?;
    push_front(&mut row, octets, offset, count)?;
    Ok(row)
}

// the octets read from bit `offset` on, in place of those of `into`, as many
pub(crate) fn copy_front(into: &mut [u8], octets: &[u8], offset: u32)
    requires begun { offset < 8 }
    requires there { 8 * length into.old + offset ≤ 8 * length octets.now }
    ensures len { length into.new ≡ length into.old }
    ensures taken { TakenFrom offset (length into.old) octets.now [] into.new }
{
    let count = into.len();
    if offset == 0 {
        into.copy_from_slice(&octets[..count]);
    } else {
        fill_shifted(into, 8 - offset, octets[0] as u64, &octets[1..count + 1]);
    }
}

// adds the octets of the low `count` bits of `pending`, followed by all of `octets`, and gives what is left over in its
// low `count` bits
pub(crate) fn push_shifted(bytes: &mut Vec<u8>, count: u32, pending: u64, octets: &[u8]) -> u64
    requires few { (0 < count) × (count < 8) }
    requires room { vec_len bytes.old + length octets.now ≤ vec_capacity bytes.old }
    ensures shifted { Shifted bytes.old.items bytes.new.items octets.now count pending result }
    ensures len { vec_len bytes.new ≡ vec_len bytes.old + length octets.now }
    ensures capacity { vec_capacity bytes.old ≤ vec_capacity bytes.new }
{
    let start = bytes.len();
    if bytes.resize(start + octets.len(), 0).is_err() {
        unreachable!()
    }
    fill_shifted(&mut bytes[start..], count, pending, octets)
}

/// Fills a slice with as many octets as are given: those of the low `count` bits of `pending` and of all of `octets` after
/// them, eight at once. Gives what is left over in its low `count` bits.
pub fn fill_shifted(into: &mut [u8], count: u32, pending: u64, octets: &[u8]) -> u64
    requires few { (0 < count) × (count < 8) }
    requires room { length into.old ≡ length octets.now }
    ensures { Shifted [] into.new octets.now count pending result }
{
    let whole = octets.len() / 8 * 8;
    let (front, rest) = octets.split_at(whole);
    let (words, singles) = into.split_at_mut(whole);
    let high = fill_words(words, count, pending, front);
    fill_singles(singles, count, high, rest)
}

// fills a slice of whole words
fn fill_words(into: &mut [u8], count: u32, pending: u64, octets: &[u8]) -> u64
    requires few { (0 < count) × (count < 8) }
    requires whole { length octets.now % 8 ≡ 0 }
    requires room { length into.old ≡ length octets.now }
    ensures shifted { Shifted [] into.new octets.now count pending result }
{
    let mut high = pending;
    let mut rest = octets;
    let mut index = 0;
    while let Some((eight, others)) = rest.split_first_chunk::<8>() {
        let n = u64::from_be_bytes(*eight);
        let word = full_word(high, 64, n, count);
        into[index..index + 8].copy_from_slice(&word.to_be_bytes());
        high = n;
        rest = others;
        index += 8;
    }
    high
}

// fills a slice one octet after the other
fn fill_singles(into: &mut [u8], count: u32, pending: u64, octets: &[u8]) -> u64
    requires few { (0 < count) × (count < 8) }
    requires room { length into.old ≡ length octets.now }
    ensures { Shifted [] into.new octets.now count pending result }
{
    let mut high = pending;
    for i in 0..octets.len() {
        let n = octets[i] as u64;
        into[i] = low_octet(full_word(high, 8, n, count));
        high = n;
    }
    high
}
