//! General lengths, and octets under them (X.691, "general length determinant").
ghost use Rattle.std.specs.Prelude.{◌≡◌, ◌+◌, ◌*◌, ◌/◌, ◌%◌, ◌^◌, ◌<◌, ◌≤◌, ◌≤ℤ◌, ◌++◌, length, IfOk, OnOk, OnErr, vec_len, vec_capacity};
ghost use Rattle.asn_limits.specs.Limits.{lowest_integer, highest_integer};
ghost use Rattle.asn_bits.specs.LengthBits.{first_length};
ghost use Rattle.asn_bits.specs.Lengths.{general_octets};
ghost use Rattle.asn_bits.specs.Numbers.{bits, least, least_signed, unpacked};
ghost use Rattle.asn_bits.specs.Sink.{IsPut, AddsFilled};

use crate::numbers::{least_signed_parts, octet_count};
use crate::pending::{put, put_octets};
use crate::sink::BitSink;
use asn_limits::{BLOCK, MAX_BLOCKS};
use std::alloc::AllocError;

impl BitSink {
    /// Adds the next length of a list of which `n` items are left, and gives how many of them follow
    /// it at once: all, or a fragment, after which another length comes, which may be 0. An `Err`
    /// is out of memory, and then nothing has changed.
    pub fn push_length(&mut self, n: u64) -> Result<u64, AllocError>
        ensures ok { OnOk result (self.new ≡ self.old ++ (first_length n).bits) }
        ensures items { IfOk result (λ items. items ≡ (first_length n).items) }
        ensures err { OnErr result (self.new ≡ self.old) }
    {
        let (k, code, items) = next_length(n);
        self.append(k, code)?;
        Ok(items)
    }

    /// Adds the fewest octets of `n` under their general length, as X.691 encodes a
    /// semi-constrained whole number. An `Err` is out of memory, and then nothing has changed.
    pub fn push_least_octets(&mut self, n: u64) -> Result<(), AllocError>
        ensures ok { OnOk result (self.new ≡ self.old ++ general_octets (λ u. u) (least n)) }
        ensures err { OnErr result (self.new ≡ self.old) }
    {
        let count = octet_count(n);
        self.append_both(8, count as u64, 8 * count, n)
    }

    /// Adds the fewest octets of two's complement of `z`, an integer of the profile, under their
    /// general length, as X.691 encodes an unconstrained whole number. An `Err` is out of memory, and
    /// then nothing has changed.
    pub fn push_least_signed_octets(&mut self, z: i128) -> Result<(), AllocError>
        requires low { lowest_integer ≤ℤ z }
        requires high { z ≤ℤ highest_integer }
        ensures ok { OnOk result (self.new ≡ self.old ++ general_octets (λ u. u) (least_signed z)) }
        ensures err { OnErr result (self.new ≡ self.old) }
    {
        let (front_bits, front, rest_bits, rest) = least_signed_parts(z);
        self.append_both(front_bits, front, rest_bits, rest)
    }

    /// Adds the octets that the bits of another sink fill, under their general length, fragments and all. An `Err` is
    /// out of memory, and then a part of the bits may have been added.
    pub fn push_filled(&mut self, content: BitSink) -> Result<(), AllocError>
        requires { length content % 8 ≡ 0 }
        ensures { OnOk result (AddsFilled self.old content self.new) }
    {
        let count = content.octet_count();
        if count >= 128 {
            let octets = content.into_octets();
            return self.push_general_octets(octets.as_slice());
        }
        self.append(8, count as u64)?;
        self.push_all_of(content)
    }

    // adds all bits of the octets, eight octets at once
    pub(crate) fn push_words(&mut self, octets: &[u8]) -> Result<(), AllocError>
        ensures { OnOk result (self.new ≡ self.old ++ unpacked octets.now) }
    {
        let mut rest = octets;
        while let Some((eight, others)) = rest.split_first_chunk::<8>() {
            self.append(64, u64::from_be_bytes(*eight))?;
            rest = others;
        }
        if rest.is_empty() {
            return Ok(());
        }
        self.push_octets(rest)
    }
}

// adds octets under their general length after the octets and the low `count` bits of `pending`, and gives how many
// bits then wait in what word; there is room for them, for two words at each fragment and for three at the end
pub(crate) fn put_general_octets(
    into: &mut Vec<u8>,
    count: u32,
    pending: u64,
    octets: &[u8],
) -> (u32, u64)
    requires waiting { count < 64 }
    requires room { vec_len into.old + length octets.now + length octets.now / 16384 * 16 + 24 ≤ vec_capacity into.old }
    ensures bits { IsPut into.old.items count pending (general_octets (λ u. u) octets.now)
        into.new.items result.0 result.1 }
    ensures waiting { result.0 < 8 }
    ensures room { vec_len into.new + 8 ≤ vec_capacity into.new }
{
    let mut rest = octets;
    let mut waiting = (count, pending);
    while rest.len() >= BLOCK as usize {
        let (k, code, items) = next_length(rest.len() as u64);
        let (fragment, others) = rest.split_at(items as usize);
        let (count, pending) = put(into, waiting.0, waiting.1, k, code);
        waiting = put_octets(into, count, pending, fragment);
        rest = others;
    }
    let (k, code, _) = next_length(rest.len() as u64);
    let (count, pending) = put(into, waiting.0, waiting.1, k, code);
    put_octets(into, count, pending, rest)
}

/// The next length determinant of a list of which `n` items are left: how many bits it has, the number that they are,
/// and how many items follow it at once, all or a fragment.
pub fn next_length(n: u64) -> (u32, u64, u64)
    ensures few { result.0 ≤ 64 }
    ensures fits { result.1 < 2 ^ result.0 }
    ensures bits { bits result.0 result.1 ≡ (first_length n).bits }
    ensures items { result.2 ≡ (first_length n).items }
    ensures within { result.2 ≤ n }
    ensures most { result.2 ≤ 65536 }
{
    if n < 128 {
        (8, n, n)
    } else if n < BLOCK {
        (16, 0x8000 + n, n)
    } else {
        let blocks = (n / BLOCK).min(MAX_BLOCKS);
        (8, 0xc0 + blocks, BLOCK * blocks)
    }
}
