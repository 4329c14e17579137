//! The bits of octets that are left to read.
ghost use Rattle.std.specs.Prelude.{◌≡◌, ℕ, ◌+◌, ◌-◌, ◌*◌, ◌%◌, ◌/◌, ◌^◌, ◌<◌, ◌≤◌, ◌↔◌, List, [], ◌∷◌, ◌++◌, length, drop, IsTrue, IsNone, IfSome, IfOk, OnOk, OnErr};
ghost use Rattle.asn_bits.specs.Moves.{Taken};
ghost use Rattle.asn_bits.specs.Numbers.{bits, octets, unpacked};
ghost use Rattle.asn_bits.specs.Sets.{AreBits};

use crate::shifts::{copy_front, front_row, push_front};
use std::alloc::{AllocError, Global};
use std::fmt;
use std::marker::Model;

/// The bits of octets that are left to read, the highest bit of an octet first. Contracts see
/// the list of these bits, each 0 or 1.
#[derive(Drop)]
pub struct BitCursor<'a> {
    octets: &'a [u8],
    // how many bits of the first octet are read
    offset: u32,
}

impl<'a> Model for BitCursor<'a> {
    ghost Value = { List ℕ };

    ghost view = { λ s. drop s.offset (unpacked s.octets.now) };

    ghost invariant = { λ s. (s.offset < 8) × (s.offset ≤ 8 * length s.octets.now) };
}

impl<'a> BitCursor<'a> {
    /// All bits of the octets.
    pub fn over(octets: &'a [u8]) -> BitCursor<'a>
        ensures { result ≡ unpacked octets.now }
    {
        BitCursor { octets, offset: 0 }
    }

    /// Whether no bit is left.
    pub fn is_empty(&self) -> bool
        ensures { IsTrue result ↔ (self.now ≡ []) }
    {
        self.octets.is_empty()
    }

    /// How many bits are left of the octet begun: 0 where none is begun, else 1 to 7.
    pub fn rest_of_octet(&self) -> u32
        ensures few { result < 8 }
        ensures rest { result ≡ length self.now % 8 }
    {
        if self.offset == 0 { 0 } else { 8 - self.offset }
    }

    /// How many octets are left of which no bit is read.
    pub fn octets_left(&self) -> usize
        ensures count { result ≡ length self.now / 8 }
        ensures bits { AreBits self.now }
    {
        if self.offset == 0 {
            self.octets.len()
        } else {
            self.octets.len() - 1
        }
    }

    /// Another cursor at the same bit.
    pub fn copied(&self) -> BitCursor<'a>
        ensures { result ≡ self.now }
    {
        BitCursor {
            octets: self.octets,
            offset: self.offset,
        }
    }

    /// The next bit, 0 or 1. `None` exactly where no bit is left.
    pub fn next(&mut self) -> Option<u8>
        ensures some { IfSome result (λ bit. self.old ≡ bit ∷ self.new) }
        ensures bit { IfSome result (λ bit. bit < 2) }
        ensures none { IsNone result ↔ (self.old ≡ []) }
        ensures end { self.old ≡ [] → self.new ≡ [] }
    {
        let octets = self.octets;
        let offset = self.offset;
        let Some((first, rest)) = octets.split_first() else {
            return None;
        };
        if offset == 7 {
            self.octets = rest;
            self.offset = 0;
        } else {
            self.offset = offset + 1;
        }
        Some(bit_at(*first, offset))
    }

    /// The number in the next `k` bits, the highest first; they stay. `None` exactly where fewer than `k`
    /// bits are left.
    #[inline(always)]
    pub fn peek_number(&self, k: u32) -> Option<u64>
        requires { k ≤ 64 }
        ensures fits { IfSome result (λ n. n < 2 ^ k) }
        ensures some { IfSome result (λ n. self.now ≡ bits k n ++ drop k self.now) }
        ensures none { IsNone result ↔ (length self.now < k) }
    {
        if let Some(n) = number_in_word(self.octets, self.offset, k) {
            return Some(n);
        }
        self.peek_across(k)
    }

    /// Peeks the next octet; `None` at the end, or inside an octet.
    #[inline(always)]
    pub fn peek_octet(&self) -> Option<u64>
        ensures fits { IfSome result (λ n. n < 2 ^ 8) }
        ensures some { IfSome result (λ n. self.now ≡ bits 8 n ++ drop 8 self.now) }
    {
        if self.offset == 0 {
            number_in_octet(self.octets, 0, 8)
        } else {
            None
        }
    }

    /// The number in the next `count` octets, which stay, where eight octets are left; `None` also where the octet
    /// begun is read in part.
    #[inline(always)]
    pub fn peek_octets(&self, count: u32) -> Option<u64>
        requires { count ≤ 8 }
        ensures fits { IfSome result (λ n. n < 2 ^ (8 * count)) }
        ensures some { IfSome result (λ n. self.now ≡ bits (8 * count) n ++ drop (8 * count) self.now) }
    {
        if self.offset == 0 {
            number_in_octets(self.octets, count)
        } else {
            None
        }
    }

    /// Passes the next `count` octets, at any bit of the octets below; they have to be left.
    #[inline(always)]
    pub fn pass_octets(&mut self, count: u32)
        requires { 8 * count ≤ length self.old }
        ensures { self.new ≡ drop (8 * count) self.old }
    {
        let octets = self.octets;
        self.octets = &octets[count as usize..];
    }

    /// As `peek_number`, and faster for few bits near the end of the input.
    #[inline(always)]
    pub fn peek_short_number(&self, k: u32) -> Option<u64>
        requires { k ≤ 64 }
        ensures fits { IfSome result (λ n. n < 2 ^ k) }
        ensures some { IfSome result (λ n. self.now ≡ bits k n ++ drop k self.now) }
        ensures none { IsNone result ↔ (length self.now < k) }
    {
        if let Some(n) = number_in_word(self.octets, self.offset, k) {
            return Some(n);
        }
        if let Some(n) = number_in_octet(self.octets, self.offset, k) {
            return Some(n);
        }
        self.peek_across(k)
    }

    // the same, where the bits do not all stand in the first eight octets
    #[cold]
    #[inline(never)]
    fn peek_across(&self, k: u32) -> Option<u64>
        requires { k ≤ 64 }
        ensures fits { IfSome result (λ n. n < 2 ^ k) }
        ensures some { IfSome result (λ n. self.now ≡ bits k n ++ drop k self.now) }
        ensures none { IsNone result ↔ (length self.now < k) }
    {
        let octets = self.octets;
        let offset = self.offset;
        let end = offset + k;
        if octets.len() < ((end + 7) / 8) as usize {
            return None;
        }
        Some(number_at(octets, offset, k))
    }

    /// Passes the next `k` bits, which have to be left.
    #[inline(always)]
    pub fn pass(&mut self, k: u32)
        requires few { k ≤ 64 }
        requires there { k ≤ length self.old }
        ensures { self.new ≡ drop k self.old }
    {
        let octets = self.octets;
        let end = self.offset + k;
        self.octets = &octets[(end / 8) as usize..];
        self.offset = end % 8;
    }

    /// The number in the next `k` bits, the highest first. `None` exactly where fewer than `k`
    /// bits are left, and then all of them stay.
    #[inline(always)]
    pub fn take_number(&mut self, k: u32) -> Option<u64>
        requires { k ≤ 64 }
        ensures fits { IfSome result (λ n. n < 2 ^ k) }
        ensures some { IfSome result (λ n. self.old ≡ bits k n ++ self.new) }
        ensures none { IsNone result ↔ (length self.old < k) }
        ensures unchanged { length self.old < k → self.new ≡ self.old }
    {
        let n = self.peek_number(k)?;
        self.pass(k);
        Some(n)
    }

    /// Takes the next `count` octets, at any bit of the octets below, and adds them to `into`, whole octets
    /// at once. They have to be left; `octets_left` returns how many are. An `Err` is out of memory, and
    /// then nothing has changed.
    pub fn take_octets(&mut self, count: usize, into: &mut Vec<u8>) -> Result<(), AllocError>
        requires { 8 * count ≤ length self.old }
        ensures ok { OnOk result (Taken count self.old self.new into.old.items into.new.items) }
        ensures err { OnErr result ((self.new ≡ self.old) × (into.new.items ≡ into.old.items)) }
    {
        let octets = self.octets;
        push_front(into, octets, self.offset, count)?;
        self.octets = &octets[count..];
        Ok(())
    }

    /// Takes as many octets as `into` has, at any bit of the octets below, in place of its own. They have to be left.
    #[inline(always)]
    pub fn copy_octets(&mut self, into: &mut [u8])
        requires { 8 * length into.old ≤ length self.old }
        ensures len { length into.new ≡ length into.old }
        ensures taken { Taken (length into.old) self.old self.new [] into.new }
    {
        let octets = self.octets;
        let count = into.len();
        copy_front(into, octets, self.offset);
        self.octets = &octets[count..];
    }

    /// Takes the next `count` octets, as `take_octets` does, as a vector that has no more capacity than they need. An
    /// `Err` is out of memory, and then nothing has changed.
    #[inline(always)]
    pub fn take_row(&mut self, alloc: Global, count: usize) -> Result<Vec<u8>, AllocError>
        requires { 8 * count ≤ length self.old }
        ensures ok { IfOk result (λ os. Taken count self.old self.new [] os.items) }
        ensures err { OnErr result (self.new ≡ self.old) }
    {
        let octets = self.octets;
        let row = front_row(alloc, octets, self.offset, count)?;
        self.octets = &octets[count..];
        Ok(row)
    }
}

// the bit after the first `offset` of an octet
fn bit_at(octet: u8, offset: u32) -> u8
    requires { offset < 8 }
    ensures { result ≡ octet / 2 ^ (7 - offset) % 2 }
{
    octet >> (7 - offset) & 1
}

// the number in the k bits after the first `offset`, where these end within eight octets
#[inline(always)]
fn number_in_word(octets: &[u8], offset: u32, k: u32) -> Option<u64>
    requires begun { offset < 8 }
    requires few { k ≤ 64 }
    ensures fits { IfSome result (λ n. n < 2 ^ k) }
    ensures there { IfSome result (λ n. offset + k ≤ 8 * length octets.now) }
    ensures here { IfSome result (λ n.
        drop offset (unpacked octets.now) ≡ bits k n ++ drop (offset + k) (unpacked octets.now)) }
{
    let end = offset + k;
    if end < 64
        && let Some((eight, _)) = octets.split_first_chunk::<8>()
    {
        return Some(field_after(u64::from_be_bytes(*eight), offset, k));
    }
    None
}

// the number in the first `count` octets, where there is one and eight are left
#[inline(always)]
fn number_in_octets(octets: &[u8], count: u32) -> Option<u64>
    requires few { count ≤ 8 }
    ensures fits { IfSome result (λ n. n < 2 ^ (8 * count)) }
    ensures there { IfSome result (λ n. 8 * count ≤ 8 * length octets.now) }
    ensures here { IfSome result (λ n.
        unpacked octets.now ≡ bits (8 * count) n ++ drop (8 * count) (unpacked octets.now)) }
{
    if count > 0
        && let Some((eight, _)) = octets.split_first_chunk::<8>()
    {
        return Some(field(u64::from_be_bytes(*eight), 64 - 8 * count, 8 * count));
    }
    None
}

// the number in the k bits after the first `offset`
fn number_at(octets: &[u8], offset: u32, k: u32) -> u64
    requires begun { offset < 8 }
    requires few { k ≤ 64 }
    requires there { offset + k ≤ 8 * length octets.now }
    ensures fits { result < 2 ^ k }
    ensures here { drop offset (unpacked octets.now) ≡ bits k result ++ drop (offset + k) (unpacked octets.now) }
{
    let end = offset + k;
    if let Some((eight, rest)) = octets.split_first_chunk::<8>() {
        if let Some(ninth) = rest.first() {
            let front = u64::from_be_bytes(*eight) as u128 * 256 + *ninth as u128;
            return wide_field(front, 72 - end, k);
        }
    }
    if let Some(n) = number_in_octet(octets, offset, k) {
        return n;
    }
    let count = (end + 7) / 8;
    wide_field(
        from_be_octets(&octets[..count as usize]),
        8 * count - end,
        k,
    )
}

// the number in the k bits after the first `offset`, where a bit is asked for and all stand in the first octet
#[inline(always)]
fn number_in_octet(octets: &[u8], offset: u32, k: u32) -> Option<u64>
    requires begun { offset < 8 }
    requires few { k ≤ 64 }
    ensures fits { IfSome result (λ n. n < 2 ^ k) }
    ensures there { IfSome result (λ n. offset + k ≤ 8 * length octets.now) }
    ensures here { IfSome result (λ n.
        drop offset (unpacked octets.now) ≡ bits k n ++ drop (offset + k) (unpacked octets.now)) }
{
    let end = offset + k;
    if k > 0
        && end <= 8
        && let Some(first) = octets.first()
    {
        return Some(field(u64::from(*first), 8 - end, k));
    }
    None
}

// the k bits of n after the first `offset`
#[inline(always)]
fn field_after(n: u64, offset: u32, k: u32) -> u64
    requires within { offset + k < 64 }
    ensures { result ≡ n / 2 ^ (64 - (offset + k)) % 2 ^ k }
{
    n << offset >> 1 >> (63 - k)
}

// the k bits of n above the last `below`
fn field(n: u64, below: u32, k: u32) -> u64
    requires within { below < 64 }
    requires some { 0 < k }
    requires few { k ≤ 64 }
    ensures { result ≡ n / 2 ^ below % 2 ^ k }
{
    n >> below & u64::MAX >> (64 - k)
}

// the same of a number of more than 64 bits
fn wide_field(n: u128, below: u32, k: u32) -> u64
    requires within { below < 128 }
    requires few { k ≤ 64 }
    ensures { result ≡ n / 2 ^ below % 2 ^ k }
{
    let mask = (1u128 << k) - 1;
    (n >> below & mask) as u64
}

// the number of up to nine octets
fn from_be_octets(front: &[u8]) -> u128
    requires { length front.now ≤ 9 }
    ensures { octets (length front.now) result ≡ front.now }
{
    let mut n: u128 = 0;
    for octet in front {
        n = n * 256 + *octet as u128;
    }
    n
}

/// How many octets there are, the first of them perhaps read in part, and how many bits of that one are read.
impl<'a> fmt::Debug for BitCursor<'a> {
    fn fmt<W: fmt::Write>(&self, f: &mut fmt::Formatter<W>) -> fmt::Result {
        f.debug_struct("BitCursor")
            .field("octets", &self.octets.len())
            .field("bits_read", &self.offset)
            .finish()
    }
}
