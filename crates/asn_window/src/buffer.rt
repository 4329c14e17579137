//! Octets in a fixed array.
ghost use Rattle.std.specs.Prelude.{◌≡◌, ◌+◌, ◌<◌, ◌≤◌, ℕ, List, [], ◌++◌, length, take};
ghost use Rattle.asn_bits.specs.Moves.{Shifted};

use asn_bits::internal::fill_shifted;
use std::marker::Model;

/// How many octets wait to be written at most.
const ROOM: usize = 4096;

/// Octets that wait to be written, in a fixed array. Contracts see their list.
#[derive(Drop)]
pub struct Buffer {
    octets: [u8; 4096],
    count: usize,
}

impl Model for Buffer {
    ghost Value = { List ℕ };

    ghost view = { λ b. take b.count b.octets };

    ghost invariant = { λ b. b.count ≤ 4096 };
}

impl Buffer {
    /// No octets.
    pub fn new() -> Buffer
        ensures { result ≡ [] }
    {
        Buffer {
            octets: [0; 4096],
            count: 0,
        }
    }

    /// How many octets more there is room for.
    pub fn room(&self) -> usize
        ensures { result + length self.now ≡ 4096 }
    {
        ROOM - self.count
    }

    /// How many octets wait.
    pub fn len(&self) -> usize
        ensures { result ≡ length self.now }
    {
        self.count
    }

    /// The octets.
    pub fn as_slice(&self) -> &[u8]
        ensures { result.now ≡ self.now }
    {
        &self.octets[..self.count]
    }

    /// Adds octets, for which there is room.
    #[inline(always)]
    pub fn extend(&mut self, octets: &[u8])
        requires { length self.old + length octets.now ≤ 4096 }
        ensures { self.new ≡ self.old ++ octets.now }
    {
        let end = self.count + octets.len();
        self.octets[self.count..end].copy_from_slice(octets);
        self.count = end;
    }

    /// Adds the first `count` of eight octets, for all of which there is room.
    #[inline(always)]
    pub fn extend_first(&mut self, octets: &[u8], count: usize)
        requires eight { length octets.now ≡ 8 }
        requires few { count ≤ 8 }
        requires room { length self.old + 8 ≤ 4096 }
        ensures { self.new ≡ self.old ++ take count octets.now }
    {
        let start = self.count;
        self.octets[start..start + 8].copy_from_slice(octets);
        self.count = start + count;
    }

    /// Adds octets, for which there is room, after the low `count` bits of `pending`, and returns a word in whose low
    /// `count` bits what is left over lies.
    #[inline(always)]
    pub fn extend_shifted(&mut self, count: u32, pending: u64, octets: &[u8]) -> u64
        requires some { 0 < count }
        requires few { count < 8 }
        requires room { length self.old + length octets.now ≤ 4096 }
        ensures { Shifted self.old self.new octets.now count pending result }
    {
        let end = self.count + octets.len();
        let left = fill_shifted(&mut self.octets[self.count..end], count, pending, octets);
        self.count = end;
        left
    }

    /// Lets all octets go.
    pub fn clear(&mut self)
        ensures { self.new ≡ [] }
    {
        self.count = 0;
    }
}
