//! The bits of a part of a message that has begun, and whose other bits have not come.
ghost use Rattle.std.specs.Prelude.{◌≡◌, ◌+◌, ◌-◌, ◌<◌, ◌≤◌, ◌^◌, ◌++◌, ◌↔◌, ℕ, List, [], length, min, IsTrue, drop, take};
ghost use Rattle.asn_bits.specs.Numbers.{bits, unpacked};
ghost use Rattle.asn_bits.specs.Sets.{AreBits};

use asn_bits::BitCursor;
use std::marker::Model;

/// How many bits there is room for.
const ROOM: u32 = 128;

/// The bits of a number, an index or a length that have come, where others have not. Contracts see the list of these
/// bits, each 0 or 1.
#[derive(Debug, Drop)]
pub struct Begun {
    count: u32,
    // the number that they stand for, the first of them the highest
    number: u128,
}

impl Model for Begun {
    ghost Value = { List ℕ };

    ghost view = { λ s. bits s.count s.number };

    ghost invariant = { λ s. (s.count ≤ 128) × (s.number < 2 ^ s.count) };
}

impl Begun {
    /// No bit has come.
    pub fn none() -> Begun
        ensures { result ≡ [] }
    {
        Begun {
            count: 0,
            number: 0,
        }
    }

    /// Whether no bit has come.
    pub fn is_none(&self) -> bool
        ensures { IsTrue result ↔ (self.now ≡ []) }
    {
        self.count == 0
    }

    /// How many bits have come.
    pub fn count(&self) -> u32
        ensures count { result ≡ length self.now }
        ensures bits { AreBits self.now }
    {
        self.count
    }

    /// The same bits.
    pub fn copied(&self) -> Begun
        ensures { result ≡ self.now }
    {
        Begun {
            count: self.count,
            number: self.number,
        }
    }

    /// Adds the bits that the cursor has left to these, as many as there are and have room; the cursor's stay. Gives
    /// how many they are.
    #[inline(always)]
    pub fn extend(&mut self, units: &BitCursor<'_>) -> u32
        ensures count { result ≡ min (length units.now) (ROOM - length self.old) }
        ensures bits { self.new ≡ self.old ++ take result units.now }
    {
        if units.octets_left() == 1
            && units.rest_of_octet() == 0
            && self.count <= ROOM - 8
            && let Some(octet) = units.peek_octet()
        {
            self.push(8, octet);
            return 8;
        }
        self.extend_by_words(units)
    }

    /// The same, whatever is left.
    fn extend_by_words(&mut self, units: &BitCursor<'_>) -> u32
        ensures count { result ≡ min (length units.now) (ROOM - length self.old) }
        ensures bits { self.new ≡ self.old ++ take result units.now }
    {
        let left = 8 * units.octets_left().min(16) as u32 + units.rest_of_octet();
        let count = left.min(ROOM - self.count);
        if count == 0 {
            return count;
        }
        let first = count.min(64);
        let mut units = units.copied();
        self.push_next(&mut units, first);
        if first == count {
            return count;
        }
        self.push_next(&mut units, count - first);
        count
    }

    /// Takes the next `count` bits and adds them to these.
    fn push_next(&mut self, units: &mut BitCursor<'_>, count: u32)
        requires few { count ≤ 64 }
        requires there { count ≤ length units.old }
        requires room { length self.old + count ≤ ROOM }
        ensures bits { self.new ≡ self.old ++ take count units.old }
        ensures left { units.new ≡ drop count units.old }
    {
        let Some(number) = units.peek_short_number(count) else {
            unreachable!()
        };
        units.pass(count);
        self.push(count, number);
    }

    /// Adds the `count` bits of the number.
    #[inline(always)]
    fn push(&mut self, count: u32, number: u64)
        requires few { count ≤ 64 }
        requires room { length self.old + count ≤ ROOM }
        requires fits { number < 2 ^ count }
        ensures { self.new ≡ self.old ++ bits count number }
    {
        self.number = (self.number << count) + u128::from(number);
        self.count += count;
    }

    /// Octets whose last bits are those that have come.
    pub fn octets(&self) -> [u8; 16]
        ensures bits { drop (128 - length self.now) (unpacked result) ≡ self.now }
        ensures count { length result ≡ 16 }
    {
        self.number.to_be_bytes()
    }

    /// Octets that begin with the bits that have come; those after them are zeros.
    pub(crate) fn filled(&self) -> [u8; 24]
        ensures bits { (more : List ℕ) × (unpacked result ≡ self.now ++ more) }
        ensures count { length result ≡ 24 }
    {
        let mut octets = [0u8; 24];
        octets[..16].copy_from_slice(&self.in_front().to_be_bytes());
        octets
    }

    /// The number of 128 bits that begins with the bits that have come, and has zeros after them.
    fn in_front(&self) -> u128
        ensures { bits ROOM result ≡ self.now ++ bits (ROOM - length self.now) 0 }
    {
        if self.count == 0 {
            return 0;
        }
        self.number << (ROOM - self.count)
    }

    /// A cursor over the bits that have come, which are the last of these octets.
    pub fn over<'a>(&self, octets: &'a [u8]) -> BitCursor<'a>
        requires count { length octets.now ≡ 16 }
        requires bits { drop (128 - length self.now) (unpacked octets.now) ≡ self.now }
        ensures { result ≡ self.now }
    {
        let mut cursor = BitCursor::over(octets);
        let skip = 128 - self.count;
        if skip > 64 {
            cursor.pass(64);
            cursor.pass(skip - 64);
        } else {
            cursor.pass(skip);
        }
        cursor
    }
}
