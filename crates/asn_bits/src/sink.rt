//! The bits that an encoder has made so far, packed into octets as they come.
ghost use Rattle.std.specs.Prelude.{◌≡◌, ℕ, ◌+◌, ◌*◌, ◌/◌, ◌%◌, ◌^◌, ◌<◌, ◌≤◌, ◌↔◌, List, [], ◌∷◌, ◌++◌, length, IfOk, OnOk, OnErr, IsTrue, vec_len, vec_capacity};
ghost use Rattle.asn_bits.specs.Numbers.{bits, packed, padding, unpacked};
ghost use Rattle.asn_bits.specs.Lengths.{general_octets};
ghost use Rattle.asn_bits.specs.Sink.{bit_of};

use crate::lengths::put_general_octets;
use crate::pending::{push_all, put, put_octets};
use crate::words::{last_octets, push_low, push_word, shift_in};
use asn_limits::BLOCK;
use std::alloc::{AllocError, Global};
use std::fmt;
use std::marker::Model;

/// How many octets a sink has room for at first: a typical message between vehicles is then never moved.
const SHORT: usize = 512;

/// How many octets more are taken at least where these do not suffice, so that a message of some
/// thousand octets is moved once.
const LONG: usize = 32768;

/// Bits that wait to become octets. Contracts see the list of the bits pushed, each 0 or 1.
///
/// Whole octets are in a vector, and the fewer than 64 bits after them in a word. While bits are pending, 8
/// octets of spare capacity are kept, so flushing cannot fail.
#[derive(Drop)]
pub struct BitSink {
    octets: Vec<u8>,
    // the low `count` bits of it are pending; the higher bits are garbage
    pending: u64,
    count: u32,
    // at most 64; where fewer bits wait than this, there is room for the word that they are to fill
    most: u32,
    // below this length of `octets` nothing is pending and 24 octets of capacity are free
    limit: usize,
}

impl Model for BitSink {
    ghost Value = { List ℕ };

    ghost view = { λ s. unpacked s.octets.items ++ bits s.count s.pending };

    ghost invariant = { λ s. ((s.count < 64) × (s.most ≤ 64)
        × (0 < s.most → (s.limit ≡ 0) × (vec_len s.octets + 8 ≤ vec_capacity s.octets)))
        × ((0 < s.count → vec_len s.octets + 8 ≤ vec_capacity s.octets)
        × (0 < s.limit → (s.count ≡ 0) × (s.limit + 23 ≤ vec_capacity s.octets))) };
}

impl BitSink {
    /// No bits. It allocates nothing, and later pushes take their memory from `alloc`.
    pub fn new(alloc: Global) -> BitSink
        ensures { result ≡ [] }
    {
        BitSink {
            octets: Vec::new(alloc),
            pending: 0,
            count: 0,
            most: 0,
            limit: 0,
        }
    }

    /// No bits, with room for a short message.
    ///
    /// # Errors
    /// `AllocError` if the allocation failed.
    pub fn with_room(alloc: Global) -> Result<BitSink, AllocError>
        ensures { IfOk result (λ s. s ≡ []) }
    {
        let octets = Vec::with_capacity(alloc, SHORT)?;
        let limit = octets.capacity() - 23;
        Ok(BitSink {
            octets,
            pending: 0,
            count: 0,
            most: 0,
            limit,
        })
    }

    /// No bits, with room for a short message, which the first push asks for again where this allocation failed. Memory
    /// comes from where this sink takes its own.
    pub fn another(&self) -> BitSink
        ensures { result ≡ [] }
    {
        let alloc = *self.octets.allocator();
        match BitSink::with_room(alloc) {
            Ok(sink) => sink,
            Err(_) => BitSink::new(alloc),
        }
    }

    /// Whether no bit was pushed.
    pub fn is_empty(&self) -> bool
        ensures { IsTrue result ↔ (self.now ≡ []) }
    {
        self.count == 0 && self.octets.is_empty()
    }

    /// Whether the bits fill octets.
    pub fn ends_at_octet(&self) -> bool
        ensures { IsTrue result ↔ (length self.now % 8 ≡ 0) }
    {
        self.count % 8 == 0
    }

    /// Adds one bit. An `Err` is out of memory, and then nothing has changed.
    pub fn push(&mut self, bit: bool) -> Result<(), AllocError>
        ensures ok { OnOk result (self.new ≡ self.old ++ bit_of bit ∷ []) }
        ensures err { OnErr result (self.new ≡ self.old) }
    {
        self.append(1, bit as u64)
    }

    /// Adds `n` in `k` bits, the highest first. An `Err` is out of memory, and then nothing has changed.
    #[inline(always)]
    pub fn push_number(&mut self, k: u32, n: u64) -> Result<(), AllocError>
        requires few { k ≤ 64 }
        requires fits { n < 2 ^ k }
        ensures ok { OnOk result (self.new ≡ self.old ++ bits k n) }
        ensures err { OnErr result (self.new ≡ self.old) }
    {
        self.append(k, n)
    }

    /// Adds the low `count` octets of `n`, and ignores the others. An `Err` is out of memory, and then nothing
    /// has changed.
    #[inline(always)]
    pub fn push_low_octets(&mut self, count: u32, n: u64) -> Result<(), AllocError>
        requires few { count ≤ 8 }
        ensures ok { OnOk result (self.new ≡ self.old ++ bits (8 * count) n) }
        ensures err { OnErr result (self.new ≡ self.old) }
    {
        if count == 8 {
            return self.append_eight(n);
        }
        if self.octets.len() >= self.limit {
            return self.append_after_bits(count, n);
        }
        push_low(&mut self.octets, count, n);
        Ok(())
    }

    // adds all eight octets of n
    #[inline(never)]
    fn append_eight(&mut self, n: u64) -> Result<(), AllocError>
        ensures ok { OnOk result (self.new ≡ self.old ++ bits 64 n) }
        ensures err { OnErr result (self.new ≡ self.old) }
    {
        if self.octets.len() >= self.limit {
            return self.append_after_bits(8, n);
        }
        push_word(&mut self.octets, n);
        Ok(())
    }

    // the slow path of `push_low_octets` and `append_eight`: bits wait, or memory is wanted; bits
    // that fill octets wait no more then
    #[inline(never)]
    fn append_after_bits(&mut self, count: u32, n: u64) -> Result<(), AllocError>
        requires few { count ≤ 8 }
        ensures ok { OnOk result (self.new ≡ self.old ++ bits (8 * count) n) }
        ensures err { OnErr result (self.new ≡ self.old) }
    {
        if self.count % 8 != 0 {
            return self.append(8 * count, last_octets(count, n));
        }
        make_room(&mut self.octets, 24)?;
        push_low(&mut self.octets, self.count / 8, self.pending);
        push_low(&mut self.octets, count, n);
        self.count = 0;
        self.most = 0;
        self.limit = self.octets.capacity() - 23;
        Ok(())
    }

    /// Adds all bits of the octets, whole octets at once wherever the bits so far end. An `Err` is out of
    /// memory, and then nothing has changed.
    pub fn push_octets(&mut self, octets: &[u8]) -> Result<(), AllocError>
        ensures ok { OnOk result (self.new ≡ self.old ++ unpacked octets.now) }
        ensures err { OnErr result (self.new ≡ self.old) }
    {
        make_room(&mut self.octets, octets.len() + 16)?;
        let (count, pending) = put_octets(&mut self.octets, self.count, self.pending, octets);
        self.count = count;
        self.pending = pending;
        if count > 0 {
            self.most = 64;
            self.limit = 0;
        }
        Ok(())
    }

    /// As `push_octets`, and quicker where no bits wait to fill an octet and there is room.
    #[inline(always)]
    pub fn push_row(&mut self, octets: &[u8]) -> Result<(), AllocError>
        ensures ok { OnOk result (self.new ≡ self.old ++ unpacked octets.now) }
        ensures err { OnErr result (self.new ≡ self.old) }
    {
        if self.count == 0 && self.octets.capacity() - self.octets.len() >= octets.len() {
            push_all(&mut self.octets, octets);
            self.most = 0;
            return Ok(());
        }
        self.push_octets(octets)
    }

    /// Adds octets under their general length, fragments and all (X.691, "general length determinant"). An `Err`
    /// is out of memory, and then nothing has changed.
    pub fn push_general_octets(&mut self, octets: &[u8]) -> Result<(), AllocError>
        ensures ok { OnOk result (self.new ≡ self.old ++ general_octets (λ u. u) octets.now) }
        ensures err { OnErr result (self.new ≡ self.old) }
    {
        let lengths = octets.len() / BLOCK as usize * 16;
        make_room(&mut self.octets, octets.len() + lengths + 24)?;
        let (count, pending) = put_general_octets(
            &mut self.octets,
            self.count,
            self.pending,
            octets,
        );
        self.count = count;
        self.pending = pending;
        self.most = 64;
        self.limit = 0;
        Ok(())
    }

    /// Adds the fewest 0 bits that fill octets, none where the bits fill octets already.
    /// An `Err` is out of memory, and then nothing has changed.
    pub fn pad(&mut self) -> Result<(), AllocError>
        ensures ok { OnOk result (self.new ≡ self.old ++ padding (length self.old)) }
        ensures err { OnErr result (self.new ≡ self.old) }
    {
        let count = self.count % 8;
        if count == 0 {
            return Ok(());
        }
        self.append(8 - count, 0)
    }

    /// The octets that the bits fill. It takes no memory, and gives back what a long message left over.
    pub fn into_octets(self) -> Vec<u8>
        requires { length self % 8 ≡ 0 }
        ensures unpacked { unpacked result.items ≡ self }
        ensures packed { packed self ≡ result.items }
    {
        let BitSink {
            mut octets,
            pending,
            count,
            ..
        } = self;
        push_low(&mut octets, count / 8, pending);
        without_spare(octets)
    }

    // how many octets the bits fill
    pub(crate) fn octet_count(&self) -> usize
        requires { length self.now % 8 ≡ 0 }
        ensures { 8 * result ≡ length self.now }
    {
        self.octets.len() + (self.count / 8) as usize
    }

    // adds all bits of another sink, which fill octets
    pub(crate) fn push_all_of(&mut self, other: BitSink) -> Result<(), AllocError>
        requires { length other % 8 ≡ 0 }
        ensures { OnOk result (self.new ≡ self.old ++ other) }
    {
        self.push_words(other.octets.as_slice())?;
        self.append(other.count, last_octets(other.count / 8, other.pending))
    }

    // adds n in k bits, in one step
    #[inline(always)]
    pub(crate) fn append(&mut self, k: u32, n: u64) -> Result<(), AllocError>
        requires few { k ≤ 64 }
        requires fits { n < 2 ^ k }
        ensures ok { OnOk result (self.new ≡ self.old ++ bits k n) }
        ensures err { OnErr result (self.new ≡ self.old) }
    {
        let count = self.count + k;
        if count >= self.most {
            return self.append_word(k, n);
        }
        self.pending = shift_in(self.pending, k, n);
        self.count = count;
        Ok(())
    }

    // the same, where a word is full or memory may be needed
    #[inline(never)]
    fn append_word(&mut self, k: u32, n: u64) -> Result<(), AllocError>
        requires few { k ≤ 64 }
        requires fits { n < 2 ^ k }
        ensures ok { OnOk result (self.new ≡ self.old ++ bits k n) }
        ensures err { OnErr result (self.new ≡ self.old) }
    {
        if !has_room(&self.octets) {
            return self.append_with_room(k, n);
        }
        let (count, pending) = put(&mut self.octets, self.count, self.pending, k, n);
        self.count = count;
        self.pending = pending;
        self.most = 64;
        self.limit = 0;
        Ok(())
    }

    // the same, where memory is needed
    #[inline(never)]
    fn append_with_room(&mut self, k: u32, n: u64) -> Result<(), AllocError>
        requires few { k ≤ 64 }
        requires fits { n < 2 ^ k }
        ensures ok { OnOk result (self.new ≡ self.old ++ bits k n) }
        ensures err { OnErr result (self.new ≡ self.old) }
    {
        make_room(&mut self.octets, 24)?;
        let (count, pending) = put(&mut self.octets, self.count, self.pending, k, n);
        self.count = count;
        self.pending = pending;
        self.most = 64;
        self.limit = 0;
        Ok(())
    }

    // adds m in j bits, and then n in k bits, in one step where a word holds both
    pub(crate) fn append_both(&mut self, j: u32, m: u64, k: u32, n: u64) -> Result<(), AllocError>
        requires few { (j ≤ 64) × (k ≤ 64) }
        requires fits { (m < 2 ^ j) × (n < 2 ^ k) }
        ensures ok { OnOk result (self.new ≡ (self.old ++ bits j m) ++ bits k n) }
        ensures err { OnErr result (self.new ≡ self.old) }
    {
        if k < 64 && j + k <= 64 {
            return self.append(j + k, shift_in(m, k, n));
        }
        make_room(&mut self.octets, 24)?;
        let (count, pending) = put(&mut self.octets, self.count, self.pending, j, m);
        let (count, pending) = put(&mut self.octets, count, pending, k, n);
        self.count = count;
        self.pending = pending;
        self.most = 64;
        self.limit = 0;
        Ok(())
    }
}

// whether there is room for three words
fn has_room(octets: &Vec<u8>) -> bool
    ensures { IsTrue result ↔ (vec_len octets.now + 24 ≤ vec_capacity octets.now) }
{
    octets.capacity() - octets.len() >= 24
}

// makes room for `room` octets; where memory is needed, for as many as there are, so that a long message is moved few
// times, and for `SHORT` at first, and then for `LONG`
fn make_room(octets: &mut Vec<u8>, room: usize) -> Result<(), AllocError>
    ensures ok { OnOk result (vec_len octets.new + room ≤ vec_capacity octets.new) }
    ensures items { octets.new.items ≡ octets.old.items }
    ensures len { vec_len octets.new ≡ vec_len octets.old }
    ensures capacity { vec_capacity octets.old ≤ vec_capacity octets.new }
{
    if octets.capacity() - octets.len() < room {
        let least = if octets.is_empty() && room <= SHORT {
            SHORT
        } else {
            LONG
        };
        octets.reserve(room.max(octets.len()).max(least))?;
    }
    Ok(())
}

// the same octets; memory that is spare is given back where it is more than theirs, and more than `SHORT`
fn without_spare(mut octets: Vec<u8>) -> Vec<u8>
    ensures { result.items ≡ octets.items }
{
    let spare = octets.capacity() - octets.len();
    if spare > octets.len() && spare > SHORT {
        octets.shrink_to_fit();
    }
    octets
}

/// How many whole octets there are, and how many bits after them.
impl fmt::Debug for BitSink {
    fn fmt<W: fmt::Write>(&self, f: &mut fmt::Formatter<W>) -> fmt::Result {
        f.debug_struct("BitSink")
            .field("octets", &self.octets.len())
            .field("bits_after", &self.count)
            .finish()
    }
}
