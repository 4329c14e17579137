//! Bits before a writer.
ghost use Rattle.std.specs.Prelude.{◌≡◌, ◌<◌, ◌≤◌, ◌^◌, ◌*◌, ◌+◌, ◌++◌, ◌%◌, ℕ, List, [], length, OnOk, IfErr};
ghost use Rattle.asn_bits.specs.Numbers.{bits, unpacked};
ghost use Rattle.asn_rules.specs.Held.{Held};

use crate::octet_writer::OctetWriter;
use crate::shifted::put_shifted;
use asn_bits::internal::{full_word, last_octets, shift_in};
use asn_rules::Output;

/// Octets that wait before a writer, and after them fewer than 64 bits.
#[derive(Drop)]
pub struct BitWriter {
    pub octets: OctetWriter,
    /// how many bits wait after the octets
    pub count: u32,
    /// in its low `count` bits those that wait; the higher bits are garbage
    pub pending: u64,
    ghost few: { count < 64 },
}

impl BitWriter {
    ghost use Rattle.asn_window.specs.BitWriters.{BitsStand, TakesBits};
    ghost use Rattle.asn_window.specs.Written.{Wrote, Broke};

    /// Adds `n` in `k` bits.
    #[inline(always)]
    pub fn put<O: Output>(&mut self, k: u32, n: u64, output: &mut O)
        requires few { k ≤ 64 }
        requires fits { n < 2 ^ k }
        ensures { TakesBits (O.held output.old) self.old (O.held output.new) self.new
            (bits k n) }
    {
        if self.count + k < 64 {
            self.pending = shift_in(self.pending, k, n);
            self.count += k;
            return;
        }
        self.put_across(k, n, output);
    }

    /// Adds `n` in `k` bits, with which there are at least 64.
    fn put_across<O: Output>(&mut self, k: u32, n: u64, output: &mut O)
        requires few { k ≤ 64 }
        requires many { 64 ≤ self.old.count + k }
        requires fits { n < 2 ^ k }
        ensures { TakesBits (O.held output.old) self.old (O.held output.new) self.new
            (bits k n) }
    {
        let count = self.count;
        if count == 0 {
            self.octets.put_word(n, output);
            return;
        }
        let left = count + k - 64;
        self.octets
            .put_word(full_word(self.pending, k, n, left), output);
        self.pending = n;
        self.count = left;
    }

    /// Adds the low `count` octets of `n`, and ignores the others.
    #[inline(always)]
    pub(crate) fn put_low<O: Output>(&mut self, count: u32, n: u64, output: &mut O)
        requires { count ≤ 8 }
        ensures { TakesBits (O.held output.old) self.old (O.held output.new) self.new
            (bits (8 * count) n) }
    {
        if self.count == 0 {
            self.octets.put_low(count, n, output);
            return;
        }
        self.put_low_after_bits(count, n, output);
    }

    /// As `put_low`, after bits that wait. Where they fill octets they then wait no more.
    #[inline(never)]
    fn put_low_after_bits<O: Output>(&mut self, count: u32, n: u64, output: &mut O)
        requires { count ≤ 8 }
        ensures { TakesBits (O.held output.old) self.old (O.held output.new) self.new
            (bits (8 * count) n) }
    {
        if self.count % 8 > 0 {
            self.put(8 * count, last_octets(count, n), output);
            return;
        }
        self.octets.put_low(self.count / 8, self.pending, output);
        self.count = 0;
        self.octets.put_low(count, n, output);
    }

    /// Adds octets: copied where the bits so far fill octets, and shifted otherwise.
    pub fn put_octets<O: Output>(&mut self, octets: &[u8], output: &mut O)
        ensures { TakesBits (O.held output.old) self.old (O.held output.new) self.new
            (unpacked octets.now) }
    {
        let left = self.count % 8;
        self.octets
            .put_low(self.count / 8, self.pending >> left, output);
        self.count = left;
        if left == 0 {
            self.octets.put_octets(octets, output);
            return;
        }
        self.pending = put_shifted(&mut self.octets, left, self.pending, octets, output);
    }

    /// Writes all octets that wait.
    ///
    /// # Errors
    /// How many octets were written in all, where a write failed.
    pub fn finish<O: Output>(&mut self, output: &mut O) -> Result<(), u64>
        ensures ok { OnOk result ((start : Held) (all : List ℕ) → length all % 8 ≡ 0
            → BitsStand start (O.held output.old) self.old [] all
            → Wrote start (O.held output.new) all) }
        ensures err { IfErr result (λ sent. (start : Held) (all : List ℕ)
            → BitsStand start (O.held output.old) self.old [] all
            → Broke start (O.held output.new) sent all) }
    {
        let begun = self.count % 8;
        self.octets
            .put_low(self.count / 8, self.pending >> begun, output);
        self.octets.send(output);
        if self.octets.failed {
            return Err(self.octets.sent);
        }
        Ok(())
    }
}
