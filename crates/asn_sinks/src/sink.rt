//! The trait of what encoders write into.
ghost use Rattle.std.specs.Prelude.{◌≡◌, ◌<◌, ◌≤◌, ◌≤ℤ◌, ◌^◌, ◌*◌, ◌∷◌, ◌++◌, ℕ, Bool, List, [], length, map, IfOk, OnOk};
ghost use Rattle.asn_limits.specs.Limits.{lowest_integer, highest_integer};
ghost use Rattle.asn_bits.specs.LengthBits.{first_length};
ghost use Rattle.asn_bits.specs.Lengths.{general_octets};
ghost use Rattle.asn_bits.specs.Numbers.{bits, least, least_signed, unpacked};
ghost use Rattle.asn_bits.specs.Sink.{bit_of};

use asn_bits::internal::{last_octets, least_signed_parts, next_length, octet_count, word_of_bits};
use asn_limits::BLOCK;

/// How the length of an open type field is written.
#[derive(Clone, Copy, Debug, PartialEq, Eq)]
pub enum Framing {
    /// By general length determinants, in fragments from 16,384 octets on (X.691, "open type fields").
    General,
    /// By one length determinant (X.696, "open type").
    Single,
}

/// What an encoder writes into: a vector that grows, a count, or a few octets before a writer.
///
/// `pushes` says that bits were taken. Open type fields may lie inside one another: `stands` says which bits were
/// taken so far of the innermost one (or of the encoding, outside of them all), and which are still to come of it. So
/// a contract speaks of no bit elsewhere, and a sink before a writer, which drops what it has written, can keep it.
pub trait Sink {
    ghost use Rattle.asn_sinks.specs.Sink.{Standing, Pushes, Fills, Begins, Ends};

    /// Why bits are not taken.
    type Fault: Drop;

    /// What is kept of what is around an open type field while it is written.
    type Outer: Drop;

    /// What is known of where the sink was begun.
    ghost Origin: { Type 0 };

    /// Which bits were taken, and which are to come.
    ghost stands: { Standing Self Origin };

    /// These bits were taken.
    ghost pushes: { Self → Self → List ℕ → Type 0 };

    /// The bits that were taken of what is around an open type field.
    ghost keeps: { Self.Outer → List ℕ → Type 0 };

    /// Whether the length of an open type field has to be told when it is begun.
    ghost wants_lengths: { Bool };

    /// Adds `n` in `k` bits, the highest first.
    ///
    /// # Errors
    /// This method and the others answer the sink's own fault where it does not take the bits; of the sink then nothing
    /// is promised.
    fn push_number(&mut self, k: u32, n: u64) -> Result<(), Self::Fault>
        requires few { k ≤ 64 }
        requires fits { n < 2 ^ k }
        ensures { OnOk result (pushes self.old self.new (bits k n)) };

    /// Adds all bits of the octets.
    fn push_octets(&mut self, octets: &[u8]) -> Result<(), Self::Fault>
        ensures { OnOk result (pushes self.old self.new (unpacked octets.now)) };

    /// Adds the fewest 0 bits that fill octets, and eight where there is no bit and `some` octet is wanted.
    fn fill(&mut self, some: bool) -> Result<(), Self::Fault>
        ensures { OnOk result (Fills stands some self.old self.new) };

    /// Begins an open type field inside `level` others. A sink that wants lengths is told how many octets its content
    /// has.
    fn begin_field(
        &mut self,
        framing: Framing,
        level: usize,
        length: u64,
    ) -> Result<Self::Outer, Self::Fault>
        requires deep { level < 64 }
        ensures { IfOk result (λ outer.
            Begins stands keeps wants_lengths level framing length self.old self.new outer) };

    /// Ends the innermost open type field, whose content fills octets.
    fn end_field(&mut self, outer: Self::Outer, framing: Framing) -> Result<(), Self::Fault>
        ensures { OnOk result (Ends stands keeps framing self.old outer self.new) };

    /// Adds one bit.
    #[inline(always)]
    fn push(&mut self, bit: bool) -> Result<(), Self::Fault>
        ensures { OnOk result (pushes self.old self.new (bit_of bit ∷ [])) }
    {
        self.push_number(1, bit as u64)
    }

    /// Adds the low `count` octets of `n`, and ignores the others.
    #[inline(always)]
    fn push_low_octets(&mut self, count: u32, n: u64) -> Result<(), Self::Fault>
        requires few { count ≤ 8 }
        ensures { OnOk result (pushes self.old self.new (bits (8 * count) n)) }
    {
        self.push_number(8 * count, last_octets(count, n))
    }

    /// As `push_octets`, for what is mostly few octets.
    #[inline(always)]
    fn push_row(&mut self, octets: &[u8]) -> Result<(), Self::Fault>
        ensures { OnOk result (pushes self.old self.new (unpacked octets.now)) }
    {
        self.push_octets(octets)
    }

    /// Adds a bit for each truth value, 1 for `true`.
    fn push_bits(&mut self, truths: &[bool]) -> Result<(), Self::Fault>
        ensures { OnOk result (pushes self.old self.new (map bit_of truths.now)) }
    {
        let mut rest = truths;
        while rest.len() > 64 {
            let (front, others) = rest.split_at(64);
            self.push_number(64, word_of_bits(front))?;
            rest = others;
        }
        self.push_number(rest.len() as u32, word_of_bits(rest))
    }

    /// Adds the next length determinant of a list of which `n` items are left, and gives how many of them follow it at
    /// once: all, or a fragment, after which another length determinant comes (X.691, "general length determinant").
    #[inline(always)]
    fn push_length(&mut self, n: u64) -> Result<u64, Self::Fault>
        ensures bits { OnOk result (pushes self.old self.new (first_length n).bits) }
        ensures items { IfOk result (λ items. items ≡ (first_length n).items) }
    {
        let (k, code, items) = next_length(n);
        self.push_number(k, code)?;
        Ok(items)
    }

    /// Adds octets under their general length, fragments and all (X.691, "general length determinant").
    fn push_general_octets(&mut self, octets: &[u8]) -> Result<(), Self::Fault>
        ensures { OnOk result (pushes self.old self.new (general_octets (λ u. u) octets.now)) }
    {
        let mut rest = octets;
        while rest.len() >= BLOCK as usize {
            let (k, code, items) = next_length(rest.len() as u64);
            let (fragment, others) = rest.split_at(items as usize);
            self.push_number(k, code)?;
            self.push_octets(fragment)?;
            rest = others;
        }
        let (k, code, _) = next_length(rest.len() as u64);
        self.push_number(k, code)?;
        self.push_octets(rest)
    }

    /// Adds the fewest octets of `n` under their general length, as X.691 encodes a semi-constrained whole number.
    fn push_least_octets(&mut self, n: u64) -> Result<(), Self::Fault>
        ensures { OnOk result (pushes self.old self.new (general_octets (λ u. u) (least n))) }
    {
        let count = octet_count(n);
        self.push_number(8, count as u64)?;
        self.push_number(8 * count, n)
    }

    /// Adds the fewest octets of two's complement of `z`, an integer of the profile, under their general length, as
    /// X.691 encodes an unconstrained whole number.
    fn push_least_signed_octets(&mut self, z: i128) -> Result<(), Self::Fault>
        requires low { lowest_integer ≤ℤ z }
        requires high { z ≤ℤ highest_integer }
        ensures { OnOk result (pushes self.old self.new (general_octets (λ u. u) (least_signed z))) }
    {
        let (front_bits, front, rest_bits, rest) = least_signed_parts(z);
        self.push_number(front_bits, front)?;
        self.push_number(rest_bits, rest)
    }

    /// No bits are taken where the sink stays as it is.
    ghost pushes_none: { (a : Self) → pushes a a [] };

    /// Bits are taken one after the other.
    ghost pushes_joined: { (a b c : Self) (xs ys : List ℕ) → pushes a b xs → pushes b c ys → pushes a c (xs ++ ys) };

    /// Bits are taken from those to come.
    ghost pushes_stand: { (a b : Self) (xs : List ℕ) → pushes a b xs → Pushes stands a b xs };
}
