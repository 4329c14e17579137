//! A sink before a writer, in which few octets wait.
ghost use Rattle.std.specs.Prelude.{◌≡◌, ◌<◌, ◌≤◌, ◌^◌, ◌%◌, ◌+◌, ◌*◌, ◌&&◌, ◌==◌, ℕ, List, [], length, take, true, OnOk, IfErr};
ghost use Rattle.asn_bits.specs.Numbers.{bits, unpacked};
ghost use Rattle.asn_window.specs.WindowStart.{Start};

use crate::bit_writer::BitWriter;
use crate::buffer::Buffer;
use crate::fragments::{
    Fragments, begin_general, begin_single, put_number, put_octets_at, room_at,
};
use crate::octet_writer::OctetWriter;
use asn_bits::internal::last_octets;
use asn_rules::Output;
use asn_sinks::{Framing, Sink};
use std::convert::Infallible;

/// How many bits of the last octet around an open type field there are.
#[derive(Clone, Copy, Debug, Drop)]
pub struct Phase {
    phase: u32,
    ghost small: { phase < 8 },
}

/// What an encoder has made and a writer has not yet taken: 4096 octets at most, and fewer than 64 bits after them.
///
/// No call of it fails. After a fault of the writer nothing is written any more, and what comes is dropped; `finish`
/// then reports how many octets were written. It takes no memory.
#[derive(Drop)]
pub struct Window<'a, O> {
    pub output: &'a mut O,
    pub writer: BitWriter,
    pub fragments: Fragments,
    /// how many open type fields there are around
    pub depth: usize,
    /// how many bits of the last octet of the innermost open type field there are, or of the encoding
    pub phase: u32,
    /// whether there is no bit of it
    pub is_empty: bool,
    ghost small: { phase < 8 },
    ghost shallow: { depth ≤ 64 },
}

/// Whether there is still no bit after `k` more bits or octets.
fn is_still_empty(is_empty: bool, k: usize) -> bool
    ensures { result ≡ is_empty && (k == 0) }
{
    is_empty && k == 0
}

impl<'a, O: Output> Window<'a, O> {
    ghost use Rattle.asn_sinks.specs.Sink.{Pushes};
    ghost use Rattle.asn_window.specs.Windows.{WindowStands};
    ghost use Rattle.asn_window.specs.Fragmented.{HasRoom};
    ghost use Rattle.asn_window.specs.WindowEnds.{start_of, Finishes, Fails};

    /// No bits before the writer.
    pub fn over(output: &'a mut O) -> Window<'a, O>
        ensures name { result.output.ghost_name ≡ output.entry.ghost_name }
        ensures told { (all : List ℕ) → WindowStands O.held result
            (start_of result.output.ghost_name (O.held output.old) all) [] all }
    {
        Window {
            output,
            writer: BitWriter {
                octets: OctetWriter {
                    buffer: Buffer::new(),
                    sent: 0,
                    failed: false,
                },
                count: 0,
                pending: 0,
            },
            fragments: Fragments {
                left: [0; 64],
                after: [0; 64],
            },
            depth: 0,
            phase: 0,
            is_empty: true,
        }
    }

    /// Writes the octets that wait. It does not flush the writer.
    ///
    /// # Errors
    /// How many octets were written in all, where a write failed.
    pub fn finish(&mut self) -> Result<(), u64>
        ensures name { self.new.output.ghost_name ≡ self.old.output.ghost_name }
        ensures ok { OnOk result (Finishes O.held self.old self.new) }
        ensures err { IfErr result (λ sent. Fails O.held self.old self.new sent) }
    {
        self.writer.finish(self.output)
    }

    /// Goes into an open type field whose length was written.
    fn enter(&mut self, level: usize) -> Phase
        requires { level < 64 }
        ensures outer { result.phase ≡ self.old.phase }
        ensures name { self.new.output.ghost_name ≡ self.old.output.ghost_name }
        ensures output { self.new.output.now ≡ self.old.output.now }
        ensures writer { self.new.writer ≡ self.old.writer }
        ensures fragments { self.new.fragments ≡ self.old.fragments }
        ensures depth { self.new.depth ≡ level + 1 }
        ensures phase { self.new.phase ≡ 0 }
        ensures empty { self.new.is_empty ≡ true }
    {
        let outer = Phase { phase: self.phase };
        self.depth = level + 1;
        self.phase = 0;
        self.is_empty = true;
        outer
    }

    /// Adds the bits of a number.
    #[inline(always)]
    fn put(&mut self, k: u32, n: u64)
        requires few { k ≤ 64 }
        requires fits { n < 2 ^ k }
        ensures { Pushes (λ w c taken coming. WindowStands O.held w c taken coming) self.old self.new (bits k n) }
    {
        put_number(
            &mut self.fragments,
            self.depth,
            &mut self.writer,
            k,
            n,
            self.output,
        );
        self.phase = (self.phase + k) % 8;
        self.is_empty = is_still_empty(self.is_empty, k as usize);
    }

    /// Adds octets outside of all open type fields.
    #[inline(always)]
    fn put_outside(&mut self, octets: &[u8])
        requires { self.old.depth ≡ 0 }
        ensures { Pushes (λ w c taken coming. WindowStands O.held w c taken coming) self.old self.new
            (unpacked octets.now) }
    {
        self.writer.put_octets(octets, self.output);
        self.is_empty = is_still_empty(self.is_empty, octets.len());
    }

    /// Adds the last `count` octets of `n` outside of all open type fields.
    #[inline(always)]
    fn put_low_outside(&mut self, count: u32, n: u64)
        requires few { count ≤ 8 }
        requires outside { self.old.depth ≡ 0 }
        ensures { Pushes (λ w c taken coming. WindowStands O.held w c taken coming) self.old self.new
            (bits (8 * count) n) }
    {
        self.writer.put_low(count, n, self.output);
        self.is_empty = is_still_empty(self.is_empty, 8 * count as usize);
    }

    /// Adds the last `count` octets of `n` to the innermost open type field.
    #[inline(never)]
    fn put_low_inside(&mut self, count: u32, n: u64)
        requires { count ≤ 8 }
        ensures { Pushes (λ w c taken coming. WindowStands O.held w c taken coming) self.old self.new
            (bits (8 * count) n) }
    {
        self.put(8 * count, last_octets(count, n));
    }

    /// How many octets can be added with a bit left before each length determinant.
    fn room(&self) -> usize
        ensures room { HasRoom self.now.fragments self.now.depth result }
        ensures few { 8 * result < 2 ^ 64 }
    {
        room_at(&self.fragments, self.depth)
    }

    /// Adds octets before which no length determinant comes.
    fn put_block(&mut self, octets: &[u8])
        requires some { 0 < length octets.now }
        requires few { 8 * length octets.now < 2 ^ 64 }
        requires room { HasRoom self.old.fragments self.old.depth (length octets.now) }
        ensures { Pushes (λ w c taken coming. WindowStands O.held w c taken coming) self.old self.new
            (unpacked octets.now) }
    {
        put_octets_at(
            &mut self.fragments,
            self.depth,
            &mut self.writer,
            octets,
            self.output,
        );
        self.is_empty = false;
    }

    /// Adds the first of the octets, and gives how many: all that come before the next length determinant, or the one
    /// that reaches it.
    fn put_front(&mut self, octets: &[u8]) -> usize
        requires { 0 < length octets.now }
        ensures some { 0 < result }
        ensures few { result ≤ length octets.now }
        ensures pushed { Pushes (λ w c taken coming. WindowStands O.held w c taken coming) self.old self.new
            (unpacked (take result octets.now)) }
    {
        let count = self.room().min(octets.len());
        if count == 0 {
            self.put(8, octets[0] as u64);
            return 1;
        }
        self.put_block(&octets[..count]);
        count
    }

    /// Adds octets to the innermost open type field, and before each of its fragments the length determinant.
    fn put_inside(&mut self, octets: &[u8])
        ensures { Pushes (λ w c taken coming. WindowStands O.held w c taken coming) self.old self.new
            (unpacked octets.now) }
    {
        let mut rest = octets;
        while !rest.is_empty() {
            let count = self.put_front(rest);
            let (_, others) = rest.split_at(count);
            rest = others;
        }
    }
}

impl<'a, O: Output> Sink for Window<'a, O> {
    ghost use Rattle.asn_sinks.specs.Sink.{Pushes};
    ghost use Rattle.asn_sinks.specs.SinkLaws.{pushed_none, pushed_joined};
    ghost use Rattle.asn_window.specs.Windows.{WindowStands};

    type Fault = Infallible;

    type Outer = Phase;

    ghost Origin = { Start };

    ghost stands = { λ w c taken coming. WindowStands O.held w c taken coming };

    ghost pushes = { λ old new xs. Pushes (λ w c taken coming. WindowStands O.held w c taken coming) old new xs };

    ghost keeps = { λ outer taken. outer.phase ≡ length taken % 8 };

    ghost wants_lengths = { true };

    #[inline(always)]
    fn push_number(&mut self, k: u32, n: u64) -> Result<(), Infallible> {
        self.put(k, n);
        Ok(())
    }

    #[inline(always)]
    fn push_low_octets(&mut self, count: u32, n: u64) -> Result<(), Infallible> {
        if self.depth == 0 {
            self.put_low_outside(count, n);
        } else {
            self.put_low_inside(count, n);
        }
        Ok(())
    }

    #[inline(always)]
    fn push_octets(&mut self, octets: &[u8]) -> Result<(), Infallible> {
        if self.depth == 0 {
            self.put_outside(octets);
        } else {
            self.put_inside(octets);
        }
        Ok(())
    }

    fn fill(&mut self, some: bool) -> Result<(), Infallible> {
        if some && self.is_empty {
            self.put(8, 0);
            return Ok(());
        }
        self.put((8 - self.phase) % 8, 0);
        Ok(())
    }

    fn begin_field(
        &mut self,
        framing: Framing,
        level: usize,
        length: u64,
    ) -> Result<Phase, Infallible> {
        match framing {
            Framing::General => {
                begin_general(
                    &mut self.fragments,
                    level,
                    &mut self.writer,
                    length,
                    self.output,
                );
                Ok(self.enter(level))
            }
            Framing::Single => {
                begin_single(
                    &mut self.fragments,
                    level,
                    &mut self.writer,
                    length,
                    self.output,
                );
                Ok(self.enter(level))
            }
        }
    }

    fn end_field(&mut self, outer: Phase, framing: Framing) -> Result<(), Infallible> {
        self.depth = self.depth.saturating_sub(1);
        self.phase = outer.phase;
        self.is_empty = false;
        Ok(())
    }

    ghost pushes_none = { λ a. pushed_none (λ w c taken coming. WindowStands O.held w c taken coming) a };

    ghost pushes_joined = { λ a b c xs ys p q.
        pushed_joined (λ w c taken coming. WindowStands O.held w c taken coming) a b c xs ys p q };

    ghost pushes_stand = { λ a b xs p. p };
}
