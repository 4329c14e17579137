//! A vector of bits that grows, as a sink.
ghost use Rattle.std.specs.Prelude.{◌≡◌, ◌≤◌, ◌<◌, ◌^◌, ◌*◌, ◌++◌, ◌∷◌, ℕ, Bool, false, List, [], length, OnOk, ⊤};
ghost use Rattle.asn_bits.specs.Lengths.{octet_length};
ghost use Rattle.asn_bits.specs.Numbers.{bits, unpacked};

use crate::sink::{Framing, Sink};
use asn_bits::BitSink;
use asn_bits::internal::octet_count;
use std::alloc::AllocError;
use std::mem;

/// Adds one length determinant (X.696, "length determinant").
fn push_single_length(count: u64, sink: &mut BitSink) -> Result<(), AllocError>
    ensures { OnOk result (sink.new ≡ sink.old ++ unpacked (octet_length count)) }
{
    if count < 128 {
        return sink.push_low_octets(1, count);
    }
    let octets = octet_count(count);
    sink.push_number(8, 128 + octets as u64)?;
    sink.push_number(8 * octets, count)
}

/// It keeps all bits. An open type field is written into a sink of its own, and copied when it is ended.
impl Sink for BitSink {
    ghost use Rattle.asn_sinks.specs.SinkLaws.{none_added, added_twice, added_stands};

    type Fault = AllocError;

    type Outer = BitSink;

    ghost Origin = { ⊤ };

    ghost stands = { λ sink c taken coming. sink ≡ taken };

    ghost pushes = { λ old new xs. new ≡ old ++ xs };

    ghost keeps = { λ outer taken. outer ≡ taken };

    ghost wants_lengths = { false };

    #[inline(always)]
    fn push_number(&mut self, k: u32, n: u64) -> Result<(), AllocError> {
        BitSink::push_number(self, k, n)
    }

    #[inline(always)]
    fn push_octets(&mut self, octets: &[u8]) -> Result<(), AllocError> {
        BitSink::push_octets(self, octets)
    }

    fn fill(&mut self, some: bool) -> Result<(), AllocError> {
        if some && self.is_empty() {
            return BitSink::push_number(self, 8, 0);
        }
        self.pad()
    }

    #[inline(always)]
    fn begin_field(
        &mut self,
        framing: Framing,
        level: usize,
        length: u64,
    ) -> Result<BitSink, AllocError> {
        let content = self.another();
        Ok(mem::replace(self, content))
    }

    #[inline(always)]
    fn end_field(&mut self, outer: BitSink, framing: Framing) -> Result<(), AllocError> {
        let mut content = mem::replace(self, outer);
        content.pad()?;
        match framing {
            Framing::General => self.push_filled(content),
            Framing::Single => {
                let octets = content.into_octets();
                push_single_length(octets.len() as u64, self)?;
                BitSink::push_row(self, octets.as_slice())
            }
        }
    }

    #[inline(always)]
    fn push(&mut self, bit: bool) -> Result<(), AllocError> {
        BitSink::push(self, bit)
    }

    #[inline(always)]
    fn push_low_octets(&mut self, count: u32, n: u64) -> Result<(), AllocError> {
        BitSink::push_low_octets(self, count, n)
    }

    #[inline(always)]
    fn push_row(&mut self, octets: &[u8]) -> Result<(), AllocError> {
        BitSink::push_row(self, octets)
    }

    #[inline(always)]
    fn push_bits(&mut self, truths: &[bool]) -> Result<(), AllocError> {
        BitSink::push_bits(self, truths)
    }

    #[inline(always)]
    fn push_length(&mut self, n: u64) -> Result<u64, AllocError> {
        BitSink::push_length(self, n)
    }

    #[inline(always)]
    fn push_general_octets(&mut self, octets: &[u8]) -> Result<(), AllocError> {
        BitSink::push_general_octets(self, octets)
    }

    #[inline(always)]
    fn push_least_octets(&mut self, n: u64) -> Result<(), AllocError> {
        BitSink::push_least_octets(self, n)
    }

    #[inline(always)]
    fn push_least_signed_octets(&mut self, z: i128) -> Result<(), AllocError> {
        BitSink::push_least_signed_octets(self, z)
    }

    ghost pushes_none = { λ a. none_added a };

    ghost pushes_joined = { λ a b c xs ys p q. added_twice a b c xs ys p q };

    ghost pushes_stand = { λ a b xs p. added_stands a b xs p };
}
