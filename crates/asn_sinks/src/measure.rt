//! A count of bits, as a sink.
ghost use Rattle.std.specs.Prelude.{◌≡◌, ◌-◌, ◌^◌, ◌+◌, ◌*◌, ◌/◌, ◌<◌, ◌≤◌, ℕ, Bool, false, List, [], length, min, ⊤};
ghost use Rattle.asn_sinks.specs.LengthCounts.{general_count, single_count};

use crate::sink::{Framing, Sink};
use asn_bits::internal::octet_count;
use std::convert::Infallible;

/// How many bits were pushed, up to `u64::MAX`. It takes no memory, and no call of it fails.
#[derive(Debug, Drop)]
pub struct Measure {
    bits: u64,
}

/// How many bits the general length determinants of `n` octets have.
fn general_count(n: u64) -> u64
    requires { n < 2 ^ 61 }
    ensures count { result ≡ general_count n }
    ensures few { result < 2 ^ 63 }
{
    8 * (n / 65536) + (8 * (n % 65536 / 16384).min(1) + (8 + 8 * (n % 16384 / 128).min(1)))
}

/// How many bits the one length determinant of `n` octets has.
fn single_count(n: u64) -> u64
    ensures count { result ≡ single_count n }
    ensures few { result < 2 ^ 63 }
{
    if n < 128 {
        8
    } else {
        8 + 8 * octet_count(n) as u64
    }
}

impl Measure {
    ghost use Rattle.asn_sinks.specs.Measures.{Measures, counted_bits};

    /// No bits.
    pub fn new() -> Measure
        ensures { Measures result [] }
    {
        Measure { bits: 0 }
    }

    /// How many bits were pushed, up to `u64::MAX`.
    pub fn bits(&self) -> u64
        ensures { result ≡ counted_bits self.now }
    {
        self.bits
    }
}

/// No call of it fails.
impl Sink for Measure {
    ghost use Rattle.asn_sinks.specs.Measures.{Measures, Counts};
    ghost use Rattle.asn_sinks.specs.SinkLaws.{none_counted, counted_twice, counted_stands};

    type Fault = Infallible;

    type Outer = Measure;

    ghost Origin = { ⊤ };

    ghost stands = { λ measure c taken coming. Measures measure taken };

    ghost pushes = { λ old new xs. Counts old new xs };

    ghost keeps = { λ outer taken. Measures outer taken };

    ghost wants_lengths = { false };

    #[inline(always)]
    fn push_number(&mut self, k: u32, n: u64) -> Result<(), Infallible> {
        self.bits = self.bits.saturating_add(k as u64);
        Ok(())
    }

    fn push_octets(&mut self, octets: &[u8]) -> Result<(), Infallible> {
        let bits = (octets.len() as u64).saturating_mul(8);
        self.bits = self.bits.saturating_add(bits);
        Ok(())
    }

    fn fill(&mut self, some: bool) -> Result<(), Infallible> {
        if some && self.bits == 0 {
            self.bits = 8;
            return Ok(());
        }
        self.bits = self.bits.saturating_add((8 - self.bits % 8) % 8);
        Ok(())
    }

    fn begin_field(
        &mut self,
        framing: Framing,
        level: usize,
        length: u64,
    ) -> Result<Measure, Infallible> {
        let outer = Measure { bits: self.bits };
        self.bits = 0;
        Ok(outer)
    }

    fn end_field(&mut self, outer: Measure, framing: Framing) -> Result<(), Infallible> {
        let octets = self.bits / 8;
        match framing {
            Framing::General => {
                let content = general_count(octets).saturating_add(8 * octets);
                self.bits = outer.bits.saturating_add(content);
                Ok(())
            }
            Framing::Single => {
                let content = single_count(octets).saturating_add(8 * octets);
                self.bits = outer.bits.saturating_add(content);
                Ok(())
            }
        }
    }

    ghost pushes_none = { λ a. none_counted a };

    ghost pushes_joined = { λ a b c xs ys p q. counted_twice a b c xs ys p q };

    ghost pushes_stand = { λ a b xs p. counted_stands a b xs p };
}
