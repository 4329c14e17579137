//! Truth values as bits, as many at a time as a word holds.
ghost use Rattle.std.specs.Prelude.{◌≡◌, ◌^◌, ◌<◌, ◌≤◌, ◌++◌, OnOk, length, map};
ghost use Rattle.asn_bits.specs.Numbers.{bits};
ghost use Rattle.asn_bits.specs.Sink.{bit_of};

use crate::sink::BitSink;
use std::alloc::AllocError;

impl BitSink {
    /// Adds a bit for each truth value, 1 for `true`. An `Err` is out of memory, and then a part of the bits may have
    /// been added.
    pub fn push_bits(&mut self, truths: &[bool]) -> Result<(), AllocError>
        ensures { OnOk result (self.new ≡ self.old ++ map bit_of truths.now) }
    {
        let mut done = 0;
        while done < truths.len() {
            let many = (truths.len() - done).min(64);
            let word = word_of_bits(&truths[done..done + many]);
            self.push_number(many as u32, word)?;
            done += many;
        }
        Ok(())
    }
}

/// The number that the bits are, 1 for `true`.
pub fn word_of_bits(truths: &[bool]) -> u64
    requires few { length truths.now ≤ 64 }
    ensures within { result < 2 ^ length truths.now }
    ensures bits { bits (length truths.now) result ≡ map bit_of truths.now }
{
    let mut word = 0;
    for truth in truths {
        word = 2 * word + u64::from(*truth);
    }
    word
}
