//! Where the octets of an encoding go.
ghost use Rattle.std.specs.Prelude.{◌≡◌, ◌<◌, ◌≤◌, length, take};
ghost use Rattle.std.specs.Io.KnownBytes.{Appends};
ghost use Rattle.asn_rules.specs.Faults.{Rose};

use crate::counting::{Counted, after};
use std::io::Write;

/// What takes octets in order: a writer that counts its faults, a slice that is filled, or what writes them otherwise.
pub trait Output {
    ghost use Rattle.asn_rules.specs.Held.{Held};

    /// What it holds.
    ghost held: { Self → Held };

    /// Takes the octets, and gives how many: fewer after a fault alone.
    fn append(&mut self, octets: &[u8]) -> usize
        ensures few { result ≤ length octets.now }
        ensures written { Appends (held self.old).octets (held self.new).octets (take result octets.now) }
        ensures fault { result < length octets.now → Rose (held self.old).faults (held self.new).faults }
        ensures same { result ≡ length octets.now → (held self.new).faults ≡ (held self.old).faults }
        ensures through { (held self.new).through ≡ (held self.old).through };
}

impl<W: Write> Output for Counted<W> {
    ghost use Rattle.asn_rules.specs.Held.{held_by};

    ghost held = { λ c. held_by W.contents c };

    /// A write that failed, or took nothing, is not tried again.
    fn append(&mut self, octets: &[u8]) -> usize {
        let mut done = 0;
        while done < octets.len() {
            match self.write(after(octets, done)) {
                Ok(count) if count > 0 => done += count,
                Ok(_) | Err(_) => return done,
            }
        }
        done
    }
}
