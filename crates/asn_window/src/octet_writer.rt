//! Octets before a writer.
ghost use Rattle.std.specs.Prelude.{◌≡◌, ◌+◌, ◌*◌, ◌≤◌, [], length};
ghost use Rattle.asn_bits.specs.Numbers.{bits, unpacked};
ghost use Rattle.asn_window.specs.OctetWriters.{TakesWhole};

use crate::buffer::Buffer;
use asn_rules::Output;
use asn_rules::laws::are_octets;

/// Octets that wait before a writer, and how many it has taken. After a fault of the writer nothing is written any
/// more, and what comes is dropped.
#[derive(Drop)]
pub struct OctetWriter {
    pub buffer: Buffer,
    /// how many octets the writer took, up to `u64::MAX`
    pub sent: u64,
    /// whether a write failed
    pub failed: bool,
}

impl OctetWriter {
    /// Writes the octets that wait.
    pub fn send<O: Output>(&mut self, output: &mut O)
        ensures told { TakesWhole (O.held output.old) self.old
            (O.held output.new) self.new [] }
        ensures empty { self.new.buffer ≡ [] }
    {
        if self.failed {
            self.buffer.clear();
            return;
        }
        let waiting = self.buffer.as_slice();
        are_octets(waiting);
        let many = output.append(waiting);
        self.sent = self.sent.saturating_add(many as u64);
        self.failed = many < self.buffer.len();
        self.buffer.clear();
    }

    /// Makes room for `count` octets.
    #[inline(always)]
    pub fn make_room<O: Output>(&mut self, count: usize, output: &mut O)
        requires { count ≤ 4096 }
        ensures told { TakesWhole (O.held output.old) self.old
            (O.held output.new) self.new [] }
        ensures room { length self.new.buffer + count ≤ 4096 }
    {
        if self.buffer.room() < count {
            self.send(output);
        }
    }

    /// Adds the eight octets of `n`.
    #[inline(always)]
    pub fn put_word<O: Output>(&mut self, n: u64, output: &mut O)
        ensures { TakesWhole (O.held output.old) self.old (O.held output.new) self.new
            (bits 64 n) }
    {
        self.make_room(8, output);
        self.buffer.extend(&n.to_be_bytes());
    }

    /// Adds the last `count` octets of `n`.
    #[inline(always)]
    pub fn put_low<O: Output>(&mut self, count: u32, n: u64, output: &mut O)
        requires { count ≤ 8 }
        ensures { TakesWhole (O.held output.old) self.old (O.held output.new) self.new
            (bits (8 * count) n) }
    {
        if count == 0 {
            return;
        }
        self.make_room(8, output);
        let octets = (n << (64 - 8 * count)).to_be_bytes();
        self.buffer.extend_first(&octets, count as usize);
    }

    /// Adds octets, as many at once as there is room for.
    pub fn put_octets<O: Output>(&mut self, octets: &[u8], output: &mut O)
        ensures { TakesWhole (O.held output.old) self.old (O.held output.new) self.new
            (unpacked octets.now) }
    {
        if octets.len() <= self.buffer.room() {
            self.buffer.extend(octets);
            return;
        }
        self.put_parts(octets, output);
    }

    /// Adds octets, and writes each time that no room is left.
    fn put_parts<O: Output>(&mut self, octets: &[u8], output: &mut O)
        ensures { TakesWhole (O.held output.old) self.old (O.held output.new) self.new
            (unpacked octets.now) }
    {
        let mut rest = octets;
        while !rest.is_empty() {
            self.make_room(1, output);
            let count = self.buffer.room().min(rest.len());
            let (front, others) = rest.split_at(count);
            self.buffer.extend(front);
            rest = others;
        }
    }
}
