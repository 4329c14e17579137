//! A writer of hexadecimal before another writer.
ghost use Rattle.std.specs.Prelude.{◌≡◌, ◌<◌, ◌≤◌, ◌+◌, ◌*◌, ◌^◌, length, take, None};
ghost use Rattle.std.specs.Io.KnownBytes.{Appends};
ghost use Rattle.hex.specs.Hex.{encode_lower};
ghost use Rattle.asn_convert.specs.HexHeld.{half_of};

use asn_rules::{Counted, Output};
use std::io::Write;

/// How many octets are written at once.
const BLOCK: usize = 256;

/// Writes the octets that it takes to a writer, each as two digits of hexadecimal in lower case. After a fault it writes
/// nothing any more.
#[derive(Drop)]
pub(crate) struct HexWriter<'a, W> {
    pub output: &'a mut Counted<W>,
    /// how many octets it took
    pub count: u64,
    /// the last of them, if its first digit alone was written
    pub half: Option<u8>,
    /// how many faults it answered, up to `u64::MAX`
    pub faults: u64,
}

impl<'a, W: Write> HexWriter<'a, W> {
    ghost use Rattle.asn_rules.specs.Faults.{inner_of};
    ghost use Rattle.asn_convert.specs.HexHeld.{octets_known};

    /// Before this writer, and with no octets yet.
    pub(crate) fn over(output: &'a mut Counted<W>) -> HexWriter<'a, W>
        ensures name { result.output.ghost_name ≡ output.entry.ghost_name }
        ensures output { result.output.now ≡ output.old }
        ensures none { result.count ≡ 0 }
        ensures digits { result.half ≡ None }
        ensures faults { result.faults ≡ 0 }
    {
        HexWriter {
            output,
            count: 0,
            half: None,
            faults: 0,
        }
    }

    /// Writes the octets, and gives how many were written: fewer after a fault of the writer, and where there are more
    /// than can be counted.
    fn put(&mut self, octets: &[u8]) -> usize
        ensures few { result ≤ length octets.now }
        ensures written { Appends
            (octets_known (W.contents (inner_of self.old.output.now)) self.old.count self.old.half)
            (octets_known (W.contents (inner_of self.new.output.now)) self.new.count self.new.half)
            (take result octets.now) }
        ensures faults { self.new.faults ≡ self.old.faults }
        ensures name { self.new.output.ghost_name ≡ self.old.output.ghost_name }
    {
        let mut done = 0;
        while done < octets.len() {
            let count = (octets.len() - done).min(BLOCK);
            if self.half.is_some() || u64::MAX - self.count < count as u64 {
                return done;
            }
            let taken = self.put_block(&octets[done..done + count]);
            done += taken;
            if taken < count {
                return done;
            }
        }
        done
    }

    /// Writes a few octets, and gives how many were written: fewer after a fault of the writer alone.
    fn put_block(&mut self, octets: &[u8]) -> usize
        requires whole { self.old.half ≡ None }
        requires short { length octets.now ≤ 256 }
        requires room { self.old.count + length octets.now < 2 ^ 64 }
        ensures few { result ≤ length octets.now }
        ensures written { Appends
            (octets_known (W.contents (inner_of self.old.output.now)) self.old.count self.old.half)
            (octets_known (W.contents (inner_of self.new.output.now)) self.new.count self.new.half)
            (take result octets.now) }
        ensures count { self.new.count ≡ self.old.count + result }
        ensures faults { self.new.faults ≡ self.old.faults }
        ensures name { self.new.output.ghost_name ≡ self.old.output.ghost_name }
    {
        let mut room = [0; 2 * BLOCK];
        let digits = digits_of(octets, &mut room);
        let sent = self.output.append(digits);
        let taken = sent.div_ceil(2);
        self.count += taken as u64;
        self.half = half_of(octets, sent);
        taken
    }
}

/// The digits of the octets, two each.
fn digits_of<'r>(octets: &[u8], room: &'r mut [u8]) -> &'r [u8]
    requires room { 2 * length octets.now ≤ length room.old }
    ensures digits { result.now ≡ encode_lower octets.now }
    ensures twice { length result.now ≡ 2 * length octets.now }
{
    let digits = &mut room[..2 * octets.len()];
    match hex::encode_to_slice(octets, digits) {
        Ok(()) => digits,
        Err(_) => unreachable!(),
    }
}

/// The octet whose first digit is the last one written, where that many digits of the octets were written; `None` where
/// these are the digits of whole octets.
fn half_of(octets: &[u8], digits: usize) -> Option<u8>
    requires few { digits ≤ 2 * length octets.now }
    ensures { result ≡ half_of digits octets.now }
{
    if digits % 2 == 1 {
        Some(octets[digits / 2])
    } else {
        None
    }
}

impl<'a, W: Write> Output for HexWriter<'a, W> {
    ghost use Rattle.asn_convert.specs.HexHeld.{held_as_digits};

    ghost held = { λ h. held_as_digits W.contents h.output.ghost_name h.output.now h.count h.half h.faults };

    fn append(&mut self, octets: &[u8]) -> usize {
        let done = if self.faults == 0 {
            self.put(octets)
        } else {
            0
        };
        if done < octets.len() {
            self.faults = self.faults.saturating_add(1);
        }
        done
    }
}
