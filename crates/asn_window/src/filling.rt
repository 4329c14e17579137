//! A slice that takes octets.
ghost use Rattle.std.specs.Prelude.{◌≡◌, ◌<◌, ◌≤◌, length};

use asn_rules::Output;

/// A slice that is filled from its front. It answers a fault where it has no room.
#[derive(Drop)]
pub struct Filling<'a> {
    pub octets: &'a mut [u8],
    /// how many octets it took
    pub count: usize,
    /// how many faults it answered, up to `u64::MAX`
    pub faults: u64,
    ghost within: { count ≤ length octets.now },
    ghost full: { 0 < faults → count ≡ length octets.now },
}

impl<'a> Output for Filling<'a> {
    ghost use Rattle.asn_rules.specs.Held.{held_in};

    ghost held = { λ f. held_in f.octets.ghost_name f.octets.now f.count f.faults };

    fn append(&mut self, octets: &[u8]) -> usize {
        let count = octets.len().min(self.octets.len() - self.count);
        let end = self.count + count;
        self.octets[self.count..end].copy_from_slice(&octets[..count]);
        self.count = end;
        if count < octets.len() {
            self.faults = self.faults.saturating_add(1);
        }
        count
    }
}
