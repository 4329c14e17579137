//! How often each word was added.
ghost use Rattle.std.specs.Prelude.{◌≡◌, ◌≤◌, ◌+◌, ◌^◌, ◌++◌, ◌∷◌, [], List, ℕ, OnOk, OnErr, IfErr};
ghost use Rattle.asn_jobs.specs.declared.fault.CountFault.TheVariants as count_fault;

use crate::fault::CountFault;
use std::alloc::Global;
use std::collections::BTreeMap;

/// How often each of some words was added.
#[derive(Drop)]
pub struct Tally {
    counts: BTreeMap<String, u64>,
}

impl Tally {
    ghost use Rattle.asn_jobs.specs.Counts.{IsCountedBy, count_of};

    /// The tally of no word.
    pub fn new(alloc: Global) -> Tally
        ensures { IsCountedBy [] result.counts }
    {
        Tally {
            counts: BTreeMap::new(alloc),
        }
    }

    /// Counts the word once more.
    ///
    /// # Errors
    /// `Full` where it was added 2^64 - 1 times, `Memory` where an allocation failed. The tally is as it was then.
    pub fn add(&mut self, alloc: Global, word: &str) -> Result<(), CountFault>
        ensures counted { OnOk result ((words : List (List ℕ)) → IsCountedBy words self.old.counts
            → IsCountedBy (words ++ word.now ∷ []) self.new.counts) }
        ensures full { IfErr result (λ why. why ≡ count_fault.Full
            → 2 ^ 64 ≤ count_of self.old.counts word.now + 1) }
        ensures unchanged { OnErr result (self.new.counts.entries ≡ self.old.counts.entries) }
    {
        let Some(next) = self.count_of(word).checked_add(1) else {
            return Err(CountFault::Full);
        };
        let key = String::from_str(alloc, word)?;
        self.counts.insert(key, next)?;
        Ok(())
    }

    /// How often the word was added.
    pub fn count_of(&self, word: &str) -> u64
        ensures { result ≡ count_of self.now.counts word.now }
    {
        self.counts.get(word).copied().unwrap_or(0)
    }

    /// Each word that was added, in the order of their octets, with how often.
    pub fn counts(&self) -> &BTreeMap<String, u64>
        ensures { result.now ≡ self.now.counts }
    {
        &self.counts
    }
}
