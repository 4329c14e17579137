//! How long messages are.
ghost use Rattle.std.specs.Prelude.{◌≡◌, ◌<◌, ◌≤◌, ◌⊎◌, ◌++◌, ◌∷◌, [], List, ℕ, IfOk, IfErr};
ghost use Rattle.asn_jobs.specs.declared.fault.CountFault.TheVariants as count_fault;

use crate::fault::CountFault;

/// How long some messages are.
#[derive(Clone, Copy, Drop)]
pub struct Sizes {
    /// How many they are.
    pub count: u64,
    /// How many octets they have together.
    pub octets: u64,
    /// How many octets the shortest has; 0 where there is none.
    pub least: u64,
    /// How many octets the longest has; 0 where there is none.
    pub greatest: u64,
}

impl Sizes {
    ghost use Rattle.asn_jobs.specs.Lengths.{AreSizesOf, PassCounts};

    /// The sizes of no message.
    pub fn new() -> Sizes
        ensures { AreSizesOf [] result }
    {
        Sizes {
            count: 0,
            octets: 0,
            least: 0,
            greatest: 0,
        }
    }

    /// These sizes, and that of one message more, in octets.
    ///
    /// # Errors
    /// `Full` where the messages or their octets are more than 2^64 - 1.
    pub fn with(self, length: u64) -> Result<Sizes, CountFault>
        ensures sizes { IfOk result (λ sizes. (lengths : List ℕ) → AreSizesOf lengths self
            → AreSizesOf (lengths ++ length ∷ []) sizes) }
        ensures full { IfErr result (λ why. (why ≡ count_fault.Full) × PassCounts self length) }
    {
        let Some(count) = self.count.checked_add(1) else {
            return Err(CountFault::Full);
        };
        let Some(octets) = self.octets.checked_add(length) else {
            return Err(CountFault::Full);
        };
        Ok(Sizes {
            count,
            octets,
            least: least_of(self.count, self.least, length),
            greatest: greatest_of(self.greatest, length),
        })
    }
}

/// The least length so far: the lesser of the two, or `length` where `count`, how many came before, is 0.
fn least_of(count: u64, least: u64, length: u64) -> u64
    ensures low { result ≤ length }
    ensures below { 0 < count → result ≤ least }
    ensures one { (result ≡ length) ⊎ ((0 < count) × (result ≡ least)) }
{
    if count == 0 || length < least {
        length
    } else {
        least
    }
}

/// The greater of the two.
fn greatest_of(greatest: u64, length: u64) -> u64
    ensures high { length ≤ result }
    ensures above { greatest ≤ result }
    ensures one { (result ≡ length) ⊎ (result ≡ greatest) }
{
    if length > greatest { length } else { greatest }
}
