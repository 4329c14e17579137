//! Numbers told one after the other by bits that were taken at once.
ghost use Rattle.std.specs.Prelude.{◌≡◌, ◌+◌, ◌≤◌, ◌<◌, ◌%◌, ◌^◌, ◌++◌, IfSome, IsTrue};
ghost use Rattle.asn_bits.specs.Numbers.{bits};

use crate::word::Word;
use asn_bits::BitCursor;

impl Word {
    /// The bits of a number, the highest of `count` first; none where these are more than 63.
    #[inline(always)]
    pub fn of(number: u64, count: u32) -> Option<Word>
        ensures { IfSome result (λ w. (w.left ≡ count) × (bits w.left w.bits ≡ bits count number)) }
    {
        if count > 63 {
            return None;
        }
        Some(Word {
            bits: number,
            left: count,
        })
    }

    /// No bits.
    #[inline(always)]
    pub fn none() -> Word
        ensures { result.left ≡ 0 }
    {
        Word { bits: 0, left: 0 }
    }

    /// Whether no bit is left.
    #[inline(always)]
    pub fn is_empty(&self) -> bool
        ensures { IsTrue result → self.now.left ≡ 0 }
    {
        self.left == 0
    }

    /// The same where `mask` is the highest number of `count` bits.
    #[inline(always)]
    pub fn take_below(&mut self, count: u32, mask: u64) -> Option<u64>
        requires mask { mask + 1 ≡ 2 ^ count }
        ensures fits { IfSome result (λ n. n ≤ mask) }
        ensures some { IfSome result (λ n.
            bits self.old.left self.old.bits ≡ bits count n ++ bits self.new.left self.new.bits) }
    {
        if count > self.left {
            return None;
        }
        let left = self.left - count;
        let number = self.bits >> left & mask;
        *self = Word {
            bits: self.bits,
            left,
        };
        Some(number)
    }

    /// The number in the next `count` bits, the highest first, which are taken; `None` where fewer are left.
    #[inline(always)]
    pub fn take(&mut self, count: u32) -> Option<u64>
        ensures fits { IfSome result (λ n. n < 2 ^ count) }
        ensures some { IfSome result (λ n.
            bits self.old.left self.old.bits ≡ bits count n ++ bits self.new.left self.new.bits) }
    {
        if count > self.left {
            return None;
        }
        let left = self.left - count;
        let number = self.bits >> left & ((1 << count) - 1);
        *self = Word {
            bits: self.bits,
            left,
        };
        Some(number)
    }
}

/// Takes this many bits, if it is 1 to 63 and they have all come; otherwise none.
#[inline(always)]
pub fn take_bits(count: u32, units: &mut BitCursor<'_>) -> Word
    ensures whole { count % 8 ≡ 0 → result.left % 8 ≡ 0 }
    ensures taken { units.old ≡ bits result.left result.bits ++ units.new }
{
    if count == 0 || count > 63 {
        return Word::none();
    }
    let Some(bits) = units.peek_number(count) else {
        return Word::none();
    };
    match Word::of(bits, count) {
        Some(word) => {
            units.pass(count);
            word
        }
        None => Word::none(),
    }
}
