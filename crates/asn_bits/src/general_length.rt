//! General lengths bit by bit or in one step, fragment by fragment (X.691, "general length determinant").
ghost use Rattle.std.specs.Prelude.{◌≡◌, ◌≢◌, ◌↔◌, ◌≤◌, ◌<◌, ◌+◌, ◌*◌, ◌^◌, ℕ, Some, true, [], ◌∷◌, ◌++◌, IsTrue, IfSome, IsSome, IsNone, ⊤};
ghost use Rattle.asn_bits.specs.Begun.{IsWord};
ghost use Rattle.asn_bits.specs.Lengths.{blocks};
ghost use Rattle.asn_bits.specs.Sink.{bit_of};
ghost use Rattle.asn_bits.specs.Ranges.{Spanned, AtMost, Reaches, Meet};
ghost use Rattle.asn_bits.specs.LengthBits.{BegunLengths, given, TellsLength, Goes, EndsLength, TellsFirst, Takes, StartsLength, StartsSome, LengthAhead, CountsLeft};
ghost use Rattle.asn_bits.specs.LengthStates.{spans, state_bits, IsLengthState, IsWhole, IsReading, AfterLength};
ghost use Rattle.asn_bits.specs.declared.general_length.LengthState.TheVariants.{Number};

use crate::cursor::BitCursor;
use crate::number_field::FieldState;
use asn_limits::{BLOCK, MAX_BLOCKS};
use std::marker::Model;

/// Counts from `low` to `high`.
#[derive(Clone, Copy, PartialEq, Eq)]
pub struct Counts {
    pub low: u32,
    pub high: u32,
}

/// The forms of a length determinant, told by its first bits.
#[derive(Clone, Copy, PartialEq, Eq)]
enum Form {
    /// 0, and a count in 7 bits
    Short,
    /// 10, and a count from 128 on in 14 bits
    Long,
    /// 11, and a number of blocks in 6 bits
    Fragment,
}

/// How many bits of a length determinant were given, and what they say.
#[derive(Clone, Copy)]
enum LengthState {
    /// no bit
    Start,
    /// a 1
    FirstBitSet,
    /// the form, and of the number all bits but the last `left`
    Number { form: Form, prefix: u32, left: u32 },
}

/// The lengths of a list whose count lies in a set, read bit by bit without the items between
/// them. Contracts see the set, how many blocks of 16384 items the fragments so far have, and the
/// bits given of the length begun.
#[derive(Drop)]
pub struct Lengths {
    first: Counts,
    second: Option<Counts>,
    // of the fragments so far
    blocks_read: u32,
    state: LengthState,
}

impl Model for Lengths {
    ghost Value = { BegunLengths };

    ghost view = { λ s. record { counts = spans s.first s.second; blocks = s.blocks_read; bits = state_bits s.state } };

    ghost invariant = { λ s. IsReading (spans s.first s.second) s.blocks_read s.state };
}

impl Lengths {
    /// The lengths of a list whose count is one of `first` or `second`, of which no bit is given.
    pub fn new(first: Counts, second: Option<Counts>) -> Lengths
        requires some { first.low ≤ first.high }
        ensures { result ≡ record { counts = spans first second; blocks = 0; bits = [] } }
    {
        Lengths {
            first,
            second,
            blocks_read: 0,
            state: LengthState::Start,
        }
    }

    /// Takes the next bit and says what is known. At `Number(n)`, `n` items follow at once, and
    /// `more` says whether another length comes after them. A bit that no list of the set has here is
    /// `Dead`, and then nothing has changed.
    pub fn bit(&mut self, bit: bool) -> FieldState
        ensures state { TellsLength (Spanned self.old.counts) (given self.old ++ bit_of bit ∷ []) result }
        ensures first { TellsFirst (CountsLeft self.old.counts self.old.blocks)
            (self.old.bits ++ bit_of bit ∷ []) result }
        ensures goes { Goes self.old (bit_of bit ∷ []) result self.new }
        ensures narrow { IsWord result }
    {
        let Some(state) = after_bit(self.state, bit) else {
            return FieldState::Dead;
        };
        if !is_viable(self.first, self.second, self.blocks_read, state) {
            return FieldState::Dead;
        }
        if let Some((form, number)) = completed(state) {
            let (items, blocks_read, next) = after_length(self.blocks_read, form, number);
            self.blocks_read = blocks_read;
            self.state = next;
            return FieldState::Number(u128::from(items));
        }
        self.state = state;
        FieldState::Alive
    }

    /// Whether the bits so far end a length, after whose items another one comes.
    pub fn more(&self) -> bool
        ensures fragment { IsTrue result ↔ ((0 < self.now.blocks) × (self.now.bits ≡ [])) }
        ensures more { (n : ℕ) (e : EndsLength (Spanned self.now.counts) (given self.now) n) →
            IsTrue result ↔ (e.after ≢ []) }
    {
        self.blocks_read > 0 && matches!(self.state, LengthState::Start)
    }

    /// The items that follow the length in the next bits. `Some` iff no bit of a length was given, a
    /// complete length determinant follows and the size allows it; else nothing has changed.
    pub fn try_length(&mut self, bits: &mut BitCursor<'_>) -> Option<u64>
        ensures some { IfSome result (λ n. Takes self.old bits.old bits.new n self.new) }
        ensures whole { IsSome result
            ↔ ((self.old.bits ≡ []) × LengthAhead (CountsLeft self.old.counts self.old.blocks) bits.old) }
        ensures none { IsNone result → (self.new ≡ self.old) × (bits.new ≡ bits.old) }
        ensures live { StartsSome (CountsLeft self.old.counts self.old.blocks) self.old.bits }
    {
        if !matches!(self.state, LengthState::Start) {
            return None;
        }
        let before = bits.copied();
        if let Some((form, number)) = next_length(bits)
            && is_viable(
                self.first,
                self.second,
                self.blocks_read,
                LengthState::Number {
                    form,
                    prefix: number,
                    left: 0,
                },
            )
        {
            let (items, blocks_read, next) = after_length(self.blocks_read, form, number);
            self.blocks_read = blocks_read;
            self.state = next;
            return Some(items);
        }
        *bits = before;
        None
    }
}

/// The state after one more bit; `None` if the length was complete.
fn after_bit(state: LengthState, bit: bool) -> Option<LengthState>
    requires { IsLengthState state }
    ensures state { IfSome result (λ p. IsLengthState p) }
    ensures bits { IfSome result (λ p. state_bits p ≡ state_bits state ++ bit_of bit ∷ []) }
    ensures none { IsNone result → IsWhole state }
{
    match state {
        LengthState::Start => {
            if bit {
                Some(LengthState::FirstBitSet)
            } else {
                Some(LengthState::Number {
                    form: Form::Short,
                    prefix: 0,
                    left: 7,
                })
            }
        }
        LengthState::FirstBitSet => {
            if bit {
                Some(LengthState::Number {
                    form: Form::Fragment,
                    prefix: 0,
                    left: 6,
                })
            } else {
                Some(LengthState::Number {
                    form: Form::Long,
                    prefix: 0,
                    left: 14,
                })
            }
        }
        LengthState::Number { form, prefix, left } => {
            if left == 0 {
                return None;
            }
            Some(LengthState::Number {
                form,
                prefix: 2 * prefix + u32::from(bit),
                left: left - 1,
            })
        }
    }
}

/// The form and the number of a length of which all bits were given; `None` where some are left.
fn completed(state: LengthState) -> Option<(Form, u32)>
    ensures some { IfSome result (λ x. state ≡ Number x.0 x.1 0) }
    ensures none { IsNone result → IsWhole state → ⊥ }
{
    match state {
        LengthState::Number { form, prefix, left } => {
            if left == 0 {
                Some((form, prefix))
            } else {
                None
            }
        }
        LengthState::Start => None,
        LengthState::FirstBitSet => None,
    }
}

/// The form and the number of the length in the next bits. `None` where they end before it does.
fn next_length(bits: &mut BitCursor<'_>) -> Option<(Form, u32)>
    ensures some { IfSome result (λ x.
        IsLengthState (Number x.0 x.1 0) × (bits.old ≡ state_bits (Number x.0 x.1 0) ++ bits.new)) }
    ensures none { IsNone result → LengthAhead (λ n. ⊤) bits.old → ⊥ }
{
    let first = bits.take_number(8)? as u32;
    if first < 128 {
        return Some((Form::Short, first));
    }
    if first < 192 {
        let second = bits.take_number(8)? as u32;
        return Some((Form::Long, (first - 128) * 256 + second));
    }
    Some((Form::Fragment, first - 192))
}

/// Whether the next length of some list of the set begins with these bits, after fragments of `blocks` blocks.
fn is_viable(first: Counts, second: Option<Counts>, blocks: u32, state: LengthState) -> bool
    requires { IsLengthState state }
    ensures exact { IsTrue result ↔ StartsSome (CountsLeft (spans first second) blocks) (state_bits state) }
    ensures few { IsTrue result → 16384 * blocks < 2 ^ 32 }
{
    let read = BLOCK * u64::from(blocks);
    let (low, high) = remaining_counts_after(state, blocks % 4 != 0);
    match high {
        Some(high) => reaches(first, second, read + low, Some(read + high)),
        None => reaches(first, second, read + low, None),
    }
}

/// The remaining counts whose next length determinant starts with these bits, from the least to the largest if
/// there is one. After a fragment that is `closed`, of fewer than 4 blocks, less than a block is left.
fn remaining_counts_after(state: LengthState, closed: bool) -> (u64, Option<u64>)
    requires { IsLengthState state }
    ensures low { result.0 < 2 ^ 32 }
    ensures high { IfSome result.1 (λ high. high < 2 ^ 32) }
    ensures exact { (n : ℕ) → ((result.0 ≤ n) × AtMost n result.1)
        ↔ (StartsLength n (state_bits state) × (closed ≡ true → n < 16384)) }
{
    let (low, high) = counts_after(state);
    match high {
        Some(high) if closed => (low, Some(high.min(BLOCK - 1))),
        None if closed => (low, Some(BLOCK - 1)),
        _ => (low, high),
    }
}

/// The counts whose first length determinant starts with these bits, from the least to the largest if there is one.
fn counts_after(state: LengthState) -> (u64, Option<u64>)
    requires { IsLengthState state }
    ensures low { result.0 < 2 ^ 32 }
    ensures high { IfSome result.1 (λ high. high < 2 ^ 32) }
    ensures exact { (n : ℕ) → ((result.0 ≤ n) × AtMost n result.1) ↔ StartsLength n (state_bits state) }
{
    match state {
        LengthState::Start => (0, None),
        LengthState::FirstBitSet => (128, None),
        LengthState::Number { form, prefix, left } => {
            let low = scaled(prefix, left);
            let high = scaled(prefix + 1, left) - 1;
            match form {
                Form::Short => (low, Some(high)),
                Form::Long => (low.max(128), Some(high)),
                Form::Fragment => fragments_with(low, high),
            }
        }
    }
}

/// The least number that begins with the bits of `prefix`, `left` bits before its end.
fn scaled(prefix: u32, left: u32) -> u64
    requires few { left < 15 }
    ensures { result ≡ prefix * 2 ^ left }
{
    u64::from(prefix) << left
}

/// The counts whose first fragment has `low` to `high` blocks, of 1 to 4, from the least to the largest if there is
/// one.
fn fragments_with(low: u64, high: u64) -> (u64, Option<u64>)
    requires ordered { low ≤ high }
    requires few { high < 64 }
    ensures low { result.0 < 2 ^ 32 }
    ensures high { IfSome result.1 (λ high. high < 2 ^ 32) }
    ensures exact { (n : ℕ) → ((result.0 ≤ n) × AtMost n result.1)
        ↔ ((16384 ≤ n) × (low ≤ blocks n) × (blocks n ≤ high)) }
{
    if low > MAX_BLOCKS {
        (1, Some(0))
    } else if high < MAX_BLOCKS {
        (BLOCK * low.max(1), Some(BLOCK * high + BLOCK - 1))
    } else {
        (BLOCK * low.max(1), None)
    }
}

/// Whether some count of the set is at or above `low`, and at or below `high` if there is one.
pub(crate) fn reaches(first: Counts, second: Option<Counts>, low: u64, high: Option<u64>) -> bool
    ensures exact { IsTrue result ↔ Reaches (spans first second) low high }
    ensures few { IsTrue result → low < 2 ^ 32 }
{
    meets(first, low, high) || second.is_some_and(|counts| meets(counts, low, high))
}

fn meets(counts: Counts, low: u64, high: Option<u64>) -> bool
    ensures exact { IsTrue result ↔ Meet counts.low (Some counts.high) low high }
    ensures few { IsTrue result → low < 2 ^ 32 }
{
    let (least, most) = (u64::from(counts.low), u64::from(counts.high));
    least <= most && low <= most && high.is_none_or(|end| least <= end && low <= end)
}

/// After a complete length: the items that follow it, the blocks that are read with them, and the state.
fn after_length(blocks: u32, form: Form, number: u32) -> (u64, u32, LengthState)
    requires few { blocks + number < 2 ^ 32 }
    ensures { AfterLength blocks form number (result.0, result.1, result.2) }
{
    match form {
        Form::Fragment => (
            BLOCK * u64::from(number),
            blocks + number,
            LengthState::Start,
        ),
        _ => (
            u64::from(number),
            blocks,
            LengthState::Number {
                form,
                prefix: number,
                left: 0,
            },
        ),
    }
}
