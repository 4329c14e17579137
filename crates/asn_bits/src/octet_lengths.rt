//! Lengths of OER octet by octet (X.696, "length determinant").
ghost use Rattle.std.specs.Prelude.{◌≡◌, ◌↔◌, ◌+◌, ◌*◌, ◌^◌, ◌<◌, ◌≤◌, ℕ, [], ◌∷◌, ◌++◌, IfSome, IsNone, IsTrue};
ghost use Rattle.asn_bits.specs.Begun.{IsWord};
ghost use Rattle.asn_bits.specs.Ranges.{Spanned};
ghost use Rattle.asn_bits.specs.LengthStates.{spans};
ghost use Rattle.asn_bits.specs.OctetLengths.{BegunOctets, TellsOctets, TakesOctet, StartsOctets, IsOctetState, IsWholeLength, state_octets, least_long};
ghost use Rattle.asn_bits.specs.declared.octet_lengths.OctetState.TheVariants.{Start};

use crate::general_length::{Counts, reaches};
use crate::number_field::FieldState;
use std::marker::Model;

/// How many octets of a length were given, and what they say.
#[derive(Clone, Copy)]
enum OctetState {
    /// no octet
    Start,
    /// the length, which one octet tells
    Short { length: u32 },
    /// 128 + `count`, and of the length in `count` octets all but the last `left`, which stand for `prefix`
    Long { count: u32, prefix: u64, left: u32 },
}

/// A length that lies in a set, read octet by octet. Contracts see the set and the octets given.
#[derive(Drop)]
pub struct OctetLengths {
    first: Counts,
    second: Option<Counts>,
    state: OctetState,
}

impl Model for OctetLengths {
    ghost Value = { BegunOctets };

    ghost view = { λ s. record { counts = spans s.first s.second; given = state_octets s.state } };

    ghost invariant = { λ s. IsOctetState s.state };
}

impl OctetLengths {
    /// A length that is one of `first` or `second`, of which no octet is given.
    pub fn new(first: Counts, second: Option<Counts>) -> OctetLengths
        ensures { result ≡ record { counts = spans first second; given = [] } }
    {
        OctetLengths {
            first,
            second,
            state: OctetState::Start,
        }
    }

    /// Takes the next octet and says what is known: `Number(n)` where the octets are the length n of the set. An octet
    /// with which no length of the set goes on is `Dead`, also after a whole length, and then nothing has changed.
    pub fn octet(&mut self, octet: u8) -> FieldState
        ensures state { TellsOctets (Spanned self.old.counts) (self.old.given ++ octet ∷ []) result }
        ensures goes { TakesOctet self.old octet result self.new }
        ensures narrow { IsWord result }
    {
        are_narrow(self.first, self.second);
        let Some(state) = after_octet(self.state, octet) else {
            return FieldState::Dead;
        };
        let (low, high) = lengths_after(state);
        if !reaches(self.first, self.second, low, Some(high)) {
            return FieldState::Dead;
        }
        self.state = state;
        if is_whole(state) {
            return FieldState::Number(u128::from(high));
        }
        FieldState::Alive
    }
}

/// Counts are numbers of 32 bits.
fn are_narrow(first: Counts, second: Option<Counts>)
    ensures { (n : ℕ) → Spanned (spans first second) n → n < 2 ^ 32 }
{}

/// The state after one more octet; `None` if the length was complete, or has more than four octets.
fn after_octet(state: OctetState, octet: u8) -> Option<OctetState>
    requires { IsOctetState state }
    ensures state { IfSome result (λ p. IsOctetState p) }
    ensures some { IfSome result (λ p. p ≡ Start → ⊥) }
    ensures octets { IfSome result (λ p. state_octets p ≡ state_octets state ++ octet ∷ []) }
    ensures none { IsNone result → (n : ℕ) → n < 2 ^ 32 → StartsOctets n (state_octets state ++ octet ∷ []) → ⊥ }
{
    match state {
        OctetState::Start => first_octet(u32::from(octet)),
        OctetState::Short { .. } => None,
        OctetState::Long {
            count,
            prefix,
            left,
        } => {
            if left == 0 {
                return None;
            }
            Some(OctetState::Long {
                count,
                prefix: 256 * prefix + u64::from(octet),
                left: left - 1,
            })
        }
    }
}

/// Whether all octets of the length are given.
fn is_whole(state: OctetState) -> bool
    ensures there { IsTrue result → IsWholeLength state }
    ensures back { IsWholeLength state → IsTrue result }
{
    match state {
        OctetState::Start => false,
        OctetState::Short { .. } => true,
        OctetState::Long { left, .. } => left == 0,
    }
}

/// The state after the first octet.
fn first_octet(octet: u32) -> Option<OctetState>
    requires { octet < 256 }
    ensures state { IfSome result (λ p. IsOctetState p) }
    ensures some { IfSome result (λ p. p ≡ Start → ⊥) }
    ensures octets { IfSome result (λ p. state_octets p ≡ octet ∷ []) }
    ensures none { IsNone result → (n : ℕ) → n < 2 ^ 32 → StartsOctets n (octet ∷ []) → ⊥ }
{
    if octet < 128 {
        return Some(OctetState::Short { length: octet });
    }
    let count = octet - 128;
    if count == 0 {
        return None;
    }
    if count > 4 {
        return None;
    }
    Some(OctetState::Long {
        count,
        prefix: 0,
        left: count,
    })
}

/// The lengths that begin with the octets given, from the least to the largest.
fn lengths_after(state: OctetState) -> (u64, u64)
    requires octets { IsOctetState state }
    requires some { state ≡ Start → ⊥ }
    ensures low { result.0 < 2 ^ 32 }
    ensures high { result.1 < 2 ^ 32 }
    ensures exact { (n : ℕ) → ((result.0 ≤ n) × (n ≤ result.1)) ↔ StartsOctets n (state_octets state) }
{
    match state {
        OctetState::Start => unreachable!(),
        OctetState::Short { length } => (u64::from(length), u64::from(length)),
        OctetState::Long {
            count,
            prefix,
            left,
        } => {
            let low = scaled(prefix, left);
            let high = scaled(prefix + 1, left) - 1;
            (low.max(least_long(count)), high)
        }
    }
}

/// The least length that has `count` octets after the first one.
fn least_long(count: u32) -> u64
    requires some { 1 ≤ count }
    requires few { count ≤ 4 }
    ensures least { result ≡ least_long count }
    ensures narrow { result < 2 ^ 32 }
{
    if count < 2 {
        return 128;
    }
    scaled(1, count - 1)
}

/// The least number that begins with the octets of `prefix`, `left` octets before its end.
fn scaled(prefix: u64, left: u32) -> u64
    requires few { left ≤ 4 }
    requires room { prefix * 2 ^ (8 * left) ≤ 2 ^ 32 }
    ensures { result ≡ prefix * 2 ^ (8 * left) }
{
    prefix << (8 * left)
}
