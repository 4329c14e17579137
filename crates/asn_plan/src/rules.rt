//! Encoding rules by which a plan is read.
ghost use Rattle.std.specs.Prelude.{◌≡◌, ◌^◌, ◌+◌, ◌≤◌, ℕ, List, Option, IfSome, IsNone, true, false};
ghost use mathlib.Core.Logic.{inl};
ghost use Rattle.asn_values.specs.Datum.{truth, number, item};
ghost use Rattle.asn_values.specs.Profile.{InProfile};
ghost use Rattle.asn_values.specs.Shape.{Shape, SizeRange, boolean};
ghost use Rattle.asn_values.specs.View.{shape_of};
ghost use Rattle.asn_rules.specs.Languages.{Spells};
ghost use Rattle.asn_walk.specs.Coding.{IndexOf, PreambleOf};
ghost use Rattle.asn_walk.specs.Views.{preamble_seen};
ghost use Rattle.asn_walk.specs.Integers.{IsOfProfile};
ghost use Rattle.asn_walk.specs.Reading.{Reads, ValuesOf};
ghost use Rattle.asn_plan.specs.Enumerations.{IsEnumeration};
ghost use Rattle.asn_plan.specs.Fields.{AreCountFields, AreIndexFields, BeginsList};
ghost use Rattle.asn_plan.specs.FixedStrings.{IsFixedString};
ghost use Rattle.asn_plan.specs.InOrder.{SpellsIndexes};
ghost use Rattle.asn_plan.specs.Nothing.{SpellsNothing};
ghost use Rattle.asn_plan.specs.Plans.{BeginsOpen, EndsOpen, TellsString};
ghost use Rattle.asn_plan.specs.Ranged.{ranged, IsRanged};
ghost use Rattle.asn_plan.specs.Words.{before};

use crate::enumeration::Enumeration;
use crate::field::BitFields;
use crate::fixed::FixedString;
use crate::ranged::Ranged;
use crate::word::{Run, Word};
use asn_bits::BitCursor;
use asn_rules::Rules;
use asn_walk::{Preamble, ReadLeaves};

/// What a plan asks of a set of rules in addition to the parts that any walk asks for: values by what was worked out
/// of their types once.
pub trait PlanLeaves: ReadLeaves {
    /// Values of NULL, and of SEQUENCEs of these alone, have no units. The call does nothing: its clause is what the
    /// proofs of the walk cite.
    fn keep_nothing()
        ensures { SpellsNothing false Self.rules.code };

    /// Whether the only value of a type has no units either, as by PER that of INTEGER (5..5).
    #[inline(always)]
    fn single_is_empty() -> bool
        ensures { result ≡ true → SpellsNothing true Self.rules.code }
    {
        false
    }

    /// Whether an item is spelled by its index, as by PER.
    #[inline(always)]
    fn spells_indexes() -> bool
        ensures { result ≡ true → SpellsIndexes Self.rules.code }
    {
        false
    }

    /// Takes this many units at once, if they have all come and a word holds them; otherwise none.
    fn take_word(run: Run, units: &mut BitCursor<'_>) -> Word
        requires at_unit { Self.rules.at_unit units.old }
        ensures at_unit { Self.rules.at_unit units.new }
        ensures taken { Self.rules.to_units units.old ≡ before Self.rules result (Self.rules.to_units units.new) };

    /// Reads the extension bit, where there is an extension mark with this many additions, and a presence bitmap of
    /// `count` bits from a word; `None` where they do not stand in it.
    fn next_preamble(
        count: u32,
        mask: u64,
        additions: Option<usize>,
        word: &mut Word,
    ) -> Option<Preamble>
        requires few { count ≤ 64 }
        requires mask { mask + 1 ≡ 2 ^ count }
        ensures some { IfSome result (λ p. (us : List ℕ)
            → Spells Self.rules.ruling.fielding (PreambleOf Self.rules count additions) (preamble_seen p)
            (before Self.rules word.old us) (before Self.rules word.new us)) };

    /// Reads an INTEGER of the type from a word; `None` where none stands in it, and perhaps if the value lies outside
    /// the extension root.
    fn next_ranged(range: &Ranged, word: &mut Word) -> Option<i128>
        requires ranged { IsRanged range.now }
        ensures some { IfSome result (λ z. (us : List ℕ)
            → Spells Self.rules.ruling.fielding (ValuesOf Self.rules (ranged range.now)) (number z)
            (before Self.rules word.old us) (before Self.rules word.new us)) }
        ensures of_integers { IfSome result IsOfProfile };

    /// Reads a BOOLEAN from a word; `None` where none stands in it.
    fn next_truth(word: &mut Word) -> Option<bool>
        ensures { IfSome result (λ b. (us : List ℕ)
            → Spells Self.rules.ruling.fielding (ValuesOf Self.rules boolean) (truth b)
            (before Self.rules word.old us) (before Self.rules word.new us)) };

    /// Reads an ENUMERATED of the type from a word, and gives the position of the item; `None` where none stands in it,
    /// and for an item that is no one of the root.
    fn next_item(items: &Enumeration, word: &mut Word) -> Option<u32>
        requires { IsEnumeration items.now }
        ensures { IfSome result (λ p. (us : List ℕ)
            → Spells Self.rules.ruling.fielding (ValuesOf Self.rules (shape_of items.now.ty)) (item p)
            (before Self.rules word.old us) (before Self.rules word.new us)) };

    /// Reads a string of the type from a word, and gives the number in its bits; `None` where none stands in it, and
    /// perhaps if its length lies outside the extension root.
    #[inline(always)]
    fn next_string(_fixed: &FixedString, _word: &mut Word) -> Option<u64>
        ensures { IfSome result (λ n. (t : Shape) → InProfile t → IsFixedString _fixed.now t
            → TellsString Self.rules t _fixed.now n _word.old _word.new) }
    {
        None
    }

    /// Takes the length of an open type field, and gives how many octets that are: what stands in the field may then be
    /// read where it stands. `None`, and nothing is taken, where it cannot.
    #[inline(always)]
    fn enter_open(_units: &mut BitCursor<'_>) -> Option<u32>
        requires at_unit { Self.rules.at_unit _units.old }
        ensures at_unit { Self.rules.at_unit _units.new }
        ensures some { IfSome result (λ n.
            BeginsOpen Self.rules n (Self.rules.to_units _units.old) (Self.rules.to_units _units.new)) }
        ensures none { IsNone result → _units.new ≡ _units.old }
    {
        None
    }

    /// Takes what fills up an open type field of `octets` octets, after a value of `taken` units. Returns whether that
    /// is the end of the field; otherwise some units may be taken.
    #[inline(always)]
    fn leave_open(_octets: u32, _taken: u128, _units: &mut BitCursor<'_>) -> bool
        requires at_unit { Self.rules.at_unit _units.old }
        ensures at_unit { Self.rules.at_unit _units.new }
        ensures some { result ≡ true → EndsOpen Self.rules _octets _taken
            (Self.rules.to_units _units.old) (Self.rules.to_units _units.new) }
    {
        false
    }

    /// Reads an INTEGER of the type, or gives `None` and leaves the cursor where it is: if its encoding is not complete
    /// or not valid, and perhaps if the value lies outside the extension root.
    fn try_ranged(range: &Ranged, units: &mut BitCursor<'_>) -> Option<i128>
        requires at_unit { Self.rules.at_unit units.old }
        requires ranged { IsRanged range.now }
        ensures at_unit { Self.rules.at_unit units.new }
        ensures some { IfSome result (λ z.
            Reads Self.rules (ValuesOf Self.rules (ranged range.now)) (number z) units.old units.new) }
        ensures of_integers { IfSome result IsOfProfile }
        ensures none { IsNone result → units.new ≡ units.old };

    /// Reads an ENUMERATED of the type that stands in no word, and gives the position of the item; or gives `None` and
    /// leaves the cursor where it is: if its encoding is not complete or not valid, and perhaps for an item that is no
    /// one of the root.
    #[inline(always)]
    fn try_item(_items: &Enumeration, _units: &mut BitCursor<'_>) -> Option<u32>
        requires at_unit { Self.rules.at_unit _units.old }
        requires items { IsEnumeration _items.now }
        ensures at_unit { Self.rules.at_unit _units.new }
        ensures some { IfSome result (λ p.
            Reads Self.rules (ValuesOf Self.rules (shape_of _items.now.ty)) (item p) _units.old _units.new) }
        ensures none { IsNone result → _units.new ≡ _units.old }
    {
        None
    }

    /// Reads the index of an alternative of the root of a CHOICE, or gives `None` and leaves the cursor where it is:
    /// if it is not at hand, or not told by these fields.
    fn try_index(fields: &BitFields, units: &mut BitCursor<'_>) -> Option<u32>
        requires at_unit { Self.rules.at_unit units.old }
        ensures at_unit { Self.rules.at_unit units.new }
        ensures some { IfSome result (λ n. (root : ℕ) (more : Option ℕ) → AreIndexFields fields.now root more
            → Reads Self.rules (IndexOf Self.rules root more) (inl n) units.old units.new) }
        ensures none { IsNone result → units.new ≡ units.old };

    /// Reads how many elements a SEQUENCE OF of the root has, and all else that stands before them, where no others
    /// follow them. Gives `None` and leaves the cursor where it is if that is not at hand, or not told by these
    /// fields.
    fn try_count(fields: &BitFields, units: &mut BitCursor<'_>) -> Option<u32>
        requires at_unit { Self.rules.at_unit units.old }
        ensures at_unit { Self.rules.at_unit units.new }
        ensures some { IfSome result (λ n. (s : SizeRange) → AreCountFields fields.now s
            → BeginsList Self.rules s n (Self.rules.to_units units.old) (Self.rules.to_units units.new)) }
        ensures none { IsNone result → units.new ≡ units.old };
}

/// Encoding rules that read the parts of types and values by themselves, as PER and OER do.
pub trait PlanRules: PlanLeaves + Rules {
    ghost same_ruling: { Self.rules.ruling ≡ Self.ruling };
}
