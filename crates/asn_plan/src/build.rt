//! What the walk of a plan builds of the values that it reads: nothing, where it only checks, or values.
ghost use Rattle.std.specs.Prelude.{◌≡◌, ℕ, ◌<◌, ◌^◌, ◌++◌, ◌∷◌, [], List, Option, Some, None, IfSome, IsSome, ⊤};
ghost use Rattle.asn_values.specs.Datum.{Datum, truth, number, item, components, components_of, elements, elements_of, alternative};
ghost use Rattle.asn_values.specs.Profile.{InProfile};
ghost use Rattle.asn_values.specs.Shape.{Shape};
ghost use Rattle.asn_values.specs.View.{datum_of};
ghost use Rattle.asn_walk.specs.Integers.{IsOfProfile};
ghost use Rattle.asn_plan.specs.FixedStrings.{IsStringOf};
ghost use Rattle.asn_plan.specs.Plans.{IsPlan, Builds};
ghost use Rattle.asn_plan.specs.Taken.{entries_of, octets_of};

use crate::copies::copy_default;
use crate::fixed::FixedString;
use crate::plan::{Kind, Node};
use crate::rules::PlanLeaves;
use asn_bits::BitCursor;
use asn_values::Value;
use std::alloc::Global;

/// What is built of values, in a room that all parts share. What a part, entries or elements are of is said of two
/// states of the room: before the first of them was put there, and now. A method that gives `None` has given up, as for
/// want of memory; of the room nothing is said then.
pub trait Build {
    /// Where it is built.
    type Room;

    /// What is built of a value.
    type Part: Drop;

    /// What is built of the entries of a SEQUENCE, up to some component.
    type Entries: Drop;

    /// What is built of the elements of a SEQUENCE OF, up to some element.
    type Elements: Drop;

    /// What is built of a CHOICE before the value of its alternative.
    type Chosen: Drop;

    ghost built: { Self.Room → Self.Room → Self.Part → Datum → Type 0 };

    ghost listed: { Self.Room → Self.Room → Self.Entries → List (Option Datum) → Type 0 };

    ghost rowed: { Self.Room → Self.Room → Self.Elements → List Datum → Type 0 };

    ghost opened: { Self.Room → Self.Room → Self.Chosen → ℕ → Type 0 };

    /// Builds the part of an INTEGER; `None` where it gives up.
    fn number(room: &mut Self::Room, integer: i128) -> Option<Self::Part>
        requires { IsOfProfile integer }
        ensures { IfSome result (λ p. built room.old room.new p (number integer)) };

    /// Builds the part of a BOOLEAN.
    fn truth(room: &mut Self::Room, is_true: bool) -> Option<Self::Part>
        ensures { IfSome result (λ p. built room.old room.new p (truth is_true)) };

    /// Builds the part of an ENUMERATED: the item at this position, counted from 0.
    fn item(room: &mut Self::Room, position: u32) -> Option<Self::Part>
        ensures { IfSome result (λ p. built room.old room.new p (item position)) };

    /// Whether strings of one length are built of their bits, by `string`; else they are values.
    #[inline(always)]
    fn takes_strings() -> bool {
        false
    }

    /// Whether it does so little that what the walk keeps stays in registers; else rare components
    /// have functions of their own.
    #[inline(always)]
    fn is_light() -> bool {
        false
    }

    /// Builds the part of a BIT STRING or OCTET STRING of one length, whose bits are those of the
    /// number.
    #[inline(always)]
    fn string(_room: &mut Self::Room, _fixed: &FixedString, _number: u64) -> Option<Self::Part>
        ensures { IfSome result (λ p. (d : Datum) → IsStringOf _fixed.now _number d
            → built _room.old _room.new p d) }
    {
        None
    }

    /// Whether values of no units are built in this room of the count of their entries, by `counted`; else they are walked.
    #[inline(always)]
    fn takes_counts(_room: &Self::Room) -> bool {
        false
    }

    /// Builds the part of a value that has this many entries and no strings.
    #[inline(always)]
    fn counted(_room: &mut Self::Room, _entries: u32) -> Option<Self::Part>
        ensures { IfSome result (λ p. (d : Datum) → entries_of d ≡ _entries → octets_of d ≡ 0
            → built _room.old _room.new p d) }
    {
        None
    }

    /// Builds the part of a value without parts; it may give up at another.
    fn value(room: &mut Self::Room, value: Value) -> Option<Self::Part>
        ensures { IfSome result (λ p. built room.old room.new p (datum_of value)) };

    /// Builds the part of a value without parts that stays where it is, as the DEFAULT of a
    /// component that is absent.
    #[inline(always)]
    fn kept(room: &mut Self::Room, value: &Value) -> Option<Self::Part>
        ensures { IfSome result (λ p. built room.old room.new p (datum_of value.now)) }
    {
        let copy = copy_default(value)?;
        Self::value(room, copy)
    }

    /// Gives a value whose memory serves for the next part, which is a string; `None` where there
    /// is no such value.
    fn spare(room: &mut Self::Room) -> Option<Value>
        ensures { (r : Self.Room) (p : Self.Part) (d : Datum) → built room.new r p d → built room.old r p d }
    {
        None
    }

    /// Whether nothing has to be looked at in the next part: it is then read by `pass_over`, with its parts.
    #[inline(always)]
    fn passes(_room: &Self::Room) -> bool {
        false
    }

    /// Takes the value of the node, of which nothing has to be looked at, and returns its part.
    #[inline(always)]
    fn pass_over<R: PlanLeaves>(
        _alloc: Global,
        _nodes: &[Node],
        _kind: &Kind,
        _units: &mut BitCursor<'_>,
        _room: &Self::Room,
    ) -> Option<Self::Part>
        requires at_unit { R.rules.at_unit _units.old }
        ensures at_unit { IsSome result → R.rules.at_unit _units.new }
        ensures some { IfSome result (λ p. (t : Shape) → InProfile t → IsPlan _nodes.now t _kind.now
            → Builds R.rules (built _room.now _room.now) t p _units.old _units.new) }
    {
        None
    }

    /// Begins the entries of a SEQUENCE, none yet, of which there will be this many.
    fn entries(alloc: Global, room: &mut Self::Room, count: usize) -> Option<Self::Entries>
        ensures { IfSome result (λ es. listed room.old room.new es []) };

    /// Adds the entry of a component that is absent.
    fn absent(room: &mut Self::Room, entries: &mut Self::Entries) -> Option<()>
        ensures { IsSome result → (s : Self.Room) (es : List (Option Datum)) → listed s room.old entries.old es
            → listed s room.new entries.new (es ++ None ∷ []) };

    /// Adds the entry of a component with this value, which was built after the entries.
    fn present(room: &mut Self::Room, entries: &mut Self::Entries, part: Self::Part) -> Option<()>
        ensures { IsSome result → (s m : Self.Room) (es : List (Option Datum)) (d : Datum)
            → listed s m entries.old es → built m room.old part d → listed s room.new entries.new (es ++ Some d ∷ []) };

    /// Builds a SEQUENCE of these entries, which are complete.
    fn sequence(room: &mut Self::Room, entries: Self::Entries) -> Option<Self::Part>
        ensures { IfSome result (λ p. (s : Self.Room) (es : List (Option Datum)) → listed s room.old entries es
            → built s room.new p (components (components_of es))) };

    /// Begins the elements of a SEQUENCE OF, none yet.
    fn elements(alloc: Global, room: &mut Self::Room) -> Option<Self::Elements>
        ensures { IfSome result (λ row. rowed room.old room.new row []) };

    /// Adds an element, which was built after the others.
    fn element(room: &mut Self::Room, row: &mut Self::Elements, part: Self::Part) -> Option<()>
        ensures { IsSome result → (s m : Self.Room) (ds : List Datum) (d : Datum)
            → rowed s m row.old ds → built m room.old part d → rowed s room.new row.new (ds ++ d ∷ []) };

    /// Builds a SEQUENCE OF of these elements, which are complete.
    fn list(room: &mut Self::Room, row: Self::Elements) -> Option<Self::Part>
        ensures { IfSome result (λ p. (s : Self.Room) (ds : List Datum) → rowed s room.old row ds
            → built s room.new p (elements (elements_of ds))) };

    /// Begins a CHOICE, before the value of its alternative at this place, counted from 0, is
    /// built.
    fn choosing(room: &mut Self::Room, place: usize) -> Option<Self::Chosen>
        requires { place < 2 ^ 32 }
        ensures { IfSome result (λ c. opened room.old room.new c place) };

    /// Builds a CHOICE with the value of its alternative, which was built after it was begun.
    fn choice(
        alloc: Global,
        room: &mut Self::Room,
        chosen: Self::Chosen,
        place: usize,
        part: Self::Part,
    ) -> Option<Self::Part>
        requires { place < 2 ^ 32 }
        ensures { IfSome result (λ p. (s m : Self.Room) (d : Datum) → opened s m chosen place → built m room.old part d
            → built s room.new p (alternative place d)) };
}

/// Builds nothing.
pub struct Nothing;

impl Build for Nothing {
    type Room = ();

    type Part = ();

    type Entries = ();

    type Elements = ();

    type Chosen = ();

    ghost built = { λ s r p d. ⊤ };

    ghost listed = { λ s r p es. ⊤ };

    ghost rowed = { λ s r p ds. ⊤ };

    ghost opened = { λ s r c n. ⊤ };

    #[inline(always)]
    fn number(_room: &mut (), _integer: i128) -> Option<()> {
        Some(())
    }

    #[inline(always)]
    fn truth(_room: &mut (), _is_true: bool) -> Option<()> {
        Some(())
    }

    #[inline(always)]
    fn item(_room: &mut (), _position: u32) -> Option<()> {
        Some(())
    }

    #[inline(always)]
    fn takes_strings() -> bool {
        true
    }

    #[inline(always)]
    fn is_light() -> bool {
        true
    }

    #[inline(always)]
    fn string(_room: &mut (), _fixed: &FixedString, _number: u64) -> Option<()> {
        Some(())
    }

    #[inline(always)]
    fn takes_counts(_room: &()) -> bool {
        true
    }

    #[inline(always)]
    fn counted(_room: &mut (), _entries: u32) -> Option<()> {
        Some(())
    }

    #[inline(always)]
    fn value(_room: &mut (), _value: Value) -> Option<()> {
        Some(())
    }

    #[inline(always)]
    fn kept(_room: &mut (), _value: &Value) -> Option<()> {
        Some(())
    }

    #[inline(always)]
    fn entries(_alloc: Global, _room: &mut (), _count: usize) -> Option<()> {
        Some(())
    }

    #[inline(always)]
    fn absent(_room: &mut (), _entries: &mut ()) -> Option<()> {
        Some(())
    }

    #[inline(always)]
    fn present(_room: &mut (), _entries: &mut (), _part: ()) -> Option<()> {
        Some(())
    }

    #[inline(always)]
    fn sequence(_room: &mut (), _entries: ()) -> Option<()> {
        Some(())
    }

    #[inline(always)]
    fn elements(_alloc: Global, _room: &mut ()) -> Option<()> {
        Some(())
    }

    #[inline(always)]
    fn element(_room: &mut (), _row: &mut (), _part: ()) -> Option<()> {
        Some(())
    }

    #[inline(always)]
    fn list(_room: &mut (), _row: ()) -> Option<()> {
        Some(())
    }

    #[inline(always)]
    fn choosing(_room: &mut (), _place: usize) -> Option<()> {
        Some(())
    }

    #[inline(always)]
    fn choice(_alloc: Global, _room: &mut (), _chosen: (), _place: usize, _part: ()) -> Option<()> {
        Some(())
    }
}
