//! A builder that counts what a value takes, and keeps nothing of it.
ghost use Rattle.std.specs.Prelude.{◌≡◌, ◌+◌, true, false, IfSome, ⊤};
ghost use Rattle.asn_values.specs.Datum.{components, components_of, elements, elements_of};
ghost use Rattle.asn_values.specs.View.{datum_of};
ghost use Rattle.asn_plan.specs.Taken.{Takes, IsNoMore};

use crate::budget::{Budget, Taken};
use crate::build::Build;
use crate::fixed::FixedString;
use asn_values::Value;
use std::alloc::Global;

/// Counts what a value takes. It gives up at more than 2^64 - 1 entries or octets.
pub struct Counting;

impl Taken {
    /// What a string of this many octets takes; any other value without parts is as a string of none.
    #[inline(always)]
    fn of_string(octets: usize) -> Taken
        ensures entries { result.entries ≡ 1 }
        ensures octets { result.octets ≡ octets }
    {
        Taken {
            entries: 1,
            octets: octets as u64,
        }
    }

    /// What both take.
    #[inline(always)]
    fn plus(self, other: Taken) -> Option<Taken>
        ensures entries { IfSome result (λ n. n.entries ≡ self.entries + other.entries) }
        ensures octets { IfSome result (λ n. n.octets ≡ self.octets + other.octets) }
    {
        let entries = self.entries.checked_add(other.entries)?;
        let octets = self.octets.checked_add(other.octets)?;
        Some(Taken { entries, octets })
    }
}

impl Taken {
    /// Whether this is no more than the budget.
    pub fn is_within(&self, budget: &Budget) -> bool
        ensures within { result ≡ true → IsNoMore self.now budget.now }
        ensures over { result ≡ false → IsNoMore self.now budget.now → ⊥ }
    {
        self.entries <= budget.entries && self.octets <= budget.octets
    }
}

/// What a value without parts takes; `None` of any other.
fn taken_alone(value: &Value) -> Option<Taken>
    ensures { IfSome result (λ n. Takes n (datum_of value.now)) }
{
    match value {
        Value::Bool(_) | Value::Null | Value::Int(_) | Value::Enum(_) => Some(Taken::of_string(0)),
        Value::Bits(bits) => Some(Taken::of_string(bits.len())),
        Value::Octets(octets) => Some(Taken::of_string(octets.len())),
        Value::Text(characters) => Some(Taken::of_string(characters.len())),
        Value::Utf8(text) => Some(Taken::of_string(text.len())),
        Value::Seq(_)
        | Value::List(_)
        | Value::Choice(..)
        | Value::UnknownItem(_)
        | Value::UnknownAlternative(_) => None,
    }
}

impl Build for Counting {
    type Room = ();

    type Part = Taken;

    type Entries = Taken;

    type Elements = Taken;

    type Chosen = ();

    ghost built = { λ s r p d. Takes p d };

    ghost listed = { λ s r p es. Takes p (components (components_of es)) };

    ghost rowed = { λ s r p ds. Takes p (elements (elements_of ds)) };

    ghost opened = { λ s r c n. ⊤ };

    #[inline(always)]
    fn number(_room: &mut (), _integer: i128) -> Option<Taken> {
        Some(Taken::of_string(0))
    }

    #[inline(always)]
    fn truth(_room: &mut (), _is_true: bool) -> Option<Taken> {
        Some(Taken::of_string(0))
    }

    #[inline(always)]
    fn item(_room: &mut (), _position: u32) -> Option<Taken> {
        Some(Taken::of_string(0))
    }

    #[inline(always)]
    fn takes_strings() -> bool {
        true
    }

    #[inline(always)]
    fn string(_room: &mut (), fixed: &FixedString, _number: u64) -> Option<Taken> {
        Some(Taken::of_string(fixed.length as usize))
    }

    #[inline(always)]
    fn takes_counts(_room: &()) -> bool {
        true
    }

    #[inline(always)]
    fn counted(_room: &mut (), entries: u32) -> Option<Taken> {
        Some(Taken {
            entries: u64::from(entries),
            octets: 0,
        })
    }

    #[inline(always)]
    fn value(_room: &mut (), value: Value) -> Option<Taken> {
        taken_alone(&value)
    }

    #[inline(always)]
    fn entries(_alloc: Global, _room: &mut (), _count: usize) -> Option<Taken> {
        Some(Taken::of_string(0))
    }

    #[inline(always)]
    fn absent(_room: &mut (), entries: &mut Taken) -> Option<()> {
        *entries = entries.plus(Taken::of_string(0))?;
        Some(())
    }

    #[inline(always)]
    fn present(_room: &mut (), entries: &mut Taken, part: Taken) -> Option<()> {
        *entries = entries.plus(part)?;
        Some(())
    }

    #[inline(always)]
    fn sequence(_room: &mut (), entries: Taken) -> Option<Taken> {
        Some(entries)
    }

    #[inline(always)]
    fn elements(_alloc: Global, _room: &mut ()) -> Option<Taken> {
        Some(Taken::of_string(0))
    }

    #[inline(always)]
    fn element(_room: &mut (), row: &mut Taken, part: Taken) -> Option<()> {
        *row = row.plus(part)?;
        Some(())
    }

    #[inline(always)]
    fn list(_room: &mut (), row: Taken) -> Option<Taken> {
        Some(row)
    }

    #[inline(always)]
    fn choosing(_room: &mut (), _place: usize) -> Option<()> {
        Some(())
    }

    #[inline(always)]
    fn choice(
        _alloc: Global,
        _room: &mut (),
        _chosen: (),
        _place: usize,
        part: Taken,
    ) -> Option<Taken> {
        let chosen = part.plus(Taken::of_string(0))?;
        Some(chosen)
    }
}
