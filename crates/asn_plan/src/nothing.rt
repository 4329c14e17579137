//! How many entries a value has that has no units.
ghost use Rattle.std.specs.Prelude.{◌≡◌, ◌<◌, true, List, Option, None};
ghost use Rattle.asn_values.specs.Profile.{is_one_number, is_zero_size};
ghost use Rattle.asn_values.specs.Shape.{Shape, Demand, must, Fields, sequence, closed};
ghost use Rattle.asn_values.specs.View.{range_of, size_range_of};
ghost use Rattle.asn_plan.specs.declared.plan.Kind.TheVariants as kind;
ghost use Rattle.asn_plan.specs.declared.plan.Node.{Node};
ghost use Rattle.asn_plan.specs.Nothing.{HasEntries, HasEntriesIfAny, has_nothing};
ghost use Rattle.asn_plan.specs.Plans.{IsPlan, IsPresence, ArePlans};
ghost use Rattle.asn_plan.specs.Ranged.{ranged};

use crate::lean::has_nothing;
use crate::plan::{ComponentRows, Kind, Node, Presence};
use crate::ranged::Ranged;
use asn_values::{Bounds, Size};

/// Whether there is one number between the bounds, and no extension mark.
pub(crate) fn is_one_number(bounds: &Bounds) -> bool
    ensures { result ≡ is_one_number (range_of bounds.now) }
{
    !bounds.ext
        && match bounds.low {
            Some(low) => bounds.high.is_some_and(|high| low == high),
            None => false,
        }
}

/// Whether there is no length but 0.
pub(crate) fn is_zero(size: &Size) -> bool
    ensures { result ≡ is_zero_size (size_range_of size.now) }
{
    !size.ext && size.high.is_some_and(|high| size.low == 0 && high == 0)
}

/// Whether a number has no units, by any rules; with `single`, by rules that spell the only value of a type by nothing.
fn number_has_nothing(range: &Ranged, single: bool) -> bool
    ensures { result ≡ has_nothing single (ranged range.now) }
{
    single && !range.marked && range.low == range.high
}

impl Kind {
    /// Whether a value without parts has no units, by any rules; with `single`, by rules that spell the only value of a type
    /// by nothing.
    fn is_one_entry(&self, single: bool) -> bool
        ensures { result ≡ true → (ns : List Node) (t : Shape) → IsPlan ns t self.now → HasEntries single 1 t }
    {
        match self {
            Kind::Number(number) => number_has_nothing(&number.range, single),
            Kind::Item(items) => has_nothing(&items.of.ty, single),
            Kind::Leaf(leaf) => has_nothing(&leaf.ty, single),
            Kind::Truth | Kind::Sequence(_) | Kind::List(_) | Kind::Choice(_) => false,
        }
    }
}

impl ComponentRows {
    /// How many entries the value has, where it has no units by any rules; else 0. With `single`, the same by rules that spell
    /// the only value of a type by nothing.
    fn entries_if_nothing(&self, single: bool) -> u32
        ensures { (ns : List Node) (t : Shape) → IsPlan ns t (kind.Sequence self.now)
            → HasEntriesIfAny single result t }
    {
        if single {
            return self.single_entries;
        }
        self.entries
    }
}

impl Node {
    /// How many entries the value of the component has, where it has to be there and has no units by any rules; else 0.
    /// With `single`, the same by rules that spell the only value of a type by nothing.
    pub(crate) fn entries_if_nothing(&self, single: bool) -> u32
        ensures { 0 < result → (ns : List Node) (demand : Demand) (t : Shape) → IsPresence self.now.presence demand t
            → IsPlan ns t self.now.kind → (demand ≡ must) × HasEntries single result t }
    {
        let Presence::Must = &self.presence else {
            return 0;
        };
        if let Kind::Sequence(parts) = &self.kind {
            return parts.entries_if_nothing(single);
        }
        if self.kind.is_one_entry(single) {
            return 1;
        }
        0
    }
}

/// How many entries the value of a SEQUENCE with these nodes of its root has, where it has no units by any rules; else 0.
/// With `single`, the same by rules that spell the only value of a type by nothing.
pub(crate) fn entries_of(first: &[Node], additions: Option<usize>, single: bool) -> u32
    ensures { 0 < result → (additions ≡ None) × ((ns : List Node) (root : Fields) → ArePlans ns first.now root
        → HasEntries single result (sequence root closed)) }
{
    if additions.is_some() {
        return 0;
    }
    let mut entries = 1u32;
    for part in first {
        let more = part.entries_if_nothing(single);
        if more == 0 {
            return 0;
        }
        let Some(all) = entries.checked_add(more) else {
            return 0;
        };
        entries = all;
    }
    entries
}
