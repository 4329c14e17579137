//! The nodes of a plan.
ghost use Rattle.std.specs.Prelude.{◌≡◌, ◌+◌, ◌^◌, ◌≤◌, true, ◌-◌};
ghost use Rattle.std.proofs.Props.{props};
ghost use Rattle.asn_values.specs.Profile.{InProfile, good_default};
ghost use Rattle.asn_values.specs.View.{shape_of, datum_of, size_range_of};
ghost use Rattle.asn_plan.specs.Enumerations.{IsEnumeration};
ghost use Rattle.asn_plan.specs.Fields.{AreCountFields, AreIndexFields};
ghost use Rattle.asn_plan.specs.Ranged.{IsRanged};
ghost use Rattle.asn_walk.specs.Laws.{IsSizeOfProfile};
ghost use Rattle.asn_plan.specs.SimpleTypes.{is_simple};

use crate::enumeration::Enumeration;
use crate::field::BitFields;
use crate::fixed::FixedString;
use crate::ranged::Ranged;
use crate::word::Run;
use asn_values::{AsnType, Size, Value};

/// An INTEGER with two bounds, with what is worked out of them.
#[derive(Clone, Copy)]
pub struct Between {
    pub range: Ranged,
    ghost is_ranged: { IsRanged range },
}

/// An ENUMERATED, with what is worked out of its items.
#[derive(Drop)]
pub struct Items {
    pub of: Enumeration,
    ghost is_enumeration: { IsEnumeration of },
}

/// A type that is neither SEQUENCE, SEQUENCE OF nor CHOICE.
#[derive(Drop)]
pub struct Leaf {
    pub ty: AsnType,
    /// What is worked out of a string of one length, if it is one whose bits may be taken at once.
    pub fixed: Option<FixedString>,
    ghost of_profile: { InProfile (shape_of ty) },
    ghost simple: { is_simple (shape_of ty) ≡ true },
}

/// The type of a component, and its DEFAULT.
#[derive(Drop)]
pub struct WithDefault {
    pub ty: AsnType,
    pub default: Value,
    ghost of_profile: { InProfile (shape_of ty) },
    ghost good: { good_default (shape_of ty) (datum_of default) ≡ true },
}

/// How many units may be taken at once from here on.
#[derive(Clone, Copy)]
pub struct Runs {
    /// Those of numbers alone.
    pub numbers: Run,
    /// Those of numbers, and in bits those of strings of one length too.
    pub strings: Run,
}

/// Where the nodes of the components of a SEQUENCE are among those of the plan, counted from 0: those of the root
/// from `begin` up to `middle`, those of the extension additions from there up to `end`. All that they need comes
/// before `begin`. There may be none.
#[derive(Clone, Copy)]
pub struct ComponentRows {
    pub begin: usize,
    pub middle: usize,
    pub end: usize,
    /// How many extension additions there are, where there is an extension mark.
    pub additions: Option<usize>,
    /// How many presence bits the root has.
    pub width: u32,
    /// The highest number of this many bits, where these are no more than 64.
    pub mask: u64,
    /// The units of the extension bit and the presence bits, and the runs of the first component.
    pub head: Runs,
    /// How many entries the value has, where it has no units by any rules; else 0.
    pub entries: u32,
    /// The same by rules that spell the only value of a type by nothing.
    pub single_entries: u32,
    ghost is_mask: { width ≤ 64 → mask + 1 ≡ 2 ^ width },
}

/// How many elements a SEQUENCE OF has, and where the node of their type is among those of the plan, counted from
/// 0. All that it needs comes before it.
#[derive(Clone, Copy)]
pub struct ElementRow {
    pub size: Size,
    /// Those of the counts of the root.
    pub counts: BitFields,
    pub element: usize,
    ghost of_profile: { IsSizeOfProfile (size_range_of size) },
    ghost are_counts: { AreCountFields counts (size_range_of size) } by { Prim.hlevel props },
}

/// Where the nodes of the alternatives of a CHOICE are among those of the plan, counted from 0: those of the root
/// from `begin` up to `middle`, those of the extension additions from there up to `end`. All that they need comes
/// before `begin`.
#[derive(Clone, Copy)]
pub struct AlternativeRows {
    pub begin: usize,
    pub middle: usize,
    pub end: usize,
    /// How many extension additions there are, where there is an extension mark.
    pub additions: Option<usize>,
    /// Those of the indexes of the root.
    pub indexes: BitFields,
    ghost are_indexes: { AreIndexFields indexes (middle - begin) additions } by { Prim.hlevel props },
}

/// What is to be read.
#[derive(Drop)]
pub enum Kind {
    /// An INTEGER with two bounds, whose numbers between them have few enough bits.
    Number(Between),
    /// A BOOLEAN.
    Truth,
    /// An ENUMERATED.
    Item(Items),
    /// A value of a type that the rules read by themselves.
    Leaf(Leaf),
    /// A SEQUENCE.
    Sequence(ComponentRows),
    /// A SEQUENCE OF.
    List(ElementRow),
    /// A CHOICE.
    Choice(AlternativeRows),
}

impl Kind {
    /// Whether the value has parts, each with a node.
    #[inline(always)]
    pub(crate) fn has_parts(&self) -> bool {
        matches!(self, Kind::Sequence(_) | Kind::List(_) | Kind::Choice(_))
    }
}

/// Whether a component has to be there.
#[derive(Drop)]
pub enum Presence {
    Must,
    Optional,
    Default(WithDefault),
}

/// A node of a plan: a component, an alternative, or the type of elements.
#[derive(Drop)]
pub struct Node {
    pub presence: Presence,
    pub kind: Kind,
    /// Those of this component and of the next ones, as far as each has to be there and is read from bits or octets,
    /// or is a SEQUENCE of such components.
    pub run: Runs,
}

/// A plan of a type: the nodes of its parts, and what is to be read of the type, which comes after all of these.
#[derive(Drop)]
pub struct Plan {
    pub nodes: Vec<Node>,
    pub root: Kind,
}
