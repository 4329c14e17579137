//! The parts of few units that stand in values of all types.
ghost use Rattle.std.specs.Prelude.{◌≡◌, ◌≤◌, ◌<◌, ◌⊎◌, ℕ, List, Bool, true, Option, IfOk, IfErr, OnOk, vec_len, ⊤};
ghost use Rattle.std.specs.Option.{option_map};
ghost use Rattle.asn_values.specs.Datum.{Datum};
ghost use Rattle.asn_values.specs.Profile.{InProfile, good_default};
ghost use Rattle.asn_values.specs.View.{shape_of, datum_of, size_range_of};
ghost use Rattle.asn_rules.specs.Padding.{Fixed};
ghost use Rattle.asn_walk.specs.Ahead.{Ahead};
ghost use Rattle.asn_walk.specs.Coding.{PreambleOf, AdditionBitmapOf, AreFew, IndexOf};
ghost use Rattle.asn_walk.specs.Laws.{IsSimple, IsSizeOfProfile};
ghost use Rattle.asn_walk.specs.Reading.{Reads, StopsAt, ValuesOf, OthersOf};
ghost use Rattle.asn_walk.specs.Views.{preamble_seen, index_seen};
ghost use Rattle.asn_walk_feed.specs.Feeding.{IsScalar, NextOf};
ghost use Rattle.asn_walk_feed.specs.Octets.{start_seen};

use crate::frame::ItemsStart;
use crate::in_fragments::InFragments;
use crate::leaf::{FeedLeaves, Leaf};
use asn_bits::BitCursor;
use asn_rules::internal::Stop;
use asn_values::{AsnType, Size, Value};
use asn_walk::{Index, Preamble, ReadLeaves};
use std::alloc::Global;

/// A BOOLEAN, a NULL, an INTEGER or an ENUMERATED.
#[derive(Drop)]
pub struct Scalar<'a> {
    pub ty: &'a AsnType,
}

impl<'a, R: FeedLeaves> Leaf<R> for Scalar<'a> {
    type Out = Value;

    ghost meant = { Datum };

    ghost seen = { datum_of };

    ghost language = { λ s. ValuesOf R.rules (shape_of s.ty.now) };

    ghost good = { λ s. InProfile (shape_of s.ty.now) × IsScalar (shape_of s.ty.now) };

    ghost sound = { λ v. ⊤ };

    fn read(&self, alloc: Global, units: &mut BitCursor<'_>) -> Result<Value, Stop> {
        match self.ty {
            AsnType::Bool => read_at_hand::<R>(alloc, self.ty, units),
            _ => R::read_simple(alloc, self.ty, units),
        }
    }

    fn be_brief(&self) {
        R::keep_feed_laws();
    }
}

/// Reads a value of a type that is neither SEQUENCE, SEQUENCE OF nor CHOICE: in one step where the rules have one for
/// it and its units are there.
pub(crate) fn read_at_hand<R: FeedLeaves>(
    alloc: Global,
    ty: &AsnType,
    units: &mut BitCursor<'_>,
) -> Result<Value, Stop>
    requires at_unit { R.rules.at_unit units.old }
    requires of_profile { InProfile (shape_of ty.now) }
    requires simple { IsSimple (shape_of ty.now) }
    ensures at_unit { OnOk result (R.rules.at_unit units.new) }
    ensures done { IfOk result (λ v.
        Reads R.rules (ValuesOf R.rules (shape_of ty.now)) (datum_of v) units.old units.new) }
    ensures stop { IfErr result (λ why. StopsAt R.rules (ValuesOf R.rules (shape_of ty.now)) units.old why) }
{
    if let Some(value) = R::try_simple(alloc, ty, units) {
        return Ok(value);
    }
    R::read_simple(alloc, ty, units)
}

/// What precedes the elements of a SEQUENCE OF, up to the first length.
#[derive(Drop)]
pub struct ListStart<'a> {
    pub size: &'a Size,
}

impl<'a, R: FeedLeaves> Leaf<R> for ListStart<'a> {
    type Out = R::Fragments;

    ghost meant = { Ahead };

    ghost seen = { R.ahead };

    ghost language = { λ s. R.rules.list_start (size_range_of s.size.now) };

    ghost good = { λ s. IsSizeOfProfile (size_range_of s.size.now) };

    ghost sound = { R.is_between };

    fn read(&self, _alloc: Global, units: &mut BitCursor<'_>) -> Result<R::Fragments, Stop> {
        R::start_list(self.size, units)
    }

    fn be_brief(&self) {
        R::keep_feed_laws();
    }
}

/// The length of the next fragment of a SEQUENCE OF, if there is one.
#[derive(Drop)]
pub struct NextLength<'a, F> {
    pub fragments: &'a F,
}

impl<'a, R: FeedLeaves> Leaf<R> for NextLength<'a, R::Fragments> {
    type Out = (Option<usize>, R::Fragments);

    ghost meant = { Option ℕ × Ahead };

    ghost seen = { λ o. (o.0, R.ahead o.1) };

    ghost language = { λ s. NextOf (R.ahead s.fragments.now) };

    ghost good = { λ s. R.is_between s.fragments.now };

    ghost sound = { λ o. R.is_between o.1 };

    fn read(
        &self,
        _alloc: Global,
        units: &mut BitCursor<'_>,
    ) -> Result<(Option<usize>, R::Fragments), Stop> {
        let mut fragments = R::copied(self.fragments);
        let count = R::next_fragment(&mut fragments, units)?;
        Ok((count, fragments))
    }

    fn be_brief(&self) {
        R::keep_feed_laws();
    }
}

/// A value of the type of a component with this DEFAULT, other than that.
#[derive(Drop)]
pub struct Other<'a> {
    pub ty: &'a AsnType,
    pub default: &'a Value,
}

impl<'a, R: FeedLeaves> Leaf<R> for Other<'a> {
    type Out = Value;

    ghost meant = { Datum };

    ghost seen = { datum_of };

    ghost language = { λ s. OthersOf R.rules (datum_of s.default.now) (shape_of s.ty.now) };

    ghost good = { λ s.
        InProfile (shape_of s.ty.now) × (good_default (shape_of s.ty.now) (datum_of s.default.now) ≡ true) };

    ghost sound = { λ v. ⊤ };

    fn read(&self, _alloc: Global, units: &mut BitCursor<'_>) -> Result<Value, Stop> {
        R::read_other(self.ty, self.default, units)
    }

    fn be_brief(&self) {
        R::keep_feed_laws();
    }
}

/// The preamble of a SEQUENCE: of this many presence bits, and of the extension bit where there is an extension mark
/// with this many additions.
#[derive(Drop)]
pub struct Preambled {
    pub count: u32,
    pub additions: Option<usize>,
}

impl<R: FeedLeaves> Leaf<R> for Preambled {
    type Out = Preamble;

    ghost meant = { Bool × ℕ };

    ghost seen = { preamble_seen };

    ghost language = { λ s. PreambleOf R.rules s.count s.additions };

    ghost good = { λ s. s.count ≤ 64 };

    ghost sound = { λ p. ⊤ };

    fn read(&self, _alloc: Global, units: &mut BitCursor<'_>) -> Result<Preamble, Stop> {
        R::read_preamble(self.count, self.additions, units)
    }

    fn be_brief(&self) {
        R::keep_feed_laws();
    }
}

/// The presence bits of this many extension additions of a SEQUENCE, of which one at least is present.
#[derive(Drop)]
pub struct AdditionBitmap {
    pub count: u32,
}

impl<R: FeedLeaves> Leaf<R> for AdditionBitmap {
    type Out = u64;

    ghost meant = { ℕ };

    ghost seen = { λ m. m };

    ghost language = { λ s. AdditionBitmapOf R.rules s.count };

    ghost good = { λ s. (0 < s.count) × (s.count ≤ 64) };

    ghost sound = { λ m. ⊤ };

    fn read(&self, _alloc: Global, units: &mut BitCursor<'_>) -> Result<u64, Stop> {
        R::read_addition_bitmap(self.count, units)
    }

    fn be_brief(&self) {
        R::keep_feed_laws();
    }
}

/// What selects the alternative of a CHOICE: of this many in the root, and of this many extension additions where there
/// is an extension mark.
#[derive(Drop)]
pub struct Indexed {
    pub root: usize,
    pub additions: Option<usize>,
}

impl<R: FeedLeaves> Leaf<R> for Indexed {
    type Out = Index;

    ghost meant = { ℕ ⊎ ℕ };

    ghost seen = { index_seen };

    ghost language = { λ s. IndexOf R.rules s.root s.additions };

    ghost good = { λ s. (0 < s.root) × AreFew s.root s.additions };

    ghost sound = { λ i. ⊤ };

    fn read(&self, _alloc: Global, units: &mut BitCursor<'_>) -> Result<Index, Stop> {
        R::read_index(self.root, self.additions, units)
    }

    fn be_brief(&self) {
        R::keep_feed_laws();
    }
}

/// What precedes octets in fragments, up to the first length.
#[derive(Drop)]
pub struct OctetsStart<'a, K> {
    pub kind: &'a K,
}

impl<'a, R: FeedLeaves, K: InFragments<R>> Leaf<R> for OctetsStart<'a, K> {
    type Out = ItemsStart<R::Fragments>;

    ghost meant = { List ℕ × Ahead };

    ghost seen = { λ s. start_seen R.ahead s };

    ghost language = { λ s. (K.coding s.kind.now).start };

    ghost good = { λ s. K.good s.kind.now };

    ghost sound = { λ s. R.is_between s.fragments };

    fn read(
        &self,
        _alloc: Global,
        units: &mut BitCursor<'_>,
    ) -> Result<ItemsStart<R::Fragments>, Stop> {
        self.kind.start(units)
    }

    fn be_brief(&self) {
        self.kind.keep_octet_laws();
    }
}

/// An octet of those.
#[derive(Drop)]
pub struct Octet<'a, K> {
    pub kind: &'a K,
}

impl<'a, R: FeedLeaves, K: InFragments<R>> Leaf<R> for Octet<'a, K> {
    type Out = u8;

    ghost meant = { ℕ };

    ghost seen = { λ o. o };

    ghost language = { λ s. (K.coding s.kind.now).octet };

    ghost good = { λ s. K.good s.kind.now };

    ghost sound = { λ o. ⊤ };

    #[inline(always)]
    fn read(&self, _alloc: Global, units: &mut BitCursor<'_>) -> Result<u8, Stop> {
        self.kind.read_octet(units)
    }

    fn be_brief(&self) {
        self.kind.keep_octet_laws();
    }
}

/// What fills up a complete encoding whose value has this many units.
#[derive(Drop)]
pub struct Filling {
    pub value_units: u128,
}

impl<R: FeedLeaves> Leaf<R> for Filling {
    type Out = ();

    ghost meant = { ⊤ };

    ghost seen = { λ v. v };

    ghost language = { λ s. Fixed (R.rules.padding s.value_units) };

    ghost good = { λ s. ⊤ };

    ghost sound = { λ v. ⊤ };

    fn read(&self, _alloc: Global, units: &mut BitCursor<'_>) -> Result<(), Stop> {
        R::read_filling(self.value_units, units)
    }

    fn be_brief(&self) {
        R::keep_feed_laws();
    }
}

/// The number of extension additions; `None` where there is no extension mark.
pub(crate) fn addition_count<T>(ext: &Option<Vec<T>>) -> Option<usize>
    ensures { result ≡ option_map vec_len ext.now }
{
    match ext {
        None => None,
        Some(additions) => Some(additions.len()),
    }
}
