//! What a set of encoding rules gives to a reader: the parts of types and values that it spells by itself.
ghost use Rattle.std.specs.Prelude.{◌≡◌, ◌≤◌, ◌<◌, ◌-◌, ◌/◌, ◌%◌, true, false, IfOk, IfErr, OnOk, IfSome, IsNone, length, take};
ghost use Rattle.asn_values.specs.Datum.{number};
ghost use Rattle.asn_values.specs.Profile.{InProfile, good_default};
ghost use Rattle.asn_values.specs.View.{shape_of, datum_of, size_range_of};
ghost use Rattle.asn_rules.specs.Chunks.{open_field};
ghost use Rattle.asn_rules.specs.Frames.{Frame};
ghost use Rattle.asn_rules.specs.Padding.{Fixed};
ghost use Rattle.asn_walk.specs.Ahead.{Ahead, StopsNext};
ghost use Rattle.asn_walk.specs.Coding.{Coding, PreambleOf, AdditionBitmapOf, AreFew, IndexOf};
ghost use Rattle.asn_walk.specs.Integers.{between, IsOfProfile};
ghost use Rattle.asn_walk.specs.Laws.{Laws, IsSimple, IsSizeOfProfile};
ghost use Rattle.asn_walk.specs.Reading.{Reads, ReadsValue, ReadsOther, ReadsNext, StopsAt, ValuesOf, OthersOf};
ghost use Rattle.asn_walk.specs.Views.{preamble_seen, index_seen};

use asn_bits::BitCursor;
use asn_rules::internal::Stop;
use asn_values::{AsnType, Size, Value};
use std::alloc::Global;

/// What precedes the components of a SEQUENCE (X.691, "encoding the sequence type"; X.696, "preamble").
#[derive(Clone, Copy)]
pub struct Preamble {
    /// The extension bit: whether some extension addition is present.
    pub extended: bool,
    /// The presence bitmap of the root, its first bit the highest.
    pub bitmap: u64,
}

/// The index of an alternative, counted from 0: among those of the root, or among the extension additions.
#[derive(Clone, Copy)]
pub enum Index {
    Root(usize),
    Added(usize),
}

/// The parts of types and values that a set of encoding rules reads by itself.
///
/// A reader takes units from the front of a cursor: bits in PER, octets in OER. Where it answers `Ok` it has taken
/// exactly the spelling of the value that it gives; else `Stop` says why it stopped.
pub trait ReadLeaves {
    ghost rules: { Coding };

    /// Where a reader of a list stands between its fragments.
    type Fragments: Drop;

    ghost ahead: { Self.Fragments → Ahead };

    ghost is_between: { Self.Fragments → Type 0 };

    /// How many units are left.
    fn units_left(units: &BitCursor<'_>) -> u128
        requires at_unit { rules.at_unit units.now }
        ensures { result ≡ length (rules.to_units units.now) };

    /// How many whole octets are left.
    fn octets_left(units: &BitCursor<'_>) -> usize
        requires at_unit { rules.at_unit units.now }
        ensures { result ≡ length (rules.to_units units.now) / rules.octet_units };

    /// Reads a value of a type that is neither SEQUENCE, SEQUENCE OF nor CHOICE.
    fn read_simple(alloc: Global, ty: &AsnType, units: &mut BitCursor<'_>) -> Result<Value, Stop>
        requires at_unit { rules.at_unit units.old }
        requires of_profile { InProfile (shape_of ty.now) }
        requires simple { IsSimple (shape_of ty.now) }
        ensures at_unit { OnOk result (rules.at_unit units.new) }
        ensures done { IfOk result (λ v. ReadsValue rules ty.now v units.old units.new) }
        ensures stop { IfErr result (λ why. StopsAt rules (ValuesOf rules (shape_of ty.now)) units.old why) };

    /// Reads a value of a type that is neither SEQUENCE, SEQUENCE OF nor CHOICE into the one that is there, whose
    /// memory it may keep. At `Err` some value is left there.
    fn read_simple_into(
        alloc: Global,
        ty: &AsnType,
        units: &mut BitCursor<'_>,
        slot: &mut Value,
    ) -> Result<(), Stop>
        requires at_unit { rules.at_unit units.old }
        requires of_profile { InProfile (shape_of ty.now) }
        requires simple { IsSimple (shape_of ty.now) }
        ensures at_unit { OnOk result (rules.at_unit units.new) }
        ensures done { OnOk result (ReadsValue rules ty.now slot.new units.old units.new) }
        ensures stop { IfErr result (λ why. StopsAt rules (ValuesOf rules (shape_of ty.now)) units.old why) }
    {
        *slot = Self::read_simple(alloc, ty, units)?;
        Ok(())
    }

    /// Reads a value of the type of a component with this DEFAULT. The DEFAULT itself is refused, since an encoder
    /// leaves it out.
    fn read_other(ty: &AsnType, default: &Value, units: &mut BitCursor<'_>) -> Result<Value, Stop>
        requires at_unit { rules.at_unit units.old }
        requires of_profile { InProfile (shape_of ty.now) }
        requires good { good_default (shape_of ty.now) (datum_of default.now) ≡ true }
        ensures at_unit { OnOk result (rules.at_unit units.new) }
        ensures done { IfOk result (λ v. ReadsOther rules ty.now default.now v units.old units.new) }
        ensures stop { IfErr result (λ why.
            StopsAt rules (OthersOf rules (datum_of default.now) (shape_of ty.now)) units.old why) };

    /// Fast path: an INTEGER with these two bounds and no extension mark, where its units are at hand and it lies
    /// between them; otherwise takes nothing.
    fn try_between(low: i128, high: i128, units: &mut BitCursor<'_>) -> Option<i128>
        requires at_unit { rules.at_unit units.old }
        requires of_profile { InProfile (between low high) }
        ensures at_unit { rules.at_unit units.new }
        ensures some { IfSome result (λ z.
            Reads rules (ValuesOf rules (between low high)) (number z) units.old units.new) }
        ensures of_integers { IfSome result IsOfProfile }
        ensures none { IsNone result → units.new ≡ units.old };

    /// Fast path: a value of a type that is neither SEQUENCE, SEQUENCE OF nor CHOICE, where its units are at hand;
    /// otherwise takes nothing.
    #[inline(always)]
    fn try_simple(_alloc: Global, _ty: &AsnType, _units: &mut BitCursor<'_>) -> Option<Value>
        requires at_unit { rules.at_unit _units.old }
        requires of_profile { InProfile (shape_of _ty.now) }
        ensures at_unit { rules.at_unit _units.new }
        ensures some { IfSome result (λ v. ReadsValue rules _ty.now v _units.old _units.new) }
        ensures none { IsNone result → _units.new ≡ _units.old }
    {
        None
    }

    /// Fast path: a value of a type that is neither SEQUENCE, SEQUENCE OF nor CHOICE into the one that is there, where
    /// its units are at hand; otherwise takes nothing, and leaves some value.
    #[inline(always)]
    fn try_simple_into(_ty: &AsnType, _units: &mut BitCursor<'_>, _slot: &mut Value) -> bool
        requires at_unit { rules.at_unit _units.old }
        requires of_profile { InProfile (shape_of _ty.now) }
        ensures at_unit { rules.at_unit _units.new }
        ensures done { result ≡ true → ReadsValue rules _ty.now _slot.new _units.old _units.new }
        ensures none { result ≡ false → _units.new ≡ _units.old }
    {
        false
    }

    /// Reads the extension bit, where there is an extension mark with this many additions, and a presence bitmap of
    /// `count` bits.
    fn read_preamble(
        count: u32,
        additions: Option<usize>,
        units: &mut BitCursor<'_>,
    ) -> Result<Preamble, Stop>
        requires at_unit { rules.at_unit units.old }
        requires few { count ≤ 64 }
        ensures at_unit { OnOk result (rules.at_unit units.new) }
        ensures done { IfOk result (λ p.
            Reads rules (PreambleOf rules count additions) (preamble_seen p) units.old units.new) }
        ensures stop { IfErr result (λ why. StopsAt rules (PreambleOf rules count additions) units.old why) };

    /// Reads the presence bitmap of `count` extension additions, of which one at least is present.
    fn read_addition_bitmap(count: u32, units: &mut BitCursor<'_>) -> Result<u64, Stop>
        requires at_unit { rules.at_unit units.old }
        requires some { 0 < count }
        requires few { count ≤ 64 }
        ensures at_unit { OnOk result (rules.at_unit units.new) }
        ensures done { IfOk result (λ m. Reads rules (AdditionBitmapOf rules count) m units.old units.new) }
        ensures stop { IfErr result (λ why. StopsAt rules (AdditionBitmapOf rules count) units.old why) };

    /// Reads which alternative of a CHOICE is chosen, of `root` in the root and of this many additions, where there
    /// is an extension mark.
    fn read_index(
        root: usize,
        additions: Option<usize>,
        units: &mut BitCursor<'_>,
    ) -> Result<Index, Stop>
        requires at_unit { rules.at_unit units.old }
        requires some { 0 < root }
        requires few { AreFew root additions }
        ensures at_unit { OnOk result (rules.at_unit units.new) }
        ensures done { IfOk result (λ i.
            Reads rules (IndexOf rules root additions) (index_seen i) units.old units.new) }
        ensures stop { IfErr result (λ why. StopsAt rules (IndexOf rules root additions) units.old why) };

    /// Reads the octets of an open type field, without its length.
    fn read_open_octets(alloc: Global, units: &mut BitCursor<'_>) -> Result<Vec<u8>, Stop>
        requires at_unit { rules.at_unit units.old }
        ensures at_unit { OnOk result (rules.at_unit units.new) }
        ensures done { IfOk result (λ os.
            Reads rules (Frame rules.ruling.fielding open_field) os.items units.old units.new) }
        ensures stop { IfErr result (λ why. StopsAt rules (Frame rules.ruling.fielding open_field) units.old why) };

    /// Fast path: the octets of an open type field, without its length, where they are at hand and `into` has room for
    /// them: its first octets become these. Gives how many there are. Otherwise takes nothing.
    #[inline(always)]
    fn try_open_octets(_units: &mut BitCursor<'_>, _into: &mut [u8]) -> Option<usize>
        requires at_unit { rules.at_unit _units.old }
        ensures at_unit { rules.at_unit _units.new }
        ensures within { IfSome result (λ n. n ≤ length _into.new) }
        ensures some { IfSome result (λ n.
            Reads rules (Frame rules.ruling.fielding open_field) (take n _into.new) _units.old _units.new) }
        ensures none { IsNone result → _units.new ≡ _units.old }
    {
        None
    }

    /// Reads what fills up a complete encoding, at whose start `given` units were left.
    fn read_padding(given: u128, units: &mut BitCursor<'_>) -> Result<(), Stop>
        requires at_unit { rules.at_unit units.old }
        requires more { length (rules.to_units units.old) ≤ given }
        requires octets { given % rules.octet_units ≡ 0 }
        ensures at_unit { OnOk result (rules.at_unit units.new) }
        ensures done { IfOk result (λ v.
            Reads rules (Fixed (rules.padding (given - length (rules.to_units units.old)))) v units.old units.new) }
        ensures stop { IfErr result (λ why.
            StopsAt rules (Fixed (rules.padding (given - length (rules.to_units units.old)))) units.old why) };

    /// Reads what stands before the items of a list of this size, up to the first length determinant.
    fn start_list(size: &Size, units: &mut BitCursor<'_>) -> Result<Self::Fragments, Stop>
        requires at_unit { rules.at_unit units.old }
        requires of_profile { IsSizeOfProfile (size_range_of size.now) }
        ensures at_unit { OnOk result (rules.at_unit units.new) }
        ensures between { IfOk result is_between }
        ensures done { IfOk result (λ f.
            Reads rules (rules.list_start (size_range_of size.now)) (ahead f) units.old units.new) }
        ensures stop { IfErr result (λ why. StopsAt rules (rules.list_start (size_range_of size.now)) units.old why) };

    /// Reads on to the next fragment and gives how many items it has: none where the list has ended.
    fn next_fragment(
        fragments: &mut Self::Fragments,
        units: &mut BitCursor<'_>,
    ) -> Result<Option<usize>, Stop>
        requires at_unit { rules.at_unit units.old }
        requires between { is_between fragments.old }
        ensures at_unit { OnOk result (rules.at_unit units.new) }
        ensures between { OnOk result (is_between fragments.new) }
        ensures done { IfOk result (λ count.
            ReadsNext rules (ahead fragments.old) count (ahead fragments.new) units.old units.new) }
        ensures stop { IfErr result (λ why.
            StopsNext rules.ruling.fielding (ahead fragments.old) (rules.to_units units.old) why) };

    /// The parts keep the laws of the walk. The call does nothing: its clause is what the proofs of the walk cite.
    fn keep_laws()
        ensures { Laws rules };
}
