//! Parts of few units that a piece may cut: read at once where all their units have come, else once a piece of
//! those that have come.
ghost use Rattle.std.specs.Prelude.{◌≡◌, ◌≤◌, ◌<◌, ◌+◌, ◌^◌, ◌++◌, ℕ, List, length, [], IfOk, IfErr, OnOk, IfSome, IsSome, IsNone};
ghost use Rattle.asn_values.specs.Profile.{InProfile};
ghost use Rattle.asn_values.specs.View.{shape_of, datum_of};
ghost use Rattle.asn_rules.specs.Chunks.{Chunk};
ghost use Rattle.asn_rules.specs.Languages.{Spells, Short};
ghost use Rattle.asn_rules.specs.Padding.{Fixed};
ghost use Rattle.asn_rules.specs.Stops.{Stops};
ghost use Rattle.asn_rules.specs.declared.stop.Stop.TheVariants.{Memory};
ghost use Rattle.asn_walk.specs.Reading.{Reads, ReadsValue, StopsAt, ValuesOf};
ghost use Rattle.asn_walk_feed.specs.Octets.{OctetsOf, TakesRow, start_seen};
ghost use Rattle.asn_walk_feed.specs.OpenFields.{FieldCoding, FieldLaws, StopsAfter};
ghost use Rattle.asn_walk_feed.specs.Holding.{HoldLaws};
ghost use Rattle.asn_walk_feed.specs.Keeping.{KeepLaws};
ghost use Rattle.asn_walk_feed.specs.Strings.{IsString, StringLaws, IsStringOf, IsNoString};
ghost use Rattle.asn_walk_feed.specs.Feeding.{FeedLaws, IsBrief, HasBegun, ExtendsBy, Passes, Ticked, StandsAfter, KeepsUnits};

use crate::begun::Begun;
use crate::frame::ItemsStart;
use crate::units::{Ticks, Units};
use asn_bits::BitCursor;
use asn_rules::internal::Stop;
use asn_values::{AsnType, Value};
use asn_walk::ReadLeaves;
use std::alloc::{AllocError, Global};

/// What a set of encoding rules gives to a reader of messages in pieces, in addition to its parts.
///
/// At `Ok` a method has taken exactly the units of what it gives.
///
/// # Errors
/// `Short` where the units end before the part does, `Refused` at the first unit after which none
/// can follow, `Memory` where an allocation failed.
pub trait FeedLeaves: ReadLeaves {
    ghost fields: { FieldCoding };

    /// Adds the next units to those of a part that has begun, as many as are left and have room; the cursor's stay.
    /// Gives how many they are.
    fn extend(begun: &mut Begun, units: &BitCursor<'_>) -> u32
        requires begun { Self.rules.at_unit begun.old }
        requires at_unit { Self.rules.at_unit units.now }
        ensures at_unit { Self.rules.at_unit begun.new }
        ensures few { result ≤ 128 }
        ensures extended { ExtendsBy Self.rules begun.old begun.new units.now result };

    /// Passes the next `count` units, which have to be left.
    fn pass_units(units: &mut BitCursor<'_>, count: u32)
        requires at_unit { Self.rules.at_unit units.old }
        requires few { count ≤ 128 }
        requires there { count ≤ length (Self.rules.to_units units.old) }
        ensures at_unit { Self.rules.at_unit units.new }
        ensures passed { Passes Self.rules units.old units.new count };

    /// The same place between the fragments of a list.
    fn copied(fragments: &Self::Fragments) -> Self::Fragments
        ensures { result ≡ fragments.now };

    /// Reads what stands before the octets of an open type field, up to the first length.
    fn start_octets(units: &mut BitCursor<'_>) -> Result<ItemsStart<Self::Fragments>, Stop>
        requires at_unit { Self.rules.at_unit units.old }
        ensures at_unit { OnOk result (Self.rules.at_unit units.new) }
        ensures between { IfOk result (λ s. Self.is_between s.fragments) }
        ensures done { IfOk result (λ s.
            Reads Self.rules fields.open_type.start (start_seen Self.ahead s) units.old units.new) }
        ensures stop { IfErr result (λ why. StopsAt Self.rules fields.open_type.start units.old why) };

    /// Reads an octet of an open type field.
    fn read_octet(units: &mut BitCursor<'_>) -> Result<u8, Stop>
        requires at_unit { Self.rules.at_unit units.old }
        ensures at_unit { OnOk result (Self.rules.at_unit units.new) }
        ensures done { IfOk result (λ o. Reads Self.rules fields.open_type.octet o units.old units.new) }
        ensures stop { IfErr result (λ why. StopsAt Self.rules fields.open_type.octet units.old why) };

    /// Takes octets of an open type field that have come whole, at most `most` of them, and appends them: many at once.
    /// Gives how many they are, which may be none.
    ///
    /// # Errors
    /// `AllocError` where an allocation failed.
    fn take_octets(
        most: usize,
        into: &mut Vec<u8>,
        units: &mut BitCursor<'_>,
    ) -> Result<usize, AllocError>
        requires at_unit { Self.rules.at_unit units.old }
        ensures at_unit { OnOk result (Self.rules.at_unit units.new) }
        ensures few { IfOk result (λ n. n ≤ most) }
        ensures done { IfOk result (λ n. TakesRow Self.rules fields.open_type.octet n
            into.old.items into.new.items units.old units.new) };

    /// Reads what stands before the items of a string of this type, up to the first length, and the first item where
    /// it stands there.
    fn start_string(
        ty: &AsnType,
        units: &mut BitCursor<'_>,
    ) -> Result<ItemsStart<Self::Fragments>, Stop>
        requires of_profile { InProfile (shape_of ty.now) }
        requires string { IsString (shape_of ty.now) }
        requires at_unit { Self.rules.at_unit units.old }
        ensures at_unit { OnOk result (Self.rules.at_unit units.new) }
        ensures between { IfOk result (λ s. Self.is_between s.fragments) }
        ensures done { IfOk result (λ s.
            Reads Self.rules (fields.string (shape_of ty.now)).start (start_seen Self.ahead s) units.old units.new) }
        ensures stop { IfErr result (λ why.
            StopsAt Self.rules (fields.string (shape_of ty.now)).start units.old why) };

    /// Reads an item of a string of this type: a bit, an octet or a character, or an octet of bits where the rules put
    /// the bits of a BIT STRING into octets.
    fn read_item(ty: &AsnType, units: &mut BitCursor<'_>) -> Result<u8, Stop>
        requires of_profile { InProfile (shape_of ty.now) }
        requires string { IsString (shape_of ty.now) }
        requires at_unit { Self.rules.at_unit units.old }
        ensures at_unit { OnOk result (Self.rules.at_unit units.new) }
        ensures done { IfOk result (λ o.
            Reads Self.rules (fields.string (shape_of ty.now)).octet o units.old units.new) }
        ensures stop { IfErr result (λ why.
            StopsAt Self.rules (fields.string (shape_of ty.now)).octet units.old why) };

    /// Takes items of a string of this type that have come whole, as `read_item` reads each, at most `most` of them,
    /// and appends them: many at once. Gives how many they are, which may be none.
    ///
    /// # Errors
    /// `AllocError` where an allocation failed.
    fn take_items(
        ty: &AsnType,
        most: usize,
        into: &mut Vec<u8>,
        units: &mut BitCursor<'_>,
    ) -> Result<usize, AllocError>
        requires of_profile { InProfile (shape_of ty.now) }
        requires string { IsString (shape_of ty.now) }
        requires at_unit { Self.rules.at_unit units.old }
        ensures at_unit { OnOk result (Self.rules.at_unit units.new) }
        ensures few { IfOk result (λ n. n ≤ most) }
        ensures done { IfOk result (λ n. TakesRow Self.rules (fields.string (shape_of ty.now)).octet n
            into.old.items into.new.items units.old units.new) };

    /// The string of this type that has these items, after which this many units are left.
    ///
    /// # Errors
    /// `Refused` at the last unit of the items where no string has them; `Memory` where an allocation failed.
    fn string_of(alloc: Global, ty: &AsnType, items: Vec<u8>, left: u128) -> Result<Value, Stop>
        requires of_profile { InProfile (shape_of ty.now) }
        requires string { IsString (shape_of ty.now) }
        requires spelt { (cs : List Chunk) × OctetsOf (fields.string (shape_of ty.now)) items.items cs }
        ensures done { IfOk result (λ v. IsStringOf Self.rules fields (shape_of ty.now) items.items (datum_of v)) }
        ensures stop { IfErr result (λ why. IsNoString Self.rules fields (shape_of ty.now) items.items left why) }
        ensures after { IfErr result (λ why. StopsAfter left why) };

    /// Reads a value of the type.
    fn read_whole(alloc: Global, ty: &AsnType, units: &mut BitCursor<'_>) -> Result<Value, Stop>
        requires of_profile { InProfile (shape_of ty.now) }
        requires at_unit { Self.rules.at_unit units.old }
        ensures at_unit { OnOk result (Self.rules.at_unit units.new) }
        ensures done { IfOk result (λ v. ReadsValue Self.rules ty.now v units.old units.new) }
        ensures stop { IfErr result (λ why. StopsAt Self.rules (ValuesOf Self.rules (shape_of ty.now)) units.old why) };

    /// Reads what fills up a complete encoding whose value has this many units.
    fn read_filling(value_units: u128, units: &mut BitCursor<'_>) -> Result<(), Stop>
        requires at_unit { Self.rules.at_unit units.old }
        ensures at_unit { OnOk result (Self.rules.at_unit units.new) }
        ensures done { IfOk result (λ v.
            Reads Self.rules (Fixed (Self.rules.padding value_units)) v units.old units.new) }
        ensures stop { IfErr result (λ why.
            StopsAt Self.rules (Fixed (Self.rules.padding value_units)) units.old why) };

    /// Of a part that a piece cuts, at most 120 bits have come while more are wanted. The call does
    /// nothing: its clause is what proofs cite.
    fn keep_feed_laws()
        ensures { FeedLaws Self.rules };

    /// Open type fields are octets under what stands before them. The call does nothing: its clause is what proofs
    /// cite.
    fn keep_field_laws()
        ensures { FieldLaws Self.rules fields };

    /// A string is its items, under what stands before them. The call does nothing: its clause is what proofs cite.
    fn keep_string_laws()
        ensures { StringLaws Self.rules fields };

    /// What is kept of open type fields and of UTF8Strings is their content, and other parts are no sealed fields. The
    /// call does nothing: its clause is what proofs cite.
    fn keep_kept_laws()
        ensures { KeepLaws Self.rules fields };

    /// An element of a list has a unit, and items of strings have bits. The call does nothing: its clause is what
    /// proofs cite.
    fn keep_hold_laws()
        ensures { HoldLaws Self.rules fields };
}

/// A part of few units.
///
/// At `Ok` a method has taken exactly the units of what it gives.
///
/// # Errors
/// `Short` where the units end before the part does, `Refused` at the first unit after which none
/// can follow, `Memory` where an allocation failed.
pub trait Leaf<R: ReadLeaves> {
    /// What is read.
    type Out: Drop;

    ghost meant: { Type 0 };

    ghost seen: { Self.Out → meant };

    /// Which values have which spellings.
    ghost language: { Self → meant → List Chunk → Type 0 };

    ghost good: { Self → Type 0 };

    /// What else holds of what is read.
    ghost sound: { Self.Out → Type 0 };

    /// Reads the part.
    fn read(&self, alloc: Global, units: &mut BitCursor<'_>) -> Result<Self::Out, Stop>
        requires good { good self.now }
        requires at_unit { R.rules.at_unit units.old }
        ensures at_unit { OnOk result (R.rules.at_unit units.new) }
        ensures done { IfOk result (λ v. Reads R.rules (language self.now) (seen v) units.old units.new) }
        ensures sound { IfOk result (λ v. sound v) }
        ensures stop { IfErr result (λ why. StopsAt R.rules (language self.now) units.old why) };

    /// The part is brief. The call does nothing: its clause is what proofs cite.
    fn be_brief(&self)
        requires good { good self.now }
        ensures { IsBrief R.rules (language self.now) };
}

/// Reads a part of which these units have come. Where more are wanted, those of the piece follow
/// them in `begun`. At `Ok` it has taken exactly the units of the part.
///
/// # Errors
/// `Short` where the units end before the part does, `Refused` at the first unit after which none
/// can follow, `Memory` where an allocation failed.
pub fn feed_leaf<R: FeedLeaves, L: Leaf<R>>(
    alloc: Global,
    leaf: &L,
    begun: &mut Begun,
    units: &mut Units<'_>,
    ticks: &mut Ticks,
) -> Result<L::Out, Stop>
    requires good { L.good leaf.now }
    requires begun { R.rules.at_unit begun.old }
    requires at_unit { R.rules.at_unit units.old }
    requires begins { HasBegun R.rules (L.language leaf.now) begun.old }
    requires few { ticks.old.taken + length (R.rules.to_units units.old) < 2 ^ 64 }
    ensures begun { R.rules.at_unit begun.new }
    ensures at_unit { R.rules.at_unit units.new }
    ensures done { IfOk result (λ v. Spells R.rules.ruling.fielding (L.language leaf.now) (L.seen v)
        (R.rules.to_units begun.old ++ R.rules.to_units units.old) (R.rules.to_units units.new)) }
    ensures sound { IfOk result (λ v. L.sound v) }
    ensures stop { IfErr result (λ why. Stops R.rules.ruling.fielding (L.language leaf.now)
        (R.rules.to_units begun.old ++ R.rules.to_units units.old) why) }
    ensures after { IfErr result (λ why. StandsAfter R.rules units.new why) }
    ensures kept { IfErr result (λ why. KeepsUnits R.rules begun.old units.old begun.new why) }
    ensures ticked { Ticked R.rules units.old ticks.old.taken units.new ticks.new.taken }
    ensures rising { ticks.old.taken ≤ ticks.new.taken }
    ensures inside { ticks.new.inside ≡ ticks.old.inside }
{
    R::keep_laws();
    leaf.be_brief();
    if let Some(value) = read_at_once::<R, L>(alloc, leaf, begun, units, ticks)? {
        return Ok(value);
    }
    let mut joined = begun.copied();
    let further = R::extend(&mut joined, &units.ahead());
    let octets = joined.octets();
    let mut cursor = joined.over(&octets);
    match leaf.read(alloc, &mut cursor) {
        Ok(value) => {
            let left = R::units_left(&cursor);
            take_units::<R>(units, further - left as u32, ticks);
            Ok(value)
        }
        Err(Stop::Refused { left, why }) => {
            take_units::<R>(units, further - left as u32, ticks);
            let left = R::units_left(&units.ahead());
            Err(Stop::Refused { left, why })
        }
        Err(Stop::Short) => {
            take_units::<R>(units, further, ticks);
            *begun = joined;
            Err(Stop::Short)
        }
        Err(Stop::Memory) => Err(Stop::Memory),
    }
}

/// Reads a part of the piece itself, where no unit of it has come before; where the piece has too few, they are those
/// that have come. `None` where units have come before or one of the piece is refused, and then no unit is taken.
fn read_at_once<R: FeedLeaves, L: Leaf<R>>(
    alloc: Global,
    leaf: &L,
    begun: &mut Begun,
    units: &mut Units<'_>,
    ticks: &mut Ticks,
) -> Result<Option<L::Out>, Stop>
    requires good { L.good leaf.now }
    requires begun { R.rules.at_unit begun.old }
    requires at_unit { R.rules.at_unit units.old }
    requires begins { HasBegun R.rules (L.language leaf.now) begun.old }
    requires few { ticks.old.taken + length (R.rules.to_units units.old) < 2 ^ 64 }
    ensures begun { R.rules.at_unit begun.new }
    ensures at_unit { R.rules.at_unit units.new }
    ensures done { IfOk result (λ o. IfSome o (λ v. Spells R.rules.ruling.fielding (L.language leaf.now) (L.seen v)
        (R.rules.to_units begun.old ++ R.rules.to_units units.old) (R.rules.to_units units.new))) }
    ensures sound { IfOk result (λ o. IfSome o (λ v. L.sound v)) }
    ensures still { IfOk result (λ o. IsNone o →
        (units.new ≡ units.old) × (ticks.new.taken ≡ ticks.old.taken) × (begun.new ≡ begun.old)) }
    ensures short { IfOk result (λ o. IsNone o →
        Short R.rules.ruling.fielding (L.language leaf.now) (R.rules.to_units begun.old)) }
    ensures stop { IfErr result (λ why. Stops R.rules.ruling.fielding (L.language leaf.now)
        (R.rules.to_units begun.old ++ R.rules.to_units units.old) why) }
    ensures after { IfErr result (λ why. StandsAfter R.rules units.new why) }
    ensures kept { IfErr result (λ why. KeepsUnits R.rules begun.old units.old begun.new why) }
    ensures ticked { Ticked R.rules units.old ticks.old.taken units.new ticks.new.taken }
    ensures rising { ticks.old.taken ≤ ticks.new.taken }
    ensures inside { ticks.new.inside ≡ ticks.old.inside }
{
    R::keep_feed_laws();
    leaf.be_brief();
    if !begun.is_none() {
        return Ok(None);
    }
    let mut ahead = units.ahead();
    match leaf.read(alloc, &mut ahead) {
        Ok(value) => {
            take_to::<R>(units, ahead, ticks);
            Ok(Some(value))
        }
        Err(Stop::Memory) => Err(Stop::Memory),
        Err(Stop::Short) => {
            let came = R::extend(begun, &units.ahead());
            take_units::<R>(units, came, ticks);
            Err(Stop::Short)
        }
        Err(Stop::Refused { .. }) => Ok(None),
    }
}

/// Takes the units up to where the cursor stands, a tick each.
pub(crate) fn take_to<'a, R: ReadLeaves>(
    units: &mut Units<'a>,
    ahead: BitCursor<'a>,
    ticks: &mut Ticks,
)
    requires at_unit { R.rules.at_unit units.old }
    requires ahead { R.rules.at_unit ahead }
    requires after { length (R.rules.to_units ahead) ≤ length (R.rules.to_units units.old) }
    requires few { ticks.old.taken + length (R.rules.to_units units.old) < 2 ^ 64 }
    ensures left { units.new ≡ ahead.entry }
    ensures ticked { Ticked R.rules units.old ticks.old.taken ahead.entry ticks.new.taken }
    ensures rising { ticks.old.taken ≤ ticks.new.taken }
    ensures inside { ticks.new.inside ≡ ticks.old.inside }
{
    let count = R::units_left(&units.ahead()) - R::units_left(&ahead);
    units.take_to(ahead, count as u64, ticks);
}

/// Takes the next `count` units, which have to be left, a tick each.
pub(crate) fn take_units<R: FeedLeaves>(units: &mut Units<'_>, count: u32, ticks: &mut Ticks)
    requires at_unit { R.rules.at_unit units.old }
    requires few { count ≤ 128 }
    requires there { count ≤ length (R.rules.to_units units.old) }
    requires room { ticks.old.taken + length (R.rules.to_units units.old) < 2 ^ 64 }
    ensures at_unit { R.rules.at_unit units.new }
    ensures passed { Passes R.rules units.old units.new count }
    ensures ticked { ticks.new.taken ≡ ticks.old.taken + count }
    ensures inside { ticks.new.inside ≡ ticks.old.inside }
{
    let mut ahead = units.ahead();
    R::pass_units(&mut ahead, count);
    units.take_to(ahead, u64::from(count), ticks);
}
