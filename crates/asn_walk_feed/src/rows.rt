//! Elements of lists that are rows of numbers: each is read as one part, by the reader of whole values, and waits as its
//! units while these begin one.
ghost use Rattle.std.specs.Prelude.{◌≡◌, ◌≤◌, ◌<◌, ◌+◌, ◌^◌, ◌++◌, ◌∷◌, ◌⊎◌, ◌<ℤ◌, ℕ, [], length, Err, IfOk, IfErr, IfSome, IsTrue, OnOk, ⊤};
ghost use Rattle.asn_values.specs.Datum.{Datum};
ghost use Rattle.asn_values.specs.Parts.{AreOfProfile};
ghost use Rattle.asn_values.specs.Profile.{InProfile};
ghost use Rattle.asn_values.specs.View.{shape_of, datum_of, fields_seen};
ghost use Rattle.asn_rules.specs.Languages.{IsLive, Spells, Short};
ghost use Rattle.asn_rules.specs.Listed.{Listed};
ghost use Rattle.asn_rules.specs.Stops.{Stops};
ghost use Rattle.asn_rules.specs.declared.stop.Stop.TheVariants as stop;
ghost use Rattle.asn_walk.specs.Laws.{IsSimple};
ghost use Rattle.asn_walk.specs.Reading.{Reads, ValuesOf};
ghost use Rattle.asn_walk_feed.specs.Feeding.{Waits, Ticked, StandsAfter};
ghost use Rattle.asn_walk_feed.specs.Nodes.{nodes};
ghost use Rattle.asn_walk_feed.specs.Small.{AreNumbers, IsNarrow, AreNarrow, IsSmall, EndIn};

use crate::begun::Begun;
use crate::frame::Frames;
use crate::leaf::{FeedLeaves, Leaf, feed_leaf, take_units};
use crate::parts::read_at_hand;
use crate::units::{Ticks, Units};
use asn_bits::BitCursor;
use asn_rules::internal::Stop;
use asn_rules::laws::are_octets;
use asn_values::{AsnType, Field, Need, Value};
use std::alloc::Global;

/// The most octets that a row may have: `Begun` holds the bits of this many while they wait.
const MOST_OCTETS: u32 = 15;

/// How many bits the octets of `Begun::filled` have.
const FILLED_BITS: u32 = 192;

/// A value of a row of numbers.
#[derive(Drop)]
pub struct Row<'a> {
    pub ty: &'a AsnType,
}

impl<'a, R: FeedLeaves> Leaf<R> for Row<'a> {
    type Out = Value;

    ghost meant = { Datum };

    ghost seen = { datum_of };

    ghost language = { λ s. ValuesOf R.rules (shape_of s.ty.now) };

    ghost good = { λ s. InProfile (shape_of s.ty.now) × IsSmall (shape_of s.ty.now) };

    ghost sound = { λ v. ⊤ };

    fn read(&self, alloc: Global, units: &mut BitCursor<'_>) -> Result<Value, Stop> {
        R::read_whole(alloc, self.ty, units)
    }

    fn be_brief(&self) {
        R::keep_laws();
        R::keep_feed_laws();
    }
}

/// Reads what is left of a row of numbers, of which these units have come. Where more are wanted, those of the piece
/// follow them in `begun`.
pub(crate) fn feed_small<R: FeedLeaves>(
    alloc: Global,
    ty: &AsnType,
    begun: &mut Begun,
    units: &mut Units<'_>,
    ticks: &mut Ticks,
) -> Result<Value, Stop>
    requires at_unit { R.rules.at_unit units.old }
    requires of_profile { InProfile (shape_of ty.now) }
    requires small { IsSmall (shape_of ty.now) }
    requires waits { Waits R.rules (ValuesOf R.rules (shape_of ty.now)) begun.old (R.rules.to_units begun.old) }
    requires few { ticks.old.taken + length (R.rules.to_units units.old) < 2 ^ 64 }
    ensures at_unit { R.rules.at_unit units.new }
    ensures done { IfOk result (λ v. Spells R.rules.ruling.fielding (ValuesOf R.rules (shape_of ty.now)) (datum_of v)
        (R.rules.to_units begun.old ++ R.rules.to_units units.old) (R.rules.to_units units.new)) }
    ensures fresh { OnOk result (begun.new ≡ []) }
    ensures stop { IfErr result (λ why. Stops R.rules.ruling.fielding (ValuesOf R.rules (shape_of ty.now))
        (R.rules.to_units begun.old ++ R.rules.to_units units.old) why) }
    ensures kept { result ≡ Err stop.Short → Waits R.rules (ValuesOf R.rules (shape_of ty.now)) begun.new
        (R.rules.to_units begun.old ++ R.rules.to_units units.old) }
    ensures after { IfErr result (λ why. StandsAfter R.rules units.new why) }
    ensures ticked { Ticked R.rules units.old ticks.old.taken units.new ticks.new.taken }
    ensures rising { ticks.old.taken ≤ ticks.new.taken }
    ensures inside { ticks.new.inside ≡ ticks.old.inside }
{
    R::keep_laws();
    R::keep_feed_laws();
    let mut joined = begun.copied();
    let further = R::extend(&mut joined, &units.ahead());
    if begins_row::<R>(alloc, ty, &joined) {
        take_units::<R>(units, further, ticks);
        *begun = joined;
        return Err(Stop::Short);
    }
    let value = feed_leaf::<R, Row<'_>>(alloc, &Row { ty }, begun, units, ticks)?;
    *begun = Begun::none();
    Ok(value)
}

/// Whether these units begin a row of which more are wanted. `false` says nothing: where a number is cut, the one that
/// goes on with zeros is tried and no other.
fn begins_row<R: FeedLeaves>(alloc: Global, ty: &AsnType, begun: &Begun) -> bool
    requires at_unit { R.rules.at_unit begun.now }
    requires of_profile { InProfile (shape_of ty.now) }
    requires small { IsSmall (shape_of ty.now) }
    ensures { IsTrue result → Short R.rules.ruling.fielding (ValuesOf R.rules (shape_of ty.now))
        (R.rules.to_units begun.now) }
{
    R::keep_laws();
    R::keep_feed_laws();
    let AsnType::Seq { root, ext: _ext } = ty else {
        return false;
    };
    let octets = begun.filled();
    are_octets(&octets);
    let filling = FILLED_BITS - begun.count();
    let mut units = BitCursor::over(&octets);
    end_in::<R>(alloc, root.as_slice(), filling, &mut units)
}

/// Whether the units in front of the last `filling` bits end within these components, in one or before it, and are those
/// of values of the ones before. `false` says nothing.
fn end_in<R: FeedLeaves>(
    alloc: Global,
    fields: &[Field],
    filling: u32,
    units: &mut BitCursor<'_>,
) -> bool
    requires at_unit { R.rules.at_unit units.old }
    requires of_profile { AreOfProfile (fields_seen fields.now) }
    requires narrow { (room : ℕ) × AreNarrow room (fields_seen fields.now) }
    requires few { length units.old ≤ FILLED_BITS }
    requires last { filling ≤ length units.old }
    ensures { IsTrue result → EndIn R.rules (fields_seen fields.now) filling (R.rules.to_units units.old) }
{
    R::keep_laws();
    R::keep_feed_laws();
    let Some((field, rest)) = fields.split_first() else {
        return false;
    };
    if bits_left(units) == filling {
        return true;
    }
    if !passes::<R>(alloc, &field.ty, units) {
        return false;
    }
    if bits_left(units) < filling {
        return true;
    }
    end_in::<R>(alloc, rest, filling, units)
}

/// How many bits are left, where they are few.
fn bits_left(units: &BitCursor<'_>) -> u32
    requires { length units.now ≤ FILLED_BITS }
    ensures { result ≡ length units.now }
{
    8 * units.octets_left() as u32 + units.rest_of_octet()
}

/// Passes a value of a simple type, where its units are there; otherwise the cursor may stand anywhere.
fn passes<R: FeedLeaves>(alloc: Global, ty: &AsnType, units: &mut BitCursor<'_>) -> bool
    requires at_unit { R.rules.at_unit units.old }
    requires of_profile { InProfile (shape_of ty.now) }
    requires simple { IsSimple (shape_of ty.now) }
    ensures at_unit { IsTrue result → R.rules.at_unit units.new }
    ensures passed { IsTrue result → (v : Datum) × Reads R.rules (ValuesOf R.rules (shape_of ty.now)) v units.old
        units.new }
{
    match ty {
        AsnType::Int(bounds) => match (bounds.low, bounds.high) {
            (Some(low), Some(high)) if !bounds.ext => R::try_between(low, high, units).is_some(),
            _ => false,
        },
        _ => read_at_hand::<R>(alloc, ty, units).is_ok(),
    }
}

/// Whether a value of which no node has begun is of a row of numbers.
pub(crate) fn is_row<F: Drop>(ty: &AsnType, frames: &Frames<F>) -> bool
    ensures small { IsTrue result → IsSmall (shape_of ty.now) }
    ensures none { IsTrue result → nodes frames.now ≡ [] }
{
    if !frames.is_none() {
        return false;
    }
    match ty {
        AsnType::Seq { root, ext: None } => are_narrow(root.as_slice(), MOST_OCTETS),
        _ => false,
    }
}

/// Whether these are BOOLEANs and numbers, always present, of at most `room` octets together.
fn are_narrow(fields: &[Field], room: u32) -> bool
    ensures { IsTrue result → AreNarrow room (fields_seen fields.now) }
{
    let Some((field, rest)) = fields.split_first() else {
        return true;
    };
    let Need::Must = field.need else {
        return false;
    };
    match octets_of(&field.ty) {
        Some(octets) if octets <= room => are_narrow(rest, room - octets),
        _ => false,
    }
}

/// How many octets the values of a BOOLEAN or of an INTEGER with two bounds have at most. `None` for other types, and
/// where there is one value or a number of more than 8 octets.
fn octets_of(ty: &AsnType) -> Option<u32>
    ensures { IfSome result (λ n. IsNarrow n (shape_of ty.now)) }
{
    match ty {
        AsnType::Bool => Some(1),
        AsnType::Int(bounds) if !bounds.ext => octets_between(bounds.low?, bounds.high?),
        _ => None,
    }
}

/// How many octets the numbers between these bounds have, 1, 2, 4 or 8: from zero on, or in two's complement where some
/// are negative. `None` where there are fewer than two, or they have more.
fn octets_between(low: i128, high: i128) -> Option<u32>
    ensures size { IfSome result (λ n. (n ≡ 1) ⊎ ((n ≡ 2) ⊎ ((n ≡ 4) ⊎ (n ≡ 8)))) }
    ensures numbers { IfSome result (λ n. AreNumbers n low high) }
{
    if high <= low {
        return None;
    }
    if low < 0 {
        return signed_octets(low, high);
    }
    if high < 1 << 8 {
        Some(1)
    } else if high < 1 << 16 {
        Some(2)
    } else if high < 1 << 32 {
        Some(4)
    } else if high < 1 << 64 {
        Some(8)
    } else {
        None
    }
}

/// The same in two's complement.
fn signed_octets(low: i128, high: i128) -> Option<u32>
    requires { low <ℤ high }
    ensures size { IfSome result (λ n. (n ≡ 1) ⊎ ((n ≡ 2) ⊎ ((n ≡ 4) ⊎ (n ≡ 8)))) }
    ensures numbers { IfSome result (λ n. AreNumbers n low high) }
{
    if -1 << 7 <= low && high < 1 << 7 {
        Some(1)
    } else if -1 << 15 <= low && high < 1 << 15 {
        Some(2)
    } else if -1 << 31 <= low && high < 1 << 31 {
        Some(4)
    } else if -1 << 63 <= low && high < 1 << 63 {
        Some(8)
    } else {
        None
    }
}
