//! The presence bits of extension additions, of any count that the profile allows.
ghost use Rattle.std.specs.Prelude.{◌≡◌, ◌≤◌, ◌<◌, true, IfOk, IfErr, IfSome, IsSome, IsNone, OnOk};
ghost use Rattle.asn_walk.specs.Reading.{Reads};
ghost use Rattle.asn_newer.specs.Halting.{HaltsAt, TellsPast};
ghost use Rattle.asn_newer.specs.Loose.{AnyBitmap};
ghost use Rattle.asn_newer.specs.Bitmaps.{bitmap_seen, NoneOfCount};

use crate::halt::Halt;
use crate::leaves::ReadVersions;
use asn_bits::BitCursor;
use asn_rules::internal::Stop;
use asn_values::profile::MAX_ADDITIONS;
use asn_walk::{PresenceBits, ReadLeaves};
use std::alloc::AllocError;

/// Reads the presence bits of extension additions, of which one at least is present: as many as the sender's type has,
/// from 1 to 64. `likely` is the count that is tried first, that of the receiver's type, and 0 where it has none.
///
/// # Errors
/// `Memory` where an allocation failed; else no such bits are there, of any count. `TooMany` where a count past the
/// profile begins there, and `Refused` only where none does; `Short` where the bits of a count may still follow.
pub fn read_any_bitmap<R: ReadVersions>(
    likely: u32,
    units: &mut BitCursor<'_>,
) -> Result<PresenceBits, Halt>
    requires at_unit { R.rules.at_unit units.old }
    requires few { likely ≤ 64 }
    ensures at_unit { OnOk result (R.rules.at_unit units.new) }
    ensures few { IfOk result (λ p. p.left ≤ 64) }
    ensures done { IfOk result (λ p. Reads R.rules (AnyBitmap R.rules) (bitmap_seen p) units.old units.new) }
    ensures stop { IfErr result (λ why. HaltsAt R.rules (AnyBitmap R.rules) units.old why) }
    ensures past { IfErr result (λ why. TellsPast (R.count_past (R.rules.to_units units.old)) why) }
{
    if let Some(presence) = try_likely::<R>(likely, units) {
        return Ok(presence);
    }
    let mut is_short = false;
    for count in 1..MAX_ADDITIONS as u32 + 1 {
        match try_count::<R>(count, &mut is_short, units) {
            Ok(Some(presence)) => return Ok(presence),
            Ok(None) => {}
            Err(_) => return Err(Halt::Memory),
        }
    }
    if is_short {
        return Err(Halt::Short);
    }
    if R::is_count_past(units) {
        return Err(Halt::TooMany);
    }
    Err(Halt::Refused)
}

/// Fast path: the presence bits of `count` extension additions, where they stand there; otherwise takes nothing.
#[inline(always)]
fn try_likely<R: ReadVersions>(count: u32, units: &mut BitCursor<'_>) -> Option<PresenceBits>
    requires at_unit { R.rules.at_unit units.old }
    requires few { count ≤ 64 }
    ensures at_unit { R.rules.at_unit units.new }
    ensures few { IfSome result (λ p. p.left ≤ 64) }
    ensures done { IfSome result (λ p. Reads R.rules (AnyBitmap R.rules) (bitmap_seen p) units.old units.new) }
    ensures none { IsNone result → units.new ≡ units.old }
{
    if count == 0 {
        return None;
    }
    let mut ahead = units.copied();
    let Ok(bitmap) = R::read_addition_bitmap(count, &mut ahead) else {
        return None;
    };
    *units = ahead;
    Some(PresenceBits {
        bitmap,
        left: count,
    })
}

/// Reads the presence bits of `count` extension additions, of which one at least is present. None where they do not
/// stand there: then nothing is taken, and `is_short` is set where they may still follow.
fn try_count<R: ReadVersions>(
    count: u32,
    is_short: &mut bool,
    units: &mut BitCursor<'_>,
) -> Result<Option<PresenceBits>, AllocError>
    requires at_unit { R.rules.at_unit units.old }
    requires some { 0 < count }
    requires few { count ≤ 64 }
    ensures at_unit { IfOk result (λ found. IsSome found → R.rules.at_unit units.new) }
    ensures few { IfOk result (λ found. IfSome found (λ p. p.left ≤ 64)) }
    ensures done { IfOk result (λ found. IfSome found (λ p.
        Reads R.rules (AnyBitmap R.rules) (bitmap_seen p) units.old units.new)) }
    ensures none { IfOk result (λ found. IsNone found →
        NoneOfCount R.rules count (R.rules.to_units units.old) is_short.new) }
    ensures stays { IfOk result (λ found. IsNone found → is_short.old ≡ true → is_short.new ≡ true) }
    ensures unchanged { IfOk result (λ found. IsNone found → units.new ≡ units.old) }
{
    R::keep_laws();
    let mut ahead = units.copied();
    match R::read_addition_bitmap(count, &mut ahead) {
        Ok(bitmap) => {
            *units = ahead;
            Ok(Some(PresenceBits {
                bitmap,
                left: count,
            }))
        }
        Err(Stop::Refused { .. }) => Ok(None),
        Err(Stop::Short) => {
            *is_short = true;
            Ok(None)
        }
        Err(Stop::Memory) => Err(AllocError),
    }
}
