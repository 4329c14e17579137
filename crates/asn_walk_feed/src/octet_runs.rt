//! The octets of a fragment, read where a piece has them: many at once, or one that the piece cuts.
ghost use Rattle.std.specs.Prelude.{◌≡◌, ◌≤◌, ◌<◌, ◌+◌, ◌^◌, ℕ, List, [], length, IfOk, IfErr, OnOk, IsTrue, Err, false};
ghost use Rattle.asn_rules.specs.Languages.{Short};
ghost use Rattle.asn_rules.specs.declared.stop.Stop.TheVariants as stop;
ghost use Rattle.asn_walk_feed.specs.Feeding.{Ticked, StandsAfter};
ghost use Rattle.asn_walk_feed.specs.Octets.{OctetsGoOn, StopsOctetsOn, OctetsGoOnTo};

use crate::begun::Begun;
use crate::frame::Elements;
use crate::in_fragments::InFragments;
use crate::leaf::{FeedLeaves, feed_leaf};
use crate::parts::Octet;
use crate::units::{Ticks, Units};
use asn_rules::internal::Stop;
use std::alloc::{AllocError, Global};

/// Reads the next octets of a fragment, and puts them after those that were read: those that the piece has whole, or
/// one.
///
/// # Errors
/// `Short` where all units of the piece are taken and octets are left, or as `feed_octet`.
pub(crate) fn feed_next<R: FeedLeaves, K: InFragments<R>>(
    alloc: Global,
    kind: &K,
    octets: &mut Elements<R::Fragments, u8>,
    units: &mut Units<'_>,
    ticks: &mut Ticks,
) -> Result<(), Stop>
    requires good { K.good kind.now }
    requires at_unit { R.rules.at_unit units.old }
    requires left { 0 < octets.old.left }
    requires reached { (all : List ℕ) × OctetsGoOn R.rules (K.coding kind.now) R.ahead R.is_between octets.old all
        (R.rules.to_units units.old) }
    requires few { ticks.old.taken + length (R.rules.to_units units.old) < 2 ^ 64 }
    ensures at_unit { R.rules.at_unit units.new }
    ensures done { OnOk result (OctetsGoOnTo R.rules (K.coding kind.now) R.ahead R.is_between octets.old units.old
        octets.new units.new) }
    ensures fewer { OnOk result (octets.new.left < octets.old.left) }
    ensures fragments { OnOk result (octets.new.fragments ≡ octets.old.fragments) }
    ensures shorter { OnOk result
        (length (R.rules.to_units units.new) ≤ length (R.rules.to_units units.old)) }
    ensures stop { IfErr result (λ why. StopsOctetsOn R.rules (K.coding kind.now) R.ahead R.is_between octets.old
        units.old why) }
    ensures kept { result ≡ Err stop.Short → OctetsGoOnTo R.rules (K.coding kind.now) R.ahead R.is_between octets.old
        units.old octets.new units.new }
    ensures after { IfErr result (λ why. StandsAfter R.rules units.new why) }
    ensures ticked { Ticked R.rules units.old ticks.old.taken units.new ticks.new.taken }
    ensures rising { ticks.old.taken ≤ ticks.new.taken }
    ensures inside { ticks.new.inside ≡ ticks.old.inside }
{
    R::keep_laws();
    R::keep_feed_laws();
    kind.keep_octet_laws();
    if !take_run::<R, K>(kind, octets, units, ticks)? {
        return feed_octet::<R, K>(alloc, kind, octets, units, ticks);
    }
    if are_wanted(octets.left, units) {
        return Err(Stop::Short);
    }
    Ok(())
}

/// Reads the next octet, and puts it after those that were read.
///
/// # Errors
/// `Short` where the units end before it does, `Refused` at the first unit after which none can follow, `Memory` where
/// an allocation failed.
fn feed_octet<R: FeedLeaves, K: InFragments<R>>(
    alloc: Global,
    kind: &K,
    octets: &mut Elements<R::Fragments, u8>,
    units: &mut Units<'_>,
    ticks: &mut Ticks,
) -> Result<(), Stop>
    requires good { K.good kind.now }
    requires at_unit { R.rules.at_unit units.old }
    requires left { 0 < octets.old.left }
    requires reached { (all : List ℕ) × OctetsGoOn R.rules (K.coding kind.now) R.ahead R.is_between octets.old all
        (R.rules.to_units units.old) }
    requires few { ticks.old.taken + length (R.rules.to_units units.old) < 2 ^ 64 }
    ensures at_unit { R.rules.at_unit units.new }
    ensures done { OnOk result (OctetsGoOnTo R.rules (K.coding kind.now) R.ahead R.is_between octets.old units.old
        octets.new units.new) }
    ensures fewer { OnOk result (octets.new.left < octets.old.left) }
    ensures fragments { OnOk result (octets.new.fragments ≡ octets.old.fragments) }
    ensures shorter { OnOk result
        (length (R.rules.to_units units.new) ≤ length (R.rules.to_units units.old)) }
    ensures stop { IfErr result (λ why. StopsOctetsOn R.rules (K.coding kind.now) R.ahead R.is_between octets.old
        units.old why) }
    ensures kept { result ≡ Err stop.Short → OctetsGoOnTo R.rules (K.coding kind.now) R.ahead R.is_between octets.old
        units.old octets.new units.new }
    ensures after { IfErr result (λ why. StandsAfter R.rules units.new why) }
    ensures ticked { Ticked R.rules units.old ticks.old.taken units.new ticks.new.taken }
    ensures rising { ticks.old.taken ≤ ticks.new.taken }
    ensures inside { ticks.new.inside ≡ ticks.old.inside }
{
    R::keep_laws();
    R::keep_feed_laws();
    kind.keep_octet_laws();
    let octet = feed_leaf::<R, Octet<'_, K>>(
        alloc,
        &Octet { kind },
        &mut octets.next_part,
        units,
        ticks,
    )?;
    octets.elements.push(octet)?;
    octets.next_part = Begun::none();
    octets.left -= 1;
    Ok(())
}

/// Whether octets are left to come where the piece has no unit left.
fn are_wanted(left: usize, units: &Units<'_>) -> bool
    ensures { IsTrue result → (0 < left) × (units.now ≡ []) }
{
    left > 0 && units.is_empty()
}

/// How many octets a piece has left at least where octets are taken many at once.
const LEAST: usize = 8;

/// Takes octets of a fragment that the piece has whole, many at once, and puts them after those that were read, a tick
/// for each of their units. Returns whether it took some: none where units of the next octet came before, or where the
/// piece has few octets left.
///
/// # Errors
/// `AllocError` where an allocation failed.
fn take_run<R: FeedLeaves, K: InFragments<R>>(
    kind: &K,
    octets: &mut Elements<R::Fragments, u8>,
    units: &mut Units<'_>,
    ticks: &mut Ticks,
) -> Result<bool, AllocError>
    requires good { K.good kind.now }
    requires at_unit { R.rules.at_unit units.old }
    requires left { 0 < octets.old.left }
    requires few { ticks.old.taken + length (R.rules.to_units units.old) < 2 ^ 64 }
    ensures at_unit { R.rules.at_unit units.new }
    ensures done { OnOk result (OctetsGoOnTo R.rules (K.coding kind.now) R.ahead R.is_between octets.old units.old
        octets.new units.new) }
    ensures some { IfOk result (λ some. IsTrue some → octets.new.left < octets.old.left) }
    ensures none { IfOk result (λ some. some ≡ false → octets.new.left ≡ octets.old.left) }
    ensures fresh { IfOk result (λ some. IsTrue some → octets.new.next_part ≡ []) }
    ensures wanted { IfOk result (λ some. IsTrue some → units.new ≡ []
        → Short R.rules.ruling.fielding (K.coding kind.now).octet []) }
    ensures fragments { octets.new.fragments ≡ octets.old.fragments }
    ensures shorter { length (R.rules.to_units units.new) ≤ length (R.rules.to_units units.old) }
    ensures ticked { Ticked R.rules units.old ticks.old.taken units.new ticks.new.taken }
    ensures rising { ticks.old.taken ≤ ticks.new.taken }
    ensures inside { ticks.new.inside ≡ ticks.old.inside }
{
    R::keep_laws();
    R::keep_feed_laws();
    kind.keep_octet_laws();
    let there = R::octets_left(&units.ahead());
    if !octets.next_part.is_none() || there < LEAST {
        return Ok(false);
    }
    make_room(&mut octets.elements, octets.left, there)?;
    let count = units.take_row::<R, K>(kind, octets.left, &mut octets.elements, ticks)?;
    octets.left -= count;
    Ok(count > 0)
}

/// Makes room for the next octets, of which the piece has `there`, and of which `left` are left to come: for at most
/// eight times as many octets as have come, and for none that are not left.
///
/// # Errors
/// `AllocError` where an allocation failed.
fn make_room(octets: &mut Vec<u8>, left: usize, there: usize) -> Result<(), AllocError>
    ensures { octets.new.items ≡ octets.old.items }
{
    let came = octets.len().saturating_add(there.min(left));
    if came <= octets.capacity() {
        return Ok(());
    }
    octets.reserve_exact(left.min(came.saturating_mul(7)))
}
