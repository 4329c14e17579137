//! The reader of octets that stand in fragments, which goes on where it stopped: those of an open type field, and the
//! items of a string, each of which is held as an octet.
ghost use Rattle.std.specs.Prelude.{◌≡◌, ◌≤◌, ◌<◌, ◌+◌, ◌^◌, ◌++◌, ℕ, List, [], length, IfOk, IfErr, OnOk, IsNone, Err};
ghost use Rattle.asn_rules.specs.Languages.{Spells};
ghost use Rattle.asn_rules.specs.Stops.{Stops};
ghost use Rattle.asn_rules.specs.declared.stop.Stop.TheVariants.{Short, Memory};
ghost use Rattle.asn_walk_feed.specs.Feeding.{Waits, Ticked, StandsAfter};
ghost use Rattle.asn_walk_feed.specs.Nodes.{nodes, HaveOctets};
ghost use Rattle.asn_walk_feed.specs.Octets.{OctetsOf, OctetsGoOn, ReadsOctetsOn, StopsOctetsOn, OctetsGoOnTo, OctetsTook, KeepsOctets, ReadsOctetsFrom, StopsOctetsFrom, KeepsOctetsFrom, HasRead, NodeGoesOn, NodeHasRead, StopsNode, first_octets};
ghost use Rattle.asn_walk_feed.specs.Taken.{with_node};

use crate::begun::Begun;
use crate::frame::{Elements, Frame, Frames};
use crate::in_fragments::InFragments;
use crate::leaf::{FeedLeaves, feed_leaf};
use crate::lists::next_fragment;
use crate::octet_runs::feed_next;
use crate::parts::OctetsStart;
use crate::units::{Ticks, Units};
use asn_rules::internal::Stop;
use std::alloc::Global;

/// Reads what is left of octets that stand in fragments, without their lengths, of which these nodes have begun.
pub(crate) fn feed_octets<R: FeedLeaves, K: InFragments<R>>(
    alloc: Global,
    kind: &K,
    frames: &mut Frames<R::Fragments>,
    units: &mut Units<'_>,
    ticks: &mut Ticks,
) -> Result<Vec<u8>, Stop>
    requires good { K.good kind.now }
    requires at_unit { R.rules.at_unit units.old }
    requires reached { (us : List ℕ) × OctetsTook R.rules (K.coding kind.now) R.ahead R.is_between
        (nodes frames.old) us }
    requires few { ticks.old.taken + length (R.rules.to_units units.old) < 2 ^ 64 }
    ensures at_unit { R.rules.at_unit units.new }
    ensures done { IfOk result (λ os. ReadsOctetsFrom R.rules (K.coding kind.now) R.ahead R.is_between
        (nodes frames.old) os.items units.old units.new) }
    ensures emptied { OnOk result (nodes frames.new ≡ []) }
    ensures stop { IfErr result (λ why. StopsOctetsFrom R.rules (K.coding kind.now) R.ahead R.is_between
        (nodes frames.old) units.old why) }
    ensures kept { IfErr result (λ why. KeepsOctetsFrom R.rules (K.coding kind.now) R.ahead R.is_between
        (nodes frames.old) (nodes frames.new) units.old why) }
    ensures after { IfErr result (λ why. StandsAfter R.rules units.new why) }
    ensures ticked { Ticked R.rules units.old ticks.old.taken units.new ticks.new.taken }
    ensures rising { ticks.old.taken ≤ ticks.new.taken }
    ensures inside { ticks.new.inside ≡ ticks.old.inside }
{
    if frames.have_octets() {
        return resume_in_place::<R, K>(alloc, kind, frames, units, ticks);
    }
    let node = frames.take();
    resume_octets::<R, K>(alloc, kind, node, frames, units, ticks)
}

/// Reads what is left of the octets of the one node that has begun. They stay in it where the units end first.
fn resume_in_place<R: FeedLeaves, K: InFragments<R>>(
    alloc: Global,
    kind: &K,
    frames: &mut Frames<R::Fragments>,
    units: &mut Units<'_>,
    ticks: &mut Ticks,
) -> Result<Vec<u8>, Stop>
    requires good { K.good kind.now }
    requires at_unit { R.rules.at_unit units.old }
    requires begun { HaveOctets (nodes frames.old) }
    requires reached { (us : List ℕ) × OctetsTook R.rules (K.coding kind.now) R.ahead R.is_between
        (nodes frames.old) us }
    requires few { ticks.old.taken + length (R.rules.to_units units.old) < 2 ^ 64 }
    ensures at_unit { R.rules.at_unit units.new }
    ensures done { IfOk result (λ os. ReadsOctetsFrom R.rules (K.coding kind.now) R.ahead R.is_between
        (nodes frames.old) os.items units.old units.new) }
    ensures emptied { OnOk result (nodes frames.new ≡ []) }
    ensures stop { IfErr result (λ why. StopsOctetsFrom R.rules (K.coding kind.now) R.ahead R.is_between
        (nodes frames.old) units.old why) }
    ensures kept { IfErr result (λ why. KeepsOctetsFrom R.rules (K.coding kind.now) R.ahead R.is_between
        (nodes frames.old) (nodes frames.new) units.old why) }
    ensures after { IfErr result (λ why. StandsAfter R.rules units.new why) }
    ensures ticked { Ticked R.rules units.old ticks.old.taken units.new ticks.new.taken }
    ensures rising { ticks.old.taken ≤ ticks.new.taken }
    ensures inside { ticks.new.inside ≡ ticks.old.inside }
{
    feed_in_place::<R, K>(alloc, kind, frames, units, ticks)?;
    let Some(Frame::Octets(octets)) = frames.take() else {
        unreachable!()
    };
    Ok(octets.elements)
}

/// Reads the octets that are left, and puts them after those of the one node that has begun.
fn feed_in_place<R: FeedLeaves, K: InFragments<R>>(
    alloc: Global,
    kind: &K,
    frames: &mut Frames<R::Fragments>,
    units: &mut Units<'_>,
    ticks: &mut Ticks,
) -> Result<(), Stop>
    requires good { K.good kind.now }
    requires at_unit { R.rules.at_unit units.old }
    requires begun { HaveOctets (nodes frames.old) }
    requires reached { (us : List ℕ) × OctetsTook R.rules (K.coding kind.now) R.ahead R.is_between
        (nodes frames.old) us }
    requires few { ticks.old.taken + length (R.rules.to_units units.old) < 2 ^ 64 }
    ensures at_unit { R.rules.at_unit units.new }
    ensures done { OnOk result (HasRead R.rules (K.coding kind.now) R.ahead R.is_between
        (nodes frames.old) (nodes frames.new) units.old units.new) }
    ensures stop { IfErr result (λ why. StopsOctetsFrom R.rules (K.coding kind.now) R.ahead R.is_between
        (nodes frames.old) units.old why) }
    ensures kept { IfErr result (λ why. KeepsOctetsFrom R.rules (K.coding kind.now) R.ahead R.is_between
        (nodes frames.old) (nodes frames.new) units.old why) }
    ensures after { IfErr result (λ why. StandsAfter R.rules units.new why) }
    ensures ticked { Ticked R.rules units.old ticks.old.taken units.new ticks.new.taken }
    ensures rising { ticks.old.taken ≤ ticks.new.taken }
    ensures inside { ticks.new.inside ≡ ticks.old.inside }
{
    R::keep_laws();
    R::keep_feed_laws();
    kind.keep_octet_laws();
    let Some(node) = frames.stack.last_mut() else {
        unreachable!()
    };
    feed_node::<R, K>(alloc, kind, node, units, ticks)
}

/// Reads the octets that are left, and puts them after those of the node, which has octets.
fn feed_node<R: FeedLeaves, K: InFragments<R>>(
    alloc: Global,
    kind: &K,
    node: &mut Frame<R::Fragments>,
    units: &mut Units<'_>,
    ticks: &mut Ticks,
) -> Result<(), Stop>
    requires good { K.good kind.now }
    requires at_unit { R.rules.at_unit units.old }
    requires reached { (all : List ℕ) × NodeGoesOn R.rules (K.coding kind.now) R.ahead R.is_between node.old all
        (R.rules.to_units units.old) }
    requires few { ticks.old.taken + length (R.rules.to_units units.old) < 2 ^ 64 }
    ensures at_unit { R.rules.at_unit units.new }
    ensures done { OnOk result (NodeHasRead R.rules (K.coding kind.now) R.ahead R.is_between node.old node.new
        units.old units.new) }
    ensures stop { IfErr result (λ why. StopsNode R.rules (K.coding kind.now) R.ahead R.is_between node.old
        units.old why) }
    ensures kept { result ≡ Err Short → ((all : List ℕ) → NodeGoesOn R.rules (K.coding kind.now) R.ahead
        R.is_between node.old all (R.rules.to_units units.old)
        → NodeGoesOn R.rules (K.coding kind.now) R.ahead R.is_between node.new all (R.rules.to_units units.new)) }
    ensures after { IfErr result (λ why. StandsAfter R.rules units.new why) }
    ensures ticked { Ticked R.rules units.old ticks.old.taken units.new ticks.new.taken }
    ensures rising { ticks.old.taken ≤ ticks.new.taken }
    ensures inside { ticks.new.inside ≡ ticks.old.inside }
{
    match node {
        Frame::Octets(octets) => feed_fragments::<R, K>(alloc, kind, octets, units, ticks),
        Frame::Start(_) => unreachable!(),
        Frame::Elements(_) => unreachable!(),
        Frame::Components(_) => unreachable!(),
        Frame::Bitmap(_) => unreachable!(),
        Frame::Additions(_) => unreachable!(),
        Frame::Chosen(_) => unreachable!(),
        Frame::Added(_) => unreachable!(),
    }
}

/// Reads what is left of the octets, of which this node has begun.
fn resume_octets<R: FeedLeaves, K: InFragments<R>>(
    alloc: Global,
    kind: &K,
    node: Option<Frame<R::Fragments>>,
    frames: &mut Frames<R::Fragments>,
    units: &mut Units<'_>,
    ticks: &mut Ticks,
) -> Result<Vec<u8>, Stop>
    requires good { K.good kind.now }
    requires at_unit { R.rules.at_unit units.old }
    requires reached { (us : List ℕ) × OctetsTook R.rules (K.coding kind.now) R.ahead R.is_between
        (with_node node (nodes frames.old)) us }
    requires last { IsNone node → nodes frames.old ≡ [] }
    requires few { ticks.old.taken + length (R.rules.to_units units.old) < 2 ^ 64 }
    ensures at_unit { R.rules.at_unit units.new }
    ensures done { IfOk result (λ os. ReadsOctetsFrom R.rules (K.coding kind.now) R.ahead R.is_between
        (with_node node (nodes frames.old)) os.items units.old units.new) }
    ensures emptied { OnOk result (nodes frames.new ≡ []) }
    ensures stop { IfErr result (λ why. StopsOctetsFrom R.rules (K.coding kind.now) R.ahead R.is_between
        (with_node node (nodes frames.old)) units.old why) }
    ensures kept { IfErr result (λ why. KeepsOctetsFrom R.rules (K.coding kind.now) R.ahead R.is_between
        (with_node node (nodes frames.old)) (nodes frames.new) units.old why) }
    ensures after { IfErr result (λ why. StandsAfter R.rules units.new why) }
    ensures ticked { Ticked R.rules units.old ticks.old.taken units.new ticks.new.taken }
    ensures rising { ticks.old.taken ≤ ticks.new.taken }
    ensures inside { ticks.new.inside ≡ ticks.old.inside }
{
    R::keep_laws();
    R::keep_feed_laws();
    kind.keep_octet_laws();
    match node {
        Some(Frame::Octets(octets)) => end_octets::<R, K>(
            alloc, kind, octets, frames, units, ticks,
        ),
        Some(Frame::Start(begun)) => start_octets::<R, K>(alloc, kind, begun, frames, units, ticks),
        None => start_octets::<R, K>(alloc, kind, Begun::none(), frames, units, ticks),
        Some(Frame::Elements(_list)) => unreachable!(),
        Some(Frame::Components(_read)) => unreachable!(),
        Some(Frame::Bitmap(_part)) => unreachable!(),
        Some(Frame::Additions(_read)) => unreachable!(),
        Some(Frame::Chosen(_)) => unreachable!(),
        Some(Frame::Added(_)) => unreachable!(),
    }
}

/// Reads what is left of what stands before the octets, and then these.
fn start_octets<R: FeedLeaves, K: InFragments<R>>(
    alloc: Global,
    kind: &K,
    begun: Begun,
    frames: &mut Frames<R::Fragments>,
    units: &mut Units<'_>,
    ticks: &mut Ticks,
) -> Result<Vec<u8>, Stop>
    requires good { K.good kind.now }
    requires at_unit { R.rules.at_unit units.old }
    requires empty { nodes frames.old ≡ [] }
    requires waits { Waits R.rules (K.coding kind.now).start begun (R.rules.to_units begun) }
    requires few { ticks.old.taken + length (R.rules.to_units units.old) < 2 ^ 64 }
    ensures at_unit { R.rules.at_unit units.new }
    ensures done { IfOk result (λ os. Spells R.rules.ruling.fielding (OctetsOf (K.coding kind.now))
        os.items (R.rules.to_units begun ++ R.rules.to_units units.old) (R.rules.to_units units.new)) }
    ensures emptied { OnOk result (nodes frames.new ≡ []) }
    ensures stop { IfErr result (λ why. Stops R.rules.ruling.fielding (OctetsOf (K.coding kind.now))
        (R.rules.to_units begun ++ R.rules.to_units units.old) why) }
    ensures kept { IfErr result (λ why. KeepsOctets R.rules (K.coding kind.now) R.ahead R.is_between (nodes frames.new)
        (R.rules.to_units begun ++ R.rules.to_units units.old) why) }
    ensures after { IfErr result (λ why. StandsAfter R.rules units.new why) }
    ensures ticked { Ticked R.rules units.old ticks.old.taken units.new ticks.new.taken }
    ensures rising { ticks.old.taken ≤ ticks.new.taken }
    ensures inside { ticks.new.inside ≡ ticks.old.inside }
{
    R::keep_laws();
    R::keep_feed_laws();
    kind.keep_octet_laws();
    let mut begun = begun;
    match feed_leaf::<R, OctetsStart<'_, K>>(
        alloc,
        &OctetsStart { kind },
        &mut begun,
        units,
        ticks,
    ) {
        Ok(start) => {
            let elements = first_elements(alloc, start.first)?;
            let octets = Elements {
                elements,
                left: 0,
                fragments: start.fragments,
                next_part: Begun::none(),
            };
            end_octets::<R, K>(alloc, kind, octets, frames, units, ticks)
        }
        Err(Stop::Short) => match frames.put(Frame::Start(begun)) {
            Ok(()) => Err(Stop::Short),
            Err(_) => Err(Stop::Memory),
        },
        Err(Stop::Refused { left, why }) => Err(Stop::Refused { left, why }),
        Err(Stop::Memory) => Err(Stop::Memory),
    }
}

/// The first octet, where one stands before the first length.
fn first_elements(alloc: Global, first: Option<u8>) -> Result<Vec<u8>, Stop>
    ensures items { IfOk result (λ os. os.items ≡ first_octets first) }
    ensures memory { IfErr result (λ why. why ≡ Memory) }
{
    let mut elements = Vec::new(alloc);
    if let Some(octet) = first {
        elements.push(octet)?;
    }
    Ok(elements)
}

/// Reads the octets that are left.
fn end_octets<R: FeedLeaves, K: InFragments<R>>(
    alloc: Global,
    kind: &K,
    octets: Elements<R::Fragments, u8>,
    frames: &mut Frames<R::Fragments>,
    units: &mut Units<'_>,
    ticks: &mut Ticks,
) -> Result<Vec<u8>, Stop>
    requires good { K.good kind.now }
    requires at_unit { R.rules.at_unit units.old }
    requires empty { nodes frames.old ≡ [] }
    requires reached { (all : List ℕ) × OctetsGoOn R.rules (K.coding kind.now) R.ahead R.is_between octets all
        (R.rules.to_units units.old) }
    requires few { ticks.old.taken + length (R.rules.to_units units.old) < 2 ^ 64 }
    ensures at_unit { R.rules.at_unit units.new }
    ensures done { IfOk result (λ os. ReadsOctetsOn R.rules (K.coding kind.now) R.ahead R.is_between octets os.items
        units.old units.new) }
    ensures emptied { OnOk result (nodes frames.new ≡ []) }
    ensures stop { IfErr result (λ why. StopsOctetsOn R.rules (K.coding kind.now) R.ahead R.is_between octets
        units.old why) }
    ensures kept { IfErr result (λ why. (all : List ℕ) → OctetsGoOn R.rules (K.coding kind.now) R.ahead R.is_between
        octets all (R.rules.to_units units.old) → KeepsOctets R.rules (K.coding kind.now) R.ahead R.is_between
        (nodes frames.new) all why) }
    ensures after { IfErr result (λ why. StandsAfter R.rules units.new why) }
    ensures ticked { Ticked R.rules units.old ticks.old.taken units.new ticks.new.taken }
    ensures rising { ticks.old.taken ≤ ticks.new.taken }
    ensures inside { ticks.new.inside ≡ ticks.old.inside }
{
    R::keep_laws();
    R::keep_feed_laws();
    kind.keep_octet_laws();
    let mut octets = octets;
    match feed_fragments::<R, K>(alloc, kind, &mut octets, units, ticks) {
        Ok(()) => Ok(octets.elements),
        Err(Stop::Short) => match frames.put(Frame::Octets(octets)) {
            Ok(()) => Err(Stop::Short),
            Err(_) => Err(Stop::Memory),
        },
        Err(Stop::Refused { left, why }) => Err(Stop::Refused { left, why }),
        Err(Stop::Memory) => Err(Stop::Memory),
    }
}

/// Reads the octets that are left, and puts them after those that were read.
fn feed_fragments<R: FeedLeaves, K: InFragments<R>>(
    alloc: Global,
    kind: &K,
    octets: &mut Elements<R::Fragments, u8>,
    units: &mut Units<'_>,
    ticks: &mut Ticks,
) -> Result<(), Stop>
    requires good { K.good kind.now }
    requires at_unit { R.rules.at_unit units.old }
    requires reached { (all : List ℕ) × OctetsGoOn R.rules (K.coding kind.now) R.ahead R.is_between octets.old all
        (R.rules.to_units units.old) }
    requires few { ticks.old.taken + length (R.rules.to_units units.old) < 2 ^ 64 }
    ensures at_unit { R.rules.at_unit units.new }
    ensures done { OnOk result (ReadsOctetsOn R.rules (K.coding kind.now) R.ahead R.is_between octets.old
        octets.new.elements.items units.old units.new) }
    ensures stop { IfErr result (λ why. StopsOctetsOn R.rules (K.coding kind.now) R.ahead R.is_between octets.old
        units.old why) }
    ensures kept { result ≡ Err Short → OctetsGoOnTo R.rules (K.coding kind.now) R.ahead R.is_between octets.old
        units.old octets.new units.new }
    ensures after { IfErr result (λ why. StandsAfter R.rules units.new why) }
    ensures ticked { Ticked R.rules units.old ticks.old.taken units.new ticks.new.taken }
    ensures rising { ticks.old.taken ≤ ticks.new.taken }
    ensures inside { ticks.new.inside ≡ ticks.old.inside }
{
    R::keep_laws();
    R::keep_feed_laws();
    kind.keep_octet_laws();
    loop {
        feed_fragment::<R, K>(alloc, kind, octets, units, ticks)?;
        if !next_fragment::<R, u8>(alloc, octets, units, ticks)? {
            return Ok(());
        }
    }
}

/// Reads the octets that are left of a fragment, and puts them after those that were read.
fn feed_fragment<R: FeedLeaves, K: InFragments<R>>(
    alloc: Global,
    kind: &K,
    octets: &mut Elements<R::Fragments, u8>,
    units: &mut Units<'_>,
    ticks: &mut Ticks,
) -> Result<(), Stop>
    requires good { K.good kind.now }
    requires at_unit { R.rules.at_unit units.old }
    requires reached { (all : List ℕ) × OctetsGoOn R.rules (K.coding kind.now) R.ahead R.is_between octets.old all
        (R.rules.to_units units.old) }
    requires few { ticks.old.taken + length (R.rules.to_units units.old) < 2 ^ 64 }
    ensures at_unit { R.rules.at_unit units.new }
    ensures done { OnOk result (OctetsGoOnTo R.rules (K.coding kind.now) R.ahead R.is_between octets.old units.old
        octets.new units.new) }
    ensures over { OnOk result (octets.new.left ≡ 0) }
    ensures fragments { OnOk result (octets.new.fragments ≡ octets.old.fragments) }
    ensures shorter { OnOk result
        (length (R.rules.to_units units.new) ≤ length (R.rules.to_units units.old)) }
    ensures stop { IfErr result (λ why. StopsOctetsOn R.rules (K.coding kind.now) R.ahead R.is_between octets.old
        units.old why) }
    ensures kept { result ≡ Err Short → OctetsGoOnTo R.rules (K.coding kind.now) R.ahead R.is_between octets.old
        units.old octets.new units.new }
    ensures after { IfErr result (λ why. StandsAfter R.rules units.new why) }
    ensures ticked { Ticked R.rules units.old ticks.old.taken units.new ticks.new.taken }
    ensures rising { ticks.old.taken ≤ ticks.new.taken }
    ensures inside { ticks.new.inside ≡ ticks.old.inside }
{
    while octets.left > 0 {
        feed_next::<R, K>(alloc, kind, octets, units, ticks)?;
    }
    Ok(())
}
