//! What is read of published texts: the types and their order, in which they are written.
ghost use Rattle.std.specs.Prelude.{◌<◌, ℕ, length, IfErr};
ghost use Rattle.asn_published_text.specs.Modules.{StandIn};
ghost use Rattle.asn_published.specs.TextFaults.{IsOneOf};

use crate::fault::PublishedFault;
use crate::naming::{level_mark_of, names_of};
use crate::reaching::order_for;
use asn_published_read::texts::read_texts;
use asn_published_text::modules::{What, World};
use asn_published_types::building::Forest;
use asn_published_types::numbers::numbers_of;
use asn_published_write::sources::Sources;
use asn_published_write::wanted::Wanted;
use std::alloc::{AllocError, Global};

/// Where the nodes of each type stand.
#[derive(Drop)]
struct Places {
    firsts: Vec<Option<usize>>,
    spans: Vec<Option<(usize, usize)>>,
}

impl Places {
    /// Takes the place of a type from its first node to before `end`, or that there is no type.
    fn push(&mut self, first: Option<usize>, end: usize) -> Result<(), AllocError> {
        self.firsts.push(first)?;
        self.spans.push(match first {
            Some(first) => Some((first, end)),
            None => None,
        })?;
        Ok(())
    }
}

/// Builds the nodes of a type.
fn add_type<'t>(
    alloc: Global,
    world: &World<'t>,
    forest: &mut Forest<'t>,
    places: &mut Places,
    assignment: usize,
    instance: Option<usize>,
) -> Result<(), PublishedFault>
    ensures { IfErr result (λ why. (texts : ℕ) → 0 < texts → StandIn texts world.now.modules.items
        → IsOneOf texts why) }
{
    match forest.add(alloc, world, assignment, instance) {
        Ok(first) => Ok(places.push(Some(first), forest.nodes.len())?),
        Err(fault) => Err(PublishedFault::of(world.text_of(assignment), fault)),
    }
}

/// Builds the nodes of all types: of the assignments without parameters, and then of each instance that is met.
fn places_of<'t>(
    alloc: Global,
    world: &World<'t>,
    forest: &mut Forest<'t>,
) -> Result<Places, PublishedFault>
    ensures { IfErr result (λ why. StandIn (length world.now.files.items) world.now.modules.items
        → IsOneOf (length world.now.files.items) why) }
{
    let mut places = Places {
        firsts: Vec::new(alloc),
        spans: Vec::new(alloc),
    };
    if world.files.is_empty() {
        // (no text has no type)
        return Ok(places);
    }
    for (index, assignment) in world.assignments.iter().enumerate() {
        if assignment.what == What::Type && assignment.parameters.is_none() {
            match add_type(alloc, world, forest, &mut places, index, None) {
                Ok(()) => {}
                Err(fault) => return Err(fault),
            }
        } else {
            places.push(None, 0)?;
        }
    }
    for index in 0..usize::MAX {
        let Some(instance) = forest.instances.instance(index) else {
            break;
        };
        let assignment = instance.assignment;
        match add_type(alloc, world, forest, &mut places, assignment, Some(index)) {
            Ok(()) => {}
            Err(fault) => return Err(fault),
        }
    }
    Ok(places)
}

/// Which types are written.
#[derive(Clone, Copy)]
pub(crate) enum Extent<'n> {
    All,
    /// Those that the type of a name leads to; it alone where they come to more than they may.
    Led(&'n str),
    /// The type of a name alone.
    Alone(&'n str),
}

impl<'n> Extent<'n> {
    /// The type that is wanted, where one of these names is its.
    fn wanted_of(self, names: &[String]) -> Option<Wanted> {
        let (wanted, is_alone) = match self {
            Extent::All => return None,
            Extent::Led(name) => (name, false),
            Extent::Alone(name) => (name, true),
        };
        let entry = names.iter().position(|name| *name.as_str() == *wanted)?;
        Some(Wanted { entry, is_alone })
    }
}

/// Reads the texts, and builds the nodes of all types; those are in order to which the type of a name leads, or all, and
/// are to come to no more than the bound.
pub(crate) fn sources_of<'t>(
    alloc: Global,
    texts: &[&'t str],
    extent: Extent<'_>,
    most: u32,
) -> Result<(Sources<'t>, Option<Wanted>), PublishedFault>
    ensures { IfErr result (IsOneOf (length texts.now)) }
{
    let world = read_texts(alloc, texts)?;
    let mut forest = Forest::new(alloc);
    let places = places_of(alloc, &world, &mut forest)?;
    let numbers = numbers_of(alloc, &world)?;
    let names = names_of(alloc, &world, &forest.instances)?;
    let level_mark = level_mark_of(alloc, names.as_slice())?;
    let Places { firsts, spans } = places;
    let wanted = extent.wanted_of(names.as_slice());
    let start = match wanted {
        Some(wanted) => Some(wanted.entry),
        None => None,
    };
    let order = order_for(alloc, &forest, spans.as_slice(), start)?;
    let sources = Sources {
        world,
        forest,
        numbers,
        names,
        level_mark,
        firsts,
        order,
        most,
    };
    Ok((sources, wanted))
}
